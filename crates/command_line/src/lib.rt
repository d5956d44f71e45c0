//! The command line: from words to the plan of a run.
#![tactic(auto)]

mod argument_lists;
mod arguments;
mod commands;
mod destinations;
mod early_values;
mod entered;
mod entries;
mod plans;
mod refusals;
mod units;
mod usages;
mod views;
mod words;

pub use destinations::{Destination, asked_destination};
pub use plans::{
    CallTable, DiffTable, Form, PageForm, PictureForm, Plan, PlanFault, TopTable, View,
};
pub use units::WeightUnit;
pub use words::{plan, plan_without_words};
