//! Sources, read into lists: a reader for each, what a filter keeps, and the order in which the samples came.
#![tactic(auto)]

mod cut_lists;
mod cut_stacks;
mod filtered_reader;
mod gating;
mod input_readers;
mod inputs;
mod joined_names;
mod joined_stacks;
mod kept_lists;
mod kept_order;
mod kept_stacks;
pub mod laws;
mod loaded_sources;
mod name_marks;
mod open_runs;
mod part_lists;
mod part_runs;
mod reader_runs;
mod reading;
mod run_faults;
mod runners;
mod source_lists;
mod source_reader;
mod source_readers;
mod source_types;
mod sources;
mod stored_profile;
mod strictness;
mod summed_rows;
mod unkept_samples;
mod unreadable_sources;

pub use folded_lines::{StrictFault, StrictKind};
pub use gating::Gating;
pub use inputs::Input;
pub use reading::{Run, read, read_open};
pub use run_faults::RunFault;
pub use source_lists::SourceLists;
pub use source_types::chosen_types;
pub use sources::Source;
pub use strictness::strict_faults;
