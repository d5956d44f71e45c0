//! A stack sample, and the table that keeps the samples of a source: each name once, stacks as the numbers of
//! their names, and samples as the numbers of their stacks.
#![tactic(auto)]

mod entries;
pub mod laws;
mod number_cache;
mod samples;
mod stacks;
mod tables;
mod values;

pub use number_cache::{NumberCache, hash_of_name};
pub use samples::{FRAME_LIMIT, Sample, WEIGHT_LIMIT};
pub use stacks::{FlatStacks, Span};
pub use tables::RowTable;
pub use values::{Listed, Names, Text};
