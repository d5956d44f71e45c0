//! Rows of the ranks of frames' names, sorted, joined and weighed; and the ranks of the names that lists were told.
#![tactic(auto)]

mod gathered_rows;
mod keyed_rows;
mod name_ranks;
mod rows;
mod sorting;
mod told_names;

pub use gathered_rows::GatheredRows;
pub use keyed_rows::KeyedRow;
pub use name_ranks::NameRanks;
pub use rows::{RankedRow, RankedRows};
pub use sorting::{Alone, InThreads, Sorting};
