//! Samples, merged: a sink that merges them as they arrive, and the lists of a run with what is merged of them.
#![tactic(auto)]

mod collection;
pub mod laws;
mod list_samples;
mod noted_numbers;
mod row_merge;
mod snapshots;
mod summed_stacks;
mod taken_rows;
mod tally;
mod tree_sink;

pub use collection::Gathered;
pub use row_merge::RowMerge;
pub use snapshots::Snapshot;
pub use tree_sink::TreeSink;
