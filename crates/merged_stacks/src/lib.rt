//! Merged stacks: the samples of some lists by stack, each stack with weight once, in order.
#![tactic(auto)]

mod growing;
mod list_sums;
mod merged;
mod paired;
mod paired_sides;
mod stack_rows;
mod sweeps;
mod totals;

pub use growing::GrowingStacks;
pub use merged::MergedStacks;
pub use paired::PairedStacks;
pub use paired_sides::{PairedSide, Side};
pub use ranked_rows::{Alone, InThreads, Sorting};
pub use stack_rows::StackRows;
pub use totals::total_weight;
