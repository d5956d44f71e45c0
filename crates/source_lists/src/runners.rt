//! What each step of a run needs.

use run_options::Options;
use std::alloc::Global;

/// The threads and the memory of a run, and what is asked for.
#[derive(Clone, Copy)]
pub(crate) struct Runner<'a, T> {
    pub(crate) rt: &'a T,
    pub(crate) alloc: Global,
    pub(crate) options: &'a Options,
    /// Whether samples of equal stacks are summed, where no gate is asked.
    pub(crate) is_summed: bool,
}
