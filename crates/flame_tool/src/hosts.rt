//! What a run has of its host.

use std::alloc::Global;

/// The threads and the memory of a run.
#[derive(Clone, Copy)]
pub(crate) struct Host<'a, T> {
    pub(crate) rt: &'a T,
    pub(crate) alloc: Global,
}
