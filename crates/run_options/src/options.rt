//! What a run is asked for beside its view.

use crate::choices::{Naming, Pick};
use crate::filters::Filter;
use crate::ring_sizes::RingSize;

/// How sources are read and collected.
#[derive(Debug, Drop)]
pub struct Options {
    /// How many items the ring of each source holds.
    pub ring: RingSize,
    /// Which value of a pprof sample is its weight.
    pub pick: Pick,
    /// How the frames of pprof profiles are named.
    pub naming: Naming,
    /// Which samples are kept.
    pub filter: Filter,
    /// After how many collected samples, each time, a snapshot is taken. None are taken without it.
    pub every: Option<u64>,
}
