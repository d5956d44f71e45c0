//! A sample and its limits.

use crate::values::Names;

/// The most frames that a stack has.
pub const FRAME_LIMIT: usize = 4_096;

/// The greatest weight of a sample, and the greatest sum of the weights of one source.
pub const WEIGHT_LIMIT: u64 = 72_057_594_037_927_935;

/// One stack sample: where the program stood, and how much that weighs.
#[derive(Clone, Debug, PartialEq, Eq, Drop)]
pub struct Sample {
    /// The names of the frames, root first.
    pub stack: Names,
    /// A count, or a sum of the chosen value, as the source gives it.
    pub weight: u64,
}
