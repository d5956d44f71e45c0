//! What a ring carries: names told once, rows of their numbers, and rows told again.

use crate::endings::Close;
use sample_tables::{Listed, Text};

/// An item of a ring. Number k stands for the k-th name that was told in that ring, from 0.
#[derive(Clone, Debug, PartialEq, Eq, Drop)]
pub enum RingRecord {
    /// The next name. It gets the least number that no name has.
    Name(Text),
    /// A sample, whose frames are the numbers of names told before it, root first.
    Row { frames: Listed<usize>, weight: u64 },
    /// A sample with the frames of the row of this number: the row-th that was told in that ring, from 0.
    Again { row: usize, weight: u64 },
    /// The end of what is told.
    Close(Close),
}
