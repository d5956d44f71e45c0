//! What stands round the boxes of a picture.

use run_options::Width;

/// What stands round the boxes of a picture, and how they are placed.
#[derive(Clone, Copy, Debug)]
pub struct Picture<'a> {
    /// What the picture is called.
    pub title: &'a str,
    /// The unit of all weights as a profile names it, as `nanoseconds`, and empty where there is none.
    pub unit: &'a str,
    /// The weight that the boxes span.
    pub total: u64,
    /// What all samples of the profile before weigh, where a comparison is of shares of that and of the total, and not of weights.
    pub total_before: Option<u64>,
    /// The width of the picture.
    pub width: Width,
    /// Whether the root is the lowest row. Else it is the highest.
    pub root_below: bool,
}
