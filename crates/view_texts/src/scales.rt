//! What the boxes of an image are measured by.

use flame_layout::Width;

/// The width of an image, and the weight that the whole of it stands for.
#[derive(Clone, Copy, Debug, PartialEq, Eq)]
pub struct Scale {
    /// The sum of the weights that the boxes lie within.
    pub total: u64,
    /// The width of the image.
    pub width: Width,
}
