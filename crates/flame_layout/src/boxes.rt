//! The boxes of a picture.

use stack_core::{Names, Text};

/// A box before it is placed: a run of samples whose stacks begin with the same names.
#[derive(Debug, Drop)]
pub struct SpanBox {
    /// How many names the run's samples have in common here. The root box has 0.
    pub depth: u32,
    /// The last of these names, and `all` for the root box.
    pub name: Text,
    /// The sum of the weights before the run.
    pub start: u64,
    /// The sum of the weights of the run.
    pub weight: u64,
    /// The sum of the weights of those samples of the run that end in this frame.
    pub own: u64,
}

/// A `SpanBox` whose name is borrowed from what it was drawn of, so that it takes no memory of its own.
#[derive(Clone, Copy, Debug)]
pub struct DrawnBox<'a> {
    /// As in `SpanBox`.
    pub depth: u32,
    /// As in `SpanBox`.
    pub name: &'a str,
    /// As in `SpanBox`.
    pub start: u64,
    /// As in `SpanBox`.
    pub weight: u64,
    /// As in `SpanBox`.
    pub own: u64,
}

/// A box with its edges in an image.
#[derive(Debug, Drop)]
pub struct PlacedBox {
    /// As in `SpanBox`.
    pub depth: u32,
    /// As in `SpanBox`.
    pub name: Text,
    /// As in `SpanBox`.
    pub start: u64,
    /// As in `SpanBox`.
    pub weight: u64,
    /// As in `SpanBox`.
    pub own: u64,
    /// Where the box begins, in pixels from the left.
    pub left: u32,
    /// Where it ends. The box is drawn up to this edge.
    pub right: u32,
}

/// A path with its weights in two profiles.
#[derive(Debug, Drop)]
pub struct PairRow {
    /// The names of the path, root first. The root path has none.
    pub path: Names,
    /// The sum of the weights of the samples of the first profile whose stack begins with the path.
    pub total_before: u64,
    /// The same of the second profile.
    pub total_after: u64,
    /// The sum of the weights of the samples of the first profile whose stack is the path.
    pub own_before: u64,
    /// The same of the second profile.
    pub own_after: u64,
}

/// A box of the second profile's flame graph, beside the first profile.
#[derive(Debug, Drop)]
pub struct ComparedBox {
    /// The box, as the second profile alone has it.
    pub span: SpanBox,
    /// The sum of the weights of the samples of the first profile whose stack begins with the
    /// box's path.
    pub before: u64,
}

/// A `ComparedBox` whose name is borrowed from what it was drawn of.
#[derive(Clone, Copy, Debug)]
pub struct DrawnPair<'a> {
    /// The box, as the second profile alone has it.
    pub drawn: DrawnBox<'a>,
    /// As `before` in `ComparedBox`.
    pub total_before: u64,
}

/// A box of a picture, however its list keeps it.
#[derive(Clone, Copy, Debug)]
pub struct PictureBox<'a> {
    /// The box.
    pub drawn: DrawnBox<'a>,
    /// In a comparison, the weight of its path in the other profile.
    pub before: Option<u64>,
}
