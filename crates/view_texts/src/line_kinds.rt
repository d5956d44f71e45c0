//! What the lines of JSON have before their boxes.

// What a line of JSON has before its boxes.
#[derive(Clone, Copy, Debug)]
pub(crate) enum LineKind {
    // A picture: nothing.
    Picture,
    // A snapshot: after how many samples it was made. It has their counts by source after its boxes.
    Snapshot { at: u64 },
    // A comparison: the total of the profile before.
    Comparison { before: u64 },
}
