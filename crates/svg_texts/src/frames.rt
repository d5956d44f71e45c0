//! What is known of a picture before its first box is written.
ghost use Rattle.std.specs.Prelude.{◌≡◌, ◌≤◌, ◌^◌};
ghost use Rattle.std.specs.String.{string_bytes};
ghost use Rattle.svg_texts.specs.Shown.{shown};

use crate::pictures::Picture;

// How many rows the boxes that are drawn take, how many others there are, and their own weight.
#[derive(Clone, Copy)]
pub(crate) struct Tally {
    pub(crate) rows: u64,
    pub(crate) left_boxes: u64,
    pub(crate) left_weight: u64,
    ghost few: { rows ≤ 2 ^ 32 },
}

// A picture, its unit as it is shown, and what is known of all its boxes.
#[derive(Drop)]
pub(crate) struct Frame<'a> {
    pub(crate) picture: &'a Picture<'a>,
    pub(crate) unit: String,
    pub(crate) tally: Tally,
    ghost shown: { string_bytes unit ≡ shown picture.now.unit.now },
}
