//! Pictures in SVG, piece by piece.
ghost use Rattle.std.specs.Prelude.{◌≡◌, ◌+◌, ◌<◌, ◌≤◌, ◌^◌, All, IfOk, OnOk, length};
ghost use Rattle.std.specs.Io.{StartsWith};
ghost use Rattle.std.specs.List.{concat};
ghost use Rattle.svg_texts.specs.Drawn.{picture_of};
ghost use Rattle.svg_texts.specs.Svg.{own_weight, svg_text};
ghost use Rattle.svg_texts.specs.checked.Pieces.{svg_pieces};

use crate::frames::Frame;
use crate::pictures::Picture;
use crate::shown_texts::shown_text;
use crate::svg_boxes::append_box;
use crate::svg_frames::{append_foot, append_heading};
use crate::tallies::tally_of;
use byte_io::Pieces;
use flame_layout::FlameBoxes;
use std::alloc::{AllocError, Global};

/// A picture in SVG. What stands before the boxes, each box, and what stands behind them is a piece; that of a box that is
/// not drawn is empty.
#[derive(Drop)]
pub struct Svg<'a, L: FlameBoxes> {
    frame: Frame<'a>,
    boxes: L,
    ghost within: { All (λ box. box.span.start + box.span.weight ≤ frame.picture.now.total) (L.boxes boxes) },
    ghost positive: { 0 < length (L.boxes boxes) → 0 < frame.picture.now.total },
}

impl<'a, L: FlameBoxes + Drop> Svg<'a, L> {
    /// The picture of these boxes.
    pub fn of(alloc: Global, picture: &'a Picture<'a>, boxes: L) -> Result<Svg<'a, L>, AllocError>
        requires within { All (λ box. box.span.start + box.span.weight ≤ picture.now.total) (L.boxes boxes) }
        requires positive { 0 < length (L.boxes boxes) → 0 < picture.now.total }
        requires own { own_weight (L.boxes boxes) < 2 ^ 64 }
        ensures text { IfOk result (λ svg. concat (⟦<Svg<'a, L> as Pieces>⟧.pieces svg)
            ≡ svg_text (picture_of picture.now) (L.boxes boxes)) }
        ensures few { IfOk result (λ svg. length (⟦<Svg<'a, L> as Pieces>⟧.pieces svg) < 2 ^ 64) }
    {
        let _count = boxes.count();
        let unit = shown_text(alloc, picture.unit)?;
        let tally = tally_of(picture, &boxes);
        let frame = Frame {
            picture,
            unit,
            tally,
        };
        Ok(Svg { frame, boxes })
    }
}

impl<L: FlameBoxes> Pieces for Svg<'_, L> {
    ghost pieces = { λ svg. svg_pieces (picture_of svg.frame.picture.now) svg.frame.tally (L.boxes svg.boxes) };

    fn count(&self) -> usize {
        self.boxes.count() + 2
    }

    fn append_piece(&self, _alloc: Global, at: usize, out: &mut Vec<u8>) -> Result<(), AllocError> {
        if at == 0 {
            append_heading(out, &self.frame)
        } else if at <= self.boxes.count() {
            append_box(out, &self.boxes.get(at - 1), &self.frame)
        } else {
            append_foot(out, &self.frame)
        }
    }
}
