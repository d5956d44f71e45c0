//! Weights in the unit of a picture.
ghost use Rattle.std.specs.Prelude.{◌≡◌, ◌++◌, OnOk};
ghost use Rattle.std.specs.Io.{StartsWith};
ghost use Rattle.svg_texts.specs.Drawn.{picture_of};
ghost use Rattle.svg_texts.specs.Svg.{weight_in};

use crate::frames::Frame;
use std::alloc::AllocError;
use view_texts::append_weight;

// Appends a literal piece and a weight.
pub(crate) fn append_weight_in(
    out: &mut Vec<u8>,
    piece: &[u8],
    weight: u64,
    frame: &Frame<'_>,
) -> Result<(), AllocError>
    ensures ok { OnOk result (out.new.items
        ≡ out.old.items ++ (piece.now ++ weight_in (picture_of frame.now.picture.now) weight)) }
    ensures front { StartsWith out.new.items out.old.items }
{
    out.extend_from_slice(piece)?;
    append_weight(out, weight, frame.unit.as_str())
}
