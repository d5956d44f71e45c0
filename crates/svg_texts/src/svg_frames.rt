//! What stands before the boxes of a picture, and behind them.
ghost use Rattle.std.specs.Prelude.{◌≡◌, ◌<◌, ◌^◌, ◌-◌, ◌++◌, OnOk};
ghost use Rattle.std.specs.Io.{StartsWith};
ghost use Rattle.svg_texts.specs.Drawn.{picture_of};
ghost use Rattle.svg_texts.specs.Svg.{foot, heading, height_of, narrower_boxes, paper_element, svg_tag, told_left_out};

use crate::elements::{append_text_element, append_text_tag, append_title_element};
use crate::frames::Frame;
use crate::said_weights::append_weight_in;
use std::alloc::AllocError;
use view_texts::append_number;

// Appends what stands before the boxes.
pub(crate) fn append_heading(out: &mut Vec<u8>, frame: &Frame<'_>) -> Result<(), AllocError>
    ensures ok { OnOk result (out.new.items ≡ out.old.items
        ++ heading (picture_of frame.now.picture.now) frame.now.tally.rows) }
    ensures front { StartsWith out.new.items out.old.items }
{
    let width = u64::from(frame.picture.width.get());
    let height = height_of(frame);
    append_svg_tag(out, width, height)?;
    out.extend_from_slice(b"\n")?;
    append_title_element(out, frame.picture.title)?;
    out.extend_from_slice(b"\n")?;
    append_paper(out, width, height)?;
    out.extend_from_slice(b"\n")?;
    append_text_element(out, 4, 15, frame.picture.title)?;
    out.extend_from_slice(b"\n")
}

fn height_of(frame: &Frame<'_>) -> u64
    ensures { result ≡ height_of frame.now.tally.rows }
{
    18 * (frame.tally.rows + 2)
}

fn append_svg_tag(out: &mut Vec<u8>, width: u64, height: u64) -> Result<(), AllocError>
    ensures ok { OnOk result (out.new.items ≡ out.old.items ++ svg_tag width height) }
    ensures front { StartsWith out.new.items out.old.items }
{
    append_number(
        out,
        b"<svg xmlns=\"http://www.w3.org/2000/svg\" width=\"",
        width,
    )?;
    append_number(out, b"\" height=\"", height)?;
    append_number(out, b"\" viewBox=\"0 0 ", width)?;
    append_number(out, b" ", height)?;
    out.extend_from_slice(b"\" font-family=\"monospace\" font-size=\"12\">")
}

// Appends the rectangle below all others.
fn append_paper(out: &mut Vec<u8>, width: u64, height: u64) -> Result<(), AllocError>
    ensures ok { OnOk result (out.new.items ≡ out.old.items ++ paper_element width height) }
    ensures front { StartsWith out.new.items out.old.items }
{
    append_number(out, b"<rect width=\"", width)?;
    append_number(out, b"\" height=\"", height)?;
    out.extend_from_slice(b"\" fill=\"#fbfbf9\"/>")
}

// Appends what stands behind the boxes.
pub(crate) fn append_foot(out: &mut Vec<u8>, frame: &Frame<'_>) -> Result<(), AllocError>
    ensures ok { OnOk result (out.new.items ≡ out.old.items
        ++ foot (picture_of frame.now.picture.now) frame.now.tally.rows
        frame.now.tally.left_boxes frame.now.tally.left_weight) }
    ensures front { StartsWith out.new.items out.old.items }
{
    append_text_tag(out, 4, height_of(frame) - 5)?;
    append_weight_in(out, b"total ", frame.picture.total, frame)?;
    append_told_left_out(out, frame)?;
    out.extend_from_slice(b"</text>\n</svg>\n")
}

// Appends what is told of boxes that are left out, if there are any.
fn append_told_left_out(out: &mut Vec<u8>, frame: &Frame<'_>) -> Result<(), AllocError>
    ensures ok { OnOk result (out.new.items ≡ out.old.items
        ++ told_left_out (picture_of frame.now.picture.now)
        frame.now.tally.left_boxes frame.now.tally.left_weight) }
    ensures front { StartsWith out.new.items out.old.items }
{
    let count = frame.tally.left_boxes;
    if count == 0 {
        return Ok(());
    }
    append_number(out, b" \xc2\xb7 ", count)?;
    out.extend_from_slice(narrower_boxes(count))?;
    append_weight_in(out, b" left out, in which ", frame.tally.left_weight, frame)?;
    out.extend_from_slice(b" ends")
}

fn narrower_boxes(count: u64) -> &'static [u8]
    ensures { result.now ≡ narrower_boxes count }
{
    if count == 1 {
        b" narrower box"
    } else {
        b" narrower boxes"
    }
}
