//! The line of a box.
ghost use Rattle.std.specs.Prelude.{◌≡◌, ℕ, ◌+◌, ◌≤◌, ◌<◌, ◌^◌, ◌++◌, codes, Option, OnOk};
ghost use Rattle.std.specs.Io.{StartsWith};
ghost use Rattle.flame_layout.specs.Boxes.{seen_of, span_of};
ghost use Rattle.svg_texts.specs.Labels.{label};
ghost use Rattle.svg_texts.specs.Drawn.{picture_of};
ghost use Rattle.svg_texts.specs.Svg.{both_in_tip, box_line, change_of, compared_in, fill_with, label_element, left_of, name_in_tip, part_in, plain_fill, rect_element, right_of, tip, title_element, top_of, weights_in_tip, whole_of};
ghost use Rattle.svg_texts.specs.checked.Pieces.{box_piece};

use crate::changes::{Compared, append_said_change};
use crate::elements::append_text_tag;
use crate::fills::{append_compared_fill, append_name_fill, append_root_fill};
use crate::frames::Frame;
use crate::labels::{append_label, room_on};
use crate::pictures::Picture;
use crate::said_weights::append_weight_in;
use crate::shown_texts::append_shown;
use flame_layout::{DrawnBox, PictureBox, edges};
use function_sums::Change;
use std::alloc::AllocError;
use view_texts::{append_number, append_share};

// Appends the line of a box, or nothing where its edges fall together.
pub(crate) fn append_box(
    out: &mut Vec<u8>,
    one: &PictureBox<'_>,
    frame: &Frame<'_>,
) -> Result<(), AllocError>
    requires within { one.now.drawn.start + one.now.drawn.weight ≤ frame.now.picture.now.total }
    requires positive { 0 < frame.now.picture.now.total }
    ensures ok { OnOk result (out.new.items ≡ out.old.items
        ++ box_piece (picture_of frame.now.picture.now) frame.now.tally.rows (seen_of one.now)) }
    ensures front { StartsWith out.new.items out.old.items }
{
    let (left, right) = edges(&one.drawn, frame.picture.total, frame.picture.width);
    if left == right {
        return Ok(());
    }
    append_box_line(out, left, right, one, frame)
}

// Appends the line of a box between its edges.
fn append_box_line(
    out: &mut Vec<u8>,
    left: u32,
    right: u32,
    one: &PictureBox<'_>,
    frame: &Frame<'_>,
) -> Result<(), AllocError>
    requires left { left ≡ left_of (picture_of frame.now.picture.now) (seen_of one.now) }
    requires right { right ≡ right_of (picture_of frame.now.picture.now) (seen_of one.now) }
    ensures ok { OnOk result (out.new.items ≡ out.old.items
        ++ box_line (picture_of frame.now.picture.now) frame.now.tally.rows (seen_of one.now)) }
    ensures front { StartsWith out.new.items out.old.items }
{
    let (left, width) = (u64::from(left), u64::from(right.saturating_sub(left)));
    let top = top_of(&one.drawn, frame);
    out.extend_from_slice(b"<g>")?;
    append_tip_element(out, one, frame)?;
    let change = change_of(one, frame.picture);
    append_rect_element(out, left, top, width, &one.drawn, change)?;
    append_label_element(
        out,
        left + 4,
        top + 13,
        room_on(width),
        one.drawn.name,
        change,
    )?;
    out.extend_from_slice(b"</g>\n")
}

// How far below the upper edge of the picture a box begins.
fn top_of(drawn: &DrawnBox<'_>, frame: &Frame<'_>) -> u64
    ensures top { (before : Option ℕ) → result ≡ top_of (picture_of frame.now.picture.now) frame.now.tally.rows
        (record { span = span_of drawn.now; before = before }) }
    ensures few { result < 2 ^ 63 }
{
    let depth = u64::from(drawn.depth);
    if frame.picture.root_below {
        18 * frame.tally.rows.saturating_sub(depth)
    } else {
        18 * (depth + 1)
    }
}

// Appends the element of what is said of a box.
#[tactic(auto, unfolding(crate::specs::Svg::title_element))]
fn append_tip_element(
    out: &mut Vec<u8>,
    one: &PictureBox<'_>,
    frame: &Frame<'_>,
) -> Result<(), AllocError>
    ensures ok { OnOk result (out.new.items ≡ out.old.items
        ++ title_element (tip (picture_of frame.now.picture.now) (seen_of one.now))) }
    ensures front { StartsWith out.new.items out.old.items }
{
    out.extend_from_slice(b"<title>")?;
    append_tip(out, one, frame)?;
    out.extend_from_slice(b"</title>")
}

fn append_tip(out: &mut Vec<u8>, one: &PictureBox<'_>, frame: &Frame<'_>) -> Result<(), AllocError>
    ensures ok { OnOk result (out.new.items ≡ out.old.items
        ++ tip (picture_of frame.now.picture.now) (seen_of one.now)) }
    ensures front { StartsWith out.new.items out.old.items }
{
    append_name_in_tip(out, one.drawn.name)?;
    out.extend_from_slice(b": ")?;
    append_weights_in_tip(out, one.drawn.weight, one.before, frame)?;
    append_weight_in(out, b", own ", one.drawn.own, frame)
}

fn append_name_in_tip(out: &mut Vec<u8>, name: &str) -> Result<(), AllocError>
    ensures ok { OnOk result (out.new.items ≡ out.old.items ++ name_in_tip name.now) }
    ensures front { StartsWith out.new.items out.old.items }
{
    if name.is_empty() {
        out.extend_from_slice(b"(empty name)")
    } else {
        append_shown(out, name)
    }
}

fn append_weights_in_tip(
    out: &mut Vec<u8>,
    weight: u64,
    before: Option<u64>,
    frame: &Frame<'_>,
) -> Result<(), AllocError>
    ensures ok { OnOk result (out.new.items ≡ out.old.items
        ++ weights_in_tip (picture_of frame.now.picture.now) weight before) }
    ensures front { StartsWith out.new.items out.old.items }
{
    let total = frame.picture.total;
    match before {
        None => append_part_in(out, b"", weight, total, frame),
        Some(before) => append_both_in_tip(out, before, weight, frame),
    }
}

// Appends the weights of a path in both profiles, and the change.
fn append_both_in_tip(
    out: &mut Vec<u8>,
    before: u64,
    after: u64,
    frame: &Frame<'_>,
) -> Result<(), AllocError>
    ensures ok { OnOk result (out.new.items ≡ out.old.items
        ++ both_in_tip (picture_of frame.now.picture.now) frame.now.picture.now.total_before before after) }
    ensures front { StartsWith out.new.items out.old.items }
{
    let compared = compared_in(frame.picture, before, after);
    match frame.picture.total_before {
        None => {
            append_weight_in(out, b"before ", before, frame)?;
            append_weight_in(out, b", after ", after, frame)?;
            out.extend_from_slice(b", ")?;
            append_said_change(out, compared)?;
            out.extend_from_slice(b", ")?;
            append_share(out, after, frame.picture.total)
        }
        Some(total_before) => {
            append_part_in(out, b"before ", before, total_before, frame)?;
            append_part_in(out, b", after ", after, frame.picture.total, frame)?;
            out.extend_from_slice(b", points ")?;
            append_said_change(out, compared)
        }
    }
}

// Appends a literal piece, a weight, and its part of a whole.
fn append_part_in(
    out: &mut Vec<u8>,
    piece: &[u8],
    weight: u64,
    whole: u64,
    frame: &Frame<'_>,
) -> Result<(), AllocError>
    ensures ok { OnOk result (out.new.items
        ≡ out.old.items ++ (piece.now ++ part_in (picture_of frame.now.picture.now) whole weight)) }
    ensures front { StartsWith out.new.items out.old.items }
{
    append_weight_in(out, piece, weight, frame)?;
    out.extend_from_slice(b", ")?;
    append_share(out, weight, whole)
}

// Appends the rectangle of a box.
#[tactic(auto, unfolding(crate::specs::Svg::rect_element))]
fn append_rect_element(
    out: &mut Vec<u8>,
    left: u64,
    top: u64,
    width: u64,
    drawn: &DrawnBox<'_>,
    change: Option<Compared>,
) -> Result<(), AllocError>
    ensures ok { OnOk result (out.new.items ≡ out.old.items
        ++ rect_element left top width (fill_with (span_of drawn.now) change)) }
    ensures front { StartsWith out.new.items out.old.items }
{
    append_number(out, b"<rect x=\"", left)?;
    append_number(out, b"\" y=\"", top)?;
    append_number(out, b"\" width=\"", width)?;
    append_fill_attribute(out, drawn, change)
}

// Appends what stands behind the width of a box: its height and its colour.
fn append_fill_attribute(
    out: &mut Vec<u8>,
    drawn: &DrawnBox<'_>,
    change: Option<Compared>,
) -> Result<(), AllocError>
    ensures ok { OnOk result (out.new.items ≡ out.old.items
        ++ (codes "\" height=\"17\" fill=\"" ++ (fill_with (span_of drawn.now) change ++ codes "\"/>"))) }
    ensures front { StartsWith out.new.items out.old.items }
{
    out.extend_from_slice(b"\" height=\"17\" fill=\"")?;
    append_fill(out, drawn, change)?;
    out.extend_from_slice(b"\"/>")
}

fn append_fill(
    out: &mut Vec<u8>,
    drawn: &DrawnBox<'_>,
    change: Option<Compared>,
) -> Result<(), AllocError>
    ensures ok { OnOk result (out.new.items ≡ out.old.items ++ fill_with (span_of drawn.now) change) }
    ensures front { StartsWith out.new.items out.old.items }
{
    match change {
        Some(compared) => append_compared_fill(out, compared),
        None => append_plain_fill(out, drawn),
    }
}

fn append_plain_fill(out: &mut Vec<u8>, drawn: &DrawnBox<'_>) -> Result<(), AllocError>
    ensures ok { OnOk result (out.new.items ≡ out.old.items ++ plain_fill (span_of drawn.now)) }
    ensures front { StartsWith out.new.items out.old.items }
{
    if drawn.depth == 0 {
        append_root_fill(out)
    } else {
        append_name_fill(out, drawn.name)
    }
}

// Appends the element of a box's label, if it has one.
fn append_label_element(
    out: &mut Vec<u8>,
    left: u64,
    base: u64,
    room: usize,
    name: &str,
    change: Option<Compared>,
) -> Result<(), AllocError>
    ensures ok { OnOk result (out.new.items ≡ out.old.items ++ label_element left base (label room name.now change)) }
    ensures front { StartsWith out.new.items out.old.items }
{
    let start = out.len();
    append_text_tag(out, left, base)?;
    let inside = out.len();
    append_label(out, room, name, change)?;
    if out.len() > inside {
        return out.extend_from_slice(b"</text>");
    }
    out.truncate(start);
    Ok(())
}

// What is compared of a box's path, in a comparison.
fn change_of(one: &PictureBox<'_>, picture: &Picture<'_>) -> Option<Compared>
    ensures { result ≡ change_of (picture_of picture.now) (seen_of one.now) }
{
    let before = one.before?;
    Some(compared_in(picture, before, one.drawn.weight))
}

// The weights of a path before and after, and what both profiles weigh, where shares are compared.
fn compared_in(picture: &Picture<'_>, before: u64, after: u64) -> Compared
    ensures { result ≡ compared_in (picture_of picture.now) before after }
{
    Compared {
        weights: Change { before, after },
        whole: whole_of(picture),
    }
}

fn whole_of(picture: &Picture<'_>) -> Option<Change>
    ensures { result ≡ whole_of (picture_of picture.now) }
{
    let before = picture.total_before?;
    let after = picture.total;
    Some(Change { before, after })
}
