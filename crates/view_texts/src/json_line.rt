//! A line of JSON, piece by piece.

ghost use Rattle.std.specs.Prelude.{◌≡◌, ◌+◌, ◌<◌, ◌≤◌, ◌^◌, ◌++◌, [], false, All, length, map, slice_index_or, slice_range, OnOk};
ghost use Rattle.std.specs.Io.{StartsWith};
ghost use Rattle.std.specs.List.{concat};
ghost use Rattle.view_texts.specs.Lines.{head_of, counts_of, seen_data, tail_of, ending_of, line_text};
ghost use Rattle.view_texts.specs.Pieces.{line_pieces, value_pieces};

use crate::box_writers::BoxWriter;
use crate::json_boxes::append_box;
use crate::json_pieces::{append_comma, append_number, append_numbers, append_text};
use crate::line_kinds::LineKind;
use crate::scales::Scale;
use byte_io::Pieces;
use flame_layout::FlameBoxes;
use std::alloc::{AllocError, Global};

/// A line of JSON with boxes. What stands before them, each box, and what stands after them is a piece.
#[derive(Drop)]
pub struct JsonLine<'a, L: FlameBoxes> {
    kind: LineKind,
    view: &'a str,
    counts: &'a [u64],
    boxes: L,
    scale: Scale,
    ghost within: { All (λ box. box.span.start + box.span.weight ≤ scale.total) (L.boxes boxes) },
    ghost positive: { 0 < length (L.boxes boxes) → 0 < scale.total },
}

impl<'a, L: FlameBoxes> JsonLine<'a, L> {
    // The line of these boxes, in an image of that scale. Counts are those of a snapshot.
    pub(crate) fn of(
        kind: LineKind,
        view: &'a str,
        counts: &'a [u64],
        boxes: L,
        scale: Scale,
    ) -> JsonLine<'a, L>
        requires within { All (λ box. box.span.start + box.span.weight ≤ scale.total) (L.boxes boxes) }
        requires positive { 0 < length (L.boxes boxes) → 0 < scale.total }
        ensures text { concat (⟦<JsonLine<'a, L> as Pieces>⟧.pieces result)
            ≡ line_text kind counts.now view.now scale.total scale.width
            (map (seen_data scale.total scale.width) (L.boxes boxes)) }
        ensures count { length (⟦<JsonLine<'a, L> as Pieces>⟧.pieces result)
            ≡ length (L.boxes boxes) + 2 }
    {
        JsonLine {
            kind,
            view,
            counts,
            boxes,
            scale,
        }
    }
}

impl<L: FlameBoxes> Pieces for JsonLine<'_, L> {
    ghost pieces = { λ line. line_pieces (head_of line.kind)
        (map (seen_data line.scale.total line.scale.width) (L.boxes line.boxes))
        (tail_of line.kind line.counts.now line.view.now line.scale.total line.scale.width) };

    fn count(&self) -> usize {
        self.boxes.count() + 2
    }

    fn append_piece(&self, alloc: Global, at: usize, out: &mut Vec<u8>) -> Result<(), AllocError> {
        if at == 0 {
            append_head(out, self.kind)
        } else if at <= self.boxes.count() {
            let writer = &mut BoxWriter::of(self.scale);
            append_item(alloc, out, &self.boxes, at - 1, writer)
        } else {
            append_tail(alloc, out, self.kind, self.view, self.counts, &self.scale)
        }
    }

    /// Up to 64 boxes at a time are put together on one writer.
    fn append_some(
        &self,
        alloc: Global,
        at: usize,
        out: &mut Vec<u8>,
    ) -> Result<usize, AllocError> {
        let last = self.boxes.count();
        if at == 0 || at > last {
            self.append_piece(alloc, at, out)?;
            return Ok(at + 1);
        }
        let end = end_of_some(at, last);
        append_items(alloc, out, &self.boxes, at - 1, end, &self.scale)?;
        Ok(end + 1)
    }
}

// Up to which piece those from number `at` on are appended together: up to 64.
pub(crate) fn end_of_some(at: usize, last: usize) -> usize
    requires { at ≤ last }
    ensures least { at ≤ result }
    ensures most { result ≤ last }
{
    if last - at < 64 { last } else { at + 63 }
}

// Appends the boxes from a place on, each after a comma where another stands before it.
fn append_items<L: FlameBoxes>(
    alloc: Global,
    out: &mut Vec<u8>,
    boxes: &L,
    from: usize,
    end: usize,
    scale: &Scale,
) -> Result<(), AllocError>
    requires from { from ≤ end }
    requires end { end ≤ length (L.boxes boxes.now) }
    requires within { All (λ box. box.span.start + box.span.weight ≤ scale.now.total) (L.boxes boxes.now) }
    requires positive { 0 < scale.now.total }
    ensures ok { OnOk result (out.new.items ≡ out.old.items ++ concat (slice_range
        (value_pieces false (map (seen_data scale.now.total scale.now.width) (L.boxes boxes.now))) from end)) }
    ensures front { StartsWith out.new.items out.old.items }
{
    let mut writer = BoxWriter::of(*scale);
    for place in from..end {
        append_item(alloc, out, boxes, place, &mut writer)?;
    }
    Ok(())
}

// Appends the box at a place, after a comma where another stands before it.
fn append_item<L: FlameBoxes>(
    alloc: Global,
    out: &mut Vec<u8>,
    boxes: &L,
    place: usize,
    writer: &mut BoxWriter,
) -> Result<(), AllocError>
    requires there { place < length (L.boxes boxes.now) }
    requires within { All (λ box. box.span.start + box.span.weight ≤ writer.old.total) (L.boxes boxes.now) }
    requires positive { 0 < writer.old.total }
    ensures ok { OnOk result (out.new.items ≡ out.old.items ++ slice_index_or
        (value_pieces false (map (seen_data writer.old.total writer.old.width) (L.boxes boxes.now))) place []) }
    ensures front { StartsWith out.new.items out.old.items }
    ensures scale { writer.new ≡ writer.old }
{
    append_comma(out, place > 0)?;
    append_box(alloc, out, &boxes.get(place), writer)
}

// Appends what stands before the boxes.
fn append_head(out: &mut Vec<u8>, kind: LineKind) -> Result<(), AllocError>
    ensures ok { OnOk result (out.new.items ≡ out.old.items ++ head_of kind) }
    ensures front { StartsWith out.new.items out.old.items }
{
    match kind {
        LineKind::Picture => out.extend_from_slice(b"{\"boxes\":["),
        LineKind::Snapshot { at } => {
            append_number(out, b"{\"at\":", at)?;
            out.extend_from_slice(b",\"boxes\":[")
        }
        LineKind::Comparison { before } => {
            append_number(out, b"{\"before\":", before)?;
            out.extend_from_slice(b",\"boxes\":[")
        }
    }
}

// Appends what stands after the boxes.
fn append_tail(
    alloc: Global,
    out: &mut Vec<u8>,
    kind: LineKind,
    view: &str,
    counts: &[u64],
    scale: &Scale,
) -> Result<(), AllocError>
    ensures ok { OnOk result (out.new.items ≡ out.old.items
        ++ tail_of kind counts.now view.now scale.now.total scale.now.width) }
    ensures front { StartsWith out.new.items out.old.items }
{
    out.push(b']')?;
    append_counts(out, kind, counts)?;
    append_ending(alloc, out, view, scale)
}

// Appends the counts of a snapshot.
fn append_counts(out: &mut Vec<u8>, kind: LineKind, counts: &[u64]) -> Result<(), AllocError>
    ensures ok { OnOk result (out.new.items ≡ out.old.items ++ counts_of kind counts.now) }
    ensures front { StartsWith out.new.items out.old.items }
{
    match kind {
        LineKind::Picture | LineKind::Comparison { before: _ } => Ok(()),
        LineKind::Snapshot { at: _ } => append_numbers(out, b",\"counts\":", counts),
    }
}

// Appends the members that each line ends with, the bracket after them, and a line feed.
fn append_ending(
    alloc: Global,
    out: &mut Vec<u8>,
    view: &str,
    scale: &Scale,
) -> Result<(), AllocError>
    ensures ok { OnOk result (out.new.items ≡ out.old.items
        ++ ending_of view.now scale.now.total scale.now.width) }
    ensures front { StartsWith out.new.items out.old.items }
{
    append_number(out, b",\"total\":", scale.total)?;
    append_text(alloc, out, b",\"view\":", view)?;
    append_number(out, b",\"width\":", u64::from(scale.width.get()))?;
    out.extend_from_slice(b"}\n")
}
