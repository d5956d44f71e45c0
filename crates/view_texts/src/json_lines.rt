//! The JSON lines of the views. A line is written a box at a time, since one value for the whole line
//! would take many times the memory of its text.

ghost use Rattle.std.specs.Prelude.{◌≡◌, ◌+◌, ◌<◌, ◌≤◌, ◌^◌, All, List, length, map};
ghost use Rattle.std.specs.List.{concat};
ghost use Rattle.flame_layout.specs.declared.boxes.ComparedBox.{ComparedBox};
ghost use Rattle.flame_layout.specs.declared.boxes.SpanBox.{SpanBox};
ghost use Rattle.flame_layout.specs.Boxes.{paired_box, plain_box};
ghost use Rattle.view_texts.specs.Json.{boxes_line, snapshot_line, pair_boxes_line};

use crate::json_line::JsonLine;
use crate::line_kinds::LineKind;
use crate::scales::Scale;
use byte_io::Pieces;
use flame_layout::FlameBoxes;

/// The line of a picture: the name of its view, as `graph` or `chart`, and its boxes in their order, in an image of that scale.
pub fn drawn_line<'a, L: FlameBoxes>(view: &'a str, boxes: L, scale: Scale) -> JsonLine<'a, L>
    requires within { All (λ box. box.span.start + box.span.weight ≤ scale.total) (L.boxes boxes) }
    requires positive { 0 < length (L.boxes boxes) → 0 < scale.total }
    ensures text { (spans : List SpanBox) → L.boxes boxes ≡ map plain_box spans
        → concat (⟦<JsonLine<'a, L> as Pieces>⟧.pieces result)
        ≡ boxes_line view.now scale.total scale.width spans }
    ensures count { length (⟦<JsonLine<'a, L> as Pieces>⟧.pieces result)
        ≡ length (L.boxes boxes) + 2 }
    ensures few { length (⟦<JsonLine<'a, L> as Pieces>⟧.pieces result) < 2 ^ 64 }
{
    let _count = boxes.count();
    let kind = LineKind::Picture;
    JsonLine::of(kind, view, &[], boxes, scale)
}

/// The line of a comparison: the total of the profile before, and the boxes of the profile after in an image of that scale, each with the
/// total of its path before.
pub fn drawn_comparison_line<'a, L: FlameBoxes>(
    before: u64,
    boxes: L,
    scale: Scale,
) -> JsonLine<'a, L>
    requires within { All (λ box. box.span.start + box.span.weight ≤ scale.total) (L.boxes boxes) }
    requires positive { 0 < length (L.boxes boxes) → 0 < scale.total }
    ensures text { (compared : List ComparedBox) → L.boxes boxes ≡ map paired_box compared
        → concat (⟦<JsonLine<'a, L> as Pieces>⟧.pieces result)
        ≡ pair_boxes_line before scale.total scale.width compared }
    ensures few { length (⟦<JsonLine<'a, L> as Pieces>⟧.pieces result) < 2 ^ 64 }
{
    let _count = boxes.count();
    JsonLine::of(
        LineKind::Comparison { before },
        "compare",
        &[],
        boxes,
        scale,
    )
}

/// The line of a snapshot: after how many samples it was made, how many of them each source has, and its boxes in an image of that scale.
pub fn drawn_snapshot_line<'a, L: FlameBoxes>(
    at: u64,
    counts: &'a [u64],
    boxes: L,
    scale: Scale,
) -> JsonLine<'a, L>
    requires within { All (λ box. box.span.start + box.span.weight ≤ scale.total) (L.boxes boxes) }
    requires positive { 0 < length (L.boxes boxes) → 0 < scale.total }
    ensures text { (spans : List SpanBox) → L.boxes boxes ≡ map plain_box spans
        → concat (⟦<JsonLine<'a, L> as Pieces>⟧.pieces result)
        ≡ snapshot_line at counts.now scale.total scale.width spans }
    ensures few { length (⟦<JsonLine<'a, L> as Pieces>⟧.pieces result) < 2 ^ 64 }
{
    let _count = boxes.count();
    JsonLine::of(LineKind::Snapshot { at }, "snapshot", counts, boxes, scale)
}
