//! Edges in an image.

ghost use Rattle.std.specs.Prelude.{◌≡◌, ℕ, ◌+◌, ◌*◌, ◌/◌, ◌≤◌, ◌<◌, All, IfOk, map, length};
ghost use Rattle.flame_layout.specs.Boxes.{span_of};
ghost use Rattle.flame_layout.specs.Edges.{placed_at, left_edge, right_edge};

use crate::boxes::{DrawnBox, PlacedBox, SpanBox};
use crate::flame_boxes::lent_box;
use run_options::Width;
use std::alloc::{AllocError, Global};

/// The boxes in order, each with its edges: where it begins and where it ends, as parts of the
/// total, in pixels rounded down. Neighbours share an edge, since each edge is rounded by itself.
pub fn place(
    alloc: Global,
    boxes: Vec<SpanBox>,
    total: u64,
    width: Width,
) -> Result<Vec<PlacedBox>, AllocError>
    requires within { All (λ span. span.start + span.weight ≤ total) boxes.items }
    requires positive { 0 < length boxes.items → 0 < total }
    ensures { IfOk result (λ placed. placed.items ≡ map (placed_at total width) boxes.items) }
{
    let mut placed = Vec::new(alloc);
    for span in boxes {
        placed.push(placed_box(span, total, width))?;
    }
    Ok(placed)
}

/// The edges of one box: where it begins and where it ends.
pub fn edges(drawn: &DrawnBox<'_>, total: u64, width: Width) -> (u32, u32)
    requires within { drawn.now.start + drawn.now.weight ≤ total }
    requires positive { 0 < total }
    ensures { result ≡ (left_edge total width (span_of drawn.now), right_edge total width (span_of drawn.now)) }
{
    (
        edge(drawn.start, total, width),
        edge(drawn.start + drawn.weight, total, width),
    )
}

fn placed_box(span: SpanBox, total: u64, width: Width) -> PlacedBox
    requires within { span.start + span.weight ≤ total }
    requires positive { 0 < total }
    ensures { result ≡ placed_at total width span }
{
    let (left, right) = edges(&lent_box(&span), total, width);
    let SpanBox {
        depth,
        name,
        start,
        weight,
        own,
    } = span;
    PlacedBox {
        depth,
        name,
        start,
        weight,
        own,
        left,
        right,
    }
}

fn edge(at: u64, total: u64, width: Width) -> u32
    requires within { at ≤ total }
    requires positive { 0 < total }
    ensures { result ≡ at * width / total }
{
    // Few products need more than 64 bits, and a division of 128 bits is slow.
    match at.checked_mul(u64::from(width.get())) {
        Some(product) => (product / total) as u32,
        None => (u128::from(at) * u128::from(width.get()) / u128::from(total)) as u32,
    }
}
