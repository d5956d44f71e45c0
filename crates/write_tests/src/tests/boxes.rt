//! Boxes of a few rows, and whether they lie within a total.

ghost use Rattle.std.specs.Prelude.{◌+◌, ◌<◌, ◌≤◌, ◌^◌, All, IsTrue, length, sum_by};

use flame_layout::{DrawnBox, DrawnPair, FlameBoxes};
use std::alloc::AllocError;

/// Depth, name, start, weight and own weight of a box.
pub(super) type Row<'a> = (u32, &'a str, u64, u64, u64);

fn drawn_of<'a>(row: &Row<'a>) -> DrawnBox<'a> {
    let (depth, name, start, weight, own) = row;
    DrawnBox {
        depth: *depth,
        name,
        start: *start,
        weight: *weight,
        own: *own,
    }
}

pub(super) fn add_drawn<'a>(
    boxes: &mut Vec<DrawnBox<'a>>,
    rows: &[Row<'a>],
) -> Result<(), AllocError> {
    for row in rows {
        boxes.push(drawn_of(row))?;
    }
    Ok(())
}

pub(super) fn add_pairs<'a>(
    boxes: &mut Vec<DrawnPair<'a>>,
    rows: &[(Row<'a>, u64)],
) -> Result<(), AllocError> {
    for (row, before) in rows {
        boxes.push(DrawnPair {
            drawn: drawn_of(row),
            total_before: *before,
        })?;
    }
    Ok(())
}

/// Whether a box ends within the total.
fn is_within(one: &DrawnBox<'_>, total: u64) -> bool
    ensures { IsTrue result → one.now.start + one.now.weight ≤ total }
{
    one.start <= total && one.weight <= total - one.start
}

/// Whether boxes can be drawn in this total.
pub(super) fn are_within<L: FlameBoxes>(boxes: &L, total: u64) -> bool
    ensures within { IsTrue result → All (λ one. one.span.start + one.span.weight ≤ total) (L.boxes boxes.now) }
    ensures positive { IsTrue result → 0 < length (L.boxes boxes.now) → 0 < total }
{
    for place in 0..boxes.count() {
        if !is_within(&boxes.get(place).drawn, total) {
            return false;
        }
    }
    total > 0 || boxes.count() == 0
}

/// Whether the own weights of boxes have 64 bits together.
fn own_weights_fit<L: FlameBoxes>(boxes: &L) -> bool
    ensures { IsTrue result → sum_by (λ one. one.span.own) (L.boxes boxes.now) < 2 ^ 64 }
{
    let mut left = u64::MAX;
    for place in 0..boxes.count() {
        let own = boxes.get(place).drawn.own;
        if own > left {
            return false;
        }
        left -= own;
    }
    true
}

/// Whether boxes can be drawn in a picture of this total.
pub(super) fn fit<L: FlameBoxes>(boxes: &L, total: u64) -> bool
    ensures within { IsTrue result → All (λ one. one.span.start + one.span.weight ≤ total) (L.boxes boxes.now) }
    ensures positive { IsTrue result → 0 < length (L.boxes boxes.now) → 0 < total }
    ensures own { IsTrue result → sum_by (λ one. one.span.own) (L.boxes boxes.now) < 2 ^ 64 }
{
    are_within(boxes, total) && own_weights_fit(boxes)
}
