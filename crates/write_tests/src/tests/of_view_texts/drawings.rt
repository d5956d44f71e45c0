//! Lines of pictures.

use crate::tests::boxes::{Row, add_drawn, add_pairs, are_within};
use crate::tests::texts::refuse;
use byte_io::append_pieces;
use flame_layout::{DrawnBox, DrawnPair, Width};
use std::alloc::{AllocError, Global};
use view_texts::{Scale, drawn_comparison_line, drawn_line, drawn_snapshot_line};

/// What is written as a line.
pub(super) enum Line<'a> {
    /// A view and the rows of its boxes.
    Boxes(&'a str, &'a [Row<'a>]),
    /// A view and its boxes, as they are drawn.
    Drawn(&'a str, &'a [DrawnBox<'a>]),
    /// After how many samples a snapshot was taken, how many each source had given, and its boxes.
    Snapshot(u64, &'a [u64], &'a [Row<'a>]),
    /// What the first profile of a comparison weighs, and the boxes, each with what it weighs there.
    Pairs(u64, &'a [(Row<'a>, u64)]),
}

fn append_drawn(
    alloc: Global,
    out: &mut Vec<u8>,
    view: &str,
    boxes: &[DrawnBox<'_>],
    scale: &Scale,
) -> Result<(), AllocError> {
    if !are_within(&boxes, scale.total) {
        return refuse(out);
    }
    append_pieces(alloc, &drawn_line(view, boxes, *scale), out)
}

/// The boxes are added to none, as those of the other lines.
fn append_boxes<'a>(
    alloc: Global,
    out: &mut Vec<u8>,
    view: &str,
    rows: &[Row<'a>],
    scale: &Scale,
    boxes: &mut Vec<DrawnBox<'a>>,
) -> Result<(), AllocError> {
    add_drawn(boxes, rows)?;
    append_drawn(alloc, out, view, boxes, scale)
}

fn append_snapshot<'a>(
    alloc: Global,
    out: &mut Vec<u8>,
    (at, counts): (u64, &[u64]),
    rows: &[Row<'a>],
    scale: &Scale,
    boxes: &mut Vec<DrawnBox<'a>>,
) -> Result<(), AllocError> {
    add_drawn(boxes, rows)?;
    let boxes = boxes.as_slice();
    if !are_within(&boxes, scale.total) {
        return refuse(out);
    }
    append_pieces(alloc, &drawn_snapshot_line(at, counts, boxes, *scale), out)
}

fn append_pairs<'a>(
    alloc: Global,
    out: &mut Vec<u8>,
    before: u64,
    rows: &[(Row<'a>, u64)],
    scale: &Scale,
    boxes: &mut Vec<DrawnPair<'a>>,
) -> Result<(), AllocError> {
    add_pairs(boxes, rows)?;
    let boxes = boxes.as_slice();
    if !are_within(&boxes, scale.total) {
        return refuse(out);
    }
    append_pieces(alloc, &drawn_comparison_line(before, boxes, *scale), out)
}

fn append_line(
    alloc: Global,
    out: &mut Vec<u8>,
    line: &Line<'_>,
    scale: &Scale,
) -> Result<(), AllocError> {
    match line {
        Line::Boxes(view, rows) => {
            append_boxes(alloc, out, view, rows, scale, &mut Vec::new(alloc))
        }
        Line::Drawn(view, boxes) => append_drawn(alloc, out, view, boxes, scale),
        Line::Snapshot(at, counts, rows) => {
            append_snapshot(alloc, out, (*at, counts), rows, scale, &mut Vec::new(alloc))
        }
        Line::Pairs(before, rows) => {
            append_pairs(alloc, out, *before, rows, scale, &mut Vec::new(alloc))
        }
    }
}

/// What is written, and the total and the width of its picture.
pub(super) type Written<'a> = (Line<'a>, u64, u32);

fn append(alloc: Global, out: &mut Vec<u8>, written: &Written<'_>) -> Result<(), AllocError> {
    let (line, total, width) = written;
    let total = *total;
    match Width::of(*width) {
        Some(width) => append_line(alloc, out, line, &Scale { total, width }),
        None => refuse(out),
    }
}

/// Appends these lines behind what stands in front.
pub(super) fn append_all(
    alloc: Global,
    out: &mut Vec<u8>,
    front: &str,
    all: &[Written<'_>],
) -> Result<(), AllocError> {
    out.extend_from_slice(front.as_bytes())?;
    for written in all {
        append(alloc, out, written)?;
    }
    Ok(())
}
