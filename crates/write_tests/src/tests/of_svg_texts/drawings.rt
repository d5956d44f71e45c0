//! Pictures of a few boxes.

use crate::tests::boxes::{Row, add_drawn, add_pairs, fit};
use crate::tests::texts::{is_text, refuse};
use byte_io::append_pieces;
use flame_layout::{DrawnBox, DrawnPair, Width};
use std::alloc::{AllocError, Global};
use std::process::Abort;
use std::test::Fail;
use svg_texts::{Picture, Svg};

/// What is drawn.
pub(super) enum Boxes<'a> {
    /// The boxes of a flame graph.
    Graph(&'a [Row<'a>]),
    /// Those of a comparison, each with what its path weighed before.
    Compared(&'a [(Row<'a>, u64)]),
    /// Those of a comparison of shares, of so much before.
    Shares(&'a [(Row<'a>, u64)], u64),
}

/// What stands round boxes: the title, the unit, the total, the width, and whether the root is below.
pub(super) type Around<'a> = (&'a str, &'a str, u64, u32, bool);

/// A picture in this width, which has to be one.
pub(super) fn picture_of<'a>(around: &Around<'a>) -> Option<Picture<'a>> {
    let (title, unit, total, width, root_below) = around;
    Some(Picture {
        title,
        unit,
        total: *total,
        total_before: None,
        width: Width::of(*width)?,
        root_below: *root_below,
    })
}

fn append_graph<'a>(
    alloc: Global,
    out: &mut Vec<u8>,
    picture: &Picture<'_>,
    rows: &[Row<'a>],
    boxes: &mut Vec<DrawnBox<'a>>,
) -> Result<(), AllocError> {
    add_drawn(boxes, rows)?;
    let boxes = boxes.as_slice();
    if !fit(&boxes, picture.total) {
        return refuse(out);
    }
    let svg = Svg::of(alloc, picture, boxes)?;
    append_pieces(alloc, &svg, out)
}

fn append_comparison<'a>(
    alloc: Global,
    out: &mut Vec<u8>,
    picture: &Picture<'_>,
    rows: &[(Row<'a>, u64)],
    boxes: &mut Vec<DrawnPair<'a>>,
) -> Result<(), AllocError> {
    add_pairs(boxes, rows)?;
    let boxes = boxes.as_slice();
    if !fit(&boxes, picture.total) {
        return refuse(out);
    }
    let svg = Svg::of(alloc, picture, boxes)?;
    append_pieces(alloc, &svg, out)
}

fn append(
    alloc: Global,
    out: &mut Vec<u8>,
    around: &Around<'_>,
    boxes: &Boxes<'_>,
) -> Result<(), AllocError> {
    let Some(picture) = picture_of(around) else {
        return refuse(out);
    };
    match boxes {
        Boxes::Graph(rows) => append_graph(alloc, out, &picture, rows, &mut Vec::new(alloc)),
        Boxes::Compared(rows) => {
            append_comparison(alloc, out, &picture, rows, &mut Vec::new(alloc))
        }
        Boxes::Shares(rows, before) => {
            let picture = Picture {
                total_before: Some(*before),
                ..picture
            };
            append_comparison(alloc, out, &picture, rows, &mut Vec::new(alloc))
        }
    }
}

/// That these boxes make this picture.
pub(super) fn makes(
    rt: &(impl Abort + AllocGlobal),
    around: &Around<'_>,
    boxes: &Boxes<'_>,
    wanted: &str,
) -> Result<(), Fail> {
    let mut out = Vec::new(rt.alloc());
    let made = append(rt.alloc(), &mut out, around, boxes);
    is_text(rt, made, &out, wanted.as_bytes())
}
