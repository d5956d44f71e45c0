//! Boxes of worked examples that borrow their names.

use super::{THREE, append_boxes, append_edges};
use crate::tests::told::{OfMerged, Telling, Told, are_told};
use flame_layout::{Chart, DrawnBox, MergedStacks, Width, draw_merged, edges};
use std::alloc::{AllocError, Global};
use std::test::Fail;

/// The boxes of a graph.
pub(in crate::tests) fn append_drawn_graph(
    alloc: Global,
    text: &mut String,
    merged: &MergedStacks,
) -> Result<(), AllocError> {
    let chart = draw_merged(alloc, merged)?;
    append_boxes(text, &&chart)
}

/// Appends where a box begins and ends in a picture of this total, where it lies in that.
pub(super) fn append_edges_in(
    text: &mut String,
    one: &DrawnBox<'_>,
    total: u64,
    width: Width,
) -> Result<(), AllocError> {
    if total == 0 || one.start > total || one.weight > total - one.start {
        return text.push_str(" outside)");
    }
    let (left, right) = edges(one, total, width);
    append_edges(text, left, right)
}

/// Appends the name and the edges of a box.
fn append_name_and_edges(
    text: &mut String,
    one: &DrawnBox<'_>,
    total: u64,
    width: Width,
) -> Result<(), AllocError> {
    write!(text, "({}", one.name)?;
    append_edges_in(text, one, total, width)
}

fn append_all_edges(
    text: &mut String,
    chart: &Chart<'_, MergedStacks>,
    total: u64,
    width: Width,
) -> Result<(), AllocError> {
    for at in 0..chart.len() {
        append_name_and_edges(text, &chart.get(at), total, width)?;
    }
    Ok(())
}

/// The edges of the boxes of a graph.
pub(in crate::tests) fn append_drawn_edges(
    alloc: Global,
    text: &mut String,
    merged: &MergedStacks,
    total: u64,
    width: Width,
) -> Result<(), AllocError> {
    let chart = draw_merged(alloc, merged)?;
    append_all_edges(text, &chart, total, width)
}

const GRAPH: &[Telling<'static>] = &[
    (
        Told::Merged(OfMerged::DrawnGraph),
        &[THREE],
        "(0 all 0 3 0)(1 a 0 1 1)(1 b 1 2 2)",
    ),
    (
        Told::Merged(OfMerged::DrawnEdges(3, 10)),
        &[THREE],
        "(all 0 10)(a 0 3)(b 3 10)",
    ),
];

#[test]
fn graph_with_lent_names(rt: HostRuntime) -> Result<(), Fail> {
    are_told(&rt, GRAPH)
}
