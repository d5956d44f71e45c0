//! Graphs of merged stacks.

use super::{THREE, append_boxes};
use crate::tests::told::{OfMerged, Telling, Told, are_told};
use flame_layout::{MergedStacks, merged_boxes};
use std::alloc::{AllocError, Global};
use std::test::Fail;

pub(in crate::tests) fn append_graph(
    alloc: Global,
    text: &mut String,
    merged: &MergedStacks,
) -> Result<(), AllocError> {
    let boxes = merged_boxes(alloc, merged)?;
    append_boxes(text, &boxes.as_slice())
}

const TWO_SOURCES: &[Telling<'static>] = &[(
    Told::Merged(OfMerged::Graph),
    &[
        &[(&["a", "b"], 1), (&["a", "c"], 1)],
        &[(&["c"], 0), (&["a", "b"], 1)],
    ],
    "(0 all 0 3 0)(1 a 0 3 0)(2 b 0 2 2)(2 c 2 1 1)",
)];

#[test]
fn graph_of_two_sources(rt: HostRuntime) -> Result<(), Fail> {
    are_told(&rt, TWO_SOURCES)
}

const THREE_LINES: &[Telling<'static>] = &[(
    Told::Merged(OfMerged::Graph),
    &[THREE, &[]],
    "(0 all 0 3 0)(1 a 0 1 1)(1 b 1 2 2)",
)];

#[test]
fn graph_of_three_lines(rt: HostRuntime) -> Result<(), Fail> {
    are_told(&rt, THREE_LINES)
}

const NOTHING: &[Telling<'static>] = &[(Told::Merged(OfMerged::Graph), &[], "")];

#[test]
fn nothing_merged(rt: HostRuntime) -> Result<(), Fail> {
    are_told(&rt, NOTHING)
}
