//! Worked examples.
ghost use Rattle.std.specs.Prelude.{◌<◌, ◌^◌};
ghost use Rattle.merged_stacks.specs.Merged.{all_samples};
ghost use Rattle.merged_stacks.specs.Timeline.{samples_of, timeline, total_weight};

pub(super) mod charts;
pub(super) mod comparisons;
pub(super) mod drawn;
pub(super) mod merged;
pub(super) mod trees;

use super::sources::Lines;
use super::told::{OfChart, Telling, Told, are_told};
use flame_layout::{DrawnBox, FlameBoxes, PlacedBox, Width, chart_boxes, place};
use merged_stacks::total_weight;
use stack_core::SourceList;
use std::alloc::{AllocError, Global};
use std::process::Abort;
use std::test::Fail;

/// Appends depth, name, start, weight and own weight of a box.
fn append_fields(
    text: &mut String,
    depth: u32,
    name: &str,
    start: u64,
    weight: u64,
    own: u64,
) -> Result<(), AllocError> {
    write!(text, "({depth} {name} {start} {weight} {own}")
}

/// The same of a box that is not placed.
fn append_span(text: &mut String, one: &DrawnBox<'_>) -> Result<(), AllocError> {
    append_fields(text, one.depth, one.name, one.start, one.weight, one.own)
}

fn append_box(text: &mut String, one: &DrawnBox<'_>) -> Result<(), AllocError> {
    append_span(text, one)?;
    text.push_str(")")
}

fn append_boxes<L: FlameBoxes>(text: &mut String, boxes: &L) -> Result<(), AllocError> {
    for place in 0..boxes.count() {
        append_box(text, &boxes.get(place).drawn)?;
    }
    Ok(())
}

/// Appends the edges of a box, which are the last of it.
fn append_edges(text: &mut String, left: u32, right: u32) -> Result<(), AllocError> {
    write!(text, " {left} {right})")
}

/// Appends depth, name, start, weight, own weight and the edges of a box.
fn append_placed(text: &mut String, span: &PlacedBox) -> Result<(), AllocError> {
    append_fields(
        text,
        span.depth,
        span.name.get(),
        span.start,
        span.weight,
        span.own,
    )?;
    append_edges(text, span.left, span.right)
}

fn append_placed_boxes(text: &mut String, boxes: &[PlacedBox]) -> Result<(), AllocError> {
    for span in boxes {
        append_placed(text, span)?;
    }
    Ok(())
}

pub(super) fn pixels(rt: &impl Abort, count: u32) -> Width {
    Width::of(count).expect(rt, "the width of an image")
}

pub(super) fn append_chart(
    alloc: Global,
    text: &mut String,
    lists: &[SourceList],
) -> Result<(), AllocError>
    requires { total_weight (timeline (samples_of lists.now)) < 2 ^ 64 }
{
    let boxes = chart_boxes(alloc, lists)?;
    append_boxes(text, &boxes.as_slice())
}

pub(super) fn append_placed_chart(
    alloc: Global,
    text: &mut String,
    lists: &[SourceList],
    width: Width,
) -> Result<(), AllocError>
    requires merged { total_weight (all_samples (samples_of lists.now)) < 2 ^ 64 }
    requires drawn { total_weight (timeline (samples_of lists.now)) < 2 ^ 64 }
{
    let boxes = chart_boxes(alloc, lists)?;
    let placed = place(alloc, boxes, total_weight(lists), width)?;
    append_placed_boxes(text, &placed)
}

/// Two runs of one stack, with another between them.
const RUNS: Lines<'static> = &[(&["a", "b"], 1), (&["a", "c"], 1), (&["a", "b"], 1)];

/// Three stacks, one of which weighs nothing.
const THREE: Lines<'static> = &[(&["a"], 1), (&["c"], 0), (&["b"], 2)];

const CHART_OF_RUNS: &[Telling<'static>] = &[(
    Told::Chart(OfChart::Boxes),
    &[RUNS],
    "(0 all 0 3 0)(1 a 0 3 0)(2 b 0 1 1)(2 c 1 1 1)(2 b 2 1 1)",
)];

#[test]
fn runs_of_a_chart(rt: HostRuntime) -> Result<(), Fail> {
    are_told(&rt, CHART_OF_RUNS)
}

const OTHER_PARENTS: &[Telling<'static>] = &[(
    Told::Chart(OfChart::Boxes),
    &[&[(&["a", "x"], 1), (&["b", "x"], 1)]],
    "(0 all 0 2 0)(1 a 0 1 0)(2 x 0 1 1)(1 b 1 1 0)(2 x 1 1 1)",
)];

#[test]
fn runs_under_other_parents(rt: HostRuntime) -> Result<(), Fail> {
    are_told(&rt, OTHER_PARENTS)
}

const EDGES: &[Telling<'static>] = &[(
    Told::Chart(OfChart::Placed(10)),
    &[THREE],
    "(0 all 0 3 0 0 10)(1 a 0 1 1 0 3)(1 b 1 2 2 3 10)",
)];

#[test]
fn edges_of_three_lines(rt: HostRuntime) -> Result<(), Fail> {
    are_told(&rt, EDGES)
}

const WEIGHTLESS: &[Telling<'static>] = &[(Told::Chart(OfChart::Boxes), &[&[(&["a"], 0)]], "")];

#[test]
fn empty_timeline(rt: HostRuntime) -> Result<(), Fail> {
    are_told(&rt, WEIGHTLESS)
}

#[test]
fn widths(rt: HostRuntime) {
    assert!(rt; Width::of(0).is_none() && Width::of(65_537).is_none());
    assert!(rt; pixels(&rt, 1).get() == 1 && pixels(&rt, 65_536).get() == 65_536);
}

#[test]
fn laws_take_nothing() {
    flame_layout::laws::runs_have_boxes();
    flame_layout::laws::boxes_have_runs();
    flame_layout::laws::boxes_have_paths();
    flame_layout::laws::boxes_are_listed();
    flame_layout::laws::graphs_are_their_sums();
    flame_layout::laws::merging_keeps_sums();
    flame_layout::laws::graphs_see_no_order();
    flame_layout::laws::graphs_have_one_box_a_path();
    flame_layout::laws::boxes_lie_inside();
    flame_layout::laws::boxes_stand_apart();
    flame_layout::laws::neighbours_share_edges();
    flame_layout::laws::edges_keep_order();
    flame_layout::laws::roots_span_the_width();
    flame_layout::laws::comparisons_have_all_paths();
    flame_layout::laws::compared_boxes_are_of_the_graph();
}
