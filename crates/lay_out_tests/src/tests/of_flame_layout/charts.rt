//! Worked examples of charts in little memory.
ghost use Rattle.std.specs.Prelude.{◌<◌, ◌^◌};
ghost use Rattle.merged_stacks.specs.Timeline.{samples_of, timeline, total_weight};

use super::{RUNS, append_boxes};
use crate::tests::told::{OfChart, Telling, Told, are_told};
use flame_layout::Chart;
use stack_core::SourceList;
use std::alloc::{AllocError, Global};
use std::test::Fail;

/// Appends whether a chart is empty, where it is, and its boxes.
fn append_compact(text: &mut String, chart: &Chart<'_, SourceList>) -> Result<(), AllocError> {
    if chart.is_empty() {
        text.push_str("no boxes")?;
    }
    append_boxes(text, &chart)
}

pub(in crate::tests) fn append_compact_chart(
    alloc: Global,
    text: &mut String,
    lists: &[SourceList],
) -> Result<(), AllocError>
    requires { total_weight (timeline (samples_of lists.now)) < 2 ^ 64 }
{
    match Chart::of(alloc, lists) {
        Ok(chart) => append_compact(text, &chart),
        Err(refused) => Err(refused),
    }
}

const OF_ONE: &[Telling<'static>] = &[
    (
        Told::Chart(OfChart::Compact),
        &[RUNS],
        "(0 all 0 3 0)(1 a 0 3 0)(2 b 0 1 1)(2 c 1 1 1)(2 b 2 1 1)",
    ),
    (
        Told::Chart(OfChart::Compact),
        &[&[(&["a", "x"], 1), (&["b", "x"], 1)]],
        "(0 all 0 2 0)(1 a 0 1 0)(2 x 0 1 1)(1 b 1 1 0)(2 x 1 1 1)",
    ),
    (
        Told::Chart(OfChart::Compact),
        &[&[(&[], 2)]],
        "(0 all 0 2 2)",
    ),
    (Told::Chart(OfChart::Compact), &[&[(&["a"], 0)]], "no boxes"),
];

#[test]
fn compact_chart(rt: HostRuntime) -> Result<(), Fail> {
    are_told(&rt, OF_ONE)
}

const OF_TWO: &[Telling<'static>] = &[
    (
        Told::Chart(OfChart::Compact),
        &[&[(&["a", "b"], 2)], &[(&["a", "b"], 1), (&["a"], 1)]],
        "(0 all 0 4 0)(1 a 0 4 1)(2 b 0 3 3)",
    ),
    (
        Told::Chart(OfChart::Compact),
        &[&[(&["a", "b"], 1)], &[(&["c", "b"], 1)]],
        "(0 all 0 2 0)(1 a 0 1 0)(2 b 0 1 1)(1 c 1 1 0)(2 b 1 1 1)",
    ),
    (
        Told::Chart(OfChart::Compact),
        &[&[(&["a"], 1), (&["x"], 0)], &[], &[(&["a"], 1)]],
        "(0 all 0 2 0)(1 a 0 2 2)",
    ),
];

#[test]
fn compact_chart_of_sources(rt: HostRuntime) -> Result<(), Fail> {
    are_told(&rt, OF_TWO)
}
