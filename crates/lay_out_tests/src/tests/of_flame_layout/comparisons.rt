//! Comparisons of worked examples.
ghost use Rattle.std.specs.Prelude.{◌<◌, ◌^◌};
ghost use Rattle.sample_tables.specs.Samples.{total_weight};

use super::append_span;
use super::drawn::append_edges_in;
use crate::tests::sources::Lines;
use crate::tests::told::{OfTwo, Telling, Told, are_told};
use flame_layout::{DrawnPair, PairRow, Width, compare, draw_paired};
use merged_stacks::{Alone, PairedStacks};
use stack_core::SourceList;
use std::alloc::{AllocError, Global};
use std::test::Fail;

/// Appends the names of a path, each with a semicolon.
fn append_names(text: &mut String, names: &[String]) -> Result<(), AllocError> {
    for name in names {
        write!(text, "{name};")?;
    }
    Ok(())
}

/// Appends a row's totals and own weights, each of the first profile and of the second.
fn append_weights(text: &mut String, row: &PairRow) -> Result<(), AllocError> {
    write!(
        text,
        " {} {} {} {})",
        row.total_before, row.total_after, row.own_before, row.own_after
    )
}

/// Appends the names, the totals and the own weights of a row.
fn append_row(text: &mut String, row: &PairRow) -> Result<(), AllocError> {
    text.push_str("(")?;
    append_names(text, row.path.get())?;
    append_weights(text, row)
}

fn append_all_rows(text: &mut String, rows: &[PairRow]) -> Result<(), AllocError> {
    for row in rows {
        append_row(text, row)?;
    }
    Ok(())
}

/// The rows of a comparison.
pub(in crate::tests) fn append_rows(
    alloc: Global,
    text: &mut String,
    before: &SourceList,
    after: &SourceList,
) -> Result<(), AllocError>
    requires before { total_weight before.now.samples < 2 ^ 64 }
    requires after { total_weight after.now.samples < 2 ^ 64 }
{
    let rows = compare(alloc, before, after)?;
    append_all_rows(text, &rows)
}

/// Appends the first profile's total, depth, name, start, weight and own weight of a box, and its edges.
fn append_compared(
    text: &mut String,
    pair: &DrawnPair<'_>,
    total: u64,
    width: Width,
) -> Result<(), AllocError> {
    write!(text, "{}", pair.total_before)?;
    append_span(text, &pair.drawn)?;
    append_edges_in(text, &pair.drawn, total, width)
}

fn append_all_compared(
    text: &mut String,
    boxes: &[DrawnPair<'_>],
    total: u64,
    width: Width,
) -> Result<(), AllocError> {
    for pair in boxes {
        append_compared(text, pair, total, width)?;
    }
    Ok(())
}

/// The boxes of a comparison.
pub(in crate::tests) fn append_compared_boxes(
    alloc: Global,
    text: &mut String,
    before: &SourceList,
    after: &SourceList,
    total: u64,
    width: Width,
) -> Result<(), AllocError>
    requires before { total_weight before.now.samples < 2 ^ 64 }
    requires after { total_weight after.now.samples < 2 ^ 64 }
{
    let stacks = PairedStacks::of(alloc, before, after, &Alone)?;
    let boxes = draw_paired(alloc, &stacks, before, after)?;
    append_all_compared(text, &boxes, total, width)
}

const OLD: Lines<'static> = &[(&["a"], 3), (&["b"], 1)];

const NEW: Lines<'static> = &[(&["a"], 1), (&["c"], 2)];

const ROWS: &[Telling<'static>] = &[(
    Told::Two(OfTwo::Rows),
    &[OLD, NEW],
    "( 4 3 0 0)(a; 3 1 3 1)(b; 1 0 1 0)(c; 0 2 0 2)",
)];

#[test]
fn comparison(rt: HostRuntime) -> Result<(), Fail> {
    are_told(&rt, ROWS)
}

const BOXES: &str = "4(0 all 0 3 0 0 10)3(1 a 0 1 1 0 3)0(1 c 1 2 2 3 10)";

const COMPARED: &[Telling<'static>] = &[(Told::Two(OfTwo::Boxes(3, 10)), &[OLD, NEW], BOXES)];

#[test]
fn comparison_boxes(rt: HostRuntime) -> Result<(), Fail> {
    are_told(&rt, COMPARED)
}
