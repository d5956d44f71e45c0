//! What is told of sources, as a text.

use super::of_flame_layout::charts::append_compact_chart;
use super::of_flame_layout::comparisons::{append_compared_boxes, append_rows};
use super::of_flame_layout::drawn::{append_drawn_edges, append_drawn_graph};
use super::of_flame_layout::merged::append_graph;
use super::of_flame_layout::trees::append_placed_graph;
use super::of_flame_layout::{append_chart, append_placed_chart, pixels};
use super::of_function_calls::append_calls;
use super::of_function_sums::append_functions;
use super::sources::{Lines, assert_light, assert_light_list, lists_of};
use function_sums::{CallSide, Order};
use merged_stacks::{Alone, MergedStacks};
use stack_core::SourceList;
use std::alloc::AllocError;
use std::process::Abort;
use std::test::Fail;

/// What is told of sources.
pub enum Told {
    Chart(OfChart),
    /// The boxes of the tree of one source, in an image of this width.
    PlacedGraph(u32),
    Merged(OfMerged),
    Two(OfTwo),
}

/// What is told of the chart of sources.
pub enum OfChart {
    Boxes,
    /// The same, in an image of this width.
    Placed(u32),
    /// The same boxes, kept in little memory.
    Compact,
}

/// What is told of the merged stacks of sources.
pub enum OfMerged {
    /// The boxes of their graph.
    Graph,
    /// The same, with names that the stacks lend.
    DrawnGraph,
    /// The edges of these in a picture of this total and this width.
    DrawnEdges(u64, u32),
    Functions(Order),
    /// A function, and its callers or its callees.
    Calls(&'static str, CallSide),
}

/// What is told of two sources.
pub enum OfTwo {
    /// The rows of their comparison.
    Rows,
    /// The boxes of their comparison in a picture of this total and this width.
    Boxes(u64, u32),
}

fn append_of_chart(
    rt: &(impl Abort + AllocGlobal),
    text: &mut String,
    told: &OfChart,
    lists: &[SourceList],
) -> Result<(), AllocError> {
    assert_light(rt, lists, 1_000);
    match told {
        OfChart::Boxes => append_chart(rt.alloc(), text, lists),
        OfChart::Placed(width) => {
            append_placed_chart(rt.alloc(), text, lists, pixels(rt, *width))
        }
        OfChart::Compact => append_compact_chart(rt.alloc(), text, lists),
    }
}

fn append_merged(
    rt: &(impl Abort + AllocGlobal),
    text: &mut String,
    told: &OfMerged,
    merged: &MergedStacks,
) -> Result<(), AllocError> {
    match told {
        OfMerged::Graph => append_graph(rt.alloc(), text, merged),
        OfMerged::DrawnGraph => append_drawn_graph(rt.alloc(), text, merged),
        OfMerged::DrawnEdges(total, width) => {
            append_drawn_edges(rt.alloc(), text, merged, *total, pixels(rt, *width))
        }
        OfMerged::Functions(order) => append_functions(rt.alloc(), text, merged, *order),
        OfMerged::Calls(name, side) => append_calls(rt.alloc(), text, merged, (name, *side)),
    }
}

fn append_of_merged(
    rt: &(impl Abort + AllocGlobal),
    text: &mut String,
    told: &OfMerged,
    lists: &[SourceList],
) -> Result<(), AllocError> {
    assert_light(rt, lists, 1_000);
    let merged = MergedStacks::of(rt.alloc(), lists, &Alone)?;
    append_merged(rt, text, told, &merged)
}

fn append_of_two(
    rt: &(impl Abort + AllocGlobal),
    text: &mut String,
    told: &OfTwo,
    lists: &[SourceList],
) -> Result<(), AllocError> {
    let [before, after] = lists else {
        return text.push_str("not two sources");
    };
    assert_light_list(rt, before);
    assert_light_list(rt, after);
    match told {
        OfTwo::Rows => append_rows(rt.alloc(), text, before, after),
        OfTwo::Boxes(total, width) => {
            append_compared_boxes(rt.alloc(), text, before, after, *total, pixels(rt, *width))
        }
    }
}

/// Appends what is told of lists.
fn append_told(
    rt: &(impl Abort + AllocGlobal),
    text: &mut String,
    told: &Told,
    lists: &[SourceList],
) -> Result<(), AllocError> {
    match told {
        Told::Chart(told) => append_of_chart(rt, text, told, lists),
        Told::PlacedGraph(width) => append_placed_graph(rt, text, lists, *width),
        Told::Merged(told) => append_of_merged(rt, text, told, lists),
        Told::Two(told) => append_of_two(rt, text, told, lists),
    }
}

fn append_of_sources(
    rt: &(impl Abort + AllocGlobal),
    text: &mut String,
    told: &Told,
    sources: &[Lines<'_>],
) -> Result<(), AllocError> {
    let lists = lists_of(rt, rt.alloc(), sources)?;
    append_told(rt, text, told, &lists)
}

pub fn is_text(rt: &impl Abort, found: &str, wanted: &str) {
    assert_eq!(rt; found, wanted);
}

/// What is told, of sources of these lines, and as which text.
pub type Telling<'a> = (Told, &'a [Lines<'a>], &'a str);

fn is_told(rt: &(impl Abort + AllocGlobal), telling: &Telling<'_>) -> Result<(), AllocError> {
    let (told, sources, wanted) = telling;
    let mut text = String::new(rt.alloc());
    append_of_sources(rt, &mut text, told, sources)?;
    is_text(rt, &text, wanted);
    Ok(())
}

/// Each of these is told so.
pub fn are_told(rt: &(impl Abort + AllocGlobal), tellings: &[Telling<'_>]) -> Result<(), Fail> {
    for telling in tellings {
        is_told(rt, telling)?;
    }
    Ok(())
}
