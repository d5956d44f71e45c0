//! Graphs of trees.

ghost use Rattle.std.specs.Prelude.{◌≡◌, ◌<◌, ◌^◌, [], List, IfOk, OnOk, length};
ghost use Rattle.sample_tables.specs.Rows.{sample_at};
ghost use Rattle.call_tree.specs.FrameTable.{HasDistinctNames};
ghost use Rattle.call_tree.specs.Listing.{named, AreIn};
ghost use Rattle.merged_stacks.specs.Timeline.{total_weight};
ghost use Rattle.merged_stacks.specs.checked.Ranks.{Grows};
ghost use Rattle.flame_layout.specs.checked.Held.{Holds};

use super::{RUNS, THREE, append_placed_boxes, pixels};
use crate::tests::sources::assert_light_list;
use crate::tests::told::{Telling, Told, are_told};
use call_tree::{CallTree, FrameTable};
use flame_layout::{PlacedBox, Width, graph_boxes, place};
use stack_core::SourceList;
use std::alloc::{AllocError, Global};
use std::process::Abort;
use std::test::Fail;

/// Adds the samples of a list to an empty tree.
fn add_list(
    alloc: Global,
    table: &mut FrameTable,
    tree: &mut CallTree,
    list: &SourceList,
) -> Result<(), AllocError>
    requires empty { Holds table.old tree.old [] }
    requires room { total_weight list.now.samples < 2 ^ 128 }
    requires distinct { HasDistinctNames table.old }
    ensures { OnOk result (Holds table.new tree.new list.now.samples) }
{
    for at in 0..list.len() {
        let numbers = frame_numbers(alloc, table, list, at)?;
        tree.add(&numbers, list.weight(at))?;
    }
    Ok(())
}

/// The numbers of the frames of a sample. New names are put into the table.
fn frame_numbers(
    alloc: Global,
    table: &mut FrameTable,
    list: &SourceList,
    at: usize,
) -> Result<Vec<usize>, AllocError>
    requires at { at < length list.now.samples }
    requires distinct { HasDistinctNames table.old }
    ensures names { IfOk result (λ numbers.
        named table.new numbers.items ≡ (sample_at list.now.samples at).stack) }
    ensures known { IfOk result (λ numbers. AreIn table.new numbers.items) }
    ensures grows { OnOk result (Grows table.old table.new) }
    ensures distinct { OnOk result (HasDistinctNames table.new) }
{
    let mut numbers = Vec::new(alloc);
    for frame in 0..list.depth(at) {
        numbers.push(table.intern(list.name(at, frame))?)?;
    }
    Ok(numbers)
}

/// The graph of a tree that holds the samples of a source, in an image.
fn placed_tree(
    alloc: Global,
    table: &FrameTable,
    tree: &CallTree,
    source: &SourceList,
    width: Width,
) -> Result<Vec<PlacedBox>, AllocError>
    requires held { Holds table.now tree.now source.now.samples }
    requires light { total_weight source.now.samples < 2 ^ 64 }
{
    // The samples are within the limits: the count tells it.
    let _count = source.len();
    let total = source.total();
    let boxes = graph_boxes(alloc, tree, table)?;
    place(alloc, boxes, total as u64, width)
}

/// The graph of one source, in an image, by way of an empty tree.
fn placed_in(
    alloc: Global,
    table: &mut FrameTable,
    tree: &mut CallTree,
    source: &SourceList,
    width: Width,
) -> Result<Vec<PlacedBox>, AllocError>
    requires empty { Holds table.old tree.old [] }
    requires light { total_weight source.now.samples < 2 ^ 64 }
    requires distinct { HasDistinctNames table.old }
{
    add_list(alloc, table, tree, source)?;
    placed_tree(alloc, table, tree, source, width)
}

fn placed_graph(
    rt: &impl Abort,
    alloc: Global,
    source: &SourceList,
    width: Width,
) -> Result<Vec<PlacedBox>, AllocError> {
    assert_light_list(rt, source);
    let mut tree = CallTree::new(alloc)?;
    let mut table = FrameTable::new(alloc);
    placed_in(alloc, &mut table, &mut tree, source, width)
}

pub(in crate::tests) fn append_placed_graph(
    rt: &(impl Abort + AllocGlobal),
    text: &mut String,
    lists: &[SourceList],
    width: u32,
) -> Result<(), AllocError> {
    let [source] = lists else {
        return text.push_str("not one source");
    };
    match placed_graph(rt, rt.alloc(), source, pixels(rt, width)) {
        Ok(boxes) => append_placed_boxes(text, &boxes),
        Err(refused) => Err(refused),
    }
}

const OF_THE_RUNS: &[Telling<'static>] = &[(
    Told::PlacedGraph(3),
    &[RUNS],
    "(0 all 0 3 0 0 3)(1 a 0 3 0 0 3)(2 b 0 2 2 0 2)(2 c 2 1 1 2 3)",
)];

#[test]
fn graph_of_the_runs(rt: HostRuntime) -> Result<(), Fail> {
    are_told(&rt, OF_THE_RUNS)
}

const OF_THREE_LINES: &[Telling<'static>] = &[(
    Told::PlacedGraph(10),
    &[THREE],
    "(0 all 0 3 0 0 10)(1 a 0 1 1 0 3)(1 b 1 2 2 3 10)",
)];

#[test]
fn graph_of_three_lines(rt: HostRuntime) -> Result<(), Fail> {
    are_told(&rt, OF_THREE_LINES)
}

const OF_NOTHING: &[Telling<'static>] = &[(Told::PlacedGraph(10), &[&[]], "")];

#[test]
fn empty_graph(rt: HostRuntime) -> Result<(), Fail> {
    are_told(&rt, OF_NOTHING)
}
