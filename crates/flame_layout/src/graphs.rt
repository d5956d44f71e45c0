//! The flame graph.

ghost use Rattle.std.specs.Prelude.{◌≡◌, ◌<◌, ◌≤◌, ◌+◌, ◌^◌, ℕ, [], List, All, IfOk, IsTrue, length, map};
ghost use Rattle.sample_tables.specs.declared.samples.Sample.{Sample};
ghost use Rattle.call_tree.specs.CallTree.{total_weight};
ghost use Rattle.call_tree.specs.Listing.{HasNumbersOf};
ghost use Rattle.flame_layout.specs.Boxes.{span_of};
ghost use Rattle.merged_stacks.specs.Timeline.{total_weight as total_of_samples};
ghost use Rattle.merged_stacks.specs.RankedStacks.{ranked_samples};
ghost use Rattle.flame_layout.specs.Graph.{graph_of};
ghost use Rattle.flame_layout.specs.checked.Listed.{listed_box, listed_boxes};
ghost use Rattle.flame_layout.specs.Paths.{SameOwn, tree_samples};

use crate::boxes::{DrawnBox, SpanBox};
use crate::chart::Chart;
use crate::chart_walks::{ChartWalk, end, enter_samples};
use crate::flame_boxes::span_boxes;
use call_tree::{CallTree, FrameTable, Visit};
use merged_stacks::{MergedStacks, StackRows};
use std::alloc::{AllocError, Global};

/// The boxes of the flame graph of a merged tree, listed by start, then depth. They are those of
/// every list of samples whose weights, summed up by stack, are the tree's.
pub fn graph_boxes(
    alloc: Global,
    tree: &CallTree,
    table: &FrameTable,
) -> Result<Vec<SpanBox>, AllocError>
    requires total { total_weight tree.now [] < 2 ^ 64 }
    requires depth { (path : List ℕ) → 0 < total_weight tree.now path → length path ≤ 4096 }
    requires numbers { HasNumbersOf table.now tree.now }
    ensures graph { IfOk result (λ boxes. (samples : List Sample)
        → SameOwn samples (tree_samples table.now tree.now) → boxes.items ≡ graph_of samples) }
    ensures within { IfOk result (λ boxes.
        All (λ span. span.start + span.weight ≤ total_weight tree.now []) boxes.items) }
    ensures positive { IfOk result (λ boxes. 0 < length boxes.items
        → 0 < total_weight tree.now []) }
{
    let drawn = draw_tree(alloc, tree, table)?;
    span_boxes(alloc, &drawn.as_slice())
}

/// The boxes of `graph_boxes`, with names that the table lends.
pub fn draw_tree<'a>(
    alloc: Global,
    tree: &CallTree,
    table: &'a FrameTable,
) -> Result<Vec<DrawnBox<'a>>, AllocError>
    requires total { total_weight tree.now [] < 2 ^ 64 }
    requires depth { (path : List ℕ) → 0 < total_weight tree.now path → length path ≤ 4096 }
    requires numbers { HasNumbersOf table.now tree.now }
    ensures graph { IfOk result (λ boxes. (samples : List Sample)
        → SameOwn samples (tree_samples table.now tree.now)
        → map span_of boxes.items ≡ graph_of samples) }
    ensures within { IfOk result (λ boxes.
        All (λ drawn. drawn.start + drawn.weight ≤ total_weight tree.now []) boxes.items) }
    ensures positive { IfOk result (λ boxes. 0 < length boxes.items
        → 0 < total_weight tree.now []) }
{
    let visits = tree.listing(table)?;
    visit_boxes(alloc, table, &visits)
}

/// The boxes of the flame graph of merged stacks, listed by start, then depth. They are those of every list of
/// samples whose weights, summed up by stack, are the merged ones.
pub fn merged_boxes(alloc: Global, merged: &MergedStacks) -> Result<Vec<SpanBox>, AllocError>
    ensures graph { IfOk result (λ boxes. (samples : List Sample)
        → SameOwn samples (ranked_samples merged.now) → boxes.items ≡ graph_of samples) }
    ensures within { IfOk result (λ boxes.
        All (λ span. span.start + span.weight ≤ total_of_samples (ranked_samples merged.now)) boxes.items) }
    ensures positive { IfOk result (λ boxes. 0 < length boxes.items
        → 0 < total_of_samples (ranked_samples merged.now)) }
{
    let chart = draw_merged(alloc, merged)?;
    span_boxes(alloc, &&chart)
}

/// The boxes of `merged_boxes`, with names that the merged stacks lend.
pub fn draw_merged<'a>(
    alloc: Global,
    merged: &'a MergedStacks,
) -> Result<Chart<'a, MergedStacks>, AllocError>
    ensures graph { IfOk result (λ chart. (samples : List Sample)
        → SameOwn samples (ranked_samples merged.now) → chart ≡ graph_of samples) }
    ensures within { IfOk result (λ chart.
        All (λ span. span.start + span.weight ≤ total_of_samples (ranked_samples merged.now)) chart) }
    ensures positive { IfOk result (λ chart. 0 < length chart
        → 0 < total_of_samples (ranked_samples merged.now)) }
{
    // The stacks are in order and weigh: the count tells it.
    let _count = merged.len();
    let total = merged.total();
    let mut walk = ChartWalk::over(alloc, merged)?;
    enter_samples(&mut walk, total, 0)?;
    let runs = end(walk)?;
    Ok(Chart { runs })
}

/// The boxes of the visits of a listing.
fn visit_boxes<'a>(
    alloc: Global,
    table: &'a FrameTable,
    visits: &[Visit],
) -> Result<Vec<DrawnBox<'a>>, AllocError>
    requires few { All (λ visit. visit.depth ≤ 4096) visits.now }
    requires named { All (λ visit. 0 < visit.depth → visit.frame < length table.now) visits.now }
    requires sums { All (λ span. (span.start + span.weight < 2 ^ 64) × (span.own ≤ span.weight))
        (listed_boxes table.now 0 visits.now) }
    ensures { IfOk result (λ boxes.
        map span_of boxes.items ≡ listed_boxes table.now 0 visits.now) }
{
    let mut boxes = Vec::new(alloc);
    let mut start: u64 = 0;
    for visit in visits {
        boxes.push(visit_box(table, *visit, start))?;
        start += visit.own as u64;
    }
    Ok(boxes)
}

/// The box of a visit.
fn visit_box<'a>(table: &'a FrameTable, visit: Visit, start: u64) -> DrawnBox<'a>
    requires few { visit.depth ≤ 4096 }
    requires named { 0 < visit.depth → visit.frame < length table.now }
    requires total { visit.total < 2 ^ 64 }
    requires own { visit.own < 2 ^ 64 }
    ensures { span_of result ≡ listed_box table.now start visit }
{
    let name = if visit.depth == 0 {
        "all"
    } else {
        table.name(visit.frame)
    };
    DrawnBox {
        depth: visit.depth as u32,
        name,
        start,
        weight: visit.total as u64,
        own: visit.own as u64,
    }
}
