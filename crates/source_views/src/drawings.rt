//! The boxes of what was collected.
ghost use Rattle.std.specs.Prelude.{◌≡◌, IfOk};
ghost use Rattle.flame_layout.specs.Chart.{chart_of};
ghost use Rattle.flame_layout.specs.Graph.{graph_of};
ghost use Rattle.merged_stacks.specs.Timeline.{samples_of, timeline};
ghost use Rattle.merging.specs.Sums.{all_samples};

use crate::workers::merge;
use flame_layout::{Chart, SpanBox, chart_boxes, merged_boxes};
use merged_stacks::Alone;
use source_lists::SourceLists;
use stack_core::SourceList;
use std::alloc::{AllocError, Global};

// The flame graph of all samples.
pub(crate) fn draw_graph(alloc: Global, sources: &SourceLists) -> Result<Vec<SpanBox>, AllocError>
    ensures { IfOk result (λ boxes.
        boxes.items ≡ graph_of (all_samples (samples_of sources.now.lists))) }
{
    let merged = merge(&Alone, alloc, sources)?;
    merged_boxes(alloc, &merged)
}

// The flame chart of the sources one after another.
pub(crate) fn draw_chart(alloc: Global, sources: &SourceLists) -> Result<Vec<SpanBox>, AllocError>
    ensures { IfOk result (λ boxes.
        boxes.items ≡ chart_of (timeline (samples_of sources.now.lists))) }
{
    chart_boxes(alloc, sources.lists())
}

/// The same boxes in little memory, with names that the sources lend.
pub fn lend_chart<'a>(
    alloc: Global,
    sources: &'a SourceLists,
) -> Result<Chart<'a, SourceList>, AllocError>
    ensures { IfOk result (λ chart. chart ≡ chart_of (timeline (samples_of sources.now.lists))) }
{
    Chart::of(alloc, sources.lists())
}
