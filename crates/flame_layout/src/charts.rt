//! The flame chart.

ghost use Rattle.std.specs.Prelude.{◌≡◌, ◌+◌, ◌<◌, ◌≤◌, ◌^◌, IfOk, All, length};
ghost use Rattle.merged_stacks.specs.Timeline.{samples_of, timeline, total_weight};
ghost use Rattle.flame_layout.specs.Chart.{chart_of};

use crate::boxes::SpanBox;
use crate::chart::Chart;
use crate::chart_walks::{ChartWalk, end, enter};
use crate::flame_boxes::span_boxes;
use merged_stacks::StackRows;
use stack_core::SourceList;
use std::alloc::{AllocError, Global};

/// The boxes of the flame chart of the lists, one after another. Samples of weight 0 are left out
/// first, so that their neighbours meet; then there is one box for each longest run of neighbouring
/// samples whose stacks begin with the same names. They are listed by start, then depth.
pub fn chart_boxes(alloc: Global, lists: &[SourceList]) -> Result<Vec<SpanBox>, AllocError>
    requires { total_weight (timeline (samples_of lists.now)) < 2 ^ 64 }
    ensures chart { IfOk result (λ boxes.
        boxes.items ≡ chart_of (timeline (samples_of lists.now))) }
    ensures within { IfOk result (λ boxes.
        All (λ span. span.start + span.weight ≤ total_weight (timeline (samples_of lists.now)))
        boxes.items) }
    ensures positive { IfOk result (λ boxes. 0 < length boxes.items
        → 0 < total_weight (timeline (samples_of lists.now))) }
{
    let chart = Chart::of(alloc, lists)?;
    span_boxes(alloc, &&chart)
}

/// The boxes of the flame chart of samples that weigh `total`. Those of weight 0 are not left out.
pub(crate) fn draw_all<'a, S: StackRows>(
    alloc: Global,
    list: &'a S,
    total: u64,
) -> Result<Chart<'a, S>, AllocError>
    requires { total_weight (S.samples list.now) ≡ total }
    ensures { IfOk result (λ chart. chart ≡ chart_of (S.samples list.now)) }
{
    let mut walk = ChartWalk::over(alloc, list)?;
    let mut start = total;
    for at in (0..list.len()).rev() {
        enter(&mut walk, start, 0, at)?;
        start -= list.weight(at);
    }
    let runs = end(walk)?;
    Ok(Chart { runs })
}
