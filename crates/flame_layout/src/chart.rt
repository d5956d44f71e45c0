//! The boxes of a flame chart or of a flame graph, in little memory.

ghost use Rattle.std.specs.Prelude.{◌≡◌, ℕ, ◌+◌, ◌<◌, ◌≤◌, ◌^◌, ◌↔◌, IfOk, IsTrue, All, length, slice_index_or};
ghost use Rattle.flame_layout.specs.declared.boxes.SpanBox.{SpanBox as Span};
ghost use Rattle.merged_stacks.specs.Timeline.{samples_of, timeline, total_weight};
ghost use Rattle.flame_layout.specs.Boxes.{span_of};
ghost use Rattle.flame_layout.specs.Chart.{chart_of};
ghost use Rattle.flame_layout.specs.checked.ChartRuns.{samples_in};

use crate::boxes::DrawnBox;
use crate::chart_runs::ChartRuns;
use crate::chart_walks::{ChartWalk, end, enter_samples};
use merged_stacks::{StackRows, total_weight};
use stack_core::SourceList;
use std::alloc::{AllocError, Global};
use std::marker::Model;

/// The boxes of a flame chart or of a flame graph, listed by start, then depth. A box takes 24 bytes; its name and where it begins are told by
/// the sample at which it begins, and the names are lent by the lists.
#[derive(Debug, Drop)]
pub struct Chart<'a, S: StackRows> {
    pub(crate) runs: ChartRuns<'a, S>,
}

impl<'a, S: StackRows> Model for Chart<'a, S> {
    ghost use Rattle.std.specs.Prelude.{List, reverse};
    ghost use Rattle.flame_layout.specs.declared.boxes.SpanBox.{SpanBox as Span};

    ghost Value = { List Span };

    ghost view = { λ chart. reverse chart.runs.spans };
}

impl<'a> Chart<'a, SourceList> {
    /// The boxes of the flame chart of the lists, those of `chart_boxes` in the same order.
    pub fn of(alloc: Global, lists: &'a [SourceList]) -> Result<Self, AllocError>
        requires { total_weight (timeline (samples_of lists.now)) < 2 ^ 64 }
        ensures chart { IfOk result (λ chart. chart ≡ chart_of (timeline (samples_of lists.now))) }
        ensures within { IfOk result (λ chart.
            All (λ span. span.start + span.weight ≤ total_weight (timeline (samples_of lists.now)))
            chart) }
        ensures positive { IfOk result (λ chart. 0 < length chart
            → 0 < total_weight (timeline (samples_of lists.now))) }
    {
        let mut walk = ChartWalk::new(alloc, lent(alloc, lists)?);
        let mut start = total_weight(lists);
        for index in (0..lists.len()).rev() {
            start = enter_samples(&mut walk, start, index)?;
        }
        let runs = end(walk)?;
        Ok(Chart { runs })
    }
}

impl<'a, S: StackRows> Chart<'a, S> {
    /// How many boxes there are.
    pub fn len(&self) -> usize
        ensures count { result ≡ length self.now }
        ensures few { length self.now < 2 ^ 63 }
    {
        self.runs.len()
    }

    /// Whether there are none.
    pub fn is_empty(&self) -> bool
        ensures { IsTrue result ↔ (length self.now ≡ 0) }
    {
        self.len() == 0
    }

    /// The box at a place of the list.
    pub fn get(&self, at: usize) -> DrawnBox<'a>
        requires { at < length self.now }
        ensures { (d : Span) → slice_index_or self.now at d ≡ span_of result }
    {
        self.runs.get(self.len() - 1 - at)
    }
}

/// The lists, each lent.
fn lent(alloc: Global, lists: &[SourceList]) -> Result<Vec<&SourceList>, AllocError>
    ensures { IfOk result (λ all. samples_in (λ list. list.samples) all.items ≡ samples_of lists.now) }
{
    let mut all = Vec::with_capacity(alloc, lists.len())?;
    for list in lists {
        all.push(list)?;
    }
    Ok(all)
}
