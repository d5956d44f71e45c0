//! The boxes of a chart by the samples at which they begin.

ghost use Rattle.std.specs.Prelude.{◌≡◌, ℕ, ◌<◌, ◌≤◌, ◌^◌, ◌++◌, ◌∷◌, [], List, IfOk, OnOk, length, slice_index_or};
ghost use Rattle.flame_layout.specs.declared.boxes.SpanBox.{SpanBox as Span};
ghost use Rattle.flame_layout.specs.declared.chart_runs.RunStart.{RunStart as Start};
ghost use Rattle.stack_core.specs.Interleaving.{list_of};
ghost use Rattle.flame_layout.specs.Boxes.{span_of};
ghost use Rattle.flame_layout.specs.checked.ChartRuns.{IsThere, no_start, samples_in, span_from, stack_at};

use crate::boxes::DrawnBox;
use crate::shared_names::frame_name;
use merged_stacks::StackRows;
use std::alloc::{AllocError, Global};
use std::marker::Model;

/// Where runs begin: at a sample of a list.
#[derive(Clone, Copy, Debug)]
pub(crate) struct RunStart {
    /// Which list it is.
    pub(crate) list: usize,
    /// Which sample of the list it is.
    pub(crate) at: usize,
    /// The sum of the weights before the sample.
    pub(crate) start: u64,
}

/// A box without what the sample tells at which it begins.
#[derive(Clone, Copy, Debug)]
pub(crate) struct ChartRun {
    /// The number of the place where it begins.
    first: u32,
    depth: u32,
    weight: u64,
    own: u64,
}

/// Boxes of a chart, the last first. What all boxes that begin at one sample have in common is kept once.
#[derive(Debug, Drop)]
pub(crate) struct ChartRuns<'a, S: StackRows> {
    lists: Vec<&'a S>,
    starts: Vec<RunStart>,
    runs: Vec<ChartRun>,
}

impl<'a, S: StackRows> Model for ChartRuns<'a, S> {
    ghost use Rattle.std.specs.Prelude.{All, map};
    ghost use Rattle.flame_layout.specs.checked.ChartRuns.{RunsState, IsRun, samples_in, span_of_run};

    ghost Value = { RunsState };

    ghost view = { λ c. record {
      lists = samples_in S.samples c.lists.items;
      spans = map (span_of_run (samples_in S.samples c.lists.items) c.starts.items) c.runs.items;
    } };

    ghost invariant = { λ c. All (IsRun (samples_in S.samples c.lists.items) c.starts.items) c.runs.items };
}

impl<'a, S: StackRows> ChartRuns<'a, S> {
    /// No boxes of these lists.
    pub(crate) fn new(alloc: Global, lists: Vec<&'a S>) -> Self
        ensures { result ≡ record { lists = samples_in S.samples lists.entry.items; spans = [] } }
    {
        ChartRuns {
            lists,
            starts: Vec::new(alloc),
            runs: Vec::new(alloc),
        }
    }

    /// The list of a number.
    pub(crate) fn list(&self, number: usize) -> &'a S
        requires { number < length self.now.lists }
        ensures { S.samples result.now ≡ list_of self.now.lists number }
    {
        self.lists[number]
    }

    pub(crate) fn len(&self) -> usize
        ensures count { result ≡ length self.now.spans }
        ensures few { length self.now.spans < 2 ^ 63 }
    {
        self.runs.len()
    }

    /// The box of a number.
    pub(crate) fn get(&self, at: usize) -> DrawnBox<'a>
        requires { at < length self.now.spans }
        ensures { (d : Span) → slice_index_or self.now.spans at d ≡ span_of result }
    {
        let run = self.runs[at];
        let first = self.starts[run.first as usize];
        DrawnBox {
            depth: run.depth,
            name: frame_name(self.lists[first.list], first.at, run.depth as usize),
            start: first.start,
            weight: run.weight,
            own: run.own,
        }
    }

    /// Appends a box that begins there. A place past the 2^32nd is refused as memory is.
    pub(crate) fn push(
        &mut self,
        first: &RunStart,
        depth: u32,
        weight: u64,
        own: u64,
    ) -> Result<(), AllocError>
        requires there { IsThere self.old.lists first.now }
        requires deep { depth ≤ length (stack_at self.old.lists first.now) }
        ensures { OnOk result (self.new ≡ record self.old
            { spans = self.old.spans ++ span_from self.old.lists first.now depth weight own ∷ [] }) }
    {
        let first = number_of(&mut self.starts, first)?;
        self.runs.push(ChartRun {
            first,
            depth,
            weight,
            own,
        })?;
        Ok(())
    }
}

/// The number of a place where runs begin, which may be the last one.
fn number_of(starts: &mut Vec<RunStart>, start: &RunStart) -> Result<u32, AllocError>
    ensures there { IfOk result (λ n. n < length starts.new.items) }
    ensures is { IfOk result (λ n. slice_index_or starts.new.items n no_start ≡ start.now) }
    ensures more { (more : List Start) × (starts.new.items ≡ starts.old.items ++ more) }
{
    let is_last = match starts.last() {
        Some(last) => last.list == start.list && last.at == start.at && last.start == start.start,
        None => false,
    };
    if !is_last {
        starts.push(*start)?;
    }
    u32::try_from(starts.len() - 1).map_err(|_| AllocError)
}
