//! The walk over the samples of lists, from the last to the first, that finds the boxes of their chart.

ghost use Rattle.std.specs.Prelude.{◌≡◌, ℕ, ◌+◌, ◌-◌, ◌<◌, ◌≤◌, ◌++◌, ◌^◌, ◌∷◌, [], OnOk, IfOk, All, List, map, length, reverse, take, drop};
ghost use Rattle.std.specs.List.{range_with_len};
ghost use Rattle.stack_core.specs.Interleaving.{list_of};
ghost use Rattle.sample_tables.specs.declared.samples.Sample.{Sample as WalkedSample};
ghost use Rattle.sample_tables.specs.Rows.{sample_at};
ghost use Rattle.merged_stacks.specs.Timeline.{Stack, drawn, total_weight};
ghost use Rattle.flame_layout.specs.Chart.{chart_of};
ghost use Rattle.flame_layout.specs.checked.Walk.{boxes_of_runs, new_run, shared_runs_of};
ghost use Rattle.flame_layout.specs.checked.ChartRuns.{IsThere, samples_in, stack_at, stack_in};
ghost use Rattle.flame_layout.specs.checked.ChartWalks.{BeginAlike, IsChartWalk, named_runs, runs_in};

use crate::chart_runs::{ChartRuns, RunStart};
use crate::shared_names::{shared_between, shared_in_list};
use merged_stacks::StackRows;
use std::alloc::{AllocError, Global};

/// Where a run ends that goes on at the front of what was walked. Its name is that of the sample at the front.
#[derive(Clone, Copy)]
pub(crate) struct OpenEnd {
    pub(crate) end: u64,
    /// The weights of its samples that end in this frame.
    pub(crate) own: u64,
}

/// The walk: the boxes of the runs that have ended, the last box first, where the others end, one for each depth, and the sample at the
/// front.
#[derive(Drop)]
pub(crate) struct ChartWalk<'a, S: StackRows> {
    pub(crate) chart: ChartRuns<'a, S>,
    pub(crate) ends: Vec<OpenEnd>,
    pub(crate) front: Option<RunStart>,
}

impl<'a, S: StackRows> ChartWalk<'a, S> {
    /// Nothing of these lists is walked yet.
    pub(crate) fn new(alloc: Global, lists: Vec<&'a S>) -> Self
        ensures lists { result.chart.lists ≡ samples_in S.samples lists.entry.items }
        ensures walked { (start : ℕ) → IsChartWalk start result [] }
    {
        ChartWalk {
            chart: ChartRuns::new(alloc, lists),
            ends: Vec::new(alloc),
            front: None,
        }
    }

    /// Nothing of this list is walked yet.
    pub(crate) fn over(alloc: Global, list: &'a S) -> Result<Self, AllocError>
        ensures lists { IfOk result (λ walk. walk.chart.lists ≡ S.samples list.now ∷ []) }
        ensures walked { IfOk result (λ walk. (start : ℕ) → IsChartWalk start walk []) }
    {
        let mut lists = Vec::new(alloc);
        lists.push(list)?;
        Ok(ChartWalk::new(alloc, lists))
    }
}

/// With how many names a sample's stack and that of the front begin alike.
fn shared_with<S: StackRows>(
    chart: &ChartRuns<'_, S>,
    front: &RunStart,
    list: usize,
    at: usize,
) -> usize
    requires front { IsThere chart.now.lists front.now }
    requires list { list < length chart.now.lists }
    requires at { at < length (list_of chart.now.lists list) }
    ensures { BeginAlike (stack_in chart.now.lists list at) (stack_at chart.now.lists front.now) result }
{
    let samples = chart.list(list);
    if front.list == list {
        shared_in_list(samples, at, front.at)
    } else {
        shared_between(samples, at, chart.list(front.list), front.at)
    }
}

/// Takes the ends off, the deepest first, down to `keep` of them, and appends the boxes that begin at the front.
fn close_ends<S: StackRows>(
    ends: &mut Vec<OpenEnd>,
    chart: &mut ChartRuns<'_, S>,
    front: &RunStart,
    keep: usize,
) -> Result<(), AllocError>
    requires few { length ends.old.items < 2 ^ 32 }
    requires kept { keep ≤ length ends.old.items }
    requires begun { All (λ going. front.now.start ≤ going.end) ends.old.items }
    requires there { IsThere chart.old.lists front.now }
    requires deep { length ends.old.items ≡ length (stack_at chart.old.lists front.now) + 1 }
    ensures ends { OnOk result (ends.new.items ≡ take keep ends.old.items) }
    ensures chart { OnOk result (chart.new ≡ record chart.old {
      spans = chart.old.spans
          ++ reverse (drop keep (boxes_of_runs front.now.start
          (named_runs (stack_at chart.old.lists front.now) ends.old.items)));
    }) }
{
    'each: while ends.len() > keep {
        let Some(going) = ends.pop() else {
            unreachable!();
        };
        let depth = ends.len() as u32;
        chart.push(front, depth, going.end - front.start, going.own)?;
    }
    Ok(())
}

/// Appends ends up to that many, of runs that have only begun.
fn open_ends(ends: &mut Vec<OpenEnd>, count: usize, end: u64) -> Result<(), AllocError>
    requires { length ends.old.items ≤ count }
    ensures { OnOk result ((stack : Stack) → named_runs stack ends.new.items
        ≡ named_runs stack ends.old.items ++ map (new_run stack end)
        (range_with_len (length ends.old.items) (count - length ends.old.items))) }
{
    'each: while ends.len() < count {
        ends.push(OpenEnd { end, own: 0 })?;
    }
    Ok(())
}

/// Closes the runs at the front that don't go on under a sample.
fn close_front<S: StackRows>(
    walk: &mut ChartWalk<'_, S>,
    list: usize,
    at: usize,
) -> Result<(), AllocError>
    requires list { list < length walk.old.chart.lists }
    requires at { at < length (list_of walk.old.chart.lists list) }
    requires walked { (start : ℕ) × (samples : List WalkedSample) × IsChartWalk start walk.old samples }
    ensures lists { OnOk result (walk.new.chart.lists ≡ walk.old.chart.lists) }
    ensures spans { OnOk result ((start : ℕ) (samples : List WalkedSample) → IsChartWalk start walk.old samples
        → walk.new.chart.spans ≡ walk.old.chart.spans ++ reverse (drop
        (shared_runs_of (stack_in walk.old.chart.lists list at) (runs_in walk.old))
        (boxes_of_runs start (runs_in walk.old)))) }
    ensures count { OnOk result (length walk.new.ends.items
        ≡ shared_runs_of (stack_in walk.old.chart.lists list at) (runs_in walk.old)) }
    ensures kept { OnOk result (named_runs (stack_in walk.old.chart.lists list at) walk.new.ends.items
        ≡ take (shared_runs_of (stack_in walk.old.chart.lists list at) (runs_in walk.old))
        (runs_in walk.old)) }
    ensures deep { OnOk result (length walk.new.ends.items
        ≤ length (stack_in walk.old.chart.lists list at) + 1) }
{
    let Some(front) = walk.front else {
        return Ok(());
    };
    let keep = shared_with(&walk.chart, &front, list, at) + 1;
    close_ends(&mut walk.ends, &mut walk.chart, &front, keep)
}

/// A run's own weight and a sample's, which begins before `start`.
fn with_weight(own: u64, weight: u64, start: u64, end: u64) -> u64
    requires room { own + start ≤ end }
    requires before { weight ≤ start }
    ensures { result ≡ own + weight }
{
    own + weight
}

/// Takes a sample with a weight in front of what was walked, which begins at `start`.
pub(crate) fn enter<S: StackRows>(
    walk: &mut ChartWalk<'_, S>,
    start: u64,
    list: usize,
    at: usize,
) -> Result<(), AllocError>
    requires list { list < length walk.old.chart.lists }
    requires at { at < length (list_of walk.old.chart.lists list) }
    requires room { (sample_at (list_of walk.old.chart.lists list) at).weight ≤ start }
    requires walked { (samples : List WalkedSample) × IsChartWalk start walk.old samples }
    ensures lists { OnOk result (walk.new.chart.lists ≡ walk.old.chart.lists) }
    ensures walked { OnOk result ((before : ℕ) (samples : List WalkedSample)
        → before + (sample_at (list_of walk.old.chart.lists list) at).weight ≡ start
        → IsChartWalk start walk.old samples → IsChartWalk before walk.new
        (sample_at (list_of walk.old.chart.lists list) at ∷ samples)) }
{
    close_front(walk, list, at)?;
    let samples = walk.chart.list(list);
    let depth = samples.depth(at);
    let weight = samples.weight(at);
    open_ends(&mut walk.ends, depth + 1, start)?;
    let last = &mut walk.ends[depth];
    last.own = with_weight(last.own, weight, start, last.end);
    let start = start - weight;
    walk.front = Some(RunStart { list, at, start });
    Ok(())
}

/// Takes the samples of a list in front of what was walked, the last first. Gives where they begin.
pub(crate) fn enter_samples<S: StackRows>(
    walk: &mut ChartWalk<'_, S>,
    end: u64,
    list: usize,
) -> Result<u64, AllocError>
    requires list { list < length walk.old.chart.lists }
    requires room { total_weight (list_of walk.old.chart.lists list) ≤ end }
    requires walked { (samples : List WalkedSample) × IsChartWalk end walk.old samples }
    ensures lists { OnOk result (walk.new.chart.lists ≡ walk.old.chart.lists) }
    ensures start { IfOk result (λ start.
        start + total_weight (list_of walk.old.chart.lists list) ≡ end) }
    ensures walked { IfOk result (λ start. (samples : List WalkedSample)
        → IsChartWalk end walk.old samples → IsChartWalk start walk.new
        (drawn (list_of walk.old.chart.lists list) ++ samples)) }
{
    let samples = walk.chart.list(list);
    let mut start = end;
    for at in (0..samples.len()).rev() {
        let weight = samples.weight(at);
        if weight > 0 {
            enter(walk, start, list, at)?;
            start -= weight;
        }
    }
    Ok(start)
}

/// The boxes of what was walked, once it begins at 0, the last first.
pub(crate) fn end<'a, S: StackRows>(walk: ChartWalk<'a, S>) -> Result<ChartRuns<'a, S>, AllocError>
    requires { (samples : List WalkedSample) × IsChartWalk 0 walk samples }
    ensures { IfOk result (λ chart. (samples : List WalkedSample) → IsChartWalk 0 walk.entry samples
        → reverse chart.spans ≡ chart_of samples) }
{
    let ChartWalk {
        mut chart,
        mut ends,
        front,
    } = walk;
    if let Some(front) = front {
        close_ends(&mut ends, &mut chart, &front, 0)?;
    }
    Ok(chart)
}
