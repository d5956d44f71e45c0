//! A run that gives all views of its sources.

ghost use Rattle.std.specs.Prelude.{◌≡◌, ◌≤◌, ◌<◌, ℕ, IfOk, IfSome, IsErrOf, length};
ghost use Rattle.std.specs.Arc.{arc_value};
ghost use Rattle.stack_core.specs.Interleaving.{IsInterleaving};
ghost use Rattle.ring_collect.specs.Collection.{Collects, AreWhole};
ghost use Rattle.merged_stacks.specs.Timeline.{samples_of, timeline};
ghost use Rattle.flame_layout.specs.Chart.{chart_of};
ghost use Rattle.flame_layout.specs.Graph.{graph_of};
ghost use Rattle.source_lists.specs.Runs.{ReadsLists};
ghost use Rattle.source_lists.specs.Sources.{rests_of};
ghost use Rattle.merging.specs.Snapshots.{snapshot_samples, AreSnapshots};
ghost use Rattle.merging.specs.Sums.{all_samples, HasSumsOf};

use crate::view_set::Views;
use ring_collect::CollectFault;
use run_options::Options;
use source_lists::{Gating, Input, Run, RunFault, Source, read};
use stack_core::{Gate, NoSink};
use std::alloc::Global;
use std::sync::{Arc, Wait};
use std::thread::Threads;

/// Reads all sources at the same time, each in a thread of its own and through a ring of its own, and
/// gives what is seen of them. At most 64 sources.
///
/// The gate is asked before each sample of a source. Where it says Stop, the source's list has the
/// samples before, and the ending `Stopped`.
pub fn views<T: Threads + Wait + Copy + Send + 'static, G: Gate + Send + Sync + Drop + 'static>(
    rt: &T,
    alloc: Global,
    sources: Vec<Source>,
    options: &Options,
    gate: Arc<G>,
) -> Result<Views, CollectFault>
    requires sources { length sources.items ≤ 64 }
    requires every { IfSome options.now.every (λ every. 1 ≤ every) }

    // Each list is exactly the samples that the source's bytes stand for, each once, in their order:
    // all of them, or the first ones where the gate stopped the source.
    ensures collected_lists { IfOk result (λ views.
        Collects (G.may_stop (arc_value gate)) (G.may_go (arc_value gate))
        (rests_of options.now sources.items) views.lists) }
    ensures whole_lists { ((source index : ℕ) → G.may_stop (arc_value gate) source index → ⊥)
        → IfOk result (λ views. AreWhole (rests_of options.now sources.items) views.lists) }

    // The chart's boxes are the maximal runs of equal prefixes over the lists, one after another.
    ensures chart { IfOk result (λ views.
        views.chart ≡ chart_of (timeline (samples_of views.lists))) }

    // Each merged frame's total is the summed weight of the samples through its path.
    ensures merged_totals { IfOk result (λ views.
        HasSumsOf views.names views.tree (all_samples (samples_of views.lists))) }
    ensures graph { IfOk result (λ views.
        views.graph ≡ graph_of (all_samples (samples_of views.lists))) }

    // The order of arrival, and what was merged at its moments.
    ensures order { IfOk result (λ views. IsInterleaving views.order (samples_of views.lists)) }
    ensures snapshots { IfOk result (λ views.
        AreSnapshots options.now.every views.names views.order
        (λ m. snapshot_samples m views.order (samples_of views.lists)) views.snapshots) }
    ensures every { IfOk result (λ views. views.every ≡ options.now.every) }

    ensures refused { (source : ℕ) → IsErrOf result (CollectFault.Unfinished source)
        → source < length sources.items }
{
    let run = read_loaded(rt, alloc, sources, options, gate)?;
    Ok(Views::of(alloc, run.kept, options.every)?)
}

// The lists of sources whose bytes are all there.
fn read_loaded<T: Threads + Wait + Copy + Send + 'static, G: Gate + Send + Sync + Drop + 'static>(
    rt: &T,
    alloc: Global,
    sources: Vec<Source>,
    options: &Options,
    gate: Arc<G>,
) -> Result<Run, CollectFault>
    requires { length sources.items ≤ 64 }
    ensures reads { IfOk result (λ run.
        ReadsLists (G.may_stop (arc_value gate)) (G.may_go (arc_value gate))
        (rests_of options.now sources.items) run.kept.lists run.kept.order) }
    ensures refused { (source : ℕ) → IsErrOf result (CollectFault.Unfinished source)
        → source < length sources.items }
{
    let inputs = Input::all_of(alloc, sources)?;
    let gating = Gating::Asked(gate);
    match read(rt, alloc, inputs, options, gating, &mut NoSink::new()) {
        Ok(run) => Ok(run),
        Err(RunFault::Collect(fault)) => Err(fault),
        // None of them is: that is told of a source that is no more than opened.
        Err(RunFault::Unreadable { source }) => Err(CollectFault::Unfinished {
            source: source as u32,
        }),
    }
}
