//! What is read of sources, each to its end or as far as a gate lets it.

ghost use Rattle.std.specs.Prelude.{◌≡◌, ◌≤◌, ◌<◌, ℕ, All, Some, IfErr, IfOk, IfSome, IsErrOf, IsSome, length, map};
ghost use Rattle.std.specs.Arc.{arc_value};
ghost use Rattle.std.specs.List.{AllZip};
ghost use Rattle.stack_core.specs.Interleaving.{IsInterleaving};
ghost use Rattle.merged_stacks.specs.Merged.{all_samples};
ghost use Rattle.merged_stacks.specs.Timeline.{samples_of, total_weight};
ghost use Rattle.ring_collect.specs.Collection.{seen_as_rest};
ghost use Rattle.run_options.specs.Filters.{kept_rest};
ghost use Rattle.source_lists.specs.Lists.{AreLimited};
ghost use Rattle.source_lists.specs.Runs.{IsOpen, IsReadOut, MayGo, MayStop, ReadsLists};
ghost use Rattle.source_lists.specs.Sources.{asked_rests, known_inputs, whole_weight};
ghost use Rattle.source_lists.specs.Summing.{IsFound};
ghost use Rattle.source_lists.specs.checked.OpenRuns.{IsOfReaders, IsOfRun};

use crate::gating::Gating;
use crate::inputs::Input;
use crate::loaded_sources::LoadedSource;
use crate::run_faults::{RunFault, RunResult};
use crate::runners::Runner;
use crate::source_lists::SourceLists;
use crate::source_readers::{filtered_readers_of, readers_of};
use ring_collect::{CollectFault, Collected};
use run_options::Options;
use stack_core::{Gate, RowSink};
use std::alloc::{AllocError, Global};
use std::sync::{Arc, Wait};
use std::thread::Threads;

/// What was read of sources.
#[derive(Drop)]
pub struct Run {
    /// The samples that the filter keeps.
    pub kept: SourceLists,
    /// What all samples weigh, with those that the filter leaves out. `None` where a gate was asked: what is behind a stop was not read.
    pub whole_weight: Option<u64>,
}

/// What the filter of the options keeps of a run in which each source was read to its end.
fn kept_run(alloc: Global, whole: SourceLists, options: &Options) -> Result<Run, AllocError>
    ensures lists { IfOk result (λ run. map seen_as_rest run.kept.lists
        ≡ map (kept_rest options.now.filter) (map seen_as_rest whole.lists)) }
    ensures order { IfOk result (λ run.
        IsInterleaving run.kept.order (samples_of run.kept.lists)) }
    ensures whole_weight { IfOk result (λ run.
        run.whole_weight ≡ Some (total_weight (all_samples (samples_of whole.lists)))) }
{
    let whole_weight = Some(whole.total());
    let kept = whole.kept(alloc, &options.filter)?;
    Ok(Run { kept, whole_weight })
}

impl<T: Threads + Wait + Copy + Send + 'static> Runner<'_, T> {
    /// Collects what the options ask for of the sources: by rows, or, where a filter leaves samples out, by samples, since a gate is asked
    /// for those alone that are kept.
    fn collect_asked<G: Gate + Send + Sync + Drop + 'static, S: RowSink>(
        &self,
        sources: Vec<LoadedSource>,
        gate: Arc<G>,
        sink: &mut S,
    ) -> Result<Collected, CollectFault>
        requires { length sources.items ≤ 64 }
        ensures reads { IfOk result (λ run.
            ReadsLists (G.may_stop (arc_value gate)) (G.may_go (arc_value gate))
            (asked_rests self.now.options.now sources.items) run.lists.items run.order.items) }
        ensures limits { IfOk result (λ run. AreLimited run.lists.items) }
        ensures err { IfErr result (IsOfReaders (length sources.items)) }
        ensures setting { S.setting sink.new ≡ S.setting sink.old }
    {
        if self.options.filter.is_everything() {
            let readers = readers_of(self.alloc, sources, self.options)?;
            self.run_rows(readers, gate, sink)
        } else {
            let readers = filtered_readers_of(self.alloc, sources, self.options)?;
            self.run_filtered(readers, gate)
        }
    }

    /// Reads sources as far as a gate lets them. Texts are loaded before.
    fn read_asked<G: Gate + Send + Sync + Drop + 'static, S: RowSink>(
        &self,
        inputs: Vec<Input>,
        gate: Arc<G>,
        sink: &mut S,
    ) -> RunResult<Run>
        requires { length inputs.items ≤ 64 }
        ensures reads { IfOk result (λ run. IfSome (known_inputs inputs.items) (λ sources.
            ReadsLists (G.may_stop (arc_value gate)) (G.may_go (arc_value gate))
            (asked_rests self.now.options.now sources) run.kept.lists run.kept.order)) }
        ensures count { IfOk result (λ run. length run.kept.lists ≡ length inputs.items) }
        ensures ordered { IfOk result (λ run.
            IsInterleaving run.kept.order (samples_of run.kept.lists)) }
        ensures err { IfErr result (IsOfRun (length inputs.items)) }
        ensures setting { S.setting sink.new ≡ S.setting sink.old }
    {
        let sources = Input::load_all(self.alloc, inputs)?;
        let kept = SourceLists::of(self.collect_asked(sources, gate, sink)?);
        Ok(Run {
            kept,
            whole_weight: None,
        })
    }
}

/// Reads and collects sources at the same time, each in a thread of its own and through a ring of its own: the lists of the samples that
/// the filter of the options keeps, and the order in which they came. A stack that comes again costs twelve bytes, and four for the
/// order. At most 64 sources. A long source that comes alone is read in parts at the same time, if no gate is asked.
///
/// A stored text is read where it is, and never all of it at once. One that can't be read to its end is a fault, and nothing is told of the
/// others: no list ends before its source does unless a gate stopped it.
///
/// A gate is asked before each sample of a source that the filter keeps. Where it says Stop, the source's list has the samples before,
/// and the ending `Stopped`. Without a gate all samples are collected by rows, whatever the filter, and then each name and each stack of
/// a source is looked at once, however many samples have it.
///
/// The sink looks on: it is fed with samples as they arrive, those of a part under the part's number. Under a gate and a filter that
/// leaves samples out it is not fed.
pub fn read<
    T: Threads + Wait + Copy + Send + 'static,
    G: Gate + Send + Sync + Drop + 'static,
    S: RowSink,
>(
    rt: &T,
    alloc: Global,
    inputs: Vec<Input>,
    options: &Options,
    gating: Gating<G>,
    sink: &mut S,
) -> Result<Run, RunFault>
    requires { length inputs.items ≤ 64 }

    // Each list is the samples that the source's bytes stand for, where those are known, as the options ask for them: all of them, or the
    // first ones where the gate stopped the source. The order is one of the lists.
    ensures reads { IfOk result (λ run. IfSome (known_inputs inputs.items) (λ sources.
        ReadsLists (MayStop G.may_stop gating) (MayGo G.may_go gating)
        (asked_rests options.now sources) run.kept.lists run.kept.order)) }
    ensures weight { IsOpen gating → IfOk result (λ run. IfSome (known_inputs inputs.items)
        (λ sources. run.whole_weight ≡ Some (whole_weight options.now sources))) }

    // Also where bytes are not known.
    ensures weighed { IsOpen gating → IfOk result (λ run. IsSome run.whole_weight) }
    ensures count { IfOk result (λ run. length run.kept.lists ≡ length inputs.items) }
    ensures ordered { IfOk result (λ run.
        IsInterleaving run.kept.order (samples_of run.kept.lists)) }
    ensures unstopped { IsOpen gating → IfOk result (λ run. All IsReadOut run.kept.lists) }

    ensures refused { (source : ℕ)
        → IsErrOf result (RunFault.Collect (CollectFault.Unfinished source))
        → source < length inputs.items }
    ensures unreadable { (source : ℕ) → IsErrOf result (RunFault.Unreadable source)
        → source < length inputs.items }
    ensures setting { S.setting sink.new ≡ S.setting sink.old }
{
    match gating {
        Gating::Open => read_open(rt, alloc, inputs, options, false, sink),
        Gating::Asked(gate) => {
            let runner = Runner {
                rt,
                alloc,
                options,
                is_summed: false,
            };
            runner.read_asked(inputs, gate, sink)
        }
    }
}

/// The same without a gate. Where it is summed no order is asked for: samples are found that weigh like those of each source, stack by
/// stack. A stack costs twelve bytes where it comes first and, where it comes again, twelve more for all of its other samples. The sink is
/// fed with what is found.
pub fn read_open<T: Threads + Wait + Copy + Send + 'static, S: RowSink>(
    rt: &T,
    alloc: Global,
    inputs: Vec<Input>,
    options: &Options,
    is_summed: bool,
    sink: &mut S,
) -> Result<Run, RunFault>
    requires { length inputs.items ≤ 64 }
    ensures found { IfOk result (λ run. IfSome (known_inputs inputs.items) (λ sources.
        AllZip (IsFound is_summed) (asked_rests options.now sources) (map seen_as_rest run.kept.lists))) }
    ensures weight { IfOk result (λ run. IfSome (known_inputs inputs.items)
        (λ sources. run.whole_weight ≡ Some (whole_weight options.now sources))) }
    ensures weighed { IfOk result (λ run. IsSome run.whole_weight) }
    ensures count { IfOk result (λ run. length run.kept.lists ≡ length inputs.items) }
    ensures ordered { IfOk result (λ run.
        IsInterleaving run.kept.order (samples_of run.kept.lists)) }
    ensures unstopped { IfOk result (λ run. All IsReadOut run.kept.lists) }
    ensures refused { (source : ℕ)
        → IsErrOf result (RunFault.Collect (CollectFault.Unfinished source))
        → source < length inputs.items }
    ensures unreadable { (source : ℕ) → IsErrOf result (RunFault.Unreadable source)
        → source < length inputs.items }
    ensures setting { S.setting sink.new ≡ S.setting sink.old }
{
    let runner = Runner {
        rt,
        alloc,
        options,
        is_summed,
    };
    let whole = runner.collect_all(inputs, sink)?;
    Ok(kept_run(alloc, whole, options)?)
}
