//! Readers that are run in threads. Each run stands alone, since that a reader may go to another thread is found where there is
//! little else to look through.

ghost use Rattle.std.specs.Prelude.{◌≡◌, ◌≤◌, [], All, IfErr, IfOk, length, map};
ghost use Rattle.std.specs.Arc.{arc_value};
ghost use Rattle.stack_core.specs.Interleaving.{IsInterleaving};
ghost use Rattle.merged_stacks.specs.Timeline.{samples_of};
ghost use Rattle.ring_collect.specs.Collection.{AreGiven, seen_as_rest};
ghost use Rattle.ring_collect.specs.checked.WholeRuns.{CanRun};
ghost use Rattle.source_lists.specs.Runs.{ReadsLists};
ghost use Rattle.source_lists.specs.checked.SummedRuns.{FindsGiven};
ghost use Rattle.source_lists.specs.checked.OpenRuns.{IsOfReaders};
ghost use Rattle.source_lists.specs.checked.Readers.{filtered_rest, reader_rest, reader_told};

use crate::filtered_reader::FilteredReader;
use crate::runners::Runner;
use crate::source_reader::SourceReader;
use crate::summed_rows::sum_all;
use crate::unkept_samples::UnkeptSamples;
use ring_collect::{CollectFault, Collected, collect, collect_rows};
use stack_core::{Gate, NamingReader, OpenGate, RowReader, RowSink};
use std::alloc::{AllocError, Global};
use std::sync::{Arc, Wait};
use std::thread::Threads;

fn open_gate(alloc: Global) -> Result<Arc<OpenGate>, AllocError> {
    Ok(Arc::new(alloc, OpenGate)?)
}

impl<T: Threads + Wait + Copy + Send + 'static> Runner<'_, T> {
    /// Collects what the readers tell, by rows, where no gate is asked: each list is what its reader may give.
    fn run_in_order<R: RowReader + Send + Drop + 'static, S: RowSink>(
        &self,
        readers: Vec<R>,
        sink: &mut S,
    ) -> Result<Collected, CollectFault>
        requires { CanRun R.told R.gives readers.items }
        ensures given { IfOk result (λ run. AreGiven (λ reader. R.gives reader) readers.items
            (map seen_as_rest run.lists.items)) }
        ensures ordered { IfOk result (λ run.
            IsInterleaving run.order.items (samples_of run.lists.items)) }
        ensures err { IfErr result (IsOfReaders (length readers.items)) }
        ensures setting { S.setting sink.new ≡ S.setting sink.old }
    {
        let gate = open_gate(self.alloc)?;
        collect_rows(self.rt, self.alloc, readers, self.options.ring, gate, sink)
    }

    /// The same, or, where samples are summed, lists that weigh like what the readers may give.
    pub(crate) fn run_open<R: RowReader + Send + Drop + 'static, S: RowSink>(
        &self,
        readers: Vec<R>,
        sink: &mut S,
    ) -> Result<Collected, CollectFault>
        requires { CanRun R.told R.gives readers.items }
        ensures given { IfOk result (λ run. FindsGiven (λ reader. R.gives reader) self.now.is_summed
            readers.items (map seen_as_rest run.lists.items)) }
        ensures ordered { IfOk result (λ run.
            IsInterleaving run.order.items (samples_of run.lists.items)) }
        ensures err { IfErr result (IsOfReaders (length readers.items)) }
        ensures setting { S.setting sink.new ≡ S.setting sink.old }
    {
        if self.is_summed {
            let summed = sum_all(self.alloc, readers)?;
            self.run_in_order(summed, sink)
        } else {
            self.run_in_order(readers, sink)
        }
    }

    /// Collects what the readers tell, by rows, as far as a gate lets them.
    pub(crate) fn run_rows<G: Gate + Send + Sync + Drop + 'static, S: RowSink>(
        &self,
        readers: Vec<SourceReader>,
        gate: Arc<G>,
        sink: &mut S,
    ) -> Result<Collected, CollectFault>
        requires few { length readers.items ≤ 64 }
        requires told { All (λ reader. reader_told reader ≡ record { names = []; stacks = [] })
            readers.items }
        ensures reads { IfOk result (λ run.
            ReadsLists (G.may_stop (arc_value gate)) (G.may_go (arc_value gate))
            (map reader_rest readers.items) run.lists.items run.order.items) }
        ensures err { IfErr result (IsOfReaders (length readers.items)) }
        ensures setting { S.setting sink.new ≡ S.setting sink.old }
    {
        collect_rows(self.rt, self.alloc, readers, self.options.ring, gate, sink)
    }

    /// Collects the samples of the readers that leave some out, where nothing looks on.
    pub(crate) fn run_filtered<G: Gate + Send + Sync + Drop + 'static>(
        &self,
        readers: Vec<FilteredReader<NamingReader<SourceReader>>>,
        gate: Arc<G>,
    ) -> Result<Collected, CollectFault>
        requires { length readers.items ≤ 64 }
        ensures reads { IfOk result (λ run.
            ReadsLists (G.may_stop (arc_value gate)) (G.may_go (arc_value gate))
            (map filtered_rest readers.items) run.lists.items run.order.items) }
        ensures err { IfErr result (IsOfReaders (length readers.items)) }
    {
        let ring = self.options.ring;
        let mut sink = UnkeptSamples::new();
        collect(self.rt, self.alloc, readers, ring, gate, &mut sink)
    }
}
