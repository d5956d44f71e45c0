//! A whole run of readers and a sink of samples.

ghost use Rattle.std.specs.Prelude.{All, ◌≡◌, ◌≤◌, ◌++◌, ◌⊎◌, ℕ, [], IfOk, IsErrOf, length, map};
ghost use Rattle.std.specs.Arc.{arc_value};
ghost use Rattle.call_tree.specs.FrameTable.{HasDistinctNames};
ghost use Rattle.ring_collect.specs.Collection.{Collects, AreWhole, GainsAllowed, GainsFirst, Unfinishes};
ghost use Rattle.ring_collect.specs.NamesInOrder.{names_in_order};
ghost use Rattle.ring_collect.specs.checked.Numbering.{told_of, with_waiting};
ghost use Rattle.stack_core.specs.Interleaving.{IsInterleaving, AreOf, interleaved};

use crate::batches::Handover;
use crate::faults::CollectFault;
use crate::numbering::NumberingReader;
use crate::row_samples::BySamples;
use crate::runs::{Collected, RingedReaders};
use run_options::RingSize;
use stack_core::{Gate, SampleReader, Sink};
use std::alloc::{AllocError, Global};
use std::sync::{Arc, Wait};
use std::thread::Threads;

/// A reader of rows for each reader.
pub(crate) fn number_all<R: SampleReader + Drop>(
    alloc: Global,
    readers: Vec<R>,
) -> Result<Vec<NumberingReader<R>>, AllocError>
    ensures rests { IfOk result (λ all.
        map (λ one. with_waiting one.waiting (R.rest one.reader)) all.items
        ≡ map R.rest readers.items) }
    ensures nothing_told { IfOk result (λ all. All (λ one.
        told_of one.names one.stacks ≡ record { names = []; stacks = [] }) all.items) }
{
    let mut all = Vec::with_capacity(alloc, readers.len())?;
    for reader in readers {
        all.push(NumberingReader::of(alloc, reader))?;
    }
    Ok(all)
}

/// Reads every source in a thread of its own and collects what the threads send through rings of this size, each sample as soon as the gate
/// let it go. The sink is fed as the samples come out of the rings, in `order`. At most 64 readers.
///
/// A reader asks the gate before each of its samples; where the gate says Stop, its list has the samples before, and the ending
/// `Stopped`. Whatever the answer, every started thread is joined before, and the readers are used up.
pub fn collect<
    T: Threads + Wait + Copy + Send + 'static,
    R: SampleReader + Send + Drop + 'static,
    G: Gate + Send + Sync + Drop + 'static,
    S: Sink,
>(
    rt: &T,
    alloc: Global,
    readers: Vec<R>,
    ring: RingSize,
    gate: Arc<G>,
    sink: &mut S,
) -> Result<Collected, CollectFault>
    requires { length readers.items ≤ 64 }

    // One list for each reader: its whole rest, or its first samples where the gate stopped it.
    ensures lists { IfOk result (λ run.
        Collects (G.may_stop (arc_value gate)) (G.may_go (arc_value gate))
        (map R.rest readers.items) run.lists.items) }
    ensures whole { ((source index : ℕ) → G.may_stop (arc_value gate) source index → ⊥)
        → IfOk result (λ run. AreWhole (map R.rest readers.items) run.lists.items) }

    // Each list was told exactly the names of its samples, in the order in which they first appear: none twice.
    ensures told { IfOk result (λ run.
        All (λ list. list.told ≡ names_in_order list.samples) run.lists.items) }
    ensures distinct { IfOk result (λ run.
        All (λ list. HasDistinctNames list.told) run.lists.items) }

    // The sink gained exactly the lists' samples, in the order of arrival.
    ensures order { IfOk result (λ run.
        IsInterleaving run.order.items (map (λ list. list.samples) run.lists.items)) }
    ensures sink { IfOk result (λ run.
        S.taken sink.new ≡ S.taken sink.old ++ interleaved run.order.items
        (map (λ list. list.samples) run.lists.items)) }
    ensures by_source { IfOk result (λ run.
        AreOf (interleaved run.order.items (map (λ list. list.samples) run.lists.items))
        (map (λ list. list.samples) run.lists.items)) }

    // What a refusal leaves in the sink: of each source a beginning, at each sample of which the gate may go.
    ensures refused { IsErrOf result CollectFault.OutOfMemory ⊎ IsErrOf result CollectFault.NoThread
        → GainsFirst (map R.rest readers.items) (S.taken sink.old) (S.taken sink.new) }
    ensures popped { IsErrOf result CollectFault.OutOfMemory ⊎ IsErrOf result CollectFault.NoThread
        → GainsAllowed (G.may_go (arc_value gate)) (S.taken sink.old) (S.taken sink.new) }
    ensures unfinished { (source : ℕ) → IsErrOf result (CollectFault.Unfinished source)
        → Unfinishes (length readers.items) source (S.taken sink.old) (S.taken sink.new) }
    ensures setting { S.setting sink.new ≡ S.setting sink.old }
{
    let readers = number_all(alloc, readers)?;
    let ringed = RingedReaders {
        readers,
        handover: Handover::one_by_one(ring),
        gate,
    };
    ringed.collect_by(rt, alloc, &mut BySamples::new(alloc), sink)
}
