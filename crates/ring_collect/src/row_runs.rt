//! Whole runs of readers of rows and a sink by rows.

ghost use Rattle.std.specs.Prelude.{All, ◌≡◌, ◌≤◌, [], length};
ghost use Rattle.std.specs.Arc.{arc_value};
ghost use Rattle.ring_collect.specs.Collection.{AnswersFeed, AnswersRun, GiveSuch, TellsEnds};
ghost use Rattle.stack_core.specs.RowReading.{GivesSome};

use crate::batches::Handover;
use crate::ends::{EndSink, WithEnds};
use crate::faults::CollectFault;
use crate::feeds::ByRows;
use crate::runs::{Collected, RingedReaders};
use run_options::RingSize;
use stack_core::{Gate, RowReader, RowSink, SourceEnd};
use std::alloc::Global;
use std::sync::{Arc, Wait};
use std::thread::Threads;

/// Reads every source in a thread of its own and collects what the threads send through rings of this size. The sink is fed as
/// the samples come out of the rings, in `order`, by the numbers of their stacks: a stack that a reader tells again costs no memory
/// but what the lists keep of each sample. At most 64 readers, of which none has told anything.
///
/// A reader may wait for bytes that are still to come. What it gave is sent before it does, so each sample reaches the sink without the
/// bytes behind it.
///
/// A reader asks the gate before each of its samples; where the gate says Stop, its list has the samples before, and the ending
/// `Stopped`. One that waits for bytes asks it only once they came. Samples that go may wait in the reader's thread for others that are
/// there, so a gate must not wait for the sink to take them, as it may with `collect`. Whatever the answer, every started thread is joined before, and the readers are used up.
pub fn collect_rows<
    T: Threads + Wait + Copy + Send + 'static,
    R: RowReader + Send + Drop + 'static,
    G: Gate + Send + Sync + Drop + 'static,
    S: RowSink,
>(
    rt: &T,
    alloc: Global,
    readers: Vec<R>,
    ring: RingSize,
    gate: Arc<G>,
    sink: &mut S,
) -> Result<Collected, CollectFault>
    requires few { length readers.items ≤ 64 }
    requires nothing_told { All (λ reader. R.told reader ≡ record { names = []; stacks = [] })
        readers.items }
    requires possible { All (λ reader. GivesSome (R.gives reader)) readers.items }

    // So for a rest of each reader that it may give. Of bytes that are known there is one.
    ensures answer { GiveSuch (λ reader. R.gives reader) readers.items (λ rests.
        AnswersRun (G.may_stop (arc_value gate)) (G.may_go (arc_value gate)) rests
        (S.taken sink.old) (S.taken sink.new) result) }
    ensures setting { S.setting sink.new ≡ S.setting sink.old }
{
    let ringed = RingedReaders {
        readers,
        handover: Handover::in_batches(ring),
        gate,
    };
    ringed.collect_by(rt, alloc, &mut ByRows { alloc }, sink)
}

/// Reads every source as `collect_rows` does and feeds the sink, but keeps no sample: its memory is for names and stacks, whatever
/// comes. The sink is told as soon as a source has ended how it did, while others go on. It answers how each source ended, in the
/// order of the readers.
pub fn feed_rows<
    T: Threads + Wait + Copy + Send + 'static,
    R: RowReader + Send + Drop + 'static,
    G: Gate + Send + Sync + Drop + 'static,
    S: EndSink,
>(
    rt: &T,
    alloc: Global,
    readers: Vec<R>,
    ring: RingSize,
    gate: Arc<G>,
    sink: &mut S,
) -> Result<Vec<SourceEnd>, CollectFault>
    requires few { length readers.items ≤ 64 }
    requires nothing_told { All (λ reader. R.told reader ≡ record { names = []; stacks = [] })
        readers.items }
    requires possible { All (λ reader. GivesSome (R.gives reader)) readers.items }

    // The sink gained what `collect_rows` would have put into lists, and these are the lists' endings.
    ensures answer { GiveSuch (λ reader. R.gives reader) readers.items (λ rests.
        AnswersFeed (G.may_stop (arc_value gate)) (G.may_go (arc_value gate)) rests
        (S.taken sink.old) (S.taken sink.new) result) }

    // The sink was told of each source how it ended; where the run is refused, of some of them.
    ensures ends { length readers.items ≤ S.sources sink.old
        → TellsEnds (λ reader. R.gives reader) (G.may_stop (arc_value gate)) (G.may_go (arc_value gate))
        readers.items (S.taken sink.old) (S.taken sink.new) (S.heard sink.old) (S.heard sink.new)
        (λ endings. endings.items) result }
    ensures setting { S.setting sink.new ≡ S.setting sink.old }
{
    let ringed = RingedReaders {
        readers,
        handover: Handover::in_batches(ring),
        gate,
    };
    ringed.feed_by(rt, alloc, &mut WithEnds { alloc }, sink)
}
