//! Starting the reader threads.

ghost use Rattle.std.specs.Prelude.{All, ◌≡◌, ◌≤◌, ℕ, [], IfOk, IsErrOf, OnOk, length, map, vec_capacity};
ghost use Rattle.ring_collect.specs.checked.RunningSources.{IsPromised, ArePromised, IsFresh, AreFresh};
ghost use Rattle.ring_collect.specs.checked.Batches.{told_to};
ghost use Rattle.std.specs.Arc.{arc_value};

use crate::faults::CollectFault;
use crate::intakes::{Intake, Origin, Stage};
use crate::outlets::Outlet;
use crate::rings::RingEnds;
use crate::running_sources::{ReaderHandle, ReaderPromise, RunningSource};
use crate::tellers::tell_all;
use stack_core::{Gate, Ledger, RowReader};
use std::alloc::{AllocError, Global};
use std::snapshot::Snapshot;
use std::sync::{Arc, Wait};
use std::thread;
use std::thread::Threads;

/// Starts the thread of one reader.
pub fn start<
    T: Threads + Wait + Copy + Send + 'static,
    R: RowReader + Send + Drop + 'static,
    G: Gate + Send + Sync + Drop + 'static,
>(
    rt: T,
    alloc: Global,
    reader: R,
    gate: Arc<G>,
    source: u32,
    outlet: Outlet,
) -> Result<ReaderHandle<R, G>, AllocError>
    requires nothing_sent { told_to outlet ≡ [] }
    requires nothing_told { R.told reader ≡ record { names = []; stacks = [] } }
    ensures reader { IfOk result (λ handle. handle.promise.reader.value ≡ reader) }
    ensures gate { IfOk result (λ handle. arc_value handle.promise.gate.value ≡ arc_value gate) }
    ensures producer { IfOk result (λ handle. handle.promise.producer.value ≡ outlet.producer) }
    ensures source { IfOk result (λ handle. handle.promise.source ≡ source) }
{
    let promise = ReaderPromise {
        reader: Snapshot::of(&reader),
        gate: Snapshot::of(&gate),
        producer: Snapshot::of(&outlet.producer),
        source,
    };
    let handle = thread::spawn_with(&rt, promise, move || {
        tell_all(&rt, alloc, reader, gate, source, outlet)
    })?;
    Ok(handle)
}

/// Starts one source, with a ring that nothing went through.
fn start_source<
    T: Threads + Wait + Copy + Send + 'static,
    R: RowReader + Send + Drop + 'static,
    G: Gate + Send + Sync + Drop + 'static,
>(
    rt: T,
    alloc: Global,
    reader: R,
    gate: &Arc<G>,
    origin: Origin,
    ends: RingEnds,
) -> Result<RunningSource<R, G>, CollectFault>
    requires { R.told reader ≡ record { names = []; stacks = [] } }
    ensures finished { (number : ℕ) → IsErrOf result (CollectFault.Unfinished number) → ⊥ }
    ensures promised { IfOk result (λ running.
        IsPromised (arc_value gate.now) origin.number reader running.handle.promise) }
    ensures fresh { IfOk result (λ running. IsFresh origin.keeps origin.number running.intake) }
{
    let gate = Arc::try_clone(gate)?;
    let RingEnds {
        outlet,
        consumer,
        room,
    } = ends;
    let Ok(handle) = start(rt, alloc, reader, gate, origin.number, outlet) else {
        return Err(CollectFault::NoThread);
    };
    let intake = Intake {
        origin,
        consumer,
        ledger: Ledger::new(alloc),
        stage: Stage::Taking,
        close: None,
    };
    Ok(RunningSource {
        handle,
        intake,
        room,
    })
}

/// Starts the sources in order, up to the first that can't be started. There is a ring for each and room for all. Their samples are kept,
/// or not.
pub fn start_all<
    T: Threads + Wait + Copy + Send + 'static,
    R: RowReader + Send + Drop + 'static,
    G: Gate + Send + Sync + Drop + 'static,
>(
    rt: T,
    alloc: Global,
    readers: Vec<R>,
    rings: Vec<RingEnds>,
    gate: &Arc<G>,
    sources: &mut Vec<RunningSource<R, G>>,
    keeps: bool,
) -> Result<(), CollectFault>
    requires few { length readers.items ≤ 64 }
    requires rings { length rings.items ≡ length readers.items }
    requires room { length readers.items ≤ vec_capacity sources.old }
    requires nothing { sources.old.items ≡ [] }
    requires nothing_told { All (λ reader. R.told reader ≡ record { names = []; stacks = [] })
        readers.items }
    ensures promised { ArePromised (arc_value gate.now) readers.items
        (map (λ running. running.handle.promise) sources.new.items) }
    ensures all { OnOk result (length sources.new.items ≡ length readers.items) }
    ensures finished { (source : ℕ) → IsErrOf result (CollectFault.Unfinished source) → ⊥ }
    ensures fresh { AreFresh keeps (map (λ running. running.intake) sources.new.items) }
{
    let mut rings = rings;
    let mut source = 0u32;
    for reader in readers {
        let Some(ends) = rings.pop() else {
            unreachable!()
        };
        let origin = Origin {
            number: source,
            keeps,
        };
        let running = start_source(rt, alloc, reader, gate, origin, ends)?;
        let Ok(()) = sources.push(running) else {
            unreachable!()
        };
        source += 1;
    }
    Ok(())
}
