//! The end of a run: every thread is joined, and what its reader promised shows that all was received.

ghost use Rattle.std.specs.Prelude.{◌≡◌, ◌≢◌, ◌≤◌, ◌<◌, ◌+◌, ◌++◌, ◌∷◌, ◌⊎◌, None, Some, ℕ, List, [], IsSome, IfSome, IfNone, length, map, vec_capacity, slice_get};
ghost use Rattle.std.specs.Arc.{arc_value};
ghost use Rattle.rtrb.specs.Ring.{all_sent, IsFinishedOf};
ghost use Rattle.stack_core.specs.Records.{IsWellTold};
ghost use Rattle.sample_tables.specs.declared.samples.Sample.{Sample};
ghost use Rattle.ring_collect.specs.checked.Batches.{records_of_all};
ghost use Rattle.ring_collect.specs.checked.Intakes.{Tracks};
ghost use Rattle.ring_collect.specs.checked.Settlement.{IsReceived, IsSettled, AreSettled};

use crate::intakes::{Intake, Stage};
use crate::rings::LeftOfRing;
use crate::running_sources::RunningSource;
use stack_core::{Gate, Ledger, RowReader};
use std::thread::Threads;

/// Hands the ledger of a source out, where its reader's end of the ring left what shows that all was received. A source of which a
/// row had a number without a name isn't settled either; that comes only where the end left nothing, since no reader tells such a row.
fn settle_by(left: Option<LeftOfRing>, intake: Intake) -> Option<Ledger>
    requires closed { IsSome intake.close }
    requires ring { IfSome left (λ left. IsFinishedOf left intake.consumer) }
    requires well_told { IfSome left (λ left. IsWellTold (records_of_all (all_sent left))) }
    ensures received { IfSome left (λ left. IfSome result (IsReceived (records_of_all (all_sent left)) intake)) }
    ensures unshown { IfNone left (result ≡ None) }
    ensures unnamed { intake.stage ≡ Stage.Unnamed → result ≡ None }
    ensures closed { IfSome result (λ ledger. ledger.close ≡ intake.close) }
    ensures whole { (list : List Sample) → Tracks intake list
        → IfSome left (λ _. (intake.stage ≢ Stage.Unnamed) × IsSome result) }
{
    let Intake {
        origin: _,
        consumer,
        ledger,
        stage,
        close,
    } = intake;
    let Some(last) = close else { unreachable!() };
    let mut left = left?;
    let mut consumer = consumer;
    let mut ledger = ledger;
    consumer.slots_after(&mut left);
    if stage.is_unnamed() {
        return None;
    }
    ledger.close(last);
    Some(ledger)
}

/// Joins the thread of a source whose ring is closed, and hands its ledger out.
fn settle<T: Threads, R: RowReader, G: Gate>(rt: &T, running: RunningSource<R, G>) -> Option<Ledger>
    requires { IsSome running.intake.close }
    ensures settled { IfSome result (λ ledger.
        IsSettled (λ gate. G.may_stop gate) (λ gate. G.may_go gate) (λ reader. R.gives reader)
        running ledger) }
    ensures closed { IfSome result (λ ledger. ledger.close ≡ running.intake.close) }
{
    let RunningSource {
        handle,
        intake,
        room: _,
    } = running;
    settle_by(handle.join(rt), intake)
}

/// Adds the ledger of a source that was settled, as long as no source is unfinished. Answers the first that is.
fn add_ledger(
    settled: Option<Ledger>,
    source: u32,
    ledgers: &mut Vec<Ledger>,
    unfinished: Option<u32>,
) -> Option<u32>
    requires { length ledgers.old.items < vec_capacity ledgers.old }
    ensures added { IfNone result ((unfinished ≡ None)
        × (IfSome settled (λ ledger. ledgers.new.items ≡ ledgers.old.items ++ ledger ∷ []))
        × IsSome settled) }
    ensures first { IfSome result (λ first. (unfinished ≡ Some first) ⊎ (first ≡ source)) }
    ensures earlier { IsSome unfinished → result ≡ unfinished }
    ensures unsettled { unfinished ≡ None → IfSome result (λ _. settled ≡ None) }
    ensures one { length ledgers.new.items ≤ length ledgers.old.items + 1 }
    ensures room { vec_capacity ledgers.old ≤ vec_capacity ledgers.new }
{
    if unfinished.is_some() {
        return unfinished;
    }
    let Some(ledger) = settled else {
        return Some(source);
    };
    let Ok(()) = ledgers.push(ledger) else {
        unreachable!()
    };
    None
}

/// Joins the threads of all sources, whose rings are closed, and hands their ledgers out in order. Answers the first source of
/// which nothing shows that all was received, if there is one.
pub fn settle_all<T: Threads, R: RowReader, G: Gate>(
    rt: &T,
    sources: Vec<RunningSource<R, G>>,
    ledgers: &mut Vec<Ledger>,
) -> Option<u32>
    requires few { length sources.items ≤ 64 }
    requires closed { (source : ℕ) → source < length sources.items
        → IfSome (slice_get sources.items source) (λ running. IsSome running.intake.close) }
    requires room { length sources.items ≤ vec_capacity ledgers.old }
    requires none { ledgers.old.items ≡ [] }
    ensures settled { IfNone result (AreSettled (λ gate. G.may_stop gate) (λ gate. G.may_go gate)
        (λ reader. R.gives reader) sources.items ledgers.new.items) }
    ensures closes { IfNone result (map (λ ledger. ledger.close) ledgers.new.items
        ≡ map (λ running. running.intake.close) sources.items) }
    ensures unfinished { IfSome result (λ source. source < length sources.items) }
{
    let mut unfinished = None;
    let mut source = 0u32;
    for running in sources {
        unfinished = add_ledger(settle(rt, running), source, ledgers, unfinished);
        source += 1;
    }
    unfinished
}
