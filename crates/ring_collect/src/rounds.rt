//! The collecting thread's rounds: in each it visits every ring that is not closed.

ghost use Rattle.std.specs.Prelude.{◌≡◌, ◌<◌, ℕ, IsSome, IfSome, length, slice_get};
ghost use Rattle.ring_collect.specs.checked.Rounds.{GoesOn, WasClosed};

use crate::feeds::Feed;
use crate::intakes::Look;
use crate::pauses::Pause;
use crate::running_sources::RunningSource;
use stack_core::{Gate, RowReader};
use std::sync::Wait;

/// The most batches that are taken from a ring before the next ring's turn.
const VISIT: u64 = 64;

/// What the collecting thread has of a run.
#[derive(Drop)]
pub struct Collector<R: RowReader, G: Gate> {
    /// The sources that were started, in order.
    pub sources: Vec<RunningSource<R, G>>,
    /// The source of each sample, in the order in which the samples came out of the rings.
    pub order: Vec<u32>,
    /// There was want of memory. From then on what comes is dropped.
    pub refused: bool,
    /// How many batches came out of the rings in this round.
    pub taken: u64,
}

impl<R: RowReader, G: Gate> Collector<R, G> {
    /// Looks into the ring of the source with this number, if it is not closed. Where that closes it, the sink is told how the source ended.
    fn look_at<S, F: Feed<S>>(&mut self, source: usize, feed: &mut F, sink: &mut S) -> Look
        requires { source < length self.old.sources.items }
        ensures goes { GoesOn self.old self.new (F.taken sink.old) (F.taken sink.new)
            (F.setting sink.old) (F.setting sink.new) }
        ensures closed { WasClosed source self.old self.new result }
    {
        let running = &mut self.sources[source];
        if running.intake.close.is_some() {
            return Look::Closed;
        }
        if self.refused {
            let look = running.intake.drop_next();
            running.intake.tell_end(feed, sink);
            return look;
        }
        let look = running.intake.take_next(feed, sink, &mut self.order);
        self.refused = running.intake.stage.is_dropping();
        running.intake.tell_end(feed, sink);
        look
    }

    /// Counts batches of the source with this number, and wakes its reader where that leaves the room that it waits for.
    fn took(&mut self, source: usize, count: u64)
        requires { source < length self.old.sources.items }
        ensures sources { self.new.sources ≡ self.old.sources }
        ensures order { self.new.order ≡ self.old.order }
        ensures refused { self.new.refused ≡ self.old.refused }
    {
        self.taken = self.taken.wrapping_add(count);
        self.sources[source].room.offer(count);
    }

    /// Looks into the ring of the source with this number until nothing is there or it is closed, `VISIT` times at most.
    fn visit<S, F: Feed<S>>(&mut self, source: usize, feed: &mut F, sink: &mut S) -> Look
        requires { source < length self.old.sources.items }
        ensures goes { GoesOn self.old self.new (F.taken sink.old) (F.taken sink.new)
            (F.setting sink.old) (F.setting sink.new) }
        ensures closed { WasClosed source self.old self.new result }
    {
        let first = self.look_at(source, feed, sink);
        if first != Look::Moved {
            return first;
        }
        for taken in 1..VISIT {
            if self.look_at(source, feed, sink) != Look::Moved {
                self.took(source, taken);
                return first;
            }
        }
        self.took(source, VISIT);
        first
    }

    /// Visits every ring that is not closed.
    fn look_round<S, F: Feed<S>>(&mut self, feed: &mut F, sink: &mut S) -> Look
        ensures goes { GoesOn self.old self.new (F.taken sink.old) (F.taken sink.new)
            (F.setting sink.old) (F.setting sink.new) }
        ensures closed { result ≡ Look.Closed
            → (source : ℕ) → source < length self.new.sources.items
            → IfSome (slice_get self.new.sources.items source)
            (λ running. IsSome running.intake.close) }
    {
        self.taken = 0;
        let mut round = Look::Closed;
        for source in 0..self.sources.len() {
            let look = self.visit(source, feed, sink);
            round = round.and(look);
        }
        round
    }

    /// Looks into the rings until all are closed. It waits after a round that took less than it waits for and emptied every ring.
    pub fn drain<W: Wait, S, F: Feed<S>>(
        &mut self,
        rt: &W,
        pause: Pause,
        feed: &mut F,
        sink: &mut S,
    )
        ensures goes { GoesOn self.old self.new (F.taken sink.old) (F.taken sink.new)
            (F.setting sink.old) (F.setting sink.new) }
        ensures closed { (source : ℕ) → source < length self.new.sources.items
            → IfSome (slice_get self.new.sources.items source)
            (λ running. IsSome running.intake.close) }
    {
        let mut pause = pause;
        for _ in rt.forever() {
            match self.look_round(feed, sink) {
                Look::Closed => return,
                Look::Idle | Look::Moved => (),
            }
            if self.taken >= pause.wanted().min(VISIT) {
                pause.end();
            } else {
                pause.go_on(rt);
            }
        }
        unreachable!()
    }
}
