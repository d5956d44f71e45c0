//! One source, as the collecting thread sees it: the consumer of its ring, its ledger, and how it was closed.

ghost use Rattle.std.specs.Prelude.{◌≡◌, ◌≢◌, ◌<◌, ◌↔◌, All, IsTrue, None, length};
ghost use Rattle.ring_collect.specs.checked.Batches.{close_after_batch};
ghost use Rattle.ring_collect.specs.checked.Records.{close_after};

use crate::batches::Batch;
use crate::feeds::{ArrivedRow, Feed};
use crate::rings::BatchConsumer;
use stack_core::{Close, Ledger, RingRecord};

/// What is done with the records that come.
#[derive(Clone, Copy, Debug, PartialEq, Eq)]
pub enum Stage {
    /// They are taken.
    Taking,
    /// They are dropped, since there was want of memory.
    Dropping,
    /// They are dropped, since a number had no name, or no stack. No reader tells such a record.
    Unnamed,
}

impl Stage {
    /// Whether there was want of memory.
    pub fn is_dropping(self) -> bool
        ensures { IsTrue result ↔ (self ≡ Stage.Dropping) }
    {
        matches!(self, Stage::Dropping)
    }

    /// Whether a number had no name, or no stack.
    pub fn is_unnamed(self) -> bool
        ensures { IsTrue result ↔ (self ≡ Stage.Unnamed) }
    {
        matches!(self, Stage::Unnamed)
    }

    /// Whether records are taken.
    pub fn is_taking(self) -> bool
        ensures { IsTrue result ↔ (self ≡ Stage.Taking) }
    {
        matches!(self, Stage::Taking)
    }

    /// The stage of a source once there was want of memory.
    fn dropping(self) -> Self
        ensures dropped { result ≢ Stage.Taking }
        ensures unnamed { (result ≡ Stage.Unnamed) ↔ (self ≡ Stage.Unnamed) }
    {
        match self {
            Stage::Taking | Stage::Dropping => Stage::Dropping,
            Stage::Unnamed => Stage::Unnamed,
        }
    }
}

/// What a look into the rings came to.
#[derive(Clone, Copy, Debug, PartialEq, Eq)]
pub enum Look {
    /// Every ring is closed.
    Closed,
    /// Nothing was there.
    Idle,
    /// A batch came.
    Moved,
}

impl Look {
    /// What this look and another came to.
    pub fn and(self, other: Look) -> Look
        ensures closed { result ≡ Look.Closed → (self ≡ Look.Closed) × (other ≡ Look.Closed) }
    {
        match (self, other) {
            (Look::Closed, Look::Closed) => Look::Closed,
            (Look::Moved, _) | (_, Look::Moved) => Look::Moved,
            _ => Look::Idle,
        }
    }
}

/// Whether each number has a name.
fn are_named(frames: &[usize], names: usize) -> bool
    ensures { IsTrue result ↔ All (λ number. number < names) frames.now }
{
    frames.iter().all(|number| *number < names)
}

/// Notes what closes the ring, and drops every other record.
fn note_close(close: &mut Option<Close>, popped: RingRecord)
    ensures { close.new ≡ close_after close.old popped }
{
    if let RingRecord::Close(last) = popped {
        *close = Some(last);
    }
}

/// Notes what closes the ring, and drops every other batch.
fn note_batch(close: &mut Option<Close>, popped: Batch)
    ensures { close.new ≡ close_after_batch close.old popped }
{
    match popped {
        Batch::One(one) => note_close(close, one),
        Batch::Many(_) => (),
    }
}

/// The number of a source, and whether its samples are kept.
#[derive(Clone, Copy)]
pub struct Origin {
    pub number: u32,
    /// Whether the ledger and the order get its samples. The sink gets them in any case.
    pub keeps: bool,
}

/// The collecting thread's part of one source.
#[derive(Drop)]
pub struct Intake {
    pub origin: Origin,
    pub consumer: BatchConsumer,
    pub ledger: Ledger,
    pub stage: Stage,
    /// What closed the ring. From then on it isn't looked into again.
    pub close: Option<Close>,
    ghost still_open: { ledger.close ≡ None },
}

impl Intake {
    ghost use Rattle.std.specs.Prelude.{◌≡◌, ◌≢◌, ◌≤◌, ◌∷◌, [], All, List, None, length};
    ghost use Rattle.rtrb.specs.Ring.{SameConsumer};
    ghost use Rattle.ring_collect.specs.checked.Rings.{IsLimitedRecord};
    ghost use Rattle.ring_collect.specs.checked.Records.{TakesRecord, close_after};
    ghost use Rattle.ring_collect.specs.checked.Intakes.{Brings, PopsOne, FindsNothing, Tracks, GainsMore};
    ghost use Rattle.sample_tables.specs.declared.samples.Sample.{Sample as TakenSample};
    ghost use Rattle.sample_tables.specs.declared.samples.TheConstants.{FRAME_LIMIT, WEIGHT_LIMIT};

    /// Takes a sample of a stack that is kept: it is handed to the sink first, and then to the ledger and the order, where samples are
    /// kept. Answers the stage after it.
    fn take_again<S, F: Feed<S>>(
        &mut self,
        row: usize,
        weight: u64,
        feed: &mut F,
        sink: &mut S,
        order: &mut Vec<u32>,
    ) -> Stage
        requires limit { weight ≤ WEIGHT_LIMIT }
        ensures taken { TakesRecord self.old.origin (RingRecord.Again row weight) self.old.ledger
            self.new.ledger self.old.close self.new.close (F.taken sink.old) (F.taken sink.new)
            order.old.items order.new.items result }
        ensures origin { self.new.origin ≡ self.old.origin }
        ensures consumer { self.new.consumer ≡ self.old.consumer }
        ensures setting { F.setting sink.new ≡ F.setting sink.old }
    {
        if row >= self.ledger.stack_count() {
            return Stage::Unnamed;
        }
        let arrived = ArrivedRow {
            source: self.origin.number,
            ledger: &self.ledger,
            stack: row,
            weight,
        };
        let fed = feed.feed(sink, arrived);
        if fed.is_err() {
            return Stage::Dropping;
        }
        if !self.origin.keeps {
            return Stage::Taking;
        }
        if self.ledger.take_again(row, weight).is_err() || order.push(self.origin.number).is_err() {
            return Stage::Dropping;
        }
        Stage::Taking
    }

    /// Takes a row: its stack is kept, and then a sample of it is taken. Answers the stage after it.
    pub fn take_row<S, F: Feed<S>>(
        &mut self,
        frames: &[usize],
        weight: u64,
        feed: &mut F,
        sink: &mut S,
        order: &mut Vec<u32>,
    ) -> Stage
        requires depth { length frames.now ≤ FRAME_LIMIT }
        requires limit { weight ≤ WEIGHT_LIMIT }
        ensures taken { TakesRecord self.old.origin (RingRecord.Row frames.now weight)
            self.old.ledger self.new.ledger self.old.close self.new.close (F.taken sink.old)
            (F.taken sink.new) order.old.items order.new.items result }
        ensures origin { self.new.origin ≡ self.old.origin }
        ensures consumer { self.new.consumer ≡ self.old.consumer }
        ensures setting { F.setting sink.new ≡ F.setting sink.old }
    {
        if !are_named(frames, self.ledger.told()) {
            return Stage::Unnamed;
        }
        let row = self.ledger.stack_count();
        if self.ledger.keep(frames).is_err() {
            return Stage::Dropping;
        }
        self.take_again(row, weight, feed, sink, order)
    }

    /// Takes a record that came out of the ring. Answers the stage after it.
    fn take_record<S, F: Feed<S>>(
        &mut self,
        popped: RingRecord,
        feed: &mut F,
        sink: &mut S,
        order: &mut Vec<u32>,
    ) -> Stage
        requires { IsLimitedRecord popped }
        ensures taken { TakesRecord self.old.origin popped self.old.ledger self.new.ledger
            self.old.close self.new.close (F.taken sink.old) (F.taken sink.new)
            order.old.items order.new.items result }
        ensures origin { self.new.origin ≡ self.old.origin }
        ensures consumer { self.new.consumer ≡ self.old.consumer }
        ensures setting { F.setting sink.new ≡ F.setting sink.old }
    {
        match popped {
            RingRecord::Name(name) => match self.ledger.tell(name) {
                Ok(()) => Stage::Taking,
                Err(_) => Stage::Dropping,
            },
            RingRecord::Row { frames, weight } => {
                self.take_row(frames.get(), weight, feed, sink, order)
            }
            RingRecord::Again { row, weight } => self.take_again(row, weight, feed, sink, order),
            RingRecord::Close(last) => {
                self.close = Some(last);
                Stage::Taking
            }
        }
    }

    /// Takes a record that came out of the ring, or drops it where none is taken any more. What closes the ring is noted.
    pub fn take_or_drop<S, F: Feed<S>>(
        &mut self,
        popped: RingRecord,
        feed: &mut F,
        sink: &mut S,
        order: &mut Vec<u32>,
    )
        requires unclosed { self.old.close ≡ None }
        requires limits { IsLimitedRecord popped }
        ensures origin { self.new.origin ≡ self.old.origin }
        ensures consumer { self.new.consumer ≡ self.old.consumer }
        ensures close { self.new.close ≡ close_after None popped }
        ensures dropping { self.old.stage ≡ Stage.Dropping → self.new.stage ≡ Stage.Dropping }
        ensures brings { Brings (popped ∷ []) self.old self.new (F.taken sink.old) (F.taken sink.new)
            order.old.items order.new.items }
        ensures setting { F.setting sink.new ≡ F.setting sink.old }
    {
        if !self.stage.is_taking() {
            note_close(&mut self.close, popped);
            return;
        }
        self.stage = self.take_record(popped, feed, sink, order);
    }

    /// Takes the next batch, if one is there.
    pub fn take_next<S, F: Feed<S>>(
        &mut self,
        feed: &mut F,
        sink: &mut S,
        order: &mut Vec<u32>,
    ) -> Look
        requires { self.old.close ≡ None }
        ensures open { result ≢ Look.Closed }
        ensures origin { self.new.origin ≡ self.old.origin }
        ensures ring { SameConsumer self.old.consumer self.new.consumer }
        ensures nothing { result ≡ Look.Idle → FindsNothing self.old.consumer self.new.consumer }
        ensures one { result ≡ Look.Moved → PopsOne self.old.consumer self.new.consumer }
        ensures more { (list : List TakenSample) → Tracks self.old list
            → GainsMore self.new.origin (Tracks self.new) list (F.taken sink.old)
            (F.taken sink.new) order.old.items order.new.items (self.new.stage ≢ Stage.Dropping) }
        ensures setting { F.setting sink.new ≡ F.setting sink.old }
    {
        let Ok(popped) = self.consumer.pop() else {
            return Look::Idle;
        };
        match popped {
            Batch::One(one) => self.take_or_drop(one, feed, sink, order),
            Batch::Many(records) => self.take_all(records, feed, sink, order),
        }
        Look::Moved
    }

    /// Drops the next batch, if one is there, but notes what closes the ring.
    pub fn drop_next(&mut self) -> Look
        requires { self.old.close ≡ None }
        ensures open { result ≢ Look.Closed }
        ensures origin { self.new.origin ≡ self.old.origin }
        ensures ring { SameConsumer self.old.consumer self.new.consumer }
        ensures nothing { result ≡ Look.Idle → FindsNothing self.old.consumer self.new.consumer }
        ensures one { result ≡ Look.Moved → PopsOne self.old.consumer self.new.consumer }
        ensures tracks { (list : List TakenSample) → Tracks self.old list → Tracks self.new list }
    {
        let Ok(popped) = self.consumer.pop() else {
            return Look::Idle;
        };
        self.stage = self.stage.dropping();
        note_batch(&mut self.close, popped);
        Look::Moved
    }
}
