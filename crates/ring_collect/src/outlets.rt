//! The end of a ring where the records of a source go in.

ghost use Rattle.std.specs.Prelude.{All, ◌≡◌, ◌≤◌, ◌++◌, ◌∷◌, [], IfNone, IfSome, OnErr, OnOk};
ghost use Rattle.rtrb.specs.Ring.{sent, SameProducer};
ghost use Rattle.ring_collect.specs.checked.Rings.{IsGathered, IsLimitedBatch, gathered_prop};

use crate::batches::Batch;
use crate::bells::Bell;
use crate::flat_records::FlatRecords;
use crate::pauses::Pause;
use crate::rings::BatchProducer;
use rtrb::PushError;
use stack_core::{Close, RingRecord};
use std::alloc::{AllocError, Global};
use std::mem;
use std::sync::{Arc, Wait};

/// The most records for which room is made before they come.
const ROOM: usize = 256;

/// The end of a ring where records go in.
#[derive(Drop)]
pub struct Outlet {
    pub producer: BatchProducer,
    /// How the reader waits for room.
    pub pause: Pause,
    /// The collecting thread's bell.
    pub batches: Arc<Bell>,
    /// The records of the next batch, as far as they are told.
    pub pending: FlatRecords,
    /// The most records of a batch. Where it is 1 none is pending, and no memory is taken.
    pub limit: usize,
    ghost gathered: { All IsGathered pending } by { Prim.hlevel gathered_prop },
    ghost alone: { limit ≤ 1 → pending ≡ [] },
}

impl Outlet {
    ghost use Rattle.std.specs.Prelude.{◌≡◌, ◌++◌, ◌∷◌, [], IfNone, IfSome, OnErr, OnOk};
    ghost use Rattle.rtrb.specs.Ring.{sent, SameProducer};
    ghost use Rattle.ring_collect.specs.checked.Batches.{records_of_all, told_to};
    ghost use Rattle.ring_collect.specs.checked.Rings.{IsGathered, IsLimitedBatch};

    /// Puts the batch into the ring, or hands it back where the ring is full.
    fn push(&mut self, item: Batch) -> Option<Batch>
        requires { IsLimitedBatch item }
        ensures ring { SameProducer self.old.producer self.new.producer }
        ensures sent { IfNone result
            (sent self.new.producer ≡ sent self.old.producer ++ item ∷ []) }
        ensures full { IfSome result (λ back.
            (back ≡ item) × (sent self.new.producer ≡ sent self.old.producer)) }
        ensures pending { self.new.pending ≡ self.old.pending }
    {
        match self.producer.push(item) {
            Ok(()) => None,
            Err(PushError::Full(back)) => Some(back),
        }
    }

    /// Waits until there is room: half of the ring, or after a while any.
    fn wait_for_room<W: Wait>(&mut self, rt: &W)
        ensures ring { SameProducer self.old.producer self.new.producer }
        ensures sent { sent self.new.producer ≡ sent self.old.producer }
        ensures pending { self.new.pending ≡ self.old.pending }
    {
        for _ in rt.forever() {
            if self.producer.slots() as u64 >= self.pause.wanted() {
                self.pause.end();
                return;
            }
            self.pause.go_on(rt);
        }
        unreachable!()
    }

    /// Puts the batch into the ring, once there is room.
    fn send<W: Wait>(&mut self, rt: &W, item: Batch)
        requires { IsLimitedBatch item }
        ensures ring { SameProducer self.old.producer self.new.producer }
        ensures sent { sent self.new.producer ≡ sent self.old.producer ++ item ∷ [] }
        ensures pending { self.new.pending ≡ self.old.pending }
    {
        let mut item = item;
        for _ in rt.forever() {
            let Some(back) = self.push(item) else {
                self.batches.offer(1);
                return;
            };
            item = back;
            self.wait_for_room(rt);
        }
        unreachable!()
    }

    /// Sends what is pending.
    pub fn flush<W: Wait>(&mut self, rt: &W, alloc: Global)
        ensures ring { SameProducer self.old.producer self.new.producer }
        ensures sent { records_of_all (sent self.new.producer) ≡ told_to self.old }
        ensures pending { self.new.pending ≡ [] }
    {
        if self.pending.is_empty() {
            return;
        }
        let gathered = mem::replace(&mut self.pending, FlatRecords::new(alloc));
        self.send(rt, Batch::Many(gathered));
    }

    /// Makes room for the next batch, if nothing is pending.
    fn make_room(&mut self, alloc: Global) -> Result<(), AllocError>
        ensures producer { self.new.producer ≡ self.old.producer }
        ensures pending { self.new.pending ≡ self.old.pending }
        ensures limit { self.new.limit ≡ self.old.limit }
    {
        if self.pending.is_empty() {
            self.pending = FlatRecords::with_capacity(alloc, self.limit.min(ROOM))?;
        }
        Ok(())
    }

    /// Tells a record: it is sent with others, once they are as many as go together. An error for want of memory, where nothing is told.
    pub fn tell<W: Wait>(
        &mut self,
        rt: &W,
        alloc: Global,
        item: RingRecord,
    ) -> Result<(), AllocError>
        requires { IsGathered item }
        ensures ring { SameProducer self.old.producer self.new.producer }
        ensures told { OnOk result (told_to self.new ≡ told_to self.old ++ item ∷ []) }
        ensures untold { OnErr result (told_to self.new ≡ told_to self.old) }
    {
        if self.limit <= 1 {
            self.send(rt, Batch::One(item));
            return Ok(());
        }
        self.make_room(alloc)?;
        self.pending.push(item)?;
        if self.pending.len() >= self.limit {
            self.flush(rt, alloc);
        }
        Ok(())
    }

    /// Sends what is pending, and then the close, which is taken at once.
    pub fn close<W: Wait>(&mut self, rt: &W, alloc: Global, last: Close)
        ensures ring { SameProducer self.old.producer self.new.producer }
        ensures sent { records_of_all (sent self.new.producer)
            ≡ told_to self.old ++ RingRecord.Close last ∷ [] }
    {
        self.flush(rt, alloc);
        self.send(rt, Batch::One(RingRecord::Close(last)));
        self.batches.ring();
    }
}
