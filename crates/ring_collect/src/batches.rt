//! What goes through a ring at once, and how much of it.

ghost use Rattle.std.specs.Prelude.{◌≡◌, ◌≤◌, ◌*◌};

use crate::flat_records::FlatRecords;
use run_options::RingSize;
use stack_core::RingRecord;

/// The most batches of a ring.
const SLOTS: u32 = 16;

/// How many records the batches of a full ring have, if its size does not ask for more.
const GATHERED: u32 = 4_096;

/// An item of a ring: a record, or several in their order. No close is among several.
#[derive(Drop)]
pub enum Batch {
    One(RingRecord),
    Many(FlatRecords),
}

/// How the records of a source are handed over.
#[derive(Clone, Copy)]
pub struct Handover {
    /// How many batches a ring holds.
    pub ring: RingSize,
    /// The most records of a batch.
    pub limit: usize,
}

impl Handover {
    /// Each record by itself, as soon as it is told.
    pub fn one_by_one(ring: RingSize) -> Self
        ensures { result.ring ≡ ring }
    {
        Handover { ring, limit: 1 }
    }

    /// In batches, so that the threads meet seldom. They are few and long, and a full ring has as many records as were asked for, or
    /// `GATHERED`, if those are more.
    pub fn in_batches(ring: RingSize) -> Self
        ensures few { result.ring ≤ ring }
        ensures room { ring ≤ result.ring * result.limit }
    {
        let records = ring.get().max(GATHERED);
        let slots = RingSize::of(ring.get().min(SLOTS)).unwrap_or(ring);
        Handover {
            ring: slots,
            limit: records.div_ceil(slots.get()) as usize,
        }
    }
}
