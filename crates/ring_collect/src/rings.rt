//! The ring of a source, and what each batch in it keeps to.

ghost use Rattle.std.specs.Prelude.{◌≡◌, []};
ghost use Rattle.rtrb.specs.Ring.{received, IsPair};
ghost use Rattle.ring_collect.specs.checked.Batches.{told_to};
ghost use Rattle.ring_collect.specs.checked.Rings.{IsLimitedBatch};

use crate::batches::Batch;
use crate::bells::Bell;
use crate::outlets::Outlet;
use rtrb::{Consumer, Finished, Producer, Protocol};
use std::alloc::Global;
use std::sync::Arc;

/// The rule of each ring, on the batch alone: a row keeps to `FRAME_LIMIT` and `WEIGHT_LIMIT`, and a close goes by itself.
#[derive(Clone, Copy)]
pub struct Limits;

impl Protocol<Batch> for Limits {
    ghost allows = { λ _ item. IsLimitedBatch item };
}

pub type BatchProducer = Producer<Batch, Global, Limits>;

pub type BatchConsumer = Consumer<Batch, Global, Limits>;

/// What a reader's end of a ring left: it shows all that was sent there.
pub type LeftOfRing = Finished<Batch, Global, Limits>;

/// The ends of a new ring.
#[derive(Drop)]
pub struct RingEnds {
    pub outlet: Outlet,
    pub consumer: BatchConsumer,
    /// The bell of its reader.
    pub room: Arc<Bell>,
    ghost paired: { IsPair outlet.producer consumer },
    ghost nothing_told: { told_to outlet ≡ [] },
    ghost nothing_received: { received consumer ≡ [] },
}
