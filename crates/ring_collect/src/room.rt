//! What a run needs before any thread is started.

ghost use Rattle.std.specs.Prelude.{◌≡◌, All, IfOk, length};
ghost use Rattle.ring_collect.specs.checked.RunningSources.{IsOfSize};

use crate::batches::Handover;
use crate::bells::Bell;
use crate::flat_records::FlatRecords;
use crate::outlets::Outlet;
use crate::pauses::Pause;
use crate::rings::{Limits, RingEnds};
use crate::running_sources::RunningSource;
use rtrb::RingBuffer;
use stack_core::{Gate, Ledger, RowReader};
use std::alloc::{AllocError, Global};
use std::sync::Arc;

/// The most records for which the collecting thread waits, so that it begins early with large rings.
const PLENTY: u64 = 512;

/// Half of a ring of this size, and one place at least.
fn half_of(size: u32) -> u64 {
    u64::from(size).div_ceil(2)
}

/// For how many batches the collecting thread waits: half of a ring, or those of `PLENTY` records.
fn plenty_of(handover: Handover) -> u64 {
    let few = PLENTY / (handover.limit as u64).max(1);
    half_of(handover.ring.get()).min(few).max(1)
}

/// A ring of this size, whose batches are collected by the thread of this bell.
fn make_ring(alloc: Global, handover: Handover, batches: &Arc<Bell>) -> Result<RingEnds, AllocError>
    ensures { IfOk result (IsOfSize handover.ring) }
{
    let size = handover.ring.get();
    let room = Bell::shared(alloc)?;
    let pause = Pause::new(Arc::try_clone(&room)?, half_of(size));
    let batches = Arc::try_clone(batches)?;
    let (producer, consumer) = RingBuffer::with_protocol::<Global, Limits>(alloc, size as usize)?;
    let outlet = Outlet {
        producer,
        pause,
        batches,
        pending: FlatRecords::new(alloc),
        limit: handover.limit,
    };
    Ok(RingEnds {
        outlet,
        consumer,
        room,
    })
}

/// As many rings of this size, whose batches are collected by the thread of this bell.
fn make_rings(
    alloc: Global,
    count: usize,
    handover: Handover,
    batches: &Arc<Bell>,
) -> Result<Vec<RingEnds>, AllocError>
    ensures count { IfOk result (λ rings. length rings.items ≡ count) }
    ensures size { IfOk result (λ rings. All (IsOfSize handover.ring) rings.items) }
{
    let mut rings = Vec::with_capacity(alloc, count)?;
    for _ in 0..count {
        rings.push(make_ring(alloc, handover, batches)?)?;
    }
    Ok(rings)
}

/// What is made before any thread is started: room for each source, its ring, and the bells.
#[derive(Drop)]
pub struct Room<R: RowReader, G: Gate> {
    pub rings: Vec<RingEnds>,
    pub sources: Vec<RunningSource<R, G>>,
    pub ledgers: Vec<Ledger>,
    /// Whether samples are kept.
    pub keeps: bool,
    /// How the collecting thread waits for batches.
    pub pause: Pause,
}

impl<R: RowReader, G: Gate> Room<R, G> {
    ghost use Rattle.std.specs.Prelude.{◌≡◌, ◌≤◌, [], All, IfOk, length, vec_capacity};
    ghost use Rattle.ring_collect.specs.checked.RunningSources.{IsOfSize};

    /// Room for so many sources, whose samples are kept or not.
    pub fn new(
        alloc: Global,
        count: usize,
        handover: Handover,
        keeps: bool,
    ) -> Result<Self, AllocError>
        ensures rings { IfOk result (λ room. length room.rings.items ≡ count) }
        ensures size { IfOk result (λ room. All (IsOfSize handover.ring) room.rings.items) }
        ensures sources { IfOk result (λ room. (room.sources.items ≡ [])
            × (count ≤ vec_capacity room.sources)) }
        ensures ledgers { IfOk result (λ room. (room.ledgers.items ≡ [])
            × (count ≤ vec_capacity room.ledgers)) }
        ensures keeps { IfOk result (λ room. room.keeps ≡ keeps) }
    {
        let batches = Bell::shared(alloc)?;
        Ok(Room {
            rings: make_rings(alloc, count, handover, &batches)?,
            sources: Vec::with_capacity(alloc, count)?,
            ledgers: Vec::with_capacity(alloc, count)?,
            keeps,
            pause: Pause::new(batches, plenty_of(handover)),
        })
    }
}
