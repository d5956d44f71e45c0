//! A source whose reader thread runs.

ghost use Rattle.rtrb.specs.Ends.{SameRing};

use crate::bells::Bell;
use crate::intakes::Intake;
use crate::rings::{BatchProducer, LeftOfRing};
use stack_core::{Gate, RowReader};
use std::snapshot::Snapshot;
use std::sync::Arc;
use std::thread::{Promise, PromisedHandle};

/// What the thread of a source promises of what it hands back: all that it sent is what its reader tells under the gate, of a
/// rest that it may give.
pub struct ReaderPromise<R, G> {
    pub reader: Snapshot<R>,
    pub gate: Snapshot<Arc<G>>,
    pub producer: Snapshot<BatchProducer>,
    pub source: u32,
}

impl<R, G> Drop for ReaderPromise<R, G> {
    fn drop(self) {
        let ReaderPromise {
            reader: _,
            gate: _,
            producer: _,
            source: _,
        } = self;
    }
}

impl<R: RowReader, G: Gate> Promise<Option<LeftOfRing>> for ReaderPromise<R, G> {
    ghost use Rattle.std.specs.Prelude.{IfSome};
    ghost use Rattle.std.specs.Arc.{arc_value};
    ghost use Rattle.stack_core.specs.RowReading.{GivesSuch};
    ghost use Rattle.ring_collect.specs.checked.Tellers.{SentAll};

    ghost kept_by = { λ p r.
        IfSome r (λ left. GivesSuch (R.gives p.reader.value) (λ rest.
        SentAll (G.may_stop (arc_value p.gate.value)) (G.may_go (arc_value p.gate.value))
        p.source rest p.producer.value left)) };
}

pub type ReaderHandle<R, G> = PromisedHandle<Option<LeftOfRing>, ReaderPromise<R, G>>;

/// A source that was started: its thread, with what that promises, and what the collecting thread has of it.
#[derive(Drop)]
pub struct RunningSource<R: RowReader, G: Gate> {
    pub handle: ReaderHandle<R, G>,
    pub intake: Intake,
    /// The bell of its reader.
    pub room: Arc<Bell>,
    ghost tied: { SameRing handle.promise.producer.value.end intake.consumer.end },
}
