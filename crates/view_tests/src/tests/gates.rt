//! Gates and a sink of which a test knows what they do.
ghost use Rattle.std.specs.Prelude.{◌≡◌};

use flame_tool::TreeSink;
use stack_core::{Gate, Sample, Sink, Turn};
use std::alloc::{AllocError, Global};
use std::sync::Arc;
use std::sync::atomic::{AtomicU64, Ordering};
use std::thread;

/// How often one looks for what another thread is to do.
const TURNS: u32 = 50_000_000;

/// Waits a bounded time until the count is this one. Stop where it isn't.
fn waited(count: &AtomicU64, wanted: u64) -> Turn {
    for turn in 0..TURNS {
        if count.load(Ordering::SeqCst) >= wanted {
            return Turn::Go;
        }
        if turn % 64 == 0 {
            thread::yield_now();
        }
    }
    Turn::Stop
}

/// Stops a source before the sample of this number. There it may not go, and elsewhere it may not stop.
#[derive(Drop)]
pub struct StopsAt {
    pub source: u32,
    pub index: u64,
}

impl Gate for StopsAt {
    ghost may_stop = { λ gate source index. (source ≡ gate.source) × (index ≡ gate.index) };

    ghost may_go = { λ gate source index. ¬ ((source ≡ gate.source) × (index ≡ gate.index)) };

    fn before(&self, source: u32, index: u64) -> Turn {
        if source == self.source && index == self.index {
            Turn::Stop
        } else {
            Turn::Go
        }
    }
}

/// Lets sources go once each of them asked. A source has the bit of its number in `asked`, and all have theirs in `wanted`.
#[derive(Drop)]
pub struct AllAsked {
    pub asked: AtomicU64,
    pub wanted: u64,
}

impl Gate for AllAsked {
    ghost may_stop = { λ _ _ _. Unit {0} };

    ghost may_go = { λ _ _ _. Unit {0} };

    fn before(&self, source: u32, index: u64) -> Turn {
        if index > 0 {
            return Turn::Go;
        }
        self.asked.fetch_or(1u64 << (source % 64), Ordering::SeqCst);
        waited(&self.asked, self.wanted)
    }
}

/// Lets sample 6 of source 0 go once three snapshots were made.
#[derive(Drop)]
pub struct AfterSnapshots {
    pub made: Arc<AtomicU64>,
}

impl Gate for AfterSnapshots {
    ghost may_stop = { λ _ _ _. Unit {0} };

    ghost may_go = { λ _ _ _. Unit {0} };

    fn before(&self, source: u32, index: u64) -> Turn {
        if source != 0 || index != 6 {
            return Turn::Go;
        }
        waited(&self.made, 3)
    }
}

/// A tree sink that tells how many snapshots it made.
#[derive(Drop)]
pub struct Watched {
    pub sink: TreeSink,
    pub made: Arc<AtomicU64>,
}

impl Sink for Watched {
    ghost taken = { λ watched. watched.sink.taken };

    fn take(&mut self, alloc: Global, source: u32, sample: &Sample) -> Result<(), AllocError> {
        self.sink.take(alloc, source, sample)?;
        let made = self.sink.snapshots().len() as u64;
        self.made.store(made, Ordering::SeqCst);
        Ok(())
    }
}
