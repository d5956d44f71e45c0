//! Readers and gates of which a test knows what they do.

ghost use Rattle.std.specs.Prelude.{◌≡◌, None};

use byte_io::{BytesInlet, Inlet};
use stack_core::{Gate, Names, Sample, SampleReader, SourceEnd, Step, Turn};
use std::alloc::{AllocError, Global};
use std::sync::Arc;
use std::sync::atomic::{AtomicU64, Ordering};
use std::{io, thread};

/// How often one looks for what another thread is to do.
pub const TURNS: u32 = 50_000_000;

pub const CLEAN: SourceEnd = SourceEnd::Clean { ignored: 0 };

/// What the threads of a run count.
#[derive(Drop)]
pub struct Counts {
    /// The readers that were made.
    pub made: AtomicU64,
    /// The readers that were dropped.
    pub drops: AtomicU64,
    /// The samples that readers gave.
    pub given: AtomicU64,
    /// The samples that the sink took.
    pub takes: AtomicU64,
    /// The sources of whose end the sink was told.
    pub ends: AtomicU64,
}

impl Counts {
    pub fn new(alloc: Global) -> Result<Arc<Counts>, AllocError> {
        let counts = Counts {
            made: AtomicU64::new(0),
            drops: AtomicU64::new(0),
            given: AtomicU64::new(0),
            takes: AtomicU64::new(0),
            ends: AtomicU64::new(0),
        };
        Ok(Arc::new(alloc, counts)?)
    }
}

/// A reader of samples of one frame and these weights.
pub struct Tape {
    pub name: &'static str,
    pub weights: &'static [u8],
    pub ending: SourceEnd,
    /// How many calls come before the one that is refused, if one is.
    pub refuses_after: Option<u32>,
    pub counts: Arc<Counts>,
}

impl Drop for Tape {
    fn drop(self) {
        let Tape {
            name: _,
            weights: _,
            ending: _,
            refuses_after: _,
            counts,
        } = self;
        counts.drops.fetch_add(1, Ordering::SeqCst);
    }
}

impl Tape {
    /// Whether this call is refused.
    fn refuses(&mut self) -> bool
        ensures name { self.new.name ≡ self.old.name }
        ensures weights { self.new.weights ≡ self.old.weights }
        ensures ending { self.new.ending ≡ self.old.ending }
    {
        match self.refuses_after {
            None => false,
            Some(0) => true,
            Some(calls) => {
                self.refuses_after = Some(calls - 1);
                false
            }
        }
    }
}

impl SampleReader for Tape {
    ghost use Rattle.std.specs.Prelude.{◌≡◌, [], ◌∷◌, map};

    ghost rest = { λ tape. record {
      samples = map (λ weight.
          record { stack = tape.name.now ∷ []; weight = weight }) tape.weights.now;
      ending = tape.ending;
    } };

    ghost has_ended = { λ tape. tape.weights.now ≡ [] };

    fn next(&mut self, alloc: Global) -> Result<Step, AllocError> {
        let Some((weight, later)) = self.weights.split_first() else {
            return Ok(Step::End(self.ending));
        };
        if self.refuses() {
            return Err(AllocError);
        }
        let stack = Names::from_strs(alloc, &[self.name])?;
        self.weights = later;
        self.counts.given.fetch_add(1, Ordering::SeqCst);
        Ok(Step::Sample(Sample {
            stack,
            weight: u64::from(*weight),
        }))
    }
}

/// Waits a bounded time until the count is this one. Stop where it isn't.
pub fn waited(count: &AtomicU64, wanted: u64) -> Turn {
    for turn in 0..TURNS {
        if count.load(Ordering::SeqCst) >= wanted {
            return Turn::Go;
        }
        if turn % 64 == 0 {
            thread::yield_now();
        }
    }
    Turn::Stop
}

/// Stops this source before the sample of this number, and nothing else: there it never goes, elsewhere it never stops.
#[derive(Drop)]
pub struct StopsAt {
    pub source: u32,
    pub index: u64,
}

impl Gate for StopsAt {
    ghost use Rattle.std.specs.Prelude.{◌≡◌};

    ghost may_stop = { λ gate source index. (source ≡ gate.source) × (index ≡ gate.index) };

    ghost may_go = { λ gate source index. (source ≡ gate.source) × (index ≡ gate.index) → ⊥ };

    fn before(&self, source: u32, index: u64) -> Turn {
        if source == self.source && index == self.index {
            Turn::Stop
        } else {
            Turn::Go
        }
    }
}

/// Stops where one of two gates does.
#[derive(Drop)]
pub struct StopsAtTwo {
    pub first: StopsAt,
    pub second: StopsAt,
}

impl Gate for StopsAtTwo {
    ghost use Rattle.std.specs.Prelude.{◌≡◌, ◌⊎◌};

    ghost may_stop = { λ gate source index.
        ((source ≡ gate.first.source) × (index ≡ gate.first.index))
        ⊎ ((source ≡ gate.second.source) × (index ≡ gate.second.index)) };

    ghost may_go = { λ gate source index.
        ((source ≡ gate.first.source) × (index ≡ gate.first.index) → ⊥)
        × ((source ≡ gate.second.source) × (index ≡ gate.second.index) → ⊥) };

    fn before(&self, source: u32, index: u64) -> Turn {
        match self.first.before(source, index) {
            Turn::Stop => Turn::Stop,
            Turn::Go => self.second.before(source, index),
        }
    }
}

/// Notes how often it is asked for each of the first three samples of the first three sources, in four bits for each, and in the last
/// four for any other.
#[derive(Drop)]
pub struct CountsCalls {
    pub calls: Arc<AtomicU64>,
}

impl Gate for CountsCalls {
    ghost may_stop = { λ _ _ _. ⊥ };

    ghost may_go = { λ _ _ _. Unit {0} };

    fn before(&self, source: u32, index: u64) -> Turn {
        let place = if source < 3 && index < 3 {
            3 * u64::from(source) + index
        } else {
            15
        };
        self.calls.fetch_add(1 << (4 * place), Ordering::SeqCst);
        Turn::Go
    }
}

/// Lets so many sources go once all asked.
#[derive(Drop)]
pub struct AllAsked {
    pub asked: AtomicU64,
    pub wanted: u64,
}

impl Gate for AllAsked {
    ghost may_stop = { λ _ _ _. Unit {0} };

    ghost may_go = { λ _ _ _. Unit {0} };

    fn before(&self, _source: u32, index: u64) -> Turn {
        if index > 0 {
            return Turn::Go;
        }
        self.asked.fetch_add(1, Ordering::SeqCst);
        waited(&self.asked, self.wanted)
    }
}

/// Lets sample 6 of source 0 go once the sink took a sample.
#[derive(Drop)]
pub struct AfterATake {
    pub counts: Arc<Counts>,
}

impl Gate for AfterATake {
    ghost may_stop = { λ _ _ _. Unit {0} };

    ghost may_go = { λ _ _ _. Unit {0} };

    fn before(&self, source: u32, index: u64) -> Turn {
        if source != 0 || index != 6 {
            return Turn::Go;
        }
        waited(&self.counts.takes, 1)
    }
}

/// Lets each sample of source 0 but the first go once the sink was told of an end.
#[derive(Drop)]
pub struct AfterAnEnd {
    pub counts: Arc<Counts>,
}

impl Gate for AfterAnEnd {
    ghost may_stop = { λ _ _ _. Unit {0} };

    ghost may_go = { λ _ _ _. Unit {0} };

    fn before(&self, source: u32, index: u64) -> Turn {
        if source != 0 || index == 0 {
            return Turn::Go;
        }
        waited(&self.counts.ends, 1)
    }
}

/// Gives a piece at each read. Before, it waits a bounded time until the sink took a sample of each piece before, and counts the pieces
/// for which that came, but the first.
#[derive(Drop)]
pub struct HeldBack {
    pub pieces: Vec<BytesInlet>,
    pub at: usize,
    pub counts: Arc<Counts>,
}

impl Inlet for HeldBack {
    ghost remaining = { λ _. None };

    ghost failures = { λ _. 0 };

    fn read(&mut self, buf: &mut [u8]) -> io::Result<usize> {
        if self.at > 0 && waited(&self.counts.takes, self.at as u64) == Turn::Go {
            self.counts.given.fetch_add(1, Ordering::SeqCst);
        }
        match self.pieces.get_mut(self.at) {
            Some(piece) => {
                self.at += 1;
                piece.read(buf)
            }
            None => Ok(0),
        }
    }
}
