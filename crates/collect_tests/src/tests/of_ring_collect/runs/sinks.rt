//! Sinks of which a test knows what they took.

ghost use Rattle.std.specs.Prelude.{◌≡◌};

use super::fakes::{Counts, waited};
use ring_collect::EndSink;
use stack_core::{Ledger, NoSink, RowSink, Sample, Sink, SourceEnd, Turn};
use std::alloc::{AllocError, Global};
use std::sync::Arc;
use std::sync::atomic::Ordering;

/// Records what it took.
#[derive(Drop)]
pub struct Recorder {
    pub pairs: Vec<(u32, Sample)>,
    /// How often it was called.
    pub calls: u64,
    /// How many calls come before the one that is refused, if one is.
    pub refuses_after: Option<u64>,
    /// Where it is to look at its first call for readers that gave more samples than this, and whether it saw that.
    pub looks_above: Option<u64>,
    pub saw_more: bool,
    pub counts: Arc<Counts>,
}

impl Recorder {
    /// A recorder with counts of its own.
    pub fn new(alloc: Global) -> Result<Recorder, AllocError> {
        Ok(Recorder {
            pairs: Vec::new(alloc),
            calls: 0,
            refuses_after: None,
            looks_above: None,
            saw_more: false,
            counts: Counts::new(alloc)?,
        })
    }

    /// Looks a bounded time for readers that gave more samples than that.
    fn look(&mut self)
        ensures { self.new.pairs ≡ self.old.pairs }
    {
        let Some(limit) = self.looks_above else {
            return
        };
        if self.calls == 0 {
            self.saw_more = waited(&self.counts.given, limit.saturating_add(1)) == Turn::Go;
        }
    }
}

impl Sink for Recorder {
    ghost taken = { λ sink. sink.pairs.items };

    fn take(&mut self, _alloc: Global, source: u32, sample: &Sample) -> Result<(), AllocError> {
        self.look();
        let call = self.calls;
        self.calls = call.saturating_add(1);
        if self.refuses_after == Some(call) {
            return Err(AllocError);
        }
        self.pairs.push((source, sample.clone()?))?;
        self.counts.takes.fetch_add(1, Ordering::SeqCst);
        Ok(())
    }
}

/// Counts the samples that it takes by rows.
#[derive(Drop)]
pub struct Taker {
    pub taken: NoSink,
    pub counts: Arc<Counts>,
}

impl RowSink for Taker {
    ghost taken = { λ sink. sink.taken };

    fn take_row(
        &mut self,
        alloc: Global,
        source: u32,
        ledger: &Ledger,
        row: usize,
        weight: u64,
    ) -> Result<(), AllocError> {
        self.taken.take_row(alloc, source, ledger, row, weight)?;
        self.counts.takes.fetch_add(1, Ordering::SeqCst);
        Ok(())
    }
}

/// Keeps the source and the weight of each sample that it takes by rows.
#[derive(Drop)]
pub struct Weigher {
    pub taken: NoSink,
    pub pairs: Vec<(u32, u64)>,
}

impl Weigher {
    pub fn new(alloc: Global) -> Weigher {
        Weigher {
            taken: NoSink::new(),
            pairs: Vec::new(alloc),
        }
    }
}

impl RowSink for Weigher {
    ghost taken = { λ sink. sink.taken };

    fn take_row(
        &mut self,
        alloc: Global,
        source: u32,
        ledger: &Ledger,
        row: usize,
        weight: u64,
    ) -> Result<(), AllocError> {
        self.pairs.push((source, weight))?;
        self.taken.take_row(alloc, source, ledger, row, weight)
    }
}

/// Weighs what it takes, and keeps what it is told of ends.
#[derive(Drop)]
pub struct Listener {
    pub weigher: Weigher,
    pub ends: Vec<(u32, SourceEnd)>,
    pub counts: Arc<Counts>,
}

impl Listener {
    pub fn new(alloc: Global) -> Result<Listener, AllocError> {
        Ok(Listener {
            weigher: Weigher::new(alloc),
            ends: Vec::with_capacity(alloc, 8)?,
            counts: Counts::new(alloc)?,
        })
    }
}

impl EndSink for Listener {
    ghost use Rattle.std.specs.Prelude.{[]};

    ghost taken = { λ sink. sink.weigher.taken };

    ghost setting = { λ _. [] };

    ghost sources = { λ _. 0 };

    ghost heard = { λ _. [] };

    fn take_row(
        &mut self,
        alloc: Global,
        source: u32,
        ledger: &Ledger,
        row: usize,
        weight: u64,
    ) -> Result<(), AllocError> {
        self.weigher.take_row(alloc, source, ledger, row, weight)
    }

    fn end_source(&mut self, source: u32, ending: &SourceEnd) {
        if self.ends.push((source, *ending)).is_ok() {
            self.counts.ends.fetch_add(1, Ordering::SeqCst);
        }
    }
}
