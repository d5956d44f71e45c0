//! What the samples of all sources are handed to, in the order in which they arrive.

ghost use Rattle.std.specs.Prelude.{◌≡◌, ◌<◌, ◌++◌, ◌∷◌, [], ℕ, List, OnOk, OnErr, length};
ghost use Rattle.sample_tables.specs.Rows.{named, row_by};
ghost use Rattle.sample_tables.specs.declared.samples.Sample.{Sample as TakenSample};

use crate::ledgers::Ledger;
use sample_tables::Sample;
use std::alloc::{AllocError, Global};
use std::marker::Model;
use std::snapshot::Snapshot;

/// Takes samples as they arrive. Contracts see it as the list of what it took.
pub trait Sink {
    /// The pairs of a source's number and a sample that were taken, in order.
    ghost taken: { Self → List (ℕ × TakenSample) };

    /// What no take changes, as numbers; nothing unless the sink says so.
    ghost setting: { Self → List ℕ } = { λ _. [] };

    /// Takes one sample. Want of memory changes nothing.
    fn take(&mut self, alloc: Global, source: u32, sample: &Sample) -> Result<(), AllocError>
        ensures ok { OnOk result (taken self.new ≡ taken self.old ++ (source, sample.now) ∷ []) }
        ensures refused { OnErr result (taken self.new ≡ taken self.old) }
        ensures setting { setting self.new ≡ setting self.old };
}

/// Takes samples as they arrive, by the numbers of their stacks. Contracts see it as the list of the samples that it took.
pub trait RowSink {
    /// The pairs of a source's number and a sample that were taken, in order.
    ghost taken: { Self → List (ℕ × TakenSample) };

    /// What no take changes, as numbers; nothing unless the sink says so.
    ghost setting: { Self → List ℕ } = { λ _. [] };

    /// Takes one sample of the stack that this ledger of the source keeps under this number. Want of memory changes nothing.
    fn take_row(
        &mut self,
        alloc: Global,
        source: u32,
        ledger: &Ledger,
        row: usize,
        weight: u64,
    ) -> Result<(), AllocError>
        requires { row < length ledger.now.stacks }
        ensures ok { OnOk result (taken self.new ≡ taken self.old ++ (
          source,
          named ledger.now.told
              (row_by ledger.now.stacks (record { stack = row; weight = weight })),
        ) ∷ []) }
        ensures refused { OnErr result (taken self.new ≡ taken self.old) }
        ensures setting { setting self.new ≡ setting self.old };
}

/// A sample of a source that was taken.
#[derive(Drop)]
struct TakenRow {
    source: u32,
    ledger: Snapshot<Ledger>,
    row: usize,
    weight: u64,
}

/// Samples in the order in which they were taken. It has no bytes of theirs: contracts alone read them.
#[derive(Drop)]
enum TakenRows {
    Nothing,
    More {
        before: Snapshot<TakenRows>,
        last: Snapshot<TakenRow>,
    },
}

/// A sink for a run of which the lists alone are wanted: it keeps nothing, and a sample costs it nothing. Contracts see it as the
/// samples that it took.
#[derive(Drop)]
pub struct NoSink {
    taken: TakenRows,
}

impl Model for NoSink {
    ghost use Rattle.std.specs.Prelude.{ℕ, List};
    ghost use Rattle.stack_core.specs.checked.TakenRows.{pairs_of};
    ghost use Rattle.sample_tables.specs.declared.samples.Sample.{Sample as TakenSample};

    ghost Value = { List (ℕ × TakenSample) };

    ghost view = { λ sink. pairs_of sink.taken };
}

impl NoSink {
    /// A sink that took nothing yet.
    pub fn new() -> Self
        ensures { result ≡ [] }
    {
        NoSink {
            taken: TakenRows::Nothing,
        }
    }
}

impl RowSink for NoSink {
    ghost taken = { λ sink. sink };

    fn take_row(
        &mut self,
        _alloc: Global,
        source: u32,
        ledger: &Ledger,
        row: usize,
        weight: u64,
    ) -> Result<(), AllocError> {
        let last = TakenRow {
            source,
            ledger: Snapshot::of(ledger),
            row,
            weight,
        };
        self.taken = TakenRows::More {
            before: Snapshot::of(&self.taken),
            last: Snapshot::of(&last),
        };
        Ok(())
    }
}
