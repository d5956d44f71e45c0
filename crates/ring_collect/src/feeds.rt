//! How a sink is fed with the samples of rows.

ghost use Rattle.std.specs.Prelude.{◌≡◌, ◌<◌, ◌++◌, ◌∷◌, [], ℕ, List, OnOk, OnErr, length};
ghost use Rattle.ring_collect.specs.checked.Ends.{Kept, unheard};
ghost use Rattle.sample_tables.specs.Rows.{named, row_by};
ghost use Rattle.sample_tables.specs.declared.samples.Sample.{Sample as TakenSample};
ghost use Rattle.stack_core.specs.Interleaving.{of_source};

use stack_core::{Ledger, RowSink, SourceEnd};
use std::alloc::{AllocError, Global};

/// A sample that arrived: of this source, and of the stack that its ledger keeps under this number.
#[derive(Clone, Copy)]
pub struct ArrivedRow<'a> {
    pub source: u32,
    pub ledger: &'a Ledger,
    pub stack: usize,
    pub weight: u64,
}

/// Feeds a sink of this type.
pub trait Feed<S> {
    /// What the sink has taken.
    ghost taken: { S → List (ℕ × TakenSample) };

    /// What no take changes: its own numbers, and what it was told of ends.
    ghost setting: { S → Kept };

    /// Hands the sink a sample.
    fn feed(&mut self, sink: &mut S, row: ArrivedRow<'_>) -> Result<(), AllocError>
        requires { row.stack < length row.ledger.now.stacks }
        ensures ok { OnOk result (taken sink.new ≡ taken sink.old ++ (
          row.entry.source,
          named row.entry.ledger.now.told (row_by row.entry.ledger.now.stacks
              (record { stack = row.entry.stack; weight = row.entry.weight })),
        ) ∷ []) }
        ensures refused { OnErr result (taken sink.new ≡ taken sink.old) }
        ensures setting { setting sink.new ≡ setting sink.old };

    /// Tells the sink that a source ended so, if it wants to know.
    fn end(&mut self, sink: &mut S, source: u32, ending: &SourceEnd)
        ensures taken { taken sink.new ≡ taken sink.old }
        ensures setting { unheard (setting sink.new) ≡ unheard (setting sink.old) }
        ensures heard { source < (setting sink.old).known → (setting sink.new).heard
            ≡ (setting sink.old).heard
            ++ (source, (ending.now, length (of_source source (taken sink.old)))) ∷ [] };
}

/// Hands a sink by rows the rows.
#[derive(Drop)]
pub struct ByRows {
    pub alloc: Global,
}

impl<S: RowSink> Feed<S> for ByRows {
    ghost taken = { λ sink. S.taken sink };

    ghost setting = { λ sink. record { numbers = S.setting sink; known = 0; heard = [] } };

    fn feed(&mut self, sink: &mut S, row: ArrivedRow<'_>) -> Result<(), AllocError> {
        sink.take_row(self.alloc, row.source, row.ledger, row.stack, row.weight)
    }

    fn end(&mut self, _sink: &mut S, _source: u32, _ending: &SourceEnd) {}
}
