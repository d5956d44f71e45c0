//! Sinks that are told how sources end.

ghost use Rattle.std.specs.Prelude.{◌≡◌, ◌<◌, ◌++◌, ◌∷◌, [], ℕ, List, OnOk, OnErr, length};
ghost use Rattle.ring_collect.specs.Collection.{EndOfSource};
ghost use Rattle.sample_tables.specs.Rows.{named, row_by};
ghost use Rattle.sample_tables.specs.declared.samples.Sample.{Sample as TakenSample};
ghost use Rattle.stack_core.specs.Interleaving.{of_source};

use crate::feeds::{ArrivedRow, Feed};
use crate::intakes::{Intake, Stage};
use stack_core::{Close, Ledger, SourceEnd};
use std::alloc::{AllocError, Global};

/// Takes samples as they arrive, by the numbers of their stacks, and is told how each source ended. Contracts see it as the list
/// of the samples that it took, and the list of the ends.
pub trait EndSink {
    /// The pairs of a source's number and a sample that were taken, in order.
    ghost taken: { Self → List (ℕ × TakenSample) };

    /// What nothing changes, as numbers.
    ghost setting: { Self → List ℕ };

    /// How many sources it knows.
    ghost sources: { Self → ℕ };

    /// How sources ended, in the order in which it was told so.
    ghost heard: { Self → List (ℕ × EndOfSource) };

    /// Takes one sample of the stack that this ledger of the source keeps under this number. Want of memory changes nothing.
    fn take_row(
        &mut self,
        alloc: Global,
        source: u32,
        ledger: &Ledger,
        row: usize,
        weight: u64,
    ) -> Result<(), AllocError>
        requires { row < length ledger.now.stacks }
        ensures ok { OnOk result (taken self.new ≡ taken self.old ++ (
          source,
          named ledger.now.told
              (row_by ledger.now.stacks (record { stack = row; weight = weight })),
        ) ∷ []) }
        ensures refused { OnErr result (taken self.new ≡ taken self.old) }
        ensures setting { setting self.new ≡ setting self.old }
        ensures sources { sources self.new ≡ sources self.old }
        ensures heard { heard self.new ≡ heard self.old };

    /// Is told that a source ended so. All its samples were taken before.
    fn end_source(&mut self, source: u32, ending: &SourceEnd)
        ensures taken { taken self.new ≡ taken self.old }
        ensures setting { setting self.new ≡ setting self.old }
        ensures sources { sources self.new ≡ sources self.old }
        ensures heard { source < sources self.old → heard self.new ≡ heard self.old
            ++ (source, (ending.now, length (of_source source (taken self.old)))) ∷ [] };
}

/// Hands a sink by rows the rows, and tells it how sources end.
#[derive(Drop)]
pub struct WithEnds {
    pub alloc: Global,
}

impl<S: EndSink> Feed<S> for WithEnds {
    ghost taken = { λ sink. S.taken sink };

    ghost setting = { λ sink. record { numbers = S.setting sink; known = S.sources sink; heard = S.heard sink } };

    fn feed(&mut self, sink: &mut S, row: ArrivedRow<'_>) -> Result<(), AllocError> {
        sink.take_row(self.alloc, row.source, row.ledger, row.stack, row.weight)
    }

    fn end(&mut self, sink: &mut S, source: u32, ending: &SourceEnd) {
        sink.end_source(source, ending);
    }
}

impl Intake {
    ghost use Rattle.std.specs.Prelude.{◌≡◌, ◌<◌, ◌++◌, length};
    ghost use Rattle.stack_core.specs.Interleaving.{of_source};
    ghost use Rattle.ring_collect.specs.checked.Ends.{ends_by, unheard};
    ghost use Rattle.ring_collect.specs.checked.Records.{of_one};

    /// Tells the sink how the source ended, if it did and none of its records was dropped.
    pub fn tell_end<S, F: Feed<S>>(&self, feed: &mut F, sink: &mut S)
        ensures taken { F.taken sink.new ≡ F.taken sink.old }
        ensures setting { unheard (F.setting sink.new) ≡ unheard (F.setting sink.old) }
        ensures heard { self.now.origin.number < (F.setting sink.old).known
            → (F.setting sink.new).heard ≡ (F.setting sink.old).heard ++ of_one self.now.origin.number
            (ends_by self.now.stage self.now.close (length (of_source self.now.origin.number (F.taken sink.old)))) }
    {
        if let (Stage::Taking, Some(Close::Read(ending))) = (self.stage, &self.close) {
            feed.end(sink, self.origin.number, ending);
        }
    }
}
