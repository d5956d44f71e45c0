//! A sink that keeps nothing.

ghost use Rattle.std.specs.Prelude.{◌≡◌, []};

use stack_core::{Sample, Sink};
use std::alloc::{AllocError, Global};
use std::marker::Model;
use std::snapshot::Snapshot;

/// Samples in the order in which they were taken. It has no bytes of theirs: contracts alone read them.
#[derive(Drop)]
enum TakenSamples {
    Nothing,
    More {
        before: Snapshot<TakenSamples>,
        source: u32,
        last: Snapshot<Sample>,
    },
}

/// A sink for a run of which the lists alone are wanted. Contracts see it as the samples that it took.
#[derive(Drop)]
pub(crate) struct UnkeptSamples {
    taken: TakenSamples,
}

impl Model for UnkeptSamples {
    ghost use Rattle.std.specs.Prelude.{ℕ, List};
    ghost use Rattle.sample_tables.specs.declared.samples.Sample.{Sample as TakenSample};
    ghost use Rattle.source_lists.specs.checked.UnkeptSamples.{pairs_of};

    ghost Value = { List (ℕ × TakenSample) };

    ghost view = { λ sink. pairs_of sink.taken };
}

impl UnkeptSamples {
    /// A sink that took nothing yet.
    pub(crate) fn new() -> Self
        ensures { result ≡ [] }
    {
        UnkeptSamples {
            taken: TakenSamples::Nothing,
        }
    }
}

impl Sink for UnkeptSamples {
    ghost taken = { λ sink. sink };

    fn take(&mut self, _alloc: Global, source: u32, sample: &Sample) -> Result<(), AllocError> {
        self.taken = TakenSamples::More {
            before: Snapshot::of(&self.taken),
            source,
            last: Snapshot::of(sample),
        };
        Ok(())
    }
}
