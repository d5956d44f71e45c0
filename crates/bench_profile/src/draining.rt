//! A reader's samples, counted.

ghost use Rattle.std.specs.Prelude.{◌≡◌, ◌<◌, ◌^◌, length, sum_by, IfOk};

use stack_core::{SampleReader, Step};
use std::alloc::{AllocError, Global};

/// How many samples there were, and what they weigh together.
#[derive(Clone, Copy, Debug, PartialEq, Eq)]
pub struct Drained {
    pub samples: u64,
    pub weight: u64,
}

/// Reads a source to its ending.
pub fn drain<R: SampleReader>(alloc: Global, reader: &mut R) -> Result<Drained, AllocError>
    requires { sum_by (λ sample. sample.weight) (R.rest reader.old).samples < 2 ^ 64 }
    ensures samples { IfOk result (λ drained.
        drained.samples ≡ length (R.rest reader.old).samples) }
    ensures weight { IfOk result (λ drained.
        drained.weight ≡ sum_by (λ sample. sample.weight) (R.rest reader.old).samples) }
{
    let mut drained = Drained {
        samples: 0,
        weight: 0,
    };
    'samples: loop {
        match reader.next(alloc)? {
            Step::Sample(sample) => {
                drained.samples += 1;
                drained.weight += sample.weight;
            }
            Step::End(_) => return Ok(drained),
        }
    }
}
