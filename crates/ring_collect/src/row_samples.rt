//! The sample that a sink of samples is handed: one for all rows, each time brought up to date at the frames whose names differ.

ghost use Rattle.std.specs.Prelude.{◌≡◌, ◌≤◌, ◌<◌, ◌+◌, ◌++◌, ◌∷◌, [], All, length, map, max, take, string_bytes, OnOk};
ghost use Rattle.sample_tables.specs.Rows.{name_at, named};
ghost use Rattle.stack_core.specs.Records.{names_at};

use crate::feeds::{ArrivedRow, Feed};
use stack_core::{Ledger, Names, Sample, Sink, SourceEnd};
use std::alloc::{AllocError, Global};
use std::mem;

/// Makes a name that of a frame.
fn set_name(name: &mut String, told: &str) -> Result<(), AllocError>
    ensures { OnOk result (string_bytes name.new ≡ told.now) }
{
    if name.as_str() != told {
        name.clear();
        name.push_str(told)?;
    }
    Ok(())
}

/// Gives the frame of this index the name of this number.
fn set_frame(
    alloc: Global,
    ledger: &Ledger,
    at: usize,
    number: usize,
    names: &mut Vec<String>,
) -> Result<(), AllocError>
    requires known { number < length ledger.now.told }
    requires within { at ≤ length names.old.items }
    ensures set { OnOk result (take (at + 1) (map string_bytes names.new.items)
        ≡ take at (map string_bytes names.old.items) ++ name_at ledger.now.told number ∷ []) }
    ensures count { OnOk result (length names.new.items ≡ max (length names.old.items) (at + 1)) }
{
    let told = ledger.told_name(number);
    if at == names.len() {
        names.push(String::from_str(alloc, told)?)?;
        return Ok(());
    }
    set_name(&mut names[at], told)?;
    Ok(())
}

/// Makes the names those of a row.
fn set_frames(
    alloc: Global,
    ledger: &Ledger,
    frames: &[u32],
    names: &mut Vec<String>,
) -> Result<(), AllocError>
    requires known { All (λ number. number < length ledger.now.told) frames.now }
    requires no_more { length names.old.items ≤ length frames.now }
    ensures { OnOk result (map string_bytes names.new.items ≡ names_at ledger.now.told frames.now) }
{
    for at in 0..frames.len() {
        set_frame(alloc, ledger, at, frames[at] as usize, names)?;
    }
    Ok(())
}

/// Makes the sample that of a row. After want of memory it has no frames.
fn set_row(
    alloc: Global,
    ledger: &Ledger,
    frames: &[u32],
    weight: u64,
    sample: &mut Sample,
) -> Result<(), AllocError>
    requires { All (λ number. number < length ledger.now.told) frames.now }
    ensures { OnOk result (sample.new
        ≡ named ledger.now.told (record { frames = frames.now; weight = weight })) }
{
    let stack = mem::replace(&mut sample.stack, Names::of(Vec::new(alloc)));
    let mut names = stack.into_plain();
    names.truncate(frames.len());
    set_frames(alloc, ledger, frames, &mut names)?;
    *sample = Sample {
        stack: Names::of(names),
        weight,
    };
    Ok(())
}

/// Hands a sink of samples one sample for all rows.
#[derive(Drop)]
pub struct BySamples {
    alloc: Global,
    sample: Sample,
}

impl BySamples {
    /// Nothing was handed out yet.
    pub fn new(alloc: Global) -> Self {
        BySamples {
            alloc,
            sample: Sample {
                stack: Names::of(Vec::new(alloc)),
                weight: 0,
            },
        }
    }
}

impl<S: Sink> Feed<S> for BySamples {
    ghost taken = { λ sink. S.taken sink };

    ghost setting = { λ sink. record { numbers = S.setting sink; known = 0; heard = [] } };

    fn feed(&mut self, sink: &mut S, row: ArrivedRow<'_>) -> Result<(), AllocError> {
        let frames = row.ledger.stack(row.stack);
        set_row(self.alloc, row.ledger, frames, row.weight, &mut self.sample)?;
        sink.take(self.alloc, row.source, &self.sample)
    }

    fn end(&mut self, _sink: &mut S, _source: u32, _ending: &SourceEnd) {}
}
