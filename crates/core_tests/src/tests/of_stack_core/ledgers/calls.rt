//! Calls of a ledger, as a test lists them. Each is made where it is allowed, and says whether it was.

ghost use Rattle.std.specs.Prelude.{◌≡◌, ◌<◌, ◌↔◌, All, IsTrue, None};

use crate::tests::samples::sample;
use stack_core::{Ledger, Listed, Sample, Text};
use std::alloc::{AllocError, Global};

/// A call of a ledger.
#[derive(Clone, Copy)]
pub enum Call<'a> {
    /// Tells a name.
    Tell(&'a str),
    /// Takes a row of names that were told.
    Row(&'a [usize], u64),
    /// Keeps a stack of names that were told.
    Keep(&'a [usize]),
    /// Takes a sample of a stack that is kept.
    Again(usize, u64),
    /// Takes a copy of a sample of these names.
    Sample(&'a [&'a str], u64),
}

/// What a ledger says of itself: its samples, their weight and its names.
pub fn numbers(ledger: &Ledger) -> (u64, u128, usize) {
    (ledger.count(), ledger.weight(), ledger.told())
}

fn tell(alloc: Global, ledger: &mut Ledger, name: &str) -> Result<bool, AllocError>
    requires { ledger.old.close ≡ None }
{
    ledger.tell(Text::from_str(alloc, name)?)?;
    Ok(true)
}

fn are_told(frames: &[usize], told: usize) -> bool
    ensures { IsTrue result ↔ All (λ number. number < told) frames.now }
{
    frames.iter().all(|number| *number < told)
}

fn take_row(
    alloc: Global,
    ledger: &mut Ledger,
    frames: &[usize],
    weight: u64,
) -> Result<bool, AllocError>
    requires { ledger.old.close ≡ None }
{
    if frames.len() > 9 || weight > 9 || !are_told(frames, ledger.told()) {
        return Ok(false);
    }
    ledger.take_row(Listed::of(Vec::from_slice(alloc, frames)?), weight)?;
    Ok(true)
}

fn keep(ledger: &mut Ledger, frames: &[usize]) -> Result<bool, AllocError>
    requires { ledger.old.close ≡ None }
{
    if frames.len() > 9 || !are_told(frames, ledger.told()) {
        return Ok(false);
    }
    ledger.keep(frames)?;
    Ok(true)
}

fn take_again(ledger: &mut Ledger, stack: usize, weight: u64) -> Result<bool, AllocError>
    requires { ledger.old.close ≡ None }
{
    if stack >= ledger.stack_count() || weight > 9 {
        return Ok(false);
    }
    ledger.take_again(stack, weight)?;
    Ok(true)
}

fn take_copy(ledger: &mut Ledger, sample: &Sample) -> Result<bool, AllocError>
    requires { ledger.old.close ≡ None }
{
    if sample.stack.get().len() > 9 || sample.weight > 9 {
        return Ok(false);
    }
    ledger.take(sample.clone()?)?;
    Ok(true)
}

fn take_sample(
    alloc: Global,
    ledger: &mut Ledger,
    names: &[&str],
    weight: u64,
) -> Result<bool, AllocError>
    requires { ledger.old.close ≡ None }
{
    take_copy(ledger, &sample(alloc, names, weight)?)
}

/// Makes a call.
pub fn is_made(alloc: Global, ledger: &mut Ledger, call: &Call<'_>) -> Result<bool, AllocError> {
    if ledger.is_closed() {
        return Ok(false);
    }
    match *call {
        Call::Tell(name) => tell(alloc, ledger, name),
        Call::Row(frames, weight) => take_row(alloc, ledger, frames, weight),
        Call::Keep(frames) => keep(ledger, frames),
        Call::Again(stack, weight) => take_again(ledger, stack, weight),
        Call::Sample(names, weight) => take_sample(alloc, ledger, names, weight),
    }
}

/// Makes calls one after another, until one is not allowed.
pub fn are_made(
    alloc: Global,
    ledger: &mut Ledger,
    calls: &[Call<'_>],
) -> Result<bool, AllocError> {
    for call in calls {
        if !is_made(alloc, ledger, call)? {
            return Ok(false);
        }
    }
    Ok(true)
}
