//! Ledgers that keep the stacks of samples.

use stack_core::{FRAME_LIMIT, Ledger, SourceList, Text};
use std::alloc::{AllocError, Global};

/// Tells a name.
fn tell(alloc: Global, ledger: &mut Ledger, name: &str) -> Result<(), AllocError> {
    if ledger.is_closed() {
        return Err(AllocError);
    }
    ledger.tell(Text::from_str(alloc, name)?)
}

/// Keeps a stack.
fn keep(ledger: &mut Ledger, frames: &[usize]) -> Result<(), AllocError> {
    let told = ledger.told();
    let is_told = frames.iter().all(|number| *number < told);
    if ledger.is_closed() || !is_told || frames.len() > FRAME_LIMIT {
        return Err(AllocError);
    }
    ledger.keep(frames)
}

/// The same numbers.
fn as_places(alloc: Global, frames: &[u32]) -> Result<Vec<usize>, AllocError> {
    let mut places = Vec::new(alloc);
    for number in frames {
        places.push(*number as usize)?;
    }
    Ok(places)
}

/// A ledger with the names and the stacks of a list.
pub fn ledger_of(alloc: Global, list: &SourceList) -> Result<Ledger, AllocError> {
    let mut ledger = Ledger::new(alloc);
    for number in 0..list.told() {
        tell(alloc, &mut ledger, list.told_name(number))?;
    }
    for number in 0..list.stack_count() {
        let frames = as_places(alloc, list.stack(number))?;
        keep(&mut ledger, frames.as_slice())?;
    }
    Ok(ledger)
}

/// A ledger that keeps a stack of these names, which it has the other way round, behind names that no stack has.
pub fn ledger_with(alloc: Global, unused: &[&str], names: &[&str]) -> Result<Ledger, AllocError> {
    let mut ledger = Ledger::new(alloc);
    for name in unused {
        tell(alloc, &mut ledger, name)?;
    }
    let mut frames = Vec::new(alloc);
    for name in names.iter().rev() {
        tell(alloc, &mut ledger, name)?;
    }
    for at in 0..names.len() {
        frames.push(unused.len().saturating_add(names.len() - 1 - at))?;
    }
    keep(&mut ledger, frames.as_slice())?;
    Ok(ledger)
}
