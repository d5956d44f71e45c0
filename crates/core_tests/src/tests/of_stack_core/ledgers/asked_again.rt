//! Calls of a ledger that are asked again where memory was refused, after a look that nothing changed.

use super::calls::{Call, is_made, numbers};
use stack_core::Ledger;
use std::alloc::{AllocError, Global};

/// Makes a call, and again where it is refused and changed nothing.
fn is_made_again(alloc: Global, ledger: &mut Ledger, call: &Call<'_>) -> Result<bool, AllocError> {
    let before = numbers(ledger);
    if let Ok(made) = is_made(alloc, ledger, call) {
        return Ok(made);
    }
    if numbers(ledger) != before {
        return Ok(false);
    }
    is_made(alloc, ledger, call)
}

/// Tells a name, and takes a row of the first name and a sample, both of this weight.
fn takes_each(alloc: Global, ledger: &mut Ledger, weight: u64) -> Result<bool, AllocError> {
    let calls = [
        Call::Tell("a"),
        Call::Row(&[0], weight),
        Call::Sample(&["b", "c"], weight),
    ];
    for call in &calls {
        if !is_made_again(alloc, ledger, call)? {
            return Ok(false);
        }
    }
    Ok(true)
}

/// Makes such calls until one is refused again. Nothing is wrong where one is.
pub fn takes_all(alloc: Global, ledger: &mut Ledger) -> Result<bool, AllocError> {
    for weight in 0..9u64 {
        match takes_each(alloc, ledger, weight) {
            Ok(true) => {}
            found => return Ok(found.is_err()),
        }
    }
    Ok(numbers(ledger) == (18, 72, 27))
}
