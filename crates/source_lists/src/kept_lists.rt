//! The samples of lists whose stacks are kept.

ghost use Rattle.std.specs.Prelude.{◌≡◌, ◌<◌, ◌++◌, ◌∷◌, [], ℕ, Bool, List, None, IfOk, OnOk, length, map};
ghost use Rattle.sample_tables.specs.Rows.{sample_at};
ghost use Rattle.ring_collect.specs.Collection.{seen_as_rest};
ghost use Rattle.source_lists.specs.checked.KeptStacks.{all_are_passing, are_passing, begun, passing_rest, passing_samples};

use crate::kept_stacks::is_kept;
use stack_core::{Close, Ledger, SourceList, Text};
use std::alloc::{AllocError, Global};

/// Tells an empty ledger the names of the list.
pub(crate) fn tell_names(
    alloc: Global,
    ledger: &mut Ledger,
    list: &SourceList,
) -> Result<(), AllocError>
    requires { ledger.old ≡ begun [] [] }
    ensures { OnOk result (ledger.new ≡ begun list.now.told []) }
{
    for number in 0..list.told() {
        ledger.tell(Text::from_str(alloc, list.told_name(number))?)?;
    }
    Ok(())
}

/// The numbers of a stack, as a ledger takes them.
pub(crate) fn numbers_of(alloc: Global, stack: &[u32]) -> Result<Vec<usize>, AllocError>
    ensures { IfOk result (λ numbers. numbers.items ≡ stack.now) }
{
    let mut numbers = Vec::with_capacity(alloc, stack.len())?;
    for number in stack {
        numbers.push(*number as usize)?;
    }
    Ok(numbers)
}

/// Keeps the stacks of the list in a ledger that was told its names alone.
fn keep_stacks(alloc: Global, ledger: &mut Ledger, list: &SourceList) -> Result<(), AllocError>
    requires { ledger.old ≡ begun list.now.told [] }
    ensures { OnOk result (ledger.new ≡ begun list.now.told list.now.stacks) }
{
    for number in 0..list.stack_count() {
        ledger.keep(&numbers_of(alloc, list.stack(number))?)?;
    }
    Ok(())
}

/// A ledger with the names and the stacks of the list, and without samples.
fn ledger_of(alloc: Global, list: &SourceList) -> Result<Ledger, AllocError>
    ensures { IfOk result (λ ledger. ledger ≡ begun list.now.told list.now.stacks) }
{
    let mut ledger = Ledger::new(alloc);
    tell_names(alloc, &mut ledger, list)?;
    keep_stacks(alloc, &mut ledger, list)?;
    Ok(ledger)
}

/// Takes the sample at a place of the list, unless its stack is left out.
fn take_if_kept(
    ledger: &mut Ledger,
    list: &SourceList,
    kept: &[bool],
    at: usize,
) -> Result<(), AllocError>
    requires open { ledger.old.close ≡ None }
    requires told { ledger.old.told ≡ list.now.told }
    requires stacks { ledger.old.stacks ≡ list.now.stacks }
    requires within { at < length list.now.samples }
    ensures open { OnOk result (ledger.new.close ≡ None) }
    ensures told { OnOk result (ledger.new.told ≡ list.now.told) }
    ensures stacks { OnOk result (ledger.new.stacks ≡ list.now.stacks) }
    ensures samples { OnOk result ((passes : List (List ℕ) → Bool) → kept.now ≡ are_passing passes list.now
        → ledger.new.samples ≡ ledger.old.samples
        ++ passing_samples passes (sample_at list.now.samples at ∷ [])) }
{
    if is_kept(list, kept, at) {
        ledger.take_again(list.stack_number(at), list.weight(at))?;
    }
    Ok(())
}

/// What is kept of a list.
fn kept_list(alloc: Global, list: &SourceList, kept: &[bool]) -> Result<SourceList, AllocError>
    ensures { IfOk result (λ left. (passes : List (List ℕ) → Bool) → kept.now ≡ are_passing passes list.now
        → seen_as_rest left ≡ passing_rest passes (seen_as_rest list.now)) }
{
    let mut ledger = ledger_of(alloc, list)?;
    for at in 0..list.len() {
        take_if_kept(&mut ledger, list, kept, at)?;
    }
    ledger.close(Close::Read(*list.ending()));
    Ok(ledger.into_list())
}

/// What is kept of all lists.
pub(crate) fn kept_lists(
    alloc: Global,
    lists: &[SourceList],
    kept: &[Vec<bool>],
) -> Result<Vec<SourceList>, AllocError>
    requires { length kept.now ≡ length lists.now }
    ensures { IfOk result (λ left. (passes : List (List ℕ) → Bool)
        → map (λ marks. marks.items) kept.now ≡ all_are_passing passes lists.now
        → map seen_as_rest left.items ≡ map (passing_rest passes) (map seen_as_rest lists.now)) }
{
    let count = lists.len();
    let mut left = Vec::with_capacity(alloc, count)?;
    for number in 0..count {
        left.push(kept_list(alloc, &lists[number], &kept[number])?)?;
    }
    Ok(left)
}
