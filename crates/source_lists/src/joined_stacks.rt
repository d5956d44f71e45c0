//! The stacks of lists that are put together: a stack that was kept before keeps its number.

ghost use Rattle.std.specs.Prelude.{◌≡◌, ◌≤◌, ◌<◌, [], None, All, IsTrue, IfOk, OnOk, length, map, slice_index};
ghost use Rattle.sample_tables.specs.declared.samples.TheConstants.{FRAME_LIMIT};
ghost use Rattle.source_lists.specs.checked.Joining.{AreFound, IsFound, KeepsMore, named_stacks};

use crate::joined_names::append_number;
use sample_tables::NumberCache;
use stack_core::{Ledger, SourceList};
use std::alloc::{AllocError, Global};

const MULTIPLIER: u64 = 0x9e37_79b9_7f4a_7c15;

/// How many stacks of a list are looked for before it is asked whether that pays.
const TRIED: usize = 1_024;

fn hash_of(numbers: &[usize]) -> u64 {
    let mut hash = numbers.len() as u64;
    for number in numbers {
        hash = (hash ^ *number as u64)
            .wrapping_mul(MULTIPLIER)
            .rotate_left(29);
    }
    hash.wrapping_mul(MULTIPLIER).rotate_left(32)
}

/// Whether both are the same numbers.
fn are_same(stack: &[u32], numbers: &[usize]) -> bool
    ensures { IsTrue result → stack.now ≡ numbers.now }
{
    if stack.len() != numbers.len() {
        return false;
    }
    for at in 0..numbers.len() {
        if stack[at] as usize != numbers[at] {
            return false;
        }
    }
    true
}

/// Whether a ledger keeps the stack of these numbers under this one.
fn has_stack(ledger: &Ledger, number: usize, stack: &[usize]) -> bool
    ensures { IsTrue result → IsFound [] ledger.now.stacks number stack.now }
{
    number < ledger.stack_count() && are_same(ledger.stack(number), stack)
}

/// Keeps a stack, which gets the next number.
fn keep_next(ledger: &mut Ledger, stack: &[usize]) -> Result<usize, AllocError>
    requires open { ledger.old.close ≡ None }
    requires depth { length stack.now ≤ FRAME_LIMIT }
    requires numbers { All (λ k. k < length ledger.old.told) stack.now }
    ensures found { IfOk result (λ number. IsFound [] ledger.new.stacks number stack.now) }
    ensures keeps { OnOk result (KeepsMore ledger.old ledger.new) }
{
    let number = ledger.stack_count();
    ledger.keep(stack)?;
    Ok(number)
}

/// The number of a stack in a ledger: a known one, if it looks for one, or else the next, under which it is kept now.
fn number_of_stack(
    ledger: &mut Ledger,
    known: &mut NumberCache,
    stack: &[usize],
    looks_up: bool,
) -> Result<usize, AllocError>
    requires open { ledger.old.close ≡ None }
    requires depth { length stack.now ≤ FRAME_LIMIT }
    requires numbers { All (λ k. k < length ledger.old.told) stack.now }
    ensures found { IfOk result (λ number. IsFound [] ledger.new.stacks number stack.now) }
    ensures keeps { OnOk result (KeepsMore ledger.old ledger.new) }
{
    if !looks_up {
        return keep_next(ledger, stack);
    }
    let hash = hash_of(stack);
    if let Some(number) = known.find(hash, |number| has_stack(ledger, number, stack)) {
        return Ok(number);
    }
    let number = keep_next(ledger, stack)?;
    known.remember(hash, number);
    Ok(number)
}

/// The numbers that the names of a stack have now.
fn renumber(numbers: &mut Vec<usize>, stack: &[u32], names: &[u32]) -> Result<(), AllocError>
    requires { All (λ k. k < length names.now) stack.now }
    ensures { OnOk result (numbers.new.items ≡ map (slice_index names.now) stack.now) }
{
    numbers.clear();
    for number in stack {
        numbers.push(names[*number as usize] as usize)?;
    }
    Ok(())
}

/// The numbers of the stacks of a list in a ledger that has the names of the list under these numbers. It keeps those that it is not
/// known to have.
pub(crate) fn numbers_of_stacks(
    alloc: Global,
    ledger: &mut Ledger,
    known: &mut NumberCache,
    list: &SourceList,
    names: &[u32],
) -> Result<Vec<u32>, AllocError>
    requires open { ledger.old.close ≡ None }
    requires names { AreFound [] ledger.old.told names.now list.now.told }
    ensures found { IfOk result (λ numbers. AreFound [] (named_stacks ledger.new.told ledger.new.stacks)
        numbers.items (named_stacks list.now.told list.now.stacks)) }
    ensures keeps { OnOk result (KeepsMore ledger.old ledger.new) }
{
    let count = list.stack_count();
    let others = ledger.stack_count();
    // Where few samples have the stack of another, it is hardly ever known. Of those that are summed each stack has two at most.
    let mut looks_up = list.len().saturating_sub(count) >= count / 4;
    let mut found = 0usize;
    let mut numbers = Vec::with_capacity(alloc, count)?;
    let mut stack = Vec::new(alloc);
    for at in 0..count {
        renumber(&mut stack, list.stack(at), names)?;
        let number = number_of_stack(ledger, known, &stack, looks_up)?;
        append_number(&mut numbers, number)?;
        found = found.saturating_add((number < others) as usize);
        // The first list finds none, but is found by those behind it.
        if at == TRIED && others > 0 && found < TRIED / 8 {
            looks_up = false;
        }
    }
    Ok(numbers)
}
