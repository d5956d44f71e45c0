//! The tree of a list of samples.

ghost use Rattle.std.specs.Prelude.{◌≡◌, ◌<◌, length, IfOk, OnOk};
ghost use Rattle.call_tree.specs.Listing.{HasNumbersOf};
ghost use Rattle.bench_tree.specs.Depth.{IsShallow};

use call_tree::CallTree;
use stack_core::SourceList;
use std::alloc::{AllocError, Global};

/// The numbers of a stack, as a tree takes them.
fn numbers_of(alloc: Global, stack: &[u32]) -> Result<Vec<usize>, AllocError>
    ensures { IfOk result (λ numbers. numbers.items ≡ stack.now) }
{
    let mut numbers = Vec::with_capacity(alloc, stack.len())?;
    for number in stack {
        numbers.push(*number as usize)?;
    }
    Ok(numbers)
}

/// Adds a sample of the list, where the tree weighs less than 2^64.
fn add_sample(
    alloc: Global,
    tree: &mut CallTree,
    list: &SourceList,
    at: usize,
) -> Result<(), AllocError>
    requires at { at < length list.now.samples }
    requires numbers { HasNumbersOf list.now.told tree.old }
    requires depth { IsShallow tree.old }
    ensures numbers { OnOk result (HasNumbersOf list.now.told tree.new) }
    ensures depth { OnOk result (IsShallow tree.new) }
{
    if tree.total(&[]) > u128::from(u64::MAX) {
        return Ok(());
    }
    let numbers = numbers_of(alloc, list.frames(at))?;
    tree.add(&numbers, list.weight(at))?;
    Ok(())
}

/// The tree of the list's samples, by their numbers. Once it weighs 2^64 or more, nothing is added.
pub fn grow(alloc: Global, list: &SourceList) -> Result<CallTree, AllocError>
    ensures numbers { IfOk result (HasNumbersOf list.now.told) }
    ensures depth { IfOk result IsShallow }
{
    let mut tree = CallTree::new(alloc)?;
    for at in 0..list.len() {
        add_sample(alloc, &mut tree, list, at)?;
    }
    Ok(tree)
}

/// The number that a word spells, and 0 where there is none.
pub fn number_of_word(word: Option<String>) -> u32 {
    match word {
        Some(word) => word.as_str().parse::<u32>().unwrap_or(0),
        None => 0,
    }
}
