//! Runs by rows whose batches end between records of every kind.

ghost use Rattle.std.specs.Prelude.{◌≡◌, ◌≤◌, [], length, All, IfOk};

use super::rows::count_of;
use super::shared;
use crate::tests::holds;
use folded_lines::{FoldedRows, append_line};
use ring_collect::{CollectFault, Collected, RingSize, collect_rows};
use stack_core::{Names, NoSink, OpenGate, SourceEnd, SourceList};
use std::alloc::{AllocError, Global};
use std::sync::Wait;
use std::test::Fail;
use std::thread::Threads;

/// How many samples a source has behind those that move the ends of its batches.
const SAMPLES: usize = 7_000;

/// The stacks of a source, by numbers that count from 0 in the order in which they come. At first the first comes so often; then one in
/// three is new, and the others are any that came.
fn stacks_of(alloc: Global, again: usize) -> Result<Vec<usize>, AllocError> {
    let mut stacks = Vec::new(alloc);
    stacks.push(0)?;
    for _ in 0..again {
        stacks.push(0)?;
    }
    let mut known = 1usize;
    let mut mixed = 1u32;
    for _ in 0..SAMPLES {
        mixed = mixed.wrapping_mul(1_664_525).wrapping_add(1_013_904_223);
        let drawn = (mixed >> 16) as usize;
        if drawn % 3 == 0 {
            stacks.push(known)?;
            known = known.wrapping_add(1);
        } else {
            stacks.push(drawn.checked_rem(known).unwrap_or(0))?;
        }
    }
    Ok(stacks)
}

fn depth_of(stack: usize) -> usize {
    stack % 5 + 1
}

/// The name of a frame: the first two are the stack's own, and the others are mostly those of stacks before it.
fn name_of(alloc: Global, stack: usize, at: usize) -> Result<String, AllocError> {
    let number = match at {
        0 | 1 => stack.wrapping_mul(2).wrapping_add(at),
        _ => stack.checked_div(at).unwrap_or(0),
    };
    format!(in alloc; "f{number}")
}

/// The weight of the sample of this number.
fn weight_of(i: usize) -> u64 {
    (i % 9) as u64
}

fn append_stack(
    alloc: Global,
    text: &mut Vec<u8>,
    stack: usize,
    weight: u64,
) -> Result<(), AllocError> {
    let mut names = Vec::new(alloc);
    for at in 0..depth_of(stack) {
        names.push(name_of(alloc, stack, at)?)?;
    }
    append_line(alloc, text, names.as_slice(), weight)
}

/// A reader of folded lines of these stacks.
fn reader_of(alloc: Global, stacks: &[usize]) -> Result<FoldedRows, AllocError>
    ensures { IfOk result (λ reader. reader.told ≡ record { names = []; stacks = [] }) }
{
    let mut text = Vec::new(alloc);
    for i in 0..stacks.len() {
        append_stack(alloc, &mut text, stacks[i], weight_of(i))?;
    }
    Ok(FoldedRows::over(text))
}

/// The sample of this number has this stack.
fn has_stack(alloc: Global, list: &SourceList, i: usize, stack: usize) -> Result<bool, AllocError> {
    if i >= list.len() || list.depth(i) != depth_of(stack) {
        return Ok(false);
    }
    for at in 0..list.depth(i) {
        let name = name_of(alloc, stack, at)?;
        if list.name(i, at) != name.as_str() {
            return Ok(false);
        }
    }
    Ok(list.weight(i) == weight_of(i))
}

/// The list has exactly the samples of these stacks.
fn is_whole(alloc: Global, list: &SourceList, stacks: &[usize]) -> Result<bool, AllocError> {
    for i in 0..stacks.len() {
        if !has_stack(alloc, list, i, stacks[i])? {
            return Ok(false);
        }
    }
    Ok(list.len() == stacks.len() && *list.ending() == SourceEnd::Clean { ignored: 0 })
}

fn readers_of(
    alloc: Global,
    first: &[usize],
    second: &[usize],
) -> Result<Vec<FoldedRows>, AllocError>
    ensures few { IfOk result (λ readers. length readers.items ≤ 64) }
    ensures nothing_told { IfOk result (λ readers.
        All (λ reader. reader.told ≡ record { names = []; stacks = [] }) readers.items) }
{
    let mut readers = Vec::new(alloc);
    readers.push(reader_of(alloc, first)?)?;
    readers.push(reader_of(alloc, second)?)?;
    Ok(readers)
}

fn run_of<T: Threads + Wait + Copy + Send + 'static>(
    rt: &T,
    alloc: Global,
    readers: Vec<FoldedRows>,
    ring: RingSize,
) -> Result<Collected, CollectFault>
    requires few { length readers.items ≤ 64 }
    requires nothing_told { All (λ reader. reader.told ≡ record { names = []; stacks = [] }) readers.items }
{
    let gate = shared(alloc, OpenGate)?;
    collect_rows(rt, alloc, readers, ring, gate, &mut NoSink::new())
}

/// A run of two sources, whose batches end at other records, collects all of them.
fn runs_whole<T: Threads + Wait + Copy + Send + 'static>(
    rt: &T,
    alloc: Global,
    again: usize,
    ring: RingSize,
) -> Result<bool, CollectFault> {
    let first = stacks_of(alloc, again)?;
    let second = stacks_of(alloc, again.wrapping_add(1))?;
    let readers = readers_of(alloc, first.as_slice(), second.as_slice())?;
    let run = run_of(rt, alloc, readers, ring)?;
    Ok(
        run.lists.len() == 2
            && is_whole(alloc, &run.lists[0], first.as_slice())?
            && is_whole(alloc, &run.lists[1], second.as_slice())?
            && count_of(&run.order, 0) == first.len()
            && count_of(&run.order, 1) == second.len(),
    )
}

/// Such runs, of which each moves the ends of the batches on.
fn all_run_whole<T: Threads + Wait + Copy + Send + 'static>(
    rt: &T,
    alloc: Global,
    ring: RingSize,
) -> Result<bool, CollectFault> {
    for again in [0usize, 2, 4, 6] {
        if !runs_whole(rt, alloc, again, ring)? {
            return Ok(false);
        }
    }
    Ok(true)
}

#[test]
fn mixed_batches_are_whole(rt: HostRuntime) -> Result<(), Fail> {
    let [one, two] = [RingSize::of(1).unwrap(), RingSize::of(2).unwrap()];
    let many = RingSize::of(64).unwrap();
    holds(&rt, all_run_whole(&rt, rt.alloc(), one))?;
    holds(&rt, all_run_whole(&rt, rt.alloc(), two))?;
    holds(&rt, all_run_whole(&rt, rt.alloc(), many))
}
