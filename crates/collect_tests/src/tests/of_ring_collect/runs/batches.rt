//! Runs by rows, of sources that fill batches or nearly do.

ghost use Rattle.std.specs.Prelude.{◌≡◌, ◌≤◌, [], length, All, IfOk};

use super::lists::has_sample;
use super::rows::count_of;
use super::shared;
use crate::tests::holds;
use folded_lines::{FoldedRows, append_line};
use ring_collect::{CollectFault, Collected, RingSize, collect_rows};
use stack_core::{Names, NoSink, OpenGate, SourceEnd, SourceList};
use std::alloc::{AllocError, Global};
use std::sync::Wait;
use std::test::Fail;
use std::thread::Threads;

/// How many samples the sources of a run have, and how many samples behind one another have the same name.
#[derive(Clone, Copy)]
struct Counts {
    samples: [usize; 2],
    alike: usize,
}

/// The name of the sample of this number.
fn name_of(alloc: Global, i: usize, alike: usize) -> Result<String, AllocError> {
    let number = i.checked_div(alike).unwrap_or(0);
    format!(in alloc; "f{number}")
}

/// The weight of the sample of this number.
fn weight_of(i: usize) -> u8 {
    (i % 9) as u8
}

/// A reader of so many folded lines.
fn reader_of(alloc: Global, count: usize, alike: usize) -> Result<FoldedRows, AllocError>
    ensures { IfOk result (λ reader. reader.told ≡ record { names = []; stacks = [] }) }
{
    let mut text = Vec::new(alloc);
    for i in 0..count {
        let name = name_of(alloc, i, alike)?;
        let stack = Names::from_strs(alloc, &[name.as_str()])?;
        append_line(alloc, &mut text, stack.get(), u64::from(weight_of(i)))?;
    }
    Ok(FoldedRows::over(text))
}

fn readers_of(alloc: Global, counts: Counts) -> Result<Vec<FoldedRows>, AllocError>
    ensures few { IfOk result (λ readers. length readers.items ≤ 64) }
    ensures nothing_told { IfOk result (λ readers.
        All (λ reader. reader.told ≡ record { names = []; stacks = [] }) readers.items) }
{
    let Counts { samples, alike } = counts;
    let mut readers = Vec::new(alloc);
    readers.push(reader_of(alloc, samples[0], alike)?)?;
    readers.push(reader_of(alloc, samples[1], alike)?)?;
    Ok(readers)
}

/// The list has exactly these samples.
fn is_whole(
    alloc: Global,
    list: &SourceList,
    count: usize,
    alike: usize,
) -> Result<bool, AllocError> {
    for i in 0..count {
        let name = name_of(alloc, i, alike)?;
        if !has_sample(list, i, weight_of(i), name.as_str()) {
            return Ok(false);
        }
    }
    Ok(list.len() == count && *list.ending() == SourceEnd::Clean { ignored: 0 })
}

/// Each list is whole, and each of its samples has an entry in the order.
fn are_whole(
    alloc: Global,
    lists: &[SourceList],
    order: &[u32],
    counts: &[usize],
    alike: usize,
) -> Result<bool, AllocError> {
    if lists.len() != counts.len() {
        return Ok(false);
    }
    let mut source = 0u32;
    for at in 0..lists.len() {
        if !is_whole(alloc, &lists[at], counts[at], alike)?
            || count_of(order, source) != counts[at]
        {
            return Ok(false);
        }
        source = source.wrapping_add(1);
    }
    Ok(true)
}

fn run_of<T: Threads + Wait + Copy + Send + 'static>(
    rt: &T,
    alloc: Global,
    counts: Counts,
    ring: RingSize,
) -> Result<Collected, CollectFault> {
    let gate = shared(alloc, OpenGate)?;
    let readers = readers_of(alloc, counts)?;
    collect_rows(rt, alloc, readers, ring, gate, &mut NoSink::new())
}

/// A run over such sources, through rings of this size, collects all of them.
fn runs_whole<T: Threads + Wait + Copy + Send + 'static>(
    rt: &T,
    alloc: Global,
    counts: Counts,
    ring: RingSize,
) -> Result<bool, CollectFault> {
    let run = run_of(rt, alloc, counts, ring)?;
    Ok(are_whole(alloc, &run.lists, &run.order, &counts.samples, counts.alike)?)
}

const FEW: Counts = Counts {
    samples: [40, 150],
    alike: 1,
};

/// A run whose longest source fills a batch and begins the next is whole.
pub(super) fn few_run_whole<T: Threads + Wait + Copy + Send + 'static>(
    rt: &T,
    alloc: Global,
) -> Result<bool, CollectFault> {
    runs_whole(rt, alloc, FEW, RingSize::of(1_024).unwrap())
}

const NEW_THROUGHOUT: [Counts; 3] = [
    Counts {
        samples: [0, 1],
        alike: 1,
    },
    Counts {
        samples: [4_095, 4_096],
        alike: 1,
    },
    Counts {
        samples: [4_097, 10_000],
        alike: 1,
    },
];

const ALIKE: [Counts; 3] = [
    Counts {
        samples: [4_094, 4_095],
        alike: 10_000,
    },
    Counts {
        samples: [4_096, 0],
        alike: 10_000,
    },
    Counts {
        samples: [4_097, 10_000],
        alike: 3,
    },
];

fn run_in_rings_of<T: Threads + Wait + Copy + Send + 'static>(
    rt: &T,
    alloc: Global,
    all: &[Counts],
    ring: RingSize,
) -> Result<bool, CollectFault> {
    for counts in all {
        if !runs_whole(rt, alloc, *counts, ring)? {
            return Ok(false);
        }
    }
    Ok(true)
}

#[test]
fn batches_in_small_rings(rt: HostRuntime) -> Result<(), Fail> {
    let [one, two] = [RingSize::of(1).unwrap(), RingSize::of(2).unwrap()];
    holds(&rt, run_in_rings_of(&rt, rt.alloc(), &NEW_THROUGHOUT, one))?;
    holds(&rt, run_in_rings_of(&rt, rt.alloc(), &ALIKE, one))?;
    holds(&rt, run_in_rings_of(&rt, rt.alloc(), &NEW_THROUGHOUT, two))
}

#[test]
fn batches_in_large_rings(rt: HostRuntime) -> Result<(), Fail> {
    let [seven, many] = [RingSize::of(7).unwrap(), RingSize::of(64).unwrap()];
    holds(
        &rt,
        run_in_rings_of(&rt, rt.alloc(), &NEW_THROUGHOUT, seven),
    )?;
    holds(&rt, run_in_rings_of(&rt, rt.alloc(), &ALIKE, seven))?;
    holds(&rt, run_in_rings_of(&rt, rt.alloc(), &NEW_THROUGHOUT, many))
}

/// In the largest ring each batch has 4,096 records.
#[test]
fn batches_in_the_largest_ring(rt: HostRuntime) -> Result<(), Fail> {
    let largest = RingSize::of(65_536).unwrap();
    holds(
        &rt,
        run_in_rings_of(&rt, rt.alloc(), &NEW_THROUGHOUT, largest),
    )?;
    holds(&rt, run_in_rings_of(&rt, rt.alloc(), &ALIKE, largest))
}
