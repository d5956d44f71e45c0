//! Runs by rows.

ghost use Rattle.std.specs.Prelude.{◌≡◌, ◌≤◌, [], length, All, IfOk};

use super::fakes::CLEAN;
use super::lists::is_list;
use super::{EIGHT, THREE, name_of, shared};
use crate::tests::holds;
use folded_lines::{FoldedRows, append_line};
use ring_collect::{CollectFault, Collected, RingSize, collect_rows};
use stack_core::{Names, NoSink, OpenGate};
use std::alloc::{AllocError, Global};
use std::sync::Wait;
use std::test::Fail;
use std::thread::Threads;

/// How many entries of an order have this source.
pub(super) fn count_of(order: &[u32], wanted: u32) -> usize {
    let mut count = 0usize;
    for source in order {
        if *source == wanted {
            count = count.saturating_add(1);
        }
    }
    count
}

/// The lists are whole, and each sample has an entry in the order.
fn are_whole(run: &Collected) -> bool {
    run.lists.len() == 2
        && is_list(0, &run.lists[0], (EIGHT, CLEAN))
        && is_list(1, &run.lists[1], (THREE, CLEAN))
        && count_of(&run.order, 0) == 8
        && run.order.len() == 11
}

fn append_lines(
    alloc: Global,
    text: &mut Vec<u8>,
    name: &str,
    weights: &[u8],
) -> Result<(), AllocError> {
    let stack = Names::from_strs(alloc, &[name])?;
    for weight in weights {
        append_line(alloc, text, stack.get(), u64::from(*weight))?;
    }
    Ok(())
}

/// A reader of folded lines of one frame and these weights.
fn lines(alloc: Global, name: &str, weights: &[u8]) -> Result<FoldedRows, AllocError>
    ensures { IfOk result (λ reader. reader.told ≡ record { names = []; stacks = [] }) }
{
    let mut text = Vec::new(alloc);
    append_lines(alloc, &mut text, name, weights)?;
    Ok(FoldedRows::over(text))
}

/// The readers of a run for the lists alone.
fn two_readers(alloc: Global) -> Result<Vec<FoldedRows>, AllocError>
    ensures few { IfOk result (λ readers. length readers.items ≤ 64) }
    ensures nothing_told { IfOk result (λ readers.
        All (λ reader. reader.told ≡ record { names = []; stacks = [] }) readers.items) }
{
    let mut readers = Vec::new(alloc);
    readers.push(lines(alloc, name_of(0), EIGHT)?)?;
    readers.push(lines(alloc, name_of(1), THREE)?)?;
    Ok(readers)
}

fn alone_in_rings_of<T: Threads + Wait + Copy + Send + 'static>(
    rt: &T,
    alloc: Global,
    ring: RingSize,
) -> Result<Collected, CollectFault> {
    let gate = shared(alloc, OpenGate)?;
    let readers = two_readers(alloc)?;
    collect_rows(rt, alloc, readers, ring, gate, &mut NoSink::new())
}

fn are_whole_in_rings_of<T: Threads + Wait + Copy + Send + 'static>(
    rt: &T,
    alloc: Global,
    ring: RingSize,
) -> Result<bool, CollectFault> {
    let run = alone_in_rings_of(rt, alloc, ring)?;
    Ok(are_whole(&run))
}

/// A run for the lists alone.
#[test]
fn lists_alone(rt: HostRuntime) -> Result<(), Fail> {
    let [small, large] = [RingSize::of(1).unwrap(), RingSize::of(64).unwrap()];
    holds(&rt, are_whole_in_rings_of(&rt, rt.alloc(), small))?;
    holds(&rt, are_whole_in_rings_of(&rt, rt.alloc(), large))
}
