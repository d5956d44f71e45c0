//! A tree sink, alone and under a run.
ghost use Rattle.std.specs.Prelude.{◌≡◌, IfOk, length};

use super::gates::{AfterSnapshots, Watched};
use super::stated::{Moment, are_made_at, number_of};
use crate::tests::holds;
use call_tree::CallTree;
use flame_tool::TreeSink;
use folded_lines::FoldedReader;
use ring_collect::{CollectFault, RingSize, collect};
use stack_core::{Names, Sample, Sink};
use std::alloc::{AllocError, Global};
use std::sync::atomic::AtomicU64;
use std::sync::{Arc, Wait};
use std::test::Fail;
use std::thread::Threads;

/// A sample: its source, its names and its weight.
type Taken = (u32, &'static [&'static str], u64);

fn take_all(alloc: Global, sink: &mut TreeSink, all: &[Taken]) -> Result<(), AllocError> {
    for (source, names, weight) in all {
        let sample = Sample {
            stack: Names::from_strs(alloc, names)?,
            weight: *weight,
        };
        sink.take(alloc, *source, &sample)?;
    }
    Ok(())
}

/// Five samples of three sources.
const FIVE: &[Taken] = &[
    (2, &["a"], 1),
    (0, &["a", "b"], 2),
    (2, &[], 4),
    (1, &["b"], 0),
    (2, &["b", "a"], 8),
];

/// The snapshots after two and after four of them.
const MOMENTS: &[Moment] = &[(2, &[1, 0, 1], 3), (4, &[1, 1, 2], 7)];

/// The totals and the own weights of the five, of the names with these numbers.
fn has_sums(tree: &CallTree, a: usize, b: usize) -> bool {
    tree.total(&[]) == 15
        && tree.own(&[]) == 4
        && tree.total(&[a]) == 3
        && tree.own(&[a, b]) == 2
        && tree.total(&[b]) == 8
        && tree.own(&[b]) == 0
}

/// The sums of the five.
fn has_five(sink: &TreeSink) -> bool {
    match (number_of(sink.table(), "a"), number_of(sink.table(), "b")) {
        (Some(a), Some(b)) => sink.table().len() == 2 && has_sums(sink.tree(), a, b),
        _ => false,
    }
}

fn takes_five(alloc: Global, sink: &mut TreeSink) -> Result<bool, AllocError> {
    take_all(alloc, sink, FIVE)?;
    Ok(has_five(sink) && are_made_at(sink.snapshots(), MOMENTS))
}

#[test]
fn sink_alone(rt: HostRuntime) -> Result<(), Fail> {
    let mut sink = TreeSink::new(rt.alloc(), Some(2))?;
    holds(&rt, takes_five(rt.alloc(), &mut sink))
}

const LARGE: Taken = (4_000_000_000, &["a"], u64::MAX);

fn takes_large(alloc: Global, sink: &mut TreeSink) -> Result<bool, AllocError> {
    let empty = sink.table().len() == 0 && sink.tree().total(&[]) == 0;
    take_all(alloc, sink, &[LARGE; 5])?;
    Ok(empty && sink.tree().total(&[0]) == 5 * u128::from(u64::MAX) && sink.snapshots().is_empty())
}

/// No count of sources is kept where no snapshot asks for it, and sums go past 64 bits.
#[test]
fn sink_without_snapshots(rt: HostRuntime) -> Result<(), Fail> {
    let mut sink = TreeSink::new(rt.alloc(), None)?;
    holds(&rt, takes_large(rt.alloc(), &mut sink))
}

/// A reader of seven samples `a 1`.
fn reader_of_seven(alloc: Global) -> Result<Vec<FoldedReader>, AllocError>
    ensures { IfOk result (λ readers. length readers.items ≡ 1) }
{
    let text = b"a 1\na 1\na 1\na 1\na 1\na 1\na 1\n".to_vec(alloc)?;
    Ok(vec![in alloc; FoldedReader::over(text)]?)
}

/// A gate at which the last of them waits for three snapshots.
fn gate_of(alloc: Global, watched: &Watched) -> Result<Arc<AfterSnapshots>, AllocError> {
    let made = Arc::try_clone(&watched.made)?;
    Ok(Arc::new(alloc, AfterSnapshots { made })?)
}

/// Runs over seven samples `a 1`, the last of which waits for three snapshots.
fn runs_seven<T: Threads + Wait + Copy + Send + 'static>(
    rt: &T,
    alloc: Global,
    watched: &mut Watched,
) -> Result<bool, CollectFault> {
    let gate = gate_of(alloc, watched)?;
    let readers = reader_of_seven(alloc)?;
    let run = collect(rt, alloc, readers, RingSize::of(2).unwrap(), gate, watched)?;
    Ok(run.order.as_slice() == [0; 7].as_slice())
}

/// The snapshots after two, four and six of them.
const MOMENTS_OF_SEVEN: &[Moment] = &[(2, &[2], 2), (4, &[4], 4), (6, &[6], 6)];

fn makes_snapshots<T: Threads + Wait + Copy + Send + 'static>(
    rt: &T,
    alloc: Global,
    watched: &mut Watched,
) -> Result<bool, CollectFault> {
    let run = runs_seven(rt, alloc, watched)?;
    let sink = &watched.sink;
    Ok(run && are_made_at(sink.snapshots(), MOMENTS_OF_SEVEN) && sink.tree().total(&[]) == 7)
}

#[test]
fn snapshot_while_running(rt: HostRuntime) -> Result<(), Fail> {
    let mut watched = Watched {
        sink: TreeSink::new(rt.alloc(), Some(2))?,
        made: Arc::new(rt.alloc(), AtomicU64::new(0))?,
    };
    holds(&rt, makes_snapshots(&rt, rt.alloc(), &mut watched))
}
