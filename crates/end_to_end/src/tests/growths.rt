//! What a refused request for memory leaves of a tree sink.
use crate::tests::holds;
use call_tree::CallTree;
use flame_tool::{Snapshot, TreeSink};
use stack_core::{Names, Sample, Sink};
use std::alloc::{AllocError, Global};
use std::test::Fail;

/// Samples with their sources. Their names `a` to `e` get the numbers 0 to 4.
const TAKEN: &[(u32, &[&str], u64)] = &[
    (2, &["a"], 1),
    (0, &["a", "b"], 2),
    (2, &[], 4),
    (1, &["b"], 0),
    (2, &["b", "a"], 8),
    (0, &["a", "b", "c", "d"], 16),
    (1, &["e", "a", "b"], 32),
];

/// The stacks `[]`, `a`, `a;b`, `b`, `b;a` and `a;b;c;d`, by the numbers of their names.
const STACKS: [&[usize]; 6] = [&[], &[0], &[0, 1], &[1], &[1, 0], &[0, 1, 2, 3]];

/// How many nodes a tree has, the totals of these stacks, and what they weigh themselves.
type Sums = (usize, [u128; 6], [u128; 6]);

/// When a snapshot was made, how many sources it counts, the samples of the first three, and the sums of its tree.
type Moment = (u64, usize, [u64; 3], Sums);

/// The sums of a sink's tree, how many snapshots it has, and the first three.
type Held = (Sums, usize, [Option<Moment>; 3]);

const AT_TWO: Moment = (2, 3, [1, 0, 1], (3, [3, 3, 2, 0, 0, 0], [0, 1, 2, 0, 0, 0]));

const AT_FOUR: Moment = (4, 3, [1, 1, 2], (3, [7, 3, 2, 0, 0, 0], [4, 1, 2, 0, 0, 0]));

const AT_SIX: Moment = (
    6,
    3,
    [2, 1, 3],
    (7, [31, 19, 18, 8, 8, 16], [4, 1, 2, 0, 8, 16]),
);

const AT_THE_END: Held = (
    (10, [63, 19, 18, 8, 8, 16], [4, 1, 2, 0, 8, 16]),
    3,
    [Some(AT_TWO), Some(AT_FOUR), Some(AT_SIX)],
);

fn sums_of(tree: &CallTree) -> Sums {
    let mut totals = [0; 6];
    let mut owns = [0; 6];
    for place in 0..6 {
        let stack = STACKS[place];
        totals[place] = tree.total(stack);
        owns[place] = tree.own(stack);
    }
    (tree.len(), totals, owns)
}

fn moment_of(snapshot: &Snapshot) -> Moment {
    let given = snapshot.counts.get();
    let mut counts = [0; 3];
    for source in 0..given.len().min(3) {
        counts[source] = given[source];
    }
    (snapshot.at, given.len(), counts, sums_of(&snapshot.tree))
}

fn held_by(sink: &TreeSink) -> Held {
    let snapshots = sink.snapshots();
    let mut moments = [None; 3];
    for place in 0..snapshots.len().min(3) {
        moments[place] = Some(moment_of(&snapshots[place]));
    }
    (sums_of(sink.tree()), snapshots.len(), moments)
}

/// Takes a sample. Where that is refused, the sink holds what it held, and is asked again.
fn takes_again(
    alloc: Global,
    sink: &mut TreeSink,
    source: u32,
    sample: &Sample,
    refused: &mut bool,
) -> Result<bool, AllocError> {
    let before = held_by(sink);
    if sink.take(alloc, source, sample).is_ok() {
        return Ok(true);
    }
    *refused = true;
    let kept = held_by(sink) == before;
    sink.take(alloc, source, sample)?;
    Ok(kept)
}

fn takes_each_again(
    alloc: Global,
    sink: &mut TreeSink,
    refused: &mut bool,
) -> Result<bool, AllocError> {
    for (source, names, weight) in TAKEN {
        let sample = Sample {
            stack: Names::from_strs(alloc, names)?,
            weight: *weight,
        };
        if !takes_again(alloc, sink, *source, &sample, refused)? {
            return Ok(false);
        }
    }
    Ok(true)
}

/// A sink keeps what it held and goes on. Where a growth was refused, the answer is that refusal.
fn goes_on(alloc: Global, sink: &mut TreeSink) -> Result<bool, AllocError> {
    let mut refused = false;
    let kept = takes_each_again(alloc, sink, &mut refused)?;
    let held = kept && held_by(sink) == AT_THE_END && sink.table().len() == 5;
    if held && refused {
        return Err(AllocError);
    }
    Ok(held)
}

/// With any one growth refused, a sink keeps what it held and goes on; the test then ends in that refusal.
#[test]
fn each_growth_of_a_sink_refused(rt: HostRuntime) -> Result<(), Fail> {
    let mut sink = TreeSink::new(rt.alloc(), Some(2))?;
    holds(&rt, goes_on(rt.alloc(), &mut sink))
}
