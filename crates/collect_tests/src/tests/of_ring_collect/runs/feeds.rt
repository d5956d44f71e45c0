//! Runs by rows that keep no samples.

ghost use Rattle.std.specs.Prelude.{◌≡◌, ◌≤◌, [], length, All, IfOk};

use super::fakes::{AfterAnEnd, StopsAt};
use super::shared;
use super::sinks::{Listener, Weigher};
use crate::tests::holds;
use folded_lines::FoldedRows;
use ring_collect::{CollectFault, RingSize, collect_rows, feed_rows};
use stack_core::{OpenGate, ReadFault, ReadKind, SourceEnd};
use std::alloc::{AllocError, Global};
use std::sync::{Arc, Wait};
use std::test::Fail;
use std::thread::Threads;

/// The first has a line that is ignored, the second ends in a fault, and the third is stopped.
const TEXTS: [&[u8]; 3] = [
    b"a 1\nno count\na;b 2\na 3\n",
    b"c 4\nc 5.5\nc 6\n",
    b"d 7\nd 8\nd 9\n",
];

const WEIGHTS: [&[u64]; 3] = [&[1, 2, 3], &[4], &[7, 8]];

const ENDINGS: [SourceEnd; 3] = [
    SourceEnd::Clean { ignored: 1 },
    SourceEnd::Fault(ReadFault {
        kind: ReadKind::DecimalWeight,
        at: 2,
    }),
    SourceEnd::Stopped { after: 2 },
];

/// A reader of each text.
fn readers(alloc: Global) -> Result<Vec<FoldedRows>, AllocError>
    ensures few { IfOk result (λ readers. length readers.items ≤ 64) }
    ensures nothing_told { IfOk result (λ readers.
        All (λ reader. reader.told ≡ record { names = []; stacks = [] }) readers.items) }
{
    let mut readers = Vec::new(alloc);
    readers.push(FoldedRows::over(TEXTS[0].to_vec(alloc)?))?;
    readers.push(FoldedRows::over(TEXTS[1].to_vec(alloc)?))?;
    readers.push(FoldedRows::over(TEXTS[2].to_vec(alloc)?))?;
    Ok(readers)
}

/// Stops the third source.
fn stopping(alloc: Global) -> Result<Arc<StopsAt>, AllocError> {
    shared(
        alloc,
        StopsAt {
            source: 2,
            index: 2,
        },
    )
}

/// The sink took these weights of the source, in this order.
fn has_weights(sink: &Weigher, source: u32, weights: &[u64]) -> bool {
    let mut next = 0usize;
    for (of, weight) in &sink.pairs {
        if *of == source {
            if next >= weights.len() || weights[next] != *weight {
                return false;
            }
            next = next.saturating_add(1);
        }
    }
    next == weights.len()
}

/// The sink took all samples.
fn has_all(sink: &Weigher) -> bool {
    has_weights(sink, 0, WEIGHTS[0])
        && has_weights(sink, 1, WEIGHTS[1])
        && has_weights(sink, 2, WEIGHTS[2])
        && sink.pairs.len() == 6
}

fn collects<T: Threads + Wait + Copy + Send + 'static>(
    rt: &T,
    alloc: Global,
    ring: RingSize,
) -> Result<bool, CollectFault> {
    let mut sink = Weigher::new(alloc);
    let gate = stopping(alloc)?;
    let run = collect_rows(rt, alloc, readers(alloc)?, ring, gate, &mut sink)?;
    Ok(has_all(&sink) && run.order.len() == 6)
}

fn feeds<T: Threads + Wait + Copy + Send + 'static>(
    rt: &T,
    alloc: Global,
    ring: RingSize,
) -> Result<bool, CollectFault> {
    let mut sink = Listener::new(alloc)?;
    let gate = stopping(alloc)?;
    let endings = feed_rows(rt, alloc, readers(alloc)?, ring, gate, &mut sink)?;
    Ok(
        has_all(&sink.weigher)
            && endings.as_slice() == ENDINGS.as_slice()
            && hears_each(&sink, &ENDINGS),
    )
}

/// The sink was told of these three sources how each ended, and of none twice.
fn hears_each(sink: &Listener, endings: &[SourceEnd; 3]) -> bool {
    let mut heard = 0usize;
    for source in 0..3u32 {
        for (of, ending) in &sink.ends {
            if *of == source && *ending == endings[source as usize] {
                heard = heard.saturating_add(1);
            }
        }
    }
    heard == 3 && sink.ends.len() == 3
}

/// The sink is fed as by a run that keeps lists, and each ending is answered.
#[test]
fn feeds_what_is_collected(rt: HostRuntime) -> Result<(), Fail> {
    let [small, large] = [RingSize::of(1).unwrap(), RingSize::of(64).unwrap()];
    holds(&rt, collects(&rt, rt.alloc(), small))?;
    holds(&rt, feeds(&rt, rt.alloc(), small))?;
    holds(&rt, feeds(&rt, rt.alloc(), large))
}

fn feeds_nothing<T: Threads + Wait + Copy + Send + 'static>(
    rt: &T,
    alloc: Global,
    ring: RingSize,
) -> Result<bool, CollectFault> {
    let gate = shared(alloc, OpenGate)?;
    let none: Vec<FoldedRows> = Vec::new(alloc);
    let mut sink = Listener::new(alloc)?;
    let endings = feed_rows(rt, alloc, none, ring, gate, &mut sink)?;
    Ok(endings.is_empty() && sink.ends.is_empty())
}

#[test]
fn no_readers(rt: HostRuntime) -> Result<(), Fail> {
    holds(
        &rt,
        feeds_nothing(&rt, rt.alloc(), RingSize::of(1).unwrap()),
    )
}

/// How the sources end where none is stopped.
const WHOLE: [SourceEnd; 3] = [
    SourceEnd::Clean { ignored: 1 },
    SourceEnd::Fault(ReadFault {
        kind: ReadKind::DecimalWeight,
        at: 2,
    }),
    SourceEnd::Clean { ignored: 0 },
];

/// The first source goes on only once the sink was told of the end of another.
fn hears_before_all_end<T: Threads + Wait + Copy + Send + 'static>(
    rt: &T,
    alloc: Global,
    ring: RingSize,
) -> Result<bool, CollectFault> {
    let mut sink = Listener::new(alloc)?;
    let gate = AfterAnEnd {
        counts: Arc::try_clone(&sink.counts)?,
    };
    let gate = shared(alloc, gate)?;
    let endings = feed_rows(rt, alloc, readers(alloc)?, ring, gate, &mut sink)?;
    Ok(endings.as_slice() == WHOLE.as_slice() && hears_each(&sink, &WHOLE))
}

#[test]
fn an_end_is_told_while_others_go_on(rt: HostRuntime) -> Result<(), Fail> {
    let [small, large] = [RingSize::of(1).unwrap(), RingSize::of(64).unwrap()];
    holds(&rt, hears_before_all_end(&rt, rt.alloc(), small))?;
    holds(&rt, hears_before_all_end(&rt, rt.alloc(), large))
}
