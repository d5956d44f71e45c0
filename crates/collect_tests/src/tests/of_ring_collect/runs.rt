//! Runs with readers, gates and sinks of which it is known what they do.

ghost use Rattle.std.specs.Prelude.{◌≤◌, length, IfOk};

mod batches;
mod fakes;
mod feeds;
mod gates;
mod lists;
mod mixed_batches;
mod refusals;
mod rows;
mod sinks;
mod streams;

use self::fakes::{CLEAN, Counts, Tape};
use self::lists::is_run;
use self::sinks::Recorder;
use crate::tests::holds;
use ring_collect::{CollectFault, Collected, RingSize, collect};
use stack_core::{Gate, OpenGate, ReadFault, ReadKind, SourceEnd};
use std::alloc::{AllocError, Global};
use std::process::Abort;
use std::sync::atomic::Ordering;
use std::sync::{Arc, Wait};
use std::test::Fail;
use std::thread::Threads;

/// The frame of each sample of a source.
const NAMES: [&str; 8] = ["a", "b", "c", "d", "e", "f", "g", "h"];

fn name_of(source: usize) -> &'static str {
    NAMES[source % 8]
}

/// What a reader gives: samples of these weights, an ending, and how many calls come before the one that is refused, if one is.
type Given = (&'static [u8], SourceEnd, Option<u32>);

/// What the list of a source has: samples of these weights, and an ending.
type Wanted = (&'static [u8], SourceEnd);

type Source = (Given, Wanted);

fn add_tapes(
    tapes: &mut Vec<Tape>,
    counts: &Arc<Counts>,
    sources: &[Source],
) -> Result<(), AllocError> {
    for (source, (given, _)) in sources.iter().enumerate() {
        let (weights, ending, refuses_after) = *given;
        let counts = Arc::try_clone(counts)?;
        counts.made.fetch_add(1, Ordering::SeqCst);
        tapes.push(Tape {
            name: name_of(source),
            weights,
            ending,
            refuses_after,
            counts,
        })?;
    }
    Ok(())
}

/// A reader for each source, of which a run has no more than 64.
fn tapes(alloc: Global, counts: &Arc<Counts>, sources: &[Source]) -> Result<Vec<Tape>, CollectFault>
    ensures { IfOk result (λ tapes. length tapes.items ≤ 64) }
{
    let mut tapes = Vec::new(alloc);
    add_tapes(&mut tapes, counts, sources)?;
    if tapes.len() > 64 {
        return Err(CollectFault::NoThread);
    }
    Ok(tapes)
}

fn shared<G: Drop>(alloc: Global, gate: G) -> Result<Arc<G>, AllocError> {
    Ok(Arc::new(alloc, gate)?)
}

/// What a run over sources answers.
fn collected<T: Threads + Wait + Copy + Send + 'static, G: Gate + Send + Sync + Drop + 'static>(
    rt: &T,
    alloc: Global,
    sink: &mut Recorder,
    sources: &[Source],
    ring: RingSize,
    gate: G,
) -> Result<Collected, CollectFault> {
    let gate = shared(alloc, gate)?;
    let readers = tapes(alloc, &sink.counts, sources)?;
    collect(rt, alloc, readers, ring, gate, sink)
}

/// Runs over such sources, whose lists and order are as they are to be. Every reader was dropped.
fn runs_to<T: Threads + Wait + Copy + Send + 'static, G: Gate + Send + Sync + Drop + 'static>(
    rt: &T,
    alloc: Global,
    sink: &mut Recorder,
    sources: &[Source],
    ring: RingSize,
    gate: G,
) -> Result<bool, CollectFault> {
    let run = collected(rt, alloc, sink, sources, ring, gate)?;
    Ok(is_run(&run, sink, sources))
}

/// Runs as `runs_to` says, with a sink of its own.
fn runs_alone_to<T: Threads + Wait + Copy + Send + 'static, G: Gate + Send + Sync + Drop + 'static>(
    rt: &T,
    alloc: Global,
    sources: &[Source],
    ring: RingSize,
    gate: G,
) -> Result<bool, CollectFault> {
    let mut sink = Recorder::new(alloc)?;
    runs_to(rt, alloc, &mut sink, sources, ring, gate)
}

const THREE: &[u8] = &[1, 2, 3];

const EIGHT: &[u8] = &[1, 2, 3, 4, 5, 6, 7, 8];

const TWENTY: &[u8] = &[1; 20];

const HUNDRED: &[u8] = &[1; 100];

const OF_THE_PAGE: &[Source] = &[
    ((&[1, 2], CLEAN, None), (&[1, 2], CLEAN)),
    ((&[3], CLEAN, None), (&[3], CLEAN)),
];

fn is_run_of_the_page(run: &Collected, sink: &Recorder) -> bool {
    run.order.len() == 3
        && sink.pairs.len() == 3
        && run.lists.len() == 2
        && run.lists[0].len() == 2
        && run.lists[0].weight(1) == 2
}

/// Makes the calls of README.md.
fn runs_as_on_the_page<T: Threads + Wait + Copy + Send + 'static>(
    rt: &T,
    alloc: Global,
    sink: &mut Recorder,
) -> Result<bool, CollectFault> {
    let ring = RingSize::of(2).unwrap();
    let run = collected(rt, alloc, sink, OF_THE_PAGE, ring, OpenGate)?;
    Ok(is_run_of_the_page(&run, sink))
}

/// The example of README.md.
#[test]
fn example_of_the_page(rt: HostRuntime) -> Result<(), Fail> {
    let mut sink = Recorder::new(rt.alloc())?;
    holds(&rt, runs_as_on_the_page(&rt, rt.alloc(), &mut sink))
}

/// The sink sees readers give more samples than that before it takes one, or does not, as is wanted.
fn sees_more<T: Threads + Wait + Copy + Send + 'static>(
    rt: &T,
    alloc: Global,
    above: u64,
    sources: &[Source],
    ring: RingSize,
    more: bool,
) -> Result<bool, CollectFault> {
    let mut sink = Recorder::new(alloc)?;
    sink.looks_above = Some(above);
    let runs = runs_to(rt, alloc, &mut sink, sources, ring, OpenGate)?;
    Ok(runs & (sink.saw_more == more))
}

const ONE_OF_HUNDRED: &[Source] = &[((HUNDRED, CLEAN, None), (HUNDRED, CLEAN))];

#[test]
fn ring_holds_back(rt: HostRuntime) -> Result<(), Fail> {
    let ring = RingSize::of(2).unwrap();
    holds(
        &rt,
        sees_more(&rt, rt.alloc(), 4, ONE_OF_HUNDRED, ring, false),
    )
}

const ONE_OF_TWENTY: &[Source] = &[((TWENTY, CLEAN, None), (TWENTY, CLEAN))];

// While the first sample is taken, the next eight are in the ring, and the reader waits with the tenth.
#[test]
fn ring_is_not_smaller(rt: HostRuntime) -> Result<(), Fail> {
    let ring = RingSize::of(8).unwrap();
    holds(
        &rt,
        sees_more(&rt, rt.alloc(), 9, ONE_OF_TWENTY, ring, true),
    )
}

const TOO_DEEP: SourceEnd = SourceEnd::Fault(ReadFault {
    kind: ReadKind::TooDeep,
    at: 9,
});

/// Three sources, the second of which ends in a fault.
const WITH_FAULT: &[Source] = &[
    ((HUNDRED, CLEAN, None), (HUNDRED, CLEAN)),
    ((EIGHT, TOO_DEEP, None), (EIGHT, TOO_DEEP)),
    ((HUNDRED, CLEAN, None), (HUNDRED, CLEAN)),
];

fn three_run_in_rings_of<T: Threads + Wait + Copy + Send + 'static>(
    rt: &T,
    alloc: Global,
    ring: RingSize,
) -> Result<bool, CollectFault> {
    runs_alone_to(rt, alloc, WITH_FAULT, ring, OpenGate)
}

#[test]
fn three_readers(rt: HostRuntime) -> Result<(), Fail> {
    let [small, large] = [RingSize::of(1).unwrap(), RingSize::of(65_536).unwrap()];
    holds(&rt, three_run_in_rings_of(&rt, rt.alloc(), small))?;
    holds(&rt, three_run_in_rings_of(&rt, rt.alloc(), large))
}

#[test]
fn no_readers(rt: HostRuntime) -> Result<(), Fail> {
    let ring = RingSize::of(1).unwrap();
    holds(&rt, runs_alone_to(&rt, rt.alloc(), &[], ring, OpenGate))
}

const SIZES: &[(u32, Option<u32>)] = &[
    (0, None),
    (1, Some(1)),
    (65_536, Some(65_536)),
    (65_537, None),
];

#[test]
fn sizes_of_rings(rt: HostRuntime) {
    for (items, size) in SIZES {
        assert!(rt; RingSize::of(*items).map(RingSize::get) == *size);
    }
}
