//! Gates that wait for one another, or for the sink, and gates that stop sources.

use super::fakes::{AfterATake, AllAsked, CLEAN, CountsCalls, StopsAt, StopsAtTwo};
use super::sinks::Recorder;
use super::{EIGHT, Source, THREE, runs_alone_to, runs_to, shared};
use crate::tests::holds;
use ring_collect::{CollectFault, RingSize};
use stack_core::SourceEnd;
use std::alloc::Global;
use std::sync::atomic::{AtomicU64, Ordering};
use std::sync::{Arc, Wait};
use std::test::Fail;
use std::thread::Threads;

const ONE: &[u8] = &[1];

const TWO_OF_ONE: &[Source] = &[((ONE, CLEAN, None), (ONE, CLEAN)); 2];

const EIGHT_OF_ONE: &[Source] = &[((ONE, CLEAN, None), (ONE, CLEAN)); 8];

/// Readers of these sources go on once all have asked.
fn all_meet<T: Threads + Wait + Copy + Send + 'static>(
    rt: &T,
    alloc: Global,
    sources: &[Source],
) -> Result<bool, CollectFault> {
    let gate = AllAsked {
        asked: AtomicU64::new(0),
        wanted: sources.len() as u64,
    };
    runs_alone_to(rt, alloc, sources, RingSize::of(1).unwrap(), gate)
}

#[test]
fn two_readers_meet(rt: HostRuntime) -> Result<(), Fail> {
    holds(&rt, all_meet(&rt, rt.alloc(), TWO_OF_ONE))?;
    holds(&rt, all_meet(&rt, rt.alloc(), EIGHT_OF_ONE))
}

const ONE_OF_EIGHT: &[Source] = &[((EIGHT, CLEAN, None), (EIGHT, CLEAN))];

fn sink_takes_before_the_end<T: Threads + Wait + Copy + Send + 'static>(
    rt: &T,
    alloc: Global,
    sink: &mut Recorder,
) -> Result<bool, CollectFault> {
    let gate = AfterATake {
        counts: Arc::try_clone(&sink.counts)?,
    };
    let ring = RingSize::of(2).unwrap();
    runs_to(rt, alloc, sink, ONE_OF_EIGHT, ring, gate)
}

#[test]
fn sink_before_end(rt: HostRuntime) -> Result<(), Fail> {
    let mut sink = Recorder::new(rt.alloc())?;
    holds(&rt, sink_takes_before_the_end(&rt, rt.alloc(), &mut sink))
}

const ONE_STOPPED: &[Source] = &[
    ((THREE, CLEAN, None), (THREE, CLEAN)),
    (
        (THREE, CLEAN, None),
        (&[1, 2], SourceEnd::Stopped { after: 2 }),
    ),
];

#[test]
fn gate_stops_one_source(rt: HostRuntime) -> Result<(), Fail> {
    let gate = StopsAt {
        source: 1,
        index: 2,
    };
    let ring = RingSize::of(2).unwrap();
    holds(&rt, runs_alone_to(&rt, rt.alloc(), ONE_STOPPED, ring, gate))
}

const TWO_STOPPED: &[Source] = &[
    ((THREE, CLEAN, None), (THREE, CLEAN)),
    (
        (THREE, CLEAN, None),
        (&[1, 2], SourceEnd::Stopped { after: 2 }),
    ),
    ((THREE, CLEAN, None), (&[], SourceEnd::Stopped { after: 0 })),
];

fn stops_two_sources() -> StopsAtTwo {
    StopsAtTwo {
        first: StopsAt {
            source: 1,
            index: 2,
        },
        second: StopsAt {
            source: 2,
            index: 0,
        },
    }
}

#[test]
fn gate_stops_two_sources(rt: HostRuntime) -> Result<(), Fail> {
    let ring = RingSize::of(1).unwrap();
    let gate = stops_two_sources();
    holds(&rt, runs_alone_to(&rt, rt.alloc(), TWO_STOPPED, ring, gate))
}

const THREE_OF_THREE: &[Source] = &[((THREE, CLEAN, None), (THREE, CLEAN)); 3];

/// The gate is asked once for each of the nine samples, and for no other.
fn asks_once<T: Threads + Wait + Copy + Send + 'static>(
    rt: &T,
    alloc: Global,
    ring: RingSize,
) -> Result<bool, CollectFault> {
    let calls = shared(alloc, AtomicU64::new(0))?;
    let gate = CountsCalls {
        calls: Arc::try_clone(&calls)?,
    };
    let is_whole = runs_alone_to(rt, alloc, THREE_OF_THREE, ring, gate)?;
    Ok(is_whole && calls.load(Ordering::SeqCst) == 0x1_1111_1111)
}

#[test]
fn gate_is_asked_once_for_each_sample(rt: HostRuntime) -> Result<(), Fail> {
    holds(&rt, asks_once(&rt, rt.alloc(), RingSize::of(1).unwrap()))?;
    holds(&rt, asks_once(&rt, rt.alloc(), RingSize::of(7).unwrap()))
}
