//! Runs in which a reader or the sink meets want of memory.

use super::batches::few_run_whole;
use super::fakes::{CLEAN, StopsAt};
use super::lists::{had, is_cut_short, is_run};
use super::sinks::Recorder;
use super::{HUNDRED, Source, THREE, collected};
use crate::tests::holds;
use ring_collect::{CollectFault, Collected, RingSize};
use stack_core::{Gate, OpenGate};
use std::alloc::Global;
use std::sync::Wait;
use std::test::Fail;
use std::thread::Threads;

const THREE_OF_THREE: &[Source] = &[((THREE, CLEAN, None), (THREE, CLEAN)); 3];

fn is_refused(answer: Result<Collected, CollectFault>) -> bool {
    matches!(answer, Err(CollectFault::OutOfMemory))
}

/// Whether the run had so many readers, and its sink has so many samples, after which it refused one, if it is to.
fn took(sink: &Recorder, readers: usize, taken: Option<u64>) -> bool {
    let Some(taken) = taken else {
        return had(sink, readers);
    };
    had(sink, readers)
        && sink.pairs.len() as u64 == taken
        && sink.calls.checked_sub(1) == Some(taken)
}

/// The run ends for want of memory. Every reader was dropped, what the sink has of each source are its first samples, and where it is to
/// refuse one, it has as many as are to come before.
fn runs_short<T: Threads + Wait + Copy + Send + 'static, G: Gate + Send + Sync + Drop + 'static>(
    rt: &T,
    alloc: Global,
    sources: &[Source],
    taken: Option<u64>,
    gate: G,
) -> Result<bool, CollectFault> {
    let mut sink = Recorder::new(alloc)?;
    sink.refuses_after = taken;
    let ring = RingSize::of(2).unwrap();
    let refused = is_refused(collected(rt, alloc, &mut sink, sources, ring, gate));
    Ok(refused & took(&sink, sources.len(), taken) & is_cut_short(&sink, sources))
}

/// Whatever the sample, the sink refuses it.
fn refuses_each<T: Threads + Wait + Copy + Send + 'static>(
    rt: &T,
    alloc: Global,
) -> Result<bool, CollectFault> {
    for taken in 0..9u64 {
        if !runs_short(rt, alloc, THREE_OF_THREE, Some(taken), OpenGate)? {
            return Ok(false);
        }
    }
    Ok(true)
}

#[test]
fn sink_refuses(rt: HostRuntime) -> Result<(), Fail> {
    holds(&rt, refuses_each(&rt, rt.alloc()))
}

/// The second reader refuses its third sample, and the sink has at most two of it.
const WITH_REFUSAL: &[Source] = &[
    ((THREE, CLEAN, None), (THREE, CLEAN)),
    ((THREE, CLEAN, Some(2)), (&[1, 2], CLEAN)),
    ((THREE, CLEAN, None), (THREE, CLEAN)),
];

#[test]
fn reader_refuses(rt: HostRuntime) -> Result<(), Fail> {
    holds(
        &rt,
        runs_short(&rt, rt.alloc(), WITH_REFUSAL, None, OpenGate),
    )
}

const THREE_OF_HUNDRED: &[Source] = &[((HUNDRED, CLEAN, None), (HUNDRED, CLEAN)); 3];

/// The run is whole, or ends in a fault with first samples of each source. Either way every reader was dropped.
fn is_whole_or_refused(
    sink: &Recorder,
    answer: Result<Collected, CollectFault>,
) -> Result<bool, CollectFault> {
    match answer {
        Ok(run) => Ok(is_run(&run, sink, THREE_OF_HUNDRED)),
        Err(fault) => {
            if is_cut_short(sink, THREE_OF_HUNDRED) {
                return Err(fault);
            }
            Ok(false)
        }
    }
}

fn readers_are_joined<T: Threads + Wait + Copy + Send + 'static>(
    rt: &T,
    alloc: Global,
) -> Result<bool, CollectFault> {
    let mut sink = Recorder::new(alloc)?;
    let ring = RingSize::of(1).unwrap();
    let answer = collected(rt, alloc, &mut sink, THREE_OF_HUNDRED, ring, OpenGate);
    is_whole_or_refused(&sink, answer)
}

/// Whatever request is refused (checks/growths), also in starting, every reader is dropped before the answer, though each has more to
/// send than its ring holds. A run in batches is whole or refused, too.
#[test]
fn every_reader_is_joined(rt: HostRuntime) -> Result<(), Fail> {
    holds(&rt, readers_are_joined(&rt, rt.alloc()))?;
    holds(&rt, few_run_whole(&rt, rt.alloc()))
}

#[test]
fn sink_refuses_beside_a_stop(rt: HostRuntime) -> Result<(), Fail> {
    let gate = StopsAt {
        source: 1,
        index: 0,
    };
    holds(
        &rt,
        runs_short(&rt, rt.alloc(), THREE_OF_THREE, Some(0), gate),
    )
}
