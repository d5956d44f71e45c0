//! Sources that are read where they are stored, beside the same bytes given whole.

ghost use Rattle.std.specs.Prelude.{◌≡◌, ◌≤◌, IfOk, length};

use super::parts::{have_same_samples, is_as_read_by_one, one_reader_each, one_stored, read_open};
use super::{ONE_SAMPLE, TWO_TYPES, input_of, options_with};
use crate::tests::holds;
use byte_io::StoredText;
use run_options::{Format, Options, Pick};
use source_lists::{Gating, Input, Run, RunFault, StrictFault, read, strict_faults};
use stack_core::{Names, NoSink, OpenGate, ReadFault, ReadKind, SourceEnd, SourceList};
use std::alloc::{AllocError, Global};
use std::sync::Wait;
use std::test::Fail;
use std::thread::Threads;

pub(super) fn stored_input(
    alloc: Global,
    format: Format,
    bytes: &[u8],
) -> Result<Input, AllocError> {
    let text = StoredText::in_memory(alloc, bytes.to_vec(alloc)?)?;
    Ok(Input::stored(format, text))
}

/// Texts, and how they end.
const TEXTS: &[(&[u8], SourceEnd)] = &[
    (b"", SourceEnd::Clean { ignored: 0 }),
    (b"\n", SourceEnd::Clean { ignored: 1 }),
    (
        b"main;parse 1\nmain;merge 2\n# a comment\nmain;parse;cut 3",
        SourceEnd::Clean { ignored: 1 },
    ),
    (b"a 1\r\n\r\nb 2\r\n", SourceEnd::Clean { ignored: 1 }),
    (
        b"\x1f\x8b 7\na 1\n",
        SourceEnd::Fault(ReadFault {
            kind: ReadKind::Compressed,
            at: 1,
        }),
    ),
    (
        b"a 1\nb 1.5\nc 1\n",
        SourceEnd::Fault(ReadFault {
            kind: ReadKind::DecimalWeight,
            at: 2,
        }),
    ),
    (
        b"a 72057594037927935\nb 1\n",
        SourceEnd::Fault(ReadFault {
            kind: ReadKind::TotalTooLarge,
            at: 2,
        }),
    ),
];

/// Profiles, and how they end.
const PROFILES: &[(&[u8], SourceEnd)] = &[
    (ONE_SAMPLE, SourceEnd::Clean { ignored: 0 }),
    (
        TWO_TYPES,
        SourceEnd::Fault(ReadFault {
            kind: ReadKind::ValueCount,
            at: 12,
        }),
    ),
    (
        b"\x12",
        SourceEnd::Fault(ReadFault {
            kind: ReadKind::Truncated,
            at: 0,
        }),
    ),
];

/// Each source that is stored and comes alone is as read by one reader where it is loaded.
fn are_read_alike<T: Threads + Wait + Copy + Send + 'static>(
    rt: &T,
    alloc: Global,
    format: Format,
    sources: &[(&[u8], SourceEnd)],
) -> Result<bool, RunFault> {
    for (bytes, ending) in sources {
        let run = read_open(rt, alloc, one_stored(alloc, format, bytes)?)?;
        if !is_as_read_by_one(rt, alloc, format, bytes, &run, *ending)? {
            return Ok(false);
        }
    }
    Ok(true)
}

#[test]
fn stored_texts(rt: HostRuntime) -> Result<(), Fail> {
    holds(&rt, are_read_alike(&rt, rt.alloc(), Format::Folded, TEXTS))
}

#[test]
fn stored_profiles(rt: HostRuntime) -> Result<(), Fail> {
    holds(
        &rt,
        are_read_alike(&rt, rt.alloc(), Format::Pprof, PROFILES),
    )
}

/// Lines that are ignored, and one with a fault behind a sample of `a`.
const FIRST: &[u8] = b"a;b 2\nno count\na;c 5\na;b 1\n";

const LAST: &[u8] = b"b;a 3\nno count\nd 1.5\na 7\n";

/// A text of three samples, a profile of one, a profile with a fault, and a text of one sample and a fault: all are stored, or loaded.
fn four_inputs(alloc: Global, are_stored: bool) -> Result<Vec<Input>, AllocError>
    ensures { IfOk result (λ inputs. length inputs.items ≡ 4) }
{
    let first = input_by(alloc, are_stored, Format::Folded, FIRST)?;
    let profile = input_by(alloc, are_stored, Format::Pprof, ONE_SAMPLE)?;
    let faulty = input_by(alloc, are_stored, Format::Pprof, TWO_TYPES)?;
    let last = input_by(alloc, are_stored, Format::Folded, LAST)?;
    Ok(vec![in alloc; first, profile, faulty, last]?)
}

pub(super) fn input_by(
    alloc: Global,
    is_stored: bool,
    format: Format,
    bytes: &[u8],
) -> Result<Input, AllocError> {
    if is_stored {
        stored_input(alloc, format, bytes)
    } else {
        input_of(alloc, format, bytes)
    }
}

fn end_alike(one: &SourceList, other: &SourceList) -> bool {
    one.ending() == other.ending()
}

fn are_alike(one: &[SourceList], other: &[SourceList]) -> bool {
    if one.len() != other.len() {
        return false;
    }
    for at in 0..one.len() {
        if !have_same_samples(&one[at], &other[at]) || !end_alike(&one[at], &other[at]) {
            return false;
        }
    }
    true
}

/// The four sources are read, by the gate if there is one.
fn read_four<T: Threads + Wait + Copy + Send + 'static>(
    rt: &T,
    alloc: Global,
    options: &Options,
    gating: Gating<OpenGate>,
    are_stored: bool,
) -> Result<Run, RunFault> {
    let inputs = four_inputs(alloc, are_stored)?;
    read(rt, alloc, inputs, options, gating, &mut NoSink::new())
}

/// The run of the stored sources has as many samples as that of the loaded ones, and the same ones, of the same weight.
fn are_same_runs(one: &Run, other: &Run, samples: usize) -> bool {
    are_alike(one.kept.lists(), other.kept.lists())
        && one.whole_weight == other.whole_weight
        && one.kept.order().len() == samples
}

fn four_are_read_alike<T: Threads + Wait + Copy + Send + 'static>(
    rt: &T,
    alloc: Global,
    options: &Options,
    samples: usize,
) -> Result<bool, RunFault> {
    let stored = read_four(rt, alloc, options, Gating::Open, true)?;
    let loaded = read_four(rt, alloc, options, Gating::Open, false)?;
    Ok(are_same_runs(&stored, &loaded, samples))
}

fn four_are_read_alike_under_a_gate<T: Threads + Wait + Copy + Send + 'static>(
    rt: &T,
    alloc: Global,
    options: &Options,
    samples: usize,
) -> Result<bool, RunFault> {
    let stored = read_four(rt, alloc, options, one_reader_each(alloc)?, true)?;
    let loaded = read_four(rt, alloc, options, one_reader_each(alloc)?, false)?;
    Ok(are_same_runs(&stored, &loaded, samples))
}

#[test]
fn stored_sources_together(rt: HostRuntime) -> Result<(), Fail> {
    let options = options_with(rt.alloc(), Pick::Preferred);
    holds(&rt, four_are_read_alike(&rt, rt.alloc(), &options, 5))
}

#[test]
fn stored_sources_under_a_gate(rt: HostRuntime) -> Result<(), Fail> {
    let options = options_with(rt.alloc(), Pick::Preferred);
    holds(
        &rt,
        four_are_read_alike_under_a_gate(&rt, rt.alloc(), &options, 5),
    )
}

/// Options whose filter asks for the stacks with a frame `b`.
fn focused_options(alloc: Global) -> Result<Options, AllocError> {
    let mut options = options_with(alloc, Pick::Preferred);
    options.filter.focus = Names::from_strs(alloc, &["b"])?;
    Ok(options)
}

fn filtered_are_read_alike<T: Threads + Wait + Copy + Send + 'static>(
    rt: &T,
    alloc: Global,
) -> Result<bool, RunFault> {
    let options = focused_options(alloc)?;
    Ok(
        four_are_read_alike(rt, alloc, &options, 3)?
            && four_are_read_alike_under_a_gate(rt, alloc, &options, 3)?,
    )
}

#[test]
fn stored_sources_and_a_filter(rt: HostRuntime) -> Result<(), Fail> {
    holds(&rt, filtered_are_read_alike(&rt, rt.alloc()))
}

/// What is wrong with each of the four sources, read strictly.
fn faults_of_four<T: Threads + Wait + Copy + Send + 'static>(
    rt: &T,
    alloc: Global,
    are_stored: bool,
) -> Result<Vec<Option<StrictFault>>, RunFault> {
    let options = options_with(alloc, Pick::Preferred);
    let run = read_four(rt, alloc, &options, Gating::Open, are_stored)?;
    strict_faults(alloc, &four_inputs(alloc, are_stored)?, run.kept.lists())
}

/// Of the second source alone nothing is wrong.
fn are_told(faults: &[Option<StrictFault>]) -> bool {
    faults.len() == 4
        && faults[0].is_some()
        && faults[1].is_none()
        && faults[2].is_some()
        && faults[3].is_some()
}

fn strict_faults_are_alike<T: Threads + Wait + Copy + Send + 'static>(
    rt: &T,
    alloc: Global,
) -> Result<bool, RunFault> {
    let stored = faults_of_four(rt, alloc, true)?;
    let loaded = faults_of_four(rt, alloc, false)?;
    Ok(stored.as_slice() == loaded.as_slice() && are_told(&stored))
}

#[test]
fn strict_faults_of_stored_sources(rt: HostRuntime) -> Result<(), Fail> {
    holds(&rt, strict_faults_are_alike(&rt, rt.alloc()))
}
