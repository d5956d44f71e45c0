//! A long source that comes alone, loaded or stored, which is read in parts, beside the same source read by one reader.

ghost use Rattle.std.specs.Prelude.{◌≡◌, ◌≤◌, IfOk, length};

mod long_sources;

use super::stored::stored_input;
use super::{input_of, options_with};
use crate::tests::holds;
use long_sources::{
    COMPRESSED, Long, PROFILES, Repeated, Section, TEXTS, TOO_HEAVY, WITH_BAD_TABLES, WITH_FAULT,
};
use run_options::{Format, Pick};
use source_lists::{Gating, Input, Run, RunFault, read};
use stack_core::{NoSink, OpenGate, SourceEnd, SourceList};
use std::alloc::{AllocError, Global};
use std::sync::{Arc, Wait};
use std::test::Fail;
use std::thread::Threads;

pub(super) fn one_input(
    alloc: Global,
    format: Format,
    bytes: &[u8],
) -> Result<Vec<Input>, AllocError>
    ensures { IfOk result (λ inputs. length inputs.items ≡ 1) }
{
    Ok(vec![in alloc; input_of(alloc, format, bytes)?]?)
}

pub(super) fn one_stored(
    alloc: Global,
    format: Format,
    bytes: &[u8],
) -> Result<Vec<Input>, AllocError>
    ensures { IfOk result (λ inputs. length inputs.items ≡ 1) }
{
    Ok(vec![in alloc; stored_input(alloc, format, bytes)?]?)
}

/// A gate that never stops, which makes each source be read by one reader.
pub(super) fn one_reader_each(alloc: Global) -> Result<Gating<OpenGate>, AllocError> {
    Ok(Gating::Asked(Arc::new(alloc, OpenGate)?))
}

fn read_as_parts<T: Threads + Wait + Copy + Send + 'static>(
    rt: &T,
    alloc: Global,
    format: Format,
    bytes: &[u8],
) -> Result<Run, RunFault> {
    read_open(rt, alloc, one_input(alloc, format, bytes)?)
}

/// A run in which no gate is asked.
pub(super) fn read_open<T: Threads + Wait + Copy + Send + 'static>(
    rt: &T,
    alloc: Global,
    inputs: Vec<Input>,
) -> Result<Run, RunFault>
    requires { length inputs.items ≤ 64 }
{
    let options = options_with(alloc, Pick::Preferred);
    let gating = Gating::<OpenGate>::Open;
    read(rt, alloc, inputs, &options, gating, &mut NoSink::new())
}

pub(super) fn read_as_one<T: Threads + Wait + Copy + Send + 'static>(
    rt: &T,
    alloc: Global,
    format: Format,
    bytes: &[u8],
) -> Result<Run, RunFault> {
    let inputs = one_input(alloc, format, bytes)?;
    let options = options_with(alloc, Pick::Preferred);
    let gating = one_reader_each(alloc)?;
    read(rt, alloc, inputs, &options, gating, &mut NoSink::new())
}

fn has_same_sample(one: &SourceList, other: &SourceList, at: usize) -> bool {
    if at >= one.len() || at >= other.len() || one.depth(at) != other.depth(at) {
        return false;
    }
    for depth in 0..one.depth(at) {
        if one.name(at, depth) != other.name(at, depth) {
            return false;
        }
    }
    one.weight(at) == other.weight(at)
}

pub(super) fn have_same_samples(one: &SourceList, other: &SourceList) -> bool {
    for at in 0..one.len() {
        if !has_same_sample(one, other, at) {
            return false;
        }
    }
    one.len() == other.len()
}

fn end_so(one: &SourceList, other: &SourceList, ending: SourceEnd) -> bool {
    *one.ending() == ending && *other.ending() == ending
}

/// Each run has one list, of the same samples and with this ending.
fn are_alike(one: &Run, other: &Run, ending: SourceEnd) -> bool {
    let (one, other) = (one.kept.lists(), other.kept.lists());
    one.len() == 1
        && other.len() == 1
        && have_same_samples(&one[0], &other[0])
        && end_so(&one[0], &other[0], ending)
}

/// The run is that of one reader over these bytes.
pub(super) fn is_as_read_by_one<T: Threads + Wait + Copy + Send + 'static>(
    rt: &T,
    alloc: Global,
    format: Format,
    bytes: &[u8],
    run: &Run,
    ending: SourceEnd,
) -> Result<bool, RunFault> {
    let one = read_as_one(rt, alloc, format, bytes)?;
    Ok(are_alike(run, &one, ending))
}

fn append_all(out: &mut Vec<u8>, all: &[Repeated]) -> Result<(), AllocError> {
    for (bytes, times) in all {
        for _ in 0..*times {
            out.extend_from_slice(bytes)?;
        }
    }
    Ok(())
}

fn append_sections(out: &mut Vec<u8>, sections: &[Section]) -> Result<(), AllocError> {
    for (bytes, times) in sections {
        for _ in 0..*times {
            append_all(out, bytes)?;
        }
    }
    Ok(())
}

/// A long text of few stacks, which is read in parts.
pub(super) fn long_text(alloc: Global) -> Result<Vec<u8>, AllocError> {
    let mut bytes = Vec::new(alloc);
    let (_, sections, _) = TEXTS[0];
    append_sections(&mut bytes, sections)?;
    Ok(bytes)
}

fn is_read_alike<T: Threads + Wait + Copy + Send + 'static>(
    rt: &T,
    alloc: Global,
    bytes: &mut Vec<u8>,
    source: &Long,
) -> Result<bool, RunFault> {
    let (format, sections, ending) = *source;
    append_sections(bytes, sections)?;
    let parts = read_as_parts(rt, alloc, format, bytes)?;
    is_as_read_by_one(rt, alloc, format, bytes, &parts, ending)
}

/// The same of a source that is stored.
fn is_stored_alike<T: Threads + Wait + Copy + Send + 'static>(
    rt: &T,
    alloc: Global,
    bytes: &mut Vec<u8>,
    source: &Long,
) -> Result<bool, RunFault> {
    let (format, sections, ending) = *source;
    append_sections(bytes, sections)?;
    let parts = read_open(rt, alloc, one_stored(alloc, format, bytes)?)?;
    is_as_read_by_one(rt, alloc, format, bytes, &parts, ending)
}

/// Each source, loaded or stored and read in parts, is as read by one reader.
fn are_read_alike<T: Threads + Wait + Copy + Send + 'static>(
    rt: &T,
    alloc: Global,
    sources: &[Long],
) -> Result<bool, RunFault> {
    for source in sources {
        if !is_read_alike(rt, alloc, &mut Vec::new(alloc), source)?
            || !is_stored_alike(rt, alloc, &mut Vec::new(alloc), source)?
        {
            return Ok(false);
        }
    }
    Ok(true)
}

#[test]
fn long_texts_in_parts(rt: HostRuntime) -> Result<(), Fail> {
    holds(&rt, are_read_alike(&rt, rt.alloc(), TEXTS))
}

#[test]
fn fault_of_a_long_text(rt: HostRuntime) -> Result<(), Fail> {
    holds(&rt, are_read_alike(&rt, rt.alloc(), WITH_FAULT))
}

#[test]
fn long_text_that_weighs_too_much(rt: HostRuntime) -> Result<(), Fail> {
    holds(&rt, are_read_alike(&rt, rt.alloc(), TOO_HEAVY))
}

#[test]
fn long_compressed_text(rt: HostRuntime) -> Result<(), Fail> {
    holds(&rt, are_read_alike(&rt, rt.alloc(), COMPRESSED))
}

#[test]
fn long_profiles_in_parts(rt: HostRuntime) -> Result<(), Fail> {
    holds(&rt, are_read_alike(&rt, rt.alloc(), PROFILES))
}

#[test]
fn long_profile_of_bad_tables(rt: HostRuntime) -> Result<(), Fail> {
    holds(&rt, are_read_alike(&rt, rt.alloc(), WITH_BAD_TABLES))
}

/// How many names and stacks the one list of a run has.
fn has_counts(run: &Run, names: usize, stacks: usize) -> bool {
    let lists = run.kept.lists();
    lists.len() == 1 && lists[0].told() == names && lists[0].stack_count() == stacks
}

/// The source has so many names and stacks where it is read in parts.
fn parts_have_counts<T: Threads + Wait + Copy + Send + 'static>(
    rt: &T,
    alloc: Global,
    bytes: &mut Vec<u8>,
    source: &Long,
    names: usize,
    stacks: usize,
) -> Result<bool, RunFault> {
    let (format, sections, _) = *source;
    append_sections(bytes, sections)?;
    let run = read_as_parts(rt, alloc, format, bytes)?;
    Ok(has_counts(&run, names, stacks))
}

/// Each part has the same names and stacks, but for those of one line.
#[test]
fn names_and_stacks_of_parts_of_a_text(rt: HostRuntime) -> Result<(), Fail> {
    let text = &mut Vec::new(rt.alloc());
    holds(
        &rt,
        parts_have_counts(&rt, rt.alloc(), text, &TEXTS[0], 7, 4),
    )
}

/// A sample of its own stands in the last part, whose stack is a function that other stacks have too.
#[test]
fn names_and_stacks_of_parts_of_a_profile(rt: HostRuntime) -> Result<(), Fail> {
    let profile = &mut Vec::new(rt.alloc());
    holds(
        &rt,
        parts_have_counts(&rt, rt.alloc(), profile, &PROFILES[0], 2, 3),
    )
}
