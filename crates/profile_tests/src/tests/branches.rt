//! Worked examples of what few profiles hold.

use super::files::{
    BASE, MIXED_IDS, NAMELESS, NEGATIVE_LINE, NO_ADDRESS, NO_FUNCTION, SAME_TYPES, SMALLEST_BYTES,
    SYSTEM_NAME,
};
use super::messages::Part;
use super::reading::{BY_N, LINES, PLAIN, Reading, read_so, reader_over};
use profile_tables::{Naming, Pick, PprofReader};
use stack_core::{Sample, SampleReader, SourceEnd, Step};
use std::alloc::{AllocError, Global};
use std::process::Abort;
use std::test::Fail;

const NAMES: &[Reading<'static>] = &[
    (&[NAMELESS], PLAIN, "[unknown] 7\nclean"),
    (&[NAMELESS], LINES, "[unknown]:3 7\nclean"),
    (&[SYSTEM_NAME], PLAIN, "_m 7\nclean"),
    (&[NO_ADDRESS], PLAIN, "0x0 7\nclean"),
    (&[NO_FUNCTION], PLAIN, "0x1f0 7\nclean"),
    (&[NO_FUNCTION], LINES, "0x1f0 7\nclean"),
    (&[NEGATIVE_LINE], LINES, "main 7\nclean"),
];

#[test]
fn names_and_addresses(rt: HostRuntime) -> Result<(), Fail> {
    read_so(&rt, NAMES)
}

/// The second is good, and the second is bad.
const TWO_DEFAULTS: &[Reading<'static>] = &[
    (
        &[BASE, Part::Bytes(b"\x70\x04\x70\x01")],
        PLAIN,
        "f 5\nclean",
    ),
    (
        &[BASE, Part::Bytes(b"\x70\x01\x70\x04")],
        PLAIN,
        "BadString at 50",
    ),
];

#[test]
fn default_twice(rt: HostRuntime) -> Result<(), Fail> {
    read_so(&rt, TWO_DEFAULTS)
}

const ONE_NAME: &[Reading<'static>] = &[
    (&[SAME_TYPES], BY_N, "f 5\nclean"),
    (&[SAME_TYPES, Part::Bytes(b"\x70\x01")], PLAIN, "f 5\nclean"),
    (&[SAME_TYPES], PLAIN, "f 9\nclean"),
];

#[test]
fn types_of_one_name(rt: HostRuntime) -> Result<(), Fail> {
    read_so(&rt, ONE_NAME)
}

const MIXED: &[Reading<'static>] = &[(&[MIXED_IDS], PLAIN, "b;a;b;a 7\nclean")];

#[test]
fn mixed_ids(rt: HostRuntime) -> Result<(), Fail> {
    read_so(&rt, MIXED)
}

const GZIP: &[Reading<'static>] = &[(&[Part::Bytes(b"\x1f\x8b")], PLAIN, "Compressed at 0")];

#[test]
fn gzip_alone(rt: HostRuntime) -> Result<(), Fail> {
    read_so(&rt, GZIP)
}

fn has_one_frame(rt: &impl Abort, sample: &Sample) {
    assert!(rt; sample.weight == 7);
    assert!(rt; sample.stack.get().len() == 1);
}

/// The lines of README.md behind the first.
fn reads_one_sample(rt: &impl Abort, alloc: Global, reader: &mut PprofReader) -> Result<(), Fail> {
    if let Step::Sample(sample) = reader.next(alloc)? {
        has_one_frame(rt, &sample);
    }
    ends_clean(rt, &reader.next(alloc)?);
    Ok(())
}

fn ends_clean(rt: &impl Abort, step: &Step) {
    assert!(rt; *step == Step::End(SourceEnd::Clean { ignored: 0 }));
}

#[test]
fn example_of_the_page(rt: HostRuntime) -> Result<(), Fail> {
    let bytes = SMALLEST_BYTES.to_vec(rt.alloc())?;
    let mut reader = reader_over(bytes, Pick::Preferred, Naming::Plain);
    reads_one_sample(&rt, rt.alloc(), &mut reader)
}
