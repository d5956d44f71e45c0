//! Worked examples of profiles.

mod branches;
mod cuts;
mod depth;
mod files;
mod hostile;
mod lending;
mod messages;
mod reading;
mod rows;
mod told;
mod types;
mod weights;

use files::{
    ADDRESS, BASE, CUT_CHARACTER, FRONT, GREATEST_ID, GREATEST_LENGTH, INLINED, INLINED_LINES,
    LEAST_INDEX, MINUS_ONE, NEGATIVE, NO_FRAMES, SAMPLE_FAULTS, SEPARATORS, SMALLEST, TABLE_FAULTS,
    TWO_LINES, UNPACKED,
};
use lending::{FRAMES_OF_1, FRAMES_OF_2};
use messages::Part;
use reading::{
    BY_N, BY_X, LINES, PLAIN, ROWS, Reading, SAMPLES, Telling, VALUE, are_told, read_so, reads_as,
};
use std::alloc::AllocError;
use std::process::Abort;
use std::test::Fail;

const EMPTY: &[Telling<'static>] = &[
    (&[], PLAIN, SAMPLES, "clean"),
    (&[], PLAIN, ROWS, "clean"),
    (&[], PLAIN, VALUE, "none of 0"),
];

#[test]
fn empty_sources(rt: HostRuntime) -> Result<(), Fail> {
    are_told(&rt, EMPTY)
}

const OF_SMALLEST: &[Telling<'static>] = &[
    (&[SMALLEST], PLAIN, SAMPLES, "main 7\nclean"),
    (&[SMALLEST], PLAIN, ROWS, "main 7\nclean"),
    (&[SMALLEST], PLAIN, VALUE, "0 of 1"),
    (&[SMALLEST], PLAIN, FRAMES_OF_1, "main"),
    (&[SMALLEST], PLAIN, FRAMES_OF_2, "no location"),
];

#[test]
fn smallest_profile(rt: HostRuntime) -> Result<(), Fail> {
    are_told(&rt, OF_SMALLEST)
}

const UNKNOWN: &[Reading<'static>] = &[(&[UNPACKED], PLAIN, "main 7\nclean")];

#[test]
fn unpacked_and_unknown(rt: HostRuntime) -> Result<(), Fail> {
    read_so(&rt, UNKNOWN)
}

const INLINED_TWO: &[Reading<'static>] = &[(&[INLINED], PLAIN, "printf;memcpy 7\nclean")];

#[test]
fn inlined_frames(rt: HostRuntime) -> Result<(), Fail> {
    read_so(&rt, INLINED_TWO)
}

const PICKED: &[Reading<'static>] = &[
    (&[BASE], PLAIN, "f 9\nclean"),
    (&[BASE, Part::Bytes(b"\x70\x01")], PLAIN, "f 5\nclean"),
    (&[BASE, Part::Bytes(b"\x70\x03")], PLAIN, "f 9\nclean"),
    (&[BASE], BY_N, "f 5\nclean"),
    (&[BASE], BY_X, "UnknownSampleType at 48"),
];

#[test]
fn picking_a_value(rt: HostRuntime) -> Result<(), Fail> {
    read_so(&rt, PICKED)
}

const ONE_NEGATIVE: &[Reading<'static>] = &[
    (&[BASE, NEGATIVE], PLAIN, "f 9\nNegativeWeight at 48"),
    (&[BASE, NEGATIVE], BY_N, "f 5\nf 5\nclean"),
];

#[test]
fn negative_weight(rt: HostRuntime) -> Result<(), Fail> {
    read_so(&rt, ONE_NEGATIVE)
}

/// What stands behind `BASE` reads so.
fn each_is_read(
    rt: &(impl Abort + AllocGlobal),
    faults: &[(&[u8], &str)],
) -> Result<(), AllocError> {
    for (more, wanted) in faults {
        reads_as(rt, &[BASE, Part::Bytes(more)], &PLAIN, wanted)?;
    }
    Ok(())
}

const FAULTS_ALONE: &[Reading<'static>] = &[
    (&[Part::Bytes(b"\x32\x01\x61")], PLAIN, "BadStringZero at 0"),
    (&[Part::Bytes(b"\x12\x00")], PLAIN, "NoSampleType at 2"),
];

#[test]
fn each_profile_fault(rt: HostRuntime) -> Result<(), Fail> {
    each_is_read(&rt, SAMPLE_FAULTS)?;
    each_is_read(&rt, TABLE_FAULTS)?;
    read_so(&rt, FAULTS_ALONE)
}

const ODD_NAMES: &[Reading<'static>] = &[
    (&[ADDRESS], PLAIN, "0x1f0 7\nclean"),
    (&[ADDRESS], LINES, "0x1f0 7\nclean"),
    (&[NO_FRAMES], PLAIN, " 7\nclean"),
    (&[FRONT, SEPARATORS], PLAIN, "a:\u{fffd}  7\nclean"),
    (&[FRONT, CUT_CHARACTER], PLAIN, "\u{fffd}A\u{fffd} 7\nclean"),
];

#[test]
fn address_frames_and_lossy_names(rt: HostRuntime) -> Result<(), Fail> {
    read_so(&rt, ODD_NAMES)
}

const GREATEST_LOCATION: &[Reading<'static>] = &[(&[GREATEST_ID], PLAIN, "main 7\nclean")];

#[test]
fn greatest_location_id(rt: HostRuntime) -> Result<(), Fail> {
    read_so(&rt, GREATEST_LOCATION)
}

const GREATEST: &[Reading<'static>] = &[
    (&[GREATEST_LENGTH], PLAIN, "Truncated at 0"),
    (&[BASE, MINUS_ONE], PLAIN, "BadString at 48"),
    (&[BASE, LEAST_INDEX], PLAIN, "BadString at 48"),
];

#[test]
fn greatest_length_and_least_index(rt: HostRuntime) -> Result<(), Fail> {
    read_so(&rt, GREATEST)
}

const INLINED_READ: &[Reading<'static>] = &[
    (&[INLINED_LINES], PLAIN, "printf;memcpy 7\nclean"),
    (&[INLINED_LINES], LINES, "printf:40;memcpy:12 7\nclean"),
];

#[test]
fn lines_of_inlined_frames(rt: HostRuntime) -> Result<(), Fail> {
    read_so(&rt, INLINED_READ)
}

const TWO_LINES_READ: &[Reading<'static>] = &[
    (&[TWO_LINES], PLAIN, "f 1\nf 1\nclean"),
    (&[TWO_LINES], LINES, "f:1 1\nf:2 1\nclean"),
];

#[test]
fn one_function_two_lines(rt: HostRuntime) -> Result<(), Fail> {
    read_so(&rt, TWO_LINES_READ)
}
