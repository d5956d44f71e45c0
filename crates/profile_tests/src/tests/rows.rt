//! Profiles that are read by rows.

use super::files::{BASE, SMALLEST, TWO_LINES};
use super::messages::{Part, joined};
use super::reading::{LINES, NEW_NAMES, NUMBERS, PLAIN, ROWS, SAMPLES, Telling, are_told, is_told};
use std::alloc::AllocError;
use std::process::Abort;
use std::test::Fail;

/// A sample of the same location as that of the smallest profile: packed with weight 5, unpacked, and packed with labels behind.
const THREE_SPELLINGS: Part<'static> = Part::Bytes(
    b"\x12\x06\x0a\x01\x01\x12\x01\x05\x12\x04\x08\x01\x10\x06\
\x12\x08\x0a\x01\x01\x12\x01\x08\x1a\x00",
);

const SPELLED: &[Part<'static>] = &[SMALLEST, THREE_SPELLINGS];

const OF_SPELLED: &[Telling<'static>] = &[
    (
        SPELLED,
        PLAIN,
        SAMPLES,
        "main 7\nmain 5\nmain 6\nmain 8\nclean",
    ),
    (
        SPELLED,
        PLAIN,
        ROWS,
        "main 7\nmain 5\nmain 6\nmain 8\nclean",
    ),
    (SPELLED, PLAIN, NUMBERS, "0 new\n0\n1 new\n0\n"),
];

#[test]
fn packed_and_unpacked_ids(rt: HostRuntime) -> Result<(), Fail> {
    are_told(&rt, OF_SPELLED)
}

/// A sample whose ids are packed in two runs, or in a run and a single one, is not known by its first run.
const SPLIT_IDS: Part<'static> = Part::Bytes(
    b"\x12\x09\x0a\x01\x01\x0a\x01\x01\x12\x01\x05\x12\x08\x0a\x01\x01\x08\x01\x12\x01\x06",
);

const SPLIT: &[Part<'static>] = &[SMALLEST, SPLIT_IDS];

const OF_SPLIT: &[Telling<'static>] = &[
    (
        SPLIT,
        PLAIN,
        SAMPLES,
        "main 7\nmain;main 5\nmain;main 6\nclean",
    ),
    (
        SPLIT,
        PLAIN,
        ROWS,
        "main 7\nmain;main 5\nmain;main 6\nclean",
    ),
    (SPLIT, PLAIN, NUMBERS, "0 new\n1 new\n2 new\n"),
];

#[test]
fn split_ids(rt: HostRuntime) -> Result<(), Fail> {
    are_told(&rt, OF_SPLIT)
}

const NAMES_OF_LINES: &[Telling<'static>] = &[
    (&[TWO_LINES], PLAIN, NEW_NAMES, "1"),
    (&[TWO_LINES], LINES, NEW_NAMES, "2"),
];

/// One function at two lines has one name, or two.
#[test]
fn one_name_of_two_locations(rt: HostRuntime) -> Result<(), Fail> {
    are_told(&rt, NAMES_OF_LINES)
}

/// The smallest profile with 99,999 more samples of its stack.
const MANY: &[Part<'static>] = &[
    SMALLEST,
    Part::Times(99_999, b"\x12\x06\x0a\x01\x01\x12\x01\x07"),
];

const ROWS_OF_MANY: &[Part<'static>] = &[Part::Bytes(b"0 new\n"), Part::Times(99_999, b"0\n")];

fn many_are_one_row(rt: &(impl Abort + AllocGlobal)) -> Result<(), AllocError> {
    let rows = joined(rt.alloc(), ROWS_OF_MANY)?;
    is_told(
        rt,
        MANY,
        &PLAIN,
        &NUMBERS,
        str::from_utf8(&rows).expect(rt, "a text"),
    )
}

/// Of so many equal samples the first tells the stack, and each other one gives its number: that takes no memory.
#[test]
fn many_equal_samples(rt: HostRuntime) -> Result<(), Fail> {
    many_are_one_row(&rt)?;
    Ok(())
}

/// Samples of 500 locations, whose names are all new, and the strings.
const MANY_NAMES: &[Part<'static>] = &[
    Part::Bytes(b"\x0a\x04\x08\x01\x10\x02"),
    Part::Numbered(500, &[b"\x12\x06\x10\x07\x08", b"\x22\x08\x08", b"\x18"]),
    Part::Bytes(b"\x32\x00\x32\x03cpu\x32\x02ns"),
];

const NAMES_TOLD: &[Telling<'static>] = &[
    (MANY_NAMES, PLAIN, NEW_NAMES, "500"),
    (&[BASE], PLAIN, NEW_NAMES, "1"),
];

#[test]
fn each_name_is_told_once(rt: HostRuntime) -> Result<(), Fail> {
    are_told(&rt, NAMES_TOLD)
}
