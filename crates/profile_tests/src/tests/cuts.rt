//! Profiles that are cut short.

use super::files::{
    ADDRESS, BASE, CUT_CHARACTER, FRONT, GREATEST_ID, GREATEST_LENGTH, INLINED, INLINED_LINES,
    LEAST_INDEX, MINUS_ONE, NEGATIVE, NO_FRAMES, SAMPLE_FAULTS, SEPARATORS, SMALLEST,
    SMALLEST_BYTES, TABLE_FAULTS, TWO_LINES, UNPACKED,
};
use super::messages::{Part, joined};
use super::reading::{
    Asked, ENDLESS, LINES, OfReader, PLAIN, Reading, append_samples, is_told, read_so, reads_as,
};
use stack_core::SampleReader;
use std::alloc::{AllocError, Global};
use std::process::Abort;
use std::test::Fail;

const COMPRESSED: &[Reading<'static>] = &[(
    &[Part::Bytes(b"\x1f\x8b\x08")],
    PLAIN,
    "Compressed at 0",
)];

/// How the smallest profile ends where fewer than so many of its first bytes are there, and no fewer than the row before says.
const ENDINGS: &[(usize, &str)] = &[
    (1, "clean"),
    (6, "Truncated at 0"),
    (7, "BadString at 0"),
    (14, "Truncated at 6"),
    (15, "BadString at 0"),
    (22, "Truncated at 14"),
    (23, "BadString at 0"),
    (28, "Truncated at 22"),
    (29, "BadString at 0"),
    (30, "Truncated at 28"),
    (31, "BadString at 0"),
    (35, "Truncated at 30"),
    (36, "BadString at 0"),
    (39, "Truncated at 35"),
    (40, "BadString at 22"),
    (45, "Truncated at 39"),
];

/// The smallest profile, of which so many of its first bytes are there, ends so.
fn fronts_read(
    rt: &(impl Abort + AllocGlobal),
    first: usize,
    limit: usize,
    ending: &str,
) -> Result<(), AllocError> {
    for len in first..limit {
        let front = SMALLEST_BYTES.get(..len).expect(rt, "a front");
        reads_as(rt, &[Part::Bytes(front)], &PLAIN, ending)?;
    }
    Ok(())
}

fn all_fronts_read(rt: &(impl Abort + AllocGlobal)) -> Result<(), AllocError> {
    let mut first = 0;
    for (limit, ending) in ENDINGS {
        fronts_read(rt, first, *limit, ending)?;
        first = *limit;
    }
    Ok(())
}

#[test]
fn compressed_and_cut(rt: HostRuntime) -> Result<(), Fail> {
    all_fronts_read(&rt)?;
    read_so(&rt, COMPRESSED)
}

/// Whether the text of samples has an ending behind them, which came again. A line of a sample ends in a line feed.
fn has_ending(text: &str) -> bool {
    !text.is_empty() && !text.ends_with("\n") && !text.ends_with(ENDLESS)
}

pub(super) fn append_whether_it_ends<R: SampleReader>(
    alloc: Global,
    reader: &mut R,
    text: &mut String,
) -> Result<(), AllocError> {
    append_samples(alloc, reader, text)?;
    let ends = has_ending(text.as_str());
    text.clear();
    text.push_str(if ends { "ends" } else { ENDLESS })
}

const ENDS: Asked = Asked::Reader(OfReader::Ends);

/// Each front of a file, read with lines, ends, and its ending comes again.
fn each_front_ends(rt: &(impl Abort + AllocGlobal), file: &[u8]) -> Result<(), AllocError> {
    for len in 0..=file.len() {
        let front = file.get(..len).expect(rt, "a front");
        is_told(rt, &[Part::Bytes(front)], &LINES, &ENDS, "ends")?;
    }
    Ok(())
}

/// The same of a file that is given in parts.
fn each_front_of_parts_ends(
    rt: &(impl Abort + AllocGlobal),
    parts: &[Part<'_>],
) -> Result<(), AllocError> {
    let file = joined(rt.alloc(), parts)?;
    each_front_ends(rt, &file)
}

/// The same of many.
fn cuts_end(rt: &(impl Abort + AllocGlobal), files: &[&[Part<'_>]]) -> Result<(), Fail> {
    for parts in files {
        each_front_of_parts_ends(rt, parts)?;
    }
    Ok(())
}

const FILES: &[&[Part<'static>]] = &[
    &[SMALLEST],
    &[UNPACKED],
    &[INLINED],
    &[BASE],
    &[ADDRESS],
    &[NO_FRAMES],
    &[GREATEST_ID],
    &[INLINED_LINES],
    &[TWO_LINES],
    &[GREATEST_LENGTH],
    &[FRONT, SEPARATORS],
    &[FRONT, CUT_CHARACTER],
];

#[test]
fn cut_profiles_end(rt: HostRuntime) -> Result<(), Fail> {
    cuts_end(&rt, FILES)
}

const MORE_FILES: &[&[Part<'static>]] = &[
    &[BASE, Part::Bytes(b"\x70\x01")],
    &[BASE, Part::Bytes(b"\x70\x03")],
    &[BASE, NEGATIVE],
    &[BASE, MINUS_ONE],
    &[BASE, LEAST_INDEX],
    &[Part::Bytes(b"\x32\x01\x61")],
    &[Part::Bytes(b"\x12\x00")],
];

/// What gives a fault behind `BASE`, cut short, ends too.
fn cut_faults_end(
    rt: &(impl Abort + AllocGlobal),
    faults: &[(&[u8], &str)],
) -> Result<(), AllocError> {
    for (more, _) in faults {
        each_front_of_parts_ends(rt, &[BASE, Part::Bytes(more)])?;
    }
    Ok(())
}

#[test]
fn cut_profiles_behind_base_end(rt: HostRuntime) -> Result<(), Fail> {
    cut_faults_end(&rt, SAMPLE_FAULTS)?;
    cut_faults_end(&rt, TABLE_FAULTS)?;
    cuts_end(&rt, MORE_FILES)
}
