//! The limit of a stack's frames.

use super::messages::Part;
use super::reading::{Asked, OfReader, PLAIN, Telling, append_ending, are_told};
use stack_core::{SampleReader, Step};
use std::alloc::{AllocError, Global};
use std::test::Fail;

fn append_depth_of(text: &mut String, step: &Step) -> Result<(), AllocError> {
    match step {
        Step::Sample(sample) => write!(text, "{} frames", sample.stack.get().len()),
        Step::End(ending) => append_ending(text, *ending),
    }
}

/// Appends how deep a reader's first sample is, or the ending.
pub(super) fn append_depth<R: SampleReader>(
    alloc: Global,
    reader: &mut R,
    text: &mut String,
) -> Result<(), AllocError> {
    let step = reader.next(alloc)?;
    append_depth_of(text, &step)
}

const DEPTH: Asked = Asked::Reader(OfReader::Depth);

const TYPE: Part<'static> = Part::Bytes(b"\x0a\x04\x08\x01\x10\x02");

/// Function 1, and the strings.
const TABLES: Part<'static> = Part::Bytes(
    b"\x2a\x04\x08\x01\x10\x03\x32\x00\x32\x03cpu\x32\x02ns\x32\x01f",
);

/// A sample of weight 7 at location 1, and that location with one line of function 1.
const ONE_ID: Part<'static> = Part::Bytes(b"\x12\x84\x80\x00\x10\x07\x08\x01");

const ONE_LINE: Part<'static> = Part::Bytes(b"\x22\x86\x80\x00\x08\x01\x22\x02\x08\x01");

/// The front of such a sample that names its location 4,096 times, and of one that does once more.
const FRONT_OF_DEEPEST: Part<'static> = Part::Bytes(b"\x12\x82\xc0\x00\x10\x07");

const FRONT_OF_DEEPER: Part<'static> = Part::Bytes(b"\x12\x84\xc0\x00\x10\x07");

/// The front of such a location that has 4,096 lines, and of one that has one more.
const FRONT_OF_MOST_LINES: Part<'static> = Part::Bytes(b"\x22\x82\x80\x01\x08\x01");

const FRONT_OF_MORE_LINES: Part<'static> = Part::Bytes(b"\x22\x86\x80\x01\x08\x01");

const ID: &[u8] = b"\x08\x01";

const LINE: &[u8] = b"\x22\x02\x08\x01";

const DEPTHS: &[Telling<'static>] = &[
    (
        &[
            TYPE,
            FRONT_OF_DEEPEST,
            Part::Times(4_096, ID),
            ONE_LINE,
            TABLES,
        ],
        PLAIN,
        DEPTH,
        "4096 frames",
    ),
    (
        &[
            TYPE,
            FRONT_OF_DEEPER,
            Part::Times(4_097, ID),
            ONE_LINE,
            TABLES,
        ],
        PLAIN,
        DEPTH,
        "TooDeep at 6",
    ),
    (
        &[
            TYPE,
            ONE_ID,
            FRONT_OF_MOST_LINES,
            Part::Times(4_096, LINE),
            TABLES,
        ],
        PLAIN,
        DEPTH,
        "4096 frames",
    ),
    (
        &[
            TYPE,
            ONE_ID,
            FRONT_OF_MORE_LINES,
            Part::Times(4_097, LINE),
            TABLES,
        ],
        PLAIN,
        DEPTH,
        "TooDeep at 6",
    ),
];

#[test]
fn limits_of_weights_and_depth_by_depth(rt: HostRuntime) -> Result<(), Fail> {
    are_told(&rt, DEPTHS)
}
