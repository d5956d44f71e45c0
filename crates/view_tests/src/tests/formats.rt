//! What the bytes of a source stand for, as its list has it, where they have no fault.

use super::shown::{Given, Part, is_read, plain};
use super::stated::{CLEAN, Stated};
use crate::tests::holds;
use flame_tool::Format;
use ring_collect::CollectFault;
use stack_core::{OpenGate, SourceEnd};
use std::alloc::Global;
use std::sync::Wait;
use std::test::Fail;
use std::thread::Threads;

/// A source: its format, the parts of its bytes, and its samples.
pub(super) type Whole = (Format, &'static [Part], &'static [Stated]);

/// The list of the source is this.
pub(super) fn reads_to<T: Threads + Wait + Copy + Send + 'static>(
    rt: &T,
    alloc: Global,
    source: Whole,
    ending: SourceEnd,
) -> Result<bool, CollectFault> {
    let (format, parts, samples) = source;
    let given: [Given; 1] = [(format, parts)];
    let mut total = 0u128;
    for (_, weight) in samples {
        total = total.saturating_add(u128::from(*weight));
    }
    let options = plain(alloc, 4, None);
    let wanted = [(samples, 1, ending)];
    is_read(rt, alloc, &given, &options, OpenGate, (&wanted, total))
}

fn read_whole<T: Threads + Wait + Copy + Send + 'static>(
    rt: &T,
    alloc: Global,
    sources: &[Whole],
) -> Result<bool, CollectFault> {
    for source in sources {
        if !reads_to(rt, alloc, *source, CLEAN)? {
            return Ok(false);
        }
    }
    Ok(true)
}

const EMPTY_NAMES: Whole = (
    Format::Folded,
    &[(b" 5\na; 1\na;;b 1\n\na x\na 5 \n", 1)],
    &[(&[], 5), (&["a"], 1), (&["a", "", "b"], 1)],
);

const ODD_LINE_ENDS: Whole = (
    Format::Folded,
    &[(b"a 1\r\nc\t007\nb 2\r", 1)],
    &[(&["a"], 1), (&["c"], 7)],
);

#[test]
fn lines_that_are_ignored(rt: HostRuntime) -> Result<(), Fail> {
    let three = SourceEnd::Clean { ignored: 3 };
    holds(&rt, reads_to(&rt, rt.alloc(), EMPTY_NAMES, three))?;
    let one = SourceEnd::Clean { ignored: 1 };
    holds(&rt, reads_to(&rt, rt.alloc(), ODD_LINE_ENDS, one))
}

// A profile of one sample type, `cpu` in `ns`, and one sample of `main` with 7, field by field.
pub(super) const TYPE: Part = (&[0x0a, 0x04, 0x08, 0x01, 0x10, 0x02], 1);

pub(super) const SAMPLE: Part = (&[0x12, 0x06, 0x0a, 0x01, 0x01, 0x12, 0x01, 0x07], 1);

pub(super) const LOCATION: Part = (&[0x22, 0x06, 0x08, 0x01, 0x22, 0x02, 0x08, 0x01], 1);

pub(super) const FUNCTION: Part = (&[0x2a, 0x04, 0x08, 0x01, 0x10, 0x03], 1);

pub(super) const NO_TEXT: Part = (&[0x32, 0x00], 1);

pub(super) const CPU: Part = (&[0x32, 0x03, 0x63, 0x70, 0x75], 1);

pub(super) const NS: Part = (&[0x32, 0x02, 0x6e, 0x73], 1);

const MAIN: Part = (&[0x32, 0x04, 0x6d, 0x61, 0x69, 0x6e], 1);

// A field that nobody knows, and the sample with each number by itself, the 7 in two bytes.
const UNKNOWN: Part = (&[0x98, 0x06, 0x2a], 1);

const UNPACKED: Part = (&[0x12, 0x05, 0x08, 0x01, 0x10, 0x87, 0x00], 1);

// `memcpy` inlined into `printf`: the location with both lines, and what follows it.
const INLINED: Part = (
    &[
        0x22, 0x0a, 0x08, 0x01, 0x22, 0x02, 0x08, 0x01, 0x22, 0x02, 0x08, 0x02, 0x2a, 0x04, 0x08,
        0x01, 0x10, 0x03, 0x2a, 0x04, 0x08, 0x02, 0x10, 0x04, 0x32, 0x00, 0x32, 0x03, 0x63, 0x70,
        0x75, 0x32, 0x02, 0x6e, 0x73, 0x32, 0x06, 0x6d, 0x65, 0x6d, 0x63, 0x70, 0x79, 0x32, 0x06,
        0x70, 0x72, 0x69, 0x6e, 0x74, 0x66,
    ],
    1,
);

// A location without lines, at 0x1f0, and a sample without locations.
const ADDRESS: Part = (&[0x22, 0x05, 0x08, 0x01, 0x18, 0xf0, 0x03], 1);

const NO_STACK: Part = (&[0x12, 0x03, 0x12, 0x01, 0x07], 1);

// Names that are no UTF-8, or have a `;` and a line feed.
const ODD: Part = (&[0x32, 0x04, 0x61, 0x3b, 0xff, 0x0a], 1);

const CUT: Part = (&[0x32, 0x04, 0xe2, 0x82, 0x41, 0xc0], 1);

const WHOLE_PROFILES: &[Whole] = &[
    (
        Format::Pprof,
        &[TYPE, SAMPLE, LOCATION, FUNCTION, NO_TEXT, CPU, NS, MAIN],
        &[(&["main"], 7)],
    ),
    (
        Format::Pprof,
        &[
            UNKNOWN, TYPE, UNPACKED, LOCATION, FUNCTION, NO_TEXT, CPU, NS, MAIN,
        ],
        &[(&["main"], 7)],
    ),
    (
        Format::Pprof,
        &[TYPE, SAMPLE, INLINED],
        &[(&["printf", "memcpy"], 7)],
    ),
    (
        Format::Pprof,
        &[TYPE, SAMPLE, ADDRESS, NO_TEXT, CPU, NS],
        &[(&["0x1f0"], 7)],
    ),
    (
        Format::Pprof,
        &[TYPE, NO_STACK, ADDRESS, NO_TEXT, CPU, NS],
        &[(&[], 7)],
    ),
    (
        Format::Pprof,
        &[TYPE, SAMPLE, LOCATION, FUNCTION, NO_TEXT, CPU, NS, ODD],
        &[(&["a:\u{fffd} "], 7)],
    ),
    (
        Format::Pprof,
        &[TYPE, SAMPLE, LOCATION, FUNCTION, NO_TEXT, CPU, NS, CUT],
        &[(&["\u{fffd}A\u{fffd}"], 7)],
    ),
];

#[test]
fn whole_profiles(rt: HostRuntime) -> Result<(), Fail> {
    holds(&rt, read_whole(&rt, rt.alloc(), WHOLE_PROFILES))
}
