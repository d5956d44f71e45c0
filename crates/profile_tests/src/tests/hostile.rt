//! Profiles of a few megabytes whose frames, each with a name of its own, would take tens of gigabytes.

use super::messages::Part;
use super::reading::{PLAIN, Reading, read_so};
use std::test::Fail;

const TYPE: Part<'static> = Part::Bytes(b"\x0a\x04\x08\x01\x10\x02");

/// The string table, in which the string of a megabyte is 3, and `f` is 4.
const STRINGS: Part<'static> = Part::Bytes(b"\x32\x00\x32\x03cpu\x32\x02ns\x32\x80\x80\x40");

const LONG_NAME: Part<'static> = Part::Times(1 << 20, b"x");

const SHORT_NAME: Part<'static> = Part::Bytes(b"\x32\x01f");

/// A sample of weight 7 at the location of this id.
const AT_1: Part<'static> = Part::Bytes(b"\x12\x04\x10\x07\x08\x01");

const AT_2: Part<'static> = Part::Bytes(b"\x12\x04\x10\x07\x08\x02");

const AT_40000: Part<'static> = Part::Bytes(b"\x12\x06\x10\x07\x08\xc0\xb8\x02");

/// Location 1 with 40,000 lines of function 1, and location 2 with one line of function 2.
const FRONT_OF_1: Part<'static> = Part::Bytes(b"\x22\x82\xe2\x09\x08\x01");

const LINES_OF_1: Part<'static> = Part::Times(40_000, b"\x22\x02\x08\x01");

const LOCATION_2: Part<'static> = Part::Bytes(b"\x22\x06\x08\x02\x22\x02\x08\x02");

/// Function 1 has the long name, and function 2 is `f`.
const FUNCTIONS: Part<'static> = Part::Bytes(b"\x2a\x04\x08\x01\x10\x03\x2a\x04\x08\x02\x10\x04");

/// Locations 1 to 39,999, each with a line of a function of the same id, which has the long name.
const LONG_NAMES: Part<'static> = Part::Numbered(
    39_999,
    &[b"\x22\x0a\x08", b"\x22\x04\x08", b"\x2a\x06\x10\x03\x08"],
);

/// Location 40,000 with a line of function 40,000, which is `f`.
const LAST: Part<'static> = Part::Bytes(
    b"\x22\x0a\x08\xc0\xb8\x02\x22\x04\x08\xc0\xb8\x02\x2a\x06\x10\x04\x08\xc0\xb8\x02",
);

const READ: &[Reading<'static>] = &[
    (
        &[
            TYPE, AT_2, FRONT_OF_1, LINES_OF_1, LOCATION_2, FUNCTIONS, STRINGS, LONG_NAME,
            SHORT_NAME,
        ],
        PLAIN,
        "f 7\nclean",
    ),
    (
        &[
            TYPE, AT_40000, LONG_NAMES, LAST, STRINGS, LONG_NAME, SHORT_NAME,
        ],
        PLAIN,
        "f 7\nclean",
    ),
];

#[test]
fn long_name_is_kept_once(rt: HostRuntime) -> Result<(), Fail> {
    read_so(&rt, READ)
}

const TOO_DEEP: &[Reading<'static>] = &[(
    &[
        TYPE, AT_1, FRONT_OF_1, LINES_OF_1, LOCATION_2, FUNCTIONS, STRINGS, LONG_NAME, SHORT_NAME,
    ],
    PLAIN,
    "TooDeep at 6",
)];

#[test]
fn deep_sample_is_not_made(rt: HostRuntime) -> Result<(), Fail> {
    read_so(&rt, TOO_DEEP)
}
