//! The limit of a source's total weight.

use super::files::SMALLEST;
use super::messages::Part;
use super::reading::{PLAIN, Reading, read_so};
use std::test::Fail;

/// A sample that takes the total of the smallest profile to 2^56-1.
const THE_REST: Part<'static> = Part::Bytes(
    b"\x12\x0d\x0a\x01\x01\x12\x08\xf8\xff\xff\xff\xff\xff\xff\x7f",
);

/// A sample that weighs nothing.
const NOTHING: Part<'static> = Part::Bytes(b"\x12\x06\x0a\x01\x01\x12\x01\x00");

/// A sample of weight 1.
const ONE: Part<'static> = Part::Bytes(b"\x12\x06\x0a\x01\x01\x12\x01\x01");

const WEIGHTS: &[Reading<'static>] = &[
    (
        &[SMALLEST, THE_REST, NOTHING],
        PLAIN,
        "main 7\nmain 72057594037927928\nmain 0\nclean",
    ),
    (
        &[SMALLEST, THE_REST, ONE],
        PLAIN,
        "main 7\nmain 72057594037927928\nTotalTooLarge at 60",
    ),
];

#[test]
fn limits_of_weights_and_depth_by_weights(rt: HostRuntime) -> Result<(), Fail> {
    read_so(&rt, WEIGHTS)
}
