//! Changes of functions between two files in memory.

use super::answers::{Case, SILENT, end_so};
use super::worked::{AFTER, BEFORE, CHANGES, GREATEST_CHANGE};
use std::test::Fail;

/// Two files.
const SIDES: &[(&str, &[u8])] = &[("old", BEFORE), ("new", AFTER)];

/// The table, and the line of the greatest change.
const DIFFS: &[Case<'static>] = &[
    Case {
        words: &["diff", "old", "new"],
        files: SIDES,
        out: CHANGES,
        ..SILENT
    },
    Case {
        words: &["diff", "--json", "--by", "total", "old", "new", "-n", "1"],
        files: SIDES,
        out: GREATEST_CHANGE,
        ..SILENT
    },
];

#[test]
fn functions_by_change(rt: HostRuntime) -> Result<(), Fail> {
    end_so(&rt, DIFFS)
}
