//! Worked examples.

use super::joined::{Joined, append_of};
use crate::tests::sources::Rows;
use crate::tests::texts::is_text;
use std::alloc::{AllocError, Global};
use std::process::Abort;
use std::test::Fail;

/// What is written of two sources, and they.
pub(super) type Written<'a> = (Joined, &'a [Rows<'a>]);

fn append(alloc: Global, out: &mut Vec<u8>, written: &Written<'_>) -> Result<(), AllocError> {
    let (joined, sources) = written;
    out.extend_from_slice(b"# ")?;
    append_of(alloc, out, joined, sources)
}

/// The text stands behind what stood there.
pub(super) fn makes(
    rt: &(impl Abort + AllocGlobal),
    written: &Written<'_>,
    wanted: &str,
) -> Result<(), Fail> {
    let mut out = Vec::new(rt.alloc());
    let made = append(rt.alloc(), &mut out, written);
    is_text(rt, made, &out, wanted.as_bytes())
}

const STORED: Rows<'static> = &[(&["a", "b"], 2), (&["a"], 1), (&["a", "b"], 3)];

const ODD: Rows<'static> = &[(&["a", "", "b"], 1), (&[], 5)];

const PLAIN: Rows<'static> = &[(&["b"], 0), (&["a"], 1)];

const SHARED_FRONTS: Rows<'static> = &[
    (&["b", "a"], 1),
    (&["a", "c", "d"], 2),
    (&["a", "b", "b", "b"], 3),
    (&["a", "c"], 4),
];

const SHARED: &Written<'static> = &(Joined::Merged, &[SHARED_FRONTS, &[]]);

// Fronts are shared, also those that no sample has alone.
#[test]
fn shared_fronts(rt: HostRuntime) -> Result<(), Fail> {
    let wanted = "# a;b;b;b 3\na;c 4\na;c;d 2\nb;a 1\n";
    makes(&rt, SHARED, wanted)
}

const BEGUN_ALIKE: Rows<'static> = &[
    (&["abc", "d"], 1),
    (&["ab"], 2),
    (&["abc", "d", "e"], 3),
    (&["ab", "d"], 4),
    (&["abc"], 5),
    (&["abc", "f", "e"], 6),
];

const ALIKE: &Written<'static> = &(Joined::Merged, &[BEGUN_ALIKE, &[]]);

// A name that begins as another does is not shared.
#[test]
fn names_begin_alike(rt: HostRuntime) -> Result<(), Fail> {
    let wanted = "# ab 2\nab;d 4\nabc 5\nabc;d 1\nabc;d;e 3\nabc;f;e 6\n";
    makes(&rt, ALIKE, wanted)
}

const STORED_MERGED: &Written<'static> = &(Joined::Merged, &[STORED, &[]]);

#[test]
fn stored_run_merged(rt: HostRuntime) -> Result<(), Fail> {
    makes(&rt, STORED_MERGED, "# a 1\na;b 5\n")
}

const ODD_MERGED: &Written<'static> = &(Joined::Merged, &[ODD, PLAIN]);

#[test]
fn odd_lines_merged(rt: HostRuntime) -> Result<(), Fail> {
    makes(&rt, ODD_MERGED, "#  5\na 1\na;;b 1\n")
}

const NOTHING_MERGED: &Written<'static> = &(Joined::Merged, &[&[], &[]]);

#[test]
fn nothing_merged(rt: HostRuntime) -> Result<(), Fail> {
    makes(&rt, NOTHING_MERGED, "# ")
}

const OLD: Rows<'static> = &[(&["a"], 3), (&["b"], 1)];

const NEW: Rows<'static> = &[(&["a"], 1), (&["c"], 2)];

const COMPARED: &Written<'static> = &(Joined::Paired, &[OLD, NEW]);

#[test]
fn comparison(rt: HostRuntime) -> Result<(), Fail> {
    makes(&rt, COMPARED, "# a 3 1\nb 1 0\nc 0 2\n")
}

const BEFORE: Rows<'static> = &[(&["b"], 1), (&["a", "b"], 3), (&["c"], 0)];

const AFTER: Rows<'static> = &[(&["c"], 2), (&["a", "b"], 1), (&[], 1)];

const PAIRED: &Written<'static> = &(Joined::Paired, &[BEFORE, AFTER]);

#[test]
fn comparison_of_paired_stacks(rt: HostRuntime) -> Result<(), Fail> {
    makes(&rt, PAIRED, "#  0 1\na;b 3 1\nb 1 0\nc 0 2\n")
}

const NOTHING_COMPARED: &Written<'static> = &(Joined::Paired, &[&[], &[]]);

#[test]
fn comparison_of_nothing(rt: HostRuntime) -> Result<(), Fail> {
    makes(&rt, NOTHING_COMPARED, "# ")
}

#[test]
fn laws_take_nothing() {
    view_texts::laws::pairs_have_all_stacks();
}
