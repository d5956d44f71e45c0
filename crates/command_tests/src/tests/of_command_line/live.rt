//! Worked command lines of `live`.

use super::lines::are_answered;
use super::wanted::{NOTHING, REFUSED, Set, Wanted};
use std::test::Fail;

// Whatever their names, its files are folded text, and a `-` is one of them.
const STREAMS: &[(&str, Wanted<'static>)] = &[
    ("live", Wanted::Live(1_200, 1_000, &[])),
    ("live a b.pb", Wanted::Live(1_200, 1_000, &["a", "b.pb"])),
    ("live --every 5 -", Wanted::Live(1_200, 5, &["-"])),
    (
        "live --every=1000000000",
        Wanted::Live(1_200, 1_000_000_000, &[]),
    ),
    (
        "live a --width 9 --every 1 b",
        Wanted::Live(9, 1, &["a", "b"]),
    ),
    ("live --strict a", Wanted::StrictLive(&["a"])),
    ("live -o x.json a", Wanted::Live(1_200, 1_000, &["a"])),
    (
        "live --ring 8",
        Wanted::Options(Set {
            ring: 8,
            every: Some(1_000),
            ..NOTHING
        }),
    ),
];

#[test]
fn streams(rt: HostRuntime) -> Result<(), Fail> {
    are_answered(&rt, STREAMS)
}

const PAGES: &[(&str, Wanted<'static>)] = &[
    ("live --page x.html", Wanted::LivePage("x.html", &[])),
    (
        "live --page=x.html a.folded",
        Wanted::LivePage("x.html", &["a.folded"]),
    ),
    (
        "live a --page - --strict b",
        Wanted::LivePage("-", &["a", "b"]),
    ),
    (
        "live --page x -- --page",
        Wanted::LivePage("x", &["--page"]),
    ),
];

#[test]
fn streams_on_a_page(rt: HostRuntime) -> Result<(), Fail> {
    are_answered(&rt, PAGES)
}

const REFUSED_PAGES: &[(&str, Wanted<'static>)] = &[
    ("live --page x -o y", Wanted::Refused(BOTH_FILES, USAGE)),
    (
        "live --output=y a --page=x",
        Wanted::Refused(BOTH_FILES, USAGE),
    ),
    ("live --page", Wanted::Refused("error: ", "'--page <FILE>'")),
    ("live --page=", REFUSED),
    ("live --page x --page y", REFUSED),
    ("live --pages x", REFUSED),
    ("live --page x --title t", REFUSED),
    ("live --page x --least 5", REFUSED),
    ("live --page x --root-below", REFUSED),
];

const BOTH_FILES: &str =
    "error: the argument '--page <FILE>' cannot be used with '--output <FILE>'\n";

const USAGE: &str = "\n\nUsage: flamecollect live [OPTIONS] [FILE]...\n\nFor more ";

#[test]
fn refused_pages_of_streams(rt: HostRuntime) -> Result<(), Fail> {
    are_answered(&rt, REFUSED_PAGES)
}

const REFUSED_LINES: &[(&str, Wanted<'static>)] = &[
    ("live --every 0", REFUSED),
    ("live --every 1000000001", REFUSED),
    ("live --every", REFUSED),
    ("live --width 0", REFUSED),
    ("live --every 1 --every 2", REFUSED),
    ("live --format folded", REFUSED),
    ("live --type cpu", REFUSED),
    ("live --focus f", REFUSED),
    ("live --hide f", REFUSED),
    ("live --from f", REFUSED),
    ("live --omit f", REFUSED),
    ("live --strict --strict", REFUSED),
    ("live --svg", REFUSED),
    ("live --quiet", REFUSED),
];

#[test]
fn refused_streams(rt: HostRuntime) -> Result<(), Fail> {
    are_answered(&rt, REFUSED_LINES)
}
