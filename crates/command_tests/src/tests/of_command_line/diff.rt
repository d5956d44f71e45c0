//! Worked command lines of tables of changes.

use super::lines::are_answered;
use super::wanted::{NOTHING, REFUSED, Set, Shown, Wanted};
use command_line::{DiffTable, TopTable};
use run_options::FunctionOrder;
use std::test::Fail;

const BY_OWN: TopTable = TopTable {
    by: FunctionOrder::Own,
    rows: 10,
    is_json: false,
    is_exact: false,
};

const CHANGES: DiffTable = DiffTable {
    table: BY_OWN,
    is_share: false,
    fail_over: None,
};

const TABLES: &[(&str, Wanted<'static>)] = &[
    (
        "diff old new",
        Wanted::Defaults(Shown::Diff(CHANGES), &["old", "new"]),
    ),
    (
        "diff new -n3 old",
        Wanted::Defaults(
            Shown::Diff(DiffTable {
                table: TopTable { rows: 3, ..BY_OWN },
                ..CHANGES
            }),
            &["new", "old"],
        ),
    ),
    (
        "diff --by total a a",
        Wanted::Defaults(
            Shown::Diff(DiffTable {
                table: TopTable {
                    by: FunctionOrder::Total,
                    ..BY_OWN
                },
                ..CHANGES
            }),
            &["a", "a"],
        ),
    ),
    (
        "diff --json -- --json b",
        Wanted::Defaults(
            Shown::Diff(DiffTable {
                table: TopTable {
                    is_json: true,
                    ..BY_OWN
                },
                ..CHANGES
            }),
            &["--json", "b"],
        ),
    ),
    (
        "diff --share a b",
        Wanted::Defaults(
            Shown::Diff(DiffTable {
                is_share: true,
                ..CHANGES
            }),
            &["a", "b"],
        ),
    ),
    (
        "diff --fail-over 5 a b",
        Wanted::Defaults(
            Shown::Diff(DiffTable {
                fail_over: Some(5),
                ..CHANGES
            }),
            &["a", "b"],
        ),
    ),
    (
        "diff a b --fail-over=0",
        Wanted::Defaults(
            Shown::Diff(DiffTable {
                fail_over: Some(0),
                ..CHANGES
            }),
            &["a", "b"],
        ),
    ),
];

#[test]
fn tables_of_changes(rt: HostRuntime) -> Result<(), Fail> {
    are_answered(&rt, TABLES)
}

const ALL_OPTIONS: &str =
    "diff a --json --focus f -n 7 b --by total --hide=g --ring 8 --share --fail-over 100";

const ASKED_FOR: TopTable = TopTable {
    by: FunctionOrder::Total,
    rows: 7,
    is_json: true,
    is_exact: false,
};

const ALL_ASKED_FOR: DiffTable = DiffTable {
    table: ASKED_FOR,
    is_share: true,
    fail_over: Some(100),
};

const PARTS: &[(&str, Wanted<'static>)] = &[
    (ALL_OPTIONS, Wanted::View(Shown::Diff(ALL_ASKED_FOR))),
    (ALL_OPTIONS, Wanted::Filter(&["f"], &["g"])),
    (ALL_OPTIONS, Wanted::Options(Set { ring: 8, ..NOTHING })),
    (ALL_OPTIONS, Wanted::Files(&["a", "b"])),
];

#[test]
fn options_of_diff(rt: HostRuntime) -> Result<(), Fail> {
    are_answered(&rt, PARTS)
}

const REFUSED_LINES: &[(&str, Wanted<'static>)] = &[
    ("diff", REFUSED),
    ("diff a", REFUSED),
    ("diff a b c", REFUSED),
    ("diff -n 0 a b", REFUSED),
    ("diff -n 1000000001 a b", REFUSED),
    ("diff --by change a b", REFUSED),
    ("diff --by own --by own a b", REFUSED),
    ("diff --json=yes a b", REFUSED),
    ("diff --share=yes a b", REFUSED),
    ("diff --fail-over a b", REFUSED),
    ("diff --fail-over 101 a b", REFUSED),
    ("diff --fail-over=-1 a b", REFUSED),
    ("diff --fail-over 0.5 a b", REFUSED),
    ("diff --fail-over 5 --fail-over 5 a b", REFUSED),
    ("top --share a", REFUSED),
    ("compare --fail-over 5 a b", REFUSED),
    ("diff --boxes a b", REFUSED),
    ("diff --page a b", REFUSED),
    ("diff --svg a b", REFUSED),
    ("diff --width 5 a b", REFUSED),
    ("diff --every 5 a b", REFUSED),
    ("compare --by own a b", REFUSED),
    ("compare -n 5 a b", REFUSED),
];

#[test]
fn refused_changes(rt: HostRuntime) -> Result<(), Fail> {
    are_answered(&rt, REFUSED_LINES)
}
