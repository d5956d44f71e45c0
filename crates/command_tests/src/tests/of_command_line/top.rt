//! Worked command lines of tables of functions.

use super::lines::are_answered;
use super::wanted::{NOTHING, REFUSED, Set, Shown, Wanted};
use command_line::{TopTable, WeightUnit};
use run_options::FunctionOrder;
use std::test::Fail;

const BY_OWN: TopTable = TopTable {
    by: FunctionOrder::Own,
    rows: 10,
    is_json: false,
    is_exact: false,
};

const TABLES: &[(&str, Wanted<'static>)] = &[
    ("top", Wanted::Defaults(Shown::Top(BY_OWN), &[])),
    (
        "top -n 3",
        Wanted::Defaults(Shown::Top(TopTable { rows: 3, ..BY_OWN }), &[]),
    ),
    (
        "top -n1",
        Wanted::Defaults(Shown::Top(TopTable { rows: 1, ..BY_OWN }), &[]),
    ),
    (
        "top --number 1000000000",
        Wanted::Defaults(
            Shown::Top(TopTable {
                rows: 1_000_000_000,
                ..BY_OWN
            }),
            &[],
        ),
    ),
    ("top --by own", Wanted::Defaults(Shown::Top(BY_OWN), &[])),
    (
        "top --by=total",
        Wanted::Defaults(
            Shown::Top(TopTable {
                by: FunctionOrder::Total,
                ..BY_OWN
            }),
            &[],
        ),
    ),
    (
        "top --json",
        Wanted::Defaults(
            Shown::Top(TopTable {
                is_json: true,
                ..BY_OWN
            }),
            &[],
        ),
    ),
];

const UNITS: &[(&str, Wanted<'static>)] = &[
    ("top", Wanted::Unit(None)),
    (
        "top --unit nanoseconds",
        Wanted::Unit(Some(WeightUnit::Nanoseconds)),
    ),
    (
        "diff --unit=microseconds a b",
        Wanted::Unit(Some(WeightUnit::Microseconds)),
    ),
    (
        "callers --unit milliseconds f",
        Wanted::Unit(Some(WeightUnit::Milliseconds)),
    ),
    (
        "callees f --unit seconds",
        Wanted::Unit(Some(WeightUnit::Seconds)),
    ),
    (
        "graph --page --unit bytes",
        Wanted::Unit(Some(WeightUnit::Bytes)),
    ),
    (
        "compare --svg --unit samples a b",
        Wanted::Unit(Some(WeightUnit::Samples)),
    ),
    (
        "top --exact",
        Wanted::View(Shown::Top(TopTable {
            is_exact: true,
            ..BY_OWN
        })),
    ),
    ("top --unit ns", REFUSED),
    ("top --unit Bytes", REFUSED),
    ("top --exact=yes", REFUSED),
    ("fold --unit bytes", REFUSED),
    ("graph --exact", REFUSED),
    ("types --unit bytes a", REFUSED),
];

#[test]
fn units_of_weights(rt: HostRuntime) -> Result<(), Fail> {
    are_answered(&rt, UNITS)
}

fn name_of(name: &str) -> &str {
    match WeightUnit::named(name) {
        Some(unit) => unit.name(),
        None => "",
    }
}

// Each unit is that of its name.
#[test]
fn units_by_their_names(rt: HostRuntime) {
    for name in ["nanoseconds", "seconds", "bytes", "samples"] {
        assert!(rt; name_of(name) == name);
    }
    assert!(rt; name_of("minutes").is_empty());
}

#[test]
fn tables_of_functions(rt: HostRuntime) -> Result<(), Fail> {
    are_answered(&rt, TABLES)
}

const ALL_OPTIONS: &str = "top a --json --focus f -n 7 b --by total --hide=g --ring 8";

const ASKED_FOR: TopTable = TopTable {
    by: FunctionOrder::Total,
    rows: 7,
    is_json: true,
    is_exact: false,
};

const PARTS: &[(&str, Wanted<'static>)] = &[
    (ALL_OPTIONS, Wanted::View(Shown::Top(ASKED_FOR))),
    (ALL_OPTIONS, Wanted::Filter(&["f"], &["g"])),
    (ALL_OPTIONS, Wanted::Options(Set { ring: 8, ..NOTHING })),
    (ALL_OPTIONS, Wanted::Files(&["a", "b"])),
];

#[test]
fn options_of_top(rt: HostRuntime) -> Result<(), Fail> {
    are_answered(&rt, PARTS)
}

const REFUSED_LINES: &[(&str, Wanted<'static>)] = &[
    ("top -n 0", REFUSED),
    ("top -n -1", REFUSED),
    ("top -n ten", REFUSED),
    ("top --number=1000000001", REFUSED),
    ("top -n 1 -n 1", REFUSED),
    ("top --by name", REFUSED),
    ("top --by=", REFUSED),
    ("top --by Own", REFUSED),
    ("top --by own --by own", REFUSED),
    ("top --json=yes", REFUSED),
    ("top --width 5", REFUSED),
    ("top --every 5", REFUSED),
    ("fold -n 5", REFUSED),
    ("fold --by own", REFUSED),
    ("graph --json", REFUSED),
];

#[test]
fn refused_tables(rt: HostRuntime) -> Result<(), Fail> {
    are_answered(&rt, REFUSED_LINES)
}

const UNKNOWN_ORDER: &[(&str, Wanted<'static>)] = &[(
    "top --by name",
    Wanted::Refused(
        "error: invalid value 'name' for '--by <WEIGHT>'\n  [possible values: own, total]\n",
        "",
    ),
)];

#[test]
fn text_of_an_unknown_order(rt: HostRuntime) -> Result<(), Fail> {
    are_answered(&rt, UNKNOWN_ORDER)
}
