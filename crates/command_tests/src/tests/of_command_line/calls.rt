//! Worked command lines of the calls of a function.

use super::lines::are_answered;
use super::wanted::{Calls, NOTHING, REFUSED, Set, Told, Wanted};
use std::test::Fail;

const CALLERS: Calls<'static> = Calls {
    name: "f",
    told: Told::Callers,
    rows: 10,
    is_json: false,
};

const CALLEES: Calls<'static> = Calls {
    told: Told::Callees,
    ..CALLERS
};

const BOTH: Calls<'static> = Calls {
    told: Told::Both,
    ..CALLERS
};

// The first word that is no option is the function, and the others are files.
const TABLES: &[(&str, Wanted<'static>)] = &[
    ("callers f", Wanted::Calls(CALLERS)),
    ("callers f", Wanted::Files(&[])),
    ("callees f", Wanted::Calls(CALLEES)),
    ("peek f", Wanted::Calls(BOTH)),
    ("peek f f -n3", Wanted::Calls(Calls { rows: 3, ..BOTH })),
    ("peek f f -n3", Wanted::Files(&["f"])),
    ("callers f f", Wanted::Calls(CALLERS)),
    ("callers f f", Wanted::Files(&["f"])),
    (
        "callees -n3 f x y",
        Wanted::Calls(Calls { rows: 3, ..CALLEES }),
    ),
    ("callees -n3 f x y", Wanted::Files(&["x", "y"])),
    (
        "callers -- --json x",
        Wanted::Calls(Calls {
            name: "--json",
            ..CALLERS
        }),
    ),
    ("callers -- --json x", Wanted::Files(&["x"])),
];

#[test]
fn tables_of_calls(rt: HostRuntime) -> Result<(), Fail> {
    are_answered(&rt, TABLES)
}

const ALL_OPTIONS: &str =
    "callees --json f --focus g -n 7 a --hide=h --ring 8 b --type t --lines --quiet";

const PARTS: &[(&str, Wanted<'static>)] = &[
    (
        ALL_OPTIONS,
        Wanted::Calls(Calls {
            rows: 7,
            is_json: true,
            ..CALLEES
        }),
    ),
    (ALL_OPTIONS, Wanted::Filter(&["g"], &["h"])),
    (ALL_OPTIONS, Wanted::Files(&["a", "b"])),
    (
        "callers f --ring 8",
        Wanted::Options(Set { ring: 8, ..NOTHING }),
    ),
];

#[test]
fn options_of_calls(rt: HostRuntime) -> Result<(), Fail> {
    are_answered(&rt, PARTS)
}

const REFUSED_LINES: &[(&str, Wanted<'static>)] = &[
    ("callers", REFUSED),
    ("callees --json", REFUSED),
    ("peek", REFUSED),
    ("peek --by own f", REFUSED),
    ("callers -n 0 f", REFUSED),
    ("callers -n 1000000001 f", REFUSED),
    ("callers --by own f", REFUSED),
    ("callees --by total f", REFUSED),
    ("callers --json=yes f", REFUSED),
    ("callers --page f", REFUSED),
    ("callees --svg f", REFUSED),
    ("callers --width 5 f", REFUSED),
    ("callees --every 5 f", REFUSED),
];

#[test]
fn refused_calls(rt: HostRuntime) -> Result<(), Fail> {
    are_answered(&rt, REFUSED_LINES)
}
