//! Worked command lines.

use super::lines::are_answered;
use super::wanted::{NOTHING, Set, Shown, Wanted};
use run_options::{Format, Naming};
use std::test::Fail;

const COMMANDS: &[(&str, Wanted<'static>)] = &[
    ("fold", Wanted::Defaults(Shown::Fold, &[])),
    ("graph", Wanted::Defaults(Shown::Graph(1_200), &[])),
    ("chart", Wanted::Defaults(Shown::Chart(1_200), &[])),
    ("compare a b", Wanted::Defaults(Shown::Pairs, &["a", "b"])),
];

#[test]
fn defaults_of_each_command(rt: HostRuntime) -> Result<(), Fail> {
    are_answered(&rt, COMMANDS)
}

const WITH_A_WIDTH: &str = "graph --width 10 x.folded";

const GRAPH_OF_A_WIDTH: &[(&str, Wanted<'static>)] = &[
    (WITH_A_WIDTH, Wanted::View(Shown::Graph(10))),
    (WITH_A_WIDTH, Wanted::Files(&["x.folded"])),
];

#[test]
fn graph_with_a_width(rt: HostRuntime) -> Result<(), Fail> {
    are_answered(&rt, GRAPH_OF_A_WIDTH)
}

const LINES_OF_CPU: Set<'static> = Set {
    ring: 7,
    name: Some("cpu"),
    naming: Naming::Lines,
    every: None,
};

const OPTIONS: &[(&str, Wanted<'static>)] = &[
    (
        "fold --type cpu --ring 7 --lines",
        Wanted::Options(LINES_OF_CPU),
    ),
    (
        "graph --width=10 --type=cpu --ring=7 --every=9 --lines",
        Wanted::Options(Set {
            every: Some(9),
            ..LINES_OF_CPU
        }),
    ),
    (
        "chart --width 10 --type cpu --ring 7 --lines",
        Wanted::Options(LINES_OF_CPU),
    ),
    (
        "compare --width 10 --type cpu --ring 7 --boxes --lines a b",
        Wanted::Options(LINES_OF_CPU),
    ),
];

#[test]
fn options_of_each_command(rt: HostRuntime) -> Result<(), Fail> {
    are_answered(&rt, OPTIONS)
}

const WIDTHS: &[(&str, Wanted<'static>)] = &[
    ("graph --width=10", Wanted::View(Shown::Graph(10))),
    (
        "chart --width 10 --type cpu",
        Wanted::View(Shown::Chart(10)),
    ),
    ("chart --width 1", Wanted::View(Shown::Chart(1))),
    ("chart --width 65536", Wanted::View(Shown::Chart(65_536))),
    (
        "compare --width 10 --boxes a b",
        Wanted::View(Shown::PairBoxes(10)),
    ),
    (
        "compare --boxes --width 10 b a",
        Wanted::View(Shown::PairBoxes(10)),
    ),
    (
        "compare b --boxes --width 10 a",
        Wanted::View(Shown::PairBoxes(10)),
    ),
    (
        "compare b a --boxes --width 10",
        Wanted::View(Shown::PairBoxes(10)),
    ),
    ("compare --width 10 b a", Wanted::View(Shown::Pairs)),
];

#[test]
fn widths_of_each_command(rt: HostRuntime) -> Result<(), Fail> {
    are_answered(&rt, WIDTHS)
}

const FORMATS: &[(&str, Wanted<'static>)] = &[
    ("fold --format pprof", Wanted::Format(Some(Format::Pprof))),
    ("fold --format=folded", Wanted::Format(Some(Format::Folded))),
    (
        "fold x --format pprof y",
        Wanted::Format(Some(Format::Pprof)),
    ),
    ("graph --format pprof", Wanted::Format(Some(Format::Pprof))),
    (
        "graph --format=folded",
        Wanted::Format(Some(Format::Folded)),
    ),
    ("graph", Wanted::Format(None)),
    (
        "chart x.pb --format pprof",
        Wanted::Format(Some(Format::Pprof)),
    ),
    (
        "chart x.pb --format=folded",
        Wanted::Format(Some(Format::Folded)),
    ),
    ("chart x.pb", Wanted::Format(None)),
    (
        "compare a b --format pprof",
        Wanted::Format(Some(Format::Pprof)),
    ),
    (
        "compare a b --format=folded",
        Wanted::Format(Some(Format::Folded)),
    ),
    ("compare a b", Wanted::Format(None)),
];

#[test]
fn format_of_each_command(rt: HostRuntime) -> Result<(), Fail> {
    are_answered(&rt, FORMATS)
}

const SEVEN_OF_TWO: Wanted<'static> = Wanted::Options(Set {
    ring: 7,
    every: Some(2),
    ..NOTHING
});

const THREE_FILES: Wanted<'static> = Wanted::Files(&["a", "b", "c"]);

const OF_THREE_FILES: &[(&str, Wanted<'static>)] = &[
    ("graph --ring 7 --every 2 a b c", SEVEN_OF_TWO),
    ("graph --ring 7 --every 2 a b c", THREE_FILES),
    ("graph a --ring 7 b --every 2 c", SEVEN_OF_TWO),
    ("graph a --ring 7 b --every 2 c", THREE_FILES),
    ("graph a b c --ring 7 --every 2", SEVEN_OF_TWO),
    ("graph a b c --ring 7 --every 2", THREE_FILES),
];

#[test]
fn options_before_between_and_after_files(rt: HostRuntime) -> Result<(), Fail> {
    are_answered(&rt, OF_THREE_FILES)
}

const FILES: &[(&str, Wanted<'static>)] = &[
    ("compare --width 10 b a", Wanted::Files(&["b", "a"])),
    ("compare --boxes --width 10 b a", Wanted::Files(&["b", "a"])),
    ("compare b --boxes --width 10 a", Wanted::Files(&["b", "a"])),
    ("compare b a --boxes --width 10", Wanted::Files(&["b", "a"])),
    ("fold x --format pprof y", Wanted::Files(&["x", "y"])),
];

#[test]
fn files_in_their_order(rt: HostRuntime) -> Result<(), Fail> {
    are_answered(&rt, FILES)
}

const ODD_OPTIONS: &str = "fold --lines -- --ring -x";

const LINES_ALONE: Set<'static> = Set {
    naming: Naming::Lines,
    ..NOTHING
};

const OF_ODD_NAMES: &[(&str, Wanted<'static>)] = &[
    ("fold - -", Wanted::Files(&["-", "-"])),
    (ODD_OPTIONS, Wanted::Files(&["--ring", "-x"])),
    ("fold help graph", Wanted::Files(&["help", "graph"])),
    (ODD_OPTIONS, Wanted::Options(LINES_ALONE)),
];

#[test]
fn files_of_odd_names(rt: HostRuntime) -> Result<(), Fail> {
    are_answered(&rt, OF_ODD_NAMES)
}

const ENDS: &[(&str, Wanted<'static>)] = &[
    ("fold --ring 1", Wanted::Options(Set { ring: 1, ..NOTHING })),
    (
        "fold --ring 65536",
        Wanted::Options(Set {
            ring: 65_536,
            ..NOTHING
        }),
    ),
    (
        "graph --every 1",
        Wanted::Options(Set {
            every: Some(1),
            ..NOTHING
        }),
    ),
    (
        "graph --every 1000000000",
        Wanted::Options(Set {
            every: Some(1_000_000_000),
            ..NOTHING
        }),
    ),
];

#[test]
fn ends_of_each_range(rt: HostRuntime) -> Result<(), Fail> {
    are_answered(&rt, ENDS)
}
