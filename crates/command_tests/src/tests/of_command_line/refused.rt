//! Words that are refused, and what is said of them.

use super::lines::are_answered;
use super::wanted::{REFUSED, Wanted};
use std::test::Fail;

const REFUSED_LINES: &[(&str, Wanted<'static>)] = &[
    ("graph --width 0", REFUSED),
    ("graph --width 65537", REFUSED),
    ("graph --width -1", REFUSED),
    ("graph --width ten", REFUSED),
    ("fold --ring 0", REFUSED),
    ("fold --ring=65537", REFUSED),
    ("graph --every 0", REFUSED),
    ("graph --every 1000000001", REFUSED),
    ("graph --every 18446744073709551616", REFUSED),
    ("fold --format svg", REFUSED),
    ("graph --format=", REFUSED),
    ("chart --format PPROF", REFUSED),
    ("compare a b --format", REFUSED),
    ("fold --format pprof --format pprof", REFUSED),
    ("graph --width", REFUSED),
    ("graph --width 1 --width 1", REFUSED),
    ("fold --every 5", REFUSED),
    ("chart --every 5", REFUSED),
    ("fold --width 5", REFUSED),
    ("fold --boxes", REFUSED),
    ("compare a", REFUSED),
    ("compare", REFUSED),
    ("compare a b c", REFUSED),
    ("draw a", REFUSED),
    ("--ring 5 fold", REFUSED),
    ("fold --version", REFUSED),
    ("version", REFUSED),
    ("--", REFUSED),
    ("-- fold", REFUSED),
];

#[test]
fn refused_words(rt: HostRuntime) -> Result<(), Fail> {
    are_answered(&rt, REFUSED_LINES)
}

const USAGES: &[(&str, Wanted<'static>)] = &[
    (
        "fold --every 5",
        Wanted::Refused(
            "error: ",
            "\nUsage: flamecollect fold [OPTIONS] [FILE]...\n",
        ),
    ),
    (
        "compare a",
        Wanted::Refused(
            "error: ",
            "\nUsage: flamecollect compare <BEFORE> <AFTER>\n",
        ),
    ),
    (
        "draw a",
        Wanted::Refused("error: ", "\nUsage: flamecollect <COMMAND>\n"),
    ),
    (
        "fold --format svg",
        Wanted::Refused(
            "error: ",
            "error: invalid value 'svg' for '--format <FORMAT>'\n  [possible values: folded, pprof]\n",
        ),
    ),
];

const FORM_USAGES: &[(&str, Wanted<'static>)] = &[
    ("fold --format svg", Wanted::Refused(INVALID, FOLD)),
    ("fold --ring 0", Wanted::Refused(INVALID, FOLD)),
    (
        "diff --by name a b",
        Wanted::Refused(INVALID, "\nUsage: flamecollect diff "),
    ),
    ("graph --width 0", Wanted::Refused(INVALID, GRAPH)),
    ("graph --page --title=", Wanted::Refused("error: ", GRAPH)),
    ("graph --svg --page", Wanted::Refused("error: ", GRAPH)),
    ("graph --least 5", Wanted::Refused("error: ", GRAPH)),
    ("graph --title t", Wanted::Refused("error: ", GRAPH)),
    (
        "chart --root-below",
        Wanted::Refused("error: ", "\nUsage: flamecollect chart "),
    ),
];

const INVALID: &str = "error: invalid value '";

const FOLD: &str = "\n\nUsage: flamecollect fold [OPTIONS] [FILE]...\n\nFor more ";

const GRAPH: &str = "\n\nUsage: flamecollect graph [OPTIONS] [FILE]...\n\nFor more ";

#[test]
fn usage_of_what_plan_refuses(rt: HostRuntime) -> Result<(), Fail> {
    are_answered(&rt, FORM_USAGES)
}

const BESIDE_HELP: &[(&str, Wanted<'static>)] = &[
    ("graph --width 0 --help", Wanted::Refused(INVALID, GRAPH)),
    ("graph --format x --help", Wanted::Refused(INVALID, GRAPH)),
    ("graph --format=x -h", Wanted::Refused(INVALID, GRAPH)),
    (
        "top a --by x --help",
        Wanted::Refused(INVALID, "'--by <WEIGHT>'"),
    ),
    (
        "top --by=x b --help",
        Wanted::Refused(INVALID, "'--by <WEIGHT>'"),
    ),
    (
        "graph --help --format x",
        Wanted::Help("\nUsage: flamecollect graph "),
    ),
    (
        "graph -h --width 0",
        Wanted::Help("\nUsage: flamecollect graph "),
    ),
    (
        "graph --format pprof --help",
        Wanted::Help("\nUsage: flamecollect graph "),
    ),
    (
        "top --by=total -h",
        Wanted::Help("\nUsage: flamecollect top "),
    ),
    (
        "graph --svg --page --help",
        Wanted::Help("\nUsage: flamecollect graph "),
    ),
    (
        "compare a --help",
        Wanted::Help("\nUsage: flamecollect compare "),
    ),
];

#[test]
fn refused_words_beside_help(rt: HostRuntime) -> Result<(), Fail> {
    are_answered(&rt, BESIDE_HELP)
}

const FILES: &[(&str, Wanted<'static>)] = &[
    (
        "cpu.pb",
        Wanted::Refused(UNKNOWN, ": flamecollect top cpu.pb\n\nUsage: "),
    ),
    (
        "./a b",
        Wanted::Refused(UNKNOWN, ": flamecollect top ./a\n\nUsage: "),
    ),
    (
        "draw",
        Wanted::Refused(UNKNOWN, "'draw'\n\nUsage: flamecollect <COMMAND>\n"),
    ),
];

const UNKNOWN: &str = "error: unrecognized subcommand '";

#[test]
fn files_in_the_place_of_commands(rt: HostRuntime) -> Result<(), Fail> {
    are_answered(&rt, FILES)
}

#[test]
fn usage_of_refused_words(rt: HostRuntime) -> Result<(), Fail> {
    are_answered(&rt, USAGES)
}

const NO_WORDS: &[(&str, Wanted<'static>)] = &[("", Wanted::Refused("", ""))];

#[test]
fn no_words(rt: HostRuntime) -> Result<(), Fail> {
    are_answered(&rt, NO_WORDS)
}
