//! Help, and the version.

use super::lines::are_answered;
use super::wanted::Wanted;
use std::test::Fail;

const USAGES: &[(&str, Wanted<'static>)] = &[
    ("--help", Wanted::Help("\nUsage: flamecollect <COMMAND>\n")),
    ("-h", Wanted::Help("\nUsage: flamecollect <COMMAND>\n")),
    (
        "fold --help",
        Wanted::Help("\nUsage: flamecollect fold [OPTIONS] [FILE]...\n"),
    ),
    (
        "graph x --help",
        Wanted::Help("\nUsage: flamecollect graph [OPTIONS] [FILE]...\n"),
    ),
    (
        "chart -h",
        Wanted::Help("\nUsage: flamecollect chart [OPTIONS] [FILE]...\n"),
    ),
    (
        "svg --help",
        Wanted::Help("\nUsage: flamecollect svg [OPTIONS] [FILE]...\n"),
    ),
    (
        "live --help",
        Wanted::Help("\nUsage: flamecollect live [OPTIONS] [FILE]...\n"),
    ),
    (
        "compare --help",
        Wanted::Help("\nUsage: flamecollect compare [OPTIONS] <BEFORE> <AFTER>\n"),
    ),
    (
        "top --help",
        Wanted::Help("\nUsage: flamecollect top [OPTIONS] [FILE]...\n"),
    ),
    (
        "diff --help",
        Wanted::Help("\nUsage: flamecollect diff [OPTIONS] <BEFORE> <AFTER>\n"),
    ),
    (
        "callers --help",
        Wanted::Help("\nUsage: flamecollect callers [OPTIONS] <NAME> [FILE]...\n"),
    ),
    (
        "callees --help",
        Wanted::Help("\nUsage: flamecollect callees [OPTIONS] <NAME> [FILE]...\n"),
    ),
    (
        "peek --help",
        Wanted::Help("\nUsage: flamecollect peek [OPTIONS] <NAME> [FILE]...\n"),
    ),
    (
        "types --help",
        Wanted::Help("\nUsage: flamecollect types [OPTIONS] <FILE>\n"),
    ),
    ("help", Wanted::Help("\nUsage: flamecollect <COMMAND>\n")),
    (
        "help graph",
        Wanted::Help("\nUsage: flamecollect graph [OPTIONS] [FILE]...\n"),
    ),
];

#[test]
fn help_of_each_command(rt: HostRuntime) -> Result<(), Fail> {
    are_answered(&rt, USAGES)
}

const COMMANDS: &[(&str, Wanted<'static>)] = &[
    ("--help", Wanted::Help("\n  fold ")),
    ("--help", Wanted::Help("\n  graph ")),
    ("--help", Wanted::Help("\n  chart ")),
    ("--help", Wanted::Help("\n  live ")),
    ("--help", Wanted::Help("\n  compare ")),
    ("--help", Wanted::Help("\n  top ")),
    ("--help", Wanted::Help("\n  diff ")),
    ("--help", Wanted::Help("\n  callers ")),
    ("--help", Wanted::Help("\n  callees ")),
    ("--help", Wanted::Help("\n  peek ")),
    ("--help", Wanted::Help("\n  types ")),
];

#[test]
fn help_lists_the_commands(rt: HostRuntime) -> Result<(), Fail> {
    are_answered(&rt, COMMANDS)
}

const VERSIONS: &[(&str, Wanted<'static>)] = &[
    ("--version", Wanted::Version),
    ("-V", Wanted::Version),
];

#[test]
fn version(rt: HostRuntime) -> Result<(), Fail> {
    are_answered(&rt, VERSIONS)
}

// The program's help tells the formats, and each command's has an example and the ring last.
const PARTS: &[(&str, Wanted<'static>)] = &[
    ("--help", Wanted::Help("\nFormats:\n")),
    ("--help", Wanted::Help("gzip -dc")),
    ("--help", Wanted::Help("\nWithout a command, ")),
    ("fold --help", Wanted::Help("\nExample: flamecollect fold ")),
    ("fold --help", Wanted::Help("\nCompressed: gzip -dc ")),
    (
        "graph --help",
        Wanted::Help("\nExample: flamecollect graph "),
    ),
    ("graph --help", Wanted::Help("\nCompressed: gzip -dc ")),
    (
        "chart --help",
        Wanted::Help("\nExample: flamecollect chart "),
    ),
    ("chart --help", Wanted::Help("\nCompressed: gzip -dc ")),
    ("live --help", Wanted::Help("\nExample: tail -n +1 -f ")),
    ("live --help", Wanted::Help("\nSeveral: flamecollect live ")),
    ("live --help", Wanted::Help(" [default: 1000]\n")),
    ("live --help", Wanted::Help("\n      --page <FILE> ")),
    (
        "compare --help",
        Wanted::Help("\nExample: flamecollect compare "),
    ),
    ("compare --help", Wanted::Help("\nCompressed: gzip -dk ")),
    ("top --help", Wanted::Help("\nExample: flamecollect top ")),
    ("top --help", Wanted::Help("\nCompressed: gzip -dc ")),
    ("top --help", Wanted::Help("\n  -n, --number <N> ")),
    (
        "types --help",
        Wanted::Help("\nExample: flamecollect types "),
    ),
    ("types --help", Wanted::Help("\nCompressed: gzip -dk ")),
    (
        "graph --help",
        Wanted::Help("\nPages and SVGs:\n      --page "),
    ),
    ("chart --help", Wanted::Help("\n      --svg ")),
    ("compare --help", Wanted::Help("\n      --root-below ")),
    ("compare --help", Wanted::Help("\n      --share ")),
    (
        "fold --help",
        Wanted::Help("\nRarely needed:\n      --ring <N> "),
    ),
    (
        "compare --help",
        Wanted::Help("\nRarely needed:\n      --ring <N> "),
    ),
];

#[test]
fn help_tells_formats_and_examples(rt: HostRuntime) -> Result<(), Fail> {
    are_answered(&rt, PARTS)
}
