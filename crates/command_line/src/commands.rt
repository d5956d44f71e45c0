//! The command line, as `clap` reads it and as its help shows it.
ghost use Rattle.std.specs.Prelude.{◌≡◌, ◌++◌, List, IfOk, flat_map, map};
ghost use Rattle.clap.specs.Walk.{Rule, Text};
ghost use Rattle.clap.specs.Words.{app_of, new_app, with_subcommand};
ghost use Rattle.command_line.specs.CommandLine.{command as command_of, command_line};
ghost use Rattle.command_line.specs.checked.Apps.{as_app, program};
ghost use Rattle.command_line.specs.checked.Commands.{rule_at, shape_at};

use crate::argument_lists::{
    Argument, CALLS, CHART, COMPARE, DIFF, FOLD, GRAPH, LIVE, SVG, TOP, TYPES,
};
use clap::Command;
use std::alloc::{AllocError, Global};

// The number and the day of the newest heading in CHANGELOG.md, and what proved and built the program.
const VERSION: &str = "0.5.2 (2026-12-01, rattle-kit-13f logic dac8208d650f15bf)";

const NOTES: &str = "\
Formats:
  A FILE named .pb, .pprof or .prof is a pprof profile, every other FILE is folded lines such as
  `main;parse 12`, and so is standard input. --format sets the format of all of them.
  Profiles are read uncompressed: gzip -dc cpu.pb.gz | flamecollect fold --format pprof

Without a command, folds the standard input.";

const FOLD_EXAMPLE: &str = "\
Example: flamecollect fold --type samples cpu.pprof > cpu.folded
Compressed: gzip -dc cpu.pb.gz | flamecollect fold --format pprof > cpu.folded";

const GRAPH_EXAMPLE: &str = "\
Example: flamecollect graph --page worker1.pb worker2.pb > graph.html
Compressed: gzip -dc cpu.pb.gz | flamecollect graph --page --format pprof > graph.html";

const CHART_EXAMPLE: &str = "\
Example: flamecollect chart --page trace.folded > chart.html
Compressed: gzip -dc cpu.pb.gz | flamecollect chart --page --format pprof > chart.html";

const SVG_EXAMPLE: &str = "\
Example: flamecollect svg cpu.pb writes cpu.pb.svg
Compressed: gzip -dc cpu.pb.gz | flamecollect svg --format pprof > cpu.svg";

const LIVE_EXAMPLE: &str = "\
Example: tail -n +1 -f samples.folded | flamecollect live --every 500
Several: flamecollect live worker1.fifo worker2.fifo";

const COMPARE_EXAMPLE: &str = "\
Example: flamecollect compare --page before.pb after.pb > difference.html
Compressed: gzip -dk before.pb.gz after.pb.gz makes before.pb and after.pb, which can be compared";

const TOP_EXAMPLE: &str = "\
Example: flamecollect top -n 20 --by total cpu.pprof
Compressed: gzip -dc cpu.pb.gz | flamecollect top --format pprof";

const DIFF_EXAMPLE: &str = "\
Example: flamecollect diff -n 20 before.pb after.pb
Compressed: gzip -dk before.pb.gz after.pb.gz makes before.pb and after.pb, which can be compared";

const CALLERS_EXAMPLE: &str = "\
Example: flamecollect callers runtime.mallocgc cpu.pprof
Compressed: gzip -dc cpu.pb.gz | flamecollect callers runtime.mallocgc --format pprof";

const CALLEES_EXAMPLE: &str = "\
Example: flamecollect callees main.serve cpu.pprof
Compressed: gzip -dc cpu.pb.gz | flamecollect callees main.serve --format pprof";

const PEEK_EXAMPLE: &str = "\
Example: flamecollect peek main.serve cpu.pprof
Compressed: gzip -dc cpu.pb.gz | flamecollect peek main.serve --format pprof";

const TYPES_EXAMPLE: &str = "\
Example: flamecollect types cpu.pprof
Compressed: gzip -dk cpu.pb.gz makes cpu.pb, whose types can be told";

// The commands.
pub(crate) enum Subcommand {
    Fold,
    Graph,
    Chart,
    Svg,
    Live,
    Compare,
    Top,
    Diff,
    Callers,
    Callees,
    Peek,
    Types,
}

// In the order of the help.
const COMMANDS: &[Subcommand] = &[
    Subcommand::Fold,
    Subcommand::Graph,
    Subcommand::Chart,
    Subcommand::Svg,
    Subcommand::Live,
    Subcommand::Compare,
    Subcommand::Top,
    Subcommand::Diff,
    Subcommand::Callers,
    Subcommand::Callees,
    Subcommand::Peek,
    Subcommand::Types,
];

impl Subcommand {
    fn name<'a>(&self) -> &'a str
        ensures { result.now ≡ (shape_at self.now).name }
    {
        match self {
            Subcommand::Fold => "fold",
            Subcommand::Graph => "graph",
            Subcommand::Chart => "chart",
            Subcommand::Svg => "svg",
            Subcommand::Live => "live",
            Subcommand::Compare => "compare",
            Subcommand::Top => "top",
            Subcommand::Diff => "diff",
            Subcommand::Callers => "callers",
            Subcommand::Callees => "callees",
            Subcommand::Peek => "peek",
            Subcommand::Types => "types",
        }
    }

    fn about<'a>(&self) -> &'a str {
        match self {
            Subcommand::Fold =>
                "Write each stack once with the sum of its weights, as folded lines",
            Subcommand::Graph => "Write the flame graph as a line of JSON",
            Subcommand::Chart => "Write the flame chart as a line of JSON",
            Subcommand::Svg => "Write the flame graph as an SVG, to FILE.svg beside the first FILE",
            Subcommand::Live =>
                "Write the flame graph of streams while they grow: lines of JSON, on a terminal a table",
            Subcommand::Compare => "Write each stack of two profiles with its weight in both",
            Subcommand::Top => "Write the functions with the greatest weights",
            Subcommand::Diff => "Write the functions of two profiles with the greatest changes",
            Subcommand::Callers => "Write the functions that call one, by the weight of the calls",
            Subcommand::Callees => "Write the functions that one calls, by the weight of the calls",
            Subcommand::Peek => "Write both, the functions that call one and those that it calls",
            Subcommand::Types => "Write the sample types of a pprof profile, each with its unit",
        }
    }

    fn example<'a>(&self) -> &'a str {
        match self {
            Subcommand::Fold => FOLD_EXAMPLE,
            Subcommand::Graph => GRAPH_EXAMPLE,
            Subcommand::Chart => CHART_EXAMPLE,
            Subcommand::Svg => SVG_EXAMPLE,
            Subcommand::Live => LIVE_EXAMPLE,
            Subcommand::Compare => COMPARE_EXAMPLE,
            Subcommand::Top => TOP_EXAMPLE,
            Subcommand::Diff => DIFF_EXAMPLE,
            Subcommand::Callers => CALLERS_EXAMPLE,
            Subcommand::Callees => CALLEES_EXAMPLE,
            Subcommand::Peek => PEEK_EXAMPLE,
            Subcommand::Types => TYPES_EXAMPLE,
        }
    }

    // In parts that several commands have.
    fn arguments(&self) -> &'static [&'static [Argument]]
        ensures { flat_map (λ part. map rule_at part.now) result.now ≡ (shape_at self.now).rules }
    {
        match self {
            Subcommand::Fold => FOLD,
            Subcommand::Graph => GRAPH,
            Subcommand::Chart => CHART,
            Subcommand::Svg => SVG,
            Subcommand::Live => LIVE,
            Subcommand::Compare => COMPARE,
            Subcommand::Top => TOP,
            Subcommand::Diff => DIFF,
            Subcommand::Callers => CALLS,
            Subcommand::Callees => CALLS,
            Subcommand::Peek => CALLS,
            Subcommand::Types => TYPES,
        }
    }

    // The command, as `clap` takes it.
    pub(crate) fn built<'a>(&self, alloc: Global) -> Result<Command<'a>, AllocError>
        ensures { IfOk result (λ command. app_of command ≡ as_app (shape_at self.now)) }
    {
        let mut command = described(alloc, self.name(), self.about(), self.example());
        for part in self.arguments() {
            command = with_arguments(alloc, command, part)?;
        }
        Ok(command)
    }
}

// The command with further arguments.
fn with_arguments<'a>(
    alloc: Global,
    mut command: Command<'a>,
    arguments: &[Argument],
) -> Result<Command<'a>, AllocError>
    ensures { (name : Text) (rules : List Rule) → app_of command.entry ≡ as_app (command_of name rules)
        → IfOk result (λ more. app_of more ≡ as_app (command_of name (rules ++ map rule_at arguments.now))) }
{
    for argument in arguments {
        command = command.arg(argument.built(alloc))?;
    }
    Ok(command)
}

// The whole command line. Its words begin after the program's name.
pub(crate) fn command_line<'a>(alloc: Global) -> Result<Command<'a>, AllocError>
    ensures { IfOk result (λ line. app_of line ≡ command_line) }
{
    let mut line = program(alloc)?;
    for command in COMMANDS {
        line = with_command(alloc, line, command)?;
    }
    Ok(line)
}

// The command of that name, if there is one.
pub(crate) fn command_named(name: &str) -> Option<&'static Subcommand> {
    COMMANDS.iter().find(|command| command.name() == name)
}

// The line with a further command.
fn with_command<'a>(
    alloc: Global,
    line: Command<'a>,
    command: &Subcommand,
) -> Result<Command<'a>, AllocError>
    ensures { IfOk result (λ more.
        app_of more ≡ with_subcommand (app_of line.entry) (shape_at command.now)) }
{
    match command.built(alloc) {
        Ok(built) => line.subcommand(built),
        Err(refused) => Err(refused),
    }
}

// The line without its commands.
fn program<'a>(alloc: Global) -> Result<Command<'a>, AllocError>
    ensures { IfOk result (λ line. app_of line ≡ program) }
{
    let about = "Flame graphs and flame charts of recorded stack samples";
    described(alloc, "flamecollect", about, NOTES)
        .version(VERSION)
        .no_binary_name(true)
        .subcommand_required(true)
        .bin_name("flamecollect")
}

// A command without arguments, and what its help says of it.
fn described<'a>(alloc: Global, name: &'a str, about: &'a str, notes: &'a str) -> Command<'a>
    ensures { app_of result ≡ new_app name.entry.now }
{
    Command::new(alloc, name).about(about).after_help(notes)
}
