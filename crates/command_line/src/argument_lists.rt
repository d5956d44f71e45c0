//! The arguments of each command, in the order of its help.
ghost use Rattle.std.specs.Prelude.{◌≡◌};
ghost use Rattle.clap.specs.Words.{rule_of};
ghost use Rattle.command_line.specs.checked.Commands.{rule_at};

use crate::arguments::{
    MOST_BETWEEN_SNAPSHOTS, fail_over_option, files, filter_option, flag, form_flag, from_option,
    least_option, number_option, one_value, output_option, pages_option, ring_option, rows_option,
    text_option, title_option,
};
use clap::Arg;
use run_options::MAX_WIDTH;
use std::alloc::Global;

// An argument of one command or of several.
pub(crate) enum Argument {
    Width,
    Type,
    Format,
    Focus,
    Hide,
    From,
    Omit,
    Ring,
    Every,
    LiveEvery,
    Lines,
    Boxes,
    Rows,
    By,
    Json,
    Exact,
    Share,
    FailOver,
    Unit,
    Strict,
    LiveStrict,
    Output,
    Quiet,
    Page,
    LivePage,
    Svg,
    Title,
    RootBelow,
    FormShare,
    Least,
    Function,
    Files,
    Streams,
    Before,
    After,
    Profile,
}

// What each command reads profiles by.
const READING: &[Argument] = &[
    Argument::Format,
    Argument::Focus,
    Argument::Hide,
    Argument::From,
    Argument::Omit,
    Argument::Ring,
];

// How each names frames, what it refuses and where it writes.
const WRITING: &[Argument] = &[
    Argument::Lines,
    Argument::Strict,
    Argument::Output,
    Argument::Quiet,
];

// What weighs, and in which unit.
const WEIGHTS: &[Argument] = &[Argument::Type, Argument::Unit];

// A picture in place of a line of JSON.
const PICTURE: &[Argument] = &[
    Argument::Page,
    Argument::Svg,
    Argument::Title,
    Argument::RootBelow,
    Argument::Least,
];

const WIDTH: &[Argument] = &[Argument::Width];

const TABLE: &[Argument] = &[Argument::Json, Argument::Exact];

const FILES: &[Argument] = &[Argument::Files];

const PAIR: &[Argument] = &[Argument::Before, Argument::After];

pub(crate) const FOLD: &[&[Argument]] = &[&[Argument::Type], READING, WRITING, FILES];

pub(crate) const GRAPH: &[&[Argument]] = &[
    WIDTH,
    WEIGHTS,
    READING,
    &[Argument::Every],
    WRITING,
    PICTURE,
    FILES,
];

pub(crate) const CHART: &[&[Argument]] = &[WIDTH, WEIGHTS, READING, WRITING, PICTURE, FILES];

pub(crate) const SVG: &[&[Argument]] = &[
    WIDTH,
    WEIGHTS,
    READING,
    WRITING,
    &[Argument::Title, Argument::RootBelow],
    FILES,
];

pub(crate) const LIVE: &[&[Argument]] = &[
    WIDTH,
    &[Argument::LiveEvery, Argument::Ring, Argument::LiveStrict],
    &[Argument::Output, Argument::LivePage, Argument::Streams],
];

pub(crate) const COMPARE: &[&[Argument]] = &[
    WIDTH,
    WEIGHTS,
    READING,
    &[Argument::Boxes],
    WRITING,
    PICTURE,
    &[Argument::FormShare],
    PAIR,
];

pub(crate) const TOP: &[&[Argument]] = &[
    &[Argument::Rows, Argument::By],
    TABLE,
    WEIGHTS,
    READING,
    WRITING,
    FILES,
];

pub(crate) const DIFF: &[&[Argument]] = &[
    &[Argument::Rows, Argument::By],
    TABLE,
    &[Argument::Share, Argument::FailOver],
    WEIGHTS,
    READING,
    WRITING,
    PAIR,
];

pub(crate) const CALLS: &[&[Argument]] = &[
    &[Argument::Rows],
    TABLE,
    WEIGHTS,
    READING,
    WRITING,
    &[Argument::Function],
    FILES,
];

pub(crate) const TYPES: &[&[Argument]] = &[&[Argument::Output, Argument::Profile]];

impl Argument {
    // What the help says of it.
    fn help<'a>(&self) -> &'a str {
        match self {
            Argument::Width => "Width of the image in pixels, 1 to 65536 [default: 1200]",
            Argument::Type => "Sample type that weighs pprof profiles [default: the profile's own]",
            Argument::Format => "Format of every source, folded or pprof [default: by the name]",
            Argument::Focus =>
                "Keep only samples with a frame whose name has this text [repeatable]",
            Argument::Hide =>
                "Leave out samples with a frame whose name has this text [repeatable]",
            Argument::From =>
                "Begin each stack at its first frame of this whole name; leave out those without one",
            Argument::Omit => "Take the frames of this whole name out of each stack [repeatable]",
            Argument::Ring => "Size of the ring of each source, 1 to 65536 [default: 1024]",
            Argument::Every => "Write a snapshot after every N samples too, 1 to 1000000000",
            Argument::LiveEvery =>
                "Write the graph after every N samples, 1 to 1000000000 [default: 1000]",
            Argument::Lines => "Name the frames of pprof profiles by function and line",
            Argument::Boxes => "Write the differential flame graph as a line of JSON instead",
            Argument::Rows => "Number of functions, 1 to 1000000000 [default: 10]",
            Argument::By => "Weight that sorts the functions, own or total [default: own]",
            Argument::Json => "Write the table as a line of JSON instead",
            Argument::Exact => "Write weights as plain digits, whatever their unit",
            Argument::Share =>
                "Write and sort by shares of what each profile weighs, for profiles of different length",
            Argument::FailOver =>
                "Exit with 4 where a function's share of own weight grew by more than P percent points, 0 to 100",
            Argument::Unit =>
                "Unit of weights that have none: nanoseconds, microseconds, milliseconds, seconds, bytes or samples",
            Argument::Strict => "Refuse sources with an ignored line, or without a sample",
            Argument::LiveStrict => "End a stream at its first ignored line, as at a fault",
            Argument::Output => "File for what is written, which takes its place when it is whole",
            Argument::Quiet => "Show no progress on a terminal",
            Argument::Page => "Write a page for browsers instead",
            Argument::LivePage =>
                "Renew a page for browsers in FILE instead, which loads itself again while more is to come",
            Argument::Svg => "Write an SVG instead",
            Argument::Title => "Title of the page or the SVG",
            Argument::RootBelow => "Draw the root below in the page or the SVG",
            Argument::FormShare =>
                "Compare shares of what each profile weighs, for profiles of different length",
            Argument::Least => "Least weight of a box that the page keeps",
            Argument::Function => "The whole name of the function",
            Argument::Files =>
                "Profiles, pprof if named .pb, .pprof or .prof, else folded [default: standard input]",
            Argument::Streams => "Streams of folded lines, up to 64 [default: standard input]",
            Argument::Before => "The profile before",
            Argument::After => "The profile after",
            Argument::Profile => "The pprof profile, whatever its name",
        }
    }

    // The argument, as `clap` takes it.
    pub(crate) fn built<'a>(&self, alloc: Global) -> Arg<'a>
        ensures { rule_of result ≡ rule_at self.now }
    {
        let help = self.help();
        match self {
            Argument::Width => number_option(alloc, "width", MAX_WIDTH, help),
            Argument::Type => text_option(alloc, "type", "TYPE", help),
            Argument::Format => text_option(alloc, "format", "FORMAT", help),
            Argument::Focus => filter_option(alloc, "focus", help),
            Argument::Hide => filter_option(alloc, "hide", help),
            Argument::From => from_option(alloc, help),
            Argument::Omit => filter_option(alloc, "omit", help),
            Argument::Ring => ring_option(alloc, help),
            Argument::Every => number_option(alloc, "every", MOST_BETWEEN_SNAPSHOTS, help),
            Argument::LiveEvery => number_option(alloc, "every", MOST_BETWEEN_SNAPSHOTS, help),
            Argument::Lines => flag(alloc, "lines", help),
            Argument::Boxes => flag(alloc, "boxes", help),
            Argument::Rows => rows_option(alloc, help),
            Argument::By => text_option(alloc, "by", "WEIGHT", help),
            Argument::Json => flag(alloc, "json", help),
            Argument::Exact => flag(alloc, "exact", help),
            Argument::Share => flag(alloc, "share", help),
            Argument::FailOver => fail_over_option(alloc, help),
            Argument::Unit => text_option(alloc, "unit", "UNIT", help),
            Argument::Strict => flag(alloc, "strict", help),
            Argument::LiveStrict => flag(alloc, "strict", help),
            Argument::Output => output_option(alloc, help),
            Argument::Quiet => flag(alloc, "quiet", help),
            Argument::Page => form_flag(alloc, "page", help),
            Argument::LivePage => pages_option(alloc, help),
            Argument::Svg => form_flag(alloc, "svg", help),
            Argument::Title => title_option(alloc, help),
            Argument::RootBelow => form_flag(alloc, "root-below", help),
            Argument::FormShare => form_flag(alloc, "share", help),
            Argument::Least => least_option(alloc, help),
            Argument::Function => one_value(alloc, "function", "NAME", help),
            Argument::Files => files(alloc, help),
            Argument::Streams => files(alloc, help),
            Argument::Before => one_value(alloc, "before", "BEFORE", help),
            Argument::After => one_value(alloc, "after", "AFTER", help),
            Argument::Profile => one_value(alloc, "file", "FILE", help),
        }
    }
}
