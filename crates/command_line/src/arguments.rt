//! The kinds of arguments that commands have: options, flags and files.
ghost use Rattle.std.specs.Prelude.{◌≡◌, codes};
ghost use Rattle.clap.specs.Words.{rule_of};
ghost use Rattle.command_line.specs.CommandLine.{any_files, fail_over_option, flag, from_option, least_option, number_option, one_value, output_option, pages_option, ring_option, rows_option, text_option, texts_option, title_option};

use clap::builder::ValueParser;
use clap::{Arg, ArgAction, value_parser};
use run_options::LARGEST_RING;
use std::alloc::Global;

// The most samples from one snapshot to the next.
pub(crate) const MOST_BETWEEN_SNAPSHOTS: u32 = 1_000_000_000;

// The most rows of a table.
const MOST_ROWS: u32 = 1_000_000_000;

// The most hundredths of a whole.
pub(crate) const MOST_HUNDREDTHS: u64 = 100;

// The heading of what is said of the samples that are shown.
const FILTERS: &str = "Filters";

// The heading of what is said of pages and of SVGs.
const FORMS: &str = "Pages and SVGs";

// An option with a value, which is any text.
pub(crate) fn text_option<'a>(
    alloc: Global,
    name: &'a str,
    value: &'a str,
    help: &'a str,
) -> Arg<'a>
    ensures { rule_of result ≡ text_option name.entry.now }
{
    Arg::new(alloc, name)
        .long(name)
        .value_name(value)
        .help(help)
}

// An option with a number from 1 to `most`.
pub(crate) fn number_option<'a>(alloc: Global, name: &'a str, most: u32, help: &'a str) -> Arg<'a>
    ensures { rule_of result ≡ number_option name.entry.now most }
{
    text_option(alloc, name, "N", help).value_parser(value_parser!(u32).range(1..=i64::from(most)))
}

// An option that may be used several times, each time with a text that is not empty.
pub(crate) fn filter_option<'a>(alloc: Global, name: &'a str, help: &'a str) -> Arg<'a>
    ensures { rule_of result ≡ texts_option name.entry.now }
{
    text_option(alloc, name, "NAME", help)
        .action(ArgAction::Append)
        .value_parser(ValueParser::NonEmptyString)
        .help_heading(FILTERS)
}

pub(crate) fn from_option<'a>(alloc: Global, help: &'a str) -> Arg<'a>
    ensures { rule_of result ≡ from_option }
{
    text_option(alloc, "from", "NAME", help)
        .value_parser(ValueParser::NonEmptyString)
        .help_heading(FILTERS)
}

pub(crate) fn flag<'a>(alloc: Global, name: &'a str, help: &'a str) -> Arg<'a>
    ensures { rule_of result ≡ flag name.entry.now }
{
    Arg::new(alloc, name)
        .long(name)
        .action(ArgAction::SetTrue)
        .help(help)
}

pub(crate) fn ring_option<'a>(alloc: Global, help: &'a str) -> Arg<'a>
    ensures { rule_of result ≡ ring_option }
{
    number_option(alloc, "ring", LARGEST_RING, help).help_heading("Rarely needed")
}

pub(crate) fn rows_option<'a>(alloc: Global, help: &'a str) -> Arg<'a>
    ensures { rule_of result ≡ rows_option }
{
    number_option(alloc, "number", MOST_ROWS, help).short('n')
}

pub(crate) fn output_option<'a>(alloc: Global, help: &'a str) -> Arg<'a>
    ensures { rule_of result ≡ output_option }
{
    text_option(alloc, "output", "FILE", help)
        .short('o')
        .value_parser(ValueParser::NonEmptyString)
}

// Of another id than the flag of that name.
pub(crate) fn pages_option<'a>(alloc: Global, help: &'a str) -> Arg<'a>
    ensures { rule_of result ≡ pages_option }
{
    text_option(alloc, "pages", "FILE", help)
        .long("page")
        .value_parser(ValueParser::NonEmptyString)
}

pub(crate) fn fail_over_option<'a>(alloc: Global, help: &'a str) -> Arg<'a>
    ensures { rule_of result ≡ fail_over_option }
{
    text_option(alloc, "fail-over", "P", help).value_parser(ValueParser::unsigned(
        0,
        MOST_HUNDREDTHS,
    ))
}

pub(crate) fn form_flag<'a>(alloc: Global, name: &'a str, help: &'a str) -> Arg<'a>
    ensures { rule_of result ≡ flag name.entry.now }
{
    flag(alloc, name, help).help_heading(FORMS)
}

pub(crate) fn title_option<'a>(alloc: Global, help: &'a str) -> Arg<'a>
    ensures { rule_of result ≡ title_option }
{
    text_option(alloc, "title", "TEXT", help)
        .value_parser(ValueParser::NonEmptyString)
        .help_heading(FORMS)
}

pub(crate) fn least_option<'a>(alloc: Global, help: &'a str) -> Arg<'a>
    ensures { rule_of result ≡ least_option }
{
    text_option(alloc, "least", "N", help)
        .value_parser(value_parser!(u64))
        .help_heading(FORMS)
}

pub(crate) fn files<'a>(alloc: Global, help: &'a str) -> Arg<'a>
    ensures { rule_of result ≡ any_files (codes "file") }
{
    Arg::new(alloc, "file")
        .value_name("FILE")
        .action(ArgAction::Append)
        .help(help)
}

// A value that has to be there.
pub(crate) fn one_value<'a>(alloc: Global, id: &'a str, name: &'a str, help: &'a str) -> Arg<'a>
    ensures { rule_of result ≡ one_value id.entry.now }
{
    Arg::new(alloc, id)
        .value_name(name)
        .required(true)
        .help(help)
}
