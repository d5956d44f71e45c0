//! Why words are refused, and the entries that `clap` takes and that mean nothing.
ghost use Rattle.std.specs.Prelude.{◌≡◌, [], IfErr, OnOk, codes, is_some, map, string_bytes};
ghost use Rattle.clap.specs.declared.error.kind.ErrorKind.TheVariants.{InvalidValue};
ghost use Rattle.clap.specs.Words.{kind_of};
ghost use Rattle.command_line.specs.EarlyValues.{told_kind};
ghost use Rattle.command_line.specs.Plans.{IsFaultAmong, draws_shares, entries_fault, has_conflict, has_its_form, has_its_page, has_picture_conflict, has_two_files, knows_format, knows_order, knows_unit};
ghost use Rattle.command_line.specs.checked.Entries.{IsFaultOf, IsFlagAt, entries_of};

use crate::early_values::{Choice, refused_before_help};
use crate::plans::PlanFault;
use crate::units::WeightUnit;
use crate::usages::{completed, error_of};
use crate::views::{is_drawn, is_root_below, is_share};
use clap::error::ErrorKind;
use clap::{ArgMatches, Error};
use run_options::{Format, FunctionOrder};
use std::alloc::Global;

// What is said of pages beside another output.
const PAGE_AND_OUTPUT: &str = "the argument '--page <FILE>' cannot be used with '--output <FILE>'";

// What is said of a picture beside what it excludes.
const SVG_AND_PAGE: &str = "the argument '--svg' cannot be used with '--page'";

const SVG_AND_EVERY: &str = "the argument '--svg' cannot be used with '--every <N>'";

const SVG_AND_LEAST: &str = "the argument '--svg' cannot be used with '--least <N>'";

// What is said of a least weight without a page, and of a title, a root below or drawn shares with neither a page nor a picture.
const MISSING_PAGE: &str = "the following required arguments were not provided:\n  --page";

const MISSING_FORM: &str = "the following required arguments were not provided:\n  <--page|--svg>";

// What the error of the parse of these words is for the caller. A value that `clap` takes and that is refused comes before the help
// that is asked for behind it, as those do that `clap` refuses.
pub(crate) fn parse_refusal(alloc: Global, words: &[String], error: &Error) -> PlanFault
    ensures { IsFaultOf (told_kind (map string_bytes words.now) (kind_of error.now)) result }
{
    let name = command_name(words);
    if error.kind() == ErrorKind::DisplayHelp {
        if let Some((choice, given)) = refused_before_help(words) {
            return refused_value(alloc, name, choice, given);
        }
    }
    refusal(alloc, name, error)
}

// The first word, which is that of the command.
fn command_name(words: &[String]) -> &str {
    match words.first() {
        Some(word) => word.as_str(),
        None => "",
    }
}

// What the error of the command is for the caller.
fn refusal(alloc: Global, name: &str, error: &Error) -> PlanFault
    ensures { IsFaultOf (kind_of error.now) result }
{
    let kind = error.kind();
    if kind == ErrorKind::OutOfMemory {
        return PlanFault::OutOfMemory;
    }
    let is_asked_for = kind == ErrorKind::DisplayHelp || kind == ErrorKind::DisplayVersion;
    match error.to_string(alloc) {
        Ok(text) if is_asked_for => PlanFault::Help(text),
        Ok(text) => match completed(alloc, name, kind, text) {
            Ok(text) => PlanFault::Words(text),
            Err(_) => PlanFault::OutOfMemory,
        },
        Err(_) => PlanFault::OutOfMemory,
    }
}

// Refuses a format, an order of functions or a unit that there is not, what excludes each other, and what is said of a page or a
// picture where none is asked for.
pub(crate) fn check_entries(
    alloc: Global,
    name: &str,
    entries: &ArgMatches<'_>,
) -> Result<(), PlanFault>
    requires page { IsFlagAt (codes "page") (entries_of entries.now) }
    requires svg { IsFlagAt (codes "svg") (entries_of entries.now) }
    requires below { IsFlagAt (codes "root-below") (entries_of entries.now) }
    requires share { IsFlagAt (codes "share") (entries_of entries.now) }
    ensures meant { OnOk result (entries_fault name.now (entries_of entries.now) ≡ []) }
    ensures refused { IfErr result (IsFaultAmong (entries_fault name.now (entries_of entries.now))) }
{
    if !knows_format(entries) {
        let given = entries.get_str("format").unwrap_or("");
        return Err(refused_value(alloc, name, Choice::Format, given));
    }
    if !knows_order(entries) {
        let given = entries.get_str("by").unwrap_or("");
        return Err(refused_value(alloc, name, Choice::Order, given));
    }
    if !knows_unit(entries) {
        let given = entries.get_str("unit").unwrap_or("");
        return Err(refused_value(alloc, name, Choice::Unit, given));
    }
    if let Some(conflict) = conflict(entries) {
        return Err(refused(alloc, name, ErrorKind::ArgumentConflict, conflict));
    }
    if !has_its_page(entries) {
        return Err(refused(
            alloc,
            name,
            ErrorKind::MissingRequiredArgument,
            MISSING_PAGE,
        ));
    }
    if !has_its_form(name, entries) {
        return Err(refused(
            alloc,
            name,
            ErrorKind::MissingRequiredArgument,
            MISSING_FORM,
        ));
    }
    Ok(())
}

fn knows_format(entries: &ArgMatches<'_>) -> bool
    ensures { result ≡ knows_format (entries_of entries.now) }
{
    match entries.get_str("format") {
        Some(name) => Format::named(name).is_some(),
        None => true,
    }
}

fn knows_order(entries: &ArgMatches<'_>) -> bool
    ensures { result ≡ knows_order (entries_of entries.now) }
{
    match entries.get_str("by") {
        Some(name) => FunctionOrder::named(name).is_some(),
        None => true,
    }
}

fn knows_unit(entries: &ArgMatches<'_>) -> bool
    ensures { result ≡ knows_unit (entries_of entries.now) }
{
    match entries.get_str("unit") {
        Some(name) => WeightUnit::named(name).is_some(),
        None => true,
    }
}

// What is said of what excludes each other, if there is such.
fn conflict(entries: &ArgMatches<'_>) -> Option<&'static str>
    requires page { IsFlagAt (codes "page") (entries_of entries.now) }
    requires svg { IsFlagAt (codes "svg") (entries_of entries.now) }
    ensures { is_some result ≡ has_conflict (entries_of entries.now) }
{
    if has_two_files(entries) {
        Some(PAGE_AND_OUTPUT)
    } else {
        picture_conflict(entries)
    }
}

// A file of pages and one for what is written.
fn has_two_files(entries: &ArgMatches<'_>) -> bool
    ensures { result ≡ has_two_files (entries_of entries.now) }
{
    if entries.contains_id("pages") {
        entries.contains_id("output")
    } else {
        false
    }
}

// What is said of a picture beside the first thing that it excludes, if there is one.
fn picture_conflict(entries: &ArgMatches<'_>) -> Option<&'static str>
    requires page { IsFlagAt (codes "page") (entries_of entries.now) }
    requires svg { IsFlagAt (codes "svg") (entries_of entries.now) }
    ensures { is_some result ≡ has_picture_conflict (entries_of entries.now) }
{
    if !entries.get_flag("svg") {
        None
    } else if entries.get_flag("page") {
        Some(SVG_AND_PAGE)
    } else if entries.contains_id("every") {
        Some(SVG_AND_EVERY)
    } else if entries.contains_id("least") {
        Some(SVG_AND_LEAST)
    } else {
        None
    }
}

fn has_its_page(entries: &ArgMatches<'_>) -> bool
    requires { IsFlagAt (codes "page") (entries_of entries.now) }
    ensures { result ≡ has_its_page (entries_of entries.now) }
{
    if entries.get_flag("page") {
        true
    } else {
        !entries.contains_id("least")
    }
}

fn has_its_form(name: &str, entries: &ArgMatches<'_>) -> bool
    requires page { IsFlagAt (codes "page") (entries_of entries.now) }
    requires svg { IsFlagAt (codes "svg") (entries_of entries.now) }
    requires below { IsFlagAt (codes "root-below") (entries_of entries.now) }
    requires share { IsFlagAt (codes "share") (entries_of entries.now) }
    ensures { result ≡ has_its_form name.now (entries_of entries.now) }
{
    if name == "svg" {
        true
    } else if is_drawn(entries) {
        true
    } else if entries.contains_id("title") {
        false
    } else if is_root_below(entries) {
        false
    } else {
        !draws_shares(name, entries)
    }
}

// Of the two commands that compare shares, `diff` tells them in its table.
fn draws_shares(name: &str, entries: &ArgMatches<'_>) -> bool
    requires { IsFlagAt (codes "share") (entries_of entries.now) }
    ensures { result ≡ draws_shares name.now (entries_of entries.now) }
{
    name == "compare" && is_share(entries)
}

// The refusal of a value that the option can't have, with those that it can.
fn refused_value(alloc: Global, name: &str, choice: Choice, given: &str) -> PlanFault
    ensures { IsFaultOf InvalidValue result }
{
    let option = choice.shown();
    let possible = choice.possible();
    match format!(in alloc;
        "invalid value '{given}' for '{option}'\n  [possible values: {possible}]"
    ) {
        Ok(message) => refused(alloc, name, ErrorKind::InvalidValue, message.as_str()),
        Err(_) => PlanFault::OutOfMemory,
    }
}

// A refusal of that kind, with the text that `clap` makes of the message for the command.
fn refused(alloc: Global, name: &str, kind: ErrorKind, message: &str) -> PlanFault
    ensures { IsFaultOf kind result }
{
    match error_of(alloc, name, kind, message) {
        Ok(error) => refusal(alloc, name, &error),
        Err(_) => PlanFault::OutOfMemory,
    }
}
