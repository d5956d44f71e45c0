//! The view that a command asks for, and what is written of it.
ghost use Rattle.std.specs.Prelude.{◌≡◌, IfOk, IsSome, Some, codes};
ghost use Rattle.command_line.specs.Plans.{call_table_of, compared_view, diff_table_of, form_of, function_of, is_drawn, is_root_below, is_share, number_at, order_of, page_of, picture_of, rows_of, shows_boxes, table_of, text_form, view_of, width_of};
ghost use Rattle.command_line.specs.checked.Entries.{GREATEST_COUNT, IsCountAt, IsFlagAt, IsNumberAt, IsRead, entries_of};
ghost use Rattle.command_line.specs.declared.arguments.TheConstants.{MOST_HUNDREDTHS, MOST_ROWS};
ghost use Rattle.run_options.specs.declared.widths.TheConstants.{MAX_WIDTH};

use crate::entries::first;
use crate::plans::{CallTable, DiffTable, Form, PageForm, PictureForm, TopTable, View};
use clap::ArgMatches;
use run_options::{FunctionOrder, Width};
use stack_core::Text;
use std::alloc::{AllocError, Global};

// The width of an image unless the words set it.
const DEFAULT_WIDTH: u32 = 1_200;

// The rows of a table unless the words set them.
const DEFAULT_ROWS: u64 = 10;

pub(crate) fn view(name: &str, entries: &ArgMatches<'_>) -> View
    requires read { IsRead name.now (entries_of entries.now) }
    requires known { IsSome (view_of name.now (entries_of entries.now)) }
    ensures { view_of name.now (entries_of entries.now) ≡ Some result }
{
    match name {
        "fold" => View::Fold,
        "graph" => View::Graph(width(entries)),
        "chart" => View::Chart(width(entries)),
        "compare" => compared_view(entries),
        "top" => View::Top(table(entries)),
        "diff" => View::Diff(diff_table(entries)),
        "callers" | "callees" | "peek" => View::Fold,
        _ => unreachable!(),
    }
}

fn compared_view(entries: &ArgMatches<'_>) -> View
    requires width { IsNumberAt (codes "width") MAX_WIDTH (entries_of entries.now) }
    requires boxes { IsFlagAt (codes "boxes") (entries_of entries.now) }
    requires page { IsFlagAt (codes "page") (entries_of entries.now) }
    requires svg { IsFlagAt (codes "svg") (entries_of entries.now) }
    ensures { result ≡ compared_view (entries_of entries.now) }
{
    if shows_boxes(entries) {
        View::PairBoxes(width(entries))
    } else {
        View::Pairs
    }
}

// A page or a picture shows boxes, whatever else is said.
fn shows_boxes(entries: &ArgMatches<'_>) -> bool
    requires boxes { IsFlagAt (codes "boxes") (entries_of entries.now) }
    requires page { IsFlagAt (codes "page") (entries_of entries.now) }
    requires svg { IsFlagAt (codes "svg") (entries_of entries.now) }
    ensures { result ≡ shows_boxes (entries_of entries.now) }
{
    entries.get_flag("boxes") || is_drawn(entries)
}

// A page or a picture is asked for.
pub(crate) fn is_drawn(entries: &ArgMatches<'_>) -> bool
    requires page { IsFlagAt (codes "page") (entries_of entries.now) }
    requires svg { IsFlagAt (codes "svg") (entries_of entries.now) }
    ensures { result ≡ is_drawn (entries_of entries.now) }
{
    entries.get_flag("page") || entries.get_flag("svg")
}

pub(crate) fn width(entries: &ArgMatches<'_>) -> Width
    requires { IsNumberAt (codes "width") MAX_WIDTH (entries_of entries.now) }
    ensures { result ≡ width_of (entries_of entries.now) }
{
    let pixels = entries.get_one::<u32>("width").unwrap_or(DEFAULT_WIDTH);
    Width::of(pixels).unwrap()
}

fn table(entries: &ArgMatches<'_>) -> TopTable
    requires rows { IsNumberAt (codes "number") MOST_ROWS (entries_of entries.now) }
    requires json { IsFlagAt (codes "json") (entries_of entries.now) }
    requires exact { IsFlagAt (codes "exact") (entries_of entries.now) }
    ensures { result ≡ table_of (entries_of entries.now) }
{
    TopTable {
        by: order(entries),
        rows: rows(entries),
        is_json: entries.get_flag("json"),
        is_exact: entries.get_flag("exact"),
    }
}

fn diff_table(entries: &ArgMatches<'_>) -> DiffTable
    requires rows { IsNumberAt (codes "number") MOST_ROWS (entries_of entries.now) }
    requires json { IsFlagAt (codes "json") (entries_of entries.now) }
    requires exact { IsFlagAt (codes "exact") (entries_of entries.now) }
    requires share { IsFlagAt (codes "share") (entries_of entries.now) }
    requires over { IsCountAt (codes "fail-over") MOST_HUNDREDTHS (entries_of entries.now) }
    ensures { result ≡ diff_table_of (entries_of entries.now) }
{
    DiffTable {
        table: table(entries),
        is_share: is_share(entries),
        fail_over: entries.get_one::<u64>("fail-over"),
    }
}

fn order(entries: &ArgMatches<'_>) -> FunctionOrder
    ensures { result ≡ order_of (entries_of entries.now) }
{
    match entries.get_str("by") {
        Some(name) => FunctionOrder::named(name).unwrap_or(FunctionOrder::Own),
        None => FunctionOrder::Own,
    }
}

fn rows(entries: &ArgMatches<'_>) -> u64
    requires { IsNumberAt (codes "number") MOST_ROWS (entries_of entries.now) }
    ensures { result ≡ rows_of (entries_of entries.now) }
{
    match entries.get_one::<u32>("number") {
        Some(rows) => u64::from(rows),
        None => DEFAULT_ROWS,
    }
}

// What is written of the view.
pub(crate) fn form(alloc: Global, name: &str, entries: &ArgMatches<'_>) -> Result<Form, AllocError>
    requires page { IsFlagAt (codes "page") (entries_of entries.now) }
    requires svg { IsFlagAt (codes "svg") (entries_of entries.now) }
    requires below { IsFlagAt (codes "root-below") (entries_of entries.now) }
    requires share { IsFlagAt (codes "share") (entries_of entries.now) }
    requires least { IsCountAt (codes "least") GREATEST_COUNT (entries_of entries.now) }
    requires rows { IsNumberAt (codes "number") MOST_ROWS (entries_of entries.now) }
    requires json { IsFlagAt (codes "json") (entries_of entries.now) }
    requires exact { IsFlagAt (codes "exact") (entries_of entries.now) }
    ensures { IfOk result (λ form. form ≡ form_of name.now (entries_of entries.now)) }
{
    if entries.get_flag("page") {
        Ok(Form::Page(page(alloc, entries)?))
    } else if entries.get_flag("svg") {
        Ok(Form::Picture(picture(alloc, entries)?))
    } else {
        text_form(alloc, name, entries)
    }
}

// What is written where neither a page nor a picture is asked for.
fn text_form(alloc: Global, name: &str, entries: &ArgMatches<'_>) -> Result<Form, AllocError>
    requires rows { IsNumberAt (codes "number") MOST_ROWS (entries_of entries.now) }
    requires json { IsFlagAt (codes "json") (entries_of entries.now) }
    requires exact { IsFlagAt (codes "exact") (entries_of entries.now) }
    ensures { IfOk result (λ form. form ≡ text_form name.now (entries_of entries.now)) }
{
    match name {
        "callers" => Ok(Form::Callers(call_table(alloc, entries)?)),
        "callees" => Ok(Form::Callees(call_table(alloc, entries)?)),
        "peek" => Ok(Form::Peek(call_table(alloc, entries)?)),
        _ => Ok(Form::Text),
    }
}

fn call_table(alloc: Global, entries: &ArgMatches<'_>) -> Result<CallTable, AllocError>
    requires rows { IsNumberAt (codes "number") MOST_ROWS (entries_of entries.now) }
    requires json { IsFlagAt (codes "json") (entries_of entries.now) }
    requires exact { IsFlagAt (codes "exact") (entries_of entries.now) }
    ensures { IfOk result (λ table. table ≡ call_table_of (entries_of entries.now)) }
{
    Ok(CallTable {
        name: Text::from_str(alloc, function(entries))?,
        rows: rows(entries),
        is_json: entries.get_flag("json"),
        is_exact: entries.get_flag("exact"),
    })
}

// The function that is asked for.
fn function<'a>(entries: &ArgMatches<'a>) -> &'a str
    ensures { result.now ≡ function_of (entries_of entries.now) }
{
    match entries.get_str("function") {
        Some(name) => name,
        None => "",
    }
}

fn page(alloc: Global, entries: &ArgMatches<'_>) -> Result<PageForm, AllocError>
    requires below { IsFlagAt (codes "root-below") (entries_of entries.now) }
    requires share { IsFlagAt (codes "share") (entries_of entries.now) }
    requires least { IsCountAt (codes "least") GREATEST_COUNT (entries_of entries.now) }
    ensures { IfOk result (λ page. page ≡ page_of (entries_of entries.now)) }
{
    Ok(PageForm {
        title: first(alloc, entries, "title")?,
        least: least(entries),
        is_root_below: is_root_below(entries),
        is_share: is_share(entries),
    })
}

pub(crate) fn picture(alloc: Global, entries: &ArgMatches<'_>) -> Result<PictureForm, AllocError>
    requires below { IsFlagAt (codes "root-below") (entries_of entries.now) }
    requires share { IsFlagAt (codes "share") (entries_of entries.now) }
    ensures { IfOk result (λ picture. picture ≡ picture_of (entries_of entries.now)) }
{
    Ok(PictureForm {
        title: first(alloc, entries, "title")?,
        is_root_below: is_root_below(entries),
        is_share: is_share(entries),
    })
}

// The root is below in the page or the picture.
pub(crate) fn is_root_below(entries: &ArgMatches<'_>) -> bool
    requires { IsFlagAt (codes "root-below") (entries_of entries.now) }
    ensures { result ≡ is_root_below (entries_of entries.now) }
{
    entries.get_flag("root-below")
}

// Shares are compared, and not weights.
pub(crate) fn is_share(entries: &ArgMatches<'_>) -> bool
    requires { IsFlagAt (codes "share") (entries_of entries.now) }
    ensures { result ≡ is_share (entries_of entries.now) }
{
    entries.get_flag("share")
}

fn least(entries: &ArgMatches<'_>) -> Option<u64>
    requires { IsCountAt (codes "least") GREATEST_COUNT (entries_of entries.now) }
    ensures { result ≡ number_at (codes "least") (entries_of entries.now) }
{
    entries.get_one::<u64>("least")
}
