//! What a test wants of a line's plan, or of the fault in its place.

use command_line::{CallTable, DiffTable, Form, Plan, TopTable, View, WeightUnit};
use run_options::{Format, Naming, Options, Pick, Width};
use stack_core::{Names, Text};

/// A view, whose width is a number.
#[derive(Clone, Copy)]
pub(crate) enum Shown {
    Fold,
    Graph(u32),
    Chart(u32),
    Pairs,
    PairBoxes(u32),
    Top(TopTable),
    Diff(DiffTable),
}

/// What words set of the options.
#[derive(Clone, Copy)]
pub(crate) struct Set<'a> {
    pub(crate) ring: u32,
    pub(crate) name: Option<&'a str>,
    pub(crate) naming: Naming,
    pub(crate) every: Option<u64>,
}

/// What is set where no word sets it.
pub(crate) const NOTHING: Set<'static> = Set {
    ring: 1_024,
    name: None,
    naming: Naming::Plain,
    every: None,
};

/// Which calls of a function are told.
#[derive(Clone, Copy)]
pub(crate) enum Told {
    Callers,
    Callees,
    Both,
}

/// What is asked of the calls of a function.
#[derive(Clone, Copy)]
pub(crate) struct Calls<'a> {
    pub(crate) name: &'a str,
    pub(crate) told: Told,
    pub(crate) rows: u64,
    pub(crate) is_json: bool,
}

/// What a test wants of a line.
#[derive(Clone, Copy)]
pub(crate) enum Wanted<'a> {
    /// This view.
    View(Shown),
    /// These files, in this order.
    Files(&'a [&'a str]),
    /// This view of these files, with no other option.
    Defaults(Shown, &'a [&'a str]),
    /// These options.
    Options(Set<'a>),
    /// The names that are focused and hidden.
    Filter(&'a [&'a str], &'a [&'a str]),
    /// The name of the frame at which stacks begin, with no other option.
    From(&'a str),
    /// The names whose frames are left out, with no other option.
    Omit(&'a [&'a str]),
    /// This format, with no other option.
    Format(Option<Format>),
    /// A text, and progress.
    LoudText,
    /// No progress, with no other option.
    Quiet,
    /// This unit of weights that have none, with no other option.
    Unit(Option<WeightUnit>),
    /// A page, with this title and this least weight, and the root above.
    Page(Option<&'a str>, Option<u64>),
    /// A page, with the root below, and neither title nor least weight.
    PageBelow,
    /// A picture, with this title, and with the root below or above.
    Picture(Option<&'a str>, bool),
    /// This file for what is written, or none.
    Output(Option<&'a str>),
    /// A page or a picture that compares shares, or weights.
    Share(bool),
    /// The sample types of this file, with progress and no other option.
    Types(&'a str),
    /// The callers of this function, its callees, or both, so many and as JSON or not, in place of a view.
    Calls(Calls<'a>),
    /// The graphs of streams, of this width and after so many samples, of these files.
    Live(u32, u64, &'a [&'a str]),
    /// The same of width 1200 after 1000 samples, read strictly.
    StrictLive(&'a [&'a str]),
    /// The same on pages in this file, and no other file, of these files.
    LivePage(&'a str, &'a [&'a str]),
    /// Words that are refused, with a text that begins so, has this part, and tells how to get help.
    Refused(&'a str, &'a str),
    /// Help, which has this part.
    Help(&'a str),
    /// One line, which begins with the program's name and a year.
    Version,
}

/// Words that are refused, whatever is said of them.
pub(crate) const REFUSED: Wanted<'static> = Wanted::Refused("error: ", "");

fn view_of(shown: Shown) -> Option<View> {
    Some(match shown {
        Shown::Fold => View::Fold,
        Shown::Graph(pixels) => View::Graph(Width::of(pixels)?),
        Shown::Chart(pixels) => View::Chart(Width::of(pixels)?),
        Shown::Pairs => View::Pairs,
        Shown::PairBoxes(pixels) => View::PairBoxes(Width::of(pixels)?),
        Shown::Top(table) => View::Top(table),
        Shown::Diff(table) => View::Diff(table),
    })
}

fn is_view(view: View, shown: Shown) -> bool {
    view_of(shown) == Some(view)
}

fn are(names: &Names, texts: &[&str]) -> bool {
    let names = names.get();
    if names.len() != texts.len() {
        return false;
    }
    for at in 0..names.len() {
        if names[at].as_str() != texts[at] {
            return false;
        }
    }
    true
}

fn is_picked(pick: &Pick, name: Option<&str>) -> bool {
    match pick {
        Pick::Preferred => name.is_none(),
        Pick::Named(text) => name == Some(text.get()),
    }
}

fn options_are(options: &Options, set: &Set<'_>) -> bool {
    options.ring.get() == set.ring
        && is_picked(&options.pick, set.name)
        && options.naming == set.naming
        && options.every == set.every
}

fn has_defaults(plan: &Plan) -> bool {
    options_are(&plan.options, &NOTHING)
        && plan.options.filter.is_everything()
        && plan.from.is_none()
        && are(&plan.omit, &[])
        && plan.output.is_none()
}

fn begins_at(plan: &Plan, name: &str) -> bool {
    options_are(&plan.options, &NOTHING)
        && plan.options.filter.is_everything()
        && is_titled(&plan.from, Some(name))
        && are(&plan.omit, &[])
}

fn leaves_out(plan: &Plan, names: &[&str]) -> bool {
    options_are(&plan.options, &NOTHING)
        && plan.options.filter.is_everything()
        && plan.from.is_none()
        && are(&plan.omit, names)
}

fn is_filtered(plan: &Plan, focus: &[&str], hide: &[&str]) -> bool {
    are(&plan.options.filter.focus, focus) && are(&plan.options.filter.hide, hide)
}

fn is_titled(found: &Option<Text>, title: Option<&str>) -> bool {
    match found {
        Some(text) => title == Some(text.get()),
        None => title.is_none(),
    }
}

fn is_page(form: &Form, title: Option<&str>, least: Option<u64>, is_below: bool) -> bool {
    match form {
        Form::Page(page) => {
            page.least == least && page.is_root_below == is_below && is_titled(&page.title, title)
        }
        _ => false,
    }
}

fn is_picture(form: &Form, title: Option<&str>, is_below: bool) -> bool {
    match form {
        Form::Picture(picture) => {
            picture.is_root_below == is_below && is_titled(&picture.title, title)
        }
        _ => false,
    }
}

fn is_of_shares(form: &Form, is_share: bool) -> bool {
    match form {
        Form::Page(page) => page.is_share == is_share,
        Form::Picture(picture) => picture.is_share == is_share,
        _ => false,
    }
}

fn is_of_types(plan: &Plan, file: &str) -> bool {
    !plan.is_quiet
        && matches!(&plan.form, Form::Types)
        && plan.format == Some(Format::Pprof)
        && has_defaults(plan)
        && are(&plan.files, &[file])
}

fn is_live(plan: &Plan, width: u32, every: u64, files: &[&str]) -> bool {
    matches!(&plan.form, Form::Live)
        && is_view(plan.view, Shown::Graph(width))
        && plan.format == Some(Format::Folded)
        && plan.options.every == Some(every)
        && plan.options.filter.is_everything()
        && plan.from.is_none()
        && are(&plan.omit, &[])
        && are(&plan.files, files)
}

fn is_strict_live(plan: &Plan, files: &[&str]) -> bool {
    plan.is_strict && is_live(plan, 1_200, 1_000, files)
}

fn is_live_page(plan: &Plan, path: &str, files: &[&str]) -> bool {
    is_titled(&plan.pages, Some(path))
        && plan.output.is_none()
        && is_live(plan, 1_200, 1_000, files)
}

fn are_calls(plan: &Plan, calls: &Calls<'_>) -> bool {
    plan.view == View::Fold
        && match &plan.form {
            Form::Callers(table) => matches!(calls.told, Told::Callers) && is_table(table, calls),
            Form::Callees(table) => matches!(calls.told, Told::Callees) && is_table(table, calls),
            Form::Peek(table) => matches!(calls.told, Told::Both) && is_table(table, calls),
            _ => false,
        }
}

fn is_table(table: &CallTable, calls: &Calls<'_>) -> bool {
    table.name.get() == calls.name && table.rows == calls.rows && table.is_json == calls.is_json
}

/// Whether a plan has this.
pub(crate) fn has(plan: &Plan, wanted: &Wanted<'_>) -> bool {
    match *wanted {
        Wanted::View(shown) => is_view(plan.view, shown),
        Wanted::Files(files) => are(&plan.files, files),
        Wanted::Defaults(shown, files) => {
            is_view(plan.view, shown) && has_defaults(plan) && are(&plan.files, files)
        }
        Wanted::Options(set) => options_are(&plan.options, &set),
        Wanted::Filter(focus, hide) => is_filtered(plan, focus, hide),
        Wanted::From(name) => begins_at(plan, name),
        Wanted::Omit(names) => leaves_out(plan, names),
        Wanted::Format(format) => plan.format == format && has_defaults(plan),
        Wanted::LoudText => !plan.is_quiet && matches!(&plan.form, Form::Text),
        Wanted::Quiet => plan.is_quiet && has_defaults(plan),
        Wanted::Unit(unit) => plan.unit == unit && has_defaults(plan),
        Wanted::Page(title, least) => is_page(&plan.form, title, least, false),
        Wanted::PageBelow => is_page(&plan.form, None, None, true),
        Wanted::Picture(title, is_below) => is_picture(&plan.form, title, is_below),
        Wanted::Output(path) => is_titled(&plan.output, path),
        Wanted::Share(is_share) => is_of_shares(&plan.form, is_share),
        Wanted::Types(file) => is_of_types(plan, file),
        Wanted::Calls(calls) => are_calls(plan, &calls),
        Wanted::Live(width, every, files) => {
            !plan.is_strict && is_live(plan, width, every, files) && plan.pages.is_none()
        }
        Wanted::StrictLive(files) => is_strict_live(plan, files) && plan.pages.is_none(),
        Wanted::LivePage(path, files) => is_live_page(plan, path, files),
        Wanted::Refused(..) | Wanted::Help(_) | Wanted::Version => false,
    }
}
