//! Worked command lines of what a run writes: pages, pictures, and sample types; and of runs that show no progress.

use super::lines::are_answered;
use super::wanted::{REFUSED, Shown, Wanted};
use std::test::Fail;

const COMMANDS: &[(&str, Wanted<'static>)] = &[
    ("fold", Wanted::LoudText),
    ("graph", Wanted::LoudText),
    ("chart", Wanted::LoudText),
    ("compare a b", Wanted::LoudText),
    ("top", Wanted::LoudText),
];

#[test]
fn texts_unless_another_form_is_asked_for(rt: HostRuntime) -> Result<(), Fail> {
    are_answered(&rt, COMMANDS)
}

const QUIET: &[(&str, Wanted<'static>)] = &[
    ("fold --quiet", Wanted::Quiet),
    ("graph --quiet", Wanted::Quiet),
    ("chart --quiet", Wanted::Quiet),
    ("compare a b --quiet", Wanted::Quiet),
    ("top --quiet", Wanted::Quiet),
];

#[test]
fn quiet_runs(rt: HostRuntime) -> Result<(), Fail> {
    are_answered(&rt, QUIET)
}

const PAGES: &[(&str, Wanted<'static>)] = &[
    ("graph --page", Wanted::Page(None, None)),
    ("graph --page --title t", Wanted::Page(Some("t"), None)),
    ("chart x --least 7 --page", Wanted::Page(None, Some(7))),
    (
        "chart --title=t=u --least=0 --page",
        Wanted::Page(Some("t=u"), Some(0)),
    ),
    (
        "compare a b --page --least 18446744073709551615",
        Wanted::Page(None, Some(u64::MAX)),
    ),
    ("graph --root-below --page", Wanted::PageBelow),
    ("compare a --page b --root-below", Wanted::PageBelow),
];

#[test]
fn pages(rt: HostRuntime) -> Result<(), Fail> {
    are_answered(&rt, PAGES)
}

const PLAIN: &str = "compare --page --width 9 a b";

const BOXES: &str = "compare --page --boxes --width 9 a b";

const PAGES_OF_BOXES: &[(&str, Wanted<'static>)] = &[
    (PLAIN, Wanted::View(Shown::PairBoxes(9))),
    (PLAIN, Wanted::Page(None, None)),
    (BOXES, Wanted::View(Shown::PairBoxes(9))),
    (BOXES, Wanted::Page(None, None)),
];

#[test]
fn pages_of_comparisons_show_boxes(rt: HostRuntime) -> Result<(), Fail> {
    are_answered(&rt, PAGES_OF_BOXES)
}

const PICTURES: &[(&str, Wanted<'static>)] = &[
    ("graph --svg", Wanted::Picture(None, false)),
    ("chart x --svg --title t", Wanted::Picture(Some("t"), false)),
    (
        "graph --title=t=u --root-below --svg",
        Wanted::Picture(Some("t=u"), true),
    ),
    ("compare a --svg b", Wanted::Picture(None, false)),
    (
        "compare --svg --root-below a b",
        Wanted::Picture(None, true),
    ),
    ("graph --svg --width 9", Wanted::View(Shown::Graph(9))),
    ("chart --svg", Wanted::View(Shown::Chart(1_200))),
    (
        "compare --svg --width 9 a b",
        Wanted::View(Shown::PairBoxes(9)),
    ),
    (
        "compare a b --boxes --svg",
        Wanted::View(Shown::PairBoxes(1_200)),
    ),
    ("graph --svg --quiet", Wanted::Quiet),
];

#[test]
fn pictures(rt: HostRuntime) -> Result<(), Fail> {
    are_answered(&rt, PICTURES)
}

const SVGS: &[(&str, Wanted<'static>)] = &[
    ("svg", Wanted::Picture(None, false)),
    ("svg cpu.pb", Wanted::Picture(None, false)),
    (
        "svg a --title t b --root-below",
        Wanted::Picture(Some("t"), true),
    ),
    ("svg a b", Wanted::View(Shown::Graph(1_200))),
    ("svg --width 9 a b", Wanted::View(Shown::Graph(9))),
    ("svg a b", Wanted::Files(&["a", "b"])),
    ("svg", Wanted::Output(None)),
    ("svg cpu.pb", Wanted::Output(Some("cpu.pb.svg"))),
    ("svg a/b c", Wanted::Output(Some("a/b.svg"))),
    ("svg -o x.svg a", Wanted::Output(Some("x.svg"))),
    ("svg -o x", Wanted::Output(Some("x"))),
    ("graph --svg a", Wanted::Output(None)),
    ("graph --svg -o x a", Wanted::Output(Some("x"))),
    ("svg --every 5", REFUSED),
    ("svg --page", REFUSED),
    ("svg --svg", REFUSED),
    ("svg --least 5", REFUSED),
    ("svg --json", REFUSED),
];

#[test]
fn svgs_beside_their_files(rt: HostRuntime) -> Result<(), Fail> {
    are_answered(&rt, SVGS)
}

const SHARES: &[(&str, Wanted<'static>)] = &[
    ("compare a b --page --share", Wanted::Share(true)),
    ("compare --share --svg a b", Wanted::Share(true)),
    ("compare a b --page", Wanted::Share(false)),
    ("compare a b --svg", Wanted::Share(false)),
    ("graph --page", Wanted::Share(false)),
    ("chart --svg", Wanted::Share(false)),
    ("compare a b --share --page", Wanted::Page(None, None)),
    (
        "compare a b --share --svg --title t",
        Wanted::Picture(Some("t"), false),
    ),
];

#[test]
fn shares_of_comparisons(rt: HostRuntime) -> Result<(), Fail> {
    are_answered(&rt, SHARES)
}

const TYPES: &[(&str, Wanted<'static>)] = &[
    ("types cpu.pprof", Wanted::Types("cpu.pprof")),
    ("types x.folded", Wanted::Types("x.folded")),
    ("types -", Wanted::Types("-")),
];

#[test]
fn sample_types_of_a_file(rt: HostRuntime) -> Result<(), Fail> {
    are_answered(&rt, TYPES)
}

const REFUSED_LINES: &[(&str, Wanted<'static>)] = &[
    ("graph --title t", REFUSED),
    ("chart --least 5", REFUSED),
    ("compare a b --title t --least 5", REFUSED),
    ("graph --page --title", REFUSED),
    ("graph --page --title=", REFUSED),
    ("graph --page --least -1", REFUSED),
    ("graph --page --least 18446744073709551616", REFUSED),
    ("graph --page --page", REFUSED),
    ("fold --page", REFUSED),
    ("top --page", REFUSED),
    ("graph --svg --page", REFUSED),
    ("chart --page --svg", REFUSED),
    ("graph --svg --every 5", REFUSED),
    ("graph --svg --json", REFUSED),
    ("compare a b --svg --json", REFUSED),
    ("chart --svg --least 5", REFUSED),
    ("graph --svg --svg", REFUSED),
    ("graph --svg=x", REFUSED),
    ("graph --svg --title=", REFUSED),
    ("graph --root-below", REFUSED),
    ("compare a b --boxes --root-below", REFUSED),
    ("graph --page --root-below --root-below", REFUSED),
    ("compare a b --svg --share --share", REFUSED),
    ("compare a b --svg --share=yes", REFUSED),
    ("graph --page --share", REFUSED),
    ("chart --svg --share", REFUSED),
    ("fold --svg", REFUSED),
    ("top --svg", REFUSED),
    ("types a --svg", REFUSED),
    ("fold --root-below", REFUSED),
    ("fold --quiet --quiet", REFUSED),
    ("types", REFUSED),
    ("types a b", REFUSED),
    ("types a --quiet", REFUSED),
    ("types a --format pprof", REFUSED),
];

#[test]
fn refused_forms(rt: HostRuntime) -> Result<(), Fail> {
    are_answered(&rt, REFUSED_LINES)
}

const NO_PAGE: Wanted<'static> = Wanted::Refused(
    "error: the following required arguments were not provided:\n  --page\n",
    "",
);

const NO_FORM: Wanted<'static> = Wanted::Refused(
    "error: the following required arguments were not provided:\n  <--page|--svg>\n",
    "",
);

const WITHOUT_A_FORM: &[(&str, Wanted<'static>)] = &[
    ("graph --least 5", NO_PAGE),
    ("chart --least 5 --title t --root-below", NO_PAGE),
    ("graph --title t", NO_FORM),
    ("compare a b --root-below", NO_FORM),
    ("compare a b --share", NO_FORM),
    ("compare a --boxes --share b", NO_FORM),
];

#[test]
fn texts_of_what_is_said_of_no_page(rt: HostRuntime) -> Result<(), Fail> {
    are_answered(&rt, WITHOUT_A_FORM)
}

const CONFLICTS: &[(&str, Wanted<'static>)] = &[
    (
        "graph --page --svg --every 5",
        Wanted::Refused(
            "error: the argument '--svg' cannot be used with '--page'\n",
            "",
        ),
    ),
    (
        "graph --every 5 --svg",
        Wanted::Refused(
            "error: the argument '--svg' cannot be used with '--every <N>'\n",
            "",
        ),
    ),
    (
        "compare a b --svg --least 5",
        Wanted::Refused(
            "error: the argument '--svg' cannot be used with '--least <N>'\n",
            "",
        ),
    ),
    (
        "graph --svg --page --format svg",
        Wanted::Refused("error: invalid value 'svg' for '--format <FORMAT>'\n", ""),
    ),
];

#[test]
fn texts_of_conflicts_with_a_picture(rt: HostRuntime) -> Result<(), Fail> {
    are_answered(&rt, CONFLICTS)
}
