//! Worked command lines with filters.

use super::lines::are_answered;
use super::wanted::{REFUSED, Wanted};
use std::test::Fail;

const FILTER: Wanted<'static> = Wanted::Filter(&["b", "a"], &["c"]);

const FILTERED: &[(&str, Wanted<'static>)] = &[
    ("fold --focus b --hide=c --focus a", FILTER),
    ("graph --focus b --hide=c --focus a", FILTER),
    ("chart --focus b --hide=c --focus a", FILTER),
    ("compare a b --focus b --hide=c --focus a", FILTER),
];

#[test]
fn filters_of_each_command(rt: HostRuntime) -> Result<(), Fail> {
    are_answered(&rt, FILTERED)
}

const FROM: Wanted<'static> = Wanted::From("b;c");

const FROM_A_NAME: &[(&str, Wanted<'static>)] = &[
    ("fold --from b;c", FROM),
    ("graph x --from=b;c", FROM),
    ("chart --from b;c", FROM),
    ("compare a b --from b;c", FROM),
    ("top --from b;c", FROM),
    ("diff a --from b;c b", FROM),
    ("callers --from b;c f", FROM),
    ("callees f --from b;c", FROM),
    ("peek f --from b;c", FROM),
];

#[test]
fn stacks_from_a_name(rt: HostRuntime) -> Result<(), Fail> {
    are_answered(&rt, FROM_A_NAME)
}

const OMIT: Wanted<'static> = Wanted::Omit(&["b;c", "d"]);

const OMITTED: &[(&str, Wanted<'static>)] = &[
    ("fold --omit b;c --omit d", OMIT),
    ("graph x --omit=b;c --omit=d", OMIT),
    ("chart --omit b;c x --omit d", OMIT),
    ("compare a b --omit b;c --omit d", OMIT),
    ("top --omit b;c --omit d", OMIT),
    ("diff a --omit b;c b --omit d", OMIT),
    ("callers --omit b;c f --omit d", OMIT),
    ("callees f --omit b;c --omit d", OMIT),
    ("peek f --omit b;c --omit d", OMIT),
];

#[test]
fn frames_that_are_left_out(rt: HostRuntime) -> Result<(), Fail> {
    are_answered(&rt, OMITTED)
}

const REFUSED_LINES: &[(&str, Wanted<'static>)] = &[
    ("fold --focus", REFUSED),
    ("graph --focus=", REFUSED),
    ("compare a b --hide=", REFUSED),
    ("fold --from=", REFUSED),
    ("top --from a --from b", REFUSED),
    ("types --from a x", REFUSED),
    ("fold --omit=", REFUSED),
    ("types --omit a x", REFUSED),
];

#[test]
fn refused_filters(rt: HostRuntime) -> Result<(), Fail> {
    are_answered(&rt, REFUSED_LINES)
}

const HEADING: &[(&str, Wanted<'static>)] = &[(
    "fold --help",
    Wanted::Help("\nFilters:\n      --focus <NAME> "),
)];

#[test]
fn filters_have_a_heading(rt: HostRuntime) -> Result<(), Fail> {
    are_answered(&rt, HEADING)
}
