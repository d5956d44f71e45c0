//! Worked examples.
ghost use Rattle.std.specs.Prelude.{◌<◌, length};

mod given;
mod moments;
pub(super) mod pairs;
mod threads;

use super::sources::Lines;
use super::told::{OfMerged, Telling, Told, are_told};
use merged_stacks::{MergedStacks, StackRows, total_weight};
use std::alloc::AllocError;
use std::test::Fail;

/// Appends what a stack begins with, its names, each with a semicolon.
fn append_names<S: StackRows>(text: &mut String, rows: &S, at: usize) -> Result<(), AllocError>
    requires { at < length (S.samples rows.now) }
{
    text.push_str("(")?;
    for frame in 0..rows.depth(at) {
        write!(text, "{};", rows.name(at, frame))?;
    }
    Ok(())
}

/// Appends the names and the weight of a stack.
fn append_stack<S: StackRows>(text: &mut String, rows: &S, at: usize) -> Result<(), AllocError>
    requires { at < length (S.samples rows.now) }
{
    append_names(text, rows, at)?;
    write!(text, " {})", rows.weight(at))
}

pub(super) fn append_stacks<S: StackRows>(text: &mut String, rows: &S) -> Result<(), AllocError> {
    for at in 0..rows.len() {
        append_stack(text, rows, at)?;
    }
    Ok(())
}

pub(super) fn append_total(text: &mut String, merged: &MergedStacks) -> Result<(), AllocError> {
    write!(text, "{}", merged.total())
}

const ONE: Lines<'static> = &[(&["a", "b"], 2), (&["a"], 1), (&["b"], 0), (&[], 5)];

const OTHER: Lines<'static> = &[(&["b", "a"], 1), (&["a", "", "b"], 1), (&["a", "b"], 3)];

const TWO_SOURCES: &[Telling<'static>] = &[
    (
        Told::Merged(OfMerged::Stacks),
        &[ONE, OTHER],
        "( 5)(a; 1)(a;;b; 1)(a;b; 5)(b;a; 1)",
    ),
    (Told::Merged(OfMerged::Total), &[ONE, OTHER], "13"),
];

#[test]
fn stacks_of_two_sources(rt: HostRuntime) -> Result<(), Fail> {
    are_told(&rt, TWO_SOURCES)
}

const NOTHING: &[Telling<'static>] = &[
    (Told::Merged(OfMerged::Stacks), &[], ""),
    (Told::Merged(OfMerged::Total), &[], "0"),
];

#[test]
fn nothing_merged(rt: HostRuntime) -> Result<(), Fail> {
    assert!(rt; total_weight(&[]) == 0);
    are_told(&rt, NOTHING)
}
