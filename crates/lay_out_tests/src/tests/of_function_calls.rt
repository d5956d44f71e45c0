//! Worked examples of callers and callees.

use super::of_function_sums::{EXAMPLE, append_sums};
use super::told::{OfMerged, Telling, Told, are_told};
use function_sums::{CallSide, first_calls};
use merged_stacks::MergedStacks;
use std::alloc::{AllocError, Global};
use std::test::Fail;

/// Appends a function, and its callers or its callees.
pub(super) fn append_calls(
    alloc: Global,
    text: &mut String,
    merged: &MergedStacks,
    asked: (&str, CallSide),
) -> Result<(), AllocError> {
    let (name, side) = asked;
    append_sums(text, &first_calls(alloc, merged, name, side, 10)?)
}

// One caller is the function itself, one is called by it in the same stack.
const CALLERS: &[Telling<'static>] = &[(
    Told::Merged(OfMerged::Calls("f", CallSide::Callers)),
    &[EXAMPLE],
    "(f 2 6)(main 0 5)(f 2 2)(g 0 1)",
)];

#[test]
fn callers(rt: HostRuntime) -> Result<(), Fail> {
    are_told(&rt, CALLERS)
}

// A stack with two such calls counts once.
const CALLEES: &[Telling<'static>] = &[(
    Told::Merged(OfMerged::Calls("f", CallSide::Callees)),
    &[EXAMPLE],
    "(f 2 6)(g 4 4)(f 2 2)",
)];

#[test]
fn callees(rt: HostRuntime) -> Result<(), Fail> {
    are_told(&rt, CALLEES)
}

// It stands in no stack twice: its own weight and the totals of its callees are its total.
const CALLEES_OF_THE_ROOT: &[Telling<'static>] = &[(
    Told::Merged(OfMerged::Calls("main", CallSide::Callees)),
    &[EXAMPLE],
    "(main 1 8)(f 0 5)(h 2 2)",
)];

#[test]
fn callees_of_the_root(rt: HostRuntime) -> Result<(), Fail> {
    are_told(&rt, CALLEES_OF_THE_ROOT)
}

const NO_CALLS: &[Telling<'static>] = &[
    (
        Told::Merged(OfMerged::Calls("main", CallSide::Callers)),
        &[EXAMPLE],
        "(main 1 8)",
    ),
    (
        Told::Merged(OfMerged::Calls("z", CallSide::Callers)),
        &[EXAMPLE],
        "(z 0 0)",
    ),
    (
        Told::Merged(OfMerged::Calls("nobody", CallSide::Callees)),
        &[EXAMPLE],
        "(nobody 0 0)",
    ),
    (
        Told::Merged(OfMerged::Calls("main", CallSide::Callees)),
        &[],
        "(main 0 0)",
    ),
];

#[test]
fn no_calls(rt: HostRuntime) -> Result<(), Fail> {
    are_told(&rt, NO_CALLS)
}
