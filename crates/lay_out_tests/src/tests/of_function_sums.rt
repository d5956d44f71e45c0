//! Worked examples.

use super::sources::Lines;
use super::told::{OfMerged, Telling, Told, are_told};
use function_sums::{FunctionSum, Order, function_sums};
use merged_stacks::MergedStacks;
use std::alloc::{AllocError, Global};
use std::test::Fail;

/// Appends name, own weight and total of a function.
fn append_sum(text: &mut String, sum: &FunctionSum) -> Result<(), AllocError> {
    write!(text, "({} {} {})", sum.name.get(), sum.own, sum.total)
}

pub(super) fn append_sums(text: &mut String, sums: &[FunctionSum]) -> Result<(), AllocError> {
    for sum in sums {
        append_sum(text, sum)?;
    }
    Ok(())
}

/// Appends the functions of merged stacks, in an order.
pub(super) fn append_functions(
    alloc: Global,
    text: &mut String,
    merged: &MergedStacks,
    order: Order,
) -> Result<(), AllocError> {
    let sums = function_sums(alloc, merged, order)?;
    append_sums(text, &sums)
}

/// A stack without frames, a name that calls itself, one that stands twice, and a stack that weighs nothing.
pub(super) const EXAMPLE: Lines<'static> = &[
    (&["main", "f", "g"], 3),
    (&["main", "f", "f"], 2),
    (&["main"], 1),
    (&["main", "h"], 2),
    (&["z"], 0),
    (&[], 4),
    (&["f", "g", "f", "g"], 1),
];

const BY_OWN_WEIGHT: &[Telling<'static>] = &[(
    Told::Merged(OfMerged::Functions(Order::Own)),
    &[EXAMPLE],
    "(g 4 4)(f 2 6)(h 2 2)(main 1 8)",
)];

#[test]
fn by_own_weight(rt: HostRuntime) -> Result<(), Fail> {
    are_told(&rt, BY_OWN_WEIGHT)
}

const BY_TOTAL: &[Telling<'static>] = &[(
    Told::Merged(OfMerged::Functions(Order::Total)),
    &[EXAMPLE],
    "(main 1 8)(f 2 6)(g 4 4)(h 2 2)",
)];

#[test]
fn by_total(rt: HostRuntime) -> Result<(), Fail> {
    are_told(&rt, BY_TOTAL)
}

const NO_FUNCTIONS: &[Telling<'static>] = &[(
    Told::Merged(OfMerged::Functions(Order::Total)),
    &[],
    "",
)];

#[test]
fn no_functions(rt: HostRuntime) -> Result<(), Fail> {
    are_told(&rt, NO_FUNCTIONS)
}

#[test]
fn laws_take_nothing() {
    function_sums::laws::functions_are_listed();
    function_sums::laws::calls_are_listed();
    function_sums::laws::callees_share_the_total();
    function_sums::laws::changes_are_listed();
    function_sums::laws::tables_are_one();
}
