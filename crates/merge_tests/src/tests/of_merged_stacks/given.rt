//! Lists that are given up are merged as lent ones are.

use super::{ONE, OTHER, append_stacks};
use crate::tests::sources::{Lines, assert_light, drawn_lists, lists_of};
use crate::tests::told::is_text;
use merged_stacks::{Alone, MergedStacks};
use stack_core::SourceList;
use std::alloc::AllocError;
use std::process::Abort;
use std::test::Fail;

fn append_given(
    rt: &(impl Abort + AllocGlobal),
    text: &mut String,
    lists: Vec<SourceList>,
) -> Result<(), AllocError> {
    assert_light(rt, &lists, 10_000);
    let merged = MergedStacks::from_lists(rt.alloc(), lists, &Alone)?;
    append_stacks(text, &merged)
}

fn append_lent(
    rt: &(impl Abort + AllocGlobal),
    text: &mut String,
    lists: &[SourceList],
) -> Result<(), AllocError> {
    assert_light(rt, lists, 10_000);
    let merged = MergedStacks::of(rt.alloc(), lists, &Alone)?;
    append_stacks(text, &merged)
}

fn are_merged_alike(
    rt: &(impl Abort + AllocGlobal),
    lists: Vec<SourceList>,
) -> Result<(), AllocError> {
    let mut lent = String::new(rt.alloc());
    append_lent(rt, &mut lent, &lists)?;
    let mut given = String::new(rt.alloc());
    append_given(rt, &mut given, lists)?;
    is_text(rt, &given, &lent);
    Ok(())
}

// None, one and several, with stacks that weigh nothing and stacks that come twice.
#[test]
fn drawn_lists_are_merged_alike(rt: HostRuntime) -> Result<(), Fail> {
    for seed in 0..40u64 {
        are_merged_alike(&rt, drawn_lists(&rt, rt.alloc(), seed)?)?;
    }
    Ok(())
}

/// Sources of these lines, and the stacks of all that are given up.
const GIVEN: &[(&[Lines<'static>], &str)] = &[
    (&[], ""),
    (&[ONE], "( 5)(a; 1)(a;b; 2)"),
    (&[&[]], ""),
    (&[ONE, OTHER], "( 5)(a; 1)(a;;b; 1)(a;b; 5)(b;a; 1)"),
    (&[&[], OTHER, ONE], "( 5)(a; 1)(a;;b; 1)(a;b; 5)(b;a; 1)"),
];

fn is_given(
    rt: &(impl Abort + AllocGlobal),
    sources: &[Lines<'_>],
    wanted: &str,
) -> Result<(), AllocError> {
    let mut text = String::new(rt.alloc());
    append_given(rt, &mut text, lists_of(rt, rt.alloc(), sources)?)?;
    is_text(rt, &text, wanted);
    Ok(())
}

#[test]
fn stacks_of_given_sources(rt: HostRuntime) -> Result<(), Fail> {
    for (sources, wanted) in GIVEN {
        is_given(&rt, sources, wanted)?;
    }
    Ok(())
}
