//! Stacks that are merged in threads.

use super::append_stacks;
use crate::tests::sources::{assert_light, falling_lists};
use crate::tests::told::is_text;
use merged_stacks::{Alone, InThreads, MergedStacks, StackRows};
use stack_core::SourceList;
use std::alloc::AllocError;
use std::process::Abort;
use std::test::Fail;
use std::thread::Threads;

fn append_alone(
    rt: &(impl Abort + AllocGlobal),
    text: &mut String,
    lists: &[SourceList],
) -> Result<(), AllocError> {
    assert_light(rt, lists, 10_000);
    let merged = MergedStacks::of(rt.alloc(), lists, &Alone)?;
    append_stacks(text, &merged)
}

fn has_all(rt: &impl Abort, merged: &MergedStacks) {
    assert!(rt; merged.len() == 3_000);
}

fn append_in_threads(
    rt: &(impl Abort + AllocGlobal + Threads),
    text: &mut String,
    lists: &[SourceList],
) -> Result<(), AllocError> {
    assert_light(rt, lists, 10_000);
    let merged = MergedStacks::of(rt.alloc(), lists, &InThreads { rt })?;
    has_all(rt, &merged);
    append_stacks(text, &merged)
}

fn shows_in_threads(
    rt: &(impl Abort + AllocGlobal + Threads),
    lists: &[SourceList],
    wanted: &str,
) -> Result<(), AllocError> {
    let mut text = String::new(rt.alloc());
    append_in_threads(rt, &mut text, lists)?;
    is_text(rt, &text, wanted);
    Ok(())
}

fn shows_alike(
    rt: &(impl Abort + AllocGlobal + Threads),
    lists: &[SourceList],
) -> Result<(), AllocError> {
    let mut text = String::new(rt.alloc());
    append_alone(rt, &mut text, lists)?;
    shows_in_threads(rt, lists, &text)
}

#[test]
fn many_stacks_in_threads(rt: HostRuntime) -> Result<(), Fail> {
    let lists = falling_lists(&rt, rt.alloc())?;
    shows_alike(&rt, &lists)?;
    Ok(())
}
