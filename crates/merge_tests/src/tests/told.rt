//! What is told of sources, as a text.

use super::of_merged_stacks::pairs::{append_of_paired, append_pairs};
use super::of_merged_stacks::{append_stacks, append_total};
use super::sources::{Lines, assert_light, assert_light_list, lists_of};
use merged_stacks::{Alone, MergedStacks, Side};
use stack_core::SourceList;
use std::alloc::AllocError;
use std::process::Abort;
use std::test::Fail;
use std::thread::Threads;

/// What is told of sources.
pub enum Told {
    Merged(OfMerged),
    Two(OfTwo),
}

/// What is told of the merged stacks of sources.
pub enum OfMerged {
    Stacks,
    Total,
}

/// What is told of the stacks of two sources, side by side.
pub enum OfPaired {
    /// How many frames the first two of them have in common.
    SharedFrames,
    /// These stacks with the weights of one source.
    Side(Side),
}

/// What is told of two sources.
pub enum OfTwo {
    /// Their stacks side by side.
    Pairs,
    Paired(OfPaired),
}

fn append_merged(
    text: &mut String,
    told: &OfMerged,
    merged: &MergedStacks,
) -> Result<(), AllocError> {
    match told {
        OfMerged::Stacks => append_stacks(text, merged),
        OfMerged::Total => append_total(text, merged),
    }
}

fn append_of_merged(
    rt: &(impl Abort + AllocGlobal),
    text: &mut String,
    told: &OfMerged,
    lists: &[SourceList],
) -> Result<(), AllocError> {
    assert_light(rt, lists, 1_000);
    let merged = MergedStacks::of(rt.alloc(), lists, &Alone)?;
    append_merged(text, told, &merged)
}

fn append_of_two(
    rt: &(impl Abort + AllocGlobal + Threads),
    text: &mut String,
    told: &OfTwo,
    lists: &[SourceList],
) -> Result<(), AllocError> {
    let [before, after] = lists else {
        return text.push_str("not two sources");
    };
    assert_light_list(rt, before);
    assert_light_list(rt, after);
    match told {
        OfTwo::Pairs => append_pairs(rt.alloc(), text, before, after),
        OfTwo::Paired(told) => append_of_paired(rt, text, before, after, told),
    }
}

/// Appends what is told of lists.
fn append_told(
    rt: &(impl Abort + AllocGlobal + Threads),
    text: &mut String,
    told: &Told,
    lists: &[SourceList],
) -> Result<(), AllocError> {
    match told {
        Told::Merged(told) => append_of_merged(rt, text, told, lists),
        Told::Two(told) => append_of_two(rt, text, told, lists),
    }
}

fn append_of_sources(
    rt: &(impl Abort + AllocGlobal + Threads),
    text: &mut String,
    told: &Told,
    sources: &[Lines<'_>],
) -> Result<(), AllocError> {
    let lists = lists_of(rt, rt.alloc(), sources)?;
    append_told(rt, text, told, &lists)
}

pub fn is_text(rt: &impl Abort, found: &str, wanted: &str) {
    assert_eq!(rt; found, wanted);
}

/// What is told, of sources of these lines, and as which text.
pub type Telling<'a> = (Told, &'a [Lines<'a>], &'a str);

fn is_told(
    rt: &(impl Abort + AllocGlobal + Threads),
    telling: &Telling<'_>,
) -> Result<(), AllocError> {
    let (told, sources, wanted) = telling;
    let mut text = String::new(rt.alloc());
    append_of_sources(rt, &mut text, told, sources)?;
    is_text(rt, &text, wanted);
    Ok(())
}

/// Each of these is told so.
pub fn are_told(
    rt: &(impl Abort + AllocGlobal + Threads),
    tellings: &[Telling<'_>],
) -> Result<(), Fail> {
    for telling in tellings {
        is_told(rt, telling)?;
    }
    Ok(())
}
