//! Stacks of two sources side by side.
ghost use Rattle.std.specs.Prelude.{◌<◌, ◌^◌, length};
ghost use Rattle.sample_tables.specs.Samples.{total_weight};

use super::{append_names, append_stacks};
use crate::tests::sources::Lines;
use crate::tests::told::{OfPaired, OfTwo, Telling, Told, are_told};
use merged_stacks::{Alone, InThreads, PairedSide, PairedStacks, Side, StackRows};
use stack_core::SourceList;
use std::alloc::{AllocError, Global};
use std::test::Fail;
use std::thread::Threads;

fn append_both(text: &mut String, before: u64, after: u64) -> Result<(), AllocError> {
    write!(text, " {before} {after})")
}

/// Appends the names and both weights of a stack.
fn append_pair(text: &mut String, paired: &PairedStacks, at: usize) -> Result<(), AllocError>
    requires { at < length paired.now }
{
    append_names(text, paired, at)?;
    append_both(text, paired.before(at), paired.after(at))
}

fn append_all(text: &mut String, paired: &PairedStacks) -> Result<(), AllocError> {
    for at in 0..paired.len() {
        append_pair(text, paired, at)?;
    }
    Ok(())
}

pub(in crate::tests) fn append_pairs(
    alloc: Global,
    text: &mut String,
    before: &SourceList,
    after: &SourceList,
) -> Result<(), AllocError>
    requires before { total_weight before.now.samples < 2 ^ 64 }
    requires after { total_weight after.now.samples < 2 ^ 64 }
{
    let paired = PairedStacks::of(alloc, before, after, &Alone)?;
    append_all(text, &paired)
}

const BEFORE: Lines<'static> = &[(&["b"], 1), (&["a", "b"], 3), (&["c"], 0)];

const AFTER: Lines<'static> = &[(&["c"], 2), (&["a", "b"], 1), (&[], 1)];

const SIDE_BY_SIDE: &[Telling<'static>] = &[(
    Told::Two(OfTwo::Pairs),
    &[BEFORE, AFTER],
    "( 0 1)(a;b; 3 1)(b; 1 0)(c; 0 2)",
)];

#[test]
fn stacks_of_two_sources_side_by_side(rt: HostRuntime) -> Result<(), Fail> {
    are_told(&rt, SIDE_BY_SIDE)
}

/// How many frames the first two stacks have in common.
fn shared_frames(stacks: &PairedStacks) -> usize {
    if stacks.len() < 2 {
        return 0;
    }
    let least = stacks.depth(0).min(stacks.depth(1));
    for frame in 0..least {
        if !stacks.is_same_name(0, 1, frame) {
            return frame;
        }
    }
    least
}

fn append_paired(
    text: &mut String,
    stacks: &PairedStacks,
    told: &OfPaired,
) -> Result<(), AllocError> {
    match told {
        OfPaired::SharedFrames => write!(text, "{}", shared_frames(stacks)),
        OfPaired::Side(side) => append_stacks(
            text,
            &PairedSide {
                stacks,
                side: *side,
            },
        ),
    }
}

pub(in crate::tests) fn append_of_paired(
    rt: &(impl AllocGlobal + Threads),
    text: &mut String,
    before: &SourceList,
    after: &SourceList,
    told: &OfPaired,
) -> Result<(), AllocError>
    requires before { total_weight before.now.samples < 2 ^ 64 }
    requires after { total_weight after.now.samples < 2 ^ 64 }
{
    let stacks = PairedStacks::of(rt.alloc(), before, after, &InThreads { rt })?;
    append_paired(text, &stacks, told)
}

const OLD: Lines<'static> = &[(&["a", "b"], 3), (&["c"], 1)];

const NEW: Lines<'static> = &[(&["a", "d"], 2), (&["c"], 4)];

const SIDES: &[Telling<'static>] = &[
    (
        Told::Two(OfTwo::Paired(OfPaired::SharedFrames)),
        &[OLD, NEW],
        "1",
    ),
    (
        Told::Two(OfTwo::Paired(OfPaired::Side(Side::Before))),
        &[OLD, NEW],
        "(a;b; 3)(a;d; 0)(c; 1)",
    ),
    (
        Told::Two(OfTwo::Paired(OfPaired::Side(Side::After))),
        &[OLD, NEW],
        "(a;b; 0)(a;d; 2)(c; 4)",
    ),
];

#[test]
fn stacks_of_one_side(rt: HostRuntime) -> Result<(), Fail> {
    are_told(&rt, SIDES)
}
