//! What is written of two sources.
ghost use Rattle.std.specs.Prelude.{◌<◌, ◌^◌};
ghost use Rattle.sample_tables.specs.Samples.{total_weight as list_weight};
ghost use Rattle.merged_stacks.specs.Merged.{all_samples};
ghost use Rattle.merged_stacks.specs.Timeline.{samples_of, timeline, total_weight};

use crate::tests::sources::{Rows, add_lists, are_light};
use crate::tests::texts::refuse;
use byte_io::append_pieces;
use flame_layout::{Chart, MergedStacks, Width, total_weight};
use merged_stacks::{Alone, PairedStacks};
use stack_core::SourceList;
use std::alloc::{AllocError, Global};
use view_texts::{FoldedText, PairedText, Scale, drawn_line};

/// What is written of two sources.
pub(super) enum Joined {
    /// The fold text of their merged stacks.
    Merged,
    /// The two-column text of their paired stacks.
    Paired,
    /// The line of their chart.
    Chart,
}

fn append_merged(alloc: Global, out: &mut Vec<u8>, lists: &[SourceList]) -> Result<(), AllocError>
    requires { total_weight (all_samples (samples_of lists.now)) < 2 ^ 64 }
{
    let merged = MergedStacks::of(alloc, lists, &Alone)?;
    append_pieces(alloc, &FoldedText::of(&merged), out)
}

fn append_paired(
    alloc: Global,
    out: &mut Vec<u8>,
    before: &SourceList,
    after: &SourceList,
) -> Result<(), AllocError>
    requires before { list_weight before.now.samples < 2 ^ 64 }
    requires after { list_weight after.now.samples < 2 ^ 64 }
{
    let stacks = PairedStacks::of(alloc, before, after, &Alone)?;
    append_pieces(alloc, &PairedText::of(&stacks), out)
}

fn append_chart(alloc: Global, out: &mut Vec<u8>, lists: &[SourceList]) -> Result<(), AllocError>
    requires { total_weight (timeline (samples_of lists.now)) < 2 ^ 64 }
{
    let chart = Chart::of(alloc, lists)?;
    let scale = Scale {
        total: total_weight(lists),
        width: Width::of(10).unwrap(),
    };
    append_pieces(alloc, &drawn_line("chart", &chart, scale), out)
}

fn append_joined(
    alloc: Global,
    out: &mut Vec<u8>,
    joined: &Joined,
    lists: &[SourceList],
) -> Result<(), AllocError> {
    if lists.len() != 2 || !are_light(lists) {
        return refuse(out);
    }
    let (before, after) = (&lists[0], &lists[1]);
    if before.total() >= 1_000 || after.total() >= 1_000 {
        return refuse(out);
    }
    match joined {
        Joined::Merged => append_merged(alloc, out, lists),
        Joined::Paired => append_paired(alloc, out, before, after),
        Joined::Chart => append_chart(alloc, out, lists),
    }
}

/// Appends what is written of these sources.
pub(super) fn append_of(
    alloc: Global,
    out: &mut Vec<u8>,
    joined: &Joined,
    sources: &[Rows<'_>],
) -> Result<(), AllocError> {
    let mut lists = Vec::new(alloc);
    add_lists(alloc, &mut lists, sources)?;
    append_joined(alloc, out, joined, &lists)
}
