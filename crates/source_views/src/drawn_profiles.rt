//! The flame graphs of two profiles, each with the weights of the other.
ghost use Rattle.std.specs.Prelude.{◌≡◌, ◌<◌, ◌^◌, ◌∷◌, [], map, IfOk};
ghost use Rattle.flame_layout.specs.Comparison.{compared_boxes_of};
ghost use Rattle.merged_stacks.specs.Paired.{paired_stacks};
ghost use Rattle.merged_stacks.specs.Timeline.{total_weight};
ghost use Rattle.page_texts.specs.Drawn.{drawing_of};
ghost use Rattle.source_views.specs.checked.DrawnProfiles.{IsDrawnOf, pair_list, profile_drawing};

use crate::headings::Heading;
use flame_layout::{DrawnPair, draw_paired};
use merged_stacks::{Alone, PairedStacks};
use page_texts::Drawing;
use stack_core::SourceList;
use std::alloc::{AllocError, Global};

// The stacks of two profiles side by side, once in each order.
#[derive(Drop)]
pub(crate) struct PairedProfiles {
    // Those of the profile after stand first.
    pub(crate) before: PairedStacks,
    // Those of the profile before stand first.
    pub(crate) after: PairedStacks,
}

// The flame graphs of two profiles.
#[derive(Drop)]
pub(crate) struct DrawnProfiles<'a> {
    pub(crate) before: DrawnProfile<'a>,
    pub(crate) after: DrawnProfile<'a>,
}

// The boxes of a profile's flame graph, with the weights of the other, and the sum of the weights of its samples.
#[derive(Drop)]
pub(crate) struct DrawnProfile<'a> {
    pub(crate) total: u64,
    pub(crate) boxes: Vec<DrawnPair<'a>>,
}

// The stacks that lend the boxes of both flame graphs their names.
pub(crate) fn pair_profiles(
    alloc: Global,
    before: &SourceList,
    after: &SourceList,
) -> Result<PairedProfiles, AllocError>
    requires before { total_weight before.now.samples < 2 ^ 64 }
    requires after { total_weight after.now.samples < 2 ^ 64 }
    ensures before { IfOk result (λ stacks.
        stacks.before ≡ paired_stacks after.now.samples before.now.samples) }
    ensures after { IfOk result (λ stacks.
        stacks.after ≡ paired_stacks before.now.samples after.now.samples) }
{
    Ok(PairedProfiles {
        before: PairedStacks::of(alloc, after, before, &Alone)?,
        after: PairedStacks::of(alloc, before, after, &Alone)?,
    })
}

// The boxes of both flame graphs.
pub(crate) fn draw_profiles<'a>(
    alloc: Global,
    stacks: &'a PairedProfiles,
    before: &SourceList,
    after: &SourceList,
) -> Result<DrawnProfiles<'a>, AllocError>
    requires stacks_before { stacks.now.before ≡ paired_stacks after.now.samples before.now.samples }
    requires stacks_after { stacks.now.after ≡ paired_stacks before.now.samples after.now.samples }
    requires before { total_weight before.now.samples < 2 ^ 64 }
    requires after { total_weight after.now.samples < 2 ^ 64 }
    ensures before { IfOk result (λ drawn.
        IsDrawnOf after.now.samples before.now.samples drawn.before) }
    ensures after { IfOk result (λ drawn.
        IsDrawnOf before.now.samples after.now.samples drawn.after) }
{
    Ok(DrawnProfiles {
        before: draw_profile(alloc, &stacks.before, after, before)?,
        after: draw_profile(alloc, &stacks.after, before, after)?,
    })
}

// The boxes of the flame graph of a profile, with the weights of the other.
fn draw_profile<'a>(
    alloc: Global,
    stacks: &'a PairedStacks,
    other: &SourceList,
    profile: &SourceList,
) -> Result<DrawnProfile<'a>, AllocError>
    requires stacks { stacks.now ≡ paired_stacks other.now.samples profile.now.samples }
    requires other { total_weight other.now.samples < 2 ^ 64 }
    requires profile { total_weight profile.now.samples < 2 ^ 64 }
    ensures { IfOk result (IsDrawnOf other.now.samples profile.now.samples) }
{
    let boxes = draw_paired(alloc, stacks, other, profile)?;
    let total = profile.total() as u64;
    Ok(DrawnProfile { total, boxes })
}

// The drawings of both.
pub(crate) fn profile_drawings<'a, 'n>(
    alloc: Global,
    drawn: &'a DrawnProfiles<'n>,
    heading: &Heading<'_>,
) -> Result<Vec<Drawing<'a, &'a [DrawnPair<'n>]>>, AllocError>
    ensures { IfOk result (λ drawings.
        map (drawing_of pair_list) drawings.items
        ≡ profile_drawing heading.now.least drawn.now.before
        ∷ profile_drawing heading.now.least drawn.now.after ∷ []) }
{
    let mut drawings = Vec::new(alloc);
    drawings.push(profile_drawing(&drawn.before, heading))?;
    drawings.push(profile_drawing(&drawn.after, heading))?;
    Ok(drawings)
}

// The drawing of a profile.
fn profile_drawing<'a, 'n>(
    profile: &'a DrawnProfile<'n>,
    heading: &Heading<'_>,
) -> Drawing<'a, &'a [DrawnPair<'n>]>
    ensures { drawing_of pair_list result
        ≡ profile_drawing heading.now.least profile.now }
{
    heading.drawing(profile.boxes.as_slice(), true, profile.total, None)
}
