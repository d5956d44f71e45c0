//! The samples of a profile.

ghost use Rattle.std.specs.Prelude.{◌≡◌, ◌≤◌, ◌-◌, ◌^◌, true, false, min, length, is_none, IfOk, MatchOption, slice_index, unwrap_or};
ghost use Rattle.std.specs.List.{list_any};
ghost use Rattle.profile_tables.specs.Samples.{frames_of_ids};
ghost use Rattle.profile_tables.specs.checked.Frames.{frames_at};
ghost use Rattle.profile_tables.specs.checked.SeenOutline.{seen_outline};
ghost use Rattle.profile_tables.specs.checked.Outcome.{IsChecked};

use crate::frames::Frames;
use crate::outline::Outline;
use profile_messages::numbers_of;
use stack_core::{FRAME_LIMIT, ReadKind, WEIGHT_LIMIT};
use std::alloc::{AllocError, Global};

/// How many frames locations have together, 2^64-1 at most, and None where one of the ids is no location's.
fn frame_count(frames: &Frames, ids: &[u64]) -> Option<usize>
    ensures { MatchOption result
        (list_any (λ id. is_none (frames_at frames.now id)) ids.now ≡ true)
        (λ count. (list_any (λ id. is_none (frames_at frames.now id)) ids.now ≡ false)
        × (count ≡ min (length (frames_of_ids (frames_at frames.now) ids.now)) (2 ^ 64 - 1))) }
{
    let mut count = 0usize;
    for id in ids {
        count = count.saturating_add(frames.of(*id)?.len());
    }
    Some(count)
}

/// The chosen value of a sample, of these values, seen as its 64 bits.
fn weight_among(chosen: Option<usize>, values: &[u64]) -> u64
    ensures { result ≡ slice_index values.now (unwrap_or chosen 0) }
{
    match values.get(chosen.unwrap_or(0)) {
        Some(weight) => *weight,
        None => 0,
    }
}

/// A sample without a fault.
#[derive(Drop)]
pub(crate) struct CheckedSample {
    /// Its location ids, leaf first.
    pub(crate) ids: Vec<u64>,
    /// How many frames they have.
    pub(crate) depth: usize,
    pub(crate) weight: u64,
}

/// What is wrong with the sample of a message (profile.proto, message Sample), behind samples of this total weight.
pub(crate) fn checked_sample(
    alloc: Global,
    outline: &Outline,
    total: u64,
    sample: &[u8],
) -> Result<Result<CheckedSample, ReadKind>, AllocError>
    requires { total ≤ WEIGHT_LIMIT }
    ensures { IfOk result (IsChecked (seen_outline outline.now) total sample.now) }
{
    let numbers = match numbers_of(alloc, sample)? {
        Ok(numbers) => numbers,
        Err(kind) => return Ok(Err(kind)),
    };
    if numbers.values.len() != outline.sample_types {
        return Ok(Err(ReadKind::ValueCount));
    }
    let Some(depth) = frame_count(&outline.frames, &numbers.ids) else {
        return Ok(Err(ReadKind::UnknownLocation));
    };
    let weight = weight_among(outline.chosen, &numbers.values);
    if weight >= 1 << 63 {
        return Ok(Err(ReadKind::NegativeWeight));
    }
    if depth > FRAME_LIMIT {
        return Ok(Err(ReadKind::TooDeep));
    }
    if total + weight > WEIGHT_LIMIT {
        return Ok(Err(ReadKind::TotalTooLarge));
    }
    Ok(Ok(CheckedSample {
        ids: numbers.ids,
        depth,
        weight,
    }))
}
