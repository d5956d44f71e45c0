//! What the samples of a profile are read with.

ghost use Rattle.std.specs.Prelude.{◌≡◌, ℕ, List, [], None, map, take, drop, IfOk, IfErr, MatchOption};
ghost use Rattle.profile_messages.specs.Message.{first};
ghost use Rattle.profile_messages.specs.Records.{function_id};
ghost use Rattle.profile_messages.specs.Tables.{samples_of};
ghost use Rattle.profile_messages.specs.Offsets.{offset_of};
ghost use Rattle.profile_messages.specs.FileFaults.{file_faults};
ghost use Rattle.profile_messages.specs.SampleTypes.{chosen_type};
ghost use Rattle.profile_tables.specs.Samples.{tables_of};
ghost use Rattle.profile_messages.specs.Faults.{IsFirstOf};
ghost use Rattle.profile_messages.specs.SeenIndex.{code_location_id, IsIndexOf};
ghost use Rattle.profile_messages.specs.SeenProfile.{IsProfileOf};
ghost use Rattle.profile_tables.specs.Naming.{frames_of as frames_of_file};
ghost use Rattle.profile_tables.specs.checked.Frames.{frames_at, IsWhole};
ghost use Rattle.profile_tables.specs.checked.Places.{IsPlace};
ghost use Rattle.profile_tables.specs.checked.SeenOutline.{seen_outline};

use crate::frames::Frames;
use crate::functions::function_names;
use crate::lines::frames_of;
use profile_messages::{CheckedProfile, Index, Profile, SampleType, TableFault, type_at};
use run_options::{Naming, Pick};
use std::alloc::{AllocError, Global};

/// What the samples of a profile are read with, and where they stand.
#[derive(Debug, Drop)]
pub(crate) struct Outline {
    pub(crate) sample_types: usize,
    pub(crate) chosen: Option<usize>,
    pub(crate) chosen_type: Option<SampleType>,
    pub(crate) frames: Frames,
    /// The offset of each sample's tag.
    pub(crate) samples: Vec<usize>,
}

/// The samples that a reader still has to give: those from `next` on, up to the one that is `past`.
#[derive(Clone, Copy)]
pub(crate) struct Stretch {
    pub(crate) next: usize,
    pub(crate) past: usize,
}

impl Outline {
    /// The offset of the next sample's tag. None where the samples have ended.
    #[inline]
    pub(crate) fn place(&self, left: Stretch) -> Option<usize>
        ensures { MatchOption result
            (drop left.next (take left.past self.now.samples.items) ≡ [])
            (λ at. IsPlace (take left.past self.now.samples.items) left.next left.past at) }
    {
        if left.past <= left.next {
            return None;
        }
        let at = self.samples.get(left.next)?;
        Some(*at)
    }
}

/// The frames of a profile's locations, where its functions and locations have these places.
fn profile_frames(
    alloc: Global,
    profile: &Profile<'_>,
    functions: &Index,
    locations: Index,
    naming: Naming,
) -> Result<Frames, AllocError>
    requires functions { IsIndexOf function_id profile.now.functions.items functions.now }
    requires locations { IsIndexOf code_location_id profile.now.locations.items locations }
    ensures frames { IfOk result (λ frames. (file : List ℕ) → IsProfileOf file profile.now →
        (id : ℕ) → frames_at frames id ≡ frames_of_file file naming id) }
    ensures whole { IfOk result IsWhole }
{
    let named = function_names(alloc, &profile.strings, &profile.functions)?;
    frames_of(alloc, profile, functions, named, naming, locations)
}

/// Reads the tables of a profile.
pub(crate) fn outline_of(
    alloc: Global,
    file: &[u8],
    pick: &Pick,
    naming: Naming,
) -> Result<Outline, TableFault>
    ensures faultless { IfOk result (λ _. first (file_faults file.now pick.now) ≡ None) }
    ensures tables { IfOk result (λ outline. seen_outline outline ≡ tables_of file.now pick.now naming) }
    ensures chosen_type { IfOk result (λ outline.
        outline.chosen_type ≡ chosen_type file.now pick.now) }
    ensures whole { IfOk result (λ outline. IsWhole outline.frames) }
    ensures samples { IfOk result (λ outline.
        outline.samples.items ≡ map offset_of (samples_of file.now)) }
    ensures fault { IfErr result (IsFirstOf (file_faults file.now pick.now)) }
{
    let checked = CheckedProfile::of(alloc, file, pick)?;
    let chosen = checked.chosen;
    let chosen_type = type_at(alloc, &checked.profile, chosen)?;
    let CheckedProfile {
        profile,
        functions,
        locations,
        ..
    } = checked;
    Ok(Outline {
        sample_types: profile.sample_types.len(),
        chosen,
        chosen_type,
        frames: profile_frames(alloc, &profile, &functions, locations, naming)?,
        samples: profile.samples,
    })
}
