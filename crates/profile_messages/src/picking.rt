//! Which value of a sample is its weight.

ghost use Rattle.std.specs.Prelude.{◌≡◌, List, ℕ, IfOk, map, bytes_eq};
ghost use Rattle.profile_messages.specs.Message.{first};
ghost use Rattle.profile_messages.specs.Tables.{string_at as string_of};
ghost use Rattle.profile_messages.specs.Choosing.{position_of as position_in, chosen_value as value_chosen, type_faults};
ghost use Rattle.profile_messages.specs.SeenProfile.{texts_of, IsProfileOf};
ghost use Rattle.profile_messages.specs.checked.Choosing.{names_of_types, picked_of, chosen_of};

use crate::message::Content;
use crate::profile::Profile;
use crate::strings::string_at;
use run_options::Pick;
use stack_core::{ReadFault, ReadKind};
use std::alloc::{AllocError, Global};

/// For each string whether it is this name. Each is compared once, however many sample types name it.
fn matches_of(alloc: Global, strings: &[Content<'_>], name: &[u8]) -> Result<Vec<bool>, AllocError>
    ensures { IfOk result (λ matches.
        matches.items ≡ map (λ string. bytes_eq string name.now) (texts_of strings.now)) }
{
    let mut matches = Vec::with_capacity(alloc, strings.len())?;
    for string in strings {
        matches.push(string.bytes == name)?;
    }
    Ok(matches)
}

/// Whether the string at an index is the name, where these are the strings that are.
fn is_match(matches: &[bool], name: &[u8], index: u64) -> bool
    ensures { (strings : List (List ℕ)) →
        matches.now ≡ map (λ string. bytes_eq string name.now) strings →
        result ≡ bytes_eq (string_of strings index) name.now }
{
    match matches.get(index as usize) {
        Some(is_match) => *is_match,
        None => name.is_empty(),
    }
}

/// The place of the first sample type of this name.
fn type_named(
    alloc: Global,
    profile: &Profile<'_>,
    name: &[u8],
) -> Result<Option<usize>, AllocError>
    ensures { IfOk result (λ place. place ≡ position_in name.now (names_of_types profile.now)) }
{
    let matches = matches_of(alloc, &profile.strings, name)?;
    for (place, sample_type) in profile.sample_types.iter().enumerate() {
        if is_match(&matches, name, sample_type.type_) {
            return Ok(Some(place));
        }
    }
    Ok(None)
}

/// The place of the chosen value, where there are samples and sample types.
pub(crate) fn chosen_value(
    alloc: Global,
    profile: &Profile<'_>,
    pick: &Pick,
) -> Result<Option<usize>, AllocError>
    ensures { IfOk result (λ place. place ≡ chosen_of profile.now pick.now) }
{
    if profile.samples.is_empty() {
        return Ok(None);
    }
    picked_type(alloc, profile, pick)
}

/// The place of the picked sample type, where there are any.
pub(crate) fn picked_type(
    alloc: Global,
    profile: &Profile<'_>,
    pick: &Pick,
) -> Result<Option<usize>, AllocError>
    ensures { IfOk result (λ place. place ≡ picked_of profile.now pick.now) }
{
    let types = profile.sample_types.len();
    if types == 0 {
        return Ok(None);
    }
    match pick {
        Pick::Named(name) => type_named(alloc, profile, name.get().as_bytes()),
        Pick::Preferred => {
            let default = string_at(&profile.strings, profile.default.number);
            if default.is_empty() {
                return Ok(Some(types - 1));
            }
            match type_named(alloc, profile, default)? {
                Some(place) => Ok(Some(place)),
                None => Ok(Some(types - 1)),
            }
        }
    }
}

/// The fault of samples without sample types, or without the one that was asked for, where this value is chosen.
pub(crate) fn type_fault(
    file: &[u8],
    profile: &Profile<'_>,
    chosen: Option<usize>,
) -> Option<ReadFault>
    requires { IsProfileOf file.now profile.now }
    ensures { (pick : Pick) → chosen ≡ value_chosen file.now pick
        → result ≡ first (type_faults file.now pick) }
{
    let at = file.len() as u64;
    if profile.samples.is_empty() {
        return None;
    }
    if profile.sample_types.is_empty() {
        let kind = ReadKind::NoSampleType;
        return Some(ReadFault { kind, at });
    }
    if chosen.is_none() {
        let kind = ReadKind::UnknownSampleType;
        return Some(ReadFault { kind, at });
    }
    None
}
