//! The sample types of a profile.

ghost use Rattle.std.specs.Prelude.{◌≡◌, ℕ, List, None, IfOk, IfErr, map, option_map};
ghost use Rattle.std.specs.List.{slice_get};
ghost use Rattle.std.specs.Option.{option_and_then};
ghost use Rattle.run_options.specs.declared.choices.Pick.TheVariants.{Preferred};
ghost use Rattle.profile_messages.specs.declared.faults.TableFault.TheVariants.{OutOfMemory};
ghost use Rattle.profile_messages.specs.Message.{first};
ghost use Rattle.profile_messages.specs.FileFaults.{file_faults};
ghost use Rattle.profile_messages.specs.Faults.{IsFirstOf};
ghost use Rattle.profile_messages.specs.Tables.{string_at as string_of};
ghost use Rattle.profile_messages.specs.SampleTypes.{lossy_text, type_of, all_types, chosen_type as type_chosen};
ghost use Rattle.profile_messages.specs.SeenProfile.{texts_of, IsProfileOf};

use crate::checked_profile::CheckedProfile;
use crate::faults::TableFault;
use crate::message::Content;
use crate::messages::ValueType;
use crate::picking::picked_type;
use crate::profile::Profile;
use crate::strings::string_at;
use bstr::ByteSlice;
use run_options::Pick;
use stack_core::{Listed, Text};
use std::alloc::{AllocError, Global};

/// What a value of a sample counts, as text with U+FFFD for what is none.
#[derive(Debug, PartialEq, Eq, Drop)]
pub struct SampleType {
    /// As `cpu`. [`Pick::Named`] chooses the value by it.
    pub name: Text,
    /// What the values are in, as `nanoseconds`.
    pub unit: Text,
}

/// The sample types of a profile.
#[derive(Debug, Drop)]
pub struct SampleTypes {
    /// In file order, which is that of a sample's values.
    pub types: Listed<SampleType>,
    /// The place of the one that [`Pick::Preferred`] chooses, also where the file has no sample. None where it has no type.
    pub default: Option<usize>,
}

/// The string at an index, as text.
fn text_at(alloc: Global, strings: &[Content<'_>], index: u64) -> Result<Text, AllocError>
    ensures { IfOk result (λ text. text ≡ lossy_text (string_of (texts_of strings.now) index)) }
{
    let text = string_at(strings, index).to_str_lossy(alloc)?;
    Text::from_str(alloc, text.as_str())
}

/// A sample type with its texts.
fn with_texts(
    alloc: Global,
    strings: &[Content<'_>],
    value_type: ValueType,
) -> Result<SampleType, AllocError>
    ensures { IfOk result (λ found. found ≡ type_of (texts_of strings.now) value_type) }
{
    let name = text_at(alloc, strings, value_type.type_)?;
    let unit = text_at(alloc, strings, value_type.unit)?;
    Ok(SampleType { name, unit })
}

/// All of them.
fn types_of(
    alloc: Global,
    strings: &[Content<'_>],
    value_types: &[ValueType],
) -> Result<Vec<SampleType>, AllocError>
    ensures { IfOk result (λ types.
        types.items ≡ map (type_of (texts_of strings.now)) value_types.now) }
{
    let mut types = Vec::with_capacity(alloc, value_types.len())?;
    for value_type in value_types {
        types.push(with_texts(alloc, strings, *value_type)?)?;
    }
    Ok(types)
}

/// The message at a place, where there is one.
fn value_type_at(value_types: &[ValueType], place: Option<usize>) -> Option<ValueType>
    ensures { result ≡ option_and_then (slice_get value_types.now) place }
{
    Some(*value_types.get(place?)?)
}

/// The sample type at a place, where there is one.
pub fn type_at(
    alloc: Global,
    profile: &Profile<'_>,
    place: Option<usize>,
) -> Result<Option<SampleType>, AllocError>
    ensures { IfOk result (λ found.
        found ≡ option_map (type_of (texts_of profile.now.strings.items))
        (option_and_then (slice_get profile.now.sample_types.items) place)) }
{
    match value_type_at(&profile.sample_types, place) {
        Some(value_type) => Ok(Some(with_texts(alloc, &profile.strings, value_type)?)),
        None => Ok(None),
    }
}

/// The sample types of a profile.
fn types_in(alloc: Global, profile: &Profile<'_>) -> Result<SampleTypes, TableFault>
    ensures types { IfOk result (λ types. (file : List ℕ) → IsProfileOf file profile.now
        → types ≡ all_types file) }
    ensures refused { IfErr result (λ fault. fault ≡ OutOfMemory) }
{
    let default = picked_type(alloc, profile, &Pick::Preferred)?;
    let types = types_of(alloc, &profile.strings, &profile.sample_types)?;
    Ok(SampleTypes {
        types: Listed::of(types),
        default,
    })
}

/// The sample types of a profile that is not compressed. A file is refused for what its tables are refused for where the default is
/// asked for. Each type has texts of its own: where many types name one long string, they take the file's size squared.
pub fn sample_types(alloc: Global, bytes: &[u8]) -> Result<SampleTypes, TableFault>
    ensures faultless { IfOk result (λ _. first (file_faults bytes.now Preferred) ≡ None) }
    ensures types { IfOk result (λ types. types ≡ all_types bytes.now) }
    ensures fault { IfErr result (IsFirstOf (file_faults bytes.now Preferred)) }
{
    let checked = CheckedProfile::of(alloc, bytes, &Pick::Preferred)?;
    types_in(alloc, &checked.profile)
}

/// The sample type of the chosen value, of a profile that is not compressed. None where the file has no sample. A file is refused for
/// what its tables are refused for.
pub fn chosen_type(
    alloc: Global,
    bytes: &[u8],
    pick: &Pick,
) -> Result<Option<SampleType>, TableFault>
    ensures faultless { IfOk result (λ _. first (file_faults bytes.now pick.now) ≡ None) }
    ensures chosen { IfOk result (λ found. found ≡ type_chosen bytes.now pick.now) }
    ensures fault { IfErr result (IsFirstOf (file_faults bytes.now pick.now)) }
{
    let checked = CheckedProfile::of(alloc, bytes, pick)?;
    let found = type_at(alloc, &checked.profile, checked.chosen)?;
    Ok(found)
}
