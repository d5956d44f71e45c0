//! A profile without a fault before its samples.

ghost use Rattle.std.specs.Prelude.{◌≡◌, ℕ, List, None, IfOk, IfErr};
ghost use Rattle.profile_messages.specs.Message.{first};
ghost use Rattle.profile_messages.specs.Records.{function_id};
ghost use Rattle.profile_messages.specs.Choosing.{chosen_value};
ghost use Rattle.profile_messages.specs.FileFaults.{is_gzip, early_faults, table_faults, file_faults};
ghost use Rattle.profile_messages.specs.Faults.{IsFirstOf};
ghost use Rattle.profile_messages.specs.SeenIndex.{code_location_id, IsIndexOf};
ghost use Rattle.profile_messages.specs.SeenProfile.{IsProfileOf};
ghost use Rattle.profile_messages.specs.checked.Checks.{string_zero_and_function_faults, name_faults, faults_behind_ids};

use crate::checks::{function_fault, string_fault};
use crate::faults::TableFault;
use crate::ids::{Index, index_of};
use crate::picking::{chosen_value, type_fault};
use crate::profile::{Profile, profile_of};
use crate::strings::string_zero_fault;
use run_options::Pick;
use stack_core::{ReadFault, ReadKind};
use std::alloc::Global;

/// A profile without a fault before its samples.
#[derive(Drop)]
pub struct CheckedProfile<'a> {
    pub profile: Profile<'a>,
    /// The places of its functions.
    pub functions: Index,
    /// The places of its locations.
    pub locations: Index,
    /// The place of the chosen value, where there are samples.
    pub chosen: Option<usize>,
}

/// Whether the bytes begin as gzip does.
fn is_gzip(file: &[u8]) -> bool
    ensures { result ≡ is_gzip file.now }
{
    file.len() > 1 && file[0] == 0x1f && file[1] == 0x8b
}

/// Decodes a file, where it is not compressed.
fn plain_profile<'a>(alloc: Global, file: &'a [u8]) -> Result<Profile<'a>, TableFault>
    ensures profile { IfOk result (IsProfileOf file.now) }
    ensures faultless { IfOk result (λ _. first (early_faults file.now) ≡ None) }
    ensures fault { IfErr result (IsFirstOf (early_faults file.now)) }
{
    if is_gzip(file) {
        let kind = ReadKind::Compressed;
        return Err(TableFault::Read(ReadFault { kind, at: 0 }));
    }
    profile_of(alloc, file)
}

/// The places of a profile's functions, where its first string is empty.
fn functions_of(alloc: Global, profile: &Profile<'_>) -> Result<Index, TableFault>
    ensures faultless { IfOk result (λ _.
        first (string_zero_and_function_faults profile.now) ≡ None) }
    ensures places { IfOk result (IsIndexOf function_id profile.now.functions.items) }
    ensures fault { IfErr result (IsFirstOf (string_zero_and_function_faults profile.now)) }
{
    if let Some(fault) = string_zero_fault(&profile.strings) {
        return Err(TableFault::Read(fault));
    }
    index_of(alloc, &profile.functions)
}

/// The fault of what names a string or a function that is not there.
fn name_fault(profile: &Profile<'_>, functions: &Index) -> Option<ReadFault>
    ensures { (file : List ℕ) → IsProfileOf file profile.now
        → result ≡ first (name_faults file profile.now functions.now) }
{
    match string_fault(profile) {
        Some(fault) => Some(fault),
        None => function_fault(functions, profile),
    }
}

/// The chosen value of a profile whose ids are distinct, where nothing else is wrong with it.
fn checked_choice(
    alloc: Global,
    file: &[u8],
    profile: &Profile<'_>,
    functions: &Index,
    pick: &Pick,
) -> Result<Option<usize>, TableFault>
    requires { IsProfileOf file.now profile.now }
    ensures faultless { IfOk result (λ _.
        first (faults_behind_ids file.now profile.now functions.now pick.now) ≡ None) }
    ensures chosen { IfOk result (λ chosen. chosen ≡ chosen_value file.now pick.now) }
    ensures fault { IfErr result
        (IsFirstOf (faults_behind_ids file.now profile.now functions.now pick.now)) }
{
    if let Some(fault) = name_fault(profile, functions) {
        return Err(TableFault::Read(fault));
    }
    let chosen = chosen_value(alloc, profile, pick)?;
    match type_fault(file, profile, chosen) {
        Some(fault) => Err(TableFault::Read(fault)),
        None => Ok(chosen),
    }
}

/// The places of functions and of locations, and the chosen value, where nothing is wrong with the tables.
fn checked_tables(
    alloc: Global,
    file: &[u8],
    profile: &Profile<'_>,
    pick: &Pick,
) -> Result<(Index, Index, Option<usize>), TableFault>
    requires { IsProfileOf file.now profile.now }
    ensures faultless { IfOk result (λ _. first (table_faults file.now pick.now) ≡ None) }
    ensures functions { IfOk result (λ found.
        IsIndexOf function_id profile.now.functions.items found.0) }
    ensures locations { IfOk result (λ found.
        IsIndexOf code_location_id profile.now.locations.items found.1) }
    ensures chosen { IfOk result (λ found. found.2 ≡ chosen_value file.now pick.now) }
    ensures fault { IfErr result (IsFirstOf (table_faults file.now pick.now)) }
{
    let functions = functions_of(alloc, profile)?;
    let locations = index_of(alloc, &profile.locations)?;
    let chosen = checked_choice(alloc, file, profile, &functions, pick)?;
    Ok((functions, locations, chosen))
}

impl<'a> CheckedProfile<'a> {
    /// Decodes a file, and looks for what is wrong with it. The messages of samples are not looked at.
    pub fn of(alloc: Global, file: &'a [u8], pick: &Pick) -> Result<CheckedProfile<'a>, TableFault>
        ensures faultless { IfOk result (λ _. first (file_faults file.now pick.now) ≡ None) }
        ensures profile { IfOk result (λ checked. IsProfileOf file.now checked.profile) }
        ensures functions { IfOk result (λ checked.
            IsIndexOf function_id checked.profile.functions.items checked.functions) }
        ensures locations { IfOk result (λ checked.
            IsIndexOf code_location_id checked.profile.locations.items checked.locations) }
        ensures chosen { IfOk result (λ checked.
            checked.chosen ≡ chosen_value file.now pick.now) }
        ensures fault { IfErr result (IsFirstOf (file_faults file.now pick.now)) }
    {
        let profile = plain_profile(alloc, file)?;
        let (functions, locations, chosen) = checked_tables(alloc, file, &profile, pick)?;
        Ok(CheckedProfile {
            profile,
            functions,
            locations,
            chosen,
        })
    }
}
