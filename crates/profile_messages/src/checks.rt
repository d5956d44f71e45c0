//! What is wrong with the tables of a profile.

ghost use Rattle.std.specs.Prelude.{◌≡◌, ℕ, List, flat_map};
ghost use Rattle.profile_messages.specs.Message.{first};
ghost use Rattle.profile_messages.specs.Tables.{string_faults, line_faults, location_faults};
ghost use Rattle.profile_messages.specs.SeenIndex.{is_in};
ghost use Rattle.profile_messages.specs.SeenProfile.{seen_locations, IsProfileOf};

use crate::ids::Index;
use crate::messages::Line;
use crate::profile::Profile;
use crate::strings::{function_names_fault, index_fault, type_names_fault};
use stack_core::{ReadFault, ReadKind};

/// The first fault of the string indexes of a profile.
pub(crate) fn string_fault(profile: &Profile<'_>) -> Option<ReadFault>
    ensures { (file : List ℕ) → IsProfileOf file profile.now
        → result ≡ first (string_faults file) }
{
    let count = profile.strings.len();
    if let Some(fault) = type_names_fault(count, &profile.sample_types) {
        return Some(fault);
    }
    if let Some(fault) = index_fault(count, profile.default.at, profile.default.number) {
        return Some(fault);
    }
    function_names_fault(count, &profile.functions)
}

/// The fault of lines, of which one is of an unknown function, in a location at this offset.
fn line_fault(functions: &Index, at: usize, lines: &[Line]) -> Option<ReadFault>
    ensures { result ≡ first (flat_map (line_faults (is_in functions.now) at) lines.now) }
{
    for line in lines {
        let function = line.function_id;
        if function != 0 && functions.get(function).is_none() {
            let at = at as u64;
            return Some(ReadFault {
                kind: ReadKind::UnknownFunction,
                at,
            });
        }
    }
    None
}

/// The first fault of the lines of a profile.
pub(crate) fn function_fault(functions: &Index, profile: &Profile<'_>) -> Option<ReadFault>
    ensures { result ≡ first
        (flat_map (location_faults (is_in functions.now)) (seen_locations profile.now)) }
{
    for location in &profile.locations {
        let lines = profile.lines(location.lines);
        if let Some(fault) = line_fault(functions, location.at, lines) {
            return Some(fault);
        }
    }
    None
}
