//! The string table, and the indexes into it.

ghost use Rattle.std.specs.Prelude.{◌≡◌, ◌++◌, List, Option, flat_map};
ghost use Rattle.std.specs.Fn.{FnReturnsAt};
ghost use Rattle.stack_core.specs.declared.endings.ReadFault.{ReadFault as Fault};
ghost use Rattle.profile_messages.specs.Message.{first};
ghost use Rattle.profile_messages.specs.Tables.{string_at as string_of, string_zero_faults, index_faults, faults_of_type, faults_of_function};
ghost use Rattle.profile_messages.specs.SeenProfile.{seen_table, texts_of};

use crate::message::Content;
use crate::messages::{Function, ValueType};
use stack_core::{ReadFault, ReadKind};

/// The string at an index. Index 0 is always the empty string, also in an empty table.
pub fn string_at<'a>(strings: &[Content<'a>], index: u64) -> &'a [u8]
    ensures { result.now ≡ string_of (texts_of strings.now) index }
{
    match strings.get(index as usize) {
        Some(text) => text.bytes,
        None => b"",
    }
}

/// The fault of a first string that is not empty.
pub(crate) fn string_zero_fault(strings: &[Content<'_>]) -> Option<ReadFault>
    ensures { result ≡ first (string_zero_faults (seen_table strings.now)) }
{
    match strings.first() {
        Some(text) if !text.bytes.is_empty() => Some(ReadFault {
            kind: ReadKind::BadStringZero,
            at: text.at as u64,
        }),
        _ => None,
    }
}

/// The fault of an index, seen as its 64 bits, that is negative or not below the number of strings.
pub(crate) fn index_fault(count: usize, at: usize, index: u64) -> Option<ReadFault>
    ensures { result ≡ first (index_faults count at index) }
{
    if index == 0 || (index < count as u64 && index < 1 << 63) {
        return None;
    }
    let at = at as u64;
    Some(ReadFault {
        kind: ReadKind::BadString,
        at,
    })
}

/// The fault of two indexes that an entry holds.
fn pair_fault(count: usize, at: usize, this: u64, next: u64) -> Option<ReadFault>
    ensures { result ≡ first (index_faults count at this ++ index_faults count at next) }
{
    match index_fault(count, at, this) {
        Some(fault) => Some(fault),
        None => index_fault(count, at, next),
    }
}

/// The first fault of entries, of which each has its own.
fn first_fault<T, F: Fn(&T) -> Option<ReadFault>>(entries: &[T], fault_of: F) -> Option<ReadFault>
    requires { F.IsAlwaysCallable fault_of }
    ensures { (faults : T → List Fault)
        → ((entry : T) (fault : Option Fault) → FnReturnsAt F.Fn fault_of entry fault → fault ≡ first (faults entry))
        → result ≡ first (flat_map faults entries.now) }
{
    for entry in entries {
        let fault = fault_of(entry);
        if fault.is_some() {
            return fault;
        }
    }
    None
}

/// What is wrong with the string indexes of sample types.
pub(crate) fn type_names_fault(count: usize, value_types: &[ValueType]) -> Option<ReadFault>
    ensures { result ≡ first (flat_map (faults_of_type count) value_types.now) }
{
    first_fault(
        value_types,
        |entry| pair_fault(count, entry.at, entry.type_, entry.unit),
    )
}

/// What is wrong with the string indexes of functions.
pub(crate) fn function_names_fault(count: usize, functions: &[Function]) -> Option<ReadFault>
    ensures { result ≡ first (flat_map (faults_of_function count) functions.now) }
{
    first_fault(
        functions,
        |entry| pair_fault(count, entry.at, entry.name, entry.system_name),
    )
}
