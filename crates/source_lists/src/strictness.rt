//! What is wrong with sources that are read strictly.

ghost use Rattle.std.specs.Prelude.{◌≡◌, IfOk, IfSome, is_some, length, map, true, slice_get};
ghost use Rattle.wire_fields.specs.Field.{seen_field};
ghost use Rattle.profile_messages.specs.Message.{content_of};
ghost use Rattle.profile_messages.specs.Tables.{samples_of};
ghost use Rattle.profile_tables.specs.Samples.{read_pprof};
ghost use Rattle.ring_collect.specs.Collection.{AreWhole};
ghost use Rattle.run_options.specs.declared.choices.Naming.{Naming as NamingOf};
ghost use Rattle.run_options.specs.declared.choices.Pick.{Pick as PickOf};
ghost use Rattle.run_options.specs.declared.options.Options.{Options};
ghost use Rattle.source_lists.specs.Sources.{asked_rests, known_inputs, whole_rest};
ghost use Rattle.source_lists.specs.Strictness.{fault_of_rest, source_fault};
ghost use Rattle.source_lists.specs.checked.StrictEndings.{has_some, HasFault, IsSound};

use crate::inputs::Input;
use crate::loaded_sources::LoadedSource;
use crate::run_faults::RunFault;
use folded_lines::{StrictFault, StrictKind, strict_fault};
use run_options::Format;
use stack_core::{SourceEnd, SourceList};
use std::alloc::{AllocError, Global};
use wire_fields::{Field, FieldValue, Fields};

fn is_sample(field: Field<'_>) -> bool
    ensures { result ≡ is_some (content_of 2 (seen_field field.entry)) }
{
    match field.value {
        FieldValue::Bytes(_) => field.number == 2,
        FieldValue::Varint(_) | FieldValue::Eight(_) | FieldValue::Four(_) => false,
    }
}

/// Whether a sample stands in a profile, whatever is wrong with it.
fn has_sample(profile: &[u8]) -> bool
    ensures { result ≡ has_some (samples_of profile.now) }
{
    let mut fields = Fields::over(profile);
    loop {
        match fields.next() {
            Ok(Some(field)) => {
                if is_sample(field) {
                    return true;
                }
            }
            Ok(None) | Err(_) => return false,
        }
    }
}

/// What is wrong with a profile that reads to this ending.
fn fault_of_profile(profile: &[u8], ending: &SourceEnd) -> Option<StrictFault>
    ensures { (pick : PickOf) (naming : NamingOf) →
        ending.now ≡ (read_pprof profile.now pick naming).ending →
        result ≡ fault_of_rest (length profile.now) (read_pprof profile.now pick naming) }
{
    if let SourceEnd::Fault(fault) = ending {
        return Some(StrictFault::from(*fault));
    }
    if has_sample(profile) {
        return None;
    }
    let kind = StrictKind::NoSamples;
    let at = profile.len() as u64;
    Some(StrictFault { kind, at })
}

/// What is wrong with a source that reads to this ending.
fn fault_of(source: &LoadedSource, ending: &SourceEnd) -> Option<StrictFault>
    ensures { (options : Options) → ending.now ≡ (whole_rest options source.now).ending
        → result ≡ source_fault options source.now }
{
    let bytes = source.bytes().as_slice();
    match source.format() {
        Format::Folded => strict_fault(bytes, ending),
        Format::Pprof => fault_of_profile(bytes, ending),
    }
}

/// Whether all of a source was read, no line of it is ignored, and a sample was kept.
fn is_sound(list: &SourceList) -> bool
    ensures { result ≡ true → IsSound list.now }
{
    match list.ending() {
        SourceEnd::Clean { ignored } => *ignored == 0 && list.len() > 0,
        SourceEnd::Fault(_) | SourceEnd::Stopped { after: _ } => false,
    }
}

/// What is wrong with the source at a place, by its list. Its bytes are looked at, unless that shows it to be sound.
fn fault_at(
    alloc: Global,
    input: &Input,
    lists: &[SourceList],
    at: usize,
) -> Result<Option<StrictFault>, RunFault>
    ensures { IfOk result (HasFault input.now (slice_get lists.now at)) }
{
    let Some(list) = lists.get(at) else {
        return Ok(None);
    };
    if is_sound(list) {
        return Ok(None);
    }
    let source = input.share()?.load_at(alloc, at)?;
    Ok(fault_of(&source, list.ending()))
}

/// What is wrong with each source where it is read strictly, if anything is, by what was read of it: that a line is ignored, that there is no
/// sample, or its fault, whichever comes first. What a filter leaves out counts as a sample. A stored source is loaded for it, unless its
/// list shows it to be sound.
pub fn strict_faults(
    alloc: Global,
    inputs: &[Input],
    lists: &[SourceList],
) -> Result<Vec<Option<StrictFault>>, RunFault>
    ensures { IfSome (known_inputs inputs.now) (λ sources. (options : Options)
        → AreWhole (asked_rests options sources) lists.now
        → IfOk result (λ faults. faults.items ≡ map (source_fault options) sources)) }
{
    let mut faults = Vec::with_capacity(alloc, inputs.len())?;
    for input in inputs {
        let fault = fault_at(alloc, input, lists, faults.len())?;
        let Ok(()) = faults.push(fault) else {
            return Err(RunFault::from(AllocError));
        };
    }
    Ok(faults)
}
