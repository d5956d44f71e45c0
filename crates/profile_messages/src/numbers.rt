//! The repeated numbers of a sample's message.

ghost use Rattle.std.specs.Prelude.{◌≡◌, ◌++◌, None, IfOk, OnOk};
ghost use Rattle.wire_fields.specs.Field.{seen_field, seen_value};
ghost use Rattle.profile_messages.specs.checked.Gathered.{IsGathered, IsRunGathered};
ghost use Rattle.profile_messages.specs.Message.{first, repeated_from, repeated_numbers};
ghost use Rattle.profile_messages.specs.SeenNumbers.{AreNumbersOf};
ghost use Rattle.profile_messages.specs.Shapes.{faults_of_field, faults_in, sample_shape};

use crate::messages::read_kind;
use stack_core::ReadKind;
use std::alloc::{AllocError, Global};
use wire_fields::{Field, FieldValue, Fields, Packed};

/// Room for the locations of a usual stack.
const USUAL_DEPTH: usize = 32;

/// The repeated numbers of a sample: single values and packed runs, each in its place (profile.proto, message Sample).
#[derive(Drop)]
pub struct Numbers {
    /// `location_id`.
    pub ids: Vec<u64>,
    /// `value`, of which a negative one is seen as its 64 bits.
    pub values: Vec<u64>,
}

/// Appends the numbers of a packed run up to its fault, which is answered.
fn append_run(numbers: &mut Vec<u64>, run: &[u8]) -> Result<Option<ReadKind>, AllocError>
    ensures { IfOk result (IsRunGathered run.now numbers.old.items numbers.new.items) }
{
    let mut run = Packed::over(run);
    loop {
        match run.next() {
            Ok(Some(number)) => numbers.push(number)?,
            Ok(None) => return Ok(None),
            Err(fault) => return Ok(Some(read_kind(fault.kind))),
        }
    }
}

/// Appends the numbers of one field up to its fault, which is answered.
fn append_numbers(
    numbers: &mut Vec<u64>,
    value: FieldValue<'_>,
) -> Result<Option<ReadKind>, AllocError>
    ensures { IfOk result
        (IsGathered (seen_value value.entry) numbers.old.items numbers.new.items) }
{
    match value {
        FieldValue::Varint(number) => {
            numbers.push(number)?;
            Ok(None)
        }
        FieldValue::Bytes(run) => append_run(numbers, run),
        FieldValue::Eight(_) | FieldValue::Four(_) => Ok(Some(ReadKind::WrongKind)),
    }
}

/// Appends the numbers of a sample's field to those of its kind, up to its fault, which is answered.
fn append_field(
    ids: &mut Vec<u64>,
    values: &mut Vec<u64>,
    field: Field<'_>,
) -> Result<Option<ReadKind>, AllocError>
    ensures fault { IfOk result (λ fault.
        fault ≡ first (faults_of_field sample_shape (seen_field field.entry))) }
    ensures ids { OnOk result (ids.new.items
        ≡ ids.old.items ++ repeated_from 1 (seen_field field.entry)) }
    ensures values { OnOk result (values.new.items
        ≡ values.old.items ++ repeated_from 2 (seen_field field.entry)) }
{
    match field.number {
        1 => append_numbers(ids, field.value),
        2 => append_numbers(values, field.value),
        _ => Ok(None),
    }
}

/// Appends the numbers of a sample's message up to its fault, which is answered.
fn append_message(
    ids: &mut Vec<u64>,
    values: &mut Vec<u64>,
    sample: &[u8],
) -> Result<Option<ReadKind>, AllocError>
    ensures fault { IfOk result (λ fault. fault ≡ first (faults_in sample_shape sample.now)) }
    ensures ids { IfOk result (λ fault. fault ≡ None
        → ids.new.items ≡ ids.old.items ++ repeated_numbers 1 sample.now) }
    ensures values { IfOk result (λ fault. fault ≡ None
        → values.new.items ≡ values.old.items ++ repeated_numbers 2 sample.now) }
{
    let mut fields = Fields::over(sample);
    loop {
        match fields.next() {
            Ok(Some(field)) => {
                if let Some(kind) = append_field(ids, values, field)? {
                    return Ok(Some(kind));
                }
            }
            Ok(None) => return Ok(None),
            Err(fault) => return Ok(Some(read_kind(fault.kind))),
        }
    }
}

/// The numbers of a sample's message, or what is wrong with it.
pub fn numbers_of(alloc: Global, sample: &[u8]) -> Result<Result<Numbers, ReadKind>, AllocError>
    ensures { IfOk result (AreNumbersOf sample.now) }
{
    let mut ids = Vec::with_capacity(alloc, USUAL_DEPTH)?;
    let mut values = Vec::new(alloc);
    match append_message(&mut ids, &mut values, sample)? {
        Some(kind) => Ok(Err(kind)),
        None => Ok(Ok(Numbers { ids, values })),
    }
}
