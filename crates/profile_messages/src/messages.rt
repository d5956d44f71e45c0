//! The messages of profile.proto, decoded, as far as they are read: which fields each has, with which wire types, and what is wrong with
//! them. A scalar that stands twice has its last value, and one that does not stand is 0.

ghost use Rattle.std.specs.Prelude.{◌≡◌, ◌≤◌, IfOk};
ghost use Rattle.wire_fields.specs.Field.{seen_value};
ghost use Rattle.profile_messages.specs.Shapes.{kind_of, value_type_shape, line_shape, function_shape};
ghost use Rattle.profile_messages.specs.Records.{line_in, value_type_in, function_in};
ghost use Rattle.profile_messages.specs.checked.Decoding.{AreScalars, IsScalarSet, IsDecoded, IsLineAppended, IsLocationDecoded};

use stack_core::ReadKind;
use std::alloc::AllocError;
use wire_fields::{FieldValue, Fields, WireKind};

/// A number of the profile, and the offset of the tag of the field that holds it.
#[derive(Clone, Copy, Debug)]
pub struct PlacedNumber {
    pub at: usize,
    pub number: u64,
}

/// Message `ValueType`, by the indexes of its strings.
#[derive(Clone, Copy, Debug)]
pub struct ValueType {
    /// The offset of the tag of the profile's field.
    pub at: usize,
    /// Field `type`.
    pub type_: u64,
    pub unit: u64,
}

/// Message `Line`.
#[derive(Clone, Copy, Debug)]
pub struct Line {
    /// 0 where the line is of no function.
    pub function_id: u64,
    /// The line, of which a negative one is seen as its 64 bits.
    pub line: u64,
}

/// Message `Function`, by the indexes of its strings.
#[derive(Clone, Copy, Debug)]
pub struct Function {
    /// The offset of the tag of the profile's field.
    pub at: usize,
    pub id: u64,
    pub name: u64,
    pub system_name: u64,
}

/// A part of a list.
#[derive(Clone, Copy, Debug)]
pub struct Span {
    pub start: usize,
    pub end: usize,
}

/// Message `Location`.
#[derive(Clone, Copy, Debug)]
pub struct Location {
    /// The offset of the tag of the profile's field.
    pub at: usize,
    pub id: u64,
    pub address: u64,
    /// Where its lines stand among those of all locations.
    pub lines: Span,
}

/// The fault of a field or a file that a fault of the wire format is.
pub(crate) fn read_kind(kind: WireKind) -> ReadKind
    ensures { result ≡ kind_of kind }
{
    match kind {
        WireKind::Truncated => ReadKind::Truncated,
        WireKind::BadVarint => ReadKind::BadVarint,
        WireKind::BadFieldNumber => ReadKind::BadFieldNumber,
        WireKind::BadWireType => ReadKind::BadWireType,
    }
}

/// Sets a scalar to what one more field of it holds, or answers what is wrong with that.
pub(crate) fn set_scalar(scalar: &mut u64, value: FieldValue<'_>) -> Option<ReadKind>
    ensures { IsScalarSet (seen_value value.entry) scalar.old scalar.new result }
{
    match value {
        FieldValue::Varint(number) => {
            *scalar = number;
            None
        }
        FieldValue::Eight(_) | FieldValue::Bytes(_) | FieldValue::Four(_) => {
            Some(ReadKind::WrongKind)
        }
    }
}

/// Scalars of a message, its fields 1, 2 and 3.
#[derive(Clone, Copy)]
struct Scalars {
    first: u64,
    second: u64,
    /// 0 where the third is not read.
    third: u64,
}

/// Decodes a message of two or three scalars, its fields from 1 on.
fn decode_scalars(message: &[u8], most: u32) -> Result<Scalars, ReadKind>
    requires { (2 ≤ most) × (most ≤ 3) }
    ensures { AreScalars most message.now result }
{
    let mut first = 0;
    let mut second = 0;
    let mut third = 0;
    let mut fields = Fields::over(message);
    loop {
        match fields.next() {
            Ok(Some(field)) => {
                let fault = match field.number {
                    1 => set_scalar(&mut first, field.value),
                    2 => set_scalar(&mut second, field.value),
                    3 if most == 3 => set_scalar(&mut third, field.value),
                    _ => None,
                };
                if let Some(kind) = fault {
                    return Err(kind);
                }
            }
            Ok(None) => {
                return Ok(Scalars {
                    first,
                    second,
                    third,
                });
            }
            Err(fault) => return Err(read_kind(fault.kind)),
        }
    }
}

/// Decodes a sample type: `type` 1 and `unit` 2.
pub(crate) fn decode_value_type(at: usize, message: &[u8]) -> Result<ValueType, ReadKind>
    ensures { IsDecoded value_type_shape (value_type_in at) message.now result }
{
    let scalars = decode_scalars(message, 2)?;
    Ok(ValueType {
        at,
        type_: scalars.first,
        unit: scalars.second,
    })
}

/// Decodes a line: `function_id` 1 and `line` 2.
fn decode_line(message: &[u8]) -> Result<Line, ReadKind>
    ensures { IsDecoded line_shape line_in message.now result }
{
    let scalars = decode_scalars(message, 2)?;
    Ok(Line {
        function_id: scalars.first,
        line: scalars.second,
    })
}

/// Decodes a function: `id` 1, `name` 2 and `system_name` 3.
pub(crate) fn decode_function(at: usize, message: &[u8]) -> Result<Function, ReadKind>
    ensures { IsDecoded function_shape (function_in at) message.now result }
{
    let scalars = decode_scalars(message, 3)?;
    Ok(Function {
        at,
        id: scalars.first,
        name: scalars.second,
        system_name: scalars.third,
    })
}

/// Appends one more line, or answers what is wrong with it.
fn append_line(lines: &mut Vec<Line>, value: FieldValue<'_>) -> Result<Option<ReadKind>, AllocError>
    ensures { IfOk result (IsLineAppended (seen_value value.entry) lines.old.items lines.new.items) }
{
    let FieldValue::Bytes(message) = value else {
        return Ok(Some(ReadKind::WrongKind));
    };
    match decode_line(message) {
        Ok(line) => {
            lines.push(line)?;
            Ok(None)
        }
        Err(kind) => Ok(Some(kind)),
    }
}

/// Decodes a location: `id` 1, `address` 3 and `line` 4. Its lines go behind those of the locations before it.
pub(crate) fn decode_location(
    lines: &mut Vec<Line>,
    at: usize,
    message: &[u8],
) -> Result<Result<Location, ReadKind>, AllocError>
    ensures { IfOk result (IsLocationDecoded at message.now lines.old.items lines.new.items) }
{
    let start = lines.len();
    let mut id = 0;
    let mut address = 0;
    let mut fields = Fields::over(message);
    loop {
        match fields.next() {
            Ok(Some(field)) => {
                let fault = match field.number {
                    1 => set_scalar(&mut id, field.value),
                    3 => set_scalar(&mut address, field.value),
                    4 => append_line(lines, field.value)?,
                    _ => None,
                };
                if let Some(kind) = fault {
                    return Ok(Err(kind));
                }
            }
            Ok(None) => {
                let end = lines.len();
                let lines = Span { start, end };
                return Ok(Ok(Location {
                    at,
                    id,
                    address,
                    lines,
                }));
            }
            Err(fault) => return Ok(Err(read_kind(fault.kind))),
        }
    }
}
