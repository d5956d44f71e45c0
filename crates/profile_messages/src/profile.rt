//! The messages of a profile as they stand in its file.

ghost use Rattle.std.specs.Prelude.{◌≡◌, None, IfOk, IfErr};
ghost use Rattle.wire_fields.specs.Field.{seen_field};
ghost use Rattle.profile_messages.specs.Message.{first};
ghost use Rattle.profile_messages.specs.Shapes.{field_faults};
ghost use Rattle.profile_messages.specs.Faults.{IsFirstOf};
ghost use Rattle.profile_messages.specs.SeenProfile.{lines_at, IsProfileOf};
ghost use Rattle.profile_messages.specs.checked.Fields.{IsFieldAdded};

use crate::faults::TableFault;
use crate::message::Content;
use crate::messages::{
    Function, Line, Location, PlacedNumber, Span, ValueType, decode_function, decode_location,
    decode_value_type, read_kind,
};
use stack_core::{ReadFault, ReadKind};
use std::alloc::{AllocError, Global};
use wire_fields::{Field, FieldValue, Fields};

/// Message `Profile`, each table in file order. The strings are borrowed from the file, and the samples are decoded one by one, when they
/// are asked for.
#[derive(Drop)]
pub struct Profile<'a> {
    pub sample_types: Vec<ValueType>,
    /// The offset of each sample's tag.
    pub samples: Vec<usize>,
    pub locations: Vec<Location>,
    /// The lines of all locations.
    pub lines: Vec<Line>,
    pub functions: Vec<Function>,
    pub strings: Vec<Content<'a>>,
    /// `default_sample_type`, where its last field stands.
    pub default: PlacedNumber,
}

impl<'a> Profile<'a> {
    /// The lines of a location.
    pub fn lines(&self, span: Span) -> &[Line]
        ensures { result.now ≡ lines_at self.now.lines.items span }
    {
        self.lines.get(span.start..span.end).unwrap_or(&[])
    }
}

/// Decodes one more field of the profile, or answers what is wrong with it: `sample_type` 1, `sample` 2, whose content is looked at where
/// it is read, `location` 4, `function` 5, `string_table` 6 and `default_sample_type` 14.
fn add_field<'a>(
    profile: &mut Profile<'a>,
    field: Field<'a>,
) -> Result<Option<ReadKind>, AllocError>
    ensures { IfOk result (IsFieldAdded (seen_field field.entry) profile.old profile.new) }
{
    let at = field.at;
    match (field.number, field.value) {
        (1, FieldValue::Bytes(message)) => match decode_value_type(at, message) {
            Ok(value_type) => profile.sample_types.push(value_type)?,
            Err(kind) => return Ok(Some(kind)),
        },
        (2, FieldValue::Bytes(_)) => profile.samples.push(at)?,
        (4, FieldValue::Bytes(message)) => {
            match decode_location(&mut profile.lines, at, message)? {
                Ok(location) => profile.locations.push(location)?,
                Err(kind) => return Ok(Some(kind)),
            }
        }
        (5, FieldValue::Bytes(message)) => match decode_function(at, message) {
            Ok(function) => profile.functions.push(function)?,
            Err(kind) => return Ok(Some(kind)),
        },
        (6, FieldValue::Bytes(bytes)) => profile.strings.push(Content { at, bytes })?,
        (14, FieldValue::Varint(number)) => profile.default = PlacedNumber { at, number },
        (1 | 2 | 4 | 5 | 6 | 14, _) => return Ok(Some(ReadKind::WrongKind)),
        _ => {}
    }
    Ok(None)
}

/// Decodes a file, each message but the samples' once.
pub(crate) fn profile_of<'a>(alloc: Global, file: &'a [u8]) -> Result<Profile<'a>, TableFault>
    ensures profile { IfOk result (IsProfileOf file.now) }
    ensures faultless { IfOk result (λ _. first (field_faults file.now) ≡ None) }
    ensures fault { IfErr result (IsFirstOf (field_faults file.now)) }
{
    let mut profile = Profile {
        sample_types: Vec::new(alloc),
        samples: Vec::new(alloc),
        locations: Vec::new(alloc),
        lines: Vec::new(alloc),
        functions: Vec::new(alloc),
        strings: Vec::new(alloc),
        default: PlacedNumber { at: 0, number: 0 },
    };
    let mut fields = Fields::over(file);
    loop {
        match fields.next() {
            Ok(Some(field)) => {
                let at = field.at as u64;
                if let Some(kind) = add_field(&mut profile, field)? {
                    return Err(TableFault::Read(ReadFault { kind, at }));
                }
            }
            Ok(None) => return Ok(profile),
            Err(fault) => {
                let at = fault.at as u64;
                let kind = read_kind(fault.kind);
                return Err(TableFault::Read(ReadFault { kind, at }));
            }
        }
    }
}
