//! The fields of a message, one after another.

ghost use Rattle.std.specs.Prelude.{◌≡◌, ◌≤◌, length};
ghost use Rattle.wire_fields.specs.Field.{seen_field};
ghost use Rattle.wire_fields.specs.Reading.{Answers, IsReadingOfFields, fields_of, next_place};

use crate::fault::WireFault;
use crate::field::Field;
use crate::reading::field;
use std::marker::Model;

/// Goes over the fields of a message. Contracts see it as what is left to read: the fields still to come, and
/// then the fault, if there is one.
#[derive(Debug, Drop)]
pub struct Fields<'a> {
    rest: &'a [u8],
    at: usize,
}

impl<'a> Model for Fields<'a> {
    ghost use Rattle.std.specs.Prelude.{◌+◌, ◌^◌, ◌<◌, length};
    ghost use Rattle.wire_fields.specs.Field.{WireField};
    ghost use Rattle.wire_fields.specs.Reading.{Left, left_at, field_at};

    ghost Value = { Left WireField };

    ghost view = { λ a. left_at field_at a.at 0 a.rest.now };

    ghost invariant = { λ a. a.at + length a.rest.now < 2 ^ 64 };
}

impl<'a> Fields<'a> {
    /// The fields of a message, of which these are all bytes.
    #[inline]
    #[tactic(auto, unfolding(crate::specs::Reading::fields_of))]
    pub fn over(bytes: &'a [u8]) -> Fields<'a>
        // The fields of the longest front that spells a list of them, and then the end or the first fault.
        ensures reading { IsReadingOfFields bytes.now result }
        ensures exact { result ≡ fields_of bytes.now }
        ensures at_most { length result.items ≤ length bytes.now }
    {
        Fields { rest: bytes, at: 0 }
    }

    /// The next field, and None behind the last one. A fault, which lies at the field's tag, repeats and moves
    /// nothing, and so does the end.
    // With what it calls it is inlined, so that the field goes to its reader in registers.
    #[inline(always)]
    pub fn next(&mut self) -> Result<Option<Field<'a>>, WireFault>
        ensures { Answers seen_field result self.old self.new }
    {
        if self.rest.is_empty() {
            return Ok(None);
        }
        match field(self.at, self.rest) {
            Ok((field, rest)) => {
                self.at += self.rest.len() - rest.len();
                self.rest = rest;
                Ok(Some(field))
            }
            Err(kind) => Err(WireFault { kind, at: self.at }),
        }
    }

    /// Where the next field begins, or the fault lies, without reading it. None behind the last field.
    #[inline]
    pub fn next_at(&self) -> Option<usize>
        ensures { result ≡ next_place self.now.items self.now.fault }
    {
        if self.rest.is_empty() {
            return None;
        }
        Some(self.at)
    }
}
