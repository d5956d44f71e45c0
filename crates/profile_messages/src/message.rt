//! The fields of a message (protobuf encoding guide, "Message Structure").

ghost use Rattle.std.specs.Prelude.{◌≡◌, ◌∷◌, [], MatchOption};
ghost use Rattle.wire_fields.specs.Field.{seen_field};

use wire_fields::{Field, Fields};

/// A field that holds bytes.
#[derive(Clone, Copy, Debug)]
pub struct Content<'a> {
    /// The offset of the field's tag.
    pub at: usize,
    pub bytes: &'a [u8],
}

/// The next field, and None behind the last one or at a fault.
pub(crate) fn next_field<'a>(fields: &mut Fields<'a>) -> Option<Field<'a>>
    ensures { MatchOption result (fields.old.items ≡ []) (λ field.
        fields.old.items ≡ seen_field field ∷ fields.new.items) }
{
    match fields.next() {
        Ok(Some(field)) => Some(field),
        Ok(None) => None,
        Err(_) => None,
    }
}
