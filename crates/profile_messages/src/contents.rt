//! Where the samples of a profile stand.

ghost use Rattle.std.specs.Prelude.{◌≡◌};
ghost use Rattle.profile_messages.specs.Offsets.{content_at as content_in};

use crate::message::next_field;
use wire_fields::{FieldValue, Fields};

/// The bytes that the field at an offset holds, and none where there is no such field.
pub fn content_at(file: &[u8], at: usize) -> &[u8]
    ensures { result.now ≡ content_in file.now at }
{
    let Some(behind) = file.get(at..) else {
        return b"";
    };
    let mut fields = Fields::over(behind);
    match next_field(&mut fields) {
        Some(field) => match field.value {
            FieldValue::Bytes(bytes) => bytes,
            FieldValue::Varint(_) | FieldValue::Eight(_) | FieldValue::Four(_) => b"",
        },
        None => b"",
    }
}
