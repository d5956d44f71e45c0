//! One field at the front of some bytes.

ghost use Rattle.std.specs.Prelude.{ℕ, List};
ghost use Rattle.wire_fields.specs.checked.Outcome.{Gives};
ghost use Rattle.wire_fields.specs.Field.{seen_value, seen_field};
ghost use Rattle.wire_fields.specs.Reading.{part_at, value_at, field_at};

use crate::fault::WireKind;
use crate::field::{Field, FieldValue};
use crate::varint::varint;

/// The first n bytes, and the bytes after them.
fn part(n: u64, bytes: &[u8]) -> Result<(&[u8], &[u8]), WireKind>
    ensures { Gives (λ x. (x.0.now, x.1.now)) result (part_at n bytes.now) }
{
    if (bytes.len() as u64) < n {
        return Err(WireKind::Truncated);
    }
    Ok(bytes.split_at(n as usize))
}

fn eight(bytes: &[u8]) -> Result<([u8; 8], &[u8]), WireKind>
    ensures { Gives (λ x. (x.0, x.1.now)) result (part_at 8 bytes.now) }
{
    let (front, rest) = part(8, bytes)?;
    Ok((<[u8; 8]>::try_from(front).unwrap(), rest))
}

fn four(bytes: &[u8]) -> Result<([u8; 4], &[u8]), WireKind>
    ensures { Gives (λ x. (x.0, x.1.now)) result (part_at 4 bytes.now) }
{
    let (front, rest) = part(4, bytes)?;
    Ok((<[u8; 4]>::try_from(front).unwrap(), rest))
}

#[inline(always)]
#[tactic(auto, unfolding(crate::specs::Reading::value_at))]
fn value(wire_type: u64, bytes: &[u8]) -> Result<(FieldValue<'_>, &[u8]), WireKind>
    ensures { Gives (λ x. (seen_value x.0, x.1.now)) result (value_at wire_type bytes.now) }
{
    match wire_type {
        0 => {
            let (number, rest) = varint(bytes)?;
            Ok((FieldValue::Varint(number), rest))
        }
        1 => {
            let (part, rest) = eight(bytes)?;
            Ok((FieldValue::Eight(part), rest))
        }
        2 => {
            let (len, rest) = varint(bytes)?;
            let (part, rest) = part(len, rest)?;
            Ok((FieldValue::Bytes(part), rest))
        }
        5 => {
            let (part, rest) = four(bytes)?;
            Ok((FieldValue::Four(part), rest))
        }
        _ => Err(WireKind::BadWireType),
    }
}

/// The field at the front of the bytes, which begin at offset `at`, and the bytes after it.
#[inline(always)]
#[tactic(auto, unfolding(crate::specs::Reading::field_at))]
pub(crate) fn field(at: usize, bytes: &[u8]) -> Result<(Field<'_>, &[u8]), WireKind>
    ensures { Gives (λ x. (seen_field x.0, x.1.now)) result (field_at at bytes.now) }
{
    let (tag, rest) = varint(bytes)?;
    if tag < 8 || tag > u64::from(u32::MAX) {
        return Err(WireKind::BadFieldNumber);
    }
    let (value, rest) = value(tag % 8, rest)?;
    let number = (tag / 8) as u32;
    Ok((Field { number, at, value }, rest))
}
