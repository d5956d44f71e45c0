//! Varints (protobuf encoding guide, "Base 128 Varints").

ghost use Rattle.std.specs.Prelude.{ℕ, List};
ghost use Rattle.wire_fields.specs.checked.Outcome.{Gives};
ghost use Rattle.wire_fields.specs.Varint.{varint_at};

use crate::fault::WireKind;

/// The place of the tenth byte, which holds the 64th bit alone.
const TENTH: usize = 9;

/// The number at the front, whatever its length, and the bytes after it.
#[inline(never)]
fn any_varint(bytes: &[u8]) -> Result<(u64, &[u8]), WireKind>
    ensures { Gives (λ x. (x.0, x.1.now)) result (varint_at bytes.now) }
{
    let mut number: u64 = 0;
    for (place, byte) in bytes.iter().enumerate() {
        if place == TENTH && *byte > 1 {
            return Err(WireKind::BadVarint);
        }
        number += u64::from(*byte & 0x7f) << (7 * place);
        if *byte < 0x80 {
            return Ok((number, &bytes[place + 1..]));
        }
    }
    Err(WireKind::Truncated)
}

/// The number at the front, and the bytes after it.
// Most numbers of a profile have one byte: that alone is inlined.
#[inline(always)]
pub(crate) fn varint(bytes: &[u8]) -> Result<(u64, &[u8]), WireKind>
    ensures { Gives (λ x. (x.0, x.1.now)) result (varint_at bytes.now) }
{
    match bytes.split_first() {
        Some((first, rest)) if *first < 0x80 => Ok((u64::from(*first), rest)),
        _ => any_varint(bytes),
    }
}
