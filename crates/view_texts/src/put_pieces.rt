//! Pieces and numbers that are put into a buffer from its end to its front, so that many of them are
//! appended to a text at once.

ghost use Rattle.std.specs.Prelude.{◌≡◌, ◌+◌, ◌≤◌, ◌++◌, length, drop, decimal};

use itoa::write_digits;

// Puts a piece before what stands from `end` on, and answers where it begins. It is inlined so that
// the length of the piece is known.
#[inline(always)]
pub(crate) fn put_piece(bytes: &mut [u8], end: usize, piece: &[u8]) -> usize
    requires room { length piece.now ≤ end }
    requires within { end ≤ length bytes.old }
    ensures text { drop result bytes.new ≡ piece.now ++ drop end bytes.old }
    ensures start { result + length piece.now ≡ end }
{
    let start = end - piece.len();
    bytes[start..end].copy_from_slice(piece);
    start
}

// Puts a piece and a number before what stands from `end` on, and answers where they begin.
#[inline(always)]
pub(crate) fn put_number(bytes: &mut [u8], end: usize, piece: &[u8], number: u64) -> usize
    requires room { length piece.now + 20 ≤ end }
    requires within { end ≤ length bytes.old }
    ensures text { drop result bytes.new ≡ (piece.now ++ decimal number) ++ drop end bytes.old }
    ensures start { end ≤ result + (length piece.now + 20) }
    ensures within { result ≤ end }
{
    let digits = write_digits(number, bytes, end);
    put_piece(bytes, digits, piece)
}
