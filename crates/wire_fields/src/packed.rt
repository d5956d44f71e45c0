//! The numbers of a packed run, one after another.

ghost use Rattle.std.specs.Prelude.{◌≡◌, ◌≤◌, length};
ghost use Rattle.wire_fields.specs.Reading.{Answers, IsReadingOfNumbers, numbers_of};

use crate::fault::WireFault;
use crate::varint::varint;
use std::marker::Model;

/// Goes over the numbers of a packed run, a run of varints. Contracts see it as what is left to read: the
/// numbers still to come, and then the fault, if there is one.
#[derive(Debug, Drop)]
pub struct Packed<'a> {
    rest: &'a [u8],
    at: usize,
}

impl<'a> Model for Packed<'a> {
    ghost use Rattle.std.specs.Prelude.{ℕ, ◌+◌, ◌^◌, ◌<◌, length};
    ghost use Rattle.wire_fields.specs.Reading.{Left, left_at, number_at};

    ghost Value = { Left ℕ };

    ghost view = { λ a. left_at number_at a.at 0 a.rest.now };

    ghost invariant = { λ a. a.at + length a.rest.now < 2 ^ 64 };
}

impl<'a> Packed<'a> {
    /// The numbers of a packed run, of which these are all bytes.
    #[inline]
    #[tactic(auto, unfolding(crate::specs::Reading::numbers_of))]
    pub fn over(bytes: &'a [u8]) -> Packed<'a>
        // The numbers of the longest front that spells a list of them, and then the end or the first fault.
        ensures reading { IsReadingOfNumbers bytes.now result }
        ensures exact { result ≡ numbers_of bytes.now }
        ensures at_most { length result.items ≤ length bytes.now }
    {
        Packed { rest: bytes, at: 0 }
    }

    /// The next number, and None behind the last one. A fault, which lies at the number's first byte, repeats
    /// and moves nothing, and so does the end.
    #[inline]
    pub fn next(&mut self) -> Result<Option<u64>, WireFault>
        ensures { Answers (λ n. n) result self.old self.new }
    {
        if self.rest.is_empty() {
            return Ok(None);
        }
        match varint(self.rest) {
            Ok((number, rest)) => {
                self.at += self.rest.len() - rest.len();
                self.rest = rest;
                Ok(Some(number))
            }
            Err(kind) => Err(WireFault { kind, at: self.at }),
        }
    }
}
