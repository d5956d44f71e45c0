//! Where bytes come in: the trait, and a wrapper of any of std's readers.
ghost use Rattle.std.specs.Prelude.{◌≡◌, ℕ, List, Option, Bool, true, false, IsOk};
ghost use Rattle.std.specs.Io.{ReadsAtMost};
ghost use Rattle.std.specs.Io.KnownBytes.{ReadConsumes};
ghost use Rattle.byte_io.specs.Calls.{CountsRead};
ghost use Rattle.byte_io.specs.Inlet.{inner_reader, failed_reads};

use crate::failure_counts::count_after;
use std::io;
use std::io::{ErrorKind, Read};

/// A source of bytes that counts its calls that failed. It is called as std's readers are.
pub trait Inlet {
    // The bytes still to come, where they are known: over memory, and not over the machine.
    ghost remaining: { Self → Option (List ℕ) };

    // How many calls failed. At 2^64 - 1 it stays.
    ghost failures: { Self → ℕ };

    // Whether no read fails: over memory, and not over the machine.
    ghost is_sure: { Self → Bool } = { λ _. false };

    /// Reads some bytes into the front of `buf`, and answers how many. It answers 0 at the end,
    /// and for an empty `buf`.
    fn read(&mut self, buf: &mut [u8]) -> io::Result<usize>
        ensures bound { ReadsAtMost result buf.new }
        ensures bytes { ReadConsumes (remaining self.old) (remaining self.new) result buf.new }
        ensures count { CountsRead (failures self.old) (failures self.new) result }
        ensures sure { is_sure self.old ≡ true → IsOk result }
        ensures surety { is_sure self.new ≡ is_sure self.old };
}

/// Any of std's readers as an `Inlet`: a slice of bytes, which tells what is left of it, or a file
/// or standard input, which tells nothing. A read that a signal interrupts is tried again, and
/// counts as one call.
#[derive(Drop)]
pub struct CountedReader<R> {
    reader: R,
    failures: u64,
}

impl<R> CountedReader<R> {
    /// The reader, with no call failed yet.
    pub fn new(reader: R) -> CountedReader<R>
        ensures inner { inner_reader result ≡ reader }
        ensures count { failed_reads result ≡ 0 }
    {
        CountedReader {
            reader,
            failures: 0,
        }
    }

    /// How many calls failed. At `u64::MAX` it stays.
    pub fn failures(&self) -> u64
        ensures { result ≡ failed_reads self.now }
    {
        self.failures
    }

    /// The reader, where it stands.
    pub fn into_inner(self) -> R
        ensures { result ≡ inner_reader self }
    {
        let CountedReader {
            reader,
            failures: _,
        } = self;
        reader
    }
}

impl<R: Read> Inlet for CountedReader<R> {
    ghost remaining = { λ s. R.remaining (inner_reader s) };

    ghost failures = { failed_reads };

    fn read(&mut self, buf: &mut [u8]) -> io::Result<usize> {
        let answer = read_uninterrupted(&mut self.reader, buf);
        self.failures = count_after(self.failures, answer.is_err());
        answer
    }
}

// One read, tried again where a signal interrupts it.
fn read_uninterrupted<R: Read>(reader: &mut R, buf: &mut [u8]) -> io::Result<usize>
    ensures bound { ReadsAtMost result buf.new }
    ensures bytes { ReadConsumes (R.remaining reader.old) (R.remaining reader.new) result buf.new }
{
    for _turn in 0..u64::MAX {
        match reader.read(buf) {
            Ok(count) => return Ok(count),
            Err(e) => {
                if e.kind() != ErrorKind::Interrupted {
                    return Err(e);
                }
            }
        }
    }
    reader.read(buf)
}
