//! Where bytes go out: the trait, and a wrapper of any of std's writers.
ghost use Rattle.std.specs.Prelude.{◌≡◌, ℕ, List, Option, OnOk, IsTrue, false};
ghost use Rattle.std.specs.Io.{WritesAtMost};
ghost use Rattle.std.specs.Io.KnownBytes.{Keeps, WriteAppends};
ghost use Rattle.byte_io.specs.Calls.{CountsWrite, CountsFlush};
ghost use Rattle.byte_io.specs.Outlet.{inner_writer, failed_writes, was_flushed};

use crate::failure_counts::count_after;
use std::io;
use std::io::{ErrorKind, Write};

/// A sink of bytes that counts its calls that failed. It is called as std's writers are.
pub trait Outlet {
    // The bytes that it holds, where they are known: over memory, and not over the machine.
    ghost contents: { Self → Option (List ℕ) };

    // How many calls failed: that erred, or that took none of some bytes. At 2^64 - 1 it stays.
    ghost failures: { Self → ℕ };

    // Whether what it took was handed on. Where a type doesn't say, this holds always.
    ghost is_flushed: { Self → Type 0 } = { λ _. Unit {0} };

    /// Takes some bytes off the front of `bytes`, and answers how many.
    fn write(&mut self, bytes: &[u8]) -> io::Result<usize>
        ensures bound { WritesAtMost result bytes.now }
        ensures bytes { WriteAppends (contents self.old) (contents self.new) result bytes.now }
        ensures count { CountsWrite (failures self.old) (failures self.new) result bytes.now };

    /// Hands on what it may still hold back.
    fn flush(&mut self) -> io::Result<()>
        ensures bytes { Keeps (contents self.old) (contents self.new) }
        ensures handed_on { OnOk result (is_flushed self.new) }
        ensures count { CountsFlush (failures self.old) (failures self.new) result };
}

/// Any of std's writers as an `Outlet`: a `Vec`, which tells its bytes, or a file or a standard
/// stream, which tells nothing. A call that a signal interrupts is tried again, and counts as one.
#[derive(Drop)]
pub struct CountedWriter<W> {
    writer: W,
    failures: u64,
    // Whether the last call was a flush that succeeded.
    flushed: bool,
}

impl<W> CountedWriter<W> {
    /// The writer, with no call failed yet.
    pub fn new(writer: W) -> CountedWriter<W>
        ensures inner { inner_writer result ≡ writer }
        ensures count { failed_writes result ≡ 0 }
        ensures unflushed { was_flushed result ≡ false }
    {
        CountedWriter {
            writer,
            failures: 0,
            flushed: false,
        }
    }

    /// How many calls failed. At `u64::MAX` it stays.
    pub fn failures(&self) -> u64
        ensures { result ≡ failed_writes self.now }
    {
        self.failures
    }

    /// The writer, with what it holds.
    pub fn into_inner(self) -> W
        ensures { result ≡ inner_writer self }
    {
        let CountedWriter {
            writer,
            failures: _,
            flushed: _,
        } = self;
        writer
    }
}

impl<W: Write> Outlet for CountedWriter<W> {
    ghost contents = { λ s. W.contents (inner_writer s) };

    ghost failures = { failed_writes };

    ghost is_flushed = { λ s. IsTrue (was_flushed s) };

    fn write(&mut self, bytes: &[u8]) -> io::Result<usize>
        ensures bound { WritesAtMost result bytes.now }
        ensures bytes { WriteAppends (W.contents (inner_writer self.old))
            (W.contents (inner_writer self.new)) result bytes.now }
        ensures count { CountsWrite (failed_writes self.old) (failed_writes self.new)
            result bytes.now }
        ensures unflushed { was_flushed self.new ≡ false }
    {
        let answer = write_uninterrupted(&mut self.writer, bytes);
        let failed = match &answer {
            Ok(count) => *count == 0 && !bytes.is_empty(),
            Err(_) => true,
        };
        self.failures = count_after(self.failures, failed);
        self.flushed = false;
        answer
    }

    fn flush(&mut self) -> io::Result<()> {
        let answer = flush_uninterrupted(&mut self.writer);
        self.failures = count_after(self.failures, answer.is_err());
        self.flushed = answer.is_ok();
        answer
    }
}

// One write, tried again where a signal interrupts it.
fn write_uninterrupted<W: Write>(writer: &mut W, bytes: &[u8]) -> io::Result<usize>
    ensures bound { WritesAtMost result bytes.now }
    ensures bytes { WriteAppends (W.contents writer.old) (W.contents writer.new) result bytes.now }
{
    for _turn in 0..u64::MAX {
        match writer.write(bytes) {
            Ok(count) => return Ok(count),
            Err(e) => {
                if e.kind() != ErrorKind::Interrupted {
                    return Err(e);
                }
            }
        }
    }
    writer.write(bytes)
}

// One flush, tried again where a signal interrupts it.
fn flush_uninterrupted<W: Write>(writer: &mut W) -> io::Result<()>
    ensures { Keeps (W.contents writer.old) (W.contents writer.new) }
{
    for _turn in 0..u64::MAX {
        match writer.flush() {
            Ok(()) => return Ok(()),
            Err(e) => {
                if e.kind() != ErrorKind::Interrupted {
                    return Err(e);
                }
            }
        }
    }
    writer.flush()
}
