//! Bytes that several threads can read at the same time, each from a place of its own.
ghost use Rattle.std.specs.Prelude.{◌≡◌, ◌≤◌, ◌<◌, ◌+◌, ◌^◌, ℕ, List, Option, Some, Ok, length, take, drop, IfOk, IfSome};
ghost use Rattle.std.specs.Io.{ReadsAtMost};
ghost use Rattle.byte_io.specs.Files.{unknown};

use std::fs::File;
use std::io;
use std::io::Read;
use std::os::unix::fs::FileExt;

/// Bytes that can be read from any place, by several threads at the same time.
pub trait PositionedRead {
    // All the bytes, where they are known: in memory, and not in a file.
    ghost content: { Self → Option (List ℕ) };

    /// Reads some bytes from a place on into the front of `buf`, and answers how many. It answers 0 at the end,
    /// and for an empty `buf`.
    fn read_from(&self, at: u64, buf: &mut [u8]) -> io::Result<usize>
        ensures bound { ReadsAtMost result buf.new }
        ensures bytes { IfOk result (λ count. IfSome (content self.now) (λ all.
            take count buf.new ≡ take count (drop at all))) }
        ensures end { result ≡ Ok 0 → 0 < length buf.new
            → IfSome (content self.now) (λ all. length all ≤ at) };
}

impl PositionedRead for File {
    ghost content = { λ _. unknown };

    fn read_from(&self, at: u64, buf: &mut [u8]) -> io::Result<usize> {
        self.read_at(buf, at)
    }
}

impl PositionedRead for Vec<u8> {
    ghost content = { λ bytes. Some bytes.items };

    fn read_from(&self, at: u64, buf: &mut [u8]) -> io::Result<usize> {
        let start = self.len().min(at as usize);
        let mut rest = &self[start..];
        rest.read(buf)
    }
}
