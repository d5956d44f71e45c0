//! Folded text that is all there, read line by line, by rows of numbers.

ghost use Rattle.std.specs.Prelude.{◌≡◌, IsTrue, refl};
ghost use Rattle.stack_core.specs.Parts.{bytes_of};
ghost use Rattle.folded_lines.specs.State.{IsUnread};

use crate::streams::FoldedStream;
use byte_io::BytesInlet;
use bytes::Bytes;
use stack_core::{KnownRows, RowReader, RowStep, SourceBytes};
use std::alloc::{AllocError, Global};
use std::fmt::{self, Debug, Formatter, Write};
use std::marker::Model;

/// Reads folded text as `FoldedReader` does, but gives each name once, and each stack as the numbers of its names: a `FoldedStream` of
/// bytes that are all there, which are not copied. Contracts see what it still has to give, what it told, and whether it has answered the
/// ending.
#[derive(Drop)]
pub struct FoldedRows {
    stream: FoldedStream<BytesInlet>,
}

impl Model for FoldedRows {
    ghost use Rattle.folded_lines.specs.State.{State};
    ghost use Rattle.folded_lines.specs.checked.KnownStreams.{stream_state};

    ghost Value = { State };

    ghost view = { λ reader. stream_state reader.stream.lines.inlet reader.stream.lines reader.stream.counts reader.stream.ended
        reader.stream.telling };
}

impl Debug for FoldedRows {
    fn fmt<W: Write>(&self, f: &mut Formatter<W>) -> Result<(), fmt::Error> {
        f.write_str("FoldedRows")
    }
}

impl FoldedRows {
    /// A reader of folded text, from its first line. It takes no memory.
    pub fn over(bytes: Vec<u8>) -> Self
        ensures { IsUnread bytes.items result }
    {
        let alloc = *bytes.allocator();
        FoldedRows::of(alloc, SourceBytes::Own(bytes))
    }

    /// A reader of folded text that others share, from its first line. It takes no memory.
    pub fn over_shared(alloc: Global, bytes: Bytes) -> Self
        ensures { IsUnread bytes result }
    {
        FoldedRows::of(alloc, SourceBytes::Shared(bytes))
    }

    fn of(alloc: Global, bytes: SourceBytes) -> Self
        ensures { IsUnread (bytes_of bytes) result }
    {
        FoldedRows {
            stream: FoldedStream::whole(alloc, bytes),
        }
    }
}

impl RowReader for FoldedRows {
    ghost gives = { λ reader rest. rest ≡ reader.rest };

    ghost told = { λ reader. reader.told };

    ghost has_ended = { λ reader. IsTrue reader.has_ended };

    fn next_row(&mut self, alloc: Global) -> Result<RowStep, AllocError> {
        self.stream.next_row(alloc)
    }

    fn name(&self, number: usize) -> Option<&str> {
        self.stream.name(number)
    }
}

impl KnownRows for FoldedRows {
    ghost rest = { λ reader. reader.rest };

    ghost gives_rest = { λ reader. refl };

    ghost gives_no_other = { λ reader other is. is };
}
