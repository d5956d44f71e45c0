//! Folded text, read sample by sample.

ghost use Rattle.std.specs.Prelude.{IsTrue};
ghost use Rattle.folded_lines.specs.State.{IsUnread};

use crate::rows::FoldedRows;
use stack_core::{NamingReader, SampleReader, Step};
use std::alloc::{AllocError, Global};
use std::marker::Model;

/// Reads the samples of folded text: names joined by `;`, root first, a space or tab and a count, a sample
/// a line, as the FlameGraph tools write it. Lines without a count are ignored and counted. The first fault
/// ends the source, and its `at` is the number of its line, from 1. Contracts see what the reader still has
/// to give, and whether it has answered the ending.
#[derive(Drop)]
pub struct FoldedReader {
    naming: NamingReader<FoldedRows>,
}

impl Model for FoldedReader {
    ghost use Rattle.folded_lines.specs.State.{State};
    ghost use Rattle.folded_lines.specs.checked.View.{reader_state};

    ghost Value = { State };

    ghost view = { reader_state };
}

impl FoldedReader {
    /// A reader of folded text, from its first line. It takes no memory.
    pub fn over(bytes: Vec<u8>) -> Self
        ensures { IsUnread bytes.items result }
    {
        let alloc = *bytes.allocator();
        FoldedReader {
            naming: NamingReader::of(alloc, FoldedRows::over(bytes)),
        }
    }
}

impl SampleReader for FoldedReader {
    ghost rest = { λ reader. reader.rest };

    ghost has_ended = { λ reader. IsTrue reader.has_ended };

    fn next(&mut self, alloc: Global) -> Result<Step, AllocError> {
        self.naming.next(alloc)
    }
}
