//! A stored text that is cut at line ends, and read by several readers where it is stored.

ghost use Rattle.std.specs.Prelude.{◌≡◌, ◌-◌, ◌<◌, ◌≤◌, ◌^◌, IfSome, drop, length, take};
ghost use Rattle.folded_lines.specs.TextParts.{IsWholeLines};

use crate::streams::FoldedStream;
use byte_io::{StoredRange, StoredText};
use stack_core::RowReader;
use std::alloc::{AllocError, Global};

/// A place that is so many parts of the bytes between two others behind the first.
fn place_between(begin: u64, end: u64, parts: u64) -> u64
    requires some { 0 < parts }
    requires short { end < 2 ^ 63 }
    ensures { begin ≤ result }
{
    begin + end.saturating_sub(begin) / parts
}

/// The end of the part that begins at a place, where so many parts are left: behind a line feed. Where no line ends behind it, the part is
/// empty.
fn part_end(alloc: Global, text: &StoredText, begin: u64, parts: u64) -> u64
    requires { 0 < parts }
    ensures ordered { begin ≤ result }
    ensures within { IfSome text.now (λ all. begin ≤ length all → result ≤ length all) }
    ensures lines { IfSome text.now (λ all. IsWholeLines (take (result - begin) (drop begin all))) }
{
    match text.line_end(alloc, place_between(begin, text.len(), parts)) {
        Some(end) => end,
        None => begin,
    }
}

impl FoldedStream<StoredRange> {
    ghost use Rattle.std.specs.Prelude.{◌≡◌, ◌<◌, ◌-◌, ◌↔◌, [], List, All, IfOk, IfSome, false, length};
    ghost use Rattle.std.specs.List.{AllZip};
    ghost use Rattle.byte_io.specs.Stored.{known_range};
    ghost use Rattle.stack_core.specs.Parts.{ReadsInParts};
    ghost use Rattle.stack_core.specs.Reading.{IsSourceLimited, Rest};
    ghost use Rattle.stack_core.specs.RowReading.{GivesSome};
    ghost use Rattle.folded_lines.specs.Reading.{read_folded};
    ghost use Rattle.folded_lines.specs.Streams.{StreamGives};

    /// A reader of a range of a text.
    fn over_range(
        alloc: Global,
        text: &StoredText,
        begin: u64,
        end: u64,
    ) -> Result<FoldedStream<StoredRange>, AllocError>
        ensures gives { IfOk result (λ reader. (rest : Rest) → ⟦<FoldedStream<StoredRange> as RowReader>⟧.gives reader rest
            ↔ StreamGives (known_range text.now begin (end - begin)) false rest) }
        ensures told { IfOk result (λ reader.
            ⟦<FoldedStream<StoredRange> as RowReader>⟧.told reader ≡ record { names = []; stacks = [] }) }
    {
        Ok(FoldedStream::over(alloc, text.range(begin, end)?))
    }

    /// Readers of so many parts of a stored text, one after another. The parts are cut at line ends, and are about equal where no line is
    /// long. Where no part has a fault and no read fails, what they give one after another is what the text stands for. The line that a
    /// fault names is counted from the beginning of its part.
    pub fn parts(
        alloc: Global,
        text: &StoredText,
        count: usize,
    ) -> Result<Vec<FoldedStream<StoredRange>>, AllocError>
        requires { 0 < count }
        ensures parts { IfOk result (λ readers. IfSome text.now (λ all. (rests : List Rest)
            → AllZip (λ reader rest. ⟦<FoldedStream<StoredRange> as RowReader>⟧.gives reader rest) readers.items rests
            → ReadsInParts (read_folded all) rests)) }
        ensures count { IfOk result (λ readers. length readers.items ≡ count) }
        ensures told { IfOk result (λ readers. All (λ reader.
            ⟦<FoldedStream<StoredRange> as RowReader>⟧.told reader ≡ record { names = []; stacks = [] }) readers.items) }
        ensures possible { IfOk result (λ readers. All (λ reader.
            GivesSome (⟦<FoldedStream<StoredRange> as RowReader>⟧.gives reader)) readers.items) }
        ensures limits { IfOk result (λ readers. All (λ reader. (rest : Rest)
            → ⟦<FoldedStream<StoredRange> as RowReader>⟧.gives reader rest → IsSourceLimited rest.samples) readers.items) }
    {
        let mut readers = Vec::with_capacity(alloc, count)?;
        let mut begin = 0;
        let mut left = count;
        while left > 1 {
            let end = part_end(alloc, text, begin, left as u64);
            readers.push(FoldedStream::over_range(alloc, text, begin, end)?)?;
            begin = end;
            left -= 1;
        }
        readers.push(FoldedStream::over_range(alloc, text, begin, text.len())?)?;
        Ok(readers)
    }
}
