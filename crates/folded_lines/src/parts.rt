//! A text that is cut at line ends, and read by several readers that share it.

ghost use Rattle.std.specs.Prelude.{◌≡◌, ◌≤◌, ◌<◌, [], All, IfOk, length, map, take};
ghost use Rattle.std.specs.List.{concat};
ghost use Rattle.stack_core.specs.Parts.{ReadsInParts};
ghost use Rattle.folded_lines.specs.Reading.{read_folded};
ghost use Rattle.folded_lines.specs.TextParts.{IsWholeLines, AreCutAtLines};

use crate::rows::FoldedRows;
use bstr::ByteSlice;
use bytes::Bytes;
use std::alloc::{AllocError, Global};

/// The end of a part that is at least this long: behind a line feed. It is 0 where none follows.
fn part_end(bytes: &[u8], len: usize) -> usize
    requires { len ≤ length bytes.now }
    ensures within { result ≤ length bytes.now }
    ensures lines { IsWholeLines (take result bytes.now) }
{
    match (&bytes[len..]).find_byte(b'\n') {
        Some(at) => len + at + 1,
        None => 0,
    }
}

/// So many parts of a text, about equal where no line is long.
fn cut_at_lines(alloc: Global, text: Bytes, count: usize) -> Result<Vec<Bytes>, AllocError>
    requires { 0 < count }
    ensures whole { IfOk result (λ parts. concat parts.items ≡ text) }
    ensures lines { IfOk result (λ parts. AreCutAtLines parts.items) }
    ensures count { IfOk result (λ parts. length parts.items ≡ count) }
{
    let mut parts = Vec::with_capacity(alloc, count)?;
    let mut rest = text;
    let mut left = count;
    while left > 1 {
        let end = part_end(rest.as_slice(), rest.len() / left);
        parts.push(rest.split_to(end)?)?;
        left -= 1;
    }
    parts.push(rest)?;
    Ok(parts)
}

impl FoldedRows {
    /// A reader of each part of a text that is cut at line ends, in their order.
    fn of_parts(alloc: Global, parts: &[Bytes]) -> Result<Vec<FoldedRows>, AllocError>
        requires { AreCutAtLines parts.now }
        ensures parts { IfOk result (λ readers.
            ReadsInParts (read_folded (concat parts.now)) (map (λ reader. reader.rest) readers.items)) }
        ensures count { IfOk result (λ readers. length readers.items ≡ length parts.now) }
        ensures told { IfOk result (λ readers. All (λ reader. reader.told ≡ record { names = []; stacks = [] })
            readers.items) }
    {
        let mut readers = Vec::with_capacity(alloc, parts.len())?;
        for part in parts {
            readers.push(FoldedRows::over_shared(alloc, part.clone()?))?;
        }
        Ok(readers)
    }

    /// Readers of so many parts of a text, one after another. The parts are cut at line ends, share the text, and are about equal where no
    /// line is long. Where no part has a fault, what they give one after another is what the text stands for. The line that a fault names
    /// is counted from the beginning of its part.
    pub fn parts(alloc: Global, text: Bytes, count: usize) -> Result<Vec<FoldedRows>, AllocError>
        requires { 0 < count }
        ensures parts { IfOk result (λ readers.
            ReadsInParts (read_folded text) (map (λ reader. reader.rest) readers.items)) }
        ensures count { IfOk result (λ readers. length readers.items ≡ count) }
        ensures told { IfOk result (λ readers. All (λ reader. reader.told ≡ record { names = []; stacks = [] })
            readers.items) }
    {
        FoldedRows::of_parts(alloc, &cut_at_lines(alloc, text, count)?)
    }
}
