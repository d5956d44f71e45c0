//! The texts of views that may be long.
ghost use Rattle.source_views.specs.LongTexts.{pieces_of_one};

use byte_io::Pieces;
use flame_layout::{Chart, DrawnPair};
use merged_stacks::MergedStacks;
use stack_core::SourceList;
use std::alloc::{AllocError, Global};
use view_texts::{FoldedText, JsonLine};

/// A text, or another.
#[derive(Clone, Copy, Drop)]
pub enum OneOf<A, B> {
    First(A),
    Second(B),
}

/// Folded lines, or the line of a graph, of a chart or of a comparison. It is one type since a method of a trait
/// that is generic over texts can't hand them to threads.
pub type LongText<'a, 'n> = OneOf<
    FoldedText<'a>,
    OneOf<
        JsonLine<'a, &'a Chart<'n, MergedStacks>>,
        OneOf<JsonLine<'a, &'a Chart<'n, SourceList>>, JsonLine<'a, &'a [DrawnPair<'a>]>>,
    >,
>;

impl<A: Pieces, B: Pieces> Pieces for OneOf<A, B> {
    ghost pieces = { pieces_of_one A.pieces B.pieces };

    fn count(&self) -> usize {
        match self {
            OneOf::First(text) => text.count(),
            OneOf::Second(text) => text.count(),
        }
    }

    fn append_piece(&self, alloc: Global, at: usize, out: &mut Vec<u8>) -> Result<(), AllocError> {
        match self {
            OneOf::First(text) => text.append_piece(alloc, at, out),
            OneOf::Second(text) => text.append_piece(alloc, at, out),
        }
    }

    fn append_some(
        &self,
        alloc: Global,
        at: usize,
        out: &mut Vec<u8>,
    ) -> Result<usize, AllocError> {
        match self {
            OneOf::First(text) => text.append_some(alloc, at, out),
            OneOf::Second(text) => text.append_some(alloc, at, out),
        }
    }
}
