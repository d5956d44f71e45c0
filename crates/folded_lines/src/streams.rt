//! Folded text that comes by a stream, read line by line, by rows of numbers.

ghost use Rattle.std.specs.Prelude.{◌≡◌};
ghost use Rattle.std.proofs.Props.{props};
ghost use Rattle.folded_lines.specs.checked.StreamPlaces.{IsStreamPlace, ending_of};

use crate::cursor::Cursor;
use crate::stream_lines::StreamLines;
use crate::stream_steps::next_stream_step;
use crate::stream_telling::StreamTelling;
use byte_io::{BytesInlet, Inlet};
use stack_core::{KnownRows, RowReader, RowStep, SourceBytes, SourceEnd};
use std::alloc::{AllocError, Global};

/// Reads folded text while it comes by an inlet. Of the lines that were read no byte is kept, but those of one head: a stack is known again
/// by the names of its frames. A line is given as soon as its end came. Where a read fails, the lines before it count,
/// and the ending says how many samples they gave. It counts lines in 64 bits, and wants memory where it can't.
#[derive(Drop)]
pub struct FoldedStream<I: Inlet> {
    lines: StreamLines<I>,
    /// The lines so far, at position 0.
    counts: Cursor,
    ended: Option<SourceEnd>,
    telling: StreamTelling,
    ghost place: { IsStreamPlace (I.remaining lines.inlet) (I.is_sure lines.inlet) lines counts } by { Prim.hlevel props },
}

/// The ending that a step answers.
fn ending_of(step: &RowStep) -> Option<SourceEnd>
    ensures { result ≡ ending_of step.now }
{
    match step {
        RowStep::End(ending) => Some(*ending),
        RowStep::New { .. } | RowStep::Again { .. } => None,
    }
}

impl<I: Inlet> FoldedStream<I> {
    ghost use Rattle.std.specs.Prelude.{◌≡◌, ◌↔◌, [], true, false};
    ghost use Rattle.stack_core.specs.Reading.{Rest};
    ghost use Rattle.folded_lines.specs.Streams.{IsReadable, IsUnreadStream, StreamGives};
    ghost use Rattle.folded_lines.specs.StrictStreams.{StrictStreamGives};

    /// A reader of the folded text that comes by an inlet. It takes no memory. Of an inlet of which no read fails, the bytes are known.
    pub fn over(alloc: Global, inlet: I) -> Self
        requires small { IsReadable (I.remaining inlet) (I.is_sure inlet) }
        ensures { IsUnreadStream (⟦<FoldedStream<I> as RowReader>⟧.gives result)
            (⟦<FoldedStream<I> as RowReader>⟧.told result) (StreamGives (I.remaining inlet) (I.is_sure inlet)) }
    {
        FoldedStream::read_by(alloc, inlet, false)
    }

    /// The same, where a line that is ignored ends it: nothing is read behind such a line, and the ending counts it.
    pub fn strict_over(alloc: Global, inlet: I) -> Self
        requires small { IsReadable (I.remaining inlet) (I.is_sure inlet) }
        ensures { IsUnreadStream (⟦<FoldedStream<I> as RowReader>⟧.gives result)
            (⟦<FoldedStream<I> as RowReader>⟧.told result) (StrictStreamGives (I.remaining inlet) (I.is_sure inlet)) }
    {
        FoldedStream::read_by(alloc, inlet, true)
    }

    /// A reader that is strict, or is not.
    fn read_by(alloc: Global, inlet: I, is_strict: bool) -> Self
        requires small { IsReadable (I.remaining inlet) (I.is_sure inlet) }
        ensures gives { is_strict ≡ false → (rest : Rest) → ⟦<FoldedStream<I> as RowReader>⟧.gives result rest
            ↔ StreamGives (I.remaining inlet) (I.is_sure inlet) rest }
        ensures strict { is_strict ≡ true → (rest : Rest) → ⟦<FoldedStream<I> as RowReader>⟧.gives result rest
            ↔ StrictStreamGives (I.remaining inlet) (I.is_sure inlet) rest }
        ensures told { ⟦<FoldedStream<I> as RowReader>⟧.told result ≡ record { names = []; stacks = [] } }
    {
        FoldedStream {
            lines: StreamLines::over(alloc, inlet, is_strict),
            counts: Cursor::START,
            ended: None,
            telling: StreamTelling::new(alloc),
        }
    }
}

impl FoldedStream<BytesInlet> {
    ghost use Rattle.std.specs.Prelude.{◌≡◌, []};
    ghost use Rattle.stack_core.specs.Parts.{bytes_of};
    ghost use Rattle.folded_lines.specs.Reading.{read_folded};

    /// A reader of folded text whose bytes are all there. They are not copied, and it takes no memory.
    pub(crate) fn whole(alloc: Global, bytes: SourceBytes) -> Self
        ensures rest { ⟦<FoldedStream<BytesInlet> as KnownRows>⟧.rest result ≡ read_folded (bytes_of bytes) }
        ensures told { ⟦<FoldedStream<BytesInlet> as RowReader>⟧.told result ≡ record { names = []; stacks = [] } }
    {
        FoldedStream {
            lines: StreamLines::whole(BytesInlet::new(Vec::new(alloc)), bytes),
            counts: Cursor::START,
            ended: None,
            telling: StreamTelling::new(alloc),
        }
    }
}

impl<I: Inlet> RowReader for FoldedStream<I> {
    ghost use Rattle.std.specs.Prelude.{IsSome};
    ghost use Rattle.folded_lines.specs.checked.StreamPlaces.{GivesBy};

    ghost gives = { λ stream. GivesBy (I.remaining stream.lines.inlet) (I.is_sure stream.lines.inlet) stream.lines stream.counts stream.ended };

    ghost told = { λ stream. stream.telling };

    ghost has_ended = { λ stream. IsSome stream.ended };

    fn next_row(&mut self, alloc: Global) -> Result<RowStep, AllocError> {
        if let Some(ending) = self.ended {
            return Ok(RowStep::End(ending));
        }
        let step = next_stream_step(alloc, &mut self.lines, &mut self.counts, &mut self.telling)?;
        self.ended = ending_of(&step);
        Ok(step)
    }

    /// It may wait unless a line with a count is there.
    fn may_wait(&mut self) -> bool {
        self.ended.is_none() && self.lines.may_read()
    }

    fn name(&self, number: usize) -> Option<&str> {
        self.telling.name(number)
    }
}

impl KnownRows for FoldedStream<BytesInlet> {
    ghost use Rattle.folded_lines.specs.checked.KnownStreams.{known_gives, known_gives_no_other, known_rest};

    ghost rest = { λ stream. known_rest stream.lines.inlet stream.lines stream.counts stream.ended };

    ghost gives_rest = { λ stream. known_gives stream.lines.inlet stream.lines stream.counts stream.ended stream.place };

    ghost gives_no_other = { λ stream. known_gives_no_other stream.lines.inlet stream.lines stream.counts stream.ended };
}
