//! The lines of a stream, one after another, as they come.

ghost use Rattle.std.specs.Prelude.{◌≡◌, ◌≢◌, ◌<◌, ◌≤◌, ◌^◌, ◌∷◌, [], true, false, length, take, drop, Some, None, Ok, IfOk, IfSome, OnErr, OnOk};
ghost use Rattle.memchr.specs.Find.{IsFirstByte, is_byte};
ghost use Rattle.stack_core.specs.Parts.{bytes_of};
ghost use Rattle.folded_lines.specs.Streams.{Coming};
ghost use Rattle.folded_lines.specs.Lines.{text_lines};

use crate::cursor::without_cr;
use crate::line_buffer::LineBuffer;
use crate::row_lines::{Count, RowLine, count_of};
use byte_io::Inlet;
use stack_core::SourceBytes;
use std::alloc::{AllocError, Global};

/// Whether more may come of a stream.
#[derive(Clone, Copy, Debug, PartialEq, Eq)]
pub(crate) enum StreamState {
    /// More may come.
    Open,
    /// It came to its end.
    Ended,
    /// A read failed.
    Failed,
}

/// A line that was found.
#[derive(Clone, Copy, Debug)]
pub(crate) struct FoundLine {
    /// How many bytes it has without its end.
    len: usize,
    /// How many bytes it has with its end.
    next: usize,
}

/// The lines of a stream, each as soon as it came.
#[derive(Drop)]
pub(crate) struct StreamLines<I> {
    pub(crate) inlet: I,
    pub(crate) state: StreamState,
    /// Whether a line that is ignored is the last.
    pub(crate) is_strict: bool,
    /// What was read and not given.
    buffer: LineBuffer,
    ghost short: { length buffer < 2 ^ 63 },
}

/// Whether no count stands at the end of a line.
fn is_ignored(line: &[u8]) -> bool {
    matches!(count_of(line), Count::Ignored)
}

impl<I: Inlet> StreamLines<I> {
    ghost use Rattle.sample_tables.specs.Rows.{ToldRows};
    ghost use Rattle.folded_lines.specs.checked.RowLines.{line_by};
    ghost use Rattle.folded_lines.specs.checked.StreamLines.{LinesMayCome, IsClosed, IsLineOf, HasNone, closes, line_of_found, unread_of};

    /// The lines of what comes from here on. It takes no memory.
    pub(crate) fn over(alloc: Global, inlet: I, is_strict: bool) -> Self
        ensures inlet { result.inlet ≡ inlet }
        ensures unread { unread_of result ≡ [] }
        ensures state { result.state ≡ StreamState.Open }
        ensures strictness { result.is_strict ≡ is_strict }
    {
        StreamLines {
            inlet,
            state: StreamState::Open,
            is_strict,
            buffer: LineBuffer::of(SourceBytes::Own(Vec::new(alloc))),
        }
    }

    /// The lines of bytes that are all there, and behind which none is read. It takes no memory.
    pub(crate) fn whole(inlet: I, bytes: SourceBytes) -> Self
        ensures inlet { result.inlet ≡ inlet }
        ensures unread { unread_of result ≡ bytes_of bytes }
        ensures state { result.state ≡ StreamState.Ended }
        ensures strictness { result.is_strict ≡ false }
    {
        StreamLines {
            inlet,
            state: StreamState::Ended,
            is_strict: false,
            buffer: LineBuffer::of(bytes),
        }
    }

    /// Finds the next line, without taking it off. `None` where there is none: at the end, or where a read failed, which drops what stands
    /// behind the last LF. It reads only where no whole line was read, and once a time, so that a line is given as soon as it came. Want
    /// of memory comes only where a line doesn't fit, and drops nothing.
    pub(crate) fn find_line(&mut self) -> Result<Option<FoundLine>, AllocError>
        ensures kept { (coming : Coming) →
            LinesMayCome (I.remaining self.new.inlet) (I.is_sure self.new.inlet) self.new coming
            → LinesMayCome (I.remaining self.old.inlet) (I.is_sure self.old.inlet) self.old coming }
        ensures line { IfOk result (λ found. IfSome found (IsLineOf self.new)) }
        ensures closed { result ≡ Ok None → HasNone self.new }
        ensures surety { I.is_sure self.new.inlet ≡ I.is_sure self.old.inlet }
        ensures strictness { self.new.is_strict ≡ self.old.is_strict }
    {
        if self.state == StreamState::Failed {
            return Ok(None);
        }
        'more: loop {
            if let Some(at) = self.buffer.find_feed() {
                return Ok(Some(self.line_before(at)));
            }
            if !self.read_more()? {
                return Ok(self.last_line());
            }
        }
    }

    /// Whether more may be read before a line comes that has a count, or is the last.
    pub(crate) fn may_read(&mut self) -> bool
        ensures { self.new ≡ self.old }
    {
        if self.state != StreamState::Open {
            return false;
        }
        match self.buffer.find_feed() {
            Some(at) => !self.is_strict && is_ignored(without_cr(self.buffer.front(at))),
            None => true,
        }
    }

    /// The line before the first LF.
    fn line_before(&self, at: usize) -> FoundLine
        requires feed { IsFirstByte (is_byte 10) (unread_of self.now) (Some at) }
        requires unfailed { self.now.state ≢ StreamState.Failed }
        ensures { IsLineOf self.now result }
    {
        FoundLine {
            len: without_cr(self.buffer.front(at)).len(),
            next: at + 1,
        }
    }

    /// Reads once, where more may come, and answers whether anything did.
    fn read_more(&mut self) -> Result<bool, AllocError>
        ensures kept { (coming : Coming) →
            LinesMayCome (I.remaining self.new.inlet) (I.is_sure self.new.inlet) self.new coming
            → LinesMayCome (I.remaining self.old.inlet) (I.is_sure self.old.inlet) self.old coming }
        ensures more { result ≡ Ok true → length (unread_of self.old) < length (unread_of self.new) }
        ensures open { result ≡ Ok true → self.new.state ≡ StreamState.Open }
        ensures stops { result ≡ Ok false → self.new.state ≢ StreamState.Open }
        ensures same { result ≡ Ok false → unread_of self.new ≡ unread_of self.old }
        ensures surety { I.is_sure self.new.inlet ≡ I.is_sure self.old.inlet }
        ensures strictness { self.new.is_strict ≡ self.old.is_strict }
    {
        let StreamState::Open = self.state else {
            return Ok(false);
        };
        match self.buffer.read(&mut self.inlet)? {
            Some(0) => self.state = StreamState::Ended,
            Some(_) => return Ok(true),
            None => self.state = StreamState::Failed,
        }
        Ok(false)
    }

    /// What stands behind the last LF, if anything does, where no LF is left.
    fn last_line(&self) -> Option<FoundLine>
        requires stops { self.now.state ≢ StreamState.Open }
        requires unfed { IsFirstByte (is_byte 10) (unread_of self.now) None }
        ensures line { IfSome result (IsLineOf self.now) }
        ensures closed { result ≡ None → HasNone self.now }
    {
        let len = self.buffer.len();
        if self.state == StreamState::Ended && len > 0 {
            Some(FoundLine { len, next: len })
        } else {
            None
        }
    }

    /// The bytes of a line that was found.
    pub(crate) fn line(&self, found: FoundLine) -> &[u8]
        requires { IsLineOf self.now found }
        ensures { result.now ≡ line_of_found self.now found }
    {
        self.buffer.front(found.len)
    }

    /// Takes a line off that was found.
    pub(crate) fn pass(&mut self, found: FoundLine)
        requires { IsLineOf self.old found }
        ensures line { (after : Coming) →
            LinesMayCome (I.remaining self.new.inlet) (I.is_sure self.new.inlet) self.new after
            → (before : Coming)
            × LinesMayCome (I.remaining self.old.inlet) (I.is_sure self.old.inlet) self.old before
            × (before.fails ≡ after.fails)
            × (text_lines before.bytes ≡ line_of_found self.old found ∷ text_lines after.bytes) }
        ensures surety { I.is_sure self.new.inlet ≡ I.is_sure self.old.inlet }
        ensures strictness { self.new.is_strict ≡ self.old.is_strict }
    {
        self.buffer.drop_front(found.next);
    }

    /// Ends where this line stood, if that is ignored and they are read strictly: nothing more is read.
    pub(crate) fn end_behind(&mut self, line: &RowLine)
        ensures kept { (told : ToldRows) → closes self.old.is_strict (line_by told line.now) ≡ false
            → self.new ≡ self.old }
        ensures closed { (told : ToldRows) → closes self.old.is_strict (line_by told line.now) ≡ true
            → IsClosed self.new }
        ensures surety { I.is_sure self.new.inlet ≡ I.is_sure self.old.inlet }
        ensures strictness { self.new.is_strict ≡ self.old.is_strict }
    {
        let RowLine::Ignored = line else {
            return;
        };
        if self.is_strict {
            self.state = StreamState::Ended;
            self.buffer.drop_front(self.buffer.len());
        }
    }
}
