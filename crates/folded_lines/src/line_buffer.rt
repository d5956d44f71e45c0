//! Bytes that were read and not given, in a buffer that is used again.

ghost use Rattle.std.specs.Prelude.{◌≡◌, ◌+◌, ◌<◌, ◌≤◌, ◌^◌, [], length, take, drop, vec_len, IfOk, OnOk, OnErr};
ghost use Rattle.std.specs.List.{SameBelow};
ghost use Rattle.memchr.specs.Find.{IsFirstByte, is_byte};
ghost use Rattle.stack_core.specs.Parts.{bytes_of};
ghost use Rattle.folded_lines.specs.checked.StreamLines.{Brings};

use bstr::ByteSlice;
use byte_io::Inlet;
use stack_core::SourceBytes;
use std::alloc::AllocError;
use std::marker::Model;

/// How long the buffer is at first.
const FIRST: usize = 64 * 1024;

/// Bytes that were read and not given. They stand in a buffer whose rest has room for more, and in which no LF is looked for twice where
/// none stood. A text that is all there is the buffer itself: where it is shared, it has no room. Contracts see the bytes.
#[derive(Drop)]
pub(crate) struct LineBuffer {
    bytes: SourceBytes,
    start: usize,
    /// No LF stands between `start` and here.
    searched: usize,
    end: usize,
}

impl Model for LineBuffer {
    ghost use Rattle.std.specs.Prelude.{ℕ, List};

    ghost Value = { List ℕ };

    ghost use Rattle.folded_lines.specs.checked.LineBuffers.{held_by, IsBuffer};

    ghost view = { held_by };

    ghost invariant = { IsBuffer };
}

/// Makes room behind the first bytes: where there is none, the vector is made twice as long.
fn make_room(bytes: &mut Vec<u8>, end: usize) -> Result<(), AllocError>
    requires { end ≤ vec_len bytes.old }
    ensures room { OnOk result (end < vec_len bytes.new) }
    ensures front { take end bytes.new.items ≡ take end bytes.old.items }
    ensures same { SameBelow bytes.old.items bytes.new.items end }
    ensures longer { vec_len bytes.old ≤ vec_len bytes.new }
{
    if end == bytes.len() {
        bytes.resize((2 * end).max(FIRST), 0)?;
    }
    Ok(())
}

impl LineBuffer {
    /// These bytes. It takes no memory.
    pub(crate) fn of(bytes: SourceBytes) -> LineBuffer
        ensures bytes { result ≡ bytes_of bytes }
        ensures short { length result < 2 ^ 63 }
    {
        let end = bytes.as_slice().len();
        LineBuffer {
            bytes,
            start: 0,
            searched: 0,
            end,
        }
    }

    /// How many bytes there are.
    pub(crate) fn len(&self) -> usize
        ensures { result ≡ length self.now }
    {
        self.end - self.start
    }

    /// Where the first LF stands.
    pub(crate) fn find_feed(&mut self) -> Option<usize>
        ensures feed { IsFirstByte (is_byte 10) self.old result }
        ensures same { self.new ≡ self.old }
    {
        let new = &self.bytes.as_slice()[self.searched..self.end];
        let Some(at) = new.find_byte(b'\n') else {
            self.searched = self.end;
            return None;
        };
        self.searched += at;
        Some(self.searched - self.start)
    }

    /// So many bytes, off their front.
    pub(crate) fn front(&self, len: usize) -> &[u8]
        requires { len ≤ length self.now }
        ensures { result.now ≡ take len self.now }
    {
        &self.bytes.as_slice()[self.start..self.start + len]
    }

    /// Takes so many bytes off their front.
    pub(crate) fn drop_front(&mut self, len: usize)
        requires { len ≤ length self.old }
        ensures { self.new ≡ drop len self.old }
    {
        self.start += len;
        self.searched = self.searched.max(self.start);
    }

    /// Moves the bytes to the front of the buffer, so that all of its rest has room.
    fn move_to_front(&mut self)
        ensures { self.new ≡ self.old }
    {
        let SourceBytes::Own(bytes) = &mut self.bytes else {
            return;
        };
        if self.start == 0 {
            return;
        }
        bytes.copy_within(self.start..self.end, 0);
        self.end -= self.start;
        self.searched -= self.start;
        self.start = 0;
    }

    /// Reads once, and has what came behind the bytes that it had. `None` where the read failed. Where all
    /// of the buffer has bytes it is doubled before.
    pub(crate) fn read<I: Inlet>(&mut self, inlet: &mut I) -> Result<Option<usize>, AllocError>
        ensures brings { IfOk result (λ read. Brings (I.remaining inlet.old) (I.remaining inlet.new)
            (I.is_sure inlet.old) self.old read self.new) }
        ensures bytes { OnErr result (self.new ≡ self.old) }
        ensures unread { OnErr result (I.remaining inlet.new ≡ I.remaining inlet.old) }
        ensures surety { I.is_sure inlet.new ≡ I.is_sure inlet.old }
        ensures short { OnOk result (length self.new < 2 ^ 63) }
    {
        self.move_to_front();
        let SourceBytes::Own(bytes) = &mut self.bytes else {
            return Err(AllocError);
        };
        make_room(bytes, self.end)?;
        match inlet.read(&mut bytes[self.end..]) {
            Ok(count) => {
                self.end += count;
                Ok(Some(count))
            }
            Err(_) => Ok(None),
        }
    }
}
