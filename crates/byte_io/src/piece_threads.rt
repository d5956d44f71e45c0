//! Texts that several threads make while one writes.
ghost use Rattle.std.specs.Prelude.{◌≡◌, ◌≢◌, ◌<◌, ◌≤◌, ◌^◌, ℕ, All, length, take, is_ok, if◌then◌else◌, IfOk, OnOk, OnErr, IsErrOf, Err};
ghost use Rattle.std.specs.Io.KnownBytes.{Appends};
ghost use Rattle.std.specs.List.{concat};
ghost use Rattle.byte_io.specs.Calls.{one_more};
ghost use Rattle.byte_io.specs.Pieces.{AppendsFront};
ghost use Rattle.byte_io.specs.checked.Parts.{IsPart, IsRow, BeginsAt, Follow, Wrote, bytes_of};
ghost use Rattle.byte_io.specs.declared.piece_output.PieceFault.TheVariants.{Output};

use crate::outlet::Outlet;
use crate::piece_output::PieceFault;
use crate::pieces::Pieces;
use crate::whole_output::{SendFault, send, write_whole};
use std::alloc::{AllocError, Global};
use std::mem;
use std::thread::{Threads, join_mut};

// A text of fewer bytes is not worth a thread, nor is a part.
const FIRST: usize = 64 * 1024;

// How many bytes are enough for any part. It has as many and less than its last pieces more.
const LONG: usize = 960 * 1024;

// Texts that make some pieces at a time make so many, counted from where a part begins.
const BATCH: usize = 64;

/// Some pieces of a text.
#[derive(Drop)]
struct Part {
    bytes: Vec<u8>,
    // The number of their first.
    from: usize,
    // The number of the piece behind them.
    next: usize,
    // Where the part behind begins, if it was guessed right.
    until: usize,
    // How many bytes are enough.
    enough: usize,
}

/// Parts that follow one another.
#[derive(Drop)]
struct Row {
    parts: usize,
    // The number of their first piece.
    from: usize,
    // The number of the piece behind them.
    next: usize,
    bytes: usize,
}

impl Part {
    fn new(alloc: Global) -> Part
        ensures { result.from ≡ 0 }
    {
        Part {
            bytes: Vec::new(alloc),
            from: 0,
            next: 0,
            until: usize::MAX,
            enough: FIRST,
        }
    }

    // Makes its pieces: at least one if there is any.
    fn make<P: Pieces>(&mut self, alloc: Global, text: &P) -> Result<(), AllocError>
        requires { length (P.pieces text.now) < 2 ^ 64 }
        ensures made { OnOk result (IsPart (P.pieces text.now) self.new) }
        ensures from { self.new.from ≡ self.old.from }
    {
        let count = text.count();
        self.bytes.clear();
        self.next = self.from;
        'each: while self.next < count {
            self.next = text.append_some(alloc, self.next, &mut self.bytes)?;
            if self.next >= self.until || self.bytes.len() >= self.enough {
                break;
            }
        }
        Ok(())
    }
}

/// As `send_pieces`. A long text is made in three threads of their own while this one writes what they made
/// before, in parts that are the longer, the more was sent, up to a MiB each.
pub fn send_pieces_in_threads<R: Threads, P: Pieces + Sync, W: Outlet>(
    rt: &R,
    alloc: Global,
    text: &P,
    out: &mut W,
) -> Result<(), PieceFault>
    requires { length (P.pieces text.now) < 2 ^ 64 }
    ensures ok { OnOk result
        (Appends (W.contents out.old) (W.contents out.new) (concat (P.pieces text.now))) }
    ensures flushed { OnOk result (W.is_flushed out.new) }
    ensures front { OnErr result
        (AppendsFront (concat (P.pieces text.now)) (W.contents out.old) (W.contents out.new)) }

    // `Output` comes only where a call of the outlet failed, and no call failed otherwise.
    ensures output { IsErrOf result PieceFault.Output
        → W.failures out.new ≡ one_more (W.failures out.old) }
    ensures unfailed { result ≢ Err PieceFault.Output → W.failures out.new ≡ W.failures out.old }
{
    let ready = &mut empty_parts(alloc);
    let parts = &mut empty_parts(alloc);
    send_in_rounds(rt, alloc, text, out, ready, parts)
}

// Parts of which the first begins at the first piece.
fn empty_parts(alloc: Global) -> [Part; 3]
    ensures { BeginsAt 0 result }
{
    [Part::new(alloc), Part::new(alloc), Part::new(alloc)]
}

// As `send_pieces_in_threads`, with room for the parts that are written and for those that are made meanwhile.
fn send_in_rounds<R: Threads, P: Pieces + Sync, W: Outlet>(
    rt: &R,
    alloc: Global,
    text: &P,
    out: &mut W,
    ready: &mut [Part; 3],
    parts: &mut [Part; 3],
) -> Result<(), PieceFault>
    requires few { length (P.pieces text.now) < 2 ^ 64 }
    requires begin { BeginsAt 0 ready.old }
    ensures wrote { Wrote result (concat (P.pieces text.now))
        (W.contents out.old) (W.contents out.new) (W.failures out.old) (W.failures out.new) }
    ensures flushed { OnOk result (W.is_flushed out.new) }
{
    let count = text.count();
    let mut row = first_row(alloc, text, ready)?;
    let mut sent: usize = 0;
    'rounds: while row.next < count {
        sent = sent.saturating_add(row.bytes);
        place(&row, sent, parts);
        row = row.send(rt, alloc, text, out, ready, parts)?;
    }
    send_parts(&ready[..row.parts], out)?;
    Ok(())
}

// Makes the first part, in this thread.
fn first_row<P: Pieces>(alloc: Global, text: &P, parts: &mut [Part; 3]) -> Result<Row, AllocError>
    requires few { length (P.pieces text.now) < 2 ^ 64 }
    requires begin { BeginsAt 0 parts.old }
    ensures { IfOk result (λ row. IsRow (P.pieces text.now) 0 parts.new row) }
{
    parts[0].make(alloc, text)?;
    Ok(row_from(&parts[..1], 0))
}

impl Row {
    // Writes the row while the parts behind it are made, which then stand where it stood, and answers their row.
    fn send<R: Threads, P: Pieces + Sync, W: Outlet>(
        &self,
        rt: &R,
        alloc: Global,
        text: &P,
        out: &mut W,
        ready: &mut [Part; 3],
        parts: &mut [Part; 3],
    ) -> Result<Row, PieceFault>
        requires few { length (P.pieces text.now) < 2 ^ 64 }
        requires row { self.now.parts ≤ 3 }
        requires there { self.now.next < length (P.pieces text.now) }
        requires begin { BeginsAt self.now.next parts.old }
        ensures made { IfOk result (λ next. IsRow (P.pieces text.now) self.now.next ready.new next) }
        ensures wrote { Wrote result (bytes_of (take self.now.parts ready.old))
            (W.contents out.old) (W.contents out.new) (W.failures out.old) (W.failures out.new) }
    {
        make_and_write(rt, alloc, text, &ready[..self.parts], out, parts)?;
        mem::swap(parts, ready);
        Ok(row_from(ready, self.next))
    }
}

// The parts in front that follow one another from a piece on. One whose beginning was guessed wrong ends them.
fn row_from(parts: &[Part], from: usize) -> Row
    ensures within { result.parts ≤ length parts.now }
    ensures follow { Follow from (take result.parts parts.now) result.next }
    ensures first { BeginsAt from parts.now → 0 < result.parts }
{
    let mut row = Row {
        parts: 0,
        from,
        next: from,
        bytes: 0,
    };
    'each: for part in parts {
        if part.from != row.next {
            break;
        }
        row.parts += 1;
        row.next = part.next;
        row.bytes = row.bytes.saturating_add(part.bytes.len());
    }
    row
}

// Says where parts begin and end that come behind a row: the first where it ends, the others by a guess.
fn place(row: &Row, sent: usize, parts: &mut [Part])
    ensures { 0 < length parts.old → BeginsAt row.now.next parts.new }
{
    let enough = (sent / 64).clamp(FIRST, LONG);
    // A little less, so that a part gets to its end where its pieces are a little longer.
    let count = pieces_of(row, enough - enough / 8);
    if let Some((first, others)) = parts.split_first_mut() {
        first.from = row.next;
        first.until = row.next.saturating_add(count);
        first.enough = enough;
        let mut from = first.until;
        for part in others.iter_mut() {
            part.from = from;
            from = from.saturating_add(count);
            part.until = from;
            part.enough = enough;
        }
    }
}

// How many pieces have about so many bytes, if they are as long as those of a row.
fn pieces_of(row: &Row, bytes: usize) -> usize {
    let pieces = row.next.saturating_sub(row.from).max(1);
    let length = row.bytes.div_ceil(pieces).max(1);
    (bytes / length / BATCH).max(1).saturating_mul(BATCH)
}

// Makes parts, each in a thread of its own, while others are written in this one.
#[cycle(rounds)]
fn make_and_write<R: Threads, P: Pieces + Sync, W: Outlet>(
    rt: &R,
    alloc: Global,
    text: &P,
    ready: &[Part],
    out: &mut W,
    parts: &mut [Part],
) -> Result<(), PieceFault>
    requires { length (P.pieces text.now) < 2 ^ 64 }
    ensures made { OnOk result (All (λ part. IsPart (P.pieces text.now) part) parts.new) }
    ensures begin { OnOk result
        ((from : ℕ) → BeginsAt from parts.old → BeginsAt from parts.new) }
    ensures wrote { Wrote result (bytes_of ready.now)
        (W.contents out.old) (W.contents out.new) (W.failures out.old) (W.failures out.new) }
{
    let Some((first, others)) = parts.split_first_mut() else {
        return Ok(write_parts(ready, out)?);
    };
    // Each closure borrows an allocator of its own.
    let theirs = alloc;
    let mut left = || -> Result<(), AllocError>
        requires { length (P.pieces text.now) < 2 ^ 64 }
        ensures made { OnOk result (IsPart (P.pieces text.entry.now) first.exit.now) }
        ensures from { first.exit.now.from ≡ first.entry.now.from }
    { first.make(theirs, text) };
    let mut right = || -> Result<(), PieceFault>
        requires { length (P.pieces text.now) < 2 ^ 64 }
        ensures made { OnOk result
            (All (λ part. IsPart (P.pieces text.entry.now) part) others.exit.now) }
        ensures wrote { Wrote result (bytes_of ready.entry.now)
            (W.contents out.entry.now) (W.contents out.exit.now)
            (W.failures out.entry.now) (W.failures out.exit.now) }
    { make_and_write(rt, alloc, text, ready, out, others) };
    let (made, wrote) = join_mut(rt, &mut left, &mut right);
    wrote?;
    Ok(made?)
}

// Writes parts one after another.
fn write_parts<W: Outlet>(parts: &[Part], out: &mut W) -> Result<(), SendFault>
    ensures ok { OnOk result (Appends (W.contents out.old) (W.contents out.new) (bytes_of parts.now)) }
    ensures front { AppendsFront (bytes_of parts.now) (W.contents out.old) (W.contents out.new) }
    ensures count { W.failures out.new
        ≡ (if is_ok result then W.failures out.old else one_more (W.failures out.old)) }
{
    'each: for part in parts {
        write_whole(&part.bytes, out)?;
    }
    Ok(())
}

// Writes parts one after another, then flushes.
fn send_parts<W: Outlet>(parts: &[Part], out: &mut W) -> Result<(), SendFault>
    ensures ok { OnOk result (Appends (W.contents out.old) (W.contents out.new) (bytes_of parts.now)) }
    ensures flushed { OnOk result (W.is_flushed out.new) }
    ensures front { OnErr result
        (AppendsFront (bytes_of parts.now) (W.contents out.old) (W.contents out.new)) }
    ensures count { W.failures out.new
        ≡ (if is_ok result then W.failures out.old else one_more (W.failures out.old)) }
{
    write_parts(parts, out)?;
    send(&[], out)
}
