//! Texts sent or appended piece by piece.
ghost use Rattle.std.specs.Prelude.{◌≡◌, ◌≢◌, ◌<◌, ◌^◌, ◌++◌, ℕ, List, length, take, is_ok, if◌then◌else◌, OnOk, OnErr, IfErr, IsErrOf};
ghost use Rattle.std.specs.Io.{StartsWith};
ghost use Rattle.std.specs.Io.KnownBytes.{Appends};
ghost use Rattle.std.specs.List.{concat};
ghost use Rattle.byte_io.specs.Calls.{one_more};
ghost use Rattle.byte_io.specs.Pieces.{AppendsFront};
ghost use Rattle.byte_io.specs.declared.piece_output.PieceFault.TheVariants.{OutOfMemory, Output};

use crate::outlet::Outlet;
use crate::pieces::Pieces;
use crate::rollback::truncate_on_error;
use crate::whole_output::{SendFault, send, write_whole};
use std::alloc::{AllocError, Global};
use std::error::Error;
use std::fmt;

// How many bytes wait for a write. A longer piece goes out whole.
const WAITING: usize = 64 * 1024;

/// Why a text of pieces was not sent whole.
#[derive(Clone, Copy, Debug, PartialEq, Eq)]
pub enum PieceFault {
    /// There was no memory for a piece.
    OutOfMemory,
    /// The outlet failed.
    Output,
}

impl fmt::Display for PieceFault {
    ghost use Rattle.std.specs.Prelude.{Some};
    ghost use Rattle.byte_io.specs.Faults.{piece_fault_text};

    ghost output = { λ fault. Some (piece_fault_text fault) };

    fn fmt<W: fmt::Write>(&self, f: &mut fmt::Formatter<W>) -> fmt::Result {
        match self {
            PieceFault::OutOfMemory => f.write_str("out of memory"),
            PieceFault::Output => f.write_str("output failed"),
        }
    }
}

impl Error for PieceFault {}

impl From<AllocError> for PieceFault {
    ghost from_gives = { λ _ fault. fault ≡ OutOfMemory };

    fn from(_error: AllocError) -> PieceFault {
        PieceFault::OutOfMemory
    }
}

impl From<SendFault> for PieceFault {
    ghost from_gives = { λ _ fault. fault ≡ Output };

    fn from(_fault: SendFault) -> PieceFault {
        PieceFault::Output
    }
}

/// Sends the pieces of a text in order while they are made, some 64 KiB at a time, then flushes once.
/// It ends at the first call that fails, and leaves a front of the text on the outlet.
pub fn send_pieces<P: Pieces, W: Outlet>(
    alloc: Global,
    text: &P,
    out: &mut W,
) -> Result<(), PieceFault>
    requires { length (P.pieces text.now) < 2 ^ 64 }
    ensures ok { OnOk result
        (Appends (W.contents out.old) (W.contents out.new) (concat (P.pieces text.now))) }
    ensures flushed { OnOk result (W.is_flushed out.new) }
    ensures front { OnErr result
        (AppendsFront (concat (P.pieces text.now)) (W.contents out.old) (W.contents out.new)) }

    // `Output` comes only where a call of the outlet failed, and no call failed otherwise.
    ensures output { IsErrOf result PieceFault.Output
        → W.failures out.new ≡ one_more (W.failures out.old) }
    ensures unfailed { result ≢ Err PieceFault.Output → W.failures out.new ≡ W.failures out.old }
{
    let mut waiting = Vec::new(alloc);
    let count = text.count();
    let mut at = 0;
    'each: while at < count {
        at = text.append_some(alloc, at, &mut waiting)?;
        send_long(&mut waiting, out)?;
    }
    send(waiting.as_slice(), out)?;
    Ok(())
}

// Writes what waits where it is long, and then nothing waits.
fn send_long<W: Outlet>(waiting: &mut Vec<u8>, out: &mut W) -> Result<(), SendFault>
    ensures ok { OnOk result ((sent : List ℕ) × (waiting.old.items ≡ sent ++ waiting.new.items)
        × Appends (W.contents out.old) (W.contents out.new) sent) }
    ensures front { IfErr result (λ fault. Appends (W.contents out.old) (W.contents out.new)
        (take fault.written waiting.old.items)) }
    ensures count { W.failures out.new
        ≡ (if is_ok result then W.failures out.old else one_more (W.failures out.old)) }
{
    if waiting.len() >= WAITING {
        write_whole(waiting.as_slice(), out)?;
        waiting.clear();
    }
    Ok(())
}

/// Appends all pieces of a text in order. An `Err` changes nothing.
pub fn append_pieces<P: Pieces>(
    alloc: Global,
    text: &P,
    out: &mut Vec<u8>,
) -> Result<(), AllocError>
    requires { length (P.pieces text.now) < 2 ^ 64 }
    ensures ok { OnOk result (out.new.items ≡ out.old.items ++ concat (P.pieces text.now)) }
    ensures err { OnErr result (out.new.items ≡ out.old.items) }
{
    let before = out.len();
    let answer = append_each(alloc, text, out);
    truncate_on_error(out, before, answer)
}

// Appends all pieces, or a front of them.
fn append_each<P: Pieces>(alloc: Global, text: &P, out: &mut Vec<u8>) -> Result<(), AllocError>
    requires { length (P.pieces text.now) < 2 ^ 64 }
    ensures ok { OnOk result (out.new.items ≡ out.old.items ++ concat (P.pieces text.now)) }
    ensures front { StartsWith out.new.items out.old.items }
{
    let count = text.count();
    let mut at = 0;
    'each: while at < count {
        at = text.append_some(alloc, at, out)?;
    }
    Ok(())
}
