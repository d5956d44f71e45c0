//! Long texts, which are made in a thread while they are written in another.

ghost use Rattle.std.specs.Prelude.{◌≡◌, ◌+◌, ◌<◌, ◌^◌, length, replicate};

use super::edge::is_front;
use super::fakes::Stingy;
use crate::tests::holds;
use byte_io::{Chain, CountedWriter, Literal, PieceFault, Pieces, send_pieces_in_threads};
use std::alloc::{AllocError, Global};
use std::process::Abort;
use std::test::Fail;
use std::thread::Threads;

/// One line, so often.
#[derive(Clone, Copy)]
struct Repeated {
    line: &'static [u8],
    times: usize,
}

impl Pieces for Repeated {
    ghost pieces = { λ repeated. replicate repeated.times repeated.line.now };

    fn count(&self) -> usize {
        self.times
    }

    fn append_piece(
        &self,
        _alloc: Global,
        _at: usize,
        out: &mut Vec<u8>,
    ) -> Result<(), AllocError> {
        out.extend_from_slice(self.line)
    }
}

const FIRST: Repeated = Repeated {
    line: b"main;parse 1\n",
    times: 120_000,
};

const LAST: Repeated = Repeated {
    line: b"b 2\n",
    times: 300_000,
};

const BETWEEN: Literal<'static> = Literal { bytes: b"# here\n" };

/// A text of 2,760,007 bytes.
type Long = Chain<Repeated, Chain<Literal<'static>, Repeated>>;

fn chained(first: Repeated, between: Literal<'static>, last: Repeated) -> Long
    requires { first.times + last.times < 2 ^ 63 }
    ensures { length (⟦<Long as Pieces>⟧.pieces result) < 2 ^ 64 }
{
    Chain {
        first,
        then: Chain {
            first: between,
            then: last,
        },
    }
}

fn long_text() -> Long
    ensures { length (⟦<Long as Pieces>⟧.pieces result) < 2 ^ 64 }
{
    chained(FIRST, BETWEEN, LAST)
}

fn append_all(out: &mut Vec<u8>, text: Repeated) -> Result<(), AllocError> {
    for _ in 0..text.times {
        out.extend_from_slice(text.line)?;
    }
    Ok(())
}

fn append_whole(out: &mut Vec<u8>) -> Result<(), AllocError> {
    append_all(out, FIRST)?;
    out.extend_from_slice(BETWEEN.bytes)?;
    append_all(out, LAST)
}

fn is_sent(
    rt: &(impl Threads + AllocGlobal),
    out: &mut CountedWriter<Vec<u8>>,
) -> Result<bool, PieceFault> {
    send_pieces_in_threads(rt, rt.alloc(), &long_text(), out)?;
    Ok(out.failures() == 0)
}

fn goes_out_whole(rt: &(impl Threads + AllocGlobal), text: &[u8]) -> Result<bool, PieceFault> {
    let mut out = CountedWriter::new(Vec::new(rt.alloc()));
    let sent = is_sent(rt, &mut out);
    let is_whole = out.into_inner().as_slice() == text;
    Ok(sent? && is_whole)
}

#[test]
fn long_text_goes_out_whole(rt: HostRuntime) -> Result<(), Fail> {
    let mut text = Vec::new(rt.alloc());
    append_whole(&mut text)?;
    holds(&rt, goes_out_whole(&rt, &text))
}

fn write_fails(rt: &(impl Threads + AllocGlobal), out: &mut CountedWriter<Stingy>) -> bool {
    let answer = send_pieces_in_threads(rt, rt.alloc(), &long_text(), out);
    answer == Err(PieceFault::Output) && out.failures() == 1
}

fn stops_at(rt: &(impl Threads + AllocGlobal), text: &[u8], room: usize) -> bool {
    let mut out = Stingy::counted(rt.alloc(), room, true, false);
    write_fails(rt, &mut out) & is_front(&out.into_inner().taken, text, room)
}

/// So many bytes go out before the output fails.
const ROOMS: &[usize] = &[0, 65_536, 100_000, 1_600_000, 2_760_006, 2_760_007];

fn stops_in_each_room(rt: &(impl Threads + AllocGlobal), text: &[u8]) -> bool {
    let mut all = true;
    for room in ROOMS {
        all &= stops_at(rt, text, *room);
    }
    all
}

#[test]
fn long_text_stops_where_the_output_fails(rt: HostRuntime) -> Result<(), Fail> {
    let mut text = Vec::new(rt.alloc());
    append_whole(&mut text)?;
    assert!(rt; stops_in_each_room(&rt, &text));
    Ok(())
}
