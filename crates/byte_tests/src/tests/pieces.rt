//! Texts that go out piece by piece.
use super::edge::{is_front, is_written};
use super::fakes::Stingy;
use crate::tests::holds;
use byte_io::{Chain, CountedWriter, Literal, PieceFault, append_pieces, send_pieces};
use std::alloc::{AllocError, Global};
use std::process::Abort;
use std::test::Fail;

fn two_lines() -> Chain<Literal<'static>, Literal<'static>> {
    Chain {
        first: Literal { bytes: b"a 1\n" },
        then: Literal { bytes: b"a;b 5\n" },
    }
}

fn write_fails(alloc: Global, out: &mut CountedWriter<Stingy>) -> bool {
    send_pieces(alloc, &two_lines(), out) == Err(PieceFault::Output) && out.failures() == 1
}

fn stops_at(alloc: Global, room: usize) -> bool {
    let mut out = Stingy::counted(alloc, room, true, false);
    write_fails(alloc, &mut out) & is_front(&out.into_inner().taken, b"a 1\na;b 5\n", room)
}

// The text goes out up to the failing call, and no further.
#[test]
fn each_write_of_pieces_fails_in_turn(rt: HostRuntime) {
    for room in 0..11usize {
        assert!(rt; stops_at(rt.alloc(), room));
    }
}

fn are_sent(alloc: Global, out: &mut CountedWriter<Vec<u8>>) -> Result<bool, PieceFault> {
    send_pieces(alloc, &two_lines(), out)?;
    Ok(out.failures() == 0)
}

fn vector_takes_all(alloc: Global) -> Result<bool, PieceFault> {
    let mut out = CountedWriter::new(Vec::new(alloc));
    let sent = are_sent(alloc, &mut out);
    let is_whole = out.into_inner().as_slice() == b"a 1\na;b 5\n".as_slice();
    Ok(sent? && is_whole)
}

fn are_appended(alloc: Global, text: &mut Vec<u8>) -> Result<bool, AllocError> {
    text.extend_from_slice(b"# ")?;
    append_pieces(alloc, &two_lines(), text)?;
    Ok(text.as_slice() == b"# a 1\na;b 5\n".as_slice())
}

#[test]
fn pieces_make_one_text(rt: HostRuntime) -> Result<(), Fail> {
    let alloc = rt.alloc();
    holds(&rt, vector_takes_all(alloc))?;
    holds(&rt, are_appended(alloc, &mut Vec::new(alloc)))?;
    holds(
        &rt,
        is_written(alloc, &PieceFault::OutOfMemory, "out of memory"),
    )
}
