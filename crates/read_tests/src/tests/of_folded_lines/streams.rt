//! Text that comes by a stream, piece by piece.

use super::told::append_rows;
use super::{By, append_read, are_lines, clean, is_end, reads_by};
use byte_io::{BytesInlet, CountedReader};
use folded_lines::FoldedStream;
use stack_core::{NamingReader, ReadFault, ReadKind, SourceEnd};
use std::alloc::{AllocError, Global};
use std::io;
use std::io::{ErrorKind, Read};
use std::process::Abort;
use std::test::Fail;

/// A reader that gives at most so many bytes at a time, and ends or fails behind the last.
#[derive(Drop)]
pub(super) struct Pieces<'a> {
    bytes: &'a [u8],
    size: usize,
    fails: bool,
}

impl Read for Pieces<'_> {
    fn read(&mut self, buf: &mut [u8]) -> io::Result<usize> {
        if self.fails && self.bytes.is_empty() {
            return Err(io::Error::from(ErrorKind::BrokenPipe));
        }
        let count = self.bytes.len().min(buf.len()).min(self.size);
        buf[..count].copy_from_slice(&self.bytes[..count]);
        self.bytes = &self.bytes[count..];
        Ok(count)
    }
}

/// `FoldedStream::over` without its clauses, of bytes that come in pieces of this size.
fn stream_over(
    alloc: Global,
    bytes: &[u8],
    size: usize,
    fails: bool,
) -> FoldedStream<CountedReader<Pieces<'_>>> {
    let pieces = Pieces { bytes, size, fails };
    FoldedStream::over(alloc, CountedReader::new(pieces))
}

/// Appends what is read of bytes that come in pieces of this size.
pub(super) fn append_stream(
    alloc: Global,
    bytes: &[u8],
    size: usize,
    fails: bool,
    lines: &mut Vec<u8>,
    end: &mut Option<SourceEnd>,
) -> Result<(), AllocError> {
    append_rows(
        alloc,
        &mut stream_over(alloc, bytes, size, fails),
        lines,
        end,
    )
}

/// A reader of the samples of bytes in memory, which are read as a stream.
pub(super) fn known_over(alloc: Global, bytes: Vec<u8>) -> NamingReader<FoldedStream<BytesInlet>> {
    NamingReader::of(alloc, FoldedStream::over(alloc, BytesInlet::new(bytes)))
}

/// A text behind which a read fails, the lines of its samples, and how they end.
type Failing<'a> = (&'a [u8], &'a [u8], SourceEnd);

fn fails_so(
    rt: &(impl Abort + AllocGlobal),
    failing: &Failing<'_>,
    size: usize,
) -> Result<(), AllocError> {
    let (text, lines, ending) = failing;
    let mut read = Vec::new(rt.alloc());
    let mut end = None;
    append_stream(rt.alloc(), text, size, true, &mut read, &mut end)?;
    are_lines(rt, &read, lines);
    is_end(rt, end, *ending);
    Ok(())
}

const FAILING: &[Failing<'static>] = &[
    (b"", b"", SourceEnd::Stopped { after: 0 }),
    (b"a 1", b"", SourceEnd::Stopped { after: 0 }),
    (
        b"a 1\nb\r\nc 2\r\nd 3",
        b"a 1\nc 2\n",
        SourceEnd::Stopped { after: 2 },
    ),
    (
        b"a 1\nb 1 2\nc 1\n",
        b"a 1\n",
        SourceEnd::Fault(ReadFault {
            kind: ReadKind::TwoColumns,
            at: 2,
        }),
    ),
];

/// Where a read fails, the whole lines before count, and a fault before stays.
#[test]
fn failing_reads(rt: HostRuntime) -> Result<(), Fail> {
    for failing in FAILING {
        fails_so(&rt, failing, 1)?;
        fails_so(&rt, failing, 5)?;
    }
    Ok(())
}

/// `FoldedStream::strict_over` in the same way.
fn strict_over(
    alloc: Global,
    bytes: &[u8],
    size: usize,
    fails: bool,
) -> FoldedStream<CountedReader<Pieces<'_>>> {
    let pieces = Pieces { bytes, size, fails };
    FoldedStream::strict_over(alloc, CountedReader::new(pieces))
}

/// A text, whether a read fails behind it, the lines of its samples up to the first ignored line, and how they end.
type Strict<'a> = (&'a [u8], bool, &'a [u8], SourceEnd);

fn reads_strictly(
    rt: &(impl Abort + AllocGlobal),
    strict: &Strict<'_>,
    size: usize,
) -> Result<(), AllocError> {
    let (text, fails, lines, ending) = strict;
    let mut read = Vec::new(rt.alloc());
    let mut end = None;
    let mut stream = strict_over(rt.alloc(), text, size, *fails);
    append_rows(rt.alloc(), &mut stream, &mut read, &mut end)?;
    are_lines(rt, &read, lines);
    is_end(rt, end, *ending);
    Ok(())
}

const TWO_COLUMNS: SourceEnd = SourceEnd::Fault(ReadFault {
    kind: ReadKind::TwoColumns,
    at: 2,
});

const STRICT: &[Strict<'static>] = &[
    (b"", false, b"", SourceEnd::Clean { ignored: 0 }),
    (
        b"a 1\nb 2",
        false,
        b"a 1\nb 2\n",
        SourceEnd::Clean { ignored: 0 },
    ),
    (
        b"a 1\r\nno\r\nb 2\r\n",
        false,
        b"a 1\n",
        SourceEnd::Clean { ignored: 1 },
    ),
    (b"a 1\nno", false, b"a 1\n", SourceEnd::Clean { ignored: 1 }),
    (b"\na 1\n", false, b"", SourceEnd::Clean { ignored: 1 }),
    (
        b"a 1\nno\nb 1 2\n",
        false,
        b"a 1\n",
        SourceEnd::Clean { ignored: 1 },
    ),
    (b"a 1\nb 1 2\nno\n", false, b"a 1\n", TWO_COLUMNS),
    (
        b"a 1\nno\nb 1\n",
        true,
        b"a 1\n",
        SourceEnd::Clean { ignored: 1 },
    ),
    (b"a 1\nno", true, b"a 1\n", SourceEnd::Stopped { after: 1 }),
    (b"", true, b"", SourceEnd::Stopped { after: 0 }),
];

/// Read strictly, the first ignored line ends a stream, and no read behind it fails.
#[test]
fn strict_streams(rt: HostRuntime) -> Result<(), Fail> {
    for strict in STRICT {
        reads_strictly(&rt, strict, 1)?;
        reads_strictly(&rt, strict, 5)?;
    }
    Ok(())
}

/// Appends a line that is longer than the buffer is at first, between others.
fn append_long(text: &mut Vec<u8>) -> Result<(), AllocError> {
    text.extend_from_slice(b"a 1\n")?;
    for _ in 0..70_000 {
        text.push(b'b')?;
    }
    text.extend_from_slice(b" 2\na 3\n")
}

fn long_is_read(rt: &(impl Abort + AllocGlobal), text: &mut Vec<u8>) -> Result<(), AllocError> {
    append_long(text)?;
    reads_by(rt, &By::Stream(999), text, text, clean(0))?;
    reads_by(rt, &By::Stream(1_000_000), text, text, clean(0))
}

#[test]
fn long_lines(rt: HostRuntime) -> Result<(), Fail> {
    long_is_read(&rt, &mut Vec::new(rt.alloc()))?;
    Ok(())
}

/// An ignored line behind lines that fill the buffer, in the middle of a piece or in pieces.
fn long_is_read_strictly(
    rt: &(impl Abort + AllocGlobal),
    lines: &mut Vec<u8>,
    text: &mut Vec<u8>,
) -> Result<(), AllocError> {
    append_long(lines)?;
    append_long(text)?;
    text.extend_from_slice(b"no count here\na 4\n")?;
    let ending = SourceEnd::Clean { ignored: 1 };
    for size in [7, 999, 1_000_000] {
        reads_strictly(rt, &(text, true, lines, ending), size)?;
    }
    Ok(())
}

#[test]
fn strict_refills(rt: HostRuntime) -> Result<(), Fail> {
    long_is_read_strictly(&rt, &mut Vec::new(rt.alloc()), &mut Vec::new(rt.alloc()))?;
    Ok(())
}

const BYTES: [u8; 16] = *b"ab;;  1\n\n\r2\t.a \n";

/// Appends bytes that are chosen by a linear congruence.
fn append_chosen(text: &mut Vec<u8>, seed: u64) -> Result<(), AllocError> {
    let mut state = seed;
    for _ in 0..120 {
        state = state
            .wrapping_mul(6_364_136_223_846_793_005)
            .wrapping_add(1_442_695_040_888_963_407);
        text.push(BYTES[(state >> 33) as usize % 16])?;
    }
    Ok(())
}

/// A text that comes by a stream reads as it does where it is there.
fn reads_as_rows(rt: &(impl Abort + AllocGlobal), text: &[u8]) -> Result<(), AllocError> {
    let mut lines = Vec::new(rt.alloc());
    let mut end = None;
    append_read(rt.alloc(), &By::Rows, text, &mut lines, &mut end)?;
    if let Some(ending) = end {
        for size in 1..8 {
            reads_by(rt, &By::Stream(size), text, &lines, ending)?;
        }
    }
    Ok(())
}

fn chosen_read(rt: &(impl Abort + AllocGlobal), text: &mut Vec<u8>) -> Result<(), AllocError> {
    for seed in 0..40 {
        text.clear();
        append_chosen(text, seed)?;
        reads_as_rows(rt, text)?;
    }
    Ok(())
}

#[test]
fn chosen_texts(rt: HostRuntime) -> Result<(), Fail> {
    chosen_read(&rt, &mut Vec::new(rt.alloc()))?;
    Ok(())
}
