//! Stored texts, read by several readers.

use super::told::append_rows;
use super::{are_lines, clean};
use byte_io::{StoredRange, StoredText};
use folded_lines::FoldedStream;
use std::alloc::{AllocError, Global};
use std::process::Abort;
use std::test::Fail;

/// `FoldedStream::parts` without its clauses, of bytes in memory.
fn parts_of(
    alloc: Global,
    text: &[u8],
    count: usize,
) -> Result<Vec<FoldedStream<StoredRange>>, AllocError> {
    let text = StoredText::in_memory(alloc, text.to_vec(alloc)?)?;
    FoldedStream::parts(alloc, &text, count.max(1))
}

/// Appends what is read of a part, and says whether it has no fault.
fn append_part(
    alloc: Global,
    part: &mut FoldedStream<StoredRange>,
    lines: &mut Vec<u8>,
) -> Result<bool, AllocError> {
    let mut end = None;
    append_rows(alloc, part, lines, &mut end)?;
    Ok(end == Some(clean(0)))
}

/// The same of all parts, one after another.
fn append_parts(
    alloc: Global,
    parts: &mut [FoldedStream<StoredRange>],
    lines: &mut Vec<u8>,
) -> Result<bool, AllocError> {
    for part in parts {
        if !append_part(alloc, part, lines)? {
            return Ok(false);
        }
    }
    Ok(true)
}

fn parts_are(
    rt: &(impl Abort + AllocGlobal),
    parts: &mut [FoldedStream<StoredRange>],
    count: usize,
    lines: &[u8],
) -> Result<(), AllocError> {
    let mut read = Vec::new(rt.alloc());
    assert_eq!(rt; parts.len(), count);
    assert!(rt; append_parts(rt.alloc(), parts, &mut read)?);
    are_lines(rt, &read, lines);
    Ok(())
}

fn reads_in_parts(
    rt: &(impl Abort + AllocGlobal),
    text: &[u8],
    lines: &[u8],
) -> Result<(), AllocError> {
    for count in 1..8 {
        parts_are(rt, &mut parts_of(rt.alloc(), text, count)?, count, lines)?;
    }
    Ok(())
}

/// A text and the lines of its samples.
const TEXTS: &[(&[u8], &[u8])] = &[
    (b"", b""),
    (b"a 1", b"a 1\n"),
    (b"a 1\n", b"a 1\n"),
    (
        b"a;b 1\nc 2\r\na;b 3\nd 4\n a 5",
        b"a;b 1\nc 2\na;b 3\nd 4\n a 5\n",
    ),
    (
        b"a line that is long 1\nb 2\n",
        b"a line that is long 1\nb 2\n",
    ),
    (
        b"b 2\na line that is long 1",
        b"b 2\na line that is long 1\n",
    ),
];

/// The parts of a stored text are read one after another as the text is.
#[test]
fn stored_parts(rt: HostRuntime) -> Result<(), Fail> {
    for (text, lines) in TEXTS {
        reads_in_parts(&rt, text, lines)?;
    }
    Ok(())
}
