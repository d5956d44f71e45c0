//! Worked examples of folded text, read and written.

mod reading;
mod rows;
mod stored;
mod streams;
mod told;

use super::texts::holds;
use folded_lines::{FoldedReader, FoldedRows, append_line, append_pair_line};
use rows::{Telling, tells_all};
use stack_core::{Names, ReadFault, ReadKind, SampleReader, SourceEnd, Step};
use std::alloc::{AllocError, Global};
use std::process::Abort;
use std::test::Fail;
use streams::{append_stream, known_over};
use told::append_rows;

/// `FoldedReader::over` without its clauses, so that what calls it is proved without them.
fn reader_over(text: Vec<u8>) -> FoldedReader {
    FoldedReader::over(text)
}

/// The same of `FoldedRows::over`.
fn rows_over(text: Vec<u8>) -> FoldedRows {
    FoldedRows::over(text)
}

/// Appends the line of a sample, as `append_line` writes it, or keeps the ending.
fn append_step(
    alloc: Global,
    lines: &mut Vec<u8>,
    step: &Step,
    end: &mut Option<SourceEnd>,
) -> Result<(), AllocError> {
    match step {
        Step::Sample(sample) => append_line(alloc, lines, sample.stack.get(), sample.weight),
        Step::End(ending) => {
            *end = Some(*ending);
            Ok(())
        }
    }
}

/// Appends the next sample, or keeps the ending.
fn append_next<R: SampleReader>(
    alloc: Global,
    reader: &mut R,
    lines: &mut Vec<u8>,
    end: &mut Option<SourceEnd>,
) -> Result<(), AllocError> {
    let step = reader.next(alloc)?;
    append_step(alloc, lines, &step, end)
}

/// Appends the samples that are left, one a line, and keeps the ending.
fn append_samples<R: SampleReader>(
    alloc: Global,
    reader: &mut R,
    lines: &mut Vec<u8>,
    end: &mut Option<SourceEnd>,
) -> Result<(), AllocError> {
    for _ in 0..100 {
        if end.is_some() {
            return Ok(());
        }
        append_next(alloc, reader, lines, end)?;
    }
    Ok(())
}

/// How a text is read.
#[derive(Clone, Copy)]
enum By {
    Samples,
    Rows,
    /// By a stream that gives so many bytes at a time.
    Stream(usize),
    /// The samples of a stream of bytes in memory.
    Known,
}

/// Appends what is read of a text. Where it makes a reader no `?` follows: at each of them the proof writes out the drop of a reader,
/// field by field.
fn append_by(
    alloc: Global,
    by: &By,
    text: Vec<u8>,
    lines: &mut Vec<u8>,
    end: &mut Option<SourceEnd>,
) -> Result<(), AllocError> {
    match by {
        By::Samples => append_samples(alloc, &mut reader_over(text), lines, end),
        By::Rows => append_rows(alloc, &mut rows_over(text), lines, end),
        By::Stream(size) => append_stream(alloc, &text, *size, false, lines, end),
        By::Known => append_samples(alloc, &mut known_over(alloc, text), lines, end),
    }
}

fn append_read(
    alloc: Global,
    by: &By,
    text: &[u8],
    lines: &mut Vec<u8>,
    end: &mut Option<SourceEnd>,
) -> Result<(), AllocError> {
    append_by(alloc, by, text.to_vec(alloc)?, lines, end)
}

fn are_lines(rt: &impl Abort, found: &[u8], lines: &[u8]) {
    assert_eq!(rt; found, lines);
}

fn is_end(rt: &impl Abort, found: Option<SourceEnd>, ending: SourceEnd) {
    assert!(rt; found == Some(ending));
}

/// What is read of a text is these lines, and then this ending.
fn reads_by(
    rt: &(impl Abort + AllocGlobal),
    by: &By,
    text: &[u8],
    lines: &[u8],
    ending: SourceEnd,
) -> Result<(), AllocError> {
    let mut read = Vec::new(rt.alloc());
    let mut end = None;
    append_read(rt.alloc(), by, text, &mut read, &mut end)?;
    are_lines(rt, &read, lines);
    is_end(rt, end, ending);
    Ok(())
}

fn reads_as(
    rt: &(impl Abort + AllocGlobal),
    text: &[u8],
    lines: &[u8],
    ending: SourceEnd,
) -> Result<(), AllocError> {
    reads_by(rt, &By::Samples, text, lines, ending)?;
    reads_by(rt, &By::Rows, text, lines, ending)?;
    for size in 1..4 {
        reads_by(rt, &By::Stream(size), text, lines, ending)?;
    }
    reads_by(rt, &By::Stream(1_000_000), text, lines, ending)?;
    reads_by(rt, &By::Known, text, lines, ending)
}

fn clean(ignored: u64) -> SourceEnd {
    SourceEnd::Clean { ignored }
}

/// A text, the lines of its samples, and the fault that it ends with.
type Fault<'a> = (&'a [u8], &'a [u8], ReadKind, u64);

fn ends_in_fault(rt: &(impl Abort + AllocGlobal), fault: &Fault<'_>) -> Result<(), AllocError> {
    let (text, lines, kind, at) = fault;
    let fault = ReadFault {
        kind: *kind,
        at: *at,
    };
    reads_as(rt, text, lines, SourceEnd::Fault(fault))
}

fn end_in_faults(rt: &(impl Abort + AllocGlobal), faults: &[Fault<'_>]) -> Result<(), Fail> {
    for fault in faults {
        ends_in_fault(rt, fault)?;
    }
    Ok(())
}

fn append_odd_line(alloc: Global, out: &mut Vec<u8>) -> Result<(), AllocError> {
    let stack = Names::from_strs(alloc, &["a 1"])?;
    append_line(alloc, out, stack.get(), 2)
}

fn odd_line_is_fault(rt: &(impl Abort + AllocGlobal), out: &mut Vec<u8>) -> Result<(), AllocError> {
    append_odd_line(rt.alloc(), out)?;
    are_lines(rt, out, b"a 1 2\n");
    ends_in_fault(rt, &(out, b"", ReadKind::TwoColumns, 1))
}

#[test]
fn lines_writers_and_limits(rt: HostRuntime) -> Result<(), Fail> {
    odd_line_is_fault(&rt, &mut Vec::new(rt.alloc()))?;
    Ok(())
}

fn append_pair(
    alloc: Global,
    out: &mut Vec<u8>,
    name: &str,
    before: u64,
    after: u64,
) -> Result<(), AllocError> {
    let stack = Names::from_strs(alloc, &[name])?;
    append_pair_line(alloc, out, stack.get(), before, after)
}

fn append_pairs(alloc: Global, out: &mut Vec<u8>) -> Result<(), AllocError> {
    append_pair(alloc, out, "a", 3, 1)?;
    append_pair(alloc, out, "b", 1, 0)?;
    append_pair(alloc, out, "c", 0, 2)
}

fn pairs_are(
    rt: &(impl Abort + AllocGlobal),
    out: &mut Vec<u8>,
    lines: &[u8],
) -> Result<(), AllocError> {
    append_pairs(rt.alloc(), out)?;
    are_lines(rt, out, lines);
    Ok(())
}

#[test]
fn comparison(rt: HostRuntime) -> Result<(), Fail> {
    pairs_are(&rt, &mut Vec::new(rt.alloc()), b"a 3 1\nb 1 0\nc 0 2\n")?;
    Ok(())
}

fn is_ending(step: &Step, ending: SourceEnd) -> bool {
    match step {
        Step::Sample(_) => false,
        Step::End(found) => *found == ending,
    }
}

/// Whether a reader ends, with one ignored line.
fn ends(alloc: Global, reader: &mut FoldedReader) -> Result<bool, AllocError> {
    let step = reader.next(alloc)?;
    Ok(is_ending(&step, clean(1)))
}

fn ends_thrice(alloc: Global, reader: &mut FoldedReader) -> Result<bool, AllocError> {
    for _ in 0..3 {
        if !ends(alloc, reader)? {
            return Ok(false);
        }
    }
    Ok(true)
}

#[test]
fn ending_again(rt: HostRuntime) -> Result<(), Fail> {
    holds(&rt, text_answers(rt.alloc(), b"x\n", &Asked::EndsThrice))
}

fn append_two(
    alloc: Global,
    reader: &mut FoldedReader,
    lines: &mut Vec<u8>,
) -> Result<(), AllocError> {
    append_next(alloc, reader, lines, &mut None)?;
    append_next(alloc, reader, lines, &mut None)
}

/// Whether a reader gives two samples, which are these lines, and then its ending.
fn two_are(
    alloc: Global,
    reader: &mut FoldedReader,
    found: &mut Vec<u8>,
    lines: &[u8],
) -> Result<bool, AllocError> {
    append_two(alloc, reader, found)?;
    Ok(found.as_slice() == lines && ends(alloc, reader)?)
}

/// What a reader is asked for one step after another.
enum Asked<'a> {
    /// Rows of which this is told.
    Tellings(&'a [Telling<'a>]),
    /// No sample, and its ending again and again.
    EndsThrice,
    /// Two samples, which are these lines, and then its ending.
    Two(&'a [u8]),
}

fn answers(alloc: Global, text: Vec<u8>, asked: &Asked<'_>) -> Result<bool, AllocError> {
    match asked {
        Asked::Tellings(tellings) => tells_all(alloc, &mut rows_over(text), tellings),
        Asked::EndsThrice => ends_thrice(alloc, &mut reader_over(text)),
        Asked::Two(lines) => two_are(alloc, &mut reader_over(text), &mut Vec::new(alloc), lines),
    }
}

/// Whether a reader of a text answers so.
fn text_answers(alloc: Global, text: &[u8], asked: &Asked<'_>) -> Result<bool, AllocError> {
    answers(alloc, text.to_vec(alloc)?, asked)
}

const TWO: Asked<'static> = Asked::Two(b"main;parse 5\nmain 2\n");

/// The lines of README.md.
#[test]
fn example_of_the_page(rt: HostRuntime) -> Result<(), Fail> {
    let text = b"main;parse 5\nno count\nmain 2\n";
    holds(&rt, text_answers(rt.alloc(), text, &TWO))
}
