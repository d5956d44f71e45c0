//! What is told of a file, as a text.

use super::cuts::append_whether_it_ends;
use super::depth::append_depth;
use super::lending::{OfTables, append_by_tables};
use super::messages::{Part, joined};
use super::told::{OfRows, append_rows};
use super::types::append_types;
use profile_tables::{Naming, Pick, PprofReader, PprofRows};
use stack_core::{Sample, SampleReader, SourceEnd, Step, Text};
use std::alloc::{AllocError, Global};
use std::process::Abort;
use std::test::Fail;

/// The sample type whose value is the weight, and how frames are named.
pub(super) struct Choice<'a> {
    /// None where the preferred one is read.
    pub(super) pick: Option<&'a str>,
    pub(super) naming: Naming,
}

pub(super) const PLAIN: Choice<'static> = Choice {
    pick: None,
    naming: Naming::Plain,
};

pub(super) const LINES: Choice<'static> = Choice {
    pick: None,
    naming: Naming::Lines,
};

/// The values of the name `n`.
pub(super) const BY_N: Choice<'static> = Choice {
    pick: Some("n"),
    naming: Naming::Plain,
};

/// The values of the name `x`.
pub(super) const BY_X: Choice<'static> = Choice {
    pick: Some("x"),
    naming: Naming::Plain,
};

/// What is asked of a file.
pub(super) enum Asked {
    Reader(OfReader),
    Rows(OfRows),
    Tables(OfTables),
}

/// What a reader is asked for.
pub(super) enum OfReader {
    /// The samples and the ending.
    Samples,
    /// Whether there is an ending.
    Ends,
    /// The frames of the first sample.
    Depth,
    /// The sample type, before the first sample and behind it.
    Types,
}

pub(super) const SAMPLES: Asked = Asked::Reader(OfReader::Samples);

/// The samples and the ending by rows.
pub(super) const ROWS: Asked = Asked::Rows(OfRows::Lines);

/// The number of each sample's row.
pub(super) const NUMBERS: Asked = Asked::Rows(OfRows::Numbers);

/// How many names the rows tell.
pub(super) const NEW_NAMES: Asked = Asked::Rows(OfRows::NewNames);

/// The place of the value that tables have chosen.
pub(super) const VALUE: Asked = Asked::Tables(OfTables::Value);

/// What stands in the place of an ending that doesn't come, or not again.
pub(super) const ENDLESS: &str = "no ending";

/// The ending that a reader gave, if it did, and whether it was asked again.
pub(super) type Ended = Option<(SourceEnd, bool)>;

/// Whether a reader was asked again behind its ending.
pub(super) fn is_over(ended: &Ended) -> bool {
    matches!(ended, Some((_, true)))
}

pub(super) fn append_ending(text: &mut String, ending: SourceEnd) -> Result<(), AllocError> {
    match ending {
        SourceEnd::Clean { ignored: 0 } => text.push_str("clean"),
        SourceEnd::Fault(fault) => write!(text, "{fault}"),
        _ => write!(text, "{ending:?}"),
    }
}

/// Appends an ending that comes first, and that it doesn't come again, where another one comes.
pub(super) fn append_ended(
    text: &mut String,
    ended: &mut Ended,
    ending: SourceEnd,
) -> Result<(), AllocError> {
    match ended {
        None => {
            *ended = Some((ending, false));
            append_ending(text, ending)
        }
        Some((first, again)) => {
            *again = true;
            text.push_str(if *first == ending { "" } else { ENDLESS })
        }
    }
}

/// Appends names, joined by `;`.
pub(super) fn append_names(text: &mut String, names: &[String]) -> Result<(), AllocError> {
    let mut separator = "";
    for name in names {
        write!(text, "{separator}{name}")?;
        separator = ";";
    }
    Ok(())
}

/// Appends the line of a sample, with its names and its weight.
fn append_line(text: &mut String, sample: &Sample) -> Result<(), AllocError> {
    append_names(text, sample.stack.get())?;
    write!(text, " {}\n", sample.weight)
}

fn append_step(text: &mut String, ended: &mut Ended, step: &Step) -> Result<(), AllocError> {
    match step {
        Step::Sample(sample) => append_line(text, sample),
        Step::End(ending) => append_ended(text, ended, *ending),
    }
}

/// Appends the next step of a reader: the line of a sample, or the ending.
pub(super) fn append_next<R: SampleReader>(
    alloc: Global,
    reader: &mut R,
    text: &mut String,
    ended: &mut Ended,
) -> Result<(), AllocError> {
    let step = reader.next(alloc)?;
    append_step(text, ended, &step)
}

pub(super) fn append_samples<R: SampleReader>(
    alloc: Global,
    reader: &mut R,
    text: &mut String,
) -> Result<(), AllocError> {
    let mut ended = None;
    for _ in 0..100 {
        if is_over(&ended) {
            return Ok(());
        }
        append_next(alloc, reader, text, &mut ended)?;
    }
    Ok(())
}

fn append_of_reader(
    alloc: Global,
    reader: &mut PprofReader,
    asked: &OfReader,
    text: &mut String,
) -> Result<(), AllocError> {
    match asked {
        OfReader::Samples => append_samples(alloc, reader, text),
        OfReader::Ends => append_whether_it_ends(alloc, reader, text),
        OfReader::Depth => append_depth(alloc, reader, text),
        OfReader::Types => append_types(alloc, reader, text),
    }
}

fn pick_of(alloc: Global, name: Option<&str>) -> Result<Pick, AllocError> {
    match name {
        Some(name) => Ok(Pick::Named(Text::from_str(alloc, name)?)),
        None => Ok(Pick::Preferred),
    }
}

/// `PprofReader::over` without its clauses, so that what calls it is proved without them.
pub(super) fn reader_over(bytes: Vec<u8>, pick: Pick, naming: Naming) -> PprofReader {
    PprofReader::over(bytes, pick, naming)
}

/// It alone owns a reader, and has no `?`: at each of them the proof writes out the drop of a reader, field by field.
fn append_by_reader(
    alloc: Global,
    bytes: Vec<u8>,
    pick: Pick,
    naming: Naming,
    asked: &OfReader,
    text: &mut String,
) -> Result<(), AllocError> {
    append_of_reader(alloc, &mut reader_over(bytes, pick, naming), asked, text)
}

/// `PprofRows::over` without its clauses.
fn rows_over(bytes: Vec<u8>, pick: Pick, naming: Naming) -> PprofRows {
    PprofRows::over(bytes, pick, naming)
}

fn append_by_rows(
    alloc: Global,
    bytes: Vec<u8>,
    pick: Pick,
    naming: Naming,
    asked: &OfRows,
    text: &mut String,
) -> Result<(), AllocError> {
    append_rows(alloc, &mut rows_over(bytes, pick, naming), asked, text)
}

fn append_of_bytes(
    alloc: Global,
    bytes: Vec<u8>,
    pick: Pick,
    naming: Naming,
    asked: &Asked,
    text: &mut String,
) -> Result<(), AllocError> {
    match asked {
        Asked::Reader(asked) => append_by_reader(alloc, bytes, pick, naming, asked, text),
        Asked::Rows(asked) => append_by_rows(alloc, bytes, pick, naming, asked, text),
        Asked::Tables(asked) => append_by_tables(alloc, bytes, pick, naming, asked, text),
    }
}

/// Appends what is told of a file.
fn append_told(
    alloc: Global,
    parts: &[Part<'_>],
    choice: &Choice<'_>,
    asked: &Asked,
    text: &mut String,
) -> Result<(), AllocError> {
    let bytes = joined(alloc, parts)?;
    append_of_bytes(
        alloc,
        bytes,
        pick_of(alloc, choice.pick)?,
        choice.naming,
        asked,
        text,
    )
}

pub(super) fn is_text(rt: &impl Abort, found: &str, wanted: &str) {
    assert_eq!(rt; found, wanted);
}

/// This is told of a file.
pub(super) fn is_told(
    rt: &(impl Abort + AllocGlobal),
    parts: &[Part<'_>],
    choice: &Choice<'_>,
    asked: &Asked,
    wanted: &str,
) -> Result<(), AllocError> {
    let mut text = String::new(rt.alloc());
    append_told(rt.alloc(), parts, choice, asked, &mut text)?;
    is_text(rt, text.as_str(), wanted);
    Ok(())
}

/// A file in parts, how it is read, what is asked of it, and what is told.
pub(super) type Telling<'a> = (&'a [Part<'a>], Choice<'a>, Asked, &'a str);

/// Each of these is told so.
pub(super) fn are_told(
    rt: &(impl Abort + AllocGlobal),
    tellings: &[Telling<'_>],
) -> Result<(), Fail> {
    for (parts, choice, asked, wanted) in tellings {
        is_told(rt, parts, choice, asked, wanted)?;
    }
    Ok(())
}

/// A file in parts, how it is read, and what is read: a line for each sample, and the ending.
pub(super) type Reading<'a> = (&'a [Part<'a>], Choice<'a>, &'a str);

/// A file reads so, sample by sample and by rows.
pub(super) fn reads_as(
    rt: &(impl Abort + AllocGlobal),
    parts: &[Part<'_>],
    choice: &Choice<'_>,
    wanted: &str,
) -> Result<(), AllocError> {
    is_told(rt, parts, choice, &SAMPLES, wanted)?;
    is_told(rt, parts, choice, &ROWS, wanted)
}

/// Each of these files does.
pub(super) fn read_so(
    rt: &(impl Abort + AllocGlobal),
    readings: &[Reading<'_>],
) -> Result<(), Fail> {
    for (parts, choice, wanted) in readings {
        reads_as(rt, parts, choice, wanted)?;
    }
    Ok(())
}
