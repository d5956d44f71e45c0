//! The sample type of the values that are read.

use super::files::SMALLEST;
use super::lending::OfTables;
use super::reading::{Asked, OfReader, PLAIN, Telling, append_next, are_told};
use profile_tables::{PprofReader, SampleType};
use std::alloc::{AllocError, Global};
use std::test::Fail;

pub(super) fn append_type(text: &mut String, found: Option<&SampleType>) -> Result<(), AllocError> {
    match found {
        Some(found) => write!(text, "{} in {}\n", found.name.get(), found.unit.get()),
        None => text.push_str("no type\n"),
    }
}

/// Appends the sample type of a reader, a sample, and the sample type again.
pub(super) fn append_types(
    alloc: Global,
    reader: &mut PprofReader,
    text: &mut String,
) -> Result<(), AllocError> {
    append_type(text, reader.chosen_type())?;
    append_next(alloc, reader, text, &mut None)?;
    append_type(text, reader.chosen_type())
}

const OF_TABLES: &[Telling<'static>] = &[(
    &[SMALLEST],
    PLAIN,
    Asked::Tables(OfTables::Type),
    "cpu in ns\n",
)];

#[test]
fn chosen_type_of_tables(rt: HostRuntime) -> Result<(), Fail> {
    are_told(&rt, OF_TABLES)
}

const OF_A_READER: &[Telling<'static>] = &[(
    &[SMALLEST],
    PLAIN,
    Asked::Reader(OfReader::Types),
    "no type\nmain 7\ncpu in ns\n",
)];

/// It is told once the tables were read.
#[test]
fn chosen_type_of_a_reader(rt: HostRuntime) -> Result<(), Fail> {
    are_told(&rt, OF_A_READER)
}
