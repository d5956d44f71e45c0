//! What tables say by themselves.

use super::files::{
    ADDRESS, BASE, GREATEST_ID, INLINED, INLINED_LINES, SAMPLE_FAULTS, TABLE_FAULTS,
};
use super::messages::Part;
use super::reading::{
    Asked, BY_N, BY_X, LINES, PLAIN, Telling, VALUE, append_names, are_told, is_told,
};
use super::types::append_type;
use profile_tables::{Naming, Pick, TableFault, Tables};
use std::alloc::{AllocError, Global};
use std::process::Abort;
use std::test::Fail;

/// What tables are asked for.
pub(super) enum OfTables {
    /// The place of the chosen value, and how many values there are.
    Value,
    /// The sample type of the chosen value.
    Type,
    /// The frames of the location of this id, root first.
    Frames(u64),
}

/// `Tables::read` without its clauses.
fn tables_over(
    alloc: Global,
    bytes: &[u8],
    pick: &Pick,
    naming: Naming,
) -> Result<Tables, TableFault> {
    Tables::read(alloc, bytes, pick, naming)
}

fn append_value(text: &mut String, place: Option<usize>, count: usize) -> Result<(), AllocError> {
    match place {
        Some(place) => write!(text, "{place} of {count}"),
        None => write!(text, "none of {count}"),
    }
}

fn append_frames(text: &mut String, frames: Option<&[String]>) -> Result<(), AllocError> {
    match frames {
        Some(names) => append_names(text, names),
        None => text.push_str("no location"),
    }
}

fn append_answer(tables: &Tables, asked: &OfTables, text: &mut String) -> Result<(), AllocError> {
    match asked {
        OfTables::Value => append_value(text, tables.chosen(), tables.sample_types()),
        OfTables::Type => append_type(text, tables.chosen_type()),
        OfTables::Frames(id) => append_frames(text, tables.location(*id)),
    }
}

/// Appends what tables say, or the fault for which they are refused.
fn append_of_tables(
    found: &Result<Tables, TableFault>,
    asked: &OfTables,
    text: &mut String,
) -> Result<(), AllocError> {
    match found {
        Ok(tables) => append_answer(tables, asked, text),
        Err(fault) => write!(text, "{fault}"),
    }
}

pub(super) fn append_by_tables(
    alloc: Global,
    bytes: Vec<u8>,
    pick: Pick,
    naming: Naming,
    asked: &OfTables,
    text: &mut String,
) -> Result<(), AllocError> {
    append_of_tables(&tables_over(alloc, &bytes, &pick, naming), asked, text)
}

pub(super) const FRAMES_OF_1: Asked = Asked::Tables(OfTables::Frames(1));

pub(super) const FRAMES_OF_2: Asked = Asked::Tables(OfTables::Frames(2));

const FRAMES: &[Telling<'static>] = &[
    (&[INLINED], PLAIN, FRAMES_OF_1, "printf;memcpy"),
    (&[INLINED], LINES, FRAMES_OF_1, "printf;memcpy"),
    (&[INLINED_LINES], PLAIN, FRAMES_OF_1, "printf;memcpy"),
    (&[INLINED_LINES], LINES, FRAMES_OF_1, "printf:40;memcpy:12"),
    (&[ADDRESS], PLAIN, FRAMES_OF_1, "0x1f0"),
    (&[ADDRESS], LINES, FRAMES_OF_1, "0x1f0"),
    (
        &[GREATEST_ID],
        PLAIN,
        Asked::Tables(OfTables::Frames(u64::MAX)),
        "main",
    ),
];

#[test]
fn frames_of_locations(rt: HostRuntime) -> Result<(), Fail> {
    are_told(&rt, FRAMES)
}

/// The place of the value that is picked from the two of `BASE`, also with more behind it.
const CHOSEN: &[Telling<'static>] = &[
    (&[BASE], PLAIN, VALUE, "1 of 2"),
    (&[BASE, Part::Bytes(b"\x70\x01")], PLAIN, VALUE, "0 of 2"),
    (&[BASE, Part::Bytes(b"\x70\x03")], PLAIN, VALUE, "1 of 2"),
    (&[BASE], BY_N, VALUE, "0 of 2"),
];

#[test]
fn chosen_of_tables(rt: HostRuntime) -> Result<(), Fail> {
    are_told(&rt, CHOSEN)
}

const REFUSED: &[Telling<'static>] = &[
    (
        &[Part::Bytes(b"\x32\x01\x61")],
        PLAIN,
        VALUE,
        "BadStringZero at 0",
    ),
    (
        &[Part::Bytes(b"\x12\x00")],
        PLAIN,
        VALUE,
        "NoSampleType at 2",
    ),
    (
        &[Part::Bytes(b"\x1f\x8b\x08")],
        PLAIN,
        VALUE,
        "Compressed at 0",
    ),
    (&[BASE], BY_X, VALUE, "UnknownSampleType at 48"),
];

/// The tables are refused for the same faults.
fn faults_are_told(rt: &(impl Abort + AllocGlobal)) -> Result<(), AllocError> {
    for (more, fault) in TABLE_FAULTS {
        is_told(rt, &[BASE, Part::Bytes(more)], &PLAIN, &VALUE, fault)?;
    }
    Ok(())
}

#[test]
fn faults_of_tables(rt: HostRuntime) -> Result<(), Fail> {
    faults_are_told(&rt)?;
    are_told(&rt, REFUSED)
}

/// A fault of a sample is none of the tables.
#[test]
fn samples_are_not_looked_at(rt: HostRuntime) -> Result<(), Fail> {
    for (more, _) in SAMPLE_FAULTS {
        is_told(&rt, &[BASE, Part::Bytes(more)], &PLAIN, &VALUE, "1 of 2")?;
    }
    Ok(())
}
