//! What is told of a row that is new, and of one that was met before.

use super::{Asked, text_answers};
use crate::tests::texts::holds;
use folded_lines::FoldedRows;
use stack_core::{RowReader, RowStep, SourceEnd, Text};
use std::alloc::{AllocError, Global};
use std::test::Fail;

/// What is told of a row.
pub(super) enum Telling<'a> {
    /// New names, the numbers of all, and a weight.
    New(&'a [&'a str], &'a [usize], u64),
    /// The number of a row that was met before, and a weight.
    Again(usize, u64),
    /// The ending, with one ignored line.
    End,
}

fn are_names(names: &[Text], wanted: &[&str]) -> bool {
    if names.len() != wanted.len() {
        return false;
    }
    for at in 0..names.len() {
        if names[at].get() != wanted[at] {
            return false;
        }
    }
    true
}

/// Whether a stack is told with these new names and numbers.
fn is_new(step: &RowStep, new: &[&str], numbers: &[usize], sum: u64) -> bool {
    let RowStep::New {
        names,
        frames,
        weight,
    } = step
    else {
        return false;
    };
    are_names(names.get(), new) && frames.get() == numbers && *weight == sum
}

/// Whether a row is told again.
fn is_again(step: &RowStep, number: usize, sum: u64) -> bool {
    let RowStep::Again { row, weight } = step else {
        return false;
    };
    *row == number && *weight == sum
}

fn is_end(step: &RowStep) -> bool {
    matches!(step, RowStep::End(SourceEnd::Clean { ignored: 1 }))
}

fn tells(step: &RowStep, telling: &Telling<'_>) -> bool {
    match telling {
        Telling::New(names, numbers, sum) => is_new(step, names, numbers, *sum),
        Telling::Again(row, sum) => is_again(step, *row, *sum),
        Telling::End => is_end(step),
    }
}

fn tells_next(
    alloc: Global,
    reader: &mut FoldedRows,
    telling: &Telling<'_>,
) -> Result<bool, AllocError> {
    let step = reader.next_row(alloc)?;
    Ok(tells(&step, telling))
}

pub(super) fn tells_all(
    alloc: Global,
    reader: &mut FoldedRows,
    tellings: &[Telling<'_>],
) -> Result<bool, AllocError> {
    for telling in tellings {
        if !tells_next(alloc, reader, telling)? {
            return Ok(false);
        }
    }
    Ok(true)
}

const TOLD: &[Telling<'static>] = &[
    Telling::New(&["a", "b"], &[0, 1], 1),
    Telling::Again(0, 2),
    Telling::New(&["c"], &[1, 2, 1], 3),
    Telling::Again(0, 4),
    Telling::Again(1, 5),
    Telling::New(&[], &[], 6),
    Telling::Again(0, 7),
    Telling::Again(2, 8),
    Telling::End,
    Telling::End,
];

/// A name is told once, and a stack that was told is known by its names. Its weight is that of its own line.
#[test]
fn rows_are_told_once(rt: HostRuntime) -> Result<(), Fail> {
    let text = b"a;b 1\na;b 2\nno count\nb;c;b 3\na;b; 4\r\nb;c;b\t5\n 6\na;b; 7\n 8\n";
    holds(&rt, text_answers(rt.alloc(), text, &Asked::Tellings(TOLD)))
}

const TEXTS: &[Telling<'static>] = &[
    Telling::New(&["caf\u{fffd}", "b"], &[0, 1], 1),
    Telling::New(&["c"], &[2], 2),
    Telling::Again(0, 3),
    Telling::Again(0, 4),
    Telling::Again(1, 5),
    Telling::Again(0, 6),
    Telling::End,
];

/// A stack that is not UTF-8 is known by its text.
#[test]
fn text_is_told_once(rt: HostRuntime) -> Result<(), Fail> {
    let text = b"caf\xe9;b 1\nc 2\ncaf\xe9;b 3\ncaf\xe8;b; 4\nc 5\ncaf\xef\xbf\xbd;b 6\n7\n";
    holds(&rt, text_answers(rt.alloc(), text, &Asked::Tellings(TEXTS)))
}
