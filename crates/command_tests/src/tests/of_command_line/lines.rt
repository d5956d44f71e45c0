//! What a line is answered with.

use super::faults::{is_shown, tells};
use super::wanted::{Wanted, has};
use command_line::{Plan, PlanFault, plan};
use std::alloc::{AllocError, Global};
use std::process::Abort;
use std::test::Fail;

/// The words of a line, which stand between single spaces. An empty line has none.
pub(crate) fn words_of(alloc: Global, line: &str) -> Result<Vec<String>, AllocError> {
    let mut words = Vec::new(alloc);
    if line.is_empty() {
        return Ok(words);
    }
    for word in line.split(' ') {
        words.push(String::from_str(alloc, word)?)?;
    }
    Ok(words)
}

fn planned(alloc: Global, line: &str) -> Result<Plan, PlanFault> {
    let words = words_of(alloc, line)?;
    plan(alloc, words.as_slice())
}

// A fault is also shown as the text that it has.
fn is_answer(
    alloc: Global,
    answer: &Result<Plan, PlanFault>,
    wanted: &Wanted<'_>,
) -> Result<bool, AllocError> {
    match answer {
        Ok(plan) => Ok(has(plan, wanted)),
        Err(PlanFault::OutOfMemory) => Err(AllocError),
        Err(fault) => Ok(tells(fault, wanted) && is_shown(alloc, fault)?),
    }
}

fn line_is_answered(alloc: Global, line: &str, wanted: &Wanted<'_>) -> Result<bool, AllocError> {
    is_answer(alloc, &planned(alloc, line), wanted)
}

/// The first line that is answered with something else than stands beside it.
pub(crate) fn first_otherwise<'a>(
    alloc: Global,
    rows: &[(&'a str, Wanted<'_>)],
) -> Result<Option<&'a str>, AllocError> {
    for (line, wanted) in rows {
        if !line_is_answered(alloc, line, wanted)? {
            return Ok(Some(*line));
        }
    }
    Ok(None)
}

/// Of the lines of a test none fails: this is the first that does.
pub(crate) fn none_fails(
    rt: &impl Abort,
    first: Result<Option<&str>, AllocError>,
) -> Result<(), Fail> {
    let first = first?;
    assert!(rt; first.is_none(), "{first:?}");
    Ok(())
}

/// Each line is answered with what stands beside it.
pub(crate) fn are_answered(
    rt: &(impl Abort + AllocGlobal),
    rows: &[(&str, Wanted<'_>)],
) -> Result<(), Fail> {
    none_fails(rt, first_otherwise(rt.alloc(), rows))
}
