//! Readers and writers that fail, files of the machine, and the page's example.
mod asked;
mod edge;
mod fakes;
mod outputs;
mod page;
mod pieces;
mod refusals;
mod stored_files;
mod stored_texts;
mod streams;
mod threads;

use std::fmt::Debug;
use std::process::Abort;
use std::test::Fail;

/// Nothing failed, and what was looked at holds.
fn holds<E: Debug + Drop>(rt: &impl Abort, found: Result<bool, E>) -> Result<(), Fail> {
    assert!(rt; found?);
    Ok(())
}
