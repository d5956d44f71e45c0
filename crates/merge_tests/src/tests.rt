//! Worked examples.

mod of_merged_stacks;
mod of_ranked_rows;
mod sources;
mod told;

use std::alloc::AllocError;
use std::process::Abort;
use std::test::Fail;

/// What a test looks for was found.
fn holds(rt: &impl Abort, found: Result<bool, AllocError>) -> Result<(), Fail> {
    assert!(rt; found?);
    Ok(())
}
