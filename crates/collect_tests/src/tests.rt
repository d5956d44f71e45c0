mod of_ring_collect;
mod of_stack_core;
mod samples;

use std::fmt::Debug;
use std::process::Abort;
use std::test::Fail;

/// What a test looks for was found.
fn holds<E: Debug + Drop>(rt: &impl Abort, found: Result<bool, E>) -> Result<(), Fail> {
    assert!(rt; found?);
    Ok(())
}
