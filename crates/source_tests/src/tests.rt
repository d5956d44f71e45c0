mod of_profile_messages;
mod of_profile_tables;
mod of_source_lists;

use std::fmt::Debug;
use std::process::Abort;
use std::test::Fail;

/// What a test looks for was found.
fn holds<E: Debug + Drop>(rt: &impl Abort, found: Result<bool, E>) -> Result<(), Fail> {
    assert!(rt; found?);
    Ok(())
}
