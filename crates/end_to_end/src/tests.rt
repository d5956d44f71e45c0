//! Worked examples, run through the whole program.
mod answers;
mod asked_files;
mod calls;
mod changes;
mod deliveries;
mod folded;
mod growths;
mod live;
mod live_pages;
mod outputs;
mod page;
mod pictures;
mod profiles;
mod sources;
mod types;
mod worked;

use std::fmt::Debug;
use std::process::Abort;
use std::test::Fail;

/// What a test looks for was found.
fn holds<E: Debug + Drop>(rt: &impl Abort, found: Result<bool, E>) -> Result<(), Fail> {
    assert!(rt; found?);
    Ok(())
}
