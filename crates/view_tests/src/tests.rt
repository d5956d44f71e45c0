//! Runs of `views`, and of the sink below it.
mod faults;
mod formats;
mod gates;
mod ledgers;
mod live;
mod readings;
mod refusals;
mod rendered;
mod seen;
mod shown;
mod sinks;
mod snapshots;
mod stated;
mod worked;

use std::fmt::Debug;
use std::process::Abort;
use std::test::Fail;

/// What a test looks for was found.
fn holds<E: Debug + Drop>(rt: &impl Abort, found: Result<bool, E>) -> Result<(), Fail> {
    assert!(rt; found?);
    Ok(())
}
