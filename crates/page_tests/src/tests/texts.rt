//! What tests find.

use std::fmt::Debug;
use std::process::Abort;
use std::test::Fail;

/// The bytes that were found are these.
pub(super) fn are_bytes(rt: &impl Abort, found: &[u8], wanted: &[u8]) {
    assert_eq!(rt; found, wanted);
}

/// Nothing failed, and what was looked at holds.
pub(super) fn holds<E: Debug + Drop>(rt: &impl Abort, found: Result<bool, E>) -> Result<(), Fail> {
    assert!(rt; found?);
    Ok(())
}

/// Nothing failed, and the text that was made is this one.
pub(super) fn is_text<E: Debug + Drop>(
    rt: &impl Abort,
    made: Result<(), E>,
    text: &[u8],
    wanted: &[u8],
) -> Result<(), Fail> {
    made?;
    are_bytes(rt, text, wanted);
    Ok(())
}
