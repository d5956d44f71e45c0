//! Texts that a test finds.

use std::alloc::AllocError;
use std::fmt::Display;
use std::process::Abort;
use std::test::Fail;

/// The text that was found is this.
pub(super) fn is_text(rt: &impl Abort, found: &str, text: &str) {
    assert_eq!(rt; found, text);
}

/// A value is written so.
pub(super) fn is_written<D: Display>(
    rt: &(impl Abort + AllocGlobal),
    value: &D,
    text: &str,
) -> Result<(), AllocError> {
    let found = value.to_string(rt.alloc())?;
    is_text(rt, found.as_str(), text);
    Ok(())
}

/// What was found holds.
pub(super) fn holds(rt: &impl Abort, found: Result<bool, AllocError>) -> Result<(), Fail> {
    assert!(rt; found?);
    Ok(())
}
