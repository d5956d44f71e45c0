//! What tests find.

use std::alloc::AllocError;
use std::fmt::Debug;
use std::process::Abort;
use std::test::Fail;

/// The bytes that were found are these.
pub(super) fn are_bytes(rt: &impl Abort, found: &[u8], wanted: &[u8]) {
    assert_eq!(rt; found, wanted);
}

/// Appends a word that is in no text, in place of what can't be written.
pub(super) fn refuse(out: &mut Vec<u8>) -> Result<(), AllocError> {
    out.extend_from_slice(b"refused")
}

/// Nothing failed, and the text that was made is this one.
pub(super) fn is_text<E: Debug + Drop>(
    rt: &impl Abort,
    made: Result<(), E>,
    text: &[u8],
    wanted: &[u8],
) -> Result<(), Fail> {
    made?;
    are_bytes(rt, text, wanted);
    Ok(())
}
