//! What a test asserts. What looks returns an answer and takes no handle, which makes its proof cheap.

use std::alloc::AllocError;
use std::process::Abort;
use std::test::Fail;

/// What was looked for is found.
pub fn holds(rt: &impl Abort, found: Result<bool, AllocError>) -> Result<(), Fail> {
    assert!(rt; found?);
    Ok(())
}

/// Whether each of these answers is yes.
pub fn all(answers: &[Result<bool, AllocError>]) -> Result<bool, AllocError> {
    for answer in answers {
        if !matches!(answer, Ok(true)) {
            return *answer;
        }
    }
    Ok(true)
}
