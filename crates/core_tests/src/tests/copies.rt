//! What holds of each type that can be copied.

use super::answers::all;
use std::alloc::AllocError;

/// Whether a copy equals its source.
fn equals_its_copy<T: Clone + PartialEq + Drop>(source: &T) -> Result<bool, AllocError> {
    Ok(source.clone()? == *source)
}

/// Whether both equal their copies, and not one another.
fn differ<T: Clone + PartialEq + Drop>(one: &T, other: &T) -> Result<bool, AllocError> {
    all(&[
        equals_its_copy(one),
        equals_its_copy(other),
        Ok(*one != *other),
    ])
}

/// The same of values that were just made.
pub fn are_told_apart<T: Clone + PartialEq + Drop>(
    one: Result<T, AllocError>,
    other: Result<T, AllocError>,
) -> Result<bool, AllocError> {
    differ(&one?, &other?)
}
