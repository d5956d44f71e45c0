//! Samples that tests make.

use stack_core::{Names, Sample};
use std::alloc::{AllocError, Global};

/// A sample of these names and this weight.
pub fn sample(alloc: Global, names: &[&str], weight: u64) -> Result<Sample, AllocError> {
    let stack = Names::from_strs(alloc, names)?;
    Ok(Sample { stack, weight })
}
