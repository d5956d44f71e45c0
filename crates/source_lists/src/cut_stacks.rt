//! The numbers of a stack that is cut, by the marks of its names.

ghost use Rattle.std.specs.Prelude.{◌≡◌, ◌≤◌, IfOk, drop, length};
ghost use Rattle.source_lists.specs.checked.CutStacks.{from_marked, unmarked};

use crate::name_marks::is_set;
use std::alloc::{AllocError, Global};

/// The place of the first number whose mark is set, or how many numbers there are.
pub(crate) fn first_marked(marks: &[bool], numbers: &[u32]) -> usize
    ensures within { result ≤ length numbers.now }
    ensures first { drop result numbers.now ≡ from_marked marks.now numbers.now }
{
    for at in 0..numbers.len() {
        if is_set(marks, numbers[at] as usize) {
            return at;
        }
    }
    numbers.len()
}

/// The numbers whose mark is not set.
pub(crate) fn unmarked(
    alloc: Global,
    marks: &[bool],
    numbers: &[u32],
) -> Result<Vec<usize>, AllocError>
    ensures { IfOk result (λ left. left.items ≡ unmarked marks.now numbers.now) }
{
    let mut left = Vec::with_capacity(alloc, numbers.len())?;
    for number in numbers {
        if !is_set(marks, *number as usize) {
            left.push(*number as usize)?;
        }
    }
    Ok(left)
}
