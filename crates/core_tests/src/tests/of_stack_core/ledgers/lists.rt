//! What a list has, asked only where it has that.

use stack_core::SourceList;

/// Whether a list has so many samples, and what they weigh.
pub fn sums_to(list: &SourceList, len: usize, total: u128) -> bool {
    list.len() == len && list.total() == total
}

/// Whether frame `d` of sample `i` has this name.
pub fn has_name(list: &SourceList, i: usize, d: usize, name: &str) -> bool {
    i < list.len() && d < list.depth(i) && list.name(i, d) == name
}

/// Whether the name of that frame has this number.
pub fn has_number(list: &SourceList, i: usize, d: usize, number: usize) -> bool {
    i < list.len() && d < list.depth(i) && list.number(i, d) == number
}

/// Whether sample `i` has these names' numbers and this weight, and as many frames.
pub fn has_sample(list: &SourceList, i: usize, frames: &[u32], weight: u64) -> bool {
    i < list.len()
        && list.frames(i) == frames
        && list.depth(i) == frames.len()
        && list.weight(i) == weight
}

/// Whether sample `i` has the stack of this number, which has these names' numbers.
pub fn has_stack(list: &SourceList, i: usize, stack: usize, frames: &[u32]) -> bool {
    i < list.len()
        && list.stack_number(i) == stack
        && stack < list.stack_count()
        && list.stack(stack) == frames
}

/// Whether name `k` was told, and is this.
pub fn has_told(list: &SourceList, k: usize, name: &str) -> bool {
    k < list.told() && list.told_name(k) == name
}
