//! The order of the samples whose stacks are kept.

ghost use Rattle.std.specs.Prelude.{◌≡◌, ℕ, Bool, List, IfOk, length, map};
ghost use Rattle.stack_core.specs.Interleaving.{IsInterleaving};
ghost use Rattle.merged_stacks.specs.Timeline.{samples_of};
ghost use Rattle.source_lists.specs.checked.KeptStacks.{all_are_passing, passing_samples};

use crate::kept_stacks::is_kept;
use stack_core::SourceList;
use std::alloc::{AllocError, Global};

/// The order of what is kept of the lists.
pub(crate) fn kept_order(
    alloc: Global,
    order: &[u32],
    lists: &[SourceList],
    kept: &[Vec<bool>],
) -> Result<Vec<u32>, AllocError>
    requires ordered { IsInterleaving order.now (samples_of lists.now) }
    requires count { length kept.now ≡ length lists.now }
    ensures { IfOk result (λ left. (passes : List (List ℕ) → Bool)
        → map (λ marks. marks.items) kept.now ≡ all_are_passing passes lists.now
        → IsInterleaving left.items (map (passing_samples passes) (samples_of lists.now))) }
{
    let mut came = vec![in alloc; 0usize; lists.len()]?;
    let mut left = Vec::new(alloc);
    for source in order {
        let number = *source as usize;
        let at = came[number];
        came[number] = at + 1;
        if is_kept(&lists[number], &kept[number], at) {
            left.push(*source)?;
        }
    }
    Ok(left)
}
