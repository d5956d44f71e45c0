//! The functions that have a greater share of the whole than before.

ghost use Rattle.std.specs.Prelude.{◌≡◌, IfOk, map};
ghost use Rattle.function_sums.specs.Growth.{grew_over, grown};

use crate::changes::{Change, FunctionChange};
use crate::shares::grew_over;
use std::alloc::{AllocError, Global};

/// The names of those of some functions whose share of own weight grew by more than so many hundredths
/// of the whole, in their order. A share is that of what all samples of its side weigh, and of nothing
/// each share is nothing.
pub fn grown<'a>(
    alloc: Global,
    changes: &'a [FunctionChange],
    whole: Change,
    points: u64,
) -> Result<Vec<&'a str>, AllocError>
    ensures { IfOk result (λ names. map (λ name. name.now) names.items
        ≡ map (λ change. change.name) (grown points whole changes.now)) }
{
    let mut names = Vec::new(alloc);
    for change in changes {
        if has_grown(points, whole, change) {
            names.push(change.name.get())?;
        }
    }
    Ok(names)
}

fn has_grown(points: u64, whole: Change, change: &FunctionChange) -> bool
    ensures { result ≡ grew_over points whole change.now.own }
{
    grew_over(points, whole, change.own)
}
