//! A function with its callers or its callees.

ghost use Rattle.std.specs.Prelude.{◌≡◌, ◌∷◌, List, IfOk, take};
ghost use Rattle.sample_tables.specs.declared.samples.Sample.{Sample};
ghost use Rattle.merged_stacks.specs.RankedStacks.{ranked_samples};
ghost use Rattle.flame_layout.specs.Paths.{SameOwn};
ghost use Rattle.function_sums.specs.Calls.{calls_of};
ghost use Rattle.function_sums.specs.FunctionSums.{sums_of};

use crate::call_sides::CallSide;
use crate::sides::named_sum;
use crate::sums::FunctionSum;
use crate::tables::function_calls;
use merged_stacks::MergedStacks;
use std::alloc::{AllocError, Global};

/// The sums of a function, and behind them those of its first callers or callees, and of no more than
/// so many.
pub fn first_calls(
    alloc: Global,
    merged: &MergedStacks,
    name: &str,
    side: CallSide,
    rows: u64,
) -> Result<Vec<FunctionSum>, AllocError>
    ensures { IfOk result (λ sums. (samples : List Sample) → SameOwn samples (ranked_samples merged.now)
        → sums.items ≡ sums_of samples name.now ∷ take rows (calls_of side name.now samples)) }
{
    let mut sums = function_calls(alloc, merged, name, side)?;
    sums.truncate(rows as usize);
    sums.insert(0, named_sum(alloc, merged, name)?)?;
    Ok(sums)
}
