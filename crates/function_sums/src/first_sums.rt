//! The first functions of a list.

ghost use Rattle.std.specs.Prelude.{◌≡◌, ◌+◌, ◌<◌, ◌^◌, ◌∷◌, List, length, take};
ghost use Rattle.function_sums.specs.declared.sums.FunctionSum.{FunctionSum};

use crate::changes::FunctionChange;
use crate::sums::FunctionSum;

// The first functions, so many where there are so many.
pub(crate) fn first_sums(sums: &[FunctionSum], rows: u64) -> &[FunctionSum]
    ensures first { result.now ≡ take rows sums.now }
    ensures few { length result.now + 2 < 2 ^ 64 }
{
    let count = sums.len().min(rows as usize);
    &sums[..count]
}

// The one that stands first, and so many behind it.
pub(crate) fn with_first(sums: &[FunctionSum], rows: u64) -> &[FunctionSum]
    ensures first { result.now ≡ take (rows + 1) sums.now }
    ensures few { length result.now + 2 < 2 ^ 64 }
{
    let count = sums.len().min((rows as usize).saturating_add(1));
    &sums[..count]
}

// The same of changes.
pub(crate) fn first_changes(changes: &[FunctionChange], rows: u64) -> &[FunctionChange]
    ensures first { result.now ≡ take rows changes.now }
    ensures few { length result.now + 2 < 2 ^ 64 }
{
    let count = changes.len().min(rows as usize);
    &changes[..count]
}

// The total of the first function, where there is one.
pub(crate) fn total_of_first(sums: &[FunctionSum]) -> u64
    ensures { (function : FunctionSum) (others : List FunctionSum) → sums.now ≡ function ∷ others
        → result ≡ function.total }
{
    match sums.first() {
        Some(sum) => sum.total,
        None => 0,
    }
}
