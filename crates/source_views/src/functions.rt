//! The functions of what was collected.
ghost use Rattle.std.specs.Prelude.{◌<◌, ◌^◌, IfOk};
ghost use Rattle.function_sums.specs.FunctionChanges.{AreFunctionChanges};
ghost use Rattle.function_sums.specs.FunctionSums.{AreFunctionSums};
ghost use Rattle.merged_stacks.specs.Timeline.{samples_of, total_weight};
ghost use Rattle.merging.specs.Sums.{all_samples};

use crate::shown::Shown;
use function_sums::{ChangeOrder, FunctionChange, FunctionSum, function_changes, function_sums};
use merged_stacks::{Alone, MergedStacks, Sorting};
use run_options::FunctionOrder;
use stack_core::SourceList;
use std::alloc::{AllocError, Global};
use std::slice;

// The weights of the functions of all samples, the heaviest first.
pub(crate) fn weigh_functions<S: Sorting>(
    sorting: &S,
    alloc: Global,
    sources: Shown<'_>,
    by: FunctionOrder,
) -> Result<Vec<FunctionSum>, AllocError>
    ensures { IfOk result (λ sums.
        AreFunctionSums by (all_samples (samples_of sources.entry.lists)) sums.items) }
{
    let merged = sources.merged(sorting, alloc)?;
    function_sums(alloc, &merged, by)
}

// How the functions of one list change to those of another, the greatest change first.
pub(crate) fn change_functions(
    alloc: Global,
    before: &SourceList,
    after: &SourceList,
    by: ChangeOrder,
) -> Result<Vec<FunctionChange>, AllocError>
    requires before { total_weight before.now.samples < 2 ^ 64 }
    requires after { total_weight after.now.samples < 2 ^ 64 }
    ensures { IfOk result (λ changes.
        AreFunctionChanges by before.now.samples after.now.samples changes.items) }
{
    let olds = weigh_list(alloc, before, by.by)?;
    let news = weigh_list(alloc, after, by.by)?;
    function_changes(alloc, &olds, &news, by)
}

// The weights of the functions of one list.
fn weigh_list(
    alloc: Global,
    list: &SourceList,
    by: FunctionOrder,
) -> Result<Vec<FunctionSum>, AllocError>
    requires { total_weight list.now.samples < 2 ^ 64 }
    ensures { IfOk result (λ sums. AreFunctionSums by list.now.samples sums.items) }
{
    let stacks = MergedStacks::of(alloc, slice::from_ref(list), &Alone)?;
    function_sums(alloc, &stacks, by)
}
