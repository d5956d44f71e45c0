//! The table of the functions, and that of the callers or the callees of one.

ghost use Rattle.std.specs.Prelude.{◌≡◌, ◌+◌, ◌<◌, ◌^◌, ℕ, [], List, IfOk, OnOk, ◌-◌, drop, length, take};
ghost use Rattle.sample_tables.specs.declared.samples.Sample.{Sample};
ghost use Rattle.flame_layout.specs.Paths.{SameOwn};
ghost use Rattle.merged_stacks.specs.Order.{AreRising};
ghost use Rattle.merged_stacks.specs.RankedStacks.{ranked_samples, NamesEachRank};
ghost use Rattle.merged_stacks.specs.Timeline.{total_weight};
ghost use Rattle.function_sums.specs.Calls.{AreCalls};
ghost use Rattle.function_sums.specs.FunctionSums.{AreFunctionSums};
ghost use Rattle.function_sums.specs.checked.Counted.{AreCounts};
ghost use Rattle.function_sums.specs.checked.Cuts.{counted_of, lasts_of, AreCut};

use crate::Order;
use crate::call_sides::CallSide;
use crate::calls::Call;
use crate::counts::{Count, count_stack};
use crate::rows::{rows, sums};
use crate::sums::FunctionSum;
use merged_stacks::{MergedStacks, StackRows};
use std::alloc::{AllocError, Global};

/// The sums of all functions of some samples, the heaviest first: of every list of samples whose
/// weights, summed up by stack, are the merged ones.
pub fn function_sums(
    alloc: Global,
    merged: &MergedStacks,
    by: Order,
) -> Result<Vec<FunctionSum>, AllocError>
    ensures { IfOk result (λ sums. (samples : List Sample) → SameOwn samples (ranked_samples merged.now)
        → AreFunctionSums by samples sums.items) }
{
    table(alloc, merged, None, by)
}

/// The callers or the callees of a function, the heaviest total first. Each has the sums of its calls
/// alone: as its own weight that of the samples that end in one, and as its total that of the samples
/// in whose stack one stands, each once. They are those of the same samples as in `function_sums`.
pub fn function_calls(
    alloc: Global,
    merged: &MergedStacks,
    name: &str,
    side: CallSide,
) -> Result<Vec<FunctionSum>, AllocError>
    ensures { IfOk result (λ sums. (samples : List Sample) → SameOwn samples (ranked_samples merged.now)
        → AreCalls side name.now samples sums.items) }
{
    table(alloc, merged, Some(Call { name, side }), Order::Total)
}

/// The table of all functions, or of those beside one.
fn table(
    alloc: Global,
    merged: &MergedStacks,
    call: Option<Call<'_>>,
    by: Order,
) -> Result<Vec<FunctionSum>, AllocError>
    ensures { IfOk result (λ sums. (samples : List Sample) → SameOwn samples (ranked_samples merged.now)
        → AreCut call.entry by samples sums.items) }
{
    let counts = count_all(alloc, merged, call)?;
    let mut rows = rows(alloc, merged, &counts, by)?;
    rows.sort_unstable();
    sums(alloc, &rows)
}

/// Counts all stacks.
fn count_all(
    alloc: Global,
    merged: &MergedStacks,
    call: Option<Call<'_>>,
) -> Result<Vec<Count>, AllocError>
    ensures counts { IfOk result (λ counts. (stamp : ℕ) × AreCounts merged.now.names counts.items
        (lasts_of call.entry (ranked_samples merged.now)) (counted_of call.entry (ranked_samples merged.now)) [] 0 stamp) }
    ensures rising { IfOk result (λ _. AreRising merged.now.names) }
    ensures known { IfOk result (λ _. NamesEachRank merged.now) }
{
    let none = Count {
        own: 0,
        total: 0,
        stamp: 0,
    };
    let mut counts = vec![in alloc; none; merged.name_count()]?;
    for at in 0..merged.len() {
        count_at(alloc, &mut counts, merged, at, call)?;
    }
    Ok(counts)
}

/// Counts a stack: its frames, or those beside a name.
fn count_at(
    alloc: Global,
    counts: &mut [Count],
    merged: &MergedStacks,
    at: usize,
    call: Option<Call<'_>>,
) -> Result<(), AllocError>
    requires at { at < length (ranked_samples merged.now) }
    requires small { at + 1 < 2 ^ 64 }
    requires total { total_weight (ranked_samples merged.now) < 2 ^ 64 }
    requires rising { AreRising merged.now.names }
    requires counted { AreCounts merged.now.names counts.old (lasts_of call (take at (ranked_samples merged.now)))
        (counted_of call (take at (ranked_samples merged.now))) [] 0 (at + 1) }
    ensures { OnOk result (AreCounts merged.now.names counts.new
        (lasts_of call.entry (take (at + 1) (ranked_samples merged.now)))
        (counted_of call.entry (take (at + 1) (ranked_samples merged.now))) [] 0 (at + 1 + 1)) }
{
    let ranks = merged.ranks(at);
    let weight = merged.weight(at);
    match call {
        None => count_stack(counts, ranks, ranks.last().copied(), weight, at + 1),
        Some(call) => {
            let found = call.beside(alloc, merged, ranks)?;
            let ending = call.beside(alloc, merged, last_two(ranks))?;
            count_stack(counts, &found, ending.last().copied(), weight, at + 1);
        }
    }
    Ok(())
}

/// The last two frames of a stack, or all that it has.
fn last_two(ranks: &[u32]) -> &[u32]
    ensures { result.now ≡ drop (length ranks.now - 2) ranks.now }
{
    &ranks[ranks.len().saturating_sub(2)..]
}
