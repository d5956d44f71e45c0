//! What functions weigh, by their names, also on either side.

ghost use Rattle.std.specs.Prelude.{◌≡◌, IfOk, List};
ghost use Rattle.sample_tables.specs.declared.samples.Sample.{Sample};
ghost use Rattle.merged_stacks.specs.RankedStacks.{ranked_samples};
ghost use Rattle.flame_layout.specs.Paths.{SameOwn};
ghost use Rattle.run_options.specs.declared.orders.FunctionOrder.{FunctionOrder as Order};
ghost use Rattle.function_sums.specs.FunctionChanges.{change_of, size_of};
ghost use Rattle.function_sums.specs.FunctionSums.{sums_of, AreFunctionSums};
ghost use Rattle.function_sums.specs.checked.Sides.{AreSides, FindsWeights, found, weights_of};

use crate::Order;
use crate::changes::{Change, ChangeOrder, FunctionChange};
use crate::shares::size;
use crate::sums::FunctionSum;
use crate::tables::function_sums;
use merged_stacks::MergedStacks;
use stack_core::Text;
use std::alloc::{AllocError, Global};
use std::collections::BTreeMap;

/// What a function weighs.
#[derive(Clone, Copy, Debug)]
struct Weights {
    own: u64,
    total: u64,
}

/// The weights of the functions of both sides, by name.
#[derive(Drop)]
pub(crate) struct Sides<'a> {
    before: BTreeMap<&'a str, Weights>,
    after: BTreeMap<&'a str, Weights>,
}

impl<'a> Sides<'a> {
    /// Those of these functions.
    pub(crate) fn of(
        alloc: Global,
        before: &'a [FunctionSum],
        after: &'a [FunctionSum],
    ) -> Result<Sides<'a>, AllocError>
        ensures { IfOk result (λ sides. (first second : Order) (befores afters : List Sample)
            → AreFunctionSums first befores before.now → AreFunctionSums second afters after.now
            → AreSides befores afters sides) }
    {
        Ok(Sides {
            before: by_name(alloc, before)?,
            after: by_name(alloc, after)?,
        })
    }

    /// By how much a function's weight changes.
    pub(crate) fn size(&self, name: &str, by: ChangeOrder) -> u128
        ensures { (before after : List Sample) → AreSides before after self.now
            → result ≡ size_of by (change_of before after name.now) }
    {
        let before = weights_at(&self.before, name);
        let after = weights_at(&self.after, name);
        let (before, after) = match by.by {
            Order::Own => (before.own, after.own),
            Order::Total => (before.total, after.total),
        };
        size(by.whole, Change { before, after })
    }

    /// The change of a function.
    pub(crate) fn change(&self, alloc: Global, name: &str) -> Result<FunctionChange, AllocError>
        ensures { IfOk result (λ change. (before after : List Sample) → AreSides before after self.now
            → change ≡ change_of before after name.now) }
    {
        let before = weights_at(&self.before, name);
        let after = weights_at(&self.after, name);
        Ok(FunctionChange {
            name: Text::from_str(alloc, name)?,
            own: Change {
                before: before.own,
                after: after.own,
            },
            total: Change {
                before: before.total,
                after: after.total,
            },
        })
    }
}

/// The sums of one function, which are 0 where no sample has it.
pub fn named_sum(
    alloc: Global,
    merged: &MergedStacks,
    name: &str,
) -> Result<FunctionSum, AllocError>
    ensures { IfOk result (λ sum. (samples : List Sample) → SameOwn samples (ranked_samples merged.now)
        → sum ≡ sums_of samples name.now) }
{
    let sums = function_sums(alloc, merged, Order::Own)?;
    let named = by_name(alloc, &sums)?;
    let weights = weights_at(&named, name);
    Ok(FunctionSum {
        name: Text::from_str(alloc, name)?,
        own: weights.own,
        total: weights.total,
    })
}

/// What a function weighs on a side. One that is not there weighs nothing.
fn weights_at(sums: &BTreeMap<&str, Weights>, name: &str) -> Weights
    ensures { result ≡ found sums.now name.now }
{
    let none = Weights { own: 0, total: 0 };
    sums.get(name).copied().unwrap_or(none)
}

/// The weights of one side.
fn by_name<'a>(
    alloc: Global,
    sums: &'a [FunctionSum],
) -> Result<BTreeMap<&'a str, Weights>, AllocError>
    ensures { IfOk result (λ named. (by : Order) (samples : List Sample)
        → AreFunctionSums by samples sums.now → FindsWeights samples named) }
{
    let mut named = BTreeMap::new(alloc);
    for sum in sums {
        let FunctionSum { own, total, .. } = *sum;
        named.insert(sum.name.get(), Weights { own, total })?;
    }
    Ok(named)
}
