//! Functions in their order.

ghost use Rattle.std.specs.Prelude.{◌≡◌, ◌≤◌, ◌<◌, ℕ, [], List, All, IfOk, length, map};
ghost use Rattle.sample_tables.specs.declared.samples.Sample.{Sample};
ghost use Rattle.function_sums.specs.FunctionSums.{weight_of};
ghost use Rattle.function_sums.specs.checked.Counted.{AreCounts, names_with_weight, sums_by};
ghost use Rattle.function_sums.specs.checked.Rows.{row_sum};

use crate::Order;
use crate::counts::Count;
use crate::sums::FunctionSum;
use merged_stacks::MergedStacks;
use stack_core::Text;
use std::alloc::{AllocError, Global};
use std::cmp::Reverse;

/// The weight by which functions are listed, the name, the own weight and the total. So sorted, the
/// heaviest comes first, and of the same weight the one with the lower name.
pub(crate) type Row<'a> = (Reverse<u64>, &'a str, u64, u64);

/// The row of each name that stands in a stack, in the order of their ranks.
pub(crate) fn rows<'a>(
    alloc: Global,
    merged: &'a MergedStacks,
    counts: &[Count],
    by: Order,
) -> Result<Vec<Row<'a>>, AllocError>
    requires { length counts.now ≡ length merged.now.names }
    ensures keys { IfOk result (λ rows. All (λ row. row.0.0 ≡ weight_of by (row_sum row)) rows.items) }
    ensures sums { IfOk result (λ rows. (lasts samples : List Sample) (stamp : ℕ)
        → AreCounts merged.now.names counts.now lasts samples [] 0 stamp
        → map row_sum rows.items
        ≡ map (sums_by lasts samples) (names_with_weight samples merged.now.names)) }
{
    let mut rows = Vec::with_capacity(alloc, counts.len())?;
    for rank in 0..counts.len() {
        let count = counts[rank];
        if count.total > 0 {
            rows.push(row(merged.name_of(rank), count, by))?;
        }
    }
    Ok(rows)
}

fn row(name: &str, count: Count, by: Order) -> Row<'_>
    ensures key { result.0.0 ≡ weight_of by (row_sum result) }
    ensures sum { row_sum result ≡ record { name = name.now; own = count.own; total = count.total } }
{
    let Count { own, total, .. } = count;
    let weight = match by {
        Order::Own => own,
        Order::Total => total,
    };
    (Reverse(weight), name, own, total)
}

/// The sums of the rows, with names of their own.
pub(crate) fn sums(alloc: Global, rows: &[Row<'_>]) -> Result<Vec<FunctionSum>, AllocError>
    ensures { IfOk result (λ sums. sums.items ≡ map row_sum rows.now) }
{
    let mut sums = Vec::with_capacity(alloc, rows.len())?;
    for row in rows {
        sums.push(sum(alloc, row)?)?;
    }
    Ok(sums)
}

fn sum(alloc: Global, row: &Row<'_>) -> Result<FunctionSum, AllocError>
    ensures { IfOk result (λ sum. sum ≡ row_sum row.now) }
{
    let (_, name, own, total) = *row;
    Ok(FunctionSum {
        name: Text::from_str(alloc, name)?,
        own,
        total,
    })
}
