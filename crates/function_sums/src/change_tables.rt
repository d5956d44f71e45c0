//! The table of the changes of functions.

ghost use Rattle.std.specs.Prelude.{◌≡◌, ◌++◌, All, IfOk, List, OnOk, map};
ghost use Rattle.sample_tables.specs.declared.samples.Sample.{Sample};
ghost use Rattle.run_options.specs.declared.orders.FunctionOrder.{FunctionOrder as Order};
ghost use Rattle.function_sums.specs.FunctionChanges.{AreFunctionChanges, change_of};
ghost use Rattle.function_sums.specs.FunctionSums.{AreFunctionSums};
ghost use Rattle.function_sums.specs.checked.Sides.{AreSides, HasSize, row_name};

use crate::changes::{ChangeOrder, FunctionChange};
use crate::sides::Sides;
use crate::sums::FunctionSum;
use std::alloc::{AllocError, Global};
use std::cmp::Reverse;

/// The size of a function's change, and its name. So sorted, the greatest comes first, and of the same
/// size the one with the lower name.
type Row<'a> = (Reverse<u128>, &'a str);

/// How the functions of one side change to those of the other, the greatest change first, whether up or
/// down. Each side may be sorted by either weight.
pub fn function_changes(
    alloc: Global,
    before: &[FunctionSum],
    after: &[FunctionSum],
    by: ChangeOrder,
) -> Result<Vec<FunctionChange>, AllocError>
    ensures { IfOk result (λ changes. (first second : Order) (befores afters : List Sample)
        → AreFunctionSums first befores before.now → AreFunctionSums second afters after.now
        → AreFunctionChanges by befores afters changes.items) }
{
    let sides = Sides::of(alloc, before, after)?;
    let mut rows = Vec::with_capacity(alloc, before.len() + after.len())?;
    add_rows(&mut rows, &sides, before, by)?;
    add_rows(&mut rows, &sides, after, by)?;
    rows.sort_unstable();
    rows.dedup();
    changes(alloc, &sides, &rows)
}

/// Adds the row of each function.
fn add_rows<'a>(
    rows: &mut Vec<Row<'a>>,
    sides: &Sides<'_>,
    sums: &'a [FunctionSum],
    by: ChangeOrder,
) -> Result<(), AllocError>
    ensures names { OnOk result (map row_name rows.new.items
        ≡ map row_name rows.old.items ++ map (λ sum. sum.name) sums.now) }
    ensures sizes { OnOk result ((before after : List Sample) → AreSides before after sides.now
        → All (HasSize by before after) rows.old.items → All (HasSize by before after) rows.new.items) }
{
    for sum in sums {
        rows.push(row(sides, sum.name.get(), by))?;
    }
    Ok(())
}

fn row<'a>(sides: &Sides<'_>, name: &'a str, by: ChangeOrder) -> Row<'a>
    ensures name { result.1.now ≡ name.now }
    ensures size { (before after : List Sample) → AreSides before after sides.now
        → HasSize by before after result }
{
    (Reverse(sides.size(name, by)), name)
}

/// The change of each row's function.
fn changes(
    alloc: Global,
    sides: &Sides<'_>,
    rows: &[Row<'_>],
) -> Result<Vec<FunctionChange>, AllocError>
    ensures { IfOk result (λ changes. (before after : List Sample) → AreSides before after sides.now
        → changes.items ≡ map (λ row. change_of before after (row_name row)) rows.now) }
{
    let mut changes = Vec::with_capacity(alloc, rows.len())?;
    for row in rows {
        changes.push(sides.change(alloc, row.1)?)?;
    }
    Ok(changes)
}
