//! The text of a function and its callers or callees, or both, sent while it is made.
ghost use Rattle.std.specs.Prelude.{◌≡◌, ◌<◌, ◌^◌, ◌∷◌, ◌++◌, IfOk, List, length};
ghost use Rattle.std.specs.List.{concat};
ghost use Rattle.sample_tables.specs.declared.samples.Sample.{Sample};
ghost use Rattle.flame_layout.specs.Paths.{SameOwn};
ghost use Rattle.merged_stacks.specs.RankedStacks.{ranked_samples};
ghost use Rattle.merged_stacks.specs.Timeline.{samples_of};
ghost use Rattle.merging.specs.Sums.{all_samples};
ghost use Rattle.source_views.specs.Failures.{Flushes, Sends};
ghost use Rattle.source_views.specs.Texts.{calls_text, peek_text};
ghost use Rattle.function_sums.specs.Calls.{calls_of};
ghost use Rattle.function_sums.specs.FunctionSums.{sums_of};
ghost use Rattle.function_sums.specs.Told.{told_of};

use crate::failures::Failure;
use crate::shown::merge_given;
use crate::workers::{Workers, send_text};
use byte_io::{Chain, Outlet, Pieces};
use command_line::CallTable;
use function_sums::{CallSide, FunctionSum, SumLine, Table, Telling, first_calls};
use merged_stacks::MergedStacks;
use source_lists::SourceLists;
use std::alloc::{AllocError, Global};

/// Sends a function and its callers or its callees, as a table or as a line of JSON.
pub fn send_calls<H: Workers, W: Outlet>(
    workers: &H,
    alloc: Global,
    sources: SourceLists,
    side: CallSide,
    table: &CallTable,
    telling: &Telling<'_>,
    out: &mut W,
) -> Result<(), Failure>
    ensures sent { Sends (calls_text (told_of telling.now) side table.now (all_samples (samples_of sources.lists)))
        (W.contents out.old) (W.contents out.new) result }
    ensures flushed { Flushes (W.is_flushed out.new) (W.failures out.old) (W.failures out.new)
        result }
{
    let merged = merge_given(workers, alloc, sources)?;
    let sums = weigh_calls(alloc, &merged, side, table)?;
    // The same, for as long as the sums are lent.
    let telling = Telling {
        whole: telling.whole,
        type_name: telling.type_name,
        unit: telling.unit,
    };
    if table.is_json {
        let line = SumLine::of_calls(&sums, side, table.rows, &telling);
        send_text(alloc, &line, out)
    } else {
        let is_exact = table.is_exact;
        let table = Table::of_calls(alloc, &sums, side, table.rows, &telling, is_exact)?;
        send_text(alloc, &table, out)
    }
}

/// Sends a function with both: the text of its callers and then that of its callees.
pub fn send_peek<H: Workers, W: Outlet>(
    workers: &H,
    alloc: Global,
    sources: SourceLists,
    table: &CallTable,
    telling: &Telling<'_>,
    out: &mut W,
) -> Result<(), Failure>
    ensures sent { Sends (peek_text (told_of telling.now) table.now (all_samples (samples_of sources.lists)))
        (W.contents out.old) (W.contents out.new) result }
    ensures flushed { Flushes (W.is_flushed out.new) (W.failures out.old) (W.failures out.new)
        result }
{
    let merged = merge_given(workers, alloc, sources)?;
    let callers = weigh_calls(alloc, &merged, CallSide::Callers, table)?;
    let callees = weigh_calls(alloc, &merged, CallSide::Callees, table)?;
    // The same, for as long as either of the lists is lent.
    let above = Telling {
        whole: telling.whole,
        type_name: telling.type_name,
        unit: telling.unit,
    };
    let below = Telling {
        whole: telling.whole,
        type_name: telling.type_name,
        unit: telling.unit,
    };
    let rows = table.rows;
    if table.is_json {
        let first = SumLine::of_calls(&callers, CallSide::Callers, rows, &above);
        let then = SumLine::of_calls(&callees, CallSide::Callees, rows, &below);
        send_both(alloc, first, then, out)
    } else {
        let is_exact = table.is_exact;
        let first = Table::of_calls(alloc, &callers, CallSide::Callers, rows, &above, is_exact)?;
        let then = Table::of_calls(alloc, &callees, CallSide::Callees, rows, &below, is_exact)?;
        send_both(alloc, first, then, out)
    }
}

// Sends a text and then another.
fn send_both<A: Pieces + Drop, B: Pieces + Drop, W: Outlet>(
    alloc: Global,
    first: A,
    then: B,
    out: &mut W,
) -> Result<(), Failure>
    requires first { length (A.pieces first) < 2 ^ 64 }
    requires then { length (B.pieces then) < 2 ^ 64 }
    ensures sent { Sends (concat (A.pieces first) ++ concat (B.pieces then)) (W.contents out.old) (W.contents out.new) result }
    ensures flushed { Flushes (W.is_flushed out.new) (W.failures out.old) (W.failures out.new)
        result }
{
    // So many pieces are never held.
    if first.count().checked_add(then.count()).is_none() {
        return Err(Failure::OutOfMemory);
    }
    send_text(alloc, &Chain { first, then }, out)
}

// The weights of the function, and behind it those of all its callers or callees: a table says how many there are.
fn weigh_calls(
    alloc: Global,
    merged: &MergedStacks,
    side: CallSide,
    table: &CallTable,
) -> Result<Vec<FunctionSum>, AllocError>
    ensures { IfOk result (λ sums. (samples : List Sample) → SameOwn samples (ranked_samples merged.now)
        → sums.items ≡ sums_of samples table.now.name ∷ calls_of side table.now.name samples) }
{
    first_calls(alloc, merged, table.name.get(), side, u64::MAX)
}
