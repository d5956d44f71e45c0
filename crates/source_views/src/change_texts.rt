//! The text of the changes of functions, sent while it is made.
ghost use Rattle.std.specs.Prelude.{◌≡◌, ◌<◌, ◌^◌, length};
ghost use Rattle.merged_stacks.specs.Timeline.{samples_of, total_weight};
ghost use Rattle.source_views.specs.Failures.{Flushes, Sends};
ghost use Rattle.source_views.specs.Texts.{diff_text, order_of};
ghost use Rattle.stack_core.specs.Interleaving.{list_of};
ghost use Rattle.function_sums.specs.DiffTexts.{wholes};
ghost use Rattle.function_sums.specs.Told.{told_of};

use crate::failures::Failure;
use crate::functions::change_functions;
use crate::workers::send_text;
use byte_io::Outlet;
use command_line::{DiffTable, TopTable};
use function_sums::{Change, ChangeLine, ChangeOrder, Table, Telling};
use source_lists::SourceLists;
use stack_core::SourceList;
use std::alloc::Global;

// Sends the greatest changes from the first source to the second.
pub(crate) fn send_diff<W: Outlet>(
    alloc: Global,
    sources: &SourceLists,
    diff: DiffTable,
    telling: &Telling<'_>,
    out: &mut W,
) -> Result<(), Failure>
    requires { length sources.now.lists ≡ 2 }
    ensures sent { Sends (diff_text (told_of telling.now) diff (list_of (samples_of sources.now.lists) 0)
        (list_of (samples_of sources.now.lists) 1)) (W.contents out.old) (W.contents out.new) result }
    ensures flushed { Flushes (W.is_flushed out.new) (W.failures out.old) (W.failures out.new)
        result }
{
    let lists = sources.lists();
    send_changes(alloc, &lists[0], &lists[1], diff, telling, out)
}

// Sends the greatest changes from one profile to another, as a table or as a line of JSON.
fn send_changes<W: Outlet>(
    alloc: Global,
    before: &SourceList,
    after: &SourceList,
    diff: DiffTable,
    telling: &Telling<'_>,
    out: &mut W,
) -> Result<(), Failure>
    requires before { total_weight before.now.samples < 2 ^ 64 }
    requires after { total_weight after.now.samples < 2 ^ 64 }
    ensures sent { Sends (diff_text (told_of telling.now) diff before.now.samples after.now.samples)
        (W.contents out.old) (W.contents out.new) result }
    ensures flushed { Flushes (W.is_flushed out.new) (W.failures out.old) (W.failures out.new)
        result }
{
    let changes = change_functions(alloc, before, after, order_of(diff, before, after))?;
    let whole = wholes(before, after);
    // The same, for as long as the sums are lent.
    let telling = Telling {
        whole: telling.whole,
        type_name: telling.type_name,
        unit: telling.unit,
    };
    let TopTable {
        rows,
        is_json,
        is_exact,
        ..
    } = diff.table;
    if is_json {
        send_text(alloc, &ChangeLine::of(&changes, rows, whole, &telling), out)
    } else if diff.is_share {
        let table = Table::of_shares(alloc, &changes, rows, whole, &telling, is_exact)?;
        send_text(alloc, &table, out)
    } else {
        let table = Table::of_changes(alloc, &changes, rows, whole, &telling, is_exact)?;
        send_text(alloc, &table, out)
    }
}

// By what the changes from one list to another are listed.
pub(crate) fn order_of(diff: DiffTable, before: &SourceList, after: &SourceList) -> ChangeOrder
    requires before { total_weight before.now.samples < 2 ^ 64 }
    requires after { total_weight after.now.samples < 2 ^ 64 }
    ensures { result ≡ order_of diff before.now.samples after.now.samples }
{
    let whole = if diff.is_share {
        Some(wholes(before, after))
    } else {
        None
    };
    ChangeOrder {
        by: diff.table.by,
        whole,
    }
}

// What both lists weigh.
pub(crate) fn wholes(before: &SourceList, after: &SourceList) -> Change
    requires before { total_weight before.now.samples < 2 ^ 64 }
    requires after { total_weight after.now.samples < 2 ^ 64 }
    ensures both { result ≡ wholes before.now.samples after.now.samples }
    ensures of_before { result.before ≡ total_weight before.now.samples }
    ensures of_after { result.after ≡ total_weight after.now.samples }
{
    Change {
        before: before.total() as u64,
        after: after.total() as u64,
    }
}
