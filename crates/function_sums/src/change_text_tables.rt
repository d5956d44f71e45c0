//! The table of changes.

ghost use Rattle.std.specs.Prelude.{◌≡◌, ◌++◌, ◌<◌, ◌^◌, ◌∷◌, ℕ, Bool, List, length, map, take, IfOk, OnOk};
ghost use Rattle.std.specs.List.{concat};
ghost use Rattle.sample_tables.specs.Samples.{total_weight};
ghost use Rattle.sample_tables.specs.declared.samples.Sample.{Sample};
ghost use Rattle.function_sums.specs.declared.changes.ChangeOrder.{ChangeOrder};
ghost use Rattle.function_sums.specs.FunctionChanges.{AreFunctionChanges};
ghost use Rattle.function_sums.specs.ChangeTable.{change_headings, change_line, changes_table, share_headings, share_line, shares_table};
ghost use Rattle.function_sums.specs.DiffTexts.{diff_table, share_table};
ghost use Rattle.function_sums.specs.Told.{told_of};
ghost use Rattle.function_sums.specs.checked.Entries.{line_of};

use crate::changes::{Change, FunctionChange};
use crate::entries::Entry;
use crate::first_sums::first_changes;
use crate::headings::Shown;
use crate::telling::Telling;
use crate::text_tables::{Line, Table};
use byte_io::Pieces;
use std::alloc::{AllocError, Global};

// The headings of the columns.
const HEADINGS: Line<'static> = Line {
    entries: [
        Some(Entry::Heading("own before")),
        Some(Entry::Heading("after")),
        Some(Entry::Heading("change")),
        Some(Entry::Heading("total before")),
        Some(Entry::Heading("after")),
        Some(Entry::Heading("change")),
    ],
    name: "name",
};

// And those of shares.
const SHARE_HEADINGS: Line<'static> = Line {
    entries: [
        Some(Entry::Heading("own before")),
        Some(Entry::Heading("after")),
        Some(Entry::Heading("points")),
        Some(Entry::Heading("total before")),
        Some(Entry::Heading("after")),
        Some(Entry::Heading("points")),
    ],
    name: "name",
};

impl<'a> Table<'a> {
    /// The table of the first functions of a list of changes, and of no more than so many. The whole is the
    /// weight of the samples of each side.
    pub fn of_changes(
        alloc: Global,
        changes: &'a [FunctionChange],
        rows: u64,
        whole: Change,
        telling: &Telling<'a>,
        is_exact: bool,
    ) -> Result<Table<'a>, AllocError>
        ensures text { IfOk result (λ table. concat (⟦<Table<'a> as Pieces>⟧.pieces table)
            ≡ changes_table is_exact (told_of telling.now) (length changes.now) whole.before whole.after (take rows changes.now)) }
        ensures diff { (by : ChangeOrder) (before after : List Sample)
            → AreFunctionChanges by before after changes.now
            → total_weight before ≡ whole.before → total_weight after ≡ whole.after
            → IfOk result (λ table. concat (⟦<Table<'a> as Pieces>⟧.pieces table)
            ≡ diff_table is_exact (told_of telling.now) by rows before after) }
        ensures few { IfOk result (λ table.
            length (⟦<Table<'a> as Pieces>⟧.pieces table) < 2 ^ 64) }
    {
        let first = first_changes(changes, rows);
        let shown = Shown::functions(first.len(), changes.len());
        let heading = shown.of_sides(alloc, telling, is_exact, whole)?;
        let lines = lines(alloc, first)?;
        Table::of(alloc, telling, is_exact, heading, lines)
    }

    /// The same of the shares of the whole.
    pub fn of_shares(
        alloc: Global,
        changes: &'a [FunctionChange],
        rows: u64,
        whole: Change,
        telling: &Telling<'a>,
        is_exact: bool,
    ) -> Result<Table<'a>, AllocError>
        ensures text { IfOk result (λ table. concat (⟦<Table<'a> as Pieces>⟧.pieces table)
            ≡ shares_table is_exact (told_of telling.now) (length changes.now) whole (take rows changes.now)) }
        ensures diff { (by : ChangeOrder) (before after : List Sample)
            → AreFunctionChanges by before after changes.now
            → total_weight before ≡ whole.before → total_weight after ≡ whole.after
            → IfOk result (λ table. concat (⟦<Table<'a> as Pieces>⟧.pieces table)
            ≡ share_table is_exact (told_of telling.now) by rows before after) }
        ensures few { IfOk result (λ table.
            length (⟦<Table<'a> as Pieces>⟧.pieces table) < 2 ^ 64) }
    {
        let first = first_changes(changes, rows);
        let shown = Shown::functions(first.len(), changes.len());
        let heading = shown.of_sides(alloc, telling, is_exact, whole)?;
        let lines = share_lines(alloc, first, whole)?;
        Table::of(alloc, telling, is_exact, heading, lines)
    }
}

// The line of headings, and a line for each function.
fn lines<'a>(alloc: Global, changes: &'a [FunctionChange]) -> Result<Vec<Line<'a>>, AllocError>
    ensures { IfOk result (λ lines. (is_exact : Bool) (unit : List ℕ)
        → map (line_of is_exact unit) lines.items
        ≡ change_headings ∷ map (change_line is_exact unit) changes.now) }
{
    let mut lines = Vec::new(alloc);
    lines.push(HEADINGS)?;
    for change in changes {
        lines.push(line(change))?;
    }
    Ok(lines)
}

// The line of a function.
fn line<'a>(change: &'a FunctionChange) -> Line<'a>
    ensures { (is_exact : Bool) (unit : List ℕ)
        → line_of is_exact unit result ≡ change_line is_exact unit change.now }
{
    let (own, total) = (change.own, change.total);
    Line {
        entries: [
            Some(Entry::Weight(own.before)),
            Some(Entry::Weight(own.after)),
            Some(Entry::Change(own)),
            Some(Entry::Weight(total.before)),
            Some(Entry::Weight(total.after)),
            Some(Entry::Change(total)),
        ],
        name: change.name.get(),
    }
}

// The line of headings, and a line for each function's shares.
fn share_lines<'a>(
    alloc: Global,
    changes: &'a [FunctionChange],
    whole: Change,
) -> Result<Vec<Line<'a>>, AllocError>
    ensures { IfOk result (λ lines. (is_exact : Bool) (unit : List ℕ)
        → map (line_of is_exact unit) lines.items
        ≡ share_headings ∷ map (share_line whole) changes.now) }
{
    let mut lines = Vec::new(alloc);
    lines.push(SHARE_HEADINGS)?;
    for change in changes {
        lines.push(share_line(change, whole))?;
    }
    Ok(lines)
}

// The line of a function's shares.
fn share_line<'a>(change: &'a FunctionChange, whole: Change) -> Line<'a>
    ensures { (is_exact : Bool) (unit : List ℕ)
        → line_of is_exact unit result ≡ share_line whole change.now }
{
    let (own, total) = (change.own, change.total);
    let Change { before, after } = whole;
    Line {
        entries: [
            Some(Entry::Part {
                weight: own.before,
                whole: before,
            }),
            Some(Entry::Part {
                weight: own.after,
                whole: after,
            }),
            Some(Entry::Points { change: own, whole }),
            Some(Entry::Part {
                weight: total.before,
                whole: before,
            }),
            Some(Entry::Part {
                weight: total.after,
                whole: after,
            }),
            Some(Entry::Points {
                change: total,
                whole,
            }),
        ],
        name: change.name.get(),
    }
}
