//! The tables of functions, and of a function with its callers or its callees.

ghost use Rattle.std.specs.Prelude.{◌≡◌, ◌++◌, ◌+◌, [], Bool, ◌<◌, ◌^◌, ℕ, ◌∷◌, false, true, None, Some, List, length, map, take, option_and_then, option_map, if◌then◌else◌, IfOk, OnOk, OnErr};
ghost use Rattle.std.specs.List.{concat};
ghost use Rattle.sample_tables.specs.Samples.{total_weight};
ghost use Rattle.sample_tables.specs.declared.samples.Sample.{Sample};
ghost use Rattle.function_sums.specs.Calls.{calls_of};
ghost use Rattle.function_sums.specs.FunctionSums.{AreFunctionSums, sums_of};
ghost use Rattle.function_sums.specs.declared.sums.FunctionSum.{FunctionSum};
ghost use Rattle.run_options.specs.declared.orders.FunctionOrder.{FunctionOrder as Order};
ghost use Rattle.function_sums.specs.CallTexts.{calls_table};
ghost use Rattle.function_sums.specs.FunctionTable.{calls_word, function_line, function_lines, functions_table, headings, listed_table, part_text, up_to};
ghost use Rattle.function_sums.specs.Columns.{lines_text};
ghost use Rattle.function_sums.specs.Told.{Told, shown_of, told_of, whole_heading};
ghost use Rattle.function_sums.specs.TopTexts.{top_table};
ghost use Rattle.function_sums.specs.checked.Entries.{entry_text, line_of};

use crate::call_sides::CallSide;
use crate::entries::Entry;
use crate::first_sums::first_sums;
use crate::headings::Shown;
use crate::sums::FunctionSum;
use crate::telling::Telling;
use crate::text_tables::{Line, Table};
use byte_io::{Pieces, append_pieces};
use std::alloc::{AllocError, Global};

impl<'a> Table<'a> {
    /// The table of the first functions of a list, and of no more than so many. The whole is the weight of
    /// the samples, of which their weights are parts. Where what all samples weigh is told, a column more
    /// has what part of it each total is.
    pub fn of_functions(
        alloc: Global,
        sums: &'a [FunctionSum],
        rows: u64,
        whole: u64,
        telling: &Telling<'a>,
        is_exact: bool,
    ) -> Result<Table<'a>, AllocError>
        ensures text { IfOk result (λ table. concat (⟦<Table<'a> as Pieces>⟧.pieces table)
            ≡ functions_table is_exact (told_of telling.now) (length sums.now) whole (take rows sums.now)) }
        ensures top { (by : Order) (samples : List Sample) → AreFunctionSums by samples sums.now
            → total_weight samples ≡ whole
            → IfOk result (λ table. concat (⟦<Table<'a> as Pieces>⟧.pieces table)
            ≡ top_table is_exact (told_of telling.now) by rows samples) }
        ensures few { IfOk result (λ table.
            length (⟦<Table<'a> as Pieces>⟧.pieces table) < 2 ^ 64) }
    {
        let first = first_sums(sums, rows);
        let shown = Shown::functions(first.len(), sums.len());
        let heading = shown.of_whole(alloc, telling, is_exact, whole)?;
        let mut lines = headed(alloc, true, telling.whole, first.len())?;
        let parts = Parts {
            whole,
            all: telling.whole,
        };
        add_lines(&mut lines, first, &parts, Some(0))?;
        Table::of(alloc, telling, is_exact, heading, lines)
    }

    /// The table of a function and the first of its callers or its callees, and of no more than so many, where
    /// the list has the function first and all of them behind it. Weights are parts of its total.
    pub fn of_calls(
        alloc: Global,
        sums: &'a [FunctionSum],
        side: CallSide,
        rows: u64,
        telling: &Telling<'a>,
        is_exact: bool,
    ) -> Result<Table<'a>, AllocError>
        ensures text { (function : FunctionSum) (calls : List FunctionSum) → sums.now ≡ function ∷ calls
            → IfOk result (λ table. concat (⟦<Table<'a> as Pieces>⟧.pieces table)
            ≡ listed_table is_exact (told_of telling.now) side (length calls) function (take rows calls)) }
        ensures calls { (name : List ℕ) (samples : List Sample)
            → sums.now ≡ sums_of samples name ∷ calls_of side name samples
            → IfOk result (λ table. concat (⟦<Table<'a> as Pieces>⟧.pieces table)
            ≡ calls_table is_exact (told_of telling.now) side name rows samples) }
        ensures few { IfOk result (λ table.
            length (⟦<Table<'a> as Pieces>⟧.pieces table) < 2 ^ 64) }
    {
        match sums.split_first() {
            Some((function, calls)) => {
                let first = first_sums(calls, rows);
                let shown = Shown {
                    shown: first.len(),
                    count: calls.len(),
                    what: calls_word(side),
                    name: function.name.get(),
                };
                of_listed(alloc, function, first, &shown, telling, is_exact)
            }
            None => nothing(alloc, telling, is_exact),
        }
    }
}

// A table without lines.
fn nothing<'a>(
    alloc: Global,
    telling: &Telling<'a>,
    is_exact: bool,
) -> Result<Table<'a>, AllocError>
    ensures { IfOk result (λ table. length (⟦<Table<'a> as Pieces>⟧.pieces table) < 2 ^ 64) }
{
    Table::of(alloc, telling, is_exact, Vec::new(alloc), Vec::new(alloc))
}

// The table of a function and of calls that are shown.
fn of_listed<'a>(
    alloc: Global,
    function: &'a FunctionSum,
    calls: &'a [FunctionSum],
    shown: &Shown<'a>,
    telling: &Telling<'a>,
    is_exact: bool,
) -> Result<Table<'a>, AllocError>
    requires few { length calls.now + 2 < 2 ^ 64 }
    ensures text { IfOk result (λ table. concat (⟦<Table<'a> as Pieces>⟧.pieces table)
        ≡ shown_of shown.now.shown shown.now.count shown.now.what.now shown.now.name.now
        ++ (whole_heading is_exact (told_of telling.now) function.now.total
        ++ lines_text (headings false telling.now.whole ∷ function_lines is_exact (told_of telling.now)
        function.now.total None (function.now ∷ calls.now)))) }
    ensures few { IfOk result (λ table.
        length (⟦<Table<'a> as Pieces>⟧.pieces table) < 2 ^ 64) }
{
    let heading = shown.of_whole(alloc, telling, is_exact, function.total)?;
    let mut lines = headed(alloc, false, telling.whole, calls.len())?;
    let parts = Parts {
        whole: function.total,
        all: telling.whole,
    };
    lines.push(parts.line(function, None))?;
    add_lines(&mut lines, calls, &parts, None)?;
    Table::of(alloc, telling, is_exact, heading, lines)
}

/// Appends the table of the first functions of a list, as `Table::of_functions` has it. An `Err` changes
/// nothing.
pub fn append_sum_table(
    alloc: Global,
    out: &mut Vec<u8>,
    sums: &[FunctionSum],
    rows: u64,
    whole: u64,
    telling: &Telling<'_>,
) -> Result<(), AllocError>
    ensures ok { OnOk result (out.new.items ≡ out.old.items
        ++ functions_table false (told_of telling.now) (length sums.now) whole (take rows sums.now)) }
    ensures top { OnOk result ((by : Order) (samples : List Sample)
        → AreFunctionSums by samples sums.now → total_weight samples ≡ whole
        → out.new.items ≡ out.old.items ++ top_table false (told_of telling.now) by rows samples) }
    ensures err { OnErr result (out.new.items ≡ out.old.items) }
{
    let table = Table::of_functions(alloc, sums, rows, whole, telling, false)?;
    append_pieces(alloc, &table, out)
}

// Of what weights are parts.
#[derive(Clone, Copy, Debug)]
struct Parts {
    whole: u64,
    // What all samples weigh, where that is told.
    all: Option<u64>,
}

impl Parts {
    // The line of a function, up to which the own weights are so much, where that is told.
    fn line<'a>(&self, sum: &'a FunctionSum, until: Option<u64>) -> Line<'a>
        ensures { (is_exact : Bool) (told : Told) → told.whole ≡ self.now.all
            → line_of is_exact told.unit result
            ≡ function_line is_exact told self.now.whole until sum.now }
    {
        Line {
            entries: [
                Some(Entry::Weight(sum.own)),
                part_of(Some(sum.own), Some(self.whole)),
                part_of(until, Some(self.whole)),
                Some(Entry::Weight(sum.total)),
                part_of(Some(sum.total), Some(self.whole)),
                part_of(Some(sum.total), self.all),
            ],
            name: sum.name.get(),
        }
    }

    // The own weights up to a function, where they are told, and no more than the whole.
    fn up_to(&self, before: Option<u64>, sum: &FunctionSum) -> Option<u64>
        ensures { result ≡ up_to self.now.whole before sum.now }
    {
        match before {
            Some(weight) => Some(weight.saturating_add(sum.own).min(self.whole)),
            None => None,
        }
    }
}

// What part of a whole a weight is, where both are told.
fn part_of(weight: Option<u64>, whole: Option<u64>) -> Option<Entry>
    ensures { (is_exact : Bool) (unit : List ℕ) → option_map (entry_text is_exact unit) result
        ≡ option_and_then (λ whole. option_map (part_text whole) weight) whole }
{
    match (weight, whole) {
        (Some(weight), Some(whole)) => Some(Entry::Part { weight, whole }),
        _ => None,
    }
}

// The line of headings, with room for so many lines and one more.
fn headed<'a>(
    alloc: Global,
    is_running: bool,
    all: Option<u64>,
    count: usize,
) -> Result<Vec<Line<'a>>, AllocError>
    requires { count + 2 < 2 ^ 64 }
    ensures { IfOk result (λ lines. (is_exact : Bool) (unit : List ℕ)
        → map (line_of is_exact unit) lines.items ≡ headings is_running all ∷ []) }
{
    let mut lines = Vec::with_capacity(alloc, count + 2)?;
    lines.push(headings(is_running, all))?;
    Ok(lines)
}

fn headings<'a>(is_running: bool, all: Option<u64>) -> Line<'a>
    ensures { (is_exact : Bool) (unit : List ℕ)
        → line_of is_exact unit result ≡ headings is_running all }
{
    Line {
        entries: [
            Some(Entry::Heading("own")),
            Some(Entry::Heading("own%")),
            heading_if(is_running, "sum%"),
            Some(Entry::Heading("total")),
            Some(Entry::Heading("total%")),
            heading_if(all.is_some(), "whole%"),
        ],
        name: "name",
    }
}

// A heading, unless its column is left out.
fn heading_if(is_there: bool, text: &'static str) -> Option<Entry>
    ensures { (is_exact : Bool) (unit : List ℕ) → option_map (entry_text is_exact unit) result
        ≡ (if is_there then Some text.now else None) }
{
    if is_there {
        Some(Entry::Heading(text))
    } else {
        None
    }
}

// Adds a line for each function.
fn add_lines<'a>(
    lines: &mut Vec<Line<'a>>,
    sums: &'a [FunctionSum],
    parts: &Parts,
    before: Option<u64>,
) -> Result<(), AllocError>
    ensures { OnOk result ((is_exact : Bool) (told : Told) → told.whole ≡ parts.now.all
        → map (line_of is_exact told.unit) lines.new.items
        ≡ map (line_of is_exact told.unit) lines.old.items
        ++ function_lines is_exact told parts.now.whole before sums.now) }
{
    let mut until = before;
    for sum in sums {
        until = parts.up_to(until, sum);
        lines.push(parts.line(sum, until))?;
    }
    Ok(())
}

// What the others of a table of calls are.
fn calls_word(side: CallSide) -> &'static str
    ensures { result.now ≡ calls_word side }
{
    match side {
        CallSide::Callers => " callers of ",
        CallSide::Callees => " callees of ",
    }
}
