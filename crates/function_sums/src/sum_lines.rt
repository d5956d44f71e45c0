//! The line of JSON of functions.

ghost use Rattle.std.specs.Prelude.{◌≡◌, ◌++◌, ◌+◌, ◌<◌, ◌^◌, ℕ, ◌∷◌, List, None, Some, length, take, OnOk, OnErr};
ghost use Rattle.std.specs.Io.{StartsWith};
ghost use Rattle.std.specs.List.{concat};
ghost use Rattle.serde_json.specs.Written.{comma_if, compact_text};
ghost use Rattle.sample_tables.specs.Samples.{total_weight};
ghost use Rattle.sample_tables.specs.declared.samples.Sample.{Sample};
ghost use Rattle.function_sums.specs.FunctionSums.{AreFunctionSums, sums_of};
ghost use Rattle.run_options.specs.declared.orders.FunctionOrder.{FunctionOrder as Order};
ghost use Rattle.function_sums.specs.declared.sums.FunctionSum.{FunctionSum};
ghost use Rattle.function_sums.specs.Calls.{calls_of};
ghost use Rattle.function_sums.specs.CallTexts.{calls_line};
ghost use Rattle.function_sums.specs.FunctionJson.{function_data, functions_line};
ghost use Rattle.function_sums.specs.Pieces.{functions_end, functions_pieces, functions_tail, view_member};
ghost use Rattle.function_sums.specs.Told.{told_of};
ghost use Rattle.function_sums.specs.TopTexts.{top_line};

use crate::call_sides::CallSide;
use crate::first_sums::{first_sums, total_of_first, with_first};
use crate::sums::FunctionSum;
use crate::telling::Telling;
use byte_io::{Pieces, append_pieces};
use std::alloc::{AllocError, Global};
use view_texts::{append_number, append_text, comma_if};

/// The line of JSON of functions, as `append_sum_line` appends it. What stands before the functions,
/// each function, and what stands after them is a piece.
#[derive(Clone, Copy)]
pub struct SumLine<'a> {
    side: Option<CallSide>,
    telling: Telling<'a>,
    whole: u64,
    sums: &'a [FunctionSum],
}

impl<'a> SumLine<'a> {
    /// The line of the first functions of a list, and of no more than so many. The whole is the weight
    /// of the samples.
    pub fn of(sums: &'a [FunctionSum], rows: u64, whole: u64, telling: &Telling<'a>) -> SumLine<'a>
        ensures text { concat (⟦<SumLine<'a> as Pieces>⟧.pieces result)
            ≡ functions_line None (told_of telling.now) whole (take rows sums.now) }
        ensures top { (by : Order) (samples : List Sample) → AreFunctionSums by samples sums.now
            → total_weight samples ≡ whole
            → concat (⟦<SumLine<'a> as Pieces>⟧.pieces result) ≡ top_line (told_of telling.now) by rows samples }
        ensures few { length (⟦<SumLine<'a> as Pieces>⟧.pieces result) < 2 ^ 64 }
    {
        SumLine::listed(None, first_sums(sums, rows), whole, telling)
    }

    /// The line of a function and the first of its callers or its callees, and of no more than so many,
    /// where the list has the function first and all of them behind it. Its total is the whole.
    pub fn of_calls(
        sums: &'a [FunctionSum],
        side: CallSide,
        rows: u64,
        telling: &Telling<'a>,
    ) -> SumLine<'a>
        ensures text { (function : FunctionSum) (calls : List FunctionSum) → sums.now ≡ function ∷ calls
            → concat (⟦<SumLine<'a> as Pieces>⟧.pieces result)
            ≡ functions_line (Some side) (told_of telling.now) function.total (function ∷ take rows calls) }
        ensures calls { (name : List ℕ) (samples : List Sample)
            → sums.now ≡ sums_of samples name ∷ calls_of side name samples
            → concat (⟦<SumLine<'a> as Pieces>⟧.pieces result)
            ≡ calls_line (told_of telling.now) side name rows samples }
        ensures few { length (⟦<SumLine<'a> as Pieces>⟧.pieces result) < 2 ^ 64 }
    {
        let shown = with_first(sums, rows);
        SumLine::listed(Some(side), shown, total_of_first(sums), telling)
    }

    fn listed(
        side: Option<CallSide>,
        sums: &'a [FunctionSum],
        whole: u64,
        telling: &Telling<'a>,
    ) -> SumLine<'a>
        requires { length sums.now + 2 < 2 ^ 64 }
        ensures text { concat (⟦<SumLine<'a> as Pieces>⟧.pieces result)
            ≡ functions_line side (told_of telling.now) whole sums.now }
        ensures few { length (⟦<SumLine<'a> as Pieces>⟧.pieces result) < 2 ^ 64 }
    {
        SumLine {
            side,
            telling: *telling,
            whole,
            sums,
        }
    }
}

impl Pieces for SumLine<'_> {
    ghost pieces = { λ line. functions_pieces line.side (told_of line.telling) line.whole line.sums.now };

    fn count(&self) -> usize {
        self.sums.len() + 2
    }

    fn append_piece(&self, alloc: Global, at: usize, out: &mut Vec<u8>) -> Result<(), AllocError> {
        if at == 0 {
            out.extend_from_slice(b"{\"functions\":[")
        } else if at <= self.sums.len() {
            let place = at - 1;
            append_function(alloc, out, place > 0, &self.sums[place])
        } else {
            append_tail(alloc, out, self.side, &self.telling, self.whole)
        }
    }
}

/// Appends the line of JSON of the first functions of a list, as `SumLine::of` has it. An `Err` changes
/// nothing.
pub fn append_sum_line(
    alloc: Global,
    out: &mut Vec<u8>,
    sums: &[FunctionSum],
    rows: u64,
    whole: u64,
    telling: &Telling<'_>,
) -> Result<(), AllocError>
    ensures ok { OnOk result
        (out.new.items ≡ out.old.items ++ functions_line None (told_of telling.now) whole (take rows sums.now)) }
    ensures top { OnOk result ((by : Order) (samples : List Sample)
        → AreFunctionSums by samples sums.now → total_weight samples ≡ whole
        → out.new.items ≡ out.old.items ++ top_line (told_of telling.now) by rows samples) }
    ensures err { OnErr result (out.new.items ≡ out.old.items) }
{
    append_pieces(alloc, &SumLine::of(sums, rows, whole, telling), out)
}

// Appends a function, after a comma where another stands before it, or its front.
fn append_function(
    alloc: Global,
    out: &mut Vec<u8>,
    later: bool,
    sum: &FunctionSum,
) -> Result<(), AllocError>
    ensures ok { OnOk result (out.new.items
        ≡ out.old.items ++ (comma_if later ++ compact_text (function_data sum.now))) }
    ensures front { StartsWith out.new.items out.old.items }
{
    out.extend_from_slice(comma_if(later))?;
    append_members(alloc, out, sum)
}

// Appends a function as an object, or its front.
fn append_members(alloc: Global, out: &mut Vec<u8>, sum: &FunctionSum) -> Result<(), AllocError>
    ensures ok { OnOk result
        (out.new.items ≡ out.old.items ++ compact_text (function_data sum.now)) }
    ensures front { StartsWith out.new.items out.old.items }
{
    append_text(alloc, out, b"{\"name\":", sum.name.get())?;
    append_number(out, b",\"own\":", sum.own)?;
    append_number(out, b",\"total\":", sum.total)?;
    out.push(b'}')?;
    Ok(())
}

// Appends what stands after the functions, or its front.
fn append_tail(
    alloc: Global,
    out: &mut Vec<u8>,
    side: Option<CallSide>,
    telling: &Telling<'_>,
    whole: u64,
) -> Result<(), AllocError>
    ensures ok { OnOk result
        (out.new.items ≡ out.old.items ++ functions_tail side (told_of telling.now) whole) }
    ensures front { StartsWith out.new.items out.old.items }
{
    append_number(out, b"],\"total\":", whole)?;
    append_text(alloc, out, b",\"unit\":", telling.unit)?;
    out.extend_from_slice(view_member(side))?;
    append_end(out, telling.whole)
}

// Which functions these are.
fn view_member(side: Option<CallSide>) -> &'static [u8]
    ensures { result.now ≡ view_member side }
{
    match side {
        None => b",\"view\":\"top\"",
        Some(CallSide::Callers) => b",\"view\":\"callers\"",
        Some(CallSide::Callees) => b",\"view\":\"callees\"",
    }
}

// Appends the weight of all samples, where it is told, and the end of the line, or a front of that.
fn append_end(out: &mut Vec<u8>, all: Option<u64>) -> Result<(), AllocError>
    ensures ok { OnOk result (out.new.items ≡ out.old.items ++ functions_end all) }
    ensures front { StartsWith out.new.items out.old.items }
{
    if let Some(weight) = all {
        append_number(out, b",\"whole\":", weight)?;
    }
    out.extend_from_slice(b"}\n")
}
