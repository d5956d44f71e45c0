//! The line of JSON of changes.

ghost use Rattle.std.specs.Prelude.{◌≡◌, ◌++◌, ◌<◌, ◌^◌, List, length, take, OnOk};
ghost use Rattle.std.specs.Io.{StartsWith};
ghost use Rattle.std.specs.List.{concat};
ghost use Rattle.serde_json.specs.Written.{comma_if, compact_text};
ghost use Rattle.sample_tables.specs.Samples.{total_weight};
ghost use Rattle.sample_tables.specs.declared.samples.Sample.{Sample};
ghost use Rattle.function_sums.specs.declared.changes.ChangeOrder.{ChangeOrder};
ghost use Rattle.function_sums.specs.FunctionChanges.{AreFunctionChanges};
ghost use Rattle.function_sums.specs.ChangeJson.{change_data, changes_line};
ghost use Rattle.function_sums.specs.DiffTexts.{diff_line};
ghost use Rattle.function_sums.specs.Pieces.{changes_pieces, changes_tail};
ghost use Rattle.function_sums.specs.Told.{told_of};

use crate::changes::{Change, FunctionChange};
use crate::first_sums::first_changes;
use crate::telling::Telling;
use byte_io::Pieces;
use std::alloc::{AllocError, Global};
use view_texts::{append_number, append_text, comma_if};

/// The line of JSON of changes. What stands before the functions, each function, and what stands after
/// them is a piece.
#[derive(Clone, Copy)]
pub struct ChangeLine<'a> {
    unit: &'a str,
    whole: Change,
    changes: &'a [FunctionChange],
}

impl<'a> ChangeLine<'a> {
    /// The line of the first functions of a list, and of no more than so many. The whole is the weight of
    /// the samples of each side.
    pub fn of(
        changes: &'a [FunctionChange],
        rows: u64,
        whole: Change,
        telling: &Telling<'a>,
    ) -> ChangeLine<'a>
        ensures text { concat (⟦<ChangeLine<'a> as Pieces>⟧.pieces result)
            ≡ changes_line (told_of telling.now).unit whole.before whole.after (take rows changes.now) }
        ensures diff { (by : ChangeOrder) (before after : List Sample)
            → AreFunctionChanges by before after changes.now
            → total_weight before ≡ whole.before → total_weight after ≡ whole.after
            → concat (⟦<ChangeLine<'a> as Pieces>⟧.pieces result) ≡ diff_line (told_of telling.now) by rows before after }
        ensures few { length (⟦<ChangeLine<'a> as Pieces>⟧.pieces result) < 2 ^ 64 }
    {
        let changes = first_changes(changes, rows);
        ChangeLine {
            unit: telling.unit,
            whole,
            changes,
        }
    }
}

impl Pieces for ChangeLine<'_> {
    ghost pieces = { λ line. changes_pieces line.unit.now line.whole.before line.whole.after line.changes.now };

    fn count(&self) -> usize {
        self.changes.len() + 2
    }

    fn append_piece(&self, alloc: Global, at: usize, out: &mut Vec<u8>) -> Result<(), AllocError> {
        if at == 0 {
            out.extend_from_slice(b"{\"functions\":[")
        } else if at <= self.changes.len() {
            let place = at - 1;
            append_function(alloc, out, place > 0, &self.changes[place])
        } else {
            append_tail(alloc, out, self.unit, self.whole)
        }
    }
}

// Appends a function, after a comma where another stands before it, or its front.
fn append_function(
    alloc: Global,
    out: &mut Vec<u8>,
    later: bool,
    change: &FunctionChange,
) -> Result<(), AllocError>
    ensures ok { OnOk result (out.new.items
        ≡ out.old.items ++ (comma_if later ++ compact_text (change_data change.now))) }
    ensures front { StartsWith out.new.items out.old.items }
{
    out.extend_from_slice(comma_if(later))?;
    append_members(alloc, out, change)
}

// Appends a function as an object, or its front.
fn append_members(
    alloc: Global,
    out: &mut Vec<u8>,
    change: &FunctionChange,
) -> Result<(), AllocError>
    ensures ok { OnOk result
        (out.new.items ≡ out.old.items ++ compact_text (change_data change.now)) }
    ensures front { StartsWith out.new.items out.old.items }
{
    append_text(alloc, out, b"{\"name\":", change.name.get())?;
    append_number(out, b",\"own_after\":", change.own.after)?;
    append_number(out, b",\"own_before\":", change.own.before)?;
    append_number(out, b",\"total_after\":", change.total.after)?;
    append_number(out, b",\"total_before\":", change.total.before)?;
    out.push(b'}')?;
    Ok(())
}

// Appends what stands after the functions, or its front.
fn append_tail(
    alloc: Global,
    out: &mut Vec<u8>,
    unit: &str,
    whole: Change,
) -> Result<(), AllocError>
    ensures ok { OnOk result
        (out.new.items ≡ out.old.items ++ changes_tail unit.now whole.before whole.after) }
    ensures front { StartsWith out.new.items out.old.items }
{
    append_number(out, b"],\"total_after\":", whole.after)?;
    append_number(out, b",\"total_before\":", whole.before)?;
    append_text(alloc, out, b",\"unit\":", unit)?;
    out.extend_from_slice(b",\"view\":\"diff\"}\n")
}
