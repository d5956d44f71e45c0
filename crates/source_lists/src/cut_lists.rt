//! Lists of which each stack begins at its first frame of a name, and has no frame of some others.

ghost use Rattle.std.specs.Prelude.{◌≡◌, ◌<◌, ◌++◌, ◌∷◌, [], None, IfOk, OnOk, length, map};
ghost use Rattle.sample_tables.specs.Rows.{sample_at};
ghost use Rattle.ring_collect.specs.Collection.{seen_as_rest};
ghost use Rattle.source_lists.specs.checked.CutStacks.{edited_rest, shown_numbers, shown_stack};
ghost use Rattle.source_lists.specs.checked.KeptStacks.{begun};

use crate::cut_stacks::{first_marked, unmarked};
use crate::kept_lists::tell_names;
use crate::name_marks::{NameTest, marks_of};
use stack_core::{Close, Ledger, Names, SourceList, Text};
use std::alloc::{AllocError, Global};

/// Keeps the stacks of the list, each from the first name on at which it may begin, without the names that are left out, in a ledger
/// that was told its names alone.
fn keep_cut_stacks(
    alloc: Global,
    ledger: &mut Ledger,
    list: &SourceList,
    starts: &[bool],
    left_out: &[bool],
) -> Result<(), AllocError>
    requires { ledger.old ≡ begun list.now.told [] }
    ensures { OnOk result (ledger.new ≡ begun list.now.told (map (shown_numbers starts.now left_out.now) list.now.stacks)) }
{
    for number in 0..list.stack_count() {
        let stack = list.stack(number);
        let first = first_marked(starts, stack);
        ledger.keep(&unmarked(alloc, left_out, &stack[first..])?)?;
    }
    Ok(())
}

/// The list, with each stack cut.
fn cut_list(
    alloc: Global,
    list: &SourceList,
    from: &Option<Text>,
    omitted: &Names,
) -> Result<SourceList, AllocError>
    ensures { IfOk result (λ cut. seen_as_rest cut
        ≡ edited_rest (shown_stack from.now omitted.now) (seen_as_rest list.now)) }
{
    let starts = marks_of(alloc, list, NameTest::Begins(from))?;
    let left_out = marks_of(alloc, list, NameTest::IsAmong(omitted))?;
    let mut ledger = Ledger::new(alloc);
    tell_names(alloc, &mut ledger, list)?;
    keep_cut_stacks(alloc, &mut ledger, list, &starts, &left_out)?;
    for at in 0..list.len() {
        ledger.take_again(list.stack_number(at), list.weight(at))?;
    }
    ledger.close(Close::Read(*list.ending()));
    Ok(ledger.into_list())
}

/// The same of all lists.
pub(crate) fn cut_lists(
    alloc: Global,
    lists: &[SourceList],
    from: &Option<Text>,
    omitted: &Names,
) -> Result<Vec<SourceList>, AllocError>
    ensures { IfOk result (λ cut. map seen_as_rest cut.items
        ≡ map (edited_rest (shown_stack from.now omitted.now)) (map seen_as_rest lists.now)) }
{
    let mut cut = Vec::with_capacity(alloc, lists.len())?;
    for list in lists {
        cut.push(cut_list(alloc, list, from, omitted)?)?;
    }
    Ok(cut)
}
