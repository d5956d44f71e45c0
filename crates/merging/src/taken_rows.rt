//! The samples that a sink took, under the numbers of their names. Contracts alone see them, so a
//! sample costs no memory of its own.

ghost use Rattle.std.specs.Prelude.{◌≡◌, ◌<◌, ◌++◌, ◌∷◌, [], OnOk, length};
ghost use Rattle.call_tree.specs.FrameTable.{HasDistinctNames};
ghost use Rattle.ring_collect.specs.NamesInOrder.{with_stack, GrowsTo};
ghost use Rattle.merging.specs.checked.Merging.{IsRowFor};
ghost use Rattle.merging.specs.checked.TakenRows.{AreNumbersOf, row_of, rows_of};
ghost use Rattle.sample_tables.specs.Rows.{name_at};

use crate::noted_numbers::number_name;
use call_tree::FrameTable;
use stack_core::Names;
use std::alloc::{AllocError, Global};
// Not a snapshot of this crate, but a value of no bytes, which contracts alone read.
use std::snapshot::Snapshot as Ghost;

/// A sample of a source, with the numbers of its names, root first.
#[derive(Drop)]
pub struct NumberedSample {
    pub source: u32,
    pub numbers: Vec<usize>,
    pub weight: u64,
}

impl NumberedSample {
    /// A sample of no frames.
    pub fn new(alloc: Global) -> NumberedSample {
        NumberedSample {
            source: 0,
            numbers: Vec::new(alloc),
            weight: 0,
        }
    }

    /// Puts a sample in the place of the one before, into its memory. New names are put into the
    /// table. Want of memory may leave names behind, and numbers here that stand for nothing.
    pub fn set(
        &mut self,
        table: &mut FrameTable,
        noted: &mut Vec<usize>,
        source: u32,
        stack: &Names,
        weight: u64,
    ) -> Result<(), AllocError>
        requires { HasDistinctNames table.old }
        ensures row { OnOk result
            (IsRowFor table.new source stack.now weight (row_of self.new)) }
        ensures grows { GrowsTo table.old table.new }
        ensures in_order { OnOk result (table.new ≡ with_stack table.old stack.now) }
        ensures distinct { HasDistinctNames table.new }
    {
        number_names(table, noted, &mut self.numbers, stack)?;
        self.source = source;
        self.weight = weight;
        Ok(())
    }
}

/// Rows, in the order in which they were taken. It has no bytes of theirs.
#[derive(Drop)]
pub enum TakenRows {
    Nothing,
    More {
        before: Ghost<TakenRows>,
        last: Ghost<NumberedSample>,
    },
}

impl TakenRows {
    /// Puts a row behind the others.
    pub fn push(&mut self, last: &NumberedSample)
        ensures { rows_of self.new ≡ rows_of self.old ++ row_of last.now ∷ [] }
    {
        *self = TakenRows::More {
            before: Ghost::of(self),
            last: Ghost::of(last),
        };
    }
}

/// Puts the numbers of the names of a stack in the place of others.
fn number_names(
    table: &mut FrameTable,
    noted: &mut Vec<usize>,
    numbers: &mut Vec<usize>,
    stack: &Names,
) -> Result<(), AllocError>
    requires { HasDistinctNames table.old }
    ensures numbers { OnOk result
        (AreNumbersOf stack.now table.new numbers.new.items) }
    ensures grows { GrowsTo table.old table.new }
    ensures in_order { OnOk result (table.new ≡ with_stack table.old stack.now) }
    ensures distinct { HasDistinctNames table.new }
{
    numbers.clear();
    for at in 0..stack.get().len() {
        let number = number_name(table, noted, at, name_of(stack, at))?;
        numbers.push(number)?;
    }
    Ok(())
}

fn name_of(stack: &Names, at: usize) -> &str
    requires { at < length stack.now }
    ensures { result.now ≡ name_at stack.now at }
{
    stack.get()[at].as_str()
}
