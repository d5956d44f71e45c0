//! Names, stacks of their numbers, and samples by the numbers of their stacks.

ghost use Rattle.std.specs.Prelude.{◌≡◌, ◌<◌, ◌≤◌, ◌++◌, ◌∷◌, [], ℕ, List, All, length, map, OnOk, OnErr};
ghost use Rattle.sample_tables.specs.declared.samples.TheConstants.{FRAME_LIMIT, WEIGHT_LIMIT};
ghost use Rattle.sample_tables.specs.Rows.{AreEntries, IsRow, entry_at, name_at, named, row_at, row_by, rows_by, sample_at, stack_at};
ghost use Rattle.sample_tables.specs.Samples.{IsLimited, total_weight};
ghost use Rattle.sample_tables.specs.Spans.{stacks_of, AreWithin};
ghost use Rattle.sample_tables.specs.Tables.{IsStack, samples_in, table_with_row, table_with_sample};

use crate::entries::Entries;
use crate::stacks::{FlatStacks, Stacks};
use crate::values::{Names, Text};
use std::alloc::{AllocError, Global};
use std::marker::Model;

/// The names, the stacks and the samples of a source. Each sample's stack is kept, once for all samples that were taken of it.
#[derive(Debug, Drop)]
pub struct RowTable {
    stacks: Stacks,
    entries: Entries,
}

impl Model for RowTable {
    ghost use Rattle.std.specs.Prelude.{All, length};
    ghost use Rattle.sample_tables.specs.checked.Entries.{IsEntry};
    ghost use Rattle.sample_tables.specs.Tables.{Table};

    ghost Value = { Table };

    ghost view = { λ t. record { names = t.stacks.names; stacks = t.stacks.stacks; entries = t.entries } };

    ghost invariant = { λ t. All (IsEntry (length t.stacks.stacks)) t.entries };
}

impl RowTable {
    /// A table of nothing. It takes no memory.
    pub fn new(alloc: Global) -> Self
        ensures { result ≡ record { names = []; stacks = []; entries = [] } }
    {
        RowTable {
            stacks: Stacks::new(alloc),
            entries: Entries::new(alloc),
        }
    }

    /// Appends a name, which gets the next number. Want of memory changes nothing.
    pub fn add_name(&mut self, name: Text) -> Result<(), AllocError>
        ensures ok { OnOk result (self.new
            ≡ record self.old { names = self.old.names ++ name ∷ [] }) }
        ensures refused { OnErr result (self.new ≡ self.old) }
    {
        self.stacks.add_name(name)
    }

    /// How many names there are. Two of them may be equal.
    pub fn name_count(&self) -> usize
        ensures { result ≡ length self.now.names }
    {
        self.stacks.name_count()
    }

    /// The name of number `k`.
    pub fn name(&self, k: usize) -> &str
        requires { k < length self.now.names }
        ensures { result.now ≡ name_at self.now.names k }
    {
        self.stacks.name(k)
    }

    /// How many stacks are kept. Two of them may be equal.
    pub fn stack_count(&self) -> usize
        ensures { result ≡ length self.now.stacks }
    {
        self.stacks.len()
    }

    /// The numbers of the names of stack `k`, root first.
    pub fn stack(&self, k: usize) -> &[u32]
        requires { k < length self.now.stacks }
        ensures value { result.now ≡ stack_at self.now.stacks k }
        ensures stack { IsStack self.now.names (stack_at self.now.stacks k) }
    {
        self.stacks.stack(k)
    }

    /// The stacks alone. It takes no memory.
    pub fn into_stacks(self) -> FlatStacks
        ensures within { AreWithin result.frames.items result.spans.items }
        ensures stacks { stacks_of result.frames.items result.spans.items ≡ self.stacks }
        ensures known { All (IsStack self.names) self.stacks }
    {
        let RowTable {
            stacks,
            entries: _entries,
        } = self;
        stacks.into_flat()
    }

    /// How many samples there are.
    pub fn len(&self) -> usize
        ensures { result ≡ length self.now.entries }
    {
        self.entries.len()
    }

    /// For contracts alone: what is known of the rows.
    pub fn recall_rows(&self)
        ensures rows { All (IsRow self.now.names) (rows_by self.now.stacks self.now.entries) }
        ensures limits { All IsLimited (samples_in self.now) }
        ensures kept { AreEntries self.now.stacks self.now.entries
            (rows_by self.now.stacks self.now.entries) }
        ensures same { (more : List (List ℕ)) → rows_by (self.now.stacks ++ more) self.now.entries
            ≡ rows_by self.now.stacks self.now.entries }
    {
        let _stacks = self.stacks.len();
        let _weights = self.entries.total();
    }

    /// The sum of the weights.
    pub fn total(&self) -> u128
        ensures { result ≡ total_weight (samples_in self.now) }
    {
        self.entries.total()
    }

    /// The weight of sample `i`.
    pub fn weight(&self, i: usize) -> u64
        requires { i < length self.now.entries }
        ensures value { result ≡ (entry_at self.now.entries i).weight }
        ensures sample { result ≡ (sample_at (samples_in self.now) i).weight }
        ensures limit { result ≤ WEIGHT_LIMIT }
    {
        self.entries.weight(i)
    }

    /// The number of the stack of sample `i`.
    pub fn stack_number(&self, i: usize) -> usize
        requires { i < length self.now.entries }
        ensures value { result ≡ (entry_at self.now.entries i).stack }
        ensures kept { result < length self.now.stacks }
        ensures frames { stack_at self.now.stacks result
            ≡ (row_at (rows_by self.now.stacks self.now.entries) i).frames }
    {
        self.entries.stack(i)
    }

    /// The numbers of the names of sample `i`, root first.
    pub fn frames(&self, i: usize) -> &[u32]
        requires { i < length self.now.entries }
        ensures value { result.now ≡ (row_at (rows_by self.now.stacks self.now.entries) i).frames }
        ensures row { IsRow self.now.names (row_at (rows_by self.now.stacks self.now.entries) i) }
        ensures names { map (name_at self.now.names) result.now
            ≡ (sample_at (samples_in self.now) i).stack }
    {
        self.stacks.stack(self.stack_number(i))
    }

    /// Keeps a stack, which gets the next number. Want of memory changes nothing.
    pub fn keep(&mut self, frames: &[usize]) -> Result<(), AllocError>
        requires { IsStack self.old.names frames.now }
        ensures ok { OnOk result
            (self.new ≡ record self.old { stacks = self.old.stacks ++ frames.now ∷ [] }) }
        ensures refused { OnErr result (self.new ≡ self.old) }
    {
        self.stacks.add(frames)
    }

    /// Takes a sample of a stack that is kept. A stack past the 2^32nd is refused as memory is.
    pub fn take_again(&mut self, stack: usize, weight: u64) -> Result<(), AllocError>
        requires kept { stack < length self.old.stacks }
        requires limit { weight ≤ WEIGHT_LIMIT }
        ensures ok { OnOk result (self.new ≡ record self.old
            { entries = self.old.entries ++ record { stack = stack; weight = weight } ∷ [] }) }
        ensures refused { OnErr result (self.new ≡ self.old) }
    {
        self.entries.push(stack, weight)
    }

    /// Keeps a stack, and takes a sample of it: both or neither.
    pub fn take_row(&mut self, frames: &[usize], weight: u64) -> Result<(), AllocError>
        requires stack { IsStack self.old.names frames.now }
        requires limit { weight ≤ WEIGHT_LIMIT }
        ensures ok { OnOk result (self.new ≡ table_with_row self.old frames.now weight) }
        ensures refused { OnErr result (self.new ≡ self.old) }
    {
        self.entries.push(self.stacks.len(), weight)?;
        let kept = self.stacks.add(frames);
        if kept.is_err() {
            self.entries.pop();
        }
        kept
    }

    /// Takes a sample, whose names are told anew: all or nothing.
    pub fn take(&mut self, stack: Names, weight: u64) -> Result<(), AllocError>
        requires depth { length stack ≤ FRAME_LIMIT }
        requires limit { weight ≤ WEIGHT_LIMIT }
        ensures ok { OnOk result (self.new ≡ table_with_sample self.old stack weight) }
        ensures refused { OnErr result (self.new ≡ self.old) }
    {
        self.entries.push(self.stacks.len(), weight)?;
        let kept = self.stacks.add_fresh(stack);
        if kept.is_err() {
            self.entries.pop();
        }
        kept
    }
}
