//! What is collected of a source.

ghost use Rattle.std.specs.Prelude.{◌≡◌, ◌<◌, ◌≤◌, ℕ, List, All, length, map, slice_index};
ghost use Rattle.sample_tables.specs.declared.samples.TheConstants.{FRAME_LIMIT, WEIGHT_LIMIT};
ghost use Rattle.sample_tables.specs.Samples.{IsLimited, total_weight};
ghost use Rattle.sample_tables.specs.Spans.{stacks_of, AreWithin};
ghost use Rattle.sample_tables.specs.Tables.{IsStack};
ghost use Rattle.sample_tables.specs.Rows.{AreEntries, AreNamed, entry_at, name_at, named, row_at, rows_by, sample_at, stack_at};

use crate::endings::SourceEnd;
use sample_tables::{FlatStacks, RowTable};
use std::marker::Model;

/// The samples of a source in the order in which they were taken, and the source's ending. Names are told once
/// in a list, and frames are numbers of told names, so equal numbers in one list mean equal names. A stack is kept once for
/// all samples that were taken of it.
/// No call takes memory.
#[derive(Debug, Drop)]
pub struct SourceList {
    table: RowTable,
    ending: SourceEnd,
}

impl Model for SourceList {
    ghost use Rattle.std.specs.Prelude.{map};
    ghost use Rattle.stack_core.specs.Ledgers.{ListState};
    ghost use Rattle.sample_tables.specs.Rows.{named, rows_by};

    ghost Value = { ListState };

    ghost view = { λ list. record {
      samples = map (named list.table.names) (rows_by list.table.stacks list.table.entries);
      ending = list.ending;
      told = list.table.names;
      rows = rows_by list.table.stacks list.table.entries;
      stacks = list.table.stacks;
      entries = list.table.entries;
    } };
}

impl SourceList {
    pub(crate) fn of(table: RowTable, ending: SourceEnd) -> Self
        ensures samples { result.samples ≡ map (named table.names) (rows_by table.stacks table.entries) }
        ensures ending { result.ending ≡ ending }
        ensures told { result.told ≡ table.names }
        ensures rows { result.rows ≡ rows_by table.stacks table.entries }
        ensures stacks { result.stacks ≡ table.stacks }
        ensures entries { result.entries ≡ table.entries }
    {
        SourceList { table, ending }
    }

    /// How many samples there are.
    pub fn len(&self) -> usize
        ensures count { result ≡ length self.now.samples }
        ensures rows { length self.now.rows ≡ length self.now.samples }
        ensures named { AreNamed self.now.told self.now.rows self.now.samples }
        ensures limits { All IsLimited self.now.samples }
        ensures entries { AreEntries self.now.stacks self.now.entries self.now.rows }
    {
        self.table.recall_rows();
        self.table.len()
    }

    /// How many stacks are kept. Two of them may be equal.
    pub fn stack_count(&self) -> usize
        ensures { result ≡ length self.now.stacks }
    {
        self.table.stack_count()
    }

    /// The numbers of the names of stack `k`, root first.
    pub fn stack(&self, k: usize) -> &[u32]
        requires { k < length self.now.stacks }
        ensures value { result.now ≡ stack_at self.now.stacks k }
        ensures limit { length result.now ≤ FRAME_LIMIT }
        ensures told { All (λ k. k < length self.now.told) result.now }
    {
        self.table.stack(k)
    }

    /// The stacks alone, by the numbers of their names.
    pub fn into_stacks(self) -> FlatStacks
        ensures within { AreWithin result.frames.items result.spans.items }
        ensures stacks { stacks_of result.frames.items result.spans.items ≡ self.stacks }
        ensures told { All (IsStack self.told) self.stacks }
    {
        let SourceList {
            table,
            ending: _ending,
        } = self;
        table.into_stacks()
    }

    /// The number of the stack of sample `i`.
    pub fn stack_number(&self, i: usize) -> usize
        requires { i < length self.now.samples }
        ensures value { result ≡ (entry_at self.now.entries i).stack }
        ensures kept { result < length self.now.stacks }
        ensures frames { stack_at self.now.stacks result ≡ (row_at self.now.rows i).frames }
    {
        self.table.stack_number(i)
    }

    /// The weight of sample `i`.
    pub fn weight(&self, i: usize) -> u64
        requires { i < length self.now.samples }
        ensures value { result ≡ (sample_at self.now.samples i).weight }
        ensures limit { result ≤ WEIGHT_LIMIT }
    {
        self.table.weight(i)
    }

    /// How many frames sample `i` has.
    pub fn depth(&self, i: usize) -> usize
        requires { i < length self.now.samples }
        ensures value { result ≡ length (sample_at self.now.samples i).stack }
        ensures limit { result ≤ FRAME_LIMIT }
    {
        self.table.frames(i).len()
    }

    /// The numbers of the names of sample `i`, root first.
    pub fn frames(&self, i: usize) -> &[u32]
        requires { i < length self.now.samples }
        ensures value { result.now ≡ (row_at self.now.rows i).frames }
        ensures limit { length result.now ≤ FRAME_LIMIT }
        ensures told { All (λ k. k < length self.now.told) result.now }
        ensures names { map (name_at self.now.told) result.now
            ≡ (sample_at self.now.samples i).stack }
    {
        self.table.frames(i)
    }

    /// The number of the name of frame `d` of sample `i`. The root frame is frame 0.
    pub fn number(&self, i: usize, d: usize) -> usize
        requires sample { i < length self.now.samples }
        requires frame { d < length (sample_at self.now.samples i).stack }
        ensures value { result ≡ slice_index (row_at self.now.rows i).frames d }
        ensures told { result < length self.now.told }
        ensures name { name_at self.now.told result
            ≡ name_at (sample_at self.now.samples i).stack d }
    {
        self.table.frames(i)[d] as usize
    }

    /// The name of frame `d` of sample `i`. The root frame is frame 0.
    pub fn name(&self, i: usize, d: usize) -> &str
        requires sample { i < length self.now.samples }
        requires frame { d < length (sample_at self.now.samples i).stack }
        ensures { result.now ≡ name_at (sample_at self.now.samples i).stack d }
    {
        self.table.name(self.number(i, d))
    }

    /// How many names were told.
    pub fn told(&self) -> usize
        ensures { result ≡ length self.now.told }
    {
        self.table.name_count()
    }

    /// The name of number `k`.
    pub fn told_name(&self, k: usize) -> &str
        requires { k < length self.now.told }
        ensures { result.now ≡ name_at self.now.told k }
    {
        self.table.name(k)
    }

    /// The sum of the weights.
    pub fn total(&self) -> u128
        ensures { result ≡ total_weight self.now.samples }
    {
        self.table.total()
    }

    /// How the source ended.
    pub fn ending(&self) -> &SourceEnd
        ensures { result.now ≡ self.now.ending }
    {
        &self.ending
    }
}
