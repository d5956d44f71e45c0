//! What is kept of a source while its samples arrive.

ghost use Rattle.std.specs.Prelude.{◌≡◌, ◌<◌, ◌≤◌, ◌++◌, ◌∷◌, [], List, All, length, map, None, Some, is_some, option_copied, OnOk, OnErr};
ghost use Rattle.sample_tables.specs.declared.samples.TheConstants.{FRAME_LIMIT, WEIGHT_LIMIT};
ghost use Rattle.sample_tables.specs.Samples.{IsLimited, total_weight};
ghost use Rattle.sample_tables.specs.Rows.{AreEntries, AreNamed, name_at, stack_at};
ghost use Rattle.stack_core.specs.Ledgers.{IsRead, keeping, with_again, with_row, with_sample};

use crate::endings::Close;
use crate::lists::SourceList;
use sample_tables::{Listed, RowTable, Sample, Text};
use std::alloc::{AllocError, Global};
use std::marker::Model;

/// The samples of one source, as they are told, and then how the telling closed. Names are told once, stacks are kept as
/// the numbers of their names, and a sample is the number of its stack and a weight.
#[derive(Debug, Drop)]
pub struct Ledger {
    table: RowTable,
    close: Option<Close>,
}

impl Model for Ledger {
    ghost use Rattle.std.specs.Prelude.{map};
    ghost use Rattle.stack_core.specs.Ledgers.{LedgerState};
    ghost use Rattle.sample_tables.specs.Rows.{named, rows_by};

    ghost Value = { LedgerState };

    ghost view = { λ ledger. record {
      samples = map (named ledger.table.names) (rows_by ledger.table.stacks ledger.table.entries);
      close = ledger.close;
      told = ledger.table.names;
      rows = rows_by ledger.table.stacks ledger.table.entries;
      stacks = ledger.table.stacks;
      entries = ledger.table.entries;
    } };
}

impl Ledger {
    /// A ledger of nothing, not closed. It takes no memory.
    pub fn new(alloc: Global) -> Self
        ensures { result ≡ record
            { samples = []; close = None; told = []; rows = []; stacks = []; entries = [] } }
    {
        Ledger {
            table: RowTable::new(alloc),
            close: None,
        }
    }

    /// Tells a name, which gets the least number that no name has. Want of memory changes nothing.
    pub fn tell(&mut self, name: Text) -> Result<(), AllocError>
        requires { self.old.close ≡ None }
        ensures ok { OnOk result (self.new
            ≡ record self.old { told = self.old.told ++ name ∷ [] }) }
        ensures refused { OnErr result (self.new ≡ self.old) }
    {
        self.table.recall_rows();
        self.table.add_name(name)
    }

    /// Takes the sample whose names have these numbers, root first. Want of memory changes nothing.
    pub fn take_row(&mut self, frames: Listed<usize>, weight: u64) -> Result<(), AllocError>
        requires open { self.old.close ≡ None }
        requires depth { length frames ≤ FRAME_LIMIT }
        requires numbers { All (λ k. k < length self.old.told) frames }
        requires limit { weight ≤ WEIGHT_LIMIT }
        ensures ok { OnOk result (self.new
            ≡ with_row self.old (record { frames = frames; weight = weight })) }
        ensures refused { OnErr result (self.new ≡ self.old) }
    {
        self.table.recall_rows();
        self.table.take_row(frames.get(), weight)
    }

    /// Keeps the stack whose names have these numbers, root first, for samples to come. It gets the least number that no stack has.
    /// Want of memory changes nothing.
    pub fn keep(&mut self, frames: &[usize]) -> Result<(), AllocError>
        requires open { self.old.close ≡ None }
        requires depth { length frames.now ≤ FRAME_LIMIT }
        requires numbers { All (λ k. k < length self.old.told) frames.now }
        ensures ok { OnOk result (self.new ≡ keeping self.old frames.now) }
        ensures refused { OnErr result (self.new ≡ self.old) }
    {
        self.table.recall_rows();
        self.table.keep(frames)
    }

    /// Takes a sample of the stack of this number. Want of memory, and a stack past the 2^32nd, changes nothing.
    pub fn take_again(&mut self, stack: usize, weight: u64) -> Result<(), AllocError>
        requires open { self.old.close ≡ None }
        requires kept { stack < length self.old.stacks }
        requires limit { weight ≤ WEIGHT_LIMIT }
        ensures ok { OnOk result (self.new ≡ with_again self.old stack weight) }
        ensures refused { OnErr result (self.new ≡ self.old) }
    {
        self.table.take_again(stack, weight)
    }

    /// Takes a sample, whose names are told anew. Want of memory changes nothing.
    pub fn take(&mut self, sample: Sample) -> Result<(), AllocError>
        requires open { self.old.close ≡ None }
        requires limits { IsLimited sample }
        ensures ok { OnOk result (self.new ≡ with_sample self.old sample) }
        ensures refused { OnErr result (self.new ≡ self.old) }
    {
        self.table.recall_rows();
        let Sample { stack, weight } = sample;
        self.table.take(stack, weight)
    }

    /// Closes the ledger. It takes no memory.
    pub fn close(&mut self, close: Close)
        requires { self.old.close ≡ None }
        ensures { self.new ≡ record self.old { close = Some close } }
    {
        self.close = Some(close);
    }

    /// How many samples were taken.
    pub fn count(&self) -> u64
        ensures count { result ≡ length self.now.samples }
        ensures named { AreNamed self.now.told self.now.rows self.now.samples }
        ensures limits { All IsLimited self.now.samples }
        ensures entries { AreEntries self.now.stacks self.now.entries self.now.rows }
    {
        self.table.recall_rows();
        self.table.len() as u64
    }

    /// The sum of the weights.
    pub fn weight(&self) -> u128
        ensures { result ≡ total_weight self.now.samples }
    {
        self.table.total()
    }

    /// How it was closed, if it was.
    pub fn closed(&self) -> Option<&Close>
        ensures { option_copied result ≡ self.now.close }
    {
        self.close.as_ref()
    }

    /// Whether it was closed.
    pub fn is_closed(&self) -> bool
        ensures { result ≡ is_some self.now.close }
    {
        self.close.is_some()
    }

    /// How many names were told.
    pub fn told(&self) -> usize
        ensures { result ≡ length self.now.told }
    {
        self.table.name_count()
    }

    /// The name of number `k`.
    pub fn told_name(&self, k: usize) -> &str
        requires { k < length self.now.told }
        ensures { result.now ≡ name_at self.now.told k }
    {
        self.table.name(k)
    }

    /// How many stacks are kept.
    pub fn stack_count(&self) -> usize
        ensures { result ≡ length self.now.stacks }
    {
        self.table.stack_count()
    }

    /// The numbers of the names of stack `k`, root first.
    pub fn stack(&self, k: usize) -> &[u32]
        requires { k < length self.now.stacks }
        ensures value { result.now ≡ stack_at self.now.stacks k }
        ensures limit { length result.now ≤ FRAME_LIMIT }
        ensures told { All (λ k. k < length self.now.told) result.now }
    {
        self.table.stack(k)
    }

    /// The list of a source that was read to an ending. It takes no memory.
    pub fn into_list(self) -> SourceList
        requires { IsRead self.close }
        ensures samples { result.samples ≡ self.samples }
        ensures close { self.close ≡ Some (Close.Read result.ending) }
        ensures told { result.told ≡ self.told }
        ensures rows { result.rows ≡ self.rows }
        ensures stacks { result.stacks ≡ self.stacks }
        ensures entries { result.entries ≡ self.entries }
    {
        let Ledger { table, close } = self;
        match close {
            Some(Close::Read(ending)) => SourceList::of(table, ending),
            _ => unreachable!(),
        }
    }
}
