//! Stacks that are kept, each with the sum of its samples.

ghost use Rattle.std.specs.Prelude.{◌≡◌, ◌+◌, ◌<◌, ◌≤◌, ◌^◌, ◌++◌, ◌∷◌, [], All, IfOk, IsTrue, List, OnErr, OnOk, length, map, slice_set};
ghost use Rattle.merged_stacks.specs.Merged.{merged_samples};
ghost use Rattle.merged_stacks.specs.RankedStacks.{ranked_samples};
ghost use Rattle.merged_stacks.specs.Timeline.{total_weight};
ghost use Rattle.merged_stacks.specs.Sums.{HaveSameSums};
ghost use Rattle.merging.specs.checked.TakenRows.{AreNumbersOf};
ghost use Rattle.ring_collect.specs.NamesInOrder.{GrowsTo};
ghost use Rattle.sample_tables.specs.Rows.{name_at, sample_at};
ghost use Rattle.sample_tables.specs.declared.samples.Sample.{Sample};
ghost use Rattle.sample_tables.specs.declared.samples.TheConstants.{FRAME_LIMIT};

use crate::noted_numbers::{NotedNumbers, note_place};
use merged_stacks::{MergedStacks, Sorting};
use sample_tables::{RowTable, Text};
use stack_core::Ledger;
use std::alloc::{AllocError, Global};
use std::marker::Model;

/// Stacks of ledgers, each with a sum. Two of them may have the same names. Contracts see each as a sample that weighs its sum.
#[derive(Drop)]
pub struct SummedStacks {
    table: RowTable,
    sums: Vec<u64>,
    /// The numbers of the names of each source.
    noted: NotedNumbers,
    /// Those of the stack that is being kept.
    numbers: Vec<usize>,
}

impl Model for SummedStacks {
    ghost use Rattle.std.specs.Prelude.{List};
    ghost use Rattle.sample_tables.specs.declared.samples.Sample.{Sample};
    ghost use Rattle.merged_stacks.specs.Sums.{kept_samples};
    ghost use Rattle.merging.specs.checked.Summed.{AreSummed};

    ghost Value = { List Sample };

    ghost view = { λ s. kept_samples s.table.names s.table.stacks s.sums.items };

    ghost invariant = { λ s. AreSummed s.table.names s.table.stacks s.sums.items };
}

impl SummedStacks {
    /// No stacks.
    pub fn new(alloc: Global) -> SummedStacks
        ensures { result ≡ [] }
    {
        SummedStacks {
            table: RowTable::new(alloc),
            sums: Vec::new(alloc),
            noted: NotedNumbers::new(alloc),
            numbers: Vec::new(alloc),
        }
    }

    /// Whether the stack at a place has the names of these numbers of a ledger.
    pub fn stands_at(&self, place: usize, ledger: &Ledger, frames: &[u32]) -> bool
        requires { All (λ number. number < length ledger.now.told) frames.now }
        ensures { IsTrue result → (place < length self.now)
            × ((sample_at self.now place).stack ≡ map (name_at ledger.now.told) frames.now) }
    {
        place < self.table.stack_count()
            && has_names(&self.table, self.table.stack(place), ledger, frames)
    }

    /// Keeps the stack of these numbers of a ledger of the source, with the sum 0, and tells its place.
    pub fn keep(
        &mut self,
        alloc: Global,
        source: u32,
        ledger: &Ledger,
        frames: &[u32],
    ) -> Result<usize, AllocError>
        requires told { All (λ number. number < length ledger.now.told) frames.now }
        requires depth { length frames.now ≤ FRAME_LIMIT }
        ensures kept { OnOk result (self.new ≡ self.old
            ++ record { stack = map (name_at ledger.now.told) frames.now; weight = 0 } ∷ []) }
        ensures place { IfOk result (λ place. place ≡ length self.old) }
        ensures refused { OnErr result (self.new ≡ self.old) }
    {
        let noted = self.noted.of(alloc, source)?;
        number_frames(
            alloc,
            &mut self.table,
            noted,
            &mut self.numbers,
            ledger,
            frames,
        )?;
        self.sums.reserve(1)?;
        let place = self.table.stack_count();
        self.table.keep(&self.numbers)?;
        self.sums.push_reserved(0);
        Ok(place)
    }

    /// Adds to the sum of the stack at a place.
    pub fn add(&mut self, place: usize, weight: u64)
        requires within { place < length self.old }
        requires fits { (sample_at self.old place).weight + weight < 2 ^ 64 }
        ensures { self.new ≡ slice_set self.old place (record (sample_at self.old place)
            { weight = (sample_at self.old place).weight + weight }) }
    {
        self.sums[place] += weight;
    }

    /// The merged stacks of all samples.
    pub fn merged<S: Sorting>(&self, alloc: Global, sorting: &S) -> Result<MergedStacks, AllocError>
        requires { total_weight self.now < 2 ^ 64 }
        ensures { IfOk result (λ merged. (samples : List Sample) → HaveSameSums self.now samples
            → ranked_samples merged ≡ merged_samples samples) }
    {
        MergedStacks::of_sums(alloc, &self.table, &self.sums, sorting)
    }
}

/// Whether numbers have the names that others have in a ledger.
fn has_names(table: &RowTable, numbers: &[u32], ledger: &Ledger, frames: &[u32]) -> bool
    requires known { All (λ number. number < length table.now.names) numbers.now }
    requires told { All (λ number. number < length ledger.now.told) frames.now }
    ensures { IsTrue result
        → map (name_at table.now.names) numbers.now ≡ map (name_at ledger.now.told) frames.now }
{
    if numbers.len() != frames.len() {
        return false;
    }
    for at in 0..numbers.len() {
        if table.name(numbers[at] as usize) != ledger.told_name(frames[at] as usize) {
            return false;
        }
    }
    true
}

/// Puts the numbers that the names of a ledger's frames have in a table in the place of others. Want of memory may leave names behind.
fn number_frames(
    alloc: Global,
    table: &mut RowTable,
    noted: &mut Vec<usize>,
    numbers: &mut Vec<usize>,
    ledger: &Ledger,
    frames: &[u32],
) -> Result<(), AllocError>
    requires { All (λ number. number < length ledger.now.told) frames.now }
    ensures numbers { OnOk result
        (AreNumbersOf (map (name_at ledger.now.told) frames.now) table.new.names numbers.new.items) }
    ensures names { GrowsTo table.old.names table.new.names }
    ensures stacks { table.new.stacks ≡ table.old.stacks }
{
    numbers.clear();
    for frame in frames {
        let frame = *frame as usize;
        let number = number_told(alloc, table, noted, frame, ledger.told_name(frame))?;
        numbers.push(number)?;
    }
    Ok(())
}

/// The number of a name that a source told under another, at which it is noted. It gets one now if none is.
fn number_told(
    alloc: Global,
    table: &mut RowTable,
    noted: &mut Vec<usize>,
    note: usize,
    name: &str,
) -> Result<usize, AllocError>
    ensures number { IfOk result (λ number. name_at table.new.names number ≡ name.now) }
    ensures below { IfOk result (λ number. number < length table.new.names) }
    ensures names { GrowsTo table.old.names table.new.names }
    ensures stacks { table.new.stacks ≡ table.old.stacks }
{
    if let Some(number) = noted.get(note).copied()
        && is_named(table, number, name)
    {
        return Ok(number);
    }
    let noted = note_place(noted, note)?;
    let number = table.name_count();
    table.add_name(Text::from_str(alloc, name)?)?;
    *noted = number;
    Ok(number)
}

/// Whether a number has this name.
fn is_named(table: &RowTable, number: usize, name: &str) -> bool
    ensures { IsTrue result → (number < length table.now.names)
        × (name_at table.now.names number ≡ name.now) }
{
    number < table.name_count() && table.name(number) == name
}
