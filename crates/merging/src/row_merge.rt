//! Samples by rows, merged.

ghost use Rattle.std.specs.Prelude.{◌≡◌, ◌<◌, [], IfOk, List, length, map};
ghost use Rattle.merged_stacks.specs.Merged.{merged_samples};
ghost use Rattle.merged_stacks.specs.RankedStacks.{ranked_samples};
ghost use Rattle.merged_stacks.specs.Timeline.{total_weight};
ghost use Rattle.merged_stacks.specs.Sums.{HaveSameSums};
ghost use Rattle.merging.specs.Snapshots.{samples_of_pairs};
ghost use Rattle.sample_tables.specs.Rows.{name_at, sample_at, stack_at};
ghost use Rattle.sample_tables.specs.declared.samples.Sample.{Sample};

use crate::noted_numbers::{NotedNumbers, note_place};
use crate::summed_stacks::SummedStacks;
use merged_stacks::{MergedStacks, Sorting};
use stack_core::{Ledger, NoSink, RowSink};
use std::alloc::{AllocError, Global};
use std::marker::Model;

/// Merges samples of the stacks that ledgers keep: each row of a source has one sum. A sample of a row that came before costs a look at its
/// names, and no memory. Contracts see the pairs that it took.
#[derive(Drop)]
pub struct RowMerge {
    stacks: SummedStacks,
    /// Where the stacks of rows are kept.
    places: NotedNumbers,
    total: u64,
    /// The samples, for contracts alone.
    taken: NoSink,
}

impl Model for RowMerge {
    ghost use Rattle.std.specs.Prelude.{ℕ, List};
    ghost use Rattle.sample_tables.specs.declared.samples.Sample.{Sample as TakenSample};
    ghost use Rattle.merging.specs.checked.Summed.{AreMergedPairs};

    ghost Value = { List (ℕ × TakenSample) };

    ghost view = { λ merge. merge.taken };

    ghost invariant = { λ merge. AreMergedPairs merge.stacks merge.total merge.taken };
}

impl RowMerge {
    /// Nothing was taken. It takes no memory.
    pub fn new(alloc: Global) -> RowMerge
        ensures { result ≡ [] }
    {
        RowMerge {
            stacks: SummedStacks::new(alloc),
            places: NotedNumbers::new(alloc),
            total: 0,
            taken: NoSink::new(),
        }
    }

    /// What all samples weigh together.
    pub fn total(&self) -> u64
        ensures { result ≡ total_weight (samples_of_pairs self.now) }
    {
        self.total
    }

    /// The merged stacks of all samples.
    pub fn merged<S: Sorting>(&self, alloc: Global, sorting: &S) -> Result<MergedStacks, AllocError>
        ensures { IfOk result (λ merged.
            ranked_samples merged ≡ merged_samples (samples_of_pairs self.now)) }
    {
        self.stacks.merged(alloc, sorting)
    }
}

impl RowSink for RowMerge {
    ghost taken = { λ merge. merge };

    /// Merges one sample. One with which all weights don't fit in 64 bits is refused as memory is.
    fn take_row(
        &mut self,
        alloc: Global,
        source: u32,
        ledger: &Ledger,
        row: usize,
        weight: u64,
    ) -> Result<(), AllocError> {
        if weight > u64::MAX - self.total {
            return Err(AllocError);
        }
        let noted = self.places.of(alloc, source)?;
        let place = place_of(alloc, &mut self.stacks, noted, source, ledger, row)?;
        self.taken.take_row(alloc, source, ledger, row, weight)?;
        self.stacks.add(place, weight);
        self.total += weight;
        Ok(())
    }
}

/// Where the stack of a row is kept, which it is from now on. Want of memory may leave it there without samples.
fn place_of(
    alloc: Global,
    stacks: &mut SummedStacks,
    noted: &mut Vec<usize>,
    source: u32,
    ledger: &Ledger,
    row: usize,
) -> Result<usize, AllocError>
    requires { row < length ledger.now.stacks }
    ensures below { IfOk result (λ place. place < length stacks.new) }
    ensures stack { IfOk result (λ place. (sample_at stacks.new place).stack
        ≡ map (name_at ledger.now.told) (stack_at ledger.now.stacks row)) }
    ensures same { (samples : List Sample) → HaveSameSums stacks.old samples → HaveSameSums stacks.new samples }
{
    let frames = ledger.stack(row);
    if let Some(place) = noted.get(row).copied()
        && stacks.stands_at(place, ledger, frames)
    {
        return Ok(place);
    }
    let noted = note_place(noted, row)?;
    let place = stacks.keep(alloc, source, ledger, frames)?;
    *noted = place;
    Ok(place)
}
