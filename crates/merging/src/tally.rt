//! How many samples a sink took, and of which sources.

ghost use Rattle.std.specs.Prelude.{max, slice_index, ◌≡◌, ◌<◌, ◌+◌, ◌++◌, ◌∷◌, ◌^◌, ℕ, List, [], IfOk, OnOk, length, vec_capacity};
ghost use Rattle.merging.specs.Snapshots.{source_counts};
ghost use Rattle.merging.specs.checked.Tallies.{HasRoom, IsTally};
ghost use Rattle.merging.specs.checked.TakenRows.{row_of, rows_of};

use crate::taken_rows::{NumberedSample, TakenRows};
use std::alloc::{AllocError, Global};

/// How many samples were taken and, where every so many want a snapshot, how many of each source.
#[derive(Drop)]
pub struct Tally {
    /// After how many samples more there is a snapshot.
    pub every: Option<u64>,
    /// How many samples were taken.
    pub at: u64,
    /// How many of each source; nothing unless there are snapshots.
    pub counts: Vec<u64>,
    /// The samples, for contracts alone.
    pub taken: TakenRows,
}

impl Tally {
    /// Nothing was taken.
    pub fn new(alloc: Global, every: Option<u64>) -> Tally
        ensures every { result.every ≡ every }
        ensures taken { rows_of result.taken ≡ [] }
        ensures tallied { IsTally result }
    {
        Tally {
            every,
            at: 0,
            counts: Vec::new(alloc),
            taken: TakenRows::Nothing,
        }
    }

    /// Makes room to count a source once more. A number past 64 bits is refused as memory is.
    pub fn reserve(&mut self, source: u32) -> Result<(), AllocError>
        requires { IsTally self.old }
        ensures room { OnOk result (HasRoom source self.new) }
        ensures every { self.new.every ≡ self.old.every }
        ensures taken { self.new.taken ≡ self.old.taken }
        ensures tallied { IsTally self.new }
    {
        if self.at == u64::MAX {
            return Err(AllocError);
        }
        if self.every.is_some() {
            make_room(&mut self.counts, source)?;
        }
        Ok(())
    }

    /// Counts a sample, for which there is room.
    pub fn count(&mut self, sample: &NumberedSample)
        requires tallied { IsTally self.old }
        requires room { HasRoom sample.now.source self.old }
        ensures every { self.new.every ≡ self.old.every }
        ensures taken { rows_of self.new.taken ≡ rows_of self.old.taken ++ row_of sample.now ∷ [] }
        ensures tallied { IsTally self.new }
    {
        self.at += 1;
        if self.every.is_some() {
            count_source(&mut self.counts, sample.source);
        }
        self.taken.push(sample);
    }
}

/// Makes room for the count of a source.
fn make_room(counts: &mut Vec<u64>, source: u32) -> Result<(), AllocError>
    ensures room { OnOk result (source < vec_capacity counts.new) }
    ensures same { counts.new.items ≡ counts.old.items }
{
    let needed = source as usize + 1;
    counts.reserve(needed.saturating_sub(counts.len()))
}

/// Puts counts of 0 behind the others, up to the one at a place, for which there is room.
fn reach(counts: &mut Vec<u64>, place: usize)
    requires { place < vec_capacity counts.old }
    ensures len { length counts.new.items ≡ max (length counts.old.items) (place + 1) }
    ensures same { (k : ℕ) → slice_index counts.new.items k ≡ slice_index counts.old.items k }
{
    if counts.len() <= place {
        // Nothing is refused, since there is room.
        counts.resize(place + 1, 0).unwrap();
    }
}

/// Counts a source once more. There is room for it.
fn count_source(counts: &mut Vec<u64>, source: u32)
    requires room { source < vec_capacity counts.old }
    requires counted { (order : List ℕ) × (counts.old.items ≡ source_counts order)
        × (length order + 1 < 2 ^ 64) }
    ensures { (order : List ℕ) → counts.old.items ≡ source_counts order
        → counts.new.items ≡ source_counts (order ++ source ∷ []) }
{
    let place = source as usize;
    reach(counts, place);
    counts[place] += 1;
}

/// How often each source was taken, and this one once more.
pub fn counts_with(alloc: Global, counts: &[u64], source: u32) -> Result<Vec<u64>, AllocError>
    requires { (order : List ℕ) × (counts.now ≡ source_counts order) × (length order + 1 < 2 ^ 64) }
    ensures { (order : List ℕ) → counts.now ≡ source_counts order → IfOk result (λ more.
        more.items ≡ source_counts (order ++ source ∷ [])) }
{
    let mut more = Vec::from_slice(alloc, counts)?;
    make_room(&mut more, source)?;
    count_source(&mut more, source);
    Ok(more)
}
