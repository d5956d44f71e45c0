//! Merged stacks: each stack with weight once, in order, with the sum of its samples.

ghost use Rattle.std.specs.Prelude.{◌≡◌, ◌<◌, ◌≤◌, ◌^◌, ℕ, [], List, All, IfOk, IsTrue, length, map, slice_index, string_bytes};
ghost use Rattle.sample_tables.specs.declared.samples.Sample.{Sample};
ghost use Rattle.sample_tables.specs.declared.samples.TheConstants.{FRAME_LIMIT};
ghost use Rattle.sample_tables.specs.Rows.{name_at, sample_at};
ghost use Rattle.merged_stacks.specs.Timeline.{total_weight, samples_of};
ghost use Rattle.merged_stacks.specs.Merged.{weighed, all_samples, merged_samples, are_in_order};
ghost use Rattle.merged_stacks.specs.Order.{AreRising};
ghost use Rattle.merged_stacks.specs.RankedStacks.{ranked_samples, ranks_at, NamesEachRank};
ghost use Rattle.merged_stacks.specs.Sums.{HaveSameSums, kept_samples};
ghost use Rattle.merged_stacks.specs.checked.Ranks.{all_told};
ghost use Rattle.merged_stacks.specs.checked.Ranked.{AreMerged, HasSums, IsNamedBy};

use crate::list_sums::{add_list, give_list, rows_of_sums};
use crate::stack_rows::StackRows;
use ranked_rows::{GatheredRows, NameRanks, RankedRows, Sorting};
use sample_tables::RowTable;
use stack_core::SourceList;
use std::alloc::{AllocError, Global};
use std::marker::Model;

/// The merged stacks of some samples: each stack with weight once, sorted by the names, with the sum of its samples.
/// A name's rank is its place among all names. Contracts see the names, and each stack as the ranks of its names
/// and its sum.
#[derive(Drop)]
pub struct MergedStacks {
    names: Vec<String>,
    rows: RankedRows,
}

impl Model for MergedStacks {
    ghost use Rattle.std.specs.Prelude.{map, string_bytes};
    ghost use Rattle.merged_stacks.specs.RankedStacks.{Ranking};
    ghost use Rattle.merged_stacks.specs.checked.Ranked.{AreMerged};

    ghost Value = { Ranking };

    ghost view = { λ m. record { names = map string_bytes m.names.items; rows = m.rows } };

    ghost invariant = { λ m. AreMerged (map string_bytes m.names.items) m.rows };
}

impl MergedStacks {
    /// The merged stacks of the samples of all lists.
    pub fn of<S: Sorting>(
        alloc: Global,
        lists: &[SourceList],
        sorting: &S,
    ) -> Result<MergedStacks, AllocError>
        requires { total_weight (all_samples (samples_of lists.now)) < 2 ^ 64 }
        ensures { IfOk result (λ merged.
            ranked_samples merged ≡ merged_samples (all_samples (samples_of lists.now))) }
    {
        let NameRanks { names, ranks } = NameRanks::of(alloc, lists)?;
        let rows = ranked(alloc, lists, &ranks)?;
        MergedStacks::merged(alloc, names, rows, sorting)
    }

    /// The same of lists that are given up: each is let go as soon as its stacks are taken out of it.
    pub fn from_lists<S: Sorting>(
        alloc: Global,
        lists: Vec<SourceList>,
        sorting: &S,
    ) -> Result<MergedStacks, AllocError>
        requires { total_weight (all_samples (samples_of lists.items)) < 2 ^ 64 }
        ensures { IfOk result (λ merged.
            ranked_samples merged ≡ merged_samples (all_samples (samples_of lists.items))) }
    {
        let NameRanks { names, ranks } = NameRanks::of(alloc, &lists)?;
        let rows = ranked_out(alloc, lists, ranks)?;
        MergedStacks::merged(alloc, names, rows, sorting)
    }

    /// Of the stacks that a table keeps, each with this sum.
    pub fn of_sums<S: Sorting>(
        alloc: Global,
        table: &RowTable,
        sums: &[u64],
        sorting: &S,
    ) -> Result<MergedStacks, AllocError>
        requires sums { length sums.now ≡ length table.now.stacks }
        requires total { total_weight (kept_samples table.now.names table.now.stacks sums.now) < 2 ^ 64 }
        ensures { IfOk result (λ merged. (samples : List Sample)
            → HaveSameSums (kept_samples table.now.names table.now.stacks sums.now) samples
            → ranked_samples merged ≡ merged_samples samples) }
    {
        let NameRanks { names, ranks } = NameRanks::of_table(alloc, table)?;
        let rows = rows_of_sums(alloc, table, sums, &ranks)?;
        MergedStacks::merged(alloc, names, rows, sorting)
    }

    /// The merged stacks of the samples that rows have the sums of.
    fn merged<S: Sorting>(
        alloc: Global,
        names: Vec<String>,
        rows: RankedRows,
        sorting: &S,
    ) -> Result<MergedStacks, AllocError>
        requires rising { AreRising (map string_bytes names.items) }
        requires sums { (samples : List Sample) × HasSums (map string_bytes names.items) samples rows
            × (total_weight samples < 2 ^ 64) }
        ensures { IfOk result (λ merged. (samples : List Sample)
            → HasSums (map string_bytes names.items) samples rows
            → ranked_samples merged ≡ merged_samples samples) }
    {
        let rows = rows.merged(alloc, sorting)?;
        Ok(MergedStacks { names, rows })
    }

    /// No stacks, over some names.
    pub(crate) fn none(alloc: Global, names: Vec<String>) -> MergedStacks
        requires { AreRising (map string_bytes names.items) }
        ensures { result.names ≡ map string_bytes names.items }
    {
        MergedStacks {
            names,
            rows: RankedRows::new(alloc),
        }
    }

    /// Puts other stacks of the same names in their place.
    pub(crate) fn put(&mut self, rows: RankedRows)
        requires { AreMerged self.old.names rows }
        ensures { self.new ≡ record self.old { rows = rows } }
    {
        self.rows = rows;
    }

    /// The sum of all weights.
    pub fn total(&self) -> u64
        ensures { result ≡ total_weight (ranked_samples self.now) }
    {
        let _names = &self.names;
        self.rows.total()
    }

    /// How many names there are. Some may stand in no stack.
    pub fn name_count(&self) -> usize
        ensures count { result ≡ length self.now.names }
        ensures rising { AreRising self.now.names }
        ensures known { NamesEachRank self.now }
    {
        let _rows = &self.rows;
        self.names.len()
    }

    /// The name of a rank.
    pub fn name_of(&self, rank: usize) -> &str
        requires { rank < length self.now.names }
        ensures { result.now ≡ name_at self.now.names rank }
    {
        let _rows = &self.rows;
        self.names[rank].as_str()
    }

    /// The ranks of the names of stack `at`, root first.
    pub fn ranks(&self, at: usize) -> &[u32]
        requires { at < length self.now.rows }
        ensures value { result.now ≡ ranks_at self.now at }
        ensures limit { length result.now ≤ FRAME_LIMIT }
        ensures known { All (λ rank. rank < length self.now.names) result.now }
    {
        let _names = &self.names;
        self.rows.ranks(at)
    }

    /// The rank of the name of a frame of stack `at`.
    fn rank(&self, at: usize, frame: usize) -> u32
        requires at { at < length self.now.rows }
        requires deep { frame < length (ranks_at self.now at) }
        ensures known { result < length self.now.names }
        ensures value { result ≡ slice_index (ranks_at self.now at) frame }
    {
        self.ranks(at)[frame]
    }
}

impl StackRows for MergedStacks {
    ghost samples = { λ merged. ranked_samples merged };

    fn len(&self) -> usize
        ensures count { result ≡ length (ranked_samples self.now) }
        ensures in_order { IsTrue (are_in_order (weighed (ranked_samples self.now))) }
        ensures positive { All (λ sample. 0 < sample.weight) (ranked_samples self.now) }
        ensures total { total_weight (ranked_samples self.now) < 2 ^ 64 }
    {
        let _names = &self.names;
        self.rows.len()
    }

    fn weight(&self, at: usize) -> u64 {
        let _names = &self.names;
        self.rows.weight(at)
    }

    fn depth(&self, at: usize) -> usize {
        self.ranks(at).len()
    }

    fn name(&self, at: usize, frame: usize) -> &str {
        self.name_of(self.rank(at, frame) as usize)
    }

    /// No two names are the same, so their ranks tell.
    fn is_same_name(&self, at: usize, later: usize, frame: usize) -> bool {
        let _count = self.name_count();
        self.rank(at, frame) == self.rank(later, frame)
    }
}

/// No rows, and room to remember those of some lists. A list by itself keeps each stack once.
fn rows_for(alloc: Global, lists: &[SourceList]) -> Result<GatheredRows, AllocError>
    ensures { IfOk result (λ rows. rows ≡ []) }
{
    let mut most = 0usize;
    for list in lists {
        most = most.max(list.stack_count());
    }
    let room = if lists.len() > 1 {
        most.saturating_mul(2)
    } else {
        0
    };
    GatheredRows::with_room(alloc, room)
}

/// The samples of all lists, by the ranks of their names.
fn ranked(alloc: Global, lists: &[SourceList], ranks: &[u32]) -> Result<RankedRows, AllocError>
    requires ranks { length ranks.now ≡ length (all_told lists.now) }
    requires total { total_weight (all_samples (samples_of lists.now)) < 2 ^ 64 }
    ensures { IfOk result (λ rows. (names : List (List ℕ)) → IsNamedBy names ranks.now (all_told lists.now)
        → HasSums names (all_samples (samples_of lists.now)) rows) }
{
    let mut rows = rows_for(alloc, lists)?;
    let mut rest = ranks;
    for list in lists {
        let (own, others) = rest.split_at(list.told());
        add_list(alloc, &mut rows, list, own)?;
        rest = others;
    }
    Ok(rows.into_rows())
}

/// The same of lists that are given up one after another.
fn ranked_out(
    alloc: Global,
    mut lists: Vec<SourceList>,
    ranks: Vec<u32>,
) -> Result<RankedRows, AllocError>
    requires ranks { length ranks.items ≡ length (all_told lists.items) }
    requires total { total_weight (all_samples (samples_of lists.items)) < 2 ^ 64 }
    ensures { IfOk result (λ rows. (names : List (List ℕ)) → IsNamedBy names ranks.items (all_told lists.items)
        → HasSums names (all_samples (samples_of lists.items)) rows) }
{
    let mut rows = rows_for(alloc, &lists)?;
    let mut rest = ranks.as_slice();
    'each: while !lists.is_empty() {
        let list = lists.remove(0);
        let (own, others) = rest.split_at(list.told());
        give_list(alloc, &mut rows, list, own)?;
        rest = others;
    }
    Ok(rows.into_rows())
}
