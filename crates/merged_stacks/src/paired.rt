//! The stacks of two lists side by side, over one table of names.

ghost use Rattle.std.specs.Prelude.{◌≡◌, ◌↔◌, ◌<◌, ◌≤◌, ◌^◌, ℕ, List, IfOk, IsTrue, length};
ghost use Rattle.sample_tables.specs.declared.samples.TheConstants.{FRAME_LIMIT};
ghost use Rattle.sample_tables.specs.Rows.{name_at};
ghost use Rattle.merged_stacks.specs.Timeline.{total_weight};
ghost use Rattle.merged_stacks.specs.Paired.{paired_stacks, pair_at};
ghost use Rattle.merged_stacks.specs.Order.{AreRising};
ghost use Rattle.merged_stacks.specs.checked.Ranked.{IsNamedBy};
ghost use Rattle.merged_stacks.specs.checked.Swept.{HasStacks};

use crate::list_sums::add_list;
use crate::sweeps::{Place, place_ranks, sweep, weight_after, weight_before};
use ranked_rows::{GatheredRows, NameRanks, RankedRows, Sorting};
use stack_core::SourceList;
use std::alloc::{AllocError, Global};
use std::marker::Model;

/// The stacks of two lists side by side: each stack with weight in either list once, sorted by the
/// names, with the sums of its samples in both. Contracts see them as a list.
#[derive(Drop)]
pub struct PairedStacks {
    names: Vec<String>,
    lefts: RankedRows,
    rights: RankedRows,
    places: Vec<Place>,
}

impl Model for PairedStacks {
    ghost use Rattle.std.specs.Prelude.{List, map, string_bytes};
    ghost use Rattle.merged_stacks.specs.Paired.{PairedStack};
    ghost use Rattle.merged_stacks.specs.checked.Swept.{place_row, paired_of, ArePaired};

    ghost Value = { List PairedStack };

    ghost view = { λ p. map (λ place. paired_of (map string_bytes p.names.items) (place_row p.lefts p.rights place)) p.places.items };

    ghost invariant = { λ p. ArePaired (map string_bytes p.names.items) p.lefts p.rights p.places.items };
}

impl PairedStacks {
    /// The stacks of both lists.
    pub fn of<S: Sorting>(
        alloc: Global,
        before: &SourceList,
        after: &SourceList,
        sorting: &S,
    ) -> Result<PairedStacks, AllocError>
        requires before { total_weight before.now.samples < 2 ^ 64 }
        requires after { total_weight after.now.samples < 2 ^ 64 }
        ensures { IfOk result (λ paired. paired ≡ paired_stacks before.now.samples after.now.samples) }
    {
        let NameRanks { names, ranks } = NameRanks::of_pair(alloc, before, after)?;
        let (of_before, of_after) = ranks.split_at(before.told());
        let lefts = merged_rows(alloc, before, of_before, sorting)?;
        let rights = merged_rows(alloc, after, of_after, sorting)?;
        let places = sweep(alloc, &lefts, &rights)?;
        Ok(PairedStacks {
            names,
            lefts,
            rights,
            places,
        })
    }

    /// How many stacks there are.
    pub fn len(&self) -> usize
        ensures { result ≡ length self.now }
    {
        self.places.len()
    }

    /// How many frames stack `at` has.
    pub fn depth(&self, at: usize) -> usize
        requires { at < length self.now }
        ensures value { result ≡ length (pair_at self.now at).stack }
        ensures limit { result ≤ FRAME_LIMIT }
    {
        let _names = &self.names;
        place_ranks(&self.lefts, &self.rights, self.places[at]).len()
    }

    /// The name of a frame of stack `at`. The root frame is frame 0.
    pub fn name(&self, at: usize, frame: usize) -> &str
        requires at { at < length self.now }
        requires deep { frame < length (pair_at self.now at).stack }
        ensures { result.now ≡ name_at (pair_at self.now at).stack frame }
    {
        let rank = place_ranks(&self.lefts, &self.rights, self.places[at])[frame];
        self.names[rank as usize].as_str()
    }

    /// Whether a frame has the same name in two stacks. No two names are the same, so their ranks
    /// tell.
    pub fn is_same_name(&self, at: usize, later: usize, frame: usize) -> bool
        requires at { at < length self.now }
        requires later { later < length self.now }
        requires deep { frame < length (pair_at self.now at).stack }
        requires later_deep { frame < length (pair_at self.now later).stack }
        ensures { IsTrue result ↔ (name_at (pair_at self.now at).stack frame
            ≡ name_at (pair_at self.now later).stack frame) }
    {
        let _names = &self.names;
        let one = place_ranks(&self.lefts, &self.rights, self.places[at]);
        let other = place_ranks(&self.lefts, &self.rights, self.places[later]);
        one[frame] == other[frame]
    }

    /// The sum of the samples of stack `at` in the first list.
    pub fn before(&self, at: usize) -> u64
        requires { at < length self.now }
        ensures { result ≡ (pair_at self.now at).before }
    {
        let _names = &self.names;
        weight_before(&self.lefts, &self.rights, self.places[at])
    }

    /// The same in the second list.
    pub fn after(&self, at: usize) -> u64
        requires { at < length self.now }
        ensures { result ≡ (pair_at self.now at).after }
    {
        let _names = &self.names;
        weight_after(&self.lefts, &self.rights, self.places[at])
    }
}

/// The rows of a list, by the ranks of its told names: each stack with weight once, in order.
fn merged_rows<S: Sorting>(
    alloc: Global,
    list: &SourceList,
    ranks: &[u32],
    sorting: &S,
) -> Result<RankedRows, AllocError>
    requires named { (names : List (List ℕ)) × IsNamedBy names ranks.now list.now.told }
    requires total { total_weight list.now.samples < 2 ^ 64 }
    ensures { IfOk result (λ rows. (names : List (List ℕ)) → AreRising names
        → IsNamedBy names ranks.now list.now.told → HasStacks names list.now.samples rows) }
{
    let mut rows = GatheredRows::with_room(alloc, 0)?;
    add_list(alloc, &mut rows, list, ranks)?;
    rows.into_rows().merged(alloc, sorting)
}
