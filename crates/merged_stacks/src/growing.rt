//! Lists whose samples come one after another, and their merged stacks at any moment.

ghost use Rattle.std.specs.Prelude.{◌≡◌, ◌+◌, ◌<◌, ◌^◌, ℕ, List, IfOk, OnOk, length, map, replicate, slice_index, slice_set};
ghost use Rattle.stack_core.specs.Interleaving.{list_of};
ghost use Rattle.merged_stacks.specs.Timeline.{total_weight, samples_of};
ghost use Rattle.merged_stacks.specs.Merged.{all_samples, merged_samples};
ghost use Rattle.merged_stacks.specs.Fronts.{fronts};
ghost use Rattle.merged_stacks.specs.RankedStacks.{ranked_samples};
ghost use Rattle.merged_stacks.specs.checked.Ranks.{all_told};
ghost use Rattle.merged_stacks.specs.checked.Ranked.{HasSums, IsNamedBy};
ghost use Rattle.merged_stacks.specs.checked.Growing.{not_begun, came, lists_in};

use crate::list_sums::ListSums;
use crate::merged::MergedStacks;
use ranked_rows::{Alone, GatheredRows, NameRanks, RankedRows};
use stack_core::SourceList;
use std::alloc::{AllocError, Global};
use std::marker::Model;

/// Lists whose samples come one after another, and the stacks of those that came, merged at any moment.
/// The names of all lists are ranked once, the stacks of each list are sorted once, and a sample that
/// comes takes no memory. Contracts see the samples of each list, and how many of them came.
#[derive(Drop)]
pub struct GrowingStacks<'a> {
    merged: MergedStacks,
    ranks: Vec<u32>,
    parts: Vec<ListSums<'a>>,
    counts: Vec<u64>,
}

impl<'a> Model for GrowingStacks<'a> {
    ghost use Rattle.merged_stacks.specs.Fronts.{GrowingState};
    ghost use Rattle.merged_stacks.specs.Timeline.{samples_of};
    ghost use Rattle.merged_stacks.specs.checked.Growing.{lists_in, AreGrowing};

    ghost Value = { GrowingState };

    ghost view = { λ g. record { lists = samples_of (lists_in g.parts.items); counts = g.counts.items; merged = g.merged } };

    ghost invariant = { λ g. AreGrowing g.parts.items g.counts.items g.merged.names g.ranks.items };
}

impl<'a> GrowingStacks<'a> {
    /// Of these lists nothing came yet.
    pub fn of(alloc: Global, lists: &'a [SourceList]) -> Result<GrowingStacks<'a>, AllocError>
        requires { total_weight (all_samples (samples_of lists.now)) < 2 ^ 64 }
        ensures lists { IfOk result (λ growing. growing.lists ≡ samples_of lists.now) }
        ensures counts { IfOk result (λ growing. growing.counts ≡ replicate (length lists.now) 0) }
    {
        let NameRanks { names, ranks } = NameRanks::of(alloc, lists)?;
        let parts = parts_of(alloc, lists, &ranks)?;
        let counts = vec![in alloc; 0; lists.len()]?;
        Ok(GrowingStacks {
            merged: MergedStacks::none(alloc, names),
            ranks,
            parts,
            counts,
        })
    }

    /// The next sample of a list comes.
    pub fn take(&mut self, source: usize)
        requires source { source < length self.old.lists }
        requires more { slice_index self.old.counts source < length (list_of self.old.lists source) }
        ensures lists { self.new.lists ≡ self.old.lists }
        ensures counts { self.new.counts
            ≡ slice_set self.old.counts source (slice_index self.old.counts source + 1) }
    {
        self.parts[source].take();
        self.counts[source] = self.parts[source].count();
    }

    /// How many samples of each list came.
    pub fn counts(&self) -> &[u64]
        ensures { result.now ≡ self.now.counts }
    {
        &self.counts
    }

    /// Merges the stacks of what came, each with weight once, in order.
    pub fn merge(&mut self, alloc: Global) -> Result<(), AllocError>
        ensures merged { OnOk result (ranked_samples self.new.merged
            ≡ merged_samples (all_samples (fronts self.old.lists self.old.counts))) }
        ensures lists { self.new.lists ≡ self.old.lists }
        ensures counts { self.new.counts ≡ self.old.counts }
    {
        let rows = came_rows(alloc, &self.parts, &self.ranks)?;
        self.merged.put(rows.merged(alloc, &Alone)?);
        Ok(())
    }

    /// The stacks that were merged last.
    pub fn merged(&self) -> &MergedStacks
        ensures { result.now ≡ self.now.merged }
    {
        let _parts = &self.parts;
        &self.merged
    }
}

/// The lists, of which nothing came yet. The ranks are those of the names that they were told.
fn parts_of<'a>(
    alloc: Global,
    lists: &'a [SourceList],
    ranks: &[u32],
) -> Result<Vec<ListSums<'a>>, AllocError>
    requires total { total_weight (all_samples (samples_of lists.now)) < 2 ^ 64 }
    requires ranks { length ranks.now ≡ length (all_told lists.now) }
    ensures { IfOk result (λ parts. parts.items ≡ map not_begun lists.now) }
{
    let mut parts = Vec::new(alloc);
    let mut rest = ranks;
    for list in lists {
        let (own, others) = rest.split_at(list.told());
        parts.push(ListSums::sorted(alloc, list, own)?)?;
        rest = others;
    }
    Ok(parts)
}

/// The samples that came of all lists, by the ranks of their names.
fn came_rows(alloc: Global, parts: &[ListSums<'_>], ranks: &[u32]) -> Result<RankedRows, AllocError>
    requires { length ranks.now ≡ length (all_told (lists_in parts.now)) }
    ensures { IfOk result (λ rows. (names : List (List ℕ))
        → IsNamedBy names ranks.now (all_told (lists_in parts.now))
        → HasSums names (all_samples (map came parts.now)) rows) }
{
    let mut rows = GatheredRows::with_room(alloc, 0)?;
    let mut rest = ranks;
    for part in parts {
        let (own, others) = rest.split_at(part.told());
        part.add_to(&mut rows, own)?;
        rest = others;
    }
    Ok(rows.into_rows())
}
