//! The lists of a run while they are shown.
ghost use Rattle.std.specs.Prelude.{◌≡◌, IfOk};
ghost use Rattle.flame_layout.specs.Paths.{SameOwn};
ghost use Rattle.merged_stacks.specs.RankedStacks.{ranked_samples};
ghost use Rattle.merged_stacks.specs.Timeline.{samples_of, total_weight};
ghost use Rattle.merging.specs.Sums.{all_samples};

use crate::workers::merge;
use merged_stacks::{MergedStacks, Sorting};
use source_lists::SourceLists;
use std::alloc::{AllocError, Global};
use std::marker::Model;

/// The lists of a run that are shown: lent, or given up where their merged stacks alone are shown.
/// Contracts see the lists.
#[derive(Drop)]
pub struct Shown<'a> {
    held: Held<'a>,
}

// How they are held.
#[derive(Drop)]
enum Held<'a> {
    Lent(&'a SourceLists),
    Given(SourceLists),
}

impl<'a> Model for Shown<'a> {
    ghost use Rattle.source_lists.specs.Lists.{ListsState};
    ghost use Rattle.source_views.specs.checked.HeldLists.{held_lists};

    ghost Value = { ListsState };

    ghost view = { λ s. held_lists s.held };
}

impl<'a> Shown<'a> {
    /// Lists that are needed on.
    pub fn lent(sources: &'a SourceLists) -> Self
        ensures { result ≡ sources.now }
    {
        Shown {
            held: Held::Lent(sources),
        }
    }

    /// Lists that nothing else needs.
    pub fn given(sources: SourceLists) -> Self
        ensures { result ≡ sources }
    {
        Shown {
            held: Held::Given(sources),
        }
    }

    /// Lends the lists.
    pub fn get(&self) -> &SourceLists
        ensures { result.now ≡ self.now }
    {
        match &self.held {
            Held::Lent(sources) => sources,
            Held::Given(sources) => sources,
        }
    }

    /// The sum of all weights.
    pub(crate) fn total(&self) -> u64
        ensures { result ≡ total_weight (all_samples (samples_of self.now.lists)) }
    {
        self.get().total()
    }

    /// The stacks of all samples, each once.
    pub fn merged<S: Sorting>(self, sorting: &S, alloc: Global) -> Result<MergedStacks, AllocError>
        ensures { IfOk result (λ merged.
            SameOwn (all_samples (samples_of self.entry.lists)) (ranked_samples merged)) }
    {
        let Shown { held } = self;
        match held {
            Held::Lent(sources) => merge(sorting, alloc, sources),
            Held::Given(sources) => merge_given(sorting, alloc, sources),
        }
    }
}

/// The stacks of all samples of lists that are given up, each once. The lists are let go before the stacks are sorted.
pub fn merge_given<S: Sorting>(
    sorting: &S,
    alloc: Global,
    sources: SourceLists,
) -> Result<MergedStacks, AllocError>
    ensures { IfOk result (λ merged.
        SameOwn (all_samples (samples_of sources.lists)) (ranked_samples merged)) }
{
    MergedStacks::from_lists(alloc, sources.into_lists(), sorting)
}
