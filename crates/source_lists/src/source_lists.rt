//! What a run collected of its sources.

ghost use Rattle.std.specs.Prelude.{◌≡◌, ◌<◌, ◌≤◌, ◌^◌, ◌∷◌, [], All, IfOk, length, map};
ghost use Rattle.stack_core.specs.Interleaving.{IsInterleaving};
ghost use Rattle.stack_core.specs.Reading.{IsSourceLimited};
ghost use Rattle.sample_tables.specs.Samples.{IsLimited};
ghost use Rattle.sample_tables.specs.declared.samples.TheConstants.{WEIGHT_LIMIT};
ghost use Rattle.merged_stacks.specs.Merged.{all_samples};
ghost use Rattle.merged_stacks.specs.Timeline.{samples_of, timeline, total_weight};
ghost use Rattle.ring_collect.specs.Collection.{seen_as_rest};
ghost use Rattle.run_options.specs.Filters.{kept_rest};
ghost use Rattle.source_lists.specs.Lists.{AreLimited};
ghost use Rattle.source_lists.specs.OmittedNames.{shown_rests};
ghost use Rattle.source_lists.specs.checked.CutStacks.{edited_rest, shown_stack};
ghost use Rattle.source_lists.specs.checked.KeptStacks.{passes, passing_rest};

use crate::cut_lists::cut_lists;
use crate::kept_lists::kept_lists;
use crate::kept_order::kept_order;
use crate::kept_stacks::{Keeping, all_kept_stacks};
use merged_stacks::total_weight;
use ring_collect::Collected;
use run_options::Filter;
use stack_core::{Names, SourceList, Text};
use std::alloc::{AllocError, Global};
use std::marker::Model;

/// The lists of a run, one for each source, and the order in which their samples came. No call takes memory.
#[derive(Drop)]
pub struct SourceLists {
    lists: Vec<SourceList>,
    order: Vec<u32>,
}

impl Model for SourceLists {
    ghost use Rattle.source_lists.specs.Lists.{ListsState, AreOrdered};

    ghost Value = { ListsState };

    ghost view = { λ s. record { lists = s.lists.items; order = s.order.items } };

    ghost invariant = { λ s. AreOrdered s.lists.items s.order.items };
}

impl SourceLists {
    /// What a run collected.
    pub(crate) fn of(run: Collected) -> SourceLists
        requires few { length run.lists.items ≤ 64 }
        requires totals { All (λ list. total_weight list.samples ≤ WEIGHT_LIMIT) run.lists.items }
        requires ordered { IsInterleaving run.order.items (samples_of run.lists.items) }
        ensures { result ≡ record { lists = run.lists.items; order = run.order.items } }
    {
        recall_limits(&run.lists);
        SourceLists {
            lists: run.lists,
            order: run.order,
        }
    }

    /// The one list of a run, whatever the order in which its samples came.
    pub(crate) fn of_one(alloc: Global, list: SourceList) -> Result<SourceLists, AllocError>
        requires { IsSourceLimited list.samples }
        ensures { IfOk result (λ run. run.lists ≡ list ∷ []) }
    {
        let order = vec![in alloc; 0u32; list.len()]?;
        let mut lists = Vec::new(alloc);
        lists.push(list)?;
        Ok(SourceLists { lists, order })
    }

    /// What a filter keeps of the samples, in the order in which they came.
    pub(crate) fn kept(self, alloc: Global, filter: &Filter) -> Result<SourceLists, AllocError>
        ensures { IfOk result (λ left. map seen_as_rest left.lists
            ≡ map (kept_rest filter.now) (map seen_as_rest self.lists)) }
    {
        if filter.is_everything() {
            return Ok(self);
        }
        self.keeping(alloc, Keeping::Filtered(filter))
    }

    /// Some of the samples, in the order in which they came.
    fn keeping(self, alloc: Global, keeping: Keeping<'_>) -> Result<SourceLists, AllocError>
        ensures { IfOk result (λ left. map seen_as_rest left.lists
            ≡ map (passing_rest (passes keeping.entry)) (map seen_as_rest self.lists)) }
    {
        let SourceLists { lists, order } = self;
        let kept = all_kept_stacks(alloc, &lists, keeping)?;
        let order = kept_order(alloc, &order, &lists, &kept)?;
        let lists = kept_lists(alloc, &lists, &kept)?;
        Ok(SourceLists { lists, order })
    }

    /// The same samples in the same order, with each stack cut.
    fn cut(
        self,
        alloc: Global,
        from: &Option<Text>,
        omitted: &Names,
    ) -> Result<SourceLists, AllocError>
        ensures { IfOk result (λ left. map seen_as_rest left.lists
            ≡ map (edited_rest (shown_stack from.now omitted.now)) (map seen_as_rest self.lists)) }
    {
        let SourceLists { lists, order } = self;
        let lists = cut_lists(alloc, &lists, from, omitted)?;
        Ok(SourceLists { lists, order })
    }

    /// The samples from their first frame of a whole name on, without those that have none; all of them where no name is given. The
    /// frames of the names that are omitted are taken out of what is left of each stack. The samples stay in the order in which they
    /// came.
    pub fn shown(
        self,
        alloc: Global,
        from: &Option<Text>,
        omitted: &Names,
    ) -> Result<SourceLists, AllocError>
        ensures lists { IfOk result (λ left. map seen_as_rest left.lists
            ≡ shown_rests from.now omitted.now (map seen_as_rest self.lists)) }
        ensures count { IfOk result (λ left. length left.lists ≡ length self.lists) }
        ensures order { IfOk result (λ left.
            IsInterleaving left.order (samples_of left.lists)) }
    {
        if from.is_some() {
            self.keeping(alloc, Keeping::Begun(from))?
                .cut(alloc, from, omitted)
        } else if omitted.get().is_empty() {
            Ok(self)
        } else {
            self.cut(alloc, from, omitted)
        }
    }

    /// One list for each source, in their order.
    pub fn lists(&self) -> &[SourceList]
        ensures lists { result.now ≡ self.now.lists }
        ensures limits { AreLimited self.now.lists }
        ensures total { total_weight (all_samples (samples_of self.now.lists)) < 2 ^ 64 }
        ensures timeline { total_weight (timeline (samples_of self.now.lists)) < 2 ^ 64 }
    {
        &self.lists
    }

    /// The lists alone.
    pub fn into_lists(self) -> Vec<SourceList>
        ensures lists { result.items ≡ self.lists }
        ensures total { total_weight (all_samples (samples_of self.lists)) < 2 ^ 64 }
    {
        let _lists = self.lists();
        let SourceLists {
            lists,
            order: _order,
        } = self;
        lists
    }

    /// The source of each sample, in the order in which the samples came out of the rings.
    pub fn order(&self) -> &[u32]
        ensures order { result.now ≡ self.now.order }
        ensures ordered { IsInterleaving self.now.order (samples_of self.now.lists) }
    {
        &self.order
    }

    /// The sum of all weights.
    pub fn total(&self) -> u64
        ensures total { result ≡ total_weight (all_samples (samples_of self.now.lists)) }
        ensures timeline { result ≡ total_weight (timeline (samples_of self.now.lists)) }
    {
        total_weight(self.lists())
    }
}

/// For contracts alone: the samples of lists are limited, each by itself.
fn recall_limits(lists: &[SourceList])
    ensures { All (λ list. All IsLimited list.samples) lists.now }
{
    for list in lists {
        let _count = list.len();
    }
}
