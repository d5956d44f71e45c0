//! What a run collected, merged.

ghost use Rattle.std.specs.Prelude.{◌≡◌, ◌≤◌, ℕ, All, IfOk, IfSome};
ghost use Rattle.stack_core.specs.Interleaving.{IsInterleaving};
ghost use Rattle.call_tree.specs.FrameTable.{HasDistinctNames};
ghost use Rattle.merged_stacks.specs.Timeline.{samples_of};
ghost use Rattle.merging.specs.Snapshots.{snapshot_samples, AreSnapshots};
ghost use Rattle.merging.specs.Sums.{all_samples, HasSumsOf, IsDrawable};
ghost use Rattle.source_lists.specs.Lists.{AreLimited};

use crate::list_samples::feed_lists;
use crate::snapshots::Snapshot;
use crate::tree_sink::TreeSink;
use call_tree::{CallTree, FrameTable};
use source_lists::SourceLists;
use stack_core::SourceList;
use std::alloc::{AllocError, Global};
use std::marker::Model;

/// What a run collected and merged: the lists, the order, the tree and the snapshots, without boxes. No
/// call takes memory.
#[derive(Drop)]
pub struct Gathered {
    sources: SourceLists,
    sink: TreeSink,
}

impl Model for Gathered {
    ghost use Rattle.std.specs.Coded.{codes};
    ghost use Rattle.call_tree.specs.contracts.tree.CallTree as call_tree;
    ghost use Rattle.merging.specs.contracts.snapshots.Snapshot as snapshot;
    ghost use Rattle.merging.specs.Gathered.{GatheredState, IsGathered};

    ghost Value = { GatheredState };

    ghost coded = { Prim.hlevel (codes, snapshot.the_row.coded, call_tree.the_row.coded) };

    ghost view = { λ g. record {
      lists = g.sources.lists;
      order = g.sources.order;
      every = g.sink.every;
      names = g.sink.names;
      tree = g.sink.tree;
      snapshots = g.sink.snapshots;
    } };

    ghost invariant = { λ g.
        IsGathered g.sources.lists g.sources.order g.sink.every g.sink.names g.sink.tree
        g.sink.snapshots };
}

impl Gathered {
    /// Merges what a run collected, in the order in which its samples came: the tree and the snapshots are those
    /// that they would have if the samples had been merged as they arrived.
    pub fn of_lists(
        alloc: Global,
        sources: SourceLists,
        every: Option<u64>,
    ) -> Result<Gathered, AllocError>
        requires { IfSome every (λ every. 1 ≤ every) }
        ensures lists { IfOk result (λ gathered. gathered.lists ≡ sources.lists) }
        ensures order { IfOk result (λ gathered. gathered.order ≡ sources.order) }
        ensures every { IfOk result (λ gathered. gathered.every ≡ every) }
        ensures snapshots { IfOk result (λ gathered.
            AreSnapshots every gathered.names sources.order
            (λ m. snapshot_samples m sources.order (samples_of sources.lists)) gathered.snapshots) }
        ensures merged_totals { IfOk result (λ gathered.
            HasSumsOf gathered.names gathered.tree (all_samples (samples_of sources.lists))) }
    {
        let mut sink = TreeSink::new(alloc, every)?;
        feed_lists(alloc, sources.lists(), sources.order(), &mut sink)?;
        sink.recall_merged();
        Ok(Gathered { sources, sink })
    }

    /// What was collected, without what was merged.
    pub fn sources(&self) -> &SourceLists
        ensures { result.now ≡ record { lists = self.now.lists; order = self.now.order } }
    {
        &self.sources
    }

    /// One list for each source, in their order.
    pub fn lists(&self) -> &[SourceList]
        ensures lists { result.now ≡ self.now.lists }
        ensures limits { AreLimited self.now.lists }
    {
        self.sources.lists()
    }

    /// The source of each sample, in the order in which the samples came out of the rings.
    pub fn order(&self) -> &[u32]
        ensures order { result.now ≡ self.now.order }
        ensures ordered { IsInterleaving self.now.order (samples_of self.now.lists) }
    {
        self.sources.order()
    }

    /// After how many samples more there is a snapshot, if there are any.
    pub fn every(&self) -> Option<u64>
        ensures every { result ≡ self.now.every }
        ensures positive { IfSome self.now.every (λ every. 1 ≤ every) }
    {
        self.sink.every()
    }

    /// The names of all frames.
    pub fn table(&self) -> &FrameTable
        ensures names { result.now ≡ self.now.names }
        ensures distinct { HasDistinctNames self.now.names }
    {
        self.sink.table()
    }

    /// The merged samples of all lists.
    pub fn tree(&self) -> &CallTree
        ensures tree { result.now ≡ self.now.tree }
        ensures sums { HasSumsOf self.now.names self.now.tree
            (all_samples (samples_of self.now.lists)) }
        ensures drawable { IsDrawable self.now.names self.now.tree }
    {
        self.sink.tree()
    }

    /// The snapshots, in the order in which they were made.
    pub fn snapshots(&self) -> &[Snapshot]
        ensures snapshots { result.now ≡ self.now.snapshots }
        ensures made { AreSnapshots self.now.every self.now.names self.now.order
            (λ m. snapshot_samples m self.now.order (samples_of self.now.lists))
            self.now.snapshots }
        ensures drawable { All (λ snapshot.
            IsDrawable self.now.names snapshot.tree) self.now.snapshots }
    {
        self.sink.snapshots()
    }
}
