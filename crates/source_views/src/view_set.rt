//! The views of a run: its lists, their merged tree, flame graph and flame chart.

ghost use Rattle.std.specs.Prelude.{◌≡◌, ◌≤◌, ℕ, All, IfOk, IfSome};
ghost use Rattle.stack_core.specs.Interleaving.{IsInterleaving};
ghost use Rattle.call_tree.specs.FrameTable.{HasDistinctNames};
ghost use Rattle.merged_stacks.specs.Timeline.{samples_of, timeline};
ghost use Rattle.flame_layout.specs.Chart.{chart_of};
ghost use Rattle.flame_layout.specs.Graph.{graph_of};
ghost use Rattle.merging.specs.Snapshots.{snapshot_samples, AreSnapshots};
ghost use Rattle.merging.specs.Sums.{all_samples, HasSumsOf, IsDrawable};
ghost use Rattle.source_lists.specs.Lists.{AreLimited};

use crate::drawings::{draw_chart, draw_graph};
use call_tree::{CallTree, FrameTable};
use flame_layout::SpanBox;
use merging::{Gathered, Snapshot};
use source_lists::SourceLists;
use stack_core::SourceList;
use std::alloc::{AllocError, Global};
use std::marker::Model;

/// What is seen of a run. No call takes memory.
#[derive(Drop)]
pub struct Views {
    gathered: Gathered,
    graph: Vec<SpanBox>,
    chart: Vec<SpanBox>,
}

impl Model for Views {
    ghost use Rattle.std.specs.Coded.{codes};
    ghost use Rattle.call_tree.specs.contracts.tree.CallTree as call_tree;
    ghost use Rattle.merging.specs.contracts.snapshots.Snapshot as snapshot;
    ghost use Rattle.source_views.specs.Views.{ViewsState, AreBoxesOf};

    ghost Value = { ViewsState };

    ghost coded = { Prim.hlevel (codes, snapshot.the_row.coded, call_tree.the_row.coded) };

    ghost view = { λ v. record {
      lists = v.gathered.lists;
      order = v.gathered.order;
      every = v.gathered.every;
      names = v.gathered.names;
      tree = v.gathered.tree;
      snapshots = v.gathered.snapshots;
      graph = v.graph.items;
      chart = v.chart.items;
    } };

    ghost invariant = { λ v. AreBoxesOf v.gathered.lists v.graph.items v.chart.items };
}

impl Views {
    /// What is seen of these lists.
    pub(crate) fn of(
        alloc: Global,
        sources: SourceLists,
        every: Option<u64>,
    ) -> Result<Views, AllocError>
        requires { IfSome every (λ every. 1 ≤ every) }
        ensures lists { IfOk result (λ views. views.lists ≡ sources.lists) }
        ensures order { IfOk result (λ views. views.order ≡ sources.order) }
        ensures every { IfOk result (λ views. views.every ≡ every) }
        ensures snapshots { IfOk result (λ views.
            AreSnapshots every views.names sources.order
            (λ m. snapshot_samples m sources.order (samples_of sources.lists)) views.snapshots) }
        ensures merged_totals { IfOk result (λ views.
            HasSumsOf views.names views.tree (all_samples (samples_of sources.lists))) }
        ensures graph { IfOk result (λ views.
            views.graph ≡ graph_of (all_samples (samples_of sources.lists))) }
        ensures chart { IfOk result (λ views.
            views.chart ≡ chart_of (timeline (samples_of sources.lists))) }
    {
        let graph = draw_graph(alloc, &sources)?;
        let chart = draw_chart(alloc, &sources)?;
        let gathered = Gathered::of_lists(alloc, sources, every)?;
        Ok(Views {
            gathered,
            graph,
            chart,
        })
    }

    /// What was gathered, without boxes.
    pub fn gathered(&self) -> &Gathered
        ensures { result.now ≡ record {
          lists = self.now.lists;
          order = self.now.order;
          every = self.now.every;
          names = self.now.names;
          tree = self.now.tree;
          snapshots = self.now.snapshots;
        } }
    {
        &self.gathered
    }

    /// One list for each source, in their order.
    pub fn lists(&self) -> &[SourceList]
        ensures lists { result.now ≡ self.now.lists }
        ensures limits { AreLimited self.now.lists }
    {
        self.gathered.lists()
    }

    /// The source of each sample, in the order in which the samples came out of the rings.
    pub fn order(&self) -> &[u32]
        ensures order { result.now ≡ self.now.order }
        ensures ordered { IsInterleaving self.now.order (samples_of self.now.lists) }
    {
        self.gathered.order()
    }

    /// The names of all frames.
    pub fn table(&self) -> &FrameTable
        ensures names { result.now ≡ self.now.names }
        ensures distinct { HasDistinctNames self.now.names }
    {
        self.gathered.table()
    }

    /// The merged samples of all lists, under the numbers of the table.
    pub fn tree(&self) -> &CallTree
        ensures tree { result.now ≡ self.now.tree }
        ensures sums { HasSumsOf self.now.names self.now.tree
            (all_samples (samples_of self.now.lists)) }
        ensures drawable { IsDrawable self.now.names self.now.tree }
    {
        self.gathered.tree()
    }

    /// The boxes of the flame graph of all lists.
    pub fn graph(&self) -> &[SpanBox]
        ensures boxes { result.now ≡ self.now.graph }
        ensures graph { self.now.graph ≡ graph_of (all_samples (samples_of self.now.lists)) }
    {
        &self.graph
    }

    /// The boxes of the flame chart of the lists, one after another.
    pub fn chart(&self) -> &[SpanBox]
        ensures boxes { result.now ≡ self.now.chart }
        ensures chart { self.now.chart ≡ chart_of (timeline (samples_of self.now.lists)) }
    {
        &self.chart
    }

    /// The snapshots, in the order in which they were made.
    pub fn snapshots(&self) -> &[Snapshot]
        ensures snapshots { result.now ≡ self.now.snapshots }
        ensures made { AreSnapshots self.now.every self.now.names self.now.order
            (λ m. snapshot_samples m self.now.order (samples_of self.now.lists))
            self.now.snapshots }
        ensures drawable { All (λ snapshot.
            IsDrawable self.now.names snapshot.tree) self.now.snapshots }
    {
        self.gathered.snapshots()
    }
}
