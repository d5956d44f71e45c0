//! A sink that merges what it takes.

ghost use Rattle.std.specs.FinMap as tree;
ghost use Rattle.std.specs.Prelude.{◌≡◌, ◌≤◌, ◌<◌, ◌++◌, ◌∷◌, [], IfOk, IfSome, List, OnOk, OnErr, OnSome, vec_len, vec_capacity};
ghost use Rattle.std.specs.Option.{option_to_list};
ghost use Rattle.stack_core.specs.Interleaving.{sources_of};
ghost use Rattle.call_tree.specs.FrameTable.{HasDistinctNames};
ghost use Rattle.ring_collect.specs.NamesInOrder.{with_stack, GrowsTo};
ghost use Rattle.merging.specs.Snapshots.{samples_of_pairs, first_samples, AreSnapshots};
ghost use Rattle.merging.specs.Sums.{HasSumsOf};
ghost use Rattle.call_tree.specs.CallTree.{Tree};
ghost use Rattle.merging.specs.checked.Merging.{Grown, IsRowFor, IsTreeSink};
ghost use Rattle.merging.specs.checked.TakenRows.{pairs_of, row_of, rows_of};
ghost use Rattle.merging.specs.checked.Tallies.{HasRoom, IsTally};
ghost use Rattle.merging.specs.declared.snapshots.Snapshot.{Snapshot};

use crate::noted_numbers::NotedNumbers;
use crate::snapshots::{Snapshot, due_snapshot};
use crate::taken_rows::NumberedSample;
use crate::tally::Tally;
use call_tree::{CallTree, FrameTable};
use stack_core::{Sample, Sink};
use std::alloc::{AllocError, Global};
use std::marker::Model;

/// Merges the samples that it takes, as they arrive: a table of their names, a tree of their stacks,
/// and a snapshot of the tree at each moment that is due. Contracts see the pairs that it took, and
/// these three.
#[derive(Drop)]
pub struct TreeSink {
    tally: Tally,
    table: FrameTable,
    tree: CallTree,
    snapshots: Vec<Snapshot>,
    /// The sample that is being taken.
    sample: NumberedSample,
    noted: NotedNumbers,
}

impl Model for TreeSink {
    ghost use Rattle.std.specs.Coded.{codes};
    ghost use Rattle.call_tree.specs.contracts.tree.CallTree as call_tree;
    ghost use Rattle.merging.specs.contracts.snapshots.Snapshot as snapshot;
    ghost use Rattle.merging.specs.TreeSinkState.{TreeSinkState};
    ghost use Rattle.merging.specs.checked.TakenRows.{rows_of, pairs_of};
    ghost use Rattle.merging.specs.checked.Merging.{IsTreeSink};

    ghost Value = { TreeSinkState };

    ghost coded = { Prim.hlevel (codes, snapshot.the_row.coded, call_tree.the_row.coded) };

    ghost view = { λ s. record {
      every = s.tally.every;
      taken = pairs_of s.table (rows_of s.tally.taken);
      names = s.table;
      tree = s.tree;
      snapshots = s.snapshots.items;
    } };

    ghost invariant = { λ s. IsTreeSink s.tally s.table s.tree s.snapshots.items };
}

impl TreeSink {
    /// A sink that took nothing. With `every` it makes a snapshot each time that it took so many
    /// pairs more.
    pub fn new(alloc: Global, every: Option<u64>) -> Result<TreeSink, AllocError>
        requires { IfSome every (λ every. 1 ≤ every) }
        ensures { IfOk result (λ sink. sink ≡ record {
          every = every;
          taken = [];
          names = [];
          tree = tree.empty;
          snapshots = [];
        }) }
    {
        Ok(TreeSink {
            tally: Tally::new(alloc, every),
            table: FrameTable::new(alloc),
            tree: CallTree::new(alloc)?,
            snapshots: Vec::new(alloc),
            sample: NumberedSample::new(alloc),
            noted: NotedNumbers::new(alloc),
        })
    }

    /// The names of all samples that were taken, in the order in which they first came. After a refusal
    /// it may have more.
    pub fn table(&self) -> &FrameTable
        ensures names { result.now ≡ self.now.names }
        ensures distinct { HasDistinctNames self.now.names }
    {
        &self.table
    }

    /// The merged samples, under the numbers of the table.
    pub fn tree(&self) -> &CallTree
        ensures tree { result.now ≡ self.now.tree }
        ensures sums { HasSumsOf self.now.names self.now.tree (samples_of_pairs self.now.taken) }
    {
        &self.tree
    }

    /// The snapshots, in the order in which they were made.
    pub fn snapshots(&self) -> &[Snapshot]
        ensures snapshots { result.now ≡ self.now.snapshots }
        ensures made { AreSnapshots self.now.every self.now.names (sources_of self.now.taken)
            (first_samples self.now.taken) self.now.snapshots }
    {
        &self.snapshots
    }

    /// After how many pairs more there is a snapshot, if there are any.
    pub(crate) fn every(&self) -> Option<u64>
        ensures every { result ≡ self.now.every }
        ensures positive { IfSome self.now.every (λ every. 1 ≤ every) }
    {
        self.tally.every
    }

    /// For contracts alone: what was merged of the pairs that were taken.
    pub(crate) fn recall_merged(&self)
        ensures sums { HasSumsOf self.now.names self.now.tree (samples_of_pairs self.now.taken) }
        ensures made { AreSnapshots self.now.every self.now.names (sources_of self.now.taken)
            (first_samples self.now.taken) self.now.snapshots }
    {
        let _tree = self.tree();
        let _snapshots = self.snapshots();
    }
}

impl Sink for TreeSink {
    ghost use Rattle.std.specs.Option.{option_to_list};

    ghost taken = { λ sink. sink.taken };

    ghost setting = { λ sink. option_to_list sink.every };

    /// Merges one sample. A refusal leaves the tree and the snapshots too; the table may have gained names.
    fn take(&mut self, alloc: Global, source: u32, sample: &Sample) -> Result<(), AllocError>
        ensures ok { OnOk result (self.new.taken ≡ self.old.taken ++ (source, sample.now) ∷ []) }
        ensures refused { OnErr result (self.new.taken ≡ self.old.taken) }
        ensures tree { OnErr result (self.new.tree ≡ self.old.tree) }
        ensures snapshots { OnErr result (self.new.snapshots ≡ self.old.snapshots) }
        ensures names { GrowsTo self.old.names self.new.names }
        ensures in_order { OnOk result
            (self.new.names ≡ with_stack self.old.names sample.now.stack) }
        ensures every { self.new.every ≡ self.old.every }
        ensures setting { option_to_list self.new.every ≡ option_to_list self.old.every }
    {
        let noted = self.noted.of(alloc, source)?;
        ready_sample(
            &mut self.tally,
            &mut self.table,
            noted,
            &mut self.sample,
            source,
            sample,
        )?;
        let due = due_snapshot(
            alloc,
            &self.tally,
            &self.tree,
            &mut self.snapshots,
            &self.sample,
        )?;
        self.tree.add(&self.sample.numbers, self.sample.weight)?;
        self.tally.count(&self.sample);
        append_due(&mut self.snapshots, due);
        Ok(())
    }
}

/// Gives a sample that is to be taken the numbers of its names, and makes room to count it. Want of memory may leave names behind.
fn ready_sample(
    tally: &mut Tally,
    table: &mut FrameTable,
    noted: &mut Vec<usize>,
    numbered: &mut NumberedSample,
    source: u32,
    sample: &Sample,
) -> Result<(), AllocError>
    requires tallied { IsTally tally.old }
    requires distinct { HasDistinctNames table.old }
    ensures row { OnOk result
        (IsRowFor table.new source sample.now.stack sample.now.weight (row_of numbered.new)) }
    ensures room { OnOk result (HasRoom source tally.new) }
    ensures in_order { OnOk result (table.new ≡ with_stack table.old sample.now.stack) }
    ensures names { GrowsTo table.old table.new }
    ensures every { tally.new.every ≡ tally.old.every }
    ensures sink { (tree : Tree) (snapshots : List Snapshot)
        → IsTreeSink tally.old table.old tree snapshots
        → Grown tally.new table.new tree snapshots (pairs_of table.old (rows_of tally.old.taken)) }
{
    numbered.set(table, noted, source, &sample.stack, sample.weight)?;
    tally.reserve(source)
}

/// Appends the snapshot that is due, if one is. There is room for it.
fn append_due(snapshots: &mut Vec<Snapshot>, due: Option<Snapshot>)
    requires { OnSome due (vec_len snapshots.old < vec_capacity snapshots.old) }
    ensures { snapshots.new.items ≡ snapshots.old.items ++ option_to_list due }
{
    if let Some(snapshot) = due {
        snapshots.push_reserved(snapshot);
    }
}
