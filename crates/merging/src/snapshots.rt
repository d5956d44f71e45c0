//! The merged tree of an earlier moment.

ghost use Rattle.std.specs.Prelude.{◌≡◌, ◌≤◌, ◌<◌, ◌+◌, ◌++◌, ◌∷◌, ◌^◌, [], IfOk, OnSome, IfSome, vec_len, vec_capacity};
ghost use Rattle.call_tree.specs.CallTree.{tree_of, total_weight, with_weight};
ghost use Rattle.merging.specs.checked.Merging.{is_due, due_after};
ghost use Rattle.merging.specs.checked.Tallies.{HasRoom, IsTally};
ghost use Rattle.merging.specs.checked.TakenRows.{row_of, rows_of, paths_of};

use crate::taken_rows::NumberedSample;
use crate::tally::{Tally, counts_with};
use call_tree::CallTree;
use stack_core::Listed;
use std::alloc::{AllocError, Global};

/// What was merged when a number of samples was held.
#[derive(Drop)]
pub struct Snapshot {
    /// That number.
    pub at: u64,
    /// How many of these samples are of each source: an entry for each, up to the greatest source
    /// number among them.
    pub counts: Listed<u64>,
    /// The tree of these samples. Its numbers are those of the table that the samples' names are in.
    pub tree: CallTree,
}

/// Whether there is a snapshot after so many samples.
fn is_due(every: Option<u64>, at: u64) -> bool
    requires { IfSome every (λ every. 1 ≤ every) }
    ensures { result ≡ is_due every at }
{
    every.is_some_and(|every| at % every == 0)
}

/// The tree with a row more.
fn tree_with(tree: &CallTree, numbers: &[usize], weight: u64) -> Result<CallTree, AllocError>
    requires { total_weight tree.now [] + weight < 2 ^ 128 }
    ensures { IfOk result (λ copy. copy ≡ with_weight tree.now numbers.now weight) }
{
    let mut copy = tree.copy()?;
    copy.add(numbers, weight)?;
    Ok(copy)
}

/// The snapshot that is due once a sample is merged, if one is. Room is made for it.
pub fn due_snapshot(
    alloc: Global,
    tally: &Tally,
    tree: &CallTree,
    snapshots: &mut Vec<Snapshot>,
    sample: &NumberedSample,
) -> Result<Option<Snapshot>, AllocError>
    requires every { IfSome tally.now.every (λ every. 1 ≤ every) }
    requires tallied { IsTally tally.now }
    requires countable { HasRoom sample.now.source tally.now }
    requires tree { tree.now ≡ tree_of (paths_of (rows_of tally.now.taken)) }
    requires fits { total_weight tree.now [] + sample.now.weight < 2 ^ 128 }
    ensures due { IfOk result (λ due.
        due ≡ due_after tally.now.every (rows_of tally.now.taken ++ row_of sample.now ∷ [])) }
    ensures room { IfOk result (λ due.
        OnSome due (vec_len snapshots.new < vec_capacity snapshots.new)) }
    ensures kept { snapshots.new.items ≡ snapshots.old.items }
{
    let at = tally.at + 1;
    if !is_due(tally.every, at) {
        return Ok(None);
    }
    snapshots.reserve(1)?;
    let counts = counts_with(alloc, &tally.counts, sample.source)?;
    let tree = tree_with(tree, &sample.numbers, sample.weight)?;
    Ok(Some(Snapshot {
        at,
        counts: Listed::of(counts),
        tree,
    }))
}
