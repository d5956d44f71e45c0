//! Calls that are asked again where a growth was refused, after a look that nothing changed.

use super::{add, unless_refused};
use call_tree::{CallTree, FrameTable};
use std::alloc::{AllocError, Global};

const NAMES: &[&str] = &["main", "read", "parse", "emit", "close"];

/// The names of a table are the first of those that it is given, so many.
fn has_first_names(table: &FrameTable, len: usize) -> bool {
    for number in 0..table.len() {
        if number >= NAMES.len() || table.name(number) != NAMES[number] {
            return false;
        }
    }
    table.len() == len
}

/// Interns a name, which gets this number. Where that is refused, the table has the names that it had, and is asked again.
fn interns_again(
    table: &mut FrameTable,
    name: &str,
    number: usize,
    refused: &mut bool,
) -> Result<bool, AllocError> {
    let len = table.len();
    if let Ok(found) = table.intern(name) {
        return Ok(found == number);
    }
    *refused = true;
    Ok(has_first_names(table, len) && table.intern(name)? == number)
}

/// A table keeps the names that it held, and goes on.
fn table_goes_on(table: &mut FrameTable, refused: &mut bool) -> Result<bool, AllocError> {
    for (number, name) in NAMES.iter().enumerate() {
        if !interns_again(table, name, number, refused)? {
            return Ok(false);
        }
    }
    Ok(true)
}

/// How many nodes a tree has, the totals of a path and of those that it goes on from, and then the weights of their own.
type Weights = [u128; 9];

fn weights_at(tree: &CallTree, ids: &[usize; 3]) -> Weights {
    let ids = ids.as_slice();
    let [one, two] = [&ids[..1], &ids[..2]];
    [
        tree.len() as u128,
        tree.total(&[]),
        tree.total(one),
        tree.total(two),
        tree.total(ids),
        tree.own(&[]),
        tree.own(one),
        tree.own(two),
        tree.own(ids),
    ]
}

/// Adds 5 at a path. Where that is refused, the tree has the weights that it had, and is asked again.
fn adds_again(
    tree: &mut CallTree,
    ids: &[usize; 3],
    refused: &mut bool,
) -> Result<bool, AllocError> {
    let before = weights_at(tree, ids);
    if add(tree, ids, 5).is_ok() {
        return Ok(true);
    }
    *refused = true;
    let same = weights_at(tree, ids) == before;
    add(tree, ids, 5)?;
    Ok(same)
}

/// A tree keeps the weights that it held, and goes on over eight paths.
fn paths_go_on(tree: &mut CallTree, refused: &mut bool) -> Result<bool, AllocError> {
    for frame in 0..8 {
        if !adds_again(tree, &[frame % 3, frame, frame], refused)? {
            return Ok(false);
        }
    }
    Ok(true)
}

/// A tree has the weights of the eight paths.
fn has_eight_paths(tree: &CallTree) -> bool {
    weights_at(tree, &[0, 3, 3]) == [20, 40, 15, 5, 5, 0, 0, 0, 5]
}

/// A copy has the weights of the eight paths. Where it is refused, the tree has them still, and is asked again.
fn copies_again(tree: &CallTree, refused: &mut bool) -> Result<bool, AllocError> {
    if let Ok(copy) = tree.copy() {
        return Ok(has_eight_paths(&copy));
    }
    *refused = true;
    Ok(has_eight_paths(tree) && has_eight_paths(&tree.copy()?))
}

/// A tree and its copy have the weights of the eight paths.
fn tree_goes_on(tree: &mut CallTree, refused: &mut bool) -> Result<bool, AllocError> {
    let kept = paths_go_on(tree, refused)?;
    let copied = copies_again(tree, refused)?;
    unless_refused(kept && copied && has_eight_paths(tree), *refused)
}

/// A table and a tree keep what they held and go on. Where a growth was refused, the answer is that refusal.
pub(super) fn go_on(alloc: Global, refused: &mut bool) -> Result<bool, AllocError> {
    if !table_goes_on(&mut FrameTable::new(alloc), refused)? {
        return Ok(false);
    }
    tree_goes_on(&mut CallTree::new(alloc)?, refused)
}
