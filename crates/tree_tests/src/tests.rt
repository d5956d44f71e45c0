//! Worked examples, and what a refused growth leaves.
ghost use Rattle.std.specs.Prelude.{◌≡◌, IfOk, OnOk, OnErr};
ghost use Rattle.call_tree.specs.CallTree.{with_weight};

mod growths;
mod listings;
mod names;
mod page;
mod spellings;

use call_tree::{CallTree, FrameTable};
use growths::go_on;
use std::alloc::{AllocError, Global};
use std::fmt::Debug;
use std::process::Abort;
use std::test::Fail;

/// What a test looks for was found.
fn holds<E: Debug + Drop>(rt: &impl Abort, found: Result<bool, E>) -> Result<(), Fail> {
    assert!(rt; found?);
    Ok(())
}

/// Adds to a tree. One whose grand total is not small, to which no test comes, is refused.
fn add(tree: &mut CallTree, ids: &[usize], weight: u64) -> Result<(), AllocError>
    ensures ok { OnOk result (tree.new ≡ with_weight tree.old ids.now weight) }
    ensures err { OnErr result (tree.new ≡ tree.old) }
{
    if tree.total(&[]) >= 1_000_000 {
        return Err(AllocError);
    }
    tree.add(ids, weight)
}

/// Where a request was refused and all the same nothing is wrong, the answer is that refusal.
fn unless_refused(kept: bool, refused: bool) -> Result<bool, AllocError> {
    if kept && refused {
        return Err(AllocError);
    }
    Ok(kept)
}

/// An empty table gives names these numbers.
fn numbers_are(
    table: &mut FrameTable,
    names: &[(&str, usize)],
    len: usize,
) -> Result<bool, AllocError> {
    let empty = table.is_empty();
    for (name, number) in names {
        if table.intern(name)? != *number {
            return Ok(false);
        }
    }
    Ok(empty && table.len() == len)
}

/// A new table gives names these numbers.
fn numbers_names(alloc: Global, names: &[(&str, usize)], len: usize) -> Result<bool, AllocError> {
    numbers_are(&mut FrameTable::new(alloc), names, len)
}

const NUMBERED: &[(&str, usize)] = &[
    ("a", 0),
    ("b", 1),
    ("a", 0),
    ("", 2),
    ("A", 3),
    ("a ", 4),
    ("", 2),
];

#[test]
fn table(rt: HostRuntime) -> Result<(), Fail> {
    holds(&rt, numbers_names(rt.alloc(), NUMBERED, 5))
}

fn has_name(table: &FrameTable, number: usize, name: &str) -> bool {
    number < table.len() && table.name(number) == name
}

/// Interns names, which get their places as numbers, and no others are known.
fn intern_all(table: &mut FrameTable, names: &[&str]) -> Result<bool, AllocError> {
    for (number, name) in names.iter().enumerate() {
        if table.intern(name)? != number || !has_name(table, number, name) {
            return Ok(false);
        }
    }
    Ok(table.len() == names.len())
}

/// What a tree says of a path: the total, the weight of its own, and the numbers of its children.
type Place<'a> = (&'a [usize], u128, u128, &'a [usize]);

/// Weights that are added one after another, how many nodes the tree has then, and what it says.
struct Growth<'a> {
    weights: &'a [(&'a [usize], u64)],
    len: usize,
    places: &'a [Place<'a>],
}

fn is_place(tree: &CallTree, place: &Place<'_>) -> Result<bool, AllocError> {
    let (path, total, own, numbers) = place;
    let same_children = tree.children(path)?.as_slice() == *numbers;
    Ok(same_children && tree.total(path) == *total && tree.own(path) == *own)
}

fn is_grown(tree: &CallTree, growth: &Growth<'_>) -> Result<bool, AllocError> {
    for place in growth.places {
        if !is_place(tree, place)? {
            return Ok(false);
        }
    }
    Ok(tree.len() == growth.len)
}

fn copy_is_grown(tree: &CallTree, growth: &Growth<'_>) -> Result<bool, AllocError> {
    let copy = tree.copy()?;
    is_grown(&copy, growth)
}

fn add_all(tree: &mut CallTree, weights: &[(&[usize], u64)]) -> Result<(), AllocError> {
    for (ids, weight) in weights {
        add(tree, ids, *weight)?;
    }
    Ok(())
}

/// A tree and its copy grow so, one growth after another.
fn grows(tree: &mut CallTree, growths: &[Growth<'_>]) -> Result<bool, AllocError> {
    for growth in growths {
        add_all(tree, growth.weights)?;
        if !is_grown(tree, growth)? || !copy_is_grown(tree, growth)? {
            return Ok(false);
        }
    }
    Ok(true)
}

fn new_tree_grows(alloc: Global, growths: &[Growth<'_>]) -> Result<bool, AllocError> {
    let mut tree = CallTree::new(alloc)?;
    grows(&mut tree, growths)
}

/// A new table gives names these numbers, and a tree over them grows so.
fn names_and_tree_grow(
    alloc: Global,
    names: &[(&str, usize)],
    growths: &[Growth<'_>],
) -> Result<bool, AllocError> {
    Ok(numbers_names(alloc, names, 2)? && new_tree_grows(alloc, growths)?)
}

/// The tree of the worked example.
const WORKED: &[Growth<'static>] = &[Growth {
    weights: &[(&[0, 1], 2), (&[0], 1), (&[0, 1], 3), (&[0, 0], 4)],
    len: 4,
    places: &[
        (&[], 10, 0, &[0]),
        (&[0], 10, 1, &[0, 1]),
        (&[0, 1], 5, 5, &[]),
        (&[0, 0], 4, 4, &[]),
        (&[1], 0, 0, &[]),
    ],
}];

/// The numbers of its two names.
const WORKED_NUMBERS: &[(&str, usize)] = &[("a", 0), ("b", 1), ("a", 0)];

#[test]
fn table_and_tree(rt: HostRuntime) -> Result<(), Fail> {
    holds(&rt, names_and_tree_grow(rt.alloc(), WORKED_NUMBERS, WORKED))
}

const WEIGHTLESS: &[Growth<'static>] = &[Growth {
    weights: &[(&[1, 0], 0)],
    len: 1,
    places: &[(&[], 0, 0, &[]), (&[1], 0, 0, &[])],
}];

/// A path that is added with weight 0 weighs nothing and has no node.
#[test]
fn weightless_path(rt: HostRuntime) -> Result<(), Fail> {
    holds(&rt, new_tree_grows(rt.alloc(), WEIGHTLESS))
}

const WITH_CHILDREN: &[Growth<'static>] = &[Growth {
    weights: &[(&[0, 1], 1), (&[0, 0], 1), (&[0, 1], 1)],
    len: 4,
    places: &[(&[0], 3, 0, &[0, 1]), (&[1], 0, 0, &[])],
}];

#[test]
fn children(rt: HostRuntime) -> Result<(), Fail> {
    holds(&rt, new_tree_grows(rt.alloc(), WITH_CHILDREN))
}

const WITH_RECURSION: &[Growth<'static>] = &[Growth {
    weights: &[(&[7, 7, 7], 3)],
    len: 4,
    places: &[
        (&[], 3, 0, &[7]),
        (&[7], 3, 0, &[7]),
        (&[7, 7], 3, 0, &[7]),
        (&[7, 7, 7], 3, 3, &[]),
    ],
}];

/// A number that stands more than once in a path counts once.
#[test]
fn recursion_counts_once(rt: HostRuntime) -> Result<(), Fail> {
    holds(&rt, new_tree_grows(rt.alloc(), WITH_RECURSION))
}

/// With any one growth refused, a table and a tree keep what they held and go on; the test then ends in that refusal.
#[test]
fn each_growth_refused(rt: HostRuntime) -> Result<(), Fail> {
    holds(&rt, go_on(rt.alloc(), &mut false))
}
