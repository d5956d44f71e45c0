//! Listings of trees by the names of a table.
ghost use Rattle.call_tree.specs.Listing.{AreIn, HasNumbersOf};

use super::{add, intern_all};
use crate::tests::holds;
use call_tree::{CallTree, FrameTable, Visit};
use std::alloc::{AllocError, Global};
use std::process::Abort;
use std::test::Fail;

/// The numbers of a path are the table's.
fn are_known(rt: &impl Abort, table: &FrameTable, ids: &[usize])
    ensures { AreIn table.now ids.now }
{
    for id in ids {
        assert!(rt; *id < table.len());
    }
}

/// Adds a weight at each path.
fn add_known(
    rt: &impl Abort,
    table: &FrameTable,
    tree: &mut CallTree,
    weights: &[(&[usize], u64)],
) -> Result<(), AllocError>
    requires { HasNumbersOf table.now tree.old }
    ensures { HasNumbersOf table.now tree.new }
{
    for (ids, weight) in weights {
        are_known(rt, table, ids);
        add(tree, ids, *weight)?;
    }
    Ok(())
}

/// The listing of a tree that has a weight at each path.
fn listed(
    rt: &impl Abort,
    alloc: Global,
    table: &FrameTable,
    weights: &[(&[usize], u64)],
) -> Result<Vec<Visit>, AllocError> {
    let mut tree = CallTree::new(alloc)?;
    add_known(rt, table, &mut tree, weights)?;
    tree.listing(table)
}

/// The depth, the frame, the total and the own weight of a visit.
type Row = (usize, usize, u128, u128);

fn is_row(visit: &Visit, row: &Row) -> bool {
    let (depth, frame, total, own) = row;
    visit.depth == *depth && visit.frame == *frame && visit.total == *total && visit.own == *own
}

fn visits_are(visits: &[Visit], rows: &[Row]) -> bool {
    if visits.len() != rows.len() {
        return false;
    }
    for at in 0..visits.len() {
        if !is_row(&visits[at], &rows[at]) {
            return false;
        }
    }
    true
}

/// The listing of a tree of these weights, whose frames have these names. It is empty where they get no such numbers.
fn visits_of(
    rt: &impl Abort,
    alloc: Global,
    names: &[&str],
    weights: &[(&[usize], u64)],
) -> Result<Vec<Visit>, AllocError> {
    let mut table = FrameTable::new(alloc);
    if !intern_all(&mut table, names)? {
        return Ok(Vec::new(alloc));
    }
    listed(rt, alloc, &table, weights)
}

/// A tree of these weights, whose frames have these names, is listed so.
fn names_list(
    rt: &impl Abort,
    alloc: Global,
    names: &[&str],
    weights: &[(&[usize], u64)],
    rows: &[Row],
) -> Result<bool, AllocError> {
    let visits = visits_of(rt, alloc, names, weights)?;
    Ok(visits_are(&visits, rows))
}

const TWO_PATHS: &[(&[usize], u64)] = &[(&[0], 2), (&[1, 0], 1)];

const BY_NAME: &[Row] = &[(0, 0, 3, 0), (1, 1, 1, 0), (2, 0, 1, 1), (1, 0, 2, 2)];

/// The numbers rise as the names fall, and a listing goes by the names.
#[test]
fn listing_by_name(rt: HostRuntime) -> Result<(), Fail> {
    holds(
        &rt,
        names_list(&rt, rt.alloc(), &["b", "a"], TWO_PATHS, BY_NAME),
    )
}

const SIX_PATHS: &[(&[usize], u64)] = &[
    (&[0, 1], 1),
    (&[2], 1),
    (&[0, 2, 1], 1),
    (&[1], 1),
    (&[0, 0], 1),
    (&[2, 1], 1),
];

const LEVELS: &[Row] = &[
    (0, 0, 6, 0),
    (1, 1, 1, 1),
    (1, 2, 2, 1),
    (2, 1, 1, 1),
    (1, 0, 3, 0),
    (2, 1, 1, 1),
    (2, 2, 1, 0),
    (3, 1, 1, 1),
    (2, 0, 1, 1),
];

/// Nodes on three levels, made in another order than that of their names.
#[test]
fn listing_of_levels(rt: HostRuntime) -> Result<(), Fail> {
    holds(
        &rt,
        names_list(&rt, rt.alloc(), &["c", "a", "b"], SIX_PATHS, LEVELS),
    )
}

/// One visit at each depth, of weight 1.
fn is_one_path(visits: &[Visit]) -> bool {
    for depth in 0..visits.len() {
        if visits[depth].depth != depth || visits[depth].total != 1 {
            return false;
        }
    }
    visits.len() == 4097
}

fn deep_path_is_listed(rt: &impl Abort, alloc: Global) -> Result<bool, AllocError> {
    let visits = visits_of(rt, alloc, &["f"], &[(&[0; 4096], 1)])?;
    Ok(is_one_path(&visits))
}

/// The deepest path that a stack can have.
#[test]
fn listing_of_a_deep_path(rt: HostRuntime) -> Result<(), Fail> {
    holds(&rt, deep_path_is_listed(&rt, rt.alloc()))
}
