//! Rows of ranks.
ghost use Rattle.std.specs.Prelude.{◌≡◌, [], OnOk, sum_by};

use super::holds;
use ranked_rows::{Alone, GatheredRows, RankedRows};
use sample_tables::{FlatStacks, Span};
use std::alloc::{AllocError, Global};
use std::test::Fail;

/// Pushes three rows, two of which have the same ranks.
fn push_rows(rows: &mut RankedRows) -> Result<(), AllocError>
    requires { rows.old ≡ [] }
    ensures { OnOk result (sum_by (λ row. row.1) rows.new ≡ 8) }
{
    let ranks = [2, 0, 1];
    rows.push([1, 0].as_slice(), ranks.as_slice(), 5)?;
    rows.push([2].as_slice(), ranks.as_slice(), 1)?;
    rows.push([1, 0].as_slice(), ranks.as_slice(), 2)
}

fn are_joined(rows: &RankedRows) -> bool {
    rows.len() == 2
        && rows.ranks(0) == [0, 2].as_slice()
        && rows.weight(0) == 7
        && rows.ranks(1) == [1].as_slice()
        && rows.weight(1) == 1
}

fn are_merged(alloc: Global, rows: RankedRows) -> Result<bool, AllocError>
    requires { sum_by (λ row. row.1) rows ≡ 8 }
{
    if rows.total() != 8 {
        return Ok(false);
    }
    Ok(are_joined(&rows.merged(alloc, &Alone)?))
}

fn merges_as_on_the_page(alloc: Global) -> Result<bool, AllocError> {
    let mut rows = RankedRows::new(alloc);
    push_rows(&mut rows)?;
    are_merged(alloc, rows)
}

// The example of README.md.
#[test]
fn example_of_the_page(rt: HostRuntime) -> Result<(), Fail> {
    holds(&rt, merges_as_on_the_page(rt.alloc()))
}

fn are_ranked(rows: &RankedRows) -> bool {
    rows.len() == 2
        && rows.ranks(0) == [0, 2].as_slice()
        && rows.weight(0) == 5
        && rows.ranks(1).is_empty()
        && rows.weight(1) == 3
}

/// Stacks among numbers that belong to none of them, some of which have no rank.
fn ranks_in_place(alloc: Global) -> Result<bool, AllocError> {
    let frames = vec![in alloc; 7u32, 1, 0, 4_294_967_295, 2, 0, 9]?;
    let spans = vec![in alloc;
        Span { start: 1, end: 3 },
        Span { start: 4, end: 5 },
        Span { start: 2, end: 2 },
    ]?;
    let stacks = FlatStacks { frames, spans };
    let ranks = [2, 0, 1];
    let weights = [5, 0, 3];
    let rows = RankedRows::from_stacks(alloc, stacks, ranks.as_slice(), weights.as_slice())?;
    Ok(are_ranked(&rows))
}

// A stack that weighs nothing has no row.
#[test]
fn stacks_are_ranked_in_place(rt: HostRuntime) -> Result<(), Fail> {
    holds(&rt, ranks_in_place(rt.alloc()))
}

/// The rows after five came, two of them again, where there is room to remember so many.
fn gathered(alloc: Global, room: usize) -> Result<RankedRows, AllocError> {
    let ranks = [2, 0, 1];
    let mut first = RankedRows::new(alloc);
    first.push([1, 0].as_slice(), ranks.as_slice(), 5)?;
    let mut rows = GatheredRows::with_room(alloc, room)?;
    rows.begin(first);
    rows.add([2].as_slice(), ranks.as_slice(), 1)?;
    rows.add([1, 0].as_slice(), ranks.as_slice(), 2)?;
    rows.add([0, 1].as_slice(), ranks.as_slice(), 4)?;
    rows.add([2].as_slice(), ranks.as_slice(), 8)?;
    Ok(rows.into_rows())
}

fn gathers_what_comes_again(alloc: Global) -> Result<bool, AllocError> {
    let rows = gathered(alloc, 8)?;
    Ok(
        rows.len() == 3
            && rows.ranks(0) == [0, 2].as_slice()
            && rows.weight(0) == 7
            && rows.ranks(1) == [1].as_slice()
            && rows.weight(1) == 9
            && rows.ranks(2) == [2, 0].as_slice()
            && rows.weight(2) == 4,
    )
}

#[test]
fn row_that_comes_again_is_added(rt: HostRuntime) -> Result<(), Fail> {
    holds(&rt, gathers_what_comes_again(rt.alloc()))
}

fn gathers_each_apart(alloc: Global) -> Result<bool, AllocError> {
    let rows = gathered(alloc, 0)?;
    Ok(rows.len() == 5 && rows.weight(0) == 5 && rows.weight(4) == 8)
}

#[test]
fn row_stands_apart_where_none_is_remembered(rt: HostRuntime) -> Result<(), Fail> {
    holds(&rt, gathers_each_apart(rt.alloc()))
}

/// Two rows of the same ranks whose weights together have more than 64 bits.
fn keeps_great_weights_apart(alloc: Global) -> Result<bool, AllocError> {
    let ranks = [0];
    let mut rows = GatheredRows::with_room(alloc, 8)?;
    rows.add([0].as_slice(), ranks.as_slice(), u64::MAX)?;
    rows.add([0].as_slice(), ranks.as_slice(), 1)?;
    let rows = rows.into_rows();
    Ok(rows.len() == 2 && rows.weight(0) == u64::MAX && rows.weight(1) == 1)
}

#[test]
fn row_past_64_bits_stands_apart(rt: HostRuntime) -> Result<(), Fail> {
    holds(&rt, keeps_great_weights_apart(rt.alloc()))
}
