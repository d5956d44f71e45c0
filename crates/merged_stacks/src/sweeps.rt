//! One sweep over the rows of two lists.

ghost use Rattle.std.specs.Prelude.{◌≡◌, ◌+◌, ◌<◌, ◌≤◌, ◌^◌, ◌∷◌, All, IfOk, length, map, drop};
ghost use Rattle.merged_stacks.specs.checked.Swept.{swept, place_row, before_next, after_next, IsPlace};

use ranked_rows::RankedRows;
use std::alloc::{AllocError, Global};
use std::cmp::Ordering;

/// Where a stack stands: in the first list, in the second, or in both.
#[derive(Clone, Copy)]
pub(crate) enum Place {
    Before(usize),
    After(usize),
    Both(usize, usize),
}

/// The places of the rows of both lists, in the order of their ranks.
pub(crate) fn sweep(
    alloc: Global,
    lefts: &RankedRows,
    rights: &RankedRows,
) -> Result<Vec<Place>, AllocError>
    ensures rows { IfOk result (λ places.
        map (place_row lefts.now rights.now) places.items ≡ swept lefts.now rights.now) }
    ensures within { IfOk result (λ places. All (IsPlace lefts.now rights.now) places.items) }
{
    let mut places = Vec::new(alloc);
    let mut before = 0;
    let mut after = 0;
    let (left_end, right_end) = (lefts.len(), rights.len());
    'each: while before < left_end || after < right_end {
        let place = next_place(lefts, before, rights, after);
        places.push(place)?;
        let (next, other) = behind(place, before, after);
        before = next;
        after = other;
    }
    Ok(places)
}

/// Where the sweep goes on behind a place.
fn behind(place: Place, before: usize, after: usize) -> (usize, usize)
    requires before { before_next before place < 2 ^ 64 }
    requires after { after_next after place < 2 ^ 64 }
    ensures before { result.0 ≡ before_next before place }
    ensures after { result.1 ≡ after_next after place }
{
    match place {
        Place::Before(at) => (at + 1, after),
        Place::After(at) => (before, at + 1),
        Place::Both(at, other) => (at + 1, other + 1),
    }
}

/// The place of the next row: the lower one of both lists, or both where they are equal.
fn next_place(lefts: &RankedRows, before: usize, rights: &RankedRows, after: usize) -> Place
    requires before { before ≤ length lefts.now }
    requires after { after ≤ length rights.now }
    requires more { before + after < length lefts.now + length rights.now }
    ensures place { IsPlace lefts.now rights.now result }
    ensures before { before_next before result ≤ length lefts.now }
    ensures after { after_next after result ≤ length rights.now }
    ensures on { before + after < before_next before result + after_next after result }
    ensures next { swept (drop before lefts.now) (drop after rights.now)
        ≡ place_row lefts.now rights.now result
        ∷ swept (drop (before_next before result) lefts.now) (drop (after_next after result) rights.now) }
{
    if before == lefts.len() {
        return Place::After(after);
    }
    if after == rights.len() {
        return Place::Before(before);
    }
    match lefts.ranks(before).cmp(rights.ranks(after)) {
        Ordering::Less => Place::Before(before),
        Ordering::Equal => Place::Both(before, after),
        Ordering::Greater => Place::After(after),
    }
}

/// The ranks of the stack at a place.
pub(crate) fn place_ranks<'a>(
    lefts: &'a RankedRows,
    rights: &'a RankedRows,
    place: Place,
) -> &'a [u32]
    requires { IsPlace lefts.now rights.now place }
    ensures { result.now ≡ (place_row lefts.now rights.now place).0 }
{
    match place {
        Place::Before(at) | Place::Both(at, _) => lefts.ranks(at),
        Place::After(at) => rights.ranks(at),
    }
}

/// The weight in the first list of the stack at a place.
pub(crate) fn weight_before(lefts: &RankedRows, rights: &RankedRows, place: Place) -> u64
    requires { IsPlace lefts.now rights.now place }
    ensures { result ≡ (place_row lefts.now rights.now place).1 }
{
    match place {
        Place::Before(at) | Place::Both(at, _) => lefts.weight(at),
        Place::After(_) => 0,
    }
}

/// The same in the second list.
pub(crate) fn weight_after(lefts: &RankedRows, rights: &RankedRows, place: Place) -> u64
    requires { IsPlace lefts.now rights.now place }
    ensures { result ≡ (place_row lefts.now rights.now place).2 }
{
    match place {
        Place::After(at) | Place::Both(_, at) => rights.weight(at),
        Place::Before(_) => 0,
    }
}
