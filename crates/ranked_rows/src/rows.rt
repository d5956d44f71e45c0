//! Stacks by the ranks of their names, sorted and joined.

ghost use Rattle.std.specs.Prelude.{if◌then◌else◌, ◌≡◌, ◌+◌, ◌-◌, ◌<◌, ◌≤◌, ◌^◌, ◌++◌, ◌∷◌, ℕ, [], List, All, IfOk, OnOk, IsPermutation, length, map, nat_eq, reverse, sum_by, slice_index, slice_index_or, slice_range};
ghost use Rattle.std.specs.Cmp.Lexicographic.{pointwise};
ghost use Rattle.ranked_rows.specs.Gathering.{with_more};
ghost use Rattle.ranked_rows.specs.Joined.{Ranked, join_front, joined, AreAscending};
ghost use Rattle.ranked_rows.specs.Weighing.{weighing};
ghost use Rattle.ranked_rows.specs.checked.Entries.{ranked_row, ranked_rows, weighing_rows, AreWithin, ranked_entry, IsEntryOf};
ghost use Rattle.sample_tables.specs.Spans.{stacks_of, AreWithin as LieWithin};

use crate::name_ranks::ranks_for;
use crate::sorting::{Alone, Sorting, nearly_sorted};
use sample_tables::{FlatStacks, Span};
use std::alloc::{AllocError, Global};
use std::marker::Model;

/// Where the ranks of a stack's names lie, and its weight.
#[derive(Clone, Copy, Debug)]
pub struct RankedRow {
    pub start: usize,
    pub end: usize,
    pub weight: u64,
}

/// Stacks by ranks, with weights, in a few flat vectors. Ranks that no row covers stand for nothing.
/// Contracts see the rows as a list of ranks and weights.
#[derive(Drop)]
pub struct RankedRows {
    frames: Vec<u32>,
    rows: Vec<RankedRow>,
}

impl Model for RankedRows {
    ghost use Rattle.std.specs.Prelude.{ℕ, List};

    ghost Value = { List (List ℕ × ℕ) };

    ghost use Rattle.ranked_rows.specs.checked.Entries.{ranked_rows, AreWithin};

    ghost view = { λ r. ranked_rows r.frames.items r.rows.items };

    ghost invariant = { λ r. AreWithin r.frames.items r.rows.items };
}

/// A row while rows are sorted: its ranks, its weight, and where it starts.
type Entry<'a> = (&'a [u32], u64, usize);

impl RankedRows {
    /// No rows. They take no memory.
    pub fn new(alloc: Global) -> Self
        ensures { result ≡ [] }
    {
        RankedRows {
            frames: Vec::new(alloc),
            rows: Vec::new(alloc),
        }
    }

    /// A row for each stack that weighs: the ranks of its numbers, which come in the place of the numbers, and its weight.
    pub fn from_stacks(
        alloc: Global,
        stacks: FlatStacks,
        ranks: &[u32],
        weights: &[u64],
    ) -> Result<RankedRows, AllocError>
        requires within { LieWithin stacks.frames.items stacks.spans.items }
        requires weights { length weights.now ≡ length stacks.spans.items }
        ensures { IfOk result (λ rows.
            rows ≡ weighing ranks.now (stacks_of stacks.frames.items stacks.spans.items) weights.now) }
    {
        let FlatStacks { frames, spans } = stacks;
        let frames = ranks_for(frames, ranks);
        let rows = weighing_rows(alloc, &spans, weights)?;
        Ok(RankedRows { frames, rows })
    }

    /// Appends a row: the ranks of the numbers, and the weight.
    pub fn push(&mut self, numbers: &[u32], ranks: &[u32], weight: u64) -> Result<(), AllocError>
        requires { All (λ number. number < length ranks.now) numbers.now }
        ensures { OnOk result (self.new ≡ self.old ++ (map (slice_index ranks.now) numbers.now, weight) ∷ []) }
    {
        let start = self.frames.len();
        append_ranks(&mut self.frames, numbers, ranks)?;
        let end = self.frames.len();
        self.rows.push(RankedRow { start, end, weight })?;
        Ok(())
    }

    /// Adds a weight to that of a row, if 64 bits hold the sum.
    pub(crate) fn add_to(&mut self, at: usize, weight: u64) -> bool
        requires { at < length self.old }
        ensures { self.new ≡ if result then with_more self.old at weight else self.old }
    {
        let row = &mut self.rows[at];
        let Some(sum) = row.weight.checked_add(weight) else {
            return false;
        };
        row.weight = sum;
        true
    }

    /// How many rows there are.
    pub fn len(&self) -> usize
        ensures { result ≡ length self.now }
    {
        self.rows.len()
    }

    /// The ranks of a row, root first.
    pub fn ranks(&self, at: usize) -> &[u32]
        requires { at < length self.now }
        ensures { result.now ≡ (slice_index_or self.now at ([], 0)).0 }
    {
        let row = self.rows[at];
        &self.frames[row.start..row.end]
    }

    /// The weight of a row.
    pub fn weight(&self, at: usize) -> u64
        requires { at < length self.now }
        ensures { result ≡ (slice_index_or self.now at ([], 0)).1 }
    {
        self.rows[at].weight
    }

    /// The sum of all weights.
    pub fn total(&self) -> u64
        requires { sum_by (λ row. row.1) self.now < 2 ^ 64 }
        ensures { result ≡ sum_by (λ row. row.1) self.now }
    {
        let mut total: u64 = 0;
        for at in 0..self.len() {
            total += self.weight(at);
        }
        total
    }

    /// The rows in the order of their ranks, those of the same ranks as one.
    pub fn merged<S: Sorting>(self, alloc: Global, sorting: &S) -> Result<RankedRows, AllocError>
        requires { sum_by (λ row. row.1) self < 2 ^ 64 }
        ensures { IfOk result (λ rows. (sorted : List Ranked) × IsPermutation self sorted
            × AreAscending sorted × (rows ≡ joined sorted)) }
    {
        let RankedRows { frames, rows } = self;
        let rows = joined_rows(alloc, &frames, rows, sorting)?;
        Ok(RankedRows { frames, rows })
    }

    /// The weights, in the order of the ranks. What no clause says is that they are in order.
    pub fn weights_in_order(self, alloc: Global) -> Result<Vec<u64>, AllocError>
        ensures { IfOk result (λ weights. IsPermutation (map (λ row. row.1) self) weights.items) }
    {
        let RankedRows { frames, rows } = self;
        let entries = sorted_entries(alloc, &frames, rows, &Alone)?;
        weights(alloc, &entries)
    }
}

/// The rows of the spans that weigh.
fn weighing_rows(
    alloc: Global,
    spans: &[Span],
    weights: &[u64],
) -> Result<Vec<RankedRow>, AllocError>
    requires { length weights.now ≡ length spans.now }
    ensures { IfOk result (λ rows. rows.items ≡ weighing_rows spans.now weights.now) }
{
    let mut rows = Vec::with_capacity(alloc, spans.len())?;
    for at in 0..spans.len() {
        push_weighing(&mut rows, spans[at], weights[at])?;
    }
    Ok(rows)
}

/// Appends the row of a span, unless it weighs nothing.
fn push_weighing(rows: &mut Vec<RankedRow>, span: Span, weight: u64) -> Result<(), AllocError>
    ensures { OnOk result (rows.new.items ≡ rows.old.items ++ weighing_rows (span ∷ []) (weight ∷ [])) }
{
    if weight == 0 {
        return Ok(());
    }
    let Span { start, end } = span;
    rows.push(RankedRow { start, end, weight })?;
    Ok(())
}

/// Appends the ranks of the numbers.
pub(crate) fn append_ranks(
    frames: &mut Vec<u32>,
    numbers: &[u32],
    ranks: &[u32],
) -> Result<(), AllocError>
    requires { All (λ number. number < length ranks.now) numbers.now }
    ensures ok { OnOk result (frames.new.items ≡ frames.old.items ++ map (slice_index ranks.now) numbers.now) }
    ensures grows { (more : List ℕ) × (frames.new.items ≡ frames.old.items ++ more) }
{
    for number in numbers {
        frames.push(ranks[*number as usize])?;
    }
    Ok(())
}

/// The rows in the order of their ranks, those of the same ranks as one.
fn joined_rows<S: Sorting>(
    alloc: Global,
    frames: &[u32],
    rows: Vec<RankedRow>,
    sorting: &S,
) -> Result<Vec<RankedRow>, AllocError>
    requires within { AreWithin frames.now rows.items }
    requires total { sum_by (λ row. row.1) (ranked_rows frames.now rows.items) < 2 ^ 64 }
    ensures within { IfOk result (λ all. AreWithin frames.now all.items) }
    ensures joined { IfOk result (λ all. (sorted : List Ranked)
        × IsPermutation (ranked_rows frames.now rows.items) sorted × AreAscending sorted
        × (ranked_rows frames.now all.items ≡ joined sorted)) }
{
    let entries = sorted_entries(alloc, frames, rows, sorting)?;
    join(alloc, frames, &entries)
}

/// An entry for each row, in order.
fn sorted_entries<'a, S: Sorting>(
    alloc: Global,
    frames: &'a [u32],
    rows: Vec<RankedRow>,
    sorting: &S,
) -> Result<Vec<Entry<'a>>, AllocError>
    requires { AreWithin frames.now rows.items }
    ensures ranked { IfOk result (λ all. IsPermutation (ranked_rows frames.now rows.items) (map ranked_entry all.items)) }
    ensures within { IfOk result (λ all. All (IsEntryOf frames.now) all.items) }
    ensures ascending { IfOk result (λ all. AreAscending (map ranked_entry all.items)) }
{
    let rows = nearly_sorted(alloc, frames, rows, sorting)?;
    let mut entries = entries(alloc, frames, rows)?;
    // entries that are in order already take one look each
    entries.sort_unstable();
    Ok(entries)
}

/// An entry for each row.
fn entries<'a>(
    alloc: Global,
    frames: &'a [u32],
    rows: Vec<RankedRow>,
) -> Result<Vec<Entry<'a>>, AllocError>
    requires { AreWithin frames.now rows.items }
    ensures ranked { IfOk result (λ all. map ranked_entry all.items ≡ ranked_rows frames.now rows.items) }
    ensures within { IfOk result (λ all. All (IsEntryOf frames.now) all.items) }
{
    let mut all = Vec::with_capacity(alloc, rows.len())?;
    for row in &rows {
        all.push(entry(frames, *row))?;
    }
    Ok(all)
}

/// The entry of a row.
fn entry(frames: &[u32], row: RankedRow) -> Entry<'_>
    requires start { row.start ≤ row.end }
    requires end { row.end ≤ length frames.now }
    ensures ranked { ranked_entry result ≡ ranked_row frames.now row }
    ensures within { IsEntryOf frames.now result }
{
    let RankedRow { start, end, weight } = row;
    (&frames[start..end], weight, start)
}

/// The weight of each entry.
fn weights(alloc: Global, entries: &[Entry<'_>]) -> Result<Vec<u64>, AllocError>
    ensures { IfOk result (λ weights. weights.items ≡ map (λ entry. entry.1) entries.now) }
{
    let mut weights = Vec::with_capacity(alloc, entries.len())?;
    for entry in entries {
        weights.push(entry.1)?;
    }
    Ok(weights)
}

/// The rows of sorted entries, neighbours of the same ranks as one.
fn join(alloc: Global, frames: &[u32], entries: &[Entry<'_>]) -> Result<Vec<RankedRow>, AllocError>
    requires within { All (IsEntryOf frames.now) entries.now }
    requires total { sum_by (λ row. row.1) (map ranked_entry entries.now) < 2 ^ 64 }
    ensures within { IfOk result (λ all. AreWithin frames.now all.items) }
    ensures joined { IfOk result (λ all. ranked_rows frames.now all.items ≡ joined (map ranked_entry entries.now)) }
{
    let mut rows = Vec::new(alloc);
    for index in (0..entries.len()).rev() {
        let (ranks, weight, start) = entries[index];
        put_in_front(&mut rows, frames, ranks, weight, start)?;
    }
    rows.reverse();
    Ok(rows)
}

/// Whether a row has these ranks.
fn has_ranks(frames: &[u32], row: RankedRow, ranks: &[u32]) -> bool
    requires start { row.start ≤ row.end }
    requires end { row.end ≤ length frames.now }
    ensures { result ≡ pointwise nat_eq (ranked_row frames.now row).0 ranks.now }
{
    &frames[row.start..row.end] == ranks
}

/// Puts a row in front of those that came before, the last of which comes next after it.
fn put_in_front(
    rows: &mut Vec<RankedRow>,
    frames: &[u32],
    ranks: &[u32],
    weight: u64,
    start: usize,
) -> Result<(), AllocError>
    requires within { AreWithin frames.now rows.old.items }
    requires ranks { ranks.now ≡ slice_range frames.now start (start + length ranks.now) }
    requires room { start + length ranks.now ≤ length frames.now }
    requires total { sum_by (λ row. row.weight) rows.old.items + weight < 2 ^ 64 }
    ensures within { OnOk result (AreWithin frames.now rows.new.items) }
    ensures joined { OnOk result (reverse (ranked_rows frames.now rows.new.items)
        ≡ join_front (ranks.now, weight) (reverse (ranked_rows frames.now rows.old.items))) }
{
    let end = start + ranks.len();
    let Some(next) = rows.pop() else {
        rows.push(RankedRow { start, end, weight })?;
        return Ok(());
    };
    if has_ranks(frames, next, ranks) {
        let weight = next.weight + weight;
        rows.push(RankedRow { weight, ..next })?;
        return Ok(());
    }
    rows.push(next)?;
    rows.push(RankedRow { start, end, weight })?;
    Ok(())
}
