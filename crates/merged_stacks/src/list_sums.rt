//! The sums of the stacks that a list keeps, as its samples come one after another.

ghost use Rattle.std.specs.Prelude.{◌≡◌, ◌+◌, ◌<◌, ◌≤◌, ◌^◌, ◌++◌, ◌∷◌, ℕ, [], List, All, IfOk, OnOk, IsPermutation, length, map, take};
ghost use Rattle.std.specs.List.{range_with_len};
ghost use Rattle.sample_tables.specs.declared.samples.Sample.{Sample};
ghost use Rattle.sample_tables.specs.declared.samples.TheConstants.{FRAME_LIMIT};
ghost use Rattle.sample_tables.specs.Rows.{named};
ghost use Rattle.merged_stacks.specs.Timeline.{total_weight};
ghost use Rattle.merged_stacks.specs.checked.Growing.{not_begun, came};
ghost use Rattle.merged_stacks.specs.checked.Kept.{kept_sample, kept_samples, ArePicked, HaveSameSums};
ghost use Rattle.merged_stacks.specs.checked.Ranked.{HasSums, IsNamedBy};

use ranked_rows::{GatheredRows, RankedRows};
use sample_tables::RowTable;
use stack_core::SourceList;
use std::alloc::{AllocError, Global};
use std::marker::Model;

/// For each stack that a list keeps the sum of those of its samples that came, and the numbers of the stacks in the
/// order in which they are appended: the rows of stacks that come in order take less time to sort. Contracts see the
/// list, and how many samples came.
#[derive(Drop)]
pub(crate) struct ListSums<'a> {
    list: &'a SourceList,
    order: Vec<u64>,
    sums: Vec<u64>,
    count: u64,
}

impl<'a> Model for ListSums<'a> {
    ghost use Rattle.merged_stacks.specs.checked.Growing.{ListFront, IsSummed};

    ghost Value = { ListFront };

    ghost view = { λ s. record { list = s.list.now; count = s.count } };

    ghost invariant = { λ s. IsSummed s.list.now s.order.items s.sums.items s.count };
}

impl<'a> ListSums<'a> {
    fn of(alloc: Global, list: &'a SourceList, order: Vec<u64>) -> Result<ListSums<'a>, AllocError>
        requires total { total_weight list.now.samples < 2 ^ 64 }
        requires order { IsPermutation (range_with_len 0 (length list.now.stacks)) order.items }
        ensures { IfOk result (λ front. front ≡ not_begun list.now) }
    {
        let _count = list.len();
        let sums = vec![in alloc; 0; list.stack_count()]?;
        Ok(ListSums {
            list,
            order,
            sums,
            count: 0,
        })
    }

    /// Of this list nothing came yet. Its stacks are in the order of these ranks of its told names.
    pub(crate) fn sorted(
        alloc: Global,
        list: &'a SourceList,
        ranks: &[u32],
    ) -> Result<ListSums<'a>, AllocError>
        requires total { total_weight list.now.samples < 2 ^ 64 }
        requires ranks { length ranks.now ≡ length list.now.told }
        ensures { IfOk result (λ front. front ≡ not_begun list.now) }
    {
        ListSums::of(alloc, list, sorted_stacks(alloc, list, ranks)?)
    }

    /// The next sample of the list comes.
    pub(crate) fn take(&mut self)
        requires { self.old.count < length self.old.list.samples }
        ensures { self.new ≡ record self.old { count = self.old.count + 1 } }
    {
        add_sample(&mut self.sums, self.list, self.count as usize);
        self.count += 1;
    }

    /// How many samples came.
    pub(crate) fn count(&self) -> u64
        ensures { result ≡ self.now.count }
    {
        self.count
    }

    /// How many names the list was told.
    pub(crate) fn told(&self) -> usize
        ensures { result ≡ length self.now.list.told }
    {
        self.list.told()
    }

    /// Appends the samples that came, by the ranks of the list's told names.
    pub(crate) fn add_to(&self, rows: &mut GatheredRows, ranks: &[u32]) -> Result<(), AllocError>
        requires { length ranks.now ≡ length self.now.list.told }
        ensures { OnOk result ((names : List (List ℕ)) (samples : List Sample)
            → IsNamedBy names ranks.now self.now.list.told → HasSums names samples rows.old
            → HasSums names (samples ++ came self.now) rows.new) }
    {
        add_numbered(rows, self.list, ranks, &self.sums, &self.order)
    }
}

/// Adds a sample to the sum of its stack.
fn add_sample(sums: &mut Vec<u64>, list: &SourceList, at: usize)
    requires at { at < length list.now.samples }
    requires total { total_weight list.now.samples < 2 ^ 64 }
    requires len { length sums.old.items ≡ length list.now.stacks }
    requires picked { ArePicked list.now.stacks sums.old.items (take at list.now.rows) }
    ensures len { length sums.new.items ≡ length list.now.stacks }
    ensures picked { ArePicked list.now.stacks sums.new.items (take (at + 1) list.now.rows) }
{
    let _count = list.len();
    sums[list.stack_number(at)] += list.weight(at);
}

/// The sums of the stacks that a list keeps.
fn sums_of(alloc: Global, list: &SourceList) -> Result<Vec<u64>, AllocError>
    requires { total_weight list.now.samples < 2 ^ 64 }
    ensures len { IfOk result (λ sums. length sums.items ≡ length list.now.stacks) }
    ensures same { IfOk result (λ sums.
        HaveSameSums (kept_samples list.now.told list.now.stacks sums.items) list.now.samples) }
{
    let mut sums = vec![in alloc; 0; list.stack_count()]?;
    for at in 0..list.len() {
        add_sample(&mut sums, list, at);
    }
    Ok(sums)
}

/// Appends the stacks of these numbers, each with its sum.
fn add_numbered(
    rows: &mut GatheredRows,
    list: &SourceList,
    ranks: &[u32],
    sums: &[u64],
    order: &[u64],
) -> Result<(), AllocError>
    requires ranks { length ranks.now ≡ length list.now.told }
    requires sums { length sums.now ≡ length list.now.stacks }
    requires order { All (λ number. number < length list.now.stacks) order.now }
    ensures { OnOk result ((names : List (List ℕ)) (samples : List Sample)
        → IsNamedBy names ranks.now list.now.told → HasSums names samples rows.old
        → HasSums names (samples ++ map (kept_sample list.now.told list.now.stacks sums.now) order.now) rows.new) }
{
    for number in order {
        let number = *number as usize;
        add_row(rows, list.stack(number), ranks, sums[number])?;
    }
    Ok(())
}

/// Appends the samples of one stack, unless they weigh nothing.
fn add_row(
    rows: &mut GatheredRows,
    numbers: &[u32],
    ranks: &[u32],
    weight: u64,
) -> Result<(), AllocError>
    requires depth { length numbers.now ≤ FRAME_LIMIT }
    requires known { All (λ number. number < length ranks.now) numbers.now }
    ensures { OnOk result ((names told : List (List ℕ)) (samples : List Sample)
        → IsNamedBy names ranks.now told → HasSums names samples rows.old
        → HasSums names (samples ++ named told (record { frames = numbers.now; weight = weight }) ∷ []) rows.new) }
{
    if weight == 0 {
        return Ok(());
    }
    rows.add(numbers, ranks, weight)
}

/// The stacks that a table keeps, each with this sum, by the ranks of its names.
pub(crate) fn rows_of_sums(
    alloc: Global,
    table: &RowTable,
    sums: &[u64],
    ranks: &[u32],
) -> Result<RankedRows, AllocError>
    requires sums { length sums.now ≡ length table.now.stacks }
    requires ranks { length ranks.now ≡ length table.now.names }
    ensures { IfOk result (λ rows. (names : List (List ℕ)) → IsNamedBy names ranks.now table.now.names
        → HasSums names (map (kept_sample table.now.names table.now.stacks sums.now)
        (range_with_len 0 (length table.now.stacks))) rows) }
{
    let mut rows = GatheredRows::with_room(alloc, 0)?;
    for number in 0..table.stack_count() {
        add_row(&mut rows, table.stack(number), ranks, sums[number])?;
    }
    Ok(rows.into_rows())
}

/// The numbers of the stacks that a list keeps, by the ranks of their names.
fn sorted_stacks(alloc: Global, list: &SourceList, ranks: &[u32]) -> Result<Vec<u64>, AllocError>
    requires { length ranks.now ≡ length list.now.told }
    ensures { IfOk result (λ order. IsPermutation (range_with_len 0 (length list.now.stacks)) order.items) }
{
    let mut rows = RankedRows::new(alloc);
    for number in 0..list.stack_count() {
        rows.push(list.stack(number), ranks, number as u64)?;
    }
    rows.weights_in_order(alloc)
}

/// Appends the samples of a list, by the ranks of its told names.
pub(crate) fn add_list(
    alloc: Global,
    rows: &mut GatheredRows,
    list: &SourceList,
    ranks: &[u32],
) -> Result<(), AllocError>
    requires ranks { length ranks.now ≡ length list.now.told }
    requires total { total_weight list.now.samples < 2 ^ 64 }
    ensures { OnOk result ((names : List (List ℕ)) (samples : List Sample)
        → IsNamedBy names ranks.now list.now.told → HasSums names samples rows.old
        → HasSums names (samples ++ list.now.samples) rows.new) }
{
    let sums = sums_of(alloc, list)?;
    let order = numbers_below(alloc, list.stack_count())?;
    add_numbered(rows, list, ranks, &sums, &order)
}

fn numbers_below(alloc: Global, count: usize) -> Result<Vec<u64>, AllocError>
    ensures { IfOk result (λ numbers. numbers.items ≡ range_with_len 0 count) }
{
    let mut numbers = Vec::new(alloc);
    numbers.extend(0..count as u64)?;
    Ok(numbers)
}

/// The samples of a list that is given up, by the ranks of its told names, which come in the place of their numbers.
fn rows_of_list(alloc: Global, list: SourceList, ranks: &[u32]) -> Result<RankedRows, AllocError>
    requires { total_weight list.samples < 2 ^ 64 }
    ensures { IfOk result (λ rows. (names : List (List ℕ))
        → IsNamedBy names ranks.now list.told → HasSums names list.samples rows) }
{
    let sums = sums_of(alloc, &list)?;
    RankedRows::from_stacks(alloc, list.into_stacks(), ranks, &sums)
}

/// Appends the samples of a list that is given up. Those of the first list stay where they are.
pub(crate) fn give_list(
    alloc: Global,
    rows: &mut GatheredRows,
    list: SourceList,
    ranks: &[u32],
) -> Result<(), AllocError>
    requires ranks { length ranks.now ≡ length list.told }
    requires total { total_weight list.samples < 2 ^ 64 }
    ensures { OnOk result ((names : List (List ℕ)) (samples : List Sample)
        → IsNamedBy names ranks.now list.told → HasSums names samples rows.old
        → HasSums names (samples ++ list.samples) rows.new) }
{
    if rows.len() > 0 {
        return add_list(alloc, rows, &list, ranks);
    }
    rows.begin(rows_of_list(alloc, list, ranks)?);
    Ok(())
}
