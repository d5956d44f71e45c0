//! The names of some lists in order, and the rank of each told name.

ghost use Rattle.std.specs.Prelude.{◌≡◌, ◌+◌, ◌-◌, ◌<◌, ◌++◌, ◌≢◌, IsTrue, false, ℕ, List, All, IfOk, OnOk, length, map, string_bytes, slice_index};
ghost use Rattle.std.specs.Ordering.{nat_cmp, is_lt};
ghost use Rattle.std.specs.Cmp.Lexicographic.{slice_cmp};
ghost use Rattle.std.specs.List.{enumerate_from};
ghost use Rattle.sample_tables.specs.Rows.{name_at};
ghost use Rattle.ranked_rows.specs.Ranks.{AreRising, all_told, AreRanks};
ghost use Rattle.ranked_rows.specs.checked.Names.{AreKept, AreSorted, Grows, placed_name};

use crate::told_names::{NameAt, ToldNames, names_of_lists, names_of_pair, narrowed, placed_names};
use sample_tables::RowTable;
use stack_core::SourceList;
use std::alloc::{AllocError, Global};

/// The names that some lists were told, each once and in order, and for each told name, list by list,
/// its place among them: its rank.
#[derive(Drop)]
pub struct NameRanks {
    pub names: Vec<String>,
    pub ranks: Vec<u32>,
}

impl NameRanks {
    /// Of the names that all lists were told. A name past the 2^32nd is refused as memory is.
    pub fn of(alloc: Global, lists: &[SourceList]) -> Result<NameRanks, AllocError>
        ensures { IfOk result (λ all.
            AreRanks (all_told lists.now) (map string_bytes all.names.items) all.ranks.items) }
    {
        if let [list] = lists {
            return ranks_of_list(alloc, list);
        }
        ranks_of_told(alloc, names_of_lists(alloc, lists)?)
    }

    /// The same of two lists.
    pub fn of_pair(
        alloc: Global,
        before: &SourceList,
        after: &SourceList,
    ) -> Result<NameRanks, AllocError>
        ensures { IfOk result (λ all.
            AreRanks (before.now.told ++ after.now.told) (map string_bytes all.names.items) all.ranks.items) }
    {
        ranks_of_told(alloc, names_of_pair(alloc, before, after)?)
    }

    /// Of the names of a table, which are mostly different ones.
    pub fn of_table(alloc: Global, table: &RowTable) -> Result<NameRanks, AllocError>
        ensures { IfOk result (λ all.
            AreRanks table.now.names (map string_bytes all.names.items) all.ranks.items) }
    {
        let names = placed_names(alloc, table.name_count(), |number| table.name(number))?;
        ranks_of_named(alloc, names)
    }
}

/// Of the names of one list, which are mostly different ones.
fn ranks_of_list(alloc: Global, list: &SourceList) -> Result<NameRanks, AllocError>
    ensures { IfOk result (λ all.
        AreRanks list.now.told (map string_bytes all.names.items) all.ranks.items) }
{
    let names = placed_names(alloc, list.told(), |number| list.told_name(number))?;
    ranks_of_named(alloc, names)
}

/// Of names, each with its place among them.
fn ranks_of_named(alloc: Global, mut told: Vec<NameAt<'_>>) -> Result<NameRanks, AllocError>
    requires { (names : List (List ℕ)) × (map placed_name told.items ≡ enumerate_from 0 names) }
    ensures { IfOk result (λ all. (names : List (List ℕ)) → map placed_name told.entry.items ≡ enumerate_from 0 names
        → AreRanks names (map string_bytes all.names.items) all.ranks.items) }
{
    told.sort_unstable();
    rank(alloc, &told)
}

/// Of told names, equal ones of which were mostly kept once.
fn ranks_of_told(alloc: Global, told: ToldNames<'_>) -> Result<NameRanks, AllocError>
    requires { (names : List (List ℕ)) × AreKept names told.kept.items told.places.items }
    ensures { IfOk result (λ all. (names : List (List ℕ)) → AreKept names told.entry.kept.items told.entry.places.items
        → AreRanks names (map string_bytes all.names.items) all.ranks.items) }
{
    let ToldNames { mut kept, places } = told;
    kept.sort_unstable();
    let NameRanks { names, ranks } = rank(alloc, &kept)?;
    let ranks = ranks_for(places, &ranks);
    Ok(NameRanks { names, ranks })
}

/// The rank of each number, in its place. A number that has none stands for nothing.
pub(crate) fn ranks_for(mut numbers: Vec<u32>, ranks: &[u32]) -> Vec<u32>
    ensures { result.items ≡ map (slice_index ranks.now) numbers.items }
{
    put_ranks(&mut numbers, ranks);
    numbers
}

fn put_ranks(numbers: &mut [u32], ranks: &[u32])
    ensures { numbers.new ≡ map (slice_index ranks.now) numbers.old }
{
    for number in numbers.iter_mut() {
        *number = rank_of(*number, ranks);
    }
}

/// The rank of a number, or 0 where it has none.
fn rank_of(number: u32, ranks: &[u32]) -> u32
    ensures { result ≡ slice_index ranks.now number }
{
    ranks.get(number as usize).copied().unwrap_or(0)
}

/// Ranks told names that come in order.
fn rank(alloc: Global, told: &[NameAt<'_>]) -> Result<NameRanks, AllocError>
    requires { (names : List (List ℕ)) × AreSorted names told.now }
    ensures { IfOk result (λ all. (names : List (List ℕ)) → AreSorted names told.now
        → AreRanks names (map string_bytes all.names.items) all.ranks.items) }
{
    let mut names = Vec::new(alloc);
    let mut ranks = vec![in alloc; 0u32; told.len()]?;
    for (name, place) in told {
        ranks[*place] = rank_next(alloc, &mut names, name)?;
    }
    Ok(NameRanks { names, ranks })
}

/// The rank of a name that comes before none of the names: that of the last one, or the next.
fn rank_next(alloc: Global, names: &mut Vec<String>, name: &str) -> Result<u32, AllocError>
    requires rising { AreRising (map string_bytes names.old.items) }
    requires next { 0 < length names.old.items
        → is_lt (slice_cmp nat_cmp name.now
        (name_at (map string_bytes names.old.items) (length names.old.items - 1))) ≡ false }
    ensures rising { OnOk result (AreRising (map string_bytes names.new.items)) }
    ensures grows { OnOk result (Grows (map string_bytes names.old.items) (map string_bytes names.new.items)) }
    ensures last { IfOk result (λ rank. rank + 1 ≡ length names.new.items) }
    ensures name { IfOk result (λ rank. name_at (map string_bytes names.new.items) rank ≡ name.now) }
{
    if is_last(names, name) {
        return narrowed(names.len() - 1);
    }
    let rank = narrowed(names.len())?;
    names.push(String::from_str(alloc, name)?)?;
    Ok(rank)
}

/// Whether the name is the last one.
fn is_last(names: &[String], name: &str) -> bool
    ensures yes { IsTrue result → (0 < length names.now)
        × (name_at (map string_bytes names.now) (length names.now - 1) ≡ name.now) }
    ensures no { result ≡ false → 0 < length names.now
        → name_at (map string_bytes names.now) (length names.now - 1) ≢ name.now }
{
    let count = names.len();
    if count == 0 {
        return false;
    }
    names[count - 1].as_str() == name
}
