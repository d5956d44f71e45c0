//! Frame names, each under a number of its own.
ghost use Rattle.std.specs.Prelude.{◌≡◌, ◌↔◌, IsTrue, ℕ, ◌<◌, List, [], length, MatchOption, OnOk, OnErr, IfOk, nat_eq, slice_get, Some};
ghost use Rattle.std.specs.BTreeMap.{get_by_text};
ghost use Rattle.std.specs.List.{slice_index_or};
ghost use Rattle.indexmap.specs.IndexMap.{get};
ghost use Rattle.sample_tables.specs.NameHashes.{hash_of_name};
ghost use Rattle.call_tree.specs.FrameTable.{with_name, HasDistinctNames};
ghost use Rattle.call_tree.specs.checked.FoundNames.{IsFound};

use crate::hashed_numbers::HashedNumbers;
use crate::name_list::NameList;
use sample_tables::{NumberCache, hash_of_name};
use std::alloc::{AllocError, Global};
use std::collections::BTreeMap;
use std::marker::Model;

/// How many slots there are for each name, where more are made.
const SLOTS: usize = 4;

/// Frame names, numbered from 0 in the order in which they were first asked for.
#[derive(Drop)]
pub struct FrameTable {
    alloc: Global,
    names: NameList,
    /// Numbers of names by their hashes, in fewer steps. It may forget some.
    met: NumberCache,
    /// The numbers of names by their hashes.
    hashed: HashedNumbers,
    /// Those of names whose hashes collide, or lead where many do.
    crowded: BTreeMap<String, usize>,
}

impl Model for FrameTable {
    ghost use Rattle.std.specs.BTreeMap.{get_by_text};
    ghost use Rattle.std.specs.Prelude.{ℕ, List, nat_eq};
    ghost use Rattle.indexmap.specs.IndexMap.{get};
    ghost use Rattle.call_tree.specs.FrameTable.{HasDistinctNames};
    ghost use Rattle.call_tree.specs.checked.FoundNames.{AreFound};

    ghost Value = { List (List ℕ) };

    ghost view = { λ t. t.names };

    ghost invariant = { λ t. HasDistinctNames t.names
        × AreFound t.names (get nat_eq t.hashed.numbers) (get_by_text t.crowded) };
}

impl FrameTable {
    /// A table without names. It takes no memory before the first name.
    pub fn new(alloc: Global) -> FrameTable
        ensures { result ≡ [] }
    {
        FrameTable {
            alloc,
            names: NameList::new(alloc),
            met: NumberCache::new(alloc),
            hashed: HashedNumbers::new(alloc),
            crowded: BTreeMap::new(alloc),
        }
    }

    /// The number of `name`: its own if the table knows it, else the next one, which it gets now.
    pub fn intern(&mut self, name: &str) -> Result<usize, AllocError>
        ensures names { OnOk result (self.new ≡ with_name self.old name.now) }
        ensures number { IfOk result (λ n. slice_get self.new n ≡ Some name.now) }
        ensures below { IfOk result (λ n. n < length self.new) }
        ensures distinct { HasDistinctNames self.new }
        ensures err { OnErr result (self.new ≡ self.old) }
    {
        let hash = hash_of_name(name);
        if let Some(number) = self.find(name, hash) {
            return Ok(number);
        }
        make_room(self.alloc, &self.names, &mut self.met)?;
        let number = self.len();
        enter(
            self.alloc,
            name,
            hash,
            number,
            &mut self.hashed,
            &mut self.crowded,
        )?;
        self.names.push(name)?;
        self.met.remember(hash, number);
        Ok(number)
    }

    /// The number of a name, by its hash.
    fn find(&self, name: &str, hash: u64) -> Option<usize>
        requires { hash ≡ hash_of_name name.now }
        ensures { MatchOption result
            ((n : ℕ) → n < length self.now → slice_index_or self.now n [] ≡ name.now → ⊥)
            (λ n. (n < length self.now) × (slice_index_or self.now n [] ≡ name.now)) }
    {
        let names = &self.names;
        if let Some(number) = self.met.find(hash, |number| has_name(names, number, name)) {
            return Some(number);
        }
        if let Some(number) = checked(names, self.hashed.find(hash), name) {
            return Some(number);
        }
        checked(names, self.crowded.get(name).copied(), name)
    }

    /// The name of a number.
    pub fn name(&self, number: usize) -> &str
        requires { number < length self.now }
        ensures { result.now ≡ slice_index_or self.now number [] }
    {
        self.names.name(number)
    }

    /// How many names there are. No two are the same.
    pub fn len(&self) -> usize
        ensures count { result ≡ length self.now }
        ensures distinct { HasDistinctNames self.now }
    {
        self.names.len()
    }

    /// Whether there is no name.
    pub fn is_empty(&self) -> bool
        ensures { IsTrue result ↔ (length self.now ≡ 0) }
    {
        self.names.len() == 0
    }

    /// Tells a proof that no two names are the same. It does nothing.
    pub(crate) fn knows_distinct_names(&self)
        ensures { HasDistinctNames self.now }
    {
        let _names = &self.names;
    }
}

/// Whether a name has this number.
fn has_name(names: &NameList, number: usize, name: &str) -> bool
    ensures { IsTrue result ↔ ((number < length names.now) × (slice_index_or names.now number [] ≡ name.now)) }
{
    if number >= names.len() {
        return false;
    }
    names.name(number) == name
}

/// Makes room in a cache for as many names more as there are, each time that they are twice as many.
fn make_room(alloc: Global, names: &NameList, met: &mut NumberCache) -> Result<(), AllocError> {
    let count = names.len();
    if !count.is_power_of_two() {
        return Ok(());
    }
    let mut roomy = NumberCache::with_room(alloc, count.saturating_mul(SLOTS))?;
    for number in 0..count {
        roomy.remember(hash_of_name(names.name(number)), number);
    }
    *met = roomy;
    Ok(())
}

/// A number, if it is the name's.
fn checked(names: &NameList, number: Option<usize>, name: &str) -> Option<usize>
    ensures { MatchOption result
        ((n : ℕ) → number ≡ Some n → n < length names.now → slice_index_or names.now n [] ≡ name.now → ⊥)
        (λ n. (n < length names.now) × (slice_index_or names.now n [] ≡ name.now)) }
{
    let number = number?;
    if has_name(names, number, name) {
        return Some(number);
    }
    None
}

/// Keeps the number of a new name: by its hash, or beside those where the hash leads to many.
fn enter(
    alloc: Global,
    name: &str,
    hash: u64,
    number: usize,
    hashed: &mut HashedNumbers,
    crowded: &mut BTreeMap<String, usize>,
) -> Result<(), AllocError>
    requires { hash ≡ hash_of_name name.now }
    ensures found { OnOk result (IsFound (get nat_eq hashed.new.numbers) (get_by_text crowded.new) name.now number) }
    ensures keeps { (other : List ℕ) (n : ℕ) → (other ≡ name.now → ⊥) → IsFound (get nat_eq hashed.old.numbers) (get_by_text crowded.old) other n
        → IsFound (get nat_eq hashed.new.numbers) (get_by_text crowded.new) other n }
{
    if !hashed.enter(alloc, hash, number)? {
        let owned = String::from_str(alloc, name)?;
        crowded.insert(owned, number)?;
    }
    Ok(())
}
