//! Numbers by hashes, as far as none is looked for among many.
ghost use Rattle.std.specs.Prelude.{◌≡◌, ◌<◌, ℕ, Some, IfOk, IsTrue, OnOk, nat_eq, length};
ghost use Rattle.indexmap.specs.IndexMap.{get, IsUnchanged};

use indexmap::IndexMap;
use std::alloc::{AllocError, Global};
use std::hash::BuildHasher;

/// How many cells an `IndexMap` has at each place. Where no more keys lead to a place, all of them stand there, and none is looked for
/// anywhere else.
const CELLS: u8 = 12;

/// How many keys there may be for each place. So chance leads more than 12 to less than one place in 3,000.
const LOAD: usize = 4;

/// How many places there are at first.
const FIRST_PLACES: usize = 8;

/// Numbers by hashes, which no more than 12 at each place have.
#[derive(Drop)]
pub struct HashedNumbers {
    pub numbers: IndexMap<u64, usize>,
    /// How many of the hashes lead to each place of the map.
    counts: Vec<u8>,
}

impl HashedNumbers {
    /// No numbers, and no memory.
    pub fn new(alloc: Global) -> HashedNumbers {
        HashedNumbers {
            numbers: IndexMap::new(alloc),
            counts: Vec::new(alloc),
        }
    }

    /// The number of a hash.
    pub fn find(&self, hash: u64) -> Option<usize>
        ensures { result ≡ get nat_eq self.now.numbers hash }
    {
        self.numbers.get(&hash).copied()
    }

    /// Gives a hash a number, and returns whether it did: it does not where the hash has one, or leads where many others do.
    pub fn enter(&mut self, alloc: Global, hash: u64, number: usize) -> Result<bool, AllocError>
        ensures entered { IfOk result (λ is_in. IsTrue is_in → get nat_eq self.new.numbers hash ≡ Some number) }
        ensures keeps { (other n : ℕ) → get nat_eq self.old.numbers other ≡ Some n → get nat_eq self.new.numbers other ≡ Some n }
    {
        self.make_room(alloc)?;
        let place = self.place_of(hash, self.counts.len());
        if self.counts[place] >= CELLS || self.numbers.contains_key(&hash) {
            return Ok(false);
        }
        self.numbers.insert(hash, number)?;
        self.counts[place] += 1;
        Ok(true)
    }

    /// Room for a hash more: if there is none, twice as many places. An `IndexMap` has a power of two of them, and keys for at most
    /// nine cells of each.
    fn make_room(&mut self, alloc: Global) -> Result<(), AllocError>
        ensures same { IsUnchanged self.old.numbers self.new.numbers }
        ensures some { OnOk result (0 < length self.new.counts.items) }
    {
        if self.numbers.len() / LOAD < self.counts.len() {
            return Ok(());
        }
        let places = self.counts.len().saturating_mul(2).max(FIRST_PLACES);
        let wanted = places.saturating_mul(LOAD + 1);
        self.numbers
            .reserve(wanted.saturating_sub(self.numbers.len()))?;
        self.counts = self.counted(alloc, places)?;
        Ok(())
    }

    /// How many hashes lead to each of so many places.
    fn counted(&self, alloc: Global, places: usize) -> Result<Vec<u8>, AllocError>
        requires { 0 < places }
        ensures { IfOk result (λ counts. length counts.items ≡ places) }
    {
        let mut counts = vec![in alloc; 0u8; places]?;
        for hash in self.numbers.keys() {
            let place = self.place_of(*hash, places);
            counts[place] = counts[place].saturating_add(1);
        }
        Ok(counts)
    }

    /// The place to which a hash leads in the map.
    fn place_of(&self, hash: u64, places: usize) -> usize
        requires { 0 < places }
        ensures { result < places }
    {
        let mixed = self.numbers.hasher().hash_one(hash);
        (mixed ^ mixed >> 32) as usize % places
    }
}
