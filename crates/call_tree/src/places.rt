//! Places of numbers, which are found from the hashes of what the numbers stand for.
ghost use Rattle.std.specs.Prelude.{◌≡◌, ℕ, true, false, ◌+◌, ◌*◌, ◌<◌, ◌≤◌, ◌^◌, [], length, MatchOption, IfOk, IfErr, OnErr, vec_len, vec_capacity, slice_index};
ghost use Rattle.call_tree.specs.checked.Places.{home_of, below_of, IsPlaced, KeepsNumbers, IsFree, IsLonger, AreSound};

use std::alloc::{AllocError, Global};

/// How many slots there are at most, so that each number has 32 bits.
const SLOT_LIMIT: usize = (1 << 32) - 1;

/// Cells, in which numbers stand from 1: first the slots, then two for each number. A number stands in the slot of its hash, or below the
/// number there, where the next bit of the hash chooses between the two cells, and so on. Two hashes part at their first different bit,
/// so however many lead into one slot, a walk by different hashes has no more than 65 steps.
#[derive(Drop)]
pub struct Places {
    pub slots: usize,
    pub cells: Vec<u32>,
}

impl Places {
    /// No slots, and no memory.
    pub fn new(alloc: Global) -> Places
        ensures slots { result.slots ≡ 0 }
        ensures cells { result.cells.items ≡ [] }
        ensures sound { AreSound result.slots result.cells.items (vec_capacity result.cells) }
    {
        Places {
            slots: 0,
            cells: Vec::new(alloc),
        }
    }

    /// Empty slots, with room for as many numbers.
    pub fn with_slots(alloc: Global, slots: usize) -> Result<Places, AllocError>
        ensures slots { IfOk result (λ places. places.slots ≡ slots) }
        ensures len { IfOk result (λ places. length places.cells.items ≡ slots) }
        ensures sound { IfOk result (λ places. AreSound places.slots places.cells.items (vec_capacity places.cells)) }
    {
        if slots > SLOT_LIMIT {
            return Err(AllocError);
        }
        let mut cells = Vec::with_capacity(alloc, 3 * slots)?;
        cells.resize(slots, 0)?;
        Ok(Places { slots, cells })
    }

    /// Where the walk of a hash begins.
    pub fn home(&self, hash: u64) -> usize
        ensures { result ≡ home_of self.now.slots hash }
    {
        (hash >> 32) as usize % self.slots.max(1)
    }

    /// The number at a place.
    pub fn number_at(&self, place: usize) -> Option<usize>
        ensures { MatchOption result
            (slice_index self.now.cells.items place ≡ 0)
            (λ number. slice_index self.now.cells.items place ≡ number + 1) }
    {
        let cell = *self.cells.get(place)?;
        (cell as usize).checked_sub(1)
    }

    /// Where a walk goes on below a number.
    pub fn below(&self, number: usize, bits: u64) -> usize
        requires { self.now.slots + 2 * number + 1 < length self.now.cells.items }
        ensures { result ≡ below_of self.now.slots number bits }
    {
        self.slots + 2 * number + (bits % 2) as usize
    }

    /// The empty place where the walk of a hash ends.
    pub fn end_of_walk(&self, hash: u64) -> usize
        requires some { 0 < self.now.slots }
        requires slots { self.now.slots ≤ length self.now.cells.items }
        requires sound { AreSound self.now.slots self.now.cells.items (vec_capacity self.now.cells) }
        ensures { IsFree self.now.cells.items self.now.slots hash result }
    {
        match self.walk(
            hash,
            |_|
                ensures { result ≡ false }
            { false },
        ) {
            Ok(_) => unreachable!(),
            Err(place) => place,
        }
    }

    /// The number on the walk of a hash of which this test holds, or the empty place where the walk ends.
    pub fn walk<F: Fn(usize) -> bool>(&self, hash: u64, is_it: F) -> Result<usize, usize>
        requires callable { F.IsAlwaysCallable is_it }
        requires slots { self.now.slots ≤ length self.now.cells.items }
        requires sound { AreSound self.now.slots self.now.cells.items (vec_capacity self.now.cells) }
        ensures found { IfOk result (λ number. F.post is_it number true) }
        ensures absent { OnErr result ((number : ℕ) → IsPlaced self.now.cells.items self.now.slots hash number → F.post is_it number false) }
        ensures free { IfErr result (λ place. 0 < self.now.slots → IsFree self.now.cells.items self.now.slots hash place) }
    {
        let mut place = self.home(hash);
        let mut bits = hash;
        while let Some(number) = self.number_at(place) {
            if is_it(number) {
                return Ok(number);
            }
            place = self.below(number, bits);
            bits /= 2;
        }
        Err(place)
    }

    /// The same places once more.
    pub fn copy(&self, alloc: Global) -> Result<Places, AllocError>
        requires { AreSound self.now.slots self.now.cells.items (vec_capacity self.now.cells) }
        ensures slots { IfOk result (λ places. places.slots ≡ self.now.slots) }
        ensures cells { IfOk result (λ places. places.cells.items ≡ self.now.cells.items) }
        ensures sound { IfOk result (λ places. AreSound places.slots places.cells.items (vec_capacity places.cells)) }
    {
        let mut cells = Vec::with_capacity(alloc, 3 * self.slots)?;
        cells.extend_from_slice(self.cells.as_slice())?;
        Ok(Places {
            slots: self.slots,
            cells,
        })
    }

    /// Two empty cells more.
    fn lengthen(&mut self)
        requires { vec_len self.old.cells + 2 ≤ vec_capacity self.old.cells }
        ensures slots { self.new.slots ≡ self.old.slots }
        ensures longer { IsLonger self.old.cells.items self.new.cells.items }
        ensures capacity { vec_capacity self.old.cells ≤ vec_capacity self.new.cells }
    {
        let _ = self.cells.push(0);
        let _ = self.cells.push(0);
    }

    /// Gives the next number its two cells, and puts it at an empty place.
    pub fn push(&mut self, hash: u64, place: usize, number: usize)
        requires next { length self.old.cells.items ≡ self.old.slots + 2 * number }
        requires room { number < self.old.slots }
        requires sound { AreSound self.old.slots self.old.cells.items (vec_capacity self.old.cells) }
        requires free { IsFree self.old.cells.items self.old.slots hash place }
        ensures slots { self.new.slots ≡ self.old.slots }
        ensures len { length self.new.cells.items ≡ self.new.slots + 2 * (number + 1) }
        ensures sound { AreSound self.new.slots self.new.cells.items (vec_capacity self.new.cells) }
        ensures keeps { KeepsNumbers self.old.cells.items self.new.cells.items }
        ensures placed { IsPlaced self.new.cells.items self.new.slots hash number }
    {
        self.lengthen();
        self.cells[place] = (number + 1) as u32;
    }
}
