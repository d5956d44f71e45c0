//! Numbers that are kept by the places of what has them.

ghost use Rattle.std.specs.Prelude.{◌≡◌, ◌+◌, ℕ, List, Some, IfOk, IfSome, slice_get};
ghost use Rattle.std.specs.List.{slice_index_or};
ghost use Rattle.profile_tables.specs.checked.FrameNumbers.{AreKept};

use std::alloc::{AllocError, Global};

/// By a place: a number plus 1, or 0 where none is kept yet, or it does not fit.
#[derive(Drop)]
pub(crate) struct KeptNumbers {
    pub(crate) numbers: Vec<u32>,
}

impl KeptNumbers {
    /// None yet, for so many places.
    pub(crate) fn new(alloc: Global, places: usize) -> Result<KeptNumbers, AllocError>
        ensures { IfOk result (λ kept. (texts : ℕ → List ℕ) (names : List (List ℕ)) →
            AreKept texts names kept.numbers.items) }
    {
        Ok(KeptNumbers {
            numbers: vec![in alloc; 0; places]?,
        })
    }

    /// The number that is kept for a place.
    pub(crate) fn get(&self, place: usize) -> Option<usize>
        ensures { IfSome result (λ number.
            slice_index_or self.now.numbers.items place 0 ≡ number + 1) }
    {
        let number = *self.numbers.get(place)?;
        (number as usize).checked_sub(1)
    }

    /// Keeps the number for a place, where it fits.
    pub(crate) fn keep(&mut self, place: usize, number: usize)
        ensures { (texts : ℕ → List ℕ) (names : List (List ℕ)) →
            AreKept texts names self.old.numbers.items →
            slice_get names number ≡ Some (texts place) →
            AreKept texts names self.new.numbers.items }
    {
        if number < u32::MAX as usize && place < self.numbers.len() {
            self.numbers[place] = number as u32 + 1;
        }
    }
}
