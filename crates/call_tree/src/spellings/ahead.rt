//! Spellings that are looked for before they are asked for.
ghost use Rattle.std.specs.Prelude.{◌≡◌};

use super::{Entry, SpellingCache};
use crate::hints::{AHEAD, Hints};
use crate::slots::{PROBES, slot_of};
use crate::spelling_hash::hash_of;

/// How many bytes of a spelling are looked at before all are compared, and how far they are from one another.
const STEPS: usize = 4;

const STEP: usize = 128;

/// Whether half of them are the same as the one before: `find_next` looks there first.
fn are_mostly_repeated(hashes: &[u32]) -> bool {
    let repeated = hashes.windows(2).filter(|pair| pair[0] == pair[1]).count();
    repeated >= hashes.len() / 2
}

impl Entry {
    /// Whether a few of its bytes, far from one another, are those of another spelling.
    fn seems(&self, text: &[u8], start: usize, end: usize) -> bool {
        (0..STEPS).all(|step| {
            let at = start.saturating_add(step * STEP);
            at >= end || text.get((self.start as usize).wrapping_add(step * STEP)) == text.get(at)
        })
    }
}

impl SpellingCache {
    /// Whether it pays to look ahead.
    pub fn wants_hints(&self) -> bool {
        self.hints.are_wanted()
    }

    /// Looks for the spellings that will be asked for next, each from `start` up to `end`, in the order of the text. What it finds it does
    /// not tell: `find_next` looks there first. One spelling after another waits for memory; here the waits overlap.
    pub fn look_ahead(&mut self, text: &[u8], spellings: &[(usize, usize)])
        ensures { self.new ≡ self.old }
    {
        let count = spellings.len().min(AHEAD);
        let mut hashes = [0; AHEAD];
        for index in 0..count {
            let (start, end) = spellings[index];
            hashes[index] = text.get(start..end).map_or(0, hash_of);
        }
        let mut numbers = [0; AHEAD];
        for index in 0..count {
            numbers[index] = self.number_in(hashes[index], 0);
        }
        let mut places = [None; AHEAD];
        for index in 0..count {
            places[index] = self.place_with(hashes[index], numbers[index]);
        }
        let mut hints = Hints::new();
        for index in 0..count {
            let (start, end) = spellings[index];
            let place = places[index].filter(|place| self.seems_at(text, start, end, *place));
            hints.push(start, place);
        }
        let is_pause = hints.are_few() || are_mostly_repeated(&hashes[..count]);
        self.hints = if is_pause { Hints::paused() } else { hints };
    }

    /// The number of an entry in the slot of a hash at a probe.
    fn number_in(&self, hash: u32, probe: usize) -> u32 {
        match self.slots.get(slot_of(hash, probe, self.slots.len())) {
            Some(number) => *number,
            None => 0,
        }
    }

    /// The place of an entry with this hash, where this number stands in its first slot.
    fn place_with(&self, hash: u32, first: u32) -> Option<usize> {
        let mut number = first;
        for probe in 1..PROBES {
            let place = (number as usize).checked_sub(1)?;
            if self.entries.get(place)?.hash == hash {
                return Some(place);
            }
            number = self.number_in(hash, probe);
        }
        None
    }

    /// Whether the entry at a place seems to have the bytes from `start` up to `end`.
    fn seems_at(&self, text: &[u8], start: usize, end: usize, place: usize) -> bool {
        match self.entries.get(place) {
            Some(entry) => entry.seems(text, start, end),
            None => false,
        }
    }
}
