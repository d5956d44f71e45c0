//! Which spellings of stacks were met before, and under which row.
ghost use Rattle.std.specs.Prelude.{◌≡◌, ◌<◌, ◌≤◌, length, [], slice_range, IsTrue, IfSome, OnOk, OnErr};
ghost use Rattle.std.specs.List.{slice_index_or};
ghost use Rattle.call_tree.specs.SpellingCache.{Spelling, IsRowOf, GrowsByAtMost};
ghost use Rattle.call_tree.specs.checked.Spellings.{IsSpelledAt};

mod ahead;

use crate::hints::Hints;
use crate::slots::{PROBES, put, slot_of};
use crate::spelling_hash::hash_of;
use std::alloc::{AllocError, Global};
use std::marker::Model;

/// Where a spelling stands in its text, the row that it spells, and the hash of its bytes.
#[derive(Clone, Copy)]
struct Entry {
    start: u32,
    end: u32,
    row: u32,
    hash: u32,
}

impl Entry {
    /// `None` where a number of these is too large to be kept.
    fn of(start: usize, end: usize, row: usize, hash: u32) -> Option<Entry>
        ensures start { IfSome result (λ entry. entry.start ≡ start) }
        ensures end { IfSome result (λ entry. entry.end ≡ end) }
        ensures row { IfSome result (λ entry. entry.row ≡ row) }
    {
        Some(Entry {
            start: u32::try_from(start).ok()?,
            end: u32::try_from(end).ok()?,
            row: u32::try_from(row).ok()?,
            hash,
        })
    }

    /// Whether it has the bytes of another spelling in the same text.
    fn spells(&self, text: &[u8], spelling: &[u8]) -> bool
        ensures { IsTrue result → slice_range text.now self.now.start self.now.end ≡ spelling.now }
    {
        match text.get(self.start as usize..self.end as usize) {
            Some(known) => known == spelling,
            None => false,
        }
    }
}

/// How many slots there are at first.
const FIRST_SLOTS: usize = 1024;

/// How many spellings are remembered at most.
const ENTRY_LIMIT: usize = 1 << 24;

/// The rows of spellings that were met before. A spelling is a part of a text that the caller holds, and passes with each call; the
/// cache takes 24 to 32 bytes for each. It may forget: it looks for a spelling in a few slots only, and remembers no more than 2^24.
#[derive(Drop)]
pub struct SpellingCache {
    alloc: Global,
    entries: Vec<Entry>,
    /// In each the number of an entry, from 1, or 0.
    slots: Vec<u32>,
    /// The place of the entry that was found last.
    last: usize,
    hints: Hints,
}

impl Model for SpellingCache {
    ghost use Rattle.std.specs.Prelude.{List};
    ghost use Rattle.call_tree.specs.SpellingCache.{Spelling};
    ghost use Rattle.call_tree.specs.checked.Spellings.{spellings_of};

    ghost Value = { List Spelling };

    ghost view = { λ cache. spellings_of cache.entries.items };
}

impl SpellingCache {
    /// A cache of no spellings. It takes no memory before the first.
    pub fn new(alloc: Global) -> SpellingCache
        ensures { result ≡ [] }
    {
        SpellingCache {
            alloc,
            entries: Vec::new(alloc),
            slots: Vec::new(alloc),
            last: 0,
            hints: Hints::new(),
        }
    }

    /// Whether the spelling at a place has these bytes.
    fn is_at(&self, text: &[u8], spelling: &[u8], place: usize) -> bool
        ensures { IsTrue result → IsSpelledAt self.now text.now spelling.now place }
    {
        match self.entries.get(place) {
            Some(entry) => entry.spells(text, spelling),
            None => false,
        }
    }

    /// The place of a spelling with these bytes.
    fn place_of(&self, text: &[u8], spelling: &[u8]) -> Option<usize>
        ensures { IfSome result (IsSpelledAt self.now text.now spelling.now) }
    {
        let hash = hash_of(spelling);
        for probe in 0..PROBES {
            let number = *self.slots.get(slot_of(hash, probe, self.slots.len()))?;
            let place = (number as usize).checked_sub(1)?;
            if self.entries.get(place)?.hash == hash && self.is_at(text, spelling, place) {
                return Some(place);
            }
        }
        None
    }

    /// The same, where the spelling that was found last is looked at first, and then that of a hint.
    fn next_place_of(&self, text: &[u8], spelling: &[u8], hint: Option<usize>) -> Option<usize>
        ensures { IfSome result (IsSpelledAt self.now text.now spelling.now) }
    {
        if self.is_at(text, spelling, self.last) {
            return Some(self.last);
        }
        if let Some(place) = hint
            && self.is_at(text, spelling, place)
        {
            return Some(place);
        }
        self.place_of(text, spelling)
    }

    /// The row of the spelling at a place.
    fn row_at(&self, place: usize) -> usize
        requires { place < length self.now }
        ensures { (none : Spelling) → result ≡ (slice_index_or self.now place none).row }
    {
        self.entries[place].row as usize
    }

    /// The row of a spelling with the bytes from `start` up to `end`. `None` says nothing: it may be known nevertheless.
    pub fn find(&self, text: &[u8], start: usize, end: usize) -> Option<usize>
        requires order { start ≤ end }
        requires within { end ≤ length text.now }
        ensures { IfSome result (λ row. IsRowOf self.now text.now start end row) }
    {
        let place = self.place_of(text, &text[start..end])?;
        Some(self.row_at(place))
    }

    /// The same, for who looks for one spelling after another: the one that was found last is looked at first, since many samples
    /// have the stack of the sample before, and then the one that looking ahead found.
    pub fn find_next(&mut self, text: &[u8], start: usize, end: usize) -> Option<usize>
        requires order { start ≤ end }
        requires within { end ≤ length text.now }
        ensures row { IfSome result (λ row. IsRowOf self.old text.now start end row) }
        ensures same { self.new ≡ self.old }
    {
        let hint = self.hints.take(start);
        let place = self.next_place_of(text, &text[start..end], hint)?;
        let row = self.row_at(place);
        self.last = place;
        Some(row)
    }

    /// Remembers the row of a spelling, or forgets it.
    pub fn remember(
        &mut self,
        text: &[u8],
        start: usize,
        end: usize,
        row: usize,
    ) -> Result<(), AllocError>
        requires order { start ≤ end }
        requires within { end ≤ length text.now }
        ensures ok { OnOk result
            (GrowsByAtMost (record { start = start; end = end; row = row }) self.old self.new) }
        ensures err { OnErr result (self.new ≡ self.old) }
    {
        let hash = hash_of(&text[start..end]);
        let Some(entry) = Entry::of(start, end, row, hash) else {
            return Ok(());
        };
        let number = self.entries.len() + 1;
        if number > ENTRY_LIMIT {
            return Ok(());
        }
        if number * 2 > self.slots.len() {
            self.slots = slots_for(self.alloc, self.entries.as_slice(), self.slots.len())?;
        }
        self.entries.push(entry)?;
        put(self.slots.as_mut_slice(), hash, number as u32);
        Ok(())
    }
}

/// Slots for these entries, twice as many as before.
fn slots_for(alloc: Global, entries: &[Entry], slots: usize) -> Result<Vec<u32>, AllocError>
    requires { length entries.now ≤ ENTRY_LIMIT }
{
    let len = slots.saturating_mul(2).max(FIRST_SLOTS);
    let mut slots = vec![in alloc; 0; len]?;
    for index in 0..entries.len() {
        put(slots.as_mut_slice(), entries[index].hash, index as u32 + 1);
    }
    Ok(slots)
}
