//! Frames by the numbers of their names.

ghost use Rattle.std.specs.Prelude.{◌≡◌, ◌≤◌, ◌<◌, ◌+◌, ◌++◌, ◌∷◌, [], ℕ, List, Some, length, drop, IfOk, OnOk, OnErr, slice_get};
ghost use Rattle.stack_core.specs.NamesInOrder.{with_name};
ghost use Rattle.stack_core.specs.Prefixes.{IsPrefixOf};
ghost use Rattle.profile_tables.specs.Samples.{stack_of_ids};
ghost use Rattle.profile_tables.specs.checked.Frames.{text_in, name_in_place, frames_at};
ghost use Rattle.profile_tables.specs.checked.FrameNumbers.{all_texts, text_at, root_first, AreKept, AreNumbersOf, IsLookUp, IsNumbered};

use crate::frames::{Frame, Frames};
use crate::kept_numbers::KeptNumbers;
use call_tree::FrameTable;
use profile_messages::Span;
use stack_core::Text;
use std::alloc::{AllocError, Global};

/// The numbers of frames' names. A frame's number is looked up by its name once. Where that is a name of a function and no more, it is
/// looked up once for all frames that have it, since a long name may have many.
#[derive(Drop)]
pub(crate) struct FrameNumbers {
    pub(crate) table: FrameTable,
    /// By the place of a frame among all.
    frames: KeptNumbers,
    /// By the place of a name.
    names: KeptNumbers,
}

impl FrameNumbers {
    /// No numbers yet.
    pub(crate) fn new(alloc: Global, frames: &Frames) -> Result<FrameNumbers, AllocError>
        ensures none { IfOk result (λ numbers. numbers.table ≡ []) }
        ensures kept { IfOk result (AreNumbersOf frames.now) }
    {
        Ok(FrameNumbers {
            table: FrameTable::new(alloc),
            frames: KeptNumbers::new(alloc, frames.all.len())?,
            names: KeptNumbers::new(alloc, frames.names.len())?,
        })
    }

    /// The number of the name at a place.
    fn look_up_name(&mut self, frames: &Frames, place: usize) -> Result<usize, AllocError>
        requires known { AreKept (name_in_place frames.now) self.old.table self.old.names.numbers.items }
        ensures { IsLookUp frames.now (name_in_place frames.now place) self.old self.new result }
    {
        if let Some(number) = self.names.get(place) {
            return Ok(number);
        }
        let number = self.table.intern(frames.plain_name(place))?;
        self.names.keep(place, number);
        Ok(number)
    }

    /// The number of a frame's name, which the table gets where it is new. No name is made where the table knows it.
    fn look_up(&mut self, alloc: Global, frames: &Frames, frame: Frame) -> Result<usize, AllocError>
        requires known { AreKept (name_in_place frames.now) self.old.table self.old.names.numbers.items }
        ensures { IsLookUp frames.now (text_in frames.now frame) self.old self.new result }
    {
        match frames.plain_place(frame) {
            Some(place) => self.look_up_name(frames, place),
            None => self.table.intern(frames.name(alloc, frame)?.as_str()),
        }
    }

    /// The number of the frame at a place.
    fn number(&mut self, alloc: Global, frames: &Frames, place: usize) -> Result<usize, AllocError>
        requires within { place < length frames.now.all.items }
        requires known { AreNumbersOf frames.now self.old }
        ensures known { AreNumbersOf frames.now self.new }
        ensures names { OnOk result
            (self.new.table ≡ with_name self.old.table (text_at frames.now place)) }
        ensures number { IfOk result (λ number.
            slice_get self.new.table number ≡ Some (text_at frames.now place)) }
        ensures refused { OnErr result (self.new.table ≡ self.old.table) }
    {
        if let Some(number) = self.frames.get(place) {
            return Ok(number);
        }
        let number = self.look_up(alloc, frames, frames.all[place])?;
        self.frames.keep(place, number);
        Ok(number)
    }

    /// Appends the numbers of the frames at a part of all, root first.
    fn append(
        &mut self,
        alloc: Global,
        frames: &Frames,
        row: &mut Vec<usize>,
        span: Span,
    ) -> Result<(), AllocError>
        requires order { span.start ≤ span.end }
        requires within { span.end ≤ length (all_texts frames.now) }
        requires known { AreNumbersOf frames.now self.old }
        ensures known { AreNumbersOf frames.now self.new }
        ensures row { OnOk result ((before stack : List (List ℕ)) →
            IsNumbered before stack self.old.table row.old.items →
            IsNumbered before (stack ++ root_first frames.now span.start span.end)
            self.new.table row.new.items) }
        ensures grows { IsPrefixOf self.old.table self.new.table }
    {
        let mut past = span.end;
        while past > span.start {
            past -= 1;
            row.push(self.number(alloc, frames, past)?)?;
        }
        Ok(())
    }

    /// The numbers of a sample's frames, root first, of its location ids, which are leaf first. `depth` is how many there are.
    pub(crate) fn row_of(
        &mut self,
        alloc: Global,
        frames: &Frames,
        ids: &[u64],
        depth: usize,
    ) -> Result<Vec<usize>, AllocError>
        requires known { AreNumbersOf frames.now self.old }
        ensures known { AreNumbersOf frames.now self.new }
        ensures row { IfOk result (λ row. IsNumbered self.old.table
            (stack_of_ids (frames_at frames.now) ids.now) self.new.table row.items) }
        ensures grows { IsPrefixOf self.old.table self.new.table }
    {
        let mut row = Vec::with_capacity(alloc, depth)?;
        let mut left = ids;
        while let Some((id, before)) = left.split_last() {
            if let Some(span) = frames.span(*id) {
                self.append(alloc, frames, &mut row, span)?;
            }
            left = before;
        }
        Ok(row)
    }

    /// The names from a number on.
    pub(crate) fn names_from(&self, alloc: Global, first: usize) -> Result<Vec<Text>, AllocError>
        requires { first ≤ length self.now.table }
        ensures { IfOk result (λ names. names.items ≡ drop first self.now.table) }
    {
        let mut names = Vec::with_capacity(alloc, self.table.len() - first)?;
        for number in first..self.table.len() {
            names.push(Text::from_str(alloc, self.table.name(number))?)?;
        }
        Ok(names)
    }
}
