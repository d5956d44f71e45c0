//! What tells the stacks of a profile: each name once, and a stack that was told before by its number.

ghost use Rattle.std.specs.Prelude.{◌≡◌, ◌<◌, ◌≤◌, ◌+◌, ◌-◌, ◌^◌, ℕ, List, [], length, false, is_none, IfOk, IfSome, MatchOption, OnOk, OnErr};
ghost use Rattle.std.specs.List.{list_any};
ghost use Rattle.sample_tables.specs.Rows.{name_at};
ghost use Rattle.sample_tables.specs.declared.samples.TheConstants.{FRAME_LIMIT};
ghost use Rattle.stack_core.specs.Prefixes.{IsPrefixOf};
ghost use Rattle.profile_tables.specs.declared.frames.Frames.{Frames};
ghost use Rattle.profile_tables.specs.Samples.{stack_of_ids};
ghost use Rattle.profile_tables.specs.State.{nothing_told};
ghost use Rattle.profile_tables.specs.checked.Frames.{frames_at};
ghost use Rattle.profile_tables.specs.checked.Fronts.{bytes_at};
ghost use Rattle.profile_tables.specs.checked.Tellers.{told_of, IsStackOf, IsTeller, IsRunOf, Remembers, TellsStack};

use crate::ahead::look_ahead;
use crate::frame_numbers::FrameNumbers;
use crate::frames::Frames;
use crate::outline::Stretch;
use crate::samples::CheckedSample;
use call_tree::{SpellingCache, StackHistory};
use profile_messages::Span;
use stack_core::{Listed, Text};
use std::alloc::{AllocError, Global};
use std::fmt;

/// The names that were told, and the stacks, which are known again by the bytes that spell their location ids.
#[derive(Drop)]
pub(crate) struct Teller {
    numbers: FrameNumbers,
    spellings: SpellingCache,
    /// How many stacks were told.
    pub(crate) count: usize,
    told: StackHistory,
}

/// Writes how many names and stacks were told.
impl fmt::Debug for Teller {
    fn fmt<W: fmt::Write>(&self, f: &mut fmt::Formatter<W>) -> fmt::Result {
        f.debug_struct("Teller")
            .field("names", &self.numbers.table.len())
            .field("stacks", &self.count)
            .finish()
    }
}

/// A sample whose stack is told: its names that are new, and the numbers of all, root first.
#[derive(Drop)]
pub(crate) struct NewRow {
    pub(crate) names: Listed<Text>,
    pub(crate) frames: Listed<usize>,
    pub(crate) weight: u64,
}

/// Remembers the stack that a run spells, where there is one.
fn remember(
    spellings: &mut SpellingCache,
    file: &[u8],
    run: Option<Span>,
    row: usize,
) -> Result<(), AllocError>
    requires { IfSome run (λ run. (run.start ≤ run.end) × (run.end ≤ length file.now)) }
    ensures ok { OnOk result (Remembers run row spellings.old spellings.new) }
    ensures refused { OnErr result (spellings.new ≡ spellings.old) }
{
    match run {
        Some(run) => spellings.remember(file, run.start, run.end, row),
        None => Ok(()),
    }
}

impl Teller {
    /// A teller that told nothing.
    pub(crate) fn new(alloc: Global, frames: &Frames) -> Result<Teller, AllocError>
        ensures teller { IfOk result (λ teller. (file : List ℕ) → IsTeller file frames.now teller) }
        ensures nothing { IfOk result (λ teller. told_of teller ≡ nothing_told) }
        ensures count { IfOk result (λ teller. teller.count ≡ 0) }
    {
        Ok(Teller {
            numbers: FrameNumbers::new(alloc, frames)?,
            spellings: SpellingCache::new(alloc),
            count: 0,
            told: StackHistory::new(),
        })
    }

    /// The name of this number, if there is one.
    pub(crate) fn name(&self, number: usize) -> Option<&str>
        ensures { MatchOption result (length (told_of self.now).names ≤ number)
            (λ name. name.now ≡ name_at (told_of self.now).names number) }
    {
        let names = &self.numbers.table;
        if number < names.len() {
            Some(names.name(number))
        } else {
            None
        }
    }

    /// Looks for the stacks of the next samples, whose tags have these offsets, before they are asked for.
    pub(crate) fn look_ahead(&mut self, file: &[u8], samples: &[usize], left: Stretch)
        ensures { self.new ≡ self.old }
    {
        look_ahead(file, samples, left, &mut self.spellings);
    }

    /// The number of the stack that a run of location ids spells. None says nothing.
    pub(crate) fn find(&mut self, file: &[u8], run: Span) -> Option<usize>
        requires order { run.start ≤ run.end }
        requires within { run.end ≤ length file.now }
        ensures row { IfSome result (λ row. (frames : Frames) → IsTeller file.now frames self.old →
            IsStackOf frames (told_of self.old) (bytes_at file.now run) row) }
        ensures same { self.new ≡ self.old }
    {
        self.spellings.find_next(file, run.start, run.end)
    }

    /// Tells the stack of a sample, and remembers the run of bytes in the file that spells it. Want of memory may leave names behind.
    pub(crate) fn tell(
        &mut self,
        alloc: Global,
        frames: &Frames,
        sample: &CheckedSample,
        file: &[u8],
        run: Option<Span>,
    ) -> Result<NewRow, AllocError>
        requires teller { IsTeller file.now frames.now self.old }
        requires room { self.old.count + 1 < 2 ^ 64 }
        requires known { list_any (λ id. is_none (frames_at frames.now id)) sample.now.ids.items
            ≡ false }
        requires depth { length (stack_of_ids (frames_at frames.now) sample.now.ids.items)
            ≤ FRAME_LIMIT }
        requires run { IfSome run (IsRunOf file.now sample.now.ids.items) }
        ensures teller { IsTeller file.now frames.now self.new }
        ensures told { IfOk result (λ row. TellsStack (told_of self.old) (told_of self.new)
            row.names row.frames
            (stack_of_ids (frames_at frames.now) sample.now.ids.items)) }
        ensures weight { IfOk result (λ row. row.weight ≡ sample.now.weight) }
        ensures count { OnOk result (self.new.count ≡ self.old.count + 1) }
        ensures stacks { OnErr result ((told_of self.new).stacks ≡ (told_of self.old).stacks) }
        ensures names { IsPrefixOf (told_of self.old).names (told_of self.new).names }
    {
        let first = self.numbers.table.len();
        let row = self
            .numbers
            .row_of(alloc, frames, &sample.ids, sample.depth)?;
        let names = self.numbers.names_from(alloc, first)?;
        remember(&mut self.spellings, file, run, self.count)?;
        let frames = Listed::of(row);
        self.told.push(&frames);
        self.count += 1;
        Ok(NewRow {
            names: Listed::of(names),
            frames,
            weight: sample.weight,
        })
    }
}
