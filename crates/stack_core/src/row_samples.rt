//! A reader of samples, made of a reader of rows: it gives each number its name.

ghost use Rattle.std.specs.Prelude.{◌≡◌, ◌≤◌, ◌<◌, ◌^◌, [], true, false, length, IfOk, IsOk, OnOk, OnErr, MatchResult};
ghost use Rattle.std.proofs.Props.{props};
ghost use Rattle.sample_tables.specs.declared.samples.TheConstants.{FRAME_LIMIT, WEIGHT_LIMIT};
ghost use Rattle.stack_core.specs.Prefixes.{IsPrefixOf};
ghost use Rattle.stack_core.specs.Reading.{IsEnd, IsWithinLimits, Rest, Steps};
ghost use Rattle.stack_core.specs.Records.{names_at};
ghost use Rattle.stack_core.specs.RowReading.{IsLastStep, IsLimitedStep, StepsByRows};
ghost use Rattle.stack_core.specs.RowSamples.{Nothing, OneRow, Ending, IsStepBehind, given_by, is_at_end, is_idle, left_with, stacks_with};

use crate::endings::SourceEnd;
use crate::readers::{KnownRows, RowReader, RowStep, SampleReader, Step};
use sample_tables::{Listed, Names, Sample};
use std::alloc::{AllocError, Global};
use std::marker::Model;

/// The names of these numbers, in the reader's table.
fn names_of<R: RowReader>(alloc: Global, reader: &R, frames: &[usize]) -> Result<Names, AllocError>
    ensures { IfOk result (λ names. names ≡ names_at (R.told reader.now).names frames.now) }
{
    let mut names = Vec::with_capacity(alloc, frames.len())?;
    for number in frames {
        let name = match reader.name(*number) {
            Some(name) => name,
            None => "",
        };
        names.push(String::from_str(alloc, name)?)?;
    }
    Ok(Names::of(names))
}

/// A stack by numbers, and a weight.
#[derive(Clone, Copy)]
struct AwaitedRow<'a> {
    frames: &'a [usize],
    weight: u64,
}

/// The stacks that a reader of rows told, and its last step, until the sample for which that stands is handed on.
#[derive(Drop)]
pub struct RowSamples {
    stacks: Vec<Listed<usize>>,
    step: Option<RowStep>,
}

impl Model for RowSamples {
    ghost use Rattle.stack_core.specs.RowSamples.{Awaiting};
    ghost use Rattle.stack_core.specs.checked.RowSamples.{awaiting_by, AreKept};

    ghost Value = { Awaiting };

    ghost view = { λ samples. awaiting_by samples.stacks.items samples.step };

    ghost invariant = { λ samples. AreKept samples.stacks.items samples.step };
}

impl RowSamples {
    /// Nothing was told. It takes no memory.
    pub fn new(alloc: Global) -> Self
        ensures { result ≡ record { stacks = []; awaited = Nothing } }
    {
        RowSamples {
            stacks: Vec::new(alloc),
            step: None,
        }
    }

    /// Whether the reader is to be asked for its next step.
    pub fn is_idle(&self) -> bool
        ensures { result ≡ is_idle self.now.awaited }
    {
        self.step.is_none()
    }

    /// Takes the reader's next step. It takes no memory.
    pub fn take(&mut self, step: RowStep)
        requires idle { is_idle self.old.awaited ≡ true }
        requires step { IsStepBehind self.old.stacks step }
        ensures stacks { self.new.stacks ≡ stacks_with self.old.stacks step }
        ensures awaited { self.new.awaited ≡ given_by self.old.stacks step }
    {
        self.step = Some(step);
    }

    /// The row that is awaited, or the ending.
    fn awaited(&self) -> Result<AwaitedRow<'_>, SourceEnd>
        requires { is_idle self.now.awaited ≡ false }
        ensures { MatchResult result
            (λ row. (self.now.awaited ≡ OneRow (record { frames = row.frames.now; weight = row.weight }))
            × (length row.frames.now ≤ FRAME_LIMIT) × (row.weight ≤ WEIGHT_LIMIT))
            (λ ending. self.now.awaited ≡ Ending ending) }
    {
        match &self.step {
            Some(RowStep::New { frames, weight, .. }) => Ok(AwaitedRow {
                frames: frames.get(),
                weight: *weight,
            }),
            Some(RowStep::Again { row, weight }) => Ok(AwaitedRow {
                frames: self.stacks[*row].get(),
                weight: *weight,
            }),
            Some(RowStep::End(ending)) => Err(*ending),
            None => unreachable!(),
        }
    }

    /// Keeps the stack of the step, where it is a new one, in its place.
    fn keep(&mut self) -> Result<(), AllocError>
        requires { is_at_end self.old.awaited ≡ false }
        ensures ok { OnOk result (self.new ≡ record { stacks = self.old.stacks; awaited = Nothing }) }
        ensures refused { OnErr result (self.new ≡ self.old) }
    {
        self.stacks.reserve(1)?;
        if let Some(RowStep::New { frames, .. }) = self.step.take() {
            self.stacks.push_reserved(frames);
        }
        Ok(())
    }

    /// Hands on what is awaited: the sample, or the ending, which is awaited again. Want of memory changes nothing. The names are
    /// those of the reader that gave the steps.
    pub fn give<R: RowReader>(&mut self, alloc: Global, reader: &R) -> Result<Step, AllocError>
        requires { is_idle self.old.awaited ≡ false }
        ensures step { IfOk result (λ step. (rest : Rest) →
            Steps (left_with (R.told reader.now).names self.old.awaited rest) step
            (left_with (R.told reader.now).names self.new.awaited rest)) }
        ensures limits { IfOk result IsWithinLimits }
        ensures stacks { self.new.stacks ≡ self.old.stacks }
        ensures refused { OnErr result (self.new ≡ self.old) }
        ensures ended { IfOk result (λ step. IsEnd step → is_at_end self.new.awaited ≡ true) }
        ensures repeats { is_at_end self.old.awaited ≡ true → IsOk result }
    {
        match self.awaited() {
            Ok(AwaitedRow { frames, weight }) => {
                let stack = names_of(alloc, reader, frames)?;
                self.keep()?;
                Ok(Step::Sample(Sample { stack, weight }))
            }
            Err(ending) => Ok(Step::End(ending)),
        }
    }
}

/// The next step of a reader over bytes that are known. It comes off the one rest that the reader may give.
fn next_known<R: KnownRows>(alloc: Global, reader: &mut R) -> Result<RowStep, AllocError>
    ensures step { IfOk result (λ step. StepsByRows (R.told reader.old) (R.rest reader.old) step
        (R.told reader.new) (R.rest reader.new)) }
    ensures limits { IfOk result IsLimitedStep }
    ensures refused { OnErr result (R.rest reader.new ≡ R.rest reader.old) }
    ensures stacks { OnErr result ((R.told reader.new).stacks ≡ (R.told reader.old).stacks) }
    ensures names { OnErr result (IsPrefixOf (R.told reader.old).names (R.told reader.new).names) }
    ensures few { length (R.rest reader.old).samples < 2 ^ 64 }
    ensures ended { IfOk result (λ step. IsLastStep step → R.has_ended reader.new) }
    ensures repeats { R.has_ended reader.old → IsOk result }
{
    reader.next_row(alloc)
}

/// A reader of the samples for which the rows of another stand, and of its ending.
#[derive(Drop)]
pub struct NamingReader<R: KnownRows> {
    pub reader: R,
    pub samples: RowSamples,
    ghost stacks: { (R.told reader).stacks ≡ samples.stacks } by { Prim.hlevel props },
    ghost few: { is_idle samples.awaited ≡ false →
        length (left_with (R.told reader).names samples.awaited (R.rest reader)).samples < 2 ^ 64 } by { Prim.hlevel props },
}

impl<R: KnownRows> NamingReader<R> {
    /// A reader that gave nothing yet. It takes no memory.
    pub fn of(alloc: Global, reader: R) -> Self
        requires { (R.told reader).stacks ≡ [] }
        ensures reader { result.reader ≡ reader }
        ensures samples { result.samples ≡ record { stacks = []; awaited = Nothing } }
    {
        NamingReader {
            reader,
            samples: RowSamples::new(alloc),
        }
    }
}

impl<R: KnownRows> SampleReader for NamingReader<R> {
    ghost use Rattle.std.specs.Prelude.{IsTrue};
    ghost use Rattle.stack_core.specs.RowSamples.{is_at_end, left_with};

    ghost rest = { λ naming. left_with (R.told naming.reader).names naming.samples.awaited (R.rest naming.reader) };

    ghost has_ended = { λ naming. IsTrue (is_at_end naming.samples.awaited) };

    fn next(&mut self, alloc: Global) -> Result<Step, AllocError> {
        if self.samples.is_idle() {
            let step = next_known(alloc, &mut self.reader)?;
            self.samples.take(step);
        }
        self.samples.give(alloc, &self.reader)
    }
}
