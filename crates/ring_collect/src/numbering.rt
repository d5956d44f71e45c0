//! A reader of rows, made of a reader of samples: it numbers their names, and tells each stack as a new one.

ghost use Rattle.std.specs.Prelude.{◌≡◌, ◌<◌, ◌≤◌, ◌++◌, ◌∷◌, [], List, ℕ, All, ◌+◌, ◌^◌, Some, IfOk, IfSome, OnOk, length, map, slice_get, string_bytes};
ghost use Rattle.ring_collect.specs.NamesInOrder.{GrowsTo, with_stack};
ghost use Rattle.ring_collect.specs.checked.Numbering.{stacks_of};
ghost use Rattle.stack_core.specs.NamesInOrder.{with_name};
ghost use Rattle.std.proofs.Props.{props};
ghost use Rattle.sample_tables.specs.declared.samples.TheConstants.{FRAME_LIMIT, WEIGHT_LIMIT};
ghost use Rattle.stack_core.specs.Records.{names_at};

use call_tree::FrameTable;
use stack_core::{Listed, RowReader, RowStep, Sample, SampleReader, Step, Text};
use std::alloc::{AllocError, Global};
use std::snapshot::Snapshot;

/// Stacks in the order in which they were told. It has no bytes of theirs: contracts alone read them.
#[derive(Drop)]
pub enum ToldStacks {
    Nothing,
    More {
        before: Snapshot<ToldStacks>,
        last: Snapshot<Vec<usize>>,
    },
}

impl ToldStacks {
    /// Puts a stack behind the others.
    fn push(&mut self, last: &Vec<usize>)
        ensures { stacks_of self.new ≡ stacks_of self.old ++ last.now.items ∷ [] }
    {
        *self = ToldStacks::More {
            before: Snapshot::of(self),
            last: Snapshot::of(last),
        };
    }
}

/// The number of a name, which is put behind the new ones where it is new.
fn number_name(
    alloc: Global,
    table: &mut FrameTable,
    name: &str,
    new: &mut Vec<Text>,
) -> Result<usize, AllocError>
    ensures told { OnOk result ((known : List (List ℕ)) → table.old ≡ known ++ new.old.items
        → table.new ≡ known ++ new.new.items) }
    ensures asked { OnOk result (table.new ≡ with_name table.old name.now) }
    ensures grown { GrowsTo table.old table.new }
    ensures number { IfOk result (λ n. slice_get table.new n ≡ Some name.now) }
{
    let known = table.len();
    let number = table.intern(name)?;
    if number == known {
        new.push(Text::from_str(alloc, name)?)?;
    }
    Ok(number)
}

/// The numbers of the names of a stack. The new ones are put behind those before, in their order.
fn number_names(
    alloc: Global,
    table: &mut FrameTable,
    stack: &[String],
    new: &mut Vec<Text>,
) -> Result<Vec<usize>, AllocError>
    requires { new.old.items ≡ [] }
    ensures told { OnOk result (table.new ≡ table.old ++ new.new.items) }
    ensures asked { OnOk result (table.new ≡ with_stack table.old (map string_bytes stack.now)) }
    ensures grown { GrowsTo table.old table.new }
    ensures numbers { IfOk result (λ numbers.
        names_at table.new numbers.items ≡ map string_bytes stack.now) }
    ensures known { IfOk result (λ numbers.
        All (λ number. number < length table.new) numbers.items) }
    ensures count { IfOk result (λ numbers. length numbers.items ≡ length stack.now) }
{
    let mut numbers = Vec::with_capacity(alloc, stack.len())?;
    for name in stack {
        numbers.push(number_name(alloc, table, name.as_str(), new)?)?;
    }
    Ok(numbers)
}

/// A reader, with the names that it was asked for. After want of memory a sample that it gave waits until its stack is numbered.
#[derive(Drop)]
pub struct NumberingReader<R: SampleReader> {
    pub reader: R,
    pub waiting: Option<Sample>,
    pub names: FrameTable,
    pub stacks: ToldStacks,
    ghost few: { IfSome waiting (λ _. length (R.rest reader).samples + 1 < 2 ^ 64) } by { Prim.hlevel props },
    ghost depth: { IfSome waiting (λ sample. length sample.stack ≤ FRAME_LIMIT) } by { Prim.hlevel props },
    ghost weight: { IfSome waiting (λ sample. sample.weight ≤ WEIGHT_LIMIT) } by { Prim.hlevel props },
}

impl<R: SampleReader> NumberingReader<R> {
    ghost use Rattle.std.specs.Prelude.{◌≡◌, ◌<◌, ◌^◌, [], None, length, IfOk, IsOk, IsSome, OnErr};
    ghost use Rattle.ring_collect.specs.NamesInOrder.{GrowsTo};
    ghost use Rattle.ring_collect.specs.checked.Numbering.{stacks_of, told_of, with_waiting};
    ghost use Rattle.stack_core.specs.Prefixes.{IsPrefixOf};
    ghost use Rattle.stack_core.specs.RowReading.{IsLastStep, IsLimitedStep, StepsByRows};

    /// Nothing is told yet.
    pub fn of(alloc: Global, reader: R) -> Self
        ensures reader { result.reader ≡ reader }
        ensures waiting { result.waiting ≡ None }
        ensures names { result.names ≡ [] }
        ensures stacks { stacks_of result.stacks ≡ [] }
    {
        NumberingReader {
            reader,
            waiting: None,
            names: FrameTable::new(alloc),
            stacks: ToldStacks::Nothing,
        }
    }

    /// Tells the sample that waits.
    fn tell_waiting(&mut self, alloc: Global) -> Result<RowStep, AllocError>
        requires { IsSome self.old.waiting }
        ensures step { IfOk result (λ step. StepsByRows (told_of self.old.names self.old.stacks)
            (with_waiting self.old.waiting (R.rest self.old.reader)) step
            (told_of self.new.names self.new.stacks)
            (with_waiting self.new.waiting (R.rest self.new.reader))) }
        ensures limits { IfOk result IsLimitedStep }
        ensures sample { IfOk result (λ step. IsLastStep step → ⊥) }
        ensures waits { OnErr result (self.new.waiting ≡ self.old.waiting) }
        ensures reader { self.new.reader ≡ self.old.reader }
        ensures stacks { OnErr result (stacks_of self.new.stacks ≡ stacks_of self.old.stacks) }
        ensures names { GrowsTo self.old.names self.new.names }
    {
        let Some(sample) = &self.waiting else {
            unreachable!()
        };
        let weight = sample.weight;
        let mut names = Vec::new(alloc);
        let frames = number_names(alloc, &mut self.names, sample.stack.get(), &mut names)?;
        self.stacks.push(&frames);
        self.waiting = None;
        Ok(RowStep::New {
            names: Listed::of(names),
            frames: Listed::of(frames),
            weight,
        })
    }

    /// The next step. Contracts see the one rest that the reader gives.
    fn next_step(&mut self, alloc: Global) -> Result<RowStep, AllocError>
        ensures step { IfOk result (λ step. StepsByRows (told_of self.old.names self.old.stacks)
            (with_waiting self.old.waiting (R.rest self.old.reader)) step
            (told_of self.new.names self.new.stacks)
            (with_waiting self.new.waiting (R.rest self.new.reader))) }
        ensures limits { IfOk result IsLimitedStep }
        ensures refused { OnErr result (with_waiting self.new.waiting (R.rest self.new.reader)
            ≡ with_waiting self.old.waiting (R.rest self.old.reader)) }
        ensures stacks { OnErr result (stacks_of self.new.stacks ≡ stacks_of self.old.stacks) }
        ensures names { OnErr result (IsPrefixOf self.old.names self.new.names) }
        ensures few { length (with_waiting self.old.waiting (R.rest self.old.reader)).samples
            < 2 ^ 64 }
        ensures ended { IfOk result (λ step. IsLastStep step → (self.new.waiting ≡ None)
            × R.has_ended self.new.reader × ((R.rest self.new.reader).samples ≡ [])) }
        ensures repeats { (self.old.waiting ≡ None) × R.has_ended self.old.reader
            × ((R.rest self.old.reader).samples ≡ []) → IsOk result }
    {
        if self.waiting.is_some() {
            return self.tell_waiting(alloc);
        }
        match self.reader.next(alloc)? {
            Step::Sample(sample) => {
                self.waiting = Some(sample);
                self.tell_waiting(alloc)
            }
            Step::End(ending) => Ok(RowStep::End(ending)),
        }
    }
}

impl<R: SampleReader> RowReader for NumberingReader<R> {
    ghost use Rattle.std.specs.Prelude.{◌≡◌, None, []};
    ghost use Rattle.ring_collect.specs.checked.Numbering.{told_of, with_waiting};

    ghost gives = { λ numbering rest.
        rest ≡ with_waiting numbering.waiting (R.rest numbering.reader) };

    ghost told = { λ numbering. told_of numbering.names numbering.stacks };

    ghost has_ended = { λ numbering. (numbering.waiting ≡ None) × R.has_ended numbering.reader
        × ((R.rest numbering.reader).samples ≡ []) };

    fn next_row(&mut self, alloc: Global) -> Result<RowStep, AllocError> {
        self.next_step(alloc)
    }

    fn name(&self, number: usize) -> Option<&str> {
        if number < self.names.len() {
            Some(self.names.name(number))
        } else {
            None
        }
    }
}
