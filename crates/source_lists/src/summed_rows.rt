//! A reader that gives the sum of each stack in place of its samples.

ghost use Rattle.std.specs.Prelude.{◌≡◌, ◌+◌, ◌<◌, ◌≤◌, ◌^◌, [], false, All, IfOk, IfSome, IsOkAnd, IsSome, OnErr, length};
ghost use Rattle.std.specs.List.{AllZip};
ghost use Rattle.std.proofs.Props.{props};
ghost use Rattle.sample_tables.specs.declared.samples.TheConstants.{WEIGHT_LIMIT};
ghost use Rattle.stack_core.specs.Prefixes.{IsPrefixOf};
ghost use Rattle.stack_core.specs.Reading.{Rest};
ghost use Rattle.stack_core.specs.RowReading.{GivesSome, GivesSuch, IsLastStep, IsLimitedStep};
ghost use Rattle.source_lists.specs.Summing.{IsSummed};
ghost use Rattle.source_lists.specs.checked.SummedRows.{AreAllGiven, Ends, GivesLeft, Grows, HaveNames, Keeps, PassesAmong, pending};

use stack_core::{RowReader, RowStep, SourceEnd, WEIGHT_LIMIT};
use std::alloc::{AllocError, Global};

/// How many samples are left out at most, one after another. Then one is given as it is, so that who takes the steps may stop.
const MOST: u32 = 1 << 20;

/// Makes room for the sum of a row, if there is memory.
fn has_place(sums: &mut Vec<u64>, row: usize) -> bool
    ensures { Grows row sums.old.items result sums.new.items }
{
    if row < sums.len() {
        return true;
    }
    row < usize::MAX && sums.resize(row + 1, 0).is_ok()
}

/// Adds a weight to the sum of a row, if it may, there is memory for it, and the sum stays within the limit.
fn keep(may_leave: bool, sums: &mut Vec<u64>, row: usize, weight: u64) -> bool
    requires { All (λ sum. sum ≤ WEIGHT_LIMIT) sums.old.items }
    ensures sums { Keeps row weight sums.old.items result sums.new.items }
    ensures may { may_leave ≡ false → result ≡ false }
{
    if !may_leave || !has_place(sums, row) || weight > WEIGHT_LIMIT - sums[row] {
        return false;
    }
    sums[row] += weight;
    true
}

/// The last sum that is left, or the ending.
fn last_step(sums: &mut Vec<u64>, ending: SourceEnd) -> RowStep
    requires { All (λ sum. sum ≤ WEIGHT_LIMIT) sums.old.items }
    ensures { Ends ending sums.old.items result sums.new.items }
{
    while let Some(weight) = sums.pop() {
        if weight > 0 {
            return RowStep::Again {
                row: sums.len(),
                weight,
            };
        }
    }
    RowStep::End(ending)
}

/// A reader that gives each stack of another when it is told, with its first weight, and at the end once more, with the sum of the others.
#[derive(Drop)]
pub(crate) struct SummedRows<R: RowReader> {
    reader: R,
    /// The weights that were left out, by the numbers of their stacks. Behind the last one that is not 0 there may be none.
    sums: Vec<u64>,
    ghost rows: { length sums.items ≤ length (R.told reader).stacks },
    ghost numbers: { HaveNames (R.told reader) },
    ghost limits: { All (λ sum. sum ≤ WEIGHT_LIMIT) sums.items },
    ghost few: { 0 < pending sums.items → (rest : Rest) → R.gives reader rest
        → pending sums.items + length rest.samples < 2 ^ 64 },
}

impl<R: RowReader> SummedRows<R> {
    /// A reader that has left nothing out. It takes no memory.
    fn over(alloc: Global, reader: R) -> SummedRows<R>
        requires { R.told reader ≡ record { names = []; stacks = [] } }
        ensures reader { result.reader ≡ reader }
        ensures sums { result.sums.items ≡ [] }
    {
        SummedRows {
            reader,
            sums: Vec::new(alloc),
        }
    }

    /// What the reader gives next, or nothing where that is a sample which is left out; none is, unless some may be.
    #[tactic(auto, using(crate::proofs::SummedLemmas::left_possible))]
    fn try_next(&mut self, alloc: Global, may_leave: bool) -> Result<Option<RowStep>, AllocError>
        ensures passes { IfOk result (λ found. PassesAmong
            (GivesLeft (R.gives self.old.reader) (R.told self.old.reader) self.old.sums.items)
            (GivesLeft (R.gives self.new.reader) (R.told self.new.reader) self.new.sums.items)
            (R.told self.old.reader) found (R.told self.new.reader)) }
        ensures limits { IfOk result (λ found. IfSome found IsLimitedStep) }
        ensures refused { OnErr result ((rest : Rest)
            → GivesLeft (R.gives self.new.reader) (R.told self.new.reader) self.new.sums.items rest
            → GivesLeft (R.gives self.old.reader) (R.told self.old.reader) self.old.sums.items rest) }
        ensures stacks { OnErr result ((R.told self.new.reader).stacks ≡ (R.told self.old.reader).stacks) }
        ensures names { OnErr result (IsPrefixOf (R.told self.old.reader).names (R.told self.new.reader).names) }
        ensures few { (rest : Rest)
            → GivesLeft (R.gives self.old.reader) (R.told self.old.reader) self.old.sums.items rest
            → length rest.samples < 2 ^ 64 }
        ensures possible { GivesSome
            (GivesLeft (R.gives self.new.reader) (R.told self.new.reader) self.new.sums.items) }
        ensures ended { IfOk result (λ found. IfSome found (λ step. IsLastStep step
            → AreAllGiven (R.has_ended self.new.reader) (R.gives self.new.reader) self.new.sums.items)) }
        ensures repeats { AreAllGiven (R.has_ended self.old.reader) (R.gives self.old.reader) self.old.sums.items
            → IsOkAnd result IsSome }
        ensures given { may_leave ≡ false → IfOk result (λ found. IsSome found) }
    {
        match self.reader.next_row(alloc)? {
            RowStep::New {
                names,
                frames,
                weight,
            } => Ok(Some(RowStep::New {
                names,
                frames,
                weight,
            })),
            RowStep::Again { row, weight } => {
                if keep(may_leave, &mut self.sums, row, weight) {
                    Ok(None)
                } else {
                    Ok(Some(RowStep::Again { row, weight }))
                }
            }
            RowStep::End(ending) => Ok(Some(last_step(&mut self.sums, ending))),
        }
    }
}

impl<R: RowReader> RowReader for SummedRows<R> {
    ghost use Rattle.source_lists.specs.checked.SummedRows.{AreAllGiven, GivesLeft};

    ghost gives = { λ summed. GivesLeft (R.gives summed.reader) (R.told summed.reader) summed.sums.items };

    ghost told = { λ summed. R.told summed.reader };

    ghost has_ended = { λ summed. AreAllGiven (R.has_ended summed.reader) (R.gives summed.reader) summed.sums.items };

    fn next_row(&mut self, alloc: Global) -> Result<RowStep, AllocError> {
        for _ in 0..MOST {
            if let Some(step) = self.try_next(alloc, true)? {
                return Ok(step);
            }
        }
        match self.try_next(alloc, false)? {
            Some(step) => Ok(step),
            None => unreachable!(),
        }
    }

    fn name(&self, number: usize) -> Option<&str> {
        self.reader.name(number)
    }
}

/// A reader of sums over each reader, which must have told nothing.
pub(crate) fn sum_all<R: RowReader + Drop>(
    alloc: Global,
    readers: Vec<R>,
) -> Result<Vec<SummedRows<R>>, AllocError>
    requires told { All (λ reader. R.told reader ≡ record { names = []; stacks = [] }) readers.items }
    requires possible { All (λ reader. GivesSome (R.gives reader)) readers.items }
    ensures told { IfOk result (λ all. All (λ summed.
        ⟦<SummedRows<R> as RowReader>⟧.told summed ≡ record { names = []; stacks = [] }) all.items) }
    ensures possible { IfOk result (λ all. All (λ summed.
        GivesSome (⟦<SummedRows<R> as RowReader>⟧.gives summed)) all.items) }
    ensures count { IfOk result (λ all. length all.items ≡ length readers.items) }
    ensures sums { IfOk result (λ all. AllZip (λ reader summed. (found : Rest)
        → ⟦<SummedRows<R> as RowReader>⟧.gives summed found
        → GivesSuch (R.gives reader) (λ rest. IsSummed rest found)) readers.items all.items) }
{
    let mut all = Vec::with_capacity(alloc, readers.len())?;
    for reader in readers {
        all.push(SummedRows::over(alloc, reader))?;
    }
    Ok(all)
}
