//! What gives the samples of a source, one after another.

ghost use Rattle.std.specs.Prelude.{◌≡◌, ◌<◌, ◌≤◌, ◌^◌, ◌↔◌, length, IfOk, OnOk, OnErr, IsOk, MatchOption};
ghost use Rattle.stack_core.specs.Prefixes.{IsPrefixOf};
ghost use Rattle.stack_core.specs.Reading.{Steps, IsEnd, IsWithinLimits, Rest};
ghost use Rattle.stack_core.specs.RowReading.{GivesSome, StepsAmong, IsLastStep, IsLimitedStep};
ghost use Rattle.sample_tables.specs.Rows.{ToldRows, name_at};

use crate::endings::SourceEnd;
use sample_tables::{Listed, Sample, Text};
use std::alloc::{AllocError, Global};

/// What a call of a reader gives.
#[derive(Clone, Debug, PartialEq, Eq, Drop)]
pub enum Step {
    /// The next sample.
    Sample(Sample),
    /// The ending. Every later call gives it again.
    End(SourceEnd),
}

/// A source of samples. Contracts see it as its rest: the samples that it still has to give, and the
/// ending that follows them.
pub trait SampleReader {
    /// The samples still to come, and the ending.
    ghost rest: { Self → Rest };

    /// Holds where a call has answered the ending.
    ghost has_ended: { Self → Type 0 };

    /// The next sample, or the ending. Want of memory leaves the rest as it was, and does not come after
    /// the ending was answered.
    fn next(&mut self, alloc: Global) -> Result<Step, AllocError>
        ensures step { IfOk result (λ step. Steps (rest self.old) step (rest self.new)) }
        ensures limits { IfOk result IsWithinLimits }
        ensures refused { OnErr result (rest self.new ≡ rest self.old) }
        ensures few { length (rest self.old).samples < 2 ^ 64 }
        ensures ended { IfOk result (λ step. IsEnd step → has_ended self.new) }
        ensures repeats { has_ended self.old → IsOk result };
}

/// What a call of a reader of rows gives.
#[derive(Debug, Drop)]
pub enum RowStep {
    /// The next sample, whose stack is told: those of its names that no stack before it had, in the order in which they stand in
    /// it, and the numbers of all of its names, root first. Number k stands for the k-th name that was told, from 0.
    New {
        names: Listed<Text>,
        frames: Listed<usize>,
        weight: u64,
    },
    /// The next sample, which has the stack of this number: the row-th that was told, from 0.
    Again {
        row: usize,
        weight: u64,
    },
    /// The ending. Every later call gives it again.
    End(SourceEnd),
}

/// A source of samples that tells each name once, and each stack as a row of numbers. A stack that it told before it may tell by its
/// number, or once more. Contracts see what it may still give, and what it told: over bytes that are known it may give one rest, and over
/// bytes that are still to come as many as there are bytes that may come.
pub trait RowReader {
    /// The rests that it may give: the samples still to come, and the ending.
    ghost gives: { Self → Rest → Type 0 };

    /// The names and stacks that were told. After want of memory there may be more names, which no step gives, but `name`.
    ghost told: { Self → ToldRows };

    /// Holds where a call has answered the ending.
    ghost has_ended: { Self → Type 0 };

    /// The next sample, or the ending. Want of memory leaves the rests and the stacks as they were, and does not come after the
    /// ending was answered.
    fn next_row(&mut self, alloc: Global) -> Result<RowStep, AllocError>
        ensures step { IfOk result (λ step.
            StepsAmong (gives self.old) (gives self.new) (told self.old) step (told self.new)) }
        ensures limits { IfOk result IsLimitedStep }
        ensures refused { OnErr result ((rest : Rest) → gives self.new rest → gives self.old rest) }
        ensures stacks { OnErr result ((told self.new).stacks ≡ (told self.old).stacks) }
        ensures names { OnErr result (IsPrefixOf (told self.old).names (told self.new).names) }
        ensures few { (rest : Rest) → gives self.old rest → length rest.samples < 2 ^ 64 }
        ensures possible { GivesSome (gives self.new) }
        ensures ended { IfOk result (λ step. IsLastStep step → has_ended self.new) }
        ensures repeats { has_ended self.old → IsOk result };

    /// Whether the next `next_row` may wait for bytes that are still to come; never, unless the reader knows better. What it may give and
    /// what it told stay.
    fn may_wait(&mut self) -> bool
        ensures gives { (rest : Rest) → gives self.new rest ↔ gives self.old rest }
        ensures told { told self.new ≡ told self.old }
        ensures ended { has_ended self.old → has_ended self.new }
    {
        false
    }

    /// The name of this number, also where want of memory kept a step from giving it.
    fn name(&self, number: usize) -> Option<&str>
        ensures { MatchOption result (length (told self.now).names ≤ number)
            (λ name. name.now ≡ name_at (told self.now).names number) };
}

/// A reader of rows over bytes that are known: there is one rest that it may give.
pub trait KnownRows: RowReader {
    /// The samples still to come, and the ending.
    ghost rest: { Self → Rest };

    /// It may give this rest.
    ghost gives_rest: { (reader : Self) → Self.gives reader (rest reader) };

    /// It may give no other.
    ghost gives_no_other: { (reader : Self) (other : Rest) → Self.gives reader other
        → other ≡ rest reader };
}
