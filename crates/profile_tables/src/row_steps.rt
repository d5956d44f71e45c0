//! The steps of a reader of rows.

ghost use Rattle.std.specs.Prelude.{◌≡◌, ◌<◌, ◌≤◌, ◌+◌, ◌^◌, length, option_map, IfOk, IfSome, OnOk, OnErr};
ghost use Rattle.stack_core.specs.Prefixes.{IsPrefixOf};
ghost use Rattle.stack_core.specs.RowReading.{IsLastStep};
ghost use Rattle.profile_messages.specs.Offsets.{content_at as content_in};
ghost use Rattle.profile_tables.specs.checked.Fronts.{IsFront};
ghost use Rattle.profile_tables.specs.checked.SeenOutline.{seen_outline};
ghost use Rattle.profile_tables.specs.checked.Tellers.{told_of, IsTeller};
ghost use Rattle.profile_tables.specs.checked.RowSteps.{IsKnownBy, IsToldSample, IsNextRow};
ghost use Rattle.profile_tables.specs.checked.View.{told_by, IsTellerBy};

use crate::fronts::{Front, front_of};
use crate::outline::{Outline, Stretch};
use crate::samples::checked_sample;
use crate::tellers::{NewRow, Teller};
use profile_messages::{Span, content_at};
use stack_core::{ReadFault, ReadKind, RowStep, SourceEnd, WEIGHT_LIMIT};
use std::alloc::{AllocError, Global};

/// A sample whose stack was told before.
#[derive(Clone, Copy)]
struct KnownRow {
    row: usize,
    weight: u64,
}

/// The sample of a front, where its stack was told and it has no fault behind samples of this total weight. None says nothing.
fn known_row(file: &[u8], teller: &mut Teller, front: Option<Front>, total: u64) -> Option<KnownRow>
    requires total { total ≤ WEIGHT_LIMIT }
    requires front { IfSome front (λ front.
        (front.run.start ≤ front.run.end) × (front.run.end ≤ length file.now)) }
    ensures known { IfSome result (IsKnownBy file.now teller.old front total) }
    ensures same { teller.new ≡ teller.old }
{
    let Front { run, weight } = front?;
    if weight > WEIGHT_LIMIT - total {
        return None;
    }
    let row = teller.find(file, run)?;
    Some(KnownRow { row, weight })
}

/// The run of a front.
fn run_of(front: Option<Front>) -> Option<Span>
    ensures { result ≡ option_map (λ front. front.run) front }
{
    match front {
        Some(front) => Some(front.run),
        None => None,
    }
}

impl Teller {
    /// Tells the stack of the sample at an offset, behind samples of this total weight, or says what is wrong with the sample.
    fn tell_sample(
        &mut self,
        alloc: Global,
        file: &[u8],
        outline: &Outline,
        at: usize,
        front: Option<Front>,
        total: u64,
    ) -> Result<Result<NewRow, ReadKind>, AllocError>
        requires total { total ≤ WEIGHT_LIMIT }
        requires teller { IsTeller file.now outline.now.frames self.old }
        requires room { self.old.count + 1 < 2 ^ 64 }
        requires front { IfSome front (λ front.
            IsFront file.now at (seen_outline outline.now) front.run front.weight) }
        ensures told { IfOk result (IsToldSample (seen_outline outline.now) total
            (content_in file.now at) (told_of self.old) (told_of self.new)) }
        ensures teller { IsTeller file.now outline.now.frames self.new }
        ensures count { self.new.count ≤ self.old.count + 1 }
        ensures refused { OnErr result (self.new.count ≡ self.old.count) }
        ensures stacks { OnErr result ((told_of self.new).stacks ≡ (told_of self.old).stacks) }
        ensures names { IsPrefixOf (told_of self.old).names (told_of self.new).names }
    {
        match checked_sample(alloc, outline, total, content_at(file, at))? {
            Ok(sample) => {
                let run = run_of(front);
                Ok(Ok(self.tell(alloc, &outline.frames, &sample, file, run)?))
            }
            Err(kind) => Ok(Err(kind)),
        }
    }
}

/// The next of the samples that are left, by rows, behind samples of this total weight, or the ending. A stack that was told before
/// takes no memory, and its location ids are not decoded again.
fn next_row(
    alloc: Global,
    file: &[u8],
    outline: &Outline,
    teller: &mut Teller,
    left: Stretch,
    total: u64,
) -> Result<RowStep, AllocError>
    requires total { total ≤ WEIGHT_LIMIT }
    requires teller { IsTeller file.now outline.now.frames teller.old }
    requires count { teller.old.count ≤ left.next }
    ensures step { IfOk result
        (IsNextRow file.now outline.now left.past left.next total (told_of teller.old) (told_of teller.new)) }
    ensures teller { IsTeller file.now outline.now.frames teller.new }
    ensures count { teller.new.count ≤ left.next + 1 }
    ensures refused { OnErr result (teller.new.count ≤ left.next) }
    ensures stacks { OnErr result ((told_of teller.new).stacks ≡ (told_of teller.old).stacks) }
    ensures names { IsPrefixOf (told_of teller.old).names (told_of teller.new).names }
{
    let Some(at) = outline.place(left) else {
        return Ok(RowStep::End(SourceEnd::Clean { ignored: 0 }));
    };
    teller.look_ahead(file, outline.samples.as_slice(), left);
    let front = front_of(file, at, outline);
    if let Some(KnownRow { row, weight }) = known_row(file, teller, front, total) {
        return Ok(RowStep::Again { row, weight });
    }
    match teller.tell_sample(alloc, file, outline, at, front, total)? {
        Ok(
            NewRow {
                names,
                frames,
                weight,
            },
        ) => Ok(RowStep::New {
            names,
            frames,
            weight,
        }),
        Err(kind) => {
            let at = at as u64;
            Ok(RowStep::End(SourceEnd::Fault(ReadFault { kind, at })))
        }
    }
}

/// The same, where the teller is made with the first sample. Want of memory then leaves none.
pub(crate) fn step_by_rows(
    alloc: Global,
    file: &[u8],
    outline: &Outline,
    teller: &mut Option<Teller>,
    left: Stretch,
    total: u64,
) -> Result<RowStep, AllocError>
    requires total { total ≤ WEIGHT_LIMIT }
    requires teller { IsTellerBy file.now outline.now left.next teller.old }
    ensures step { IfOk result
        (IsNextRow file.now outline.now left.past left.next total (told_by teller.old) (told_by teller.new)) }
    ensures ended { IfOk result (λ step. IsLastStep step →
        IsTellerBy file.now outline.now left.next teller.new) }
    ensures teller { IsTellerBy file.now outline.now (left.next + 1) teller.new }
    ensures refused { OnErr result (IsTellerBy file.now outline.now left.next teller.new) }
    ensures stacks { OnErr result ((told_by teller.new).stacks ≡ (told_by teller.old).stacks) }
    ensures names { IsPrefixOf (told_by teller.old).names (told_by teller.new).names }
{
    match teller {
        Some(teller) => next_row(alloc, file, outline, teller, left, total),
        None => {
            let mut first = Teller::new(alloc, &outline.frames)?;
            let step = next_row(alloc, file, outline, &mut first, left, total)?;
            *teller = Some(first);
            Ok(step)
        }
    }
}
