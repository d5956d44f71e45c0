//! The part of a profile that a reader gives.

ghost use Rattle.std.specs.Prelude.{◌≡◌, ◌≤◌, ◌+◌, Some, length, IfOk, OnErr};
ghost use Rattle.std.specs.Arc.{arc_value};
ghost use Rattle.stack_core.specs.Prefixes.{IsPrefixOf};
ghost use Rattle.stack_core.specs.RowReading.{IsLastStep};
ghost use Rattle.profile_tables.specs.checked.RowSteps.{IsNextRow};
ghost use Rattle.profile_tables.specs.checked.View.{told_by, IsTellerOf};

use crate::outline::{Outline, Stretch};
use crate::row_steps::step_by_rows;
use crate::tellers::Teller;
use stack_core::{RowStep, WEIGHT_LIMIT};
use std::alloc::{AllocError, Global};
use std::sync::Arc;

/// The tables of a profile, which several readers may share, and where the samples of one of them end.
#[derive(Debug, Drop)]
pub(crate) struct Part {
    pub(crate) outline: Arc<Outline>,
    /// The place of the first sample that is not the part's.
    pub(crate) past: usize,
}

impl Part {
    /// The whole profile.
    pub(crate) fn whole(alloc: Global, outline: Outline) -> Result<Part, AllocError>
        ensures outline { IfOk result (λ part. arc_value part.outline ≡ outline) }
        ensures past { IfOk result (λ part. part.past ≡ length outline.samples.items) }
    {
        let past = outline.samples.len();
        let outline = Arc::new(alloc, outline)?;
        Ok(Part { outline, past })
    }

    /// The next sample by rows, where those before `next` were given, or the ending. Those of the part among them have this total weight.
    /// The teller is made with the first sample. Want of memory then leaves none.
    pub(crate) fn next_row(
        &self,
        alloc: Global,
        file: &[u8],
        teller: &mut Option<Teller>,
        next: usize,
        total: u64,
    ) -> Result<RowStep, AllocError>
        requires total { total ≤ WEIGHT_LIMIT }
        requires teller { IsTellerOf file.now (Some self.now) next teller.old }
        ensures step { IfOk result (IsNextRow file.now (arc_value self.now.outline) self.now.past
            next total (told_by teller.old) (told_by teller.new)) }
        ensures ended { IfOk result (λ step. IsLastStep step →
            IsTellerOf file.now (Some self.now) next teller.new) }
        ensures teller { IsTellerOf file.now (Some self.now) (next + 1) teller.new }
        ensures refused { OnErr result (IsTellerOf file.now (Some self.now) next teller.new) }
        ensures stacks { OnErr result ((told_by teller.new).stacks ≡ (told_by teller.old).stacks) }
        ensures names { IsPrefixOf (told_by teller.old).names (told_by teller.new).names }
    {
        let past = self.past;
        let left = Stretch { next, past };
        step_by_rows(alloc, file, &*self.outline, teller, left, total)
    }
}
