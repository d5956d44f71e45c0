//! Which stacks of a list are kept: each name is looked at once, and each stack once.

ghost use Rattle.std.specs.Prelude.{◌≡◌, ◌<◌, ℕ, Bool, List, All, IfOk, length, map};
ghost use Rattle.sample_tables.specs.Rows.{AreNamed, name_at, sample_at};
ghost use Rattle.source_lists.specs.checked.KeptStacks.{all_are_passing, are_passing, keeps_marked, passes};

use crate::name_marks::{NameTest, has_mark, is_set, marks_of};
use run_options::Filter;
use stack_core::{SourceList, Text};
use std::alloc::{AllocError, Global};

/// Which samples are kept, by their stacks.
#[derive(Clone, Copy)]
pub(crate) enum Keeping<'a> {
    /// Those that a filter keeps.
    Filtered(&'a Filter),
    /// Those with a frame at which a stack may begin.
    Begun(&'a Option<Text>),
}

/// For each name of a list whether stacks are kept for it, and whether they are left out for it.
#[derive(Drop)]
struct StackMarks {
    has_focus: bool,
    focus: Vec<bool>,
    hide: Vec<bool>,
}

impl StackMarks {
    fn of(alloc: Global, list: &SourceList, keeping: Keeping<'_>) -> Result<StackMarks, AllocError>
        ensures { IfOk result (λ marks. (frames : List ℕ) → All (λ k. k < length list.now.told) frames
            → keeps_marked marks.has_focus marks.focus.items marks.hide.items frames
            ≡ passes keeping.entry (map (name_at list.now.told) frames)) }
    {
        match keeping {
            Keeping::Filtered(filter) => Ok(StackMarks {
                has_focus: !filter.focus.get().is_empty(),
                focus: marks_of(alloc, list, NameTest::HasFocus(filter))?,
                hide: marks_of(alloc, list, NameTest::IsHidden(filter))?,
            }),
            Keeping::Begun(from) => Ok(StackMarks {
                has_focus: true,
                focus: marks_of(alloc, list, NameTest::Begins(from))?,
                hide: Vec::new(alloc),
            }),
        }
    }

    /// Whether a stack of these numbers is kept.
    fn keep(&self, frames: &[u32]) -> bool
        ensures { result ≡ keeps_marked self.now.has_focus self.now.focus.items self.now.hide.items frames.now }
    {
        (!self.has_focus || has_mark(&self.focus, frames)) && !has_mark(&self.hide, frames)
    }
}

/// Whether the sample at a place of the list has a stack that is kept.
pub(crate) fn is_kept(list: &SourceList, kept: &[bool], at: usize) -> bool
    requires { at < length list.now.samples }
    ensures kept { (passes : List (List ℕ) → Bool) → kept.now ≡ are_passing passes list.now
        → result ≡ passes (sample_at list.now.samples at).stack }
    ensures named { AreNamed list.now.told list.now.rows list.now.samples }
{
    let count = list.len();
    at < count && is_set(kept, list.stack_number(at))
}

/// For each stack of the list whether it is kept.
fn kept_stacks(
    alloc: Global,
    list: &SourceList,
    keeping: Keeping<'_>,
) -> Result<Vec<bool>, AllocError>
    ensures { IfOk result (λ kept. kept.items ≡ are_passing (passes keeping.entry) list.now) }
{
    let marks = StackMarks::of(alloc, list, keeping)?;
    let count = list.stack_count();
    let mut kept = Vec::with_capacity(alloc, count)?;
    for number in 0..count {
        kept.push(marks.keep(list.stack(number)))?;
    }
    Ok(kept)
}

/// The same of all lists.
pub(crate) fn all_kept_stacks(
    alloc: Global,
    lists: &[SourceList],
    keeping: Keeping<'_>,
) -> Result<Vec<Vec<bool>>, AllocError>
    ensures { IfOk result (λ kept.
        map (λ marks. marks.items) kept.items ≡ all_are_passing (passes keeping.entry) lists.now) }
{
    let mut kept = Vec::with_capacity(alloc, lists.len())?;
    for list in lists {
        kept.push(kept_stacks(alloc, list, keeping)?)?;
    }
    Ok(kept)
}
