//! Folded text of merged stacks.
ghost use Rattle.std.specs.Prelude.{◌≡◌, ◌++◌, ◌∷◌, [], ◌<◌, ◌≤◌, ◌^◌, List, length, slice_range, OnOk};
ghost use Rattle.std.specs.Io.{StartsWith};
ghost use Rattle.std.specs.List.{concat, join_with_byte};
ghost use Rattle.sample_tables.specs.declared.samples.Sample.{Sample};
ghost use Rattle.sample_tables.specs.Rows.{sample_at};
ghost use Rattle.flame_layout.specs.Paths.{SameOwn};
ghost use Rattle.folded_lines.specs.Writing.{column_of};
ghost use Rattle.merged_stacks.specs.RankedStacks.{ranked_samples};
ghost use Rattle.view_texts.specs.Fold.{fold_text};
ghost use Rattle.view_texts.specs.Pieces.{stack_lines};
ghost use Rattle.view_texts.specs.checked.Joined.{joint};

use crate::json_line::end_of_some;
use crate::turned_names::turn_names;
use byte_io::Pieces;
use flame_layout::MergedStacks;
use itoa::Buffer;
use merged_stacks::StackRows;
use std::alloc::{AllocError, Global};

/// The folded text of merged stacks: a line for each, in order, with its sum. It is that of every list of samples whose weights, summed
/// up by stack, are the merged ones. A line is a piece.
#[derive(Clone, Copy)]
pub struct FoldedText<'a> {
    pub merged: &'a MergedStacks,
}

impl<'a> FoldedText<'a> {
    /// The text of these stacks.
    pub fn of(merged: &'a MergedStacks) -> FoldedText<'a>
        ensures stacks { result.merged.now ≡ merged.now }
        ensures text { (samples : List Sample) → SameOwn samples (ranked_samples merged.now)
            → concat (stack_lines (ranked_samples merged.now)) ≡ fold_text samples }
        ensures few { length (ranked_samples merged.now) < 2 ^ 64 }
    {
        let _count = merged.len();
        FoldedText { merged }
    }
}

impl Pieces for FoldedText<'_> {
    ghost pieces = { λ text. stack_lines (ranked_samples text.merged.now) };

    fn count(&self) -> usize {
        self.merged.len()
    }

    fn append_piece(&self, alloc: Global, at: usize, out: &mut Vec<u8>) -> Result<(), AllocError> {
        append_lines(alloc, out, self.merged, at, at + 1)
    }

    /// Up to 64 lines at a time. The names that one has in common with the line before are copied together.
    fn append_some(
        &self,
        alloc: Global,
        at: usize,
        out: &mut Vec<u8>,
    ) -> Result<usize, AllocError> {
        let next = end_of_some(at, self.count() - 1) + 1;
        append_lines(alloc, out, self.merged, at, next)?;
        Ok(next)
    }
}

// Appends the lines of the stacks from a place on, or their front.
fn append_lines(
    alloc: Global,
    out: &mut Vec<u8>,
    merged: &MergedStacks,
    from: usize,
    end: usize,
) -> Result<(), AllocError>
    requires from { from ≤ end }
    requires end { end ≤ length (ranked_samples merged.now) }
    ensures ok { OnOk result (out.new.items ≡ out.old.items
        ++ concat (slice_range (stack_lines (ranked_samples merged.now)) from end)) }
    ensures front { StartsWith out.new.items out.old.items }
{
    let mut names = Vec::new(alloc);
    let mut last: &[u32] = &[];
    for at in from..end {
        let ranks = merged.ranks(at);
        turn_names(&mut names, merged, last, ranks)?;
        append_line(out, &names, merged.weight(at))?;
        last = ranks;
    }
    Ok(())
}

// Appends the line of a stack whose names are joined already, or its front.
fn append_line(out: &mut Vec<u8>, names: &[u8], weight: u64) -> Result<(), AllocError>
    ensures ok { OnOk result (out.new.items
        ≡ out.old.items ++ (names.now ++ (column_of weight ++ 10 ∷ []))) }
    ensures front { StartsWith out.new.items out.old.items }
{
    out.extend_from_slice(names)?;
    append_column(out, weight)?;
    out.push(b'\n')?;
    Ok(())
}

// Appends a space and a weight, or the front of that.
pub(crate) fn append_column(out: &mut Vec<u8>, weight: u64) -> Result<(), AllocError>
    ensures ok { OnOk result (out.new.items ≡ out.old.items ++ column_of weight) }
    ensures front { StartsWith out.new.items out.old.items }
{
    out.push(b' ')?;
    let mut digits = Buffer::new();
    out.extend_from_slice(digits.format(weight).as_bytes())
}

// Appends the names of a stack, joined by `;`, or those at the front.
pub(crate) fn append_names<S: StackRows>(
    out: &mut Vec<u8>,
    rows: &S,
    at: usize,
) -> Result<(), AllocError>
    requires { at < length (S.samples rows.now) }
    ensures ok { OnOk result (out.new.items
        ≡ out.old.items ++ join_with_byte 59 (sample_at (S.samples rows.now) at).stack) }
    ensures front { StartsWith out.new.items out.old.items }
{
    for frame in 0..rows.depth(at) {
        append_name(out, frame > 0, rows.name(at, frame))?;
    }
    Ok(())
}

// Appends a name, after `;` if it is a later one.
pub(crate) fn append_name(out: &mut Vec<u8>, later: bool, name: &str) -> Result<(), AllocError>
    ensures ok { OnOk result (out.new.items ≡ out.old.items ++ joint later name.now) }
    ensures front { StartsWith out.new.items out.old.items }
{
    if later {
        out.push(b';')?;
    }
    out.extend_from_slice(name.as_bytes())
}
