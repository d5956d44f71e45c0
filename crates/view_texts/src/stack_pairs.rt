//! Two-column folded text of paired stacks.
ghost use Rattle.std.specs.Prelude.{◌≡◌, ◌++◌, ◌<◌, ◌^◌, List, length, OnOk};
ghost use Rattle.std.specs.Io.{StartsWith};
ghost use Rattle.std.specs.List.{concat};
ghost use Rattle.sample_tables.specs.declared.samples.Sample.{Sample};
ghost use Rattle.merged_stacks.specs.Paired.{paired_stacks, pair_at};
ghost use Rattle.folded_lines.specs.Writing.{pair_line_of};
ghost use Rattle.view_texts.specs.Pairs.{pairs_text};
ghost use Rattle.view_texts.specs.Pieces.{pair_lines};

use crate::merged_lines::{append_column, append_names};
use byte_io::Pieces;
use merged_stacks::{PairedSide, PairedStacks, Side};
use std::alloc::{AllocError, Global};

/// The two-column text of paired stacks, which is that of their comparison: a line is a piece. It
/// wants no row for a path.
#[derive(Clone, Copy)]
pub struct PairedText<'a> {
    pub stacks: &'a PairedStacks,
}

impl<'a> PairedText<'a> {
    /// The text of these stacks.
    pub fn of(stacks: &'a PairedStacks) -> PairedText<'a>
        ensures stacks { result.stacks.now ≡ stacks.now }
        ensures text { (before after : List Sample) → stacks.now ≡ paired_stacks before after
            → concat (pair_lines stacks.now) ≡ pairs_text before after }
        ensures few { length stacks.now < 2 ^ 64 }
    {
        let _count = stacks.len();
        PairedText { stacks }
    }
}

impl Pieces for PairedText<'_> {
    ghost pieces = { λ text. pair_lines text.stacks.now };

    fn count(&self) -> usize {
        self.stacks.len()
    }

    fn append_piece(&self, _alloc: Global, at: usize, out: &mut Vec<u8>) -> Result<(), AllocError> {
        append_pair(out, self.stacks, at)
    }
}

// Appends the line of a stack, or its front.
fn append_pair(out: &mut Vec<u8>, stacks: &PairedStacks, at: usize) -> Result<(), AllocError>
    requires { at < length stacks.now }
    ensures ok { OnOk result (out.new.items ≡ out.old.items ++ pair_line_of
        (pair_at stacks.now at).stack (pair_at stacks.now at).before (pair_at stacks.now at).after) }
    ensures front { StartsWith out.new.items out.old.items }
{
    let side = Side::Before;
    append_names(out, &PairedSide { stacks, side }, at)?;
    append_column(out, stacks.before(at))?;
    append_column(out, stacks.after(at))?;
    out.push(b'\n')?;
    Ok(())
}
