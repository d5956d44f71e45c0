//! The stacks of two lists with the sums of one of them.

ghost use Rattle.std.specs.Prelude.{◌≡◌};
ghost use Rattle.merged_stacks.specs.declared.paired_sides.Side.TheVariants.{After};
ghost use Rattle.merged_stacks.specs.Paired.{pair_at, sum_of, side_samples};

use crate::paired::PairedStacks;
use crate::stack_rows::StackRows;

/// Which of two lists.
#[derive(Clone, Copy, Debug)]
pub enum Side {
    Before,
    After,
}

/// Paired stacks with the sums of one list alone. A stack that has weight only in the other list
/// stands among them, with weight 0.
#[derive(Clone, Copy)]
pub struct PairedSide<'a> {
    pub stacks: &'a PairedStacks,
    pub side: Side,
}

impl<'a> StackRows for PairedSide<'a> {
    ghost samples = { λ one. side_samples one.side one.stacks.now };

    fn len(&self) -> usize {
        self.stacks.len()
    }

    fn weight(&self, at: usize) -> u64 {
        match self.side {
            Side::Before => self.stacks.before(at),
            Side::After => self.stacks.after(at),
        }
    }

    fn depth(&self, at: usize) -> usize {
        self.stacks.depth(at)
    }

    fn name(&self, at: usize, frame: usize) -> &str {
        self.stacks.name(at, frame)
    }

    fn is_same_name(&self, at: usize, later: usize, frame: usize) -> bool {
        self.stacks.is_same_name(at, later, frame)
    }
}

/// Paired stacks with the sums of the second list, as the `PairedSide` that is `After` has them. So the
/// stacks themselves lend the names.
impl StackRows for PairedStacks {
    ghost samples = { side_samples After };

    fn len(&self) -> usize {
        PairedStacks::len(self)
    }

    fn weight(&self, at: usize) -> u64 {
        self.after(at)
    }

    fn depth(&self, at: usize) -> usize {
        PairedStacks::depth(self, at)
    }

    fn name(&self, at: usize, frame: usize) -> &str {
        PairedStacks::name(self, at, frame)
    }

    fn is_same_name(&self, at: usize, later: usize, frame: usize) -> bool {
        PairedStacks::is_same_name(self, at, later, frame)
    }
}
