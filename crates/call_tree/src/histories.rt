//! The stacks that a reader of rows told. Contracts alone see them, so a stack costs no memory of its own.

ghost use Rattle.std.specs.Prelude.{◌≡◌, ◌++◌, ◌∷◌, []};
ghost use Rattle.call_tree.specs.checked.Histories.{stacks_of};

use stack_core::Listed;
use std::marker::Model;
// Not a snapshot of this crate, but a value of no bytes, which contracts alone read.
use std::snapshot::Snapshot as Ghost;

/// The numbers of stacks, in the order in which they were told. It has no bytes of theirs.
#[derive(Drop)]
enum ToldStacks {
    Nothing,
    More {
        before: Ghost<ToldStacks>,
        last: Ghost<Listed<usize>>,
    },
}

impl ToldStacks {
    fn push(&mut self, last: &Listed<usize>)
        ensures { stacks_of self.new ≡ stacks_of self.old ++ last.now ∷ [] }
    {
        *self = ToldStacks::More {
            before: Ghost::of(self),
            last: Ghost::of(last),
        };
    }
}

/// The stacks that were told, each as the numbers of its names, for contracts to speak of.
#[derive(Drop)]
pub struct StackHistory {
    stacks: ToldStacks,
}

impl Model for StackHistory {
    ghost use Rattle.std.specs.Prelude.{List, ℕ};
    ghost use Rattle.call_tree.specs.checked.Histories.{stacks_of};

    ghost Value = { List (List ℕ) };

    ghost view = { λ history. stacks_of history.stacks };
}

impl StackHistory {
    /// A history without stacks.
    pub fn new() -> StackHistory
        ensures { result ≡ [] }
    {
        StackHistory {
            stacks: ToldStacks::Nothing,
        }
    }

    /// Puts a stack behind the others. It takes no memory.
    pub fn push(&mut self, frames: &Listed<usize>)
        ensures { self.new ≡ self.old ++ frames.now ∷ [] }
    {
        self.stacks.push(frames);
    }
}
