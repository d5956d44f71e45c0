//! One source of a world: its told list, and how far it was pushed and received.

ghost use Rattle.std.specs.Prelude.{◌≡◌, if◌then◌else◌};
ghost use Rattle.stack_core.specs.Schedule.{can_push, can_pop, unpushed, pushed, popped};

use crate::endings::Item;
use std::marker::Model;

/// A told list. The items below `popped` were received, those from there up to `pushed` are queued, and the rest
/// is still to push: so no item ever moves.
#[derive(Debug, Drop)]
pub struct Lane {
    told: Vec<Item>,
    pushed: usize,
    popped: usize,
}

impl Model for Lane {
    ghost use Rattle.std.specs.Prelude.{◌≤◌, length, take, drop};
    ghost use Rattle.stack_core.specs.declared.endings.Item.{Item};
    ghost use Rattle.stack_core.specs.Schedule.{Lane as Moving};

    ghost Value = { Moving Item };

    ghost view = { λ lane. record {
      left = drop lane.pushed lane.told.items;
      queue = drop lane.popped (take lane.pushed lane.told.items);
      received = take lane.popped lane.told.items;
    } };

    ghost invariant = { λ lane. (lane.popped ≤ lane.pushed)
        × (lane.pushed ≤ length lane.told.items) };
}

impl Lane {
    /// A list of which all is still to push.
    pub fn of(told: Vec<Item>) -> Self
        ensures { result ≡ unpushed told.items }
    {
        Lane {
            told,
            pushed: 0,
            popped: 0,
        }
    }

    /// Pushes the next item into a queue of at most `size`, and says whether it could.
    pub fn push(&mut self, size: usize) -> bool
        ensures possible { result ≡ can_push size self.old }
        ensures state { self.new ≡ (if can_push size self.old then pushed self.old else self.old) }
    {
        if self.pushed == self.told.len() || self.pushed - self.popped >= size {
            return false;
        }
        self.pushed += 1;
        true
    }

    /// Receives the front of the queue, and says whether there was one.
    pub fn pop(&mut self) -> bool
        ensures possible { result ≡ can_pop self.old }
        ensures state { self.new ≡ (if can_pop self.old then popped self.old else self.old) }
    {
        if self.popped == self.pushed {
            return false;
        }
        self.popped += 1;
        true
    }

    /// What was received.
    pub fn received(&self) -> &[Item]
        ensures { result.now ≡ self.now.received }
    {
        &self.told[..self.popped]
    }
}
