//! A run without threads: any schedule of pushes and pops over bounded queues.

ghost use Rattle.std.specs.Prelude.{◌≡◌, ◌<◌, ◌≤◌, map, length, IfOk};
ghost use Rattle.stack_core.specs.Schedule.{is_possible, happens, start, lane_at};

use crate::endings::Item;
use crate::lanes::Lane;
use std::alloc::{AllocError, Global};
use std::marker::Model;

/// What may happen next.
#[derive(Clone, Copy, Debug, PartialEq, Eq)]
pub enum Event {
    /// The next item of this source goes to the back of its queue.
    Push(u32),
    /// The front of this source's queue is received.
    Pop(u32),
}

/// Told lists on their way through queues that hold at most so many items. Contracts see it as its state: what
/// is still to push, what is queued and what was received of each source.
#[derive(Debug, Drop)]
pub struct World {
    size: u32,
    lanes: Vec<Lane>,
}

impl Model for World {
    ghost use Rattle.stack_core.specs.declared.endings.Item.{Item};
    ghost use Rattle.stack_core.specs.Schedule.{Schedule};

    ghost Value = { Schedule Item };

    ghost view = { λ world. record { size = world.size; lanes = world.lanes.items } };
}

impl World {
    /// A world in which everything is still to push. It makes all the room that its events need.
    pub fn new(alloc: Global, told: Vec<Vec<Item>>, size: u32) -> Result<World, AllocError>
        requires { 1 ≤ size }
        ensures { IfOk result (λ world.
            world ≡ start size (map (λ items. items.items) told.items)) }
    {
        let mut lanes = Vec::with_capacity(alloc, told.len())?;
        for items in told {
            lanes.push(Lane::of(items))?;
        }
        Ok(World { size, lanes })
    }

    /// Makes an event happen, and says whether it was possible. It takes no memory.
    pub fn step(&mut self, event: Event) -> bool
        ensures possible { result ≡ is_possible self.old event }
        ensures state { self.new ≡ happens self.old event }
        ensures sources { length self.new.lanes ≡ length self.old.lanes }
    {
        match event {
            Event::Push(source) => {
                let source = source as usize;
                let size = self.size as usize;
                source < self.lanes.len() && self.lanes[source].push(size)
            }
            Event::Pop(source) => {
                let source = source as usize;
                source < self.lanes.len() && self.lanes[source].pop()
            }
        }
    }

    /// What was received of a source, in order.
    pub fn received(&self, source: usize) -> &[Item]
        requires { source < length self.now.lanes }
        ensures { result.now ≡ (lane_at self.now source).received }
    {
        self.lanes[source].received()
    }
}
