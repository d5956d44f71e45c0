//! Numbers that were met before, by the hashes of what they stand for.

ghost use Rattle.std.specs.Prelude.{◌≡◌, true, IfSome};
ghost use Rattle.sample_tables.specs.NameHashes.{hash_of_name};

use std::alloc::{AllocError, Global};
use std::hash::{FoldHasher, Hasher};

/// In how many slots a number is looked for, so that hashes that were made to collide take no longer than others.
const PROBES: usize = 8;

/// The upper half of a hash, and a number from 1. An empty slot has number 0.
#[derive(Clone, Copy)]
struct Slot {
    hash: u32,
    number: u32,
}

impl Slot {
    /// The number that was remembered here.
    fn remembered(&self) -> Option<usize> {
        (self.number as usize).checked_sub(1)
    }
}

/// Numbers by hashes. It may forget, and it may propose the number of something else, so who asks compares.
#[derive(Drop)]
pub struct NumberCache {
    slots: Vec<Slot>,
}

impl NumberCache {
    /// An empty cache without slots. It takes no memory, and remembers nothing.
    pub fn new(alloc: Global) -> NumberCache {
        NumberCache {
            slots: Vec::new(alloc),
        }
    }

    /// An empty cache with a slot for each of so many numbers, and a few more.
    pub fn with_room(alloc: Global, count: usize) -> Result<NumberCache, AllocError> {
        let empty = Slot { hash: 0, number: 0 };
        let slots = vec![in alloc; empty; count.saturating_add(PROBES)]?;
        Ok(NumberCache { slots })
    }

    /// The slot in which a hash is looked for first: its lower half, scaled to the slots.
    fn home(&self, hash: u64) -> usize {
        let lower = hash & 0xffff_ffff;
        (lower.wrapping_mul(self.slots.len() as u64) >> 32) as usize
    }

    /// A number that was remembered by this hash, and of which a test holds.
    pub fn find<F: Fn(usize) -> bool>(&self, hash: u64, is_it: F) -> Option<usize>
        requires { F.IsAlwaysCallable is_it }
        ensures { IfSome result (λ number. F.post is_it number true) }
    {
        let home = self.home(hash);
        for probe in 0..PROBES {
            let slot = self.slots.get(home.wrapping_add(probe))?;
            let number = slot.remembered()?;
            if slot.hash == upper(hash) && is_it(number) {
                return Some(number);
            }
        }
        None
    }

    /// Remembers a number by a hash. Another one may be forgotten for it.
    pub fn remember(&mut self, hash: u64, number: usize) {
        let Ok(number) = u32::try_from(number.saturating_add(1)) else {
            return;
        };
        let home = self.home(hash);
        for probe in 0..PROBES {
            if let Some(slot) = self.slots.get_mut(home.wrapping_add(probe))
                && (slot.number == 0 || probe + 1 == PROBES)
            {
                let hash = upper(hash);
                *slot = Slot { hash, number };
                return;
            }
        }
    }
}

/// The half of a hash that a slot keeps.
fn upper(hash: u64) -> u32 {
    (hash >> 32) as u32
}

/// The hash of a name.
pub fn hash_of_name(name: &str) -> u64
    ensures { result ≡ hash_of_name name.now }
{
    let mut hasher = FoldHasher::default();
    hasher.write(name.as_bytes());
    hasher.finish()
}
