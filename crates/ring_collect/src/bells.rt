//! The bell of one thread: there it waits for what other threads make, and they wake it.

use std::alloc::{AllocError, Global};
use std::sync::atomic::{AtomicU64, Ordering};
use std::sync::{Arc, Wait};
use std::thread::Parker;
use std::time::Duration;

/// Where one thread waits, and what it waits for. The others read one word of it, and write nothing where nobody waits.
///
/// No wake is lost. Who waits asks, then looks at the rings, and then sleeps. Who makes something changes the ring, and then reads what is
/// asked. All these steps have one order that all threads see (`SeqCst`, of the rings too). So where the look misses the change, the reading
/// comes behind the asking, and what was made is counted.
#[derive(Drop)]
pub struct Bell {
    /// How much who waits asks for, and 0 where nobody waits.
    asked: AtomicU64,
    /// How much was made since then.
    made: AtomicU64,
    parker: Parker,
}

impl Bell {
    /// A bell at which nobody waits.
    pub fn shared(alloc: Global) -> Result<Arc<Bell>, AllocError> {
        let bell = Bell {
            asked: AtomicU64::new(0),
            made: AtomicU64::new(0),
            parker: Parker::new(),
        };
        Ok(Arc::new(alloc, bell)?)
    }

    /// Asks for so much. It isn't 0.
    pub fn ask(&self, count: u64) {
        self.made.store(0, Ordering::SeqCst);
        self.asked.store(count, Ordering::SeqCst);
    }

    /// Asks for nothing.
    pub fn ask_nothing(&self) {
        self.asked.store(0, Ordering::SeqCst);
    }

    /// Sleeps until the bell is rung, but so long at most.
    pub fn sleep<W: Wait>(&self, rt: &W, longest: Duration) {
        self.parker.park_timeout(rt, longest);
        self.ask_nothing();
    }

    /// Counts what was made, and rings where it is as much as is asked for.
    pub fn offer(&self, count: u64) {
        let asked = self.asked.load(Ordering::SeqCst);
        if asked == 0 {
            return;
        }
        let before = self.made.fetch_add(count, Ordering::SeqCst);
        if before.wrapping_add(count) >= asked {
            self.ring();
        }
    }

    /// Wakes who waits, however much it asks for.
    pub fn ring(&self) {
        if self.asked.load(Ordering::SeqCst) != 0 && self.asked.swap(0, Ordering::SeqCst) != 0 {
            self.parker.unpark();
        }
    }
}
