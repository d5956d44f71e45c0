//! A gate that a sink closes.

use stack_core::{Gate, Turn};
use std::sync::atomic::{AtomicBool, Ordering};

/// Lets all go until it was closed. The sink that fails closes it, so that the readers stop at their next sample.
#[derive(Drop)]
pub struct LiveGate {
    is_closed: AtomicBool,
}

impl LiveGate {
    /// An open gate.
    pub fn new() -> LiveGate {
        LiveGate {
            is_closed: AtomicBool::new(false),
        }
    }

    /// Closes it, for good.
    pub fn close(&self) {
        self.is_closed.store(true, Ordering::SeqCst);
    }
}

impl Gate for LiveGate {
    ghost may_stop = { λ _ _ _. Unit {0} };

    ghost may_go = { λ _ _ _. Unit {0} };

    fn before(&self, _source: u32, _index: u64) -> Turn {
        if self.is_closed.load(Ordering::SeqCst) {
            Turn::Stop
        } else {
            Turn::Go
        }
    }
}
