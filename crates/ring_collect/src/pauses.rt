//! How a thread waits at its end of a ring for what the other end does.

use crate::bells::Bell;
use std::hint::spin_loop;
use std::sync::{Arc, Wait};
use std::time::Duration;

/// How often a thread looks before it asks and sleeps, where waits are short.
const LOOKS: u32 = 64;

/// For how long it lets the processor rest between two of these looks, in turns.
const RESTS: u32 = 16;

/// Waits for so much or more are long, so it doesn't look before it asks.
const MUCH: u64 = 16;

/// For how many milliseconds it sleeps for plenty, and then for anything.
const SOON: u64 = 1;

const LATE: u64 = 50;

/// How far a wait has come.
#[derive(Clone, Copy)]
enum Stage {
    /// The thread looks so many times more before it asks.
    Looks(u32),
    /// It asked for so much. It looks once more, and then it sleeps.
    Asks(u64),
    /// It slept.
    Slept,
}

/// How the thread of a bell waits there.
#[derive(Drop)]
pub struct Pause {
    bell: Arc<Bell>,
    /// How much it asks for at first. Behind the first sleep anything will do.
    plenty: u64,
    stage: Stage,
    /// How often it looks before it asks. Where that was in vain it looks half as often the next time, so that on one processor, where it
    /// is always in vain, it costs nothing.
    looks: u32,
}

impl Pause {
    /// It waits for nothing yet.
    pub fn new(bell: Arc<Bell>, plenty: u64) -> Self {
        let looks = if plenty < MUCH { LOOKS } else { 0 };
        Pause {
            bell,
            plenty,
            stage: Stage::Looks(looks),
            looks,
        }
    }

    /// How much ends the wait.
    pub fn wanted(&self) -> u64 {
        match self.stage {
            Stage::Looks(_) => self.plenty,
            Stage::Asks(count) => count,
            Stage::Slept => 1,
        }
    }

    fn ask(&self, count: u64) -> Stage {
        self.bell.ask(count);
        Stage::Asks(count)
    }

    /// A look found less than is wanted.
    pub fn go_on<W: Wait>(&mut self, rt: &W) {
        self.stage = match self.stage {
            Stage::Looks(0) => {
                self.looks = self.looks.div_ceil(2);
                self.ask(self.plenty)
            }
            Stage::Looks(left) => {
                for _ in 0..RESTS {
                    spin_loop();
                }
                Stage::Looks(left - 1)
            }
            Stage::Asks(count) => {
                let longest = if count == 1 { LATE } else { SOON };
                self.bell.sleep(rt, Duration::from_millis(longest));
                Stage::Slept
            }
            Stage::Slept => self.ask(1),
        };
    }

    /// What is wanted is there.
    pub fn end(&mut self) {
        match self.stage {
            Stage::Looks(left) if left == self.looks => return,
            Stage::Looks(_) => self.looks = LOOKS,
            Stage::Asks(_) => self.bell.ask_nothing(),
            Stage::Slept => (),
        }
        self.stage = Stage::Looks(self.looks);
    }
}
