//! Where the spellings may stand that are asked for next. A hint may be wrong: whoever takes one compares the bytes.

/// How many spellings are looked for at once.
pub const AHEAD: usize = 16;

/// How many spellings are asked for without hints, where hints were of little use.
const PAUSE: usize = 512;

/// Where a spelling begins in its text, and the place of the entry that may have its bytes.
#[derive(Clone, Copy)]
struct Hint {
    start: usize,
    place: Option<usize>,
}

/// The hints for the spellings that come next, in the order of the text.
#[derive(Drop)]
pub struct Hints {
    hints: [Hint; AHEAD],
    /// How many there are.
    count: usize,
    /// How many were passed.
    passed: usize,
    /// How many have a place.
    found: usize,
    /// How many spellings are let pass without a hint.
    pause: usize,
}

impl Hints {
    pub fn new() -> Hints {
        Hints {
            hints: [Hint {
                start: 0,
                place: None,
            }; AHEAD],
            count: 0,
            passed: 0,
            found: 0,
            pause: 0,
        }
    }

    /// Whether all are passed, and there is no pause.
    pub fn are_wanted(&self) -> bool {
        self.passed >= self.count && self.pause == 0
    }

    /// No hints for the spellings that come next.
    pub fn paused() -> Hints {
        Hints {
            pause: PAUSE,
            ..Hints::new()
        }
    }

    /// Whether less than half of them have a place.
    pub fn are_few(&self) -> bool {
        self.found < self.count / 2
    }

    /// A hint more, if there is room.
    pub fn push(&mut self, start: usize, place: Option<usize>) {
        if let Some(hint) = self.hints.get_mut(self.count) {
            *hint = Hint { start, place };
            self.count += 1;
            if place.is_some() {
                self.found = self.found.saturating_add(1);
            }
        }
    }

    /// The hint for the spelling that begins there. Those before it are passed.
    pub fn take(&mut self, start: usize) -> Option<usize> {
        if self.pause > 0 {
            self.pause -= 1;
            return None;
        }
        for _ in 0..AHEAD {
            let hint = *self.hints.get(self.passed)?;
            if self.passed >= self.count || hint.start > start {
                return None;
            }
            self.passed += 1;
            if hint.start == start {
                return hint.place;
            }
        }
        None
    }
}
