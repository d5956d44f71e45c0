//! Who is told how sources end, while others still come.

ghost use Rattle.std.specs.Prelude.{◌≡◌, ◌++◌, ◌∷◌, [], ℕ, List};
ghost use Rattle.live_lines.specs.Ends.{ToldEnd};

use stack_core::SourceEnd;
use std::marker::Model;
use std::mem;
use std::snapshot::Snapshot;

/// Is told how sources end. Contracts see it as the list of what it was told.
pub trait EndTeller {
    /// The ends that it was told, in order.
    ghost told: { Self → List ToldEnd };

    /// What no end changes, as numbers; nothing unless it says so.
    ghost setting: { Self → List ℕ } = { λ _. [] };

    /// Is told that a source ended so, behind so many of its samples, and whether the output had failed before.
    fn tell(&mut self, source: u32, ending: &SourceEnd, count: u64, is_lost: bool)
        ensures told { told self.new ≡ told self.old ++ record {
          source = source;
          ending = ending.now;
          count = count;
          is_lost = is_lost;
        } ∷ [] }
        ensures setting { setting self.new ≡ setting self.old };
}

/// An end that was told.
#[derive(Drop)]
struct OneEnd {
    source: u32,
    ending: Snapshot<SourceEnd>,
    count: u64,
    is_lost: bool,
}

/// Ends that were told, in order.
#[derive(Drop)]
enum EndHistory {
    Nothing,
    More {
        before: Snapshot<EndHistory>,
        last: Snapshot<OneEnd>,
    },
}

/// Is told how sources end, and says nothing of it. It has no bytes of the ends: contracts alone read them.
#[derive(Drop)]
pub struct ToldEnds {
    history: Snapshot<EndHistory>,
}

impl Model for ToldEnds {
    ghost use Rattle.std.specs.Prelude.{List};
    ghost use Rattle.live_lines.specs.Ends.{ToldEnd};
    ghost use Rattle.live_lines.specs.checked.EndHistories.{ends_of};

    ghost Value = { List ToldEnd };

    ghost view = { λ ends. ends_of ends.history.value };
}

impl ToldEnds {
    /// Nothing was told yet.
    pub fn new() -> ToldEnds
        ensures { result ≡ [] }
    {
        ToldEnds {
            history: Snapshot::of(&EndHistory::Nothing),
        }
    }
}

impl EndTeller for ToldEnds {
    ghost told = { λ ends. ends };

    fn tell(&mut self, source: u32, ending: &SourceEnd, count: u64, is_lost: bool) {
        let last = OneEnd {
            source,
            ending: Snapshot::of(ending),
            count,
            is_lost,
        };
        let before = mem::replace(&mut self.history, Snapshot::of(&EndHistory::Nothing));
        let noted = EndHistory::More {
            before,
            last: Snapshot::of(&last),
        };
        self.history = Snapshot::of(&noted);
    }
}
