//! Samples that are read one by one.

ghost use Rattle.std.specs.Prelude.{◌≡◌, ◌↔◌, ◌<◌, ◌≤◌, IsTrue, List, length};
ghost use Rattle.sample_tables.specs.declared.samples.TheConstants.{FRAME_LIMIT};
ghost use Rattle.sample_tables.specs.declared.samples.Sample.{Sample as StackSample};
ghost use Rattle.stack_core.specs.Ledgers.{ListState};
ghost use Rattle.sample_tables.specs.Rows.{name_at, sample_at};

use stack_core::{FRAME_LIMIT, SourceList};

/// Samples whose frames are numbers of names. Contracts see them as the samples.
pub trait StackRows {
    /// The samples.
    ghost samples: { Self → List StackSample };

    /// How many samples there are.
    fn len(&self) -> usize
        ensures count { result ≡ length (samples self.now) };

    /// The weight of sample `at`.
    fn weight(&self, at: usize) -> u64
        requires { at < length (samples self.now) }
        ensures value { result ≡ (sample_at (samples self.now) at).weight };

    /// How many frames sample `at` has.
    fn depth(&self, at: usize) -> usize
        requires { at < length (samples self.now) }
        ensures value { result ≡ length (sample_at (samples self.now) at).stack }
        ensures limit { result ≤ FRAME_LIMIT };

    /// The name of a frame of sample `at`. The root frame is frame 0.
    fn name(&self, at: usize, frame: usize) -> &str
        requires at { at < length (samples self.now) }
        requires deep { frame < length (sample_at (samples self.now) at).stack }
        ensures { result.now ≡ name_at (sample_at (samples self.now) at).stack frame };

    /// Whether a frame has the same name in two samples.
    fn is_same_name(&self, at: usize, later: usize, frame: usize) -> bool
        requires at { at < length (samples self.now) }
        requires later { later < length (samples self.now) }
        requires deep { frame < length (sample_at (samples self.now) at).stack }
        requires later_deep { frame < length (sample_at (samples self.now) later).stack }
        ensures { IsTrue result ↔ (name_at (sample_at (samples self.now) at).stack frame
            ≡ name_at (sample_at (samples self.now) later).stack frame) };
}

impl StackRows for SourceList {
    ghost samples = { λ list. list.samples };

    fn len(&self) -> usize {
        SourceList::len(self)
    }

    fn weight(&self, at: usize) -> u64 {
        SourceList::weight(self, at)
    }

    fn depth(&self, at: usize) -> usize {
        SourceList::depth(self, at)
    }

    fn name(&self, at: usize, frame: usize) -> &str {
        SourceList::name(self, at, frame)
    }

    /// Equal numbers stand for equal names, so the names are compared only where the numbers differ.
    fn is_same_name(&self, at: usize, later: usize, frame: usize) -> bool {
        if self.number(at, frame) == self.number(later, frame) {
            return true;
        }
        SourceList::name(self, at, frame) == SourceList::name(self, later, frame)
    }
}
