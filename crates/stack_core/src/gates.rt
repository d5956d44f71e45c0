//! What a run asks before each sample.

ghost use Rattle.std.specs.Prelude.{◌≡◌, ℕ};

/// What a gate answers.
#[derive(Clone, Copy, Debug, PartialEq, Eq)]
pub enum Turn {
    /// The sample is told.
    Go,
    /// The source stops before the sample.
    Stop,
}

/// Asked by the reader thread of a source before each of its samples.
pub trait Gate {
    /// Where the gate may stop: at this source, before the sample of this number, counted from 0.
    ghost may_stop: { Self → ℕ → ℕ → Type 0 };

    /// Where it may go.
    ghost may_go: { Self → ℕ → ℕ → Type 0 };

    /// Whether sample `index` of the source is told.
    fn before(&self, source: u32, index: u64) -> Turn
        ensures stop { result ≡ Turn.Stop → may_stop self.now source index }
        ensures go { result ≡ Turn.Go → may_go self.now source index };
}

/// A gate that never stops.
#[derive(Clone, Copy, Debug)]
pub struct OpenGate;

impl Gate for OpenGate {
    ghost may_stop = { λ _ _ _. ⊥ };

    ghost may_go = { λ _ _ _. Unit {0} };

    fn before(&self, _source: u32, _index: u64) -> Turn
        ensures { result ≡ Turn.Go }
    {
        Turn::Go
    }
}
