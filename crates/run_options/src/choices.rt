//! What a reader of profiles is asked for.

ghost use Rattle.std.specs.Prelude.{◌≡◌, IfOk};

use stack_core::Text;
use std::alloc::{AllocError, Global};

/// Which value of a sample is its weight.
#[derive(Debug, Drop)]
pub enum Pick {
    /// The profile's `default_sample_type`, else its last sample type (profile.proto, `default_sample_type`).
    Preferred,
    /// The first sample type whose `type` is this text.
    Named(Text),
}

impl Pick {
    /// The same choice, with a text of its own.
    pub fn copy(&self, alloc: Global) -> Result<Pick, AllocError>
        ensures { IfOk result (λ copy. copy ≡ self.now) }
    {
        match self {
            Pick::Preferred => Ok(Pick::Preferred),
            Pick::Named(name) => {
                let name = String::from_str(alloc, name.get())?;
                Ok(Pick::Named(Text::of(name)))
            }
        }
    }
}

/// How frames are named.
#[derive(Clone, Copy, Debug, PartialEq, Eq)]
pub enum Naming {
    /// By the function.
    Plain,
    /// By the function and, where it is known, the line, as `main:12`.
    Lines,
}
