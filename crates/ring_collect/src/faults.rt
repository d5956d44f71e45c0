//! Why a run has no answer.

ghost use Rattle.ring_collect.specs.declared.faults.CollectFault.TheVariants.{OutOfMemory};
ghost use Rattle.std.specs.Prelude.{◌≡◌};

use std::alloc::AllocError;
use std::error::Error;
use std::fmt;

/// Why a run has no answer. Where several hold, the first of Unfinished, OutOfMemory, NoThread is answered, with the least
/// source.
#[derive(Clone, Copy, Debug, PartialEq, Eq)]
pub enum CollectFault {
    /// Memory was refused to the collecting thread, to a reader or to the sink.
    OutOfMemory,
    /// A thread was refused.
    NoThread,
    /// A ring did not show what was sent there.
    Unfinished { source: u32 },
}

impl fmt::Display for CollectFault {
    fn fmt<W: fmt::Write>(&self, f: &mut fmt::Formatter<W>) -> fmt::Result {
        match self {
            CollectFault::OutOfMemory => write!(f, "out of memory"),
            CollectFault::NoThread => write!(f, "no thread"),
            CollectFault::Unfinished { source } => write!(f, "source {source} unfinished"),
        }
    }
}

impl Error for CollectFault {}

impl From<AllocError> for CollectFault {
    ghost from_gives = { λ _ fault. fault ≡ OutOfMemory };

    fn from(_refusal: AllocError) -> CollectFault {
        CollectFault::OutOfMemory
    }
}
