//! Why a run has no answer.

ghost use Rattle.std.specs.Prelude.{◌≡◌};
ghost use Rattle.ring_collect.specs.declared.faults.CollectFault.TheVariants.{OutOfMemory};
ghost use Rattle.source_lists.specs.declared.run_faults.RunFault.TheVariants.{Collect as IsCollect};

use ring_collect::CollectFault;
use std::alloc::AllocError;

/// Why nothing is told of a run.
#[derive(Clone, Copy, Debug, PartialEq, Eq)]
pub enum RunFault {
    /// The samples were not collected.
    Collect(CollectFault),
    /// The text of a source can't be read to its end.
    Unreadable { source: usize },
}

pub(crate) type RunResult<V> = Result<V, RunFault>;

impl From<CollectFault> for RunFault {
    ghost from_gives = { λ fault found. found ≡ IsCollect fault };

    fn from(fault: CollectFault) -> RunFault {
        RunFault::Collect(fault)
    }
}

impl From<AllocError> for RunFault {
    ghost from_gives = { λ _ found. found ≡ IsCollect OutOfMemory };

    fn from(_refusal: AllocError) -> RunFault {
        RunFault::Collect(CollectFault::OutOfMemory)
    }
}
