//! Why a run fails.
ghost use Rattle.std.specs.Prelude.{◌≡◌};
ghost use Rattle.source_views.specs.Failures.{status_of, failure_of_load, failure_of_collect, failure_of_run};
ghost use Rattle.source_views.specs.declared.failures.Failure.TheVariants.{OutOfMemory, Output};

use byte_io::{LoadFault, PieceFault};
use ring_collect::CollectFault;
use source_lists::RunFault;
use std::alloc::AllocError;

/// Why a run failed. Sources are counted from 0.
#[derive(Clone, Copy, Debug, PartialEq, Eq)]
pub enum Failure {
    /// There are more files than a run takes.
    TooManyFiles,
    /// The source can't be read.
    Unreadable { source: usize },
    /// The source has too many bytes.
    TooLarge { source: usize },
    /// There was no memory.
    OutOfMemory,
    /// There was no thread for a source.
    NoThread,
    /// It isn't known whether all of the source was received.
    Unfinished { source: u32 },
    /// A source has a fault, or several have; each was reported.
    Faults,
    /// The text was not sent whole: the output can't be written, or there was no memory on the way.
    Output(PieceFault),
}

impl Failure {
    /// The failure of a run for which the source could not be loaded.
    pub fn of_load(source: usize, fault: LoadFault) -> Failure
        ensures { result ≡ failure_of_load source fault }
    {
        match fault {
            LoadFault::Io => Failure::Unreadable { source },
            LoadFault::TooLarge => Failure::TooLarge { source },
            LoadFault::OutOfMemory => Failure::OutOfMemory,
        }
    }

    /// The exit status of the run.
    pub fn status(self) -> u8
        ensures { result ≡ status_of self }
    {
        match self {
            Failure::Faults => 1,
            Failure::TooManyFiles => 2,
            Failure::Unreadable { source: _ }
            | Failure::TooLarge { source: _ }
            | Failure::OutOfMemory
            | Failure::NoThread
            | Failure::Unfinished { source: _ }
            | Failure::Output(_) => 3,
        }
    }
}

impl From<AllocError> for Failure {
    ghost from_gives = { λ _ failure. failure ≡ OutOfMemory };

    fn from(_error: AllocError) -> Failure {
        Failure::OutOfMemory
    }
}

impl From<CollectFault> for Failure {
    ghost from_gives = { λ fault failure. failure ≡ failure_of_collect fault };

    fn from(fault: CollectFault) -> Failure {
        match fault {
            CollectFault::OutOfMemory => Failure::OutOfMemory,
            CollectFault::NoThread => Failure::NoThread,
            CollectFault::Unfinished { source } => Failure::Unfinished { source },
        }
    }
}

impl From<RunFault> for Failure {
    ghost from_gives = { λ fault failure. failure ≡ failure_of_run fault };

    fn from(fault: RunFault) -> Failure {
        match fault {
            RunFault::Collect(fault) => Failure::from(fault),
            RunFault::Unreadable { source } => Failure::Unreadable { source },
        }
    }
}

impl From<PieceFault> for Failure {
    ghost from_gives = { λ fault failure. failure ≡ Output fault };

    fn from(fault: PieceFault) -> Failure {
        Failure::Output(fault)
    }
}
