//! Why tables can't be had.

ghost use Rattle.std.specs.Prelude.{◌≡◌};
ghost use Rattle.profile_messages.specs.declared.faults.TableFault.TheVariants.{OutOfMemory};

use stack_core::ReadFault;
use std::alloc::{AllocError, AllocFailed};
use std::error::Error;
use std::fmt;

/// Why the tables of a file can't be had.
#[derive(Clone, Copy, Debug, PartialEq, Eq)]
pub enum TableFault {
    /// The fault of the file with which it ends before its samples are read.
    Read(ReadFault),
    /// Want of memory.
    OutOfMemory,
}

/// Writes the fault of the file, as `BadString at 12`, or `out of memory`.
impl fmt::Display for TableFault {
    ghost use Rattle.std.specs.Prelude.{Some};
    ghost use Rattle.profile_messages.specs.Faults.{table_fault_text};

    ghost output = { λ fault. Some (table_fault_text fault) };

    fn fmt<W: fmt::Write>(&self, f: &mut fmt::Formatter<W>) -> fmt::Result {
        match self {
            TableFault::Read(fault) => write!(f, "{fault}"),
            TableFault::OutOfMemory => f.write_str("out of memory"),
        }
    }
}

impl Error for TableFault {}

impl From<AllocError> for TableFault {
    ghost from_gives = { λ _ fault. fault ≡ OutOfMemory };

    fn from(_refused: AllocError) -> Self {
        TableFault::OutOfMemory
    }
}

impl<T: Drop> From<AllocFailed<T>> for TableFault {
    ghost from_gives = { λ _ fault. fault ≡ OutOfMemory };

    fn from(_refused: AllocFailed<T>) -> Self {
        TableFault::OutOfMemory
    }
}
