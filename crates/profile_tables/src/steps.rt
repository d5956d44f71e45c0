//! The tables of a file, read before its first sample.

ghost use Rattle.std.specs.Prelude.{◌≡◌, IfOk, OnErr};
ghost use Rattle.profile_tables.specs.checked.Rests.{IsStart};
ghost use Rattle.profile_tables.specs.checked.View.{IsOpened};

use crate::outline::outline_of;
use crate::part::Part;
use profile_messages::TableFault;
use run_options::{Naming, Pick};
use stack_core::ReadFault;
use std::alloc::{AllocError, Global};

/// What reading the tables of a file gives.
#[derive(Drop)]
pub(crate) enum Start {
    Part(Part),
    Fault(ReadFault),
}

/// Reads the tables of a file.
pub(crate) fn start_of(
    alloc: Global,
    file: &[u8],
    pick: &Pick,
    naming: Naming,
) -> Result<Start, AllocError>
    ensures { IfOk result (IsStart file.now pick.now naming) }
{
    match outline_of(alloc, file, pick, naming) {
        Ok(outline) => {
            let whole = Part::whole(alloc, outline)?;
            Ok(Start::Part(whole))
        }
        Err(TableFault::Read(fault)) => Ok(Start::Fault(fault)),
        Err(TableFault::OutOfMemory) => Err(AllocError),
    }
}

/// Reads the tables of a file, where that was not done before, and answers the fault that they have.
pub(crate) fn open(
    alloc: Global,
    part: &mut Option<Part>,
    file: &[u8],
    pick: &Pick,
    naming: Naming,
) -> Result<Option<ReadFault>, AllocError>
    ensures ok { IfOk result (IsOpened file.now pick.now naming part.old part.new) }
    ensures refused { OnErr result (part.new ≡ part.old) }
{
    if part.is_some() {
        return Ok(None);
    }
    match start_of(alloc, file, pick, naming)? {
        Start::Part(whole) => {
            *part = Some(whole);
            Ok(None)
        }
        Start::Fault(fault) => Ok(Some(fault)),
    }
}
