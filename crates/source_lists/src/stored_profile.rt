//! The reader of a profile that is loaded in the reader's own thread.

ghost use Rattle.std.specs.Prelude.{◌≡◌, ◌↔◌, ◌⊎◌, [], IfOk, IfSome, IsOk, OnOk};
ghost use Rattle.stack_core.specs.Reading.{Rest};
ghost use Rattle.source_lists.specs.checked.StoredProfiles.{HasProfileEnded, ReadsSome, WasTried, nothing_read, profile_gives, profile_told};

use byte_io::{LoadFault, StoredText};
use profile_tables::PprofRows;
use run_options::{Naming, Pick};
use stack_core::{RowReader, RowStep, SourceEnd};
use std::alloc::{AllocError, Global};

/// All bytes of a stored text. None where they can't be read.
pub(crate) fn loaded_bytes(alloc: Global, text: &StoredText) -> Result<Option<Vec<u8>>, AllocError>
    ensures { IfOk result (λ found. IfSome found (λ bytes.
        IfSome text.now (λ all. bytes.items ≡ all))) }
{
    match text.load(alloc) {
        Ok(bytes) => Ok(Some(bytes)),
        Err(LoadFault::OutOfMemory) => Err(AllocError),
        Err(LoadFault::Io | LoadFault::TooLarge) => Ok(None),
    }
}

/// The reader of a profile that is loaded when its first row is asked for, and given back with the reader.
#[derive(Drop)]
pub(crate) enum StoredProfile {
    Unread {
        text: StoredText,
        pick: Pick,
        naming: Naming,
    },
    Loaded(PprofRows),
    /// It ended before its first row.
    Unreadable,
}

impl StoredProfile {
    /// A reader of a profile, none of which is read yet.
    pub(crate) fn over(text: StoredText, pick: Pick, naming: Naming) -> StoredProfile
        ensures gives { (rest : Rest) → profile_gives result rest
            ↔ (rest ≡ nothing_read) ⊎ ReadsSome text pick naming rest }
        ensures told { profile_told result ≡ record { names = []; stacks = [] } }
    {
        StoredProfile::Unread { text, pick, naming }
    }

    /// Loads the profile, unless that was tried before. Want of memory changes nothing.
    fn load(&mut self, alloc: Global) -> Result<(), AllocError>
        ensures gives { (rest : Rest) → profile_gives self.new rest → profile_gives self.old rest }
        ensures told { profile_told self.new ≡ profile_told self.old }
        ensures tried { OnOk result (WasTried self.new) }
        ensures ended { HasProfileEnded self.old → HasProfileEnded self.new }
        ensures repeats { HasProfileEnded self.old → IsOk result }
        ensures kept { WasTried self.old → self.new ≡ self.old }
        ensures once { WasTried self.old → IsOk result }
    {
        let StoredProfile::Unread { text, pick, naming } = self else {
            return Ok(());
        };
        let naming = *naming;
        let pick = pick.copy(alloc)?;
        *self = match loaded_bytes(alloc, text)? {
            Some(bytes) => StoredProfile::Loaded(PprofRows::over(bytes, pick, naming)),
            None => StoredProfile::Unreadable,
        };
        Ok(())
    }
}

impl RowReader for StoredProfile {
    ghost gives = { profile_gives };

    ghost told = { profile_told };

    ghost has_ended = { HasProfileEnded };

    fn next_row(&mut self, alloc: Global) -> Result<RowStep, AllocError> {
        self.load(alloc)?;
        match self {
            StoredProfile::Unread { .. } => unreachable!(),
            StoredProfile::Loaded(rows) => rows.next_row(alloc),
            StoredProfile::Unreadable => Ok(RowStep::End(SourceEnd::Stopped { after: 0 })),
        }
    }

    fn name(&self, number: usize) -> Option<&str> {
        match self {
            StoredProfile::Loaded(rows) => rows.name(number),
            StoredProfile::Unread { .. } | StoredProfile::Unreadable => None,
        }
    }
}
