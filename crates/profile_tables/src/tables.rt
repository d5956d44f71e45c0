//! The tables of a profile.

ghost use Rattle.std.specs.Prelude.{◌≡◌, None, IfOk, IfErr};
ghost use Rattle.profile_messages.specs.Message.{first};
ghost use Rattle.profile_messages.specs.Faults.{IsFirstOf};
ghost use Rattle.profile_messages.specs.FileFaults.{file_faults};
ghost use Rattle.profile_messages.specs.SampleTypes.{chosen_type};
ghost use Rattle.profile_tables.specs.Samples.{tables_of};
ghost use Rattle.profile_tables.specs.SeenTables.{seen_tables, seen_type, LendsNames, LendsType};

use crate::outline::outline_of;
use profile_messages::{Index, SampleType, TableFault};
use run_options::{Naming, Pick};
use stack_core::Names;
use std::alloc::Global;

/// What the samples of a profile are read with: how many sample types there are, which value is the weight, and the frames of each
/// location.
///
/// Each location has names of its own, since [`Tables::location`] lends them: where many lines name one long string, the names take
/// the file's size squared. [`PprofReader`](crate::PprofReader) keeps each name once.
#[derive(Debug, Drop)]
pub struct Tables {
    pub(crate) sample_types: usize,
    pub(crate) chosen: Option<usize>,
    pub(crate) type_of_chosen: Option<SampleType>,
    pub(crate) locations: Index,
    /// The names of each location's frames, by its place.
    pub(crate) frames: Vec<Names>,
}

impl Tables {
    /// Reads the tables of a profile that is not compressed (profile.proto, message Profile). `Read` has the first fault of the file
    /// before its samples; the messages of samples are not looked at.
    pub fn read(
        alloc: Global,
        bytes: &[u8],
        pick: &Pick,
        naming: Naming,
    ) -> Result<Tables, TableFault>
        ensures faultless { IfOk result (λ _. first (file_faults bytes.now pick.now) ≡ None) }
        ensures tables { IfOk result (λ tables.
            seen_tables tables ≡ tables_of bytes.now pick.now naming) }
        ensures chosen_type { IfOk result (λ tables.
            seen_type tables ≡ chosen_type bytes.now pick.now) }
        ensures fault { IfErr result (IsFirstOf (file_faults bytes.now pick.now)) }
    {
        let outline = outline_of(alloc, bytes, pick, naming)?;
        let frames = outline.frames.stacks(alloc)?;
        Ok(Tables {
            sample_types: outline.sample_types,
            chosen: outline.chosen,
            type_of_chosen: outline.chosen_type,
            locations: outline.frames.locations,
            frames,
        })
    }

    /// The place of the chosen value among a sample's values. None where the file has no sample.
    pub fn chosen(&self) -> Option<usize>
        ensures { result ≡ (seen_tables self.now).chosen }
    {
        self.chosen
    }

    /// The sample type of the chosen value. None where the file has no sample.
    pub fn chosen_type(&self) -> Option<&SampleType>
        ensures { LendsType (seen_type self.now) result }
    {
        self.type_of_chosen.as_ref()
    }

    /// The number of sample types.
    pub fn sample_types(&self) -> usize
        ensures { result ≡ (seen_tables self.now).sample_types }
    {
        self.sample_types
    }

    /// The names of a location's frames, root first. None where no location has the id.
    pub fn location(&self, id: u64) -> Option<&[String]>
        ensures { LendsNames ((seen_tables self.now).frames id) result }
    {
        let names = self.frames.get(self.locations.get(id)?)?;
        Some(names.get())
    }
}
