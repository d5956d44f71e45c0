//! A pprof profile, read sample by sample.

ghost use Rattle.std.specs.Prelude.{◌≡◌, ◌<◌, ◌^◌, length, IfOk, OnErr, IsOk, IsTrue};
ghost use Rattle.stack_core.specs.Reading.{Steps, IsEnd, IsWithinLimits};
ghost use Rattle.profile_tables.specs.SeenTables.{LendsType};
ghost use Rattle.profile_tables.specs.State.{IsUnread, told_type, HasRead};

use crate::row_reader::PprofRows;
use profile_messages::SampleType;
use run_options::{Naming, Pick};
use stack_core::{RowSamples, SampleReader, Step};
use std::alloc::{AllocError, Global};
use std::marker::Model;

/// Reads the samples of a pprof profile that is not compressed. Contracts see what it still has to give, and whether it has answered
/// the ending.
#[derive(Drop)]
pub struct PprofReader {
    rows: PprofRows,
    samples: RowSamples,
}

impl Model for PprofReader {
    ghost use Rattle.profile_tables.specs.State.{State};

    ghost Value = { State };

    ghost use Rattle.profile_tables.specs.checked.View.{reader_state, NamesRows};

    ghost view = { reader_state };

    ghost invariant = { NamesRows };
}

impl PprofReader {
    /// A reader of a file's bytes. It takes no memory: the first `next` reads the tables.
    pub fn over(bytes: Vec<u8>, pick: Pick, naming: Naming) -> Self
        ensures { IsUnread bytes.items pick naming result }
    {
        let samples = RowSamples::new(*bytes.allocator());
        PprofReader {
            rows: PprofRows::over(bytes, pick, naming),
            samples,
        }
    }

    /// The sample type of the chosen value. None before the tables were read, and where the file has no sample.
    pub fn chosen_type(&self) -> Option<&SampleType>
        ensures { LendsType (told_type self.now) result }
    {
        self.rows.chosen_type()
    }
}

impl SampleReader for PprofReader {
    ghost rest = { λ reader. reader.rest };

    ghost has_ended = { λ reader. IsTrue reader.has_ended };

    /// As the trait has it. The type of the chosen value stays, and behind a sample it is known.
    fn next(&mut self, alloc: Global) -> Result<Step, AllocError>
        ensures step { IfOk result (λ step. Steps self.old.rest step self.new.rest) }
        ensures limits { IfOk result IsWithinLimits }
        ensures refused { OnErr result (self.new.rest ≡ self.old.rest) }
        ensures few { length self.old.rest.samples < 2 ^ 64 }
        ensures ended { IfOk result (λ step. IsEnd step → IsTrue self.new.has_ended) }
        ensures repeats { IsTrue self.old.has_ended → IsOk result }
        ensures chosen_type { self.new.chosen_type ≡ self.old.chosen_type }
        ensures tables { IfOk result (HasRead self.new) }
    {
        if self.samples.is_idle() {
            let step = self.rows.next_step(alloc)?;
            self.samples.take(step);
        }
        self.samples.give(alloc, &self.rows)
    }
}
