//! A pprof profile, read by rows of numbers.

ghost use Rattle.std.specs.Prelude.{◌≡◌, ◌<◌, ◌^◌, length, IfOk, OnErr, IsOk, IsTrue, refl};
ghost use Rattle.stack_core.specs.Parts.{bytes_of};
ghost use Rattle.stack_core.specs.Prefixes.{IsPrefixOf};
ghost use Rattle.stack_core.specs.RowReading.{StepsByRows, IsLastStep, IsLimitedStep};
ghost use Rattle.profile_tables.specs.SeenTables.{LendsType};
ghost use Rattle.profile_tables.specs.State.{IsUnread, told_type, HasReadRow};

mod parts;

use crate::part::Part;
use crate::steps::open;
use crate::tellers::Teller;
use bytes::Bytes;
use profile_messages::SampleType;
use run_options::{Naming, Pick};
use stack_core::{KnownRows, RowReader, RowStep, SourceBytes, SourceEnd};
use std::alloc::{AllocError, Global};
use std::marker::Model;

/// Reads a pprof profile as `PprofReader` does, but gives each name once, and each stack as the numbers of its names. Contracts see what
/// it still has to give, what it told, and whether it has answered the ending.
///
/// It keeps the file, or shares it, and of its tables no more than a few times the file's size: each name once, however many frames have it. The
/// frames of a sample are counted before they are made.
#[derive(Debug, Drop)]
pub struct PprofRows {
    bytes: SourceBytes,
    pick: Pick,
    naming: Naming,
    /// None before the tables were read.
    part: Option<Part>,
    /// The samples before this one were given, or are those of other parts.
    given: usize,
    /// The weights together of those that were given.
    total: u64,
    ended: Option<SourceEnd>,
    /// None before the first row was asked for.
    teller: Option<Teller>,
}

impl Model for PprofRows {
    ghost use Rattle.profile_tables.specs.State.{State};

    ghost Value = { State };

    ghost use Rattle.profile_tables.specs.checked.View.{state_of, IsReader};

    ghost view = { state_of };

    ghost invariant = { IsReader };
}

impl PprofRows {
    /// A reader of a file's bytes. It takes no memory: the first `next_row` reads the tables.
    pub fn over(bytes: Vec<u8>, pick: Pick, naming: Naming) -> Self
        ensures { IsUnread bytes.items pick naming result }
    {
        PprofRows::unread(SourceBytes::Own(bytes), pick, naming)
    }

    /// A reader of a file's bytes that others share. It takes no memory either.
    pub fn over_shared(bytes: Bytes, pick: Pick, naming: Naming) -> Self
        ensures { IsUnread bytes pick naming result }
    {
        PprofRows::unread(SourceBytes::Shared(bytes), pick, naming)
    }

    fn unread(bytes: SourceBytes, pick: Pick, naming: Naming) -> Self
        ensures { IsUnread (bytes_of bytes) pick naming result }
    {
        PprofRows {
            bytes,
            pick,
            naming,
            part: None,
            given: 0,
            total: 0,
            ended: None,
            teller: None,
        }
    }
}

impl PprofRows {
    /// The sample type of the chosen value. None before the tables were read, and where the file has no sample.
    pub fn chosen_type(&self) -> Option<&SampleType>
        ensures { LendsType (told_type self.now) result }
    {
        self.part.as_ref()?.outline.chosen_type.as_ref()
    }

    /// The next step. The type of the chosen value stays, and behind a sample it is known.
    pub(crate) fn next_step(&mut self, alloc: Global) -> Result<RowStep, AllocError>
        ensures step { IfOk result (λ step. StepsByRows self.old.told self.old.rest step
            self.new.told self.new.rest) }
        ensures limits { IfOk result IsLimitedStep }
        ensures refused { OnErr result (self.new.rest ≡ self.old.rest) }
        ensures stacks { OnErr result (self.new.told.stacks ≡ self.old.told.stacks) }
        ensures names { OnErr result (IsPrefixOf self.old.told.names self.new.told.names) }
        ensures few { length self.old.rest.samples < 2 ^ 64 }
        ensures ended { IfOk result (λ step. IsLastStep step → IsTrue self.new.has_ended) }
        ensures repeats { IsTrue self.old.has_ended → IsOk result }
        ensures chosen_type { self.new.chosen_type ≡ self.old.chosen_type }
        ensures tables { IfOk result (HasReadRow self.new) }
    {
        if let Some(ending) = self.ended {
            return Ok(RowStep::End(ending));
        }
        let file = self.bytes.as_slice();
        if let Some(fault) = open(alloc, &mut self.part, file, &self.pick, self.naming)? {
            let ending = SourceEnd::Fault(fault);
            self.ended = Some(ending);
            return Ok(RowStep::End(ending));
        }
        let Some(part) = &self.part else {
            unreachable!();
        };
        let step = part.next_row(alloc, file, &mut self.teller, self.given, self.total)?;
        match &step {
            RowStep::New { weight, .. } | RowStep::Again { weight, .. } => {
                self.given += 1;
                self.total += *weight;
            }
            RowStep::End(ending) => self.ended = Some(*ending),
        }
        Ok(step)
    }
}

/// A stack is known again where its location ids stand as one packed run, the sample's first field, and these bytes were met before.
impl RowReader for PprofRows {
    ghost gives = { λ reader rest. rest ≡ reader.rest };

    ghost told = { λ reader. reader.told };

    ghost has_ended = { λ reader. IsTrue reader.has_ended };

    fn next_row(&mut self, alloc: Global) -> Result<RowStep, AllocError> {
        self.next_step(alloc)
    }

    fn name(&self, number: usize) -> Option<&str> {
        match &self.teller {
            Some(teller) => teller.name(number),
            None => None,
        }
    }
}

impl KnownRows for PprofRows {
    ghost rest = { λ reader. reader.rest };

    ghost gives_rest = { λ reader. refl };

    ghost gives_no_other = { λ reader other is. is };
}
