//! The same profile, read in parts by several readers.

ghost use Rattle.std.specs.Prelude.{◌≡◌, ◌≢◌, ◌<◌, ◌≤◌, ℕ, All, IfOk, length, map};
ghost use Rattle.std.specs.Arc.{arc_value};
ghost use Rattle.stack_core.specs.Parts.{ReadsInParts};
ghost use Rattle.stack_core.specs.Reading.{IsSourceLimited};
ghost use Rattle.stack_core.specs.declared.endings.SourceEnd.TheVariants.{Stopped};
ghost use Rattle.profile_messages.specs.SampleTypes.{chosen_type};
ghost use Rattle.profile_tables.specs.Samples.{no_samples, read_pprof};
ghost use Rattle.profile_tables.specs.State.{nothing_told};
ghost use Rattle.profile_tables.specs.checked.PartReaders.{IsPartReader};
ghost use Rattle.profile_tables.specs.checked.Rests.{rest_from};

use super::PprofRows;
use crate::part::Part;
use crate::steps::{Start, start_of};
use bytes::Bytes;
use run_options::{Naming, Pick};
use stack_core::{ReadFault, SourceBytes, SourceEnd};
use std::alloc::{AllocError, Global};
use std::sync::Arc;

impl PprofRows {
    /// Readers of a profile's samples in so many parts, one after another, which are about equal by the number of samples. The tables are
    /// read here, once for all of them. Where they have a fault there is one reader, which is at this ending.
    pub fn parts(
        alloc: Global,
        bytes: Bytes,
        pick: &Pick,
        naming: Naming,
        count: usize,
    ) -> Result<Vec<PprofRows>, AllocError>
        requires { 0 < count }
        ensures parts { IfOk result (λ readers. ReadsInParts (read_pprof bytes pick.now naming)
            (map (λ reader. reader.rest) readers.items)) }
        ensures few { IfOk result (λ readers. length readers.items ≤ count) }
        ensures told { IfOk result (λ readers. All (λ reader. reader.told ≡ nothing_told) readers.items) }
        ensures chosen_type { IfOk result (λ readers. All (λ reader.
            reader.chosen_type ≡ chosen_type bytes pick.now) readers.items) }
        ensures limits { IfOk result (λ readers. All (λ reader.
            IsSourceLimited reader.rest.samples) readers.items) }
        ensures unstopped { IfOk result (λ readers. All (λ reader.
            (after : ℕ) → reader.rest.ending ≢ Stopped after) readers.items) }
    {
        match start_of(alloc, bytes.as_slice(), pick, naming)? {
            Start::Part(whole) => readers_of_parts(alloc, &bytes, pick, naming, &whole, count),
            Start::Fault(fault) => {
                let pick = pick.copy(alloc)?;
                let mut readers = Vec::with_capacity(alloc, 1)?;
                readers.push(PprofRows::at_fault(bytes, pick, naming, fault))?;
                Ok(readers)
            }
        }
    }

    /// A reader that is at the fault of the tables.
    fn at_fault(bytes: Bytes, pick: Pick, naming: Naming, fault: ReadFault) -> PprofRows
        ensures rest { result.rest ≡ no_samples fault }
        ensures reader { IsPartReader bytes pick result }
    {
        let mut reader = PprofRows::over_shared(bytes, pick, naming);
        reader.ended = Some(SourceEnd::Fault(fault));
        reader
    }

    /// A reader of a part, whose first sample is `given`.
    fn of_part(bytes: Bytes, pick: Pick, naming: Naming, part: Part, given: usize) -> PprofRows
        requires chosen { (arc_value part.outline).chosen_type ≡ chosen_type bytes pick }
        requires order { given ≤ part.past }
        ensures rest { result.rest ≡ rest_from bytes (arc_value part.outline) part.past given 0 }
        ensures reader { IsPartReader bytes pick result }
    {
        PprofRows {
            bytes: SourceBytes::Shared(bytes),
            pick,
            naming,
            part: Some(part),
            given,
            total: 0,
            ended: None,
            teller: None,
        }
    }
}

/// Readers of so many parts of a profile, whose tables they share.
fn readers_of_parts(
    alloc: Global,
    bytes: &Bytes,
    pick: &Pick,
    naming: Naming,
    whole: &Part,
    count: usize,
) -> Result<Vec<PprofRows>, AllocError>
    requires some { 0 < count }
    requires chosen { (arc_value whole.now.outline).chosen_type ≡ chosen_type bytes.now pick.now }
    ensures parts { IfOk result (λ readers. ReadsInParts
        (rest_from bytes.now (arc_value whole.now.outline) whole.now.past 0 0)
        (map (λ reader. reader.rest) readers.items)) }
    ensures count { IfOk result (λ readers. length readers.items ≡ count) }
    ensures readers { IfOk result (λ readers. All (IsPartReader bytes.now pick.now) readers.items) }
{
    let mut readers = Vec::with_capacity(alloc, count)?;
    let mut given = 0;
    let mut left = count;
    while left > 0 {
        let past = given + (whole.past - given) / left;
        let outline = Arc::try_clone(&whole.outline)?;
        let part = Part { outline, past };
        let bytes = bytes.clone()?;
        let pick = pick.copy(alloc)?;
        readers.push(PprofRows::of_part(bytes, pick, naming, part, given))?;
        given = past;
        left -= 1;
    }
    Ok(readers)
}
