//! The parts of a source that comes alone, read at the same time.

ghost use Rattle.std.specs.Prelude.{◌≡◌, ◌≤◌, ◌<◌, IfOk, IfSome, Some, option_map};
ghost use Rattle.folded_lines.specs.Reading.{read_folded};
ghost use Rattle.profile_tables.specs.Samples.{read_pprof};
ghost use Rattle.source_lists.specs.Sources.{known_input, whole_rest};
ghost use Rattle.source_lists.specs.checked.PartRuns.{AreOfParts, FindsPartsOf};

use crate::input_readers::{InputReader, as_inputs};
use crate::inputs::{Content, Input};
use crate::loaded_sources::LoadedSource;
use crate::part_lists::ignored_by_clean;
use crate::runners::Runner;
use crate::sources::Source;
use crate::stored_profile::loaded_bytes;
use byte_io::StoredText;
use folded_lines::{FoldedRows, FoldedStream};
use profile_tables::PprofRows;
use ring_collect::CollectFault;
use run_options::{Format, Options};
use stack_core::{RowSink, SourceList};
use std::alloc::{AllocError, Global};
use std::sync::Wait;
use std::thread::Threads;

/// How many readers read the parts of a source at most. A stack that stands in all parts is told once for each.
const READERS: u64 = 4;

/// How many bytes there are for each reader. For fewer a thread costs more than it brings.
const PART_LEN: u64 = 1 << 20;

/// How many readers read so many bytes that come alone.
fn reader_count(len: u64) -> usize
    ensures some { 0 < result }
    ensures few { result ≤ 64 }
{
    (len / PART_LEN).clamp(1, READERS) as usize
}

/// In how many parts a source is read where it comes alone.
pub(crate) fn part_count(input: &Input) -> usize {
    let len = match input.content() {
        Content::Loaded(source) => source.bytes().len() as u64,
        Content::Text(text) | Content::Profile(text) => text.len(),
    };
    reader_count(len)
}

/// The lists of the parts of a source, none of which has a fault, and how many lines they ignored.
#[derive(Drop)]
pub(crate) struct CleanParts {
    pub(crate) lists: Vec<SourceList>,
    pub(crate) ignored: u64,
}

/// Readers of the parts of a source whose bytes are there.
fn loaded_readers(
    alloc: Global,
    source: &LoadedSource,
    options: &Options,
) -> Result<Vec<InputReader>, AllocError>
    ensures { IfOk result (λ readers. AreOfParts (Some (whole_rest options.now source.now)) readers.items) }
{
    let bytes = source.bytes().clone()?;
    let count = reader_count(bytes.len() as u64);
    match source.format() {
        Format::Folded => as_inputs(alloc, FoldedRows::parts(alloc, bytes, count)?),
        Format::Pprof => {
            let (pick, naming) = (&options.pick, options.naming);
            as_inputs(alloc, PprofRows::parts(alloc, bytes, pick, naming, count)?)
        }
    }
}

/// Readers of the parts of a stored text.
fn stored_readers(alloc: Global, text: &StoredText) -> Result<Vec<InputReader>, AllocError>
    ensures { IfOk result (λ readers. AreOfParts (option_map read_folded text.now) readers.items) }
{
    let count = reader_count(text.len());
    as_inputs(alloc, FoldedStream::parts(alloc, text, count)?)
}

/// Readers of the parts of a stored profile, which is loaded for it. `None` where it can't be read.
fn profile_readers(
    alloc: Global,
    text: &StoredText,
    options: &Options,
) -> Result<Option<Vec<InputReader>>, AllocError>
    ensures { IfOk result (λ found. IfSome found (λ readers. let all = options.now in
        AreOfParts (option_map (λ bytes. read_pprof bytes all.pick all.naming) text.now) readers.items)) }
{
    let Some(bytes) = loaded_bytes(alloc, text)? else {
        return Ok(None);
    };
    let format = Format::Pprof;
    let source = LoadedSource::of(Source { format, bytes })?;
    Ok(Some(loaded_readers(alloc, &source, options)?))
}

/// Readers of the parts of an input. `None` where it can't be read.
fn part_readers(
    alloc: Global,
    input: &Input,
    options: &Options,
) -> Result<Option<Vec<InputReader>>, AllocError>
    ensures { IfOk result (λ found. IfSome found (λ readers.
        AreOfParts (option_map (whole_rest options.now) (known_input input.now)) readers.items)) }
{
    match input.content() {
        Content::Loaded(source) => Ok(Some(loaded_readers(alloc, source, options)?)),
        Content::Text(text) => Ok(Some(stored_readers(alloc, text)?)),
        Content::Profile(text) => profile_readers(alloc, text, options),
    }
}

impl<T: Threads + Wait + Copy + Send + 'static> Runner<'_, T> {
    /// Reads parts of an input at the same time, each by its reader. `None` where the input has to be read as one: where a part has a fault,
    /// can't be read to its end, or all weigh too much together, so that the fault is told where it stands, and where a thread was refused.
    pub(crate) fn read_parts<S: RowSink>(
        &self,
        input: &Input,
        sink: &mut S,
    ) -> Result<Option<CleanParts>, AllocError>
        ensures parts { FindsPartsOf self.now.is_summed
            (option_map (whole_rest self.now.options.now) (known_input input.now)) result }
        ensures setting { S.setting sink.new ≡ S.setting sink.old }
    {
        let Some(readers) = part_readers(self.alloc, input, self.options)? else {
            return Ok(None);
        };
        match self.run_open(readers, sink) {
            Ok(run) => {
                let lists = run.lists;
                match ignored_by_clean(&lists) {
                    Some(ignored) => Ok(Some(CleanParts { lists, ignored })),
                    None => Ok(None),
                }
            }
            Err(CollectFault::OutOfMemory) => Err(AllocError),
            Err(CollectFault::NoThread | CollectFault::Unfinished { .. }) => Ok(None),
        }
    }
}
