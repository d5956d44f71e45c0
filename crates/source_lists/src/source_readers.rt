//! The readers of the sources of a run.

ghost use Rattle.std.specs.Prelude.{◌≡◌, [], All, IfOk, map};
ghost use Rattle.stack_core.specs.Reading.{IsSourceLimited};
ghost use Rattle.source_lists.specs.Sources.{asked_rests, whole_rests};
ghost use Rattle.source_lists.specs.checked.Readers.{filtered_rest, naming_rest, reader_rest, reader_told};

use crate::filtered_reader::{FilteredReader, filter_all};
use crate::loaded_sources::LoadedSource;
use crate::source_reader::SourceReader;
use run_options::Options;
use stack_core::NamingReader;
use std::alloc::{AllocError, Global};

/// A reader for each source, which has told nothing.
pub(crate) fn readers_of(
    alloc: Global,
    sources: Vec<LoadedSource>,
    options: &Options,
) -> Result<Vec<SourceReader>, AllocError>
    ensures rests { IfOk result (λ readers.
        map reader_rest readers.items ≡ whole_rests options.now sources.items) }
    ensures limits { IfOk result (λ readers.
        All (λ rest. IsSourceLimited rest.samples) (whole_rests options.now sources.items)) }
    ensures told { IfOk result (λ readers.
        All (λ reader. reader_told reader ≡ record { names = []; stacks = [] }) readers.items) }
{
    let mut readers = Vec::with_capacity(alloc, sources.len())?;
    for source in sources {
        readers.push(SourceReader::over(alloc, source, options)?)?;
    }
    Ok(readers)
}

/// Readers of the samples of readers of rows that told nothing.
fn naming_readers(
    alloc: Global,
    readers: Vec<SourceReader>,
) -> Result<Vec<NamingReader<SourceReader>>, AllocError>
    requires { All (λ reader. reader_told reader ≡ record { names = []; stacks = [] }) readers.items }
    ensures { IfOk result (λ all.
        map naming_rest all.items ≡ map reader_rest readers.items) }
{
    let mut all = Vec::with_capacity(alloc, readers.len())?;
    for reader in readers {
        all.push(NamingReader::of(alloc, reader))?;
    }
    Ok(all)
}

/// A reader for each source that gives what the filter keeps.
pub(crate) fn filtered_readers_of(
    alloc: Global,
    sources: Vec<LoadedSource>,
    options: &Options,
) -> Result<Vec<FilteredReader<NamingReader<SourceReader>>>, AllocError>
    ensures rests { IfOk result (λ readers.
        map filtered_rest readers.items ≡ asked_rests options.now sources.items) }
    ensures limits { IfOk result (λ readers.
        All (λ rest. IsSourceLimited rest.samples) (asked_rests options.now sources.items)) }
{
    let readers = naming_readers(alloc, readers_of(alloc, sources, options)?)?;
    filter_all(alloc, readers, &options.filter)
}
