//! The readers of inputs as one type.

ghost use Rattle.std.specs.Prelude.{◌≡◌, IfOk};
ghost use Rattle.std.specs.List.{AllZip};
ghost use Rattle.source_lists.specs.checked.InputReaders.{IsReaderOf};

use crate::inputs::{Content, Input};
use crate::source_reader::SourceReader;
use crate::stored_profile::StoredProfile;
use byte_io::StoredRange;
use folded_lines::{FoldedRows, FoldedStream};
use profile_tables::PprofRows;
use run_options::Options;
use stack_core::{RowReader, RowStep};
use std::alloc::{AllocError, Global};

/// The reader of an input. It waits for nothing: the bytes are there, or stored.
#[derive(Drop)]
pub(crate) enum InputReader {
    Loaded(SourceReader),
    Text(FoldedStream<StoredRange>),
    Profile(StoredProfile),
}

impl InputReader {
    /// A reader of the input from its beginning, which has told nothing.
    pub(crate) fn over(
        alloc: Global,
        input: Input,
        options: &Options,
    ) -> Result<InputReader, AllocError>
        ensures { IfOk result (IsReaderOf options.now input) }
    {
        match input.into_content() {
            Content::Loaded(source) => {
                let reader = SourceReader::over(alloc, source, options)?;
                Ok(InputReader::Loaded(reader))
            }
            Content::Text(text) => {
                let reader = FoldedStream::over(alloc, text.whole()?);
                Ok(InputReader::Text(reader))
            }
            Content::Profile(text) => {
                let pick = options.pick.copy(alloc)?;
                let reader = StoredProfile::over(text, pick, options.naming);
                Ok(InputReader::Profile(reader))
            }
        }
    }
}

impl From<FoldedRows> for InputReader {
    ghost use Rattle.source_lists.specs.checked.InputReaders.{of_folded};

    ghost from_gives = { λ rows reader. reader ≡ of_folded rows };

    fn from(rows: FoldedRows) -> InputReader {
        InputReader::Loaded(SourceReader::Folded(rows))
    }
}

impl From<PprofRows> for InputReader {
    ghost use Rattle.source_lists.specs.checked.InputReaders.{of_pprof};

    ghost from_gives = { λ rows reader. reader ≡ of_pprof rows };

    fn from(rows: PprofRows) -> InputReader {
        InputReader::Loaded(SourceReader::Pprof(rows))
    }
}

impl From<FoldedStream<StoredRange>> for InputReader {
    ghost use Rattle.source_lists.specs.declared.input_readers.InputReader.TheVariants.{Text};

    ghost from_gives = { λ stream reader. reader ≡ Text stream };

    fn from(stream: FoldedStream<StoredRange>) -> InputReader {
        InputReader::Text(stream)
    }
}

/// The same readers as readers of inputs.
pub(crate) fn as_inputs<R: Into<InputReader> + Drop>(
    alloc: Global,
    parts: Vec<R>,
) -> Result<Vec<InputReader>, AllocError>
    ensures { IfOk result (λ readers. AllZip (λ part reader. R.converts part reader) parts.items readers.items) }
{
    let mut readers = Vec::with_capacity(alloc, parts.len())?;
    for part in parts {
        readers.push(part.into())?;
    }
    Ok(readers)
}

/// A reader for each input, which has told nothing.
pub(crate) fn readers_of_inputs(
    alloc: Global,
    inputs: Vec<Input>,
    options: &Options,
) -> Result<Vec<InputReader>, AllocError>
    ensures { IfOk result (λ readers. AllZip (IsReaderOf options.now) inputs.items readers.items) }
{
    let mut readers = Vec::with_capacity(alloc, inputs.len())?;
    for input in inputs {
        readers.push(InputReader::over(alloc, input, options)?)?;
    }
    Ok(readers)
}

impl RowReader for InputReader {
    ghost use Rattle.source_lists.specs.checked.InputReaders.{input_gives, input_told, HasInputEnded};

    ghost gives = { input_gives };

    ghost told = { input_told };

    ghost has_ended = { HasInputEnded };

    fn next_row(&mut self, alloc: Global) -> Result<RowStep, AllocError> {
        match self {
            InputReader::Loaded(reader) => reader.next_row(alloc),
            InputReader::Text(reader) => reader.next_row(alloc),
            InputReader::Profile(reader) => reader.next_row(alloc),
        }
    }

    fn name(&self, number: usize) -> Option<&str> {
        match self {
            InputReader::Loaded(reader) => reader.name(number),
            InputReader::Text(reader) => reader.name(number),
            InputReader::Profile(reader) => reader.name(number),
        }
    }
}
