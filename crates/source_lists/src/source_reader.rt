//! The readers of all formats as one type.

ghost use Rattle.std.specs.Prelude.{◌≡◌, [], IfOk, refl};
ghost use Rattle.stack_core.specs.Reading.{IsSourceLimited};
ghost use Rattle.source_lists.specs.Sources.{whole_rest};

use crate::loaded_sources::LoadedSource;
use folded_lines::FoldedRows;
use profile_tables::PprofRows;
use run_options::{Format, Options};
use stack_core::{KnownRows, RowReader, RowStep};
use std::alloc::{AllocError, Global};

/// The reader of a source whose bytes are all there.
#[derive(Drop)]
pub(crate) enum SourceReader {
    Folded(FoldedRows),
    Pprof(PprofRows),
}

impl SourceReader {
    ghost use Rattle.source_lists.specs.checked.Readers.{reader_rest, reader_told};

    /// A reader of the source from its beginning, which has told nothing.
    pub(crate) fn over(
        alloc: Global,
        source: LoadedSource,
        options: &Options,
    ) -> Result<SourceReader, AllocError>
        ensures rest { IfOk result (λ reader.
            reader_rest reader ≡ whole_rest options.now source) }
        ensures told { IfOk result (λ reader. reader_told reader ≡ record { names = []; stacks = [] }) }
        ensures limits { IsSourceLimited (whole_rest options.now source).samples }
    {
        match source.format() {
            Format::Folded => {
                let reader = FoldedRows::over_shared(alloc, source.into_bytes());
                Ok(SourceReader::Folded(reader))
            }
            Format::Pprof => {
                let pick = options.pick.copy(alloc)?;
                let reader = PprofRows::over_shared(source.into_bytes(), pick, options.naming);
                Ok(SourceReader::Pprof(reader))
            }
        }
    }
}

impl RowReader for SourceReader {
    ghost use Rattle.source_lists.specs.checked.Readers.{reader_rest, reader_told, HasEnded};

    ghost gives = { λ reader rest. rest ≡ reader_rest reader };

    ghost told = { reader_told };

    ghost has_ended = { HasEnded };

    fn next_row(&mut self, alloc: Global) -> Result<RowStep, AllocError> {
        match self {
            SourceReader::Folded(reader) => reader.next_row(alloc),
            SourceReader::Pprof(reader) => reader.next_row(alloc),
        }
    }

    fn name(&self, number: usize) -> Option<&str> {
        match self {
            SourceReader::Folded(reader) => reader.name(number),
            SourceReader::Pprof(reader) => reader.name(number),
        }
    }
}

impl KnownRows for SourceReader {
    ghost use Rattle.source_lists.specs.checked.Readers.{reader_rest};

    ghost rest = { reader_rest };

    ghost gives_rest = { λ reader. refl };

    ghost gives_no_other = { λ reader other is. is };
}
