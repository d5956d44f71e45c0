//! Sources of which all bytes are there.

ghost use Rattle.std.specs.Prelude.{◌≡◌, IfOk};
ghost use Rattle.source_lists.specs.Sources.{format_and_bytes};

use crate::sources::Source;
use bytes::Bytes;
use run_options::Format;
use std::alloc::AllocError;
use std::marker::Model;

/// A source of which all bytes are there, which others may share. Contracts see its format and its bytes.
#[derive(Drop)]
pub(crate) struct LoadedSource {
    format: Format,
    bytes: Bytes,
}

impl Model for LoadedSource {
    ghost use Rattle.std.specs.Prelude.{ℕ, List};
    ghost use Rattle.run_options.specs.declared.formats.Format.{Format as SourceFormat};

    ghost Value = { SourceFormat × List ℕ };

    ghost view = { λ source. (source.format, source.bytes) };
}

impl LoadedSource {
    /// The bytes are not copied.
    pub(crate) fn of(source: Source) -> Result<LoadedSource, AllocError>
        ensures { IfOk result (λ loaded. loaded ≡ format_and_bytes source) }
    {
        let bytes = Bytes::from_vec(source.bytes).map_err(|_| AllocError)?;
        Ok(LoadedSource {
            format: source.format,
            bytes,
        })
    }

    /// The same source, with the same bytes. They are not copied.
    pub(crate) fn share(&self) -> Result<LoadedSource, AllocError>
        ensures { IfOk result (λ same. same ≡ self.now) }
    {
        Ok(LoadedSource {
            format: self.format,
            bytes: self.bytes.clone()?,
        })
    }

    pub(crate) fn format(&self) -> Format
        ensures { result ≡ self.now.0 }
    {
        self.format
    }

    pub(crate) fn bytes(&self) -> &Bytes
        ensures { result.now ≡ self.now.1 }
    {
        &self.bytes
    }

    pub(crate) fn into_bytes(self) -> Bytes
        ensures { result ≡ self.1 }
    {
        self.bytes
    }
}
