//! What a run reads: sources whose bytes are there, and those whose bytes are read where they are stored.

ghost use Rattle.std.specs.Prelude.{◌≡◌, ◌+◌, IfErr, IfOk, IfSome, length, map, take};
ghost use Rattle.source_lists.specs.Sources.{known_input, known_inputs, known_source};
ghost use Rattle.source_lists.specs.checked.Inputs.{seen_content};
ghost use Rattle.source_lists.specs.checked.OpenRuns.{IsOfRun};

use crate::loaded_sources::LoadedSource;
use crate::run_faults::RunFault;
use crate::sources::Source;
use byte_io::{LoadFault, StoredText, load};
use run_options::Format;
use std::alloc::{AllocError, Global};
use std::marker::Model;

/// The bytes of a source.
#[derive(Drop)]
pub(crate) enum Content {
    /// They are all there.
    Loaded(LoadedSource),
    /// Folded text that is read where it is stored.
    Text(StoredText),
    /// A profile that its reader loads.
    Profile(StoredText),
}

/// A source that can be read. Contracts see its format, and all its bytes where they are known.
#[derive(Drop)]
pub struct Input {
    content: Content,
}

impl Model for Input {
    ghost use Rattle.std.specs.Prelude.{ℕ, List, Option};
    ghost use Rattle.run_options.specs.declared.formats.Format.{Format as SourceFormat};

    ghost Value = { SourceFormat × Option (List ℕ) };

    ghost use Rattle.source_lists.specs.checked.Inputs.{seen_content};

    ghost view = { λ input. seen_content input.content };
}

impl Input {
    /// A source whose bytes are all there. They are not copied.
    pub fn of(source: Source) -> Result<Input, AllocError>
        ensures { IfOk result (λ input. input ≡ known_source source) }
    {
        let content = Content::Loaded(LoadedSource::of(source)?);
        Ok(Input { content })
    }

    /// A source whose bytes are read where they are stored: folded text piece by piece, and a profile as soon as its first row is asked for.
    pub fn stored(format: Format, text: StoredText) -> Input
        ensures { result ≡ (format, text) }
    {
        let content = match format {
            Format::Folded => Content::Text(text),
            Format::Pprof => Content::Profile(text),
        };
        Input { content }
    }

    /// All sources, in their order.
    pub fn all_of(alloc: Global, sources: Vec<Source>) -> Result<Vec<Input>, AllocError>
        ensures { IfOk result (λ inputs. inputs.items ≡ map known_source sources.items) }
    {
        let mut inputs = Vec::with_capacity(alloc, sources.len())?;
        for source in sources {
            inputs.push(Input::of(source)?)?;
        }
        Ok(inputs)
    }

    /// The same source, with the same bytes. They are not copied.
    pub fn share(&self) -> Result<Input, AllocError>
        ensures { IfOk result (λ input. input ≡ self.now) }
    {
        let content = match &self.content {
            Content::Loaded(source) => Content::Loaded(source.share()?),
            Content::Text(text) => Content::Text(text.share()?),
            Content::Profile(text) => Content::Profile(text.share()?),
        };
        Ok(Input { content })
    }

    /// The same of each, in their order.
    pub fn share_all(alloc: Global, inputs: &[Input]) -> Result<Vec<Input>, AllocError>
        ensures { IfOk result (λ shared. shared.items ≡ inputs.now) }
    {
        let mut shared = Vec::with_capacity(alloc, inputs.len())?;
        for input in inputs {
            shared.push(input.share()?)?;
        }
        Ok(shared)
    }

    /// The first bytes, at most so many. None where they can't be read.
    pub fn front(&self, alloc: Global, count: usize) -> Option<Vec<u8>>
        ensures { IfSome result (λ front. IfSome self.now.1 (λ all. front.items ≡ take count all)) }
    {
        match &self.content {
            Content::Loaded(source) => front_of(alloc, source.bytes().as_slice(), count),
            Content::Text(text) | Content::Profile(text) => {
                let mut range = text.range(0, count as u64).ok()?;
                load(alloc, &mut range, count).ok()
            }
        }
    }

    pub(crate) fn content(&self) -> &Content
        ensures { seen_content result.now ≡ self.now }
    {
        &self.content
    }

    pub(crate) fn into_content(self) -> Content
        ensures { seen_content result ≡ self }
    {
        self.content
    }

    /// The source with all bytes in memory.
    fn load(self, alloc: Global) -> Result<LoadedSource, LoadFault>
        ensures { IfOk result (λ source. IfSome (known_input self) (λ known. source ≡ known)) }
    {
        match self.content {
            Content::Loaded(source) => Ok(source),
            Content::Text(text) => load_stored(alloc, Format::Folded, &text),
            Content::Profile(text) => load_stored(alloc, Format::Pprof, &text),
        }
    }

    /// The same of each, in their order.
    pub(crate) fn load_all(alloc: Global, inputs: Vec<Input>) -> Result<Vec<LoadedSource>, RunFault>
        ensures sources { IfOk result (λ sources.
            IfSome (known_inputs inputs.items) (λ known. sources.items ≡ known)) }
        ensures count { IfOk result (λ sources. length sources.items ≡ length inputs.items) }
        ensures err { IfErr result (IsOfRun (length inputs.items)) }
    {
        let mut sources = Vec::with_capacity(alloc, inputs.len())?;
        for input in inputs {
            let source = input.load_at(alloc, sources.len())?;
            let Ok(()) = sources.push(source) else {
                return Err(RunFault::from(AllocError));
            };
        }
        Ok(sources)
    }

    /// The same of the source at a place.
    pub(crate) fn load_at(self, alloc: Global, source: usize) -> Result<LoadedSource, RunFault>
        ensures loaded { IfOk result (λ loaded. IfSome (known_input self) (λ known. loaded ≡ known)) }
        ensures err { IfErr result (IsOfRun (source + 1)) }
    {
        match self.load(alloc) {
            Ok(loaded) => Ok(loaded),
            Err(LoadFault::OutOfMemory) => Err(RunFault::from(AllocError)),
            Err(LoadFault::Io | LoadFault::TooLarge) => Err(RunFault::Unreadable { source }),
        }
    }
}

fn load_stored(alloc: Global, format: Format, text: &StoredText) -> Result<LoadedSource, LoadFault>
    ensures { IfOk result (λ source. IfSome (known_input (format, text.now)) (λ known. source ≡ known)) }
{
    let bytes = text.load(alloc)?;
    Ok(LoadedSource::of(Source { format, bytes })?)
}

fn front_of(alloc: Global, bytes: &[u8], count: usize) -> Option<Vec<u8>>
    ensures { IfSome result (λ front. front.items ≡ take count bytes.now) }
{
    let front = if bytes.len() <= count {
        bytes
    } else {
        &bytes[..count]
    };
    Vec::from_slice(alloc, front).ok()
}
