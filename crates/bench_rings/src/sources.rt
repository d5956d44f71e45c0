//! The sources of a run.

ghost use Rattle.std.specs.Prelude.{◌≤◌, length, IfOk};

use folded_lines::FoldedReader;
use stack_core::{SampleReader, Sink, Step};
use std::alloc::{AllocError, Global};

/// The number that a word spells, and 0 where there is none.
pub fn number_of(word: Option<String>) -> u32 {
    match word {
        Some(word) => word.as_str().parse::<u32>().unwrap_or(0),
        None => 0,
    }
}

/// Readers of this text, as many as are asked for, up to 64.
pub fn readers_of(alloc: Global, text: &[u8], count: u32) -> Result<Vec<FoldedReader>, AllocError>
    ensures { IfOk result (λ readers. length readers.items ≤ 64) }
{
    let mut readers = Vec::new(alloc);
    for _ in 0..count.min(64) {
        readers.push(FoldedReader::over(Vec::from_slice(alloc, text)?))?;
    }
    Ok(readers)
}

/// Hands the samples of a source to the sink, up to its ending.
fn drain<R: SampleReader + Drop, S: Sink>(
    alloc: Global,
    source: u32,
    reader: R,
    sink: &mut S,
) -> Result<(), AllocError> {
    let mut reader = reader;
    'samples: loop {
        match reader.next(alloc)? {
            Step::Sample(sample) => sink.take(alloc, source, &sample)?,
            Step::End(_) => return Ok(()),
        }
    }
}

/// Hands the samples of all sources to the sink, one source after another.
pub fn drain_all<R: SampleReader + Drop, S: Sink>(
    alloc: Global,
    readers: Vec<R>,
    sink: &mut S,
) -> Result<(), AllocError> {
    let mut source = 0u32;
    for reader in readers {
        drain(alloc, source, reader, sink)?;
        source = source.wrapping_add(1);
    }
    Ok(())
}
