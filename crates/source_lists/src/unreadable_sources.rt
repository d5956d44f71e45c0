//! Which source could not be read to its end.

ghost use Rattle.std.specs.Prelude.{◌≡◌, ◌≢◌, ◌<◌, ℕ, All, None, Ok, true, IfOk, IfSome, length};
ghost use Rattle.source_lists.specs.Runs.{IsReadOut};

use crate::inputs::{Content, Input};
use byte_io::StoredText;
use stack_core::{SourceEnd, SourceList};
use std::alloc::{AllocError, Global};

/// The text of each source that is read piece by piece where it is stored.
pub(crate) fn stored_texts(
    alloc: Global,
    inputs: &[Input],
) -> Result<Vec<Option<StoredText>>, AllocError> {
    let mut texts = Vec::with_capacity(alloc, inputs.len())?;
    for input in inputs {
        let text = match input.content() {
            Content::Loaded(_) | Content::Profile(_) => None,
            Content::Text(text) => Some(text.share()?),
        };
        texts.push(text)?;
    }
    Ok(texts)
}

/// Whether a source was read to its end. Behind a fault of a text nothing was read: there it is tried whether the text can be.
fn is_read_out(
    alloc: Global,
    ending: &SourceEnd,
    text: Option<&Option<StoredText>>,
) -> Result<bool, AllocError>
    ensures { result ≡ Ok true → (after : ℕ) → ending.now ≢ SourceEnd.Stopped after }
{
    match (ending, text) {
        (SourceEnd::Stopped { .. }, _) => Ok(false),
        (SourceEnd::Fault(_), Some(Some(text))) => text.can_be_read(alloc),
        _ => Ok(true),
    }
}

/// The first source that could not be read to its end, if there is one, by the lists of a run in which no gate stopped any.
pub(crate) fn first_unreadable(
    alloc: Global,
    lists: &[SourceList],
    texts: &[Option<StoredText>],
) -> Result<Option<usize>, AllocError>
    ensures none { result ≡ Ok None → All IsReadOut lists.now }
    ensures within { IfOk result (λ found. IfSome found (λ source. source < length lists.now)) }
{
    for source in 0..lists.len() {
        if !is_read_out(alloc, lists[source].ending(), texts.get(source))? {
            return Ok(Some(source));
        }
    }
    Ok(None)
}
