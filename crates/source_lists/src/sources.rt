//! What a run reads, and how.

use run_options::Format;

/// A source, with all its bytes.
#[derive(Debug, Drop)]
pub struct Source {
    /// The form of the bytes.
    pub format: Format,
    /// What was recorded.
    pub bytes: Vec<u8>,
}
