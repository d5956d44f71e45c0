//! The bytes of a source.

ghost use Rattle.std.specs.Prelude.{◌≡◌};
ghost use Rattle.stack_core.specs.Parts.{bytes_of};

use bytes::Bytes;

/// The bytes of a source that a reader keeps: its own, or a part of those that several readers share.
#[derive(Debug, Drop)]
pub enum SourceBytes {
    /// The reader's own.
    Own(Vec<u8>),
    /// A part of what is shared. It is given back when the last one of those who share it ends.
    Shared(Bytes),
}

impl SourceBytes {
    /// The bytes.
    #[inline]
    pub fn as_slice(&self) -> &[u8]
        ensures { result.now ≡ bytes_of self.now }
    {
        match self {
            SourceBytes::Own(bytes) => bytes.as_slice(),
            SourceBytes::Shared(bytes) => bytes.as_slice(),
        }
    }
}
