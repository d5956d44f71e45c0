//! The bytes of a text, wherever they are.
use crate::positioned_read::PositionedRead;
use std::fs::File;
use std::io;

/// The bytes of a text, in a file of the machine or in memory.
#[derive(Drop)]
pub(crate) enum StoredBytes {
    File(File),
    Memory(Vec<u8>),
}

impl PositionedRead for StoredBytes {
    ghost use Rattle.byte_io.specs.Stored.{stored_content};

    ghost content = { stored_content };

    fn read_from(&self, at: u64, buf: &mut [u8]) -> io::Result<usize> {
        match self {
            StoredBytes::File(file) => file.read_from(at, buf),
            StoredBytes::Memory(bytes) => bytes.read_from(at, buf),
        }
    }
}
