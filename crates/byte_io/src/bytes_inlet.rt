//! Bytes in memory as an inlet.
ghost use Rattle.std.specs.Prelude.{◌≡◌, true, Some};

use crate::inlet::Inlet;
use std::io;
use std::io::Read;
use std::marker::Model;

/// Bytes in memory as an `Inlet`, of which no read fails. Contracts see the bytes still to come.
#[derive(Drop)]
pub struct BytesInlet {
    bytes: Vec<u8>,
    position: usize,
}

impl Model for BytesInlet {
    ghost use Rattle.std.specs.Prelude.{ℕ, List, ◌≤◌, drop, vec_len};

    ghost Value = { List ℕ };

    ghost view = { λ inlet. drop inlet.position inlet.bytes.items };

    ghost invariant = { λ inlet. inlet.position ≤ vec_len inlet.bytes };
}

impl BytesInlet {
    /// The bytes, none of them read yet.
    pub fn new(bytes: Vec<u8>) -> BytesInlet
        ensures { result ≡ bytes.items }
    {
        BytesInlet { bytes, position: 0 }
    }
}

impl Inlet for BytesInlet {
    ghost remaining = { λ left. Some left };

    ghost failures = { λ _. 0 };

    ghost is_sure = { λ _. true };

    fn read(&mut self, buf: &mut [u8]) -> io::Result<usize> {
        let mut left = &self.bytes[self.position..];
        let count = left.read(buf)?;
        self.position += count;
        Ok(count)
    }
}
