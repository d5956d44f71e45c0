//! Ranges of bytes that can be read from any place.
ghost use Rattle.std.specs.Prelude.{◌≡◌, ◌<◌, ◌+◌, ◌^◌};

use crate::inlet::{CountedReader, Inlet};
use crate::positioned_read::PositionedRead;
use crate::stored_bytes::StoredBytes;
use std::io;
use std::io::Read;
use std::sync::Arc;

/// A range of stored bytes, as one of std's readers: from a place on, at most so many.
#[derive(Drop)]
pub(crate) struct RangeReader {
    bytes: Arc<StoredBytes>,
    at: u64,
    left: usize,
    ghost ends: { at + left < 2 ^ 64 },
}

impl Read for RangeReader {
    ghost use Rattle.byte_io.specs.Stored.{range_left};

    ghost remaining = { range_left };

    fn read(&mut self, buf: &mut [u8]) -> io::Result<usize> {
        let room = self.left.min(buf.len());
        let count = self.bytes.read_from(self.at, &mut buf[..room])?;
        self.left -= count;
        self.at += count as u64;
        Ok(count)
    }
}

/// A range of a `StoredText` as an `Inlet`, in any thread. It ends with the range, or before where the file was cut meanwhile.
#[derive(Drop)]
pub struct StoredRange {
    reader: CountedReader<RangeReader>,
}

impl StoredRange {
    ghost use Rattle.std.specs.Arc.{arc_value};
    ghost use Rattle.byte_io.specs.Stored.{stored_content, known_range, unread_range};

    /// At most `left` bytes from a place on.
    pub(crate) fn new(bytes: Arc<StoredBytes>, at: u64, left: usize) -> StoredRange
        requires { at + left < 2 ^ 64 }
        ensures { unread_range result ≡ known_range (stored_content (arc_value bytes)) at left }
    {
        StoredRange {
            reader: CountedReader::new(RangeReader { bytes, at, left }),
        }
    }
}

impl Inlet for StoredRange {
    ghost use Rattle.byte_io.specs.Inlet.{failed_reads};
    ghost use Rattle.byte_io.specs.Stored.{unread_range};

    ghost remaining = { unread_range };

    ghost failures = { λ range. failed_reads range.reader };

    fn read(&mut self, buf: &mut [u8]) -> io::Result<usize> {
        self.reader.read(buf)
    }
}
