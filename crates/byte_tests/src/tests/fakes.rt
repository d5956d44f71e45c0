//! Readers and writers that fail.
use byte_io::{CountedReader, CountedWriter};
use std::alloc::Global;
use std::io;
use std::io::{ErrorKind, Read, Write};

// A reader that gives at most two bytes at a time, and errs at its call of number `errs_at`, from 0.
#[derive(Drop)]
pub(crate) struct Faulty<'a> {
    bytes: &'a [u8],
    calls: usize,
    errs_at: usize,
    kind: ErrorKind,
}

impl Faulty<'_> {
    pub(crate) fn counted(
        bytes: &[u8],
        errs_at: usize,
        kind: ErrorKind,
    ) -> CountedReader<Faulty<'_>> {
        CountedReader::new(Faulty {
            bytes,
            calls: 0,
            errs_at,
            kind,
        })
    }
}

impl Read for Faulty<'_> {
    fn read(&mut self, buf: &mut [u8]) -> io::Result<usize> {
        let call = self.calls;
        self.calls = call.saturating_add(1);
        if call == self.errs_at {
            return Err(io::Error::from(self.kind));
        }
        let count = self.bytes.len().min(buf.len()).min(2);
        buf[..count].copy_from_slice(&self.bytes[..count]);
        self.bytes = &self.bytes[count..];
        Ok(count)
    }
}

// A writer that takes so many bytes, at most three at a time, and then errs or takes none.
#[derive(Drop)]
pub(crate) struct Stingy {
    pub(crate) taken: Vec<u8>,
    room: usize,
    errs: bool,
    flushes: bool,
}

impl Stingy {
    pub(crate) fn counted(
        alloc: Global,
        room: usize,
        errs: bool,
        flushes: bool,
    ) -> CountedWriter<Stingy> {
        CountedWriter::new(Stingy {
            taken: Vec::new(alloc),
            room,
            errs,
            flushes,
        })
    }
}

impl Write for Stingy {
    fn write(&mut self, bytes: &[u8]) -> io::Result<usize> {
        if self.errs && self.room == 0 {
            return Err(io::Error::from(ErrorKind::BrokenPipe));
        }
        let count = bytes.len().min(self.room).min(3);
        self.taken.extend_from_slice(&bytes[..count])?;
        self.room -= count;
        Ok(count)
    }

    fn flush(&mut self) -> io::Result<()> {
        if self.flushes {
            Ok(())
        } else {
            Err(io::Error::from(ErrorKind::BrokenPipe))
        }
    }
}
