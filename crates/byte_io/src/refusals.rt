//! Why the system gives no file.

use std::io;
use std::io::{ErrorKind, Read};

/// Why the system gave no file.
#[derive(Clone, Copy, Debug, PartialEq, Eq)]
pub enum Refusal {
    /// There is none at its path.
    Absent,
    /// It may not be read.
    Denied,
    /// It is a folder.
    Folder,
    /// For another reason, or for none that is known.
    Unknown,
}

impl Refusal {
    /// The refusal that an error of this kind tells.
    pub(crate) fn of(kind: ErrorKind) -> Refusal {
        match kind {
            ErrorKind::NotFound | ErrorKind::NotADirectory => Refusal::Absent,
            ErrorKind::PermissionDenied => Refusal::Denied,
            ErrorKind::IsADirectory => Refusal::Folder,
            _ => Refusal::Unknown,
        }
    }
}

/// A reader that notes why its last read that failed did, since a folder can be opened, but not read.
#[derive(Drop)]
pub(crate) struct NotedReader<'a, R> {
    pub reader: R,
    pub refusal: &'a mut Refusal,
}

impl<R: Read> Read for NotedReader<'_, R> {
    fn read(&mut self, buf: &mut [u8]) -> io::Result<usize> {
        let answer = self.reader.read(buf);
        if let Err(e) = &answer {
            *self.refusal = Refusal::of(e.kind());
        }
        answer
    }
}
