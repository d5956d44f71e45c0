//! How far the reading of sources is: on a terminal, a line that is written over while samples arrive. A failure to write it
//! changes nothing.

ghost use Rattle.std.specs.Prelude.{◌≡◌};

use byte_io::{Outlet, send};
use itoa::Buffer;
use source_views::path_of;
use stack_core::{Ledger, NoSink, RowSink};
use std::alloc::{AllocError, Global};

/// After how many samples the line is written again, each time.
const STRIDE: u64 = 1 << 16;

/// The longest path that the line has, so that it is not wrapped.
const LONGEST_PATH: usize = 28;

/// Tells how many samples of a run arrived, as the sink of the run.
#[derive(Drop)]
pub(crate) struct Progress<'a, E> {
    taken: NoSink,
    samples: u64,
    files: &'a [String],
    last: Option<usize>,
    is_shown: bool,
    err: &'a mut E,
}

impl<'a, E: Outlet> Progress<'a, E> {
    /// Of the sources of these files, or of the standard input where there is none. Nothing is read yet.
    pub(crate) fn new(err: &'a mut E, files: &'a [String]) -> Progress<'a, E> {
        Progress {
            taken: NoSink::new(),
            samples: 0,
            files,
            last: None,
            is_shown: false,
            err,
        }
    }

    /// Counts a sample, and tells how many there are now and then.
    fn count(&mut self, alloc: Global)
        ensures { self.new.taken ≡ self.old.taken }
    {
        self.samples = self.samples.saturating_add(1);
        if self.samples % STRIDE == 0 {
            self.show(alloc);
        }
    }

    /// Writes the line.
    fn show(&mut self, alloc: Global)
        ensures { self.new.taken ≡ self.old.taken }
    {
        if let Ok(line) = progress_line(alloc, self.samples, self.files, self.last) {
            let _ = send(line.as_slice(), self.err);
            self.is_shown = true;
        }
    }

    /// Takes the line away, where it is written.
    pub(crate) fn clear(&mut self)
        ensures { self.new.taken ≡ self.old.taken }
    {
        if self.is_shown {
            let _ = send(b"\r\x1b[K", self.err);
            self.is_shown = false;
        }
    }
}

impl<E: Outlet> RowSink for Progress<'_, E> {
    ghost taken = { λ progress. progress.taken };

    fn take_row(
        &mut self,
        alloc: Global,
        source: u32,
        ledger: &Ledger,
        row: usize,
        weight: u64,
    ) -> Result<(), AllocError> {
        self.taken.take_row(alloc, source, ledger, row, weight)?;
        self.last = Some(source as usize);
        self.count(alloc);
        Ok(())
    }
}

/// The line, in the place of what stood there.
fn progress_line(
    alloc: Global,
    samples: u64,
    files: &[String],
    last: Option<usize>,
) -> Result<Vec<u8>, AllocError> {
    let mut digits = Buffer::new();
    let mut line = Vec::new(alloc);
    line.extend_from_slice(b"\r\x1b[Kflamecollect: ")?;
    append_grouped(&mut line, digits.format(samples))?;
    line.extend_from_slice(b" samples of ")?;
    append_sources(&mut line, files, last)?;
    Ok(line)
}

/// Appends the path of the one source, or how many there are and that of the last sample, where it is known.
fn append_sources(
    line: &mut Vec<u8>,
    files: &[String],
    last: Option<usize>,
) -> Result<(), AllocError> {
    if files.len() < 2 {
        let name = short_path(files, 0).unwrap_or("1 source");
        return line.extend_from_slice(name.as_bytes());
    }
    let mut digits = Buffer::new();
    line.extend_from_slice(digits.format(files.len()).as_bytes())?;
    line.extend_from_slice(b" sources")?;
    if let Some(name) = last.and_then(|source| short_path(files, source)) {
        line.extend_from_slice(b", now ")?;
        line.extend_from_slice(name.as_bytes())?;
    }
    Ok(())
}

/// What a source is called, unless that is so long that the line could be wrapped.
fn short_path(files: &[String], source: usize) -> Option<&str> {
    let path = path_of(files, source);
    if path.len() <= LONGEST_PATH {
        Some(path)
    } else {
        None
    }
}

/// Appends the digits of a number, with a comma between thousands.
fn append_grouped(line: &mut Vec<u8>, digits: &str) -> Result<(), AllocError> {
    for (at, digit) in digits.bytes().enumerate() {
        if at > 0 && digits.len().saturating_sub(at) % 3 == 0 {
            line.push(b',')?;
        }
        line.push(digit)?;
    }
    Ok(())
}
