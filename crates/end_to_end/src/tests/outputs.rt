//! Runs whose output or messages can't be written.

use crate::tests::answers::{only_input, status_of};
use crate::tests::holds;
use flame_tool::MemoryFiles;
use std::alloc::{AllocError, Global};
use std::io;
use std::io::{ErrorKind, Write};
use std::sync::Wait;
use std::test::Fail;
use std::thread::Threads;

/// Takes so many bytes, at most three at a time, and then errs. It never flushes.
#[derive(Drop)]
pub(super) struct Stingy {
    pub(super) taken: Vec<u8>,
    room: usize,
}

impl Stingy {
    pub(super) fn with_room(alloc: Global, room: usize) -> Stingy {
        Stingy {
            taken: Vec::new(alloc),
            room,
        }
    }
}

impl Write for Stingy {
    fn write(&mut self, bytes: &[u8]) -> io::Result<usize> {
        if self.room == 0 {
            return Err(io::Error::from(ErrorKind::BrokenPipe));
        }
        let count = bytes.len().min(self.room).min(3);
        self.taken.extend_from_slice(&bytes[..count])?;
        self.room -= count;
        Ok(count)
    }

    fn flush(&mut self) -> io::Result<()> {
        Err(io::Error::from(ErrorKind::BrokenPipe))
    }
}

/// Of the ten bytes of the output as many go out as it has room for, and no more.
fn fails_after<T: Threads + Wait + Copy + Send + 'static>(
    rt: &T,
    alloc: Global,
    words: &[&str],
    files: &mut MemoryFiles,
    out: &mut Stingy,
    err: &mut Vec<u8>,
) -> Result<bool, AllocError> {
    let room = out.room;
    let status = status_of(rt, alloc, words, files, out, err)?;
    Ok(
        status == 3
            && err.as_slice() == b"flamecollect: output failed\n".as_slice()
            && out.taken.len() == room
            && b"a 1\na;b 5\n".starts_with(out.taken.as_slice()),
    )
}

/// Wherever the output fails, it is cut there.
fn fails_wherever<T: Threads + Wait + Copy + Send + 'static>(
    rt: &T,
    alloc: Global,
    words: &[&str],
    files: &mut MemoryFiles,
) -> Result<bool, AllocError> {
    for room in 0..11 {
        let mut out = Stingy::with_room(alloc, room);
        if !fails_after(rt, alloc, words, files, &mut out, &mut Vec::new(alloc))? {
            return Ok(false);
        }
    }
    Ok(true)
}

fn fails_with_and_without_words<T: Threads + Wait + Copy + Send + 'static>(
    rt: &T,
    alloc: Global,
    files: &mut MemoryFiles,
) -> Result<bool, AllocError> {
    Ok(fails_wherever(rt, alloc, &[], files)? && fails_wherever(rt, alloc, &["fold"], files)?)
}

// At 10 all bytes go out, and the flush fails.
#[test]
fn each_write_fails_in_turn(rt: HostRuntime) -> Result<(), Fail> {
    let mut files = only_input(rt.alloc(), b"a;b 2\na 1\na;b 3\n")?;
    holds(
        &rt,
        fails_with_and_without_words(&rt, rt.alloc(), &mut files),
    )
}

/// Where standard error takes only so many bytes, the output and the status are as they would be.
fn is_unchanged<T: Threads + Wait + Copy + Send + 'static>(
    rt: &T,
    alloc: Global,
    files: &mut MemoryFiles,
    out: &mut Vec<u8>,
    err: &mut Stingy,
    count: usize,
) -> Result<bool, AllocError> {
    let status = status_of(rt, alloc, &[], files, out, err)?;
    Ok(status == 0 && out.as_slice() == b" 5\na 1\na;;b 1\n".as_slice() && err.taken.len() == count)
}

fn is_unchanged_wherever<T: Threads + Wait + Copy + Send + 'static>(
    rt: &T,
    alloc: Global,
    files: &mut MemoryFiles,
) -> Result<bool, AllocError> {
    for room in 0..5 {
        let mut err = Stingy::with_room(alloc, room);
        if !is_unchanged(rt, alloc, files, &mut Vec::new(alloc), &mut err, room)? {
            return Ok(false);
        }
    }
    Ok(true)
}

// Whatever is said on standard error, the output and the status are as they would be.
#[test]
fn messages_that_fail_change_nothing(rt: HostRuntime) -> Result<(), Fail> {
    let mut files = only_input(rt.alloc(), b" 5\na; 1\na;;b 1\n\na x\na 5 \n")?;
    holds(&rt, is_unchanged_wherever(&rt, rt.alloc(), &mut files))
}
