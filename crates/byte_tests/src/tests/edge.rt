//! Readers and writers that fail at each of their calls.
use super::asked::{NamedBytes, add_files, file_fails, file_is, input_is, temporary_path};
use super::fakes::{Faulty, Stingy};
use crate::tests::holds;
use byte_io::{
    CountedReader, CountedWriter, Files, LoadFault, MachineFiles, MemoryFiles, SendFault, load,
    send,
};
use std::alloc::{AllocError, Global};
use std::fmt::Display;
use std::io::{ErrorKind, Read, Write};
use std::process::Abort;
use std::test::Fail;
use std::{fs, rt};

// Whether the sending ends so, after so many calls that failed.
fn sends<W: Write>(
    out: &mut CountedWriter<W>,
    text: &[u8],
    answer: Result<(), SendFault>,
    failures: u64,
) -> bool {
    send(text, out) == answer && out.failures() == failures
}

pub(super) fn is_front(front: &[u8], text: &[u8], len: usize) -> bool {
    text.starts_with(front) && front.len() == len
}

// The text goes out up to the first call that fails, as many bytes of it as the writer has room for.
fn stops_at(alloc: Global, text: &[u8], room: usize, errs: bool, flushes: bool) -> bool {
    let mut out = Stingy::counted(alloc, room, errs, flushes);
    let fault = SendFault { written: room };
    sends(&mut out, text, Err(fault), 1) & is_front(&out.into_inner().taken, text, room)
}

// Whether these bytes are loaded within a limit.
fn loads<R: Read>(
    alloc: Global,
    reader: &mut CountedReader<R>,
    limit: usize,
    wanted: &[u8],
) -> Result<bool, LoadFault> {
    Ok(load(alloc, reader, limit)?.as_slice() == wanted)
}

// Whether nothing is loaded, for this fault.
fn load_fails<R: Read>(
    alloc: Global,
    reader: &mut CountedReader<R>,
    limit: usize,
    fault: LoadFault,
) -> bool {
    load(alloc, reader, limit).err() == Some(fault)
}

fn limits_hold(alloc: Global) -> Result<bool, LoadFault> {
    let mut reader = CountedReader::new(b"abcd".as_slice());
    let mut longer = CountedReader::new(b"abcde".as_slice());
    Ok(
        loads(alloc, &mut reader, 4, b"abcd")?
            && load_fails(alloc, &mut longer, 4, LoadFault::TooLarge),
    )
}

fn lines_end(alloc: Global) -> Result<bool, LoadFault> {
    let mut faulty = Faulty::counted(b"abcd", 1, ErrorKind::Other);
    Ok(
        limits_hold(alloc)?
            && load_fails(alloc, &mut faulty, 4, LoadFault::Io)
            && stops_at(alloc, b"abcde", 3, true, true),
    )
}

#[test]
fn lines_writers_and_limits(rt: HostRuntime) -> Result<(), Fail> {
    holds(&rt, lines_end(rt.alloc()))
}

fn vector_takes_all(alloc: Global, text: &[u8]) -> bool {
    let mut out = CountedWriter::new(Vec::new(alloc));
    sends(&mut out, text, Ok(()), 0) & (out.into_inner().as_slice() == text)
}

// The text has ten bytes.
fn each_write_fails(alloc: Global, text: &[u8]) -> bool {
    let mut all = stops_at(alloc, text, 0, false, true);
    for room in 0..11usize {
        all &= stops_at(alloc, text, room, true, false);
    }
    all
}

// The bytes go out up to the failing call, and no further.
#[test]
fn each_write_fails_in_turn(rt: HostRuntime) {
    let text = b"a 1\na;b 5\n".as_slice();
    assert!(rt; each_write_fails(rt.alloc(), text) && vector_takes_all(rt.alloc(), text));
}

fn read_fails(alloc: Global, errs_at: usize) -> bool {
    let mut reader = Faulty::counted(b"abcde", errs_at, ErrorKind::Other);
    load_fails(alloc, &mut reader, 5, LoadFault::Io) && reader.failures() == 1
}

fn read_is_tried_again(alloc: Global, errs_at: usize) -> Result<bool, LoadFault> {
    let mut reader = Faulty::counted(b"abcde", errs_at, ErrorKind::Interrupted);
    Ok(loads(alloc, &mut reader, 5, b"abcde")? && reader.failures() == 0)
}

// Five bytes take three reads, and a fourth finds the end.
fn each_read_fails(alloc: Global) -> Result<bool, LoadFault> {
    let mut all = true;
    for errs_at in 0..4usize {
        all &= read_fails(alloc, errs_at);
    }
    for errs_at in 0..5usize {
        all &= read_is_tried_again(alloc, errs_at)?;
    }
    Ok(all)
}

#[test]
fn each_read_fails_in_turn(rt: HostRuntime) -> Result<(), Fail> {
    holds(&rt, each_read_fails(rt.alloc()))
}

pub(super) fn is_written<D: Display>(
    alloc: Global,
    fault: &D,
    wanted: &str,
) -> Result<bool, AllocError> {
    Ok(fault.to_string(alloc)?.as_str() == wanted)
}

const LOAD_FAULTS: &[(LoadFault, &str)] = &[
    (LoadFault::Io, "cannot be read"),
    (LoadFault::TooLarge, "too large"),
    (LoadFault::OutOfMemory, "out of memory"),
];

// The texts are those of the program's messages.
fn are_written(alloc: Global) -> Result<bool, AllocError> {
    let mut all = is_written(alloc, &SendFault { written: 3 }, "output failed")?;
    for (fault, wanted) in LOAD_FAULTS {
        all &= is_written(alloc, fault, wanted)?;
    }
    Ok(all)
}

#[test]
fn faults_are_written(rt: HostRuntime) -> Result<(), Fail> {
    holds(&rt, are_written(rt.alloc()))
}

const IN_MEMORY: &[NamedBytes<'static>] = &[("x", b"b 2\n"), ("y", b"c 31\n"), ("x", b"d 4\n")];

fn input_and_first_are_had(alloc: Global, files: &mut MemoryFiles) -> Result<bool, LoadFault> {
    Ok(input_is(alloc, files, b"a 1\n")? && file_is(alloc, files, "x", b"b 2\n")?)
}

// The bytes are at most four.
fn are_had(alloc: Global, files: &mut MemoryFiles) -> Result<bool, LoadFault> {
    add_files(alloc, files, IN_MEMORY)?;
    Ok(
        input_and_first_are_had(alloc, files)?
            && input_and_first_are_had(alloc, files)?
            && file_fails(alloc, files, "y", LoadFault::TooLarge)
            && file_fails(alloc, files, "z", LoadFault::Io),
    )
}

#[test]
fn files_in_memory(rt: HostRuntime) -> Result<(), Fail> {
    let input = b"a 1\n".to_vec(rt.alloc())?;
    let mut files = MemoryFiles::new(rt.alloc(), input, 4);
    holds(&rt, are_had(rt.alloc(), &mut files))
}

// The file of the machine is written and then removed.
fn is_had_once<F: Files>(
    rt: &(impl rt::Files + AllocGlobal + Abort),
    files: &mut F,
    path: &str,
) -> Result<(), Fail> {
    fs::write(rt, path, "a;b 3\n")?;
    let found = file_is(rt.alloc(), files, path, b"a;b 3\n");
    fs::remove_file(rt, path)?;
    assert!(rt; file_fails(rt.alloc(), files, path, LoadFault::Io));
    holds(rt, found)
}

#[test]
fn files_of_the_machine(rt: HostRuntime) -> Result<(), Fail> {
    let path = temporary_path(&rt, "files_of_the_machine")?;
    is_had_once(&rt, &mut MachineFiles::new(&rt), path.as_str())
}
