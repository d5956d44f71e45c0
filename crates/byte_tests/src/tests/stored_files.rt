//! Files that are given as stored texts.
use super::asked::{NamedBytes, add_files, temporary_path};
use super::stored_texts::{LINE_ENDS, is_read, is_read_in_threads, is_whole, padded};
use crate::tests::holds;
use byte_io::{Files, LoadFault, MachineFiles, MemoryFiles, StoredText};
use std::alloc::Global;
use std::fs::File;
use std::test::Fail;
use std::thread::Threads;
use std::{env, fs, io, rt};

const IN_MEMORY: &[NamedBytes<'static>] = &[
    ("", b""),
    ("short", b"a 1\n"),
    ("longest", b"a;b;c 21\n"),
    ("short", b"b 2\n"),
];

/// A path, and the bytes of its stored text, if it has one.
const STORED: &[(&str, Option<&[u8]>)] = &[
    ("", Some(b"")),
    ("short", Some(b"a 1\n")),
    // It is longer than the limit.
    ("longest", None),
    ("gone", None),
];

fn stored_is<F: Files>(
    alloc: Global,
    files: &mut F,
    path: &str,
    wanted: Option<&[u8]>,
) -> Result<bool, LoadFault> {
    match (files.stored(alloc, path), wanted) {
        (Some(text), Some(bytes)) => is_whole(alloc, &text, bytes),
        (None, None) => Ok(true),
        _ => Ok(false),
    }
}

fn files_store(alloc: Global, files: &mut MemoryFiles) -> Result<bool, LoadFault> {
    add_files(alloc, files, IN_MEMORY)?;
    let mut all = true;
    for (path, wanted) in STORED {
        all &= stored_is(alloc, files, path, *wanted)?;
    }
    Ok(all)
}

fn stores_none(alloc: Global, files: &mut MemoryFiles) -> Result<bool, LoadFault> {
    add_files(alloc, files, IN_MEMORY)?;
    stored_is(alloc, files, "short", None)
}

#[test]
fn stored_files_in_memory(rt: HostRuntime) -> Result<(), Fail> {
    let alloc = rt.alloc();
    let mut whole = MemoryFiles::new(alloc, Vec::new(alloc), 8);
    holds(&rt, stores_none(alloc, &mut whole))?;
    let mut files = MemoryFiles::new(alloc, Vec::new(alloc), 8).with_stored();
    holds(&rt, files_store(alloc, &mut files))
}

/// The text of a file of the machine that is written for it. It is removed once it is opened.
fn opened<F: Files>(
    rt: &(impl rt::Files + AllocGlobal),
    files: &mut F,
    path: &str,
    bytes: &[u8],
) -> io::Result<Option<StoredText>> {
    fs::write(rt, path, bytes)?;
    let text = files.stored(rt.alloc(), path);
    fs::remove_file(rt, path)?;
    Ok(text)
}

fn is_read_padded<F: Files>(
    rt: &(impl rt::Files + AllocGlobal),
    files: &mut F,
    path: &str,
    bytes: &[u8],
    ends: &[u64],
) -> Result<bool, Fail> {
    let all = padded(rt.alloc(), PAD, bytes)?;
    match opened(rt, files, path, &all)? {
        Some(text) => Ok(is_read(rt.alloc(), text, &all, PAD, ends)?),
        None => Ok(false),
    }
}

/// The shortest file that is given is this long.
const PAD: usize = 64 * 1024;

fn are_read_padded<F: Files>(
    rt: &(impl rt::Files + AllocGlobal),
    files: &mut F,
    path: &str,
) -> Result<bool, Fail> {
    let mut all = true;
    for (bytes, ends) in LINE_ENDS {
        all &= is_read_padded(rt, files, path, bytes, ends)?;
    }
    Ok(all)
}

#[test]
fn stored_files_of_the_machine(rt: HostRuntime) -> Result<(), Fail> {
    let path = temporary_path(&rt, "stored_files")?;
    assert!(&rt; are_read_padded(&rt, &mut MachineFiles::new(&rt), path.as_str())?);
    Ok(())
}

fn is_read_by_two<F: Files>(
    rt: &(impl rt::Files + Threads + AllocGlobal),
    files: &mut F,
    path: &str,
) -> Result<bool, Fail> {
    let bytes = padded(rt.alloc(), 2 * PAD, b"\nb\n")?;
    match opened(rt, files, path, &bytes)? {
        Some(text) => Ok(is_read_in_threads(rt, &text, &bytes)?),
        None => Ok(false),
    }
}

#[test]
fn stored_files_in_threads(rt: HostRuntime) -> Result<(), Fail> {
    let path = temporary_path(&rt, "stored_in_threads")?;
    assert!(&rt; is_read_by_two(&rt, &mut MachineFiles::new(&rt), path.as_str())?);
    Ok(())
}

/// How long a file is, and whether it is given. Most of the longest are holes.
const LENGTHS: &[(u64, bool)] = &[
    (0, false),
    (65_535, false),
    (65_536, true),
    (1 << 30, true),
    ((1 << 30) + 1, false),
];

fn has_length<F: Files>(
    rt: &(impl rt::Files<File = File> + AllocGlobal),
    files: &mut F,
    path: &str,
    len: u64,
    is_given: bool,
) -> io::Result<bool> {
    fs::create(rt, path)?.set_len(len)?;
    let text = files.stored(rt.alloc(), path);
    fs::remove_file(rt, path)?;
    Ok(text.map(|text| text.len()) == is_given.then_some(len))
}

fn have_lengths<F: Files>(
    rt: &(impl rt::Files<File = File> + AllocGlobal),
    files: &mut F,
    path: &str,
) -> io::Result<bool> {
    let mut all = files.stored(rt.alloc(), path).is_none();
    for (len, is_given) in LENGTHS {
        all &= has_length(rt, files, path, *len, *is_given)?;
    }
    Ok(all)
}

#[test]
fn stored_files_by_length(rt: HostRuntime) -> Result<(), Fail> {
    let path = temporary_path(&rt, "stored_by_length")?;
    let found = have_lengths(&rt, &mut MachineFiles::new(&rt), path.as_str());
    holds(&rt, found)
}

fn are_none<F: Files>(alloc: Global, files: &mut F, folder: &str) -> bool {
    files.stored(alloc, folder).is_none() && files.stored(alloc, "/dev/zero").is_none()
}

#[test]
fn folders_and_devices_are_not_stored(rt: HostRuntime) -> Result<(), Fail> {
    let folder = env::temp_dir(&rt)?;
    let found = are_none(rt.alloc(), &mut MachineFiles::new(&rt), folder.as_str());
    holds::<LoadFault>(&rt, Ok(found))
}

/// Whether a text has these bytes of a line and a half, though it was longer.
fn is_short(alloc: Global, text: &StoredText, bytes: &[u8]) -> Result<bool, LoadFault> {
    Ok(
        text.load(alloc)?.as_slice() == bytes
            && text.can_be_read(alloc)?
            && text.line_end(alloc, 0) == Some(3)
            && text.line_end(alloc, 3).is_none(),
    )
}

/// The file is cut once it is opened.
fn is_cut<F: Files>(
    rt: &(impl rt::Files + AllocGlobal),
    files: &mut F,
    path: &str,
) -> Result<bool, Fail> {
    fs::write(rt, path, padded(rt.alloc(), PAD, b"\n")?)?;
    let text = files.stored(rt.alloc(), path);
    fs::write(rt, path, b"ab\ncd".as_slice())?;
    fs::remove_file(rt, path)?;
    match text {
        Some(text) => Ok(is_short(rt.alloc(), &text, b"ab\ncd")?),
        None => Ok(false),
    }
}

#[test]
fn stored_files_that_are_cut(rt: HostRuntime) -> Result<(), Fail> {
    let path = temporary_path(&rt, "stored_and_cut")?;
    assert!(&rt; is_cut(&rt, &mut MachineFiles::new(&rt), path.as_str())?);
    Ok(())
}
