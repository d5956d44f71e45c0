//! Streams that are opened.
use super::asked::{add_files, temporary_path};
use crate::tests::holds;
use byte_io::{LoadFault, MachineFiles, MemoryFiles, Streams, load};
use std::alloc::Global;
use std::process::Abort;
use std::test::Fail;
use std::{env, fs, rt};

// Whether the stream of a path has these bytes.
fn stream_is<S: Streams>(
    alloc: Global,
    streams: &mut S,
    path: &str,
    wanted: &[u8],
) -> Result<bool, LoadFault> {
    let mut inlet = streams.open_named(alloc, path)?;
    Ok(load(alloc, &mut inlet, 16)?.as_slice() == wanted)
}

// Whether the input has these bytes.
fn input_is<S: Streams>(alloc: Global, streams: &mut S, wanted: &[u8]) -> Result<bool, LoadFault> {
    let mut inlet = streams.open_input(alloc)?;
    Ok(load(alloc, &mut inlet, 16)?.as_slice() == wanted)
}

// Whether a path can't be opened.
fn is_closed<S: Streams>(alloc: Global, streams: &mut S, path: &str) -> bool {
    streams.open_named(alloc, path).err() == Some(LoadFault::Io)
}

// Files and an input are longer than the limit.
fn are_opened(alloc: Global, files: &mut MemoryFiles) -> Result<bool, LoadFault> {
    add_files(alloc, files, &[("x", b"b 2\n"), ("x", b"d 4\n")])?;
    Ok(
        stream_is(alloc, files, "x", b"b 2\n")?
            && stream_is(alloc, files, "x", b"b 2\n")?
            && input_is(alloc, files, b"a 1\n")?
            && is_closed(alloc, files, "z"),
    )
}

#[test]
fn streams_in_memory(rt: HostRuntime) -> Result<(), Fail> {
    let input = b"a 1\n".to_vec(rt.alloc())?;
    let mut files = MemoryFiles::new(rt.alloc(), input, 2);
    holds(&rt, are_opened(rt.alloc(), &mut files))
}

// The file is written and then removed.
fn is_opened_once<S: Streams>(
    rt: &(impl rt::Files + AllocGlobal + Abort),
    streams: &mut S,
    path: &str,
) -> Result<(), Fail> {
    fs::write(rt, path, "a;b 3\n")?;
    let found = stream_is(rt.alloc(), streams, path, b"a;b 3\n");
    fs::remove_file(rt, path)?;
    assert!(rt; is_closed(rt.alloc(), streams, path));
    holds(rt, found)
}

#[test]
fn streams_of_the_machine(rt: HostRuntime) -> Result<(), Fail> {
    let path = temporary_path(&rt, "streams_of_the_machine")?;
    is_opened_once(&rt, &mut MachineFiles::new(&rt), path.as_str())
}

// What is no plain file is opened when it is read.
fn device_and_folder<S: Streams>(
    alloc: Global,
    streams: &mut S,
    folder: &str,
) -> Result<bool, LoadFault> {
    Ok(stream_is(alloc, streams, "/dev/null", b"")? && is_closed(alloc, streams, folder))
}

#[test]
fn devices_and_folders(rt: HostRuntime) -> Result<(), Fail> {
    let folder = env::temp_dir(&rt)?;
    let found = device_and_folder(rt.alloc(), &mut MachineFiles::new(&rt), folder.as_str());
    holds(&rt, found)
}
