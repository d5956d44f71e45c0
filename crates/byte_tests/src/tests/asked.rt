//! Files that are asked for.
use byte_io::{Files, LoadFault, MemoryFiles, NamedFile};
use std::alloc::{AllocError, Global};
use std::env;
use std::rt::Env;
use std::test::Fail;

/// A path in the folder for files that are soon gone.
pub(super) fn temporary_path<R: Env + AllocGlobal>(rt: &R, name: &str) -> Result<String, Fail> {
    let folder = env::temp_dir(rt)?;
    Ok([folder.as_str(), "/byte_io_", name].concat(rt.alloc())?)
}

/// A path and the bytes of its file.
pub(super) type NamedBytes<'a> = (&'a str, &'a [u8]);

fn add_file(
    alloc: Global,
    files: &mut MemoryFiles,
    path: &str,
    bytes: &[u8],
) -> Result<(), AllocError> {
    let path = String::from_str(alloc, path)?;
    let bytes = bytes.to_vec(alloc)?;
    files.add(NamedFile { path, bytes })
}

/// Adds files, one after another.
pub(super) fn add_files(
    alloc: Global,
    files: &mut MemoryFiles,
    added: &[NamedBytes<'_>],
) -> Result<(), AllocError> {
    for (path, bytes) in added {
        add_file(alloc, files, path, bytes)?;
    }
    Ok(())
}

/// Whether the file of a path has these bytes.
pub(super) fn file_is<F: Files>(
    alloc: Global,
    files: &mut F,
    path: &str,
    wanted: &[u8],
) -> Result<bool, LoadFault> {
    Ok(files.named(alloc, path)?.as_slice() == wanted)
}

/// Whether the input has these bytes.
pub(super) fn input_is<F: Files>(
    alloc: Global,
    files: &mut F,
    wanted: &[u8],
) -> Result<bool, LoadFault> {
    Ok(files.input(alloc)?.as_slice() == wanted)
}

/// Whether the file of a path isn't had, for this fault.
pub(super) fn file_fails<F: Files>(
    alloc: Global,
    files: &mut F,
    path: &str,
    fault: LoadFault,
) -> bool {
    files.named(alloc, path).err() == Some(fault)
}
