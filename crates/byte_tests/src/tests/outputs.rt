//! Files that take their places when they are whole.
use super::asked::temporary_path;
use crate::tests::holds;
use byte_io::{Draft, MachineOutputs, MemoryOutputs, Outlet, OutputStep, Outputs, send};
use std::alloc::Global;
use std::fs::File;
use std::process::Abort;
use std::test::Fail;
use std::{fs, io, rt};

/// A file of a path with these bytes, which is to take its place.
fn written<O: Outputs>(
    alloc: Global,
    outputs: &mut O,
    path: &str,
    bytes: &[u8],
) -> io::Result<Draft<O::Writer>> {
    let mut draft = outputs.begin(alloc, path)?;
    match send(bytes, &mut draft.writer) {
        Ok(()) => Ok(draft),
        Err(_) => Err(io::Error::from(io::ErrorKind::BrokenPipe)),
    }
}

fn place<O: Outputs>(alloc: Global, outputs: &mut O, path: &str, bytes: &[u8]) -> io::Result<()> {
    let draft = written(alloc, outputs, path, bytes)?;
    outputs.place(draft)
}

fn discard<O: Outputs>(alloc: Global, outputs: &mut O, path: &str, bytes: &[u8]) -> io::Result<()> {
    let draft = written(alloc, outputs, path, bytes)?;
    outputs.discard(draft);
    Ok(())
}

/// Whether exactly the files with these bytes took their places, each at `x`.
fn has_placed(outputs: &MemoryOutputs, wanted: &[&[u8]]) -> bool {
    let placed = outputs.placed();
    placed.len() == wanted.len()
        && placed.iter().zip(wanted).all(|(file, bytes)| {
            file.path.as_str() == "x" && file.bytes.as_slice() == *bytes
        })
}

fn keeps_what_is_placed(alloc: Global) -> io::Result<bool> {
    let mut outputs = MemoryOutputs::new(alloc);
    place(alloc, &mut outputs, "x", b"a 1\n")?;
    discard(alloc, &mut outputs, "x", b"b 2\n")?;
    place(alloc, &mut outputs, "x", b"")?;
    Ok(has_placed(&outputs, &[b"a 1\n", b""]))
}

fn fails_at(alloc: Global, step: OutputStep) -> bool {
    let mut outputs = MemoryOutputs::new(alloc).failing_at(step);
    place(alloc, &mut outputs, "x", b"a 1\n").is_err() && has_placed(&outputs, &[])
}

#[test]
fn outputs_in_memory(rt: HostRuntime) -> Result<(), Fail> {
    let alloc = rt.alloc();
    holds(&rt, keeps_what_is_placed(alloc))?;
    assert!(&rt; fails_at(alloc, OutputStep::Begin));
    assert!(&rt; fails_at(alloc, OutputStep::Place));
    assert!(&rt; !MemoryOutputs::new(alloc).is_terminal());
    assert!(&rt; MemoryOutputs::new(alloc).on_terminal().is_terminal());
    Ok(())
}

/// Whether the file of a path has these bytes, and whether there is nothing beside it.
fn stands(rt: &(impl rt::Files + AllocGlobal), path: &str, wanted: &[u8]) -> io::Result<bool> {
    let beside = [path, ".part"].concat(rt.alloc())?;
    Ok(fs::read(rt, path)?.as_slice() == wanted && fs::metadata(rt, beside.as_str()).is_err())
}

/// Until a file takes its place, what stood there stays.
fn takes_its_place<T: rt::Files<File = File> + AllocGlobal, O: Outputs>(
    rt: &T,
    outputs: &mut O,
    path: &str,
) -> io::Result<bool> {
    let alloc = rt.alloc();
    place(alloc, outputs, path, b"a 1\n")?;
    let mut all = stands(rt, path, b"a 1\n")?;
    discard(alloc, outputs, path, b"b 2\n")?;
    all &= stands(rt, path, b"a 1\n")?;
    let draft = written(alloc, outputs, path, b"c 3\n")?;
    all &= fs::read(rt, path)?.as_slice() == b"a 1\n".as_slice();
    outputs.place(draft)?;
    all &= stands(rt, path, b"c 3\n")?;
    fs::remove_file(rt, path)?;
    Ok(all)
}

/// What is no plain file is written as it stands, and stays; a folder is not.
fn leaves_what_is_no_file<O: Outputs>(
    alloc: Global,
    outputs: &mut O,
    folder: &str,
) -> io::Result<bool> {
    place(alloc, outputs, "/dev/null", b"a 1\n")?;
    discard(alloc, outputs, "/dev/null", b"a 1\n")?;
    Ok(outputs.begin(alloc, folder).is_err() && outputs.begin(alloc, "/dev/null/x").is_err())
}

fn leaves_each<O: Outputs>(
    rt: &(impl rt::Files<File = File> + AllocGlobal + Abort),
    outputs: &mut O,
    path: &str,
) -> Result<(), Fail> {
    holds(rt, takes_its_place(rt, outputs, path))?;
    holds(rt, leaves_what_is_no_file(rt.alloc(), outputs, "/dev"))
}

#[test]
fn outputs_of_the_machine(rt: HostRuntime) -> Result<(), Fail> {
    let path = temporary_path(&rt, "outputs")?;
    let mut outputs = MachineOutputs::beside(&rt, &rt.stdout());
    leaves_each(&rt, &mut outputs, path.as_str())
}
