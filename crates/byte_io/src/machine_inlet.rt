//! The streams of the machine as inlets.
ghost use Rattle.std.specs.Prelude.{◌≢◌, Err};
ghost use Rattle.byte_io.specs.Files.{unknown};
ghost use Rattle.byte_io.specs.Inlet.{failed_machine_reads};

use crate::inlet::{CountedReader, Inlet};
use crate::whole_input::LoadFault;
use std::alloc::Global;
use std::fs::File;
use std::io::Read;
use std::{fs, io, rt};

/// A file of the machine. Where to open it may wait, as a FIFO waits for its writer, it is opened when it is read first, so that whoever
/// reads it waits and nobody else.
#[derive(Drop)]
pub struct StreamFile<T> {
    rt: T,
    path: String,
    file: Option<File>,
}

impl<T: rt::Files<File = File> + Copy> StreamFile<T> {
    // A directory can be opened, but not read.
    pub(crate) fn new(rt: T, alloc: Global, path: &str) -> Result<StreamFile<T>, LoadFault>
        ensures { result ≢ Err LoadFault.TooLarge }
    {
        let metadata = fs::metadata(&rt, path).map_err(|_| LoadFault::Io)?;
        if metadata.is_dir() {
            return Err(LoadFault::Io);
        }
        let file = if metadata.is_file() {
            Some(fs::open(&rt, path).map_err(|_| LoadFault::Io)?)
        } else {
            None
        };
        let path = String::from_str(alloc, path)?;
        Ok(StreamFile { rt, path, file })
    }
}

impl<T: rt::Files<File = File>> Read for StreamFile<T> {
    fn read(&mut self, buf: &mut [u8]) -> io::Result<usize> {
        if let Some(file) = &mut self.file {
            return file.read(buf);
        }
        let mut file = fs::open(&self.rt, self.path.as_str())?;
        let answer = file.read(buf);
        self.file = Some(file);
        answer
    }
}

/// An opened file of the machine, or its input. Nothing is known of the bytes to come, and a read may fail.
#[derive(Drop)]
pub enum MachineInlet<T, R> {
    /// A file.
    File(CountedReader<StreamFile<T>>),
    /// The input.
    Input(CountedReader<R>),
}

impl<T: rt::Files<File = File>, R: Read> Inlet for MachineInlet<T, R> {
    ghost remaining = { λ _. unknown };

    ghost failures = { failed_machine_reads };

    fn read(&mut self, buf: &mut [u8]) -> io::Result<usize> {
        match self {
            MachineInlet::File(reader) => reader.read(buf),
            MachineInlet::Input(reader) => reader.read(buf),
        }
    }
}
