//! The files and the standard input of the machine.
ghost use Rattle.std.specs.Prelude.{◌≡◌, ◌≤◌, true, vec_len, IfOk, IfSome};
ghost use Rattle.byte_io.specs.Files.{unknown, unknown_files};

use crate::files::Files;
use crate::inlet::CountedReader;
use crate::machine_inlet::{MachineInlet, StreamFile};
use crate::refusals::{NotedReader, Refusal};
use crate::stored_text::StoredText;
use crate::streams::Streams;
use crate::whole_input::{LoadFault, load};
use std::alloc::Global;
use std::fs::File;
use std::io::{IsTerminal, Read};
use std::{fs, rt};

/// The most bytes of one source.
pub const SOURCE_LIMIT: usize = 1 << 30;

// A file of fewer bytes is loaded at once.
const LONG: u64 = 64 * 1024;

/// The files and the standard input of the machine, at most `SOURCE_LIMIT` bytes of each.
#[derive(Drop)]
pub struct MachineFiles<'a, T> {
    rt: &'a T,
    is_error_terminal: bool,
    // Of the last file that was not given.
    refusal: Refusal,
}

impl<'a, T: rt::Files + Input> MachineFiles<'a, T> {
    /// What the runtime reaches. Standard error is taken for no terminal.
    pub fn new(rt: &'a T) -> MachineFiles<'a, T> {
        MachineFiles {
            rt,
            is_error_terminal: false,
            refusal: Refusal::Unknown,
        }
    }

    /// What the runtime reaches, beside this standard error.
    pub fn beside<E: IsTerminal>(rt: &'a T, error: &E) -> MachineFiles<'a, T> {
        MachineFiles {
            rt,
            is_error_terminal: error.is_terminal(),
            refusal: Refusal::Unknown,
        }
    }
}

impl<T: rt::Files<File = File> + Input> Files for MachineFiles<'_, T>
where
    T::Reader: IsTerminal,
{
    ghost known_input = { λ _. unknown };

    ghost known_file = { λ _. unknown_files };

    ghost may_have_terminal = { true };

    fn named(&mut self, alloc: Global, path: &str) -> Result<Vec<u8>, LoadFault>
        ensures bytes { IfOk result (λ bytes. IfSome unknown (λ known. bytes.items ≡ known)) }
        ensures input { unknown ≡ unknown }
        ensures files { unknown_files ≡ unknown_files }
        ensures within { IfOk result (λ bytes. vec_len bytes ≤ SOURCE_LIMIT) }
    {
        match fs::open(self.rt, path) {
            Ok(file) => load_noted(alloc, file, &mut self.refusal),
            Err(e) => {
                self.refusal = Refusal::of(e.kind());
                Err(LoadFault::Io)
            }
        }
    }

    fn input(&mut self, alloc: Global) -> Result<Vec<u8>, LoadFault>
        ensures bytes { IfOk result (λ bytes. IfSome unknown (λ known. bytes.items ≡ known)) }
        ensures input { unknown ≡ unknown }
        ensures files { unknown_files ≡ unknown_files }
        ensures within { IfOk result (λ bytes. vec_len bytes ≤ SOURCE_LIMIT) }
    {
        load_noted(alloc, self.rt.reader(), &mut self.refusal)
    }

    // It is opened once, since another file can have its path afterwards.
    fn stored(&mut self, alloc: Global, path: &str) -> Option<StoredText> {
        let length = long_length(self.rt, path)?;
        let file = fs::open(self.rt, path).ok()?;
        StoredText::of_file(alloc, file, length).ok()
    }

    fn is_input_terminal(&self) -> bool {
        self.rt.reader().is_terminal()
    }

    fn is_error_terminal(&self) -> bool {
        self.is_error_terminal
    }

    fn refusal(&self) -> Refusal {
        self.refusal
    }
}

// How many bytes a plain file has that is neither short nor too large.
fn long_length<R: rt::Files>(rt: &R, path: &str) -> Option<u64>
    ensures { IfSome result (λ length. length ≤ SOURCE_LIMIT) }
{
    let metadata = fs::metadata(rt, path).ok()?;
    let length = metadata.len();
    let is_long = metadata.is_file() && LONG <= length && length <= SOURCE_LIMIT as u64;
    is_long.then_some(length)
}

// Loads the bytes of a reader, and notes why a read of it failed.
fn load_noted<R: Read + Drop>(
    alloc: Global,
    reader: R,
    refusal: &mut Refusal,
) -> Result<Vec<u8>, LoadFault>
    ensures { IfOk result (λ bytes. vec_len bytes ≤ SOURCE_LIMIT) }
{
    let mut reader = CountedReader::new(NotedReader { reader, refusal });
    load(alloc, &mut reader, SOURCE_LIMIT)
}

impl<T: rt::Files<File = File> + Input + Copy + Send + 'static> Streams for MachineFiles<'_, T>
where
    T::Reader: IsTerminal + Send + 'static,
{
    type Inlet = MachineInlet<T, T::Reader>;

    ghost known_input = { λ _. unknown };

    ghost known_file = { λ _. unknown_files };

    ghost may_have_terminal = { true };

    fn open_named(
        &mut self,
        alloc: Global,
        path: &str,
    ) -> Result<MachineInlet<T, T::Reader>, LoadFault> {
        let file = StreamFile::new(*self.rt, alloc, path)?;
        Ok(MachineInlet::File(CountedReader::new(file)))
    }

    fn open_input(&mut self, _alloc: Global) -> Result<MachineInlet<T, T::Reader>, LoadFault> {
        Ok(MachineInlet::Input(CountedReader::new(self.rt.reader())))
    }

    fn is_input_terminal(&self) -> bool {
        self.rt.reader().is_terminal()
    }
}
