//! Files and an input in memory.
ghost use Rattle.std.specs.Prelude.{◌≡◌, ◌≢◌, ◌^◌, ◌<◌, ◌≤◌, [], ◌∷◌, ◌++◌, length, vec_len, false, true, Some, OnOk, OnErr, IfOk, IfSome, IsErrOf, IsNone};
ghost use Rattle.byte_io.specs.Files.{input_bytes, named_files, byte_limit, gives_stored, file_at, bytes_at};
ghost use Rattle.std.specs.Option.{is_none, option_copied};

use crate::bytes_inlet::BytesInlet;
use crate::files::Files;
use crate::refusals::Refusal;
use crate::stored_text::StoredText;
use crate::streams::Streams;
use crate::whole_input::LoadFault;
use std::alloc::{AllocError, Global};

/// A file of a `MemoryFiles`.
#[derive(Drop)]
pub struct NamedFile {
    pub path: String,
    pub bytes: Vec<u8>,
}

/// Files and an input in memory, where each call of `input` gives the same bytes.
#[derive(Drop)]
pub struct MemoryFiles {
    input: Vec<u8>,
    named: Vec<NamedFile>,
    limit: usize,
    // Whether `stored` gives files.
    gives_stored: bool,
}

impl MemoryFiles {
    /// The input, and no file. More than `limit` bytes in one of them are `LoadFault::TooLarge`.
    pub fn new(alloc: Global, input: Vec<u8>, limit: usize) -> MemoryFiles
        ensures input { input_bytes result ≡ input.items }
        ensures files { named_files result ≡ [] }
        ensures limit { byte_limit result ≡ limit }
        ensures stored { gives_stored result ≡ false }
    {
        MemoryFiles {
            input,
            named: Vec::new(alloc),
            limit,
            gives_stored: false,
        }
    }

    /// The same, but that `stored` gives each file that is not too large.
    pub fn with_stored(mut self) -> MemoryFiles
        ensures stored { gives_stored result ≡ true }
        ensures input { input_bytes result ≡ input_bytes self }
        ensures files { named_files result ≡ named_files self }
        ensures limit { byte_limit result ≡ byte_limit self }
    {
        self.gives_stored = true;
        self
    }

    /// Adds a file. Of two files of one path the one that was added first is found.
    pub fn add(&mut self, file: NamedFile) -> Result<(), AllocError>
        ensures ok { OnOk result (named_files self.new ≡ named_files self.old ++ file ∷ []) }
        ensures err { OnErr result (named_files self.new ≡ named_files self.old) }
        ensures input { input_bytes self.new ≡ input_bytes self.old }
        ensures limit { byte_limit self.new ≡ byte_limit self.old }
        ensures stored { gives_stored self.new ≡ gives_stored self.old }
    {
        self.named.push(file)?;
        Ok(())
    }
}

impl Files for MemoryFiles {
    ghost known_input = { λ files. Some (input_bytes files) };

    ghost known_file = { bytes_at };

    fn named(&mut self, alloc: Global, path: &str) -> Result<Vec<u8>, LoadFault>
        ensures bytes { IfOk result (λ bytes.
            IfSome (bytes_at self.old path.now) (λ known. bytes.items ≡ known)) }
        ensures input { Some (input_bytes self.new) ≡ Some (input_bytes self.old) }
        ensures files { bytes_at self.new ≡ bytes_at self.old }
        ensures unchanged { self.new ≡ self.old }
        ensures first { IfOk result (λ bytes.
            IfSome (file_at (named_files self.old) path.now) (λ file.
            bytes.items ≡ file.bytes.items)) }
        ensures within { IfOk result (λ bytes. vec_len bytes ≤ byte_limit self.old) }
        ensures too_large { IsErrOf result LoadFault.TooLarge →
            IfSome (file_at (named_files self.old) path.now) (λ file.
            byte_limit self.old < vec_len file.bytes) }
        ensures absent { IsNone (file_at (named_files self.old) path.now)
            → result ≡ Err LoadFault.Io }
        ensures io { result ≡ Err LoadFault.Io → IsNone (file_at (named_files self.old) path.now) }
    {
        match first_at(self.named.as_slice(), path) {
            Some(file) => copied(alloc, file.bytes.as_slice(), self.limit),
            None => Err(LoadFault::Io),
        }
    }

    fn input(&mut self, alloc: Global) -> Result<Vec<u8>, LoadFault>
        ensures bytes { IfOk result (λ bytes.
            IfSome (Some (input_bytes self.old)) (λ known. bytes.items ≡ known)) }
        ensures input { Some (input_bytes self.new) ≡ Some (input_bytes self.old) }
        ensures files { bytes_at self.new ≡ bytes_at self.old }
        ensures unchanged { self.new ≡ self.old }
        ensures within { IfOk result (λ bytes. vec_len bytes ≤ byte_limit self.old) }
        ensures too_large { IsErrOf result LoadFault.TooLarge →
            byte_limit self.old < length (input_bytes self.old) }
        ensures io { result ≢ Err LoadFault.Io }
    {
        copied(alloc, self.input.as_slice(), self.limit)
    }

    fn stored(&mut self, alloc: Global, path: &str) -> Option<StoredText>
        ensures bytes { IfSome result (λ text.
            IfSome (bytes_at self.old path.now) (λ known. text ≡ Some known)) }
        ensures input { Some (input_bytes self.new) ≡ Some (input_bytes self.old) }
        ensures files { bytes_at self.new ≡ bytes_at self.old }
        ensures unchanged { self.new ≡ self.old }
        ensures absent { IsNone (file_at (named_files self.old) path.now) → IsNone result }
        ensures unasked { gives_stored self.old ≡ false → IsNone result }
        ensures within { IfSome result (λ text.
            IfSome text (λ all. length all ≤ byte_limit self.old)) }
    {
        if !self.gives_stored {
            return None;
        }
        let file = first_at(self.named.as_slice(), path)?;
        let copy = copied(alloc, file.bytes.as_slice(), self.limit).ok()?;
        StoredText::in_memory(alloc, copy).ok()
    }

    fn is_input_terminal(&self) -> bool
        ensures never { result ≡ false }
    {
        false
    }

    fn is_error_terminal(&self) -> bool
        ensures never { result ≡ false }
    {
        false
    }

    // No other file is `LoadFault::Io`.
    fn refusal(&self) -> Refusal
        ensures absent { result ≡ Refusal.Absent }
    {
        Refusal::Absent
    }
}

// A stream is a copy, of any length.
impl Streams for MemoryFiles {
    type Inlet = BytesInlet;

    ghost known_input = { λ files. Some (input_bytes files) };

    ghost known_file = { bytes_at };

    ghost is_absent = { λ files path. is_none (file_at (named_files files) path) };

    fn open_named(&mut self, alloc: Global, path: &str) -> Result<BytesInlet, LoadFault> {
        match first_at(self.named.as_slice(), path) {
            Some(file) => inlet_of(alloc, file.bytes.as_slice()),
            None => Err(LoadFault::Io),
        }
    }

    fn open_input(&mut self, alloc: Global) -> Result<BytesInlet, LoadFault> {
        inlet_of(alloc, self.input.as_slice())
    }
}

// An inlet of the bytes again.
fn inlet_of(alloc: Global, bytes: &[u8]) -> Result<BytesInlet, LoadFault>
    ensures same { IfOk result (λ inlet. inlet ≡ bytes.now) }
    ensures small { length bytes.now < 2 ^ 64 }
    ensures io { result ≢ Err LoadFault.Io }
    ensures any_length { result ≢ Err LoadFault.TooLarge }
{
    Ok(BytesInlet::new(Vec::from_slice(alloc, bytes)?))
}

// The first file of a path.
fn first_at<'a>(files: &'a [NamedFile], path: &str) -> Option<&'a NamedFile>
    ensures { option_copied result ≡ file_at files.now path.now }
{
    files.iter().find(|file| file.path.as_str() == path)
}

// The bytes again, unless there are more than the limit.
fn copied(alloc: Global, bytes: &[u8], limit: usize) -> Result<Vec<u8>, LoadFault>
    ensures same { IfOk result (λ copy. copy.items ≡ bytes.now) }
    ensures within { IfOk result (λ copy. vec_len copy ≤ limit) }
    ensures too_large { IsErrOf result LoadFault.TooLarge → limit < length bytes.now }
    ensures io { result ≢ Err LoadFault.Io }
{
    if bytes.len() > limit {
        return Err(LoadFault::TooLarge);
    }
    Ok(Vec::from_slice(alloc, bytes)?)
}
