//! Bytes loaded whole from an inlet.
ghost use Rattle.std.specs.Prelude.{true, false, ◌≡◌, ◌≢◌, ℕ, ◌+◌, ◌<◌, ◌≤◌, List, [], ◌++◌, length, vec_len, OnOk, IfOk, IfSome, IsErrOf};
ghost use Rattle.std.specs.Io.KnownBytes.{Consumes, IsAtEnd};
ghost use Rattle.byte_io.specs.Calls.{one_more};
ghost use Rattle.byte_io.specs.declared.whole_input.LoadFault.TheVariants.{OutOfMemory};

use crate::inlet::Inlet;
use std::alloc::{AllocError, Global};
use std::error::Error;
use std::fmt;

// How many bytes one read asks for.
const CHUNK: usize = 64 * 1024;

/// Why bytes were not loaded.
#[derive(Clone, Copy, Debug, PartialEq, Eq)]
pub enum LoadFault {
    /// They could not be read.
    Io,
    /// There are more than the limit.
    TooLarge,
    /// There was no memory for them.
    OutOfMemory,
}

impl fmt::Display for LoadFault {
    ghost use Rattle.std.specs.Prelude.{Some};
    ghost use Rattle.byte_io.specs.Faults.{load_fault_text};

    ghost output = { λ fault. Some (load_fault_text fault) };

    fn fmt<W: fmt::Write>(&self, f: &mut fmt::Formatter<W>) -> fmt::Result {
        match self {
            LoadFault::Io => f.write_str("cannot be read"),
            LoadFault::TooLarge => f.write_str("too large"),
            LoadFault::OutOfMemory => f.write_str("out of memory"),
        }
    }
}

impl Error for LoadFault {}

impl From<AllocError> for LoadFault {
    ghost from_gives = { λ _ fault. fault ≡ OutOfMemory };

    fn from(_error: AllocError) -> LoadFault {
        LoadFault::OutOfMemory
    }
}

/// Reads up to the end. More than `limit` bytes is `TooLarge`, which is seen before any memory is
/// taken for them; each error of the reader is `Io`.
pub fn load<R: Inlet>(alloc: Global, reader: &mut R, limit: usize) -> Result<Vec<u8>, LoadFault>
    ensures within { IfOk result (λ bytes. vec_len bytes ≤ limit) }
    ensures whole { IfOk result (λ bytes.
        IfSome (R.remaining reader.old) (λ had. bytes.items ≡ had)) }
    ensures end { OnOk result (IsAtEnd (R.remaining reader.new)) }
    ensures too_large { IsErrOf result LoadFault.TooLarge →
        IfSome (R.remaining reader.old) (λ had. limit < length had) }

    // `Io` comes only where a call of the reader failed, and no call failed otherwise.
    ensures io { IsErrOf result LoadFault.Io
        → R.failures reader.new ≡ one_more (R.failures reader.old) }
    ensures unfailed { result ≢ Err LoadFault.Io → R.failures reader.new ≡ R.failures reader.old }
{
    let mut buffer = zeros(alloc, CHUNK)?;
    load_through(alloc, reader, buffer.as_mut_slice(), limit)
}

// A buffer of `count` bytes.
pub(crate) fn zeros(alloc: Global, count: usize) -> Result<Vec<u8>, AllocError>
    ensures { IfOk result (λ buffer. vec_len buffer ≡ count) }
{
    vec![in alloc; 0u8; count]
}

// Reads up to the end, each time into `chunk` first.
fn load_through<R: Inlet>(
    alloc: Global,
    reader: &mut R,
    chunk: &mut [u8],
    limit: usize,
) -> Result<Vec<u8>, LoadFault>
    requires { 0 < length chunk.old }
    ensures within { IfOk result (λ bytes. vec_len bytes ≤ limit) }
    ensures whole { IfOk result (λ bytes.
        IfSome (R.remaining reader.old) (λ had. bytes.items ≡ had)) }
    ensures end { OnOk result (IsAtEnd (R.remaining reader.new)) }
    ensures too_large { IsErrOf result LoadFault.TooLarge →
        IfSome (R.remaining reader.old) (λ had. limit < length had) }
    ensures io { IsErrOf result LoadFault.Io
        → R.failures reader.new ≡ one_more (R.failures reader.old) }
    ensures unfailed { result ≢ Err LoadFault.Io → R.failures reader.new ≡ R.failures reader.old }
{
    let mut bytes = Vec::new(alloc);
    'chunks: loop {
        if !load_chunk(reader, chunk, &mut bytes, limit)? {
            return Ok(bytes);
        }
    }
}

// Reads once, and appends what came. It answers whether anything did.
fn load_chunk<R: Inlet>(
    reader: &mut R,
    chunk: &mut [u8],
    bytes: &mut Vec<u8>,
    limit: usize,
) -> Result<bool, LoadFault>
    requires room { 0 < length chunk.old }
    requires below { vec_len bytes.old ≤ limit }
    ensures within { OnOk result (vec_len bytes.new ≤ limit) }
    ensures came { OnOk result ((came : List ℕ) × (bytes.new.items ≡ bytes.old.items ++ came)
        × Consumes (R.remaining reader.old) (R.remaining reader.new) came) }
    ensures more { result ≡ Ok true → vec_len bytes.old < vec_len bytes.new }
    ensures end { result ≡ Ok false → IsAtEnd (R.remaining reader.new) }
    ensures too_large { IsErrOf result LoadFault.TooLarge →
        IfSome (R.remaining reader.old) (λ had. limit < vec_len bytes.old + length had) }
    ensures io { IsErrOf result LoadFault.Io
        → R.failures reader.new ≡ one_more (R.failures reader.old) }
    ensures unfailed { result ≢ Err LoadFault.Io → R.failures reader.new ≡ R.failures reader.old }
{
    let count = match reader.read(chunk) {
        Ok(count) => count,
        Err(_) => return Err(LoadFault::Io),
    };
    if limit - bytes.len() < count {
        return Err(LoadFault::TooLarge);
    }
    bytes.extend_from_slice(&chunk[..count])?;
    Ok(count > 0)
}
