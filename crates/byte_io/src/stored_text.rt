//! Texts whose bytes are read where they are stored.
ghost use Rattle.std.specs.Prelude.{◌≡◌, ◌+◌, ◌-◌, ◌<◌, ◌≤◌, ◌^◌, ◌++◌, ◌∷◌, [], ℕ, List, Some, length, take, drop, slice_index, IfOk, IfSome};
ghost use Rattle.byte_io.specs.Files.{unknown};
ghost use Rattle.byte_io.specs.Stored.{stored_content, known_range, unread_range};

use crate::inlet::Inlet;
use crate::positioned_read::PositionedRead;
use crate::stored_bytes::StoredBytes;
use crate::stored_range::StoredRange;
use crate::whole_input::{LoadFault, load, zeros};
use std::alloc::{AllocError, Global};
use std::fs::File;
use std::marker::Model;
use std::sync::Arc;

/// How many bytes one read asks for.
const CHUNK: usize = 16 * 1024;

/// A text that is not loaded, but read where it is stored, by several threads at the same time: a file of the machine as long as it was
/// when it was opened, or bytes in memory. Contracts see its bytes, where they are known.
#[derive(Drop)]
pub struct StoredText {
    bytes: Arc<StoredBytes>,
    len: u64,
}

impl Model for StoredText {
    ghost use Rattle.std.specs.Prelude.{◌≡◌, ◌<◌, ◌^◌, ℕ, List, Option, length, IfSome};
    ghost use Rattle.std.specs.Arc.{arc_value};
    ghost use Rattle.byte_io.specs.Stored.{stored_content};

    ghost Value = { Option (List ℕ) };

    ghost view = { λ text. stored_content (arc_value text.bytes) };

    ghost invariant = { λ text. record {
      whole : IfSome (stored_content (arc_value text.bytes)) (λ all. length all ≡ text.len);
      short : text.len < 2 ^ 63;
    } };
}

impl StoredText {
    /// Bytes in memory. They are not copied.
    pub fn in_memory(alloc: Global, bytes: Vec<u8>) -> Result<StoredText, AllocError>
        ensures { IfOk result (λ text. text ≡ Some bytes.items) }
    {
        let len = bytes.len() as u64;
        let bytes = Arc::new(alloc, StoredBytes::Memory(bytes))?;
        Ok(StoredText { bytes, len })
    }

    /// An opened file, so many bytes of it.
    pub(crate) fn of_file(alloc: Global, file: File, len: u64) -> Result<StoredText, AllocError>
        requires { len < 2 ^ 63 }
        ensures { IfOk result (λ text. text ≡ unknown) }
    {
        let bytes = Arc::new(alloc, StoredBytes::File(file))?;
        Ok(StoredText { bytes, len })
    }

    /// How many bytes there are, if the file was not cut meanwhile.
    pub fn len(&self) -> u64
        ensures known { IfSome self.now (λ all. result ≡ length all) }
        ensures short { result < 2 ^ 63 }
    {
        self.len
    }

    /// The same text. It is not opened again.
    pub fn share(&self) -> Result<StoredText, AllocError>
        ensures { IfOk result (λ text. text ≡ self.now) }
    {
        Ok(StoredText {
            bytes: Arc::try_clone(&self.bytes)?,
            len: self.len,
        })
    }

    /// The bytes from a place up to another, none of them read yet.
    pub fn range(&self, from: u64, to: u64) -> Result<StoredRange, AllocError>
        ensures { IfOk result (λ range. unread_range range ≡ known_range self.now from (to - from)) }
    {
        let bytes = Arc::try_clone(&self.bytes)?;
        Ok(StoredRange::new(bytes, from, to.saturating_sub(from) as usize))
    }

    /// All bytes, none of them read yet.
    pub fn whole(&self) -> Result<StoredRange, AllocError>
        ensures { IfOk result (λ range. unread_range range ≡ self.now) }
    {
        self.range(0, self.len)
    }

    /// All bytes in memory.
    pub fn load(&self, alloc: Global) -> Result<Vec<u8>, LoadFault>
        ensures { IfOk result (λ bytes. IfSome self.now (λ all. bytes.items ≡ all)) }
    {
        let mut whole = self.whole()?;
        load(alloc, &mut whole, self.len as usize)
    }

    /// The place behind the first LF at or behind `from`. `None` where there is none, and where it can't be read.
    pub fn line_end(&self, alloc: Global, from: u64) -> Option<u64>
        ensures further { IfSome result (λ place. from < place) }
        ensures line { IfSome result (λ place. IfSome self.now (λ all.
            (place ≤ length all) × ((front : List ℕ) × (take place all ≡ front ++ 10 ∷ [])))) }
    {
        let mut chunk = zeros(alloc, CHUNK).ok()?;
        let mut at = from;
        'chunks: while at < self.len {
            let count = read_some(&self.bytes, at, self.len, &mut chunk)?;
            if let Some(feed) = first_feed(&chunk[..count]) {
                return Some(at + feed as u64 + 1);
            }
            at += count as u64;
        }
        None
    }

    /// Whether no read of it fails. It reads it through once, and keeps nothing.
    pub fn can_be_read(&self, alloc: Global) -> Result<bool, AllocError> {
        let mut rest = self.whole()?;
        let mut chunk = zeros(alloc, CHUNK)?;
        for _turn in 0..u64::MAX {
            match rest.read(&mut chunk) {
                Ok(0) => return Ok(true),
                Ok(_) => {}
                Err(_) => return Ok(false),
            }
        }
        Ok(true)
    }
}

/// Reads once from a place on, before the end of so many bytes, and answers how many came, at least one.
fn read_some(bytes: &StoredBytes, at: u64, len: u64, chunk: &mut [u8]) -> Option<usize>
    requires room { 0 < length chunk.old }
    requires before { at < len }
    ensures some { IfSome result (λ count. 0 < count) }
    ensures within { IfSome result (λ count. count ≤ length chunk.new) }
    ensures before { IfSome result (λ count. at + count ≤ len) }
    ensures bytes { IfSome result (λ count. IfSome (stored_content bytes.now) (λ all.
        take count chunk.new ≡ take count (drop at all))) }
{
    let room = (len - at).min(chunk.len() as u64) as usize;
    let count = bytes.read_from(at, &mut chunk[..room]).ok()?;
    (count > 0).then_some(count)
}

/// Where the first LF stands.
fn first_feed(bytes: &[u8]) -> Option<usize>
    ensures { IfSome result (λ at. (at < length bytes.now) × (slice_index bytes.now at ≡ 10)) }
{
    bytes.iter().position(|byte| *byte == b'\n')
}
