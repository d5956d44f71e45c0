//! Files of profiles in parts, of any size.

use std::alloc::{AllocError, Global};

/// A part of a file.
#[derive(Clone, Copy)]
pub(super) enum Part<'a> {
    Bytes(&'a [u8]),
    /// These bytes so many times.
    Times(usize, &'a [u8]),
    /// These pieces for each number from 1 to this one, with the number behind each piece.
    Numbered(usize, &'a [&'a [u8]]),
}

fn append_times(file: &mut Vec<u8>, count: usize, bytes: &[u8]) -> Result<(), AllocError> {
    for _ in 0..count {
        file.extend_from_slice(bytes)?;
    }
    Ok(())
}

/// A number below 2^21, spelled in three bytes.
fn spelled(number: usize) -> [u8; 3] {
    let low = 0x80 | (number & 0x7f) as u8;
    let middle = 0x80 | (number >> 7 & 0x7f) as u8;
    let high = (number >> 14 & 0x7f) as u8;
    [low, middle, high]
}

/// Appends each of these pieces, with the spelled number behind it.
fn append_pieces(file: &mut Vec<u8>, pieces: &[&[u8]], number: &[u8]) -> Result<(), AllocError> {
    for piece in pieces {
        file.extend_from_slice(piece)?;
        file.extend_from_slice(number)?;
    }
    Ok(())
}

fn append_numbered(file: &mut Vec<u8>, count: usize, pieces: &[&[u8]]) -> Result<(), AllocError> {
    for number in 1..=count {
        append_pieces(file, pieces, &spelled(number))?;
    }
    Ok(())
}

fn append_part(file: &mut Vec<u8>, part: &Part<'_>) -> Result<(), AllocError> {
    match part {
        Part::Bytes(bytes) => file.extend_from_slice(bytes),
        Part::Times(count, bytes) => append_times(file, *count, bytes),
        Part::Numbered(count, pieces) => append_numbered(file, *count, pieces),
    }
}

/// The bytes of a file that is given in parts.
pub(super) fn joined(alloc: Global, parts: &[Part<'_>]) -> Result<Vec<u8>, AllocError> {
    let mut file = Vec::new(alloc);
    for part in parts {
        append_part(&mut file, part)?;
    }
    Ok(file)
}
