//! Texts that are read where they are stored.
use crate::tests::holds;
use byte_io::{LoadFault, StoredText, load};
use std::alloc::{AllocError, Global};
use std::test::Fail;
use std::thread::{Threads, join};

/// A text, and the place behind the first LF at or behind each of its bytes and its end, 0 where there is none.
type LineEnds<'a> = (&'a [u8], &'a [u64]);

pub(super) const LINE_ENDS: &[LineEnds<'static>] = &[
    (b"", &[0]),
    (b"a", &[0, 0]),
    (b"\n", &[1, 0]),
    (b"a\n", &[2, 2, 0]),
    (b"\n\nb", &[1, 2, 0, 0]),
    (b"ab\n\nc\n", &[3, 3, 3, 4, 6, 6, 0]),
];

/// So many bytes that are no LF, and then these.
pub(super) fn padded(alloc: Global, pad: usize, bytes: &[u8]) -> Result<Vec<u8>, AllocError> {
    let mut all = vec![in alloc; b'x'; pad]?;
    all.extend_from_slice(bytes)?;
    Ok(all)
}

fn behind(pad: u64, place: u64) -> Option<u64> {
    (place > 0).then_some(pad.saturating_add(place))
}

/// Whether the lines of a padded text end there.
fn has_line_ends(alloc: Global, text: &StoredText, pad: u64, ends: &[u64]) -> bool {
    let mut from = pad;
    let mut all = text.line_end(alloc, 0) == behind(pad, ends.first().copied().unwrap_or(0));
    for place in ends {
        all &= text.line_end(alloc, from) == behind(pad, *place);
        from = from.saturating_add(1);
    }
    all
}

fn range_is(
    alloc: Global,
    text: &StoredText,
    from: u64,
    to: u64,
    wanted: &[u8],
) -> Result<bool, LoadFault> {
    let mut range = text.range(from, to)?;
    Ok(load(alloc, &mut range, 1 << 20)?.as_slice() == wanted)
}

/// Whether the text has these bytes in two ranges, of which the front has so many.
fn is_cut_at(
    alloc: Global,
    text: &StoredText,
    bytes: &[u8],
    cut: usize,
) -> Result<bool, LoadFault> {
    let (front, back) = bytes.split_at(cut.min(bytes.len()));
    let (cut, end) = (front.len() as u64, bytes.len() as u64);
    Ok(range_is(alloc, text, 0, cut, front)? && range_is(alloc, text, cut, end, back)?)
}

/// The same at each place from one on.
fn is_cut_from(
    alloc: Global,
    text: &StoredText,
    bytes: &[u8],
    pad: usize,
) -> Result<bool, LoadFault> {
    let mut all = true;
    for cut in pad..bytes.len().saturating_add(2) {
        all &= is_cut_at(alloc, text, bytes, cut)?;
    }
    Ok(all)
}

/// Whether all bytes of a text are these, however they are read.
pub(super) fn is_whole(alloc: Global, text: &StoredText, bytes: &[u8]) -> Result<bool, LoadFault> {
    let mut whole = text.whole()?;
    Ok(
        text.len() == bytes.len() as u64
            && text.load(alloc)?.as_slice() == bytes
            && load(alloc, &mut whole, 1 << 20)?.as_slice() == bytes
            && text.can_be_read(alloc)?,
    )
}

/// Whether a padded text has these bytes and line ends, and another owner of it, too.
pub(super) fn is_read(
    alloc: Global,
    text: StoredText,
    bytes: &[u8],
    pad: usize,
    ends: &[u64],
) -> Result<bool, LoadFault> {
    let shared = text.share()?;
    let whole = is_whole(alloc, &text, bytes)? && is_cut_from(alloc, &text, bytes, pad)?;
    drop(text);
    Ok(whole && has_line_ends(alloc, &shared, pad as u64, ends))
}

fn is_read_padded(
    alloc: Global,
    pad: usize,
    bytes: &[u8],
    ends: &[u64],
) -> Result<bool, LoadFault> {
    let all = padded(alloc, pad, bytes)?;
    let text = StoredText::in_memory(alloc, all.clone()?)?;
    is_read(alloc, text, &all, pad, ends)
}

fn are_read_padded(alloc: Global, pad: usize) -> Result<bool, LoadFault> {
    let mut all = true;
    for (bytes, ends) in LINE_ENDS {
        all &= is_read_padded(alloc, pad, bytes, ends)?;
    }
    Ok(all)
}

#[test]
fn small_texts(rt: HostRuntime) -> Result<(), Fail> {
    holds(&rt, are_read_padded(rt.alloc(), 0))
}

/// The first chunk of 16 KiB ends at each byte of the texts.
fn chunks_end_anywhere(alloc: Global) -> Result<bool, LoadFault> {
    let mut all = true;
    for pad in 16_377..16_386 {
        all &= are_read_padded(alloc, pad)?;
    }
    Ok(all)
}

#[test]
fn texts_of_more_than_a_chunk(rt: HostRuntime) -> Result<(), Fail> {
    holds(&rt, chunks_end_anywhere(rt.alloc()))
}

fn has_odd_ranges(alloc: Global) -> Result<bool, LoadFault> {
    let text = StoredText::in_memory(alloc, b"ab\n".to_vec(alloc)?)?;
    Ok(
        range_is(alloc, &text, 2, 1, b"")?
            && range_is(alloc, &text, 1, 9, b"b\n")?
            && range_is(alloc, &text, u64::MAX, u64::MAX, b"")?
            && text.line_end(alloc, u64::MAX).is_none(),
    )
}

#[test]
fn ranges_behind_the_end(rt: HostRuntime) -> Result<(), Fail> {
    holds(&rt, has_odd_ranges(rt.alloc()))
}

/// Whether two threads read the halves of a text at the same time.
pub(super) fn is_read_in_threads(
    rt: &(impl Threads + AllocGlobal),
    text: &StoredText,
    bytes: &[u8],
) -> Result<bool, LoadFault> {
    let (alloc, theirs) = (rt.alloc(), rt.alloc());
    let (front, back) = bytes.split_at(bytes.len() / 2);
    let (cut, end) = (front.len() as u64, bytes.len() as u64);
    let (mut first, mut last) = (text.range(0, cut)?, text.range(cut, end)?);
    let (one, other) = join(
        rt,
        move || load(alloc, &mut first, 1 << 20),
        move || load(theirs, &mut last, 1 << 20),
    );
    Ok(one?.as_slice() == front && other?.as_slice() == back)
}

fn is_read_by_two(rt: &(impl Threads + AllocGlobal)) -> Result<bool, LoadFault> {
    let bytes = padded(rt.alloc(), 100_000, b"\nb\n")?;
    let text = StoredText::in_memory(rt.alloc(), bytes.clone()?)?;
    is_read_in_threads(rt, &text, &bytes)
}

#[test]
fn ranges_in_threads(rt: HostRuntime) -> Result<(), Fail> {
    holds(&rt, is_read_by_two(&rt))
}
