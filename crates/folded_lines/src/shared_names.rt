//! The names that a head shares with the one before: a sampler sees the outer calls of a stack many times, and sorted stacks begin alike.

ghost use Rattle.std.specs.Prelude.{◌≡◌, ◌*◌, ◌≤◌, [], length, take, count_by, IfOk, IfSome, IsTrue};
ghost use Rattle.folded_lines.specs.Lines.{is_semicolon, names_of};
ghost use Rattle.folded_lines.specs.checked.Sharing.{BeginsAs, IsEnd, IsSharedEnd, parts_behind, parts_left};

use crate::names::without_trailing_semicolons;
use bstr::ByteSlice;
use std::alloc::AllocError;

/// How many bytes are compared at once.
const STEP: usize = 32;

/// A head and the numbers of its names, or nothing.
#[derive(Clone, Copy)]
pub(crate) struct NumberedHead<'a> {
    pub(crate) head: &'a [u8],
    pub(crate) numbers: &'a [u32],
}

/// How many of the first bytes are the same in both, counted in steps.
fn same_steps(one: &[u8], other: &[u8], most: usize) -> usize
    requires one { most ≤ length one.now }
    requires other { most ≤ length other.now }
    ensures within { result ≤ most }
    ensures same { take result one.now ≡ take result other.now }
{
    for step in 0..most / STEP {
        let at = step * STEP;
        if one[at..at + STEP] != other[at..at + STEP] {
            return at;
        }
    }
    most / STEP * STEP
}

/// How many of the first bytes are the same in both.
fn same_bytes(one: &[u8], other: &[u8]) -> usize
    ensures one { result ≤ length one.now }
    ensures other { result ≤ length other.now }
    ensures same { take result one.now ≡ take result other.now }
{
    let most = one.len().min(other.len());
    for at in same_steps(one, other, most)..most {
        if one[at] != other[at] {
            return at;
        }
    }
    most
}

/// Whether a name ends at a place.
fn is_end(head: &[u8], at: usize) -> bool
    requires { at ≤ length head.now }
    ensures { IsTrue result → IsEnd head.now at }
{
    match head.get(at) {
        None => true,
        Some(byte) => *byte == b';',
    }
}

/// Where the last name ends that both begin with, if there is one.
fn shared_end(last: &[u8], head: &[u8]) -> Option<usize>
    ensures { IfSome result (IsSharedEnd last.now head.now) }
{
    let len = same_bytes(last, head);
    if is_end(last, len) && is_end(head, len) {
        return Some(len);
    }
    let same = &last[..len];
    same.rfind_byte(b';')
}

/// How many `;` there are.
fn count_semicolons(bytes: &[u8]) -> usize
    ensures { result ≡ count_by is_semicolon bytes.now }
{
    let mut count = 0;
    for at in 0..bytes.len() {
        count += (bytes[at] == b';') as usize;
    }
    count
}

/// What is left behind the `;` at a place, if it is not the end.
fn left_behind(head: &[u8], end: usize) -> Option<&[u8]>
    ensures { parts_left result ≡ parts_behind head.now end }
{
    if end < head.len() {
        Some(&head[end + 1..])
    } else {
        None
    }
}

/// Puts the numbers of the names that a head shares with the one before behind none, and answers what is left of it behind the `;` after
/// them. It has no `;` at its end, and the one before may have some.
pub(crate) fn begin_alike<'h>(
    frames: &mut Vec<usize>,
    last: NumberedHead<'_>,
    head: &'h [u8],
) -> Result<Option<&'h [u8]>, AllocError>
    requires none { frames.old.items ≡ [] }
    requires numbers { length last.numbers.now ≡ length (names_of last.head.now) }
    ensures { IfOk result (BeginsAs last.entry.head.now last.entry.numbers.now head.now frames.new.items) }
{
    let before = without_trailing_semicolons(last.head);
    if before.is_empty() {
        return Ok(Some(head));
    }
    let Some(end) = shared_end(before, head) else {
        return Ok(Some(head));
    };
    for number in &last.numbers[..count_semicolons(&before[..end]) + 1] {
        frames.push(*number as usize)?;
    }
    Ok(left_behind(head, end))
}
