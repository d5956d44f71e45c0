//! What a cache of spellings finds again, which no contract promises.
ghost use Rattle.std.specs.Prelude.{◌≤◌, ◌+◌, ◌*◌, length};

use super::unless_refused;
use crate::tests::holds;
use call_tree::SpellingCache;
use std::alloc::AllocError;
use std::test::Fail;

/// What the hash of a cache multiplies by.
const MULTIPLIER: u64 = 0x9e37_79b9_7f4a_7c15;

/// How many spellings a cache remembers without forgetting one.
const COUNT: usize = 1_500;

/// How many spellings with one hash a cache is given.
const COLLIDING: usize = 40_000;

/// A word more in the hash of a cache.
fn mixed(hash: u64, word: u64) -> u64 {
    (hash ^ word).wrapping_mul(MULTIPLIER).rotate_left(29)
}

/// Appends spellings of 16 bytes: a number, and what takes part in its hash or undoes it.
fn append_spellings(text: &mut Vec<u8>, count: usize, colliding: bool) -> Result<(), AllocError> {
    let start = mixed(mixed(16, 1), mixed(2, 3));
    for number in 0..count as u64 {
        text.extend_from_slice(number.to_le_bytes().as_slice())?;
        let second = if colliding {
            mixed(start, number)
        } else {
            number
        };
        text.extend_from_slice(second.to_le_bytes().as_slice())?;
    }
    Ok(())
}

fn found(cache: &SpellingCache, text: &[u8], number: usize) -> Option<usize>
    requires { number * 16 + 16 ≤ length text.now }
{
    cache.find(text, number * 16, number * 16 + 16)
}

/// Whether the spelling is found, under this number.
fn is_found(cache: &SpellingCache, text: &[u8], spelling: usize, number: usize) -> bool
    requires { spelling * 16 + 16 ≤ length text.now }
{
    found(cache, text, spelling) == Some(number)
}

/// Whether the spellings of the numbers below this one are found.
fn are_found(cache: &SpellingCache, text: &[u8], count: usize) -> bool
    requires { count * 16 ≤ length text.now }
{
    for known in 0..count {
        if !is_found(cache, text, known, known) {
            return false;
        }
    }
    true
}

/// Remembers the spelling of a number under it. Where that is refused, what was known is found, and the call is made again.
fn remembers_again(
    cache: &mut SpellingCache,
    text: &[u8],
    number: usize,
    refused: &mut bool,
) -> Result<bool, AllocError>
    requires { number * 16 + 16 ≤ length text.now }
{
    let (start, end) = (number * 16, number * 16 + 16);
    if cache.remember(text, start, end, number).is_ok() {
        return Ok(true);
    }
    *refused = true;
    let kept = are_found(cache, text, number);
    cache.remember(text, start, end, number)?;
    Ok(kept)
}

/// Remembers the spelling of each number, which was not known before.
fn remembers_all(
    cache: &mut SpellingCache,
    text: &[u8],
    refused: &mut bool,
) -> Result<bool, AllocError> {
    if text.len() != COUNT * 16 {
        return Ok(false);
    }
    for number in 0..COUNT {
        let known = found(cache, text, number).is_some();
        if known || !remembers_again(cache, text, number, refused)? {
            return Ok(false);
        }
    }
    Ok(true)
}

/// Finds the spelling of each number in a text that has each twice.
fn all_are_found_twice(cache: &SpellingCache, text: &[u8]) -> bool {
    if text.len() != COUNT * 32 {
        return false;
    }
    for number in 0..COUNT {
        if !is_found(cache, text, COUNT + number, number) {
            return false;
        }
    }
    are_found(cache, text, COUNT)
}

/// A cache keeps what it knew and goes on. Where a growth was refused, the answer is that refusal.
fn cache_goes_on(
    cache: &mut SpellingCache,
    text: &mut Vec<u8>,
    refused: &mut bool,
) -> Result<bool, AllocError> {
    append_spellings(text, COUNT, false)?;
    let remembered = remembers_all(cache, text, refused)?;
    append_spellings(text, COUNT, false)?;
    unless_refused(remembered && all_are_found_twice(cache, text), *refused)
}

/// With any one growth refused, spellings are found at the bytes that were remembered and at equal ones, and others are not; the
/// test then ends in that refusal.
#[test]
fn spellings_are_found_again(rt: HostRuntime) -> Result<(), Fail> {
    let cache = &mut SpellingCache::new(rt.alloc());
    holds(
        &rt,
        cache_goes_on(cache, &mut Vec::new(rt.alloc()), &mut false),
    )
}

fn lengths_are_found(cache: &mut SpellingCache) -> Result<bool, AllocError> {
    let text = [b'a'; 100];
    for len in 0..100 {
        let known = cache.find(&text, 0, len).is_some();
        cache.remember(&text, 0, len, len)?;
        if known || cache.find(&text, 100 - len, 100) != Some(len) {
            return Ok(false);
        }
    }
    Ok(true)
}

/// The rows of spellings of every length up to three blocks of the hash are told apart.
#[test]
fn lengths_are_told_apart(rt: HostRuntime) -> Result<(), Fail> {
    holds(&rt, lengths_are_found(&mut SpellingCache::new(rt.alloc())))
}

/// Two spellings, and the first twice more.
const FOUR: &[u8] = b"a;ba;ca;ba;b";

/// Where spellings of `FOUR` stand that are looked for one after another, and under which numbers they are found.
const SOUGHT: &[(usize, usize, Option<usize>)] = &[
    (6, 9, Some(7)),
    (9, 12, Some(7)),
    (3, 6, Some(8)),
    (0, 3, Some(7)),
    (0, 2, None),
];

fn is_next(cache: &mut SpellingCache, start: usize, end: usize, number: Option<usize>) -> bool {
    start <= end && end <= FOUR.len() && cache.find_next(FOUR, start, end) == number
}

fn sought_are_found(cache: &mut SpellingCache) -> bool {
    for (start, end, number) in SOUGHT {
        if !is_next(cache, *start, *end, *number) {
            return false;
        }
    }
    true
}

fn remember_two(cache: &mut SpellingCache) -> Result<(), AllocError> {
    cache.remember(FOUR, 0, 3, 7)?;
    cache.remember(FOUR, 3, 6, 8)
}

fn next_are_found(cache: &mut SpellingCache) -> Result<bool, AllocError> {
    let unknown = is_next(cache, 0, 3, None);
    remember_two(cache)?;
    Ok(unknown && sought_are_found(cache))
}

/// One spelling after another is told apart from the one that was found last.
#[test]
fn next_spellings_are_told_apart(rt: HostRuntime) -> Result<(), Fail> {
    holds(&rt, next_are_found(&mut SpellingCache::new(rt.alloc())))
}

/// What is looked ahead for: what is sought, in its order and in that of the text, what is not known, and what the text does not have.
const AHEAD: &[&[(usize, usize)]] = &[
    &[(6, 9), (9, 12), (3, 6), (0, 3), (0, 2)],
    &[(0, 3), (3, 6), (6, 9), (9, 12)],
    &[(0, 2), (1, 4), (2, 5), (4, 7)],
    &[(20, 30), (3, 1), (9, 13)],
    &[],
];

fn hinted_are_found(cache: &mut SpellingCache) -> Result<bool, AllocError> {
    let wanted = cache.wants_hints();
    remember_two(cache)?;
    for spellings in AHEAD {
        cache.look_ahead(FOUR, spellings);
        if !sought_are_found(cache) {
            return Ok(false);
        }
    }
    Ok(wanted)
}

/// Whatever is looked ahead for, each spelling is told apart.
#[test]
fn hinted_spellings_are_told_apart(rt: HostRuntime) -> Result<(), Fail> {
    holds(&rt, hinted_are_found(&mut SpellingCache::new(rt.alloc())))
}

/// Remembers spellings with one hash, each of which is found right after.
fn remembers_colliding(cache: &mut SpellingCache, text: &[u8]) -> Result<bool, AllocError> {
    if text.len() != COLLIDING * 16 {
        return Ok(false);
    }
    for number in 0..COLLIDING {
        let at = number * 16;
        cache.remember(text, at, at + 16, number)?;
        if !is_found(cache, text, number, number) {
            return Ok(false);
        }
    }
    Ok(true)
}

/// Of a text of spellings, so many are known.
fn known_are(cache: &SpellingCache, text: &[u8], count: usize) -> bool {
    let mut known = 0usize;
    for number in 0..text.len() / 16 {
        if found(cache, text, number).is_some() {
            known = known.saturating_add(1);
        }
    }
    known == count
}

fn sixteen_are_kept(cache: &mut SpellingCache, text: &mut Vec<u8>) -> Result<bool, AllocError> {
    append_spellings(text, COLLIDING, true)?;
    Ok(remembers_colliding(cache, text)? && known_are(cache, text, 16))
}

/// Of spellings with one hash, those that have a slot are found. The others cost no more than these.
#[test]
fn colliding_spellings_are_forgotten(rt: HostRuntime) -> Result<(), Fail> {
    let cache = &mut SpellingCache::new(rt.alloc());
    holds(&rt, sixteen_are_kept(cache, &mut Vec::new(rt.alloc())))
}
