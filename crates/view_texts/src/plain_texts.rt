//! Whether a text has no escapes.

ghost use Rattle.std.specs.Prelude.{◌≡◌, ◌+◌, ◌≤◌, length, All, IsTrue, ◌↔◌};
ghost use Rattle.std.specs.Bool.{OnTrue};
ghost use Rattle.json.specs.Written.{PlainBetween};
ghost use Rattle.view_texts.specs.checked.PlainTexts.{IsPlainByte};

use std::simd::prelude::*;

// Whether no byte of a block at a place has an escape.
macro_rules! has_no_escape {
    ($block:ident, $text:expr, $at:expr) => {{
        let block = $block::from_slice(&$text[$at..]);
        (block.simd_eq($block::splat(b'"'))
            | block.simd_eq($block::splat(b'\\'))
            | block.simd_lt($block::splat(b' '))).to_bitmask()
            == 0
    }};
}

// Whether a text stands in quotes as it is, without an escape. Names are mostly plain, so blocks of
// bytes are looked at first.
pub(crate) fn is_plain(text: &[u8]) -> bool
    ensures { IsTrue result ↔ All IsPlainByte text.now }
{
    if has_plain_blocks(text) {
        return true;
    }
    text.iter()
        .all(|byte| *byte >= b' ' && *byte != b'"' && *byte != b'\\')
}

// Whether a text has blocks, and all are plain. The last two may overlap, so they cover the text.
fn has_plain_blocks(text: &[u8]) -> bool
    ensures { OnTrue result (All IsPlainByte text.now) }
{
    let len = text.len();
    if len >= 16 {
        has_long_blocks(text)
    } else if len >= 8 {
        is_plain_8(text, 0) && is_plain_8(text, len - 8)
    } else {
        false
    }
}

fn has_long_blocks(text: &[u8]) -> bool
    requires { 16 ≤ length text.now }
    ensures { OnTrue result (All IsPlainByte text.now) }
{
    let mut at = 0;
    while text.len() - at > 16 {
        if !is_plain_16(text, at) {
            return false;
        }
        at += 16;
    }
    is_plain_16(text, text.len() - 16)
}

#[inline(always)]
fn is_plain_8(text: &[u8], at: usize) -> bool
    requires { at + 8 ≤ length text.now }
    ensures { OnTrue result (PlainBetween text.now at (at + 8)) }
{
    has_no_escape!(u8x8, text, at)
}

#[inline(always)]
fn is_plain_16(text: &[u8], at: usize) -> bool
    requires { at + 16 ≤ length text.now }
    ensures { OnTrue result (PlainBetween text.now at (at + 16)) }
{
    has_no_escape!(u8x16, text, at)
}
