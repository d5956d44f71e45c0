//! Where the text of a box is put together, from its end to its front.

ghost use Rattle.std.specs.Prelude.{◌≡◌, ◌+◌, ◌<◌, ◌≤◌, ◌++◌, ℕ, All, drop, length, OnOk};
ghost use Rattle.std.specs.Bool.{OnTrue};
ghost use Rattle.std.specs.Io.{StartsWith};
ghost use Rattle.serde_json.specs.Data.{string};
ghost use Rattle.serde_json.specs.Written.{compact_text};
ghost use Rattle.view_texts.specs.checked.BoxParts.{before_name, own_text, edge_text};
ghost use Rattle.view_texts.specs.checked.BoxBuffers.{IsBoxBuffer};
ghost use Rattle.view_texts.specs.checked.PlainTexts.{IsPlainByte};

use crate::json_pieces::append_quoted;
use crate::plain_texts::is_plain;
use crate::put_pieces::{put_number, put_piece};
use crate::scales::Scale;
use flame_layout::{DrawnBox, edges};
use std::alloc::{AllocError, Global};

// What a box has behind its own weight stays at the end of the bytes: where it ends in the image, where it
// begins, and its weight. Boxes that are alike in these often come one after another.
#[derive(Drop)]
pub(crate) struct BoxBuffer {
    pub(crate) start: u64,
    pub(crate) weight: u64,
    // Where a box of that start begins in the image.
    pub(crate) left: u32,
    // Where the text of the edges begins.
    pub(crate) tail: usize,
    pub(crate) bytes: [u8; 448],
}

impl BoxBuffer {
    // The buffer for a box that begins at 0 and weighs nothing.
    pub(crate) fn new() -> BoxBuffer
        ensures { (total width : ℕ) → 0 < total → IsBoxBuffer total width result }
    {
        let mut bytes = [0; 448];
        let tail = put_edges(&mut bytes, 448, 0, 0, 0);
        BoxBuffer {
            start: 0,
            weight: 0,
            left: 0,
            tail,
            bytes,
        }
    }
}

// Makes the buffer ready for a box.
pub(crate) fn turn_to(buffer: &mut BoxBuffer, drawn: &DrawnBox<'_>, scale: &Scale)
    requires within { drawn.now.start + drawn.now.weight ≤ scale.now.total }
    requires positive { 0 < scale.now.total }
    requires ready { IsBoxBuffer scale.now.total scale.now.width buffer.old }
    ensures ready { IsBoxBuffer scale.now.total scale.now.width buffer.new }
    ensures start { buffer.new.start ≡ drawn.now.start }
    ensures weight { buffer.new.weight ≡ drawn.now.weight }
{
    let (start, weight) = (drawn.start, drawn.weight);
    if start == buffer.start && weight == buffer.weight {
        return;
    }
    let (left, right) = edges(drawn, scale.total, scale.width);
    buffer.tail = put_edges(&mut buffer.bytes, 448, right, start, weight);
    buffer.left = left;
    buffer.start = start;
    buffer.weight = weight;
}

// Appends a byte and the members of the box that the buffer is ready for, and the bracket after them.
pub(crate) fn append_ready(
    buffer: &mut BoxBuffer,
    alloc: Global,
    text: &mut Vec<u8>,
    opening: u8,
    drawn: &DrawnBox<'_>,
) -> Result<(), AllocError>
    requires low { 359 ≤ buffer.old.tail }
    requires high { buffer.old.tail ≤ 448 }
    ensures ok { OnOk result (text.new.items ≡ text.old.items
        ++ (before_name opening drawn.now.depth buffer.old.left
        ++ (compact_text (string drawn.now.name.now)
        ++ (own_text drawn.now.own ++ drop buffer.old.tail buffer.old.bytes)))) }
    ensures front { StartsWith text.new.items text.old.items }
    ensures kept { drop buffer.old.tail buffer.new.bytes ≡ drop buffer.old.tail buffer.old.bytes }
    ensures same { buffer.new ≡ record buffer.old { bytes = buffer.new.bytes } }
{
    if is_short_and_plain(drawn.name) {
        let at = put_front(&mut buffer.bytes, buffer.tail, opening, drawn, buffer.left);
        return text.extend_from_slice(&buffer.bytes[at..]);
    }
    append_before_name(text, opening, drawn.depth, buffer.left)?;
    append_quoted(alloc, text, drawn.name)?;
    let at = put_own(&mut buffer.bytes, buffer.tail, drawn.own);
    text.extend_from_slice(&buffer.bytes[at..])
}

// Whether a name fits on the buffer as it is.
fn is_short_and_plain(name: &str) -> bool
    ensures short { OnTrue result (length name.now ≤ 256) }
    ensures plain { OnTrue result (All IsPlainByte name.now) }
{
    name.len() <= 256 && is_plain(name.as_bytes())
}

// Appends what stands before a name, at once.
fn append_before_name(
    text: &mut Vec<u8>,
    opening: u8,
    depth: u32,
    left: u32,
) -> Result<(), AllocError>
    ensures ok { OnOk result (text.new.items ≡ text.old.items ++ before_name opening depth left) }
    ensures front { StartsWith text.new.items text.old.items }
{
    let mut bytes = [0; 80];
    let at = put_before_name(&mut bytes, 80, opening, depth, left);
    text.extend_from_slice(&bytes[at..])
}

// Puts a byte and what stands before the edges of a box with a plain name of up to 256 bytes before what
// stands from `tail` on, and answers where it begins.
fn put_front(
    bytes: &mut [u8; 448],
    tail: usize,
    opening: u8,
    drawn: &DrawnBox<'_>,
    left: u32,
) -> usize
    requires low { 359 ≤ tail }
    requires high { tail ≤ 448 }
    requires short { length drawn.now.name.now ≤ 256 }
    requires plain { All IsPlainByte drawn.now.name.now }
    ensures text { drop result bytes.new ≡ before_name opening drawn.now.depth left
        ++ (compact_text (string drawn.now.name.now)
        ++ (own_text drawn.now.own ++ drop tail bytes.old)) }
    ensures kept { drop tail bytes.new ≡ drop tail bytes.old }
    ensures within { result ≤ tail }
{
    let at = put_number(bytes, tail, b",\"own\":", drawn.own);
    let at = put_quoted(bytes, at, drawn.name.as_bytes());
    put_before_name(bytes, at, opening, drawn.depth, left)
}

// Puts the own weight of a box before what stands from `tail` on, and answers where it begins.
fn put_own(bytes: &mut [u8; 448], tail: usize, own: u64) -> usize
    requires low { 359 ≤ tail }
    requires high { tail ≤ 448 }
    ensures text { drop result bytes.new ≡ own_text own ++ drop tail bytes.old }
    ensures kept { drop tail bytes.new ≡ drop tail bytes.old }
    ensures within { result ≤ tail }
{
    put_number(bytes, tail, b",\"own\":", own)
}

// Puts a plain text in quotes before what stands from `end` on, and answers where it begins.
fn put_quoted(bytes: &mut [u8], end: usize, text: &[u8]) -> usize
    requires plain { All IsPlainByte text.now }
    requires room { length text.now + 2 ≤ end }
    requires within { end ≤ length bytes.old }
    ensures text { drop result bytes.new ≡ compact_text (string text.now) ++ drop end bytes.old }
    ensures start { result + (length text.now + 2) ≡ end }
{
    let at = put_piece(bytes, end, b"\"");
    let at = put_piece(bytes, at, text);
    put_piece(bytes, at, b"\"")
}

// Puts what stands before a name before what stands from `end` on, and answers where it begins.
fn put_before_name(bytes: &mut [u8], end: usize, opening: u8, depth: u32, left: u32) -> usize
    requires room { 65 ≤ end }
    requires within { end ≤ length bytes.old }
    ensures text { drop result bytes.new ≡ before_name opening depth left ++ drop end bytes.old }
    ensures within { result ≤ end }
{
    let at = put_piece(bytes, end, b",\"name\":");
    let at = put_number(bytes, at, b",\"left\":", u64::from(left));
    let at = put_number(bytes, at, b"\"depth\":", u64::from(depth));
    put_piece(bytes, at, &[opening])
}

// Puts what stands behind the own weight of a box before what stands from `end` on, and answers where it begins.
fn put_edges(bytes: &mut [u8], end: usize, right: u32, start: u64, weight: u64) -> usize
    requires room { 89 ≤ end }
    requires within { end ≤ length bytes.old }
    ensures text { drop result bytes.new ≡ edge_text right start weight ++ drop end bytes.old }
    ensures start { end ≤ result + 89 }
    ensures within { result ≤ end }
{
    let at = put_piece(bytes, end, b"}");
    let at = put_number(bytes, at, b",\"weight\":", weight);
    let at = put_number(bytes, at, b",\"start\":", start);
    put_number(bytes, at, b",\"right\":", u64::from(right))
}
