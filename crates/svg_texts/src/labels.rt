//! What stands on a box.
ghost use Rattle.std.specs.Prelude.{◌≡◌, ◌-◌, ◌≤◌, ◌++◌, ◌<◌, ◌^◌, nat_le, Some, None, OnOk, if◌then◌else◌};
ghost use Rattle.std.specs.Io.{StartsWith};
ghost use Rattle.svg_texts.specs.Labels.{change_label, change_within, count_characters, cut, front, label, places, places_of, room_on};
ghost use Rattle.svg_texts.specs.Shown.{visible, visible_character, xml_text};

use crate::changes::{Compared, append_said_change};
use crate::shown_texts::{append_shown, append_xml, is_unseen, number_text};
use std::alloc::AllocError;

// What an ellipsis is in UTF-8.
const ELLIPSIS: [u8; 3] = [0xe2, 0x80, 0xa6];

// How many characters have room on so many pixels.
pub(crate) fn room_on(pixels: u64) -> usize
    requires { pixels < 2 ^ 32 }
    ensures { result ≡ room_on pixels }
{
    (pixels.saturating_sub(8) * 5 / 36) as usize
}

// Appends what stands on a box with room for so many characters: its name, and where there is room, how it changed.
pub(crate) fn append_label(
    out: &mut Vec<u8>,
    room: usize,
    name: &str,
    change: Option<Compared>,
) -> Result<(), AllocError>
    ensures ok { OnOk result (out.new.items ≡ out.old.items ++ label room name.now change) }
    ensures front { StartsWith out.new.items out.old.items }
{
    if room < 2 || name.is_empty() {
        return Ok(());
    }
    match room_behind(room, name) {
        Some(rest) => {
            append_shown(out, name)?;
            append_change_label(out, rest, change)
        }
        None => append_cut(out, room - 1, name),
    }
}

// The room that is left behind a name, or `None` where it has no room.
fn room_behind(room: usize, name: &str) -> Option<usize>
    ensures { result ≡ (if nat_le (places_of (visible name.now)) room
        then Some (room - places_of (visible name.now)) else None) }
{
    let mut rest = room;
    for character in name.chars() {
        rest = rest.checked_sub(visible_places(character))?;
    }
    Some(rest)
}

// The room that what stands for a character takes.
fn visible_places(character: char) -> usize
    ensures { result ≡ places_of (visible_character character) }
{
    if is_unseen(character) {
        8
    } else {
        places(character)
    }
}

fn places(character: char) -> usize
    ensures { result ≡ places character }
{
    if character < '\u{1100}' { 1 } else { 2 }
}

// Appends a space and a change, where they have room.
fn append_change_label(
    out: &mut Vec<u8>,
    room: usize,
    change: Option<Compared>,
) -> Result<(), AllocError>
    ensures ok { OnOk result (out.new.items ≡ out.old.items ++ change_label room change) }
    ensures front { StartsWith out.new.items out.old.items }
{
    let Some(compared) = change else {
        return Ok(());
    };
    let start = out.len();
    out.push(b' ')?;
    append_said_change(out, compared)?;
    if count_characters(&out[start..]) > room {
        out.truncate(start);
    }
    Ok(())
}

fn count_characters(text: &[u8]) -> usize
    ensures { result ≡ count_characters text.now }
{
    text.iter()
        .filter(|byte| !(128..=191).contains(*byte))
        .count()
}

// Appends the front of a name that has room, and an ellipsis behind it if it is not empty.
fn append_cut(out: &mut Vec<u8>, room: usize, name: &str) -> Result<(), AllocError>
    ensures ok { OnOk result (out.new.items ≡ out.old.items ++ xml_text (cut (front room (visible name.now)))) }
    ensures front { StartsWith out.new.items out.old.items }
{
    let start = out.len();
    append_front(out, room, name)?;
    if out.len() > start {
        out.extend_from_slice(&ELLIPSIS)?;
    }
    Ok(())
}

// Appends the front of a name that has room.
fn append_front(out: &mut Vec<u8>, room: usize, name: &str) -> Result<(), AllocError>
    ensures ok { OnOk result (out.new.items ≡ out.old.items ++ xml_text (front room (visible name.now))) }
    ensures front { StartsWith out.new.items out.old.items }
{
    let mut rest = room;
    for character in name.chars() {
        append_front_of(out, rest, character)?;
        let Some(left) = rest.checked_sub(visible_places(character)) else {
            return Ok(());
        };
        rest = left;
    }
    Ok(())
}

// Appends the front of what stands for a character that has room.
fn append_front_of(out: &mut Vec<u8>, room: usize, character: char) -> Result<(), AllocError>
    ensures ok { OnOk result (out.new.items ≡ out.old.items ++ xml_text (front room (visible_character character))) }
    ensures front { StartsWith out.new.items out.old.items }
{
    if is_unseen(character) {
        out.extend_from_slice(&number_text(character)[..room.min(8)])
    } else if places(character) <= room {
        append_xml(out, character)
    } else {
        Ok(())
    }
}
