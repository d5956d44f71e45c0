//! What is shown of names, titles and units.
ghost use Rattle.std.specs.Prelude.{◌≡◌, ◌<◌, ◌++◌, OnOk, IfOk};
ghost use Rattle.std.specs.Io.{StartsWith};
ghost use Rattle.std.specs.String.{string_bytes};
ghost use Rattle.svg_texts.specs.Shown.{is_unseen, hexadecimal, number_text, visible_character, xml_character, xml_text, shown};

use std::alloc::{AllocError, Global};

// What is shown of a text.
pub(crate) fn shown_text(alloc: Global, text: &str) -> Result<String, AllocError>
    ensures { IfOk result (λ copy. string_bytes copy ≡ shown text.now) }
{
    let mut bytes = Vec::new(alloc);
    append_shown(&mut bytes, text)?;
    Ok(String::from_utf8(bytes).unwrap())
}

// Appends what is shown of a text, or its front.
pub(crate) fn append_shown(out: &mut Vec<u8>, text: &str) -> Result<(), AllocError>
    ensures ok { OnOk result (out.new.items ≡ out.old.items ++ shown text.now) }
    ensures front { StartsWith out.new.items out.old.items }
{
    for character in text.chars() {
        append_visible(out, character)?;
    }
    Ok(())
}

// Appends what stands for a character, or its front.
fn append_visible(out: &mut Vec<u8>, character: char) -> Result<(), AllocError>
    ensures ok { OnOk result
        (out.new.items ≡ out.old.items ++ xml_text (visible_character character)) }
    ensures front { StartsWith out.new.items out.old.items }
{
    if is_unseen(character) {
        out.extend_from_slice(&number_text(character))
    } else {
        append_xml(out, character)
    }
}

// Appends a character as XML writes it.
pub(crate) fn append_xml(out: &mut Vec<u8>, character: char) -> Result<(), AllocError>
    ensures ok { OnOk result (out.new.items ≡ out.old.items ++ xml_character character) }
    ensures front { StartsWith out.new.items out.old.items }
{
    match character {
        '&' => out.extend_from_slice(b"&amp;"),
        '<' => out.extend_from_slice(b"&lt;"),
        '>' => out.extend_from_slice(b"&gt;"),
        '"' => out.extend_from_slice(b"&quot;"),
        '\'' => out.extend_from_slice(b"&#39;"),
        _ => {
            let mut bytes = [0; 4];
            out.extend_from_slice(character.encode_utf8(&mut bytes).as_bytes())
        }
    }
}

// Whether a character is not seen.
pub(crate) fn is_unseen(character: char) -> bool
    ensures { result ≡ is_unseen character }
{
    matches!(
        character,
        '\u{0}'..='\u{1f}'
            | '\u{7f}'..='\u{9f}'
            | '\u{ad}'
            | '\u{61c}'
            | '\u{180e}'
            | '\u{200b}'
            | '\u{200e}'..='\u{200f}'
            | '\u{2028}'..='\u{202e}'
            | '\u{2060}'..='\u{206f}'
            | '\u{feff}'
            | '\u{fff9}'..='\u{fffb}'
            | '\u{fffe}'..='\u{ffff}'
    )
}

// `[U+XXXX]`, with the number of a character.
pub(crate) fn number_text(character: char) -> [u8; 8]
    ensures { result ≡ number_text character }
{
    let code = character as u32;
    [
        b'[',
        b'U',
        b'+',
        hexadecimal(code / 4096 % 16),
        hexadecimal(code / 256 % 16),
        hexadecimal(code / 16 % 16),
        hexadecimal(code % 16),
        b']',
    ]
}

fn hexadecimal(digit: u32) -> u8
    requires { digit < 16 }
    ensures { result ≡ hexadecimal digit }
{
    if digit < 10 {
        b'0' + digit as u8
    } else {
        b'A' - 10 + digit as u8
    }
}
