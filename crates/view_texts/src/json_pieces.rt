//! Numbers, texts and lists of numbers in JSON.

ghost use Rattle.std.specs.Prelude.{◌≡◌, ◌++◌, map, decimal, OnOk};
ghost use Rattle.std.specs.Io.{StartsWith};
ghost use Rattle.serde_json.specs.Data.{string};
ghost use Rattle.serde_json.specs.Written.{comma_if, compact_text};
ghost use Rattle.view_texts.specs.Json.{whole_number, list_data};

use crate::plain_texts::is_plain;
use itoa::Buffer;
use std::alloc::{AllocError, Global};

/// What stands before a value of a list.
pub fn comma_if(later: bool) -> &'static [u8]
    ensures { result.now ≡ comma_if later }
{
    if later { b"," } else { b"" }
}

// Appends a comma where another value stands before.
pub(crate) fn append_comma(out: &mut Vec<u8>, later: bool) -> Result<(), AllocError>
    ensures ok { OnOk result (out.new.items ≡ out.old.items ++ comma_if later) }
    ensures front { StartsWith out.new.items out.old.items }
{
    if later {
        out.push(b',')?;
    }
    Ok(())
}

/// Appends a literal piece and a number. It is inlined so that the length of the piece is known.
#[inline(always)]
pub fn append_number(out: &mut Vec<u8>, piece: &[u8], number: u64) -> Result<(), AllocError>
    ensures ok { OnOk result (out.new.items ≡ out.old.items ++ (piece.now ++ decimal number)) }
    ensures front { StartsWith out.new.items out.old.items }
{
    out.extend_from_slice(piece)?;
    let mut digits = Buffer::new();
    out.extend_from_slice(digits.format(number).as_bytes())
}

/// Appends a literal piece and a text in quotes, with its escapes.
pub fn append_text(
    alloc: Global,
    out: &mut Vec<u8>,
    piece: &[u8],
    text: &str,
) -> Result<(), AllocError>
    ensures ok { OnOk result
        (out.new.items ≡ out.old.items ++ (piece.now ++ compact_text (string text.now))) }
    ensures front { StartsWith out.new.items out.old.items }
{
    out.extend_from_slice(piece)?;
    append_quoted(alloc, out, text)
}

// Appends a text in quotes, with its escapes.
pub(crate) fn append_quoted(alloc: Global, out: &mut Vec<u8>, text: &str) -> Result<(), AllocError>
    ensures ok { OnOk result (out.new.items ≡ out.old.items ++ compact_text (string text.now)) }
    ensures front { StartsWith out.new.items out.old.items }
{
    if is_plain(text.as_bytes()) {
        out.push(b'"')?;
        out.extend_from_slice(text.as_bytes())?;
        out.push(b'"')?;
        return Ok(());
    }
    match serde_json::to_vec(alloc, &text) {
        Ok(quoted) => out.extend_from_slice(&quoted),
        // A text is refused for want of memory alone.
        Err(_) => Err(AllocError),
    }
}

// Appends a literal piece and a list of numbers.
pub(crate) fn append_numbers(
    out: &mut Vec<u8>,
    piece: &[u8],
    numbers: &[u64],
) -> Result<(), AllocError>
    ensures ok { OnOk result (out.new.items
        ≡ out.old.items ++ (piece.now ++ compact_text (list_data (map whole_number numbers.now)))) }
    ensures front { StartsWith out.new.items out.old.items }
{
    out.extend_from_slice(piece)?;
    out.push(b'[')?;
    for (i, number) in numbers.iter().enumerate() {
        append_number(out, comma_if(i > 0), *number)?;
    }
    out.push(b']')?;
    Ok(())
}
