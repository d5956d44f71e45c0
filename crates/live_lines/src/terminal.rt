//! Texts for a terminal, on which no name acts.

ghost use Rattle.std.specs.Prelude.{◌≡◌, ◌++◌, OnOk};
ghost use Rattle.live_lines.specs.Terminal.{plain_byte, plain_text};

use std::alloc::AllocError;

/// Appends a text, with a mark in the place of each control character but the line feed.
pub(crate) fn append_plain(out: &mut Vec<u8>, text: &[u8]) -> Result<(), AllocError>
    ensures { OnOk result (out.new.items ≡ out.old.items ++ plain_text 0 text.now) }
{
    let mut before = 0;
    for byte in text {
        out.push(plain_byte(before, *byte))?;
        before = *byte;
    }
    Ok(())
}

// What is shown of a byte behind another.
fn plain_byte(before: u8, byte: u8) -> u8
    ensures { result ≡ plain_byte before byte }
{
    if byte == 10 {
        10
    } else if byte < 32 || byte == 127 {
        b'?'
    } else if before == 194 && byte >= 128 && byte < 160 {
        191
    } else {
        byte
    }
}
