//! Texts that can stand in a script element.
ghost use Rattle.std.specs.Prelude.{◌≡◌, ◌<◌, ◌≤◌, ◌++◌, length, drop, slice_index, IsTrue, OnOk};
ghost use Rattle.page_texts.specs.ScriptSafe.{begins_separator, escaped, script_safe};

use std::alloc::AllocError;

// Appends a text, with escapes for what could end the element.
pub(crate) fn append_script_safe(out: &mut Vec<u8>, text: &[u8]) -> Result<(), AllocError>
    ensures { OnOk result (out.new.items ≡ out.old.items ++ script_safe text.now) }
{
    let mut at = 0;
    while at < text.len() {
        let (written, taken) = first_safe(&text[at..]);
        out.extend_from_slice(written)?;
        at += taken;
    }
    Ok(())
}

// How the first character of a text is written, and how many bytes of the text it is. A character
// without an escape is taken byte by byte.
fn first_safe(text: &[u8]) -> (&[u8], usize)
    requires { 0 < length text.now }
    ensures written { script_safe text.now ≡ result.0.now ++ script_safe (drop result.1 text.now) }
    ensures some { 0 < result.1 }
    ensures within { result.1 ≤ length text.now }
{
    if !is_separator(text) {
        (first_byte(text), 1)
    } else if text[2] == 0xa8 {
        (b"\\u2028", 3)
    } else {
        (b"\\u2029", 3)
    }
}

// Whether a text begins with U+2028 or U+2029.
fn is_separator(text: &[u8]) -> bool
    ensures is { result ≡ begins_separator (slice_index text.now 0) (drop 1 text.now) }
    ensures long { IsTrue result → 3 ≤ length text.now }
{
    text.len() >= 3 && text[0] == 0xe2 && text[1] == 0x80 && (text[2] == 0xa8 || text[2] == 0xa9)
}

// How the first byte of a text is written.
fn first_byte(text: &[u8]) -> &[u8]
    requires { 0 < length text.now }
    ensures { result.now ≡ escaped (slice_index text.now 0) }
{
    match text[0] {
        b'<' => b"\\u003c",
        b'>' => b"\\u003e",
        b'&' => b"\\u0026",
        _ => &text[..1],
    }
}
