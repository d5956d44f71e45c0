//! The names of frames.

ghost use Rattle.std.specs.Prelude.{◌≡◌, ◌++◌, IfOk, string_bytes};
ghost use Rattle.profile_tables.specs.Naming.{plain_char as plain, plain_text as plain_bytes, address_frame as address_bytes, line_suffix};
ghost use Rattle.profile_tables.specs.checked.Functions.{name_or_unknown as name_of};

use bstr::ByteSlice;
use run_options::Naming;
use std::alloc::{AllocError, Global};

/// A character of a frame's name: `;` separates the names of a folded line, and line feed ends it.
fn plain_char(char: char) -> char
    ensures { result ≡ plain char }
{
    match char {
        ';' => ':',
        '\n' => ' ',
        char => char,
    }
}

/// The text of some bytes, with U+FFFD for what is none.
fn plain_text(alloc: Global, bytes: &[u8]) -> Result<String, AllocError>
    ensures { IfOk result (λ text. string_bytes text ≡ plain_bytes bytes.now) }
{
    bytes.chars().map(|char| plain_char(char)).collect(alloc)
}

/// The name of a function whose name or system name is this string.
pub(crate) fn function_name(alloc: Global, string: &[u8]) -> Result<String, AllocError>
    ensures { IfOk result (λ name. string_bytes name ≡ name_of string.now) }
{
    let name = plain_text(alloc, string)?;
    if name.is_empty() {
        return String::from_str(alloc, "[unknown]");
    }
    Ok(name)
}

/// The name of a frame without a function.
pub(crate) fn address_frame(alloc: Global, address: u64) -> Result<String, AllocError>
    ensures { IfOk result (λ text. string_bytes text ≡ address_bytes address) }
{
    format!(in alloc; "0x{address:x}")
}

/// Appends the line, seen as its 64 bits, where lines are asked for and it is above 0.
pub(crate) fn append_line(text: &mut String, naming: Naming, line: u64) -> Result<(), AllocError>
    ensures { IfOk result (λ _.
        string_bytes text.new ≡ string_bytes text.old ++ line_suffix naming line) }
{
    match naming {
        Naming::Lines if 0 < line && line < 1 << 63 => write!(text, ":{line}"),
        _ => Ok(()),
    }
}
