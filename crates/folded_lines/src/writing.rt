//! Folded lines, written.

ghost use Rattle.std.specs.Prelude.{◌≡◌, [], ◌∷◌, ◌++◌, map, string_bytes, OnOk, OnErr, IfOk};
ghost use Rattle.std.specs.List.{join_with_byte};
ghost use Rattle.folded_lines.specs.Writing.{column_of, line_of, pair_line_of};

use std::alloc::{AllocError, Global};

/// The names, joined by `;`.
fn joined(alloc: Global, stack: &[String]) -> Result<Vec<u8>, AllocError>
    ensures { IfOk result (λ text. text.items ≡ join_with_byte 59 (map string_bytes stack.now)) }
{
    let mut text = Vec::new(alloc);
    for (i, name) in stack.iter().enumerate() {
        if i > 0 {
            text.push(b';')?;
        }
        text.extend_from_slice(name.as_bytes())?;
    }
    Ok(text)
}

/// Appends a space and the weight.
fn append_column(alloc: Global, text: &mut Vec<u8>, weight: u64) -> Result<(), AllocError>
    ensures { OnOk result (text.new.items ≡ text.old.items ++ column_of weight) }
{
    text.push(b' ')?;
    let digits = weight.to_string(alloc)?;
    text.extend_from_slice(digits.as_bytes())
}

/// Appends the folded line of a stack: the names joined by `;`, one space, the decimal weight and LF.
/// Where memory is wanting nothing is appended.
pub fn append_line(
    alloc: Global,
    out: &mut Vec<u8>,
    stack: &[String],
    weight: u64,
) -> Result<(), AllocError>
    ensures ok { OnOk result (out.new.items
        ≡ out.old.items ++ line_of (map string_bytes stack.now) weight) }
    ensures refused { OnErr result (out.new.items ≡ out.old.items) }
{
    let mut line = joined(alloc, stack)?;
    append_column(alloc, &mut line, weight)?;
    line.push(b'\n')?;
    out.extend_from_slice(&line)
}

/// The same with two weights, each after one space, as `difffolded.pl` of the FlameGraph tools writes them.
pub fn append_pair_line(
    alloc: Global,
    out: &mut Vec<u8>,
    stack: &[String],
    before: u64,
    after: u64,
) -> Result<(), AllocError>
    ensures ok { OnOk result (out.new.items
        ≡ out.old.items ++ pair_line_of (map string_bytes stack.now) before after) }
    ensures refused { OnErr result (out.new.items ≡ out.old.items) }
{
    let mut line = joined(alloc, stack)?;
    append_column(alloc, &mut line, before)?;
    append_column(alloc, &mut line, after)?;
    line.push(b'\n')?;
    out.extend_from_slice(&line)
}
