//! The entries of a table, each at the right of its column.

ghost use Rattle.std.specs.Prelude.{◌≡◌, ◌+◌, ◌≤◌, ◌++◌, [], replicate, option_map, unwrap_or, IfOk, OnOk};
ghost use Rattle.std.specs.Io.{StartsWith};
ghost use Rattle.function_sums.specs.ChangeTable.{points, sign, signed};
ghost use Rattle.function_sums.specs.Columns.{at_right, at_right_if, characters, goes_on};
ghost use Rattle.function_sums.specs.Told.{said, told_of};
ghost use Rattle.function_sums.specs.checked.Entries.{entry_text};

use crate::changes::Change;
use crate::telling::Telling;
use itoa::Buffer;
use std::alloc::{AllocError, Global};
use view_texts::{Part, append_points, append_share, append_weight};

// How weights are said.
#[derive(Clone, Copy, Debug)]
pub(crate) struct Saying<'a> {
    pub(crate) unit: &'a str,
    pub(crate) is_exact: bool,
}

// An entry of a table.
#[derive(Clone, Copy, Debug)]
pub(crate) enum Entry {
    Heading(&'static str),
    Weight(u64),
    // What part of the whole a weight is.
    Part { weight: u64, whole: u64 },
    // How much more or less there is after than before.
    Change(Change),
    // How much more or less of the whole it is after than before.
    Points { change: Change, whole: Change },
}

impl<'a> Saying<'a> {
    pub(crate) fn of(telling: &Telling<'a>, is_exact: bool) -> Saying<'a>
        ensures unit { result.unit.now ≡ (told_of telling.now).unit }
        ensures exact { result.is_exact ≡ is_exact }
    {
        Saying {
            unit: telling.unit,
            is_exact,
        }
    }

    // Appends a weight, or a front of it.
    pub(crate) fn append(&self, out: &mut Vec<u8>, weight: u64) -> Result<(), AllocError>
        ensures ok { OnOk result
            (out.new.items ≡ out.old.items ++ said self.now.is_exact self.now.unit.now weight) }
        ensures front { StartsWith out.new.items out.old.items }
    {
        if self.is_exact {
            let mut digits = Buffer::new();
            out.extend_from_slice(digits.format(weight).as_bytes())
        } else {
            append_weight(out, weight, self.unit)?;
            Ok(())
        }
    }

    // Appends a change with its sign, or a front of it.
    fn append_signed(&self, out: &mut Vec<u8>, change: Change) -> Result<(), AllocError>
        ensures ok { OnOk result
            (out.new.items ≡ out.old.items ++ signed self.now.is_exact self.now.unit.now change) }
        ensures front { StartsWith out.new.items out.old.items }
    {
        out.extend_from_slice(sign(change))?;
        self.append(out, change.before.abs_diff(change.after))
    }
}

impl Entry {
    // Appends the entry, or a front of it.
    fn append(self, out: &mut Vec<u8>, saying: &Saying<'_>) -> Result<(), AllocError>
        ensures ok { OnOk result (out.new.items
            ≡ out.old.items ++ entry_text saying.now.is_exact saying.now.unit.now self) }
        ensures front { StartsWith out.new.items out.old.items }
    {
        match self {
            Entry::Heading(text) => out.extend_from_slice(text.as_bytes()),
            Entry::Weight(weight) => saying.append(out, weight),
            Entry::Part { weight, whole } => {
                append_share(out, weight, whole)?;
                Ok(())
            }
            Entry::Change(change) => saying.append_signed(out, change),
            Entry::Points { change, whole } => append_points_of(out, change, whole),
        }
    }

    fn text(self, alloc: Global, saying: &Saying<'_>) -> Result<Vec<u8>, AllocError>
        ensures { IfOk result (λ text.
            text.items ≡ entry_text saying.now.is_exact saying.now.unit.now self) }
    {
        let mut text = Vec::new(alloc);
        self.append(&mut text, saying)?;
        Ok(text)
    }
}

/// Appends in percent points how much more or less of its side's whole a weight is after than before, or a
/// front of that.
pub fn append_points_of(out: &mut Vec<u8>, change: Change, whole: Change) -> Result<(), AllocError>
    ensures ok { OnOk result (out.new.items ≡ out.old.items ++ points whole change) }
    ensures front { StartsWith out.new.items out.old.items }
{
    let before = Part {
        weight: change.before,
        whole: whole.before,
    };
    let after = Part {
        weight: change.after,
        whole: whole.after,
    };
    append_points(out, before, after)?;
    Ok(())
}

fn sign(change: Change) -> &'static [u8]
    ensures { result.now ≡ sign change }
{
    if change.before < change.after {
        b"+"
    } else if change.after < change.before {
        b"-"
    } else {
        b""
    }
}

// How many characters an entry has; none where it is left out.
pub(crate) fn entry_width(
    alloc: Global,
    saying: &Saying<'_>,
    entry: Option<Entry>,
) -> Result<usize, AllocError>
    ensures { IfOk result (λ width. width ≡ characters
        (unwrap_or (option_map (entry_text saying.now.is_exact saying.now.unit.now) entry) [])) }
{
    match entry {
        Some(entry) => {
            let text = entry.text(alloc, saying)?;
            Ok(characters(&text))
        }
        None => Ok(0),
    }
}

// Appends an entry at the right of a column, unless it is left out.
pub(crate) fn append_entry(
    alloc: Global,
    out: &mut Vec<u8>,
    saying: &Saying<'_>,
    width: usize,
    entry: Option<Entry>,
) -> Result<(), AllocError>
    ensures ok { OnOk result (out.new.items ≡ out.old.items ++ at_right_if width
        (option_map (entry_text saying.now.is_exact saying.now.unit.now) entry)) }
    ensures front { StartsWith out.new.items out.old.items }
{
    match entry {
        Some(entry) => {
            let text = entry.text(alloc, saying)?;
            append_at_right(out, width, &text)
        }
        None => Ok(()),
    }
}

// Appends a text at the right of a column.
fn append_at_right(out: &mut Vec<u8>, width: usize, text: &[u8]) -> Result<(), AllocError>
    ensures ok { OnOk result (out.new.items ≡ out.old.items ++ at_right width text.now) }
    ensures front { StartsWith out.new.items out.old.items }
{
    append_spaces(out, width.saturating_sub(characters(text)))?;
    out.extend_from_slice(text)?;
    out.extend_from_slice(b"  ")
}

// How many characters a text has.
fn characters(text: &[u8]) -> usize
    ensures { result ≡ characters text.now }
{
    let mut count = 0;
    for byte in text {
        if !goes_on(*byte) {
            count += 1;
        }
    }
    count
}

// Whether the byte goes on a character.
fn goes_on(byte: u8) -> bool
    ensures { result ≡ goes_on byte }
{
    128 <= byte && byte < 192
}

// Appends spaces, so many.
fn append_spaces(out: &mut Vec<u8>, count: usize) -> Result<(), AllocError>
    ensures ok { OnOk result (out.new.items ≡ out.old.items ++ replicate count 32) }
    ensures front { StartsWith out.new.items out.old.items }
{
    for _ in 0..count {
        out.push(b' ')?;
    }
    Ok(())
}
