//! The names of a folded head by their numbers in a table.

ghost use Rattle.std.specs.Prelude.{All, ◌≡◌, ◌<◌, ◌≤◌, ◌++◌, length, drop, IfOk, IfSome, OnOk};
ghost use Rattle.std.specs.List.{slice_split};
ghost use Rattle.std.specs.String.{string_bytes};
ghost use Rattle.stack_core.specs.Prefixes.{IsPrefixOf};
ghost use Rattle.stack_core.specs.Records.{names_at};
ghost use Rattle.folded_lines.specs.Lines.{is_semicolon, names_of};
ghost use Rattle.folded_lines.specs.checked.Sharing.{IsNamedBy};
ghost use Rattle.folded_lines.specs.checked.Telling.{IsNumbered};

use crate::names::{first_name, without_trailing_semicolons};
use crate::shared_names::{NumberedHead, begin_alike};
use bstr::ByteSlice;
use call_tree::FrameTable;
use stack_core::{Listed, Text};
use std::alloc::{AllocError, Global};
use std::borrow::CowStr;

/// Puts the numbers of the names between the `;` behind others.
fn number_parts(
    table: &mut FrameTable,
    frames: &mut Vec<usize>,
    head: &str,
) -> Result<(), AllocError>
    requires { All (λ k. k < length table.old) frames.old.items }
    ensures ok { OnOk result
        (IsNumbered (names_at table.old frames.old.items ++ slice_split is_semicolon head.now)
        table.old table.new frames.new.items) }
    ensures grows { IsPrefixOf table.old table.new }
{
    let mut rest = Some(head);
    while let Some(text) = rest {
        let (name, after) = first_name(text);
        let number = table.intern(name)?;
        frames.push(number)?;
        rest = after;
    }
    Ok(())
}

/// The text of a head that is not UTF-8. It has the names of the head.
pub(crate) fn text_of(alloc: Global, head: &[u8]) -> Result<Option<String>, AllocError>
    ensures { IfOk result (λ text. IfSome text
        (λ text. names_of (string_bytes text) ≡ names_of head.now)) }
{
    match without_trailing_semicolons(head).to_str_lossy(alloc)? {
        CowStr::Borrowed(_) => Ok(None),
        CowStr::Owned(text) => Ok(Some(text)),
    }
}

/// Puts the numbers of a head's names in the place of others. New names are put into the table. Those that it shares with the head before
/// are not looked for.
pub(crate) fn number_names(
    alloc: Global,
    table: &mut FrameTable,
    frames: &mut Vec<usize>,
    last: NumberedHead<'_>,
    head: &[u8],
) -> Result<(), AllocError>
    requires { IsNamedBy table.old last.head.now last.numbers.now }
    ensures ok { OnOk result
        (IsNumbered (names_of head.now) table.old table.new frames.new.items) }
    ensures grows { IsPrefixOf table.old table.new }
{
    frames.clear();
    let head = without_trailing_semicolons(head);
    if head.is_empty() {
        return Ok(());
    }
    let Some(rest) = begin_alike(frames, last, head)? else {
        return Ok(());
    };
    // A `;` is never part of what U+FFFD stands for, so what is left is made text whole.
    let text = rest.to_str_lossy(alloc)?;
    number_parts(table, frames, text.as_str())
}

/// A stack that is told: those of its names that are new, and the numbers of all.
#[derive(Drop)]
pub(crate) struct NewStack {
    pub(crate) names: Listed<Text>,
    pub(crate) frames: Listed<usize>,
}

/// Copies of the names from a number on.
fn names_from(alloc: Global, table: &FrameTable, first: usize) -> Result<Listed<Text>, AllocError>
    requires { first ≤ length table.now }
    ensures { IfOk result (λ names. names ≡ drop first table.now) }
{
    let mut names = Vec::with_capacity(alloc, table.len() - first)?;
    for number in first..table.len() {
        names.push(Text::from_str(alloc, table.name(number))?)?;
    }
    Ok(Listed::of(names))
}

/// The stack of a head, whose new names are put into the table. The numbers of its names take the place of others.
pub(crate) fn new_stack(
    alloc: Global,
    table: &mut FrameTable,
    numbers: &mut Vec<usize>,
    last: NumberedHead<'_>,
    head: &[u8],
) -> Result<NewStack, AllocError>
    requires { IsNamedBy table.old last.head.now last.numbers.now }
    ensures numbered { IfOk result (λ stack.
        IsNumbered (names_of head.now) table.old table.new stack.frames) }
    ensures names { IfOk result (λ stack. table.new ≡ table.old ++ stack.names) }
    ensures grows { IsPrefixOf table.old table.new }
{
    let told = table.len();
    number_names(alloc, table, numbers, last, head)?;
    let names = names_from(alloc, table, told)?;
    let frames = Listed::of(Vec::from_slice(alloc, numbers.as_slice())?);
    Ok(NewStack { names, frames })
}
