//! A folded line, read by a reader of rows.

ghost use Rattle.std.specs.Prelude.{◌≡◌, ◌<◌, length, count_by, IsTrue, ◌↔◌};
ghost use Rattle.folded_lines.specs.Lines.{is_semicolon, names_of};
ghost use Rattle.folded_lines.specs.checked.Telling.{head_fault};
ghost use Rattle.folded_lines.specs.checked.RowLines.{IsCountOf};

use crate::columns::{count_start, ends_in_number, has_point, weight_of};
use crate::names::without_trailing_semicolons;
use stack_core::{FRAME_LIMIT, Listed, ReadKind, Text};

/// What a line is to a reader of rows.
#[derive(Drop)]
pub(crate) enum RowLine {
    /// No count stands at its end.
    Ignored,
    /// It is refused.
    Fault(ReadKind),
    /// A stack that is told now, and a weight.
    New {
        names: Listed<Text>,
        frames: Listed<usize>,
        weight: u64,
    },
    /// A stack that was told, and a weight.
    Again {
        row: usize,
        weight: u64,
    },
}

/// What stands at the end of a line.
#[derive(Clone, Copy)]
pub(crate) enum Count {
    /// No count.
    Ignored,
    /// A count that is refused.
    Fault(ReadKind),
    /// A weight, behind a head of this length. A weight that is refused may be given as a smaller one.
    Weight { head: usize, weight: u64 },
}

/// What stands at the end of a line.
pub(crate) fn count_of(line: &[u8]) -> Count
    ensures { IsCountOf line.now result }
{
    let Some(at) = count_start(line) else {
        return Count::Ignored;
    };
    let count = &line[at..];
    if has_point(count) {
        return Count::Fault(ReadKind::DecimalWeight);
    }
    Count::Weight {
        head: at - 1,
        weight: weight_of(count),
    }
}

fn semicolons(text: &[u8]) -> usize
    ensures { result ≡ count_by is_semicolon text.now }
{
    text.iter().filter(|b| **b == b';').count()
}

/// Whether a head has more names than a stack may have.
fn is_deep(head: &[u8]) -> bool
    ensures { IsTrue result ↔ (FRAME_LIMIT < length (names_of head.now)) }
{
    let head = without_trailing_semicolons(head);
    head.len() >= FRAME_LIMIT && semicolons(head) >= FRAME_LIMIT
}

/// What is wrong with a head, whatever its count.
pub(crate) fn fault_of(head: &[u8]) -> Option<ReadKind>
    ensures { result ≡ head_fault head.now }
{
    if ends_in_number(head) {
        return Some(ReadKind::TwoColumns);
    }
    is_deep(head).then_some(ReadKind::TooDeep)
}
