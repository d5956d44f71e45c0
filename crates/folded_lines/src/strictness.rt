//! What is wrong with a text where each of its lines has to be a stack and a count.

ghost use Rattle.std.specs.Prelude.{◌≡◌, ◌<◌, ◌≤◌, ℕ, drop, is_some, length};
ghost use Rattle.folded_lines.specs.Lines.{read_line};
ghost use Rattle.folded_lines.specs.Reading.{is_ignored, read_folded};
ghost use Rattle.folded_lines.specs.StrictReading.{strict_fault, strict_kind_text};
ghost use Rattle.folded_lines.specs.StrictStreams.{IsTellable, strict_ending_fault};
ghost use Rattle.folded_lines.specs.checked.Strictness.{earlier, fault_of_counted, first_from, first_ignored, is_counted, lines_in};

use crate::columns::count_start;
use crate::cursor::first_line;
use stack_core::{ReadFault, ReadKind, SourceEnd};

/// What is wrong with a source that is read strictly.
#[derive(Clone, Copy, Debug, PartialEq, Eq)]
pub enum StrictKind {
    /// A folded line without a count at its end.
    NoCount,
    /// There is no sample.
    NoSamples,
    /// What is wrong with it however it is read.
    Read(ReadKind),
}

impl StrictKind {
    /// Its name, as messages have it.
    pub fn name(self) -> &'static str
        ensures { result.now ≡ strict_kind_text self }
    {
        match self {
            StrictKind::NoCount => "NoCount",
            StrictKind::NoSamples => "NoSamples",
            StrictKind::Read(kind) => kind.name(),
        }
    }
}

/// The first fault of a source that is read strictly.
#[derive(Clone, Copy, Debug, PartialEq, Eq)]
pub struct StrictFault {
    /// What is wrong.
    pub kind: StrictKind,
    /// Where, as `ReadFault` has it. Without samples it is the number of the last line, or the length of a profile.
    pub at: u64,
}

impl From<ReadFault> for StrictFault {
    ghost use Rattle.std.specs.Prelude.{◌≡◌};
    ghost use Rattle.folded_lines.specs.StrictReading.{strict_at};
    ghost use Rattle.folded_lines.specs.declared.strictness.StrictKind.TheVariants.{Read as IsRead};

    ghost from_gives = { λ fault found. found ≡ strict_at fault.at (IsRead fault.kind) };

    fn from(fault: ReadFault) -> StrictFault {
        StrictFault {
            kind: StrictKind::Read(fault.kind),
            at: fault.at,
        }
    }
}

fn has_no_count(line: &[u8]) -> bool
    ensures { result ≡ is_ignored (read_line line.now) }
{
    count_start(line).is_none()
}

/// Whether the line at a place has no count, and where the next one begins.
fn look_at(bytes: &[u8], position: usize) -> (bool, usize)
    requires { position < length bytes.now }
    ensures first { (before : ℕ) →
        first_ignored before (lines_in (drop position bytes.now)) ≡ first_from bytes.now result before }
    ensures nearer { position < result.1 }
    ensures within { result.1 ≤ length bytes.now }
{
    let (line, len) = first_line(&bytes[position..]);
    (has_no_count(line), position + len)
}

/// The number of the first line without a count, if there is one.
fn first_ignored(bytes: &[u8]) -> Option<u64>
    ensures { result ≡ first_ignored 0 (lines_in bytes.now) }
{
    let mut taken = 0;
    let mut position = 0;
    while position < bytes.len() {
        let (is_ignored, next) = look_at(bytes, position);
        taken += 1;
        if is_ignored {
            return Some(taken);
        }
        position = next;
    }
    None
}

/// The fault of the first line without a count, unless a text ends in one before it.
fn earlier(first: Option<u64>, ending: &SourceEnd) -> Option<StrictFault>
    ensures { result ≡ earlier first ending.now }
{
    match (first, ending) {
        (None, SourceEnd::Fault(fault)) => Some(StrictFault::from(*fault)),
        (Some(number), SourceEnd::Fault(fault)) if number >= fault.at => {
            Some(StrictFault::from(*fault))
        }
        (Some(at), _) => {
            let kind = StrictKind::NoCount;
            Some(StrictFault { kind, at })
        }
        (None, _) => None,
    }
}

/// What is wrong with a text of which each line has a count and that has no fault: that there is no line.
fn fault_of_counted(text: &[u8]) -> Option<StrictFault>
    ensures { result ≡ fault_of_counted text.now }
{
    if text.is_empty() {
        let kind = StrictKind::NoSamples;
        Some(StrictFault { kind, at: 0 })
    } else {
        None
    }
}

/// Whether all lines were read, and each has a count.
fn is_counted(ending: &SourceEnd) -> bool
    ensures { result ≡ is_counted ending.now }
{
    match ending {
        SourceEnd::Clean { ignored } => *ignored == 0,
        SourceEnd::Fault(_) | SourceEnd::Stopped { after: _ } => false,
    }
}

/// What is wrong with a text where each of its lines has to be a stack and a count, and one has to be there: the first thing in it. It comes
/// with the ending to which it reads. Its lines are looked at again only where one is ignored, or has a fault.
pub fn strict_fault(text: &[u8], ending: &SourceEnd) -> Option<StrictFault>
    ensures { ending.now ≡ (read_folded text.now).ending → result ≡ strict_fault text.now }
{
    if is_counted(ending) {
        return fault_of_counted(text);
    }
    earlier(first_ignored(text), ending)
}

/// What is wrong with a stream that was read strictly, by how many samples it gave and by its ending: the line behind its last sample that is
/// ignored, its fault, or that it gave nothing. Where it was stopped, nothing is.
pub fn strict_ending_fault(samples: u64, ending: &SourceEnd) -> Option<StrictFault>
    ensures fault { IsTellable samples ending.now → result ≡ strict_ending_fault samples ending.now }
    ensures some { is_some result ≡ is_some (strict_ending_fault samples ending.now) }
{
    let (kind, at) = match ending {
        SourceEnd::Fault(fault) => return Some(StrictFault::from(*fault)),
        SourceEnd::Stopped { after: _ } => return None,
        SourceEnd::Clean { ignored } if *ignored != 0 => {
            (StrictKind::NoCount, samples.saturating_add(1))
        }
        SourceEnd::Clean { ignored: _ } if samples != 0 => return None,
        SourceEnd::Clean { ignored: _ } => (StrictKind::NoSamples, 0),
    };
    Some(StrictFault { kind, at })
}
