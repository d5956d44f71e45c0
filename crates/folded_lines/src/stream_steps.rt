//! The lines of a stream, one after another, for a reader of rows.

ghost use Rattle.std.specs.Prelude.{◌≡◌, ◌≢◌, ◌+◌, ◌<◌, ◌≤◌, ◌^◌, IfOk, OnOk, OnErr};
ghost use Rattle.sample_tables.specs.Rows.{ToldRows};
ghost use Rattle.stack_core.specs.Prefixes.{IsPrefixOf};
ghost use Rattle.stack_core.specs.Reading.{Rest};
ghost use Rattle.stack_core.specs.RowReading.{GivesSuch, StepsAmong, IsLimitedStep};
ghost use Rattle.folded_lines.specs.checked.Scanning.{place_after, rest_from, ended, IsWithin};
ghost use Rattle.folded_lines.specs.checked.RowLines.{line_by, weight_by, TellsLine};
ghost use Rattle.folded_lines.specs.checked.StreamLines.{HasNone, IsLineOf};
ghost use Rattle.folded_lines.specs.checked.StreamPlaces.{GivesAt, GivesBehind, IsStreamPlace};

use crate::cursor::Cursor;
use crate::row_lines::RowLine;
use crate::stream_lines::{FoundLine, StreamLines, StreamState};
use crate::stream_telling::StreamTelling;
use byte_io::Inlet;
use stack_core::{ReadFault, RowStep, SourceEnd, WEIGHT_LIMIT};
use std::alloc::{AllocError, Global};

/// How many lines are read at most, so that the next ones, too, can be counted in 64 bits.
pub(crate) const LINE_LIMIT: u64 = 1 << 63;

/// The counts after a line.
fn after(cursor: Cursor, line: &RowLine) -> Cursor
    requires taken { cursor.taken + 1 < 2 ^ 64 }
    requires ignored { cursor.ignored + 1 < 2 ^ 64 }
    requires total { cursor.total + weight_by line.now ≤ WEIGHT_LIMIT }
    ensures { (told : ToldRows) → result ≡ place_after cursor (line_by told line.now) }
{
    let next = Cursor {
        taken: cursor.taken + 1,
        ..cursor
    };
    match line {
        RowLine::Ignored => Cursor {
            ignored: cursor.ignored + 1,
            ..next
        },
        RowLine::Fault(_) => next,
        RowLine::New { weight, .. } | RowLine::Again { weight, .. } => Cursor {
            total: cursor.total + *weight,
            ..next
        },
    }
}

/// Reads the line that was found, and then takes it off. Where it closes the lines, none is left.
fn take_line<I: Inlet>(
    alloc: Global,
    lines: &mut StreamLines<I>,
    found: FoundLine,
    counts: &mut Cursor,
    telling: &mut StreamTelling,
) -> Result<RowLine, AllocError>
    requires found { IsLineOf lines.old found }
    requires place { IsStreamPlace (I.remaining lines.old.inlet) (I.is_sure lines.old.inlet) lines.old counts.old }
    requires room { counts.old.taken < LINE_LIMIT }
    ensures line { IfOk result (λ line. (after : Rest)
        → GivesAt (I.remaining lines.new.inlet) (I.is_sure lines.new.inlet) lines.new counts.new after
        → GivesAt (I.remaining lines.old.inlet) (I.is_sure lines.old.inlet) lines.old counts.old
        (rest_from counts.old (line_by telling.new line) after)) }
    ensures within { IfOk result (λ line. IsWithin counts.old.total (line_by telling.new line)) }
    ensures tells { IfOk result (λ line. TellsLine telling.old line telling.new) }
    ensures place { OnOk result
        (IsStreamPlace (I.remaining lines.new.inlet) (I.is_sure lines.new.inlet) lines.new counts.new) }
    ensures nearer { OnOk result (counts.new.taken ≡ counts.old.taken + 1) }
    ensures lines { OnErr result (lines.new ≡ lines.old) }
    ensures counts { OnErr result (counts.new ≡ counts.old) }
    ensures stacks { OnErr result (telling.new.stacks ≡ telling.old.stacks) }
    ensures names { OnErr result (IsPrefixOf telling.old.names telling.new.names) }
{
    let line = telling.read_line(alloc, lines.line(found), *counts)?;
    lines.pass(found);
    lines.end_behind(&line);
    *counts = after(*counts, &line);
    Ok(line)
}

/// How samples end behind the last line.
fn ending_at<I: Inlet>(lines: &StreamLines<I>, counts: &Cursor) -> SourceEnd
    requires none { HasNone lines.now }
    requires place { IsStreamPlace (I.remaining lines.now.inlet) (I.is_sure lines.now.inlet) lines.now counts.now }
    ensures { GivesAt (I.remaining lines.now.inlet) (I.is_sure lines.now.inlet) lines.now counts.now (ended result) }
{
    match lines.state {
        StreamState::Failed => SourceEnd::Stopped {
            after: counts.taken - counts.ignored,
        },
        StreamState::Open | StreamState::Ended => SourceEnd::Clean {
            ignored: counts.ignored,
        },
    }
}

/// The next step. Ignored lines are passed over, and stay so where memory is wanting then; read strictly, one ends the stream.
pub(crate) fn next_stream_step<I: Inlet>(
    alloc: Global,
    lines: &mut StreamLines<I>,
    counts: &mut Cursor,
    telling: &mut StreamTelling,
) -> Result<RowStep, AllocError>
    requires { IsStreamPlace (I.remaining lines.old.inlet) (I.is_sure lines.old.inlet) lines.old counts.old }
    ensures step { IfOk result (λ step. StepsAmong
        (GivesAt (I.remaining lines.old.inlet) (I.is_sure lines.old.inlet) lines.old counts.old)
        (GivesBehind step (GivesAt (I.remaining lines.new.inlet) (I.is_sure lines.new.inlet) lines.new counts.new))
        telling.old step telling.new) }
    ensures limits { IfOk result IsLimitedStep }
    ensures place { IsStreamPlace (I.remaining lines.new.inlet) (I.is_sure lines.new.inlet) lines.new counts.new }
    ensures refused { OnErr result ((rest : Rest)
        → GivesAt (I.remaining lines.new.inlet) (I.is_sure lines.new.inlet) lines.new counts.new rest
        → GivesAt (I.remaining lines.old.inlet) (I.is_sure lines.old.inlet) lines.old counts.old rest) }
    ensures stacks { OnErr result (telling.new.stacks ≡ telling.old.stacks) }
    ensures names { OnErr result (IsPrefixOf telling.old.names telling.new.names) }
{
    while counts.taken < LINE_LIMIT {
        let Some(found) = lines.find_line()? else {
            return Ok(RowStep::End(ending_at(lines, counts)));
        };
        match take_line(alloc, lines, found, counts, telling)? {
            RowLine::Ignored => {}
            RowLine::Fault(kind) => {
                let fault = ReadFault {
                    kind,
                    at: counts.taken,
                };
                return Ok(RowStep::End(SourceEnd::Fault(fault)));
            }
            RowLine::New {
                names,
                frames,
                weight,
            } => {
                return Ok(RowStep::New {
                    names,
                    frames,
                    weight,
                });
            }
            RowLine::Again { row, weight } => return Ok(RowStep::Again { row, weight }),
        }
    }
    Err(AllocError)
}
