//! What a run says on standard error, each on a line of its own. It takes no memory, and a failure to
//! write changes nothing.

ghost use Rattle.std.specs.Prelude.{◌≡◌, ◌==◌, ◌++◌, [], Some, OnOk, codes, decimal, if◌then◌else◌, is_ok, map, string_bytes};
ghost use Rattle.std.specs.List.{concat};
ghost use Rattle.std.specs.Io.KnownBytes.{Appends};
ghost use Rattle.byte_io.specs.Calls.{one_more};
ghost use Rattle.stack_core.specs.declared.endings.SourceEnd.TheVariants.{Clean};
ghost use Rattle.source_views.specs.Messages.{Tells, awaited_text, message, message_of_ending, message_of_failure, message_of_source, message_of_strict_fault};
ghost use Rattle.source_views.specs.Names.{source_name};

use crate::failures::Failure;
use byte_io::{Outlet, PieceFault, SendFault, send};
use itoa::Buffer;
use run_options::Format;
use source_lists::StrictFault;
use stack_core::SourceEnd;

// What messages and pages call the standard input.
const INPUT: &str = "-";

/// What messages and pages call a source of these files: its path, or the standard input where there is no file.
pub fn path_of(files: &[String], source: usize) -> &str
    ensures { result.now ≡ source_name (map string_bytes files.now) source }
{
    match files.get(source) {
        Some(path) => path.as_str(),
        None => INPUT,
    }
}

/// Says why a run over these files failed.
pub fn report_failure<E: Outlet>(err: &mut E, files: &[String], failure: Failure)
    ensures told { Tells (message_of_failure (map string_bytes files.now) failure)
        (E.contents err.old) (E.contents err.new) (E.failures err.old) (E.failures err.new) }
{
    match failure {
        Failure::TooManyFiles => write_line(err, &["too many files"]),
        Failure::Unreadable { source } => {
            write_line(err, &[path_of(files, source), ": cannot be read"]);
        }
        Failure::TooLarge { source } => write_line(err, &[path_of(files, source), ": too large"]),
        Failure::OutOfMemory | Failure::Output(PieceFault::OutOfMemory) => {
            write_line(err, &["out of memory"]);
        }
        Failure::NoThread => write_line(err, &["no thread"]),
        Failure::Unfinished { source } => {
            write_line(err, &[path_of(files, source as usize), ": unfinished"]);
        }
        Failure::Faults => {}
        Failure::Output(PieceFault::Output) => write_line(err, &["output failed"]),
    }
}

/// Says what is awaited where the input is a terminal.
pub fn report_awaited_input<E: Outlet>(err: &mut E, format: Format)
    ensures told { Tells (awaited_text format)
        (E.contents err.old) (E.contents err.new) (E.failures err.old) (E.failures err.new) }
{
    let awaited = match format {
        Format::Folded => ": awaits folded lines, which end with Ctrl-D",
        Format::Pprof => ": awaits a pprof profile",
    };
    write_line(err, &[INPUT, awaited, "; see flamecollect --help"]);
}

/// Says what there is to say of the ending of a source: its fault, or how many lines were ignored, if
/// any were.
pub fn report_ending<E: Outlet>(err: &mut E, files: &[String], source: usize, ending: &SourceEnd)
    ensures told { Tells (message_of_ending (map string_bytes files.now) source ending.now)
        (E.contents err.old) (E.contents err.new) (E.failures err.old) (E.failures err.new) }
{
    let path = path_of(files, source);
    match ending {
        SourceEnd::Clean { ignored } => report_ignored(err, path, *ignored),
        SourceEnd::Fault(fault) => report_fault(err, path, fault.kind.name(), fault.at),
        SourceEnd::Stopped { after: _ } => {}
    }
}

/// Says what is wrong with a source that is read strictly.
pub fn report_strict_fault<E: Outlet>(
    err: &mut E,
    files: &[String],
    source: usize,
    fault: &StrictFault,
)
    ensures told { Tells (message_of_strict_fault (map string_bytes files.now) source (Some fault.now))
        (E.contents err.old) (E.contents err.new) (E.failures err.old) (E.failures err.new) }
{
    report_fault(err, path_of(files, source), fault.kind.name(), fault.at);
}

// Says how many lines of the source were ignored, if any were.
fn report_ignored<E: Outlet>(err: &mut E, path: &str, ignored: u64)
    ensures told { Tells (if ignored == 0 then [] else message (path.now ++ (codes ": ignored " ++ decimal ignored)))
        (E.contents err.old) (E.contents err.new) (E.failures err.old) (E.failures err.new) }
{
    if ignored > 0 {
        let mut digits = Buffer::new();
        write_line(err, &[path, ": ignored ", digits.format(ignored)]);
    }
}

// Says what is wrong with the source, and where.
fn report_fault<E: Outlet>(err: &mut E, path: &str, kind: &str, at: u64)
    ensures told { Tells (message (path.now ++ (codes ": " ++ (kind.now ++ (codes " at " ++ decimal at)))))
        (E.contents err.old) (E.contents err.new) (E.failures err.old) (E.failures err.new) }
{
    let mut digits = Buffer::new();
    write_line(err, &[path, ": ", kind, " at ", digits.format(at)]);
}

// Writes a line of these parts.
fn write_line<E: Outlet>(err: &mut E, parts: &[&str])
    ensures told { Tells (message (concat (map (λ part. part.now) parts.now)))
        (E.contents err.old) (E.contents err.new) (E.failures err.old) (E.failures err.new) }
{
    let _ = send_line(err, parts);
}

// Sends a line of these parts, up to a call that fails.
fn send_line<E: Outlet>(err: &mut E, parts: &[&str]) -> Result<(), SendFault>
    ensures ok { OnOk result (Appends (E.contents err.old) (E.contents err.new)
        (message (concat (map (λ part. part.now) parts.now)))) }
    ensures count { E.failures err.new
        ≡ (if is_ok result then E.failures err.old else one_more (E.failures err.old)) }
{
    send(b"flamecollect: ", err)?;
    for part in parts {
        send(part.as_bytes(), err)?;
    }
    send(b"\n", err)
}
