//! A run that writes where its words want it to.
ghost use Rattle.std.specs.Prelude.{◌≡◌, ◌⊎◌, ◌&&◌, Bool, true, false, [], Some, IfOk, IfSome, IsSome, OnErr, map, string_bytes};
ghost use Rattle.command_line.specs.Destinations.{destination_of};
ghost use Rattle.flame_tool.specs.Delivery.{IfFile, IfPages, IfStandard, Ran, WrotePages, delivered, is_whole_live, is_whole_run};
ghost use Rattle.flame_tool.specs.KnownRuns.{as_files, as_streams, change};

use crate::live_run::{asked_live, live, live_plan};
use crate::program::run;
use crate::renewed_file::{RenewedFile, close_renewal};
use byte_io::{CountedWriter, Files, Outlet, Outputs, PieceFault, Streams, send};
use command_line::{Destination, Plan, asked_destination};
use source_views::{Failure, report_failure};
use std::alloc::{AllocError, Global};
use std::sync::Wait;
use std::thread::Threads;

// What is said in place of a page or a picture.
const ON_A_TERMINAL: &str =
    "flamecollect: a page or a picture is not for a terminal: -o FILE writes it to a file\n";

/// Runs the program with the words after its name, and answers its exit status: `live` where they have a plan of it, and else `run`. It
/// writes to the file that the words want, or else to `out`. The file takes its place where what was written is whole: with the
/// statuses 0 and 4 of `run`, and 0 and 1 of `live`, which shows the samples before a fault. Else what stood there stays. Each page of
/// `live` takes the place of its file at once. Where the file can't be made, or can't take its place, the status is 3. A page or a
/// picture is not written to a terminal: that is 2. On a terminal `live` shows a table.
pub fn deliver<
    T: Threads + Wait + Copy + Send + 'static,
    F: Files + Streams,
    D: Outputs,
    W: Outlet,
    E: Outlet,
>(
    rt: &T,
    alloc: Global,
    words: Vec<String>,
    files: &mut F,
    outputs: &mut D,
    out: &mut W,
    err: &mut E,
) -> u8
    // Of words that want a file: its path gets exactly one file more, whose bytes are what `run` or `live` leaves of an outlet that had
    // none, or no file took its place, as it is at 3 where the file failed. Nothing goes to standard output.
    ensures file { IfFile (destination_of (map string_bytes words.items)) (λ path.
        IfSome (D.placed outputs.old) (λ placed.
        ((result ≡ 3) × (D.placed outputs.new ≡ Some placed))
        ⊎ ((written : D.Writer) × (is_whole : Bool) × Ran false (map string_bytes words.items)
        (as_files (F.Files.known_input files.old) (F.Files.known_file files.old) F.Files.may_have_terminal)
        (as_streams (F.Streams.known_input files.old) (F.Streams.known_file files.old) (F.is_absent files.old) F.Streams.may_have_terminal)
        result is_whole (change (Some []) (D.Writer.contents written) 0 (D.Writer.failures written))
        (change (E.contents err.old) (E.contents err.new) (E.failures err.old) (E.failures err.new))
        (D.Writer.is_flushed written)
        × (D.placed outputs.new
        ≡ Some (delivered placed path (D.Writer.contents written) is_whole))))) }
    ensures untouched { IfFile (destination_of (map string_bytes words.items)) (λ _.
        out.new ≡ out.old) }

    // Of words that want a file of pages: what was written to it is what `live` leaves of an outlet that had none, or it is 3. Nothing goes
    // to standard output.
    ensures pages { IfPages (destination_of (map string_bytes words.items))
        ((result ≡ 3) ⊎ WrotePages (IsSome (D.placed outputs.old)) (map string_bytes words.items)
        (as_streams (F.Streams.known_input files.old) (F.Streams.known_file files.old) (F.is_absent files.old) F.Streams.may_have_terminal)
        result
        (change (E.contents err.old) (E.contents err.new) (E.failures err.old) (E.failures err.new))) }
    ensures paged { IfPages (destination_of (map string_bytes words.items)) (out.new ≡ out.old) }

    // Of others: `out` is left as `run` or `live` leaves it, but for a page or a picture on a terminal. No file takes a place.
    ensures standard { IfStandard (destination_of (map string_bytes words.items)) (λ is_document.
        (is_document && D.has_terminal outputs.old) ≡ false
        → ((result ≡ 3) × (out.new ≡ out.old))
        ⊎ ((is_whole : Bool) × Ran (D.has_terminal outputs.old) (map string_bytes words.items)
        (as_files (F.Files.known_input files.old) (F.Files.known_file files.old) F.Files.may_have_terminal)
        (as_streams (F.Streams.known_input files.old) (F.Streams.known_file files.old) (F.is_absent files.old) F.Streams.may_have_terminal)
        result is_whole
        (change (W.contents out.old) (W.contents out.new) (W.failures out.old) (W.failures out.new))
        (change (E.contents err.old) (E.contents err.new) (E.failures err.old) (E.failures err.new))
        (W.is_flushed out.new))) }
    ensures terminal { IfStandard (destination_of (map string_bytes words.items)) (λ is_document.
        (is_document && D.has_terminal outputs.old) ≡ true
        → ((result ≡ 2) ⊎ (result ≡ 3)) × (out.new ≡ out.old)) }
    ensures unplaced { IfStandard (destination_of (map string_bytes words.items)) (λ _.
        D.placed outputs.new ≡ D.placed outputs.old) }
{
    match asked_destination(alloc, words.as_slice()) {
        Ok(Destination::File(path)) => {
            deliver_file(rt, alloc, words, path.get(), files, outputs, err)
        }
        Ok(Destination::Pages(path)) => {
            deliver_pages(rt, alloc, words.as_slice(), path.get(), files, outputs, err)
        }
        Ok(Destination::Standard { is_document }) => {
            deliver_standard(rt, alloc, words, is_document, files, outputs, out, err)
        }
        Err(_) => out_of_memory(err),
    }
}

// Runs the program, which writes to standard output, but a page or a picture not to a terminal.
fn deliver_standard<
    T: Threads + Wait + Copy + Send + 'static,
    F: Files + Streams,
    D: Outputs,
    W: Outlet,
    E: Outlet,
>(
    rt: &T,
    alloc: Global,
    words: Vec<String>,
    is_document: bool,
    files: &mut F,
    outputs: &D,
    out: &mut W,
    err: &mut E,
) -> u8
    ensures standard { (is_document && D.has_terminal outputs.now) ≡ false
        → ((result ≡ 3) × (out.new ≡ out.old))
        ⊎ ((is_whole : Bool) × Ran (D.has_terminal outputs.now) (map string_bytes words.items)
        (as_files (F.Files.known_input files.old) (F.Files.known_file files.old) F.Files.may_have_terminal)
        (as_streams (F.Streams.known_input files.old) (F.Streams.known_file files.old) (F.is_absent files.old) F.Streams.may_have_terminal)
        result is_whole
        (change (W.contents out.old) (W.contents out.new) (W.failures out.old) (W.failures out.new))
        (change (E.contents err.old) (E.contents err.new) (E.failures err.old) (E.failures err.new))
        (W.is_flushed out.new)) }
    ensures terminal { (is_document && D.has_terminal outputs.now) ≡ true
        → (result ≡ 2) × (out.new ≡ out.old) }
{
    let is_terminal = outputs.is_terminal();
    if is_document && is_terminal {
        let _ = send(ON_A_TERMINAL.as_bytes(), err);
        return 2;
    }
    match run_asked(rt, alloc, is_terminal, words, files, out, err) {
        Ok(ended) => ended.status,
        Err(_) => out_of_memory(err),
    }
}

// Runs the program, whose output takes its place in the file of this path where it is whole.
fn deliver_file<
    T: Threads + Wait + Copy + Send + 'static,
    F: Files + Streams,
    D: Outputs,
    E: Outlet,
>(
    rt: &T,
    alloc: Global,
    words: Vec<String>,
    path: &str,
    files: &mut F,
    outputs: &mut D,
    err: &mut E,
) -> u8
    ensures { IfSome (D.placed outputs.old) (λ placed.
        ((result ≡ 3) × (D.placed outputs.new ≡ Some placed))
        ⊎ ((written : D.Writer) × (is_whole : Bool) × Ran false (map string_bytes words.items)
        (as_files (F.Files.known_input files.old) (F.Files.known_file files.old) F.Files.may_have_terminal)
        (as_streams (F.Streams.known_input files.old) (F.Streams.known_file files.old) (F.is_absent files.old) F.Streams.may_have_terminal)
        result is_whole (change (Some []) (D.Writer.contents written) 0 (D.Writer.failures written))
        (change (E.contents err.old) (E.contents err.new) (E.failures err.old) (E.failures err.new))
        (D.Writer.is_flushed written)
        × (D.placed outputs.new
        ≡ Some (delivered placed path.now (D.Writer.contents written) is_whole)))) }
{
    let Ok(mut draft) = outputs.begin(alloc, path) else {
        return output_failed(err);
    };
    let Ok(Ended { status, is_whole }) = run_asked(
        rt,
        alloc,
        false,
        words,
        files,
        &mut draft.writer,
        err,
    ) else {
        outputs.discard(draft);
        return out_of_memory(err);
    };
    if !is_whole {
        outputs.discard(draft);
        return status;
    }
    match outputs.place(draft) {
        Ok(()) => status,
        Err(_) => output_failed(err),
    }
}

// Runs `live`, whose pages take the place of the file of this path one after the other.
fn deliver_pages<T: Threads + Wait + Copy + Send + 'static, S: Streams, D: Outputs, E: Outlet>(
    rt: &T,
    alloc: Global,
    words: &[String],
    path: &str,
    streams: &mut S,
    outputs: &mut D,
    err: &mut E,
) -> u8
    ensures { (result ≡ 3) ⊎ WrotePages (IsSome (D.placed outputs.old)) (map string_bytes words.now)
        (as_streams (S.known_input streams.old) (S.known_file streams.old) (S.is_absent streams.old) S.may_have_terminal)
        result
        (change (E.contents err.old) (E.contents err.new) (E.failures err.old) (E.failures err.new)) }
{
    let Some(plan) = live_plan(alloc, words) else {
        return out_of_memory(err);
    };
    let Ok(file) = RenewedFile::begin(alloc, outputs, path) else {
        return output_failed(err);
    };
    let mut out = CountedWriter::new(file);
    let status = live(rt, alloc, false, &plan, streams, &mut out, err);
    let RenewedFile {
        outputs,
        renewal,
        ..
    } = out.into_inner();
    if close_renewal(outputs, renewal) || 2 <= status {
        return status;
    }
    output_failed(err)
}

// Says that there is no memory.
fn out_of_memory<E: Outlet>(err: &mut E) -> u8
    ensures { result ≡ 3 }
{
    report_failure(err, &[], Failure::OutOfMemory);
    3
}

// Says that the output failed.
fn output_failed<E: Outlet>(err: &mut E) -> u8
    ensures { result ≡ 3 }
{
    report_failure(err, &[], Failure::Output(PieceFault::Output));
    3
}

// How a run ended, and whether what it wrote is whole.
#[derive(Clone, Copy)]
struct Ended {
    status: u8,
    is_whole: bool,
}

impl Ended {
    fn of_run(status: u8) -> Ended
        ensures status { result.status ≡ status }
        ensures whole { result.is_whole ≡ is_whole_run status }
    {
        Ended {
            status,
            is_whole: status == 0 || status == 4,
        }
    }

    fn of_live(status: u8) -> Ended
        ensures status { result.status ≡ status }
        ensures whole { result.is_whole ≡ is_whole_live status }
    {
        Ended {
            status,
            is_whole: status == 0 || status == 1,
        }
    }
}

// Does what the words ask for: a live run over streams, on a terminal or not, or a run over whole files. It does nothing where there is
// no memory to know which.
fn run_asked<T: Threads + Wait + Copy + Send + 'static, F: Files + Streams, W: Outlet, E: Outlet>(
    rt: &T,
    alloc: Global,
    is_terminal: bool,
    words: Vec<String>,
    files: &mut F,
    out: &mut W,
    err: &mut E,
) -> Result<Ended, AllocError>
    ensures ran { IfOk result (λ ended. Ran is_terminal (map string_bytes words.items)
        (as_files (F.Files.known_input files.old) (F.Files.known_file files.old) F.Files.may_have_terminal)
        (as_streams (F.Streams.known_input files.old) (F.Streams.known_file files.old) (F.is_absent files.old) F.Streams.may_have_terminal)
        ended.status ended.is_whole
        (change (W.contents out.old) (W.contents out.new) (W.failures out.old) (W.failures out.new))
        (change (E.contents err.old) (E.contents err.new) (E.failures err.old) (E.failures err.new))
        (W.is_flushed out.new)) }
    ensures untouched { OnErr result (out.new ≡ out.old) }
{
    match asked_live(alloc, words.as_slice())? {
        Some(plan) => {
            let status = live(rt, alloc, is_terminal, &plan, files, out, err);
            Ok(Ended::of_live(status))
        }
        None => Ok(Ended::of_run(run(rt, alloc, words, files, out, err))),
    }
}
