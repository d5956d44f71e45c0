//! A run over streams: its lines are written while their samples come.
ghost use Rattle.std.specs.Prelude.{◌≡◌, ◌≢◌, ◌≤◌, ◌<◌, false, true, Some, IfErr, IfOk, IfSome, IsErrAnd, length, map, string_bytes};
ghost use Rattle.std.specs.List.{list_any};
ghost use Rattle.std.specs.Io.KnownBytes.{Keeps};
ghost use Rattle.command_line.specs.Plans.{IsOfStreams, plan_of};
ghost use Rattle.source_views.specs.Messages.{Tells};
ghost use Rattle.flame_tool.specs.KnownRuns.{LiveShows, as_streams, change};
ghost use Rattle.flame_tool.specs.LiveRuns.{known_texts};
ghost use Rattle.flame_tool.specs.Runs.{FailsUntouched};
ghost use Rattle.flame_tool.specs.ToldLive.{IsOfSome, IsUnopened, stream_count};
ghost use Rattle.flame_tool.specs.checked.LiveEnds.{TellsTexts, live_status};
ghost use Rattle.flame_tool.specs.checked.LivePlans.{IsLivePlan};
ghost use Rattle.flame_tool.specs.checked.LiveSaying.{SaidFirst, SaidOfEnds, SaidOfFirst, SaidOfLost, SaysSuch};

use crate::hosts::Host;
use crate::live_graphs::send_graphs;
use crate::live_streams::{StreamReader, open_streams};
use byte_io::{Outlet, Streams};
use command_line::{Form, Plan, PlanFault, plan};
use folded_lines::FoldedStream;
use run_options::Format;
use source_views::{Failure, report_awaited_input, report_failure};
use std::alloc::{AllocError, Global};
use std::sync::Wait;
use std::thread::Threads;

/// Runs a plan of `live` over streams of folded text, and answers its exit status. All streams are opened before anything is read. A line
/// of each snapshot of their graph is written and flushed as soon as its last sample came, and at the end the line of the graph. On a
/// terminal a table of the functions with the greatest weights is written in their place: in a frame of each snapshot, which takes the
/// place of the frame before, and at the end alone. Where the plan has a file for them, pages are, one for each snapshot, and then that of
/// the graph. `err` is told of each source its fault, how many lines were ignored, or that it could not be read to its end: as soon as it
/// has ended, but behind the last table where one is renewed.
///
/// 0 says that all of each source was read. 1 says that a source has a fault, which is where the plan is strict an ignored line,
/// or that it has no sample, too: its samples before are shown, and the others to their ends. 2 are more than 64 files. 3 says
/// that a source can't be opened or read, that there is no memory or no thread, or that the output fails, of which each comes
/// before 1; where the output fails, the sources are stopped at their next samples.
pub fn live<T: Threads + Wait + Copy + Send + 'static, S: Streams, W: Outlet, E: Outlet>(
    rt: &T,
    alloc: Global,
    is_terminal: bool,
    plan: &Plan,
    streams: &mut S,
    out: &mut W,
    err: &mut E,
) -> u8
    requires live { IsOfStreams plan.now }
    requires every { IfSome plan.now.options.every (λ every. 1 ≤ every) }
    // All that a status says, and what standard error gained then: `LiveShows` of `specs/KnownRuns.antt`.
    ensures { LiveShows is_terminal plan.now
        (as_streams (S.known_input streams.old) (S.known_file streams.old) (S.is_absent streams.old) S.may_have_terminal) result
        (change (W.contents out.old) (W.contents out.new) (W.failures out.old) (W.failures out.new))
        (change (E.contents err.old) (E.contents err.new) (E.failures err.old) (E.failures err.new))
        (W.is_flushed out.new) }
{
    let host = Host { rt, alloc };
    let paths = plan.files.get();
    await_input(paths, streams, err);
    match show_live::<T, S, FoldedStream<S::Inlet>, W, E>(
        &host,
        is_terminal,
        plan,
        streams,
        out,
        err,
    ) {
        Ok(status) => status,
        Err(failure) => {
            report_failure(err, paths, failure);
            failure.status()
        }
    }
}

// Says what is awaited where the input is read, and is a terminal.
fn await_input<S: Streams, E: Outlet>(paths: &[String], streams: &S, err: &mut E)
    ensures untold { S.may_have_terminal ≡ false → err.new ≡ err.old }
    ensures of_files { length paths.now ≢ 0 → err.new ≡ err.old }
{
    if paths.is_empty() && streams.is_input_terminal() {
        report_awaited_input(err, Format::Folded);
    }
}

// Opens the streams, reads them by readers of this type, and sends the lines of their graph.
fn show_live<
    T: Threads + Wait + Copy + Send + 'static,
    S: Streams,
    R: StreamReader<S::Inlet> + Send + Drop + 'static,
    W: Outlet,
    E: Outlet,
>(
    host: &Host<'_, T>,
    is_terminal: bool,
    plan: &Plan,
    streams: &mut S,
    out: &mut W,
    err: &mut E,
) -> Result<u8, Failure>
    requires live { IsOfStreams plan.now }
    requires every { IfSome plan.now.options.every (λ every. 1 ≤ every) }
    ensures status { live_status result ≤ 3 }
    ensures flushed { live_status result ≤ 1 → W.is_flushed out.new }
    ensures unfailed { live_status result ≢ 3 → W.failures out.new ≡ W.failures out.old }
    ensures told { IfSome (known_texts plan.now.files (S.known_input streams.old)
        (S.known_file streams.old))
        (TellsTexts is_terminal plan.now (W.contents out.old) (W.contents out.new) (live_status result)) }
    ensures many { live_status result ≡ 2 → 64 < length plan.now.files }
    ensures few { live_status result ≢ 2 → length plan.now.files ≤ 64 }
    ensures refused { live_status result ≡ 2 → Keeps (W.contents out.old) (W.contents out.new) }
    ensures absent { list_any (S.is_absent streams.old) plan.now.files ≡ true
        → FailsUntouched (live_status result) (W.contents out.old) (W.contents out.new)
        (W.failures out.old) (W.failures out.new) }
    ensures says { IfOk result (λ status. IfSome (known_texts plan.now.files (S.known_input streams.old)
        (S.known_file streams.old)) (SaidOfEnds plan.now (λ said. Tells said
        (E.contents err.old) (E.contents err.new) (E.failures err.old) (E.failures err.new)) status)) }
    ensures says_first { IfErr result (SaidFirst (err.new ≡ err.old)
        (SaysSuch (IsOfSome plan.now (stream_count plan.now.files)) (λ said. Tells said
        (E.contents err.old) (E.contents err.new) (E.failures err.old) (E.failures err.new)))
        (IfSome (known_texts plan.now.files (S.known_input streams.old) (S.known_file streams.old))
        (SaidOfFirst plan.now (λ said. Tells said
        (E.contents err.old) (E.contents err.new) (E.failures err.old) (E.failures err.new))))
        (IfSome (known_texts plan.now.files (S.known_input streams.old) (S.known_file streams.old))
        (SaidOfLost plan.now (λ said. Tells said
        (E.contents err.old) (E.contents err.new) (E.failures err.old) (E.failures err.new))))) }
    ensures ended { IfOk result (λ status. status ≢ 2) }
    ensures untold { list_any (S.is_absent streams.old) plan.now.files ≡ true → err.new ≡ err.old }
    ensures unopened { list_any (S.is_absent streams.old) plan.now.files ≡ true
        → IsErrAnd result (IsUnopened (S.is_absent streams.old) (S.known_file streams.old) plan.now.files) }
{
    let readers: Vec<R> = open_streams(host.alloc, streams, plan.files.get(), plan.is_strict)?;
    send_graphs(host, is_terminal, plan, readers, out, err)
}

/// The plan of words that ask for `live`. There is none for any other words, for those that are refused, and for want of memory.
pub fn live_plan(alloc: Global, words: &[String]) -> Option<Plan>
    ensures plan { IfSome result (λ plan. plan_of (map string_bytes words.now) ≡ Some plan) }
    ensures form { IfSome result (λ plan. plan.form ≡ Form.Live) }
    ensures live { IfSome result IsOfStreams }
    ensures every { IfSome result (λ plan. IfSome plan.options.every (λ every. 1 ≤ every)) }
{
    match asked_live(alloc, words) {
        Ok(found) => found,
        Err(_) => None,
    }
}

/// The plan of words that ask for `live`. There is none for any other words, and for those that are refused: `run` answers them.
pub(crate) fn asked_live(alloc: Global, words: &[String]) -> Result<Option<Plan>, AllocError>
    ensures { IfOk result (λ found. IfSome found (IsLivePlan (map string_bytes words.now))) }
{
    match plan(alloc, words) {
        Ok(plan) => Ok(if_live(plan)),
        Err(PlanFault::OutOfMemory) => Err(AllocError),
        Err(PlanFault::Words(_) | PlanFault::Help(_)) => Ok(None),
    }
}

// The plan, if it is one of `live`.
fn if_live(plan: Plan) -> Option<Plan>
    ensures same { IfSome result (λ other. other ≡ plan) }
    ensures form { IfSome result (λ _. plan.form ≡ Form.Live) }
{
    match plan.form {
        Form::Live => Some(plan),
        _ => None,
    }
}
