//! How a run ends: the exit status, and what is said of it.
ghost use Rattle.std.specs.Prelude.{◌≡◌, IfErr, OnOk, false, map, string_bytes};
ghost use Rattle.source_views.specs.Messages.{Tells, message_of_failure};
ghost use Rattle.flame_tool.specs.KnownRuns.{RefusalShows, change};
ghost use Rattle.flame_tool.specs.checked.Failures.{exit_status};

use crate::advice::Advice;
use byte_io::{Outlet, PieceFault, Refusal, send};
use command_line::PlanFault;
use source_views::{Failure, report_failure};
use std::alloc::Global;

// Says what is wrong with the words, or the help that they ask for.
pub(crate) fn refuse<W: Outlet, E: Outlet>(fault: PlanFault, out: &mut W, err: &mut E) -> u8
    ensures { RefusalShows fault result
        (change (W.contents out.old) (W.contents out.new) (W.failures out.old) (W.failures out.new))
        (change (E.contents err.old) (E.contents err.new) (E.failures err.old) (E.failures err.new))
        (W.is_flushed out.new) }
{
    match fault {
        PlanFault::Words(text) => {
            let _ = send(text.as_bytes(), err);
            2
        }
        PlanFault::Help(text) => match send(text.as_bytes(), out) {
            Ok(()) => 0,
            Err(_) => {
                report_failure(err, &[], Failure::Output(PieceFault::Output));
                3
            }
        },
        PlanFault::OutOfMemory => {
            report_failure(err, &[], Failure::OutOfMemory);
            3
        }
    }
}

// Says why a run over these files failed, if it did, and answers its exit status: of one that did not, whether functions
// grew over its limit. The refusal is that of the last file that was not given.
pub(crate) fn end_run<E: Outlet>(
    alloc: Global,
    err: &mut E,
    advice: Advice<'_>,
    files: &[String],
    shown: Result<bool, Failure>,
    refusal: Refusal,
) -> u8
    ensures status { result ≡ exit_status shown }
    ensures untold { OnOk shown (err.new ≡ err.old) }
    ensures told { advice.entry.is_wanted ≡ false → IfErr shown (λ failure.
        Tells (message_of_failure (map string_bytes files.now) failure)
        (E.contents err.old) (E.contents err.new) (E.failures err.old) (E.failures err.new)) }
{
    match shown {
        Ok(true) => 4,
        Ok(false) => 0,
        Err(failure) => {
            report_failure(err, files, failure);
            advice.tell_failure(alloc, err, files, failure, refusal);
            failure.status()
        }
    }
}
