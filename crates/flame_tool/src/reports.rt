//! What a run says of its sources on standard error.

ghost use Rattle.std.specs.Prelude.{◌≡◌, ◌==◌, false, length, map, not, string_bytes};
ghost use Rattle.source_views.specs.Messages.{Tells, message_of_strict_fault, said_of_each};
ghost use Rattle.flame_tool.specs.checked.Saying.{TellsEndings};

use crate::advice::Advice;
use crate::next_steps::Trouble;
use byte_io::{Outlet, send};
use run_options::Filter;
use source_lists::StrictFault;
use source_views::{report_ending, report_strict_fault};
use stack_core::SourceList;
use std::alloc::Global;

/// Says of each source, in order, how it ended, where there is something to say, and what to do then.
pub(crate) fn report_endings<E: Outlet>(
    alloc: Global,
    err: &mut E,
    files: &[String],
    lists: &[SourceList],
    filter: &Filter,
    advice: Advice<'_>,
)
    ensures told { advice.entry.is_wanted ≡ false → TellsEndings (map string_bytes files.now)
        (E.contents err.old) (E.contents err.new) (E.failures err.old) (E.failures err.new)
        (map (λ list. list.ending) lists.now) }
{
    let mut source = 0;
    while source < lists.len() {
        let list = &lists[source];
        report_ending(err, files, source, list.ending());
        advice.tell_ending(alloc, err, files, source, list, filter);
        source += 1;
    }
}

/// Says of each source, in order, what is wrong with it where it is read strictly, if anything is, and what to do then.
pub(crate) fn report_strict_faults<E: Outlet>(
    alloc: Global,
    err: &mut E,
    files: &[String],
    faults: &[Option<StrictFault>],
    advice: Advice<'_>,
)
    ensures told { advice.entry.is_wanted ≡ false
        → Tells (said_of_each (message_of_strict_fault (map string_bytes files.now)) 0 faults.now)
        (E.contents err.old) (E.contents err.new) (E.failures err.old) (E.failures err.new) }
{
    let mut source = 0;
    while source < faults.len() {
        let fault = &faults[source];
        report_strict(alloc, err, files, source, fault, advice);
        source += 1;
    }
}

// The same of one source.
fn report_strict<E: Outlet>(
    alloc: Global,
    err: &mut E,
    files: &[String],
    source: usize,
    fault: &Option<StrictFault>,
    advice: Advice<'_>,
)
    ensures told { advice.entry.is_wanted ≡ false
        → Tells (message_of_strict_fault (map string_bytes files.now) source fault.now)
        (E.contents err.old) (E.contents err.new) (E.failures err.old) (E.failures err.new) }
{
    if let Some(fault) = fault {
        report_strict_fault(err, files, source, fault);
        advice.tell(alloc, err, files, source, Trouble::Strict(fault.kind));
    }
}

/// Says which functions grew, by a line that is empty where there is none, and whether there is one.
pub(crate) fn report_growth<E: Outlet>(err: &mut E, line: &[u8]) -> bool
    ensures answer { result ≡ not (length line.now == 0) }
    ensures untold { result ≡ false → err.new ≡ err.old }
    ensures told { Tells line.now
        (E.contents err.old) (E.contents err.new) (E.failures err.old) (E.failures err.new) }
{
    if line.is_empty() {
        return false;
    }
    let _ = send(line, err);
    true
}
