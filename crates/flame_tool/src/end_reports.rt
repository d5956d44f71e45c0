//! What is said on standard error of how streams ended.
ghost use Rattle.std.specs.Prelude.{◌≡◌, [], false, true, length, map, string_bytes};
ghost use Rattle.std.specs.List.{zip};
ghost use Rattle.folded_lines.specs.StrictStreams.{strict_ending_fault};
ghost use Rattle.source_views.specs.Messages.{Tells, message_of_strict_fault};
ghost use Rattle.flame_tool.specs.checked.EndReports.{TellsUnlessFailed, reports_setting, said_at_once};
ghost use Rattle.flame_tool.specs.checked.ReportProps.{unless_prop};
ghost use Rattle.flame_tool.specs.checked.LiveSaying.{message_of_counted, said_of_ends, tellable_count};
ghost use Rattle.flame_tool.specs.ToldLive.{is_stopped};

use byte_io::Outlet;
use command_line::Plan;
use folded_lines::strict_ending_fault;
use live_lines::{EndTeller, ToldEnds};
use source_views::{Failure, report_ending, report_failure, report_strict_fault};
use stack_core::SourceEnd;
use std::snapshot::Snapshot;

/// Says of each stream that ended how it did, where there is something to say: at once, or nothing where that is left to the end of the run.
#[derive(Drop)]
pub(crate) struct EndReports<'p, 'e, E: Outlet> {
    pub(crate) plan: &'p Plan,
    pub(crate) is_at_once: bool,
    pub(crate) err: &'e mut E,
    /// For contracts alone, as is `start`.
    pub(crate) told: ToldEnds,
    /// The outlet as it was before anything was said, for contracts alone.
    pub(crate) start: Snapshot<E>,

    // It was told what there is to say of the ends, in their order, and nothing else; or a call of it failed.
    ghost said: { TellsUnlessFailed (said_at_once is_at_once plan.now told)
        (E.contents start.value) (E.contents err.now) (E.failures start.value) (E.failures err.now) } by { Prim.hlevel unless_prop },
}

impl<'p, 'e, E: Outlet> EndReports<'p, 'e, E> {
    /// Nothing was told yet, and nothing is said.
    pub(crate) fn new(plan: &'p Plan, is_at_once: bool, err: &'e mut E) -> EndReports<'p, 'e, E>
        ensures plan { result.plan.now ≡ plan.entry.now }
        ensures at_once { result.is_at_once ≡ is_at_once }
        ensures untold { result.told ≡ [] }
        ensures start { result.start.value ≡ err.entry.now }
        ensures outlet { result.err.ghost_name ≡ err.entry.ghost_name }
    {
        let start = Snapshot::of(err);
        EndReports {
            plan,
            is_at_once,
            err,
            told: ToldEnds::new(),
            start,
        }
    }
}

impl<E: Outlet> EndTeller for EndReports<'_, '_, E> {
    ghost told = { λ reports. reports.told };

    ghost setting = { λ reports. reports_setting reports.err.ghost_name (E.contents reports.start.value)
        (E.failures reports.start.value) reports.plan.now.is_strict reports.plan.now.files };

    /// Says how the stream ended, unless that is left to the end of the run.
    fn tell(&mut self, source: u32, ending: &SourceEnd, count: u64, is_lost: bool) {
        self.told.tell(source, ending, count, is_lost);
        if self.is_at_once {
            report_end(self.err, self.plan, source as usize, ending, count, is_lost);
        }
    }
}

/// Says at the end of a run of each source, in order, how it ended, unless that was said at once.
pub(crate) fn report_rest<E: Outlet>(
    err: &mut E,
    plan: &Plan,
    endings: &[SourceEnd],
    counts: &[u64],
    is_lost: bool,
    is_at_once: bool,
)
    requires { length counts.now ≡ length endings.now }
    ensures told { is_at_once ≡ false → Tells (said_of_ends plan.now is_lost (zip endings.now counts.now))
        (E.contents err.old) (E.contents err.new) (E.failures err.old) (E.failures err.new) }
    ensures untold { is_at_once ≡ true → err.new ≡ err.old }
{
    if is_at_once {
        return;
    }
    report_ends(err, plan, endings, counts, is_lost);
}

// Says of each source, in order, how it ended, where there is something to say. Unless the output failed before, which stopped the
// sources, a read failed where one is stopped.
fn report_ends<E: Outlet>(
    err: &mut E,
    plan: &Plan,
    endings: &[SourceEnd],
    counts: &[u64],
    is_lost: bool,
)
    requires { length counts.now ≡ length endings.now }
    ensures told { Tells (said_of_ends plan.now is_lost (zip endings.now counts.now))
        (E.contents err.old) (E.contents err.new) (E.failures err.old) (E.failures err.new) }
{
    let mut source = 0;
    while source < endings.len() {
        report_end(err, plan, source, &endings[source], counts[source], is_lost);
        source += 1;
    }
}

// The same of one source, with how many samples came of it.
fn report_end<E: Outlet>(
    err: &mut E,
    plan: &Plan,
    source: usize,
    ending: &SourceEnd,
    count: u64,
    is_lost: bool,
)
    ensures told { Tells (message_of_counted plan.now is_lost source (ending.now, count))
        (E.contents err.old) (E.contents err.new) (E.failures err.old) (E.failures err.new) }
{
    let files = plan.files.get();
    if is_stopped(ending) {
        if !is_lost {
            report_failure(err, files, Failure::Unreadable { source });
        }
    } else if plan.is_strict {
        report_strict_end(err, files, source, ending, count);
    } else {
        report_ending(err, files, source, ending);
    }
}

// Says what is wrong with a source that was read strictly, if anything is.
fn report_strict_end<E: Outlet>(
    err: &mut E,
    files: &[String],
    source: usize,
    ending: &SourceEnd,
    count: u64,
)
    ensures told { Tells (message_of_strict_fault (map string_bytes files.now) source (strict_ending_fault (tellable_count count) ending.now))
        (E.contents err.old) (E.contents err.new) (E.failures err.old) (E.failures err.new) }
{
    // The line behind so many samples has a number of 64 bits.
    let count = count.min(u64::MAX - 1);
    if let Some(fault) = strict_ending_fault(count, ending) {
        report_strict_fault(err, files, source, &fault);
    }
}

/// Whether it was stopped, or a read of it failed.
pub(crate) fn is_stopped(ending: &SourceEnd) -> bool
    ensures { result ≡ is_stopped ending.now }
{
    matches!(ending, SourceEnd::Stopped { after: _ })
}
