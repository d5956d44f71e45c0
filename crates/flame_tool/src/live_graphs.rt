//! The graphs of streams, drawn while their samples come.
ghost use Rattle.std.specs.Prelude.{◌≡◌, ◌≢◌, ◌≤◌, ℕ, [], All, IfErr, IfOk, IfSome, OnOk, Some, length};
ghost use Rattle.std.specs.List.{list_any, zip};
ghost use Rattle.command_line.specs.Plans.{IsOfStreams};
ghost use Rattle.ring_collect.specs.Collection.{GiveSuch};
ghost use Rattle.source_views.specs.Messages.{Tells};
ghost use Rattle.stack_core.specs.RowReading.{GivesSome};
ghost use Rattle.flame_tool.specs.ToldLive.{IsOfSome, is_stopped};
ghost use Rattle.flame_tool.specs.checked.Drawings.{DrawsAll, DrawsSome};
ghost use Rattle.flame_tool.specs.checked.LiveEnds.{EndsLive, FailsLive, form_of, is_faulty_end, status_by_ends};
ghost use Rattle.flame_tool.specs.checked.LiveSaying.{AreFirstTold, AreSomeTold, SaidFirst, SaysEnds, SaysFirst, SaysLost, SaysSuch};

use crate::end_reports::{EndReports, is_stopped, report_rest};
use crate::hosts::Host;
use byte_io::{Outlet, PieceFault};
use command_line::{Plan, View};
use flame_layout::Width;
use folded_lines::strict_ending_fault;
use live_lines::{EndTeller, LiveForm, LiveGate, LiveLines, LiveMerge, LiveSink};
use ring_collect::{CollectFault, feed_rows};
use source_views::Failure;
use stack_core::{RowReader, SourceEnd};
use std::alloc::{AllocError, Global};
use std::sync::{Arc, Wait};
use std::thread::Threads;

// Sends the lines of the samples that readers give, or pages, or a table that is renewed, each as soon as the last of its samples came, and
// says of each source at once how it ended, but where a table is renewed behind the last one. It answers the exit status.
pub(crate) fn send_graphs<
    T: Threads + Wait + Copy + Send + 'static,
    R: RowReader + Send + Drop + 'static,
    W: Outlet,
    E: Outlet,
>(
    host: &Host<'_, T>,
    is_terminal: bool,
    plan: &Plan,
    readers: Vec<R>,
    out: &mut W,
    err: &mut E,
) -> Result<u8, Failure>
    requires live { IsOfStreams plan.now }
    requires every { IfSome plan.now.options.every (λ every. 1 ≤ every) }
    requires few { length readers.items ≤ 64 }
    requires nothing_told { All (λ reader. R.told reader ≡ record { names = []; stacks = [] })
        readers.items }
    requires possible { All (λ reader. GivesSome (R.gives reader)) readers.items }
    ensures ok { IfOk result (λ status. GiveSuch (λ reader. R.gives reader) readers.items
        (EndsLive is_terminal plan.now (W.contents out.old) (W.contents out.new) status)) }
    ensures err { IfErr result (λ failure. GiveSuch (λ reader. R.gives reader) readers.items
        (FailsLive is_terminal plan.now (W.contents out.old) (W.contents out.new) failure)) }
    ensures told { IfOk result (λ status. GiveSuch (λ reader. R.gives reader) readers.items
        (SaysEnds plan.now (λ said. Tells said
        (E.contents err.old) (E.contents err.new) (E.failures err.old) (E.failures err.new)) status)) }
    ensures told_first { IfErr result (SaidFirst (err.new ≡ err.old)
        (SaysSuch (IsOfSome plan.now (length readers.items)) (λ said. Tells said
        (E.contents err.old) (E.contents err.new) (E.failures err.old) (E.failures err.new)))
        (GiveSuch (λ reader. R.gives reader) readers.items (SaysFirst plan.now (λ said. Tells said
        (E.contents err.old) (E.contents err.new) (E.failures err.old) (E.failures err.new))))
        (GiveSuch (λ reader. R.gives reader) readers.items (SaysLost plan.now (λ said. Tells said
        (E.contents err.old) (E.contents err.new) (E.failures err.old) (E.failures err.new))))) }
    ensures ended { IfOk result (λ status. status ≢ 2) }
    ensures flushed { OnOk result (W.is_flushed out.new) }
    ensures unfailed { OnOk result (W.failures out.new ≡ W.failures out.old) }
{
    // What stands on a terminal would be wiped by a table that takes the place of another.
    let is_at_once = !is_terminal || plan.pages.is_some();
    let parts = live_parts(host.alloc, is_terminal, plan, readers.len())?;
    let reports = EndReports::new(plan, is_at_once, err);
    let (reports, drawn) = draw(host, plan, readers, parts, out, reports);
    let EndReports {
        plan: _,
        is_at_once,
        err,
        told: _told,
        start: _start,
    } = reports;
    let Drawn {
        endings,
        merge,
        is_lost,
        sent,
    } = drawn?;
    let counts = merge.counts();
    report_rest(err, plan, &endings, counts, is_lost, is_at_once);
    if let Err(fault) = sent {
        return Err(Failure::Output(fault));
    }
    Ok(status_of_ends(&endings, counts, plan.is_strict))
}

// What a run drew of all that was collected.
#[derive(Drop)]
struct Drawn {
    endings: Vec<SourceEnd>,
    merge: LiveMerge,
    // The output had failed before all was collected.
    is_lost: bool,
    sent: Result<(), PieceFault>,
}

// Collects the samples that readers give, sends what there is to send of them, and tells at once how each source ended. It hands back who
// was told so.
fn draw<
    T: Threads + Wait + Copy + Send + 'static,
    R: RowReader + Send + Drop + 'static,
    W: Outlet,
    S: EndTeller,
>(
    host: &Host<'_, T>,
    plan: &Plan,
    readers: Vec<R>,
    parts: LiveParts,
    out: &mut W,
    ends: S,
) -> (S, Result<Drawn, CollectFault>)
    requires every { 1 ≤ parts.every }
    requires few { length readers.items ≤ 64 }
    requires nothing_told { All (λ reader. R.told reader ≡ record { names = []; stacks = [] })
        readers.items }
    requires possible { All (λ reader. GivesSome (R.gives reader)) readers.items }
    requires merge { parts.merge ≡ record
        { form = parts.merge.form; sources = length readers.items; taken = [] } }
    requires untold { S.told ends ≡ [] }
    ensures ok { IfOk result.1 (λ drawn. GiveSuch (λ reader. R.gives reader) readers.items
        (DrawsAll parts.merge.form parts.width parts.every (W.contents out.old) (W.contents out.new) drawn
        (S.told result.0))) }
    ensures err { IfErr result.1 (λ fault. GiveSuch (λ reader. R.gives reader) readers.items
        (DrawsSome parts.merge.form parts.width parts.every (W.contents out.old) (W.contents out.new) fault)) }
    ensures some { AreSomeTold (length readers.items) (S.told result.0) }
    ensures first { IfErr result.1 (λ fault. ((source : ℕ) → fault ≢ CollectFault.Unfinished source)
        → GiveSuch (λ reader. R.gives reader) readers.items (AreFirstTold (S.told result.0))) }
    ensures setting { S.setting result.0 ≡ S.setting ends }
    ensures flushed { IfOk result.1 (λ drawn. OnOk drawn.sent (W.is_flushed out.new)) }
    ensures unfailed { IfOk result.1 (λ drawn. OnOk drawn.sent
        (W.failures out.new ≡ W.failures out.old)) }
{
    let LiveParts {
        gate,
        closed_by,
        merge,
        every,
        width,
    } = parts;
    let mut sink = LiveSink::new(merge, every, width, closed_by, out, ends);
    let fed = feed_rows(
        host.rt,
        host.alloc,
        readers,
        plan.options.ring,
        gate,
        &mut sink,
    );
    let LiveSink {
        mut lines,
        out,
        ends,
    } = sink;
    let endings = match fed {
        Ok(endings) => endings,
        Err(fault) => return (ends, Err(fault)),
    };
    let is_lost = lines.failure.is_some();
    let sent = lines.finish(host.alloc, out);
    let LiveLines { merge, .. } = lines;
    let drawn = Drawn {
        endings,
        merge,
        is_lost,
        sent,
    };
    (ends, Ok(drawn))
}

// What a live run needs before a sample comes.
#[derive(Drop)]
struct LiveParts {
    gate: Arc<LiveGate>,
    // The same gate, which the sink closes.
    closed_by: Arc<LiveGate>,
    merge: LiveMerge,
    every: u64,
    width: Width,
}

fn live_parts(
    alloc: Global,
    is_terminal: bool,
    plan: &Plan,
    sources: usize,
) -> Result<LiveParts, AllocError>
    requires live { IsOfStreams plan.now }
    requires every { IfSome plan.now.options.every (λ every. 1 ≤ every) }
    ensures view { IfOk result (λ parts. plan.now.view ≡ View.Graph parts.width) }
    ensures every { IfOk result (λ parts. plan.now.options.every ≡ Some parts.every) }
    ensures some { IfOk result (λ parts. 1 ≤ parts.every) }
    ensures merge { IfOk result (λ parts. parts.merge ≡ record
        { form = form_of is_terminal plan.now parts.every; sources = sources; taken = [] }) }
{
    let View::Graph(width) = plan.view else {
        unreachable!()
    };
    let Some(every) = plan.options.every else {
        unreachable!()
    };
    let gate = Arc::new(alloc, LiveGate::new())?;
    Ok(LiveParts {
        closed_by: Arc::try_clone(&gate)?,
        gate,
        merge: LiveMerge::of_form(alloc, form_of(is_terminal, plan, every), sources)?,
        every,
        width,
    })
}

// What is written: pages where there is a file for them, else lines, or on a terminal a table that is renewed each time that so many
// samples more came.
fn form_of(is_terminal: bool, plan: &Plan, every: u64) -> LiveForm
    ensures { result ≡ form_of is_terminal plan.now every }
{
    if plan.pages.is_some() {
        LiveForm::Pages
    } else if is_terminal {
        LiveForm::Table { every }
    } else {
        LiveForm::Lines
    }
}

fn status_of_ends(endings: &[SourceEnd], counts: &[u64], is_strict: bool) -> u8
    ensures { result ≡ status_by_ends is_strict endings.now counts.now }
{
    if any_stopped(endings) {
        3
    } else if any_faulty(endings, counts, is_strict) {
        1
    } else {
        0
    }
}

fn any_faulty(endings: &[SourceEnd], counts: &[u64], is_strict: bool) -> bool
    ensures { result ≡ list_any (λ end. is_faulty_end is_strict end) (zip endings.now counts.now) }
{
    endings
        .iter()
        .zip(counts)
        .any(|(ending, count)| is_faulty(ending, *count, is_strict))
}

// Whether a source has a fault, as it was read.
fn is_faulty(ending: &SourceEnd, count: u64, is_strict: bool) -> bool
    ensures { result ≡ is_faulty_end is_strict (ending.now, count) }
{
    if is_strict {
        strict_ending_fault(count, ending).is_some()
    } else {
        matches!(ending, SourceEnd::Fault(_))
    }
}

fn any_stopped(endings: &[SourceEnd]) -> bool
    ensures { result ≡ list_any is_stopped endings.now }
{
    endings.iter().any(|ending| is_stopped(ending))
}
