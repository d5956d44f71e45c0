//! The lists of the samples of a plan, sent as it asks.
ghost use Rattle.std.specs.Prelude.{◌≡◌, ◌≤◌, IfOk, IfSome, IfErr, OnOk, length, not, true, false, ◌==◌};
ghost use Rattle.std.specs.Io.KnownBytes.{Appends};
ghost use Rattle.merged_stacks.specs.Timeline.{samples_of};
ghost use Rattle.command_line.specs.Plans.{IsComparison};
ghost use Rattle.flame_tool.specs.Pages.{shown_text};
ghost use Rattle.flame_tool.specs.checked.Failures.{FailsToShow};
ghost use Rattle.source_views.specs.Failures.{has_fault, Flushes, Sends};
ghost use Rattle.source_views.specs.Messages.{Tells};
ghost use Rattle.source_views.specs.Texts.{growth_line};

use crate::hosts::Host;
use crate::reports::report_growth;
use crate::run_facts::RunFacts;
use crate::sent_pages::send_asked_page;
use crate::sent_pictures::{AskedPicture, send_asked_picture};
use crate::sent_texts::{send_asked_calls, send_asked_peek, send_asked_view};
use byte_io::Outlet;
use command_line::{Form, Plan};
use function_sums::CallSide;
use source_lists::SourceLists;
use source_views::{Failure, InThreads, any_fault, growth_line};
use std::alloc::Global;
use std::thread::Threads;

// Sends what a plan asks for of the lists of a run, unless a source has a fault, and says which functions grew over the plan's limit,
// and whether some did.
pub(crate) fn send_lists<T: Threads, W: Outlet, E: Outlet>(
    host: &Host<'_, T>,
    run: SourceLists,
    plan: &Plan,
    facts: &RunFacts,
    out: &mut W,
    err: &mut E,
) -> Result<bool, Failure>
    requires pairs { IsComparison plan.now.view → length run.lists ≡ 2 }
    requires every { IfSome plan.now.options.every (λ every. 1 ≤ every) }
    ensures faulty { has_fault run.lists ≡ true → result ≡ Err Failure.Faults }
    ensures faultless { OnOk result (has_fault run.lists ≡ false) }
    ensures ok { OnOk result (Appends (W.contents out.old) (W.contents out.new)
        (shown_text plan.now facts.now (samples_of run.lists) run.order plan.now.options.every)) }
    ensures err { IfErr result (FailsToShow run.lists
        (shown_text plan.now facts.now (samples_of run.lists) run.order plan.now.options.every)
        (W.contents out.old) (W.contents out.new)) }
    ensures untold { IfOk result (λ is_over. is_over ≡ false → err.new ≡ err.old) }
    ensures untold_err { IfErr result (λ _. err.new ≡ err.old) }
    ensures told_growth { OnOk result (Tells (growth_line plan.now.view (samples_of run.lists))
        (E.contents err.old) (E.contents err.new) (E.failures err.old) (E.failures err.new)) }
    ensures growth { IfOk result (λ is_over.
        is_over ≡ not (length (growth_line plan.now.view (samples_of run.lists)) == 0)) }
    ensures flushed { Flushes (W.is_flushed out.new) (W.failures out.old) (W.failures out.new)
        result }
{
    if any_fault(run.lists()) {
        return Err(Failure::Faults);
    }
    let line = growth_line(host.alloc, &run, plan.view)?;
    send_form(host.rt, host.alloc, run, plan, facts, out)?;
    Ok(report_growth(err, &line))
}

// Sends what a plan asks for of the lists of a run.
fn send_form<T: Threads, W: Outlet>(
    rt: &T,
    alloc: Global,
    run: SourceLists,
    plan: &Plan,
    facts: &RunFacts,
    out: &mut W,
) -> Result<(), Failure>
    requires pairs { IsComparison plan.now.view → length run.lists ≡ 2 }
    requires every { IfSome plan.now.options.every (λ every. 1 ≤ every) }
    ensures sent { Sends (shown_text plan.now facts.now (samples_of run.lists) run.order plan.now.options.every)
        (W.contents out.old) (W.contents out.new) result }
    ensures flushed { Flushes (W.is_flushed out.new) (W.failures out.old) (W.failures out.new)
        result }
{
    let workers = InThreads { rt };
    match &plan.form {
        Form::Text | Form::Types | Form::Live => {
            send_asked_view(&workers, alloc, run, plan, facts, out)
        }
        Form::Callers(table) => {
            let side = CallSide::Callers;
            send_asked_calls(&workers, alloc, run, plan, facts, side, table, out)
        }
        Form::Callees(table) => {
            let side = CallSide::Callees;
            send_asked_calls(&workers, alloc, run, plan, facts, side, table, out)
        }
        Form::Peek(table) => send_asked_peek(&workers, alloc, run, plan, facts, table, out),
        Form::Page(page) => send_asked_page(alloc, run, plan, facts, page, out),
        Form::Picture(form) => {
            send_asked_picture(rt, alloc, run, &AskedPicture { plan, facts, form }, out)
        }
    }
}
