//! The texts of the views of a plan, sent while they are made.
ghost use Rattle.std.specs.Prelude.{◌≡◌, ◌≤◌, None, IfSome, length};
ghost use Rattle.merged_stacks.specs.Timeline.{samples_of};
ghost use Rattle.command_line.specs.Plans.{IsComparison};
ghost use Rattle.function_sums.specs.Told.{nothing_told};
ghost use Rattle.source_views.specs.Texts.{told_text};
ghost use Rattle.flame_tool.specs.Pages.{asked_text, called_text, peeked_text};
ghost use Rattle.source_views.specs.Failures.{Flushes, Sends};

use crate::headings::described_sources;
use crate::run_facts::{RunFacts, telling};
use byte_io::Outlet;
use command_line::{CallTable, Plan, View};
use function_sums::{CallSide, Telling};
use source_lists::SourceLists;
use source_views::{AskedText, Failure, Shown, Workers, send_calls, send_peek, send_view};
use std::alloc::Global;

// Sends the text of a plan's view.
pub(crate) fn send_asked_view<H: Workers, W: Outlet>(
    workers: &H,
    alloc: Global,
    sources: SourceLists,
    plan: &Plan,
    facts: &RunFacts,
    out: &mut W,
) -> Result<(), Failure>
    requires pairs { IsComparison plan.now.view → length sources.lists ≡ 2 }
    requires every { IfSome plan.now.options.every (λ every. 1 ≤ every) }
    ensures sent { Sends (asked_text plan.now facts.now (samples_of sources.lists) sources.order plan.now.options.every)
        (W.contents out.old) (W.contents out.new) result }
    ensures flushed { Flushes (W.is_flushed out.new) (W.failures out.old) (W.failures out.new)
        result }
{
    let (files, types) = (plan.files.get(), facts.types.get());
    let described = described_sources(alloc, files, plan.unit, types, &sources)?;
    let asked = AskedText {
        view: plan.view,
        every: plan.options.every,
        telling: telling(plan, facts, &described),
    };
    send_view(workers, alloc, Shown::given(sources), &asked, out)
}

// Sends the text of the calls of a function that a plan asks for, on this side of it.
pub(crate) fn send_asked_calls<H: Workers, W: Outlet>(
    workers: &H,
    alloc: Global,
    sources: SourceLists,
    plan: &Plan,
    facts: &RunFacts,
    side: CallSide,
    table: &CallTable,
    out: &mut W,
) -> Result<(), Failure>
    ensures sent { Sends (called_text side table.now plan.now facts.now (samples_of sources.lists))
        (W.contents out.old) (W.contents out.new) result }
    ensures flushed { Flushes (W.is_flushed out.new) (W.failures out.old) (W.failures out.new)
        result }
{
    let (files, types) = (plan.files.get(), facts.types.get());
    let described = described_sources(alloc, files, plan.unit, types, &sources)?;
    let telling = telling(plan, facts, &described);
    send_calls(workers, alloc, sources, side, table, &telling, out)
}

// Sends the text of a function with its callers and its callees, as a plan asks for it.
pub(crate) fn send_asked_peek<H: Workers, W: Outlet>(
    workers: &H,
    alloc: Global,
    sources: SourceLists,
    plan: &Plan,
    facts: &RunFacts,
    table: &CallTable,
    out: &mut W,
) -> Result<(), Failure>
    ensures sent { Sends (peeked_text table.now plan.now facts.now (samples_of sources.lists))
        (W.contents out.old) (W.contents out.new) result }
    ensures flushed { Flushes (W.is_flushed out.new) (W.failures out.old) (W.failures out.new)
        result }
{
    let (files, types) = (plan.files.get(), facts.types.get());
    let described = described_sources(alloc, files, plan.unit, types, &sources)?;
    let telling = telling(plan, facts, &described);
    send_peek(workers, alloc, sources, table, &telling, out)
}

// Sends the text of a view without snapshots.
pub(crate) fn send_plain_view<H: Workers, W: Outlet>(
    workers: &H,
    alloc: Global,
    sources: SourceLists,
    view: View,
    out: &mut W,
) -> Result<(), Failure>
    requires pairs { IsComparison view → length sources.lists ≡ 2 }
    ensures sent { Sends (told_text nothing_told view (samples_of sources.lists) sources.order None)
        (W.contents out.old) (W.contents out.new) result }
    ensures flushed { Flushes (W.is_flushed out.new) (W.failures out.old) (W.failures out.new)
        result }
{
    let asked = AskedText {
        view,
        every: None,
        telling: Telling::nothing(),
    };
    send_view(workers, alloc, Shown::given(sources), &asked, out)
}
