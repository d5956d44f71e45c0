//! Pages for browsers of what was collected, sent while they are made.
ghost use Rattle.std.specs.Prelude.{◌≡◌, ◌≤◌, IfSome, length, map};
ghost use Rattle.merged_stacks.specs.Timeline.{samples_of};
ghost use Rattle.page_texts.specs.Document.{document_text};
ghost use Rattle.page_texts.specs.Drawn.{source_of};
ghost use Rattle.source_views.specs.Pages.{heading_of, snapshots_page};
ghost use Rattle.command_line.specs.Plans.{IsComparison};
ghost use Rattle.flame_tool.specs.Pages.{headed_text, page_text};
ghost use Rattle.source_views.specs.Failures.{Flushes, Sends};

use crate::headings::{described_sources, title_of};
use crate::run_facts::RunFacts;
use crate::sent_texts::send_plain_view;
use byte_io::Outlet;
use command_line::{PageForm, Plan, View};
use merging::Gathered;
use page_texts::Source;
use source_lists::SourceLists;
use source_views::{
    Alone, Failure, Heading, send_chart_page, send_comparison_page, send_graph_page,
    send_snapshots_page,
};
use std::alloc::Global;

// Sends the page that a plan asks for.
pub(crate) fn send_asked_page<W: Outlet>(
    alloc: Global,
    sources: SourceLists,
    plan: &Plan,
    facts: &RunFacts,
    page: &PageForm,
    out: &mut W,
) -> Result<(), Failure>
    requires pairs { IsComparison plan.now.view → length sources.lists ≡ 2 }
    requires every { IfSome plan.now.options.every (λ every. 1 ≤ every) }
    ensures sent { Sends (page_text plan.now facts.now page.now (samples_of sources.lists) sources.order plan.now.options.every)
        (W.contents out.old) (W.contents out.new) result }
    ensures flushed { Flushes (W.is_flushed out.new) (W.failures out.old) (W.failures out.new)
        result }
{
    let files = plan.files.get();
    let title = title_of(alloc, &page.title, files)?;
    let described = described_sources(alloc, files, plan.unit, facts.types.get(), &sources)?;
    let heading = heading_with(&title, &described, facts, page);
    send_headed(alloc, sources, plan, &heading, out)
}

// What a page with this title and these sources says beside its drawings.
fn heading_with<'a>(
    title: &'a str,
    described: &'a [Source<'a>],
    facts: &RunFacts,
    page: &PageForm,
) -> Heading<'a>
    ensures { heading_of result ≡ record {
      title = title.now;
      sources = map source_of described.now;
      least = page.now.least;
      whole = facts.now.whole;
      is_root_below = page.now.is_root_below;
      is_share = page.now.is_share;
    } }
{
    Heading {
        title,
        sources: described,
        least: page.least,
        whole: u128::from(facts.whole),
        is_root_below: page.is_root_below,
        is_share: page.is_share,
    }
}

// Sends the page of a view under a heading, or the text of a view that has no boxes.
fn send_headed<W: Outlet>(
    alloc: Global,
    sources: SourceLists,
    plan: &Plan,
    heading: &Heading<'_>,
    out: &mut W,
) -> Result<(), Failure>
    requires pairs { IsComparison plan.now.view → length sources.lists ≡ 2 }
    requires every { IfSome plan.now.options.every (λ every. 1 ≤ every) }
    ensures sent { Sends (headed_text (heading_of heading.now) plan.now.view (samples_of sources.lists) sources.order plan.now.options.every)
        (W.contents out.old) (W.contents out.new) result }
    ensures flushed { Flushes (W.is_flushed out.new) (W.failures out.old) (W.failures out.new)
        result }
{
    match plan.view {
        View::Graph(_) => send_graph_pages(alloc, sources, plan.options.every, heading, out),
        View::Chart(_) => send_chart_page(alloc, &sources, heading, out),
        View::PairBoxes(_width) => {
            let lists = sources.lists();
            send_comparison_page(alloc, &lists[0], &lists[1], heading, out)
        }
        View::Fold | View::Pairs | View::Top(_) | View::Diff(_) => {
            send_plain_view(&Alone, alloc, sources, plan.view, out)
        }
    }
}

// Sends the page of the graph, with its snapshots where they are asked for.
fn send_graph_pages<W: Outlet>(
    alloc: Global,
    sources: SourceLists,
    every: Option<u64>,
    heading: &Heading<'_>,
    out: &mut W,
) -> Result<(), Failure>
    requires { IfSome every (λ every. 1 ≤ every) }
    ensures sent { Sends (document_text (snapshots_page (heading_of heading.now)
        (samples_of sources.lists) sources.order every)) (W.contents out.old) (W.contents out.new) result }
    ensures flushed { Flushes (W.is_flushed out.new) (W.failures out.old) (W.failures out.new)
        result }
{
    match every {
        None => send_graph_page(alloc, &sources, heading, out),
        Some(_) => {
            let gathered = Gathered::of_lists(alloc, sources, every)?;
            send_snapshots_page(alloc, &gathered, heading, out)
        }
    }
}
