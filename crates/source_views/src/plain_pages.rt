//! Pages of one drawing.
ghost use Rattle.std.specs.Prelude.{◌≡◌, ◌≢◌, List, OnErr, OnOk, IsErrOf};
ghost use Rattle.std.specs.Io.KnownBytes.{Appends};
ghost use Rattle.byte_io.specs.Calls.{one_more};
ghost use Rattle.byte_io.specs.Pieces.{AppendsFront};
ghost use Rattle.sample_tables.specs.declared.samples.Sample.{Sample};
ghost use Rattle.merged_stacks.specs.Merged.{merged_samples};
ghost use Rattle.merged_stacks.specs.RankedStacks.{ranked_samples};
ghost use Rattle.merged_stacks.specs.Timeline.{samples_of};
ghost use Rattle.source_views.specs.Failures.{Flushes, Sends};
ghost use Rattle.page_texts.specs.Document.{document_text};
ghost use Rattle.page_texts.specs.Drawn.{page_of};
ghost use Rattle.source_views.specs.Pages.{chart_page, graph_page, growing_heading, growing_page, heading_of};

use crate::drawings::lend_chart;
use crate::failures::Failure;
use crate::headings::Heading;
use crate::workers::merge;
use byte_io::{Outlet, PieceFault};
use flame_layout::{FlameBoxes, draw_merged};
use merged_stacks::{Alone, MergedStacks};
use page_texts::{Page, send_page};
use source_lists::SourceLists;
use std::alloc::Global;

/// Sends the page of the flame graph of all samples, as `send_page` does.
pub fn send_graph_page<W: Outlet>(
    alloc: Global,
    sources: &SourceLists,
    heading: &Heading<'_>,
    out: &mut W,
) -> Result<(), Failure>
    ensures sent { Sends (document_text (graph_page (heading_of heading.now) (samples_of sources.now.lists)))
        (W.contents out.old) (W.contents out.new) result }
    ensures flushed { Flushes (W.is_flushed out.new) (W.failures out.old) (W.failures out.new)
        result }
{
    let merged = merge(&Alone, alloc, sources)?;
    let chart = draw_merged(alloc, &merged)?;
    let drawing = heading.drawing(&chart, false, sources.total(), None);
    send_whole_page(alloc, &heading.page("graph", &[drawing]), out)
}

/// Sends the page of the flame chart of the sources one after another, as `send_page` does.
pub fn send_chart_page<W: Outlet>(
    alloc: Global,
    sources: &SourceLists,
    heading: &Heading<'_>,
    out: &mut W,
) -> Result<(), Failure>
    ensures sent { Sends (document_text (chart_page (heading_of heading.now) (samples_of sources.now.lists)))
        (W.contents out.old) (W.contents out.new) result }
    ensures flushed { Flushes (W.is_flushed out.new) (W.failures out.old) (W.failures out.new)
        result }
{
    let chart = lend_chart(alloc, sources)?;
    let drawing = heading.drawing(&chart, false, sources.total(), None);
    send_whole_page(alloc, &heading.page("chart", &[drawing]), out)
}

/// Sends the page of the flame graph of merged samples, of which more may be to come, as `send_page` does.
pub fn send_growing_page<W: Outlet>(
    alloc: Global,
    stacks: &MergedStacks,
    has_more: bool,
    out: &mut W,
) -> Result<(), PieceFault>
    ensures ok { (samples : List Sample) → ranked_samples stacks.now ≡ merged_samples samples
        → OnOk result (Appends (W.contents out.old) (W.contents out.new)
        (document_text (growing_page has_more samples))) }
    ensures flushed { OnOk result (W.is_flushed out.new) }
    ensures front { (samples : List Sample) → ranked_samples stacks.now ≡ merged_samples samples
        → OnErr result (AppendsFront (document_text (growing_page has_more samples))
        (W.contents out.old) (W.contents out.new)) }

    // As in `send_pieces`.
    ensures output { IsErrOf result PieceFault.Output
        → W.failures out.new ≡ one_more (W.failures out.old) }
    ensures unfailed { result ≢ Err PieceFault.Output → W.failures out.new ≡ W.failures out.old }
{
    let chart = draw_merged(alloc, stacks)?;
    let total = stacks.total();
    let heading = growing_heading(total);
    let drawings = [heading.drawing(&chart, false, total, None)];
    let mut page = heading.page("graph", &drawings);
    page.has_more = has_more;
    send_page(alloc, &page, out)
}

// What a page of samples that weigh so much says beside its drawing while they are still coming.
fn growing_heading(whole: u64) -> Heading<'static>
    ensures { heading_of result ≡ growing_heading whole }
{
    Heading {
        title: "flamecollect live",
        sources: &[],
        least: None,
        whole: u128::from(whole),
        is_root_below: false,
        is_share: false,
    }
}

// Sends a page. A run fails where it is not sent whole.
pub(crate) fn send_whole_page<L: FlameBoxes, W: Outlet>(
    alloc: Global,
    page: &Page<'_, L>,
    out: &mut W,
) -> Result<(), Failure>
    ensures sent { Sends (document_text (page_of L.boxes page.now))
        (W.contents out.old) (W.contents out.new) result }
    ensures flushed { Flushes (W.is_flushed out.new) (W.failures out.old) (W.failures out.new)
        result }
{
    send_page(alloc, page, out)?;
    Ok(())
}
