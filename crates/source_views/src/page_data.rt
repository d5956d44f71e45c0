//! The data of a page in a vector, for other programs.
ghost use Rattle.std.specs.Prelude.{◌≡◌, ◌++◌, ◌<◌, ◌^◌, length, OnOk, OnErr};
ghost use Rattle.stack_core.specs.Interleaving.{list_of};
ghost use Rattle.merged_stacks.specs.Timeline.{samples_of, timeline, total_weight};
ghost use Rattle.page_texts.specs.Page.{page_text};
ghost use Rattle.source_views.specs.Pages.{chart_page, comparison_page, heading_of, snapshots_page, view_page};

use crate::drawn_profiles::{draw_profiles, pair_profiles, profile_drawings};
use crate::drawn_runs::{draw_run, run_drawings};
use crate::headings::Heading;
use crate::view_set::Views;
use page_texts::append_page_data;
use stack_core::SourceList;
use std::alloc::{AllocError, Global};

/// What a page shows.
#[derive(Clone, Copy, Debug)]
pub enum PageView {
    /// The flame graph of each snapshot, in order, and then that of all samples.
    Graph,
    /// The flame chart of the sources one after another.
    Chart,
    /// The flame graphs of two sources, each with the weights of the other.
    Compare,
}

/// Appends the data of a page, which stands in a document between its constant parts. No name and no title can end
/// the script element that it stands in. An `Err` changes nothing. A comparison is of exactly two sources.
pub fn render_page_data(
    alloc: Global,
    views: &Views,
    view: PageView,
    heading: &Heading<'_>,
    out: &mut Vec<u8>,
) -> Result<(), AllocError>
    requires pairs { view ≡ PageView.Compare → length views.now.lists ≡ 2 }
    ensures ok { OnOk result (out.new.items ≡ out.old.items
        ++ page_text (view_page (heading_of heading.now) view
        (samples_of views.now.lists) views.now.order views.now.every)) }
    ensures err { OnErr result (out.new.items ≡ out.old.items) }
{
    match view {
        PageView::Graph => append_graph(alloc, out, views, heading),
        PageView::Chart => append_chart(alloc, out, views, heading),
        PageView::Compare => {
            let lists = views.lists();
            append_comparison(alloc, out, &lists[0], &lists[1], heading)
        }
    }
}

// Appends the data of the page of the graph, with its snapshots.
fn append_graph(
    alloc: Global,
    out: &mut Vec<u8>,
    views: &Views,
    heading: &Heading<'_>,
) -> Result<(), AllocError>
    ensures ok { OnOk result (out.new.items ≡ out.old.items
        ++ page_text (snapshots_page (heading_of heading.now)
        (samples_of views.now.lists) views.now.order views.now.every)) }
    ensures err { OnErr result (out.new.items ≡ out.old.items) }
{
    let drawn = draw_run(alloc, views.gathered())?;
    let drawings = run_drawings(alloc, &drawn, heading)?;
    append_page_data(alloc, out, &heading.page("graph", &drawings))
}

// Appends the data of the page of the chart.
fn append_chart(
    alloc: Global,
    out: &mut Vec<u8>,
    views: &Views,
    heading: &Heading<'_>,
) -> Result<(), AllocError>
    ensures ok { OnOk result (out.new.items ≡ out.old.items
        ++ page_text (chart_page (heading_of heading.now) (samples_of views.now.lists))) }
    ensures err { OnErr result (out.new.items ≡ out.old.items) }
{
    let drawing = heading.drawing(views.chart(), false, timeline_total(views), None);
    append_page_data(alloc, out, &heading.page("chart", &[drawing]))
}

// The sum of all weights.
fn timeline_total(views: &Views) -> u64
    ensures { result ≡ total_weight (timeline (samples_of views.now.lists)) }
{
    views.tree().total(&[]) as u64
}

// Appends the data of the page of the comparison of two profiles.
fn append_comparison(
    alloc: Global,
    out: &mut Vec<u8>,
    before: &SourceList,
    after: &SourceList,
    heading: &Heading<'_>,
) -> Result<(), AllocError>
    requires before { total_weight before.now.samples < 2 ^ 64 }
    requires after { total_weight after.now.samples < 2 ^ 64 }
    ensures ok { OnOk result (out.new.items ≡ out.old.items
        ++ page_text (comparison_page (heading_of heading.now) before.now.samples after.now.samples)) }
    ensures err { OnErr result (out.new.items ≡ out.old.items) }
{
    let stacks = pair_profiles(alloc, before, after)?;
    let drawn = draw_profiles(alloc, &stacks, before, after)?;
    let drawings = profile_drawings(alloc, &drawn, heading)?;
    append_page_data(alloc, out, &heading.page("compare", &drawings))
}
