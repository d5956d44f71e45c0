//! Pages of several drawings: of a run's snapshots, and of a comparison.
ghost use Rattle.std.specs.Prelude.{◌<◌, ◌^◌};
ghost use Rattle.merged_stacks.specs.Timeline.{samples_of, total_weight};
ghost use Rattle.source_views.specs.Failures.{Flushes, Sends};
ghost use Rattle.page_texts.specs.Document.{document_text};
ghost use Rattle.source_views.specs.Pages.{comparison_page, heading_of, snapshots_page};

use crate::drawn_profiles::{draw_profiles, pair_profiles, profile_drawings};
use crate::drawn_runs::{draw_run, run_drawings};
use crate::failures::Failure;
use crate::headings::Heading;
use crate::plain_pages::send_whole_page;
use byte_io::Outlet;
use merging::Gathered;
use stack_core::SourceList;
use std::alloc::Global;

/// Sends the page of a run's snapshots, as `send_page` does: the flame graph of each, in order, and then that
/// of all samples. The boxes of all of them are held at once.
pub fn send_snapshots_page<W: Outlet>(
    alloc: Global,
    gathered: &Gathered,
    heading: &Heading<'_>,
    out: &mut W,
) -> Result<(), Failure>
    ensures sent { Sends (document_text (snapshots_page (heading_of heading.now)
        (samples_of gathered.now.lists) gathered.now.order gathered.now.every))
        (W.contents out.old) (W.contents out.new) result }
    ensures flushed { Flushes (W.is_flushed out.new) (W.failures out.old) (W.failures out.new)
        result }
{
    let drawn = draw_run(alloc, gathered)?;
    let drawings = run_drawings(alloc, &drawn, heading)?;
    send_whole_page(alloc, &heading.page("graph", &drawings), out)
}

/// Sends the page of the comparison of two profiles, as `send_page` does: the flame graph of the first with
/// the weights of the second, and then that of the second with the weights of the first.
pub fn send_comparison_page<W: Outlet>(
    alloc: Global,
    before: &SourceList,
    after: &SourceList,
    heading: &Heading<'_>,
    out: &mut W,
) -> Result<(), Failure>
    requires before { total_weight before.now.samples < 2 ^ 64 }
    requires after { total_weight after.now.samples < 2 ^ 64 }
    ensures sent { Sends (document_text (comparison_page (heading_of heading.now) before.now.samples after.now.samples))
        (W.contents out.old) (W.contents out.new) result }
    ensures flushed { Flushes (W.is_flushed out.new) (W.failures out.old) (W.failures out.new)
        result }
{
    let stacks = pair_profiles(alloc, before, after)?;
    let drawn = draw_profiles(alloc, &stacks, before, after)?;
    let drawings = profile_drawings(alloc, &drawn, heading)?;
    send_whole_page(alloc, &heading.page("compare", &drawings), out)
}
