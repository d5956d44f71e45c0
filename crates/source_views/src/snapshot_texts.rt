//! The lines of a graph's snapshots, each sent before the next is drawn.
ghost use Rattle.std.specs.Prelude.{◌≡◌, ◌≢◌, ◌≤◌, OnOk, OnErr, IsErrOf, Some, length};
ghost use Rattle.std.specs.Io.KnownBytes.{Appends};
ghost use Rattle.byte_io.specs.Calls.{one_more};
ghost use Rattle.byte_io.specs.Pieces.{AppendsFront};
ghost use Rattle.flame_layout.specs.Graph.{graph_of};
ghost use Rattle.merged_stacks.specs.Fronts.{fronts};
ghost use Rattle.merged_stacks.specs.Merged.{merged_samples};
ghost use Rattle.merged_stacks.specs.RankedStacks.{ranked_samples};
ghost use Rattle.merged_stacks.specs.Timeline.{samples_of};
ghost use Rattle.merging.specs.Snapshots.{snapshot_places};
ghost use Rattle.merging.specs.Sums.{all_samples};
ghost use Rattle.source_views.specs.Failures.{Flushes, Sends};
ghost use Rattle.source_views.specs.Texts.{graph_text, snapshot_lines};
ghost use Rattle.source_views.specs.checked.Moments.{due_line, moment_line};

use crate::drawn_texts::drawn_graph;
use crate::failures::Failure;
use crate::workers::merge;
use byte_io::{Outlet, PieceFault, send_pieces};
use flame_layout::{Chart, Width, draw_merged};
use merged_stacks::{GrowingStacks, MergedStacks, Sorting};
use source_lists::SourceLists;
use std::alloc::Global;
use view_texts::{Scale, drawn_snapshot_line};

// Sends the lines of the snapshots of a graph, one each time that so many samples more came, and then the graph's
// own. Each snapshot is drawn when the one before it is out, and goes out at once.
pub(crate) fn send_snapshots<S: Sorting, W: Outlet>(
    sorting: &S,
    alloc: Global,
    sources: &SourceLists,
    width: Width,
    every: u64,
    out: &mut W,
) -> Result<(), Failure>
    requires { 1 ≤ every }
    ensures sent { Sends (graph_text width (samples_of sources.now.lists) sources.now.order (Some every))
        (W.contents out.old) (W.contents out.new) result }
    ensures flushed { Flushes (W.is_flushed out.new) (W.failures out.old) (W.failures out.new)
        result }
{
    let merged = merge(sorting, alloc, sources)?;
    let chart = draw_merged(alloc, &merged)?;
    send_lines(alloc, sources, &chart, width, every, out)?;
    Ok(())
}

// Sends the lines of the snapshots, and then that of the graph, which has these boxes.
fn send_lines<W: Outlet>(
    alloc: Global,
    sources: &SourceLists,
    chart: &Chart<'_, MergedStacks>,
    width: Width,
    every: u64,
    out: &mut W,
) -> Result<(), PieceFault>
    requires every { 1 ≤ every }
    requires boxes { chart.now ≡ graph_of (all_samples (samples_of sources.now.lists)) }
    ensures ok { OnOk result (Appends (W.contents out.old) (W.contents out.new)
        (graph_text width (samples_of sources.now.lists) sources.now.order (Some every))) }
    ensures flushed { OnOk result (W.is_flushed out.new) }
    ensures front { OnErr result
        (AppendsFront (graph_text width (samples_of sources.now.lists) sources.now.order (Some every))
        (W.contents out.old) (W.contents out.new)) }
    ensures output { IsErrOf result PieceFault.Output
        → W.failures out.new ≡ one_more (W.failures out.old) }
    ensures unfailed { result ≢ Err PieceFault.Output → W.failures out.new ≡ W.failures out.old }
{
    send_moments(alloc, sources, width, every, out)?;
    let line = drawn_graph(sources.total(), chart, width);
    send_pieces(alloc, &line, out)
}

// Sends the lines of the snapshots, going through the samples in the order in which they came.
fn send_moments<W: Outlet>(
    alloc: Global,
    sources: &SourceLists,
    width: Width,
    every: u64,
    out: &mut W,
) -> Result<(), PieceFault>
    requires { 1 ≤ every }
    ensures ok { OnOk result (Appends (W.contents out.old) (W.contents out.new)
        (snapshot_lines width (samples_of sources.now.lists) sources.now.order
        (snapshot_places (Some every) (length sources.now.order)))) }
    ensures front { OnErr result (AppendsFront
        (snapshot_lines width (samples_of sources.now.lists) sources.now.order
        (snapshot_places (Some every) (length sources.now.order)))
        (W.contents out.old) (W.contents out.new)) }
    ensures output { IsErrOf result PieceFault.Output
        → W.failures out.new ≡ one_more (W.failures out.old) }
    ensures unfailed { result ≢ Err PieceFault.Output → W.failures out.new ≡ W.failures out.old }
{
    let mut growing = GrowingStacks::of(alloc, sources.lists())?;
    let mut at = 0;
    for source in sources.order() {
        growing.take(*source as usize);
        at += 1;
        send_due(alloc, &mut growing, at, every, width, out)?;
    }
    Ok(())
}

// Sends the line of the samples that came so far, if a snapshot is due after so many.
fn send_due<W: Outlet>(
    alloc: Global,
    growing: &mut GrowingStacks<'_>,
    at: u64,
    every: u64,
    width: Width,
    out: &mut W,
) -> Result<(), PieceFault>
    requires { 1 ≤ every }
    ensures ok { OnOk result
        (Appends (W.contents out.old) (W.contents out.new) (due_line width every at growing.old)) }
    ensures front { OnErr result
        (AppendsFront (due_line width every at growing.old) (W.contents out.old) (W.contents out.new)) }
    ensures output { IsErrOf result PieceFault.Output
        → W.failures out.new ≡ one_more (W.failures out.old) }
    ensures unfailed { result ≢ Err PieceFault.Output → W.failures out.new ≡ W.failures out.old }
    ensures lists { growing.new.lists ≡ growing.old.lists }
    ensures counts { growing.new.counts ≡ growing.old.counts }
{
    if at % every == 0 {
        growing.merge(alloc)?;
        send_moment(alloc, growing, at, width, out)?;
    }
    Ok(())
}

// Sends the line of the samples that came so far, whose stacks were merged.
fn send_moment<W: Outlet>(
    alloc: Global,
    growing: &GrowingStacks<'_>,
    at: u64,
    width: Width,
    out: &mut W,
) -> Result<(), PieceFault>
    requires { ranked_samples growing.now.merged
        ≡ merged_samples (all_samples (fronts growing.now.lists growing.now.counts)) }
    ensures ok { OnOk result
        (Appends (W.contents out.old) (W.contents out.new) (moment_line width at growing.now)) }
    ensures front { OnErr result
        (AppendsFront (moment_line width at growing.now) (W.contents out.old) (W.contents out.new)) }
    ensures output { IsErrOf result PieceFault.Output
        → W.failures out.new ≡ one_more (W.failures out.old) }
    ensures unfailed { result ≢ Err PieceFault.Output → W.failures out.new ≡ W.failures out.old }
{
    let stacks = growing.merged();
    let chart = draw_merged(alloc, stacks)?;
    let total = stacks.total();
    let line = drawn_snapshot_line(at, growing.counts(), &chart, Scale { total, width });
    send_pieces(alloc, &line, out)
}
