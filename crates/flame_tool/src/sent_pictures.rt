//! Pictures of what was collected, sent while they are made.
ghost use Rattle.std.specs.Prelude.{◌≡◌, ◌<◌, ◌^◌, length};
ghost use Rattle.flame_layout.specs.Chart.{chart_of};
ghost use Rattle.flame_layout.specs.Comparison.{compared_boxes_of};
ghost use Rattle.flame_layout.specs.Graph.{graph_of};
ghost use Rattle.merged_stacks.specs.Timeline.{samples_of, timeline, total_weight};
ghost use Rattle.merging.specs.Sums.{all_samples};
ghost use Rattle.command_line.specs.Plans.{IsComparison};
ghost use Rattle.svg_texts.specs.Drawn.{picture_of};
ghost use Rattle.svg_texts.specs.Svg.{compared_svg, plain_svg};
ghost use Rattle.flame_tool.specs.Pages.{picture_text};
ghost use Rattle.flame_tool.specs.Pictures.{compared_in, framed_text, picture_in};
ghost use Rattle.flame_tool.specs.checked.Frames.{frame_of};
ghost use Rattle.source_views.specs.Failures.{Flushes, Sends};

use crate::headings::{Said, common, described_sources, title_of};
use crate::run_facts::RunFacts;
use crate::sent_texts::send_plain_view;
use byte_io::Outlet;
use command_line::{PictureForm, Plan, View};
use flame_layout::{Width, draw_merged, draw_paired};
use merged_stacks::PairedStacks;
use source_lists::SourceLists;
use source_views::{Failure, InThreads, lend_chart, merge_given, send_long_text};
use stack_core::SourceList;
use std::alloc::Global;
use std::thread::Threads;
use svg_texts::{Picture, Svg};

// A picture that a plan asks for.
#[derive(Clone, Copy)]
pub(crate) struct AskedPicture<'a> {
    pub(crate) plan: &'a Plan,
    pub(crate) facts: &'a RunFacts,
    // What the words say of it.
    pub(crate) form: &'a PictureForm,
}

// What stands round the boxes of a picture, whatever its view.
#[derive(Clone, Copy)]
struct Frame<'a> {
    title: &'a str,
    unit: &'a str,
    is_root_below: bool,
    is_share: bool,
}

impl<'a> Frame<'a> {
    // The picture of boxes that span so much, in so many pixels.
    fn picture(&self, width: Width, total: u64) -> Picture<'a>
        ensures { picture_of result ≡ picture_in (frame_of self.now) width total }
    {
        Picture {
            title: self.title,
            unit: self.unit,
            total,
            total_before: None,
            width,
            root_below: self.is_root_below,
        }
    }

    // That of a comparison, where both profiles weigh so much.
    fn compared(&self, width: Width, before: u64, after: u64) -> Picture<'a>
        ensures { picture_of result ≡ compared_in (frame_of self.now) width before after }
    {
        let picture = self.picture(width, after);
        Picture {
            total_before: if self.is_share { Some(before) } else { None },
            ..picture
        }
    }
}

// Sends the picture that a plan asks for. It has no snapshots.
pub(crate) fn send_asked_picture<T: Threads, W: Outlet>(
    rt: &T,
    alloc: Global,
    sources: SourceLists,
    asked: &AskedPicture<'_>,
    out: &mut W,
) -> Result<(), Failure>
    requires pairs { IsComparison asked.now.plan.now.view → length sources.lists ≡ 2 }
    ensures sent { Sends (picture_text asked.now.plan.now asked.now.facts.now asked.now.form.now (samples_of sources.lists))
        (W.contents out.old) (W.contents out.new) result }
    ensures flushed { Flushes (W.is_flushed out.new) (W.failures out.old) (W.failures out.new)
        result }
{
    let files = asked.plan.files.get();
    let title = title_of(alloc, &asked.form.title, files)?;
    let types = asked.facts.types.get();
    let described = described_sources(alloc, files, asked.plan.unit, types, &sources)?;
    let frame = Frame {
        title: &title,
        unit: common(&described, Said::Unit),
        is_root_below: asked.form.is_root_below,
        is_share: asked.form.is_share,
    };
    send_framed(rt, alloc, sources, asked.plan.view, &frame, out)
}

// Sends the picture of a view in a frame, or the text of a view that has no boxes.
fn send_framed<T: Threads, W: Outlet>(
    rt: &T,
    alloc: Global,
    sources: SourceLists,
    view: View,
    frame: &Frame<'_>,
    out: &mut W,
) -> Result<(), Failure>
    requires pairs { IsComparison view → length sources.lists ≡ 2 }
    ensures sent { Sends (framed_text (frame_of frame.now) view (samples_of sources.lists))
        (W.contents out.old) (W.contents out.new) result }
    ensures flushed { Flushes (W.is_flushed out.new) (W.failures out.old) (W.failures out.new)
        result }
{
    match view {
        View::Graph(width) => {
            let picture = frame.picture(width, sources.total());
            send_graph(rt, alloc, sources, &picture, out)
        }
        View::Chart(width) => {
            let picture = frame.picture(width, sources.total());
            send_chart(rt, alloc, &sources, &picture, out)
        }
        View::PairBoxes(width) => {
            let lists = sources.lists();
            let (before, after) = (lists[0].total() as u64, lists[1].total() as u64);
            let picture = frame.compared(width, before, after);
            send_compared(rt, alloc, &lists[0], &lists[1], &picture, out)
        }
        View::Fold | View::Pairs | View::Top(_) | View::Diff(_) => {
            send_plain_view(&InThreads { rt }, alloc, sources, view, out)
        }
    }
}

// Sends the picture of the graph.
fn send_graph<T: Threads, W: Outlet>(
    rt: &T,
    alloc: Global,
    sources: SourceLists,
    picture: &Picture<'_>,
    out: &mut W,
) -> Result<(), Failure>
    requires { picture.now.total ≡ total_weight (all_samples (samples_of sources.lists)) }
    ensures sent { Sends (plain_svg (picture_of picture.now) (graph_of (all_samples (samples_of sources.lists))))
        (W.contents out.old) (W.contents out.new) result }
    ensures flushed { Flushes (W.is_flushed out.new) (W.failures out.old) (W.failures out.new)
        result }
{
    // The own weights add up to the total, which has 64 bits.
    let _total = picture.total;
    let merged = merge_given(&InThreads { rt }, alloc, sources)?;
    let chart = draw_merged(alloc, &merged)?;
    let svg = Svg::of(alloc, picture, &chart)?;
    send_long_text(rt, alloc, &svg, out)
}

// Sends the picture of the chart.
fn send_chart<T: Threads, W: Outlet>(
    rt: &T,
    alloc: Global,
    sources: &SourceLists,
    picture: &Picture<'_>,
    out: &mut W,
) -> Result<(), Failure>
    requires { picture.now.total ≡ total_weight (timeline (samples_of sources.now.lists)) }
    ensures sent { Sends (plain_svg (picture_of picture.now) (chart_of (timeline (samples_of sources.now.lists))))
        (W.contents out.old) (W.contents out.new) result }
    ensures flushed { Flushes (W.is_flushed out.new) (W.failures out.old) (W.failures out.new)
        result }
{
    // As in `send_graph`.
    let _total = picture.total;
    let chart = lend_chart(alloc, sources)?;
    let svg = Svg::of(alloc, picture, &chart)?;
    send_long_text(rt, alloc, &svg, out)
}

// Sends the picture of the second profile, with the weights of the first.
fn send_compared<T: Threads, W: Outlet>(
    rt: &T,
    alloc: Global,
    before: &SourceList,
    after: &SourceList,
    picture: &Picture<'_>,
    out: &mut W,
) -> Result<(), Failure>
    requires before { total_weight before.now.samples < 2 ^ 64 }
    requires after { total_weight after.now.samples < 2 ^ 64 }
    requires total { picture.now.total ≡ total_weight after.now.samples }
    ensures sent { Sends (compared_svg (picture_of picture.now) (compared_boxes_of before.now.samples after.now.samples))
        (W.contents out.old) (W.contents out.new) result }
    ensures flushed { Flushes (W.is_flushed out.new) (W.failures out.old) (W.failures out.new)
        result }
{
    let stacks = PairedStacks::of(alloc, before, after, &InThreads { rt })?;
    let boxes = draw_paired(alloc, &stacks, before, after)?;
    let svg = Svg::of(alloc, picture, boxes.as_slice())?;
    send_long_text(rt, alloc, &svg, out)
}
