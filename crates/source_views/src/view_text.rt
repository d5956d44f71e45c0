//! The text of a view of what was collected, sent while it is made, or appended.
ghost use Rattle.std.specs.Prelude.{◌≡◌, ◌≤◌, ◌<◌, ◌^◌, ◌++◌, IfSome, OnOk, OnErr, is_ok, length};
ghost use Rattle.merged_stacks.specs.Timeline.{samples_of, total_weight};
ghost use Rattle.view_texts.specs.Fold.{fold_text};
ghost use Rattle.view_texts.specs.Pairs.{pairs_text};
ghost use Rattle.merging.specs.Sums.{all_samples};
ghost use Rattle.command_line.specs.Plans.{IsComparison};
ghost use Rattle.source_views.specs.Texts.{chart_text, graph_text, graph_line, pair_boxes_text, told_text, top_text, view_text};
ghost use Rattle.function_sums.specs.Told.{told_of};
ghost use Rattle.source_views.specs.Failures.{Flushes, Sends};
ghost use Rattle.stack_core.specs.Interleaving.{list_of};

use crate::change_texts::send_diff;
use crate::drawings::lend_chart;
use crate::drawn_texts::{drawn_chart, drawn_graph};
use crate::failures::Failure;
use crate::functions::weigh_functions;
use crate::long_texts::OneOf;
use crate::shown::Shown;
use crate::snapshot_texts::send_snapshots;
use crate::view_set::Views;
use crate::workers::{Workers, send_text};
use byte_io::{CountedWriter, Outlet, truncate_on_error};
use command_line::{TopTable, View};
use flame_layout::{Width, draw_merged, draw_paired};
use function_sums::{SumLine, Table, Telling};
use merged_stacks::{Alone, PairedStacks};
use source_lists::SourceLists;
use stack_core::SourceList;
use std::alloc::{AllocError, Global};
use std::mem;
use view_texts::{FoldedText, PairedText, Scale, drawn_comparison_line};

/// What is asked of a text.
#[derive(Clone, Copy)]
pub struct AskedText<'a> {
    pub view: View,
    /// After how many samples more a graph has a snapshot.
    pub every: Option<u64>,
    /// What a table of functions tells of the samples.
    pub telling: Telling<'a>,
}

/// Appends the whole text of a view: folded lines, two-column lines, lines of JSON, or a table. An `Err` changes
/// nothing. The views of a comparison are of exactly two sources.
pub fn render(alloc: Global, views: &Views, view: View, out: &mut Vec<u8>) -> Result<(), AllocError>
    requires pairs { IsComparison view → length views.now.lists ≡ 2 }
    ensures ok { OnOk result (out.new.items ≡ out.old.items
        ++ view_text view (samples_of views.now.lists) views.now.order views.now.every) }
    ensures err { OnErr result (out.new.items ≡ out.old.items) }
{
    let gathered = views.gathered();
    let asked = AskedText {
        view,
        every: gathered.every(),
        telling: Telling::nothing(),
    };
    let before = out.len();
    let mut outlet = CountedWriter::new(mem::replace(out, Vec::new(alloc)));
    let shown = Shown::lent(gathered.sources());
    let sent = send_view(&Alone, alloc, shown, &asked, &mut outlet);
    *out = outlet.into_inner();
    truncate_on_error(out, before, allocated(&sent))
}

// A text that goes into memory fails for want of it alone.
fn allocated(sent: &Result<(), Failure>) -> Result<(), AllocError>
    ensures { is_ok result ≡ is_ok sent.now }
{
    match sent {
        Ok(()) => Ok(()),
        Err(_) => Err(AllocError),
    }
}

/// Sends the text of a view, and draws no more than that view needs. Each snapshot of a graph is drawn when the one
/// before it is out.
pub fn send_view<H: Workers, W: Outlet>(
    workers: &H,
    alloc: Global,
    sources: Shown<'_>,
    asked: &AskedText<'_>,
    out: &mut W,
) -> Result<(), Failure>
    requires pairs { IsComparison asked.now.view → length sources.lists ≡ 2 }
    requires every { IfSome asked.now.every (λ every. 1 ≤ every) }
    ensures sent { Sends (told_text (told_of asked.now.telling) asked.now.view (samples_of sources.entry.lists) sources.entry.order asked.now.every)
        (W.contents out.old) (W.contents out.new) result }
    ensures flushed { Flushes (W.is_flushed out.new) (W.failures out.old) (W.failures out.new)
        result }
{
    match asked.view {
        View::Fold => send_fold(workers, alloc, sources, out),
        View::Graph(width) => send_graphs(workers, alloc, sources, width, asked.every, out),
        View::Chart(width) => send_chart(workers, alloc, sources.get(), width, out),
        View::Pairs => send_pairs(workers, alloc, sources.get(), out),
        View::PairBoxes(width) => {
            let lists = sources.get().lists();
            send_compared(workers, alloc, &lists[0], &lists[1], width, out)
        }
        View::Top(top) => send_top(workers, alloc, sources, top, &asked.telling, out),
        View::Diff(diff) => send_diff(alloc, sources.get(), diff, &asked.telling, out),
    }
}

// Sends the fold text of all samples.
fn send_fold<H: Workers, W: Outlet>(
    workers: &H,
    alloc: Global,
    sources: Shown<'_>,
    out: &mut W,
) -> Result<(), Failure>
    ensures sent { Sends (fold_text (all_samples (samples_of sources.entry.lists)))
        (W.contents out.old) (W.contents out.new) result }
    ensures flushed { Flushes (W.is_flushed out.new) (W.failures out.old) (W.failures out.new)
        result }
{
    let merged = sources.merged(workers, alloc)?;
    workers.send(alloc, &OneOf::First(FoldedText::of(&merged)), out)
}

// Sends the lines of the snapshots of a graph, where they are asked for, and then the graph's own.
fn send_graphs<H: Workers, W: Outlet>(
    workers: &H,
    alloc: Global,
    sources: Shown<'_>,
    width: Width,
    every: Option<u64>,
    out: &mut W,
) -> Result<(), Failure>
    requires { IfSome every (λ every. 1 ≤ every) }
    ensures sent { Sends (graph_text width (samples_of sources.entry.lists) sources.entry.order every)
        (W.contents out.old) (W.contents out.new) result }
    ensures flushed { Flushes (W.is_flushed out.new) (W.failures out.old) (W.failures out.new)
        result }
{
    match every {
        Some(every) => send_snapshots(workers, alloc, sources.get(), width, every, out),
        None => send_graph(workers, alloc, sources, width, out),
    }
}

// Sends the line of the graph alone.
fn send_graph<H: Workers, W: Outlet>(
    workers: &H,
    alloc: Global,
    sources: Shown<'_>,
    width: Width,
    out: &mut W,
) -> Result<(), Failure>
    ensures sent { Sends (graph_line width (all_samples (samples_of sources.entry.lists)))
        (W.contents out.old) (W.contents out.new) result }
    ensures flushed { Flushes (W.is_flushed out.new) (W.failures out.old) (W.failures out.new)
        result }
{
    let total = sources.total();
    let merged = sources.merged(workers, alloc)?;
    let chart = draw_merged(alloc, &merged)?;
    let line = drawn_graph(total, &chart, width);
    workers.send(alloc, &OneOf::Second(OneOf::First(line)), out)
}

// Sends the line of the chart.
fn send_chart<H: Workers, W: Outlet>(
    workers: &H,
    alloc: Global,
    sources: &SourceLists,
    width: Width,
    out: &mut W,
) -> Result<(), Failure>
    ensures sent { Sends (chart_text width (samples_of sources.now.lists))
        (W.contents out.old) (W.contents out.new) result }
    ensures flushed { Flushes (W.is_flushed out.new) (W.failures out.old) (W.failures out.new)
        result }
{
    let chart = lend_chart(alloc, sources)?;
    let line = drawn_chart(sources, &chart, width);
    workers.send(
        alloc,
        &OneOf::Second(OneOf::Second(OneOf::First(line))),
        out,
    )
}

// Sends the two-column text of the first two sources.
fn send_pairs<H: Workers, W: Outlet>(
    workers: &H,
    alloc: Global,
    sources: &SourceLists,
    out: &mut W,
) -> Result<(), Failure>
    requires { length sources.now.lists ≡ 2 }
    ensures sent { Sends (pairs_text (list_of (samples_of sources.now.lists) 0)
        (list_of (samples_of sources.now.lists) 1)) (W.contents out.old) (W.contents out.new) result }
    ensures flushed { Flushes (W.is_flushed out.new) (W.failures out.old) (W.failures out.new)
        result }
{
    let lists = sources.lists();
    let stacks = PairedStacks::of(alloc, &lists[0], &lists[1], workers)?;
    send_text(alloc, &PairedText::of(&stacks), out)
}

// Sends the flame graph of the second profile, with the weights of the first.
fn send_compared<H: Workers, W: Outlet>(
    workers: &H,
    alloc: Global,
    before: &SourceList,
    after: &SourceList,
    width: Width,
    out: &mut W,
) -> Result<(), Failure>
    requires before { total_weight before.now.samples < 2 ^ 64 }
    requires after { total_weight after.now.samples < 2 ^ 64 }
    ensures sent { Sends (pair_boxes_text width before.now.samples after.now.samples)
        (W.contents out.old) (W.contents out.new) result }
    ensures flushed { Flushes (W.is_flushed out.new) (W.failures out.old) (W.failures out.new)
        result }
{
    let stacks = PairedStacks::of(alloc, before, after, workers)?;
    let boxes = draw_paired(alloc, &stacks, before, after)?;
    let total = after.total() as u64;
    let scale = Scale { total, width };
    let line = drawn_comparison_line(before.total() as u64, boxes.as_slice(), scale);
    workers.send(
        alloc,
        &OneOf::Second(OneOf::Second(OneOf::Second(line))),
        out,
    )
}

// Sends the heaviest functions, as a table or as a line of JSON.
fn send_top<H: Workers, W: Outlet>(
    workers: &H,
    alloc: Global,
    sources: Shown<'_>,
    top: TopTable,
    telling: &Telling<'_>,
    out: &mut W,
) -> Result<(), Failure>
    ensures sent { Sends (top_text (told_of telling.now) top (all_samples (samples_of sources.entry.lists)))
        (W.contents out.old) (W.contents out.new) result }
    ensures flushed { Flushes (W.is_flushed out.new) (W.failures out.old) (W.failures out.new)
        result }
{
    let whole = sources.total();
    let sums = weigh_functions(workers, alloc, sources, top.by)?;
    // The same, for as long as the sums are lent.
    let telling = Telling {
        whole: telling.whole,
        type_name: telling.type_name,
        unit: telling.unit,
    };
    if top.is_json {
        send_text(alloc, &SumLine::of(&sums, top.rows, whole, &telling), out)
    } else {
        let table = Table::of_functions(alloc, &sums, top.rows, whole, &telling, top.is_exact)?;
        send_text(alloc, &table, out)
    }
}
