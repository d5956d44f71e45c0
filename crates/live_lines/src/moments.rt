//! What is written of a moment of samples that come.

ghost use Rattle.std.specs.Prelude.{◌≡◌, ◌≤◌, ◌<◌, ◌+◌, ◌^◌, All, IfOk, length};
ghost use Rattle.std.specs.List.{concat};
ghost use Rattle.function_sums.specs.FunctionSums.{AreFunctionSums};
ghost use Rattle.merging.specs.Snapshots.{samples_of_pairs};
ghost use Rattle.run_options.specs.declared.orders.FunctionOrder.TheVariants.{Own};
ghost use Rattle.live_lines.specs.Lines.{line_now};
ghost use Rattle.live_lines.specs.checked.Merges.{IsLiveMerge, has_more, shown_text};
ghost use Rattle.live_lines.specs.checked.Sends.{WasSent};
ghost use Rattle.live_lines.specs.declared.form.LiveForm.TheVariants.{Lines, Pages, Table};

use crate::form::LiveForm;
use crate::frames::{Standing, frame_of, last_of};
use crate::merge::LiveLine;
use byte_io::{Literal, Outlet, PieceFault, Pieces, send_pieces};
use flame_layout::{Chart, Width, draw_merged};
use function_sums::{FunctionSum, Order, function_sums};
use merged_stacks::{Alone, MergedStacks};
use merging::RowMerge;
use source_views::send_growing_page;
use std::alloc::{AllocError, Global};
use view_texts::{JsonLine, Scale, drawn_line, drawn_snapshot_line};

// What is asked of a merge: which line, after how many samples, with a count for each source.
#[derive(Clone, Copy)]
pub(crate) struct Moment<'a> {
    pub(crate) line: LiveLine,
    pub(crate) at: u64,
    pub(crate) counts: &'a [u64],
    pub(crate) width: Width,
}

// Sends what is written of a moment.
pub(crate) fn send_moment<W: Outlet>(
    alloc: Global,
    form: LiveForm,
    rows: &RowMerge,
    moment: &Moment<'_>,
    out: &mut W,
) -> Result<(), PieceFault>
    requires { IsLiveMerge rows.now moment.now.counts.now moment.now.at }
    ensures { WasSent
        (line_now form moment.now.line (length moment.now.counts.now) moment.now.width rows.now)
        result (W.contents out.old) (W.contents out.new)
        (W.failures out.old) (W.failures out.new) (W.is_flushed out.new) }
{
    match form {
        LiveForm::Lines => send_line(alloc, rows, moment, out),
        LiveForm::Pages => send_page(alloc, rows, moment, out),
        LiveForm::Table { every } => send_table(alloc, rows, every, moment, out),
    }
}

// Sends the line of a moment.
fn send_line<W: Outlet>(
    alloc: Global,
    rows: &RowMerge,
    moment: &Moment<'_>,
    out: &mut W,
) -> Result<(), PieceFault>
    requires { IsLiveMerge rows.now moment.now.counts.now moment.now.at }
    ensures { WasSent
        (line_now Lines moment.now.line (length moment.now.counts.now) moment.now.width rows.now)
        result (W.contents out.old) (W.contents out.new)
        (W.failures out.old) (W.failures out.new) (W.is_flushed out.new) }
{
    let merged = rows.merged(alloc, &Alone)?;
    let chart = draw_merged(alloc, &merged)?;
    let scale = Scale {
        total: rows.total(),
        width: moment.width,
    };
    let line = json_line(moment.line, moment.at, moment.counts, &chart, scale);
    send_pieces(alloc, &line, out)
}

// Sends the page of a moment, of which more is to come, or the last one.
fn send_page<W: Outlet>(
    alloc: Global,
    rows: &RowMerge,
    moment: &Moment<'_>,
    out: &mut W,
) -> Result<(), PieceFault>
    ensures { WasSent
        (line_now Pages moment.now.line (length moment.now.counts.now) moment.now.width rows.now)
        result (W.contents out.old) (W.contents out.new)
        (W.failures out.old) (W.failures out.new) (W.is_flushed out.new) }
{
    let merged = rows.merged(alloc, &Alone)?;
    send_growing_page(alloc, &merged, has_more(moment.line), out)
}

// Whether more is to come behind a line.
fn has_more(line: LiveLine) -> bool
    ensures { result ≡ has_more line }
{
    matches!(line, LiveLine::Snapshot)
}

// Sends the frame of a moment, or the last table.
fn send_table<W: Outlet>(
    alloc: Global,
    rows: &RowMerge,
    every: u64,
    moment: &Moment<'_>,
    out: &mut W,
) -> Result<(), PieceFault>
    requires { moment.now.at ≡ length rows.now }
    ensures { WasSent
        (line_now (Table every) moment.now.line (length moment.now.counts.now) moment.now.width rows.now)
        result (W.contents out.old) (W.contents out.new)
        (W.failures out.old) (W.failures out.new) (W.is_flushed out.new) }
{
    let text = table_text(alloc, rows, every, moment)?;
    let text = Literal {
        bytes: text.as_slice(),
    };
    send_pieces(alloc, &text, out)
}

// The text of that.
fn table_text(
    alloc: Global,
    rows: &RowMerge,
    every: u64,
    moment: &Moment<'_>,
) -> Result<Vec<u8>, AllocError>
    requires { moment.now.at ≡ length rows.now }
    ensures { IfOk result (λ text. text.items
        ≡ line_now (Table every) moment.now.line (length moment.now.counts.now) moment.now.width rows.now) }
{
    let whole = rows.total();
    let sums = own_sums(alloc, rows)?;
    match moment.line {
        LiveLine::Snapshot => {
            let standing = Standing {
                at: moment.at,
                sources: moment.counts.len(),
                has_frame: every < moment.at,
            };
            frame_of(alloc, standing, &sums, whole)
        }
        LiveLine::Graph => last_of(alloc, every <= moment.at, &sums, whole),
    }
}

/// The sums of the functions of all samples, the greatest own weight first.
fn own_sums(alloc: Global, rows: &RowMerge) -> Result<Vec<FunctionSum>, AllocError>
    ensures { IfOk result (λ sums. AreFunctionSums Own (samples_of_pairs rows.now) sums.items) }
{
    let merged = rows.merged(alloc, &Alone)?;
    function_sums(alloc, &merged, Order::Own)
}

/// The line of boxes, of so many samples with a count for each source.
fn json_line<'a, 'n>(
    line: LiveLine,
    at: u64,
    counts: &'a [u64],
    chart: &'a Chart<'n, MergedStacks>,
    scale: Scale,
) -> JsonLine<'a, &'a Chart<'n, MergedStacks>>
    requires within { All (λ span. span.start + span.weight ≤ scale.total) chart.now }
    requires positive { 0 < length chart.now → 0 < scale.total }
    ensures text { concat (⟦<JsonLine<'a, &'a Chart<'n, MergedStacks>> as Pieces>⟧.pieces result)
        ≡ shown_text line at counts.now scale.total scale.width chart.now }
    ensures few { length (⟦<JsonLine<'a, &'a Chart<'n, MergedStacks>> as Pieces>⟧.pieces result) < 2 ^ 64 }
{
    match line {
        LiveLine::Snapshot => drawn_snapshot_line(at, counts, chart, scale),
        LiveLine::Graph => drawn_line("graph", chart, scale),
    }
}
