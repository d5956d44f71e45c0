//! The lines of a flame graph and of a flame chart.
ghost use Rattle.std.specs.Prelude.{◌≡◌, ◌<◌, ◌^◌, List, length};
ghost use Rattle.std.specs.List.{concat};
ghost use Rattle.flame_layout.specs.Chart.{chart_of};
ghost use Rattle.flame_layout.specs.Graph.{graph_of};
ghost use Rattle.merged_stacks.specs.Timeline.{samples_of, timeline, total_weight};
ghost use Rattle.sample_tables.specs.declared.samples.Sample.{Sample};
ghost use Rattle.source_views.specs.Texts.{chart_text, graph_line};

use byte_io::Pieces;
use flame_layout::{Chart, Width};
use merged_stacks::MergedStacks;
use source_lists::SourceLists;
use stack_core::SourceList;
use view_texts::{JsonLine, Scale, drawn_line};

// The line of the chart.
pub(crate) fn drawn_chart<'a, 'n>(
    sources: &SourceLists,
    chart: &'a Chart<'n, SourceList>,
    width: Width,
) -> JsonLine<'a, &'a Chart<'n, SourceList>>
    requires boxes { chart.now ≡ chart_of (timeline (samples_of sources.now.lists)) }
    ensures text { concat (⟦<JsonLine<'a, &'a Chart<'n, SourceList>> as Pieces>⟧.pieces result)
        ≡ chart_text width (samples_of sources.now.lists) }
    ensures few { length (⟦<JsonLine<'a, &'a Chart<'n, SourceList>> as Pieces>⟧.pieces result) < 2 ^ 64 }
{
    let total = sources.total();
    drawn_line("chart", chart, Scale { total, width })
}

// The line of the graph alone, of samples that weigh so much.
pub(crate) fn drawn_graph<'a, 'n>(
    total: u64,
    chart: &'a Chart<'n, MergedStacks>,
    width: Width,
) -> JsonLine<'a, &'a Chart<'n, MergedStacks>>
    requires { (samples : List Sample) × (chart.now ≡ graph_of samples) × (total ≡ total_weight samples) }
    ensures text { (samples : List Sample) → chart.now ≡ graph_of samples → total ≡ total_weight samples
        → concat (⟦<JsonLine<'a, &'a Chart<'n, MergedStacks>> as Pieces>⟧.pieces result) ≡ graph_line width samples }
    ensures few { length (⟦<JsonLine<'a, &'a Chart<'n, MergedStacks>> as Pieces>⟧.pieces result) < 2 ^ 64 }
{
    drawn_line("graph", chart, Scale { total, width })
}
