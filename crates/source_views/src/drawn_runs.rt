//! The graph of a run, with those of its snapshots.
ghost use Rattle.std.specs.Prelude.{◌≡◌, ◌<◌, ℕ, List, length, map, Option, None, option_map, IfOk};
ghost use Rattle.std.specs.List.{slice_index_or};
ghost use Rattle.sample_tables.specs.declared.samples.Sample.{Sample};
ghost use Rattle.flame_layout.specs.Boxes.{span_of};
ghost use Rattle.flame_layout.specs.Graph.{graph_of};
ghost use Rattle.flame_layout.specs.Paths.{SameOwn, tree_samples};
ghost use Rattle.merged_stacks.specs.Timeline.{samples_of, total_weight};
ghost use Rattle.merging.specs.Snapshots.{snapshot_places};
ghost use Rattle.merging.specs.Sums.{IsDrawable};
ghost use Rattle.page_texts.specs.Drawn.{drawing_of, moment_of};
ghost use Rattle.source_views.specs.Pages.{plain_drawing, snapshot_drawing};
ghost use Rattle.source_views.specs.checked.DrawnRuns.{drawing_in, drawings_in, drawings_of, drawn_list, places_of};
ghost use Rattle.source_views.specs.checked.Filling.{filled};

use crate::headings::Heading;
use call_tree::{CallTree, FrameTable};
use flame_layout::{DrawnBox, draw_tree};
use merging::Gathered;
use page_texts::{Drawing, Moment};
use std::alloc::{AllocError, Global};

// The graph of a run, and those of its snapshots.
#[derive(Drop)]
pub(crate) struct DrawnRun<'a> {
    pub(crate) snapshots: Vec<DrawnSnapshot<'a>>,
    pub(crate) graph: DrawnGraph<'a>,
}

// A snapshot, with the boxes of its graph.
#[derive(Drop)]
pub(crate) struct DrawnSnapshot<'a> {
    pub(crate) at: u64,
    pub(crate) counts: Vec<u64>,
    pub(crate) graph: DrawnGraph<'a>,
}

// The boxes of a graph, and the sum of the weights of its samples.
#[derive(Drop)]
pub(crate) struct DrawnGraph<'a> {
    pub(crate) total: u64,
    pub(crate) boxes: Vec<DrawnBox<'a>>,
}

// The boxes of the graph of a run, and those of its snapshots.
pub(crate) fn draw_run(alloc: Global, run: &Gathered) -> Result<DrawnRun<'_>, AllocError>
    ensures { IfOk result (λ drawn. (least : Option ℕ) → drawings_in least drawn
        ≡ drawings_of least (samples_of run.now.lists) run.now.order run.now.every) }
{
    let snapshots = draw_snapshots(alloc, run)?;
    let graph = draw_boxes(alloc, run.tree(), run.table())?;
    Ok(DrawnRun { snapshots, graph })
}

// The snapshots of a run, each with the boxes of its graph.
fn draw_snapshots(alloc: Global, run: &Gathered) -> Result<Vec<DrawnSnapshot<'_>>, AllocError>
    ensures { IfOk result (λ drawn. (least : Option ℕ) → map (drawing_in least) drawn.items
        ≡ map (snapshot_drawing least (samples_of run.now.lists) run.now.order)
        (snapshot_places run.now.every (length run.now.order))) }
{
    let mut drawn = Vec::new(alloc);
    for place in 0..run.snapshots().len() {
        drawn.push(draw_snapshot(alloc, run, place)?)?;
    }
    Ok(drawn)
}

// A snapshot of a run, with the boxes of its graph.
fn draw_snapshot(
    alloc: Global,
    run: &Gathered,
    place: usize,
) -> Result<DrawnSnapshot<'_>, AllocError>
    requires { place < length run.now.snapshots }
    ensures { IfOk result (λ drawn. (least : Option ℕ) → drawing_in least drawn
        ≡ snapshot_drawing least (samples_of run.now.lists) run.now.order
        (slice_index_or (places_of run.now.snapshots) place 0)) }
{
    let snapshot = &run.snapshots()[place];
    let counts = filled_counts(alloc, snapshot.counts.get(), run.lists().len())?;
    Ok(DrawnSnapshot {
        at: snapshot.at,
        counts,
        graph: draw_boxes(alloc, &snapshot.tree, run.table())?,
    })
}

// A count for each source, 0 where there is none.
fn filled_counts(alloc: Global, counts: &[u64], sources: usize) -> Result<Vec<u64>, AllocError>
    ensures { IfOk result (λ filling. filling.items ≡ filled sources counts.now) }
{
    let mut filling = Vec::with_capacity(alloc, sources)?;
    for source in 0..sources {
        filling.push(counts.get(source).copied().unwrap_or(0))?;
    }
    Ok(filling)
}

// The boxes of a tree's graph.
fn draw_boxes<'a>(
    alloc: Global,
    tree: &CallTree,
    table: &'a FrameTable,
) -> Result<DrawnGraph<'a>, AllocError>
    requires { IsDrawable table.now tree.now }
    ensures total { IfOk result (λ graph. (samples : List Sample)
        → SameOwn samples (tree_samples table.now tree.now)
        → graph.total ≡ total_weight samples) }
    ensures boxes { IfOk result (λ graph. (samples : List Sample)
        → SameOwn samples (tree_samples table.now tree.now)
        → map span_of graph.boxes.items ≡ graph_of samples) }
{
    let boxes = draw_tree(alloc, tree, table)?;
    let total = tree.total(&[]) as u64;
    Ok(DrawnGraph { total, boxes })
}

// The drawings of the snapshots, and then that of the graph of all samples.
pub(crate) fn run_drawings<'a, 'n>(
    alloc: Global,
    run: &'a DrawnRun<'n>,
    heading: &Heading<'_>,
) -> Result<Vec<Drawing<'a, &'a [DrawnBox<'n>]>>, AllocError>
    ensures { IfOk result (λ drawings. map (drawing_of drawn_list) drawings.items
        ≡ drawings_in heading.now.least run.now) }
{
    let mut drawings = snapshot_drawings(alloc, &run.snapshots, heading)?;
    drawings.push(plain_drawing(&run.graph, None, heading))?;
    Ok(drawings)
}

// The drawings of snapshots.
fn snapshot_drawings<'a, 'n>(
    alloc: Global,
    snapshots: &'a [DrawnSnapshot<'n>],
    heading: &Heading<'_>,
) -> Result<Vec<Drawing<'a, &'a [DrawnBox<'n>]>>, AllocError>
    ensures { IfOk result (λ drawings. map (drawing_of drawn_list) drawings.items
        ≡ map (drawing_in heading.now.least) snapshots.now) }
{
    let mut drawings = Vec::new(alloc);
    for snapshot in snapshots {
        let moment = Moment {
            at: snapshot.at,
            counts: &snapshot.counts,
        };
        drawings.push(plain_drawing(&snapshot.graph, Some(moment), heading))?;
    }
    Ok(drawings)
}

// The drawing of a graph.
fn plain_drawing<'a, 'n>(
    graph: &'a DrawnGraph<'n>,
    moment: Option<Moment<'a>>,
    heading: &Heading<'_>,
) -> Drawing<'a, &'a [DrawnBox<'n>]>
    ensures { drawing_of drawn_list result
        ≡ plain_drawing heading.now.least (option_map moment_of moment.entry) graph.now.total
        (map span_of graph.now.boxes.items) }
{
    heading.drawing(graph.boxes.as_slice(), false, graph.total, moment)
}
