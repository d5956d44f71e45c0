//! Laws of the pictures, over the definitions alone. Each function states one for all lists of
//! samples, does nothing, and takes no memory.

ghost use Rattle.std.specs.Prelude.{◌≡◌, ◌+◌, ◌<◌, ◌≤◌, ◌++◌, ◌∷◌, ℕ, List, Contains, All, IsPermutation, map};
ghost use Rattle.std.specs.List.{AllZip};
ghost use Rattle.sample_tables.specs.declared.samples.Sample.{Sample};
ghost use Rattle.flame_layout.specs.declared.boxes.SpanBox.{SpanBox};
ghost use Rattle.merged_stacks.specs.Timeline.{drawn, total_weight};
ghost use Rattle.flame_layout.specs.Chart.{chart_of};
ghost use Rattle.flame_layout.specs.Graph.{graph_of, sorted_by_stack};
ghost use Rattle.merged_stacks.specs.Merged.{merged_samples};
ghost use Rattle.flame_layout.specs.Edges.{left_edge, right_edge};
ghost use Rattle.flame_layout.specs.Paths.{SameOwn, paths_of, total_at};
ghost use Rattle.flame_layout.specs.Comparison.{comparison_of, row_of, compared_boxes_of};
ghost use Rattle.flame_layout.specs.Runs.{IsLongestRun, run_box, IsOfRun, HasPath, IsListed, DontOverlap, LiesInside};
ghost use Rattle.flame_layout.specs.Laws.{HasOneBoxAPath, AreComparedPaths, SpansWidth};

/// Each longest run of a timeline has its box in the chart.
pub fn runs_have_boxes()
    ensures { (depth : ℕ) (before : List Sample) (first : Sample) (more after : List Sample)
        → IsLongestRun depth before first more after
        → Contains (chart_of (before ++ (first ∷ more ++ after)))
        (run_box depth before first more) }
{}

/// Each box of a chart is that of a longest run.
pub fn boxes_have_runs()
    ensures { (samples : List Sample) (span : SpanBox) → Contains (chart_of samples) span
        → IsOfRun samples span }
{}

/// The boxes and the paths of a timeline stand in step, box by box.
pub fn boxes_have_paths()
    ensures { (samples : List Sample)
        → AllZip (HasPath samples) (chart_of samples) (paths_of samples) }
{}

/// Where all weights are positive, the boxes are listed by start, then depth, so each stands there once.
pub fn boxes_are_listed()
    ensures { (samples : List Sample) → All (λ sample. 0 < sample.weight) samples
        → IsListed (chart_of samples) }
{}

/// A graph is given by the own sums of its samples' stacks.
pub fn graphs_are_their_sums()
    ensures { (one other : List Sample) → SameOwn one other → graph_of one ≡ graph_of other }
{}

/// Merging keeps the own sum of each stack.
pub fn merging_keeps_sums()
    ensures { (samples : List Sample) → SameOwn samples (merged_samples samples) }
{}

/// The same samples in another order give the same graph.
pub fn graphs_see_no_order()
    ensures { (one other : List Sample) → IsPermutation one other → graph_of one ≡ graph_of other }
{}

/// Each path with weight has one box in the graph, with the path's sums, and no other path has one.
pub fn graphs_have_one_box_a_path()
    ensures { (samples : List Sample) → HasOneBoxAPath samples }
{}

/// A box of depth above 0 lies inside a box of its path without the last name.
pub fn boxes_lie_inside()
    ensures { (samples : List Sample) (depth : ℕ) (before : List Sample) (first : Sample)
        (more after : List Sample) → samples ≡ before ++ (first ∷ more ++ after)
        → IsLongestRun (depth + 1) before first more after
        → LiesInside samples depth before first more }
{}

/// Two boxes of one depth do not overlap.
pub fn boxes_stand_apart()
    ensures { (samples : List Sample) → DontOverlap (chart_of samples) }
{}

/// Where a box ends at the start of another their edges are equal.
pub fn neighbours_share_edges()
    ensures { (total width : ℕ) (one other : SpanBox) → one.start + one.weight ≡ other.start
        → right_edge total width one ≡ left_edge total width other }
{}

/// What lies inside a box is drawn inside it.
pub fn edges_keep_order()
    ensures lefts { (total width : ℕ) (outer inner : SpanBox) → 0 < total
        → outer.start ≤ inner.start → left_edge total width outer ≤ left_edge total width inner }
    ensures rights { (total width : ℕ) (outer inner : SpanBox) → 0 < total
        → inner.start + inner.weight ≤ outer.start + outer.weight
        → right_edge total width inner ≤ right_edge total width outer }
{}

/// The root spans 0 to the width.
pub fn roots_span_the_width()
    ensures { (samples : List Sample) (width : ℕ) → 0 < total_weight samples
        → SpansWidth (total_weight samples) width (chart_of samples) }
{}

/// The rows of a comparison are those of the paths with weight on either side, each once, sorted by
/// path.
pub fn comparisons_have_all_paths()
    ensures { (before after : List Sample)
        → AreComparedPaths before after (paths_of (sorted_by_stack (drawn (before ++ after)))) }
{}

/// The boxes of a comparison are those of the second profile's graph, each with the first profile's
/// total of its path.
pub fn compared_boxes_are_of_the_graph()
    ensures spans { (before after : List Sample)
        → map (λ compared. compared.span) (compared_boxes_of before after) ≡ graph_of after }
    ensures totals { (before after : List Sample)
        → map (λ compared. compared.before) (compared_boxes_of before after)
        ≡ map (λ path. total_at path before) (paths_of (sorted_by_stack (drawn after))) }
{}
