//! Laws over the definitions, for all lists. Each function does nothing, and takes no memory.
ghost use Rattle.std.specs.Prelude.{◌≡◌, ◌++◌, ℕ, List, Some, length};
ghost use Rattle.sample_tables.specs.declared.samples.Sample.{Sample};
ghost use Rattle.stack_core.specs.Interleaving.{IsInterleaving, interleaved};
ghost use Rattle.merging.specs.Snapshots.{snapshot_places};
ghost use Rattle.source_views.specs.Texts.{graph_text, snapshot_lines};
ghost use Rattle.live_lines.specs.Lines.{live_lines, live_text};
ghost use Rattle.live_lines.specs.declared.form.LiveForm.TheVariants.{Lines};

/// The lines of samples in the order in which they came, and the line of their graph, are the text of the graph of their lists.
pub fn lines_are_of_graph()
    ensures lines { (sources width every : ℕ) (lists : List (List Sample)) (order : List ℕ)
        → IsInterleaving order lists → length lists ≡ sources
        → live_lines Lines sources width every (interleaved order lists)
        ≡ snapshot_lines width lists order (snapshot_places (Some every) (length order)) }
    ensures text { (sources width every : ℕ) (lists : List (List Sample)) (order : List ℕ)
        → IsInterleaving order lists → length lists ≡ sources
        → live_text Lines sources width every (interleaved order lists) ≡ graph_text width lists order (Some every) }
{}
