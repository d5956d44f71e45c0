//! The laws over the definitions of sources, views and texts, for all lists.
ghost use Rattle.std.specs.Prelude.{◌≡◌, ℕ, false, List, [], All, None, map};
ghost use Rattle.sample_tables.specs.declared.samples.Sample.{Sample};
ghost use Rattle.run_options.specs.declared.choices.Naming.{Naming};
ghost use Rattle.run_options.specs.declared.choices.Pick.{Pick};
ghost use Rattle.run_options.specs.declared.formats.Format.{Format};
ghost use Rattle.folded_lines.specs.LastNames.{last_ends_in_number};
ghost use Rattle.merged_stacks.specs.Timeline.{drawn};
ghost use Rattle.source_lists.specs.Sources.{read_bytes};
ghost use Rattle.command_line.specs.declared.plans.View.{View};
ghost use Rattle.view_texts.specs.Parts.{IsFoldable, refolded};
ghost use Rattle.source_views.specs.SumViews.{SeesSums};
ghost use Rattle.source_views.specs.Texts.{view_text};

pub use folded_lines::laws::{lines_read_back, names_read_back, text_reads_as_its_parts};
pub use function_sums::laws::{
    change_lines_read_back, changes_are_listed, function_lines_read_back, functions_are_listed,
    percentages_are_rounded, tables_are_one,
};
pub use merging::laws::{
    all_samples_come, counts_have_each_source, counts_never_fall, lines_and_addresses_read_back,
    samples_read_back,
};
pub use view_texts::laws::{
    folds_are_of_the_whole, folds_see_no_order, json_lines_read_back, merged_rows, merging_goes_on,
    pairs_have_all_stacks, text_folds_in_parts,
};

/// The text of the folds of sources is the text of the sources, for every view but a chart, and without
/// snapshots. A source may be folded first where no stack with weight has a last name that ends in a
/// space or tab and a number.
pub fn folds_are_seen_alike()
    ensures text { (view : View) (lists : List (List Sample)) → SeesSums view
        → All IsFoldable lists
        → view_text view (map refolded lists) [] None ≡ view_text view lists [] None }
    ensures foldable { (format : Format) (bytes : List ℕ) (pick : Pick) (naming : Naming)
        → All (λ sample. last_ends_in_number sample.stack ≡ false)
        (drawn (read_bytes format bytes pick naming).samples)
        → IsFoldable (read_bytes format bytes pick naming).samples }
{}
