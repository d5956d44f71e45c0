//! Laws over the definitions, for all lists. Each function does nothing, and takes no memory.

ghost use Rattle.std.specs.Prelude.{◌≡◌, ◌<◌, ◌≤◌, ◌^◌, ◌++◌, ◌+◌, ◌*◌, ℕ, false, List, All, IsTrue, IsPermutation, map};
ghost use Rattle.std.specs.List.{concat};
ghost use Rattle.sample_tables.specs.Samples.{total_weight};
ghost use Rattle.sample_tables.specs.declared.samples.TheConstants.{WEIGHT_LIMIT};
ghost use Rattle.sample_tables.specs.declared.samples.Sample.{Sample};
ghost use Rattle.stack_core.specs.declared.endings.SourceEnd.TheVariants as ends;
ghost use Rattle.folded_lines.specs.LastNames.{last_ends_in_number};
ghost use Rattle.folded_lines.specs.Reading.{read_folded};
ghost use Rattle.folded_lines.specs.TextParts.{ReadsAsParts};
ghost use Rattle.flame_layout.specs.Comparison.{comparison_of};
ghost use Rattle.flame_layout.specs.Graph.{graph_of};
ghost use Rattle.merged_stacks.specs.Merged.{all_samples, merged_samples, Weighed, merged, are_in_order, weight_at, if_positive, sum_at};
ghost use Rattle.merged_stacks.specs.Timeline.{Stack, drawn};
ghost use Rattle.flame_layout.specs.declared.boxes.ComparedBox.{ComparedBox};
ghost use Rattle.flame_layout.specs.declared.boxes.SpanBox.{SpanBox};
ghost use Rattle.view_texts.specs.Fold.{fold_text};
ghost use Rattle.view_texts.specs.Json.{boxes_data, boxes_line, snapshot_data, snapshot_line, pair_boxes_data, pair_boxes_line};
ghost use Rattle.view_texts.specs.JsonLaws.{IsJsonLine, IsWithin};
ghost use Rattle.view_texts.specs.Pairs.{pairs_of, AreAllPairs};
ghost use Rattle.view_texts.specs.Parts.{IsFoldable, refolded, fold_of};
ghost use Rattle.view_texts.specs.Quotients.{decimals, nearest};
ghost use Rattle.view_texts.specs.Shares.{hundredths};

/// The merged rows of some samples are in order of their stacks, each stack once. They have each
/// stack with the sum of its samples, unless that is 0. No other rows do.
pub fn merged_rows()
    ensures in_order { (samples : List Weighed) → IsTrue (are_in_order (merged samples)) }
    ensures sums { (samples : List Weighed) (stack : Stack) →
        weight_at (merged samples) stack ≡ if_positive (sum_at samples stack) }
    ensures only { (samples rows : List Weighed) → IsTrue (are_in_order rows)
        → ((stack : Stack) → weight_at rows stack ≡ if_positive (sum_at samples stack))
        → rows ≡ merged samples }
{}

/// Merging goes on from rows that are merged already, and in them each stack has the sum that it has
/// in the samples.
pub fn merging_goes_on()
    ensures rows { (samples more : List Weighed) →
        merged (merged samples ++ more) ≡ merged (samples ++ more) }
    ensures sums { (samples : List Weighed) (stack : Stack) →
        sum_at (merged samples) stack ≡ sum_at samples stack }
{}

/// The fold of the folds of parts is the fold of the whole, and their graph is the graph of the whole,
/// where the fold text of each part reads back. The parts together may weigh more than one source.
/// Where they don't, their fold texts one after another are one source, which reads as all of them.
pub fn folds_are_of_the_whole()
    ensures merged { (part : List Sample) → IsFoldable part → refolded part ≡ merged_samples part }
    ensures clean { (part : List Sample) → IsFoldable part
        → (read_folded (fold_text part)).ending ≡ ends.Clean 0 }
    ensures two { (one other : List Sample) → IsFoldable one → IsFoldable other
        → fold_text (one ++ other) ≡ fold_text (refolded one ++ refolded other) }
    ensures parts { (parts : List (List Sample)) → All IsFoldable parts
        → fold_text (all_samples parts) ≡ fold_text (all_samples (map refolded parts)) }
    ensures graph { (parts : List (List Sample)) → All IsFoldable parts
        → graph_of (all_samples parts) ≡ graph_of (all_samples (map refolded parts)) }
    ensures one_source { (parts : List (List Sample)) → All IsFoldable parts
        → total_weight (all_samples parts) ≤ WEIGHT_LIMIT
        → read_folded (concat (map fold_text parts))
        ≡ record { samples = all_samples (map refolded parts); ending = ends.Clean 0 } }
{}

/// The same samples in another order have the same fold text.
pub fn folds_see_no_order()
    ensures { (one other : List Sample) → IsPermutation one other → fold_text one ≡ fold_text other }
{}

/// Folded text is folded in parts: where it reads as its parts do, the fold of the parts' fold texts,
/// one after another, is the fold of the text. The fold of a part reads back where no stack with weight
/// has a last name that ends in a space or tab and a number.
pub fn text_folds_in_parts()
    ensures foldable { (text : List ℕ) → All (λ sample. last_ends_in_number sample.stack ≡ false)
        (drawn (read_folded text).samples) → IsFoldable (read_folded text).samples }
    ensures fold { (parts : List (List ℕ)) → ReadsAsParts (concat parts) parts
        → All (λ part. IsFoldable (read_folded part).samples) parts
        → fold_of (concat parts) ≡ fold_of (concat (map fold_of parts)) }
{}

/// The pairs of a comparison are the stacks with an own weight in either profile, sorted, each once,
/// with the sums of the samples of both. No stack with weight in neither is one.
pub fn pairs_have_all_stacks()
    ensures { (before after : List Sample)
        → AreAllPairs before after (pairs_of (comparison_of before after)) }
{}

/// Each JSON line is the text of one value, which reads back from it, and a line feed that is its only
/// one. The keys of each object rise. It holds where each box ends within the total and the numbers
/// have 64 bits.
pub fn json_lines_read_back()
    ensures boxes { (view : List ℕ) (total width : ℕ) (boxes : List SpanBox)
        → total < 2 ^ 64 → width < 2 ^ 64 → All (IsWithin total) boxes
        → IsJsonLine (boxes_line view total width boxes) (boxes_data view total width boxes) }
    ensures snapshots { (at : ℕ) (counts : List ℕ) (total width : ℕ) (boxes : List SpanBox)
        → at < 2 ^ 64 → All (λ count. count < 2 ^ 64) counts
        → total < 2 ^ 64 → width < 2 ^ 64 → All (IsWithin total) boxes
        → IsJsonLine (snapshot_line at counts total width boxes)
        (snapshot_data at counts total width boxes) }
    ensures pairs { (before total width : ℕ) (boxes : List ComparedBox)
        → before < 2 ^ 64 → total < 2 ^ 64 → width < 2 ^ 64
        → All (λ compared. IsWithin total compared.span × (compared.before < 2 ^ 64)) boxes
        → IsJsonLine (pair_boxes_line before total width boxes)
        (pair_boxes_data before total width boxes) }
{}

/// A percentage is off by at most half a hundredth, the whole is 100.00 of it, and nothing is 0.00.
pub fn percentages_are_rounded()
    ensures below { (whole weight : ℕ) → 0 < whole
        → 2 * whole * hundredths whole weight ≤ 20000 * weight + whole }
    ensures above { (whole weight : ℕ) → 0 < whole
        → 20000 * weight < 2 * whole * hundredths whole weight + whole }
    ensures all { (whole : ℕ) → 0 < whole → hundredths whole whole ≡ 10000 }
    ensures none { (whole : ℕ) → 0 < whole → hundredths whole 0 ≡ 0 }
{}

/// A quotient is off by at most half of its last place, a half goes up, and as many decimals as make it
/// a hundred of the last place are the fewest: it has three digits, or more only before the point. It
/// holds of quotients that are not below 10^-18, as all that a weight of 64 bits has.
pub fn quotients_have_three_digits()
    ensures below { (part whole : ℕ) → 0 < whole
        → 2 * whole * nearest part whole ≤ 2 * part + whole }
    ensures above { (part whole : ℕ) → 0 < whole
        → 2 * part < 2 * whole * nearest part whole + whole }
    ensures enough { (part whole : ℕ) → whole ≤ 10 ^ 18 * part
        → 100 * whole ≤ 10 ^ decimals 20 part whole * part }
    ensures fewest { (part whole : ℕ) → 0 < decimals 20 part whole
        → 10 ^ decimals 20 part whole * part < 1000 * whole }
{}
