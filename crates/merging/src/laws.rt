//! Laws over the definitions, for all lists. Each function does nothing, and takes no memory.
ghost use Rattle.std.specs.Prelude.{◌≡◌, ◌≤◌, ℕ, List, length, slice_index};
ghost use Rattle.stack_core.specs.Interleaving.{IsInterleaving, counts_at};
ghost use Rattle.sample_tables.specs.declared.samples.Sample.{Sample};
ghost use Rattle.merging.specs.Snapshots.{snapshot_counts, snapshot_samples};
ghost use Rattle.merging.specs.Sums.{all_samples};

pub use source_lists::laws::{lines_and_addresses_read_back, samples_read_back};

/// A snapshot's counts have each source: one without an entry has none of the samples.
pub fn counts_have_each_source()
    ensures { (m : ℕ) (order : List ℕ) (source : ℕ) →
        slice_index (snapshot_counts m order) source ≡ counts_at m order source }
{}

/// From one moment to a later one no count falls.
pub fn counts_never_fall()
    ensures { (m n : ℕ) (order : List ℕ) (source : ℕ) → m ≤ n →
        counts_at m order source ≤ counts_at n order source }
{}

/// When the whole order came, the first samples are all samples.
pub fn all_samples_come()
    ensures { (order : List ℕ) (lists : List (List Sample)) → IsInterleaving order lists →
        snapshot_samples (length order) order lists ≡ all_samples lists }
{}
