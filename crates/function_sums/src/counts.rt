//! What was counted of each name, by its rank.

ghost use Rattle.std.specs.Prelude.{◌≡◌, ◌+◌, ◌<◌, ◌^◌, ◌++◌, [], ◌∷◌, ℕ, List, All, IfSome, length, map, set, slice_index_or};
ghost use Rattle.sample_tables.specs.declared.samples.Sample.{Sample};
ghost use Rattle.sample_tables.specs.Rows.{name_at};
ghost use Rattle.merged_stacks.specs.Order.{AreRising};
ghost use Rattle.function_sums.specs.FunctionSums.{ends};
ghost use Rattle.function_sums.specs.checked.Counted.{counted, ended, AreCounts, HasRoom};

/// What was counted of a name.
#[derive(Clone, Copy, Debug)]
pub(crate) struct Count {
    /// The weights of the stacks that end in it.
    pub(crate) own: u64,
    /// The weights of the stacks in which it stands.
    pub(crate) total: u64,
    /// The last of these stacks, counted from 1 on: it is not counted again. 0 where there is none.
    pub(crate) stamp: usize,
}

/// Counts the names of a stack, and the one in which it ends.
pub(crate) fn count_stack(
    counts: &mut [Count],
    ranks: &[u32],
    last: Option<u32>,
    weight: u64,
    stamp: usize,
)
    requires known { All (λ rank. rank < length counts.old) ranks.now }
    requires last { IfSome last (λ rank. rank < length counts.old) }
    requires room { All (HasRoom weight stamp) counts.old }
    ensures { (names : List (List ℕ)) (lasts done : List Sample) (ending : Sample) → AreRising names
        → AreCounts names counts.old lasts done [] 0 stamp
        → ending.weight ≡ weight
        → ((name : List ℕ) → ends name ending.stack ≡ ended names last name)
        → AreCounts names counts.new (lasts ++ ending ∷ [])
        (done ++ record { stack = map (name_at names) ranks.now; weight = weight } ∷ []) [] 0 (stamp + 1) }
{
    for rank in ranks {
        count_frame(counts, *rank as usize, weight, stamp);
    }
    if let Some(last) = last {
        counts[last as usize].own += weight;
    }
}

/// Counts a frame's name for a stack, unless the stack was counted for it before.
fn count_frame(counts: &mut [Count], rank: usize, weight: u64, stamp: usize)
    requires rank { rank < length counts.old }
    requires room { All (λ count. count.stamp < stamp → count.total + weight < 2 ^ 64) counts.old }
    ensures { (d : Count) → counts.new ≡ set counts.old rank (counted weight stamp (slice_index_or counts.old rank d)) }
{
    let count = counts[rank];
    if count.stamp < stamp {
        counts[rank] = Count {
            own: count.own,
            total: count.total + weight,
            stamp,
        };
    }
}
