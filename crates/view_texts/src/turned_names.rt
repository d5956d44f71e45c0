//! The names of a stack, joined by `;`, which turn into those of the next one.
ghost use Rattle.std.specs.Prelude.{◌≡◌, ◌<◌, ◌≤◌, All, length, take, OnOk};
ghost use Rattle.view_texts.specs.checked.Joined.{joint, joined_names};

use crate::merged_lines::append_name;
use flame_layout::MergedStacks;
use std::alloc::AllocError;

// Turns the joined names of one stack into those of another. What both begin with stays.
pub(crate) fn turn_names(
    text: &mut Vec<u8>,
    merged: &MergedStacks,
    last: &[u32],
    ranks: &[u32],
) -> Result<(), AllocError>
    requires text { text.old.items ≡ joined_names merged.now.names last.now }
    requires last { All (λ rank. rank < length merged.now.names) last.now }
    requires known { All (λ rank. rank < length merged.now.names) ranks.now }
    ensures { OnOk result (text.new.items ≡ joined_names merged.now.names ranks.now) }
{
    let shared = shared_front(last, ranks);
    cut_names(text, merged, last, shared);
    for place in shared..ranks.len() {
        append_name(text, place > 0, merged.name_of(ranks[place] as usize))?;
    }
    Ok(())
}

// With how many ranks two stacks begin alike.
fn shared_front(one: &[u32], other: &[u32]) -> usize
    ensures alike { take result one.now ≡ take result other.now }
    ensures deep { result ≤ length one.now }
    ensures wide { result ≤ length other.now }
{
    let most = one.len().min(other.len());
    for place in 0..most {
        if one[place] != other[place] {
            return place;
        }
    }
    most
}

// Keeps the first of the joined names of a stack.
fn cut_names(text: &mut Vec<u8>, merged: &MergedStacks, ranks: &[u32], keep: usize)
    requires text { text.old.items ≡ joined_names merged.now.names ranks.now }
    requires known { All (λ rank. rank < length merged.now.names) ranks.now }
    requires keep { keep ≤ length ranks.now }
    ensures { text.new.items ≡ joined_names merged.now.names (take keep ranks.now) }
{
    let mut length = text.len();
    let mut kept = ranks.len();
    while kept > keep {
        kept -= 1;
        length -= joint_length(kept > 0, merged.name_of(ranks[kept] as usize));
    }
    text.truncate(length);
}

// How long a name is with the `;` before it if it is a later one.
fn joint_length(later: bool, name: &str) -> usize
    ensures { result ≡ length (joint later name.now) }
{
    if later { name.len() + 1 } else { name.len() }
}
