//! What the stacks of two samples have in common, and the names of their boxes.

ghost use Rattle.std.specs.Prelude.{◌≡◌, ◌<◌, ◌≤◌, length};
ghost use Rattle.sample_tables.specs.Rows.{sample_at};
ghost use Rattle.flame_layout.specs.Chart.{box_name};
ghost use Rattle.flame_layout.specs.checked.ChartWalks.{BeginAlike};

use merged_stacks::StackRows;

/// With how many names the stacks of two samples of a list begin alike.
pub(crate) fn shared_in_list<S: StackRows>(list: &S, at: usize, later: usize) -> usize
    requires at { at < length (S.samples list.now) }
    requires later { later < length (S.samples list.now) }
    ensures { BeginAlike (sample_at (S.samples list.now) at).stack (sample_at (S.samples list.now) later).stack result }
{
    let most = list.depth(at).min(list.depth(later));
    for frame in 0..most {
        if !list.is_same_name(at, later, frame) {
            return frame;
        }
    }
    most
}

/// With how many names the stacks of samples of two lists begin alike.
pub(crate) fn shared_between<S: StackRows>(list: &S, at: usize, other: &S, later: usize) -> usize
    requires at { at < length (S.samples list.now) }
    requires later { later < length (S.samples other.now) }
    ensures { BeginAlike (sample_at (S.samples list.now) at).stack (sample_at (S.samples other.now) later).stack result }
{
    let most = list.depth(at).min(other.depth(later));
    for frame in 0..most {
        if list.name(at, frame) != other.name(later, frame) {
            return frame;
        }
    }
    most
}

/// The name of the box of a depth of a sample.
pub(crate) fn frame_name<S: StackRows>(list: &S, at: usize, depth: usize) -> &str
    requires at { at < length (S.samples list.now) }
    requires deep { depth ≤ length (sample_at (S.samples list.now) at).stack }
    ensures { result.now ≡ box_name depth (sample_at (S.samples list.now) at).stack }
{
    if depth == 0 {
        "all"
    } else {
        list.name(at, depth - 1)
    }
}
