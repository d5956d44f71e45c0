//! What a test finds in views: lists, snapshots and boxes, and the numbers of names.
ghost use Rattle.std.specs.Prelude.{◌<◌, length};

use call_tree::FrameTable;
use flame_layout::SpanBox;
use flame_tool::{Snapshot, Views};
use stack_core::{SourceEnd, SourceList};

/// The names of a sample's frames, and its weight.
pub type Stated = (&'static [&'static str], u64);

/// The samples of a list, how often all of them stand, and how the source ended.
pub type Listed = (&'static [Stated], usize, SourceEnd);

pub const CLEAN: SourceEnd = SourceEnd::Clean { ignored: 0 };

fn is_sample(list: &SourceList, i: usize, sample: &Stated) -> bool
    requires { i < length list.now.samples }
{
    let (names, weight) = *sample;
    if list.depth(i) != names.len() || list.weight(i) != weight {
        return false;
    }
    for d in 0..names.len() {
        if list.name(i, d) != names[d] {
            return false;
        }
    }
    true
}

/// The list has these samples again and again.
fn repeats(list: &SourceList, samples: &[Stated]) -> bool {
    for i in 0..list.len() {
        if samples.is_empty() || !is_sample(list, i, &samples[i % samples.len()]) {
            return false;
        }
    }
    true
}

fn is_list(list: &SourceList, wanted: &Listed) -> bool {
    let (samples, times, ending) = *wanted;
    list.len() == samples.len().saturating_mul(times)
        && *list.ending() == ending
        && repeats(list, samples)
}

/// The lists are these.
pub fn has_lists(views: &Views, wanted: &[Listed]) -> bool {
    let lists = views.lists();
    if lists.len() != wanted.len() {
        return false;
    }
    for source in 0..lists.len() {
        if !is_list(&lists[source], &wanted[source]) {
            return false;
        }
    }
    true
}

/// The lists are these, their samples weigh so much, and the order has each sample once.
pub fn has_lists_of(views: &Views, lists: &[Listed], total: u128) -> bool {
    has_lists(views, lists)
        && views.order().len() == sample_count(views.lists())
        && views.tree().total(&[]) == total
}

fn sample_count(lists: &[SourceList]) -> usize {
    let mut count = 0usize;
    for list in lists {
        count = count.saturating_add(list.len());
    }
    count
}

/// When a snapshot was made, how many samples of each source were there, and what they weigh.
pub type Moment = (u64, &'static [u64], u128);

fn is_made_at(snapshot: &Snapshot, moment: &Moment) -> bool {
    let (at, counts, total) = *moment;
    snapshot.at == at && snapshot.counts.get() == counts && snapshot.tree.total(&[]) == total
}

/// The snapshots were made at these moments.
pub fn are_made_at(snapshots: &[Snapshot], moments: &[Moment]) -> bool {
    if snapshots.len() != moments.len() {
        return false;
    }
    for i in 0..snapshots.len() {
        if !is_made_at(&snapshots[i], &moments[i]) {
            return false;
        }
    }
    true
}

/// The depth, the name, the start, the weight and the own weight of a box.
pub type Boxed = (u32, &'static str, u64, u64, u64);

fn is_box(span: &SpanBox, wanted: &Boxed) -> bool {
    let (depth, name, start, weight, own) = *wanted;
    span.depth == depth
        && span.name.get() == name
        && span.start == start
        && span.weight == weight
        && span.own == own
}

/// The boxes are these.
pub fn are_boxes(boxes: &[SpanBox], wanted: &[Boxed]) -> bool {
    if boxes.len() != wanted.len() {
        return false;
    }
    for i in 0..boxes.len() {
        if !is_box(&boxes[i], &wanted[i]) {
            return false;
        }
    }
    true
}

/// The number of a name.
pub fn number_of(table: &FrameTable, name: &str) -> Option<usize> {
    for number in 0..table.len() {
        if table.name(number) == name {
            return Some(number);
        }
    }
    None
}
