//! What the lists and the sink of a run have.

use super::sinks::Recorder;
use super::{Source, Wanted, name_of};
use ring_collect::Collected;
use stack_core::{Sample, SourceList};
use std::sync::atomic::Ordering;

/// How many samples of each source a sink had.
type Counts = [usize; 64];

/// The sample of this number has this weight, and one frame of this name.
pub(super) fn has_sample(list: &SourceList, i: usize, weight: u8, name: &str) -> bool {
    i < list.len()
        && list.weight(i) == u64::from(weight)
        && list.depth(i) == 1
        && list.name(i, 0) == name
}

/// The list has the samples of these weights, with the frame of its source.
pub(super) fn is_list(source: usize, list: &SourceList, wanted: Wanted) -> bool {
    let (weights, ending) = wanted;
    for i in 0..weights.len() {
        if !has_sample(list, i, weights[i], name_of(source)) {
            return false;
        }
    }
    list.len() == weights.len() && list.told() == weights.len().min(1) && *list.ending() == ending
}

fn are_lists(lists: &[SourceList], sources: &[Source]) -> bool {
    if lists.len() != sources.len() {
        return false;
    }
    for source in 0..lists.len() {
        let (_, wanted) = sources[source];
        if !is_list(source, &lists[source], wanted) {
            return false;
        }
    }
    true
}

/// The sample has this weight, and one frame of this name.
fn is_sample(sample: &Sample, weight: u8, name: &str) -> bool {
    let names = sample.stack.get();
    sample.weight == u64::from(weight) && names.len() == 1 && names[0].as_str() == name
}

/// The sample is the next of its source.
fn is_next(sources: &[Source], next: &mut Counts, source: usize, sample: &Sample) -> bool {
    if source >= next.len() || source >= sources.len() {
        return false;
    }
    let (_, (weights, _)) = sources[source];
    let i = next[source];
    next[source] = i.saturating_add(1);
    i < weights.len() && is_sample(sample, weights[i], name_of(source))
}

/// What the sink has of each source are its first samples in their order, so many.
fn has_first(sink: &Recorder, sources: &[Source], next: &mut Counts) -> bool {
    for (source, sample) in &sink.pairs {
        if !is_next(sources, next, *source as usize, sample) {
            return false;
        }
    }
    true
}

/// Whether so many readers were made.
pub(super) fn had(sink: &Recorder, readers: usize) -> bool {
    sink.counts.made.load(Ordering::SeqCst) == readers as u64
}

/// Whether every reader that was made was dropped.
fn were_dropped(sink: &Recorder) -> bool {
    let made = sink.counts.made.load(Ordering::SeqCst);
    sink.counts.drops.load(Ordering::SeqCst) == made
}

/// Every reader of a run that has no answer was dropped, and what the sink has of each source are its first samples.
pub(super) fn is_cut_short(sink: &Recorder, sources: &[Source]) -> bool {
    were_dropped(sink) && has_first(sink, sources, &mut [0; 64])
}

/// The samples came from these sources in this order.
fn are_in_order(order: &[u32], pairs: &[(u32, Sample)]) -> bool {
    if order.len() != pairs.len() {
        return false;
    }
    for at in 0..order.len() {
        let (source, _) = &pairs[at];
        if *source != order[at] {
            return false;
        }
    }
    true
}

/// None is left of the samples of the lists.
fn are_all(sources: &[Source], next: &Counts) -> bool {
    for source in 0..sources.len() {
        let (_, (weights, _)) = sources[source];
        if source >= next.len() || next[source] != weights.len() {
            return false;
        }
    }
    true
}

/// The lists are these, the sink has their samples in the order of arrival, and every reader was dropped.
pub(super) fn is_run(run: &Collected, sink: &Recorder, sources: &[Source]) -> bool {
    let mut next = [0; 64];
    were_dropped(sink)
        && are_lists(&run.lists, sources)
        && are_in_order(&run.order, &sink.pairs)
        && has_first(sink, sources, &mut next)
        && are_all(sources, &next)
}
