//! Runs over folded sources and a profile.
ghost use Rattle.std.specs.Prelude.{◌≤◌, IfSome};

use super::gates::AllAsked;
use super::shown::{Given, is_read, plain, see, shows_each};
use super::stated::{CLEAN, Listed, has_lists, number_of};
use crate::tests::holds;
use call_tree::CallTree;
use flame_tool::{Format, View, Views};
use ring_collect::CollectFault;
use std::alloc::Global;
use std::sync::Wait;
use std::sync::atomic::AtomicU64;
use std::test::Fail;
use std::thread::Threads;

/// A source of the one line `a 1`, and its list.
const ONE_LINE: Given = (Format::Folded, &[(b"a 1\n", 1)]);

const LIST_OF_ONE: Listed = (&[(&["a"], 1)], 1, CLEAN);

/// Runs over sources each of which waits for the others.
fn meet<T: Threads + Wait + Copy + Send + 'static>(
    rt: &T,
    alloc: Global,
    given: &[Given],
    wanted: u64,
    lists: &[Listed],
) -> Result<bool, CollectFault> {
    let gate = AllAsked {
        asked: AtomicU64::new(0),
        wanted,
    };
    let options = plain(alloc, 1, None);
    let total = lists.len() as u128;
    is_read(rt, alloc, given, &options, gate, (lists, total))
}

fn two_and_eight_meet<T: Threads + Wait + Copy + Send + 'static>(
    rt: &T,
    alloc: Global,
) -> Result<bool, CollectFault> {
    Ok(
        meet(rt, alloc, &[ONE_LINE; 2], 0b11, &[LIST_OF_ONE; 2])?
            && meet(rt, alloc, &[ONE_LINE; 8], 0b1111_1111, &[LIST_OF_ONE; 8])?,
    )
}

#[test]
fn two_readers_meet(rt: HostRuntime) -> Result<(), Fail> {
    holds(&rt, two_and_eight_meet(&rt, rt.alloc()))
}

/// Two folded sources and a profile, of a thousand samples each.
const THREE: &[Given] = &[
    (Format::Folded, &[(LINES_OF_S0, 100)]),
    (Format::Folded, &[(LINES_OF_S1, 100)]),
    (
        Format::Pprof,
        &[(VALUE_TYPE, 1), (SAMPLE, 1_000), (TABLES, 1)],
    ),
];

const LINES_OF_S0: &[u8] = b"s0;f0 1\ns0;f1 1\ns0;f2 1\ns0;f3 1\ns0;f4 1\n\
    s0;f5 1\ns0;f6 1\ns0;f7 1\ns0;f8 1\ns0;f9 1\n";

const LINES_OF_S1: &[u8] = b"s1;f0 1\ns1;f1 1\ns1;f2 1\ns1;f3 1\ns1;f4 1\n\
    s1;f5 1\ns1;f6 1\ns1;f7 1\ns1;f8 1\ns1;f9 1\n";

/// A profile in three parts, of which the second is a sample of `main`, weight 7.
const VALUE_TYPE: &[u8] = &[0x0a, 0x04, 0x08, 0x01, 0x10, 0x02];

const SAMPLE: &[u8] = &[0x12, 0x06, 0x0a, 0x01, 0x01, 0x12, 0x01, 0x07];

const TABLES: &[u8] = &[
    0x22, 0x06, 0x08, 0x01, 0x22, 0x02, 0x08, 0x01, 0x2a, 0x04, 0x08, 0x01, 0x10, 0x03, 0x32, 0x00,
    0x32, 0x03, 0x63, 0x70, 0x75, 0x32, 0x02, 0x6e, 0x73, 0x32, 0x04, 0x6d, 0x61, 0x69, 0x6e,
];

/// The lists of the three, in file order.
const LISTS_OF_THREE: &[Listed] = &[
    (
        &[
            (&["s0", "f0"], 1),
            (&["s0", "f1"], 1),
            (&["s0", "f2"], 1),
            (&["s0", "f3"], 1),
            (&["s0", "f4"], 1),
            (&["s0", "f5"], 1),
            (&["s0", "f6"], 1),
            (&["s0", "f7"], 1),
            (&["s0", "f8"], 1),
            (&["s0", "f9"], 1),
        ],
        100,
        CLEAN,
    ),
    (
        &[
            (&["s1", "f0"], 1),
            (&["s1", "f1"], 1),
            (&["s1", "f2"], 1),
            (&["s1", "f3"], 1),
            (&["s1", "f4"], 1),
            (&["s1", "f5"], 1),
            (&["s1", "f6"], 1),
            (&["s1", "f7"], 1),
            (&["s1", "f8"], 1),
            (&["s1", "f9"], 1),
        ],
        100,
        CLEAN,
    ),
    (&[(&["main"], 7)], 1_000, CLEAN),
];

/// The lists of the three, and what the profile weighs.
fn are_three(views: &Views) -> bool {
    let lists = views.lists();
    has_lists(views, LISTS_OF_THREE)
        && views.order().len() == 3_000
        && lists.len() == 3
        && lists[2].total() == 7_000
}

/// The totals and the own weights of the tree, of the names with these numbers.
fn has_sums(tree: &CallTree, main: usize, second: usize, digit: usize) -> bool {
    tree.len() == 24
        && tree.total(&[]) == 9_000
        && tree.own(&[main]) == 7_000
        && tree.total(&[digit]) == 0
        && tree.total(&[second]) == 1_000
        && tree.own(&[second]) == 0
        && tree.own(&[second, digit]) == 100
}

fn has_named_sums(views: &Views) -> bool {
    let table = views.table();
    let main = number_of(table, "main");
    let second = number_of(table, "s1");
    let digit = number_of(table, "f9");
    match (main, second, digit) {
        (Some(main), Some(second), Some(digit)) => has_sums(views.tree(), main, second, digit),
        _ => false,
    }
}

/// The lists and the merged sums of the three.
fn are_three_merged(views: &Views) -> Result<bool, CollectFault> {
    Ok(
        are_three(views)
            && has_named_sums(views)
            && views.graph().len() == 24
            && views.chart().len() == 2_004,
    )
}

/// The fold text of the three.
const FOLD_OF_THREE_SOURCES: &str = "main 7000\n\
    s0;f0 100\ns0;f1 100\ns0;f2 100\ns0;f3 100\ns0;f4 100\n\
    s0;f5 100\ns0;f6 100\ns0;f7 100\ns0;f8 100\ns0;f9 100\n\
    s1;f0 100\ns1;f1 100\ns1;f2 100\ns1;f3 100\ns1;f4 100\n\
    s1;f5 100\ns1;f6 100\ns1;f7 100\ns1;f8 100\ns1;f9 100\n";

/// The views of the three, without a snapshot, and their fold text.
fn are_three_folded(alloc: Global, views: &Views) -> Result<bool, CollectFault> {
    let merged = are_three_merged(views)? && views.snapshots().is_empty();
    Ok(merged && shows_each(alloc, views, &[(View::Fold, FOLD_OF_THREE_SOURCES)])?)
}

#[test]
fn three_sources_in_small_rings(rt: HostRuntime) -> Result<(), Fail> {
    let alloc = rt.alloc();
    see(
        &rt,
        THREE,
        1,
        None,
        &|views: &Views| are_three_folded(alloc, views),
    )
}

#[test]
fn three_sources_in_large_rings(rt: HostRuntime) -> Result<(), Fail> {
    see(&rt, THREE, 65_536, None, &are_three_merged)
}

/// The counts add up to this number, and each is no less than before.
fn have_risen_to(at: u64, counts: &[u64], before: &mut [u64; 3]) -> bool {
    if counts.len() > 3 {
        return false;
    }
    let mut sum = 0u64;
    for source in 0..counts.len() {
        if counts[source] < before[source] {
            return false;
        }
        before[source] = counts[source];
        sum = sum.wrapping_add(counts[source]);
    }
    sum == at
}

/// The counts of each snapshot add up to its number, and none falls.
fn are_rising(views: &Views) -> bool {
    let snapshots = views.snapshots();
    let mut before = [0; 3];
    let mut at = 0u64;
    for snapshot in snapshots {
        at = at.wrapping_add(1_000);
        if snapshot.at != at || !have_risen_to(at, snapshot.counts.get(), &mut before) {
            return false;
        }
    }
    snapshots.len() == 3 && before == [1_000; 3]
}

fn are_rising_and_merged(views: &Views) -> Result<bool, CollectFault> {
    Ok(are_rising(views) && are_three_merged(views)?)
}

#[test]
fn three_sources_every_thousand(rt: HostRuntime) -> Result<(), Fail> {
    see(&rt, THREE, 1_024, Some(1_000), &are_rising_and_merged)
}
