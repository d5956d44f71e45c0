//! What `views` answers where a request for memory is refused.
use super::shown::{Given, is_seen, plain};
use super::stated::{CLEAN, Listed, has_lists};
use crate::tests::holds;
use flame_tool::{Format, Views};
use ring_collect::CollectFault;
use stack_core::OpenGate;
use std::alloc::Global;
use std::sync::Wait;
use std::test::Fail;
use std::thread::Threads;

const BOTH: &[Given] = &[
    (Format::Folded, &[(b"a;b 1\nc 2\na;b 3\n", 1)]),
    (Format::Folded, &[(b"c 4\na 5\n", 1)]),
];

const LISTS: &[Listed] = &[
    (&[(&["a", "b"], 1), (&["c"], 2), (&["a", "b"], 3)], 1, CLEAN),
    (&[(&["c"], 4), (&["a"], 5)], 1, CLEAN),
];

/// The views have the samples of both texts, and two snapshots.
fn have_both(views: &Views) -> Result<bool, CollectFault> {
    Ok(
        has_lists(views, LISTS)
            && views.order().len() == 5
            && views.tree().total(&[]) == 15
            && views.snapshots().len() == 2,
    )
}

/// A run over both texts, with rings of one record and a snapshot after every two samples, gives both.
fn gives_both<T: Threads + Wait + Copy + Send + 'static>(
    rt: &T,
    alloc: Global,
) -> Result<bool, CollectFault> {
    is_seen(
        rt,
        alloc,
        BOTH,
        &plain(alloc, 1, Some(2)),
        OpenGate,
        &have_both,
    )
}

/// A source that it names is one of the two.
fn can_be_of_two(fault: CollectFault) -> bool {
    match fault {
        CollectFault::Unfinished { source } => source < 2,
        CollectFault::OutOfMemory | CollectFault::NoThread => true,
    }
}

/// The same where a request is refused: the fault is one of two sources, and asked again the run gives both. Then the
/// answer is that fault.
fn gives_both_again<T: Threads + Wait + Copy + Send + 'static>(
    rt: &T,
    alloc: Global,
) -> Result<bool, CollectFault> {
    match gives_both(rt, alloc) {
        Ok(given) => Ok(given),
        Err(fault) => {
            if can_be_of_two(fault) && gives_both(rt, alloc)? {
                return Err(fault);
            }
            Ok(false)
        }
    }
}

/// With any one request refused, `views` gives what it gives with ample memory, or says what was not there;
/// asked again, it gives it. The test then ends in the refusal.
#[test]
fn each_request_of_views_refused(rt: HostRuntime) -> Result<(), Fail> {
    holds(&rt, gives_both_again(&rt, rt.alloc()))
}
