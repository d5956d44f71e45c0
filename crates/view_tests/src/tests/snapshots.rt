//! Runs over one source whose tree is looked at on the way.
ghost use Rattle.std.specs.Prelude.{◌<◌, length};

use super::gates::StopsAt;
use super::shown::{Given, is_seen, plain, see};
use super::stated::{Boxed, Listed, Moment, are_boxes, are_made_at, has_lists};
use crate::tests::holds;
use crate::tests::worked::FIVE_LINES;
use flame_layout::graph_boxes;
use flame_tool::{Format, Views};
use ring_collect::CollectFault;
use stack_core::SourceEnd;
use std::alloc::{AllocError, Global};
use std::sync::Wait;
use std::test::Fail;
use std::thread::Threads;

const OF_FIVE_LINES: &[Given] = &[(Format::Folded, &[(FIVE_LINES, 1)])];

/// The moments of the snapshots, each with the graph of then.
const SNAPSHOTS: &[Moment] = &[(2, &[2], 2), (4, &[4], 5)];

const GRAPHS: &[&[Boxed]] = &[
    &[(0, "all", 0, 2, 0), (1, "a", 0, 2, 1), (2, "b", 1, 1, 1)],
    &[
        (0, "all", 0, 5, 0),
        (1, "a", 0, 3, 2),
        (2, "b", 2, 1, 1),
        (1, "c", 3, 2, 2),
    ],
];

const GRAPH: &[Boxed] = &[
    (0, "all", 0, 6, 0),
    (1, "a", 0, 3, 2),
    (2, "b", 2, 1, 1),
    (1, "c", 3, 2, 2),
    (1, "d", 5, 1, 1),
];

const CHART: &[Boxed] = &[
    (0, "all", 0, 6, 0),
    (1, "a", 0, 2, 1),
    (2, "b", 1, 1, 1),
    (1, "c", 2, 2, 2),
    (1, "a", 4, 1, 1),
    (1, "d", 5, 1, 1),
];

/// The snapshots have these graphs.
fn have_graphs(alloc: Global, views: &Views, graphs: &[&[Boxed]]) -> Result<bool, AllocError> {
    let snapshots = views.snapshots();
    if snapshots.len() != graphs.len() {
        return Ok(false);
    }
    for i in 0..snapshots.len() {
        let boxes = graph_boxes(alloc, &snapshots[i].tree, views.table())?;
        if !are_boxes(boxes.as_slice(), graphs[i]) {
            return Ok(false);
        }
    }
    Ok(true)
}

/// The views of the five samples, with a snapshot at 2 and at 4.
fn are_of_five(alloc: Global, views: &Views) -> Result<bool, CollectFault> {
    let seen = views.order() == [0; 5].as_slice()
        && are_made_at(views.snapshots(), SNAPSHOTS)
        && are_boxes(views.graph(), GRAPH)
        && are_boxes(views.chart(), CHART);
    Ok(seen && have_graphs(alloc, views, GRAPHS)?)
}

#[test]
fn snapshots_of_one_source(rt: HostRuntime) -> Result<(), Fail> {
    let alloc = rt.alloc();
    see(
        &rt,
        OF_FIVE_LINES,
        1_024,
        Some(2),
        &|views: &Views| are_of_five(alloc, views),
    )
}

const FIRST_THREE: &[Listed] = &[(
    &[(&["a"], 1), (&["a", "b"], 1), (&["c"], 2)],
    1,
    SourceEnd::Stopped { after: 3 },
)];

/// The views of the first three samples.
fn are_of_three(views: &Views) -> Result<bool, CollectFault> {
    Ok(
        has_lists(views, FIRST_THREE)
            && are_made_at(views.snapshots(), &[(2, &[2], 2)])
            && views.tree().total(&[]) == 4,
    )
}

/// Runs over the five samples, and stops before the fourth.
fn stops_after_three<T: Threads + Wait + Copy + Send + 'static>(
    rt: &T,
    alloc: Global,
) -> Result<bool, CollectFault> {
    let gate = StopsAt {
        source: 0,
        index: 3,
    };
    is_seen(
        rt,
        alloc,
        OF_FIVE_LINES,
        &plain(alloc, 2, Some(2)),
        gate,
        &are_of_three,
    )
}

#[test]
fn gate_stops_the_source(rt: HostRuntime) -> Result<(), Fail> {
    holds(&rt, stops_after_three(&rt, rt.alloc()))
}
