//! Views rendered as text, behind what stood there.
ghost use Rattle.std.specs.Prelude.{◌≤◌, IfSome};

use super::shown::{Given, is_shown, plain};
use crate::tests::holds;
use crate::tests::worked::{
    AFTER, BEFORE, CALLS, CHART_OF_THREE_LINES, COMPARISON_BOXES, COMPARISON_LINES, FIVE_LINES,
    FUNCTIONS, GRAPH_OF_THREE_LINES, GREATEST_TOTALS, SNAPSHOT_LINES, THREE_LINES,
};
use flame_layout::Width;
use flame_tool::{Format, FunctionOrder, TopTable, View};
use std::process::Abort;
use std::sync::Wait;
use std::test::Fail;
use std::thread::Threads;

/// A run over these sources shows each of these views as its text.
fn show<T: Threads + Wait + Abort + AllocGlobal + Copy + Send + 'static>(
    rt: &T,
    given: &[Given],
    ring: u32,
    every: Option<u64>,
    all: &[(View, &str)],
) -> Result<(), Fail>
    requires ring { (1 ≤ ring) × (ring ≤ 65536) }
    requires every { IfSome every (λ every. 1 ≤ every) }
{
    let options = plain(rt.alloc(), ring, every);
    holds(rt, is_shown(rt, rt.alloc(), given, &options, all))
}

const STORED: &[Given] = &[(Format::Folded, &[(b"a;b 2\na 1\na;b 3\n", 1)])];

#[test]
fn stored_run(rt: HostRuntime) -> Result<(), Fail> {
    show(&rt, STORED, 1_024, None, &[(View::Fold, "a 1\na;b 5\n")])
}

const EMPTY: &[Given] = &[(Format::Folded, &[])];

const EMPTY_GRAPH: &str = "{\"boxes\":[],\"total\":0,\"view\":\"graph\",\"width\":1200}\n";

const EMPTY_CHART: &str = "{\"boxes\":[],\"total\":0,\"view\":\"chart\",\"width\":1200}\n";

// A source without samples has no lines and no boxes.
#[test]
fn empty_sources(rt: HostRuntime) -> Result<(), Fail> {
    let width = Width::of(1_200).unwrap();
    let all = [
        (View::Fold, ""),
        (View::Graph(width), EMPTY_GRAPH),
        (View::Chart(width), EMPTY_CHART),
    ];
    show(&rt, EMPTY, 1, Some(1), &all)
}

const OF_THREE_LINES: &[Given] = &[(Format::Folded, &[(THREE_LINES, 1)])];

#[test]
fn graph_of_three_lines(rt: HostRuntime) -> Result<(), Fail> {
    let width = Width::of(10).unwrap();
    let all = [
        (View::Fold, "a 1\nb 2\n"),
        (View::Graph(width), GRAPH_OF_THREE_LINES),
        (View::Chart(width), CHART_OF_THREE_LINES),
    ];
    show(&rt, OF_THREE_LINES, 1_024, None, &all)
}

const TWO: &[Given] = &[
    (Format::Folded, &[(BEFORE, 1)]),
    (Format::Folded, &[(AFTER, 1)]),
];

#[test]
fn comparison(rt: HostRuntime) -> Result<(), Fail> {
    let boxes = View::PairBoxes(Width::of(10).unwrap());
    let all = [(View::Pairs, COMPARISON_LINES), (boxes, COMPARISON_BOXES)];
    show(&rt, TWO, 1_024, None, &all)
}

const CALLED: &[Given] = &[(Format::Folded, &[(CALLS, 1)])];

const HEAVIEST: TopTable = TopTable {
    by: FunctionOrder::Own,
    rows: 10,
    is_json: false,
    is_exact: false,
};

const GREATEST: TopTable = TopTable {
    by: FunctionOrder::Total,
    rows: 2,
    is_json: true,
    is_exact: false,
};

#[test]
fn functions_by_weight(rt: HostRuntime) -> Result<(), Fail> {
    let all = [
        (View::Top(HEAVIEST), FUNCTIONS),
        (View::Top(GREATEST), GREATEST_TOTALS),
    ];
    show(&rt, CALLED, 1_024, None, &all)
}

const OF_FIVE_LINES: &[Given] = &[(Format::Folded, &[(FIVE_LINES, 1)])];

// The graph's lines are those of the snapshots at 2 and at 4, and that of all samples.
#[test]
fn snapshots_of_one_source(rt: HostRuntime) -> Result<(), Fail> {
    let all = [(View::Graph(Width::of(10).unwrap()), SNAPSHOT_LINES)];
    show(&rt, OF_FIVE_LINES, 1_024, Some(2), &all)
}
