//! Graphs, charts, comparisons and snapshots.

use crate::tests::answers::{Case, SILENT, Written, add_files, end_so, only_input, status_of};
use crate::tests::holds;
use crate::tests::worked::{
    AFTER, BEFORE, CALLS, CHART_OF_THREE_LINES, COMPARISON_BOXES, COMPARISON_LINES, FIVE_LINES,
    FUNCTIONS, GRAPH_OF_THREE_LINES, GREATEST_TOTALS, SNAPSHOT_LINES, THREE_LINES,
};
use flame_tool::MemoryFiles;
use std::alloc::{AllocError, Global};
use std::sync::Wait;
use std::test::Fail;
use std::thread::Threads;

/// The graph, and the chart.
const OF_THREE_LINES: &[Case<'static>] = &[
    Case {
        words: &["graph", "--width", "10", "x"],
        files: &[("x", THREE_LINES)],
        out: GRAPH_OF_THREE_LINES,
        ..SILENT
    },
    Case {
        words: &["chart", "x", "--width", "10"],
        files: &[("x", THREE_LINES)],
        out: CHART_OF_THREE_LINES,
        ..SILENT
    },
];

#[test]
fn graph_of_three_lines(rt: HostRuntime) -> Result<(), Fail> {
    end_so(&rt, OF_THREE_LINES)
}

/// Lines, and boxes.
const COMPARISONS: &[Case<'static>] = &[
    Case {
        words: &["compare", "x", "y"],
        files: &[("x", BEFORE), ("y", AFTER)],
        out: COMPARISON_LINES,
        ..SILENT
    },
    Case {
        words: &["compare", "x", "--boxes", "y", "--width", "10"],
        files: &[("x", BEFORE), ("y", AFTER)],
        out: COMPARISON_BOXES,
        ..SILENT
    },
];

#[test]
fn comparison(rt: HostRuntime) -> Result<(), Fail> {
    end_so(&rt, COMPARISONS)
}

const SNAPSHOTS: &[Case<'static>] = &[Case {
    words: &["graph", "--width", "10", "--every", "2", "x"],
    files: &[("x", FIVE_LINES)],
    out: SNAPSHOT_LINES,
    ..SILENT
}];

#[test]
fn snapshots_of_one_source(rt: HostRuntime) -> Result<(), Fail> {
    end_so(&rt, SNAPSHOTS)
}

/// The table, and the greatest totals.
const TOPS: &[Case<'static>] = &[
    Case {
        words: &["top", "x"],
        files: &[("x", CALLS)],
        out: FUNCTIONS,
        ..SILENT
    },
    Case {
        words: &["top", "--json", "--by", "total", "x", "-n", "2"],
        files: &[("x", CALLS)],
        out: GREATEST_TOTALS,
        ..SILENT
    },
];

#[test]
fn functions_by_weight(rt: HostRuntime) -> Result<(), Fail> {
    end_so(&rt, TOPS)
}

/// Words, and the status that they are to give.
const WITHOUT_VIEWS: &[(&[&str], u8)] = &[
    (&["graph", "--width", "0"], 2),
    (&["fold", "--every", "2"], 2),
    (&["compare", "x", "--boxes"], 2),
    (&["top", "-n", "0"], 2),
    (&["fold", "--help"], 0),
];

/// With status 2 a run writes to standard error alone, and else to its output alone.
fn writes_to_one<T: Threads + Wait + Copy + Send + 'static>(
    rt: &T,
    alloc: Global,
    words: &[&str],
    status: u8,
    files: &mut MemoryFiles,
    written: &mut Written,
) -> Result<bool, AllocError> {
    let (out, err) = (&mut written.out, &mut written.err);
    let found = status_of(rt, alloc, words, files, out, err)?;
    Ok(
        found == status
            && written.out.is_empty() == (status == 2)
            && written.err.is_empty() != (status == 2),
    )
}

fn each_writes_to_one<T: Threads + Wait + Copy + Send + 'static>(
    rt: &T,
    alloc: Global,
    files: &mut MemoryFiles,
) -> Result<bool, AllocError> {
    for (words, status) in WITHOUT_VIEWS {
        let mut written = Written::nothing(alloc);
        if !writes_to_one(rt, alloc, words, *status, files, &mut written)? {
            return Ok(false);
        }
    }
    Ok(true)
}

/// A file and an input of one line each.
fn one_line(alloc: Global) -> Result<MemoryFiles, AllocError> {
    let mut files = only_input(alloc, b"a 1\n")?;
    add_files(alloc, &mut files, &[("x", b"a 1\n")])?;
    Ok(files)
}

#[test]
fn refused_words(rt: HostRuntime) -> Result<(), Fail> {
    let mut files = one_line(rt.alloc())?;
    holds(&rt, each_writes_to_one(&rt, rt.alloc(), &mut files))
}
