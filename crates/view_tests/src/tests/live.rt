//! The lines of a graph, written while its samples come.
ghost use Rattle.std.specs.Prelude.{◌≤◌, ◌<◌, length};

use super::ledgers::{ledger_of, ledger_with};
use super::shown::{Given, see};
use crate::tests::worked::{FIVE_LINES, SNAPSHOT_LINES};
use flame_layout::Width;
use flame_tool::{CountedWriter, Format, Outlet, View, Views, render};
use live_lines::{LiveForm, LiveGate, LiveLine, LiveMerge, LiveSink, ToldEnds};
use ring_collect::{CollectFault, EndSink};
use stack_core::{Ledger, RowSink, SourceList};
use std::alloc::{AllocError, Global};
use std::sync::Arc;
use std::test::Fail;

/// How wide the graphs are.
const WIDTH: u32 = 10;

/// How many samples of a source came before this place of the order.
fn came_before(order: &[u32], place: usize) -> usize {
    if place >= order.len() {
        return 0;
    }
    order[..place]
        .iter()
        .filter(|source| **source == order[place])
        .count()
}

/// The ledgers of lists.
fn ledgers_of(alloc: Global, lists: &[SourceList]) -> Result<Vec<Ledger>, AllocError> {
    let mut ledgers = Vec::new(alloc);
    for list in lists {
        ledgers.push(ledger_of(alloc, list)?)?;
    }
    Ok(ledgers)
}

/// Hands the sink a sample of a list.
fn feed_one<W: Outlet>(
    alloc: Global,
    sink: &mut LiveSink<'_, W, ToldEnds>,
    source: u32,
    list: &SourceList,
    ledger: &Ledger,
    at: usize,
) -> Result<(), AllocError> {
    if at >= list.len() {
        return Err(AllocError);
    }
    let row = list.stack_number(at);
    if row >= ledger.stack_count() {
        return Err(AllocError);
    }
    sink.take_row(alloc, source, ledger, row, list.weight(at))
}

/// Hands the sink the samples of a run in their order.
fn feed<W: Outlet>(
    alloc: Global,
    views: &Views,
    sink: &mut LiveSink<'_, W, ToldEnds>,
) -> Result<(), AllocError> {
    let ledgers = ledgers_of(alloc, views.lists())?;
    for (place, source) in views.order().iter().enumerate() {
        let number = *source as usize;
        if let (Some(list), Some(ledger)) = (views.lists().get(number), ledgers.get(number)) {
            let at = came_before(views.order(), place);
            feed_one(alloc, sink, *source, list, ledger, at)?;
        }
    }
    Ok(())
}

fn open_gate(alloc: Global) -> Result<Arc<LiveGate>, AllocError> {
    Ok(Arc::new(alloc, LiveGate::new())?)
}

/// What is written of a run while its samples come, and at its end.
fn written(alloc: Global, views: &Views, every: u64) -> Result<Vec<u8>, AllocError>
    requires { 1 ≤ every }
{
    let width = Width::of(WIDTH).unwrap();
    let merge = LiveMerge::new(alloc, views.lists().len())?;
    let gate = open_gate(alloc)?;
    let mut out = CountedWriter::new(Vec::new(alloc));
    let mut sink = LiveSink::new(merge, every, width, gate, &mut out, ToldEnds::new());
    feed(alloc, views, &mut sink)?;
    let LiveSink {
        mut lines,
        out: outlet,
        ends: _ends,
    } = sink;
    lines.finish(alloc, outlet).map_err(|_fault| AllocError)?;
    Ok(out.into_inner())
}

const ONE: &[Given] = &[(Format::Folded, &[(FIVE_LINES, 1)])];

#[test]
fn lines_of_five_samples(rt: HostRuntime) -> Result<(), Fail> {
    let alloc = rt.alloc();
    see(
        &rt,
        ONE,
        1_024,
        None,
        &|views: &Views| Ok(written(alloc, views, 2)?.as_slice() == SNAPSHOT_LINES.as_bytes()),
    )
}

/// The five samples.
const FIVE: &[(&[&str], u64)] = &[
    (&["a"], 1),
    (&["a", "b"], 1),
    (&["c"], 2),
    (&["a"], 1),
    (&["d"], 1),
];

/// Merges the only stack of a ledger.
fn merge_one(
    alloc: Global,
    merge: &mut LiveMerge,
    ledger: &Ledger,
    weight: u64,
) -> Result<(), AllocError> {
    if ledger.stack_count() == 0 {
        return Err(AllocError);
    }
    merge.take_row(alloc, 0, ledger, 0, weight)
}

/// Sends a line of what was merged.
fn send<W: Outlet>(
    alloc: Global,
    merge: &LiveMerge,
    line: LiveLine,
    out: &mut W,
) -> Result<(), AllocError> {
    let width = Width::of(WIDTH).unwrap();
    merge
        .send(alloc, line, width, out)
        .map_err(|_fault| AllocError)
}

/// What is written of the five as rows of ledgers that number the names each time in another way, and also names that no stack has.
fn written_anew(alloc: Global, form: LiveForm, every: u64) -> Result<Vec<u8>, AllocError>
    requires { 1 ≤ every }
{
    let unused: &[&str] = &["", "unused", "a"];
    let mut merge = LiveMerge::of_form(alloc, form, 1)?;
    let mut out = CountedWriter::new(Vec::new(alloc));
    for (at, (names, weight)) in FIVE.iter().enumerate() {
        let ledger = ledger_with(alloc, &unused[..at % 4], names)?;
        merge_one(alloc, &mut merge, &ledger, *weight)?;
        if merge.count() % every == 0 {
            send(alloc, &merge, LiveLine::Snapshot, &mut out)?;
        }
    }
    send(alloc, &merge, LiveLine::Graph, &mut out)?;
    Ok(out.into_inner())
}

#[test]
fn rows_of_other_ledgers(rt: HostRuntime) -> Result<(), Fail> {
    assert_eq!(rt;
        written_anew(rt.alloc(), LiveForm::Lines, 2)?.as_slice(),
        SNAPSHOT_LINES.as_bytes()
    );
    Ok(())
}

/// The frame of the first four of the five, and in its place the table of all.
const FRAMES: &str = "\x1b[?7l4 samples of 1 source\n\
    Showing 3 of 3 functions, total 5\n\
    own    own%     sum%  total  total%  name\n\
    \x20 2  40.00%   40.00%      3  60.00%  a\n\
    \x20 2  40.00%   80.00%      2  40.00%  c\n\
    \x20 1  20.00%  100.00%      1  20.00%  b\n\
    \n\n\n\n\n\n\n\x1b[?7h\
    \r\x1b[13A\x1b[J\
    Showing 4 of 4 functions, total 6\n\
    own    own%     sum%  total  total%  name\n\
    \x20 2  33.33%   33.33%      3  50.00%  a\n\
    \x20 2  33.33%   66.67%      2  33.33%  c\n\
    \x20 1  16.67%   83.33%      1  16.67%  b\n\
    \x20 1  16.67%  100.00%      1  16.67%  d\n";

#[test]
fn table_of_five_samples(rt: HostRuntime) -> Result<(), Fail> {
    let form = LiveForm::Table { every: 4 };
    assert_eq!(rt;
        written_anew(rt.alloc(), form, 4)?.as_slice(),
        FRAMES.as_bytes()
    );
    Ok(())
}

/// How many pages there are, and of how many of them more is to come.
fn page_counts(text: &[u8]) -> (usize, usize) {
    (
        count_in(text, b"<!doctype html>"),
        count_in(text, b"\"more\":true"),
    )
}

/// How often a part stands in a text.
fn count_in(text: &[u8], part: &[u8]) -> usize
    requires { 0 < length part.now }
{
    text.windows(part.len()).filter(|at| *at == part).count()
}

/// A page for each snapshot, of which more is to come, and the last one.
#[test]
fn pages_of_five_samples(rt: HostRuntime) -> Result<(), Fail> {
    let text = written_anew(rt.alloc(), LiveForm::Pages, 2)?;
    assert_eq!(rt; page_counts(text.as_slice()), (3, 2));
    let text = written_anew(rt.alloc(), LiveForm::Pages, 9)?;
    assert_eq!(rt; page_counts(text.as_slice()), (1, 0));
    Ok(())
}

/// Two sources of five and of three samples, with a frame that both have.
const TWO: &[Given] = &[
    (Format::Folded, &[(FIVE_LINES, 1)]),
    (Format::Folded, &[(b"a;b 7\n \nd;e 2\na 0\n", 1)]),
];

/// What is written while the samples come is what is rendered of them at the end.
fn is_as_rendered(alloc: Global, views: &Views, every: u64) -> Result<bool, CollectFault>
    requires { 1 ≤ every }
{
    let width = Width::of(WIDTH).unwrap();
    let mut text = Vec::new(alloc);
    render(alloc, views, View::Graph(width), &mut text)?;
    Ok(written(alloc, views, every)?.as_slice() == text.as_slice())
}

/// A line for each sample, for every second one and at the last, at the last alone, and none before the end.
#[test]
fn lines_of_two_sources(rt: HostRuntime) -> Result<(), Fail> {
    let alloc = rt.alloc();
    let look = &|views: &Views| is_as_rendered(alloc, views, 1);
    see(&rt, TWO, 4, Some(1), look)?;
    let look = &|views: &Views| is_as_rendered(alloc, views, 2);
    see(&rt, TWO, 4, Some(2), look)?;
    let look = &|views: &Views| is_as_rendered(alloc, views, 8);
    see(&rt, TWO, 4, Some(8), look)?;
    let look = &|views: &Views| is_as_rendered(alloc, views, 9);
    see(&rt, TWO, 4, Some(9), look)
}
