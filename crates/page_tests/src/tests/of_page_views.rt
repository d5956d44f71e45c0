//! Pages of small sources, with the data of docs/PAGE-DATA.md.

ghost use Rattle.std.specs.Prelude.{◌≡◌};

mod data;

use super::of_page_source::is_page;
use super::texts::holds;
use byte_io::CountedWriter;
use run_options::{Filter, Format, Naming, Options, Pick, RingSize};
use source_lists::{Gating, Input, Source, SourceLists, read};
use source_views::{
    Alone, Failure, Heading, merge, send_chart_page, send_comparison_page, send_graph_page,
    send_growing_page,
};
use stack_core::{NoSink, OpenGate, SourceList};
use std::alloc::{AllocError, Global};
use std::process::Abort;
use std::sync::Wait;
use std::test::Fail;
use std::thread::Threads;

const SOURCE: page_texts::Source<'static> = page_texts::Source {
    name: "small.folded",
    type_name: "",
    unit: "",
    weight: 3,
};

const HEADING: Heading<'static> = Heading {
    title: "small.folded",
    sources: &[SOURCE],
    least: None,
    whole: 3,
    is_root_below: false,
    is_share: false,
};

// A source of folded text.
pub(crate) fn folded(alloc: Global, text: &[u8]) -> Result<Source, AllocError> {
    Ok(Source {
        format: Format::Folded,
        bytes: text.to_vec(alloc)?,
    })
}

fn two_sources(alloc: Global, one: &[u8], other: &[u8]) -> Result<Vec<Source>, AllocError> {
    let first = folded(alloc, one)?;
    let second = folded(alloc, other)?;
    Ok(vec![in alloc; first, second]?)
}

// Rings of a few items, and nothing else chosen but the snapshots.
pub(crate) fn options_of(alloc: Global, every: Option<u64>) -> Options
    ensures { result.every ≡ every }
{
    Options {
        ring: RingSize::of(8).unwrap(),
        pick: Pick::Preferred,
        naming: Naming::Plain,
        filter: Filter::everything(alloc),
        every,
    }
}

// What was collected of sources.
fn collected<T: Threads + Wait + Copy + Send + 'static>(
    rt: &T,
    alloc: Global,
    sources: Vec<Source>,
    options: &Options,
) -> Result<SourceLists, Fail> {
    let mut inputs = Input::all_of(alloc, sources)?;
    inputs.truncate(64);
    let gating = Gating::<OpenGate>::Open;
    let run = read(rt, alloc, inputs, options, gating, &mut NoSink::new())?;
    Ok(run.kept)
}

// What was collected of two folded texts.
fn collected_of<T: Threads + Wait + Copy + Send + 'static>(
    rt: &T,
    alloc: Global,
    one: &[u8],
    other: &[u8],
) -> Result<SourceLists, Fail> {
    let sources = two_sources(alloc, one, other)?;
    collected(rt, alloc, sources, &options_of(alloc, None))
}

// Whose page is sent.
enum Sent {
    Graph,
    Chart,
    Comparison,
    // Whether more is to come.
    Growing(bool),
}

// The lists have small weights, as a comparison asks. Of others no page is sent.
fn send_comparison(
    alloc: Global,
    lists: &[SourceList],
    out: &mut CountedWriter<Vec<u8>>,
) -> Result<(), Failure> {
    if lists.len() != 2 {
        return Ok(());
    }
    let (before, after) = (&lists[0], &lists[1]);
    if before.total() >= 1_000 || after.total() >= 1_000 {
        return Ok(());
    }
    send_comparison_page(alloc, before, after, &HEADING, out)
}

fn send_growing(
    alloc: Global,
    sources: &SourceLists,
    has_more: bool,
    out: &mut CountedWriter<Vec<u8>>,
) -> Result<(), Failure> {
    let merged = merge(&Alone, alloc, sources)?;
    send_growing_page(alloc, &merged, has_more, out)?;
    Ok(())
}

fn send(
    alloc: Global,
    sent: &Sent,
    sources: &SourceLists,
    out: &mut CountedWriter<Vec<u8>>,
) -> Result<(), Failure> {
    match sent {
        Sent::Graph => send_graph_page(alloc, sources, &HEADING, out),
        Sent::Chart => send_chart_page(alloc, sources, &HEADING, out),
        Sent::Comparison => send_comparison(alloc, sources.lists(), out),
        Sent::Growing(has_more) => send_growing(alloc, sources, *has_more, out),
    }
}

fn page_sent(alloc: Global, sent: &Sent, sources: &SourceLists) -> Result<Vec<u8>, Failure> {
    let mut out = CountedWriter::new(Vec::new(alloc));
    send(alloc, sent, sources, &mut out)?;
    Ok(out.into_inner())
}

fn is_page_of(
    rt: &(impl Abort + AllocGlobal),
    sent: &Sent,
    sources: &SourceLists,
    data: &str,
) -> Result<(), Fail> {
    let page = page_sent(rt.alloc(), sent, sources)?;
    holds(rt, is_page(rt.alloc(), &page, data))
}

// The page of two folded texts has these data.
fn has_data<T: Threads + Wait + AllocGlobal + Abort + Copy + Send + 'static>(
    rt: &T,
    sent: &Sent,
    texts: &[&[u8]; 2],
    data: &str,
) -> Result<(), Fail> {
    let sources = collected_of(rt, rt.alloc(), texts[0], texts[1])?;
    is_page_of(rt, sent, &sources, data)
}

#[test]
fn graph_of_two_lines(rt: HostRuntime) -> Result<(), Fail> {
    let data =
        "{\"drawings\":[{\"gap\":[0,0,1],\"least\":0,\"left_out\":{\"boxes\":0,\"weight\":0},\"name\":[0,1,2],\"rest\":[0,1,0],\"tail\":[3,0,0],\"total\":3,\"up\":[1,0,0]}],\"names\":[\"all\",\"main\",\"read\\u003cint\\u003e\"],\"sources\":[{\"name\":\"small.folded\",\"type\":\"\",\"unit\":\"\",\"weight\":3}],\"title\":\"small.folded\",\"view\":\"graph\",\"whole\":3}";
    has_data(
        &rt,
        &Sent::Graph,
        &[b"main;read<int> 2\n", b"main 1\n"],
        data,
    )
}

#[test]
fn growing_graph_of_two_lines(rt: HostRuntime) -> Result<(), Fail> {
    let data =
        "{\"drawings\":[{\"gap\":[0,0,1],\"least\":0,\"left_out\":{\"boxes\":0,\"weight\":0},\"name\":[0,1,2],\"rest\":[0,1,0],\"tail\":[3,0,0],\"total\":3,\"up\":[1,0,0]}],\"more\":true,\"names\":[\"all\",\"main\",\"read\\u003cint\\u003e\"],\"sources\":[],\"title\":\"flamecollect live\",\"view\":\"graph\",\"whole\":3}";
    has_data(
        &rt,
        &Sent::Growing(true),
        &[b"main;read<int> 2\n", b"main 1\n"],
        data,
    )
}

#[test]
fn last_graph_of_two_lines(rt: HostRuntime) -> Result<(), Fail> {
    let data =
        "{\"drawings\":[{\"gap\":[0,0],\"least\":0,\"left_out\":{\"boxes\":0,\"weight\":0},\"name\":[0,1],\"rest\":[0,0],\"tail\":[3,0],\"total\":3,\"up\":[1,0]}],\"names\":[\"all\",\"main\"],\"sources\":[],\"title\":\"flamecollect live\",\"view\":\"graph\",\"whole\":3}";
    has_data(
        &rt,
        &Sent::Growing(false),
        &[b"main 2\n", b"main 1\n"],
        data,
    )
}

#[test]
fn chart_of_two_lines(rt: HostRuntime) -> Result<(), Fail> {
    let data =
        "{\"drawings\":[{\"gap\":[0,0,0],\"least\":0,\"left_out\":{\"boxes\":0,\"weight\":0},\"name\":[0,1,2],\"rest\":[0,1,0],\"tail\":[3,0,1],\"total\":3,\"up\":[1,0,0]}],\"names\":[\"all\",\"main\",\"read\"],\"sources\":[{\"name\":\"small.folded\",\"type\":\"\",\"unit\":\"\",\"weight\":3}],\"title\":\"small.folded\",\"view\":\"chart\",\"whole\":3}";
    has_data(&rt, &Sent::Chart, &[b"main;read 2\n", b"main 1\n"], data)
}

#[test]
fn comparison_of_two_lines(rt: HostRuntime) -> Result<(), Fail> {
    let data =
        "{\"drawings\":[{\"gap\":[0,0,0],\"least\":0,\"left_out\":{\"boxes\":0,\"weight\":0},\"name\":[0,1,2],\"other\":[1,1,0],\"rest\":[0,0,0],\"tail\":[3,0,0],\"total\":3,\"up\":[1,0,0]},{\"gap\":[0,0],\"least\":0,\"left_out\":{\"boxes\":0,\"weight\":0},\"name\":[0,1],\"other\":[3,3],\"rest\":[0,0],\"tail\":[1,0],\"total\":1,\"up\":[1,0]}],\"names\":[\"all\",\"a\",\"b\"],\"sources\":[{\"name\":\"small.folded\",\"type\":\"\",\"unit\":\"\",\"weight\":3}],\"title\":\"small.folded\",\"view\":\"compare\",\"whole\":3}";
    has_data(&rt, &Sent::Comparison, &[b"a;b 3\n", b"a 1\n"], data)
}
