//! The data of pages in a vector, as other programs get it.
ghost use Rattle.std.specs.Prelude.{◌≡◌, ◌≤◌, IfSome, IsTrue, length};

use super::{folded, options_of};
use crate::tests::texts::are_bytes;
use run_options::Options;
use serde_json::Value;
use source_lists::Source;
use source_views::{Heading, PageView, Views, render_page_data, views};
use stack_core::OpenGate;
use std::alloc::{AllocError, Global};
use std::process::Abort;
use std::sync::{Arc, Wait};
use std::test::Fail;
use std::thread::Threads;

// The example of README.md: its boxes that weigh at least 10 were worked out by hand, and so was what is left out.
const EXAMPLE: &[u8] =
    b"main;parse;read 12\nmain;parse;tokenize 31\nmain;layout 3\nmain;parse;read 7\nmain;layout;measure 4\n";

const EXAMPLE_DATA: &str = "{
    \"view\": \"graph\", \"title\": \"</script>\", \"whole\": 57, \"sources\": [],
    \"names\": [\"all\", \"main\", \"parse\", \"read\", \"tokenize\"],
    \"drawings\": [{
        \"least\": 10, \"total\": 57, \"left_out\": {\"boxes\": 2, \"weight\": 7},
        \"name\": [0, 1, 2, 3, 4],
        \"up\": [1, 0, 0, 0, 1],
        \"gap\": [0, 0, 7, 0, 0],
        \"tail\": [57, 0, 0, 31, 31],
        \"rest\": [0, 0, 0, 0, 0]
    }]
}";

fn add_sources(
    alloc: Global,
    sources: &mut Vec<Source>,
    texts: &[&[u8]],
) -> Result<(), AllocError> {
    for text in texts {
        sources.push(folded(alloc, text)?)?;
    }
    Ok(())
}

// What is seen of sources.
fn seen<T: Threads + Wait + Copy + Send + 'static>(
    rt: &T,
    alloc: Global,
    mut sources: Vec<Source>,
    options: &Options,
) -> Result<Views, Fail>
    requires { IfSome options.now.every (λ every. 1 ≤ every) }
{
    sources.truncate(64);
    let gate = Arc::new(alloc, OpenGate)?;
    Ok(views(rt, alloc, sources, options, gate)?)
}

// What is seen of folded texts.
fn seen_of<T: Threads + Wait + Copy + Send + 'static>(
    rt: &T,
    alloc: Global,
    texts: &[&[u8]],
    every: Option<u64>,
) -> Result<Views, Fail>
    requires { IfSome every (λ every. 1 ≤ every) }
{
    let mut sources = Vec::new(alloc);
    add_sources(alloc, &mut sources, texts)?;
    seen(rt, alloc, sources, &options_of(alloc, every))
}

const SMALL: Heading<'static> = Heading {
    title: "small",
    sources: &[],
    least: Some(0),
    whole: 3,
    is_root_below: false,
    is_share: false,
};

const OF_SCRIPTS: Heading<'static> = Heading {
    title: "</script>",
    sources: &[],
    least: Some(10),
    whole: 57,
    is_root_below: false,
    is_share: false,
};

// Whether there is what a view asks for.
fn can_show(views: &Views, view: PageView) -> bool
    ensures { IsTrue result → view ≡ PageView.Compare → length views.now.lists ≡ 2 }
{
    match view {
        PageView::Compare => views.lists().len() == 2,
        _ => true,
    }
}

// Appends the data of a page of what was seen, if there is what the view asks for.
fn append_data(
    alloc: Global,
    out: &mut Vec<u8>,
    views: &Views,
    view: PageView,
    heading: &Heading<'_>,
) -> Result<(), Fail> {
    if can_show(views, view) {
        render_page_data(alloc, views, view, heading, out)?;
    }
    Ok(())
}

fn value_of(alloc: Global, text: &str) -> Option<Value> {
    Value::from_str(alloc, text).ok()
}

// Both texts are JSON, of one value.
fn is_value(alloc: Global, text: &str, wanted: &str) -> bool {
    match (value_of(alloc, text), value_of(alloc, wanted)) {
        (Some(found), Some(wanted)) => found == wanted,
        _ => false,
    }
}

fn is_example(alloc: Global, data: &[u8]) -> bool {
    match str::from_utf8(data) {
        Ok(text) => !data.contains(&b'<') && is_value(alloc, text, EXAMPLE_DATA),
        Err(_) => false,
    }
}

// Appends the data of what is seen of folded texts.
fn append_seen<T: Threads + Wait + AllocGlobal + Copy + Send + 'static>(
    rt: &T,
    out: &mut Vec<u8>,
    texts: &[&[u8]],
    every: Option<u64>,
    view: PageView,
    heading: &Heading<'_>,
) -> Result<(), Fail>
    requires { IfSome every (λ every. 1 ≤ every) }
{
    let views = seen_of(rt, rt.alloc(), texts, every)?;
    append_data(rt.alloc(), out, &views, view, heading)
}

#[test]
fn data_reads_as_its_boxes(rt: HostRuntime) -> Result<(), Fail> {
    let mut data = Vec::new(rt.alloc());
    append_seen(
        &rt,
        &mut data,
        &[EXAMPLE],
        None,
        PageView::Graph,
        &OF_SCRIPTS,
    )?;
    assert!(rt; is_example(rt.alloc(), &data));
    Ok(())
}

// The data of what is seen of folded texts stand behind what stood there.
fn show_data<T: Threads + Wait + AllocGlobal + Abort + Copy + Send + 'static>(
    rt: &T,
    data: &mut Vec<u8>,
    texts: &[&[u8]],
    every: Option<u64>,
    view: PageView,
    wanted: &[u8],
) -> Result<(), Fail>
    requires { IfSome every (λ every. 1 ≤ every) }
{
    data.extend_from_slice(b"before ")?;
    append_seen(rt, data, texts, every, view, &SMALL)?;
    are_bytes(rt, data, wanted);
    Ok(())
}

#[test]
fn data_of_snapshots(rt: HostRuntime) -> Result<(), Fail> {
    let texts: &[&[u8]] = &[b"main;read<int> 2\nmain 1\n"];
    let wanted =
        b"before {\"drawings\":[{\"at\":1,\"counts\":[1],\"gap\":[0,0,0],\"least\":0,\"left_out\":{\"boxes\":0,\"weight\":0},\"name\":[0,1,2],\"rest\":[0,0,0],\"tail\":[2,0,0],\"total\":2,\"up\":[1,0,0]},{\"at\":2,\"counts\":[2],\"gap\":[0,0,1],\"least\":0,\"left_out\":{\"boxes\":0,\"weight\":0},\"name\":[0,1,2],\"rest\":[0,1,0],\"tail\":[3,0,0],\"total\":3,\"up\":[1,0,0]},{\"gap\":[0,0,1],\"least\":0,\"left_out\":{\"boxes\":0,\"weight\":0},\"name\":[0,1,2],\"rest\":[0,1,0],\"tail\":[3,0,0],\"total\":3,\"up\":[1,0,0]}],\"names\":[\"all\",\"main\",\"read\\u003cint\\u003e\"],\"sources\":[],\"title\":\"small\",\"view\":\"graph\",\"whole\":3}";
    show_data(
        &rt,
        &mut Vec::new(rt.alloc()),
        texts,
        Some(1),
        PageView::Graph,
        wanted,
    )
}

#[test]
fn data_of_a_chart(rt: HostRuntime) -> Result<(), Fail> {
    let texts: &[&[u8]] = &[b"main;read 2\n", b"main 1\n"];
    let wanted =
        b"before {\"drawings\":[{\"gap\":[0,0,0],\"least\":0,\"left_out\":{\"boxes\":0,\"weight\":0},\"name\":[0,1,2],\"rest\":[0,1,0],\"tail\":[3,0,1],\"total\":3,\"up\":[1,0,0]}],\"names\":[\"all\",\"main\",\"read\"],\"sources\":[],\"title\":\"small\",\"view\":\"chart\",\"whole\":3}";
    show_data(
        &rt,
        &mut Vec::new(rt.alloc()),
        texts,
        None,
        PageView::Chart,
        wanted,
    )
}

#[test]
fn data_of_a_comparison(rt: HostRuntime) -> Result<(), Fail> {
    let texts: &[&[u8]] = &[b"a;b 3\n", b"a 1\n"];
    let wanted =
        b"before {\"drawings\":[{\"gap\":[0,0,0],\"least\":0,\"left_out\":{\"boxes\":0,\"weight\":0},\"name\":[0,1,2],\"other\":[1,1,0],\"rest\":[0,0,0],\"tail\":[3,0,0],\"total\":3,\"up\":[1,0,0]},{\"gap\":[0,0],\"least\":0,\"left_out\":{\"boxes\":0,\"weight\":0},\"name\":[0,1],\"other\":[3,3],\"rest\":[0,0],\"tail\":[1,0],\"total\":1,\"up\":[1,0]}],\"names\":[\"all\",\"a\",\"b\"],\"sources\":[],\"title\":\"small\",\"view\":\"compare\",\"whole\":3}";
    show_data(
        &rt,
        &mut Vec::new(rt.alloc()),
        texts,
        None,
        PageView::Compare,
        wanted,
    )
}
