//! The texts of small pages, as docs/PAGE-DATA.md has them.

use crate::tests::of_page_source::is_page;
use crate::tests::texts::{holds, is_text};
use byte_io::{CountedWriter, PieceFault};
use flame_layout::{DrawnBox, DrawnPair, FlameBoxes};
use page_texts::{Drawing, Moment, Page, Source, append_page_data, send_page};
use std::alloc::{AllocError, Global};
use std::process::Abort;
use std::test::Fail;

// Depth, name, start, weight and own weight of a box.
type Row<'a> = (u32, &'a str, u64, u64, u64);

fn box_of<'a>(row: &Row<'a>) -> DrawnBox<'a> {
    let (depth, name, start, weight, own) = *row;
    DrawnBox {
        depth,
        name,
        start,
        weight,
        own,
    }
}

fn add_boxes<'a>(boxes: &mut Vec<DrawnBox<'a>>, rows: &[Row<'a>]) -> Result<(), AllocError> {
    for row in rows {
        boxes.push(box_of(row))?;
    }
    Ok(())
}

// A page of one drawing, but for its boxes.
struct Case<'a> {
    least: u64,
    total: u64,
    moment: Option<Moment<'a>>,
    sources: &'a [Source<'a>],
    title: &'a str,
    view: &'a str,
    whole: u128,
    is_root_below: bool,
    is_share: bool,
    has_more: bool,
}

fn drawing_of<'a, L>(boxes: L, case: &Case<'a>) -> Drawing<'a, L> {
    Drawing {
        boxes,
        is_compared: case.view == "compare",
        least: case.least,
        total: case.total,
        moment: case.moment,
    }
}

fn page_with<'a, L: FlameBoxes>(drawings: &'a [Drawing<'a, L>], case: &Case<'a>) -> Page<'a, L> {
    Page {
        drawings,
        sources: case.sources,
        title: case.title,
        view: case.view,
        whole: case.whole,
        is_root_below: case.is_root_below,
        is_share: case.is_share,
        has_more: case.has_more,
    }
}

// Appends the data of a page.
fn append_data<L: FlameBoxes>(
    alloc: Global,
    out: &mut Vec<u8>,
    drawings: &[Drawing<'_, L>],
    case: &Case<'_>,
) -> Result<(), AllocError> {
    append_page_data(alloc, out, &page_with(drawings, case))
}

const ALL: Row<'static> = (0, "all", 0, 3, 0);

const MAIN: Row<'static> = (1, "main", 0, 3, 1);

const READ: Row<'static> = (2, "read<int>", 1, 2, 2);

// The boxes of `main;read<int> 2` and `main 1`.
const SMALL: &[Row<'static>] = &[ALL, MAIN, READ];

fn append_small(alloc: Global, out: &mut Vec<u8>, case: &Case<'_>) -> Result<(), AllocError> {
    let mut boxes = Vec::new(alloc);
    add_boxes(&mut boxes, SMALL)?;
    let drawing = drawing_of(boxes.as_slice(), case);
    append_data(alloc, out, &[drawing], case)
}

// The data of a page of the small boxes are these.
fn data_are(rt: &(impl Abort + AllocGlobal), case: &Case<'_>, wanted: &[u8]) -> Result<(), Fail> {
    let mut out = Vec::new(rt.alloc());
    let made = append_small(rt.alloc(), &mut out, case);
    is_text(rt, made, &out, wanted)
}

const SOURCE: Source<'static> = Source {
    name: "small.folded",
    type_name: "",
    unit: "",
    weight: 3,
};

const EXAMPLE: &Case<'static> = &Case {
    least: 0,
    total: 3,
    moment: None,
    sources: &[SOURCE],
    title: "small.folded",
    view: "graph",
    whole: 5,
    is_root_below: false,
    is_share: false,
    has_more: false,
};

#[test]
fn example_of_the_page(rt: HostRuntime) -> Result<(), Fail> {
    let wanted =
        b"{\"drawings\":[{\"gap\":[0,0,1],\"least\":0,\"left_out\":{\"boxes\":0,\"weight\":0},\"name\":[0,1,2],\"rest\":[0,1,0],\"tail\":[3,0,0],\"total\":3,\"up\":[1,0,0]}],\"names\":[\"all\",\"main\",\"read\\u003cint\\u003e\"],\"sources\":[{\"name\":\"small.folded\",\"type\":\"\",\"unit\":\"\",\"weight\":3}],\"title\":\"small.folded\",\"view\":\"graph\",\"whole\":5}";
    data_are(&rt, EXAMPLE, wanted)
}

const BELOW: &Case<'static> = &Case {
    least: 4,
    total: 3,
    moment: None,
    sources: &[],
    title: "small",
    view: "graph",
    whole: 3,
    is_root_below: true,
    is_share: false,
    has_more: false,
};

#[test]
fn root_below_is_told(rt: HostRuntime) -> Result<(), Fail> {
    let wanted =
        b"{\"drawings\":[{\"gap\":[],\"least\":4,\"left_out\":{\"boxes\":3,\"weight\":3},\"name\":[],\"rest\":[],\"tail\":[],\"total\":3,\"up\":[]}],\"names\":[],\"root_below\":true,\"sources\":[],\"title\":\"small\",\"view\":\"graph\",\"whole\":3}";
    data_are(&rt, BELOW, wanted)
}

const SHARE: &Case<'static> = &Case {
    least: 4,
    total: 3,
    moment: None,
    sources: &[],
    title: "small",
    view: "compare",
    whole: 3,
    is_root_below: false,
    is_share: true,
    has_more: false,
};

#[test]
fn shares_are_told(rt: HostRuntime) -> Result<(), Fail> {
    let wanted =
        b"{\"drawings\":[{\"gap\":[],\"least\":4,\"left_out\":{\"boxes\":3,\"weight\":3},\"name\":[],\"other\":[],\"rest\":[],\"tail\":[],\"total\":3,\"up\":[]}],\"names\":[],\"share\":true,\"sources\":[],\"title\":\"small\",\"view\":\"compare\",\"whole\":3}";
    data_are(&rt, SHARE, wanted)
}

const GROWING: &Case<'static> = &Case {
    least: 4,
    total: 3,
    moment: None,
    sources: &[],
    title: "small",
    view: "graph",
    whole: 3,
    is_root_below: true,
    is_share: false,
    has_more: true,
};

#[test]
fn more_to_come_is_told(rt: HostRuntime) -> Result<(), Fail> {
    let wanted =
        b"{\"drawings\":[{\"gap\":[],\"least\":4,\"left_out\":{\"boxes\":3,\"weight\":3},\"name\":[],\"rest\":[],\"tail\":[],\"total\":3,\"up\":[]}],\"more\":true,\"names\":[],\"root_below\":true,\"sources\":[],\"title\":\"small\",\"view\":\"graph\",\"whole\":3}";
    data_are(&rt, GROWING, wanted)
}

const NARROW: &Case<'static> = &Case {
    least: 3,
    total: 3,
    moment: Some(Moment {
        at: 2,
        counts: &[2],
    }),
    sources: &[SOURCE],
    title: "</script>&\u{2028}\u{2029}",
    view: "graph",
    whole: 5,
    is_root_below: false,
    is_share: false,
    has_more: false,
};

#[test]
fn narrow_boxes_are_told(rt: HostRuntime) -> Result<(), Fail> {
    let wanted =
        b"{\"drawings\":[{\"at\":2,\"counts\":[2],\"gap\":[0,0],\"least\":3,\"left_out\":{\"boxes\":1,\"weight\":2},\"name\":[0,1],\"rest\":[0,2],\"tail\":[3,0],\"total\":3,\"up\":[1,0]}],\"names\":[\"all\",\"main\"],\"sources\":[{\"name\":\"small.folded\",\"type\":\"\",\"unit\":\"\",\"weight\":3}],\"title\":\"\\u003c/script\\u003e\\u0026\\u2028\\u2029\",\"view\":\"graph\",\"whole\":5}";
    data_are(&rt, NARROW, wanted)
}

fn add_compared<'a>(
    boxes: &mut Vec<DrawnPair<'a>>,
    rows: &[(Row<'a>, u64)],
) -> Result<(), AllocError> {
    for (row, before) in rows {
        boxes.push(DrawnPair {
            drawn: box_of(row),
            total_before: *before,
        })?;
    }
    Ok(())
}

// The small boxes, with the other weights of a comparison.
const COMPARED_BOXES: &[(Row<'static>, u64)] = &[(ALL, 7), (MAIN, 5), (READ, 0)];

const COMPARED: &Case<'static> = &Case {
    least: 0,
    total: 3,
    moment: None,
    sources: &[],
    title: "",
    view: "compare",
    whole: 5,
    is_root_below: false,
    is_share: false,
    has_more: false,
};

fn append_compared(alloc: Global, out: &mut Vec<u8>) -> Result<(), AllocError> {
    let mut boxes = Vec::new(alloc);
    add_compared(&mut boxes, COMPARED_BOXES)?;
    let drawing = drawing_of(boxes.as_slice(), COMPARED);
    append_data(alloc, out, &[drawing], COMPARED)
}

#[test]
fn comparison_has_the_other_weights(rt: HostRuntime) -> Result<(), Fail> {
    let mut data = Vec::new(rt.alloc());
    let made = append_compared(rt.alloc(), &mut data);
    let wanted =
        b"{\"drawings\":[{\"gap\":[0,0,1],\"least\":0,\"left_out\":{\"boxes\":0,\"weight\":0},\"name\":[0,1,2],\"other\":[7,5,0],\"rest\":[0,1,0],\"tail\":[3,0,0],\"total\":3,\"up\":[1,0,0]}],\"names\":[\"all\",\"main\",\"read\\u003cint\\u003e\"],\"sources\":[],\"title\":\"\",\"view\":\"compare\",\"whole\":5}";
    is_text(&rt, made, &data, wanted)
}

// Adds so many boxes, one behind another.
fn add_row(boxes: &mut Vec<DrawnBox<'_>>, count: u32) -> Result<(), AllocError> {
    for at in 0..count {
        boxes.push(box_of(&(0, "all", u64::from(at), 1, 1)))?;
    }
    Ok(())
}

const LONG: &Case<'static> = &Case {
    least: 0,
    total: 2500,
    moment: None,
    sources: &[],
    title: "",
    view: "chart",
    whole: 5,
    is_root_below: false,
    is_share: false,
    has_more: false,
};

// Appends the data of a page of more numbers than a part has.
fn append_long(alloc: Global, out: &mut Vec<u8>) -> Result<(), AllocError> {
    let mut boxes = Vec::new(alloc);
    add_row(&mut boxes, 2500)?;
    let drawing = drawing_of(boxes.as_slice(), LONG);
    append_data(alloc, out, &[drawing], LONG)
}

// Five columns of 2500 digits with 2499 commas, and what stands round them.
fn are_whole(alloc: Global, data: &mut Vec<u8>) -> Result<bool, AllocError> {
    append_long(alloc, data)?;
    Ok(data.len() == 5 * (2500 + 2499) + 185)
}

#[test]
fn long_columns_are_whole(rt: HostRuntime) -> Result<(), Fail> {
    holds(&rt, are_whole(rt.alloc(), &mut Vec::new(rt.alloc())))
}

const README: &Case<'static> = &Case {
    least: 0,
    total: 3,
    moment: None,
    sources: &[],
    title: "<small>",
    view: "graph",
    whole: 3,
    is_root_below: false,
    is_share: false,
    has_more: false,
};

// Appends the data of the page of the README.
fn append_readme(alloc: Global, out: &mut Vec<u8>) -> Result<(), AllocError> {
    let mut boxes = Vec::new(alloc);
    add_boxes(&mut boxes, &SMALL[..1])?;
    let drawing = drawing_of(boxes.as_slice(), README);
    append_data(alloc, out, &[drawing], README)
}

// Sends a page.
fn send_drawings<L: FlameBoxes>(
    alloc: Global,
    drawings: &[Drawing<'_, L>],
    case: &Case<'_>,
    out: &mut CountedWriter<Vec<u8>>,
) -> Result<(), PieceFault> {
    send_page(alloc, &page_with(drawings, case), out)
}

// Sends the page of the README.
fn send_readme(alloc: Global, out: &mut CountedWriter<Vec<u8>>) -> Result<(), PieceFault> {
    let mut boxes = Vec::new(alloc);
    add_boxes(&mut boxes, &SMALL[..1])?;
    let drawing = drawing_of(boxes.as_slice(), README);
    send_drawings(alloc, &[drawing], README, out)
}

fn sent_readme(alloc: Global) -> Result<Vec<u8>, PieceFault> {
    let mut out = CountedWriter::new(Vec::new(alloc));
    send_readme(alloc, &mut out)?;
    Ok(out.into_inner())
}

// The data have no markup, and the page is the head, the data and the tail.
fn is_of_the_readme(alloc: Global, data: &[u8], sent: &[u8]) -> Result<bool, AllocError> {
    match str::from_utf8(data) {
        Ok(text) => Ok(!data.contains(&b'<') && is_page(alloc, sent, text)?),
        Err(_) => Ok(false),
    }
}

fn is_sent(rt: &(impl Abort + AllocGlobal), data: &[u8]) -> Result<(), Fail> {
    let sent = sent_readme(rt.alloc())?;
    holds(rt, is_of_the_readme(rt.alloc(), data, &sent))
}

fn sends_its_data(rt: &(impl Abort + AllocGlobal), data: &mut Vec<u8>) -> Result<(), Fail> {
    append_readme(rt.alloc(), data)?;
    is_sent(rt, data)
}

#[test]
fn example_of_the_readme(rt: HostRuntime) -> Result<(), Fail> {
    sends_its_data(&rt, &mut Vec::new(rt.alloc()))
}
