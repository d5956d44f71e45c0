//! Worked examples.

use super::drawings::{Line, Written, append_all};
use crate::tests::boxes::Row;
use crate::tests::texts::is_text;
use flame_layout::DrawnBox;
use std::alloc::AllocError;
use std::process::Abort;
use std::test::Fail;

/// That these make these lines, one behind another, behind what stood there.
fn make(
    rt: &(impl Abort + AllocGlobal),
    front: &str,
    all: &[Written<'_>],
    wanted: &str,
) -> Result<(), Fail> {
    let mut out = Vec::new(rt.alloc());
    let made = append_all(rt.alloc(), &mut out, front, all);
    is_text(rt, made, &out, wanted.as_bytes())
}

const THREE: &[Row<'static>] = &[(0, "all", 0, 3, 0), (1, "a", 0, 1, 1), (1, "b", 1, 2, 2)];

const OF_THREE_LINES: &[Written<'static>] = &[
    (Line::Boxes("graph", THREE), 3, 10),
    (Line::Boxes("chart", THREE), 3, 10),
];

#[test]
fn graph_of_three_lines(rt: HostRuntime) -> Result<(), Fail> {
    let lines = concat!(
        r#"{"boxes":[{"depth":0,"left":0,"name":"all","own":0,"right":10,"start":0,"weight":3},"#,
        r#"{"depth":1,"left":0,"name":"a","own":1,"right":3,"start":0,"weight":1},"#,
        r#"{"depth":1,"left":3,"name":"b","own":2,"right":10,"start":1,"weight":2}],"#,
        r#""total":3,"view":"graph","width":10}"#,
        "\n",
        r#"{"boxes":[{"depth":0,"left":0,"name":"all","own":0,"right":10,"start":0,"weight":3},"#,
        r#"{"depth":1,"left":0,"name":"a","own":1,"right":3,"start":0,"weight":1},"#,
        r#"{"depth":1,"left":3,"name":"b","own":2,"right":10,"start":1,"weight":2}],"#,
        r#""total":3,"view":"chart","width":10}"#,
        "\n",
    );
    make(&rt, "", OF_THREE_LINES, lines)
}

const ALL: DrawnBox<'static> = DrawnBox {
    depth: 0,
    name: "all",
    start: 0,
    weight: 3,
    own: 3,
};

const LENT: &[Written<'static>] = &[(Line::Drawn("chart", &[ALL]), 3, 10)];

#[test]
fn line_of_lent_names(rt: HostRuntime) -> Result<(), Fail> {
    let line = concat!(
        r#"{"boxes":[{"depth":0,"left":0,"name":"all","own":3,"right":10,"start":0,"weight":3}],"#,
        r#""total":3,"view":"chart","width":10}"#,
        "\n"
    );
    make(&rt, "", LENT, line)
}

/// More boxes than are put together at a time.
const OF_MANY: &[Written<'static>] = &[(Line::Drawn("chart", &[ALL; 130]), 3, 10)];

/// Appends so many boxes that are alike, of which this is one.
fn push_many(line: &mut String, one: &str, many: usize) -> Result<(), AllocError> {
    for at in 0..many {
        line.push_str(if at > 0 { "," } else { "" })?;
        line.push_str(one)?;
    }
    Ok(())
}

/// Appends the line of these boxes.
fn push_line_of_many(line: &mut String, one: &str, many: usize) -> Result<(), AllocError> {
    line.push_str(r#"{"boxes":["#)?;
    push_many(line, one, many)?;
    line.push_str("],\"total\":3,\"view\":\"chart\",\"width\":10}\n")
}

#[test]
fn line_of_many_boxes(rt: HostRuntime) -> Result<(), Fail> {
    let one = r#"{"depth":0,"left":0,"name":"all","own":3,"right":10,"start":0,"weight":3}"#;
    let mut line = String::new(rt.alloc());
    push_line_of_many(&mut line, one, 130)?;
    make(&rt, "", OF_MANY, line.as_str())
}

const EMPTY: &[Written<'static>] = &[(Line::Boxes("graph", &[]), 0, 1_200)];

#[test]
fn empty_graph(rt: HostRuntime) -> Result<(), Fail> {
    let line = concat!(
        r#"{"boxes":[],"total":0,"view":"graph","width":1200}"#,
        "\n"
    );
    make(&rt, "", EMPTY, line)
}

const FIRST: &[Row<'static>] = &[(0, "all", 0, 2, 0), (1, "a", 0, 2, 1), (2, "b", 1, 1, 1)];

const SECOND: &[Row<'static>] = &[
    (0, "all", 0, 5, 0),
    (1, "a", 0, 3, 2),
    (2, "b", 2, 1, 1),
    (1, "c", 3, 2, 2),
];

const OF_ONE_SOURCE: &[Written<'static>] = &[
    (Line::Snapshot(2, &[2], FIRST), 2, 10),
    (Line::Snapshot(4, &[4], SECOND), 5, 10),
];

#[test]
fn snapshots_of_one_source(rt: HostRuntime) -> Result<(), Fail> {
    let lines = concat!(
        r#"{"at":2,"boxes":["#,
        r#"{"depth":0,"left":0,"name":"all","own":0,"right":10,"start":0,"weight":2},"#,
        r#"{"depth":1,"left":0,"name":"a","own":1,"right":10,"start":0,"weight":2},"#,
        r#"{"depth":2,"left":5,"name":"b","own":1,"right":10,"start":1,"weight":1}],"#,
        r#""counts":[2],"total":2,"view":"snapshot","width":10}"#,
        "\n",
        r#"{"at":4,"boxes":["#,
        r#"{"depth":0,"left":0,"name":"all","own":0,"right":10,"start":0,"weight":5},"#,
        r#"{"depth":1,"left":0,"name":"a","own":2,"right":6,"start":0,"weight":3},"#,
        r#"{"depth":2,"left":4,"name":"b","own":1,"right":6,"start":2,"weight":1},"#,
        r#"{"depth":1,"left":6,"name":"c","own":2,"right":10,"start":3,"weight":2}],"#,
        r#""counts":[4],"total":5,"view":"snapshot","width":10}"#,
        "\n",
    );
    make(&rt, "", OF_ONE_SOURCE, lines)
}

const OF_THREE_SOURCES: &[Written<'static>] = &[
    (Line::Snapshot(12, &[0, 2, 10], &[]), 0, 10),
    (Line::Snapshot(0, &[], &[]), 0, 10),
];

#[test]
fn counts_of_three_sources(rt: HostRuntime) -> Result<(), Fail> {
    let lines = concat!(
        "before\n",
        r#"{"at":12,"boxes":[],"counts":[0,2,10],"total":0,"view":"snapshot","width":10}"#,
        "\n",
        r#"{"at":0,"boxes":[],"counts":[],"total":0,"view":"snapshot","width":10}"#,
        "\n",
    );
    make(&rt, "before\n", OF_THREE_SOURCES, lines)
}

const COMPARED: &[(Row<'static>, u64)] = &[
    ((0, "all", 0, 3, 0), 4),
    ((1, "a", 0, 1, 1), 3),
    ((1, "c", 1, 2, 2), 0),
];

const OF_TWO_PROFILES: &[Written<'static>] = &[(Line::Pairs(4, COMPARED), 3, 10)];

#[test]
fn comparison(rt: HostRuntime) -> Result<(), Fail> {
    let line = concat!(
        r#"{"before":4,"boxes":["#,
        r#"{"before":4,"depth":0,"left":0,"name":"all","own":0,"right":10,"start":0,"weight":3},"#,
        r#"{"before":3,"depth":1,"left":0,"name":"a","own":1,"right":3,"start":0,"weight":1},"#,
        r#"{"before":0,"depth":1,"left":3,"name":"c","own":2,"right":10,"start":1,"weight":2}],"#,
        r#""total":3,"view":"compare","width":10}"#,
        "\n",
    );
    make(&rt, "", OF_TWO_PROFILES, line)
}

const ODD_NAMES: &[Row<'static>] = &[
    (1, "a\"b\\c", 0, 1, 1),
    (1, "\u{1}\u{1f}\t\n\r\u{8}\u{c}\u{7f}", 1, 1, 1),
    (1, "/é€𝄞\u{fffd}", 2, 1, 1),
    (1, "", 3, 1, 1),
];

const ESCAPED: &[Written<'static>] = &[(Line::Boxes("graph", ODD_NAMES), 4, 4)];

// A quote, a backslash and control characters are escaped, and other text stays as it is.
#[test]
fn escaped_names(rt: HostRuntime) -> Result<(), Fail> {
    let line = concat!(
        r#"{"boxes":["#,
        r#"{"depth":1,"left":0,"name":"a\"b\\c","own":1,"right":1,"start":0,"weight":1},"#,
        r#"{"depth":1,"left":1,"name":"\u0001\u001f\t\n\r\b\f"#,
        "\u{7f}",
        r#"","own":1,"right":2,"start":1,"weight":1},"#,
        r#"{"depth":1,"left":2,"name":"/é€𝄞"#,
        "\u{fffd}",
        r#"","own":1,"right":3,"start":2,"weight":1},"#,
        r#"{"depth":1,"left":3,"name":"","own":1,"right":4,"start":3,"weight":1}],"#,
        r#""total":4,"view":"graph","width":4}"#,
        "\n",
    );
    make(&rt, "", ESCAPED, line)
}

#[test]
fn laws_take_nothing() {
    view_texts::laws::json_lines_read_back();
}
