//! The line of a chart.

use super::fold::{Written, makes};
use super::joined::Joined;
use crate::tests::sources::Rows;
use std::test::Fail;

const ONE: Rows<'static> = &[(&["a"], 1), (&["c"], 0)];

const OTHER: Rows<'static> = &[(&["b"], 2)];

const CHART: &Written<'static> = &(Joined::Chart, &[ONE, OTHER]);

#[test]
fn line_of_a_chart(rt: HostRuntime) -> Result<(), Fail> {
    let line = concat!(
        "# ",
        r#"{"boxes":[{"depth":0,"left":0,"name":"all","own":0,"right":10,"start":0,"weight":3},"#,
        r#"{"depth":1,"left":0,"name":"a","own":1,"right":3,"start":0,"weight":1},"#,
        r#"{"depth":1,"left":3,"name":"b","own":2,"right":10,"start":1,"weight":2}],"#,
        r#""total":3,"view":"chart","width":10}"#,
        "\n",
    );
    makes(&rt, CHART, line)
}

const NO_CHART: &Written<'static> = &(Joined::Chart, &[&[], &[]]);

#[test]
fn line_of_no_chart(rt: HostRuntime) -> Result<(), Fail> {
    let line = concat!(
        "# ",
        r#"{"boxes":[],"total":0,"view":"chart","width":10}"#,
        "\n"
    );
    makes(&rt, NO_CHART, line)
}
