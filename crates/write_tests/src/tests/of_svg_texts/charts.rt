//! Pictures of flame charts.
ghost use Rattle.std.specs.Prelude.{◌<◌, ◌^◌};
ghost use Rattle.merged_stacks.specs.Timeline.{samples_of, timeline, total_weight};

use super::drawings::{Around, picture_of};
use crate::tests::sources::{Rows, add_lists, are_light};
use crate::tests::texts::{is_text, refuse};
use byte_io::append_pieces;
use flame_layout::{Chart, total_weight};
use stack_core::SourceList;
use std::alloc::{AllocError, Global};
use std::process::Abort;
use std::test::Fail;
use svg_texts::{Picture, Svg};

/// The picture is drawn in the weight of the sources.
fn append_chart(
    alloc: Global,
    out: &mut Vec<u8>,
    picture: &Picture<'_>,
    lists: &[SourceList],
) -> Result<(), AllocError>
    requires { total_weight (timeline (samples_of lists.now)) < 2 ^ 64 }
{
    let chart = Chart::of(alloc, lists)?;
    let picture = Picture {
        total: total_weight(lists),
        ..*picture
    };
    let svg = Svg::of(alloc, &picture, &chart)?;
    append_pieces(alloc, &svg, out)
}

fn append(
    alloc: Global,
    out: &mut Vec<u8>,
    around: &Around<'_>,
    sources: &[Rows<'_>],
) -> Result<(), AllocError> {
    let mut lists = Vec::new(alloc);
    add_lists(alloc, &mut lists, sources)?;
    let Some(picture) = picture_of(around) else {
        return refuse(out);
    };
    if !are_light(&lists) {
        return refuse(out);
    }
    append_chart(alloc, out, &picture, &lists)
}

fn makes(
    rt: &(impl Abort + AllocGlobal),
    around: &Around<'_>,
    sources: &[Rows<'_>],
    wanted: &str,
) -> Result<(), Fail> {
    let mut out = Vec::new(rt.alloc());
    let made = append(rt.alloc(), &mut out, around, sources);
    is_text(rt, made, &out, wanted.as_bytes())
}

const ONE: Rows<'static> = &[(&["a", "b"], 2), (&["a"], 1)];

const OTHER: Rows<'static> = &[(&["c"], 3)];

#[test]
fn sources_one_after_another(rt: HostRuntime) -> Result<(), Fail> {
    let around = ("chart", "samples", 0, 90, false);
    let wanted =
        r##"<svg xmlns="http://www.w3.org/2000/svg" width="90" height="90" viewBox="0 0 90 90" font-family="monospace" font-size="12">
<title>chart</title>
<rect width="90" height="90" fill="#fbfbf9"/>
<text x="4" y="15">chart</text>
<g><title>all: 6 samples, 100.00%, own 0 samples</title><rect x="0" y="18" width="90" height="17" fill="hsl(220, 8%, 82%)"/><text x="4" y="31">all</text></g>
<g><title>a: 3 samples, 50.00%, own 1 samples</title><rect x="0" y="36" width="45" height="17" fill="hsl(50, 48%, 74%)"/><text x="4" y="49">a</text></g>
<g><title>b: 2 samples, 33.33%, own 2 samples</title><rect x="0" y="54" width="30" height="17" fill="hsl(280, 48%, 74%)"/><text x="4" y="67">b</text></g>
<g><title>c: 3 samples, 50.00%, own 3 samples</title><rect x="45" y="36" width="45" height="17" fill="hsl(160, 48%, 78%)"/><text x="49" y="49">c</text></g>
<text x="4" y="85">total 6 samples</text>
</svg>
"##;
    makes(&rt, &around, &[ONE, OTHER], wanted)
}

#[test]
fn no_samples(rt: HostRuntime) -> Result<(), Fail> {
    let around = ("no samples", "", 0, 7, false);
    let wanted =
        r##"<svg xmlns="http://www.w3.org/2000/svg" width="7" height="36" viewBox="0 0 7 36" font-family="monospace" font-size="12">
<title>no samples</title>
<rect width="7" height="36" fill="#fbfbf9"/>
<text x="4" y="15">no samples</text>
<text x="4" y="31">total 0</text>
</svg>
"##;
    makes(&rt, &around, &[&[], &[]], wanted)
}
