//! The smallest and the greatest picture.

use super::drawings::{Boxes, makes};
use std::test::Fail;

const NARROWEST: Boxes<'static> = Boxes::Graph(&[
    (0, "all", 0, 2, 0),
    (1, "x", 0, 1, 1),
    (1, "y", 1, 1, 1),
]);

#[test]
fn one_pixel(rt: HostRuntime) -> Result<(), Fail> {
    let around = ("narrowest", "", 2, 1, false);
    let wanted =
        r##"<svg xmlns="http://www.w3.org/2000/svg" width="1" height="72" viewBox="0 0 1 72" font-family="monospace" font-size="12">
<title>narrowest</title>
<rect width="1" height="72" fill="#fbfbf9"/>
<text x="4" y="15">narrowest</text>
<g><title>all: 2, 100.00%, own 0</title><rect x="0" y="18" width="1" height="17" fill="hsl(220, 8%, 82%)"/></g>
<g><title>y: 1, 50.00%, own 1</title><rect x="0" y="36" width="1" height="17" fill="hsl(280, 48%, 78%)"/></g>
<text x="4" y="67">total 2 · 1 narrower box left out, in which 1 ends</text>
</svg>
"##;
    makes(&rt, &around, &NARROWEST, wanted)
}

const WIDEST: Boxes<'static> = Boxes::Graph(&[
    (0, "all", 0, u64::MAX, 0),
    (1, "a", 0, u64::MAX - 1, u64::MAX - 1),
    (1, "b", u64::MAX - 1, 1, 1),
]);

#[test]
fn the_greatest_width_and_total(rt: HostRuntime) -> Result<(), Fail> {
    let around = ("widest", "bytes", u64::MAX, 65_536, false);
    let wanted =
        r##"<svg xmlns="http://www.w3.org/2000/svg" width="65536" height="72" viewBox="0 0 65536 72" font-family="monospace" font-size="12">
<title>widest</title>
<rect width="65536" height="72" fill="#fbfbf9"/>
<text x="4" y="15">widest</text>
<g><title>all: 16,777,216 TiB, 100.00%, own 0 B</title><rect x="0" y="18" width="65536" height="17" fill="hsl(220, 8%, 82%)"/><text x="4" y="31">all</text></g>
<g><title>a: 16,777,216 TiB, 100.00%, own 16,777,216 TiB</title><rect x="0" y="36" width="65535" height="17" fill="hsl(50, 48%, 74%)"/><text x="4" y="49">a</text></g>
<g><title>b: 1 B, 0.00%, own 1 B</title><rect x="65535" y="36" width="1" height="17" fill="hsl(280, 48%, 74%)"/></g>
<text x="4" y="67">total 16,777,216 TiB</text>
</svg>
"##;
    makes(&rt, &around, &WIDEST, wanted)
}
