//! Pictures of flame graphs.

use super::drawings::{Boxes, makes};
use std::test::Fail;

const EXAMPLE: Boxes<'static> = Boxes::Graph(&[
    (0, "all", 0, 57, 0),
    (1, "main", 0, 57, 0),
    (2, "parse", 0, 30, 30),
    (2, "print", 30, 27, 27),
]);

#[test]
fn example_of_the_readme(rt: HostRuntime) -> Result<(), Fail> {
    let around = ("parse.folded", "", 57, 600, false);
    let wanted =
        r##"<svg xmlns="http://www.w3.org/2000/svg" width="600" height="90" viewBox="0 0 600 90" font-family="monospace" font-size="12">
<title>parse.folded</title>
<rect width="600" height="90" fill="#fbfbf9"/>
<text x="4" y="15">parse.folded</text>
<g><title>all: 57, 100.00%, own 0</title><rect x="0" y="18" width="600" height="17" fill="hsl(220, 8%, 82%)"/><text x="4" y="31">all</text></g>
<g><title>main: 57, 100.00%, own 0</title><rect x="0" y="36" width="600" height="17" fill="hsl(100, 48%, 74%)"/><text x="4" y="49">main</text></g>
<g><title>parse: 30, 52.63%, own 30</title><rect x="0" y="54" width="315" height="17" fill="hsl(260, 48%, 74%)"/><text x="4" y="67">parse</text></g>
<g><title>print: 27, 47.37%, own 27</title><rect x="315" y="54" width="285" height="17" fill="hsl(300, 48%, 74%)"/><text x="319" y="67">print</text></g>
<text x="4" y="85">total 57</text>
</svg>
"##;
    makes(&rt, &around, &EXAMPLE, wanted)
}

const NARROW: Boxes<'static> = Boxes::Graph(&[
    (0, "all", 0, 1_000, 0),
    (1, "main", 0, 1_000, 0),
    (2, "a", 0, 900, 900),
    (2, "tiny", 900, 10, 4),
    (3, "leaf", 900, 6, 6),
    (2, "b", 910, 90, 90),
]);

// A fourth row has no box that is drawn, so the picture has three.
#[test]
fn narrow_boxes_are_left_out_with_their_rows(rt: HostRuntime) -> Result<(), Fail> {
    let around = ("below", "nanoseconds", 1_000, 40, true);
    let wanted =
        r##"<svg xmlns="http://www.w3.org/2000/svg" width="40" height="90" viewBox="0 0 40 90" font-family="monospace" font-size="12">
<title>below</title>
<rect width="40" height="90" fill="#fbfbf9"/>
<text x="4" y="15">below</text>
<g><title>all: 1 µs, 100.00%, own 0 ns</title><rect x="0" y="54" width="40" height="17" fill="hsl(220, 8%, 82%)"/><text x="4" y="67">all</text></g>
<g><title>main: 1 µs, 100.00%, own 0 ns</title><rect x="0" y="36" width="40" height="17" fill="hsl(100, 48%, 74%)"/><text x="4" y="49">main</text></g>
<g><title>a: 900 ns, 90.00%, own 900 ns</title><rect x="0" y="18" width="36" height="17" fill="hsl(50, 48%, 74%)"/><text x="4" y="31">a</text></g>
<g><title>b: 90 ns, 9.00%, own 90 ns</title><rect x="36" y="18" width="4" height="17" fill="hsl(280, 48%, 74%)"/></g>
<text x="4" y="85">total 1 µs · 2 narrower boxes left out, in which 10 ns ends</text>
</svg>
"##;
    makes(&rt, &around, &NARROW, wanted)
}

const ONE_NARROW: Boxes<'static> = Boxes::Graph(&[
    (0, "all", 0, 7, 0),
    (1, "x", 0, 2, 2),
    (1, "y", 2, 5, 5),
]);

#[test]
fn one_box_is_left_out(rt: HostRuntime) -> Result<(), Fail> {
    let around = ("one", "", 7, 3, false);
    let wanted =
        r##"<svg xmlns="http://www.w3.org/2000/svg" width="3" height="72" viewBox="0 0 3 72" font-family="monospace" font-size="12">
<title>one</title>
<rect width="3" height="72" fill="#fbfbf9"/>
<text x="4" y="15">one</text>
<g><title>all: 7, 100.00%, own 0</title><rect x="0" y="18" width="3" height="17" fill="hsl(220, 8%, 82%)"/></g>
<g><title>y: 5, 71.43%, own 5</title><rect x="0" y="36" width="3" height="17" fill="hsl(280, 48%, 78%)"/></g>
<text x="4" y="67">total 7 · 1 narrower box left out, in which 2 ends</text>
</svg>
"##;
    makes(&rt, &around, &ONE_NARROW, wanted)
}

const NOTHING: Boxes<'static> = Boxes::Graph(&[]);

#[test]
fn nothing(rt: HostRuntime) -> Result<(), Fail> {
    let around = ("", "seconds", 0, 200, true);
    let wanted =
        r##"<svg xmlns="http://www.w3.org/2000/svg" width="200" height="36" viewBox="0 0 200 36" font-family="monospace" font-size="12">
<title></title>
<rect width="200" height="36" fill="#fbfbf9"/>
<text x="4" y="15"></text>
<text x="4" y="31">total 0 ns</text>
</svg>
"##;
    makes(&rt, &around, &NOTHING, wanted)
}

#[test]
fn laws_take_nothing() {
    svg_texts::laws::characters_are_of_xml();
    svg_texts::laws::names_are_no_markup();
    svg_texts::laws::others_are_left_out();
    svg_texts::laws::own_weights_add_up();
    svg_texts::laws::tags_are_of_drawn_boxes();
}
