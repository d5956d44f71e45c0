//! Pictures of comparisons.

use super::drawings::{Boxes, makes};
use std::test::Fail;

const COMPARED: Boxes<'static> = Boxes::Compared(&[
    ((0, "all", 0, 40, 0), 50),
    ((1, "grown", 0, 20, 20), 10),
    ((1, "found", 20, 10, 10), 0),
    ((1, "same", 30, 6, 6), 6),
    ((1, "no_room", 36, 4, 4), 16),
]);

#[test]
fn changes_have_room_or_not(rt: HostRuntime) -> Result<(), Fail> {
    let around = ("before and after", "", 40, 400, false);
    let wanted =
        r##"<svg xmlns="http://www.w3.org/2000/svg" width="400" height="72" viewBox="0 0 400 72" font-family="monospace" font-size="12">
<title>before and after</title>
<rect width="400" height="72" fill="#fbfbf9"/>
<text x="4" y="15">before and after</text>
<g><title>all: before 50, after 40, −20%, 100.00%, own 0</title><rect x="0" y="18" width="400" height="17" fill="hsl(213, 35.5%, 84.0%)"/><text x="4" y="31">all −20%</text></g>
<g><title>grown: before 10, after 20, +100%, 50.00%, own 20</title><rect x="0" y="36" width="200" height="17" fill="hsl(6, 50.0%, 78.0%)"/><text x="4" y="49">grown +100%</text></g>
<g><title>found: before 0, after 10, new, 25.00%, own 10</title><rect x="200" y="36" width="100" height="17" fill="hsl(6, 74.0%, 68.0%)"/><text x="204" y="49">found new</text></g>
<g><title>same: before 6, after 6, ±0%, 15.00%, own 6</title><rect x="300" y="36" width="60" height="17" fill="hsl(6, 0.0%, 88.0%)"/><text x="304" y="49">same</text></g>
<g><title>no_room: before 16, after 4, −75%, 10.00%, own 4</title><rect x="360" y="36" width="40" height="17" fill="hsl(213, 64.4%, 72.0%)"/><text x="364" y="49">no_…</text></g>
<text x="4" y="67">total 40</text>
</svg>
"##;
    makes(&rt, &around, &COMPARED, wanted)
}

const BELOW: Boxes<'static> = Boxes::Compared(&[
    ((0, "all", 0, 3, 0), 1),
    ((1, "a", 0, 2, 2), 1),
    ((1, "b", 2, 1, 1), 0),
]);

#[test]
fn root_below(rt: HostRuntime) -> Result<(), Fail> {
    let around = ("two", "megabytes", 3, 40, true);
    let wanted =
        r##"<svg xmlns="http://www.w3.org/2000/svg" width="40" height="72" viewBox="0 0 40 72" font-family="monospace" font-size="12">
<title>two</title>
<rect width="40" height="72" fill="#fbfbf9"/>
<text x="4" y="15">two</text>
<g><title>all: before 1 MiB, after 3 MiB, +200%, 100.00%, own 0 B</title><rect x="0" y="36" width="40" height="17" fill="hsl(6, 59.6%, 74.0%)"/><text x="4" y="49">all</text></g>
<g><title>a: before 1 MiB, after 2 MiB, +100%, 66.67%, own 2 MiB</title><rect x="0" y="18" width="26" height="17" fill="hsl(6, 50.0%, 78.0%)"/><text x="4" y="31">a</text></g>
<g><title>b: before 0 B, after 1 MiB, new, 33.33%, own 1 MiB</title><rect x="26" y="18" width="14" height="17" fill="hsl(6, 74.0%, 68.0%)"/></g>
<text x="4" y="67">total 3 MiB</text>
</svg>
"##;
    makes(&rt, &around, &BELOW, wanted)
}

// The totals are the greatest that differ. A share that is greater by nearly nothing has a colour, and no points.
const SHARES: Boxes<'static> = Boxes::Shares(
    &[
        ((0, "all", 0, 18446744073709551615, 0), 18446744073709551614),
        ((1, "new", 0, 9223372036854775807, 9223372036854775807), 0),
        (
            (
                1,
                "less",
                9223372036854775807,
                4611686018427387904,
                4611686018427387904,
            ),
            9223372036854775807,
        ),
        (
            (
                1,
                "grown",
                13835058055282163711,
                4611686018427387904,
                4611686018427387904,
            ),
            4611686018427387903,
        ),
    ],
    18446744073709551614,
);

#[test]
fn shares_of_long_profiles(rt: HostRuntime) -> Result<(), Fail> {
    let around = ("shares", "", 18446744073709551615, 480, false);
    let wanted =
        r##"<svg xmlns="http://www.w3.org/2000/svg" width="480" height="72" viewBox="0 0 480 72" font-family="monospace" font-size="12">
<title>shares</title>
<rect width="480" height="72" fill="#fbfbf9"/>
<text x="4" y="15">shares</text>
<g><title>all: before 18,446,744,073,709,551,614, 100.00%, after 18,446,744,073,709,551,615, 100.00%, points 0.00%, own 0</title><rect x="0" y="18" width="480" height="17" fill="hsl(6, 0.0%, 88.0%)"/><text x="4" y="31">all 0.00%</text></g>
<g><title>new: before 0, 0.00%, after 9,223,372,036,854,775,807, 50.00%, points +50.00%, own 9,223,372,036,854,775,807</title><rect x="0" y="36" width="239" height="17" fill="hsl(6, 74.0%, 68.0%)"/><text x="4" y="49">new +50.00%</text></g>
<g><title>less: before 9,223,372,036,854,775,807, 50.00%, after 4,611,686,018,427,387,904, 25.00%, points -25.00%, own 4,611,686,018,427,387,904</title><rect x="239" y="36" width="120" height="17" fill="hsl(213, 50.0%, 78.0%)"/><text x="243" y="49">less -25.00%</text></g>
<g><title>grown: before 4,611,686,018,427,387,903, 25.00%, after 4,611,686,018,427,387,904, 25.00%, points 0.00%, own 4,611,686,018,427,387,904</title><rect x="359" y="36" width="121" height="17" fill="hsl(6, 30.7%, 86.0%)"/><text x="363" y="49">grown 0.00%</text></g>
<text x="4" y="67">total 18,446,744,073,709,551,615</text>
</svg>
"##;
    makes(&rt, &around, &SHARES, wanted)
}

const OF_NOTHING: Boxes<'static> = Boxes::Shares(
    &[((0, "all", 0, 4, 0), 0), ((1, "a", 0, 4, 4), 0)],
    0,
);

#[test]
fn shares_of_nothing(rt: HostRuntime) -> Result<(), Fail> {
    let around = ("", "", 4, 200, false);
    let wanted =
        r##"<svg xmlns="http://www.w3.org/2000/svg" width="200" height="72" viewBox="0 0 200 72" font-family="monospace" font-size="12">
<title></title>
<rect width="200" height="72" fill="#fbfbf9"/>
<text x="4" y="15"></text>
<g><title>all: before 0, 0.00%, after 4, 100.00%, points +100.00%, own 0</title><rect x="0" y="18" width="200" height="17" fill="hsl(6, 74.0%, 68.0%)"/><text x="4" y="31">all +100.00%</text></g>
<g><title>a: before 0, 0.00%, after 4, 100.00%, points +100.00%, own 4</title><rect x="0" y="36" width="200" height="17" fill="hsl(6, 74.0%, 68.0%)"/><text x="4" y="49">a +100.00%</text></g>
<text x="4" y="67">total 4</text>
</svg>
"##;
    makes(&rt, &around, &OF_NOTHING, wanted)
}
