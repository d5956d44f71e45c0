//! Worked examples, as the pages say them.

use super::texts::is_text;
use std::alloc::AllocError;
use std::process::Abort;
use std::test::Fail;
use view_texts::{append_change, append_share, append_weight, share_width};

#[derive(Clone, Copy)]
enum Said<'a> {
    /// A weight, and its unit.
    Weight(u64, &'a str),
    /// A weight, and the whole.
    Share(u64, u64),
    /// What there was before, and what there is after.
    Change(u64, u64),
}

fn append(out: &mut Vec<u8>, said: Said<'_>) -> Result<(), AllocError> {
    match said {
        Said::Weight(weight, unit) => append_weight(out, weight, unit),
        Said::Share(weight, whole) => append_share(out, weight, whole),
        Said::Change(before, after) => append_change(out, before, after),
    }
}

/// Asks again where memory was refused, since that changed nothing.
fn append_anew(out: &mut Vec<u8>, said: Said<'_>) -> Result<(), AllocError> {
    if append(out, said).is_err() {
        append(out, said)
    } else {
        Ok(())
    }
}

/// Appends these to a line that stands there before, each with a line feed.
fn append_all(out: &mut Vec<u8>, all: &[Said<'_>]) -> Result<(), AllocError> {
    out.extend_from_slice(b"before\n")?;
    for said in all {
        append_anew(out, *said)?;
        out.push(b'\n')?;
    }
    Ok(())
}

/// That these are said so, one behind another.
fn are_said(rt: &(impl Abort + AllocGlobal), all: &[Said<'_>], wanted: &str) -> Result<(), Fail> {
    let mut out = Vec::new(rt.alloc());
    let made = append_all(&mut out, all);
    is_text(rt, made, &out, wanted.as_bytes())
}

const TIMES: &[Said<'static>] = &[
    Said::Weight(756_000_000, "nanoseconds"),
    Said::Weight(999_499, "nanoseconds"),
    Said::Weight(999_501, "nanoseconds"),
    Said::Weight(0, "nanoseconds"),
    Said::Weight(12_345, "microseconds"),
    Said::Weight(1_200, "milliseconds"),
    Said::Weight(99_950, "milliseconds"),
    Said::Weight(1_234_567, "seconds"),
];

#[test]
fn times(rt: HostRuntime) -> Result<(), Fail> {
    let wanted = "before
756 ms
999 µs
1 ms
0 ns
12.3 ms
1.2 s
100 s
1,234,567 s
";
    are_said(&rt, TIMES, wanted)
}

const SIZES: &[Said<'static>] = &[
    Said::Weight(1_234_567, "bytes"),
    Said::Weight(1_000, "bytes"),
    Said::Weight(1_023, "kilobytes"),
    Said::Weight(1_536, "megabytes"),
    Said::Weight(5_000, "gigabytes"),
];

#[test]
fn sizes(rt: HostRuntime) -> Result<(), Fail> {
    let wanted = "before
1.18 MiB
1,000 B
1,023 KiB
1.5 GiB
4.88 TiB
";
    are_said(&rt, SIZES, wanted)
}

const COUNTS: &[Said<'static>] = &[
    Said::Weight(1_500, ""),
    Said::Weight(999, "count"),
    Said::Weight(12, "objects"),
    Said::Weight(1_234_567, "samples"),
];

#[test]
fn counts(rt: HostRuntime) -> Result<(), Fail> {
    let wanted = "before
1,500
999
12 objects
1,234,567 samples
";
    are_said(&rt, COUNTS, wanted)
}

/// Of the greatest numbers, beyond those that a page says exactly.
const GREATEST: &[Said<'static>] = &[
    Said::Weight(u64::MAX, "seconds"),
    Said::Weight(u64::MAX, "gigabytes"),
    Said::Weight(u64::MAX, ""),
    Said::Share(u64::MAX, 1),
    Said::Change(1, u64::MAX),
    Said::Change(u64::MAX, u64::MAX - 1),
];

#[test]
fn greatest(rt: HostRuntime) -> Result<(), Fail> {
    let wanted = "before
18,446,744,073,709,551,615 s
18,014,398,509,481,984 TiB
18,446,744,073,709,551,615
1844674407370955161500.00%
+1,844,674,407,370,955,161,400%
−0.00000000000000000542%
";
    are_said(&rt, GREATEST, wanted)
}

const CHANGES: &[Said<'static>] = &[
    Said::Change(8, 9),
    Said::Change(12, 11),
    Said::Change(0, 5),
    Said::Change(5, 0),
    Said::Change(7, 7),
    Said::Change(0, 0),
    Said::Change(2, 25),
    Said::Change(100_000, 100_123),
];

#[test]
fn changes(rt: HostRuntime) -> Result<(), Fail> {
    let wanted = "before
+12.5%
−8.33%
new
gone
±0%
±0%
+1,150%
+0.123%
";
    are_said(&rt, CHANGES, wanted)
}

const SHARES: &[Said<'static>] = &[
    Said::Share(1, 8),
    Said::Share(2, 3),
    Said::Share(7, 7),
    Said::Share(0, 7),
    Said::Share(7, 0),
];

#[test]
fn shares(rt: HostRuntime) -> Result<(), Fail> {
    are_said(
        &rt,
        SHARES,
        "before\n12.50%\n66.67%\n100.00%\n0.00%\n0.00%\n",
    )
}

fn widths_are_told() -> bool {
    share_width(1, 8) == 6 && share_width(7, 7) == 7 && share_width(0, 7) == 5
}

#[test]
fn widths_of_shares(rt: HostRuntime) {
    assert!(rt; widths_are_told());
}

fn say(out: &mut Vec<u8>) -> Result<(), AllocError> {
    append_weight(out, 756_000_000, "nanoseconds")?;
    append_share(out, 1, 8)?;
    append_change(out, 12, 11)
}

#[test]
fn example_of_the_readme(rt: HostRuntime) -> Result<(), Fail> {
    let mut out = Vec::new(rt.alloc());
    let made = say(&mut out);
    is_text(&rt, made, &out, "756 ms12.50%−8.33%".as_bytes())
}

#[test]
fn laws_take_nothing() {
    view_texts::laws::percentages_are_rounded();
    view_texts::laws::quotients_have_three_digits();
}
