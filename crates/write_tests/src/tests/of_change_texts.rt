//! Worked examples of the texts of changes.

use super::texts::{are_bytes, is_text};
use byte_io::append_pieces;
use function_sums::{Change, ChangeLine, FunctionChange, Table, Telling, grown_line};
use stack_core::Text;
use std::alloc::{AllocError, Global};
use std::process::Abort;
use std::test::Fail;

/// A weight before and after.
type Sides = (u64, u64);

/// A name, and its own weight and its total on both sides.
type Row<'a> = (&'a str, Sides, Sides);

fn change_of(sides: Sides) -> Change {
    let (before, after) = sides;
    Change { before, after }
}

fn changes_of(alloc: Global, rows: &[Row<'_>]) -> Result<Vec<FunctionChange>, AllocError> {
    let mut changes = Vec::new(alloc);
    for (name, own, total) in rows {
        let name = Text::from_str(alloc, name)?;
        changes.push(FunctionChange {
            name,
            own: change_of(*own),
            total: change_of(*total),
        })?;
    }
    Ok(changes)
}

/// How changes are written: as a table, or as a line with the weight of each side.
#[derive(Clone, Copy)]
enum Form {
    Table,
    Shares(Sides),
    Line(Sides),
}

/// In which form which changes are written, and how many of them at most.
type Written<'a> = (Form, &'a [Row<'a>], u64);

fn append(alloc: Global, out: &mut Vec<u8>, written: &Written<'_>) -> Result<(), AllocError> {
    let (form, rows, count) = *written;
    let changes = changes_of(alloc, rows)?;
    let telling = Telling::nothing();
    match form {
        Form::Table => {
            let whole = change_of((11, 13));
            let table = Table::of_changes(alloc, &changes, count, whole, &telling, false)?;
            append_pieces(alloc, &table, out)
        }
        Form::Shares(whole) => {
            let whole = change_of(whole);
            let table = Table::of_shares(alloc, &changes, count, whole, &telling, false)?;
            append_pieces(alloc, &table, out)
        }
        Form::Line(whole) => append_pieces(
            alloc,
            &ChangeLine::of(&changes, count, change_of(whole), &telling),
            out,
        ),
    }
}

/// That this makes this text.
fn make(rt: &(impl Abort + AllocGlobal), written: &Written<'_>, wanted: &str) -> Result<(), Fail> {
    let mut out = Vec::new(rt.alloc());
    let made = append(rt.alloc(), &mut out, written);
    is_text(rt, made, &out, wanted.as_bytes())
}

const READ_AND_MAIN: &[Row<'static>] = &[
    ("read", (4, 7), (4, 7)),
    ("main", (2, 1), (6, 8)),
    ("idle", (3, 3), (3, 3)),
];

#[test]
fn signs_of_changes(rt: HostRuntime) -> Result<(), Fail> {
    let wanted = "\
Showing 3 of 3 functions, total 11 before, 13 after
own before  after  change  total before  after  change  name
         4      7      +3             4      7      +3  read
         2      1      -1             6      8      +2  main
         3      3       0             3      3       0  idle
";
    make(&rt, &(Form::Table, READ_AND_MAIN, 10), wanted)
}

#[test]
fn line_of_two_functions(rt: HostRuntime) -> Result<(), Fail> {
    let wanted = "{\"functions\":[\
        {\"name\":\"read\",\"own_after\":7,\"own_before\":4,\"total_after\":7,\"total_before\":4},\
        {\"name\":\"main\",\"own_after\":1,\"own_before\":2,\"total_after\":8,\"total_before\":6}],\
        \"total_after\":11,\"total_before\":9,\"unit\":\"\",\"view\":\"diff\"}\n";
    make(&rt, &(Form::Line((9, 11)), READ_AND_MAIN, 2), wanted)
}

const GREATEST: &[Row<'static>] = &[
    ("a b", (0, u64::MAX), (0, u64::MAX)),
    ("c", (u64::MAX, 1), (u64::MAX, u64::MAX)),
];

// The columns are as wide as the greatest numbers, with their signs.
#[test]
fn greatest_weights(rt: HostRuntime) -> Result<(), Fail> {
    let wanted = concat!(
        "Showing 2 of 2 functions, total 11 before, 13 after\n",
        "                own before                       after                       change                total before                       after                       change  name\n",
        "                         0  18,446,744,073,709,551,615  +18,446,744,073,709,551,615                           0  18,446,744,073,709,551,615  +18,446,744,073,709,551,615  a b\n",
        "18,446,744,073,709,551,615                           1  -18,446,744,073,709,551,614  18,446,744,073,709,551,615  18,446,744,073,709,551,615                            0  c\n",
    );
    make(&rt, &(Form::Table, GREATEST, 2), wanted)
}

#[test]
fn hidden_changes_take_no_room(rt: HostRuntime) -> Result<(), Fail> {
    let rows: &[Row<'_>] = &[
        ("a", (0, 5), (0, 5)),
        ("b", (100_000_000_000, 100_000_000_001), (0, 0)),
    ];
    let wanted = "\
Showing 1 of 2 functions, total 11 before, 13 after
own before  after  change  total before  after  change  name
         0      5      +5             0      5      +5  a
";
    make(&rt, &(Form::Table, rows, 1), wanted)
}

#[test]
fn no_changes(rt: HostRuntime) -> Result<(), Fail> {
    let wanted = concat!(
        "Showing 0 of 0 functions, total 11 before, 13 after\n",
        "own before  after  change  total before  after  change  name\n",
    );
    make(&rt, &(Form::Table, &[], 10), wanted)
}

#[test]
fn line_of_no_changes(rt: HostRuntime) -> Result<(), Fail> {
    let wanted =
        "{\"functions\":[],\"total_after\":18446744073709551615,\"total_before\":0,\"unit\":\"\",\"view\":\"diff\"}\n";
    make(&rt, &(Form::Line((0, u64::MAX)), &[], 10), wanted)
}

#[test]
fn escaped_names(rt: HostRuntime) -> Result<(), Fail> {
    let rows: &[Row<'_>] = &[("a\"\u{1}", (1, 2), (3, 4))];
    let wanted = "{\"functions\":[\
        {\"name\":\"a\\\"\\u0001\",\"own_after\":2,\"own_before\":1,\"total_after\":4,\"total_before\":3}],\
        \"total_after\":6,\"total_before\":5,\"unit\":\"\",\"view\":\"diff\"}\n";
    make(&rt, &(Form::Line((5, 6)), rows, 1), wanted)
}

#[test]
fn shares_of_both_sides(rt: HostRuntime) -> Result<(), Fail> {
    let rows: &[Row<'_>] = &[
        ("f", (6, 10), (6, 10)),
        ("g", (4, 45), (10, 100)),
        ("h", (0, 0), (10, 50)),
    ];
    let wanted = "\
Showing 3 of 3 functions, total 10 before, 100 after
own before   after   points  total before    after   points  name
    60.00%  10.00%  -50.00%        60.00%   10.00%  -50.00%  f
    40.00%  45.00%   +5.00%       100.00%  100.00%    0.00%  g
     0.00%   0.00%    0.00%       100.00%   50.00%  -50.00%  h
";
    make(&rt, &(Form::Shares((10, 100)), rows, 10), wanted)
}

#[test]
fn shares_of_nothing(rt: HostRuntime) -> Result<(), Fail> {
    let wanted = "\
Showing 1 of 1 functions, total 0 before, 8 after
own before    after    points  total before    after    points  name
     0.00%  100.00%  +100.00%         0.00%  100.00%  +100.00%  f
";
    let rows: &[Row<'_>] = &[("f", (0, 8), (0, 8))];
    make(&rt, &(Form::Shares((0, 8)), rows, 10), wanted)
}

#[test]
fn line_of_grown_functions(rt: HostRuntime) -> Result<(), Fail> {
    let line = grown_line(rt.alloc(), 5, &["parse", "lex"])?;
    are_bytes(
        &rt,
        &line,
        b"flamecollect: grew by more than 5 %: parse, lex\n",
    );
    let none = grown_line(rt.alloc(), 5, &[])?;
    are_bytes(&rt, &none, b"");
    Ok(())
}
