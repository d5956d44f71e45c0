//! Worked examples.

use super::texts::is_text;
use byte_io::append_pieces;
use function_sums::{FunctionSum, Table, Telling, append_sum_line, append_sum_table};
use stack_core::Text;
use std::alloc::{AllocError, Global};
use std::process::Abort;
use std::test::Fail;

/// Names, own weights and totals of functions.
pub(super) type Rows<'a> = &'a [(&'a str, u64, u64)];

fn add_sum(
    alloc: Global,
    sums: &mut Vec<FunctionSum>,
    row: &(&str, u64, u64),
) -> Result<(), AllocError> {
    let (name, own, total) = row;
    let name = Text::from_str(alloc, name)?;
    sums.push(FunctionSum {
        name,
        own: *own,
        total: *total,
    })?;
    Ok(())
}

fn add_sums(alloc: Global, sums: &mut Vec<FunctionSum>, rows: Rows<'_>) -> Result<(), AllocError> {
    for row in rows {
        add_sum(alloc, sums, row)?;
    }
    Ok(())
}

pub(super) fn sums_of(alloc: Global, rows: Rows<'_>) -> Result<Vec<FunctionSum>, AllocError> {
    let mut sums = Vec::new(alloc);
    add_sums(alloc, &mut sums, rows)?;
    Ok(sums)
}

/// How functions are written.
enum Form {
    Table,
    Line,
}

/// In which form which functions are written, how many of them at most, what the samples weigh, and what they weigh without a filter.
type Written<'a> = (Form, Rows<'a>, u64, u64, Option<u64>);

fn append_sums(
    alloc: Global,
    out: &mut Vec<u8>,
    sums: &[FunctionSum],
    written: &Written<'_>,
) -> Result<(), AllocError> {
    let (form, _, count, total, whole) = written;
    let telling = Telling {
        whole: *whole,
        type_name: "",
        unit: "",
    };
    match form {
        Form::Table => append_sum_table(alloc, out, sums, *count, *total, &telling),
        Form::Line => append_sum_line(alloc, out, sums, *count, *total, &telling),
    }
}

fn append(alloc: Global, out: &mut Vec<u8>, written: &Written<'_>) -> Result<(), AllocError> {
    let sums = sums_of(alloc, written.1)?;
    append_sums(alloc, out, &sums, written)
}

/// Appends these texts to a line that stands there before.
fn append_all(alloc: Global, out: &mut Vec<u8>, all: &[Written<'_>]) -> Result<(), AllocError> {
    out.extend_from_slice(b"before\n")?;
    for written in all {
        append(alloc, out, written)?;
    }
    Ok(())
}

/// That these make this text, one behind another.
fn make(rt: &(impl Abort + AllocGlobal), all: &[Written<'_>], wanted: &str) -> Result<(), Fail> {
    let mut out = Vec::new(rt.alloc());
    let made = append_all(rt.alloc(), &mut out, all);
    is_text(rt, made, &out, wanted.as_bytes())
}

const READ_AND_MAIN: Rows<'static> = &[("read", 7, 7), ("main", 1, 8)];

const EXAMPLE: &[Written<'static>] = &[
    (Form::Table, READ_AND_MAIN, 10, 8, Some(32)),
    (Form::Line, READ_AND_MAIN, 1, 8, Some(32)),
];

#[test]
fn example_of_the_readme(rt: HostRuntime) -> Result<(), Fail> {
    let wanted = "before
Showing 2 of 2 functions, total 8
own    own%     sum%  total   total%  whole%  name
  7  87.50%   87.50%      7   87.50%  21.88%  read
  1  12.50%  100.00%      8  100.00%  25.00%  main
{\"functions\":[{\"name\":\"read\",\"own\":7,\"total\":7}],\"total\":8,\"unit\":\"\",\"view\":\"top\",\"whole\":32}
";
    make(&rt, EXAMPLE, wanted)
}

const WIDEST: &[Written<'static>] = &[(
    Form::Table,
    &[("a b", 10_000_000, 1_000_000_000), ("c", 0, 1)],
    2,
    1_000_000_000_000,
    None,
)];

#[test]
fn as_wide_as_the_widest(rt: HostRuntime) -> Result<(), Fail> {
    let wanted = "before
Showing 2 of 2 functions, total 1,000,000,000,000
       own   own%   sum%          total  total%  name
10,000,000  0.00%  0.00%  1,000,000,000   0.10%  a b
         0  0.00%  0.00%              1   0.00%  c
";
    make(&rt, WIDEST, wanted)
}

const HIDDEN: &[Written<'static>] = &[(
    Form::Table,
    &[("a", 5, 5), ("b", 4, 10_000)],
    1,
    10_000,
    None,
)];

#[test]
fn hidden_functions_take_no_room(rt: HostRuntime) -> Result<(), Fail> {
    let wanted = "before
Showing 1 of 2 functions, total 10,000
own   own%   sum%  total  total%  name
  5  0.05%  0.05%      5   0.05%  a
";
    make(&rt, HIDDEN, wanted)
}

/// A half, and less than a half.
const HALVES: &[Written<'static>] = &[
    (Form::Table, &[("a", 1, 3)], 1, 20_000, None),
    (Form::Table, &[("a", 1, 2)], 1, 20_001, None),
];

#[test]
fn halves_are_rounded_up(rt: HostRuntime) -> Result<(), Fail> {
    let wanted = "before
Showing 1 of 1 functions, total 20,000
own   own%   sum%  total  total%  name
  1  0.01%  0.01%      3   0.02%  a
Showing 1 of 1 functions, total 20,001
own   own%   sum%  total  total%  name
  1  0.00%  0.00%      2   0.01%  a
";
    make(&rt, HALVES, wanted)
}

const THIRDS: &[Written<'static>] = &[(Form::Table, &[("a", 1, 2)], 1, 3, None)];

#[test]
fn thirds(rt: HostRuntime) -> Result<(), Fail> {
    let wanted = "before
Showing 1 of 1 functions, total 3
own    own%    sum%  total  total%  name
  1  33.33%  33.33%      2  66.67%  a
";
    make(&rt, THIRDS, wanted)
}

const GREATEST: &[Written<'static>] = &[(
    Form::Table,
    &[("a", u64::MAX, u64::MAX)],
    u64::MAX,
    u64::MAX,
    None,
)];

#[test]
fn greatest_weights(rt: HostRuntime) -> Result<(), Fail> {
    let wanted = "before
Showing 1 of 1 functions, total 18,446,744,073,709,551,615
                       own     own%     sum%                       total   total%  name
18,446,744,073,709,551,615  100.00%  100.00%  18,446,744,073,709,551,615  100.00%  a
";
    make(&rt, GREATEST, wanted)
}

const NOTHING: &[Written<'static>] = &[
    (Form::Table, &[], 10, 0, None),
    (Form::Line, &[], 10, 0, None),
];

#[test]
fn no_functions(rt: HostRuntime) -> Result<(), Fail> {
    let wanted = concat!(
        "before\n",
        "Showing 0 of 0 functions, total 0\n",
        "own  own%  sum%  total  total%  name\n",
        "{\"functions\":[],\"total\":0,\"unit\":\"\",\"view\":\"top\"}\n",
    );
    make(&rt, NOTHING, wanted)
}

const WHOLE_OF_NOTHING: &[Written<'static>] = &[(Form::Table, &[("a", 1, 2)], 1, 0, None)];

#[test]
fn a_whole_of_nothing(rt: HostRuntime) -> Result<(), Fail> {
    let wanted =
        "before\nShowing 1 of 1 functions, total 0\nown   own%   sum%  total  total%  name\n  1  0.00%  0.00%      2   0.00%  a\n";
    make(&rt, WHOLE_OF_NOTHING, wanted)
}

const TWO: Rows<'static> = &[("a", 3, 3), ("b", 0, 1)];

const WHOLES: &[Written<'static>] = &[
    (Form::Table, TWO, 2, 3, Some(3)),
    (Form::Table, TWO, 1, 3, Some(u64::MAX)),
    (Form::Table, TWO, 1, 0, Some(0)),
];

#[test]
fn the_column_of_the_whole_is_as_wide_as_needed(rt: HostRuntime) -> Result<(), Fail> {
    let wanted = "before
Showing 2 of 2 functions, total 3
own     own%     sum%  total   total%   whole%  name
  3  100.00%  100.00%      3  100.00%  100.00%  a
  0    0.00%  100.00%      1   33.33%   33.33%  b
Showing 1 of 2 functions, total 3
own     own%     sum%  total   total%  whole%  name
  3  100.00%  100.00%      3  100.00%   0.00%  a
Showing 1 of 2 functions, total 0
own   own%   sum%  total  total%  whole%  name
  3  0.00%  0.00%      3   0.00%   0.00%  a
";
    make(&rt, WHOLES, wanted)
}

const ESCAPED: &[Written<'static>] = &[(
    Form::Line,
    &[("a\"\u{1}", 1, 2), ("é", 0, 1), ("z", 0, 1)],
    2,
    3,
    None,
)];

#[test]
fn escaped_names(rt: HostRuntime) -> Result<(), Fail> {
    let wanted =
        "before\n{\"functions\":[{\"name\":\"a\\\"\\u0001\",\"own\":1,\"total\":2},{\"name\":\"é\",\"own\":0,\"total\":1}],\"total\":3,\"unit\":\"\",\"view\":\"top\"}\n";
    make(&rt, ESCAPED, wanted)
}

fn append_in_units(alloc: Global, out: &mut Vec<u8>) -> Result<(), AllocError> {
    let sums = sums_of(alloc, &[("read", 756_000, 756_000), ("main", 12, 757_234)])?;
    let telling = Telling {
        whole: None,
        type_name: "cpu",
        unit: "nanoseconds",
    };
    append_sum_table(alloc, out, &sums, 1, 757_234, &telling)?;
    append_sum_line(alloc, out, &sums, 1, 757_234, &telling)?;
    let table = Table::of_functions(alloc, &sums, 2, 757_234, &telling, true)?;
    append_pieces(alloc, &table, out)
}

// The sign of a microsecond is one character of two bytes.
#[test]
fn weights_in_their_unit(rt: HostRuntime) -> Result<(), Fail> {
    let mut out = Vec::new(rt.alloc());
    let made = append_in_units(rt.alloc(), &mut out);
    let wanted = "Showing 1 of 2 functions, type cpu, total 757 µs
   own    own%    sum%   total  total%  name
756 µs  99.84%  99.84%  756 µs  99.84%  read
{\"functions\":[{\"name\":\"read\",\"own\":756000,\"total\":756000}],\"total\":757234,\"unit\":\"nanoseconds\",\"view\":\"top\"}
Showing 2 of 2 functions, type cpu, unit nanoseconds, total 757234
   own    own%    sum%   total   total%  name
756000  99.84%  99.84%  756000   99.84%  read
    12   0.00%  99.84%  757234  100.00%  main
";
    is_text(&rt, made, &out, wanted.as_bytes())
}

#[test]
fn laws_take_nothing() {
    function_sums::laws::percentages_are_rounded();
    function_sums::laws::function_lines_read_back();
    function_sums::laws::change_lines_read_back();
}
