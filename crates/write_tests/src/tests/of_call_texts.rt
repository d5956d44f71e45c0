//! Worked examples of the texts of callers and callees.

use super::of_sum_texts::{Rows, sums_of};
use super::texts::is_text;
use byte_io::append_pieces;
use function_sums::{CallSide, SumLine, Table, Telling};
use std::alloc::{AllocError, Global};
use std::test::Fail;

fn telling(whole: Option<u64>) -> Telling<'static> {
    Telling {
        whole,
        type_name: "",
        unit: "",
    }
}

fn append_line(
    alloc: Global,
    out: &mut Vec<u8>,
    rows: Rows<'_>,
    side: CallSide,
    all: Option<u64>,
) -> Result<(), AllocError> {
    let sums = sums_of(alloc, rows)?;
    append_pieces(
        alloc,
        &SumLine::of_calls(&sums, side, 10, &telling(all)),
        out,
    )
}

// The function comes first: its total is the whole.
fn append_texts(alloc: Global, out: &mut Vec<u8>) -> Result<(), AllocError> {
    let sums = sums_of(alloc, &[("read", 7, 8), ("main", 1, 5), ("load", 0, 3)])?;
    let table = Table::of_calls(
        alloc,
        &sums,
        CallSide::Callers,
        1,
        &telling(Some(32)),
        false,
    )?;
    append_pieces(alloc, &table, out)?;
    append_line(alloc, out, &[("read", 7, 8)], CallSide::Callers, None)?;
    let two = &[("read", 7, 8), ("main", 1, 5)];
    append_line(alloc, out, two, CallSide::Callees, Some(32))
}

#[test]
fn function_before_its_callers(rt: HostRuntime) -> Result<(), Fail> {
    let mut out = Vec::new(rt.alloc());
    let made = append_texts(rt.alloc(), &mut out);
    let wanted = "Showing 1 of 2 callers of read, total 8
own    own%  total   total%  whole%  name
  7  87.50%      8  100.00%  25.00%  read
  1  12.50%      5   62.50%  15.63%  main
{\"functions\":[{\"name\":\"read\",\"own\":7,\"total\":8}],\"total\":8,\"unit\":\"\",\"view\":\"callers\"}
{\"functions\":[{\"name\":\"read\",\"own\":7,\"total\":8},{\"name\":\"main\",\"own\":1,\"total\":5}],\"total\":8,\"unit\":\"\",\"view\":\"callees\",\"whole\":32}
";
    is_text(&rt, made, &out, wanted.as_bytes())
}

fn append_of_nothing(alloc: Global, out: &mut Vec<u8>) -> Result<(), AllocError> {
    let telling = Telling::nothing();
    let table = Table::of_calls(alloc, &[], CallSide::Callers, 10, &telling, false)?;
    append_pieces(alloc, &table, out)?;
    append_pieces(
        alloc,
        &SumLine::of_calls(&[], CallSide::Callers, 10, &telling),
        out,
    )
}

#[test]
fn no_function(rt: HostRuntime) -> Result<(), Fail> {
    let mut out = Vec::new(rt.alloc());
    let made = append_of_nothing(rt.alloc(), &mut out);
    let wanted = "{\"functions\":[],\"total\":0,\"unit\":\"\",\"view\":\"callers\"}\n";
    is_text(&rt, made, &out, wanted.as_bytes())
}
