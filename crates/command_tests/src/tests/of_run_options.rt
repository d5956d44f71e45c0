//! The example of the README, and what no contract says.

use super::answers::{all, holds, none_fails};
use run_options::{Filter, Format, FunctionOrder, MAX_WIDTH, Pick, RingSize, Width, format_of};
use stack_core::{Names, Text};
use std::alloc::{AllocError, Global};
use std::test::Fail;

fn has_sizes_of_the_readme() -> bool {
    matches!(RingSize::of(1_024), Some(ring) if ring.get() == 1_024)
        && RingSize::of(0).is_none()
        && Width::of(MAX_WIDTH).is_some()
        && Width::of(MAX_WIDTH + 1).is_none()
}

/// The first path that is of another format than is said beside it.
fn of_another_format<'a>(rows: &[(&'a str, Format)]) -> Option<&'a str> {
    for (path, format) in rows {
        if format_of(path) != *format {
            return Some(*path);
        }
    }
    None
}

const FORMATS_OF_THE_README: &[(&str, Format)] = &[
    ("cpu.pprof", Format::Pprof),
    ("stacks.txt", Format::Folded),
];

#[test]
fn example_of_the_readme(rt: HostRuntime) {
    assert!(rt; has_sizes_of_the_readme());
    none_fails(&rt, of_another_format(FORMATS_OF_THE_README));
}

// A copy is made where there is memory.
fn copy_of_cpu(alloc: Global) -> Result<Pick, AllocError> {
    Pick::Named(Text::from_str(alloc, "cpu")?).copy(alloc)
}

fn is_named(pick: Result<Pick, AllocError>, wanted: &str) -> Result<bool, AllocError> {
    Ok(matches!(&pick?, Pick::Named(name) if name.get() == wanted))
}

#[test]
fn copy_of_a_named_choice(rt: HostRuntime) -> Result<(), Fail> {
    holds(&rt, is_named(copy_of_cpu(rt.alloc()), "cpu"))
}

fn some(alloc: Global) -> Result<Filter, AllocError> {
    let focus = Names::from_strs(alloc, &["lay", "pars"])?;
    let hide = Names::from_strs(alloc, &["read"])?;
    Ok(Filter { focus, hide })
}

fn copy_of_some(alloc: Global) -> Result<Filter, AllocError> {
    some(alloc)?.copy(alloc)
}

fn keeps(alloc: Global, filter: &Filter, stack: &[&str]) -> Result<bool, AllocError> {
    Ok(filter.keeps(Names::from_strs(alloc, stack)?.get()))
}

const STACKS: &[&[&str]] = &[
    &["main", "parse", "token"],
    &["main", "parse", "reader"],
    &["main", "Parse", "token"],
];

fn are_kept(alloc: Global, filter: &Filter, kept: [bool; 3]) -> Result<bool, AllocError> {
    for at in 0..3usize {
        if keeps(alloc, filter, STACKS[at])? != kept[at] {
            return Ok(false);
        }
    }
    Ok(true)
}

/// Whether a filter keeps those of the stacks that it should, and only that of everything says that it is.
fn keeps_these(
    alloc: Global,
    filter: Result<Filter, AllocError>,
    is_everything: bool,
    kept: [bool; 3],
) -> Result<bool, AllocError> {
    let filter = filter?;
    let is_told = filter.is_everything() == is_everything;
    all(&[Ok(is_told), are_kept(alloc, &filter, kept)])
}

fn filters_keep_theirs(alloc: Global) -> Result<bool, AllocError> {
    let first = [true, false, false];
    all(&[
        keeps_these(alloc, Ok(Filter::everything(alloc)), true, [true; 3]),
        keeps_these(alloc, some(alloc), false, first),
        keeps_these(alloc, copy_of_some(alloc), false, first),
    ])
}

#[test]
fn samples_that_a_filter_keeps(rt: HostRuntime) -> Result<(), Fail> {
    holds(&rt, filters_keep_theirs(rt.alloc()))
}

/// The first name that is not of the format beside it.
fn misnamed_format<'a>(rows: &[(&'a str, Option<Format>)]) -> Option<&'a str> {
    for (name, format) in rows {
        if Format::named(name) != *format {
            return Some(*name);
        }
    }
    None
}

const NAMES_OF_FORMATS: &[(&str, Option<Format>)] = &[
    ("folded", Some(Format::Folded)),
    ("pprof", Some(Format::Pprof)),
    ("", None),
    ("Folded", None),
    ("PPROF", None),
    ("pprof ", None),
    ("pb", None),
    ("folded,pprof", None),
];

#[test]
fn names_of_formats(rt: HostRuntime) {
    none_fails(&rt, misnamed_format(NAMES_OF_FORMATS));
}

/// The first name that is not of the order beside it.
fn misnamed_order<'a>(rows: &[(&'a str, Option<FunctionOrder>)]) -> Option<&'a str> {
    for (name, order) in rows {
        if FunctionOrder::named(name) != *order {
            return Some(*name);
        }
    }
    None
}

const NAMES_OF_ORDERS: &[(&str, Option<FunctionOrder>)] = &[
    ("own", Some(FunctionOrder::Own)),
    ("total", Some(FunctionOrder::Total)),
    ("", None),
    ("Own", None),
    ("TOTAL", None),
    ("total ", None),
    ("sum", None),
    ("own,total", None),
];

#[test]
fn names_of_orders(rt: HostRuntime) {
    none_fails(&rt, misnamed_order(NAMES_OF_ORDERS));
}

const FORMATS: &[(&str, Format)] = &[
    ("cpu.prof", Format::Pprof),
    ("x.pprof", Format::Pprof),
    ("x.pb", Format::Pprof),
    ("a/b.c/d.pb", Format::Pprof),
    (".prof", Format::Pprof),
    ("x.folded", Format::Folded),
    ("-", Format::Folded),
    ("", Format::Folded),
    ("prof", Format::Folded),
    ("x.prof.txt", Format::Folded),
    ("x.PROF", Format::Folded),
    ("pb", Format::Folded),
    ("x.pb.gz", Format::Folded),
];

#[test]
fn formats_by_name(rt: HostRuntime) {
    none_fails(&rt, of_another_format(FORMATS));
}
