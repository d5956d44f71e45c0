//! Sources of a few lines, and how much they weigh.
ghost use Rattle.std.specs.Prelude.{◌≡◌, ◌<◌, ◌^◌, None, length};
ghost use Rattle.stack_core.specs.Ledgers.{IsRead};
ghost use Rattle.merged_stacks.specs.Merged.{all_samples};
ghost use Rattle.merged_stacks.specs.Timeline.{samples_of, timeline, total_weight};

use stack_core::{Close, Ledger, Names, Sample, SourceEnd, SourceList};
use std::alloc::{AllocError, Global};
use std::process::Abort;

/// Lines of a source: names, root first, and a weight.
pub type Lines<'a> = &'a [(&'a [&'a str], u64)];

fn assert_open(rt: &impl Abort, ledger: &Ledger)
    ensures { ledger.now.close ≡ None }
{
    assert!(rt; !ledger.is_closed());
}

fn assert_small(rt: &impl Abort, names: &[&str], weight: u64)
    ensures names { length names.now < 10 }
    ensures weight { weight < 100 }
{
    assert!(rt; names.len() < 10);
    assert!(rt; weight < 100);
}

fn take_line(
    rt: &impl Abort,
    alloc: Global,
    ledger: &mut Ledger,
    names: &[&str],
    weight: u64,
) -> Result<(), AllocError> {
    assert_open(rt, ledger);
    assert_small(rt, names, weight);
    let stack = Names::from_strs(alloc, names)?;
    ledger.take(Sample { stack, weight })
}

fn take_lines(
    rt: &impl Abort,
    alloc: Global,
    ledger: &mut Ledger,
    lines: Lines<'_>,
) -> Result<(), AllocError> {
    for (names, weight) in lines {
        take_line(rt, alloc, ledger, names, *weight)?;
    }
    Ok(())
}

fn close_read(rt: &impl Abort, ledger: &mut Ledger)
    ensures { IsRead ledger.new.close }
{
    assert_open(rt, ledger);
    ledger.close(Close::Read(SourceEnd::Clean { ignored: 0 }));
}

/// The list of a source with these lines.
fn list(rt: &impl Abort, alloc: Global, lines: Lines<'_>) -> Result<SourceList, AllocError> {
    let mut ledger = Ledger::new(alloc);
    take_lines(rt, alloc, &mut ledger, lines)?;
    close_read(rt, &mut ledger);
    Ok(ledger.into_list())
}

/// The lists of sources with these lines.
pub fn lists_of(
    rt: &impl Abort,
    alloc: Global,
    sources: &[Lines<'_>],
) -> Result<Vec<SourceList>, AllocError> {
    let mut lists = Vec::new(alloc);
    for lines in sources {
        lists.push(list(rt, alloc, lines)?)?;
    }
    Ok(lists)
}

fn take_split(
    rt: &impl Abort,
    alloc: Global,
    ledger: &mut Ledger,
    stack: &str,
) -> Result<(), AllocError> {
    let names: Vec<&str> = stack.split(';').collect(alloc)?;
    take_line(rt, alloc, ledger, &names, 1)
}

fn take_falling(
    rt: &impl Abort,
    alloc: Global,
    ledger: &mut Ledger,
    number: u64,
) -> Result<(), AllocError> {
    let stack = format!(in alloc; "f{};a;b;c;d;e;f{}", number / 100, number)?;
    take_split(rt, alloc, ledger, &stack)
}

fn take_all_falling(rt: &impl Abort, alloc: Global, ledger: &mut Ledger) -> Result<(), AllocError> {
    for number in (1_000u64..4_000).rev() {
        take_falling(rt, alloc, ledger, number)?;
    }
    Ok(())
}

/// The list of a source with 3,000 stacks of seven frames, each below the one before it.
fn falling_list(rt: &impl Abort, alloc: Global) -> Result<SourceList, AllocError> {
    let mut ledger = Ledger::new(alloc);
    take_all_falling(rt, alloc, &mut ledger)?;
    close_read(rt, &mut ledger);
    Ok(ledger.into_list())
}

/// The lists of two such sources.
pub fn falling_lists(rt: &impl Abort, alloc: Global) -> Result<Vec<SourceList>, AllocError> {
    let mut lists = Vec::new(alloc);
    for _ in 0..2 {
        lists.push(falling_list(rt, alloc)?)?;
    }
    Ok(lists)
}

/// The next of numbers that are drawn one from another.
fn next_drawn(number: u64) -> u64 {
    number
        .wrapping_mul(6_364_136_223_846_793_005)
        .wrapping_add(1_442_695_040_888_963_407)
}

/// A stack of up to six frames of four names, and a weight from 0 to 3, drawn from a number.
fn take_drawn(
    rt: &impl Abort,
    alloc: Global,
    ledger: &mut Ledger,
    number: u64,
) -> Result<(), AllocError> {
    let mut names = Vec::new(alloc);
    for frame in 0..(number >> 40) % 7 {
        names.push(["a", "b", "", "a;b"][((number >> (2 * frame)) % 4) as usize])?;
    }
    take_line(rt, alloc, ledger, &names, (number >> 50) % 4)
}

/// A list of up to 30 samples, drawn from a number.
fn drawn_list(rt: &impl Abort, alloc: Global, seed: u64) -> Result<SourceList, AllocError> {
    let mut ledger = Ledger::new(alloc);
    let mut number = seed;
    for _ in 0..(seed >> 33) % 31 {
        number = next_drawn(number);
        take_drawn(rt, alloc, &mut ledger, number)?;
    }
    close_read(rt, &mut ledger);
    Ok(ledger.into_list())
}

/// Up to four lists of samples that are drawn from a number.
pub fn drawn_lists(
    rt: &impl Abort,
    alloc: Global,
    seed: u64,
) -> Result<Vec<SourceList>, AllocError> {
    let mut lists = Vec::new(alloc);
    let mut number = seed;
    for _ in 0..seed % 5 {
        number = next_drawn(number);
        lists.push(drawn_list(rt, alloc, number)?)?;
    }
    Ok(lists)
}

/// That a list weighs little.
pub fn assert_light_list(rt: &impl Abort, list: &SourceList)
    ensures { total_weight list.now.samples < 2 ^ 64 }
{
    assert!(rt; list.total() < 1_000);
}

/// That lists weigh less than this together.
pub fn assert_light(rt: &impl Abort, lists: &[SourceList], limit: u128)
    requires { limit < 2 ^ 64 }
    ensures merged { total_weight (all_samples (samples_of lists.now)) < 2 ^ 64 }
    ensures drawn { total_weight (timeline (samples_of lists.now)) < 2 ^ 64 }
{
    let mut room = limit;
    for list in lists {
        assert!(rt; list.total() < room);
        room -= list.total();
    }
}
