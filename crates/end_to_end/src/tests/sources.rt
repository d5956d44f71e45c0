//! The example of the page of `merging`, and a run with a filter.
ghost use Rattle.std.specs.Prelude.{◌≡◌, IfOk, None, length};

use crate::tests::holds;
use merging::Gathered;
use run_options::{Filter, Format, Naming, Options, Pick, RingSize};
use source_lists::{Gating, Input, Run, RunFault, Source, read};
use stack_core::{Names, NoSink, OpenGate, SourceList, Text};
use std::alloc::{AllocError, Global};
use std::sync::Wait;
use std::test::Fail;
use std::thread::Threads;

/// One source, of folded text.
fn one_input(alloc: Global, text: &[u8]) -> Result<Vec<Input>, AllocError>
    ensures { IfOk result (λ inputs. length inputs.items ≡ 1) }
{
    let source = Source {
        format: Format::Folded,
        bytes: text.to_vec(alloc)?,
    };
    Ok(vec![in alloc; Input::of(source)?]?)
}

/// The settings of a run, in which nothing else is chosen.
fn options_of(ring: RingSize, filter: Filter) -> Options
    ensures { result.every ≡ None }
{
    Options {
        ring,
        pick: Pick::Preferred,
        naming: Naming::Plain,
        filter,
        every: None,
    }
}

/// What is read of a folded text under these options.
fn read_text<T: Threads + Wait + Copy + Send + 'static>(
    rt: &T,
    alloc: Global,
    text: &[u8],
    options: &Options,
) -> Result<Run, RunFault> {
    let inputs = one_input(alloc, text)?;
    let gating = Gating::<OpenGate>::Open;
    read(rt, alloc, inputs, options, gating, &mut NoSink::new())
}

fn is_as_on_the_page(gathered: &Gathered) -> bool {
    let lists = gathered.lists();
    lists.len() == 1 && lists[0].len() == 2 && gathered.tree().total(&[]) == 3
}

/// What is gathered of the source of the page.
fn gathers_as_on_the_page<T: Threads + Wait + Copy + Send + 'static>(
    rt: &T,
    alloc: Global,
    options: &Options,
) -> Result<bool, RunFault>
    requires { options.now.every ≡ None }
{
    let run = read_text(rt, alloc, b"a;b 2\na 1\n", options)?;
    let gathered = Gathered::of_lists(alloc, run.kept, options.every)?;
    Ok(is_as_on_the_page(&gathered))
}

#[test]
fn example_of_the_page(rt: HostRuntime) -> Result<(), Fail> {
    let filter = Filter::everything(rt.alloc());
    let options = options_of(RingSize::of(8).unwrap(), filter);
    holds(&rt, gathers_as_on_the_page(&rt, rt.alloc(), &options))
}

/// Keeps `a`, but not below `d`.
fn keeping_a(alloc: Global) -> Result<Filter, AllocError> {
    Ok(Filter {
        focus: Names::from_strs(alloc, &["a"])?,
        hide: Names::from_strs(alloc, &["d"])?,
    })
}

fn has_two_of_a(list: &SourceList) -> bool {
    list.len() == 2 && list.weight(0) == 2 && list.weight(1) == 1
}

fn is_kept_of_a(run: &Run) -> bool {
    let lists = run.kept.lists();
    run.whole_weight == Some(20)
        && run.kept.total() == 3
        && run.kept.order().len() == 2
        && lists.len() == 1
        && has_two_of_a(&lists[0])
}

/// What a run keeps of five samples, two of which pass the filter.
fn keeps_two_of_five<T: Threads + Wait + Copy + Send + 'static>(
    rt: &T,
    alloc: Global,
    options: &Options,
) -> Result<bool, RunFault> {
    let run = read_text(rt, alloc, b"a;b 2\nc 5\na;b 1\nd;a 4\nc;e 8\n", options)?;
    Ok(is_kept_of_a(&run))
}

fn has_two_from_b(list: &SourceList) -> bool {
    list.len() == 2
        && list.weight(0) == 2
        && list.depth(0) == 1
        && list.name(0, 0) == "b"
        && list.weight(1) == 4
        && list.depth(1) == 3
        && list.name(1, 0) == "b"
        && list.name(1, 2) == "b"
}

/// Whether the stacks of four samples, of which two have a frame `b`, begin there.
fn begins_at_b<T: Threads + Wait + Copy + Send + 'static>(
    rt: &T,
    alloc: Global,
    options: &Options,
) -> Result<bool, RunFault> {
    let run = read_text(rt, alloc, b"a;b 2\nc 5\nd;b;c;b 4\na;bb 8\n", options)?;
    let name = Some(Text::from_str(alloc, "b")?);
    let cut = run.kept.shown(alloc, &name, &Names::of(Vec::new(alloc)))?;
    let lists = cut.lists();
    Ok(lists.len() == 1 && cut.order().len() == 2 && cut.total() == 6 && has_two_from_b(&lists[0]))
}

fn has_three_without_b(list: &SourceList) -> bool {
    list.len() == 3
        && list.weight(0) == 2
        && list.depth(0) == 1
        && list.name(0, 0) == "a"
        && list.weight(1) == 5
        && list.depth(1) == 0
        && list.depth(2) == 2
        && list.name(2, 0) == "d"
        && list.name(2, 1) == "c"
}

/// Whether the frames `b` are taken out of the stacks of three samples, each of which stays.
fn leaves_out_b<T: Threads + Wait + Copy + Send + 'static>(
    rt: &T,
    alloc: Global,
    options: &Options,
) -> Result<bool, RunFault> {
    let run = read_text(rt, alloc, b"a;b 2\nb 5\nd;b;c;b 4\n", options)?;
    let shown = run
        .kept
        .shown(alloc, &None, &Names::from_strs(alloc, &["b"])?)?;
    let lists = shown.lists();
    Ok(
        lists.len() == 1
            && shown.order().len() == 3
            && shown.total() == 11
            && has_three_without_b(&lists[0]),
    )
}

#[test]
fn leaves_out_frames(rt: HostRuntime) -> Result<(), Fail> {
    let filter = Filter::everything(rt.alloc());
    let options = options_of(RingSize::of(8).unwrap(), filter);
    holds(&rt, leaves_out_b(&rt, rt.alloc(), &options))
}

#[test]
fn begins_at_a_name(rt: HostRuntime) -> Result<(), Fail> {
    let filter = Filter::everything(rt.alloc());
    let options = options_of(RingSize::of(8).unwrap(), filter);
    holds(&rt, begins_at_b(&rt, rt.alloc(), &options))
}

#[test]
fn reads_what_a_filter_keeps(rt: HostRuntime) -> Result<(), Fail> {
    let options = options_of(RingSize::of(1).unwrap(), keeping_a(rt.alloc())?);
    holds(&rt, keeps_two_of_five(&rt, rt.alloc(), &options))
}
