//! Stacks of samples that come one after another.
ghost use Rattle.std.specs.Prelude.{◌≡◌, ◌<◌, IsTrue, length, slice_index};
ghost use Rattle.stack_core.specs.Interleaving.{list_of};
ghost use Rattle.merged_stacks.specs.Timeline.{samples_of};

use super::{ONE, OTHER, append_stacks};
use crate::tests::sources::{assert_light, lists_of};
use crate::tests::told::is_text;
use merged_stacks::GrowingStacks;
use stack_core::SourceList;
use std::alloc::{AllocError, Global};
use std::process::Abort;
use std::test::Fail;

/// The lists of which a sample comes, how many samples of each list came then, and the stacks of what came.
type Moment<'a> = (&'a [usize], &'a [u64], &'a str);

const MOMENTS: &[Moment<'static>] = &[
    (&[], &[0, 0], ""),
    (&[0, 1], &[1, 1], "(a;b; 2)(b;a; 1)"),
    (&[0], &[2, 1], "(a; 1)(a;b; 2)(b;a; 1)"),
];

/// Whether a list has a sample that didn't come.
fn has_more(growing: &GrowingStacks<'_>, lists: &[SourceList], source: usize) -> bool
    requires { growing.now.lists ≡ samples_of lists.now }
    ensures source { IsTrue result → source < length growing.now.lists }
    ensures more { IsTrue result
        → slice_index growing.now.counts source < length (list_of growing.now.lists source) }
{
    let counts = growing.counts();
    source < counts.len() && source < lists.len() && counts[source] < lists[source].len() as u64
}

/// A sample of each of these lists comes.
fn take_all(
    rt: &impl Abort,
    lists: &[SourceList],
    growing: &mut GrowingStacks<'_>,
    sources: &[usize],
)
    requires { growing.old.lists ≡ samples_of lists.now }
    ensures { growing.new.lists ≡ samples_of lists.now }
{
    for source in sources {
        assert!(rt; has_more(growing, lists, *source));
        growing.take(*source);
    }
}

fn append_moment(
    alloc: Global,
    text: &mut String,
    growing: &mut GrowingStacks<'_>,
) -> Result<(), AllocError>
    ensures { growing.new.lists ≡ growing.old.lists }
{
    growing.merge(alloc)?;
    append_stacks(text, growing.merged())
}

fn shows_moment(
    rt: &(impl Abort + AllocGlobal),
    growing: &mut GrowingStacks<'_>,
    wanted: &str,
) -> Result<(), AllocError>
    ensures { growing.new.lists ≡ growing.old.lists }
{
    let mut text = String::new(rt.alloc());
    append_moment(rt.alloc(), &mut text, growing)?;
    is_text(rt, &text, wanted);
    Ok(())
}

fn has_counts(rt: &impl Abort, growing: &GrowingStacks<'_>, counts: &[u64]) {
    assert!(rt; growing.counts() == counts);
}

/// The samples of a moment come, and then it shows.
fn come_to_moment(
    rt: &(impl Abort + AllocGlobal),
    lists: &[SourceList],
    growing: &mut GrowingStacks<'_>,
    moment: &Moment<'_>,
) -> Result<(), AllocError>
    requires { growing.old.lists ≡ samples_of lists.now }
    ensures { growing.new.lists ≡ samples_of lists.now }
{
    let (sources, counts, wanted) = moment;
    take_all(rt, lists, growing, sources);
    has_counts(rt, growing, counts);
    shows_moment(rt, growing, wanted)
}

fn show_moments(
    rt: &(impl Abort + AllocGlobal),
    lists: &[SourceList],
    growing: &mut GrowingStacks<'_>,
) -> Result<(), AllocError>
    requires { growing.old.lists ≡ samples_of lists.now }
{
    for moment in MOMENTS {
        come_to_moment(rt, lists, growing, moment)?;
    }
    Ok(())
}

fn shows_growing(rt: &(impl Abort + AllocGlobal), lists: &[SourceList]) -> Result<(), AllocError> {
    assert_light(rt, lists, 1_000);
    let mut growing = GrowingStacks::of(rt.alloc(), lists)?;
    show_moments(rt, lists, &mut growing)
}

#[test]
fn stacks_of_moments(rt: HostRuntime) -> Result<(), Fail> {
    let lists = lists_of(&rt, rt.alloc(), &[ONE, OTHER])?;
    shows_growing(&rt, &lists)?;
    Ok(())
}
