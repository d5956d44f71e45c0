//! Sources of which the weights of equal stacks are summed.

ghost use Rattle.std.specs.Prelude.{◌≤◌, length};

use super::options_with;
use super::parts::{long_text, one_input, one_stored, read_as_one};
use crate::tests::holds;
use run_options::{Format, Pick};
use source_lists::{Input, Run, RunFault, read_open};
use stack_core::{NoSink, ReadFault, ReadKind, SourceEnd, SourceList};
use std::alloc::Global;
use std::sync::Wait;
use std::test::Fail;
use std::thread::Threads;

/// Three stacks, of which two come again, and one of them also without weight.
const COMING_AGAIN: &[u8] = b"a;b 1\na;b 2\nc 3\na;b 4\nd 0\nd 0\nc 1\n";

/// Each stack first as it comes, and then the others of it as one, of the last stack first.
const SUMMED: &[u64] = &[1, 3, 0, 1, 6];

/// A line with a fault behind others.
const WITH_FAULT: &[u8] = b"a 1\na 2\nb 1.5\n";

fn run_of_sums<T: Threads + Wait + Copy + Send + 'static>(
    rt: &T,
    alloc: Global,
    inputs: Vec<Input>,
) -> Result<Run, RunFault>
    requires { length inputs.items ≤ 64 }
{
    let options = options_with(alloc, Pick::Preferred);
    read_open(rt, alloc, inputs, &options, true, &mut NoSink::new())
}

fn has_weights(list: &SourceList, weights: &[u64]) -> bool {
    if list.len() != weights.len() {
        return false;
    }
    for at in 0..list.len() {
        if list.weight(at) != weights[at] {
            return false;
        }
    }
    true
}

/// The run has one list, of these weights and with this ending, and all samples weigh so much.
fn is_run_of(run: &Run, weights: &[u64], ending: SourceEnd, whole: u64) -> bool {
    let lists = run.kept.lists();
    lists.len() == 1
        && has_weights(&lists[0], weights)
        && *lists[0].ending() == ending
        && run.whole_weight == Some(whole)
}

fn text_is_summed<T: Threads + Wait + Copy + Send + 'static>(
    rt: &T,
    alloc: Global,
    bytes: &[u8],
    weights: &[u64],
    ending: SourceEnd,
    whole: u64,
) -> Result<bool, RunFault> {
    let inputs = one_input(alloc, Format::Folded, bytes)?;
    let run = run_of_sums(rt, alloc, inputs)?;
    Ok(is_run_of(&run, weights, ending, whole))
}

/// The parts of a long text weigh as its lines do, in a fiftieth of the samples or less.
fn long_text_is_summed<T: Threads + Wait + Copy + Send + 'static>(
    rt: &T,
    alloc: Global,
) -> Result<bool, RunFault> {
    let bytes = long_text(alloc)?;
    let run = run_of_sums(rt, alloc, one_stored(alloc, Format::Folded, &bytes)?)?;
    let one = read_as_one(rt, alloc, Format::Folded, &bytes)?;
    let (found, lists) = (run.kept.lists(), one.kept.lists());
    Ok(
        found.len() == 1
            && lists.len() == 1
            && found[0].total() == lists[0].total()
            && found[0].ending() == lists[0].ending()
            && found[0].len() < lists[0].len() / 50,
    )
}

#[test]
fn later_samples_of_a_stack_are_summed(rt: HostRuntime) -> Result<(), Fail> {
    let clean = SourceEnd::Clean { ignored: 0 };
    holds(
        &rt,
        text_is_summed(&rt, rt.alloc(), COMING_AGAIN, SUMMED, clean, 11),
    )
}

#[test]
fn samples_before_a_fault_are_summed(rt: HostRuntime) -> Result<(), Fail> {
    let ending = SourceEnd::Fault(ReadFault {
        kind: ReadKind::DecimalWeight,
        at: 3,
    });
    holds(
        &rt,
        text_is_summed(&rt, rt.alloc(), WITH_FAULT, &[1, 2], ending, 3),
    )
}

#[test]
fn parts_of_a_long_text_are_summed(rt: HostRuntime) -> Result<(), Fail> {
    holds(&rt, long_text_is_summed(&rt, rt.alloc()))
}
