//! The samples of lists that were collected, one by one in the order of their run.

ghost use Rattle.std.specs.Prelude.{◌≡◌, ◌≤◌, ◌<◌, ◌+◌, ◌++◌, ◌∷◌, [], All, OnOk, length, map, max, take, string_bytes};
ghost use Rattle.sample_tables.specs.Rows.{name_at, sample_at};
ghost use Rattle.stack_core.specs.Interleaving.{IsInterleaving, interleaved};
ghost use Rattle.merged_stacks.specs.Timeline.{samples_of};

use crate::tree_sink::TreeSink;
use stack_core::{Names, Sample, Sink, SourceList};
use std::alloc::{AllocError, Global};
use std::mem;

/// Makes a name this one. One that is the same already is left, which is what most are.
fn set_name(name: &mut String, wanted: &str) -> Result<(), AllocError>
    ensures { OnOk result (string_bytes name.new ≡ wanted.now) }
{
    if name.as_str() != wanted {
        name.clear();
        name.push_str(wanted)?;
    }
    Ok(())
}

/// Gives the frame of this index its name.
fn set_frame(
    alloc: Global,
    wanted: &str,
    at: usize,
    names: &mut Vec<String>,
) -> Result<(), AllocError>
    requires { at ≤ length names.old.items }
    ensures set { OnOk result (take (at + 1) (map string_bytes names.new.items)
        ≡ take at (map string_bytes names.old.items) ++ wanted.now ∷ []) }
    ensures count { OnOk result (length names.new.items ≡ max (length names.old.items) (at + 1)) }
{
    if at == names.len() {
        names.push(String::from_str(alloc, wanted)?)?;
        return Ok(());
    }
    set_name(&mut names[at], wanted)?;
    Ok(())
}

/// Makes the names those of these numbers.
fn set_frames(
    alloc: Global,
    list: &SourceList,
    frames: &[u32],
    names: &mut Vec<String>,
) -> Result<(), AllocError>
    requires told { All (λ number. number < length list.now.told) frames.now }
    requires no_more { length names.old.items ≤ length frames.now }
    ensures { OnOk result (map string_bytes names.new.items ≡ map (name_at list.now.told) frames.now) }
{
    for at in 0..frames.len() {
        set_frame(alloc, list.told_name(frames[at] as usize), at, names)?;
    }
    Ok(())
}

/// Puts the sample at a place of a list in the place of another, into its memory. After want of memory it has no
/// frames.
fn set_sample(
    alloc: Global,
    list: &SourceList,
    at: usize,
    sample: &mut Sample,
) -> Result<(), AllocError>
    requires { at < length list.now.samples }
    ensures { OnOk result (sample.new ≡ sample_at list.now.samples at) }
{
    let frames = list.frames(at);
    let stack = mem::replace(&mut sample.stack, Names::of(Vec::new(alloc)));
    let mut names = stack.into_plain();
    names.truncate(frames.len());
    set_frames(alloc, list, frames, &mut names)?;
    *sample = Sample {
        stack: Names::of(names),
        weight: list.weight(at),
    };
    Ok(())
}

/// Feeds a sink with the samples of lists, in an order of theirs.
pub(crate) fn feed_lists(
    alloc: Global,
    lists: &[SourceList],
    order: &[u32],
    sink: &mut TreeSink,
) -> Result<(), AllocError>
    requires ordered { IsInterleaving order.now (samples_of lists.now) }
    requires empty { sink.old.taken ≡ [] }
    ensures taken { OnOk result (sink.new.taken ≡ interleaved order.now (samples_of lists.now)) }
    ensures every { sink.new.every ≡ sink.old.every }
{
    let mut came = vec![in alloc; 0usize; lists.len()]?;
    let mut sample = Sample {
        stack: Names::of(Vec::new(alloc)),
        weight: 0,
    };
    for source in order {
        let number = *source as usize;
        let at = came[number];
        came[number] = at + 1;
        set_sample(alloc, &lists[number], at, &mut sample)?;
        sink.take(alloc, *source, &sample)?;
    }
    Ok(())
}
