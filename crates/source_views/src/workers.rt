//! Who makes a text: this thread alone, or a few where there is much to do.
ghost use Rattle.std.specs.Prelude.{◌<◌, ◌^◌, IfOk, length};
ghost use Rattle.std.specs.List.{concat};
ghost use Rattle.flame_layout.specs.Paths.{SameOwn};
ghost use Rattle.merged_stacks.specs.RankedStacks.{ranked_samples};
ghost use Rattle.merged_stacks.specs.Timeline.{samples_of};
ghost use Rattle.merging.specs.Sums.{all_samples};
ghost use Rattle.source_views.specs.Failures.{Flushes, Sends};

use crate::failures::Failure;
use crate::long_texts::LongText;
use byte_io::{Outlet, Pieces, send_pieces, send_pieces_in_threads};
use merged_stacks::{Alone, InThreads, MergedStacks, Sorting};
use source_lists::SourceLists;
use std::alloc::{AllocError, Global};
use std::thread::Threads;

/// What sorts stacks and sends texts: this thread alone, or a few where there is much to do.
pub trait Workers: Sorting {
    /// Sends a text while it is made.
    fn send<W: Outlet>(
        &self,
        alloc: Global,
        text: &LongText<'_, '_>,
        out: &mut W,
    ) -> Result<(), Failure>
        requires { length (⟦<LongText<'static, 'static> as Pieces>⟧.pieces text.now) < 2 ^ 64 }
        ensures sent { Sends (concat (⟦<LongText<'static, 'static> as Pieces>⟧.pieces text.now))
            (W.contents out.old) (W.contents out.new) result }
        ensures flushed { Flushes (W.is_flushed out.new) (W.failures out.old) (W.failures out.new)
            result };
}

impl Workers for Alone {
    fn send<W: Outlet>(
        &self,
        alloc: Global,
        text: &LongText<'_, '_>,
        out: &mut W,
    ) -> Result<(), Failure> {
        send_text(alloc, text, out)
    }
}

impl<R: Threads> Workers for InThreads<'_, R> {
    fn send<W: Outlet>(
        &self,
        alloc: Global,
        text: &LongText<'_, '_>,
        out: &mut W,
    ) -> Result<(), Failure> {
        send_long_text(self.rt, alloc, text, out)
    }
}

/// The stacks of all samples, each once.
pub fn merge<S: Sorting>(
    sorting: &S,
    alloc: Global,
    sources: &SourceLists,
) -> Result<MergedStacks, AllocError>
    ensures { IfOk result (λ merged.
        SameOwn (all_samples (samples_of sources.now.lists)) (ranked_samples merged)) }
{
    MergedStacks::of(alloc, sources.lists(), sorting)
}

/// Sends a text while it is made.
pub fn send_text<P: Pieces, W: Outlet>(alloc: Global, text: &P, out: &mut W) -> Result<(), Failure>
    requires { length (P.pieces text.now) < 2 ^ 64 }
    ensures sent { Sends (concat (P.pieces text.now)) (W.contents out.old) (W.contents out.new) result }
    ensures flushed { Flushes (W.is_flushed out.new) (W.failures out.old) (W.failures out.new)
        result }
{
    send_pieces(alloc, text, out)?;
    Ok(())
}

/// The same, where the text is long in threads.
pub fn send_long_text<T: Threads, P: Pieces + Sync, W: Outlet>(
    rt: &T,
    alloc: Global,
    text: &P,
    out: &mut W,
) -> Result<(), Failure>
    requires { length (P.pieces text.now) < 2 ^ 64 }
    ensures sent { Sends (concat (P.pieces text.now)) (W.contents out.old) (W.contents out.new) result }
    ensures flushed { Flushes (W.is_flushed out.new) (W.failures out.old) (W.failures out.new)
        result }
{
    send_pieces_in_threads(rt, alloc, text, out)?;
    Ok(())
}
