//! Samples, merged as they come, with what is told of them.

ghost use Rattle.std.specs.Prelude.{◌≡◌, ◌≢◌, ◌<◌, ◌+◌, ◌^◌, ℕ, [], IfOk, OnOk, OnErr, IsErrOf, length, slice_index, slice_set};
ghost use Rattle.std.specs.Io.KnownBytes.{Appends};
ghost use Rattle.byte_io.specs.Calls.{one_more};
ghost use Rattle.byte_io.specs.Pieces.{AppendsFront};
ghost use Rattle.live_lines.specs.Lines.{line_now, live_counts};
ghost use Rattle.live_lines.specs.declared.form.LiveForm.TheVariants.{Lines};

use crate::form::LiveForm;
use crate::moments::{Moment, send_moment};
use byte_io::{Outlet, PieceFault};
use flame_layout::Width;
use merging::RowMerge;
use stack_core::{Ledger, RowSink};
use std::alloc::{AllocError, Global};
use std::marker::Model;

/// What a line shows.
#[derive(Clone, Copy)]
pub enum LiveLine {
    /// The snapshot of what was taken, with a count for each source.
    Snapshot,
    /// The graph of it.
    Graph,
}

/// Samples of so many sources, merged as they come. Contracts see what is written of them, the number of sources, and the pairs that were
/// taken.
#[derive(Drop)]
pub struct LiveMerge {
    form: LiveForm,
    rows: RowMerge,
    /// How many of each source were taken.
    counts: Vec<u64>,
    at: u64,
}

impl Model for LiveMerge {
    ghost use Rattle.std.specs.Prelude.{length};
    ghost use Rattle.live_lines.specs.LiveState.{LiveState};
    ghost use Rattle.live_lines.specs.checked.Merges.{IsLiveMerge};

    ghost Value = { LiveState };

    ghost view = { λ merge. record {
      form = merge.form;
      sources = length merge.counts.items;
      taken = merge.rows;
    } };

    ghost invariant = { λ merge. IsLiveMerge merge.rows merge.counts.items merge.at };
}

impl LiveMerge {
    /// Nothing was taken of these sources. Lines are written of them.
    pub fn new(alloc: Global, sources: usize) -> Result<LiveMerge, AllocError>
        ensures { IfOk result (λ merge. merge ≡ record
            { form = Lines; sources = sources; taken = [] }) }
    {
        LiveMerge::of_form(alloc, LiveForm::Lines, sources)
    }

    /// Nothing was taken of these sources. This is written of them.
    pub fn of_form(alloc: Global, form: LiveForm, sources: usize) -> Result<LiveMerge, AllocError>
        ensures { IfOk result (λ merge. merge ≡ record
            { form = form; sources = sources; taken = [] }) }
    {
        Ok(LiveMerge {
            form,
            rows: RowMerge::new(alloc),
            counts: zeros(alloc, sources)?,
            at: 0,
        })
    }

    /// How many samples were taken.
    pub fn count(&self) -> u64
        ensures { result ≡ length self.now.taken }
    {
        self.at
    }

    /// How many samples of each source were taken.
    pub fn counts(&self) -> &[u64]
        ensures { result.now ≡ live_counts self.now.sources self.now.taken (length self.now.taken) }
    {
        &self.counts
    }

    /// Sends the line of what was taken, or what stands in its place, and flushes.
    pub fn send<W: Outlet>(
        &self,
        alloc: Global,
        line: LiveLine,
        width: Width,
        out: &mut W,
    ) -> Result<(), PieceFault>
        ensures ok { OnOk result (Appends (W.contents out.old) (W.contents out.new)
            (line_now self.now.form line self.now.sources width self.now.taken)) }
        ensures flushed { OnOk result (W.is_flushed out.new) }
        ensures front { OnErr result (AppendsFront
            (line_now self.now.form line self.now.sources width self.now.taken)
            (W.contents out.old) (W.contents out.new)) }
        ensures output { IsErrOf result PieceFault.Output
            → W.failures out.new ≡ one_more (W.failures out.old) }
        ensures unfailed { result ≢ Err PieceFault.Output → W.failures out.new ≡ W.failures out.old }
    {
        let moment = Moment {
            line,
            at: self.at,
            counts: &self.counts,
            width,
        };
        send_moment(alloc, self.form, &self.rows, &moment, out)
    }
}

impl RowSink for LiveMerge {
    ghost use Rattle.std.specs.Prelude.{◌∷◌, []};
    ghost use Rattle.live_lines.specs.Settings.{form_number};

    ghost taken = { λ merge. merge.taken };

    ghost setting = { λ merge. form_number merge.form ∷ merge.sources ∷ [] };

    /// Merges one sample. One with which no line could be drawn is refused as memory is: where the weights don't fit in 64 bits.
    fn take_row(
        &mut self,
        alloc: Global,
        source: u32,
        ledger: &Ledger,
        row: usize,
        weight: u64,
    ) -> Result<(), AllocError> {
        if self.at == u64::MAX {
            return Err(AllocError);
        }
        self.rows.take_row(alloc, source, ledger, row, weight)?;
        count_source(&mut self.counts, source);
        self.at += 1;
        Ok(())
    }
}

/// So many zeros.
fn zeros(alloc: Global, count: usize) -> Result<Vec<u64>, AllocError>
    ensures count { IfOk result (λ numbers. length numbers.items ≡ count) }
    ensures zero { IfOk result (λ numbers. (k : ℕ) → slice_index numbers.items k ≡ 0) }
{
    let mut numbers = Vec::new(alloc);
    numbers.resize(count, 0)?;
    Ok(numbers)
}

/// Counts a source once more, where it is one of these.
fn count_source(counts: &mut Vec<u64>, source: u32)
    requires { slice_index counts.old.items source + 1 < 2 ^ 64 }
    ensures { counts.new.items
        ≡ slice_set counts.old.items source (slice_index counts.old.items source + 1) }
{
    let source = source as usize;
    if source < counts.len() {
        counts[source] += 1;
    }
}
