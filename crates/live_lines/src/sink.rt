//! A sink that writes a line each time that so many samples more came, or a frame of a table in its place.

ghost use Rattle.std.specs.Prelude.{◌≡◌, ◌≢◌, ◌≤◌, ◌<◌, ◌++◌, ◌∷◌, ◌&&◌, false, ℕ, List, [], OnOk, OnErr, IsErrOf, None, is_none, length};
ghost use Rattle.std.specs.Io.KnownBytes.{Appends};
ghost use Rattle.byte_io.specs.Calls.{one_more};
ghost use Rattle.byte_io.specs.Pieces.{AppendsFront};
ghost use Rattle.sample_tables.specs.Rows.{named, row_by};
ghost use Rattle.sample_tables.specs.declared.samples.Sample.{Sample as TakenSample};
ghost use Rattle.stack_core.specs.Interleaving.{IsInterleaving, interleaved};
ghost use Rattle.merging.specs.checked.Merging.{is_due};
ghost use Rattle.source_views.specs.Texts.{graph_text};
ghost use Rattle.live_lines.specs.Ends.{has_lost, heard_of_each};
ghost use Rattle.live_lines.specs.Lines.{live_lines, live_text, moment_at};
ghost use Rattle.live_lines.specs.Settings.{form_number, live_setting};
ghost use Rattle.live_lines.specs.Written.{GrewByFront, GrewByText, failures_after};
ghost use Rattle.live_lines.specs.checked.Writes.{AreWritten};
ghost use Rattle.live_lines.specs.checked.WrittenProps.{front_prop, text_prop};
ghost use Rattle.live_lines.specs.declared.form.LiveForm.TheVariants.{Lines};

use crate::ends::EndTeller;
use crate::gate::LiveGate;
use crate::merge::{LiveLine, LiveMerge};
use byte_io::{Outlet, PieceFault};
use flame_layout::Width;
use ring_collect::EndSink;
use stack_core::{Ledger, RowSink, SourceEnd};
use std::alloc::{AllocError, Global};
use std::snapshot::Snapshot;
use std::sync::Arc;

/// What is written of the samples that came, and what is needed for it.
#[derive(Drop)]
pub struct LiveLines<W> {
    pub merge: LiveMerge,
    /// After how many samples more there is a line.
    pub every: u64,
    pub width: Width,
    /// Why a line was not sent whole. Nothing is written after it.
    pub failure: Option<PieceFault>,
    /// The outlet as it was before anything was written, for contracts alone.
    pub start: Snapshot<W>,
    pub gate: Arc<LiveGate>,
}

/// Writes the lines of the snapshots of a graph while samples come, each as soon as its last sample was taken, and flushes each. Where a
/// line is not sent whole it closes its gate, and writes nothing more. It tells how sources end at once.
#[derive(Drop)]
pub struct LiveSink<'a, W: Outlet, T: EndTeller> {
    pub lines: LiveLines<W>,
    pub out: &'a mut W,
    pub ends: T,

    // The lines that are due were written, in order and each once; after a failure a front of them.
    pub ghost whole: { GrewByText lines.failure
        (live_lines lines.merge.form lines.merge.sources lines.width lines.every lines.merge.taken)
        (W.contents lines.start.value) (W.contents out.now) } by { Prim.hlevel text_prop },
    pub ghost front: { GrewByFront
        (live_lines lines.merge.form lines.merge.sources lines.width lines.every lines.merge.taken)
        (W.contents lines.start.value) (W.contents out.now) } by { Prim.hlevel front_prop },
    pub ghost counted: { W.failures out.now ≡ failures_after (W.failures lines.start.value) lines.failure },
    pub ghost positive: { 1 ≤ lines.every },

    // And they were handed on, each time.
    pub ghost flushed: { lines.failure ≡ None → lines.every ≤ length lines.merge.taken
        → ∥ W.is_flushed out.now ∥₁ },

    // As long as no line failed, no end was told as one behind a failure.
    pub ghost unlost: { lines.failure ≡ None → has_lost (T.told ends) ≡ false },
}

impl<'a, W: Outlet, T: EndTeller> LiveSink<'a, W, T> {
    /// Nothing came yet, and nothing is written. There is a line each time that `every` samples more came.
    pub fn new(
        merge: LiveMerge,
        every: u64,
        width: Width,
        gate: Arc<LiveGate>,
        out: &'a mut W,
        ends: T,
    ) -> LiveSink<'a, W, T>
        requires every { 1 ≤ every }
        requires nothing { merge.taken ≡ [] }
        requires untold { T.told ends ≡ [] }
        ensures merge { result.lines.merge ≡ merge }
        ensures every { result.lines.every ≡ every }
        ensures width { result.lines.width ≡ width }
        ensures unfailed { result.lines.failure ≡ None }
        ensures start { result.lines.start.value ≡ out.entry.now }
        ensures outlet { result.out.ghost_name ≡ out.entry.ghost_name }
        ensures ends { result.ends ≡ ends }
    {
        let start = Snapshot::of(out);
        let lines = LiveLines {
            merge,
            every,
            width,
            failure: None,
            start,
            gate,
        };
        LiveSink { lines, out, ends }
    }

    /// Why a line was not sent whole, if one was not.
    pub fn failure(&self) -> Option<PieceFault>
        ensures { result ≡ self.now.lines.failure }
    {
        self.lines.failure
    }
}

impl<W: Outlet> LiveLines<W> {
    /// Sends the line of the graph of all samples that came, and flushes. Where a line before was not sent whole it sends nothing, and
    /// answers why. It is called with the lines and the outlet of a sink that was taken apart: what the sink keeps of them is required.
    pub fn finish(&mut self, alloc: Global, out: &mut W) -> Result<(), PieceFault>
        requires whole { GrewByText self.old.failure
            (live_lines self.old.merge.form self.old.merge.sources self.old.width self.old.every self.old.merge.taken)
            (W.contents self.old.start.value) (W.contents out.old) }
        requires front { GrewByFront
            (live_lines self.old.merge.form self.old.merge.sources self.old.width self.old.every self.old.merge.taken)
            (W.contents self.old.start.value) (W.contents out.old) }
        requires counted { W.failures out.old
            ≡ failures_after (W.failures self.old.start.value) self.old.failure }

        // What was taken stays.
        ensures same { self.new ≡ self.old }

        // Since the sink was made the outlet gained the lines of all snapshots, and then that of the graph.
        ensures ok { OnOk result (Appends (W.contents self.old.start.value) (W.contents out.new)
            (live_text self.old.merge.form self.old.merge.sources self.old.width self.old.every self.old.merge.taken)) }
        ensures flushed { OnOk result (W.is_flushed out.new) }
        ensures unlost { OnOk result (self.old.failure ≡ None) }
        ensures front { OnErr result (AppendsFront
            (live_text self.old.merge.form self.old.merge.sources self.old.width self.old.every self.old.merge.taken)
            (W.contents self.old.start.value) (W.contents out.new)) }
        ensures output { IsErrOf result PieceFault.Output
            → W.failures out.new ≡ one_more (W.failures self.old.start.value) }
        ensures unfailed { result ≢ Err PieceFault.Output
            → W.failures out.new ≡ W.failures self.old.start.value }

        // That is the text of the graph of the lists of which it took the samples, in their order.
        ensures graph { (lists : List (List TakenSample)) (order : List ℕ) → IsInterleaving order lists
            → length lists ≡ self.old.merge.sources → self.old.merge.taken ≡ interleaved order lists
            → live_text Lines self.old.merge.sources self.old.width self.old.every self.old.merge.taken
            ≡ graph_text self.old.width lists order (Some self.old.every) }
    {
        if let Some(fault) = self.failure {
            return Err(fault);
        }
        self.merge.send(alloc, LiveLine::Graph, self.width, out)
    }
}

impl<W: Outlet, T: EndTeller> EndSink for LiveSink<'_, W, T> {
    ghost taken = { λ sink. sink.lines.merge.taken };

    ghost setting = { λ sink. live_setting sink.out.ghost_name (W.contents sink.lines.start.value)
        (W.failures sink.lines.start.value) sink.lines.merge.form sink.lines.merge.sources
        sink.lines.width sink.lines.every (T.setting sink.ends) };

    ghost sources = { λ sink. sink.lines.merge.sources };

    ghost heard = { λ sink. heard_of_each (T.told sink.ends) };

    /// Merges one sample, and sends the line that is due then. A failure of the line is kept, since the sample was taken.
    fn take_row(
        &mut self,
        alloc: Global,
        source: u32,
        ledger: &Ledger,
        row: usize,
        weight: u64,
    ) -> Result<(), AllocError> {
        take_sample(
            alloc,
            &mut self.lines,
            source,
            ledger,
            row,
            weight,
            self.out,
        )
    }

    /// Tells at once how a source ended, with how many of its samples were taken.
    fn end_source(&mut self, source: u32, ending: &SourceEnd) {
        let counts = self.lines.merge.counts();
        let Some(count) = counts.get(source as usize) else {
            return;
        };
        let is_lost = self.lines.failure.is_some();
        self.ends.tell(source, ending, *count, is_lost);
    }
}

/// Merges one sample, and sends the line that is due then, unless one was not sent whole before. Where the sample is refused it closes the
/// gate.
fn take_sample<W: Outlet>(
    alloc: Global,
    lines: &mut LiveLines<W>,
    source: u32,
    ledger: &Ledger,
    row: usize,
    weight: u64,
    out: &mut W,
) -> Result<(), AllocError>
    requires kept { row < length ledger.now.stacks }
    requires positive { 1 ≤ lines.old.every }
    requires written { AreWritten
        (live_lines lines.old.merge.form lines.old.merge.sources lines.old.width lines.old.every
        lines.old.merge.taken)
        lines.old.failure
        (W.contents lines.old.start.value) (W.contents out.old)
        (W.failures lines.old.start.value) (W.failures out.old) }
    requires flushed { lines.old.failure ≡ None → lines.old.every ≤ length lines.old.merge.taken
        → ∥ W.is_flushed out.old ∥₁ }
    ensures ok { OnOk result (lines.new.merge.taken ≡ lines.old.merge.taken ++ (
      source,
      named ledger.now.told
          (row_by ledger.now.stacks (record { stack = row; weight = weight })),
    ) ∷ []) }
    ensures refused { OnErr result (lines.new.merge.taken ≡ lines.old.merge.taken) }
    ensures form { form_number lines.new.merge.form ≡ form_number lines.old.merge.form }
    ensures sources { lines.new.merge.sources ≡ lines.old.merge.sources }
    ensures width { lines.new.width ≡ lines.old.width }
    ensures every { lines.new.every ≡ lines.old.every }
    ensures start { lines.new.start.value ≡ lines.old.start.value }
    ensures kept { lines.new.failure ≡ None → lines.old.failure ≡ None }
    ensures written { AreWritten
        (live_lines lines.new.merge.form lines.new.merge.sources lines.new.width lines.new.every
        lines.new.merge.taken)
        lines.new.failure
        (W.contents lines.new.start.value) (W.contents out.new)
        (W.failures lines.new.start.value) (W.failures out.new) }
    ensures flushed { lines.new.failure ≡ None → lines.new.every ≤ length lines.new.merge.taken
        → ∥ W.is_flushed out.new ∥₁ }
{
    if let Err(refusal) = lines.merge.take_row(alloc, source, ledger, row, weight) {
        lines.gate.close();
        return Err(refusal);
    }
    if is_due(lines) {
        send_due(alloc, lines, out);
    }
    Ok(())
}

/// Whether the line of what was taken is to be sent.
fn is_due<W>(lines: &LiveLines<W>) -> bool
    requires { 1 ≤ lines.now.every }
    ensures { result ≡ (is_none lines.now.failure
        && is_due (Some lines.now.every) (length lines.now.merge.taken)) }
{
    lines.failure.is_none() && lines.merge.count() % lines.every == 0
}

/// Sends the line of what was taken. Where it is not sent whole it keeps why, and closes the gate.
fn send_due<W: Outlet>(alloc: Global, lines: &mut LiveLines<W>, out: &mut W)
    requires { lines.old.failure ≡ None }
    ensures merge { lines.new.merge ≡ lines.old.merge }
    ensures width { lines.new.width ≡ lines.old.width }
    ensures every { lines.new.every ≡ lines.old.every }
    ensures start { lines.new.start.value ≡ lines.old.start.value }
    ensures whole { lines.new.failure ≡ None → Appends (W.contents out.old) (W.contents out.new)
        (moment_at lines.old.merge.form lines.old.merge.sources lines.old.width lines.old.merge.taken
        (length lines.old.merge.taken)) }
    ensures front { AppendsFront
        (moment_at lines.old.merge.form lines.old.merge.sources lines.old.width lines.old.merge.taken
        (length lines.old.merge.taken)) (W.contents out.old) (W.contents out.new) }
    ensures counted { W.failures out.new ≡ failures_after (W.failures out.old) lines.new.failure }
    ensures flushed { lines.new.failure ≡ None → W.is_flushed out.new }
{
    if let Err(fault) = lines
        .merge
        .send(alloc, LiveLine::Snapshot, lines.width, out)
    {
        lines.failure = Some(fault);
        lines.gate.close();
    }
}
