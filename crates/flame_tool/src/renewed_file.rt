//! A file that is renewed: its place is taken by one text after the other.
ghost use Rattle.std.specs.Prelude.{◌≡◌, [], ℕ, List, Some, IfOk, IsSome, IsTrue, OnOk, string_bytes};
ghost use Rattle.std.specs.Io.{WritesAtMost};
ghost use Rattle.std.specs.Io.KnownBytes.{WriteAppends};
ghost use Rattle.flame_tool.specs.checked.RenewalProps.{at_prop};
ghost use Rattle.flame_tool.specs.checked.Renewals.{AreAt, IsAt, IsBetween, IsGrown, Renews, all_bytes, files_since, renewal_bytes};

use byte_io::{Draft, Outlet, Outputs};
use std::alloc::Global;
use std::io::{ErrorKind, Write};
use std::snapshot::Snapshot;
use std::{io, mem};

/// What was written since the last text took its place.
#[derive(Drop)]
pub(crate) enum Renewal<W> {
    /// Nothing.
    Between,
    /// A draft.
    Begun(Draft<W>),
    /// What could not take the place, for contracts alone. Nothing is written any more.
    Failed(Snapshot<W>),
}

/// A file whose place what was written takes each time that it is flushed. Where that fails, the file fails from then on.
#[derive(Drop)]
pub(crate) struct RenewedFile<'a, D: Outputs> {
    pub(crate) outputs: &'a mut D,
    pub(crate) renewal: Renewal<D::Writer>,
    alloc: Global,
    path: String,
    // What took its place before, for contracts alone.
    start: Snapshot<D>,

    ghost grown: { IsGrown (D.placed start.value) (D.placed outputs.now) },
    ghost paths: { AreAt (string_bytes path) (files_since (D.placed start.value) (D.placed outputs.now)) },
    ghost at: { IsAt (string_bytes path) renewal } by { Prim.hlevel at_prop },
}

impl<'a, D: Outputs> RenewedFile<'a, D> {
    /// Begins a file of that path. It has no bytes.
    pub(crate) fn begin(
        alloc: Global,
        outputs: &'a mut D,
        path: &str,
    ) -> io::Result<RenewedFile<'a, D>>
        ensures empty { IfOk result (λ file. IsSome (D.placed outputs.entry.now)
            → all_bytes (D.placed file.start.value) (D.placed file.outputs.now)
            (renewal_bytes D.Writer.contents file.renewal) ≡ Some []) }
    {
        let start = Snapshot::of(outputs);
        let path = String::from_str(alloc, path)?;
        let mut renewal = Renewal::Between;
        begin_draft(alloc, outputs, &path, &mut renewal)?;
        Ok(RenewedFile {
            outputs,
            renewal,
            alloc,
            path,
            start,
        })
    }
}

impl<D: Outputs> Write for RenewedFile<'_, D> {
    ghost contents = { λ file. all_bytes (D.placed file.start.value) (D.placed file.outputs.now)
        (renewal_bytes D.Writer.contents file.renewal) };

    fn write(&mut self, bytes: &[u8]) -> io::Result<usize> {
        write_draft(
            self.alloc,
            self.outputs,
            &self.path,
            &mut self.renewal,
            bytes,
        )
    }

    fn flush(&mut self) -> io::Result<()> {
        flush_draft(self.outputs, &mut self.renewal)
    }
}

/// Takes away a draft that was begun. It answers whether nothing was written since the last text took its place.
pub(crate) fn close_renewal<D: Outputs>(outputs: &mut D, renewal: Renewal<D::Writer>) -> bool
    ensures unplaced { D.placed outputs.new ≡ D.placed outputs.old }
    ensures between { IsTrue result → IsBetween renewal }
{
    match renewal {
        Renewal::Between => true,
        Renewal::Begun(draft) => {
            outputs.discard(draft);
            false
        }
        Renewal::Failed(_written) => false,
    }
}

// Begins a draft, unless one was begun.
fn begin_draft<D: Outputs>(
    alloc: Global,
    outputs: &mut D,
    path: &str,
    renewal: &mut Renewal<D::Writer>,
) -> io::Result<()>
    ensures unplaced { D.placed outputs.new ≡ D.placed outputs.old }
    ensures bytes { IsSome (D.placed outputs.old) → renewal_bytes D.Writer.contents renewal.new
        ≡ renewal_bytes D.Writer.contents renewal.old }
    ensures at { IsAt path.now renewal.old → IsAt path.now renewal.new }
{
    if let Renewal::Between = renewal {
        *renewal = Renewal::Begun(outputs.begin(alloc, path)?);
    }
    Ok(())
}

// Writes to the draft.
fn write_draft<D: Outputs>(
    alloc: Global,
    outputs: &mut D,
    path: &str,
    renewal: &mut Renewal<D::Writer>,
    bytes: &[u8],
) -> io::Result<usize>
    ensures bound { WritesAtMost result bytes.now }
    ensures unplaced { D.placed outputs.new ≡ D.placed outputs.old }
    ensures bytes { IsSome (D.placed outputs.old) → WriteAppends (renewal_bytes D.Writer.contents renewal.old)
        (renewal_bytes D.Writer.contents renewal.new) result bytes.now }
    ensures at { IsAt path.now renewal.old → IsAt path.now renewal.new }
{
    begin_draft(alloc, outputs, path, renewal)?;
    match renewal {
        Renewal::Begun(draft) => draft.writer.write(bytes),
        _ => Err(io::Error::from(ErrorKind::Other)),
    }
}

// Lets what was written take its place.
fn flush_draft<D: Outputs>(outputs: &mut D, renewal: &mut Renewal<D::Writer>) -> io::Result<()>
    ensures renews { (path : List ℕ) → IsAt path renewal.old → Renews path (D.placed outputs.old) (D.placed outputs.new)
        (renewal_bytes D.Writer.contents renewal.old) (renewal_bytes D.Writer.contents renewal.new) }
    ensures at { (path : List ℕ) → IsAt path renewal.old → IsAt path renewal.new }
    ensures between { OnOk result (IsBetween renewal.new) }
{
    match mem::replace(renewal, Renewal::Between) {
        Renewal::Between => Ok(()),
        Renewal::Begun(draft) => flush_begun(outputs, renewal, draft),
        Renewal::Failed(written) => {
            *renewal = Renewal::Failed(written);
            Err(io::Error::from(ErrorKind::Other))
        }
    }
}

// Lets a draft take its place.
fn flush_begun<D: Outputs>(
    outputs: &mut D,
    renewal: &mut Renewal<D::Writer>,
    mut draft: Draft<D::Writer>,
) -> io::Result<()>
    requires { IsBetween renewal.old }
    ensures renews { Renews (string_bytes draft.path) (D.placed outputs.old) (D.placed outputs.new)
        (D.Writer.contents draft.writer) (renewal_bytes D.Writer.contents renewal.new) }
    ensures at { IsAt (string_bytes draft.path) renewal.new }
    ensures between { OnOk result (IsBetween renewal.new) }
{
    if let Err(error) = draft.writer.flush() {
        *renewal = Renewal::Begun(draft);
        return Err(error);
    }
    let written = Snapshot::of(&draft.writer);
    match outputs.place(draft) {
        Ok(()) => Ok(()),
        Err(error) => {
            *renewal = Renewal::Failed(written);
            Err(error)
        }
    }
}
