//! Files that are written in memory.
ghost use Rattle.std.specs.Prelude.{◌≡◌, [], Some, None, true, false, OnErr, OnOk, string_bytes};
ghost use Rattle.byte_io.specs.Outputs.{failing_step, files_of, has_memory_terminal, placed_after, placed_of};

use crate::memory_files::NamedFile;
use crate::outlet::{CountedWriter, Outlet};
use crate::outputs::{Draft, Outputs};
use std::alloc::Global;
use std::io;
use std::io::ErrorKind;

/// A step of a file that is written.
#[derive(Clone, Copy, Debug, PartialEq, Eq)]
pub enum OutputStep {
    /// Its beginning.
    Begin,
    /// That it takes its place.
    Place,
}

/// Files in memory. Those that took their places are kept, in order.
#[derive(Drop)]
pub struct MemoryOutputs {
    placed: Vec<NamedFile>,
    // The step that fails.
    failing: Option<OutputStep>,
    is_terminal: bool,
}

impl MemoryOutputs {
    /// No file, and a standard output that is no terminal.
    pub fn new(alloc: Global) -> MemoryOutputs
        ensures placed { placed_of result ≡ [] }
        ensures failing { failing_step result ≡ None }
        ensures terminal { has_memory_terminal result ≡ false }
    {
        MemoryOutputs {
            placed: Vec::new(alloc),
            failing: None,
            is_terminal: false,
        }
    }

    /// The same, but that this step fails.
    pub fn failing_at(mut self, step: OutputStep) -> MemoryOutputs
        ensures failing { failing_step result ≡ Some step }
        ensures placed { placed_of result ≡ placed_of self }
        ensures terminal { has_memory_terminal result ≡ has_memory_terminal self }
    {
        self.failing = Some(step);
        self
    }

    /// The same, beside a terminal.
    pub fn on_terminal(mut self) -> MemoryOutputs
        ensures terminal { has_memory_terminal result ≡ true }
        ensures placed { placed_of result ≡ placed_of self }
        ensures failing { failing_step result ≡ failing_step self }
    {
        self.is_terminal = true;
        self
    }

    /// The files that took their places.
    pub fn placed(&self) -> &[NamedFile]
        ensures { files_of result.now ≡ placed_of self.now }
    {
        self.placed.as_slice()
    }
}

impl Outputs for MemoryOutputs {
    type Writer = CountedWriter<Vec<u8>>;

    ghost placed = { λ outputs. Some (placed_of outputs) };

    ghost has_terminal = { has_memory_terminal };

    fn begin(&mut self, alloc: Global, path: &str) -> io::Result<Draft<CountedWriter<Vec<u8>>>> {
        if self.failing == Some(OutputStep::Begin) {
            return Err(io::Error::from(ErrorKind::PermissionDenied));
        }
        let path = String::from_str(alloc, path)?;
        Ok(Draft::new(path, CountedWriter::new(Vec::new(alloc))))
    }

    fn place(&mut self, draft: Draft<CountedWriter<Vec<u8>>>) -> io::Result<()>
        ensures ok { OnOk result (Some (placed_of self.new) ≡ placed_after (Some (placed_of self.old))
            (string_bytes draft.path) (⟦<CountedWriter<Vec<u8>> as Outlet>⟧.contents draft.writer)) }
        ensures err { OnErr result (Some (placed_of self.new) ≡ Some (placed_of self.old)) }
        ensures terminal { has_memory_terminal self.new ≡ has_memory_terminal self.old }
    {
        if self.failing == Some(OutputStep::Place) {
            return Err(io::Error::from(ErrorKind::PermissionDenied));
        }
        let Draft { path, writer, .. } = draft;
        let bytes = writer.into_inner();
        self.placed.push(NamedFile { path, bytes })?;
        Ok(())
    }

    fn discard(&mut self, _draft: Draft<CountedWriter<Vec<u8>>>)
        ensures unplaced { Some (placed_of self.new) ≡ Some (placed_of self.old) }
        ensures terminal { has_memory_terminal self.new ≡ has_memory_terminal self.old }
    {}

    fn is_terminal(&self) -> bool {
        self.is_terminal
    }
}
