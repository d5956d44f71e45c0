//! Where files are written that take their places when they are whole.
ghost use Rattle.std.specs.Prelude.{◌≡◌, Bool, List, [], Option, Some, IfOk, IsSome, OnErr, OnOk, string_bytes};
ghost use Rattle.byte_io.specs.Outputs.{PlacedFile, placed_after};

use crate::outlet::Outlet;
use std::alloc::Global;
use std::io;

/// A file that is being written, and can take its place.
#[derive(Drop)]
pub struct Draft<W> {
    /// The path that it is to have.
    pub path: String,
    /// Where its bytes go.
    pub writer: W,
    pub(crate) beside: Option<Beside>,
}

impl<W> Draft<W> {
    /// A file of that path, which this writer takes.
    pub fn new(path: String, writer: W) -> Draft<W>
        ensures path { result.path ≡ path }
        ensures writer { result.writer ≡ writer }
    {
        Draft {
            path,
            writer,
            beside: None,
        }
    }
}

/// A file of the machine beside the place that it is to take.
#[derive(Drop)]
pub(crate) struct Beside {
    pub(crate) file: String,
    pub(crate) place: String,
}

/// Where files are written. Until a file takes its place, what stood there stays. A path may be given to many files, one after another:
/// each takes the place of the one before.
pub trait Outputs {
    /// Where the bytes of a file go.
    type Writer: Outlet + Drop;

    // The files that took their places, in order, where it is known: over memory, and not over the machine.
    ghost placed: { Self → Option (List PlacedFile) };

    // Whether standard output, where what has no file goes, is a terminal.
    ghost has_terminal: { Self → Bool };

    /// Begins a file of that path. It has no bytes.
    fn begin(&mut self, alloc: Global, path: &str) -> io::Result<Draft<Self::Writer>>
        ensures path { IfOk result (λ draft. string_bytes draft.path ≡ path.now) }
        ensures empty { IfOk result (λ draft. IsSome (placed self.old)
            → Self.Writer.contents draft.writer ≡ Some []) }
        ensures unfailed { IfOk result (λ draft. Self.Writer.failures draft.writer ≡ 0) }
        ensures unplaced { placed self.new ≡ placed self.old }
        ensures terminal { has_terminal self.new ≡ has_terminal self.old };

    /// Gives a file its place, now that it is whole. Where that fails, nothing is left of it.
    fn place(&mut self, draft: Draft<Self::Writer>) -> io::Result<()>
        ensures ok { OnOk result (placed self.new ≡ placed_after (placed self.old)
            (string_bytes draft.path) (Self.Writer.contents draft.writer)) }
        ensures err { OnErr result (placed self.new ≡ placed self.old) }
        ensures terminal { has_terminal self.new ≡ has_terminal self.old };

    /// Takes away what was written of a file.
    fn discard(&mut self, draft: Draft<Self::Writer>)
        ensures unplaced { placed self.new ≡ placed self.old }
        ensures terminal { has_terminal self.new ≡ has_terminal self.old };

    /// Whether standard output is a terminal.
    fn is_terminal(&self) -> bool
        ensures { result ≡ has_terminal self.now };
}
