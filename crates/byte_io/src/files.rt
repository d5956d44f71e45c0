//! Where a run gets its sources: named files and the input.
ghost use Rattle.std.specs.Prelude.{◌≡◌, ℕ, Bool, List, false, true, Option, Some, IfOk, IfSome};

use crate::refusals::Refusal;
use crate::stored_text::StoredText;
use crate::whole_input::LoadFault;
use std::alloc::Global;

/// Where a run gets its sources.
pub trait Files {
    // The bytes of the input, where they are known: over memory, and not over the machine.
    ghost known_input: { Self → Option (List ℕ) };

    // The bytes of the file of a path, where they are known.
    ghost known_file: { Self → List ℕ → Option (List ℕ) };

    // Whether the input or standard error may be a terminal: the machine's may.
    ghost may_have_terminal: { Bool } = { false };

    /// The whole file of that path. A file that can't be opened or read is `LoadFault::Io`.
    fn named(&mut self, alloc: Global, path: &str) -> Result<Vec<u8>, LoadFault>
        ensures bytes { IfOk result (λ bytes.
            IfSome (known_file self.old path.now) (λ known. bytes.items ≡ known)) }
        ensures input { known_input self.new ≡ known_input self.old }
        ensures files { known_file self.new ≡ known_file self.old };

    /// The whole input.
    fn input(&mut self, alloc: Global) -> Result<Vec<u8>, LoadFault>
        ensures bytes { IfOk result (λ bytes.
            IfSome (known_input self.old) (λ known. bytes.items ≡ known)) }
        ensures input { known_input self.new ≡ known_input self.old }
        ensures files { known_file self.new ≡ known_file self.old };

    /// The file of a path as bytes that other threads read where they are stored, where it is a plain file that is long enough for that
    /// and not too large. `None` where it is to be asked for by `named`, which also tells a fault.
    fn stored(&mut self, _alloc: Global, _path: &str) -> Option<StoredText>
        ensures bytes { IfSome result (λ text.
            IfSome (known_file self.old _path.now) (λ known. text ≡ Some known)) }
        ensures input { known_input self.new ≡ known_input self.old }
        ensures files { known_file self.new ≡ known_file self.old }
    {
        None
    }

    /// Whether the input is a terminal, where someone has to type it. Unless an implementation knows, it is none.
    fn is_input_terminal(&self) -> bool
        ensures terminal { result ≡ true → may_have_terminal ≡ true }
    {
        false
    }

    /// Whether standard error is a terminal, where a line can be written over. Unless an implementation knows, it is none.
    fn is_error_terminal(&self) -> bool
        ensures terminal { result ≡ true → may_have_terminal ≡ true }
    {
        false
    }

    /// Why the system did not give the last file, or the input, that was `LoadFault::Io`. Unless an implementation knows, it is unknown.
    fn refusal(&self) -> Refusal {
        Refusal::Unknown
    }
}
