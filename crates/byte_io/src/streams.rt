//! Where a run gets its streams: named files and the input, each as an inlet.
ghost use Rattle.std.specs.Prelude.{◌≡◌, ◌≢◌, ◌<◌, ◌^◌, ℕ, List, Option, Some, Err, Bool, true, false, length, IfOk, IfSome, IsSome, IsSomeAnd};

use crate::inlet::Inlet;
use crate::whole_input::LoadFault;
use std::alloc::Global;

/// Where a run gets its streams. A stream is opened, and its bytes are read as they come.
pub trait Streams {
    /// An opened stream.
    type Inlet: Inlet + Send + Drop + 'static;

    // The bytes of the input, where they are known: over memory, and not over the machine.
    ghost known_input: { Self → Option (List ℕ) };

    // The bytes of the file of a path, where they are known.
    ghost known_file: { Self → List ℕ → Option (List ℕ) };

    // Whether it is known that there is no file of a path.
    ghost is_absent: { Self → List ℕ → Bool } = { λ _ _. false };

    // Whether the input may be a terminal: the machine's may.
    ghost may_have_terminal: { Bool } = { false };

    /// The file of that path, from its first byte. A file that can't be opened is `LoadFault::Io`, or where to open it may wait, a read
    /// that fails.
    fn open_named(&mut self, alloc: Global, path: &str) -> Result<Self::Inlet, LoadFault>
        ensures bytes { IfOk result (λ inlet.
            IfSome (known_file self.old path.now) (λ known. Self.Inlet.remaining inlet ≡ Some known)) }
        ensures small { IfOk result (λ inlet. Self.Inlet.is_sure inlet ≡ true →
            IsSomeAnd (Self.Inlet.remaining inlet) (λ bytes. length bytes < 2 ^ 64)) }
        ensures absent { is_absent self.old path.now ≡ true → result ≡ Err LoadFault.Io }
        ensures present { IsSome (known_file self.old path.now) → result ≢ Err LoadFault.Io }
        ensures any_length { result ≢ Err LoadFault.TooLarge }
        ensures input { known_input self.new ≡ known_input self.old }
        ensures files { known_file self.new ≡ known_file self.old }
        ensures absences { is_absent self.new ≡ is_absent self.old };

    /// The input, from where it stands.
    fn open_input(&mut self, alloc: Global) -> Result<Self::Inlet, LoadFault>
        ensures bytes { IfOk result (λ inlet.
            IfSome (known_input self.old) (λ known. Self.Inlet.remaining inlet ≡ Some known)) }
        ensures small { IfOk result (λ inlet. Self.Inlet.is_sure inlet ≡ true →
            IsSomeAnd (Self.Inlet.remaining inlet) (λ bytes. length bytes < 2 ^ 64)) }
        ensures present { IsSome (known_input self.old) → result ≢ Err LoadFault.Io }
        ensures any_length { result ≢ Err LoadFault.TooLarge }
        ensures input { known_input self.new ≡ known_input self.old }
        ensures files { known_file self.new ≡ known_file self.old }
        ensures absences { is_absent self.new ≡ is_absent self.old };

    /// Whether the input is a terminal, where someone has to type it. Unless an implementation knows, it is none.
    fn is_input_terminal(&self) -> bool
        ensures terminal { result ≡ true → may_have_terminal ≡ true }
    {
        false
    }
}
