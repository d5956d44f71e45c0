//! Texts that are made piece by piece.
ghost use Rattle.std.specs.Prelude.{◌≡◌, ◌<◌, ◌≤◌, ◌^◌, ◌++◌, [], ◌∷◌, ℕ, List, OnOk, IfOk, length, slice_index_or, slice_range};
ghost use Rattle.std.specs.List.{concat};
ghost use Rattle.std.specs.Io.{StartsWith};

use std::alloc::{AllocError, Global};

/// A text that is made piece by piece, so that it need not be in memory as a whole.
pub trait Pieces {
    // The pieces in their order. The text is what they are one after another.
    ghost pieces: { Self → List (List ℕ) };

    /// How many pieces there are.
    fn count(&self) -> usize
        requires { length (pieces self.now) < 2 ^ 64 }
        ensures { result ≡ length (pieces self.now) };

    /// Appends the piece of a number, from 0. An `Err` may leave a part of it.
    fn append_piece(&self, alloc: Global, at: usize, out: &mut Vec<u8>) -> Result<(), AllocError>
        requires few { length (pieces self.now) < 2 ^ 64 }
        requires there { at < length (pieces self.now) }
        ensures ok { OnOk result
            (out.new.items ≡ out.old.items ++ slice_index_or (pieces self.now) at []) }
        ensures front { StartsWith out.new.items out.old.items };

    /// Appends the piece of a number and perhaps some that follow it, and answers the number of the next one. A
    /// text that needs the same work for each of its pieces can do it once for these. An `Err` may leave a
    /// part of them.
    fn append_some(&self, alloc: Global, at: usize, out: &mut Vec<u8>) -> Result<usize, AllocError>
        requires few { length (pieces self.now) < 2 ^ 64 }
        requires there { at < length (pieces self.now) }
        ensures ok { IfOk result (λ next. out.new.items
            ≡ out.old.items ++ concat (slice_range (pieces self.now) at next)) }
        ensures further { IfOk result (λ next. at < next) }
        ensures within { IfOk result (λ next. next ≤ length (pieces self.now)) }
        ensures front { StartsWith out.new.items out.old.items }
    {
        self.append_piece(alloc, at, out)?;
        Ok(at + 1)
    }
}

/// Some bytes, as one piece.
#[derive(Clone, Copy, Debug)]
pub struct Literal<'a> {
    pub bytes: &'a [u8],
}

impl Pieces for Literal<'_> {
    ghost pieces = { λ literal. literal.bytes.now ∷ [] };

    fn count(&self) -> usize {
        1
    }

    fn append_piece(
        &self,
        _alloc: Global,
        _at: usize,
        out: &mut Vec<u8>,
    ) -> Result<(), AllocError> {
        out.extend_from_slice(self.bytes)
    }
}

/// A text and then another.
#[derive(Clone, Copy, Debug, Drop)]
pub struct Chain<A, B> {
    pub first: A,
    pub then: B,
}

impl<A: Pieces, B: Pieces> Pieces for Chain<A, B> {
    ghost pieces = { λ chain. A.pieces chain.first ++ B.pieces chain.then };

    fn count(&self) -> usize {
        self.first.count() + self.then.count()
    }

    fn append_piece(&self, alloc: Global, at: usize, out: &mut Vec<u8>) -> Result<(), AllocError> {
        let turn = self.first.count();
        if at < turn {
            self.first.append_piece(alloc, at, out)
        } else {
            self.then.append_piece(alloc, at - turn, out)
        }
    }

    /// Those of one of the texts alone.
    fn append_some(
        &self,
        alloc: Global,
        at: usize,
        out: &mut Vec<u8>,
    ) -> Result<usize, AllocError> {
        let turn = self.first.count();
        if at < turn {
            return self.first.append_some(alloc, at, out);
        }
        let next = self.then.append_some(alloc, at - turn, out)?;
        Ok(turn + next)
    }
}
