//! The frames beside those of a name.

ghost use Rattle.std.specs.Prelude.{◌≡◌, ◌<◌, ℕ, [], ◌∷◌, List, if◌then◌else◌, All, IfOk, length, map};
ghost use Rattle.std.specs.Str.{bytes_eq};
ghost use Rattle.sample_tables.specs.Rows.{name_at};
ghost use Rattle.function_sums.specs.Calls.{beside, beside_in};

use crate::call_sides::CallSide;
use merged_stacks::MergedStacks;
use std::alloc::{AllocError, Global};

/// The calls of a function, of which one side is looked at.
#[derive(Clone, Copy)]
pub(crate) struct Call<'a> {
    pub(crate) name: &'a str,
    pub(crate) side: CallSide,
}

impl Call<'_> {
    /// The ranks of the frames beside those of the function, of some frames one below the other.
    pub(crate) fn beside(
        &self,
        alloc: Global,
        merged: &MergedStacks,
        ranks: &[u32],
    ) -> Result<Vec<u32>, AllocError>
        requires { All (λ rank. rank < length merged.now.names) ranks.now }
        ensures known { IfOk result (λ found. All (λ rank. rank < length merged.now.names) found.items) }
        ensures names { IfOk result (λ found. map (name_at merged.now.names) found.items
            ≡ beside_in self.now.side self.now.name.now (map (name_at merged.now.names) ranks.now)) }
    {
        let mut found = Vec::new(alloc);
        for at in 1..ranks.len() {
            let (above, below) = (ranks[at - 1], ranks[at]);
            let (named, other) = self.pair(above, below);
            if self.name == merged.name_of(named as usize) {
                found.push(other)?;
            }
        }
        Ok(found)
    }

    /// Of a frame and the one directly below it, the one that has to have the name, and the other.
    fn pair(&self, above: u32, below: u32) -> (u32, u32)
        ensures known { (limit : ℕ) → above < limit → below < limit
            → (result.0 < limit) × (result.1 < limit) }
        ensures other { (name_of : ℕ → List ℕ) (name : List ℕ)
            → beside self.now.side name (name_of above) (name_of below)
            ≡ (if bytes_eq name (name_of result.0) then name_of result.1 ∷ [] else []) }
    {
        match self.side {
            CallSide::Callers => (below, above),
            CallSide::Callees => (above, below),
        }
    }
}
