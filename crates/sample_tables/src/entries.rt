//! Samples by the numbers of their stacks, in two flat vectors: twelve bytes a sample.

ghost use Rattle.std.specs.Prelude.{◌≡◌, ◌<◌, ◌≤◌, ◌++◌, ◌-◌, ◌∷◌, [], length, sum_by, take, OnOk, OnErr};
ghost use Rattle.sample_tables.specs.declared.samples.TheConstants.{WEIGHT_LIMIT};
ghost use Rattle.sample_tables.specs.Rows.{entry_at};

use std::alloc::{AllocError, Global};
use std::marker::Model;

/// For each sample the number of its stack, and its weight.
#[derive(Debug, Drop)]
pub struct Entries {
    stacks: Vec<u32>,
    weights: Vec<u64>,
    total: u128,
}

impl Model for Entries {
    ghost use Rattle.std.specs.Prelude.{List};
    ghost use Rattle.sample_tables.specs.Rows.{Entry};
    ghost use Rattle.sample_tables.specs.checked.Entries.{entries_of, AreEntered};

    ghost Value = { List Entry };

    ghost view = { λ e. entries_of e.stacks.items e.weights.items };

    ghost invariant = { λ e. AreEntered e.stacks.items e.weights.items e.total };
}

impl Entries {
    pub fn new(alloc: Global) -> Self
        ensures { result ≡ [] }
    {
        Entries {
            stacks: Vec::new(alloc),
            weights: Vec::new(alloc),
            total: 0,
        }
    }

    pub fn len(&self) -> usize
        ensures { result ≡ length self.now }
    {
        self.weights.len()
    }

    /// The sum of the weights.
    pub fn total(&self) -> u128
        ensures { result ≡ sum_by (λ entry. entry.weight) self.now }
    {
        self.total
    }

    pub fn weight(&self, i: usize) -> u64
        requires { i < length self.now }
        ensures value { result ≡ (entry_at self.now i).weight }
        ensures limit { result ≤ WEIGHT_LIMIT }
    {
        self.weights[i]
    }

    /// The number of the stack of sample `i`.
    pub fn stack(&self, i: usize) -> usize
        requires { i < length self.now }
        ensures { result ≡ (entry_at self.now i).stack }
    {
        self.stacks[i] as usize
    }

    /// Takes a sample. A stack past the 2^32nd is refused as memory is.
    pub fn push(&mut self, stack: usize, weight: u64) -> Result<(), AllocError>
        requires { weight ≤ WEIGHT_LIMIT }
        ensures ok { OnOk result
            (self.new ≡ self.old ++ record { stack = stack; weight = weight } ∷ []) }
        ensures refused { OnErr result (self.new ≡ self.old) }
    {
        if stack > u32::MAX as usize {
            return Err(AllocError);
        }
        self.weights.reserve(1)?;
        self.stacks.push(stack as u32)?;
        self.weights.push_reserved(weight);
        self.total += u128::from(weight);
        Ok(())
    }

    /// Takes the last sample off again.
    pub fn pop(&mut self)
        ensures { self.new ≡ take (length self.old - 1) self.old }
    {
        if let (Some(_), Some(weight)) = (self.stacks.pop(), self.weights.pop()) {
            self.total -= u128::from(weight);
        }
    }
}
