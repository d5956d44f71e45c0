//! Rows to which others come, of which many have the ranks of one that is there.

ghost use Rattle.std.specs.Prelude.{◌≡◌, ◌<◌, [], All, IfOk, IsTrue, OnOk, length, map, slice_index};
ghost use Rattle.ranked_rows.specs.Gathering.{HasRanks, IsGathered};

use crate::rows::{RankedRows, append_ranks};
use sample_tables::NumberCache;
use std::alloc::{AllocError, Global};
use std::hash::{FoldHasher, Hasher};
use std::marker::Model;

/// Rows to which others come. Where there is room to remember rows, one that comes again is added to the one that is there, as far as that
/// is remembered, so that less is left to sort. Contracts see the rows.
#[derive(Drop)]
pub struct GatheredRows {
    rows: RankedRows,
    /// The ranks of the row that comes.
    next: Vec<u32>,
    known: NumberCache,
    looks_up: bool,
}

impl Model for GatheredRows {
    ghost use Rattle.std.specs.Prelude.{ℕ, List};

    ghost Value = { List (List ℕ × ℕ) };

    ghost view = { λ gathered. gathered.rows };
}

impl GatheredRows {
    /// No rows, and room to remember so many. Without room it takes no memory, and each row that comes stands behind the others.
    pub fn with_room(alloc: Global, room: usize) -> Result<GatheredRows, AllocError>
        ensures { IfOk result (λ gathered. gathered ≡ []) }
    {
        let looks_up = room > 0;
        let known = if looks_up {
            NumberCache::with_room(alloc, room)?
        } else {
            NumberCache::new(alloc)
        };
        Ok(GatheredRows {
            rows: RankedRows::new(alloc),
            next: Vec::new(alloc),
            known,
            looks_up,
        })
    }

    /// Takes rows in the place of none.
    pub fn begin(&mut self, rows: RankedRows)
        requires { self.old ≡ [] }
        ensures { self.new ≡ rows }
    {
        if self.looks_up {
            for at in 0..rows.len() {
                self.known.remember(hash_of(rows.ranks(at)), at);
            }
        }
        self.rows = rows;
    }

    /// A row comes: the ranks of the numbers, and the weight.
    pub fn add(&mut self, numbers: &[u32], ranks: &[u32], weight: u64) -> Result<(), AllocError>
        requires { All (λ number. number < length ranks.now) numbers.now }
        ensures { OnOk result (IsGathered (map (slice_index ranks.now) numbers.now, weight) self.old self.new) }
    {
        if !self.looks_up {
            return self.rows.push(numbers, ranks, weight);
        }
        self.next.clear();
        append_ranks(&mut self.next, numbers, ranks)?;
        let hash = hash_of(&self.next);
        let (rows, next) = (&self.rows, self.next.as_slice());
        let found = self.known.find(hash, |at| has_ranks(rows, at, next));
        if let Some(at) = found
            && self.rows.add_to(at, weight)
        {
            return Ok(());
        }
        self.known.remember(hash, self.rows.len());
        self.rows.push(numbers, ranks, weight)
    }

    /// How many rows there are.
    pub fn len(&self) -> usize
        ensures { result ≡ length self.now }
    {
        self.rows.len()
    }

    /// The rows alone.
    pub fn into_rows(self) -> RankedRows
        ensures { result ≡ self }
    {
        self.rows
    }
}

/// Whether the row at a place has these ranks.
fn has_ranks(rows: &RankedRows, at: usize, ranks: &[u32]) -> bool
    ensures { IsTrue result → HasRanks ranks.now rows.now at }
{
    at < rows.len() && rows.ranks(at) == ranks
}

fn hash_of(ranks: &[u32]) -> u64 {
    let mut hasher = FoldHasher::default();
    for rank in ranks {
        hasher.write_u32(*rank);
    }
    hasher.finish()
}
