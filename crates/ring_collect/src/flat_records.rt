//! Records kept flat, so that a batch of them costs a few allocations, whatever is in it.

ghost use Rattle.std.specs.Prelude.{◌≡◌, ◌≤◌, ◌==◌, ◌++◌, ◌∷◌, [], IfOk, OnErr, OnOk, length};
ghost use Rattle.sample_tables.specs.declared.samples.TheConstants.{FRAME_LIMIT};
ghost use Rattle.ring_collect.specs.checked.Rings.{IsGathered};

use stack_core::{RingRecord, Text};
use std::alloc::{AllocError, Global};
use std::marker::Model;
use std::vec::IntoIter;

/// A record, but for its name or its frames.
#[derive(Clone, Copy)]
pub enum Step {
    /// The next of the names.
    Name,
    /// A row, of so many of the next frames.
    Row { depth: u32, weight: u64 },
    /// The row of this number again.
    Again { row: u32, weight: u64 },
}

const _: () = prove!(size_of::<Step>() == 16);

/// Names, rows and rows told again, in their order. The names are moved in, and the frames of the rows lie end to end.
#[derive(Drop)]
pub struct FlatRecords {
    pub(crate) steps: Vec<Step>,
    pub(crate) names: Vec<Text>,
    pub(crate) frames: Vec<usize>,
}

impl Model for FlatRecords {
    ghost use Rattle.std.specs.Prelude.{List};
    ghost use Rattle.stack_core.specs.declared.records.RingRecord.{RingRecord};

    ghost Value = { List RingRecord };

    ghost use Rattle.ring_collect.specs.checked.FlatRecords.{records_by, FitTogether};

    ghost view = { λ flat. records_by flat.steps.items flat.names.items flat.frames.items };

    ghost invariant = { λ flat. FitTogether flat.steps.items flat.names.items flat.frames.items };
}

impl FlatRecords {
    /// No records. It takes no memory.
    pub fn new(alloc: Global) -> Self
        ensures { result ≡ [] }
    {
        FlatRecords {
            steps: Vec::new(alloc),
            names: Vec::new(alloc),
            frames: Vec::new(alloc),
        }
    }

    /// No records, with room for so many, but for their names and frames.
    pub fn with_capacity(alloc: Global, count: usize) -> Result<Self, AllocError>
        ensures { IfOk result (λ records. records ≡ []) }
    {
        Ok(FlatRecords {
            steps: Vec::with_capacity(alloc, count)?,
            names: Vec::new(alloc),
            frames: Vec::new(alloc),
        })
    }

    /// How many records there are.
    pub fn len(&self) -> usize
        ensures { result ≡ length self.now }
    {
        self.steps.len()
    }

    pub fn is_empty(&self) -> bool
        ensures { result ≡ (length self.now == 0) }
    {
        self.steps.is_empty()
    }

    /// Appends a record. The number of a row past the 2^32nd is refused as memory is, which changes nothing.
    pub fn push(&mut self, item: RingRecord) -> Result<(), AllocError>
        requires { IsGathered item }
        ensures ok { OnOk result (self.new ≡ self.old ++ item ∷ []) }
        ensures refused { OnErr result (self.new ≡ self.old) }
    {
        match item {
            RingRecord::Name(name) => self.push_name(name),
            RingRecord::Row { frames, weight } => self.push_row(frames.get(), weight),
            RingRecord::Again { row, weight } => self.push_again(row, weight),
            RingRecord::Close(_) => unreachable!(),
        }
    }

    fn push_name(&mut self, name: Text) -> Result<(), AllocError>
        ensures ok { OnOk result (self.new ≡ self.old ++ RingRecord.Name name ∷ []) }
        ensures refused { OnErr result (self.new ≡ self.old) }
    {
        self.steps.reserve(1)?;
        self.names.push(name)?;
        self.steps.push(Step::Name)?;
        Ok(())
    }

    fn push_row(&mut self, frames: &[usize], weight: u64) -> Result<(), AllocError>
        requires { length frames.now ≤ FRAME_LIMIT }
        ensures ok { OnOk result (self.new ≡ self.old ++ RingRecord.Row frames.now weight ∷ []) }
        ensures refused { OnErr result (self.new ≡ self.old) }
    {
        let depth = frames.len() as u32;
        self.steps.reserve(1)?;
        self.frames.extend_from_slice(frames)?;
        self.steps.push(Step::Row { depth, weight })?;
        Ok(())
    }

    fn push_again(&mut self, row: usize, weight: u64) -> Result<(), AllocError>
        ensures ok { OnOk result (self.new ≡ self.old ++ RingRecord.Again row weight ∷ []) }
        ensures refused { OnErr result (self.new ≡ self.old) }
    {
        let row = u32::try_from(row).map_err(|_| AllocError)?;
        self.steps.push(Step::Again { row, weight })?;
        Ok(())
    }
}

/// The names and the frames of the steps that are still to come.
#[derive(Drop)]
pub struct Unread<'a> {
    pub names: IntoIter<Text>,
    pub frames: &'a [usize],
}

impl<'a> Unread<'a> {
    ghost use Rattle.std.specs.Prelude.{◌≡◌, ◌≤◌, ◌∷◌, drop, length, take};
    ghost use Rattle.std.specs.Vec.Iter.{into_iter_items};

    /// The next name.
    pub fn next_name(&mut self) -> Text
        requires { 1 ≤ length (into_iter_items self.old.names) }
        ensures names { into_iter_items self.old.names ≡ result ∷ into_iter_items self.new.names }
        ensures frames { self.new.frames.now ≡ self.old.frames.now }
    {
        let Some(name) = self.names.next() else {
            unreachable!()
        };
        name
    }

    /// The frames of a row of this depth.
    pub fn next_frames(&mut self, depth: u32) -> &'a [usize]
        requires { depth ≤ length self.old.frames.now }
        ensures row { result.now ≡ take depth self.old.frames.now }
        ensures frames { self.new.frames.now ≡ drop depth self.old.frames.now }
        ensures names { into_iter_items self.new.names ≡ into_iter_items self.old.names }
    {
        let (row, behind) = self.frames.split_at(depth as usize);
        self.frames = behind;
        row
    }
}
