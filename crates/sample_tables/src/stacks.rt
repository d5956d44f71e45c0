//! Names, and stacks of their numbers, kept in a few flat vectors.

ghost use Rattle.std.specs.Prelude.{◌≡◌, ◌<◌, ◌≤◌, ◌+◌, ◌^◌, ◌++◌, ◌-◌, ◌∷◌, [], ℕ, List, All, length, map, string_bytes, OnOk, OnErr};
ghost use Rattle.std.specs.List.{range_with_len};
ghost use Rattle.sample_tables.specs.declared.samples.TheConstants.{FRAME_LIMIT};
ghost use Rattle.sample_tables.specs.Rows.{name_at, stack_at};
ghost use Rattle.sample_tables.specs.Spans.{stacks_of, AreWithin};
ghost use Rattle.sample_tables.specs.Tables.{IsStack};
ghost use Rattle.sample_tables.specs.checked.Stacks.{with_fresh_stack};

use crate::values::{Names, Text};
use std::alloc::{AllocError, Global};
use std::marker::Model;

/// Where the numbers of a stack lie.
#[derive(Clone, Copy, Debug)]
pub struct Span {
    pub start: usize,
    /// The place behind the last number.
    pub end: usize,
}

/// The numbers of all stacks, and where each stack lies in them. Numbers that no span covers stand for nothing.
#[derive(Debug, Drop)]
pub struct FlatStacks {
    pub frames: Vec<u32>,
    pub spans: Vec<Span>,
}

/// The names and the stacks. Numbers that no span covers stand for nothing.
#[derive(Debug, Drop)]
pub struct Stacks {
    names: Vec<String>,
    frames: Vec<u32>,
    spans: Vec<Span>,
}

impl Model for Stacks {
    ghost use Rattle.std.specs.Prelude.{map, string_bytes};
    ghost use Rattle.sample_tables.specs.Rows.{ToldRows};
    ghost use Rattle.sample_tables.specs.checked.Stacks.{stacks_of, AreSpans};

    ghost Value = { ToldRows };

    ghost view = { λ s. record
        { names = map string_bytes s.names.items; stacks = stacks_of s.frames.items s.spans.items } };

    ghost invariant = { λ s. AreSpans (map string_bytes s.names.items) s.frames.items s.spans.items };
}

impl Stacks {
    pub fn new(alloc: Global) -> Self
        ensures { result ≡ record { names = []; stacks = [] } }
    {
        Stacks {
            names: Vec::new(alloc),
            frames: Vec::new(alloc),
            spans: Vec::new(alloc),
        }
    }

    /// Appends a name, which gets the next number.
    pub fn add_name(&mut self, name: Text) -> Result<(), AllocError>
        ensures ok { OnOk result (self.new
            ≡ record self.old { names = self.old.names ++ name ∷ [] }) }
        ensures refused { OnErr result (self.new ≡ self.old) }
    {
        self.names.push(name.into_plain())?;
        Ok(())
    }

    pub fn name_count(&self) -> usize
        ensures { result ≡ length self.now.names }
    {
        self.names.len()
    }

    pub fn name(&self, k: usize) -> &str
        requires { k < length self.now.names }
        ensures { result.now ≡ name_at self.now.names k }
    {
        self.names[k].as_str()
    }

    pub fn len(&self) -> usize
        ensures count { result ≡ length self.now.stacks }
        ensures stacks { All (IsStack self.now.names) self.now.stacks }
    {
        self.spans.len()
    }

    pub fn stack(&self, k: usize) -> &[u32]
        requires { k < length self.now.stacks }
        ensures value { result.now ≡ stack_at self.now.stacks k }
        ensures stack { IsStack self.now.names (stack_at self.now.stacks k) }
    {
        let span = self.spans[k];
        &self.frames[span.start..span.end]
    }

    /// The stacks alone.
    pub fn into_flat(self) -> FlatStacks
        ensures within { AreWithin result.frames.items result.spans.items }
        ensures stacks { stacks_of result.frames.items result.spans.items ≡ self.stacks }
        ensures known { All (IsStack self.names) self.stacks }
    {
        let Stacks {
            names: _names,
            frames,
            spans,
        } = self;
        FlatStacks { frames, spans }
    }

    /// Appends a stack, which gets the next number. A frame's number past the 2^32nd is refused as memory is.
    pub fn add(&mut self, frames: &[usize]) -> Result<(), AllocError>
        requires { IsStack self.old.names frames.now }
        ensures ok { OnOk result
            (self.new ≡ record self.old { stacks = self.old.stacks ++ frames.now ∷ [] }) }
        ensures refused { OnErr result (self.new ≡ self.old) }
    {
        self.spans.reserve(1)?;
        let start = self.frames.len();
        append_numbers(&mut self.frames, frames)?;
        self.spans.push(Span {
            start,
            end: self.frames.len(),
        })?;
        Ok(())
    }

    /// Appends names, and the stack of their numbers: all or nothing. A name past the 2^32nd is refused as memory is.
    pub fn add_fresh(&mut self, stack: Names) -> Result<(), AllocError>
        requires { length stack ≤ FRAME_LIMIT }
        ensures ok { OnOk result (self.new ≡ with_fresh_stack self.old stack) }
        ensures refused { OnErr result (self.new ≡ self.old) }
    {
        self.take_fresh(&mut stack.into_plain())
    }

    // As `add_fresh`, of the names of a vector.
    fn take_fresh(&mut self, names: &mut Vec<String>) -> Result<(), AllocError>
        requires { length names.old.items ≤ FRAME_LIMIT }
        ensures ok { OnOk result
            (self.new ≡ with_fresh_stack self.old (map string_bytes names.old.items)) }
        ensures refused { OnErr result (self.new ≡ self.old) }
    {
        let depth = names.len();
        self.names.reserve(depth)?;
        self.frames.reserve(depth)?;
        self.spans.reserve(1)?;
        let first = self.names.len();
        let start = self.frames.len();
        number_next(&mut self.frames, first, depth)?;
        self.names.append(names)?;
        self.spans.push(Span {
            start,
            end: self.frames.len(),
        })?;
        Ok(())
    }
}

/// Appends numbers. One past the 2^32nd is refused as memory is, and some of them may be left behind then.
fn append_numbers(frames: &mut Vec<u32>, numbers: &[usize]) -> Result<(), AllocError>
    ensures ok { OnOk result (frames.new.items ≡ frames.old.items ++ numbers.now) }
    ensures begins { (more : List ℕ) × (frames.new.items ≡ frames.old.items ++ more) }
{
    frames.reserve(numbers.len())?;
    for number in numbers {
        frames.push(u32::try_from(*number).map_err(|_| AllocError)?)?;
    }
    Ok(())
}

/// Appends the numbers from `from` up to `to`. Want of memory may leave some of them behind.
fn number(frames: &mut Vec<u32>, from: u32, to: u32) -> Result<(), AllocError>
    ensures ok { OnOk result (frames.new.items
        ≡ frames.old.items ++ range_with_len from (to - from)) }
    ensures begins { (more : List ℕ) × (frames.new.items ≡ frames.old.items ++ more) }
{
    frames.extend(from..to)
}

/// Appends so many numbers, from `first` on. One past the 2^32nd is refused as memory is, and some of them may be
/// left behind then.
fn number_next(frames: &mut Vec<u32>, first: usize, count: usize) -> Result<(), AllocError>
    requires { first + count < 2 ^ 64 }
    ensures ok { OnOk result (frames.new.items
        ≡ frames.old.items ++ range_with_len first count) }
    ensures begins { (more : List ℕ) × (frames.new.items ≡ frames.old.items ++ more) }
{
    let past = first + count;
    if past > u32::MAX as usize {
        return Err(AllocError);
    }
    number(frames, first as u32, past as u32)
}
