//! Stacks by number, known again by the bytes of a folded head.

ghost use Rattle.std.specs.Prelude.{◌≡◌, ◌<◌, ◌^◌, ◌++◌, ◌∷◌, [], ℕ, List, length, IsTrue, IfSome, IfOk, OnOk, OnErr};
ghost use Rattle.sample_tables.specs.Rows.{name_at, stack_at};
ghost use Rattle.folded_lines.specs.checked.KnownStacks.{AreKnown, IsRowOf, IsSpelled, IsSpelledAt};

use call_tree::FrameTable;
use call_tree::slots::{PROBES, put, slot_of};
use std::alloc::{AllocError, Global};
use std::marker::Model;

/// Where the numbers of a stack begin, how many there are, and the hash of the head that it was remembered by.
#[derive(Clone, Copy)]
struct KnownRow {
    start: usize,
    len: u32,
    hash: u32,
}

/// How many slots there are at first.
const FIRST_SLOTS: usize = 1024;

/// The stacks that were told, by number. One is found by the bytes of a head, of which no copy is kept: the names are compared where
/// they are, in a table that the caller holds. It takes 4 bytes for each name of a stack, and 24 to 32 for the stack.
/// It may forget, since it looks for a stack in a few slots only. A name is text, so a head that is not UTF-8 is found as its text.
#[derive(Drop)]
pub(crate) struct KnownStacks {
    alloc: Global,
    /// The numbers of all stacks. Those that no row covers stand for nothing.
    numbers: Vec<u32>,
    rows: Vec<KnownRow>,
    /// In each the number of a row, from 1, or 0.
    slots: Vec<u32>,
}

impl Model for KnownStacks {
    ghost use Rattle.std.specs.Prelude.{ℕ, List};
    ghost use Rattle.folded_lines.specs.checked.KnownStacks.{stacks_of, AreWithin};

    ghost Value = { List (List ℕ) };

    ghost view = { λ known. stacks_of known.numbers.items known.rows.items };

    ghost invariant = { λ known. AreWithin known.numbers.items known.rows.items };
}

/// What follows the name of a number, where bytes begin with it.
fn after_name<'a>(names: &FrameTable, number: usize, bytes: &'a [u8]) -> Option<&'a [u8]>
    ensures known { IfSome result (λ _. number < length names.now) }
    ensures rest { IfSome result (λ rest. bytes.now ≡ name_at names.now number ++ rest.now) }
{
    if number >= names.len() {
        return None;
    }
    bytes.strip_prefix(names.name(number).as_bytes())
}

/// What follows the names of these numbers, joined by `;`, where a head begins with them.
fn after_names<'a>(names: &FrameTable, numbers: &[u32], head: &'a [u8]) -> Option<&'a [u8]>
    ensures { IfSome result (λ rest. (front : List ℕ)
        × IsSpelled names.now numbers.now front × (head.now ≡ front ++ rest.now)) }
{
    let mut rest = head;
    for (index, number) in numbers.iter().enumerate() {
        if index > 0 {
            rest = rest.strip_prefix(b";")?;
        }
        rest = after_name(names, *number as usize, rest)?;
    }
    Some(rest)
}

/// Whether a head is the names of these numbers, joined by `;`.
fn spells(names: &FrameTable, numbers: &[u32], head: &[u8]) -> bool
    ensures { IsTrue result → IsSpelled names.now numbers.now head.now }
{
    match after_names(names, numbers, head) {
        Some(rest) => rest.is_empty(),
        None => false,
    }
}

impl KnownStacks {
    /// No stack is known. It takes no memory before the first.
    pub(crate) fn new(alloc: Global) -> KnownStacks
        ensures { result ≡ [] }
    {
        KnownStacks {
            alloc,
            numbers: Vec::new(alloc),
            rows: Vec::new(alloc),
            slots: Vec::new(alloc),
        }
    }

    /// How many stacks are known.
    pub(crate) fn len(&self) -> usize
        ensures { result ≡ length self.now }
    {
        self.rows.len()
    }

    /// The numbers of the stack of a row.
    pub(crate) fn numbers(&self, row: usize) -> &[u32]
        requires { row < length self.now }
        ensures { result.now ≡ stack_at self.now row }
    {
        let known = self.rows[row];
        &self.numbers[known.start..known.start + known.len as usize]
    }

    /// Whether a head is the names of a row's stack.
    fn is_at(&self, names: &FrameTable, head: &[u8], row: usize) -> bool
        ensures { IsTrue result → IsSpelledAt names.now self.now head.now row }
    {
        row < self.len() && spells(names, self.numbers(row), head)
    }

    /// The row whose stack's names a head is.
    fn row_of(&self, names: &FrameTable, head: &[u8], hash: u32) -> Option<usize>
        ensures { IfSome result (IsSpelledAt names.now self.now head.now) }
    {
        for probe in 0..PROBES {
            let number = *self.slots.get(slot_of(hash, probe, self.slots.len()))?;
            let row = (number as usize).checked_sub(1)?;
            if self.rows.get(row)?.hash == hash && self.is_at(names, head, row) {
                return Some(row);
            }
        }
        None
    }

    /// The row of the stack whose names, joined by `;`, are these bytes: those of a head without a `;` at its end, and their hash. `None`
    /// says nothing.
    pub(crate) fn find(&self, names: &FrameTable, head: &[u8], hash: u32) -> Option<usize>
        requires { AreKnown names.now self.now }
        ensures { IfSome result (λ row. IsRowOf names.now self.now row head.now) }
    {
        self.row_of(names, head, hash)
    }

    /// Remembers the stack of a head, by the hash of the head, as the next row. A number past the 2^32nd is refused as memory is.
    pub(crate) fn remember(&mut self, hash: u32, frames: &[usize]) -> Result<(), AllocError>
        ensures ok { OnOk result (self.new ≡ self.old ++ frames.now ∷ []) }
        ensures err { OnErr result (self.new ≡ self.old) }
    {
        let len = small_number(frames.len())?;
        let number = small_number(self.rows.len() + 1)?;
        make_room(self.alloc, &mut self.slots, self.rows.as_slice())?;
        self.rows.reserve(1)?;
        let start = self.numbers.len();
        append_numbers(&mut self.numbers, frames)?;
        self.rows.push(KnownRow { start, len, hash })?;
        put(self.slots.as_mut_slice(), hash, number);
        Ok(())
    }
}

/// A number past the 2^32nd is refused as memory is.
fn small_number(number: usize) -> Result<u32, AllocError>
    ensures { IfOk result (λ small. small ≡ number) }
{
    u32::try_from(number).map_err(|_| AllocError)
}

/// Appends numbers. One past the 2^32nd is refused as memory is, and some of them may be left behind then.
fn append_numbers(numbers: &mut Vec<u32>, frames: &[usize]) -> Result<(), AllocError>
    ensures ok { OnOk result (numbers.new.items ≡ numbers.old.items ++ frames.now) }
    ensures begins { (more : List ℕ) × (numbers.new.items ≡ numbers.old.items ++ more) }
{
    numbers.reserve(frames.len())?;
    for frame in frames {
        numbers.push(small_number(*frame)?)?;
    }
    Ok(())
}

/// Makes room for one row more: there are twice as many slots as rows, or more.
fn make_room(alloc: Global, slots: &mut Vec<u32>, rows: &[KnownRow]) -> Result<(), AllocError>
    requires { length rows.now < 2 ^ 32 }
{
    if rows.len() * 2 < slots.len() {
        return Ok(());
    }
    let len = slots.len().saturating_mul(2).max(FIRST_SLOTS);
    let mut more = vec![in alloc; 0; len]?;
    for index in 0..rows.len() {
        put(more.as_mut_slice(), rows[index].hash, index as u32 + 1);
    }
    *slots = more;
    Ok(())
}
