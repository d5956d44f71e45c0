//! What a reader of a stream told, and the line of a head that it meets.

ghost use Rattle.std.specs.Prelude.{◌≡◌, ◌<◌, ◌≤◌, ◌==◌, ◌&&◌, ℕ, List, [], None, length, IfOk, IfSome, MatchOption, OnErr};
ghost use Rattle.sample_tables.specs.Rows.{name_at};
ghost use Rattle.stack_core.specs.Prefixes.{IsPrefixOf};
ghost use Rattle.folded_lines.specs.Lines.{names_of};
ghost use Rattle.folded_lines.specs.Reading.{begins_compressed};
ghost use Rattle.folded_lines.specs.checked.KnownStacks.{IsMet, IsRowOf};
ghost use Rattle.folded_lines.specs.checked.Scanning.{within_total, IsWithin};
ghost use Rattle.folded_lines.specs.checked.Sharing.{IsNamedBy};
ghost use Rattle.folded_lines.specs.checked.Telling.{head_fault, IsToldAs};
ghost use Rattle.folded_lines.specs.checked.RowLines.{line_of_head, line_of_stack, line_by, TellsLine};
ghost use Rattle.folded_lines.specs.checked.StreamReading.{line_at};

use crate::cursor::Cursor;
use crate::known_stacks::KnownStacks;
use crate::names::without_trailing_semicolons;
use crate::numbering::{new_stack, text_of};
use crate::row_lines::{Count, RowLine, count_of, fault_of};
use crate::shared_names::NumberedHead;
use call_tree::FrameTable;
use call_tree::spelling_hash::hash_of;
use stack_core::{ReadKind, WEIGHT_LIMIT};
use std::alloc::{AllocError, Global};
use std::marker::Model;

/// The names and stacks that were told. Of the lines no byte is kept but one head: a stack is known by its names.
#[derive(Drop)]
pub(crate) struct StreamTelling {
    names: FrameTable,
    stacks: KnownStacks,
    /// The numbers of the stack that was told last.
    frames: Vec<usize>,
    /// The head of the line before, or of one before that, and its row: many samples have the stack of the sample before, and others begin
    /// with its names.
    head: Vec<u8>,
    row: Option<usize>,
}

impl Model for StreamTelling {
    ghost use Rattle.sample_tables.specs.Rows.{ToldRows};
    ghost use Rattle.folded_lines.specs.checked.KnownStacks.{AreKnown, IsMet};

    ghost Value = { ToldRows };

    ghost view = { λ telling. record { names = telling.names; stacks = telling.stacks } };

    ghost invariant = { λ telling. AreKnown telling.names telling.stacks
        × IsMet telling.names telling.stacks telling.head.items telling.row };
}

/// Whether the bytes begin as gzip does.
fn begins_compressed(bytes: &[u8]) -> bool
    ensures { result ≡ begins_compressed bytes.now }
{
    bytes.first() == Some(&0x1f) && bytes.get(1) == Some(&0x8b)
}

/// The head that is kept, with the numbers of its row, or nothing.
fn last_head<'a>(stacks: &'a KnownStacks, head: &'a [u8], row: Option<usize>) -> NumberedHead<'a>
    requires { IfSome row (λ row. row < length stacks.now) }
    ensures { (names : List (List ℕ)) → IsMet names stacks.now head.now row
        → IsNamedBy names result.head.now result.numbers.now }
{
    match row {
        None => NumberedHead {
            head: &[],
            numbers: &[],
        },
        Some(row) => NumberedHead {
            head,
            numbers: stacks.numbers(row),
        },
    }
}

impl StreamTelling {
    /// Nothing was told. It takes no memory.
    pub(crate) fn new(alloc: Global) -> StreamTelling
        ensures { result ≡ record { names = []; stacks = [] } }
    {
        StreamTelling {
            names: FrameTable::new(alloc),
            stacks: KnownStacks::new(alloc),
            frames: Vec::new(alloc),
            head: Vec::new(alloc),
            row: None,
        }
    }

    /// The name of this number, if there is one.
    pub(crate) fn name(&self, number: usize) -> Option<&str>
        ensures { MatchOption result (length self.now.names ≤ number)
            (λ name. name.now ≡ name_at self.now.names number) }
    {
        if number < self.names.len() {
            Some(self.names.name(number))
        } else {
            None
        }
    }

    /// The row of a head that is the same as the one that is kept. It has no fault.
    fn row_again(&self, head: &[u8]) -> Option<usize>
        ensures { IfSome result (IsToldAs self.now head.now) }
    {
        if self.head.as_slice() == head {
            self.row
        } else {
            None
        }
    }

    /// The row of a head's stack, where it is known.
    fn row_of(&self, head: &[u8], hash: u32) -> Option<usize>
        ensures { IfSome result (λ row. IsRowOf self.now.names self.now.stacks row head.now) }
    {
        self.stacks
            .find(&self.names, without_trailing_semicolons(head), hash)
    }

    /// Keeps a head without fault, and its row. Where memory is wanting it keeps none.
    fn keep(&mut self, head: &[u8], row: usize)
        requires row { IsRowOf self.old.names self.old.stacks row head.now }
        requires faultless { head_fault head.now ≡ None }
        ensures { self.new ≡ self.old }
    {
        self.row = None;
        self.head.clear();
        if self.head.extend_from_slice(head).is_ok() {
            self.row = Some(row);
        }
    }

    /// Tells the stack of a head, with a weight, and remembers it by the hash of a text that has its names. The head is kept.
    fn tell(
        &mut self,
        alloc: Global,
        head: &[u8],
        text: &[u8],
        hash: u32,
        weight: u64,
    ) -> Result<RowLine, AllocError>
        requires faultless { head_fault head.now ≡ None }
        requires same { names_of text.now ≡ names_of head.now }
        ensures line { IfOk result (λ line.
            line_by self.new line ≡ line_of_stack (names_of head.now) weight) }
        ensures tells { IfOk result (λ line. TellsLine self.old line self.new) }
        ensures stacks { OnErr result (self.new.stacks ≡ self.old.stacks) }
        ensures names { OnErr result (IsPrefixOf self.old.names self.new.names) }
    {
        let last = last_head(&self.stacks, &self.head, self.row);
        let stack = new_stack(alloc, &mut self.names, &mut self.frames, last, text)?;
        let row = self.stacks.len();
        self.stacks.remember(hash, stack.frames.get())?;
        self.keep(head, row);
        Ok(RowLine::New {
            names: stack.names,
            frames: stack.frames,
            weight,
        })
    }

    /// The line of a head without fault that its bytes did not find, and a weight. A stack is known by names, which are text: so a head
    /// that is not UTF-8 is looked for as text.
    fn read_unfound(
        &mut self,
        alloc: Global,
        head: &[u8],
        hash: u32,
        weight: u64,
    ) -> Result<RowLine, AllocError>
        requires { head_fault head.now ≡ None }
        ensures line { IfOk result (λ line.
            line_by self.new line ≡ line_of_stack (names_of head.now) weight) }
        ensures tells { IfOk result (λ line. TellsLine self.old line self.new) }
        ensures stacks { OnErr result (self.new.stacks ≡ self.old.stacks) }
        ensures names { OnErr result (IsPrefixOf self.old.names self.new.names) }
    {
        let Some(text) = text_of(alloc, head)? else {
            return self.tell(alloc, head, head, hash, weight);
        };
        let hash = hash_of(text.as_bytes());
        if let Some(row) = self.row_of(text.as_bytes(), hash) {
            self.keep(head, row);
            return Ok(RowLine::Again { row, weight });
        }
        self.tell(alloc, head, text.as_bytes(), hash, weight)
    }

    /// The line of a head and a weight, after weights that add up to the total. A fault of the head is looked for before its stack, since
    /// a head may have the names of another that has no fault.
    fn read_head(
        &mut self,
        alloc: Global,
        head: &[u8],
        weight: u64,
        total: u64,
    ) -> Result<RowLine, AllocError>
        requires { total ≤ WEIGHT_LIMIT }
        ensures line { IfOk result (λ line.
            line_by self.new line ≡ within_total total (line_of_head head.now weight)) }
        ensures within { IfOk result (λ line. IsWithin total (line_by self.new line)) }
        ensures tells { IfOk result (λ line. TellsLine self.old line self.new) }
        ensures stacks { OnErr result (self.new.stacks ≡ self.old.stacks) }
        ensures names { OnErr result (IsPrefixOf self.old.names self.new.names) }
    {
        let again = self.row_again(head);
        if again.is_none()
            && let Some(kind) = fault_of(head)
        {
            return Ok(RowLine::Fault(kind));
        }
        if weight > WEIGHT_LIMIT - total {
            return Ok(RowLine::Fault(ReadKind::TotalTooLarge));
        }
        if let Some(row) = again {
            return Ok(RowLine::Again { row, weight });
        }
        let hash = hash_of(without_trailing_semicolons(head));
        if let Some(row) = self.row_of(head, hash) {
            self.keep(head, row);
            return Ok(RowLine::Again { row, weight });
        }
        self.read_unfound(alloc, head, hash, weight)
    }

    /// Reads the line at a place. The first line tells whether the bytes are compressed.
    pub(crate) fn read_line(
        &mut self,
        alloc: Global,
        line: &[u8],
        counts: Cursor,
    ) -> Result<RowLine, AllocError>
        requires { counts.total ≤ WEIGHT_LIMIT }
        ensures line { IfOk result (λ read. line_by self.new read ≡ line_at counts line.now) }
        ensures within { IfOk result (λ read. IsWithin counts.total (line_by self.new read)) }
        ensures tells { IfOk result (λ read. TellsLine self.old read self.new) }
        ensures stacks { OnErr result (self.new.stacks ≡ self.old.stacks) }
        ensures names { OnErr result (IsPrefixOf self.old.names self.new.names) }
    {
        if counts.taken == 0 && begins_compressed(line) {
            return Ok(RowLine::Fault(ReadKind::Compressed));
        }
        match count_of(line) {
            Count::Ignored => Ok(RowLine::Ignored),
            Count::Fault(kind) => Ok(RowLine::Fault(kind)),
            Count::Weight { head, weight } => {
                self.read_head(alloc, &line[..head], weight, counts.total)
            }
        }
    }
}
