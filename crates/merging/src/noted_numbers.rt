//! The numbers that the names of a source had, so that a name that comes again isn't hashed.

ghost use Rattle.std.specs.Prelude.{◌≡◌, ◌↔◌, ◌<◌, [], IsTrue, Some, IfOk, OnErr, OnOk, length, slice_get, slice_index_or};
ghost use Rattle.call_tree.specs.FrameTable.{HasDistinctNames, with_name};

use call_tree::FrameTable;
use std::alloc::{AllocError, Global};

/// How many sources have notes of their own, which are all that a run may have. Others share theirs, and names are hashed more often.
const SOURCES: usize = 64;

/// Numbers by notes. A note may be wrong, so who reads it compares the name.
#[derive(Drop)]
pub struct NotedNumbers {
    sources: Vec<Vec<usize>>,
}

impl NotedNumbers {
    /// Nothing is noted.
    pub fn new(alloc: Global) -> NotedNumbers {
        NotedNumbers {
            sources: Vec::new(alloc),
        }
    }

    /// The notes of a source.
    pub fn of(&mut self, alloc: Global, source: u32) -> Result<&mut Vec<usize>, AllocError> {
        let place = source as usize % SOURCES;
        for _ in self.sources.len()..place + 1 {
            self.sources.push(Vec::new(alloc))?;
        }
        self.sources.get_mut(place).ok_or(AllocError)
    }
}

/// Where a number is noted, for which room is made.
pub fn note_place(noted: &mut Vec<usize>, note: usize) -> Result<&mut usize, AllocError> {
    if note >= noted.len() {
        noted.resize(note.saturating_add(1), 0)?;
    }
    noted.get_mut(note).ok_or(AllocError)
}

/// Whether a name has this number.
fn has_number(table: &FrameTable, name: &str, number: usize) -> bool
    ensures { IsTrue result ↔ ((number < length table.now) × (slice_index_or table.now number [] ≡ name.now)) }
{
    number < table.len() && table.name(number) == name
}

/// The number of a name, which it gets now if it has none. The one that was noted is tried first.
pub fn number_name(
    table: &mut FrameTable,
    noted: &mut Vec<usize>,
    note: usize,
    name: &str,
) -> Result<usize, AllocError>
    requires { HasDistinctNames table.old }
    ensures names { OnOk result (table.new ≡ with_name table.old name.now) }
    ensures number { IfOk result (λ number. slice_get table.new number ≡ Some name.now) }
    ensures below { IfOk result (λ number. number < length table.new) }
    ensures distinct { HasDistinctNames table.new }
    ensures err { OnErr result (table.new ≡ table.old) }
{
    if let Some(number) = noted.get(note).copied()
        && has_number(table, name, number)
    {
        return Ok(number);
    }
    let place = note_place(noted, note)?;
    let number = table.intern(name)?;
    *place = number;
    Ok(number)
}
