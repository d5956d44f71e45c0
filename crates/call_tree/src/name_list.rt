//! Names that lie end to end in one vector.

ghost use Rattle.std.specs.Prelude.{◌≡◌, ◌<◌, ◌++◌, ◌∷◌, [], length, OnOk, OnErr};
ghost use Rattle.sample_tables.specs.Rows.{name_at};

use sample_tables::Span;
use std::alloc::{AllocError, Global};
use std::marker::Model;

/// Names by number, from 0.
#[derive(Drop)]
pub struct NameList {
    bytes: Vec<u8>,
    /// Where the bytes of each name lie.
    spans: Vec<Span>,
}

impl Model for NameList {
    ghost use Rattle.std.specs.Prelude.{List, ℕ};
    ghost use Rattle.sample_tables.specs.Spans.{stacks_of};
    ghost use Rattle.call_tree.specs.checked.NameLists.{AreTexts};

    ghost Value = { List (List ℕ) };

    ghost view = { λ list. stacks_of list.bytes.items list.spans.items };

    ghost invariant = { λ list. AreTexts list.bytes.items list.spans.items };
}

impl NameList {
    /// No names, and no memory.
    pub fn new(alloc: Global) -> NameList
        ensures { result ≡ [] }
    {
        NameList {
            bytes: Vec::new(alloc),
            spans: Vec::new(alloc),
        }
    }

    /// How many names there are.
    pub fn len(&self) -> usize
        ensures { result ≡ length self.now }
    {
        self.spans.len()
    }

    /// The name of a number.
    pub fn name(&self, number: usize) -> &str
        requires { number < length self.now }
        ensures { result.now ≡ name_at self.now number }
    {
        let span = self.spans[number];
        unsafe { std::str::from_utf8_unchecked(&self.bytes[span.start..span.end]) }
    }

    /// Appends a name.
    pub fn push(&mut self, name: &str) -> Result<(), AllocError>
        ensures ok { OnOk result (self.new ≡ self.old ++ name.now ∷ []) }
        ensures err { OnErr result (self.new ≡ self.old) }
    {
        self.spans.reserve(1)?;
        let start = self.bytes.len();
        self.bytes.extend_from_slice(name.as_bytes())?;
        let end = self.bytes.len();
        self.spans.push_reserved(Span { start, end });
        Ok(())
    }
}
