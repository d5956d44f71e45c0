//! Marks of the names of a list: each name is looked at once.

ghost use Rattle.std.specs.Prelude.{◌≡◌, IfOk, map, string_bytes};
ghost use Rattle.std.specs.List.{list_any};
ghost use Rattle.std.specs.Str.{bytes_eq};
ghost use Rattle.source_lists.specs.checked.NameMarks.{begins, holds, is_among, is_marked};

use run_options::Filter;
use stack_core::{Names, SourceList, Text};
use std::alloc::{AllocError, Global};

/// What is asked of a name.
#[derive(Clone, Copy)]
pub(crate) enum NameTest<'a> {
    /// Whether a stack may begin at it.
    Begins(&'a Option<Text>),
    /// Whether it is one of these.
    IsAmong(&'a Names),
    /// Whether a filter has it in the focus.
    HasFocus(&'a Filter),
    /// Whether a filter hides it.
    IsHidden(&'a Filter),
}

impl NameTest<'_> {
    fn holds(self, name: &str) -> bool
        ensures { result ≡ holds self.entry name.now }
    {
        match self {
            NameTest::Begins(from) => begins(from, name),
            NameTest::IsAmong(names) => is_among(names, name),
            NameTest::HasFocus(filter) => filter.focuses(name),
            NameTest::IsHidden(filter) => filter.hides(name),
        }
    }
}

fn begins(from: &Option<Text>, frame: &str) -> bool
    ensures { result ≡ begins from.now frame.now }
{
    match from {
        Some(name) => frame == name.get(),
        None => true,
    }
}

fn is_among(names: &Names, frame: &str) -> bool
    ensures { result ≡ is_among names.now frame.now }
{
    has_text(names.get(), frame)
}

fn has_text(texts: &[String], frame: &str) -> bool
    ensures { result ≡ list_any (λ text. bytes_eq frame.now (string_bytes text)) texts.now }
{
    texts.iter().any(|text| frame == text.as_str())
}

/// For each name of the list whether the test holds of it.
pub(crate) fn marks_of(
    alloc: Global,
    list: &SourceList,
    test: NameTest<'_>,
) -> Result<Vec<bool>, AllocError>
    ensures { IfOk result (λ marks. marks.items ≡ map (holds test.entry) list.now.told) }
{
    let count = list.told();
    let mut marks = Vec::with_capacity(alloc, count)?;
    for number in 0..count {
        marks.push(test.holds(list.told_name(number)))?;
    }
    Ok(marks)
}

/// Whether the mark of one of the numbers is set.
pub(crate) fn has_mark(marks: &[bool], numbers: &[u32]) -> bool
    ensures { result ≡ list_any (is_marked marks.now) numbers.now }
{
    numbers.iter().any(|number| is_set(marks, *number as usize))
}

pub(crate) fn is_set(marks: &[bool], number: usize) -> bool
    ensures { result ≡ is_marked marks.now number }
{
    number < marks.len() && marks[number]
}
