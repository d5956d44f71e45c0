//! Rows as a caller keeps them.

use super::reading::{Ended, append_ended, is_over};
use stack_core::{Listed, RowReader, RowStep, Text};
use std::alloc::{AllocError, Global};

/// What is asked of rows.
pub(super) enum OfRows {
    /// A line for each sample, and the ending.
    Lines,
    /// The number of each sample's row, and whether that was told now.
    Numbers,
    /// How many names they told.
    NewNames,
}

/// What a reader told, kept as its caller would, and what was read of it.
#[derive(Drop)]
struct Told {
    names: Vec<Text>,
    stacks: Vec<Listed<usize>>,
    lines: String,
    numbers: String,
}

fn name_of(names: &[Text], number: usize) -> &str {
    match names.get(number) {
        Some(name) => name.get(),
        None => "(no name)",
    }
}

/// Appends the names of these numbers, joined by `;`.
fn append_frames(lines: &mut String, names: &[Text], frames: &[usize]) -> Result<(), AllocError> {
    let mut separator = "";
    for number in frames {
        let name = name_of(names, *number);
        write!(lines, "{separator}{name}")?;
        separator = ";";
    }
    Ok(())
}

/// Whether each name was told once.
fn are_distinct(names: &[Text]) -> bool {
    for at in 0..names.len() {
        if names[..at].contains(&names[at]) {
            return false;
        }
    }
    true
}

impl Told {
    fn append_stack(&mut self, row: usize) -> Result<(), AllocError> {
        match self.stacks.get(row) {
            Some(stack) => append_frames(&mut self.lines, &self.names, stack.get()),
            None => self.lines.push_str("(no row)"),
        }
    }

    /// Appends the line of a sample, and the number of its row.
    fn append_row(&mut self, row: usize, weight: u64, told_now: &str) -> Result<(), AllocError> {
        self.append_stack(row)?;
        write!(self.lines, " {weight}\n")?;
        write!(self.numbers, "{row}{told_now}\n")
    }

    /// Takes a stack that is told, and appends its row.
    fn take_new(
        &mut self,
        names: Listed<Text>,
        frames: Listed<usize>,
        weight: u64,
    ) -> Result<(), AllocError> {
        let row = self.stacks.len();
        self.stacks.push(frames)?;
        self.names.append(&mut names.into_plain())?;
        self.append_row(row, weight, " new")
    }

    fn take(&mut self, ended: &mut Ended, step: RowStep) -> Result<(), AllocError> {
        match step {
            RowStep::New {
                names,
                frames,
                weight,
            } => self.take_new(names, frames, weight),
            RowStep::Again { row, weight } => self.append_row(row, weight, ""),
            RowStep::End(ending) => append_ended(&mut self.lines, ended, ending),
        }
    }

    fn take_next<R: RowReader>(
        &mut self,
        alloc: Global,
        reader: &mut R,
        ended: &mut Ended,
    ) -> Result<(), AllocError> {
        self.take(ended, reader.next_row(alloc)?)
    }

    /// Takes the rows that a reader tells, and the ending.
    fn take_all<R: RowReader>(&mut self, alloc: Global, reader: &mut R) -> Result<(), AllocError> {
        let mut ended = None;
        for _ in 0..200_000 {
            if is_over(&ended) {
                return Ok(());
            }
            self.take_next(alloc, reader, &mut ended)?;
        }
        Ok(())
    }

    fn append_asked(&self, asked: &OfRows, text: &mut String) -> Result<(), AllocError> {
        if !are_distinct(&self.names) {
            text.push_str("(a name told again)")?;
        }
        match asked {
            OfRows::Lines => text.push_str(&self.lines),
            OfRows::Numbers => text.push_str(&self.numbers),
            OfRows::NewNames => write!(text, "{}", self.names.len()),
        }
    }

    fn append_all<R: RowReader>(
        &mut self,
        alloc: Global,
        reader: &mut R,
        asked: &OfRows,
        text: &mut String,
    ) -> Result<(), AllocError> {
        self.take_all(alloc, reader)?;
        self.append_asked(asked, text)
    }
}

/// Appends what is asked of the rows that a reader tells.
pub(super) fn append_rows<R: RowReader>(
    alloc: Global,
    reader: &mut R,
    asked: &OfRows,
    text: &mut String,
) -> Result<(), AllocError> {
    let mut told = Told {
        names: Vec::new(alloc),
        stacks: Vec::new(alloc),
        lines: String::new(alloc),
        numbers: String::new(alloc),
    };
    told.append_all(alloc, reader, asked, text)
}
