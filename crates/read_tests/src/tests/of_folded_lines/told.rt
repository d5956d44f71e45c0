//! Rows as lines, each of what a reader told so far.

use folded_lines::append_line;
use stack_core::{Listed, RowReader, RowStep, SourceEnd, Text};
use std::alloc::{AllocError, Global};

/// The names and rows that a reader told.
#[derive(Drop)]
struct Told {
    names: Vec<Text>,
    rows: Vec<Listed<usize>>,
}

fn push_name(
    alloc: Global,
    stack: &mut Vec<String>,
    name: Option<&Text>,
) -> Result<(), AllocError> {
    let name = match name {
        Some(name) => name.get(),
        None => "(no name)",
    };
    stack.push(String::from_str(alloc, name)?)?;
    Ok(())
}

fn push_names(
    alloc: Global,
    stack: &mut Vec<String>,
    names: &[Text],
    numbers: &[usize],
) -> Result<(), AllocError> {
    for number in numbers {
        push_name(alloc, stack, names.get(*number))?;
    }
    Ok(())
}

impl Told {
    /// The numbers of a row, and none of a row that was not told.
    fn numbers(&self, row: usize) -> &[usize] {
        match self.rows.get(row) {
            Some(frames) => frames.get(),
            None => &[],
        }
    }

    fn append_row(
        &self,
        alloc: Global,
        lines: &mut Vec<u8>,
        stack: &mut Vec<String>,
        row: usize,
        weight: u64,
    ) -> Result<(), AllocError> {
        push_names(alloc, stack, &self.names, self.numbers(row))?;
        append_line(alloc, lines, stack.as_slice(), weight)
    }

    /// Appends the line of a row. A row that was not told has no names.
    fn append(
        &self,
        alloc: Global,
        lines: &mut Vec<u8>,
        row: usize,
        weight: u64,
    ) -> Result<(), AllocError> {
        self.append_row(alloc, lines, &mut Vec::new(alloc), row, weight)
    }

    /// Learns a row that is told, and appends its line.
    fn learn(
        &mut self,
        alloc: Global,
        lines: &mut Vec<u8>,
        names: Listed<Text>,
        frames: Listed<usize>,
        weight: u64,
    ) -> Result<(), AllocError> {
        let row = self.rows.len();
        self.rows.push(frames)?;
        self.names.append(&mut names.into_plain())?;
        self.append(alloc, lines, row, weight)
    }

    /// Learns what a step tells and appends its line, or keeps the ending.
    fn append_step(
        &mut self,
        alloc: Global,
        lines: &mut Vec<u8>,
        step: RowStep,
        end: &mut Option<SourceEnd>,
    ) -> Result<(), AllocError> {
        match step {
            RowStep::New {
                names,
                frames,
                weight,
            } => self.learn(alloc, lines, names, frames, weight),
            RowStep::Again { row, weight } => self.append(alloc, lines, row, weight),
            RowStep::End(ending) => {
                *end = Some(ending);
                Ok(())
            }
        }
    }

    fn append_next<R: RowReader>(
        &mut self,
        alloc: Global,
        reader: &mut R,
        lines: &mut Vec<u8>,
        end: &mut Option<SourceEnd>,
    ) -> Result<(), AllocError> {
        self.append_step(alloc, lines, reader.next_row(alloc)?, end)
    }

    /// Appends the rows that are left, one a line, and keeps the ending. Each line is written of what was told so far.
    fn append_all<R: RowReader>(
        &mut self,
        alloc: Global,
        reader: &mut R,
        lines: &mut Vec<u8>,
        end: &mut Option<SourceEnd>,
    ) -> Result<(), AllocError> {
        for _ in 0..100 {
            if end.is_some() {
                return Ok(());
            }
            self.append_next(alloc, reader, lines, end)?;
        }
        Ok(())
    }
}

/// The same of a reader that told no row before.
pub(super) fn append_rows<R: RowReader>(
    alloc: Global,
    reader: &mut R,
    lines: &mut Vec<u8>,
    end: &mut Option<SourceEnd>,
) -> Result<(), AllocError> {
    let mut told = Told {
        names: Vec::new(alloc),
        rows: Vec::new(alloc),
    };
    told.append_all(alloc, reader, lines, end)
}
