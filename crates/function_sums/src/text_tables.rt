//! Tables of functions and of changes.

ghost use Rattle.std.specs.Prelude.{◌≡◌, ◌++◌, ◌<◌, ◌^◌, IfOk, length, map, option_map, OnOk};
ghost use Rattle.std.specs.Io.{StartsWith};
ghost use Rattle.std.specs.List.{concat};
ghost use Rattle.function_sums.specs.Columns.{in_columns, line_text, lines_text, widest, widths};
ghost use Rattle.function_sums.specs.Pieces.{table_pieces};
ghost use Rattle.function_sums.specs.Told.{told_of};
ghost use Rattle.function_sums.specs.checked.Entries.{entry_text, line_of};

use crate::entries::{Entry, Saying, append_entry, entry_width};
use crate::telling::Telling;
use byte_io::Pieces;
use std::alloc::{AllocError, Global};

// A line of a table: its entries, of which a column may be left out, and the name behind them.
#[derive(Clone, Copy, Debug)]
pub(crate) struct Line<'a> {
    pub(crate) entries: [Option<Entry>; 6],
    pub(crate) name: &'a str,
}

/// A table: what stands above it, and its lines, of which the first has the headings. Each is a piece.
#[derive(Drop)]
pub struct Table<'a> {
    saying: Saying<'a>,
    heading: Vec<u8>,
    lines: Vec<Line<'a>>,
    widths: [usize; 6],
}

impl<'a> Table<'a> {
    // The table of these lines.
    pub(crate) fn of(
        alloc: Global,
        telling: &Telling<'a>,
        is_exact: bool,
        heading: Vec<u8>,
        lines: Vec<Line<'a>>,
    ) -> Result<Table<'a>, AllocError>
        ensures text { IfOk result (λ table. concat (⟦<Table<'a> as Pieces>⟧.pieces table)
            ≡ heading.items ++ lines_text
            (map (line_of is_exact (told_of telling.now).unit) lines.entry.items)) }
        ensures few { IfOk result (λ table.
            length (⟦<Table<'a> as Pieces>⟧.pieces table) < 2 ^ 64) }
    {
        let saying = Saying {
            unit: telling.unit,
            is_exact,
        };
        let widths = widths(alloc, &saying, &lines)?;
        Ok(Table {
            saying: Saying {
                unit: telling.unit,
                is_exact,
            },
            heading,
            lines,
            widths,
        })
    }
}

impl Pieces for Table<'_> {
    ghost pieces = { λ table. table_pieces table.heading.items table.widths
        (map (line_of table.saying.is_exact table.saying.unit.now) table.lines.items) };

    fn count(&self) -> usize {
        self.lines.len() + 1
    }

    fn append_piece(&self, alloc: Global, at: usize, out: &mut Vec<u8>) -> Result<(), AllocError> {
        if at == 0 {
            out.extend_from_slice(&self.heading)
        } else {
            let lines = self.lines.as_slice();
            append_line(alloc, out, &self.saying, &self.widths, &lines[at - 1])
        }
    }
}

// How wide the columns of lines are.
fn widths(alloc: Global, saying: &Saying<'_>, lines: &[Line<'_>]) -> Result<[usize; 6], AllocError>
    ensures { IfOk result (λ found. found
        ≡ widths (map (line_of saying.now.is_exact saying.now.unit.now) lines.now)) }
{
    Ok([
        widest(alloc, saying, lines, 0)?,
        widest(alloc, saying, lines, 1)?,
        widest(alloc, saying, lines, 2)?,
        widest(alloc, saying, lines, 3)?,
        widest(alloc, saying, lines, 4)?,
        widest(alloc, saying, lines, 5)?,
    ])
}

// How wide a column of lines is.
fn widest(
    alloc: Global,
    saying: &Saying<'_>,
    lines: &[Line<'_>],
    column: usize,
) -> Result<usize, AllocError>
    requires { column < 6 }
    ensures { IfOk result (λ width. width
        ≡ widest column (map (line_of saying.now.is_exact saying.now.unit.now) lines.now)) }
{
    let mut width = 0;
    for line in lines {
        width = width.max(entry_width(alloc, saying, line.entries[column])?);
    }
    Ok(width)
}

// Appends a line, or its front.
fn append_line(
    alloc: Global,
    out: &mut Vec<u8>,
    saying: &Saying<'_>,
    widths: &[usize; 6],
    line: &Line<'_>,
) -> Result<(), AllocError>
    ensures ok { OnOk result (out.new.items ≡ out.old.items
        ++ line_text widths.now (line_of saying.now.is_exact saying.now.unit.now line.now)) }
    ensures front { StartsWith out.new.items out.old.items }
{
    append_entries(alloc, out, saying, widths, &line.entries)?;
    out.extend_from_slice(line.name.as_bytes())?;
    out.extend_from_slice(b"\n")
}

// Appends the entries of a line, or a front of them.
fn append_entries(
    alloc: Global,
    out: &mut Vec<u8>,
    saying: &Saying<'_>,
    widths: &[usize; 6],
    entries: &[Option<Entry>; 6],
) -> Result<(), AllocError>
    ensures ok { OnOk result (out.new.items ≡ out.old.items ++ in_columns widths.now
        (map (option_map (entry_text saying.now.is_exact saying.now.unit.now)) entries.now)) }
    ensures front { StartsWith out.new.items out.old.items }
{
    for at in 0..6 {
        append_entry(alloc, out, saying, widths[at], entries[at])?;
    }
    Ok(())
}
