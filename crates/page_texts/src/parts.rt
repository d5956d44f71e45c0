//! The text of a page in parts: few where its boxes are many, and none long.
ghost use Rattle.std.specs.Prelude.{◌≡◌, ◌++◌, decimal, map, OnOk};
ghost use Rattle.std.specs.List.{flat_map};
ghost use Rattle.page_texts.specs.Page.{whole_number, list_data};
ghost use Rattle.page_texts.specs.checked.Kept.{no_kept, numbers_of};
ghost use Rattle.page_texts.specs.checked.Parts.{part_text, parts_text};
ghost use Rattle.page_texts.specs.checked.SafeText.{safe_text};

use crate::kept_boxes::{Column, KeptBox, NO_BOX, before_at};
use std::alloc::AllocError;
use view_texts::comma_if;

// How many numbers of a column are a part at most.
const RUN: usize = 1024;

// Boxes of which the first so many have their numbers in a column written.
#[derive(Clone, Copy)]
pub(crate) struct Run<'a> {
    pub(crate) column: Column,
    // What stands before them.
    pub(crate) before: KeptBox,
    pub(crate) boxes: &'a [KeptBox],
    pub(crate) count: usize,
    // Whether other numbers stand before theirs.
    pub(crate) later: bool,
}

// A part of a text: of what is written on the page, or of what was kept.
#[derive(Clone, Copy)]
pub(crate) enum Part<'p, 'k> {
    Literal(&'static [u8]),
    Number(u128),
    Text(&'p str),
    Name(&'k str),
    Numbers(Run<'k>),
}

// Adds a part.
pub(crate) fn push_part<'p, 'k>(
    parts: &mut Vec<Part<'p, 'k>>,
    part: Part<'p, 'k>,
) -> Result<(), AllocError>
    ensures { OnOk result
        (parts_text parts.new.items ≡ parts_text parts.old.items ++ part_text part.entry) }
{
    parts.push(part)?;
    Ok(())
}

// Adds a literal piece.
pub(crate) fn push_literal(
    parts: &mut Vec<Part<'_, '_>>,
    piece: &'static [u8],
) -> Result<(), AllocError>
    ensures { OnOk result
        (parts_text parts.new.items ≡ parts_text parts.old.items ++ piece.now) }
{
    push_part(parts, Part::Literal(piece))
}

// Adds literal pieces, one after another.
pub(crate) fn push_literals(
    parts: &mut Vec<Part<'_, '_>>,
    pieces: &[&'static str],
) -> Result<(), AllocError>
    ensures { OnOk result (parts_text parts.new.items
        ≡ parts_text parts.old.items ++ flat_map (λ piece. piece.now) pieces.now) }
{
    for piece in pieces {
        push_literal(parts, piece.as_bytes())?;
    }
    Ok(())
}

// Adds a literal piece and a part.
pub(crate) fn push_behind<'p, 'k>(
    parts: &mut Vec<Part<'p, 'k>>,
    piece: &'static [u8],
    part: Part<'p, 'k>,
) -> Result<(), AllocError>
    ensures { OnOk result (parts_text parts.new.items
        ≡ parts_text parts.old.items ++ (piece.now ++ part_text part.entry)) }
{
    push_literal(parts, piece)?;
    push_part(parts, part)
}

// Adds a literal piece and a number.
pub(crate) fn push_number(
    parts: &mut Vec<Part<'_, '_>>,
    piece: &'static [u8],
    number: u128,
) -> Result<(), AllocError>
    ensures { OnOk result
        (parts_text parts.new.items ≡ parts_text parts.old.items ++ (piece.now ++ decimal number)) }
{
    push_behind(parts, piece, Part::Number(number))
}

// Adds a literal piece and a list of numbers.
pub(crate) fn push_numbers(
    parts: &mut Vec<Part<'_, '_>>,
    piece: &'static [u8],
    numbers: &[u64],
) -> Result<(), AllocError>
    ensures { OnOk result (parts_text parts.new.items ≡ parts_text parts.old.items
        ++ (piece.now ++ safe_text (list_data (map whole_number numbers.now)))) }
{
    push_literal(parts, piece)?;
    push_literal(parts, b"[")?;
    for (i, number) in numbers.iter().enumerate() {
        push_number(parts, comma_if(i > 0), u128::from(*number))?;
    }
    push_literal(parts, b"]")
}

// Adds a literal piece and a column.
pub(crate) fn push_column<'k>(
    parts: &mut Vec<Part<'_, 'k>>,
    piece: &'static [u8],
    column: Column,
    boxes: &'k [KeptBox],
) -> Result<(), AllocError>
    ensures { OnOk result (parts_text parts.new.items ≡ parts_text parts.old.items
        ++ (piece.now ++ safe_text
        (list_data (map whole_number (numbers_of column no_kept boxes.now))))) }
{
    push_literal(parts, piece)?;
    push_literal(parts, b"[")?;
    let mut at = 0;
    while at < boxes.len() {
        let count = RUN.min(boxes.len() - at);
        let run = Run {
            column,
            before: before_at(&NO_BOX, boxes, at),
            boxes: &boxes[at..],
            count,
            later: at > 0,
        };
        push_part(parts, Part::Numbers(run))?;
        at += count;
    }
    push_literal(parts, b"]")
}
