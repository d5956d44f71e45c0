//! The drawings of a page.
ghost use Rattle.std.specs.Prelude.{◌≡◌, ◌++◌, OnOk};
ghost use Rattle.page_texts.specs.checked.Kept.{drawing_parts, moment_text, other_text};
ghost use Rattle.page_texts.specs.checked.Parts.{parts_text};

use crate::kept_boxes::{Column, KeptBoxes};
use crate::parts::{Part, push_column, push_literal, push_number, push_numbers};
use std::alloc::AllocError;

/// What a snapshot has.
#[derive(Clone, Copy, Debug)]
pub struct Moment<'a> {
    /// How many samples were taken.
    pub at: u64,
    /// How many of them are of each source.
    pub counts: &'a [u64],
}

/// A drawing of a page.
#[derive(Clone, Copy, Debug)]
pub struct Drawing<'a, L> {
    /// Its boxes, by start and then by depth.
    pub boxes: L,
    /// It is one of a comparison: its boxes have the weights of the other profile.
    pub is_compared: bool,
    /// The least weight of a box that is kept. With 0 all are.
    pub least: u64,
    /// The sum of the weights of its samples.
    pub total: u64,
    /// In snapshots only.
    pub moment: Option<Moment<'a>>,
}

// Adds the data of a drawing whose boxes were kept.
pub(crate) fn push_drawing<'k, L>(
    parts: &mut Vec<Part<'_, 'k>>,
    drawing: &Drawing<'_, L>,
    kept: &'k KeptBoxes,
) -> Result<(), AllocError>
    ensures { OnOk result (parts_text parts.new.items ≡ parts_text parts.old.items
        ++ drawing_parts drawing.now kept.now) }
{
    push_moment(parts, drawing.moment)?;
    push_column(parts, b"\"gap\":", Column::Gap, &kept.boxes)?;
    push_number(parts, b",\"least\":", u128::from(drawing.least))?;
    push_number(parts, b",\"left_out\":{\"boxes\":", kept.left_boxes as u128)?;
    push_number(parts, b",\"weight\":", kept.left_weight)?;
    push_column(parts, b"},\"name\":", Column::Name, &kept.boxes)?;
    push_other(parts, kept, drawing.is_compared)?;
    push_column(parts, b",\"rest\":", Column::Rest, &kept.boxes)?;
    push_column(parts, b",\"tail\":", Column::Tail, &kept.boxes)?;
    push_number(parts, b",\"total\":", u128::from(drawing.total))?;
    push_column(parts, b",\"up\":", Column::Up, &kept.boxes)?;
    push_literal(parts, b"}")
}

// Adds the bracket before a drawing, and what only a snapshot has.
fn push_moment(parts: &mut Vec<Part<'_, '_>>, moment: Option<Moment<'_>>) -> Result<(), AllocError>
    ensures { OnOk result
        (parts_text parts.new.items ≡ parts_text parts.old.items ++ moment_text moment.entry) }
{
    match moment {
        None => push_literal(parts, b"{"),
        Some(moment) => {
            push_number(parts, b"{\"at\":", u128::from(moment.at))?;
            push_numbers(parts, b",\"counts\":", moment.counts)?;
            push_literal(parts, b",")
        }
    }
}

// Adds what only a comparison has.
fn push_other<'k>(
    parts: &mut Vec<Part<'_, 'k>>,
    kept: &'k KeptBoxes,
    is_compared: bool,
) -> Result<(), AllocError>
    ensures { OnOk result
        (parts_text parts.new.items ≡ parts_text parts.old.items ++ other_text is_compared kept.now) }
{
    if is_compared {
        push_column(parts, b",\"other\":", Column::Other, &kept.boxes)?;
    }
    Ok(())
}
