//! The parts of a text as bytes.
ghost use Rattle.std.specs.Prelude.{◌≡◌, ◌<◌, ◌^◌, ◌++◌, get_or, length, map, take, OnOk};
ghost use Rattle.std.specs.Io.{StartsWith};
ghost use Rattle.json.specs.Print.{quoted};
ghost use Rattle.page_texts.specs.Page.{whole_number};
ghost use Rattle.page_texts.specs.ScriptSafe.{script_safe};
ghost use Rattle.page_texts.specs.checked.Kept.{numbers_of};
ghost use Rattle.page_texts.specs.checked.Parts.{part_text};
ghost use Rattle.page_texts.specs.checked.SafeText.{values_text};

use crate::kept_boxes::{before_at, is_under_at};
use crate::parts::{Part, Run};
use crate::script_safe::append_script_safe;
use byte_io::Pieces;
use itoa::{Buffer, Integer};
use std::alloc::{AllocError, Global};
use view_texts::comma_if;

// A text of parts, each of which is a piece.
#[derive(Drop)]
pub(crate) struct PartText<'p, 'k> {
    pub(crate) parts: Vec<Part<'p, 'k>>,
}

impl Pieces for PartText<'_, '_> {
    ghost pieces = { λ text. map part_text text.parts.items };

    fn count(&self) -> usize {
        self.parts.len()
    }

    fn append_piece(&self, alloc: Global, at: usize, out: &mut Vec<u8>) -> Result<(), AllocError> {
        let mut piece = Vec::new(alloc);
        append_part(alloc, &mut piece, self.parts[at])?;
        out.extend_from_slice(&piece)
    }
}

// Appends a part.
fn append_part(alloc: Global, out: &mut Vec<u8>, part: Part<'_, '_>) -> Result<(), AllocError>
    ensures { OnOk result (out.new.items ≡ out.old.items ++ part_text part.entry) }
{
    match part {
        Part::Literal(bytes) => out.extend_from_slice(bytes),
        Part::Number(number) => append_number(out, b"", number),
        Part::Text(text) => append_text(alloc, out, text),
        Part::Name(name) => append_text(alloc, out, name),
        Part::Numbers(run) => append_run(out, run),
    }
}

// Appends a literal piece and a number.
fn append_number<I: Integer>(out: &mut Vec<u8>, piece: &[u8], number: I) -> Result<(), AllocError>
    ensures { OnOk result (out.new.items ≡ out.old.items ++ (piece.now ++ I.text number)) }
{
    out.extend_from_slice(piece)?;
    let mut digits = Buffer::new();
    out.extend_from_slice(digits.format(number).as_bytes())
}

// Appends a text in quotes, with its escapes.
fn append_text(alloc: Global, out: &mut Vec<u8>, text: &str) -> Result<(), AllocError>
    ensures { OnOk result (out.new.items ≡ out.old.items ++ script_safe (quoted text.now)) }
{
    match serde_json::to_vec(alloc, &text) {
        Ok(quoted) => append_script_safe(out, &quoted),
        // A text is refused for want of memory alone.
        Err(_) => Err(AllocError),
    }
}

// Appends the numbers of some boxes.
fn append_run(out: &mut Vec<u8>, run: Run<'_>) -> Result<(), AllocError>
    ensures { OnOk result (out.new.items ≡ out.old.items ++ values_text run.entry.later
        (map whole_number (take run.entry.count
        (numbers_of run.entry.column run.entry.before run.entry.boxes.now)))) }
{
    for i in 0..run.count.min(run.boxes.len()) {
        let number = number_at(&run, i);
        append_number(out, comma_if(run.later || i > 0), number)?;
    }
    Ok(())
}

// The number of one of the boxes.
fn number_at(run: &Run<'_>, at: usize) -> u64
    requires { at < length run.now.boxes.now }
    ensures { result ≡ get_or (numbers_of run.now.column run.now.before run.now.boxes.now) at 0 }
{
    let before = before_at(&run.before, run.boxes, at);
    run.boxes[at].number(run.column, &before, is_under_at(run.boxes, at))
}
