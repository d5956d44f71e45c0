//! Boxes in JSON.

ghost use Rattle.std.specs.Prelude.{◌≡◌, ◌+◌, ◌<◌, ◌≤◌, ◌++◌, OnOk};
ghost use Rattle.std.specs.Io.{StartsWith};
ghost use Rattle.serde_json.specs.Written.{compact_text};
ghost use Rattle.flame_layout.specs.Boxes.{seen_of, span_of};
ghost use Rattle.view_texts.specs.Json.{compared_box_data};
ghost use Rattle.view_texts.specs.Lines.{seen_data};

use crate::box_writers::BoxWriter;
use crate::json_pieces::append_number;
use flame_layout::{DrawnBox, PictureBox};
use std::alloc::{AllocError, Global};

// Appends the object of a box, in the image of a writer. An `Err` may leave a part of it.
pub(crate) fn append_box(
    alloc: Global,
    text: &mut Vec<u8>,
    one: &PictureBox<'_>,
    writer: &mut BoxWriter,
) -> Result<(), AllocError>
    requires within { one.now.drawn.start + one.now.drawn.weight ≤ writer.old.total }
    requires positive { 0 < writer.old.total }
    ensures ok { OnOk result (text.new.items ≡ text.old.items
        ++ compact_text (seen_data writer.old.total writer.old.width (seen_of one.now))) }
    ensures front { StartsWith text.new.items text.old.items }
    ensures scale { writer.new ≡ writer.old }
{
    match one.before {
        None => writer.append_members(alloc, text, b'{', &one.drawn),
        Some(before) => append_compared(alloc, text, before, &one.drawn, writer),
    }
}

// Appends a box of a comparison, which has the total of its path in the profile before.
fn append_compared(
    alloc: Global,
    text: &mut Vec<u8>,
    before: u64,
    drawn: &DrawnBox<'_>,
    writer: &mut BoxWriter,
) -> Result<(), AllocError>
    requires within { drawn.now.start + drawn.now.weight ≤ writer.old.total }
    requires positive { 0 < writer.old.total }
    ensures ok { OnOk result (text.new.items ≡ text.old.items ++ compact_text
        (compared_box_data writer.old.total writer.old.width
        (record { span = span_of drawn.now; before = before }))) }
    ensures front { StartsWith text.new.items text.old.items }
    ensures scale { writer.new ≡ writer.old }
{
    append_number(text, b"{\"before\":", before)?;
    writer.append_members(alloc, text, b',', drawn)
}
