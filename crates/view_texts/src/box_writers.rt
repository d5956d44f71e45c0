//! What writes the boxes of a line.

ghost use Rattle.std.specs.Prelude.{◌≡◌, ◌+◌, ◌<◌, ◌≤◌, ◌∷◌, ◌++◌, false, OnOk};
ghost use Rattle.std.specs.Io.{StartsWith};
ghost use Rattle.serde_json.specs.Written.{members_text};
ghost use Rattle.flame_layout.specs.Boxes.{span_of};
ghost use Rattle.flame_layout.specs.Edges.{placed_at};
ghost use Rattle.view_texts.specs.Json.{box_members};

use crate::box_buffers::{BoxBuffer, append_ready, turn_to};
use crate::scales::Scale;
use flame_layout::DrawnBox;
use std::alloc::{AllocError, Global};
use std::marker::Model;

// Writes the boxes of an image. It keeps the text of the last box, of which the next one may have a part in
// common. Contracts see the scale of the image.
#[derive(Drop)]
pub(crate) struct BoxWriter {
    scale: Scale,
    buffer: BoxBuffer,
}

impl Model for BoxWriter {
    ghost use Rattle.std.specs.Prelude.{◌<◌};
    ghost use Rattle.view_texts.specs.declared.scales.Scale.{Scale};
    ghost use Rattle.view_texts.specs.checked.BoxBuffers.{IsBoxBuffer};

    ghost Value = { Scale };

    ghost view = { λ writer. writer.scale };

    ghost invariant = { λ writer. 0 < writer.scale.total
        → IsBoxBuffer writer.scale.total writer.scale.width writer.buffer };
}

impl BoxWriter {
    // A writer for the boxes of an image.
    pub(crate) fn of(scale: Scale) -> BoxWriter
        ensures { result ≡ scale }
    {
        BoxWriter {
            scale,
            buffer: BoxBuffer::new(),
        }
    }

    // Appends a byte, the members of a box, and the bracket after them.
    pub(crate) fn append_members(
        &mut self,
        alloc: Global,
        text: &mut Vec<u8>,
        opening: u8,
        drawn: &DrawnBox<'_>,
    ) -> Result<(), AllocError>
        requires within { drawn.now.start + drawn.now.weight ≤ self.old.total }
        requires positive { 0 < self.old.total }
        ensures ok { OnOk result (text.new.items ≡ text.old.items ++ opening ∷ members_text false
            (box_members (placed_at self.old.total self.old.width (span_of drawn.now)))) }
        ensures front { StartsWith text.new.items text.old.items }
        ensures scale { self.new ≡ self.old }
    {
        let scale = self.scale;
        turn_to(&mut self.buffer, drawn, &scale);
        append_ready(&mut self.buffer, alloc, text, opening, drawn)
    }
}
