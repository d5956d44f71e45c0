//! Lists of boxes, however they are kept.

ghost use Rattle.std.specs.Prelude.{◌≡◌, ℕ, ◌<◌, ◌^◌, List, length, map, slice_index_or, IfOk};
ghost use Rattle.flame_layout.specs.Boxes.{SeenBox, compared_of, paired_box, plain_box, seen_of, span_of};

use crate::boxes::{DrawnBox, DrawnPair, PictureBox, SpanBox};
use crate::chart::Chart;
use merged_stacks::StackRows;
use stack_core::Text;
use std::alloc::{AllocError, Global};

/// The boxes of a picture in their order. They need not be in memory one after another.
pub trait FlameBoxes {
    /// The boxes.
    ghost boxes: { Self → List SeenBox };

    /// How many there are.
    fn count(&self) -> usize
        ensures is { result ≡ length (boxes self.now) }
        ensures few { length (boxes self.now) < 2 ^ 63 };

    /// The box at a place.
    fn get(&self, place: usize) -> PictureBox<'_>
        requires { place < length (boxes self.now) }
        ensures { (other : SeenBox) → seen_of result ≡ slice_index_or (boxes self.now) place other };
}

impl<'a, 'n, S: StackRows> FlameBoxes for &'a Chart<'n, S> {
    ghost boxes = { λ chart. map plain_box chart.now };

    fn count(&self) -> usize {
        self.len()
    }

    fn get(&self, place: usize) -> PictureBox<'_> {
        PictureBox {
            drawn: (**self).get(place),
            before: None,
        }
    }
}

impl<'a, 'n> FlameBoxes for &'a [DrawnBox<'n>] {
    ghost boxes = { λ boxes. map (λ drawn. plain_box (span_of drawn)) boxes.now };

    fn count(&self) -> usize {
        (**self).len()
    }

    fn get(&self, place: usize) -> PictureBox<'_> {
        PictureBox {
            drawn: self[place],
            before: None,
        }
    }
}

impl<'a, 'n> FlameBoxes for &'a [DrawnPair<'n>] {
    ghost boxes = { λ boxes. map (λ pair. paired_box (compared_of pair)) boxes.now };

    fn count(&self) -> usize {
        (**self).len()
    }

    fn get(&self, place: usize) -> PictureBox<'_> {
        let pair = &self[place];
        PictureBox {
            drawn: pair.drawn,
            before: Some(pair.total_before),
        }
    }
}

impl<'a> FlameBoxes for &'a [SpanBox] {
    ghost boxes = { λ boxes. map plain_box boxes.now };

    fn count(&self) -> usize {
        (**self).len()
    }

    fn get(&self, place: usize) -> PictureBox<'_> {
        PictureBox {
            drawn: lent_box(&self[place]),
            before: None,
        }
    }
}

/// The box with its name lent.
pub(crate) fn lent_box(span: &SpanBox) -> DrawnBox<'_>
    ensures { span_of result ≡ span.now }
{
    DrawnBox {
        depth: span.depth,
        name: span.name.get(),
        start: span.start,
        weight: span.weight,
        own: span.own,
    }
}

/// The boxes with names of their own.
pub(crate) fn span_boxes<L: FlameBoxes>(alloc: Global, list: &L) -> Result<Vec<SpanBox>, AllocError>
    ensures { IfOk result (λ boxes. boxes.items ≡ map (λ seen. seen.span) (L.boxes list.now)) }
{
    let mut boxes = Vec::new(alloc);
    for place in 0..list.count() {
        boxes.push(span_box(alloc, &list.get(place).drawn)?)?;
    }
    Ok(boxes)
}

fn span_box(alloc: Global, drawn: &DrawnBox<'_>) -> Result<SpanBox, AllocError>
    ensures { IfOk result (λ span. span ≡ span_of drawn.now) }
{
    Ok(SpanBox {
        depth: drawn.depth,
        name: Text::from_str(alloc, drawn.name)?,
        start: drawn.start,
        weight: drawn.weight,
        own: drawn.own,
    })
}
