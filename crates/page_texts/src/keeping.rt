//! Keeping the boxes that weigh enough.
ghost use Rattle.std.specs.Prelude.{◌≡◌, ◌<◌, length, map, OnOk, IfOk};
ghost use Rattle.stack_core.specs.NamesInOrder.{with_name, with_stack};
ghost use Rattle.flame_layout.specs.Boxes.{seen_of};
ghost use Rattle.page_texts.specs.Drawn.{drawing_of, other_of, page_box};
ghost use Rattle.page_texts.specs.Page.{kept, names_of, place_of};
ghost use Rattle.page_texts.specs.checked.Kept.{AreKept, Keeps, numbered};

use crate::drawings::Drawing;
use crate::kept_boxes::{KeptBox, KeptBoxes, KeptDrawings};
use call_tree::FrameTable;
use flame_layout::{FlameBoxes, PictureBox};
use std::alloc::{AllocError, Global};

// The boxes of each drawing that weigh enough, and their names.
pub(crate) fn keep_drawings<L: FlameBoxes>(
    alloc: Global,
    drawings: &[Drawing<'_, L>],
) -> Result<KeptDrawings, AllocError>
    ensures { IfOk result
        (AreKept (map (drawing_of L.boxes) drawings.now)) }
{
    let mut names = FrameTable::new(alloc);
    let mut kept = Vec::new(alloc);
    for drawing in drawings {
        kept.push(keep(alloc, &mut names, &drawing.boxes, drawing.least)?)?;
    }
    Ok(KeptDrawings {
        names,
        drawings: kept,
    })
}

// The boxes that weigh at least so much, with the numbers of their names, and what is told of the
// others.
fn keep<L: FlameBoxes>(
    alloc: Global,
    names: &mut FrameTable,
    boxes: &L,
    least: u64,
) -> Result<KeptBoxes, AllocError>
    ensures names { OnOk result (names.new
        ≡ with_stack names.old (names_of (kept least (map page_box (L.boxes boxes.now))))) }
    ensures boxes { IfOk result (Keeps names.new least (map page_box (L.boxes boxes.now))) }
{
    let mut answer = KeptBoxes {
        boxes: Vec::new(alloc),
        left_boxes: 0,
        left_weight: 0,
    };
    for place in 0..boxes.count() {
        let item = boxes.get(place);
        if item.drawn.weight < least {
            answer.left_boxes += 1;
            answer.left_weight += u128::from(item.drawn.own);
        } else {
            answer.boxes.push(kept_box(names, &item)?)?;
        }
    }
    Ok(answer)
}

// A box that is kept, with the number of its name.
fn kept_box(names: &mut FrameTable, item: &PictureBox<'_>) -> Result<KeptBox, AllocError>
    ensures names { OnOk result (names.new ≡ with_name names.old (page_box (seen_of item.now)).span.name) }
    ensures kept { IfOk result (λ answer. answer ≡ numbered names.new (page_box (seen_of item.now))) }
    ensures named { OnOk result
        (place_of names.new (page_box (seen_of item.now)).span.name < length names.new) }
{
    let name = names.intern(item.drawn.name)?;
    Ok(KeptBox {
        depth: item.drawn.depth,
        name,
        other: other_of(item.before),
        own: item.drawn.own,
        start: item.drawn.start,
        weight: item.drawn.weight,
    })
}

// The weight of a box's path in the other profile, and 0 where there is none.
fn other_of(before: Option<u64>) -> u64
    ensures { result ≡ other_of before }
{
    match before {
        Some(before) => before,
        None => 0,
    }
}
