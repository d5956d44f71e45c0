//! What a picture draws of its boxes, and what it leaves out.
ghost use Rattle.std.specs.Prelude.{◌≡◌, ℕ, ◌+◌, ◌<◌, ◌≤◌, ◌^◌, All, IsTrue, length};
ghost use Rattle.flame_layout.specs.Boxes.{seen_of};
ghost use Rattle.svg_texts.specs.Drawn.{picture_of};
ghost use Rattle.svg_texts.specs.Svg.{is_drawn, own_weight};
ghost use Rattle.svg_texts.specs.checked.Pieces.{IsTally};

use crate::frames::Tally;
use crate::pictures::Picture;
use flame_layout::{FlameBoxes, PictureBox, edges};

// The tally of some boxes.
pub(crate) fn tally_of<L: FlameBoxes>(picture: &Picture<'_>, boxes: &L) -> Tally
    requires within { All (λ box. box.span.start + box.span.weight ≤ picture.now.total) (L.boxes boxes.now) }
    requires positive { 0 < length (L.boxes boxes.now) → 0 < picture.now.total }
    requires own { own_weight (L.boxes boxes.now) < 2 ^ 64 }
    ensures { IsTally (picture_of picture.now) (L.boxes boxes.now) result }
{
    let mut rows: u64 = 0;
    let mut left_boxes = 0;
    let mut left_weight = 0;
    for place in 0..boxes.count() {
        let one = boxes.get(place);
        if is_drawn(picture, &one) {
            rows = rows.max(u64::from(one.drawn.depth) + 1);
        } else {
            left_boxes += 1;
            left_weight += one.drawn.own;
        }
    }
    Tally {
        rows,
        left_boxes,
        left_weight,
    }
}

// Whether the edges of a box differ.
fn is_drawn(picture: &Picture<'_>, one: &PictureBox<'_>) -> bool
    requires within { one.now.drawn.start + one.now.drawn.weight ≤ picture.now.total }
    requires positive { 0 < picture.now.total }
    ensures { result ≡ is_drawn (picture_of picture.now) (seen_of one.now) }
{
    let (left, right) = edges(&one.drawn, picture.total, picture.width);
    left != right
}
