//! What all pages have beside their drawings.
ghost use Rattle.std.specs.Prelude.{◌≡◌, map, option_map};
ghost use Rattle.page_texts.specs.Drawn.{drawing_of, moment_of, page_box, page_of};
ghost use Rattle.source_views.specs.Pages.{heading_of, least_of, page_with};

use flame_layout::FlameBoxes;
use page_texts::{Drawing, Moment, Page, Source};

// Of how many parts of its width a drawing leaves out the narrower boxes: they are narrower than a pixel
// where a drawing of 1,200 pixels is looked at a thousand times as wide.
const PARTS: u64 = 1_200_000;

/// What a page says beside its drawings, and which boxes it keeps.
#[derive(Clone, Copy, Debug)]
pub struct Heading<'a> {
    /// What the page is called.
    pub title: &'a str,
    /// The files, in the order of their lists.
    pub sources: &'a [Source<'a>],
    /// The least weight of a box that is kept. With 0 all are. Where none is given, a box is kept if it is at
    /// least a pixel wide in a drawing of 1,200,000 pixels.
    pub least: Option<u64>,
    /// The weight of all samples of all sources, also of those that a filter leaves out.
    pub whole: u128,
    /// The page opens with the root below.
    pub is_root_below: bool,
    /// The page opens by shares of what each profile weighs, and not by weights.
    pub is_share: bool,
}

impl Heading<'_> {
    // A drawing of boxes of samples with this total.
    pub(crate) fn drawing<'b, L: FlameBoxes>(
        &self,
        boxes: L,
        is_compared: bool,
        total: u64,
        moment: Option<Moment<'b>>,
    ) -> Drawing<'b, L>
        ensures { drawing_of L.boxes result ≡ record {
          moment = option_map moment_of moment.entry;
          is_compared = is_compared;
          least = least_of self.now.least total;
          total = total;
          boxes = map page_box (L.boxes boxes);
        } }
    {
        Drawing {
            boxes,
            is_compared,
            least: least_of(self.least, total),
            total,
            moment,
        }
    }

    // The page of these drawings.
    pub(crate) fn page<'b, L: FlameBoxes>(
        &'b self,
        view: &'b str,
        drawings: &'b [Drawing<'b, L>],
    ) -> Page<'b, L>
        ensures { page_of L.boxes result
            ≡ page_with (heading_of self.now) view.now
            (map (drawing_of L.boxes) drawings.now) }
    {
        Page {
            drawings,
            sources: self.sources,
            title: self.title,
            view,
            whole: self.whole,
            is_root_below: self.is_root_below,
            is_share: self.is_share,
            has_more: false,
        }
    }
}

// The least weight of a box that a drawing with this total keeps.
fn least_of(least: Option<u64>, total: u64) -> u64
    ensures { result ≡ least_of least total }
{
    match least {
        Some(least) => least,
        None => total / PARTS,
    }
}
