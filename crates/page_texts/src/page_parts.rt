//! The data of a page, in parts.
ghost use Rattle.std.specs.Prelude.{◌≡◌, ◌++◌, ◌∷◌, List, ℕ, codes, length, map, OnOk};
ghost use Rattle.serde_json.specs.Data.{string};
ghost use Rattle.page_texts.specs.Page.{drawing_data, list_data, page_text, source_data};
ghost use Rattle.page_texts.specs.Drawn.{drawing_of, page_of, source_of};
ghost use Rattle.page_texts.specs.checked.Kept.{AreAllKept, AreKept, opening_text, text_if};
ghost use Rattle.page_texts.specs.checked.Parts.{parts_text};
ghost use Rattle.page_texts.specs.checked.SafeText.{safe_text};

use crate::drawings::{Drawing, push_drawing};
use crate::kept_boxes::{KeptBoxes, KeptDrawings};
use crate::pages::{Page, Source};
use crate::parts::{Part, push_behind, push_literal, push_number};
use call_tree::FrameTable;
use flame_layout::FlameBoxes;
use std::alloc::AllocError;
use view_texts::comma_if;

// Adds the data of a page whose boxes were kept.
pub(crate) fn push_page<'p, 'k, L: FlameBoxes>(
    parts: &mut Vec<Part<'p, 'k>>,
    page: &Page<'p, L>,
    kept: &'k KeptDrawings,
) -> Result<(), AllocError>
    requires { AreKept
        (map (drawing_of L.boxes) page.now.drawings.now) kept.now }
    ensures { OnOk result (parts_text parts.new.items ≡ parts_text parts.old.items
        ++ page_text (page_of L.boxes page.now)) }
{
    push_literal(parts, b"{\"drawings\":")?;
    push_drawings(parts, page.drawings, &kept.drawings)?;
    push_if(parts, page.has_more, b",\"more\":true")?;
    push_names(parts, &kept.names)?;
    push_opening(parts, page.is_root_below, page.is_share)?;
    push_sources(parts, page.sources)?;
    push_behind(parts, b",\"title\":", Part::Text(page.title))?;
    push_behind(parts, b",\"view\":", Part::Text(page.view))?;
    push_number(parts, b",\"whole\":", page.whole)?;
    push_literal(parts, b"}")
}

// Adds the list of the drawings.
fn push_drawings<'k, L: FlameBoxes>(
    parts: &mut Vec<Part<'_, 'k>>,
    drawings: &[Drawing<'_, L>],
    kept: &'k [KeptBoxes],
) -> Result<(), AllocError>
    requires { length drawings.now ≡ length kept.now }
    ensures { OnOk result ((names : List (List ℕ))
        → AreAllKept names (map (drawing_of L.boxes) drawings.now) kept.now
        → parts_text parts.new.items ≡ parts_text parts.old.items ++ safe_text (list_data
        (map (drawing_data names) (map (drawing_of L.boxes) drawings.now)))) }
{
    push_literal(parts, b"[")?;
    for at in 0..kept.len() {
        push_literal(parts, comma_if(at > 0))?;
        push_drawing(parts, &drawings[at], &kept[at])?;
    }
    push_literal(parts, b"]")
}

// Adds the list of the names, after its key.
fn push_names<'k>(parts: &mut Vec<Part<'_, 'k>>, names: &'k FrameTable) -> Result<(), AllocError>
    ensures { OnOk result (parts_text parts.new.items ≡ parts_text parts.old.items
        ++ (codes ",\"names\":" ++ safe_text (list_data (map string names.now)))) }
{
    push_literal(parts, b",\"names\":[")?;
    for number in 0..names.len() {
        push_behind(parts, comma_if(number > 0), Part::Name(names.name(number)))?;
    }
    push_literal(parts, b"]")
}

// Adds what only a page has that opens with the root below, or by shares.
fn push_opening(
    parts: &mut Vec<Part<'_, '_>>,
    is_below: bool,
    is_share: bool,
) -> Result<(), AllocError>
    ensures { OnOk result
        (parts_text parts.new.items ≡ parts_text parts.old.items ++ opening_text is_below is_share) }
{
    push_if(parts, is_below, b",\"root_below\":true")?;
    push_if(parts, is_share, b",\"share\":true")
}

// Adds a literal where it is said.
fn push_if(
    parts: &mut Vec<Part<'_, '_>>,
    is_said: bool,
    text: &'static [u8],
) -> Result<(), AllocError>
    ensures { OnOk result
        (parts_text parts.new.items ≡ parts_text parts.old.items ++ text_if is_said text.now) }
{
    if is_said {
        push_literal(parts, text)?;
    }
    Ok(())
}

// Adds the list of the sources, after its key.
fn push_sources<'p>(parts: &mut Vec<Part<'p, '_>>, sources: &[Source<'p>]) -> Result<(), AllocError>
    ensures { OnOk result (parts_text parts.new.items ≡ parts_text parts.old.items
        ++ (codes ",\"sources\":" ++ safe_text
        (list_data (map (λ source. source_data (source_of source)) sources.now)))) }
{
    push_literal(parts, b",\"sources\":[")?;
    for (i, source) in sources.iter().enumerate() {
        push_literal(parts, comma_if(i > 0))?;
        push_source(parts, source)?;
    }
    push_literal(parts, b"]")
}

// Adds a source.
fn push_source<'p>(parts: &mut Vec<Part<'p, '_>>, source: &Source<'p>) -> Result<(), AllocError>
    ensures { OnOk result (parts_text parts.new.items
        ≡ parts_text parts.old.items ++ safe_text (source_data (source_of source.now))) }
{
    push_behind(parts, b"{\"name\":", Part::Text(source.name))?;
    push_behind(parts, b",\"type\":", Part::Text(source.type_name))?;
    push_behind(parts, b",\"unit\":", Part::Text(source.unit))?;
    push_number(parts, b",\"weight\":", u128::from(source.weight))?;
    push_literal(parts, b"}")
}
