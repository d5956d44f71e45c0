//! Laws over the definitions, for all values. Each function does nothing, and takes no memory.
ghost use Rattle.std.specs.Prelude.{◌≡◌, ◌↔◌, ◌+◌, ◌<◌, ◌≤◌, ◌++◌, ℕ, List, [], length, All, Contains, Some};
ghost use Rattle.json.specs.Tree.{HasNumbers};
ghost use Rattle.serde_json.specs.Data.{Data, string};
ghost use Rattle.serde_json.specs.Read.{read};
ghost use Rattle.serde_json.specs.Written.{compact_text, outline};
ghost use Rattle.page_source.specs.Source.{page_head, page_tail};
ghost use Rattle.page_texts.specs.Document.{document_text};
ghost use Rattle.page_texts.specs.Columns.{no_span};
ghost use Rattle.page_texts.specs.Page.{
  Page,
  PageBox,
  kept,
  left_out,
  names_of,
  own_weight,
  page_names,
  page_text,
  page_value,
  told_boxes,
};
ghost use Rattle.page_texts.specs.PageLaws.{HasNoMarkup, HasNoSeparator, IsSmallBox, IsSmallPage, ReadsBack, boxes_told};
ghost use Rattle.page_texts.specs.ScriptSafe.{page_data_text};
ghost use Rattle.view_texts.specs.JsonLaws.{HasRisingKeys};

/// No name and no title can end the element that the data stands in: the text of every value holds
/// no `<`, no `>` and no `&`, and neither U+2028 nor U+2029.
pub fn no_character_ends_the_element()
    ensures markup { (value : Data) → HasNoMarkup (page_data_text value) }
    ensures separators { (value : Data) → HasNoSeparator (page_data_text value) }
{}

/// What a browser reads as markup in a document is its constant parts alone: what stands between them
/// has none.
pub fn markup_is_constant()
    ensures { (page : Page) → (between : List ℕ)
        × (document_text page ≡ page_head ++ (between ++ page_tail))
        × HasNoMarkup between × HasNoSeparator between }
{}

/// The data of a page reads back as JSON. The escapes change nothing of what a text is read as: each
/// name and title is read as itself, whatever its bytes are, and each value as from its text without
/// them, where each number has a text. So the data of a page is read as the value that it stands for,
/// where its numbers have 64 bits. The keys of each object in it rise, so none stands twice.
pub fn data_reads_back()
    ensures texts { (text : List ℕ) → read (page_data_text (string text)) ≡ Some (string text) }
    ensures values { (value : Data) → HasNumbers (outline value)
        → read (page_data_text value) ≡ read (compact_text value) }
    ensures pages { (page : Page) → IsSmallPage page
        → read (page_text page) ≡ Some (page_value page) }
    ensures rising { (page : Page) → HasRisingKeys (page_value page) }
{}

/// A drawing keeps exactly the boxes that weigh at least the limit, in their order, and with the
/// limit 0 all. The own weights of those that are kept and of those that are left out add up to
/// those of all.
pub fn only_narrow_boxes_are_left_out()
    ensures all { (boxes : List PageBox) → kept 0 boxes ≡ boxes }
    ensures none { (boxes : List PageBox) → left_out 0 boxes ≡ [] }
    ensures kept { (least : ℕ) (boxes : List PageBox) (box : PageBox) →
        Contains (kept least boxes) box ↔ (Contains boxes box × (least ≤ box.span.weight)) }
    ensures others { (least : ℕ) (boxes : List PageBox) (box : PageBox) →
        Contains (left_out least boxes) box ↔ (Contains boxes box × (box.span.weight < least)) }
    ensures counts { (least : ℕ) (boxes : List PageBox) →
        length (kept least boxes) + length (left_out least boxes) ≡ length boxes }
    ensures weights { (least : ℕ) (boxes : List PageBox) →
        own_weight (kept least boxes) + own_weight (left_out least boxes) ≡ own_weight boxes }
{}

/// Boxes are read back of what columns tell of them, where their numbers have 64 bits and their names
/// are among those that the columns count. So the boxes that the drawings of a page keep are a
/// function of its columns and names; `other` is a column in comparisons alone.
pub fn boxes_read_back()
    ensures boxes { (names : List (List ℕ)) (boxes : List PageBox) → All IsSmallBox boxes
        → All (Contains names) (names_of boxes)
        → boxes_told names no_span (told_boxes names no_span boxes) ≡ boxes }
    ensures drawings { (page : Page) → IsSmallPage page
        → All (ReadsBack (page_names page.drawings)) page.drawings }
{}
