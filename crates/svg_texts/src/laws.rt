//! Laws over the definitions, for all values. Each function does nothing, and takes no memory.
ghost use Rattle.std.specs.Prelude.{◌≡◌, ℕ, ◌+◌, ◌∷◌, true, All, List, length, map, sum_by};
ghost use Rattle.std.specs.Str.{IsUtf8};
ghost use Rattle.sample_tables.specs.declared.samples.Sample.{Sample};
ghost use Rattle.merged_stacks.specs.Timeline.{total_weight};
ghost use Rattle.flame_layout.specs.Boxes.{SeenBox};
ghost use Rattle.flame_layout.specs.Chart.{chart_of};
ghost use Rattle.flame_layout.specs.Comparison.{compared_boxes_of};
ghost use Rattle.flame_layout.specs.Graph.{graph_of};
ghost use Rattle.svg_texts.specs.Shown.{shown, xml_text};
ghost use Rattle.svg_texts.specs.Svg.{Picture, drawn, foot_text, height_of, left_out, own_weight, paper_element, rectangle_of, rows_of, svg_text, tip, written_on};
ghost use Rattle.svg_texts.specs.SvgLaws.{IsXmlText, is_inert};
ghost use Rattle.svg_texts.specs.SvgTags.{rectangles, svg_tags, tags};

/// The own weights of all boxes of a picture add up to the weight of the samples that it is drawn of: each sample
/// ends in one box. So they have 64 bits where the total has.
pub fn own_weights_add_up()
    ensures chart { (samples : List Sample)
        → sum_by (λ span. span.own) (chart_of samples) ≡ total_weight samples }
    ensures graph { (samples : List Sample)
        → sum_by (λ span. span.own) (graph_of samples) ≡ total_weight samples }
    ensures comparison { (before after : List Sample)
        → sum_by (λ compared. compared.span.own) (compared_boxes_of before after)
        ≡ total_weight after }
{}

/// No name, no title and no unit is markup: what is shown of any text, whole or cut, has no `<`, no `>`, no quote,
/// and no `&` but that of one of the five escapes. So it is with all that is said of a box, with what stands on it,
/// and with the foot: their numbers, units and changes bring no markup either.
pub fn names_are_no_markup()
    ensures texts { (characters : List ℕ) → is_inert (xml_text characters) ≡ true }
    ensures shown { (text : List ℕ) → is_inert (shown text) ≡ true }
    ensures tips { (picture : Picture) (box : SeenBox) → is_inert (tip picture box) ≡ true }
    ensures labels { (picture : Picture) (box : SeenBox) → is_inert (written_on picture box) ≡ true }
    ensures feet { (picture : Picture) (count weight : ℕ)
        → is_inert (foot_text picture count weight) ≡ true }
{}

/// All tags of a picture are those that its definition writes out: of the heading, of each box that is drawn, in order,
/// and of the foot. Its rectangles are the paper and then one for each box that is drawn, at its edges.
pub fn tags_are_of_drawn_boxes()
    ensures tags { (picture : Picture) (boxes : List SeenBox)
        → tags (svg_text picture boxes) ≡ svg_tags picture boxes }
    ensures rectangles { (picture : Picture) (boxes : List SeenBox)
        → rectangles (tags (svg_text picture boxes))
        ≡ paper_element picture.width (height_of (rows_of (drawn picture boxes)))
        ∷ map (rectangle_of picture (rows_of (drawn picture boxes))) (drawn picture boxes) }
{}

/// Where the title, the unit and all names are UTF-8, as every `str` is, so is the picture, and each of its characters
/// is one that XML 1.0 has, and is seen or ends a line.
pub fn characters_are_of_xml()
    ensures { (picture : Picture) (boxes : List SeenBox) → IsUtf8 picture.title → IsUtf8 picture.unit
        → All (λ box. IsUtf8 box.span.name) boxes → IsXmlText (svg_text picture boxes) }
{}

/// What is told to be left out is all that is not drawn: the boxes that are drawn and those that are left out are as
/// many as all, and their own weights add up to those of all.
pub fn others_are_left_out()
    ensures counts { (picture : Picture) (boxes : List SeenBox)
        → length (drawn picture boxes) + length (left_out picture boxes) ≡ length boxes }
    ensures weights { (picture : Picture) (boxes : List SeenBox)
        → own_weight (drawn picture boxes) + own_weight (left_out picture boxes) ≡ own_weight boxes }
{}
