//! Elements of SVG.
ghost use Rattle.std.specs.Prelude.{◌≡◌, ◌++◌, OnOk};
ghost use Rattle.std.specs.Io.{StartsWith};
ghost use Rattle.svg_texts.specs.Shown.{shown};
ghost use Rattle.svg_texts.specs.Svg.{title_element, text_element, text_tag};

use crate::shown_texts::append_shown;
use std::alloc::AllocError;
use view_texts::append_number;

// Appends the element of a title.
#[tactic(auto, unfolding(crate::specs::Svg::title_element))]
pub(crate) fn append_title_element(out: &mut Vec<u8>, title: &str) -> Result<(), AllocError>
    ensures ok { OnOk result (out.new.items ≡ out.old.items ++ title_element (shown title.now)) }
    ensures front { StartsWith out.new.items out.old.items }
{
    out.extend_from_slice(b"<title>")?;
    append_shown(out, title)?;
    out.extend_from_slice(b"</title>")
}

// Appends the element of a text that is seen.
pub(crate) fn append_text_element(
    out: &mut Vec<u8>,
    left: u64,
    base: u64,
    text: &str,
) -> Result<(), AllocError>
    ensures ok { OnOk result (out.new.items ≡ out.old.items ++ text_element left base (shown text.now)) }
    ensures front { StartsWith out.new.items out.old.items }
{
    append_text_tag(out, left, base)?;
    append_shown(out, text)?;
    out.extend_from_slice(b"</text>")
}

// Appends what stands before a text that is seen.
#[tactic(auto, unfolding(crate::specs::Svg::text_tag))]
pub(crate) fn append_text_tag(out: &mut Vec<u8>, left: u64, base: u64) -> Result<(), AllocError>
    ensures ok { OnOk result (out.new.items ≡ out.old.items ++ text_tag left base) }
    ensures front { StartsWith out.new.items out.old.items }
{
    append_number(out, b"<text x=\"", left)?;
    append_number(out, b"\" y=\"", base)?;
    out.extend_from_slice(b"\">")
}
