//! The text of a whole page.
ghost use Rattle.std.specs.Prelude.{◌≡◌, ◌≢◌, ◌<◌, ◌^◌, ◌++◌, length, map, OnOk, OnErr, IfOk, IsErrOf};
ghost use Rattle.std.specs.Io.KnownBytes.{Appends};
ghost use Rattle.std.specs.List.{flat_map};
ghost use Rattle.byte_io.specs.Calls.{one_more};
ghost use Rattle.byte_io.specs.Pieces.{AppendsFront};
ghost use Rattle.page_texts.specs.Page.{page_text};
ghost use Rattle.page_texts.specs.Document.{document_text};
ghost use Rattle.page_texts.specs.Drawn.{drawing_of, page_of};
ghost use Rattle.page_texts.specs.checked.Kept.{AreKept};
ghost use Rattle.page_texts.specs.checked.Parts.{parts_text};

use crate::drawings::Drawing;
use crate::keeping::keep_drawings;
use crate::kept_boxes::KeptDrawings;
use crate::page_parts::push_page;
use crate::part_texts::PartText;
use crate::parts::push_literals;
use byte_io::{Outlet, PieceFault, append_pieces, send_pieces};
use flame_layout::FlameBoxes;
use page_source::{head, tail};
use std::alloc::{AllocError, Global};

/// A source of a page.
#[derive(Clone, Copy, Debug)]
pub struct Source<'a> {
    /// The file as it was given, `-` for standard input.
    pub name: &'a str,
    /// The name of its sample type, empty for folded text.
    pub type_name: &'a str,
    /// The unit of its sample type, empty for folded text.
    pub unit: &'a str,
    /// The sum of the weights of its samples.
    pub weight: u64,
}

/// What a page shows.
#[derive(Clone, Copy, Debug)]
pub struct Page<'a, L> {
    /// What can be looked at. The page opens with the last.
    pub drawings: &'a [Drawing<'a, L>],
    /// The files, in the order of the command line.
    pub sources: &'a [Source<'a>],
    /// What the page is called.
    pub title: &'a str,
    /// `graph`, `chart` or `compare`.
    pub view: &'a str,
    /// The weight of all samples of all sources, also of those that a filter leaves out.
    pub whole: u128,
    /// It opens with the root below.
    pub is_root_below: bool,
    /// It opens by shares of what each profile weighs, and not by weights.
    pub is_share: bool,
    /// More samples are to come, in a page that takes this one's place: it loads itself again.
    pub has_more: bool,
}

/// Sends a page: the document that a browser opens. No name and no title can be read as markup in it. It
/// is sent while its text is made; at the first call that fails it ends, and leaves a front of the text.
pub fn send_page<L: FlameBoxes, W: Outlet>(
    alloc: Global,
    page: &Page<'_, L>,
    out: &mut W,
) -> Result<(), PieceFault>
    ensures ok { OnOk result (Appends (W.contents out.old) (W.contents out.new)
        (document_text (page_of L.boxes page.now))) }
    ensures flushed { OnOk result (W.is_flushed out.new) }
    ensures front { OnErr result
        (AppendsFront (document_text (page_of L.boxes page.now))
        (W.contents out.old) (W.contents out.new)) }

    // As in `send_pieces`.
    ensures output { IsErrOf result PieceFault.Output
        → W.failures out.new ≡ one_more (W.failures out.old) }
    ensures unfailed { result ≢ Err PieceFault.Output → W.failures out.new ≡ W.failures out.old }
{
    let kept = keep_drawings(alloc, page.drawings)?;
    let document = data_between(alloc, page, &kept, head(), tail())?;
    send_pieces(alloc, &document, out)
}

/// Appends the data of a page, in which no name and no title can end the script element that it
/// stands in. An `Err` changes nothing.
pub fn append_page_data<L: FlameBoxes>(
    alloc: Global,
    out: &mut Vec<u8>,
    page: &Page<'_, L>,
) -> Result<(), AllocError>
    ensures ok { OnOk result (out.new.items
        ≡ out.old.items ++ page_text (page_of L.boxes page.now)) }
    ensures err { OnErr result (out.new.items ≡ out.old.items) }
{
    let kept = keep_drawings(alloc, page.drawings)?;
    let data = data_between(alloc, page, &kept, &[], &[])?;
    append_pieces(alloc, &data, out)
}

// The text of the data between literal pieces, of boxes that were kept.
fn data_between<'p, 'k, L: FlameBoxes>(
    alloc: Global,
    page: &Page<'p, L>,
    kept: &'k KeptDrawings,
    head: &[&'static str],
    tail: &[&'static str],
) -> Result<PartText<'p, 'k>, AllocError>
    requires { AreKept
        (map (drawing_of L.boxes) page.now.drawings.now) kept.now }
    ensures text { IfOk result (λ text. parts_text text.parts.items ≡ flat_map (λ piece. piece.now) head.now
        ++ (page_text (page_of L.boxes page.now) ++ flat_map (λ piece. piece.now) tail.now)) }
    ensures few { IfOk result (λ text. length text.parts.items < 2 ^ 64) }
{
    let mut parts = Vec::new(alloc);
    push_literals(&mut parts, head)?;
    push_page(&mut parts, page, kept)?;
    push_literals(&mut parts, tail)?;
    let _count = parts.len();
    Ok(PartText { parts })
}
