//! The numbers of the boxes that a page keeps.
ghost use Rattle.std.specs.Prelude.{◌≡◌, ◌<◌, ◌≤◌, length};
ghost use Rattle.page_texts.specs.Columns.{end_of, gap_of, is_on, rest_of, tail_of, up_of};
ghost use Rattle.page_texts.specs.checked.Kept.{before_at, is_under_at, number_in, span_in};

use call_tree::FrameTable;

// A box that is kept, with the number of its name.
#[derive(Clone, Copy)]
pub(crate) struct KeptBox {
    pub(crate) depth: u32,
    pub(crate) name: usize,
    pub(crate) other: u64,
    pub(crate) own: u64,
    pub(crate) start: u64,
    pub(crate) weight: u64,
}

// What stands before the first box of a drawing.
pub(crate) const NO_BOX: KeptBox = KeptBox {
    depth: 0,
    name: 0,
    other: 0,
    own: 0,
    start: 0,
    weight: 0,
};

// A column of a drawing.
#[derive(Clone, Copy)]
pub(crate) enum Column {
    Gap,
    Name,
    Other,
    Rest,
    Tail,
    Up,
}

impl KeptBox {
    // The box's number in a column, by the box before it and by whether the next one stands on it.
    pub(crate) fn number(&self, column: Column, before: &KeptBox, is_under: bool) -> u64
        ensures { result ≡ number_in column before.now self.now is_under }
    {
        match column {
            Column::Gap => self.gap(before),
            Column::Name => self.name as u64,
            Column::Other => self.other,
            Column::Rest => self.rest(is_under),
            Column::Tail => self.tail(before),
            Column::Up => self.up(before),
        }
    }

    // Whether it stands on the box before it.
    pub(crate) fn is_on(&self, before: &KeptBox) -> bool
        ensures { result ≡ is_on (span_in before.now) (span_in self.now) }
    {
        self.up(before) == 0
    }

    // How many levels it is nearer to the root than one that stands on the box before it.
    fn up(&self, before: &KeptBox) -> u64
        ensures { result ≡ up_of (span_in before.now) (span_in self.now) }
    {
        (u64::from(before.depth) + 1).wrapping_sub(u64::from(self.depth))
    }

    // Where it ends.
    fn end(&self) -> u64
        ensures { result ≡ end_of (span_in self.now) }
    {
        self.start.wrapping_add(self.weight)
    }

    // How far it begins behind the front of the box on which it stands, or behind the end of the one before it.
    fn gap(&self, before: &KeptBox) -> u64
        ensures { result ≡ gap_of (span_in before.now) (span_in self.now) }
    {
        if self.is_on(before) {
            self.start.wrapping_sub(before.start)
        } else {
            self.start.wrapping_sub(before.end())
        }
    }

    // How far before the end of the box on which it stands it ends, or what it weighs.
    fn tail(&self, before: &KeptBox) -> u64
        ensures { result ≡ tail_of (span_in before.now) (span_in self.now) }
    {
        if self.is_on(before) {
            before.end().wrapping_sub(self.end())
        } else {
            self.weight
        }
    }

    // Its own weight where the next box stands on it, and else what of its weight is not its own.
    fn rest(&self, is_under: bool) -> u64
        ensures { result ≡ rest_of is_under (span_in self.now) }
    {
        if is_under {
            self.own
        } else {
            self.weight.wrapping_sub(self.own)
        }
    }
}

// The box before one of these, or the one that stands before the first of them.
pub(crate) fn before_at(first: &KeptBox, boxes: &[KeptBox], at: usize) -> KeptBox
    requires { at ≤ length boxes.now }
    ensures { result ≡ before_at first.now boxes.now at }
{
    if at > 0 { boxes[at - 1] } else { *first }
}

// Whether the box behind one of these stands on it.
pub(crate) fn is_under_at(boxes: &[KeptBox], at: usize) -> bool
    requires { at < length boxes.now }
    ensures { result ≡ is_under_at boxes.now at }
{
    at + 1 < boxes.len() && boxes[at + 1].is_on(&boxes[at])
}

// The boxes of a drawing that are kept, and what is told of the others.
#[derive(Drop)]
pub(crate) struct KeptBoxes {
    pub(crate) boxes: Vec<KeptBox>,
    pub(crate) left_boxes: usize,
    pub(crate) left_weight: u128,
}

// What is kept of the drawings of a page, and the names of their boxes, each once.
#[derive(Drop)]
pub(crate) struct KeptDrawings {
    pub(crate) names: FrameTable,
    pub(crate) drawings: Vec<KeptBoxes>,
}
