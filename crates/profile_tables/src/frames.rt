//! The frames of locations.

ghost use Rattle.std.specs.Prelude.{◌≡◌, ◌++◌, IfOk, IfSome, map, reverse, string_bytes};

use crate::naming::{address_frame, append_line};
use profile_messages::{Index, Span};
use run_options::Naming;
use stack_core::Names;
use std::alloc::{AllocError, Global};

/// What a frame is named by.
#[derive(Clone, Copy, Debug)]
pub(crate) enum Frame {
    /// A location without lines, or a line of no function: the address.
    Address(u64),
    /// The place of a function's name, and the line, seen as its 64 bits.
    Function(usize, u64),
}

/// The frames of a profile's locations. They refer to names, so that a name which many frames have is kept once.
#[derive(Debug, Drop)]
pub(crate) struct Frames {
    pub(crate) names: Vec<String>,
    pub(crate) naming: Naming,
    /// The frames of all locations, each one's as its lines stand in the file, which is leaf first.
    pub(crate) all: Vec<Frame>,
    /// Where the frames of each location stand among all, by its place.
    pub(crate) spans: Vec<Span>,
    pub(crate) locations: Index,
}

impl Frames {
    ghost use Rattle.profile_tables.specs.checked.Frames.{text_in, name_in_place, frames_at, stacks_of, LendsFrames};
    ghost use Rattle.profile_tables.specs.checked.FrameNumbers.{IsPlaceOf};

    /// Where the frames of a location id stand among all.
    #[inline]
    pub(crate) fn span(&self, id: u64) -> Option<Span>
        ensures { IsPlaceOf self.now id result }
    {
        let span = self.spans.get(self.locations.get(id)?)?;
        self.all.get(span.start..span.end)?;
        Some(*span)
    }

    /// The frames of a location id, leaf first.
    #[inline]
    pub(crate) fn of(&self, id: u64) -> Option<&[Frame]>
        ensures { LendsFrames self.now id result }
    {
        let span = self.span(id)?;
        self.all.get(span.start..span.end)
    }

    /// The place of the name that is a frame's whole name.
    pub(crate) fn plain_place(&self, frame: Frame) -> Option<usize>
        ensures { IfSome result (λ place. name_in_place self.now place ≡ text_in self.now frame) }
    {
        match (self.naming, frame) {
            (Naming::Plain, Frame::Function(place, _)) => Some(place),
            _ => None,
        }
    }

    /// The name at a place.
    pub(crate) fn plain_name(&self, place: usize) -> &str
        ensures { result.now ≡ name_in_place self.now place }
    {
        self.names.get(place).map_or("", |name| name.as_str())
    }

    /// The name of a frame.
    pub(crate) fn name(&self, alloc: Global, frame: Frame) -> Result<String, AllocError>
        ensures { IfOk result (λ name. string_bytes name ≡ text_in self.now frame) }
    {
        match frame {
            Frame::Address(address) => address_frame(alloc, address),
            Frame::Function(place, line) => {
                let mut text = String::from_str(alloc, self.plain_name(place))?;
                append_line(&mut text, self.naming, line)?;
                Ok(text)
            }
        }
    }

    /// Appends the names of a location's frames, root first.
    pub(crate) fn append_names(
        &self,
        alloc: Global,
        stack: &mut Vec<String>,
        leaf_first: &[Frame],
    ) -> Result<(), AllocError>
        ensures { IfOk result (λ _.
            map string_bytes stack.new.items
            ≡ map string_bytes stack.old.items ++ reverse (map (text_in self.now) leaf_first.now)) }
    {
        let mut left = leaf_first;
        while let Some((frame, before)) = left.split_last() {
            stack.push(self.name(alloc, *frame)?)?;
            left = before;
        }
        Ok(())
    }

    /// The names of each location's frames, root first, by the location's place. Each location has names of its own.
    pub(crate) fn stacks(&self, alloc: Global) -> Result<Vec<Names>, AllocError>
        ensures { IfOk result (λ stacks. stacks.items ≡ stacks_of self.now) }
    {
        let mut stacks = Vec::with_capacity(alloc, self.spans.len())?;
        for span in &self.spans {
            let frames = self.all.get(span.start..span.end).unwrap_or(&[]);
            let mut stack = Vec::with_capacity(alloc, frames.len())?;
            self.append_names(alloc, &mut stack, frames)?;
            stacks.push(Names::of(stack))?;
        }
        Ok(stacks)
    }
}
