//! The lines of locations.

ghost use Rattle.std.specs.Prelude.{◌≡◌, ◌++◌, ℕ, List, IfOk, map};
ghost use Rattle.profile_messages.specs.SeenIndex.{code_location_id, IsIndexOf};
ghost use Rattle.profile_messages.specs.SeenProfile.{seen_locations};
ghost use Rattle.profile_tables.specs.checked.Frames.{text_of, name_in, named_in, frame_named, lines_named, AreFramesOf, IsWhole};

use crate::frames::{Frame, Frames};
use crate::functions::FunctionNames;
use profile_messages::{Index, Line, Profile, Span};
use run_options::Naming;
use std::alloc::{AllocError, Global};

/// The frame of a line at an address, where functions have these places, and names these.
fn frame_of(functions: &Index, names: &[usize], address: u64, line: Line) -> Frame
    ensures { (naming : Naming) (texts : List (List ℕ)) →
        text_of texts naming result
        ≡ frame_named (name_in functions.now names.now texts) naming address line }
{
    if line.function_id == 0 {
        return Frame::Address(address);
    }
    let Some(place) = functions.get(line.function_id) else {
        return Frame::Address(address);
    };
    match names.get(place) {
        Some(name) => Frame::Function(*name, line.line),
        None => Frame::Address(address),
    }
}

/// Appends the frames of a location at an address that has these lines, leaf first: its last line is the caller into which the earlier
/// ones were inlined (profile.proto, message Location, `line`).
fn append_frames(
    all: &mut Vec<Frame>,
    functions: &Index,
    names: &[usize],
    address: u64,
    lines: &[Line],
) -> Result<(), AllocError>
    ensures { IfOk result (λ _. (naming : Naming) (texts : List (List ℕ)) →
        map (text_of texts naming) all.new.items
        ≡ map (text_of texts naming) all.old.items
        ++ lines_named (name_in functions.now names.now texts) naming address lines.now) }
{
    if lines.is_empty() {
        return Ok(all.push(Frame::Address(address))?);
    }
    for line in lines {
        all.push(frame_of(functions, names, address, *line))?;
    }
    Ok(())
}

/// The frames of a profile's locations, which have these places.
pub(crate) fn frames_of(
    alloc: Global,
    profile: &Profile<'_>,
    functions: &Index,
    named: FunctionNames,
    naming: Naming,
    locations: Index,
) -> Result<Frames, AllocError>
    requires { IsIndexOf code_location_id profile.now.locations.items locations }
    ensures frames { IfOk result
        (AreFramesOf (named_in functions.now named) naming (seen_locations profile.now)) }
    ensures whole { IfOk result IsWhole }
{
    let FunctionNames { names, places } = named;
    let mut all = Vec::new(alloc);
    let mut spans = Vec::with_capacity(alloc, profile.locations.len())?;
    for location in &profile.locations {
        let start = all.len();
        let lines = profile.lines(location.lines);
        append_frames(&mut all, functions, &places, location.address, lines)?;
        let end = all.len();
        spans.push(Span { start, end })?;
    }
    Ok(Frames {
        names,
        naming,
        all,
        spans,
        locations,
    })
}
