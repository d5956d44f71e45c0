//! The sample types of a profile, a line each.
ghost use Rattle.std.specs.Prelude.{◌≡◌, [], ◌∷◌, ◌++◌, ◌<◌, ◌^◌, OnOk, length, slice_index_or};
ghost use Rattle.std.specs.Io.{StartsWith};
ghost use Rattle.view_texts.specs.Types.{is_at, lines_from, mark, type_line, type_lines};

use byte_io::Pieces;
use profile_messages::{SampleType, SampleTypes};
use std::alloc::{AllocError, Global};

/// The text of sample types, a line for each, in order: its name, its unit, and `default` where it is the default one, with tabs
/// between them. A line is a piece.
#[derive(Clone, Copy)]
pub struct TypesText<'a> {
    pub types: &'a SampleTypes,
}

impl<'a> TypesText<'a> {
    /// The text of these types.
    pub fn of(types: &'a SampleTypes) -> TypesText<'a>
        ensures types { result.types.now ≡ types.now }
        ensures few { length (type_lines types.now) < 2 ^ 64 }
    {
        let _count = count(types.types.get());
        TypesText { types }
    }
}

impl Pieces for TypesText<'_> {
    ghost pieces = { λ text. type_lines text.types.now };

    fn count(&self) -> usize {
        count(self.types.types.get())
    }

    fn append_piece(&self, _alloc: Global, at: usize, out: &mut Vec<u8>) -> Result<(), AllocError> {
        append_line_at(out, self.types.types.get(), self.types.default, at)
    }
}

fn count(types: &[SampleType]) -> usize
    ensures count { result ≡ length types.now }
    ensures few { length types.now < 2 ^ 64 }
{
    types.len()
}

fn append_line_at(
    out: &mut Vec<u8>,
    types: &[SampleType],
    default: Option<usize>,
    at: usize,
) -> Result<(), AllocError>
    requires { at < length types.now }
    ensures ok { OnOk result (out.new.items
        ≡ out.old.items ++ slice_index_or (lines_from default 0 types.now) at []) }
    ensures front { StartsWith out.new.items out.old.items }
{
    append_line(out, &types[at], is_default(default, at))
}

fn is_default(default: Option<usize>, at: usize) -> bool
    ensures { result ≡ is_at default at }
{
    match default {
        Some(place) => place == at,
        None => false,
    }
}

fn append_line(
    out: &mut Vec<u8>,
    sample_type: &SampleType,
    is_default: bool,
) -> Result<(), AllocError>
    ensures ok { OnOk result (out.new.items ≡ out.old.items ++ type_line sample_type.now is_default) }
    ensures front { StartsWith out.new.items out.old.items }
{
    out.extend_from_slice(sample_type.name.get().as_bytes())?;
    out.extend_from_slice(b"\t")?;
    out.extend_from_slice(sample_type.unit.get().as_bytes())?;
    out.extend_from_slice(ending(is_default))
}

fn ending(is_default: bool) -> &'static [u8]
    ensures { result.now ≡ mark is_default ++ 10 ∷ [] }
{
    if is_default { b"\tdefault\n" } else { b"\n" }
}
