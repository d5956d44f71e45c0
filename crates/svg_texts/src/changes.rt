//! How a path changed from one profile to the other.
ghost use Rattle.std.specs.Prelude.{◌≡◌, ◌++◌, OnOk};
ghost use Rattle.std.specs.Io.{StartsWith};
ghost use Rattle.svg_texts.specs.Changes.{said_change};

use function_sums::{Change, append_points_of};
use std::alloc::AllocError;
use view_texts::append_change;

// The weights of a path before and after, and what both profiles weigh, where shares of that are compared.
#[derive(Clone, Copy)]
pub(crate) struct Compared {
    pub(crate) weights: Change,
    pub(crate) whole: Option<Change>,
}

// Appends how a path changed.
pub(crate) fn append_said_change(out: &mut Vec<u8>, compared: Compared) -> Result<(), AllocError>
    ensures ok { OnOk result (out.new.items ≡ out.old.items ++ said_change compared) }
    ensures front { StartsWith out.new.items out.old.items }
{
    let Compared { weights, whole } = compared;
    match whole {
        None => append_change(out, weights.before, weights.after),
        Some(whole) => append_points_of(out, weights, whole),
    }
}
