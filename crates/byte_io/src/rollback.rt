//! Taking back what was appended before an error.
ghost use Rattle.std.specs.Prelude.{◌≡◌, OnOk, OnErr, take};

use std::alloc::AllocError;

/// Gives the answer of an appending back. Where it is an error, `out` is cut to the length that it
/// had before, so that none of a text stands in it.
pub fn truncate_on_error(
    out: &mut Vec<u8>,
    before: usize,
    answer: Result<(), AllocError>,
) -> Result<(), AllocError>
    ensures answer { result ≡ answer }
    ensures ok { OnOk result (out.new.items ≡ out.old.items) }
    ensures err { OnErr result (out.new.items ≡ take before out.old.items) }
{
    if answer.is_err() {
        out.truncate(before);
    }
    answer
}
