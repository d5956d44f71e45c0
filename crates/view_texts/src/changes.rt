//! How a change of a weight is said.

ghost use Rattle.std.specs.Prelude.{◌≡◌, ◌++◌, ◌<◌, ◌≤◌, ◌≢◌, OnOk, OnErr};
ghost use Rattle.std.specs.Io.{StartsWith};
ghost use Rattle.view_texts.specs.WeightTexts.{change_sign, change_text, percent_change};

use crate::quotients::append_quotient;
use byte_io::truncate_on_error;
use std::alloc::AllocError;

/// Appends how much more or less there is after than before, as `+12.5%`, `−8.33%`, `new`, `gone` or `±0%`.
pub fn append_change(out: &mut Vec<u8>, before: u64, after: u64) -> Result<(), AllocError>
    ensures ok { OnOk result (out.new.items ≡ out.old.items ++ change_text before after) }
    ensures err { OnErr result (out.new.items ≡ out.old.items) }
{
    let length = out.len();
    let answer = append_difference(out, before, after);
    truncate_on_error(out, length, answer)
}

// Appends how much more or less there is, or a front of that.
#[tactic(auto, using(crate::proofs::SignBytes::same), unfolding(crate::specs::WeightTexts::change_text))]
fn append_difference(out: &mut Vec<u8>, before: u64, after: u64) -> Result<(), AllocError>
    ensures ok { OnOk result (out.new.items ≡ out.old.items ++ change_text before after) }
    ensures front { StartsWith out.new.items out.old.items }
{
    if before == after {
        out.extend_from_slice("±0%".as_bytes())
    } else if before == 0 {
        out.extend_from_slice(b"new")
    } else if after == 0 {
        out.extend_from_slice(b"gone")
    } else {
        append_percent_change(out, before, after)
    }
}

// Appends the change in percent of what there was before, or a front of that.
fn append_percent_change(out: &mut Vec<u8>, before: u64, after: u64) -> Result<(), AllocError>
    requires { 0 < before }
    ensures ok { OnOk result (out.new.items ≡ out.old.items ++ percent_change before after) }
    ensures front { StartsWith out.new.items out.old.items }
{
    out.extend_from_slice(change_sign(before, after).as_bytes())?;
    append_quotient(out, 100 * u128::from(before.abs_diff(after)), before)?;
    out.push(b'%')?;
    Ok(())
}

#[tactic(auto, using(crate::proofs::SignBytes::minus))]
fn change_sign(before: u64, after: u64) -> &'static str
    ensures { result.now ≡ change_sign before after }
{
    if before < after { "+" } else { "−" }
}
