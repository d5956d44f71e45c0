//! Whole numbers with commas.

ghost use Rattle.std.specs.Prelude.{◌≡◌, ◌∷◌, ◌++◌, OnOk};
ghost use Rattle.std.specs.Io.{StartsWith};
ghost use Rattle.view_texts.specs.Quotients.{comma_before, grouped, with_commas};

use itoa::Buffer;
use std::alloc::AllocError;

// Appends a number with a comma between each three digits, or a front of it.
pub(crate) fn append_grouped(out: &mut Vec<u8>, number: u128) -> Result<(), AllocError>
    ensures ok { OnOk result (out.new.items ≡ out.old.items ++ grouped number) }
    ensures front { StartsWith out.new.items out.old.items }
{
    let mut digits = Buffer::new();
    append_digits(out, digits.format(number).as_bytes())
}

// Appends digits with their commas, or a front of them.
fn append_digits(out: &mut Vec<u8>, digits: &[u8]) -> Result<(), AllocError>
    ensures ok { OnOk result (out.new.items ≡ out.old.items ++ with_commas digits.now) }
    ensures front { StartsWith out.new.items out.old.items }
{
    for (at, digit) in digits.iter().enumerate() {
        append_digit(out, *digit, digits.len() - at - 1)?;
    }
    Ok(())
}

// Appends a digit that so many follow, and the comma behind it, or a front of that.
fn append_digit(out: &mut Vec<u8>, digit: u8, following: usize) -> Result<(), AllocError>
    ensures ok { OnOk result (out.new.items ≡ out.old.items ++ (digit ∷ comma_before following)) }
    ensures front { StartsWith out.new.items out.old.items }
{
    out.push(digit)?;
    if following > 0 && following % 3 == 0 {
        out.push(b',')?;
    }
    Ok(())
}
