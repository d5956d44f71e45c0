//! The colours of boxes.
ghost use Rattle.std.specs.Prelude.{◌≡◌, ◌≢◌, ◌*◌, ◌/◌, ◌≤◌, ◌<◌, ◌++◌, OnOk, codes};
ghost use Rattle.std.specs.Io.{StartsWith};
ghost use Rattle.svg_texts.specs.Changes.{compared_fill};
ghost use Rattle.svg_texts.specs.Fills.{change_fill, colour_of, fill_of_number, fill_of_shade, hash_of, hash_step, name_fill, root_fill, saturation, shade};

use crate::changes::Compared;
use function_sums::{share_after, share_before};
use std::alloc::AllocError;
use view_texts::append_number;

// Appends the colour of the root of a picture of one profile.
pub(crate) fn append_root_fill(out: &mut Vec<u8>) -> Result<(), AllocError>
    ensures ok { OnOk result (out.new.items ≡ out.old.items ++ root_fill) }
    ensures front { StartsWith out.new.items out.old.items }
{
    out.extend_from_slice(b"hsl(220, 8%, 82%)")
}

// Appends the colour of a name.
pub(crate) fn append_name_fill(out: &mut Vec<u8>, name: &str) -> Result<(), AllocError>
    ensures ok { OnOk result (out.new.items ≡ out.old.items ++ name_fill name.now) }
    ensures front { StartsWith out.new.items out.old.items }
{
    append_fill_of_number(out, colour_of(hash_of(name)))
}

fn append_fill_of_number(out: &mut Vec<u8>, number: u32) -> Result<(), AllocError>
    requires { number < 108 }
    ensures ok { OnOk result (out.new.items ≡ out.old.items ++ fill_of_number number) }
    ensures front { StartsWith out.new.items out.old.items }
{
    append_number(out, b"hsl(", u64::from(10 * (number % 36)))?;
    append_number(out, b", 48%, ", u64::from(74 + 4 * (number / 36)))?;
    out.extend_from_slice(b"%)")
}

// The hash of a name, byte by byte.
fn hash_of(name: &str) -> u32
    ensures { result ≡ hash_of name.now }
{
    let mut hash = 0;
    for byte in name.as_bytes() {
        hash = hash_step(hash, *byte);
    }
    hash
}

fn hash_step(hash: u32, byte: u8) -> u32
    ensures { result ≡ hash_step hash byte }
{
    ((u64::from(hash) * 31 + u64::from(byte)) % 0x1_0000_0000) as u32
}

// The number of a name's colour, by the hash of the name.
fn colour_of(hash: u32) -> u32
    ensures colour { result ≡ colour_of hash }
    ensures most { result < 108 }
{
    (u64::from(hash) * 2_654_435_769 % 0x1_0000_0000 / 0x1_0000 % 108) as u32
}

// Appends the colour of how a path changed.
pub(crate) fn append_compared_fill(out: &mut Vec<u8>, compared: Compared) -> Result<(), AllocError>
    ensures ok { OnOk result (out.new.items ≡ out.old.items ++ compared_fill compared) }
    ensures front { StartsWith out.new.items out.old.items }
{
    let Compared { weights, whole } = compared;
    match whole {
        None => append_change_fill(out, u128::from(weights.before), u128::from(weights.after)),
        Some(whole) => {
            append_change_fill(
                out,
                share_before(whole, weights),
                share_after(whole, weights),
            )
        }
    }
}

// Appends the colour of a change.
fn append_change_fill(out: &mut Vec<u8>, before: u128, after: u128) -> Result<(), AllocError>
    ensures ok { OnOk result (out.new.items ≡ out.old.items ++ change_fill before after) }
    ensures front { StartsWith out.new.items out.old.items }
{
    if before == after {
        return append_fill_of_shade(out, 6, 0);
    }
    let hue = if before < after { 6 } else { 213 };
    append_fill_of_shade(out, hue, shade(before, after))
}

// How much a weight or a share changed, in tenths of the greater one, rounded up.
fn shade(before: u128, after: u128) -> u64
    requires { before ≢ after }
    ensures shade { result ≡ shade before after }
    ensures most { result ≤ 10 }
{
    let most = before.max(after);
    let change = before.abs_diff(after);
    let mut shade = 0;
    while shade < 10 && tenths(most, shade) < change {
        shade += 1;
    }
    shade
}

// So many tenths of a number, rounded down.
fn tenths(number: u128, count: u64) -> u128
    requires { count ≤ 10 }
    ensures { result ≡ count * number / 10 }
{
    let count = u128::from(count);
    count * (number / 10) + count * (number % 10) / 10
}

fn append_fill_of_shade(out: &mut Vec<u8>, hue: u64, shade: u64) -> Result<(), AllocError>
    requires { shade ≤ 10 }
    ensures ok { OnOk result (out.new.items ≡ out.old.items ++ fill_of_shade hue shade) }
    ensures front { StartsWith out.new.items out.old.items }
{
    let saturation = saturation(shade);
    append_number(out, b"hsl(", hue)?;
    append_number(out, b", ", saturation / 10)?;
    append_number(out, b".", saturation % 10)?;
    append_number(out, b"%, ", 88 - 2 * shade)?;
    out.extend_from_slice(b".0%)")
}

// The tenths of a percent that a shade is saturated by.
fn saturation(shade: u64) -> u64
    requires { shade ≤ 10 }
    ensures { result ≡ saturation shade }
{
    if shade == 0 {
        0
    } else {
        (2595 + 481 * shade) / 10
    }
}
