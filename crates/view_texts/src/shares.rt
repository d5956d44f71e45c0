//! What part of a whole a weight is.

ghost use Rattle.std.specs.Prelude.{◌≡◌, ◌++◌, ◌<◌, ◌^◌, length, OnOk, OnErr};
ghost use Rattle.std.specs.Io.{StartsWith};
ghost use Rattle.view_texts.specs.Shares.{hundredths, percent_text, points_sign, points_text, share_text};

use crate::quotients::nearest;
use byte_io::truncate_on_error;
use itoa::Buffer;
use std::alloc::AllocError;

/// A weight, and the whole of which it is a part.
#[derive(Clone, Copy, Debug)]
pub struct Part {
    pub weight: u64,
    pub whole: u64,
}

/// Appends what part of the whole a weight is, in percent with two decimals. Of nothing, each is nothing.
pub fn append_share(out: &mut Vec<u8>, weight: u64, whole: u64) -> Result<(), AllocError>
    ensures ok { OnOk result (out.new.items ≡ out.old.items ++ share_text whole weight) }
    ensures err { OnErr result (out.new.items ≡ out.old.items) }
{
    let before = out.len();
    let answer = append_percent(out, hundredths(whole, weight));
    truncate_on_error(out, before, answer)
}

/// Appends by how much more or less of its whole the one part is than the other, as `+2.50%`: the difference of what
/// `append_share` says of them, with its sign.
pub fn append_points(out: &mut Vec<u8>, before: Part, after: Part) -> Result<(), AllocError>
    ensures ok { OnOk result (out.new.items ≡ out.old.items
        ++ points_text (hundredths before.whole before.weight) (hundredths after.whole after.weight)) }
    ensures err { OnErr result (out.new.items ≡ out.old.items) }
{
    let length = out.len();
    let (old, new) = (
        hundredths(before.whole, before.weight),
        hundredths(after.whole, after.weight),
    );
    let answer = append_difference(out, old, new);
    truncate_on_error(out, length, answer)
}

/// How many bytes `append_share` appends.
pub fn share_width(weight: u64, whole: u64) -> usize
    ensures { result ≡ length (share_text whole weight) }
{
    Buffer::new().format(hundredths(whole, weight) / 100).len() + 4
}

// What part of the whole a weight is, in hundredths of a percent.
fn hundredths(whole: u64, weight: u64) -> u128
    ensures { result ≡ hundredths whole weight }
{
    if whole == 0 {
        return 0;
    }
    nearest(10_000 * u128::from(weight), whole)
}

// Appends so many hundredths of a percent, or a front of that.
fn append_percent(out: &mut Vec<u8>, parts: u128) -> Result<(), AllocError>
    ensures ok { OnOk result (out.new.items ≡ out.old.items ++ percent_text parts) }
    ensures front { StartsWith out.new.items out.old.items }
{
    let mut digits = Buffer::new();
    out.extend_from_slice(digits.format(parts / 100).as_bytes())?;
    let tenths = b'0' + (parts / 10 % 10) as u8;
    let hundredths = b'0' + (parts % 10) as u8;
    out.extend_from_slice(&[b'.', tenths, hundredths, b'%'])
}

// Appends by how many hundredths of a percent there is more or less, or a front of that.
fn append_difference(out: &mut Vec<u8>, before: u128, after: u128) -> Result<(), AllocError>
    ensures ok { OnOk result (out.new.items ≡ out.old.items ++ points_text before after) }
    ensures front { StartsWith out.new.items out.old.items }
{
    out.extend_from_slice(points_sign(before, after))?;
    append_percent(out, before.abs_diff(after))
}

fn points_sign(before: u128, after: u128) -> &'static [u8]
    ensures { result.now ≡ points_sign before after }
{
    if before < after {
        b"+"
    } else if after < before {
        b"-"
    } else {
        b""
    }
}
