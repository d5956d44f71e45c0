//! Quotients with three digits.

ghost use Rattle.std.specs.Prelude.{◌≡◌, ◌+◌, ◌*◌, ◌^◌, ◌<◌, ◌≤◌, ◌++◌, OnOk};
ghost use Rattle.std.specs.Io.{StartsWith};
ghost use Rattle.view_texts.specs.Quotients.{after_point, decimals, fraction, nearest, placed, quotient_text};

use crate::grouped::append_grouped;
use std::alloc::AllocError;

// The whole number nearest to a quotient, and of two the greater.
pub(crate) fn nearest(part: u128, whole: u64) -> u128
    requires fits { part < 2 ^ 126 }
    requires some { 0 < whole }
    ensures { result ≡ nearest part whole }
{
    let whole = u128::from(whole);
    (2 * part + whole) / (2 * whole)
}

// A quotient whose part is counted in its last place.
#[derive(Clone, Copy, Debug)]
struct Scaled {
    places: u32,
    part: u128,
}

impl Scaled {
    // The quotient of these, with as many places as three digits need.
    fn of(part: u128, whole: u64) -> Scaled
        requires { part < 2 ^ 126 }
        ensures places { result.places ≡ decimals 20 part whole }
        ensures few { result.places ≤ 20 }
        ensures part { result.part ≡ 10 ^ result.places * part }
        ensures fits { result.part < 2 ^ 126 }
    {
        let hundred = 100 * u128::from(whole);
        let mut scaled = Scaled { places: 0, part };
        while scaled.places < 20 && scaled.part < hundred {
            scaled = Scaled {
                places: scaled.places + 1,
                part: 10 * scaled.part,
            };
        }
        scaled
    }
}

// Appends a quotient with three digits, or a front of it.
pub(crate) fn append_quotient(out: &mut Vec<u8>, part: u128, whole: u64) -> Result<(), AllocError>
    requires fits { part < 2 ^ 126 }
    requires some { 0 < whole }
    ensures ok { OnOk result (out.new.items ≡ out.old.items ++ quotient_text part whole) }
    ensures front { StartsWith out.new.items out.old.items }
{
    let scaled = Scaled::of(part, whole);
    append_placed(out, scaled.places, nearest(scaled.part, whole))
}

// Appends so many of the last of some decimals, or a front of that.
fn append_placed(out: &mut Vec<u8>, places: u32, count: u128) -> Result<(), AllocError>
    requires { places ≤ 20 }
    ensures ok { OnOk result (out.new.items ≡ out.old.items ++ placed places count) }
    ensures front { StartsWith out.new.items out.old.items }
{
    let one = 10_u128.pow(places);
    append_grouped(out, count / one)?;
    append_after_point(out, places, count % one)
}

// Appends a point and so many of the last decimal, or a front of that. Of none it appends nothing.
fn append_after_point(out: &mut Vec<u8>, places: u32, left: u128) -> Result<(), AllocError>
    requires few { places ≤ 20 }
    requires within { left < 10 ^ places }
    ensures ok { OnOk result (out.new.items ≡ out.old.items ++ after_point places left) }
    ensures front { StartsWith out.new.items out.old.items }
{
    if left == 0 {
        return Ok(());
    }
    out.push(b'.')?;
    append_fraction(out, places, left)
}

// Appends so many of the last decimal, up to the last that is not 0, or a front of that.
fn append_fraction(out: &mut Vec<u8>, mut places: u32, mut left: u128) -> Result<(), AllocError>
    requires few { places ≤ 20 }
    requires within { left < 10 ^ places }
    ensures ok { OnOk result (out.new.items ≡ out.old.items ++ fraction places left) }
    ensures front { StartsWith out.new.items out.old.items }
{
    while left > 0 {
        places -= 1;
        let one = 10_u128.pow(places);
        out.push(b'0' + (left / one) as u8)?;
        left %= one;
    }
    Ok(())
}
