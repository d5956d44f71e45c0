//! The count in the last column of a folded line.

ghost use Rattle.std.specs.Prelude.{◌≡◌, ◌<◌, ◌≤◌, ◌-◌, true, false, IsTrue, Some, is_some, IfSome, min, length, take, drop, slice_index, count_by};
ghost use Rattle.std.specs.List.{list_all};
ghost use Rattle.std.specs.Str.Parse.{digits_value};
ghost use Rattle.std.specs.Char.{is_ascii_digit};
ghost use Rattle.memchr.specs.Find.{is_byte2};
ghost use Rattle.folded_lines.specs.checked.Cutting.{is_digit_or_point};
ghost use Rattle.folded_lines.specs.Lines.{columns, is_number, is_point, has_point, ends_in_number};

use stack_core::WEIGHT_LIMIT;

fn begins_with_digit(text: &[u8]) -> bool
    ensures { result ≡ is_ascii_digit (slice_index text.now 0) }
{
    match text.first() {
        None => false,
        Some(b) => b.is_ascii_digit(),
    }
}

fn points(text: &[u8]) -> usize
    ensures { result ≡ count_by is_point text.now }
{
    text.iter().filter(|b| **b == b'.').count()
}

/// Whether digits and points are a number: a digit is the first, and there is at most one point.
fn is_number(text: &[u8]) -> bool
    requires { IsTrue (list_all is_digit_or_point text.now) }
    ensures { result ≡ is_number text.now }
{
    begins_with_digit(text) && points(text) <= 1
}

/// Whether a point stands in the text.
pub(crate) fn has_point(text: &[u8]) -> bool
    ensures { result ≡ has_point text.now }
{
    text.iter().any(|b| *b == b'.')
}

fn is_blank(b: u8) -> bool
    ensures { result ≡ is_byte2 32 9 b }
{
    b == b' ' || b == b'\t'
}

fn is_digit_or_point(b: u8) -> bool
    ensures { result ≡ is_digit_or_point b }
{
    b.is_ascii_digit() || b == b'.'
}

/// Where the digits and points at the end of a text begin.
fn number_start(text: &[u8]) -> usize
    ensures within { result ≤ length text.now }
    ensures number { list_all is_digit_or_point (drop result text.now) ≡ true }
    ensures apart { 0 < result → is_digit_or_point (slice_index text.now (result - 1)) ≡ false }
{
    let mut start = text.len();
    while start > 0 && is_digit_or_point(text[start - 1]) {
        start -= 1;
    }
    start
}

/// Where the count at the end of a text begins, right behind a space or tab. It is looked for from there, so that long names cost nothing.
pub(crate) fn count_start(text: &[u8]) -> Option<usize>
    ensures found { is_some result ≡ ends_in_number (columns text.now) }
    ensures place { IfSome result (λ at. (0 < at) × (at ≤ length text.now)
        × (columns text.now ≡ Some (take (at - 1) text.now, drop at text.now))) }
{
    let start = number_start(text);
    if start == 0 || !is_blank(text[start - 1]) || !is_number(&text[start..]) {
        return None;
    }
    Some(start)
}

/// Whether a head has a count at its own end.
pub(crate) fn ends_in_number(head: &[u8]) -> bool
    ensures { result ≡ ends_in_number (columns head.now) }
{
    count_start(head).is_some()
}

/// More than any weight may be.
const TOO_LARGE: u64 = WEIGHT_LIMIT + 1;

/// The number that the digits write, as far as it is no larger than one that is refused.
pub(crate) fn weight_of(digits: &[u8]) -> u64
    requires { IsTrue (list_all is_ascii_digit digits.now) }
    ensures { result ≡ min (digits_value 10 digits.now) TOO_LARGE }
{
    let mut weight = 0;
    for b in digits {
        weight = (weight * 10 + u64::from(*b - b'0')).min(TOO_LARGE);
    }
    weight
}
