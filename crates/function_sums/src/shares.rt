//! Shares of what both sides weigh, compared without division.

ghost use Rattle.std.specs.Prelude.{◌≡◌, ◌*◌, ◌/◌, ◌^◌, ◌-◌, ◌<◌, ◌≤◌, min};
ghost use Rattle.function_sums.specs.FunctionChanges.{divisor, share_after, share_before, size};
ghost use Rattle.function_sums.specs.Growth.{grew_over};

use crate::changes::Change;

/// How much more or less there is after than before: of weights, or of shares of the whole.
pub(crate) fn size(whole: Option<Change>, change: Change) -> u128
    ensures { result ≡ size whole change }
{
    match whole {
        None => u128::from(change.before.abs_diff(change.after)),
        Some(whole) => share_before(whole, change).abs_diff(share_after(whole, change)),
    }
}

/// The share after is greater than that before by more than so many hundredths of the whole.
pub(crate) fn grew_over(points: u64, whole: Change, change: Change) -> bool
    ensures { result ≡ grew_over points whole change }
{
    let (before, after) = (share_before(whole, change), share_after(whole, change));
    limit(points, whole) < after.saturating_sub(before)
}

// So many hundredths of the whole, rounded down, or the greatest number there is.
fn limit(points: u64, whole: Change) -> u128
    ensures { result ≡ min (2 ^ 128 - 1) (points * (divisor whole.before * divisor whole.after) / 100) }
{
    let points = u128::from(points);
    let both = u128::from(divisor(whole.before)) * u128::from(divisor(whole.after));
    let (hundreds, left) = (both / 100, both % 100);
    points
        .saturating_mul(hundreds)
        .saturating_add(points * left / 100)
}

/// What compares as the share before does with what `share_after` gives: each is the weight times what the other side weighs, if it weighs
/// anything, so that of nothing each share is nothing.
pub fn share_before(whole: Change, change: Change) -> u128
    ensures { result ≡ share_before whole change }
{
    u128::from(change.before) * u128::from(divisor(whole.after))
}

/// What compares as the share after does with what `share_before` gives.
pub fn share_after(whole: Change, change: Change) -> u128
    ensures { result ≡ share_after whole change }
{
    u128::from(change.after) * u128::from(divisor(whole.before))
}

fn divisor(whole: u64) -> u64
    ensures { result ≡ divisor whole }
{
    whole.max(1)
}
