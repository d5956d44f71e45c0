//! How a weight is said.

ghost use Rattle.std.specs.Prelude.{◌≡◌, ◌++◌, OnOk, OnErr};
ghost use Rattle.std.specs.Io.{StartsWith};
ghost use Rattle.view_texts.specs.Quotients.{grouped};
ghost use Rattle.view_texts.specs.WeightTexts.{measured_text, unit_after, weight_text};

use crate::grouped::append_grouped;
use crate::measures::Measure;
use crate::steps::Step;
use byte_io::truncate_on_error;
use std::alloc::AllocError;

/// Appends a weight as it is read at a glance, as `1.23 ms`, `4.5 MiB` or `1,234 objects`.
#[tactic(auto, unfolding(crate::specs::WeightTexts::weight_text))]
pub fn append_weight(out: &mut Vec<u8>, weight: u64, unit: &str) -> Result<(), AllocError>
    ensures ok { OnOk result (out.new.items ≡ out.old.items ++ weight_text unit.now weight) }
    ensures err { OnErr result (out.new.items ≡ out.old.items) }
{
    let before = out.len();
    let answer = append_measured(out, weight, unit, Measure::of(unit));
    truncate_on_error(out, before, answer)
}

// Appends a weight in a unit that measures this, or a front of it.
fn append_measured(
    out: &mut Vec<u8>,
    weight: u64,
    unit: &str,
    measure: Measure,
) -> Result<(), AllocError>
    ensures ok { OnOk result
        (out.new.items ≡ out.old.items ++ measured_text unit.now weight measure) }
    ensures front { StartsWith out.new.items out.old.items }
{
    match measure {
        Measure::Time(size) => {
            let nanoseconds = u128::from(size) * u128::from(weight);
            Step::of_time(nanoseconds).append(out, nanoseconds)
        }
        Measure::Size(size) => {
            let bytes = u128::from(size) * u128::from(weight);
            Step::of_size(bytes).append(out, bytes)
        }
        Measure::Count => {
            append_grouped(out, u128::from(weight))?;
            append_unit(out, unit)
        }
    }
}

// Appends a unit behind a number that counts it, or a front of that.
fn append_unit(out: &mut Vec<u8>, unit: &str) -> Result<(), AllocError>
    ensures ok { OnOk result (out.new.items ≡ out.old.items ++ unit_after unit.now) }
    ensures front { StartsWith out.new.items out.old.items }
{
    if unit.is_empty() || unit == "count" {
        return Ok(());
    }
    out.push(b' ')?;
    out.extend_from_slice(unit.as_bytes())
}
