//! The steps in which times and sizes are said.

ghost use Rattle.std.specs.Prelude.{◌≡◌, ◌*◌, ◌++◌, ◌<◌, ◌≤◌, ◌^◌, ◌∷◌, ◌↔◌, IsTrue, codes, OnOk};
ghost use Rattle.std.specs.Io.{StartsWith};
ghost use Rattle.view_texts.specs.WeightTexts.{size_steps, step_of, stepped, time_steps};

use crate::quotients::append_quotient;
use std::alloc::AllocError;

// A step: how many nanoseconds or bytes it has, and its sign.
#[derive(Clone, Copy, Debug)]
pub(crate) struct Step {
    size: u64,
    sign: &'static str,
    ghost some: { 0 < size },
}

impl Step {
    // The step in which a time is said.
    #[tactic(auto, using(crate::proofs::SignBytes::micro))]
    pub(crate) fn of_time(nanoseconds: u128) -> Step
        requires { nanoseconds < 2 ^ 100 }
        ensures size { result.size ≡ (step_of time_steps (codes "ns") nanoseconds).size }
        ensures sign { result.sign.now ≡ (step_of time_steps (codes "ns") nanoseconds).sign }
    {
        if reaches(nanoseconds, 1_000_000_000) {
            Step {
                size: 1_000_000_000,
                sign: "s",
            }
        } else if reaches(nanoseconds, 1_000_000) {
            Step {
                size: 1_000_000,
                sign: "ms",
            }
        } else if reaches(nanoseconds, 1_000) {
            Step {
                size: 1_000,
                sign: "µs",
            }
        } else {
            Step {
                size: 1,
                sign: "ns",
            }
        }
    }

    // The step in which a size is said.
    pub(crate) fn of_size(bytes: u128) -> Step
        requires { bytes < 2 ^ 100 }
        ensures size { result.size ≡ (step_of size_steps (codes "B") bytes).size }
        ensures sign { result.sign.now ≡ (step_of size_steps (codes "B") bytes).sign }
    {
        if reaches(bytes, 1 << 40) {
            Step {
                size: 1 << 40,
                sign: "TiB",
            }
        } else if reaches(bytes, 1 << 30) {
            Step {
                size: 1 << 30,
                sign: "GiB",
            }
        } else if reaches(bytes, 1 << 20) {
            Step {
                size: 1 << 20,
                sign: "MiB",
            }
        } else if reaches(bytes, 1 << 10) {
            Step {
                size: 1 << 10,
                sign: "KiB",
            }
        } else {
            Step { size: 1, sign: "B" }
        }
    }

    // Appends so many nanoseconds or bytes in this step, or a front of that.
    pub(crate) fn append(&self, out: &mut Vec<u8>, count: u128) -> Result<(), AllocError>
        requires { count < 2 ^ 100 }
        ensures ok { OnOk result (out.new.items ≡ out.old.items
            ++ stepped (record { size = self.now.size; sign = self.now.sign.now }) count) }
        ensures front { StartsWith out.new.items out.old.items }
    {
        append_quotient(out, count, self.size)?;
        out.push(b' ')?;
        out.extend_from_slice(self.sign.as_bytes())
    }
}

// Whether so many are 0.9995 of a step at least.
fn reaches(count: u128, size: u64) -> bool
    requires { count < 2 ^ 100 }
    ensures { IsTrue result ↔ (9995 * size ≤ 10000 * count) }
{
    9_995 * u128::from(size) <= 10_000 * count
}
