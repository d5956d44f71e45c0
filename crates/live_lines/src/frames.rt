//! What stands on a terminal while samples come: the functions with the greatest weights.

ghost use Rattle.std.specs.Prelude.{◌≡◌, ◌++◌, ◌-◌, [], List, Bool, IfOk, OnOk, if◌then◌else◌, length, replicate};
ghost use Rattle.sample_tables.specs.Samples.{total_weight};
ghost use Rattle.sample_tables.specs.declared.samples.Sample.{Sample};
ghost use Rattle.function_sums.specs.FunctionSums.{AreFunctionSums};
ghost use Rattle.run_options.specs.declared.orders.FunctionOrder.TheVariants.{Own};
ghost use Rattle.live_lines.specs.Frames.{clear_frame, frame_heading, frame_of, frame_table, table_of, word_of};

use crate::terminal::append_plain;
use function_sums::{FunctionSum, Telling, append_sum_table};
use itoa::Buffer;
use std::alloc::{AllocError, Global};
use view_texts::append_weight;

/// How many functions are shown.
const ROWS: u64 = 10;

/// What takes a frame away: the cursor goes up by its 13 lines, and what stands below is cleared.
const CLEAR: &[u8] = b"\r\x1b[13A\x1b[J";

/// What keeps the terminal from wrapping long lines, and what lets it again.
const CUT: &[u8] = b"\x1b[?7l";

const WRAP: &[u8] = b"\x1b[?7h";

/// How many samples of how many sources came, and whether a frame stands on the terminal.
#[derive(Clone, Copy)]
pub(crate) struct Standing {
    pub(crate) at: u64,
    pub(crate) sources: usize,
    pub(crate) has_frame: bool,
}

/// The frame of samples with these sums, in the place of the one that stands there.
pub(crate) fn frame_of(
    alloc: Global,
    standing: Standing,
    sums: &[FunctionSum],
    whole: u64,
) -> Result<Vec<u8>, AllocError>
    ensures { (samples : List Sample) → AreFunctionSums Own samples sums.now → total_weight samples ≡ whole
        → IfOk result (λ text. text.items
        ≡ frame_of standing.has_frame standing.at standing.sources samples) }
{
    let mut lines = Vec::new(alloc);
    append_heading(&mut lines, standing)?;
    append_table(alloc, &mut lines, sums, whole)?;
    append_blank(&mut lines, sums.len())?;
    let mut text = cleared(alloc, standing.has_frame)?;
    text.extend_from_slice(CUT)?;
    append_plain(&mut text, &lines)?;
    text.extend_from_slice(WRAP)?;
    Ok(text)
}

/// The last table, in the place of the frame that stands there.
pub(crate) fn last_of(
    alloc: Global,
    has_frame: bool,
    sums: &[FunctionSum],
    whole: u64,
) -> Result<Vec<u8>, AllocError>
    ensures { (samples : List Sample) → AreFunctionSums Own samples sums.now → total_weight samples ≡ whole
        → IfOk result (λ text. text.items ≡ table_of has_frame samples) }
{
    let mut lines = Vec::new(alloc);
    append_table(alloc, &mut lines, sums, whole)?;
    let mut text = cleared(alloc, has_frame)?;
    append_plain(&mut text, &lines)?;
    Ok(text)
}

// What takes away a frame, if one stands there.
fn cleared(alloc: Global, has_frame: bool) -> Result<Vec<u8>, AllocError>
    ensures { IfOk result (λ text. text.items ≡ (if has_frame then clear_frame else [])) }
{
    let mut text = Vec::new(alloc);
    if has_frame {
        text.extend_from_slice(CLEAR)?;
    }
    Ok(text)
}

fn append_heading(out: &mut Vec<u8>, standing: Standing) -> Result<(), AllocError>
    ensures { OnOk result (out.new.items ≡ out.old.items
        ++ frame_heading standing.at standing.sources) }
{
    let mut digits = Buffer::new();
    append_weight(out, standing.at, "")?;
    out.extend_from_slice(word_of(standing.at, b" sample of ", b" samples of "))?;
    out.extend_from_slice(digits.format(standing.sources).as_bytes())?;
    let sources = standing.sources as u64;
    out.extend_from_slice(word_of(sources, b" source\n", b" sources\n"))?;
    Ok(())
}

fn word_of(count: u64, one: &'static [u8], many: &'static [u8]) -> &'static [u8]
    ensures { result.now ≡ word_of count one.entry.now many.entry.now }
{
    if count == 1 { one } else { many }
}

fn append_table(
    alloc: Global,
    out: &mut Vec<u8>,
    sums: &[FunctionSum],
    whole: u64,
) -> Result<(), AllocError>
    ensures { OnOk result ((samples : List Sample) → AreFunctionSums Own samples sums.now
        → total_weight samples ≡ whole → out.new.items ≡ out.old.items ++ frame_table samples) }
{
    append_sum_table(alloc, out, sums, ROWS, whole, &Telling::nothing())
}

// Appends an empty line for each function that is missing.
fn append_blank(out: &mut Vec<u8>, count: usize) -> Result<(), AllocError>
    ensures { OnOk result (out.new.items ≡ out.old.items ++ replicate (10 - count) 10) }
{
    let missing = 10usize.saturating_sub(count);
    for _ in 0..missing {
        out.push(b'\n')?;
    }
    Ok(())
}
