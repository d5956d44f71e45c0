//! A law of the limits. It does nothing.

ghost use Rattle.std.specs.Prelude.{◌≡◌, ◌+◌, ◌^◌};
ghost use Rattle.sample_tables.specs.declared.samples.TheConstants.{FRAME_LIMIT, WEIGHT_LIMIT};

/// The most frames of a stack and the greatest weight, of a sample and of a source, are these numbers.
pub fn limits()
    ensures frames { FRAME_LIMIT ≡ 4096 }
    ensures weights { WEIGHT_LIMIT + 1 ≡ 2 ^ 56 }
{}
