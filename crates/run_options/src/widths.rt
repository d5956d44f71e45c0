//! The width of an image.

ghost use Rattle.std.specs.Prelude.{◌≡◌, ◌≤◌, SomeIff};
ghost use Rattle.run_options.specs.declared.widths.TheConstants.{MAX_WIDTH};

use std::marker::Model;

/// The greatest width of an image, in pixels.
pub const MAX_WIDTH: u32 = 65_536;

/// The width of an image in pixels, 1 to 65,536. Contracts see it as that number.
#[derive(Clone, Copy, Debug, PartialEq, Eq)]
pub struct Width {
    pixels: u32,
}

impl Model for Width {
    ghost use Rattle.std.specs.Prelude.{ℕ, ◌≤◌};
    ghost use Rattle.run_options.specs.declared.widths.TheConstants.{MAX_WIDTH};

    ghost Value = { ℕ };

    ghost view = { λ width. width.pixels };

    ghost invariant = { λ width. (1 ≤ width.pixels) × (width.pixels ≤ MAX_WIDTH) };

    ghost inverse = { λ number. record { pixels = number } };
}

impl Width {
    /// The width of that many pixels, or `None` for 0 and for more than 65,536.
    pub fn of(pixels: u32) -> Option<Width>
        ensures { SomeIff result ((1 ≤ pixels) × (pixels ≤ 65536)) pixels }
    {
        if (1..=MAX_WIDTH).contains(&pixels) {
            Some(Width { pixels })
        } else {
            None
        }
    }

    /// The number of pixels.
    pub fn get(self) -> u32
        ensures number { result ≡ self }
        ensures least { 1 ≤ result }
        ensures most { result ≤ MAX_WIDTH }
    {
        self.pixels
    }
}
