//! What a unit measures.

ghost use Rattle.std.specs.Prelude.{◌≡◌};
ghost use Rattle.view_texts.specs.WeightTexts.{measure_of};

// What a unit measures, and how many of the smallest step it has.
#[derive(Clone, Copy, Debug)]
pub(crate) enum Measure {
    // So many nanoseconds.
    Time(u32),
    // So many bytes.
    Size(u32),
    Count,
}

impl Measure {
    // What the unit of that name measures.
    pub(crate) fn of(unit: &str) -> Measure
        ensures { result ≡ measure_of unit.now }
    {
        match unit {
            "nanoseconds" => Measure::Time(1),
            "microseconds" => Measure::Time(1_000),
            "milliseconds" => Measure::Time(1_000_000),
            "seconds" => Measure::Time(1_000_000_000),
            "bytes" => Measure::Size(1),
            "kilobytes" => Measure::Size(1 << 10),
            "megabytes" => Measure::Size(1 << 20),
            "gigabytes" => Measure::Size(1 << 30),
            _ => Measure::Count,
        }
    }
}
