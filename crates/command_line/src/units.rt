//! The units that the words give to weights.
ghost use Rattle.std.specs.Prelude.{◌≡◌};
ghost use Rattle.command_line.specs.Units.{named_unit, unit_name};

/// A unit of weights that have none of their own.
#[derive(Clone, Copy, Debug, PartialEq, Eq)]
pub enum WeightUnit {
    Nanoseconds,
    Microseconds,
    Milliseconds,
    Seconds,
    Bytes,
    Samples,
}

const ALL: &[WeightUnit] = &[
    WeightUnit::Nanoseconds,
    WeightUnit::Microseconds,
    WeightUnit::Milliseconds,
    WeightUnit::Seconds,
    WeightUnit::Bytes,
    WeightUnit::Samples,
];

impl WeightUnit {
    /// The unit of that name.
    pub fn named(name: &str) -> Option<WeightUnit>
        ensures { result ≡ named_unit name.now }
    {
        for unit in ALL {
            if name == unit.name() {
                return Some(*unit);
            }
        }
        None
    }

    /// Its name, as profiles write it.
    pub fn name(self) -> &'static str
        ensures { result.now ≡ unit_name self }
    {
        match self {
            WeightUnit::Nanoseconds => "nanoseconds",
            WeightUnit::Microseconds => "microseconds",
            WeightUnit::Milliseconds => "milliseconds",
            WeightUnit::Seconds => "seconds",
            WeightUnit::Bytes => "bytes",
            WeightUnit::Samples => "samples",
        }
    }
}
