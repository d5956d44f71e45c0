//! How a source ends, how a ring is closed, and what a reader tells.

ghost use Rattle.std.specs.Prelude.{◌≡◌};
ghost use Rattle.stack_core.specs.Faults.{kind_text};

use sample_tables::Sample;
use std::error::Error;
use std::fmt;

/// What is wrong with a source's bytes. `at` of the fault says where.
#[derive(Clone, Copy, Debug, PartialEq, Eq)]
pub enum ReadKind {
    /// The bytes begin as gzip does: decompress them first.
    Compressed,
    /// The bytes end inside a field of the wire format.
    Truncated,
    /// A varint whose tenth byte is above 1: it is longer than ten bytes, or has more than 64 bits.
    BadVarint,
    /// A field number that is 0 or too large.
    BadFieldNumber,
    /// A group, or a wire type that does not exist.
    BadWireType,
    /// A known field with a wire type that is not its own.
    WrongKind,
    /// The first string of the string table is not empty.
    BadStringZero,
    /// An index that is not of the string table.
    BadString,
    /// A function or location whose id is 0.
    ZeroId,
    /// A function or location whose id an earlier one has.
    DuplicateId,
    /// A line of a function that is not in the profile.
    UnknownFunction,
    /// No sample type has the name that was asked for.
    UnknownSampleType,
    /// There are samples and no sample types.
    NoSampleType,
    /// A sample with more or fewer values than there are sample types.
    ValueCount,
    /// A sample at a location that is not in the profile.
    UnknownLocation,
    /// The chosen value of a sample is below 0.
    NegativeWeight,
    /// A stack of more than `FRAME_LIMIT` frames.
    TooDeep,
    /// The weights of the source add up to more than `WEIGHT_LIMIT`.
    TotalTooLarge,
    /// A folded line whose count has a decimal point.
    DecimalWeight,
    /// A folded line with two counts.
    TwoColumns,
}

impl ReadKind {
    /// Its name, as it is written here and in messages.
    pub fn name(self) -> &'static str
        ensures { result.now ≡ kind_text self }
    {
        match self {
            ReadKind::Compressed => "Compressed",
            ReadKind::Truncated => "Truncated",
            ReadKind::BadVarint => "BadVarint",
            ReadKind::BadFieldNumber => "BadFieldNumber",
            ReadKind::BadWireType => "BadWireType",
            ReadKind::WrongKind => "WrongKind",
            ReadKind::BadStringZero => "BadStringZero",
            ReadKind::BadString => "BadString",
            ReadKind::ZeroId => "ZeroId",
            ReadKind::DuplicateId => "DuplicateId",
            ReadKind::UnknownFunction => "UnknownFunction",
            ReadKind::UnknownSampleType => "UnknownSampleType",
            ReadKind::NoSampleType => "NoSampleType",
            ReadKind::ValueCount => "ValueCount",
            ReadKind::UnknownLocation => "UnknownLocation",
            ReadKind::NegativeWeight => "NegativeWeight",
            ReadKind::TooDeep => "TooDeep",
            ReadKind::TotalTooLarge => "TotalTooLarge",
            ReadKind::DecimalWeight => "DecimalWeight",
            ReadKind::TwoColumns => "TwoColumns",
        }
    }
}

impl fmt::Display for ReadKind {
    ghost use Rattle.std.specs.Prelude.{Some};
    ghost use Rattle.stack_core.specs.Faults.{kind_text};

    ghost output = { λ kind. Some (kind_text kind) };

    fn fmt<W: fmt::Write>(&self, f: &mut fmt::Formatter<W>) -> fmt::Result {
        f.write_str(self.name())
    }
}

/// A fault of a source.
#[derive(Clone, Copy, Debug, PartialEq, Eq)]
pub struct ReadFault {
    /// What is wrong.
    pub kind: ReadKind,
    /// For pprof the offset of the top-level field in which the fault lies, the length of the file where
    /// the fault is of no field, and 0 for compressed bytes. For folded text the line's number, from 1.
    pub at: u64,
}

/// Writes the kind, and where it stands: `UnknownFunction at 12`.
impl fmt::Display for ReadFault {
    ghost use Rattle.std.specs.Prelude.{Some};
    ghost use Rattle.stack_core.specs.Faults.{fault_text};

    ghost output = { λ fault. Some (fault_text fault) };

    fn fmt<W: fmt::Write>(&self, f: &mut fmt::Formatter<W>) -> fmt::Result {
        write!(f, "{} at {}", self.kind, self.at)
    }
}

impl Error for ReadFault {}

/// How a source's list of samples ends.
#[derive(Clone, Copy, Debug, PartialEq, Eq)]
pub enum SourceEnd {
    /// All was read. `ignored` is the number of folded lines that are no samples, and 0 for pprof.
    Clean { ignored: u64 },
    /// The first fault: what stands before it was read.
    Fault(ReadFault),
    /// The gate stopped the source before the sample of this number, counted from 0.
    Stopped { after: u64 },
}

/// The last thing that a reader tells.
#[derive(Clone, Copy, Debug, PartialEq, Eq)]
pub enum Close {
    /// The source was read to this ending.
    Read(SourceEnd),
    /// The reader met want of memory.
    NoMemory,
}

/// An element of a told list: samples in order, then one close.
#[derive(Clone, Debug, PartialEq, Eq, Drop)]
pub enum Item {
    /// A sample of the source.
    Sample(Sample),
    /// The end of what is told.
    Close(Close),
}
