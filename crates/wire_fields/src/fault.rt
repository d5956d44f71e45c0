//! What is wrong with bytes of the wire format.

use std::error::Error;
use std::fmt;

/// The faults of one field, in the order in which they are looked for in a tag and in a value.
#[derive(Clone, Copy, Debug, PartialEq, Eq)]
pub enum WireKind {
    /// The bytes end inside a tag or a value, or fewer bytes are left than a length says.
    Truncated,
    /// The tenth byte of a varint is above 1: it is longer than ten bytes, or has more than 64 bits.
    BadVarint,
    /// A tag above 2^32-1, or of field number 0.
    BadFieldNumber,
    /// Wire type 3 or 4 (groups), 6 or 7.
    BadWireType,
}

/// Writes the name, as it is written above.
impl fmt::Display for WireKind {
    ghost use Rattle.std.specs.Prelude.{Some};
    ghost use Rattle.wire_fields.specs.FaultText.{kind_text};

    ghost output = { λ kind. Some (kind_text kind) };

    fn fmt<W: fmt::Write>(&self, f: &mut fmt::Formatter<W>) -> fmt::Result {
        f.write_str(match self {
            WireKind::Truncated => "Truncated",
            WireKind::BadVarint => "BadVarint",
            WireKind::BadFieldNumber => "BadFieldNumber",
            WireKind::BadWireType => "BadWireType",
        })
    }
}

impl Error for WireKind {}

/// A fault, and where it lies.
#[derive(Clone, Copy, Debug, PartialEq, Eq)]
pub struct WireFault {
    pub kind: WireKind,
    /// The offset of the field's tag, or in a packed run of the varint, in bytes from the start.
    pub at: usize,
}

/// Writes the kind, and where it lies: `BadVarint at 3`.
impl fmt::Display for WireFault {
    ghost use Rattle.std.specs.Prelude.{Some};
    ghost use Rattle.wire_fields.specs.FaultText.{fault_text};

    ghost output = { λ fault. Some (fault_text fault) };

    fn fmt<W: fmt::Write>(&self, f: &mut fmt::Formatter<W>) -> fmt::Result {
        write!(f, "{} at {}", self.kind, self.at)
    }
}

impl Error for WireFault {}
