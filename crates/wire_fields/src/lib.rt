//! The protobuf wire format, read field by field: the fields are borrowed from the input, and nothing allocates.
//!
//! [`Fields`] goes over the fields of a message, [`Packed`] over the numbers of a packed run.
#![tactic(auto)]

mod fault;
mod field;
mod fields;
pub mod laws;
mod packed;
mod reading;
mod varint;

pub use fault::{WireFault, WireKind};
pub use field::{Field, FieldValue};
pub use fields::Fields;
pub use packed::Packed;
