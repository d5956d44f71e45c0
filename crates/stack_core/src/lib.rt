//! What every layer of the collector speaks of: samples, the readers that give them, the gates and
//! sinks that a run asks and feeds, the ledgers that keep them, and the core of a run without threads.
#![tactic(auto)]

mod endings;
mod gates;
mod lanes;
pub mod laws;
mod ledgers;
mod lists;
mod readers;
mod records;
mod row_samples;
mod sinks;
mod source_bytes;
mod worlds;

pub use endings::{Close, Item, ReadFault, ReadKind, SourceEnd};
pub use gates::{Gate, OpenGate, Turn};
pub use ledgers::Ledger;
pub use lists::SourceList;
pub use readers::{KnownRows, RowReader, RowStep, SampleReader, Step};
pub use records::RingRecord;
pub use row_samples::{NamingReader, RowSamples};
pub use sample_tables::{FRAME_LIMIT, Listed, Names, Sample, Text, WEIGHT_LIMIT};
pub use sinks::{NoSink, RowSink, Sink};
pub use source_bytes::SourceBytes;
pub use worlds::{Event, World};
