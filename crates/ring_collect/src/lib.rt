//! A reader thread and a bounded ring for each source: every sample of every source is collected once, in order, however
//! the threads' steps fall.
#![tactic(auto)]

mod batches;
mod bells;
mod ends;
mod faults;
mod feeds;
mod flat_intakes;
mod flat_records;
mod intakes;
mod numbering;
mod outlets;
mod pauses;
mod reader_threads;
mod rings;
mod room;
mod rounds;
mod row_runs;
mod row_samples;
mod running_sources;
mod runs;
mod sample_runs;
mod settlement;
mod tellers;

pub use ends::EndSink;
pub use faults::CollectFault;
pub use row_runs::{collect_rows, feed_rows};
pub use run_options::{LARGEST_RING, RingSize};
pub use runs::Collected;
pub use sample_runs::collect;
pub use stack_core::RingRecord;
