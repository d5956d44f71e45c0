//! pprof profiles: their tables, and a reader of their samples.
#![tactic(auto)]

mod ahead;
mod frame_numbers;
mod frames;
mod fronts;
mod functions;
mod kept_numbers;
pub mod laws;
mod lines;
mod naming;
mod outline;
mod part;
mod reader;
mod row_reader;
mod row_steps;
mod samples;
mod steps;
mod tables;
mod tellers;

pub use profile_messages::{SampleType, SampleTypes, TableFault, sample_types};
pub use reader::PprofReader;
pub use row_reader::PprofRows;
pub use run_options::{Naming, Pick};
pub use tables::Tables;
