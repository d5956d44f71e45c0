//! Bytes in, and bytes out: readers and writers that count their failed calls, whole inputs and outputs
//! over them, texts that go out piece by piece, texts that are read where they are stored, and the files
//! and streams of a run.
#![tactic(auto)]

mod bytes_inlet;
mod failure_counts;
mod files;
mod inlet;
mod machine_files;
mod machine_inlet;
mod machine_outputs;
mod memory_files;
mod memory_outputs;
mod outlet;
mod outputs;
mod piece_output;
mod piece_threads;
mod pieces;
mod positioned_read;
mod refusals;
mod rollback;
mod stored_bytes;
mod stored_range;
mod stored_text;
mod streams;
mod whole_input;
mod whole_output;

pub use bytes_inlet::BytesInlet;
pub use files::Files;
pub use inlet::{CountedReader, Inlet};
pub use machine_files::{MachineFiles, SOURCE_LIMIT};
pub use machine_inlet::{MachineInlet, StreamFile};
pub use machine_outputs::MachineOutputs;
pub use memory_files::{MemoryFiles, NamedFile};
pub use memory_outputs::{MemoryOutputs, OutputStep};
pub use outlet::{CountedWriter, Outlet};
pub use outputs::{Draft, Outputs};
pub use piece_output::{PieceFault, append_pieces, send_pieces};
pub use piece_threads::send_pieces_in_threads;
pub use pieces::{Chain, Literal, Pieces};
pub use positioned_read::PositionedRead;
pub use refusals::Refusal;
pub use rollback::truncate_on_error;
pub use stored_range::StoredRange;
pub use stored_text::StoredText;
pub use streams::Streams;
pub use whole_input::{LoadFault, load};
pub use whole_output::{SendFault, send};
