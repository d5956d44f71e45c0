//! Folded stack lines: names joined by `;`, root first, a space and a count, as the FlameGraph tools
//! write them. Read as samples, and written.
#![tactic(auto)]

mod columns;
mod cursor;
mod known_stacks;
pub mod laws;
mod line_buffer;
mod names;
mod numbering;
mod parts;
mod reader;
mod row_lines;
mod rows;
mod shared_names;
mod stored_parts;
mod stream_lines;
mod stream_steps;
mod stream_telling;
mod streams;
mod strictness;
mod writing;

pub use reader::FoldedReader;
pub use rows::FoldedRows;
pub use streams::FoldedStream;
pub use strictness::{StrictFault, StrictKind, strict_ending_fault, strict_fault};
pub use writing::{append_line, append_pair_line};
