//! The texts of the views: folded lines of merged stacks, two-column lines of a comparison, and lines of JSON; the
//! sample types of a profile; and how a weight, a part of a whole and a change are said.
#![tactic(auto)]

mod box_buffers;
mod box_writers;
mod changes;
mod grouped;
mod json_boxes;
mod json_line;
mod json_lines;
mod json_pieces;
pub mod laws;
mod line_kinds;
mod measures;
mod merged_lines;
mod plain_texts;
mod put_pieces;
mod quotients;
mod scales;
mod shares;
mod stack_pairs;
mod steps;
mod turned_names;
mod type_lines;
mod weights;

pub use byte_io::truncate_on_error;
pub use changes::append_change;
pub use json_line::JsonLine;
pub use json_lines::{drawn_comparison_line, drawn_line, drawn_snapshot_line};
pub use json_pieces::{append_number, append_text, comma_if};
pub use merged_lines::FoldedText;
pub use scales::Scale;
pub use shares::{Part, append_points, append_share, share_width};
pub use stack_pairs::PairedText;
pub use type_lines::TypesText;
pub use weights::append_weight;
