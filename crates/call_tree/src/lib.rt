//! Frame names by number, and the merged tree of call paths.
#![tactic(auto)]

mod frame_table;
mod hashed_numbers;
mod hints;
mod histories;
pub mod laws;
mod links;
mod listing;
mod name_list;
mod nodes;
mod places;
pub mod slots;
pub mod spelling_hash;
mod spellings;
mod tree;

pub use frame_table::FrameTable;
pub use histories::StackHistory;
pub use listing::Visit;
pub use spellings::SpellingCache;
pub use tree::CallTree;
