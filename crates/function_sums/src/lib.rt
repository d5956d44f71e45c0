//! The weights by function, what each name weighs by itself, and with all that it calls; how they change; and the
//! texts of both: a table, and a line of JSON.
#![tactic(auto)]

mod call_sides;
mod calls;
mod change_lines;
mod change_tables;
mod change_text_tables;
mod changes;
mod counts;
mod entries;
mod first_sums;
mod grown_lines;
mod growth;
mod headings;
pub mod laws;
mod listed_calls;
mod rows;
mod shares;
mod sides;
mod sum_lines;
mod sum_tables;
mod sums;
mod tables;
mod telling;
mod text_tables;

pub use call_sides::CallSide;
pub use change_lines::ChangeLine;
pub use change_tables::function_changes;
pub use changes::{Change, ChangeOrder, FunctionChange};
pub use entries::append_points_of;
pub use grown_lines::grown_line;
pub use growth::grown;
pub use listed_calls::first_calls;
pub use run_options::FunctionOrder as Order;
pub use shares::{share_after, share_before};
pub use sides::named_sum;
pub use sum_lines::{SumLine, append_sum_line};
pub use sum_tables::append_sum_table;
pub use sums::FunctionSum;
pub use tables::{function_calls, function_sums};
pub use telling::Telling;
pub use text_tables::Table;
