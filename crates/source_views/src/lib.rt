//! What is seen of the sources of a run: files are opened and read, and their boxes, the text of each view and its
//! page are appended or sent; and why that fails, and what is said of it on standard error.
#![tactic(auto)]

mod call_texts;
mod change_texts;
mod drawings;
mod drawn_profiles;
mod drawn_runs;
mod drawn_texts;
mod endings;
mod failures;
mod functions;
mod growth;
mod headings;
pub mod laws;
mod long_texts;
mod messages;
mod page_data;
mod plain_pages;
mod several_drawings;
mod shown;
mod snapshot_texts;
mod source_files;
mod view_set;
mod view_text;
mod whole_run;
mod workers;

pub use call_texts::{send_calls, send_peek};
pub use drawings::lend_chart;
pub use endings::any_fault;
pub use failures::Failure;
pub use growth::growth_line;
pub use headings::Heading;
pub use long_texts::{LongText, OneOf};
pub use merged_stacks::{Alone, InThreads};
pub use messages::{
    path_of, report_awaited_input, report_ending, report_failure, report_strict_fault,
};
pub use page_data::{PageView, render_page_data};
pub use plain_pages::{send_chart_page, send_graph_page, send_growing_page};
pub use several_drawings::{send_comparison_page, send_snapshots_page};
pub use shown::{Shown, merge_given};
pub use source_files::{SOURCE_COUNT, load_sources, open_named};
pub use view_set::Views;
pub use view_text::{AskedText, render, send_view};
pub use whole_run::views;
pub use workers::{Workers, merge, send_long_text, send_text};
