//! Flame graphs and flame charts of recorded stack samples: sources are opened and read, their samples
//! collected and merged, laid out as boxes, and sent as the texts, pages and pictures of views.
#![tactic(auto)]

mod advice;
mod delivery;
mod end_reports;
mod exits;
mod headings;
mod hosts;
mod live_graphs;
mod live_run;
mod live_streams;
mod looks;
mod next_steps;
mod plan_run;
mod program;
mod progress;
mod renewed_file;
mod reports;
mod run_facts;
mod sent_lists;
mod sent_pages;
mod sent_pictures;
mod sent_texts;
mod step_commands;
mod types_run;
mod views_run;

pub use byte_io::{
    CountedReader, CountedWriter, Draft, Files, Inlet, LoadFault, MachineFiles, MachineOutputs,
    MemoryFiles, MemoryOutputs, NamedFile, Outlet, OutputStep, Outputs, Refusal, SOURCE_LIMIT,
    SendFault, StoredText, Streams, load, send,
};
pub use command_line::{
    CallTable, Destination, DiffTable, Form, PageForm, PictureForm, Plan, PlanFault, TopTable,
    View, WeightUnit, asked_destination, plan,
};
pub use delivery::deliver;
pub use live_run::{live, live_plan};
pub use merging::{Gathered, Snapshot, TreeSink};
pub use next_steps::{Seen, Trouble, next_step};
pub use page_texts::Source as PageSource;
pub use program::run;
pub use ring_collect::CollectFault;
pub use run_options::{
    Filter, Format, FunctionOrder, Naming, Options, Pick, RingSize, Width, format_of,
};
pub use source_lists::{Source, StrictKind};
pub use source_views::{
    Failure, Heading, PageView, SOURCE_COUNT, Views, laws, render, render_page_data, views,
};
pub use stack_core::{Gate, OpenGate, ReadKind, SourceEnd, SourceList, Turn};
