//! The lines of a graph while its samples come: a sink that writes each snapshot's line as soon as its last sample was taken.
#![tactic(auto)]

mod ends;
mod form;
mod frames;
mod gate;
pub mod laws;
mod merge;
mod moments;
mod sink;
mod terminal;

pub use ends::{EndTeller, ToldEnds};
pub use form::LiveForm;
pub use gate::LiveGate;
pub use merge::{LiveLine, LiveMerge};
pub use sink::{LiveLines, LiveSink};
