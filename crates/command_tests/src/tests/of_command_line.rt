//! Worked command lines.
mod calls;
mod destinations;
mod diff;
mod examples;
mod faults;
mod filters;
mod forms;
mod help;
mod lines;
mod live;
mod refused;
mod top;
mod wanted;
mod words;
