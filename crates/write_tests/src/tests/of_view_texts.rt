//! Worked texts.
mod charts;
mod drawings;
mod examples;
mod fold;
mod joined;
mod lines;
mod types;
