//! Pictures in SVG: each box a rectangle with what is said of it, between a heading and a foot.
#![tactic(auto)]

mod changes;
mod elements;
mod fills;
mod frames;
mod labels;
pub mod laws;
mod pictures;
mod said_weights;
mod shown_texts;
mod svg;
mod svg_boxes;
mod svg_frames;
mod tallies;

pub use pictures::Picture;
pub use svg::Svg;
