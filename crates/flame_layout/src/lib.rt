//! Flame graphs and flame charts: the boxes of the lists of samples that were collected, their
//! edges in an image, and the comparison of two profiles.
#![tactic(auto)]

mod boxes;
mod chart;
mod chart_runs;
mod chart_walks;
mod charts;
mod comparisons;
mod flame_boxes;
mod graphs;
mod image;
pub mod laws;
mod shared_names;

pub use boxes::{ComparedBox, DrawnBox, DrawnPair, PairRow, PictureBox, PlacedBox, SpanBox};
pub use chart::Chart;
pub use charts::chart_boxes;
pub use comparisons::{compare, draw_paired};
pub use flame_boxes::FlameBoxes;
pub use graphs::{draw_merged, draw_tree, graph_boxes, merged_boxes};
pub use image::{edges, place};
pub use merged_stacks::{MergedStacks, total_weight};
pub use run_options::{MAX_WIDTH, Width};
