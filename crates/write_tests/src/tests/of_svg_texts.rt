//! Worked pictures.
mod charts;
mod comparisons;
mod drawings;
mod graphs;
mod names;
mod widths;
