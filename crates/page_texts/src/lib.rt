//! Pages for browsers: constant parts, and between them the data, one line of JSON that can stand in a script
//! element.
#![tactic(auto)]

mod drawings;
mod keeping;
mod kept_boxes;
pub mod laws;
mod page_parts;
mod pages;
mod part_texts;
mod parts;
mod script_safe;

pub use drawings::{Drawing, Moment};
pub use pages::{Page, Source, append_page_data, send_page};
