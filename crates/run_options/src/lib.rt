//! What a run is asked for: how many items a ring holds, which value of a profile weighs its samples, how
//! frames are named, which samples are kept, which format a source has, by which weight functions are listed, and
//! how wide an image is.
#![tactic(auto)]

mod choices;
mod filters;
mod formats;
mod options;
mod orders;
mod ring_sizes;
mod widths;

pub use choices::{Naming, Pick};
pub use filters::Filter;
pub use formats::{Format, format_of};
pub use options::Options;
pub use orders::FunctionOrder;
pub use ring_sizes::{LARGEST_RING, RingSize};
pub use widths::{MAX_WIDTH, Width};
