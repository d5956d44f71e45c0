//! The messages of a pprof profile (`profile.proto`), decoded into records, what is wrong with its tables, and its sample types.
#![tactic(auto)]

mod checked_profile;
mod checks;
mod contents;
mod faults;
mod ids;
mod message;
mod messages;
mod numbers;
mod picking;
mod profile;
mod strings;
mod types;

pub use checked_profile::CheckedProfile;
pub use contents::content_at;
pub use faults::TableFault;
pub use ids::Index;
pub use message::Content;
pub use messages::{Function, Line, Location, PlacedNumber, Span, ValueType};
pub use numbers::{Numbers, numbers_of};
pub use profile::Profile;
pub use strings::string_at;
pub use types::{SampleType, SampleTypes, chosen_type, sample_types, type_at};
