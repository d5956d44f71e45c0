//! What a look at a source shows that helps to advise.
ghost use Rattle.std.specs.Prelude.{◌≡◌};
ghost use Rattle.flame_tool.specs.NextSteps.{begins_profile};

use crate::next_steps::{Remedy, Seen, Trouble, remedy_for};
use byte_io::SOURCE_LIMIT;
use profile_tables::sample_types;
use source_lists::Input;
use std::alloc::Global;

/// Looks at a source that there is this trouble with, where it is there.
pub(crate) fn look(alloc: Global, input: Option<&Input>, trouble: Trouble) -> Seen {
    let Some(input) = input else {
        return Seen::Nothing;
    };
    match remedy_for(trouble) {
        Remedy::AskForTypes => look_for_types(alloc, input),
        Remedy::ReadAsProfile => look_at_front(alloc, input),
        Remedy::Nothing | Remedy::Unpack => Seen::Nothing,
    }
}

fn look_for_types(alloc: Global, input: &Input) -> Seen {
    let Some(profile) = input.front(alloc, SOURCE_LIMIT) else {
        return Seen::Nothing;
    };
    match sample_types(alloc, profile.as_slice()) {
        Ok(found) => Seen::Types(found.types),
        Err(_) => Seen::Nothing,
    }
}

fn look_at_front(alloc: Global, input: &Input) -> Seen {
    match input.front(alloc, 3) {
        Some(front) if begins_profile(front.as_slice()) => Seen::Profile,
        _ => Seen::Nothing,
    }
}

// Its first field is a sample type, whose own first field is its name.
fn begins_profile(front: &[u8]) -> bool
    ensures { result ≡ begins_profile front.now }
{
    match front {
        [first, _, third, ..] => *first == 0x0a && *third == 0x08,
        _ => false,
    }
}
