//! The weight of some lists.

ghost use Rattle.std.specs.Prelude.{◌≡◌, ◌<◌, ◌^◌};
ghost use Rattle.merged_stacks.specs.Timeline.{samples_of, timeline, total_weight};

use stack_core::SourceList;

/// The sum of all weights of the lists.
pub fn total_weight(lists: &[SourceList]) -> u64
    requires { total_weight (timeline (samples_of lists.now)) < 2 ^ 64 }
    ensures { result ≡ total_weight (timeline (samples_of lists.now)) }
{
    let mut total: u64 = 0;
    for list in lists {
        total += list.total() as u64;
    }
    total
}
