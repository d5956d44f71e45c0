//! The next samples of a profile, looked at before they are read.

ghost use Rattle.std.specs.Prelude.{◌≡◌};

use crate::fronts::first_held;
use crate::outline::Stretch;
use call_tree::SpellingCache;

/// How many samples are looked at.
const SAMPLES: usize = 16;

/// Where the run of location ids lies in the file that is the first field of the sample whose tag is at an offset.
fn run_at(file: &[u8], at: usize) -> Option<(usize, usize)> {
    let behind = file.get(at..)?;
    let sample = first_held(behind)?.place;
    let run = first_held(behind.get(sample.start..sample.end)?)?.place;
    let begins = at.checked_add(sample.start)?;
    Some((begins.checked_add(run.start)?, begins.checked_add(run.end)?))
}

/// Looks for the runs of the next samples, whose tags have these offsets, where it is time for that. It changes nothing that is known.
pub(crate) fn look_ahead(
    file: &[u8],
    samples: &[usize],
    left: Stretch,
    spellings: &mut SpellingCache,
)
    ensures { spellings.new ≡ spellings.old }
{
    if !spellings.wants_hints() {
        return;
    }
    let mut runs = [(0, 0); SAMPLES];
    let mut count = 0;
    for index in left.next..left.past.min(left.next.saturating_add(SAMPLES)) {
        let Some(at) = samples.get(index) else {
            break;
        };
        if let Some(run) = run_at(file, *at)
            && let Some(place) = runs.get_mut(count)
        {
            *place = run;
            count += 1;
        }
    }
    if let Some(runs) = runs.get(..count) {
        spellings.look_ahead(file, runs);
    }
}
