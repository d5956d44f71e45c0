//! What is known of a run beside the samples that it shows.
ghost use Rattle.std.specs.Prelude.{◌≡◌, map};
ghost use Rattle.page_texts.specs.Drawn.{source_of};
ghost use Rattle.function_sums.specs.Told.{told_of};
ghost use Rattle.flame_tool.specs.Pictures.{common_unit, types_with_weight, units_with_weight};
ghost use Rattle.flame_tool.specs.Facts.{told_whole};

use crate::headings::{Said, common};
use command_line::Plan;
use function_sums::Telling;
use page_texts::Source;
use profile_messages::SampleType;
use stack_core::Listed;

// What is known of the sources of a run beside the samples that are shown.
#[derive(Drop)]
pub(crate) struct RunFacts {
    // What all samples weigh, with those that are left out.
    pub(crate) whole: u64,
    // For each source the sample type of its weights; name and unit are empty where it has none. Texts of
    // functions tell it, pages and pictures.
    pub(crate) types: Listed<SampleType>,
}

// What a text of functions tells of the samples.
pub(crate) fn telling<'a>(plan: &Plan, facts: &RunFacts, described: &[Source<'a>]) -> Telling<'a>
    ensures { told_of result ≡ record {
      whole = told_whole plan.now facts.now;
      type_name = common_unit (types_with_weight (map source_of described.now));
      unit = common_unit (units_with_weight (map source_of described.now));
    } }
{
    Telling {
        whole: told_whole(plan, facts),
        type_name: common(described, Said::TypeName),
        unit: common(described, Said::Unit),
    }
}

// What a text tells of the weight of all samples.
fn told_whole(plan: &Plan, facts: &RunFacts) -> Option<u64>
    ensures { result ≡ told_whole plan.now facts.now }
{
    if plan.options.filter.is_everything() && plan.from.is_none() {
        None
    } else {
        Some(facts.whole)
    }
}
