//! The functions whose share grew by more than a view allows.
ghost use Rattle.std.specs.Prelude.{◌≡◌, IfOk, length};
ghost use Rattle.command_line.specs.Plans.{IsComparison};
ghost use Rattle.merged_stacks.specs.Timeline.{samples_of};
ghost use Rattle.source_views.specs.Texts.{diff_growth, growth_line};
ghost use Rattle.stack_core.specs.Interleaving.{list_of};

use crate::change_texts::{order_of, wholes};
use crate::functions::change_functions;
use command_line::{DiffTable, View};
use function_sums::{grown, grown_line};
use source_lists::SourceLists;
use std::alloc::{AllocError, Global};

/// The line on the functions whose share of own weight grew by more than the view's limit, if it has one. It is
/// empty where there is no such function.
pub fn growth_line(alloc: Global, sources: &SourceLists, view: View) -> Result<Vec<u8>, AllocError>
    requires { IsComparison view → length sources.now.lists ≡ 2 }
    ensures { IfOk result (λ line.
        line.items ≡ growth_line view (samples_of sources.now.lists)) }
{
    match view {
        View::Diff(diff) => diff_growth(alloc, sources, diff),
        View::Fold
        | View::Graph(_)
        | View::Chart(_)
        | View::Pairs
        | View::PairBoxes(_)
        | View::Top(_) => Ok(Vec::new(alloc)),
    }
}

// The same of the changes from the first source to the second.
fn diff_growth(alloc: Global, sources: &SourceLists, diff: DiffTable) -> Result<Vec<u8>, AllocError>
    requires { length sources.now.lists ≡ 2 }
    ensures { IfOk result (λ line. line.items
        ≡ diff_growth diff (list_of (samples_of sources.now.lists) 0) (list_of (samples_of sources.now.lists) 1)) }
{
    let lists = sources.lists();
    let (before, after) = (&lists[0], &lists[1]);
    match diff.fail_over {
        Some(points) => {
            let order = order_of(diff, before, after);
            let changes = change_functions(alloc, before, after, order)?;
            let names = grown(alloc, &changes, wholes(before, after), points)?;
            grown_line(alloc, points, &names)
        }
        None => Ok(Vec::new(alloc)),
    }
}
