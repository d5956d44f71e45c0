//! The boxes of a tree and of a list.

ghost use Rattle.std.specs.Prelude.{◌≡◌, length};
ghost use Rattle.call_tree.specs.Listing.{HasNumbersOf};
ghost use Rattle.bench_tree.specs.Depth.{IsShallow};

use call_tree::{CallTree, FrameTable};
use flame_layout::{chart_boxes, graph_boxes};
use stack_core::SourceList;
use std::alloc::{AllocError, Global};

/// How many boxes the flame graph of the tree has, and how many the flame chart of the list. `None`
/// where one of them weighs 2^64 or more.
pub fn count_boxes(
    alloc: Global,
    table: &FrameTable,
    tree: &CallTree,
    list: SourceList,
) -> Result<Option<(usize, usize)>, AllocError>
    requires told { length list.told ≡ length table.now }
    requires numbers { HasNumbersOf list.told tree.now }
    requires depth { IsShallow tree.now }
{
    let most = u128::from(u64::MAX);
    if tree.total(&[]) > most || list.total() > most {
        return Ok(None);
    }
    let graph = graph_boxes(alloc, tree, table)?;
    let chart = chart_boxes(alloc, &[list])?;
    Ok(Some((graph.len(), chart.len())))
}
