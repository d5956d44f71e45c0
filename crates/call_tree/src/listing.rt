//! The nodes of a tree in the order of their names.
ghost use Rattle.std.specs.Prelude.{◌≡◌, ◌+◌, ◌<◌, length, IfOk};
ghost use Rattle.call_tree.specs.FrameTable.{HasDistinctNames};
ghost use Rattle.call_tree.specs.Listing.{HasNumbersOf, IsListing};
ghost use Rattle.call_tree.specs.checked.NodeOrder.{AreDepths, AreRows, HasFramesOf, LeadsByName, visit_at};
ghost use Rattle.call_tree.specs.checked.Nodes.{weights_of};

use crate::frame_table::FrameTable;
use crate::nodes::Nodes;
use std::alloc::{AllocError, Global};
use std::cmp::Reverse;

/// A node of a listing: how many frames its path has, the last one's number (0 for the root), and its weights.
#[derive(Clone, Copy, PartialEq, Eq, Debug)]
pub struct Visit {
    pub depth: usize,
    pub frame: usize,
    pub total: u128,
    pub own: u128,
}

/// A node's parent, its own name and its number. So sorted, the children of one parent stand together, the last by name first.
type Row<'a> = (usize, Reverse<&'a str>, usize);

/// The rows of all nodes but the root, sorted.
fn sorted_rows<'a>(
    alloc: Global,
    nodes: &Nodes,
    table: &'a FrameTable,
) -> Result<Vec<Row<'a>>, AllocError>
    requires frames { HasFramesOf table.now nodes.now.links }
    requires distinct { HasDistinctNames table.now }
    ensures { IfOk result (λ rows. AreRows table.now nodes.now.links rows.items) }
{
    let links = nodes.len() - 1;
    let mut rows = Vec::with_capacity(alloc, links)?;
    for index in 0..links {
        let link = nodes.link(index);
        rows.push((link.parent, Reverse(table.name(link.frame)), index + 1))?;
    }
    rows.sort_unstable();
    Ok(rows)
}

/// For each node the one after it in the order of their names; for the last one 0.
fn next_nodes(alloc: Global, nodes: &Nodes, table: &FrameTable) -> Result<Vec<usize>, AllocError>
    requires frames { HasFramesOf table.now nodes.now.links }
    requires distinct { HasDistinctNames table.now }
    ensures { IfOk result (λ next. LeadsByName table.now nodes.now.links next.items) }
{
    let rows = sorted_rows(alloc, nodes, table)?;
    let mut next = vec![in alloc; 0; nodes.len()]?;
    // A row comes after its parent's own and after those of later names: its node goes right behind the parent.
    for (parent, _, node) in &rows {
        next[*node] = next[*parent];
        next[*parent] = *node;
    }
    Ok(next)
}

/// How many frames each node's path has.
fn depths(alloc: Global, nodes: &Nodes) -> Result<Vec<usize>, AllocError>
    ensures { IfOk result (λ depths. AreDepths nodes.now.links depths.items) }
{
    let len = nodes.len();
    let mut depths = Vec::with_capacity(alloc, len)?;
    depths.push(0)?;
    for index in 0..len - 1 {
        let link = nodes.link(index);
        depths.push(depths[link.parent] + 1)?;
    }
    Ok(depths)
}

/// What a listing says of a node at a depth.
fn visit_node(nodes: &Nodes, depth: usize, node: usize) -> Visit
    requires { node < length nodes.now.links + 1 }
    ensures { result ≡ visit_at nodes.now.links nodes.now.owns nodes.now.totals depth node }
{
    let frame = if node == 0 {
        0
    } else {
        nodes.link(node - 1).frame
    };
    Visit {
        depth,
        frame,
        total: nodes.total(node),
        own: nodes.own(node),
    }
}

/// Each node whose total is positive, once, ordered by the names of its path.
pub fn listing(alloc: Global, nodes: &Nodes, table: &FrameTable) -> Result<Vec<Visit>, AllocError>
    requires distinct { HasDistinctNames table.now }
    requires numbers { HasNumbersOf table.now (weights_of nodes.now) }
    ensures { IfOk result (λ visits. IsListing table.now (weights_of nodes.now) visits.items) }
{
    let len = nodes.len();
    if nodes.total(0) == 0 {
        return Ok(Vec::new(alloc));
    }
    let next = next_nodes(alloc, nodes, table)?;
    let depths = depths(alloc, nodes)?;
    let mut visits = Vec::with_capacity(alloc, len)?;
    let mut node = 0;
    for _ in 0..len {
        visits.push(visit_node(nodes, depths[node], node))?;
        node = next[node];
    }
    Ok(visits)
}
