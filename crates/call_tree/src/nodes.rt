//! The nodes of a tree in one list, each after its parent, with a look-up from a node and a frame number to the child.
ghost use Rattle.std.specs.FinMap as map;
ghost use Rattle.std.specs.Prelude.{◌≡◌, ◌+◌, ◌<◌, ◌≤◌, ◌^◌, ◌⊎◌, ℕ, [], length, nat_eq, MatchOption, OnOk, OnErr, IfOk, vec_len, vec_capacity, false};
ghost use Rattle.std.specs.List.{slice_index, slice_index_or};
ghost use Rattle.call_tree.specs.PathSums.{begins_with};
ghost use Rattle.call_tree.specs.CallTree.{own_weight, total_weight, with_weight, IsChildren, IsNodeCount};
ghost use Rattle.call_tree.specs.checked.Nodes.{path_of, weights_of, IsTree, IsNodeOf, frames_below as below, EntersChild, MakesChild};

use crate::links::{Link, Links};
use std::alloc::{AllocError, Global};
use std::marker::Model;

/// The root is node 0, and node n + 1 has the n-th link.
#[derive(Drop)]
pub struct Nodes {
    links: Links,
    owns: Vec<u128>,
    totals: Vec<u128>,
}

impl Model for Nodes {
    ghost use Rattle.call_tree.specs.checked.Nodes.{NodeLists, IsTree};

    ghost Value = { NodeLists };

    ghost view = { λ n. record { links = n.links.keys; owns = n.owns.items; totals = n.totals.items } };

    ghost invariant = { λ n. IsTree n.links.keys n.owns.items n.totals.items };
}

impl Nodes {
    /// The root alone, without weight.
    pub fn new(alloc: Global) -> Result<Nodes, AllocError>
        ensures { IfOk result (λ nodes. weights_of nodes ≡ map.empty) }
    {
        Ok(Nodes {
            links: Links::new(alloc),
            owns: vec![in alloc; 0]?,
            totals: vec![in alloc; 0]?,
        })
    }

    /// How many nodes there are, the root among them.
    pub fn len(&self) -> usize
        ensures len { result ≡ length self.now.links + 1 }
        ensures count { IsNodeCount (weights_of self.now) result }
        ensures tree { IsTree self.now.links self.now.owns self.now.totals }
    {
        self.links.as_slice().len() + 1
    }

    /// The link at an index: that of the node `index + 1`.
    pub fn link(&self, index: usize) -> Link
        requires { index < length self.now.links }
        ensures { slice_index_or self.now.links index result ≡ result }
    {
        self.links.as_slice()[index]
    }

    /// A node's own weight.
    pub fn own(&self, node: usize) -> u128
        requires { node < length self.now.links + 1 }
        ensures stored { result ≡ slice_index self.now.owns node }
        ensures weight { result ≡ own_weight (weights_of self.now) (path_of self.now.links node) }
    {
        self.owns[node]
    }

    /// A node's total.
    pub fn total(&self, node: usize) -> u128
        requires { node < length self.now.links + 1 }
        ensures stored { result ≡ slice_index self.now.totals node }
        ensures weight { result ≡ total_weight (weights_of self.now) (path_of self.now.links node) }
    {
        self.totals[node]
    }

    /// The node of a path.
    pub fn find(&self, path: &[usize]) -> Option<usize>
        ensures { MatchOption result
            ((i : ℕ) → i < length self.now.links + 1
            → begins_with nat_eq path.now (path_of self.now.links i) ≡ false)
            (λ node. IsNodeOf self.now.links path.now node) }
    {
        let mut node = 0;
        for frame in path {
            let link = Link {
                parent: node,
                frame: *frame,
            };
            let index = self.links.find(link)?;
            node = index + 1;
        }
        Some(node)
    }

    /// Adds a weight above 0 at a path, in every node on the way to it.
    pub fn add(&mut self, ids: &[usize], weight: u128) -> Result<(), AllocError>
        requires positive { 0 < weight }
        requires fits { total_weight (weights_of self.old) [] + weight < 2 ^ 128 }
        ensures ok { OnOk result
            (weights_of self.new ≡ with_weight (weights_of self.old) ids.now weight) }
        ensures err { OnErr result (self.new ≡ self.old) }
    {
        self.links.reserve(ids.len())?;
        self.owns.reserve(ids.len())?;
        self.totals.reserve(ids.len())?;
        self.totals[0] += weight;
        let mut node = 0;
        for id in ids {
            let link = Link {
                parent: node,
                frame: *id,
            };
            node = enter(
                &mut self.links,
                &mut self.owns,
                &mut self.totals,
                link,
                weight,
            );
        }
        self.owns[node] += weight;
        Ok(())
    }

    /// The frame numbers of a node's children, rising.
    pub fn children(&self, alloc: Global, node: usize) -> Result<Vec<usize>, AllocError>
        requires { node < length self.now.links + 1 }
        ensures { IfOk result (λ frames.
            IsChildren (weights_of self.now) (path_of self.now.links node) frames.items) }
    {
        let mut frames = frames_below(alloc, self.links.as_slice(), node)?;
        frames.sort()?;
        Ok(frames)
    }

    /// The same nodes once more.
    pub fn copy(&self) -> Result<Nodes, AllocError>
        ensures { IfOk result (λ nodes. nodes ≡ self.now) }
    {
        Ok(Nodes {
            links: self.links.copy()?,
            owns: self.owns.clone()?,
            totals: self.totals.clone()?,
        })
    }
}

/// The node at a link, made if there is none, with `weight` more.
fn enter(
    links: &mut Links,
    owns: &mut Vec<u128>,
    totals: &mut Vec<u128>,
    link: Link,
    weight: u128,
) -> usize
    requires owns_len { length owns.old.items ≡ length links.old.keys + 1 }
    requires totals_len { length totals.old.items ≡ length links.old.keys + 1 }
    requires links_room { 0 < links.old.room }
    requires owns_room { vec_len owns.old < vec_capacity owns.old }
    requires totals_room { vec_len totals.old < vec_capacity totals.old }
    requires fits { (i : ℕ) → i < length links.old.keys
        → slice_index_or links.old.keys i link ≡ link
        → slice_index totals.old.items (i + 1) + weight < 2 ^ 128 }
    ensures child { EntersChild links.old.keys links.new.keys owns.old.items owns.new.items
        totals.old.items totals.new.items link weight result
        ⊎ MakesChild links.old.keys links.new.keys owns.old.items owns.new.items
        totals.old.items totals.new.items link weight result }
    ensures links_room { links.old.room ≤ links.new.room + 1 }
    ensures owns_room { vec_capacity owns.old + vec_len owns.new
        ≤ vec_capacity owns.new + vec_len owns.old + 1 }
    ensures totals_room { vec_capacity totals.old + vec_len totals.new
        ≤ vec_capacity totals.new + vec_len totals.old + 1 }
{
    let (index, is_new) = links.enter(link);
    if is_new {
        let _ = owns.push(0);
        let _ = totals.push(weight);
        return index + 1;
    }
    totals[index + 1] += weight;
    index + 1
}

/// The frame numbers of a node's children, as they were made.
fn frames_below(alloc: Global, links: &[Link], node: usize) -> Result<Vec<usize>, AllocError>
    ensures { IfOk result (λ frames. frames.items ≡ below node links.now) }
{
    links
        .iter()
        .filter(|link| node == link.parent)
        .map(|link| link.frame)
        .collect(alloc)
}
