//! The merged tree of call paths.
ghost use Rattle.std.specs.FinMap as map;
ghost use Rattle.std.specs.Prelude.{◌≡◌, ◌+◌, ◌<◌, ◌^◌, [], IsOk, OnOk, OnErr, IfOk};
ghost use Rattle.call_tree.specs.CallTree.{own_weight, total_weight, with_weight, IsChildren, IsNodeCount};
ghost use Rattle.call_tree.specs.Listing.{HasNumbersOf, IsListing};

use crate::frame_table::FrameTable;
use crate::listing::{Visit, listing};
use crate::nodes::Nodes;
use std::alloc::{AllocError, Global};
use std::marker::Model;

/// Call paths, as lists of frame numbers root first, with the weight that was added at each.
#[derive(Drop)]
pub struct CallTree {
    alloc: Global,
    nodes: Nodes,
}

impl Model for CallTree {
    ghost use Rattle.std.specs.FinMap as map;
    ghost use Rattle.std.specs.Coded.{coded_ℕ, coded_list};
    ghost use Rattle.call_tree.specs.CallTree.{Tree};
    ghost use Rattle.call_tree.specs.checked.Nodes.{weights_of};

    ghost Value = { Tree };

    ghost coded = { map.code (coded_list coded_ℕ) coded_ℕ };

    ghost view = { λ t. weights_of t.nodes };
}

impl CallTree {
    /// A tree without weight: the root alone.
    pub fn new(alloc: Global) -> Result<CallTree, AllocError>
        ensures { IfOk result (λ tree. tree ≡ map.empty) }
    {
        let nodes = Nodes::new(alloc)?;
        Ok(CallTree { alloc, nodes })
    }

    /// Adds a weight at the path `ids`, root first. A weight of 0 changes nothing and takes no memory.
    pub fn add(&mut self, ids: &[usize], weight: u64) -> Result<(), AllocError>
        requires { total_weight self.old [] + weight < 2 ^ 128 }
        ensures ok { OnOk result (self.new ≡ with_weight self.old ids.now weight) }
        ensures err { OnErr result (self.new ≡ self.old) }
        ensures no_weight { weight ≡ 0 → IsOk result }
    {
        if weight == 0 {
            return Ok(());
        }
        self.nodes.add(ids, u128::from(weight))
    }

    /// The sum of the weights at the paths that begin with `path`: 0 where there is none.
    pub fn total(&self, path: &[usize]) -> u128
        ensures { result ≡ total_weight self.now path.now }
    {
        match self.nodes.find(path) {
            Some(node) => self.nodes.total(node),
            None => 0,
        }
    }

    /// The weight at `path` alone: 0 where there is none.
    pub fn own(&self, path: &[usize]) -> u128
        ensures { result ≡ own_weight self.now path.now }
    {
        match self.nodes.find(path) {
            Some(node) => self.nodes.own(node),
            None => 0,
        }
    }

    /// The numbers, rising, by which `path` goes on to a path with a positive total. It looks at each node once.
    pub fn children(&self, path: &[usize]) -> Result<Vec<usize>, AllocError>
        ensures { IfOk result (λ children. IsChildren self.now path.now children.items) }
    {
        match self.nodes.find(path) {
            Some(node) => self.nodes.children(self.alloc, node),
            None => Ok(Vec::new(self.alloc)),
        }
    }

    /// How many nodes there are: the root, and each other path with a positive total.
    pub fn len(&self) -> usize
        ensures { IsNodeCount self.now result }
    {
        self.nodes.len()
    }

    /// A tree of its own with the same weights.
    pub fn copy(&self) -> Result<CallTree, AllocError>
        ensures { IfOk result (λ tree. tree ≡ self.now) }
    {
        let nodes = self.nodes.copy()?;
        Ok(CallTree {
            alloc: self.alloc,
            nodes,
        })
    }

    /// Each path with a positive total once, ordered by its names, so each before those that begin with it. It sorts the
    /// nodes once.
    pub fn listing(&self, table: &FrameTable) -> Result<Vec<Visit>, AllocError>
        requires { HasNumbersOf table.now self.now }
        ensures { IfOk result (λ visits. IsListing table.now self.now visits.items) }
    {
        table.knows_distinct_names();
        listing(self.alloc, &self.nodes, table)
    }
}
