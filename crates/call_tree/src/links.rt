//! The links of nodes, each found from its hash.
ghost use Rattle.std.specs.Prelude.{◌≡◌, ◌↔◌, ◌≤◌, ◌<◌, ◌+◌, [], length, true, false, IsTrue, OnOk, OnErr, IfOk, IfErr, MatchOption, vec_capacity};
ghost use Rattle.std.specs.List.{slice_index_or};
ghost use Rattle.call_tree.specs.checked.Links.{hash_of_link, HasLinks, IsKnownLink, IsNewLink, IsNoLink};
ghost use Rattle.call_tree.specs.checked.Places.{IsFree};

use crate::places::Places;
use std::alloc::{AllocError, Global};
use std::marker::Model;

/// How many slots there are at first.
const FIRST_SLOTS: usize = 64;

/// Odd numbers, so that each product modulo 2^64 has one factor. Their digits are those of the golden ratio and of pi.
const FIRST_FACTOR: u64 = 0x9e37_79b9_7f4a_7c15;

const SECOND_FACTOR: u64 = 0x243f_6a88_85a3_08d3;

/// How a node hangs in the tree: below which node, and under which frame number.
#[derive(Clone, Copy, PartialEq, Eq)]
pub struct Link {
    pub parent: usize,
    pub frame: usize,
}

/// Links, numbered from 0 in the order in which they came.
#[derive(Drop)]
pub struct Links {
    alloc: Global,
    links: Vec<Link>,
    places: Places,
}

impl Model for Links {
    ghost use Rattle.std.specs.Prelude.{◌-◌, length, min, vec_capacity};
    ghost use Rattle.call_tree.specs.checked.Links.{LinkList, HasLinks};

    ghost Value = { LinkList };

    ghost view = { λ l. record { keys = l.links.items; room = min l.places.slots (vec_capacity l.links) - length l.links.items } };

    ghost invariant = { λ l. HasLinks l.links.items l.places.slots l.places.cells.items (vec_capacity l.places.cells) };
}

impl Links {
    /// No links, and no memory.
    pub fn new(alloc: Global) -> Links
        ensures { result.keys ≡ [] }
    {
        Links {
            alloc,
            links: Vec::new(alloc),
            places: Places::new(alloc),
        }
    }

    /// The links.
    pub fn as_slice(&self) -> &[Link]
        ensures { result.now ≡ self.now.keys }
    {
        self.links.as_slice()
    }

    /// The number of a link.
    pub fn find(&self, link: Link) -> Option<usize>
        ensures { MatchOption result
            (IsNoLink self.now.keys link)
            (λ number. IsKnownLink self.now.keys self.now.keys link number) }
    {
        walk_to(link, hash_of(link), self.links.as_slice(), &self.places).ok()
    }

    /// Room for so many links more: if there is less, twice as many slots, or as many as are wanted.
    pub fn reserve(&mut self, more: usize) -> Result<(), AllocError>
        ensures keys { self.new.keys ≡ self.old.keys }
        ensures room { OnOk result (more ≤ self.new.room) }
    {
        self.links.reserve(more)?;
        let wanted = self.links.len().saturating_add(more);
        if wanted <= self.places.slots {
            return Ok(());
        }
        let slots = self.places.slots.saturating_mul(2).max(FIRST_SLOTS);
        self.places = places_of(self.alloc, self.links.as_slice(), slots.max(wanted))?;
        Ok(())
    }

    /// The number of a link, and whether it gets it only now: the next one.
    pub fn enter(&mut self, link: Link) -> (usize, bool)
        requires { 0 < self.old.room }
        ensures known { result.1 ≡ false → IsKnownLink self.old.keys self.new.keys link result.0 }
        ensures new { result.1 ≡ true → IsNewLink self.old.keys self.new.keys link result.0 }
        ensures room { self.old.room ≤ self.new.room + 1 }
    {
        let hash = hash_of(link);
        match walk_to(link, hash, self.links.as_slice(), &self.places) {
            Ok(number) => (number, false),
            Err(place) => {
                let number = self.links.len();
                self.places.push(hash, place, number);
                let _ = self.links.push(link);
                (number, true)
            }
        }
    }

    /// The same links once more.
    pub fn copy(&self) -> Result<Links, AllocError>
        ensures { IfOk result (λ links. links.keys ≡ self.now.keys) }
    {
        Ok(Links {
            alloc: self.alloc,
            links: self.links.clone()?,
            places: self.places.copy(self.alloc)?,
        })
    }
}

/// The hash of a link. Each of its steps is one-to-one, so no two links whose numbers have 32 bits have the same.
fn hash_of(link: Link) -> u64
    ensures { result ≡ hash_of_link link }
{
    let both = (link.parent as u64) << 32 ^ link.frame as u64;
    let mixed = both.wrapping_mul(FIRST_FACTOR);
    (mixed ^ mixed >> 32).wrapping_mul(SECOND_FACTOR)
}

/// Whether a link has this number.
fn has_link(links: &[Link], number: usize, link: Link) -> bool
    ensures { IsTrue result ↔ ((number < length links.now) × (slice_index_or links.now number link ≡ link)) }
{
    if number >= links.len() {
        return false;
    }
    links[number] == link
}

/// The number of a link, or the empty place where its walk ends.
fn walk_to(link: Link, hash: u64, links: &[Link], places: &Places) -> Result<usize, usize>
    requires hash { hash ≡ hash_of_link link }
    requires places { HasLinks links.now places.now.slots places.now.cells.items (vec_capacity places.now.cells) }
    ensures known { IfOk result (IsKnownLink links.now links.now link) }
    ensures absent { OnErr result (IsNoLink links.now link) }
    ensures free { IfErr result (λ place. 0 < places.now.slots → IsFree places.now.cells.items places.now.slots hash place) }
{
    places.walk(hash, |number| has_link(links, number, link))
}

/// The places of these links in so many slots.
fn places_of(alloc: Global, links: &[Link], slots: usize) -> Result<Places, AllocError>
    requires { length links.now ≤ slots }
    ensures places { IfOk result (λ places. HasLinks links.now places.slots places.cells.items (vec_capacity places.cells)) }
    ensures slots { IfOk result (λ places. places.slots ≡ slots) }
{
    let mut places = Places::with_slots(alloc, slots)?;
    for number in 0..links.len() {
        let hash = hash_of(links[number]);
        let place = places.end_of_walk(hash);
        places.push(hash, place, number);
    }
    Ok(places)
}
