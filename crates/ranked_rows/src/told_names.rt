//! Told names, of which equal ones are mostly kept once.

ghost use Rattle.std.specs.Prelude.{◌≡◌, ◌<◌, ◌++◌, ◌∷◌, ℕ, [], List, IsTrue, IfOk, OnOk, map};
ghost use Rattle.std.specs.List.{enumerate_from};
ghost use Rattle.ranked_rows.specs.Ranks.{all_told};
ghost use Rattle.ranked_rows.specs.checked.Names.{placed_name, AreKept, AreNamed, IsKept, KeepsMore};

use sample_tables::{NumberCache, hash_of_name};
use stack_core::SourceList;
use std::alloc::{AllocError, Global};

/// How many times the names of the longest list a cache has room for.
const ROOM: usize = 8;

/// A told name, and its place among those that are kept.
pub(crate) type NameAt<'a> = (&'a str, usize);

/// Told names.
#[derive(Drop)]
pub(crate) struct ToldNames<'a> {
    /// Of equal ones mostly one.
    pub kept: Vec<NameAt<'a>>,
    /// For each told name the place of an equal one that is kept.
    pub places: Vec<u32>,
}

/// So many names, each with its place among them.
pub(crate) fn placed_names<'a, F: Fn(usize) -> &'a str>(
    alloc: Global,
    count: usize,
    name_of: F,
) -> Result<Vec<NameAt<'a>>, AllocError>
    requires { (number : ℕ) → number < count → F.pre name_of number }
    ensures { IfOk result (λ kept. (names : List (List ℕ)) → AreNamed (F.post name_of) count names
        → map placed_name kept.items ≡ enumerate_from 0 names) }
{
    let mut kept = Vec::new(alloc);
    for number in 0..count {
        kept.push((name_of(number), number))?;
    }
    Ok(kept)
}

/// The told names of all lists.
pub(crate) fn names_of_lists<'a>(
    alloc: Global,
    lists: &'a [SourceList],
) -> Result<ToldNames<'a>, AllocError>
    ensures { IfOk result (λ told. AreKept (all_told lists.now) told.kept.items told.places.items) }
{
    let mut known = NumberCache::with_room(alloc, room(lists))?;
    let mut told = no_names(alloc);
    for list in lists {
        keep_names(&mut told, &mut known, list)?;
    }
    Ok(told)
}

/// The told names of two lists.
pub(crate) fn names_of_pair<'a>(
    alloc: Global,
    before: &'a SourceList,
    after: &'a SourceList,
) -> Result<ToldNames<'a>, AllocError>
    ensures { IfOk result (λ told.
        AreKept (before.now.told ++ after.now.told) told.kept.items told.places.items) }
{
    let room = before.told().saturating_add(after.told());
    let mut known = NumberCache::with_room(alloc, room)?;
    let mut told = no_names(alloc);
    keep_names(&mut told, &mut known, before)?;
    keep_names(&mut told, &mut known, after)?;
    Ok(told)
}

fn no_names<'a>(alloc: Global) -> ToldNames<'a>
    ensures { AreKept [] result.kept.items result.places.items }
{
    ToldNames {
        kept: Vec::new(alloc),
        places: Vec::new(alloc),
    }
}

/// For how many names a cache has room. Lists that have most names in common have few more than the longest one.
fn room(lists: &[SourceList]) -> usize {
    let mut all: usize = 0;
    let mut most: usize = 0;
    for list in lists {
        all = all.saturating_add(list.told());
        most = most.max(list.told());
    }
    all.min(most.saturating_mul(ROOM))
}

/// Keeps those names of a list that are not known.
fn keep_names<'a>(
    told: &mut ToldNames<'a>,
    known: &mut NumberCache,
    list: &'a SourceList,
) -> Result<(), AllocError>
    ensures { OnOk result ((front : List (List ℕ)) → AreKept front told.old.kept.items told.old.places.items
        → AreKept (front ++ list.now.told) told.new.kept.items told.new.places.items) }
{
    for number in 0..list.told() {
        keep_name(told, known, list.told_name(number))?;
    }
    Ok(())
}

/// Keeps a name, unless it is known.
fn keep_name<'a>(
    told: &mut ToldNames<'a>,
    known: &mut NumberCache,
    name: &'a str,
) -> Result<(), AllocError>
    ensures { OnOk result ((front : List (List ℕ)) → AreKept front told.old.kept.items told.old.places.items
        → AreKept (front ++ name.now ∷ []) told.new.kept.items told.new.places.items) }
{
    let place = place_of(&mut told.kept, known, name)?;
    told.places.push(narrowed(place)?)?;
    Ok(())
}

/// The place of a name: a known one, or else the next, at which it is kept now.
fn place_of<'a>(
    kept: &mut Vec<NameAt<'a>>,
    known: &mut NumberCache,
    name: &'a str,
) -> Result<usize, AllocError>
    ensures found { IfOk result (λ place. IsKept kept.new.items place name.now) }
    ensures keeps { OnOk result (KeepsMore kept.old.items kept.new.items) }
{
    let hash = hash_of_name(name);
    if let Some(place) = known.find(hash, |place| is_kept(kept, place, name)) {
        return Ok(place);
    }
    let place = kept.len();
    kept.push((name, place))?;
    known.remember(hash, place);
    Ok(place)
}

/// Whether a name is kept at this place.
fn is_kept(kept: &[NameAt<'_>], place: usize, name: &str) -> bool
    ensures { IsTrue result → IsKept kept.now place name.now }
{
    place < kept.len() && kept[place].0 == name
}

/// A place in 32 bits. One past the 2^32nd is refused as memory is.
pub(crate) fn narrowed(place: usize) -> Result<u32, AllocError>
    ensures { IfOk result (λ narrow. narrow ≡ place) }
{
    if place > u32::MAX as usize {
        return Err(AllocError);
    }
    Ok(place as u32)
}
