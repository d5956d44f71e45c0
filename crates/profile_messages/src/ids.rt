//! The entries of a table by their ids.

ghost use Rattle.std.specs.Prelude.{◌≡◌, ◌==◌, ℕ, Some, None, [], map, IfOk, OnOk, IfErr, if◌then◌else◌};
ghost use Rattle.profile_messages.specs.declared.messages.PlacedNumber.{PlacedNumber};
ghost use Rattle.profile_messages.specs.Message.{first};
ghost use Rattle.profile_messages.specs.Tables.{id_faults};
ghost use Rattle.profile_messages.specs.Faults.{IsFirstOf};
ghost use Rattle.profile_messages.specs.SeenIndex.{place_in, IsIndexOf};

use crate::faults::TableFault;
use crate::messages::{Function, Location, PlacedNumber};
use stack_core::{ReadFault, ReadKind};
use std::alloc::{AllocError, Global};
use std::collections::BTreeMap;

/// An entry of a table, which others name by its id.
pub(crate) trait Entry {
    ghost id_of: { Self → PlacedNumber };

    /// The id, and where the entry stands.
    fn id(&self) -> PlacedNumber
        ensures { result ≡ id_of self.now };
}

impl Entry for Function {
    ghost use Rattle.profile_messages.specs.Records.{function_id};

    ghost id_of = { function_id };

    fn id(&self) -> PlacedNumber {
        let Function { at, id, .. } = *self;
        PlacedNumber { at, number: id }
    }
}

impl Entry for Location {
    ghost use Rattle.profile_messages.specs.SeenIndex.{code_location_id};

    ghost id_of = { code_location_id };

    fn id(&self) -> PlacedNumber {
        let Location { at, id, .. } = *self;
        PlacedNumber { at, number: id }
    }
}

/// The places of a table's entries, in file order, by their ids. Ids mostly count from 1, so a list has those up to the number of
/// entries, and a map the greater ones.
#[derive(Debug, Drop)]
pub struct Index {
    near: Vec<Option<usize>>,
    far: BTreeMap<u64, usize>,
}

impl Index {
    /// The place of the entry that has an id.
    #[inline]
    pub fn get(&self, id: u64) -> Option<usize>
        ensures { result ≡ place_in self.now id }
    {
        match self.near.get(id as usize) {
            Some(place) => *place,
            None => self.far.get(&id).copied(),
        }
    }

    /// Gives an id a place.
    fn insert(&mut self, id: u64, place: usize) -> Result<(), AllocError>
        ensures { IfOk result (λ _. (other : ℕ)
            → place_in self.new other
            ≡ (if id == other then Some place else place_in self.old other)) }
    {
        if id < self.near.len() as u64 {
            self.near[id as usize] = Some(place);
        } else {
            self.far.insert(id, place)?;
        }
        Ok(())
    }
}

/// Gives each entry of a table its place, where no id is 0 and none stands twice.
fn insert_all<E: Entry>(index: &mut Index, table: &[E]) -> Result<(), TableFault>
    requires { IsIndexOf E.id_of [] index.old }
    ensures ids { OnOk result (first (id_faults [] (map E.id_of table.now)) ≡ None) }
    ensures places { OnOk result (IsIndexOf E.id_of table.now index.new) }
    ensures fault { IfErr result (IsFirstOf (id_faults [] (map E.id_of table.now))) }
{
    for (place, entry) in table.iter().enumerate() {
        let PlacedNumber { at, number: id } = entry.id();
        let at = at as u64;
        if id == 0 {
            let kind = ReadKind::ZeroId;
            return Err(TableFault::Read(ReadFault { kind, at }));
        }
        if index.get(id).is_some() {
            let kind = ReadKind::DuplicateId;
            return Err(TableFault::Read(ReadFault { kind, at }));
        }
        index.insert(id, place)?;
    }
    Ok(())
}

/// The locations or the functions of a profile by their ids, where no id is 0 and none stands twice.
pub(crate) fn index_of<E: Entry>(alloc: Global, table: &[E]) -> Result<Index, TableFault>
    ensures ids { IfOk result (λ _. first (id_faults [] (map E.id_of table.now)) ≡ None) }
    ensures places { IfOk result (IsIndexOf E.id_of table.now) }
    ensures fault { IfErr result (IsFirstOf (id_faults [] (map E.id_of table.now))) }
{
    let mut index = Index {
        near: vec![in alloc; None; table.len().saturating_add(1)]?,
        far: BTreeMap::new(alloc),
    };
    insert_all(&mut index, table)?;
    Ok(index)
}
