//! A map from names to numbers.
#![tactic(auto)]

ghost use Rattle.std.specs.Prelude.{◌≡◌, None, IfOk, OnOk, OnErr};
ghost use Rattle.std.specs.Option.{is_some};
ghost use Rattle.std.specs.FinMap as fin;

use indexmap::IndexMap;
use std::alloc::{AllocError, Global};
use std::marker::Model;

#[cfg(test)]
mod tests;

/// A number for each of some names, found by the name's hash. Contracts see the finite map alone, not the order of the entries.
#[derive(Drop)]
pub struct NameMap {
    places: IndexMap<Vec<u8>, u32>,
}

impl Model for NameMap {
    ghost use Rattle.std.specs.Coded.{coded_list, coded_ℕ};
    ghost use Rattle.std.specs.FinMap as fin;
    ghost use Rattle.name_map.specs.Names.{Places};
    ghost use Rattle.name_map.specs.Held.{places_of};

    ghost Value = { Places };

    ghost coded = { fin.code (coded_list coded_ℕ) coded_ℕ };

    ghost view = { λ m. places_of m.places.entries };
}

impl NameMap {
    /// No names.
    pub fn new(alloc: Global) -> NameMap
        ensures none { result ≡ fin.empty }
    {
        NameMap {
            places: IndexMap::new(alloc),
        }
    }

    /// The number of a name, or None where it has none.
    pub fn get(&self, name: &[u8]) -> Option<u32>
        ensures place { result ≡ fin.get self.now name.now }
    {
        self.places.get(name).copied()
    }

    /// Gives a name this number, in place of any that it had, and tells whether it had one. Memory is wanted only for a name
    /// that had none; where it is refused, nothing changes.
    pub fn insert(&mut self, name: Vec<u8>, place: u32) -> Result<bool, AllocError>
        ensures held { IfOk result (λ held. held ≡ is_some (fin.get self.old name.items)) }
        ensures ok { OnOk result (self.new ≡ fin.insert self.old name.items place) }
        ensures err { OnErr result (self.new ≡ self.old) }
        ensures absent { OnErr result (fin.get self.old name.items ≡ None) }
    {
        match self.places.insert(name, place) {
            Ok(old) => Ok(old.is_some()),
            Err(refused) => Err(AllocError::from(refused)),
        }
    }
}
