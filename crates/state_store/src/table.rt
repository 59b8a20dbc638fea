ghost use Rattle.std.specs.Prelude.{◌≡◌, None, Some, IsSome, IfOk, OnOk, OnErr, slice_get};
ghost use Rattle.std.specs.Option.{option_copied};
ghost use Rattle.std.specs.FinMap as fin;
ghost use Rattle.sv_value.specs.declared.value.Value.{Value};
ghost use Rattle.identity_path.specs.Cells.{slot_at, value_at, written};

use crate::weigh::slot_of;
use bindings::set_in;
use identity_path::{Path, Place};
use indexmap::IndexMap;
use std::alloc::{AllocError, Global};
use std::marker::Model;
use sv_value::{Value, Values, copy_of_all};

/// The slots of each path, found by the path's hash. Contracts see the finite map alone, not the order of the entries.
#[derive(Drop)]
pub struct Table {
    cells: IndexMap<Path, Values>,
}

impl Model for Table {
    ghost use Rattle.std.specs.Coded.{coded_list};
    ghost use Rattle.std.specs.FinMap as fin;
    ghost use Rattle.identity_path.specs.contracts.step.Step as step;
    ghost use Rattle.sv_value.specs.contracts.value.Value as value;
    ghost use Rattle.identity_path.specs.Cells.{CellMap};

    ghost Value = { CellMap };

    ghost coded = { fin.code (coded_list step.the_row.coded) (coded_list value.the_row.coded) };

    ghost view = { λ t. fin.from_entries t.cells.entries };
}

impl Table {
    /// No cells.
    pub fn new(alloc: Global) -> Table
        ensures { result ≡ fin.empty }
    {
        Table {
            cells: IndexMap::new(alloc),
        }
    }

    /// The slots of a path.
    pub fn get(&self, path: &Path) -> Option<&Values>
        ensures { option_copied result ≡ fin.get self.now path.now }
    {
        self.cells.get(path)
    }

    /// Gives a path these slots.
    pub fn insert(&mut self, path: Path, slots: Values) -> Result<(), AllocError>
        ensures ok { OnOk result (self.new ≡ fin.insert self.old path slots) }
        ensures err { OnErr result (self.new ≡ self.old) }
    {
        match self.cells.insert(path, slots) {
            Ok(_) => Ok(()),
            Err(refused) => Err(AllocError::from(refused)),
        }
    }

    /// Takes a path's slots out.
    pub fn remove(&mut self, path: &Path) -> Option<Values>
        ensures value { result ≡ fin.get self.old path.now }
        ensures map { self.new ≡ fin.remove self.old path.now }
    {
        self.cells.swap_remove(path)
    }

    /// The whole value of the slot of a place.
    pub fn slot(&self, place: &Place) -> &Value
        requires { IsSome (slot_at self.now place.now) }
        ensures { slot_at self.now place.now ≡ Some result.now }
    {
        match self.get(&place.path) {
            Some(slots) => slot_of(slots, place.slot),
            None => unreachable!(),
        }
    }

    /// Replaces the value at a place, where it is there.
    pub fn put(&mut self, place: &Place, value: Value)
        requires { (part : Value) × (value_at self.old place.now ≡ Some (Ok part)) }
        ensures { self.new ≡ written self.old place.now value }
    {
        match self.cells.get_mut(&place.path) {
            Some(slots) => {
                let _ = set_in(slots, place.slot as usize, place.hops.as_slice(), value);
            }
            None => unreachable!(),
        }
    }

    /// An equal map.
    pub fn copy(&self) -> Result<Table, AllocError>
        ensures { IfOk result (λ t. t ≡ self.now) }
    {
        let alloc = *self.cells.allocator();
        let mut cells = IndexMap::new(alloc);
        for i in 0..self.cells.len() {
            let (path, slots) = match self.cells.get_index(i) {
                Some((path, slots)) => (path.copy()?, copy_of_all(slots)?),
                None => unreachable!(),
            };
            match cells.insert(path, slots) {
                Ok(_) => (),
                Err(refused) => return Err(AllocError::from(refused)),
            }
        }
        Ok(Table { cells })
    }
}
