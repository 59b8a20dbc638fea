ghost use Rattle.std.specs.Prelude.{◌≡◌, ◌+◌, ◌<◌, ◌≤◌, min, None, Some, IsSome, IsOkUnless, IfOk, OnOk, OnErr, MatchResult};
ghost use Rattle.std.specs.Option.{option_copied};
ghost use Rattle.std.specs.FinMap as fin;
ghost use Rattle.state_store.specs.Enter.{total_with};
ghost use Rattle.identity_path.specs.Cells.{total_of, max_total, value_at, written, write_answer};

use crate::table::Table;
use crate::weigh::weigh;
use bindings::get;
use identity_path::{Cells, Path, Place, WriteStop};
use std::alloc::{AllocError, Global};
use std::marker::Model;
use sv_value::{Missing, Value, Values, weight_of_all};

/// Why cells did not enter.
#[derive(Clone, Copy, Debug, PartialEq, Eq)]
pub enum EnterStop {
    OutOfMemory,
    /// The weight that all cells would have, or the greatest `u64` where it is more.
    Heavy { total: u64 },
}

/// The greatest weight of all cells together.
const MAX_TOTAL: u64 = 4_000_000;

/// The greatest weight of the value of a slot.
const MAX_WEIGHT: u64 = 65_536;

/// The cells of the live views: the values of the slots of each path that is held. Their weight is kept, never summed anew.
#[derive(Drop)]
pub struct State {
    table: Table,
    total: u64,
}

impl Model for State {
    ghost use Rattle.std.specs.Prelude.{◌≡◌, ◌≤◌};
    ghost use Rattle.std.specs.Coded.{coded_list};
    ghost use Rattle.std.specs.FinMap as fin;
    ghost use Rattle.identity_path.specs.contracts.step.Step as step;
    ghost use Rattle.sv_value.specs.contracts.value.Value as value;
    ghost use Rattle.identity_path.specs.Cells.{CellMap, total_of, max_total};

    ghost Value = { CellMap };

    ghost coded = { fin.code (coded_list step.the_row.coded) (coded_list value.the_row.coded) };

    ghost view = { λ s. s.table };

    ghost invariant = { λ s. (s.total ≡ total_of s.table) × (s.total ≤ max_total) };
}

impl State {
    /// No cells.
    pub fn new(alloc: Global) -> State
        ensures { result ≡ fin.empty }
    {
        State {
            table: Table::new(alloc),
            total: 0,
        }
    }

    /// The weight of all cells.
    pub fn total(&self) -> u64
        ensures total { result ≡ total_of self.now }
        ensures bound { result ≤ max_total }
    {
        self.total
    }

    /// The values of the slots of a path, and `None` exactly where the path is not held.
    pub fn cells(&self, path: &Path) -> Option<&Values>
        ensures { option_copied result ≡ fin.get self.now path.now }
    {
        self.table.get(path)
    }

    /// A path that is not held gets its cells. `Heavy` exactly where all cells would weigh more than 4,000,000.
    pub fn enter(&mut self, path: Path, initials: Values) -> Result<(), EnterStop>
        requires { fin.get self.old path ≡ None }
        ensures heavy { max_total < total_with self.old initials → result ≡ Err (EnterStop.Heavy (min (total_with self.old initials) 18446744073709551615)) }
        ensures light { total_with self.old initials ≤ max_total → IsOkUnless result EnterStop.OutOfMemory }
        ensures ok { OnOk result (self.new ≡ fin.insert self.old path initials) }
        ensures err { OnErr result (self.new ≡ self.old) }
    {
        let total = self
            .total
            .saturating_add(weight_of_all(initials.as_slice()));
        if total > MAX_TOTAL {
            return Err(EnterStop::Heavy { total });
        }
        match self.table.insert(path, initials) {
            Ok(()) => {
                self.total = total;
                Ok(())
            }
            Err(_) => Err(EnterStop::OutOfMemory),
        }
    }

    /// A path that is held loses its cells.
    pub fn leave(&mut self, path: &Path)
        requires { IsSome (fin.get self.old path.now) }
        ensures { self.new ≡ fin.remove self.old path.now }
    {
        match self.table.remove(path) {
            Some(slots) => self.total -= weight_of_all(slots.as_slice()),
            None => unreachable!(),
        }
    }

    /// The value at a place whose path and slot are held and whose hops fit, or the first index that is out of range.
    pub fn value(&self, place: &Place) -> Result<&Value, Missing>
        requires { IsSome (value_at self.now place.now) }
        ensures { MatchResult result
            (λ part. value_at self.now place.now ≡ Some (Ok part.now))
            (λ missing. value_at self.now place.now ≡ Some (Err missing)) }
    {
        get(self.table.slot(place), &place.hops)
    }

    /// Replaces the value at such a place, and changes nothing else. `Missing` comes first, then `Heavy` for the slot's whole
    /// value above 65,536, then `Heavy` for all cells above 4,000,000; nothing changes at a refusal.
    pub fn write(&mut self, place: &Place, value: Value) -> Result<(), WriteStop>
        requires { IsSome (value_at self.old place.now) }
        ensures answer { result ≡ write_answer self.old place.now value }
        ensures ok { OnOk result (self.new ≡ written self.old place.now value) }
        ensures err { OnErr result (self.new ≡ self.old) }
    {
        match weigh(self.table.slot(place), &place.hops, &value) {
            Err(missing) => Err(WriteStop::Missing {
                index: missing.index,
            }),
            Ok(weights) => {
                if weights.after > MAX_WEIGHT {
                    return Err(WriteStop::Heavy {
                        total: weights.after,
                    });
                }
                let total = self.total - weights.before + weights.after;
                if total > MAX_TOTAL {
                    return Err(WriteStop::Heavy { total });
                }
                self.table.put(place, value);
                self.total = total;
                Ok(())
            }
        }
    }

    /// An equal state.
    pub fn copy(&self) -> Result<State, AllocError>
        ensures { IfOk result (λ s. s ≡ self.now) }
    {
        Ok(State {
            table: self.table.copy()?,
            total: self.total,
        })
    }
}

impl Cells for State {
    ghost map = { λ s. s };

    fn cells(&self, path: &Path) -> Option<&Values> {
        State::cells(self, path)
    }

    fn value(&self, place: &Place) -> Result<&Value, Missing> {
        State::value(self, place)
    }

    fn write(&mut self, place: &Place, value: Value) -> Result<(), WriteStop> {
        State::write(self, place, value)
    }
}
