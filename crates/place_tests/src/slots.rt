ghost use Rattle.std.specs.Prelude.{◌<◌, ◌↔◌, IsTrue, length, slice_get};
ghost use Rattle.value_fits.specs.Cells.{SlotHas};
ghost use Rattle.place_tests.specs.Demands.{Agrees};
ghost use Rattle.place_tests.specs.Nested.{Agreed, Known, Reached, SomeAnswer, SomeDeclared};
ghost use Rattle.place_tests.specs.Walks.{nest};

use crate::asks::Asks;
use crate::nested::has_nested;
use crate::walks::{leading, leads};
use identity_path::{Cells, Path};
use swift_core::{Table, Ty};

/// Whether a slot holds a value of the type under so many lists.
#[tactic(auto, using(crate::proofs::SlotRuns::slot_is, crate::proofs::SlotRuns::no_path, crate::proofs::SlotRuns::no_slot))]
fn slot_has<C: Cells>(
    table: &Table,
    cells: &C,
    path: &Path,
    slot: u32,
    lists: usize,
    base: &Ty,
) -> bool
    ensures value { IsTrue result ↔ SlotHas table.now (C.map cells.now) path.now slot (nest lists base.now) }
{
    match cells.cells(path) {
        Some(slots) => match slots.get(slot as usize) {
            Some(value) => has_nested(table, lists, base, value),
            None => false,
        },
        None => false,
    }
}

/// Whether what is asked at a number is reached from the type of the slot, if it is asked of this slot.
#[tactic(auto, using(crate::proofs::SlotRuns::asks_nothing, crate::proofs::SlotRuns::asks_other_slot, crate::proofs::SlotRuns::asks_other_path, crate::proofs::SlotRuns::asks_here))]
fn reaches<A: Asks>(
    table: &Table,
    asks: &A,
    at: usize,
    path: &Path,
    slot: u32,
    lists: usize,
    base: &Ty,
) -> bool
    requires known { Known table.now }
    requires within { at < length (A.demands asks.now) }
    ensures value { IsTrue result ↔ Reached table.now path.now slot (nest lists base.now) (slice_get (A.demands asks.now) at) }
{
    match asks.demand(at) {
        Some(asked) => {
            if asked.slot != slot {
                return true;
            }
            if !asked.path.same(path) {
                return true;
            }
            leads(table, lists, base, asked.hops, asked.ty)
        }
        None => true,
    }
}

/// Whether one type of a slot fits the cells and all that is asked of the slot: this one under so many lists.
#[tactic(auto, using(crate::proofs::SlotRuns::not_held, crate::proofs::SlotRuns::fits_start, crate::proofs::SlotRuns::fits_turn, crate::proofs::SlotRuns::fits_not, crate::proofs::SlotRuns::fits_all))]
fn agrees<A: Asks, C: Cells>(
    table: &Table,
    asks: &A,
    cells: &C,
    path: &Path,
    slot: u32,
    lists: usize,
    base: &Ty,
) -> bool
    requires known { Known table.now }
    ensures value { IsTrue result ↔ Agrees table.now (C.map cells.now) (A.demands asks.now) path.now slot (nest lists base.now) }
{
    if !slot_has(table, cells, path, slot, lists, base) {
        return false;
    }
    for at in 0..asks.count() {
        if !reaches(table, asks, at, path, slot, lists, base) {
            return false;
        }
    }
    true
}

/// Whether a declared type does, under so many lists.
fn declared_agrees<A: Asks, C: Cells>(
    table: &Table,
    asks: &A,
    cells: &C,
    path: &Path,
    slot: u32,
    lists: usize,
    number: u32,
) -> bool
    requires known { Known table.now }
    ensures value { IsTrue result ↔ Agrees table.now (C.map cells.now) (A.demands asks.now) path.now slot (nest lists (Ty.Named number)) }
{
    let base = Ty::Named(number);
    agrees(table, asks, cells, path, slot, lists, &base)
}

/// Whether some declared type does, under so many lists.
#[tactic(auto, using(crate::proofs::SlotRuns::none_start, crate::proofs::SlotRuns::none_turn, crate::proofs::SlotRuns::none_end, crate::proofs::SlotRuns::one_found))]
fn some_declared<A: Asks, C: Cells>(
    table: &Table,
    asks: &A,
    cells: &C,
    path: &Path,
    slot: u32,
    lists: usize,
) -> bool
    requires known { Known table.now }
    ensures value { IsTrue result ↔ SomeDeclared table.now (C.map cells.now) (A.demands asks.now) path.now slot lists }
{
    for number in 0..table.declarations.len() {
        if declared_agrees(table, asks, cells, path, slot, lists, number as u32) {
            return true;
        }
    }
    false
}

/// Whether what is asked at a number has a type of its slot.
#[tactic(auto, using(crate::proofs::SlotRuns::agreed_nothing, crate::proofs::SlotRuns::agreed_itself, crate::proofs::SlotRuns::agreed_declared))]
fn agreed<A: Asks, C: Cells>(table: &Table, asks: &A, cells: &C, at: usize) -> bool
    requires known { Known table.now }
    requires within { at < length (A.demands asks.now) }
    ensures value { IsTrue result ↔ Agreed table.now (C.map cells.now) (A.demands asks.now) (slice_get (A.demands asks.now) at) }
{
    match asks.demand(at) {
        Some(asked) => {
            let lists = leading(asked.hops);
            if agrees(table, asks, cells, asked.path, asked.slot, lists, asked.ty) {
                return true;
            }
            some_declared(table, asks, cells, asked.path, asked.slot, lists)
        }
        None => true,
    }
}

/// Whether there are types of slots that fit the cells and answer all that is asked.
#[tactic(auto, using(crate::proofs::SlotRuns::all_start, crate::proofs::SlotRuns::all_turn, crate::proofs::SlotRuns::all_not, crate::proofs::SlotRuns::all_end))]
pub fn answers<A: Asks, C: Cells>(table: &Table, asks: &A, cells: &C) -> bool
    requires known { Known table.now }
    ensures value { IsTrue result ↔ SomeAnswer table.now (C.map cells.now) (A.demands asks.now) }
{
    for at in 0..asks.count() {
        if !agreed(table, asks, cells, at) {
            return false;
        }
    }
    true
}
