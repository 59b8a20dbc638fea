ghost use Rattle.std.specs.Prelude.{◌≡◌, List, ◌++◌, IsSome, Some, slice_get};
ghost use Rattle.core_means.specs.Places as places;
ghost use Rattle.sv_value.specs.Hops as hop;
ghost use Rattle.value_calls.specs.Made.{made};
ghost use Rattle.value_calls.specs.Traps.{Answers};
ghost use Rattle.eval_places.specs.Runs.{Can, Does};

use crate::look::{local_at, plain_of, slot_place, value_of};
use crate::setting::Setting;
use core_means::{Local, Origin, Run, Spot};
use identity_path::{Cells, Input, Place, WriteStop};
use std::alloc::Global;
use sv_value::{Hops, Value};
use swift_core::Root;
use value_calls::{MAX_WEIGHT, Stop, TrapKind};

/// The value, unless it is too heavy.
#[tactic(auto, using(crate::proofs::Weighs::made_light, crate::proofs::Weighs::made_heavy))]
pub fn light(value: Value) -> Result<Value, Stop>
    ensures value { Answers result (made value) }
{
    if value.weight() > MAX_WEIGHT {
        return Err(Stop::Trap(TrapKind::Weight));
    }
    Ok(value)
}

fn reached(input: Input, hops: Hops) -> Result<Spot, Stop>
    requires { IsSome (places.reached_from hops input) }
    ensures { Answers result (places.reached_from hops input) }
{
    match input {
        Input::Place(place) => {
            let Place {
                path,
                slot,
                hops: mut before,
            } = place;
            before.append(hops)?;
            Ok(Spot::Cell(Place {
                path,
                slot,
                hops: before,
            }))
        }
        Input::Value(_) => unreachable!(),
    }
}

/// Where a root and hops lead.
#[tactic(auto, using(core_means::specs::Trees::under_then, crate::proofs::Right::right_answered), unfolding(core_means::specs::Asks::under, core_means::specs::Places::spot_of))]
pub fn spot_of<L: Cells, C: Cells>(
    setting: &Setting<'_, L>,
    root: Root,
    hops: Hops,
    run: &mut Run,
    cells: &mut C,
) -> Result<Spot, Stop>
    requires right { Can L.map setting.now run.old (C.map cells.old) (places.spot_of root hops) }
    ensures does { Does L.map setting.now run.old (C.map cells.old) (places.spot_of root hops) result run.new (C.map cells.new) }
{
    match root {
        Root::Local(at) => Ok(Spot::Local(at, hops)),
        Root::BoundLocal(at) => {
            let place = local_at(setting, at, run, cells)?;
            reached(place, hops)
        }
        Root::BoundInput(at) => {
            let place = value_of(setting, Origin::Input(at), run, cells)?;
            reached(place, hops)
        }
        Root::Slot(rule) => Ok(Spot::Cell(slot_place(
            setting.alloc,
            &setting.frame.path,
            rule,
            hops,
        )?)),
        Root::Itself => Ok(Spot::Itself(hops)),
    }
}

fn part_of(alloc: Global, value: &Value, hops: &Hops) -> Result<Value, Stop>
    requires { IsSome (places.part (hop.part_at hops.now value.now)) }
    ensures { Answers result (places.part (hop.part_at hops.now value.now)) }
{
    match bindings::get(value, hops) {
        Ok(part) => Ok(part.copy(alloc)?),
        Err(_) => Err(Stop::Trap(TrapKind::Index)),
    }
}

fn held(locals: &[Local], at: usize) -> &Value
    requires { IsSome (places.held_value (slice_get locals.now at)) }
    ensures { places.held_value (slice_get locals.now at) ≡ Some result.now }
{
    match locals.get(at) {
        Some(Local::Holds(Input::Value(value))) => value,
        _ => unreachable!(),
    }
}

fn part_of_local(alloc: Global, locals: &[Local], at: usize, hops: &Hops) -> Result<Value, Stop>
    requires { IsSome (places.part_in hops.now (places.held_value (slice_get locals.now at))) }
    ensures { Answers result (places.part_in hops.now (places.held_value (slice_get locals.now at))) }
{
    part_of(alloc, held(locals, at), hops)
}

fn part_of_self(alloc: Global, itself: &Option<Value>, hops: &Hops) -> Result<Value, Stop>
    requires { IsSome (places.part_in hops.now itself.now) }
    ensures { Answers result (places.part_in hops.now itself.now) }
{
    match itself {
        Some(value) => part_of(alloc, value, hops),
        None => unreachable!(),
    }
}

/// The value at a spot.
#[tactic(auto, using(core_means::specs::Trees::under_then, crate::proofs::Right::right_answered), unfolding(core_means::specs::Asks::under, core_means::specs::Places::read_spot))]
pub fn read_spot<L: Cells, C: Cells>(
    setting: &Setting<'_, L>,
    spot: &Spot,
    run: &mut Run,
    cells: &mut C,
) -> Result<Value, Stop>
    requires right { Can L.map setting.now run.old (C.map cells.old) (places.read_spot spot.now) }
    ensures does { Does L.map setting.now run.old (C.map cells.old) (places.read_spot spot.now) result run.new (C.map cells.new) }
{
    match spot {
        Spot::Local(at, hops) => part_of_local(setting.alloc, run.locals.as_slice(), *at, hops),
        Spot::Itself(hops) => part_of_self(setting.alloc, &run.itself, hops),
        Spot::Cell(place) => plain_of(setting, Origin::Place(place.copy()?), run, cells),
    }
}

// The whole value with a new part.
fn renewed(mut whole: Value, hops: &Hops, new: Value) -> Result<Value, Stop>
    requires { IsSome (places.renewed hops.now new (Some whole)) }
    ensures { Answers result (places.renewed hops.now new (Some whole)) }
{
    match bindings::set(&mut whole, hops, new) {
        Ok(()) => light(whole),
        Err(_) => Err(Stop::Trap(TrapKind::Index)),
    }
}

fn renewed_local(
    alloc: Global,
    locals: &[Local],
    at: usize,
    hops: &Hops,
    new: Value,
) -> Result<Value, Stop>
    requires { IsSome (places.renewed hops.now new (places.held_value (slice_get locals.now at))) }
    ensures { Answers result (places.renewed hops.now new (places.held_value (slice_get locals.now at))) }
{
    renewed(held(locals, at).copy(alloc)?, hops, new)
}

fn renewed_self(
    alloc: Global,
    itself: &Option<Value>,
    hops: &Hops,
    new: Value,
) -> Result<Value, Stop>
    requires { IsSome (places.renewed hops.now new itself.now) }
    ensures { Answers result (places.renewed hops.now new itself.now) }
{
    match itself {
        Some(value) => renewed(value.copy(alloc)?, hops, new),
        None => unreachable!(),
    }
}

/// Writes a cell, which an action block alone does.
#[tactic(auto, using(core_means::specs::Trees::under_then, crate::proofs::Right::right_stored), unfolding(core_means::specs::Asks::under, core_means::specs::Places::put))]
fn put<L: Cells, C: Cells>(
    setting: &Setting<'_, L>,
    place: &Place,
    value: Value,
    run: &mut Run,
    cells: &mut C,
) -> Result<(), Stop>
    requires right { Can L.map setting.now run.old (C.map cells.old) (places.put place.now value) }
    ensures does { Does L.map setting.now run.old (C.map cells.old) (places.put place.now value) result run.new (C.map cells.new) }
{
    if !setting.is_block {
        unreachable!()
    }
    match cells.write(place, value) {
        Ok(()) => Ok(()),
        Err(WriteStop::Missing { .. }) => Err(Stop::Trap(TrapKind::Index)),
        Err(WriteStop::Heavy { .. }) => Err(Stop::Trap(TrapKind::Weight)),
    }
}

/// Writes the value at a spot.
#[tactic(auto, using(core_means::specs::Trees::under_then, crate::proofs::Right::right_answered, crate::proofs::Right::right_answered_then), unfolding(core_means::specs::Asks::under, core_means::specs::Places::write_spot))]
pub fn write_spot<L: Cells, C: Cells>(
    setting: &Setting<'_, L>,
    spot: &Spot,
    value: Value,
    run: &mut Run,
    cells: &mut C,
) -> Result<(), Stop>
    requires right { Can L.map setting.now run.old (C.map cells.old) (places.write_spot spot.now value) }
    ensures does { Does L.map setting.now run.old (C.map cells.old) (places.write_spot spot.now value) result run.new (C.map cells.new) }
{
    match spot {
        Spot::Local(at, hops) => write_local(setting, *at, hops, value, run, cells),
        Spot::Itself(hops) => write_self(setting, hops, value, run, cells),
        Spot::Cell(place) => put(setting, place, value, run, cells),
    }
}

#[tactic(auto, using(core_means::specs::Trees::under_then, crate::proofs::Right::right_answered_then, crate::proofs::Right::holds_local), unfolding(core_means::specs::Asks::under, core_means::specs::Places::write_local))]
fn write_local<L: Cells, C: Cells>(
    setting: &Setting<'_, L>,
    at: usize,
    hops: &Hops,
    value: Value,
    run: &mut Run,
    _cells: &mut C,
) -> Result<(), Stop>
    requires right { Can L.map setting.now run.old (C.map _cells.old) (places.write_local at hops.now value) }
    ensures does { Does L.map setting.now run.old (C.map _cells.old) (places.write_local at hops.now value) result run.new (C.map _cells.new) }
{
    let whole = renewed_local(setting.alloc, run.locals.as_slice(), at, hops, value)?;
    run.locals.set(at, Local::Holds(Input::Value(whole)));
    Ok(())
}

#[tactic(auto, using(core_means::specs::Trees::under_then, crate::proofs::Right::right_answered_then), unfolding(core_means::specs::Asks::under, core_means::specs::Places::write_self))]
fn write_self<L: Cells, C: Cells>(
    setting: &Setting<'_, L>,
    hops: &Hops,
    value: Value,
    run: &mut Run,
    _cells: &mut C,
) -> Result<(), Stop>
    requires right { Can L.map setting.now run.old (C.map _cells.old) (places.write_self hops.now value) }
    ensures does { Does L.map setting.now run.old (C.map _cells.old) (places.write_self hops.now value) result run.new (C.map _cells.new) }
{
    let whole = renewed_self(setting.alloc, &run.itself, hops, value)?;
    run.itself = Some(whole);
    Ok(())
}
