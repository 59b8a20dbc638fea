ghost use Rattle.std.specs.Prelude.{◌≡◌, List, [], ◌∷◌, ◌++◌, length, IsSome, IfOk, OnOk, Some, slice_get, ◌-◌};
ghost use Rattle.core_means.specs.Asks.{noted, is_noted};
ghost use Rattle.core_means.specs.Places as places;
ghost use Rattle.core_means.specs.Sources.{seen, seen_part, slot_place, found_input};
ghost use Rattle.eval_places.specs.Runs.{Can, Does, Shows};

use crate::setting::Setting;
use core_means::{Frame, Local, Origin, Read, Reads, Run};
use identity_path::{Cells, Input, Inputs, Path, Place};
use std::alloc::{AllocError, Global};
use sv_items::Items;
use sv_value::{Hops, Value};
use swift_core::{Lookup, PlaceRule};
use value_calls::{Stop, TrapKind};

/// Where a state slot of the view at this path is, and a part of it.
pub fn slot_place(
    alloc: Global,
    path: &Path,
    rule: PlaceRule,
    hops: Hops,
) -> Result<Place, AllocError>
    ensures value { IfOk result (λ place. place ≡ slot_place path.now rule hops) }
{
    match rule {
        PlaceRule::Own(slot) => Ok(Place {
            path: path.copy()?,
            slot,
            hops,
        }),
        PlaceRule::Shared(slot) => Ok(Place {
            path: Path::root(alloc),
            slot,
            hops,
        }),
    }
}

fn input_at(alloc: Global, inputs: &Inputs, at: usize) -> Result<Input, Stop>
    requires { IsSome (slice_get inputs.now at) }
    ensures { Shows result (found_input (slice_get inputs.now at)) }
{
    match inputs.get(at) {
        Some(input) => Ok(input.copy(alloc)?),
        None => unreachable!(),
    }
}

fn part_at<C: Cells>(alloc: Global, cells: &C, place: &Place) -> Result<Input, Stop>
    requires { IsSome (seen_part (C.map cells.now) place.now) }
    ensures { Shows result (seen_part (C.map cells.now) place.now) }
{
    match cells.value(place) {
        Ok(part) => Ok(Input::Value(part.copy(alloc)?)),
        Err(_) => Err(Stop::Trap(TrapKind::Index)),
    }
}

/// What stands at a source, which is there.
pub fn find<C: Cells>(
    alloc: Global,
    frame: &Frame,
    cells: &C,
    origin: &Origin,
) -> Result<Input, Stop>
    requires there { IsSome (seen frame.now (C.map cells.now) origin.now) }
    ensures value { Shows result (seen frame.now (C.map cells.now) origin.now) }
{
    match origin {
        Origin::Input(at) => input_at(alloc, &frame.inputs, *at as usize),
        Origin::Slot(rule) => {
            let place = slot_place(alloc, &frame.path, *rule, Items::new(alloc))?;
            part_at(alloc, cells, &place)
        }
        Origin::Place(place) => part_at(alloc, cells, place),
        Origin::Environment(key) => Ok(Input::Value(frame.env.value(*key).copy(alloc)?)),
        Origin::Captured(at) => input_at(alloc, &frame.locals, *at),
        Origin::Preference => {
            let last = frame.locals.len().saturating_sub(1);
            input_at(alloc, &frame.locals, last)
        }
    }
}

fn has_read(reads: &[Read], origin: &Origin) -> bool
    ensures { result ≡ is_noted origin.now reads.now }
{
    reads.iter().any(|read| origin.same(&read.origin))
}

// Notes a look-up, unless the source is noted already.
#[tactic(auto, unfolding(core_means::specs::Asks::noted))]
fn note(alloc: Global, origin: Origin, input: &Input, reads: &mut Reads) -> Result<(), AllocError>
    ensures { OnOk result (reads.new ≡ noted origin input.now reads.old) }
{
    if !has_read(reads.as_slice(), &origin) {
        let input = input.copy(alloc)?;
        reads.push(Read { origin, input })?;
    }
    Ok(())
}

/// What stands at a source, as an action block sees it or a body asks for it.
#[tactic(auto, using(crate::proofs::Right::right_shown, crate::proofs::Right::right_asked), unfolding(core_means::specs::Asks::under, core_means::specs::Places::value_of))]
pub fn value_of<L: Cells, C: Cells>(
    setting: &Setting<'_, L>,
    origin: Origin,
    run: &mut Run,
    cells: &mut C,
) -> Result<Input, Stop>
    requires right { Can L.map setting.now run.old (C.map cells.old) (places.value_of origin) }
    ensures does { Does L.map setting.now run.old (C.map cells.old) (places.value_of origin) result run.new (C.map cells.new) }
{
    if setting.is_block {
        return find(setting.alloc, setting.frame, &*cells, &origin);
    }
    let input = find(setting.alloc, setting.frame, setting.held, &origin)?;
    note(setting.alloc, origin, &input, &mut run.reads)?;
    Ok(input)
}

/// The value at a source.
#[tactic(auto, using(core_means::specs::Trees::under_then), unfolding(core_means::specs::Asks::under, core_means::specs::Places::plain_of))]
pub fn plain_of<L: Cells, C: Cells>(
    setting: &Setting<'_, L>,
    origin: Origin,
    run: &mut Run,
    cells: &mut C,
) -> Result<Value, Stop>
    requires right { Can L.map setting.now run.old (C.map cells.old) (places.plain_of origin) }
    ensures does { Does L.map setting.now run.old (C.map cells.old) (places.plain_of origin) result run.new (C.map cells.new) }
{
    match value_of(setting, origin, run, cells)? {
        Input::Value(value) => Ok(value),
        Input::Place(_) => unreachable!(),
    }
}

/// The value at the place that is given.
#[tactic(auto, using(core_means::specs::Trees::under_then), unfolding(core_means::specs::Asks::under, core_means::specs::Places::plain_of))]
fn through<L: Cells, C: Cells>(
    setting: &Setting<'_, L>,
    input: Input,
    run: &mut Run,
    cells: &mut C,
) -> Result<Value, Stop>
    requires right { Can L.map setting.now run.old (C.map cells.old) (places.through input) }
    ensures does { Does L.map setting.now run.old (C.map cells.old) (places.through input) result run.new (C.map cells.new) }
{
    match input {
        Input::Place(place) => plain_of(setting, Origin::Place(place), run, cells),
        Input::Value(_) => unreachable!(),
    }
}

/// The value through the place at a source.
#[tactic(auto, using(core_means::specs::Trees::under_then), unfolding(core_means::specs::Asks::under, core_means::specs::Places::through_of))]
fn through_of<L: Cells, C: Cells>(
    setting: &Setting<'_, L>,
    origin: Origin,
    run: &mut Run,
    cells: &mut C,
) -> Result<Value, Stop>
    requires right { Can L.map setting.now run.old (C.map cells.old) (places.through_of origin) }
    ensures does { Does L.map setting.now run.old (C.map cells.old) (places.through_of origin) result run.new (C.map cells.new) }
{
    let place = value_of(setting, origin, run, cells)?;
    through(setting, place, run, cells)
}

/// What a local holds.
#[tactic(auto, using(core_means::specs::Trees::under_then), unfolding(core_means::specs::Asks::under, core_means::specs::Places::local_at))]
pub fn local_at<L: Cells, C: Cells>(
    setting: &Setting<'_, L>,
    at: usize,
    run: &mut Run,
    cells: &mut C,
) -> Result<Input, Stop>
    requires right { Can L.map setting.now run.old (C.map cells.old) (places.local_at at) }
    ensures does { Does L.map setting.now run.old (C.map cells.old) (places.local_at at) result run.new (C.map cells.new) }
{
    match run.locals.get(at) {
        Some(Local::Holds(input)) => Ok(input.copy(setting.alloc)?),
        Some(Local::Captured(at)) => {
            let at = *at;
            value_of(setting, Origin::Captured(at), run, cells)
        }
        Some(Local::Preference) => value_of(setting, Origin::Preference, run, cells),
        Some(Local::Absent) => unreachable!(),
        None => unreachable!(),
    }
}

#[tactic(auto, using(core_means::specs::Trees::under_then), unfolding(core_means::specs::Asks::under, core_means::specs::Places::plain_local))]
pub fn plain_local<L: Cells, C: Cells>(
    setting: &Setting<'_, L>,
    at: usize,
    run: &mut Run,
    cells: &mut C,
) -> Result<Value, Stop>
    requires right { Can L.map setting.now run.old (C.map cells.old) (places.plain_local at) }
    ensures does { Does L.map setting.now run.old (C.map cells.old) (places.plain_local at) result run.new (C.map cells.new) }
{
    match local_at(setting, at, run, cells)? {
        Input::Value(value) => Ok(value),
        Input::Place(_) => unreachable!(),
    }
}

#[tactic(auto, using(core_means::specs::Trees::under_then), unfolding(core_means::specs::Asks::under, core_means::specs::Places::through_local))]
fn through_local<L: Cells, C: Cells>(
    setting: &Setting<'_, L>,
    at: usize,
    run: &mut Run,
    cells: &mut C,
) -> Result<Value, Stop>
    requires right { Can L.map setting.now run.old (C.map cells.old) (places.through_local at) }
    ensures does { Does L.map setting.now run.old (C.map cells.old) (places.through_local at) result run.new (C.map cells.new) }
{
    let place = local_at(setting, at, run, cells)?;
    through(setting, place, run, cells)
}

/// The field of a struct at a place.
#[tactic(auto, unfolding(core_means::specs::Places::field))]
pub fn field(alloc: Global, at: u32, value: &Value) -> Result<Value, AllocError>
    requires there { IsSome (places.field at value.now) }
    ensures value { IfOk result (λ part. places.field at value.now ≡ Some part) }
{
    match value {
        Value::Struct { fields, .. } => match fields.get(at as usize) {
            Some(field) => field.copy(alloc),
            None => unreachable!(),
        },
        _ => unreachable!(),
    }
}

fn whole_self(alloc: Global, itself: &Option<Value>) -> Result<Value, AllocError>
    requires { IsSome itself.now }
    ensures { IfOk result (λ value. itself.now ≡ Some value) }
{
    match itself {
        Some(value) => value.copy(alloc),
        None => unreachable!(),
    }
}

fn own_field(alloc: Global, at: u32, itself: &Option<Value>) -> Result<Value, AllocError>
    requires { IsSome (places.field_in at itself.now) }
    ensures { IfOk result (λ value. places.field_in at itself.now ≡ Some value) }
{
    match itself {
        Some(value) => field(alloc, at, value),
        None => unreachable!(),
    }
}

/// What a name stands for.
#[tactic(auto, using(core_means::specs::Trees::under_then, crate::proofs::Right::right_given), unfolding(core_means::specs::Asks::under, core_means::specs::Places::look_up))]
pub fn look_up<L: Cells, C: Cells>(
    setting: &Setting<'_, L>,
    name: Lookup,
    run: &mut Run,
    cells: &mut C,
) -> Result<Value, Stop>
    requires right { Can L.map setting.now run.old (C.map cells.old) (places.look_up name) }
    ensures does { Does L.map setting.now run.old (C.map cells.old) (places.look_up name) result run.new (C.map cells.new) }
{
    match name {
        Lookup::Local(at) => plain_local(setting, at, run, cells),
        Lookup::BoundLocal(at) => through_local(setting, at, run, cells),
        Lookup::Input(at) => plain_of(setting, Origin::Input(at), run, cells),
        Lookup::BoundInput(at) => through_of(setting, Origin::Input(at), run, cells),
        Lookup::Slot(rule) => plain_of(setting, Origin::Slot(rule), run, cells),
        Lookup::Environment(key) => plain_of(setting, Origin::Environment(key), run, cells),
        Lookup::Itself => Ok(whole_self(setting.alloc, &run.itself)?),
        Lookup::OwnField(at) => Ok(own_field(setting.alloc, at, &run.itself)?),
    }
}
