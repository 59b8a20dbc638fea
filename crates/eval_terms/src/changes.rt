ghost use Rattle.std.specs.Prelude.{◌≡◌, List, [], ◌∷◌, ◌++◌, Some, None, IsSome, IfOk, OnOk};
ghost use Rattle.core_means.specs.Means as means;
ghost use Rattle.eval_places.specs.Runs.{Can, Does};
ghost use Rattle.eval_terms.specs.Arms as arms;
ghost use Rattle.eval_terms.specs.Nests.{Knot};
ghost use Rattle.swift_core.specs.declared.term.ChangeCall.{out-ChangeCall};
ghost use Rattle.value_calls.specs.Traps.{Answers};

use crate::calls::{code_of, held, run_code};
use crate::inner::{self, Inner};
use crate::terms::values;
use core_means::{Changed, Flow, Local, Run, Spot};
use eval_places::{Setting, read_spot, spot_of, write_spot};
use identity_path::Cells;
use std::alloc::Global;
use std::mem;
use sv_items::Items;
use sv_value::{Hop, Hops, Value, Values};
use swift_core::{Change, ChangeCall, Code, CodeId, Core, CoreHop, CoreStmt};
use value_calls::{Operator, Removed, Stop};

// The index that a value is.
#[tactic(auto, unfolding(core_means::specs::Means::index_of))]
fn index_of(value: &Value) -> Hop
    requires { IsSome (means.index_of value.now) }
    ensures { means.index_of value.now ≡ Some result }
{
    match value {
        Value::Int(index) => Hop::Index(*index),
        _ => unreachable!(),
    }
}

// The value of an expression, as an index.
#[tactic(auto, using(core_means::specs::Trees::under_then, eval_places::proofs::Right::right_given, eval_places::proofs::Right::right_answered, eval_places::proofs::Right::right_found), unfolding(core_means::specs::Asks::under))]
fn index_given<L, C, F, G>(
    inner: &Inner<'_, L, F, G>,
    room: u32,
    term: &Core,
    run: &mut Run,
    cells: &mut C,
) -> Result<Hop, Stop>
where
    L: Cells,
    C: Cells,
    F: Fn(&Setting<'_, L>, u32, &Core, &mut Run, &mut C) -> Result<Value, Stop>,
    G: Fn(&Setting<'_, L>, u32, &CoreStmt, &mut Run, &mut C) -> Result<Flow, Stop>,
    requires nests { Knot L.map C.map room (F.pre inner.now.eval) (F.post inner.now.eval) (G.pre inner.now.exec) (G.post inner.now.exec) }
    requires right { Can L.map inner.now.setting.now run.old (C.map cells.old) (arms.index_given (means.inner inner.now.setting.now.program.now room) term.now) }
    ensures does { Does L.map inner.now.setting.now run.old (C.map cells.old) (arms.index_given (means.inner inner.now.setting.now.program.now room) term.now) result run.new (C.map cells.new) }
{
    let value = inner::eval(inner, room, term, run, cells)?;
    Ok(index_of(&value))
}

/// A hop of a target, whose index expression runs.
#[tactic(auto, using(core_means::specs::Trees::under_then, eval_places::proofs::Right::right_given, eval_places::proofs::Right::right_answered, eval_places::proofs::Right::right_found), unfolding(core_means::specs::Asks::under, core_means::specs::Means::hop_of))]
pub fn hop<L, C, F, G>(
    inner: &Inner<'_, L, F, G>,
    room: u32,
    hop: &CoreHop,
    run: &mut Run,
    cells: &mut C,
) -> Result<Hop, Stop>
where
    L: Cells,
    C: Cells,
    F: Fn(&Setting<'_, L>, u32, &Core, &mut Run, &mut C) -> Result<Value, Stop>,
    G: Fn(&Setting<'_, L>, u32, &CoreStmt, &mut Run, &mut C) -> Result<Flow, Stop>,
    requires nests { Knot L.map C.map room (F.pre inner.now.eval) (F.post inner.now.eval) (G.pre inner.now.exec) (G.post inner.now.exec) }
    requires right { Can L.map inner.now.setting.now run.old (C.map cells.old) (means.hop_of (means.inner inner.now.setting.now.program.now room) hop.now) }
    ensures does { Does L.map inner.now.setting.now run.old (C.map cells.old) (means.hop_of (means.inner inner.now.setting.now.program.now room) hop.now) result run.new (C.map cells.new) }
{
    match hop {
        CoreHop::Field(at) => Ok(Hop::Field(*at)),
        CoreHop::Index(term) => index_given(inner, room, term, run, cells),
    }
}

/// The hops of a target, whose index expressions run from left to right.
#[tactic(auto, using(core_means::specs::Trees::under_then, eval_places::proofs::Right::right_given, eval_places::proofs::Right::right_answered, eval_places::proofs::Right::right_found), unfolding(core_means::specs::Asks::under, core_means::specs::Means::hops_from))]
pub fn hops<L, C, F, G>(
    inner: &Inner<'_, L, F, G>,
    room: u32,
    mut done: Hops,
    mut rest: &[CoreHop],
    run: &mut Run,
    cells: &mut C,
) -> Result<Hops, Stop>
where
    L: Cells,
    C: Cells,
    F: Fn(&Setting<'_, L>, u32, &Core, &mut Run, &mut C) -> Result<Value, Stop>,
    G: Fn(&Setting<'_, L>, u32, &CoreStmt, &mut Run, &mut C) -> Result<Flow, Stop>,
    requires nests { Knot L.map C.map room (F.pre inner.now.eval) (F.post inner.now.eval) (G.pre inner.now.exec) (G.post inner.now.exec) }
    requires right { Can L.map inner.now.setting.now run.old (C.map cells.old) (means.hops_from (means.inner inner.now.setting.now.program.now room) done rest.now) }
    ensures does { Does L.map inner.now.setting.now run.old (C.map cells.old) (means.hops_from (means.inner inner.now.setting.now.program.now room) done rest.entry.now) result run.new (C.map cells.new) }
{
    while let [first, more @ ..] = rest {
        let next = hop(inner, room, first, run, cells)?;
        done.push(next)?;
        rest = more;
    }
    Ok(done)
}

// The value alone, of a call that has none of its own.
fn alone(value: Result<Value, Stop>) -> Result<Changed, Stop>
    ensures { (outcome : _) → Answers value outcome → Answers result (means.value_alone outcome) }
{
    Ok(Changed {
        value: value?,
        answer: None,
    })
}

fn with_element(removed: Result<Removed, Stop>) -> Result<Changed, Stop>
    ensures { (outcome : _) → Answers removed outcome → Answers result (means.with_element outcome) }
{
    let Removed { rest, element } = removed?;
    Ok(Changed {
        value: rest,
        answer: Some(element),
    })
}

#[tactic(auto, using(crate::proofs::Alters::right_alone, crate::proofs::Alters::right_element))]
fn without_arguments(call: &ChangeCall, old: Value) -> Result<Changed, Stop>
    requires { IsSome (means.altered_at (out-ChangeCall call.now) [] old) }
    ensures { Answers result (means.altered_at (out-ChangeCall call.now) [] old) }
{
    match call {
        ChangeCall::Toggle => alone(value_calls::toggle(&old)),
        ChangeCall::RemoveFirst => with_element(value_calls::remove_first(old)),
        ChangeCall::RemoveLast => with_element(value_calls::remove_last(old)),
        ChangeCall::RemoveAll => alone(value_calls::remove_all(old)),
        _ => unreachable!(),
    }
}

#[tactic(auto, using(crate::proofs::Alters::right_alone, crate::proofs::Alters::right_element))]
fn with_one(call: &ChangeCall, first: Value, old: Value) -> Result<Changed, Stop>
    requires { IsSome (means.altered_at (out-ChangeCall call.now) (first ∷ []) old) }
    ensures { Answers result (means.altered_at (out-ChangeCall call.now) (first ∷ []) old) }
{
    match call {
        ChangeCall::Append(_) => alone(value_calls::append(old, first)),
        ChangeCall::AppendAll(_) => { alone(value_calls::operate(Operator::JoinLists, old, first)) }
        ChangeCall::Remove(_) => with_element(value_calls::remove(old, &first)),
        _ => unreachable!(),
    }
}

#[tactic(auto, using(crate::proofs::Alters::right_alone, crate::proofs::Alters::right_element))]
fn with_two(call: &ChangeCall, first: Value, second: Value, old: Value) -> Result<Changed, Stop>
    requires { IsSome (means.altered_at (out-ChangeCall call.now) (first ∷ second ∷ []) old) }
    ensures { Answers result (means.altered_at (out-ChangeCall call.now) (first ∷ second ∷ []) old) }
{
    match call {
        ChangeCall::Insert(_, _) => alone(value_calls::insert(old, first, &second)),
        ChangeCall::SwapAt(_, _) => alone(value_calls::swap_at(old, &first, &second)),
        _ => unreachable!(),
    }
}

// What a built-in call makes of the old value.
#[tactic(auto, using(crate::proofs::Alters::at_most_two))]
fn altered_by(
    alloc: Global,
    call: &ChangeCall,
    arguments: &[Value],
    old: Value,
) -> Result<Changed, Stop>
    requires { IsSome (means.altered_at (out-ChangeCall call.now) arguments.now old) }
    ensures { Answers result (means.altered_at (out-ChangeCall call.now) arguments.now old) }
{
    match arguments {
        [] => without_arguments(call, old),
        [first] => with_one(call, first.copy(alloc)?, old),
        [first, second] => with_two(call, first.copy(alloc)?, second.copy(alloc)?, old),
        _ => unreachable!(),
    }
}

fn changed_to(value: Option<Value>, answer: Option<Value>) -> Changed
    requires { IsSome (means.changed_to value answer) }
    ensures { means.changed_to value answer ≡ Some result }
{
    match value {
        Some(value) => Changed { value, answer },
        None => unreachable!(),
    }
}

// Runs a `mutating` function on a copy of the value.
#[tactic(auto, using(core_means::specs::Trees::under_then, eval_places::proofs::Right::right_given, eval_places::proofs::Right::right_answered, eval_places::proofs::Right::right_found), unfolding(core_means::specs::Asks::under, core_means::specs::Means::on_copy))]
fn on_copy<L, C, F, G>(
    inner: &Inner<'_, L, F, G>,
    room: u32,
    code: &Code,
    locals: Items<Local>,
    old: Value,
    run: &mut Run,
    cells: &mut C,
) -> Result<Changed, Stop>
where
    L: Cells,
    C: Cells,
    F: Fn(&Setting<'_, L>, u32, &Core, &mut Run, &mut C) -> Result<Value, Stop>,
    G: Fn(&Setting<'_, L>, u32, &CoreStmt, &mut Run, &mut C) -> Result<Flow, Stop>,
    requires nests { Knot L.map C.map room (F.pre inner.now.eval) (F.post inner.now.eval) (G.pre inner.now.exec) (G.post inner.now.exec) }
    requires right { Can L.map inner.now.setting.now run.old (C.map cells.old) (means.on_copy locals old (means.run_code (means.inner inner.now.setting.now.program.now room) code.now)) }
    ensures does { Does L.map inner.now.setting.now run.old (C.map cells.old) (means.on_copy locals old (means.run_code (means.inner inner.now.setting.now.program.now room) code.now)) result run.new (C.map cells.new) }
{
    let locals = mem::replace(&mut run.locals, locals);
    let itself = mem::replace(&mut run.itself, Some(old));
    let answer = run_code(inner, room, code, run, cells)?;
    run.locals = locals;
    let value = mem::replace(&mut run.itself, itself);
    Ok(changed_to(value, answer))
}

#[tactic(auto, using(core_means::specs::Trees::under_then, eval_places::proofs::Right::right_given, eval_places::proofs::Right::right_answered, eval_places::proofs::Right::right_found), unfolding(core_means::specs::Asks::under, core_means::specs::Means::mutated))]
fn mutated<L, C, F, G>(
    inner: &Inner<'_, L, F, G>,
    room: u32,
    id: CodeId,
    arguments: &[Value],
    old: Value,
    run: &mut Run,
    cells: &mut C,
) -> Result<Changed, Stop>
where
    L: Cells,
    C: Cells,
    F: Fn(&Setting<'_, L>, u32, &Core, &mut Run, &mut C) -> Result<Value, Stop>,
    G: Fn(&Setting<'_, L>, u32, &CoreStmt, &mut Run, &mut C) -> Result<Flow, Stop>,
    requires nests { Knot L.map C.map room (F.pre inner.now.eval) (F.post inner.now.eval) (G.pre inner.now.exec) (G.post inner.now.exec) }
    requires right { Can L.map inner.now.setting.now run.old (C.map cells.old) (means.mutated (means.inner inner.now.setting.now.program.now room) id.number arguments.now old) }
    ensures does { Does L.map inner.now.setting.now run.old (C.map cells.old) (means.mutated (means.inner inner.now.setting.now.program.now room) id.number arguments.now old) result run.new (C.map cells.new) }
{
    match code_of(inner.setting.program, id) {
        Some(code) => {
            let locals = held(inner.setting.alloc, arguments)?;
            on_copy(inner, room, code, locals, old, run, cells)
        }
        None => unreachable!(),
    }
}

// What the call makes of the old value.
#[tactic(auto, using(core_means::specs::Trees::under_then, eval_places::proofs::Right::right_given, eval_places::proofs::Right::right_answered, eval_places::proofs::Right::right_found), unfolding(core_means::specs::Asks::under, core_means::specs::Means::altered))]
fn altered<L, C, F, G>(
    inner: &Inner<'_, L, F, G>,
    room: u32,
    call: &ChangeCall,
    arguments: &[Value],
    old: Value,
    run: &mut Run,
    cells: &mut C,
) -> Result<Changed, Stop>
where
    L: Cells,
    C: Cells,
    F: Fn(&Setting<'_, L>, u32, &Core, &mut Run, &mut C) -> Result<Value, Stop>,
    G: Fn(&Setting<'_, L>, u32, &CoreStmt, &mut Run, &mut C) -> Result<Flow, Stop>,
    requires nests { Knot L.map C.map room (F.pre inner.now.eval) (F.post inner.now.eval) (G.pre inner.now.exec) (G.post inner.now.exec) }
    requires right { Can L.map inner.now.setting.now run.old (C.map cells.old) (means.altered (means.inner inner.now.setting.now.program.now room) call.now arguments.now old) }
    ensures does { Does L.map inner.now.setting.now run.old (C.map cells.old) (means.altered (means.inner inner.now.setting.now.program.now room) call.now arguments.now old) result run.new (C.map cells.new) }
{
    match call {
        ChangeCall::Mutate(id, _) => mutated(inner, room, *id, arguments, old, run, cells),
        ChangeCall::Toggle => altered_by(inner.setting.alloc, call, arguments, old),
        ChangeCall::Append(_) => altered_by(inner.setting.alloc, call, arguments, old),
        ChangeCall::AppendAll(_) => altered_by(inner.setting.alloc, call, arguments, old),
        ChangeCall::Insert(_, _) => altered_by(inner.setting.alloc, call, arguments, old),
        ChangeCall::Remove(_) => altered_by(inner.setting.alloc, call, arguments, old),
        ChangeCall::RemoveFirst => altered_by(inner.setting.alloc, call, arguments, old),
        ChangeCall::RemoveLast => altered_by(inner.setting.alloc, call, arguments, old),
        ChangeCall::RemoveAll => altered_by(inner.setting.alloc, call, arguments, old),
        ChangeCall::SwapAt(_, _) => altered_by(inner.setting.alloc, call, arguments, old),
    }
}

// The old value is read after the arguments, and the new one is written at the end.
#[tactic(auto, using(core_means::specs::Trees::under_then, eval_places::proofs::Right::right_given, eval_places::proofs::Right::right_answered, eval_places::proofs::Right::right_found), unfolding(core_means::specs::Asks::under, core_means::specs::Means::change_spot))]
fn change_spot<L, C, F, G>(
    inner: &Inner<'_, L, F, G>,
    room: u32,
    call: &ChangeCall,
    arguments: &[Value],
    spot: &Spot,
    run: &mut Run,
    cells: &mut C,
) -> Result<Option<Value>, Stop>
where
    L: Cells,
    C: Cells,
    F: Fn(&Setting<'_, L>, u32, &Core, &mut Run, &mut C) -> Result<Value, Stop>,
    G: Fn(&Setting<'_, L>, u32, &CoreStmt, &mut Run, &mut C) -> Result<Flow, Stop>,
    requires nests { Knot L.map C.map room (F.pre inner.now.eval) (F.post inner.now.eval) (G.pre inner.now.exec) (G.post inner.now.exec) }
    requires right { Can L.map inner.now.setting.now run.old (C.map cells.old) (means.change_spot (means.inner inner.now.setting.now.program.now room) call.now arguments.now spot.now) }
    ensures does { Does L.map inner.now.setting.now run.old (C.map cells.old) (means.change_spot (means.inner inner.now.setting.now.program.now room) call.now arguments.now spot.now) result run.new (C.map cells.new) }
{
    let old = read_spot(inner.setting, spot, run, cells)?;
    let changed = altered(inner, room, call, arguments, old, run, cells)?;
    let Changed { value, answer } = changed;
    write_spot(inner.setting, spot, value, run, cells)?;
    Ok(answer)
}

// The arguments of the call, from left to right.
#[tactic(auto, using(core_means::specs::Trees::under_then, eval_places::proofs::Right::right_given, eval_places::proofs::Right::right_answered, eval_places::proofs::Right::right_found), unfolding(core_means::specs::Asks::under, core_means::specs::Means::change_arguments, core_means::specs::Means::values_from))]
fn arguments<L, C, F, G>(
    inner: &Inner<'_, L, F, G>,
    room: u32,
    call: &ChangeCall,
    run: &mut Run,
    cells: &mut C,
) -> Result<Values, Stop>
where
    L: Cells,
    C: Cells,
    F: Fn(&Setting<'_, L>, u32, &Core, &mut Run, &mut C) -> Result<Value, Stop>,
    G: Fn(&Setting<'_, L>, u32, &CoreStmt, &mut Run, &mut C) -> Result<Flow, Stop>,
    requires nests { Knot L.map C.map room (F.pre inner.now.eval) (F.post inner.now.eval) (G.pre inner.now.exec) (G.post inner.now.exec) }
    requires right { Can L.map inner.now.setting.now run.old (C.map cells.old) (means.change_arguments (means.inner inner.now.setting.now.program.now room) call.now) }
    ensures does { Does L.map inner.now.setting.now run.old (C.map cells.old) (means.change_arguments (means.inner inner.now.setting.now.program.now room) call.now) result run.new (C.map cells.new) }
{
    let done = Items::new(inner.setting.alloc);
    match call {
        ChangeCall::Toggle => Ok(done),
        ChangeCall::Append(term) => pushed(inner, room, done, term, run, cells),
        ChangeCall::AppendAll(term) => pushed(inner, room, done, term, run, cells),
        ChangeCall::Insert(first, second) => pair(inner, room, first, second, run, cells),
        ChangeCall::Remove(term) => pushed(inner, room, done, term, run, cells),
        ChangeCall::RemoveFirst => Ok(done),
        ChangeCall::RemoveLast => Ok(done),
        ChangeCall::RemoveAll => Ok(done),
        ChangeCall::SwapAt(first, second) => pair(inner, room, first, second, run, cells),
        ChangeCall::Mutate(_, terms) => values(inner, room, done, terms.as_slice(), run, cells),
    }
}

#[tactic(auto, using(core_means::specs::Trees::under_then, eval_places::proofs::Right::right_given, eval_places::proofs::Right::right_answered, eval_places::proofs::Right::right_found), unfolding(core_means::specs::Asks::under, core_means::specs::Means::values_from))]
fn pushed<L, C, F, G>(
    inner: &Inner<'_, L, F, G>,
    room: u32,
    mut done: Values,
    term: &Core,
    run: &mut Run,
    cells: &mut C,
) -> Result<Values, Stop>
where
    L: Cells,
    C: Cells,
    F: Fn(&Setting<'_, L>, u32, &Core, &mut Run, &mut C) -> Result<Value, Stop>,
    G: Fn(&Setting<'_, L>, u32, &CoreStmt, &mut Run, &mut C) -> Result<Flow, Stop>,
    requires nests { Knot L.map C.map room (F.pre inner.now.eval) (F.post inner.now.eval) (G.pre inner.now.exec) (G.post inner.now.exec) }
    requires right { Can L.map inner.now.setting.now run.old (C.map cells.old) (means.values_from (means.inner inner.now.setting.now.program.now room) done (term.now ∷ [])) }
    ensures does { Does L.map inner.now.setting.now run.old (C.map cells.old) (means.values_from (means.inner inner.now.setting.now.program.now room) done (term.now ∷ [])) result run.new (C.map cells.new) }
{
    let value = inner::eval(inner, room, term, run, cells)?;
    done.push(value)?;
    Ok(done)
}

#[tactic(auto, using(core_means::specs::Trees::under_then, eval_places::proofs::Right::right_given, eval_places::proofs::Right::right_answered, eval_places::proofs::Right::right_found), unfolding(core_means::specs::Asks::under, core_means::specs::Means::values_from))]
fn pair<L, C, F, G>(
    inner: &Inner<'_, L, F, G>,
    room: u32,
    first: &Core,
    second: &Core,
    run: &mut Run,
    cells: &mut C,
) -> Result<Values, Stop>
where
    L: Cells,
    C: Cells,
    F: Fn(&Setting<'_, L>, u32, &Core, &mut Run, &mut C) -> Result<Value, Stop>,
    G: Fn(&Setting<'_, L>, u32, &CoreStmt, &mut Run, &mut C) -> Result<Flow, Stop>,
    requires nests { Knot L.map C.map room (F.pre inner.now.eval) (F.post inner.now.eval) (G.pre inner.now.exec) (G.post inner.now.exec) }
    requires right { Can L.map inner.now.setting.now run.old (C.map cells.old) (means.values_from (means.inner inner.now.setting.now.program.now room) [] (first.now ∷ second.now ∷ [])) }
    ensures does { Does L.map inner.now.setting.now run.old (C.map cells.old) (means.values_from (means.inner inner.now.setting.now.program.now room) [] (first.now ∷ second.now ∷ [])) result run.new (C.map cells.new) }
{
    let value = inner::eval(inner, room, first, run, cells)?;
    let mut done = Items::new(inner.setting.alloc);
    done.push(value)?;
    pushed(inner, room, done, second, run, cells)
}

/// A call that changes the value at a place, and its own value, if it has one.
#[tactic(auto, using(core_means::specs::Trees::under_then, eval_places::proofs::Right::right_given, eval_places::proofs::Right::right_answered, eval_places::proofs::Right::right_found), unfolding(core_means::specs::Asks::under, core_means::specs::Means::changed))]
pub fn changed<L, C, F, G>(
    inner: &Inner<'_, L, F, G>,
    room: u32,
    change: &Change,
    run: &mut Run,
    cells: &mut C,
) -> Result<Option<Value>, Stop>
where
    L: Cells,
    C: Cells,
    F: Fn(&Setting<'_, L>, u32, &Core, &mut Run, &mut C) -> Result<Value, Stop>,
    G: Fn(&Setting<'_, L>, u32, &CoreStmt, &mut Run, &mut C) -> Result<Flow, Stop>,
    requires nests { Knot L.map C.map room (F.pre inner.now.eval) (F.post inner.now.eval) (G.pre inner.now.exec) (G.post inner.now.exec) }
    requires right { Can L.map inner.now.setting.now run.old (C.map cells.old) (means.changed (means.inner inner.now.setting.now.program.now room) change.now) }
    ensures does { Does L.map inner.now.setting.now run.old (C.map cells.old) (means.changed (means.inner inner.now.setting.now.program.now room) change.now) result run.new (C.map cells.new) }
{
    let done = Items::new(inner.setting.alloc);
    let hops = hops(inner, room, done, change.target.hops.as_slice(), run, cells)?;
    let arguments = arguments(inner, room, &change.call, run, cells)?;
    let spot = spot_of(inner.setting, change.target.root, hops, run, cells)?;
    change_spot(
        inner,
        room,
        &change.call,
        arguments.as_slice(),
        &spot,
        run,
        cells,
    )
}
