ghost use Rattle.std.specs.Prelude.{◌≡◌, Some, IsSome};
ghost use Rattle.core_means.specs.Means as means;
ghost use Rattle.eval_places.specs.Runs.{Can, Does};
ghost use Rattle.eval_terms.specs.Nests.{Knot};

use crate::statements::{conditions, cut, push};
use core_means::{Flow, Run};
use eval_places::Setting;
use eval_terms::{Inner, block, pay};
use identity_path::Cells;
use sv_value::Value;
use swift_core::{Condition, Core, CoreStmt};
use value_calls::{Stop, TrapKind};

// How a loop ends after a turn, if it does.
fn ended_by(flow: Flow) -> Option<Flow>
    ensures { result ≡ means.ended_by flow }
{
    match flow {
        Flow::Next => None,
        Flow::Continued => None,
        Flow::Returned(value) => Some(Flow::Returned(value)),
        Flow::Broke => Some(Flow::Next),
    }
}

#[tactic(auto, using(core_means::specs::Trees::under_then, eval_places::proofs::Right::right_given, eval_places::proofs::Right::right_answered, eval_places::proofs::Right::right_found), unfolding(core_means::specs::Asks::under, core_means::specs::Means::guarded_turn))]
fn guarded_turn<L, C, F, G>(
    inner: &Inner<'_, L, F, G>,
    room: u32,
    all: &[Condition],
    statements: &[CoreStmt],
    run: &mut Run,
    cells: &mut C,
) -> Result<Option<Flow>, Stop>
where
    L: Cells,
    C: Cells,
    F: Fn(&Setting<'_, L>, u32, &Core, &mut Run, &mut C) -> Result<Value, Stop>,
    G: Fn(&Setting<'_, L>, u32, &CoreStmt, &mut Run, &mut C) -> Result<Flow, Stop>,
    requires nests { Knot L.map C.map room (F.pre inner.now.eval) (F.post inner.now.eval) (G.pre inner.now.exec) (G.post inner.now.exec) }
    requires right { Can L.map inner.now.setting.now run.old (C.map cells.old) (means.guarded_turn (means.inner inner.now.setting.now.program.now room) all.now statements.now) }
    ensures does { Does L.map inner.now.setting.now run.old (C.map cells.old) (means.guarded_turn (means.inner inner.now.setting.now.program.now room) all.now statements.now) result run.new (C.map cells.new) }
{
    if conditions(inner, room, all, run, cells)? {
        pay(inner.setting, run, cells)?;
        let flow = block(inner, room, statements, run, cells)?;
        Ok(ended_by(flow))
    } else {
        Ok(Some(Flow::Next))
    }
}

// A turn of a `while`, or its end.
#[tactic(auto, using(core_means::specs::Trees::under_then, eval_places::proofs::Right::right_given, eval_places::proofs::Right::right_answered, eval_places::proofs::Right::right_found), unfolding(core_means::specs::Asks::under, core_means::specs::Means::turn, core_means::specs::Means::framed))]
fn turn<L, C, F, G>(
    inner: &Inner<'_, L, F, G>,
    room: u32,
    all: &[Condition],
    statements: &[CoreStmt],
    run: &mut Run,
    cells: &mut C,
) -> Result<Option<Flow>, Stop>
where
    L: Cells,
    C: Cells,
    F: Fn(&Setting<'_, L>, u32, &Core, &mut Run, &mut C) -> Result<Value, Stop>,
    G: Fn(&Setting<'_, L>, u32, &CoreStmt, &mut Run, &mut C) -> Result<Flow, Stop>,
    requires nests { Knot L.map C.map room (F.pre inner.now.eval) (F.post inner.now.eval) (G.pre inner.now.exec) (G.post inner.now.exec) }
    requires right { Can L.map inner.now.setting.now run.old (C.map cells.old) (means.turn (means.inner inner.now.setting.now.program.now room) all.now statements.now) }
    ensures does { Does L.map inner.now.setting.now run.old (C.map cells.old) (means.turn (means.inner inner.now.setting.now.program.now room) all.now statements.now) result run.new (C.map cells.new) }
{
    let count = run.locals.len();
    let ended = guarded_turn(inner, room, all, statements, run, cells)?;
    cut(&mut run.locals, count);
    Ok(ended)
}

// At most so many turns.
#[tactic(auto, using(core_means::specs::Trees::under_then, eval_places::proofs::Right::right_given, eval_places::proofs::Right::right_answered, eval_places::proofs::Right::right_found, crate::proofs::Turns::turns_more, crate::proofs::Turns::turns_none), unfolding(core_means::specs::Asks::under))]
fn turns<L, C, F, G>(
    inner: &Inner<'_, L, F, G>,
    room: u32,
    mut left: u32,
    all: &[Condition],
    statements: &[CoreStmt],
    run: &mut Run,
    cells: &mut C,
) -> Result<Flow, Stop>
where
    L: Cells,
    C: Cells,
    F: Fn(&Setting<'_, L>, u32, &Core, &mut Run, &mut C) -> Result<Value, Stop>,
    G: Fn(&Setting<'_, L>, u32, &CoreStmt, &mut Run, &mut C) -> Result<Flow, Stop>,
    requires nests { Knot L.map C.map room (F.pre inner.now.eval) (F.post inner.now.eval) (G.pre inner.now.exec) (G.post inner.now.exec) }
    requires right { Can L.map inner.now.setting.now run.old (C.map cells.old) (means.turns (means.inner inner.now.setting.now.program.now room) left all.now statements.now) }
    ensures does { Does L.map inner.now.setting.now run.old (C.map cells.old) (means.turns (means.inner inner.now.setting.now.program.now room) left all.now statements.now) result run.new (C.map cells.new) }
{
    while left > 0 {
        let ended = turn(inner, room, all, statements, run, cells)?;
        match ended {
            Some(flow) => return Ok(flow),
            None => left -= 1,
        }
    }
    Err(Stop::Trap(TrapKind::Fuel))
}

/// `while`: each turn spends fuel, so there are no more turns than units of fuel.
#[tactic(auto, using(core_means::specs::Trees::under_then, eval_places::proofs::Right::right_given, eval_places::proofs::Right::right_answered, eval_places::proofs::Right::right_found), unfolding(core_means::specs::Asks::under, core_means::specs::Means::repetition))]
pub fn repetition<L, C, F, G>(
    inner: &Inner<'_, L, F, G>,
    room: u32,
    all: &[Condition],
    statements: &[CoreStmt],
    run: &mut Run,
    cells: &mut C,
) -> Result<Flow, Stop>
where
    L: Cells,
    C: Cells,
    F: Fn(&Setting<'_, L>, u32, &Core, &mut Run, &mut C) -> Result<Value, Stop>,
    G: Fn(&Setting<'_, L>, u32, &CoreStmt, &mut Run, &mut C) -> Result<Flow, Stop>,
    requires nests { Knot L.map C.map room (F.pre inner.now.eval) (F.post inner.now.eval) (G.pre inner.now.exec) (G.post inner.now.exec) }
    requires right { Can L.map inner.now.setting.now run.old (C.map cells.old) (means.repetition (means.inner inner.now.setting.now.program.now room) all.now statements.now) }
    ensures does { Does L.map inner.now.setting.now run.old (C.map cells.old) (means.repetition (means.inner inner.now.setting.now.program.now room) all.now statements.now) result run.new (C.map cells.new) }
{
    turns(inner, room, run.fuel, all, statements, run, cells)
}

#[tactic(auto, using(core_means::specs::Trees::under_then, eval_places::proofs::Right::right_given, eval_places::proofs::Right::right_answered, eval_places::proofs::Right::right_found), unfolding(core_means::specs::Asks::under, core_means::specs::Means::item_turn))]
fn item_turn<L, C, F, G>(
    inner: &Inner<'_, L, F, G>,
    room: u32,
    item: Value,
    statements: &[CoreStmt],
    run: &mut Run,
    cells: &mut C,
) -> Result<Option<Flow>, Stop>
where
    L: Cells,
    C: Cells,
    F: Fn(&Setting<'_, L>, u32, &Core, &mut Run, &mut C) -> Result<Value, Stop>,
    G: Fn(&Setting<'_, L>, u32, &CoreStmt, &mut Run, &mut C) -> Result<Flow, Stop>,
    requires nests { Knot L.map C.map room (F.pre inner.now.eval) (F.post inner.now.eval) (G.pre inner.now.exec) (G.post inner.now.exec) }
    requires right { Can L.map inner.now.setting.now run.old (C.map cells.old) (means.item_turn (means.inner inner.now.setting.now.program.now room) item statements.now) }
    ensures does { Does L.map inner.now.setting.now run.old (C.map cells.old) (means.item_turn (means.inner inner.now.setting.now.program.now room) item statements.now) result run.new (C.map cells.new) }
{
    push(run, item)?;
    let flow = block(inner, room, statements, run, cells)?;
    Ok(ended_by(flow))
}

#[tactic(auto, using(core_means::specs::Trees::under_then, eval_places::proofs::Right::right_given, eval_places::proofs::Right::right_answered, eval_places::proofs::Right::right_found), unfolding(core_means::specs::Asks::under, core_means::specs::Means::framed_turn, core_means::specs::Means::framed))]
fn framed_turn<L, C, F, G>(
    inner: &Inner<'_, L, F, G>,
    room: u32,
    item: Value,
    statements: &[CoreStmt],
    run: &mut Run,
    cells: &mut C,
) -> Result<Option<Flow>, Stop>
where
    L: Cells,
    C: Cells,
    F: Fn(&Setting<'_, L>, u32, &Core, &mut Run, &mut C) -> Result<Value, Stop>,
    G: Fn(&Setting<'_, L>, u32, &CoreStmt, &mut Run, &mut C) -> Result<Flow, Stop>,
    requires nests { Knot L.map C.map room (F.pre inner.now.eval) (F.post inner.now.eval) (G.pre inner.now.exec) (G.post inner.now.exec) }
    requires right { Can L.map inner.now.setting.now run.old (C.map cells.old) (means.framed_turn (means.inner inner.now.setting.now.program.now room) item statements.now) }
    ensures does { Does L.map inner.now.setting.now run.old (C.map cells.old) (means.framed_turn (means.inner inner.now.setting.now.program.now room) item statements.now) result run.new (C.map cells.new) }
{
    let count = run.locals.len();
    let ended = item_turn(inner, room, item, statements, run, cells)?;
    cut(&mut run.locals, count);
    Ok(ended)
}

/// A turn of a `for`, with its item as a local.
#[tactic(auto, using(core_means::specs::Trees::under_then, eval_places::proofs::Right::right_given, eval_places::proofs::Right::right_answered, eval_places::proofs::Right::right_found), unfolding(core_means::specs::Asks::under, core_means::specs::Means::turn_with))]
pub fn turn_with<L, C, F, G>(
    inner: &Inner<'_, L, F, G>,
    room: u32,
    item: Value,
    statements: &[CoreStmt],
    run: &mut Run,
    cells: &mut C,
) -> Result<Option<Flow>, Stop>
where
    L: Cells,
    C: Cells,
    F: Fn(&Setting<'_, L>, u32, &Core, &mut Run, &mut C) -> Result<Value, Stop>,
    G: Fn(&Setting<'_, L>, u32, &CoreStmt, &mut Run, &mut C) -> Result<Flow, Stop>,
    requires nests { Knot L.map C.map room (F.pre inner.now.eval) (F.post inner.now.eval) (G.pre inner.now.exec) (G.post inner.now.exec) }
    requires right { Can L.map inner.now.setting.now run.old (C.map cells.old) (means.turn_with (means.inner inner.now.setting.now.program.now room) item statements.now) }
    ensures does { Does L.map inner.now.setting.now run.old (C.map cells.old) (means.turn_with (means.inner inner.now.setting.now.program.now room) item statements.now) result run.new (C.map cells.new) }
{
    pay(inner.setting, run, cells)?;
    framed_turn(inner, room, item, statements, run, cells)
}

// A turn for each item.
#[tactic(auto, using(core_means::specs::Trees::under_then, eval_places::proofs::Right::right_given, eval_places::proofs::Right::right_answered, eval_places::proofs::Right::right_found), unfolding(core_means::specs::Asks::under, core_means::specs::Means::turn_for_each))]
fn for_each<L, C, F, G>(
    inner: &Inner<'_, L, F, G>,
    room: u32,
    mut rest: &[Value],
    statements: &[CoreStmt],
    run: &mut Run,
    cells: &mut C,
) -> Result<Flow, Stop>
where
    L: Cells,
    C: Cells,
    F: Fn(&Setting<'_, L>, u32, &Core, &mut Run, &mut C) -> Result<Value, Stop>,
    G: Fn(&Setting<'_, L>, u32, &CoreStmt, &mut Run, &mut C) -> Result<Flow, Stop>,
    requires nests { Knot L.map C.map room (F.pre inner.now.eval) (F.post inner.now.eval) (G.pre inner.now.exec) (G.post inner.now.exec) }
    requires right { Can L.map inner.now.setting.now run.old (C.map cells.old) (means.turn_for_each (means.inner inner.now.setting.now.program.now room) rest.now statements.now) }
    ensures does { Does L.map inner.now.setting.now run.old (C.map cells.old) (means.turn_for_each (means.inner inner.now.setting.now.program.now room) rest.entry.now statements.now) result run.new (C.map cells.new) }
{
    while let [item, more @ ..] = rest {
        let copy = item.copy(inner.setting.alloc)?;
        let ended = turn_with(inner, room, copy, statements, run, cells)?;
        match ended {
            Some(flow) => return Ok(flow),
            None => rest = more,
        }
    }
    Ok(Flow::Next)
}

/// The elements of a list.
#[tactic(auto, unfolding(core_means::specs::Means::parts))]
pub fn parts(list: &Value) -> &[Value]
    requires { IsSome (means.parts list.now) }
    ensures { means.parts list.now ≡ Some result.now }
{
    match list {
        Value::List(parts) => parts.as_slice(),
        _ => unreachable!(),
    }
}

/// `for` over a list.
#[tactic(auto, using(core_means::specs::Trees::under_then, eval_places::proofs::Right::right_given, eval_places::proofs::Right::right_answered, eval_places::proofs::Right::right_found), unfolding(core_means::specs::Asks::under, core_means::specs::Means::for_list))]
pub fn for_list<L, C, F, G>(
    inner: &Inner<'_, L, F, G>,
    room: u32,
    term: &Core,
    statements: &[CoreStmt],
    run: &mut Run,
    cells: &mut C,
) -> Result<Flow, Stop>
where
    L: Cells,
    C: Cells,
    F: Fn(&Setting<'_, L>, u32, &Core, &mut Run, &mut C) -> Result<Value, Stop>,
    G: Fn(&Setting<'_, L>, u32, &CoreStmt, &mut Run, &mut C) -> Result<Flow, Stop>,
    requires nests { Knot L.map C.map room (F.pre inner.now.eval) (F.post inner.now.eval) (G.pre inner.now.exec) (G.post inner.now.exec) }
    requires right { Can L.map inner.now.setting.now run.old (C.map cells.old) (means.for_list (means.inner inner.now.setting.now.program.now room) term.now statements.now) }
    ensures does { Does L.map inner.now.setting.now run.old (C.map cells.old) (means.for_list (means.inner inner.now.setting.now.program.now room) term.now statements.now) result run.new (C.map cells.new) }
{
    let list = eval_terms::eval(inner, room, term, run, cells)?;
    for_each(inner, room, parts(&list), statements, run, cells)
}
