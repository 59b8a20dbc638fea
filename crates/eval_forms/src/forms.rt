ghost use Rattle.std.specs.Prelude.{◌≡◌, Some, IsSome};
ghost use Rattle.core_means.specs.Means as means;
ghost use Rattle.eval_places.specs.Runs.{Can, Does};
ghost use Rattle.eval_terms.specs.Nests.{Knot};

use crate::loops::{for_list, repetition};
use crate::ranges::for_numbers;
use crate::statements::{arms, assignment, local, returned, selection, update};
use core_means::{Flow, Run};
use eval_places::{Setting, light, look_up};
use eval_terms::{
    Inner, changed, choice, construction, initial, invoked, list, one_operand, pay, text,
    two_operands,
};
use identity_path::Cells;
use sv_value::Value;
use swift_core::{Change, Core, CoreStmt, Invocation, Over};
use value_calls::{Stop, TrapKind};

fn value_in(value: Option<Value>) -> Value
    requires { IsSome value }
    ensures { value ≡ Some result }
{
    match value {
        Some(value) => value,
        None => unreachable!(),
    }
}

#[tactic(auto, using(core_means::specs::Trees::under_then, eval_places::proofs::Right::right_given, eval_places::proofs::Right::right_answered, eval_places::proofs::Right::right_found), unfolding(core_means::specs::Asks::under, core_means::specs::Means::invoked_value))]
fn invoked_value<L, C, F, G>(
    inner: &Inner<'_, L, F, G>,
    room: u32,
    invocation: &Invocation,
    run: &mut Run,
    cells: &mut C,
) -> Result<Value, Stop>
where
    L: Cells,
    C: Cells,
    F: Fn(&Setting<'_, L>, u32, &Core, &mut Run, &mut C) -> Result<Value, Stop>,
    G: Fn(&Setting<'_, L>, u32, &CoreStmt, &mut Run, &mut C) -> Result<Flow, Stop>,
    requires nests { Knot L.map C.map room (F.pre inner.now.eval) (F.post inner.now.eval) (G.pre inner.now.exec) (G.post inner.now.exec) }
    requires right { Can L.map inner.now.setting.now run.old (C.map cells.old) (means.invoked_value (means.inner inner.now.setting.now.program.now room) invocation.now) }
    ensures does { Does L.map inner.now.setting.now run.old (C.map cells.old) (means.invoked_value (means.inner inner.now.setting.now.program.now room) invocation.now) result run.new (C.map cells.new) }
{
    let value = invoked(inner, room, invocation, run, cells)?;
    Ok(value_in(value))
}

#[tactic(auto, using(core_means::specs::Trees::under_then, eval_places::proofs::Right::right_given, eval_places::proofs::Right::right_answered, eval_places::proofs::Right::right_found), unfolding(core_means::specs::Asks::under, core_means::specs::Means::changed_value))]
fn changed_value<L, C, F, G>(
    inner: &Inner<'_, L, F, G>,
    room: u32,
    change: &Change,
    run: &mut Run,
    cells: &mut C,
) -> Result<Value, Stop>
where
    L: Cells,
    C: Cells,
    F: Fn(&Setting<'_, L>, u32, &Core, &mut Run, &mut C) -> Result<Value, Stop>,
    G: Fn(&Setting<'_, L>, u32, &CoreStmt, &mut Run, &mut C) -> Result<Flow, Stop>,
    requires nests { Knot L.map C.map room (F.pre inner.now.eval) (F.post inner.now.eval) (G.pre inner.now.exec) (G.post inner.now.exec) }
    requires right { Can L.map inner.now.setting.now run.old (C.map cells.old) (means.changed_value (means.inner inner.now.setting.now.program.now room) change.now) }
    ensures does { Does L.map inner.now.setting.now run.old (C.map cells.old) (means.changed_value (means.inner inner.now.setting.now.program.now room) change.now) result run.new (C.map cells.new) }
{
    let value = changed(inner, room, change, run, cells)?;
    Ok(value_in(value))
}

// An expression that is no promotion.
#[tactic(auto, using(core_means::specs::Trees::under_then, eval_places::proofs::Right::right_given, eval_places::proofs::Right::right_answered, eval_places::proofs::Right::right_found), unfolding(core_means::specs::Asks::under, core_means::specs::Means::eval_form))]
fn eval_form<L, C, F, G>(
    inner: &Inner<'_, L, F, G>,
    room: u32,
    term: &Core,
    run: &mut Run,
    cells: &mut C,
) -> Result<Value, Stop>
where
    L: Cells,
    C: Cells,
    F: Fn(&Setting<'_, L>, u32, &Core, &mut Run, &mut C) -> Result<Value, Stop>,
    G: Fn(&Setting<'_, L>, u32, &CoreStmt, &mut Run, &mut C) -> Result<Flow, Stop>,
    requires nests { Knot L.map C.map room (F.pre inner.now.eval) (F.post inner.now.eval) (G.pre inner.now.exec) (G.post inner.now.exec) }
    requires right { Can L.map inner.now.setting.now run.old (C.map cells.old) (means.eval_form (means.inner inner.now.setting.now.program.now room) term.now) }
    ensures does { Does L.map inner.now.setting.now run.old (C.map cells.old) (means.eval_form (means.inner inner.now.setting.now.program.now room) term.now) result run.new (C.map cells.new) }
{
    match term {
        Core::Literal(value) => light(value.copy(inner.setting.alloc)?),
        Core::Look(name) => look_up(inner.setting, *name, run, cells),
        Core::Text(pieces) => text(inner, room, pieces.as_slice(), run, cells),
        Core::List(terms) => list(inner, room, terms.as_slice(), run, cells),
        Core::Promote(_) => unreachable!(),
        Core::Unary(operator, term) => one_operand(inner, room, *operator, term.get(), run, cells),
        Core::Binary(operator, left, right) => {
            two_operands(inner, room, *operator, left.get(), right.get(), run, cells)
        }
        Core::Choose(condition, first, second) => {
            choice(
                inner,
                room,
                condition.get(),
                first.get(),
                second.get(),
                run,
                cells,
            )
        }
        Core::Make(kind, fillings) => construction(
            inner,
            room,
            *kind,
            fillings.as_slice(),
            run,
            cells,
        ),
        Core::Static(id) => initial(inner, room, *id, run, cells),
        Core::Invoke(invocation) => invoked_value(inner, room, invocation.get(), run, cells),
        Core::Change(change) => changed_value(inner, room, change.get(), run, cells),
    }
}

/// An expression, in the promotions that stand round it.
#[cycle(promotion)]
#[tactic(auto, using(core_means::specs::Trees::under_then, eval_places::proofs::Right::right_given, eval_places::proofs::Right::right_answered, eval_places::proofs::Right::right_found, crate::proofs::Promotions::of_promotion, crate::proofs::Promotions::of_others), unfolding(core_means::specs::Asks::under))]
pub fn value_form<L, C, F, G>(
    inner: &Inner<'_, L, F, G>,
    room: u32,
    term: &Core,
    run: &mut Run,
    cells: &mut C,
) -> Result<Value, Stop>
where
    L: Cells,
    C: Cells,
    F: Fn(&Setting<'_, L>, u32, &Core, &mut Run, &mut C) -> Result<Value, Stop>,
    G: Fn(&Setting<'_, L>, u32, &CoreStmt, &mut Run, &mut C) -> Result<Flow, Stop>,
    requires nests { Knot L.map C.map room (F.pre inner.now.eval) (F.post inner.now.eval) (G.pre inner.now.exec) (G.post inner.now.exec) }
    requires right { Can L.map inner.now.setting.now run.old (C.map cells.old) (means.value_form (means.inner inner.now.setting.now.program.now room) term.now) }
    ensures does { Does L.map inner.now.setting.now run.old (C.map cells.old) (means.value_form (means.inner inner.now.setting.now.program.now room) term.now) result run.new (C.map cells.new) }
{
    match term {
        Core::Promote(term) => {
            let value = value_form(inner, room, term.get(), run, cells)?;
            value_calls::promote(inner.setting.alloc, value)
        }
        _ => eval_form(inner, room, term, run, cells),
    }
}

// The use of a function as a statement, which is a form of its own.
#[tactic(auto, using(core_means::specs::Trees::under_then, eval_places::proofs::Right::right_given, eval_places::proofs::Right::right_answered, eval_places::proofs::Right::right_found), unfolding(core_means::specs::Asks::under, core_means::specs::Means::calls))]
fn call<L, C, F, G>(
    inner: &Inner<'_, L, F, G>,
    room: u32,
    invocation: &Invocation,
    run: &mut Run,
    cells: &mut C,
) -> Result<Option<Value>, Stop>
where
    L: Cells,
    C: Cells,
    F: Fn(&Setting<'_, L>, u32, &Core, &mut Run, &mut C) -> Result<Value, Stop>,
    G: Fn(&Setting<'_, L>, u32, &CoreStmt, &mut Run, &mut C) -> Result<Flow, Stop>,
    requires nests { Knot L.map C.map room (F.pre inner.now.eval) (F.post inner.now.eval) (G.pre inner.now.exec) (G.post inner.now.exec) }
    requires right { Can L.map inner.now.setting.now run.old (C.map cells.old) (means.calls inner.now.setting.now.program.now room invocation.now) }
    ensures does { Does L.map inner.now.setting.now run.old (C.map cells.old) (means.calls inner.now.setting.now.program.now room invocation.now) result run.new (C.map cells.new) }
{
    pay(inner.setting, run, cells)?;
    if room == 0 {
        return Err(Stop::Trap(TrapKind::Calls));
    }
    invoked(inner, room - 1, invocation, run, cells)
}

// A call that changes a value, as a statement.
#[tactic(auto, using(core_means::specs::Trees::under_then, eval_places::proofs::Right::right_given, eval_places::proofs::Right::right_answered, eval_places::proofs::Right::right_found), unfolding(core_means::specs::Asks::under, core_means::specs::Means::changes))]
fn change<L, C, F, G>(
    inner: &Inner<'_, L, F, G>,
    room: u32,
    change: &Change,
    run: &mut Run,
    cells: &mut C,
) -> Result<Option<Value>, Stop>
where
    L: Cells,
    C: Cells,
    F: Fn(&Setting<'_, L>, u32, &Core, &mut Run, &mut C) -> Result<Value, Stop>,
    G: Fn(&Setting<'_, L>, u32, &CoreStmt, &mut Run, &mut C) -> Result<Flow, Stop>,
    requires nests { Knot L.map C.map room (F.pre inner.now.eval) (F.post inner.now.eval) (G.pre inner.now.exec) (G.post inner.now.exec) }
    requires right { Can L.map inner.now.setting.now run.old (C.map cells.old) (means.changes inner.now.setting.now.program.now room change.now) }
    ensures does { Does L.map inner.now.setting.now run.old (C.map cells.old) (means.changes inner.now.setting.now.program.now room change.now) result run.new (C.map cells.new) }
{
    pay(inner.setting, run, cells)?;
    if room == 0 {
        return Err(Stop::Trap(TrapKind::Calls));
    }
    changed(inner, room - 1, change, run, cells)
}

#[tactic(auto, using(core_means::specs::Trees::under_then, eval_places::proofs::Right::right_given, eval_places::proofs::Right::right_answered, eval_places::proofs::Right::right_found), unfolding(core_means::specs::Asks::under, core_means::specs::Means::called))]
fn called<L, C, F, G>(
    inner: &Inner<'_, L, F, G>,
    room: u32,
    invocation: &Invocation,
    run: &mut Run,
    cells: &mut C,
) -> Result<Flow, Stop>
where
    L: Cells,
    C: Cells,
    F: Fn(&Setting<'_, L>, u32, &Core, &mut Run, &mut C) -> Result<Value, Stop>,
    G: Fn(&Setting<'_, L>, u32, &CoreStmt, &mut Run, &mut C) -> Result<Flow, Stop>,
    requires nests { Knot L.map C.map room (F.pre inner.now.eval) (F.post inner.now.eval) (G.pre inner.now.exec) (G.post inner.now.exec) }
    requires right { Can L.map inner.now.setting.now run.old (C.map cells.old) (means.called (means.inner inner.now.setting.now.program.now room) invocation.now) }
    ensures does { Does L.map inner.now.setting.now run.old (C.map cells.old) (means.called (means.inner inner.now.setting.now.program.now room) invocation.now) result run.new (C.map cells.new) }
{
    let _value = call(inner, room, invocation, run, cells)?;
    Ok(Flow::Next)
}

#[tactic(auto, using(core_means::specs::Trees::under_then, eval_places::proofs::Right::right_given, eval_places::proofs::Right::right_answered, eval_places::proofs::Right::right_found), unfolding(core_means::specs::Asks::under, core_means::specs::Means::made_change))]
fn made_change<L, C, F, G>(
    inner: &Inner<'_, L, F, G>,
    room: u32,
    change: &Change,
    run: &mut Run,
    cells: &mut C,
) -> Result<Flow, Stop>
where
    L: Cells,
    C: Cells,
    F: Fn(&Setting<'_, L>, u32, &Core, &mut Run, &mut C) -> Result<Value, Stop>,
    G: Fn(&Setting<'_, L>, u32, &CoreStmt, &mut Run, &mut C) -> Result<Flow, Stop>,
    requires nests { Knot L.map C.map room (F.pre inner.now.eval) (F.post inner.now.eval) (G.pre inner.now.exec) (G.post inner.now.exec) }
    requires right { Can L.map inner.now.setting.now run.old (C.map cells.old) (means.made_change (means.inner inner.now.setting.now.program.now room) change.now) }
    ensures does { Does L.map inner.now.setting.now run.old (C.map cells.old) (means.made_change (means.inner inner.now.setting.now.program.now room) change.now) result run.new (C.map cells.new) }
{
    let _value = self::change(inner, room, change, run, cells)?;
    Ok(Flow::Next)
}

// `for`
#[tactic(auto, using(core_means::specs::Trees::under_then, eval_places::proofs::Right::right_given, eval_places::proofs::Right::right_answered, eval_places::proofs::Right::right_found), unfolding(core_means::specs::Asks::under, core_means::specs::Means::loop_over))]
fn loop_over<L, C, F, G>(
    inner: &Inner<'_, L, F, G>,
    room: u32,
    over: &Over,
    statements: &[CoreStmt],
    run: &mut Run,
    cells: &mut C,
) -> Result<Flow, Stop>
where
    L: Cells,
    C: Cells,
    F: Fn(&Setting<'_, L>, u32, &Core, &mut Run, &mut C) -> Result<Value, Stop>,
    G: Fn(&Setting<'_, L>, u32, &CoreStmt, &mut Run, &mut C) -> Result<Flow, Stop>,
    requires nests { Knot L.map C.map room (F.pre inner.now.eval) (F.post inner.now.eval) (G.pre inner.now.exec) (G.post inner.now.exec) }
    requires right { Can L.map inner.now.setting.now run.old (C.map cells.old) (means.loop_over (means.inner inner.now.setting.now.program.now room) over.now statements.now) }
    ensures does { Does L.map inner.now.setting.now run.old (C.map cells.old) (means.loop_over (means.inner inner.now.setting.now.program.now room) over.now statements.now) result run.new (C.map cells.new) }
{
    match over {
        Over::List(term) => for_list(inner, room, term, statements, run, cells),
        Over::UpTo(_, _) => for_numbers(inner, room, over, statements, run, cells),
        Over::Through(_, _) => for_numbers(inner, room, over, statements, run, cells),
        Over::Indices(_) => for_numbers(inner, room, over, statements, run, cells),
    }
}

/// A statement.
#[tactic(auto, using(core_means::specs::Trees::under_then, eval_places::proofs::Right::right_given, eval_places::proofs::Right::right_answered, eval_places::proofs::Right::right_found), unfolding(core_means::specs::Asks::under, core_means::specs::Means::exec_form))]
pub fn exec_form<L, C, F, G>(
    inner: &Inner<'_, L, F, G>,
    room: u32,
    statement: &CoreStmt,
    run: &mut Run,
    cells: &mut C,
) -> Result<Flow, Stop>
where
    L: Cells,
    C: Cells,
    F: Fn(&Setting<'_, L>, u32, &Core, &mut Run, &mut C) -> Result<Value, Stop>,
    G: Fn(&Setting<'_, L>, u32, &CoreStmt, &mut Run, &mut C) -> Result<Flow, Stop>,
    requires nests { Knot L.map C.map room (F.pre inner.now.eval) (F.post inner.now.eval) (G.pre inner.now.exec) (G.post inner.now.exec) }
    requires right { Can L.map inner.now.setting.now run.old (C.map cells.old) (means.exec_form (means.inner inner.now.setting.now.program.now room) statement.now) }
    ensures does { Does L.map inner.now.setting.now run.old (C.map cells.old) (means.exec_form (means.inner inner.now.setting.now.program.now room) statement.now) result run.new (C.map cells.new) }
{
    match statement {
        CoreStmt::Local(term) => local(inner, room, term, run, cells),
        CoreStmt::Assign(target, term) => assignment(inner, room, target, term, run, cells),
        CoreStmt::Update(operator, target, term) => {
            update(inner, room, *operator, target, term, run, cells)
        }
        CoreStmt::If(first, last) => arms(inner, room, first.as_slice(), last, run, cells),
        CoreStmt::Switch(term, cases) => selection(inner, room, term, cases.as_slice(), run, cells),
        CoreStmt::For(over, statements) => {
            loop_over(inner, room, over, statements.as_slice(), run, cells)
        }
        CoreStmt::While(conditions, statements) => {
            repetition(
                inner,
                room,
                conditions.as_slice(),
                statements.as_slice(),
                run,
                cells,
            )
        }
        CoreStmt::Return(term) => returned(inner, room, term, run, cells),
        CoreStmt::Break => Ok(Flow::Broke),
        CoreStmt::Continue => Ok(Flow::Continued),
        CoreStmt::Invoke(invocation) => called(inner, room, invocation, run, cells),
        CoreStmt::Change(change) => made_change(inner, room, change, run, cells),
    }
}
