ghost use Rattle.std.specs.Prelude.{◌≡◌, List, [], ◌∷◌, ◌++◌, Some, None, IsSome, IfOk, OnOk};
ghost use Rattle.std.specs.Option.{option_copied};
ghost use Rattle.core_means.specs.Means as means;
ghost use Rattle.eval_places.specs.Runs.{Can, Does};
ghost use Rattle.eval_terms.specs.Arms as arms;
ghost use Rattle.eval_terms.specs.Nests.{Knot};

use crate::inner::{self, Inner};
use crate::terms::values;
use core_means::{Flow, Local, Run};
use eval_places::Setting;
use identity_path::{Cells, Input};
use std::alloc::{AllocError, Global};
use std::mem;
use sv_items::Items;
use sv_value::{Value, Values};
use swift_core::{Code, CodeForm, CodeId, Core, CoreStmt, Filling, Invocation, Program, Receiver};
use value_calls::Stop;

/// Values as the first locals of a call.
pub fn held(alloc: Global, values: &[Value]) -> Result<Items<Local>, AllocError>
    ensures { IfOk result (λ locals. locals ≡ means.held values.now) }
{
    let mut locals = Items::new(alloc);
    let mut rest = values;
    while let [value, more @ ..] = rest {
        locals.push(Local::Holds(Input::Value(value.copy(alloc)?)))?;
        rest = more;
    }
    Ok(locals)
}

/// The piece of code of a number.
#[tactic(auto, unfolding(core_means::specs::Means::code_of))]
pub fn code_of(program: &Program, id: CodeId) -> Option<&Code>
    ensures { option_copied result ≡ means.code_of program.now id.number }
{
    program.code(id)
}

// The value of a body, if it has one.
fn value_of_flow(flow: Flow) -> Option<Value>
    requires { IsSome (means.value_of_flow flow) }
    ensures { means.value_of_flow flow ≡ Some result }
{
    match flow {
        Flow::Next => None,
        Flow::Returned(value) => value,
        Flow::Broke => unreachable!(),
        Flow::Continued => unreachable!(),
    }
}

fn value_in(value: Option<Value>) -> Value
    requires { IsSome value }
    ensures { value ≡ Some result }
{
    match value {
        Some(value) => value,
        None => unreachable!(),
    }
}

/// Statements in a row.
#[tactic(auto, using(core_means::specs::Trees::under_then, eval_places::proofs::Right::right_given, eval_places::proofs::Right::right_answered, eval_places::proofs::Right::right_found), unfolding(core_means::specs::Asks::under, core_means::specs::Means::block))]
pub fn block<L, C, F, G>(
    inner: &Inner<'_, L, F, G>,
    room: u32,
    mut rest: &[CoreStmt],
    run: &mut Run,
    cells: &mut C,
) -> Result<Flow, Stop>
where
    L: Cells,
    C: Cells,
    F: Fn(&Setting<'_, L>, u32, &Core, &mut Run, &mut C) -> Result<Value, Stop>,
    G: Fn(&Setting<'_, L>, u32, &CoreStmt, &mut Run, &mut C) -> Result<Flow, Stop>,
    requires nests { Knot L.map C.map room (F.pre inner.now.eval) (F.post inner.now.eval) (G.pre inner.now.exec) (G.post inner.now.exec) }
    requires right { Can L.map inner.now.setting.now run.old (C.map cells.old) (means.block (means.inner inner.now.setting.now.program.now room) rest.now) }
    ensures does { Does L.map inner.now.setting.now run.old (C.map cells.old) (means.block (means.inner inner.now.setting.now.program.now room) rest.entry.now) result run.new (C.map cells.new) }
{
    while let [statement, more @ ..] = rest {
        let flow = inner::exec(inner, room, statement, run, cells)?;
        match flow {
            Flow::Next => rest = more,
            Flow::Returned(value) => return Ok(Flow::Returned(value)),
            Flow::Broke => return Ok(Flow::Broke),
            Flow::Continued => return Ok(Flow::Continued),
        }
    }
    Ok(Flow::Next)
}

// The statements of a function.
#[tactic(auto, using(core_means::specs::Trees::under_then, eval_places::proofs::Right::right_given, eval_places::proofs::Right::right_answered, eval_places::proofs::Right::right_found), unfolding(core_means::specs::Asks::under, core_means::specs::Means::body))]
fn body<L, C, F, G>(
    inner: &Inner<'_, L, F, G>,
    room: u32,
    statements: &[CoreStmt],
    run: &mut Run,
    cells: &mut C,
) -> Result<Option<Value>, Stop>
where
    L: Cells,
    C: Cells,
    F: Fn(&Setting<'_, L>, u32, &Core, &mut Run, &mut C) -> Result<Value, Stop>,
    G: Fn(&Setting<'_, L>, u32, &CoreStmt, &mut Run, &mut C) -> Result<Flow, Stop>,
    requires nests { Knot L.map C.map room (F.pre inner.now.eval) (F.post inner.now.eval) (G.pre inner.now.exec) (G.post inner.now.exec) }
    requires right { Can L.map inner.now.setting.now run.old (C.map cells.old) (means.body (means.inner inner.now.setting.now.program.now room) statements.now) }
    ensures does { Does L.map inner.now.setting.now run.old (C.map cells.old) (means.body (means.inner inner.now.setting.now.program.now room) statements.now) result run.new (C.map cells.new) }
{
    let flow = block(inner, room, statements, run, cells)?;
    Ok(value_of_flow(flow))
}

/// What a piece of code gives, if it has a value.
#[tactic(auto, using(core_means::specs::Trees::under_then, eval_places::proofs::Right::right_given, eval_places::proofs::Right::right_answered, eval_places::proofs::Right::right_found), unfolding(core_means::specs::Asks::under, core_means::specs::Means::run_code))]
pub fn run_code<L, C, F, G>(
    inner: &Inner<'_, L, F, G>,
    room: u32,
    code: &Code,
    run: &mut Run,
    cells: &mut C,
) -> Result<Option<Value>, Stop>
where
    L: Cells,
    C: Cells,
    F: Fn(&Setting<'_, L>, u32, &Core, &mut Run, &mut C) -> Result<Value, Stop>,
    G: Fn(&Setting<'_, L>, u32, &CoreStmt, &mut Run, &mut C) -> Result<Flow, Stop>,
    requires nests { Knot L.map C.map room (F.pre inner.now.eval) (F.post inner.now.eval) (G.pre inner.now.exec) (G.post inner.now.exec) }
    requires right { Can L.map inner.now.setting.now run.old (C.map cells.old) (means.run_code (means.inner inner.now.setting.now.program.now room) code.now) }
    ensures does { Does L.map inner.now.setting.now run.old (C.map cells.old) (means.run_code (means.inner inner.now.setting.now.program.now room) code.now) result run.new (C.map cells.new) }
{
    match &code.form {
        CodeForm::Value(term) => {
            let value = inner::eval(inner, room, term, run, cells)?;
            Ok(Some(value))
        }
        CodeForm::Statements(statements) => body(inner, room, statements.as_slice(), run, cells),
        CodeForm::Builder(_) => unreachable!(),
    }
}

// Runs a piece of code with locals and a `self` of its own.
#[tactic(auto, using(core_means::specs::Trees::under_then, eval_places::proofs::Right::right_given, eval_places::proofs::Right::right_answered, eval_places::proofs::Right::right_found), unfolding(core_means::specs::Asks::under, core_means::specs::Means::within))]
fn within<L, C, F, G>(
    inner: &Inner<'_, L, F, G>,
    room: u32,
    code: &Code,
    locals: Items<Local>,
    itself: Option<Value>,
    run: &mut Run,
    cells: &mut C,
) -> Result<Option<Value>, Stop>
where
    L: Cells,
    C: Cells,
    F: Fn(&Setting<'_, L>, u32, &Core, &mut Run, &mut C) -> Result<Value, Stop>,
    G: Fn(&Setting<'_, L>, u32, &CoreStmt, &mut Run, &mut C) -> Result<Flow, Stop>,
    requires nests { Knot L.map C.map room (F.pre inner.now.eval) (F.post inner.now.eval) (G.pre inner.now.exec) (G.post inner.now.exec) }
    requires right { Can L.map inner.now.setting.now run.old (C.map cells.old) (means.within locals itself (means.run_code (means.inner inner.now.setting.now.program.now room) code.now)) }
    ensures does { Does L.map inner.now.setting.now run.old (C.map cells.old) (means.within locals itself (means.run_code (means.inner inner.now.setting.now.program.now room) code.now)) result run.new (C.map cells.new) }
{
    let locals = mem::replace(&mut run.locals, locals);
    let itself = mem::replace(&mut run.itself, itself);
    let answer = run_code(inner, room, code, run, cells)?;
    run.locals = locals;
    run.itself = itself;
    Ok(answer)
}

/// Runs a member with locals and a `self` of its own: its arguments, and what it stands on.
#[tactic(auto, using(core_means::specs::Trees::under_then, eval_places::proofs::Right::right_given, eval_places::proofs::Right::right_answered, eval_places::proofs::Right::right_found), unfolding(core_means::specs::Asks::under, core_means::specs::Means::entered))]
pub fn entered<L, C, F, G>(
    inner: &Inner<'_, L, F, G>,
    room: u32,
    id: CodeId,
    locals: Items<Local>,
    itself: Option<Value>,
    run: &mut Run,
    cells: &mut C,
) -> Result<Option<Value>, Stop>
where
    L: Cells,
    C: Cells,
    F: Fn(&Setting<'_, L>, u32, &Core, &mut Run, &mut C) -> Result<Value, Stop>,
    G: Fn(&Setting<'_, L>, u32, &CoreStmt, &mut Run, &mut C) -> Result<Flow, Stop>,
    requires nests { Knot L.map C.map room (F.pre inner.now.eval) (F.post inner.now.eval) (G.pre inner.now.exec) (G.post inner.now.exec) }
    requires right { Can L.map inner.now.setting.now run.old (C.map cells.old) (means.entered (means.inner inner.now.setting.now.program.now room) id.number locals itself) }
    ensures does { Does L.map inner.now.setting.now run.old (C.map cells.old) (means.entered (means.inner inner.now.setting.now.program.now room) id.number locals itself) result run.new (C.map cells.new) }
{
    match code_of(inner.setting.program, id) {
        Some(code) => within(inner, room, code, locals, itself, run, cells),
        None => unreachable!(),
    }
}

/// An initial value or a static property.
#[tactic(auto, using(core_means::specs::Trees::under_then, eval_places::proofs::Right::right_given, eval_places::proofs::Right::right_answered, eval_places::proofs::Right::right_found), unfolding(core_means::specs::Asks::under, core_means::specs::Means::initial))]
pub fn initial<L, C, F, G>(
    inner: &Inner<'_, L, F, G>,
    room: u32,
    id: CodeId,
    run: &mut Run,
    cells: &mut C,
) -> Result<Value, Stop>
where
    L: Cells,
    C: Cells,
    F: Fn(&Setting<'_, L>, u32, &Core, &mut Run, &mut C) -> Result<Value, Stop>,
    G: Fn(&Setting<'_, L>, u32, &CoreStmt, &mut Run, &mut C) -> Result<Flow, Stop>,
    requires nests { Knot L.map C.map room (F.pre inner.now.eval) (F.post inner.now.eval) (G.pre inner.now.exec) (G.post inner.now.exec) }
    requires right { Can L.map inner.now.setting.now run.old (C.map cells.old) (means.initial (means.inner inner.now.setting.now.program.now room) id.number) }
    ensures does { Does L.map inner.now.setting.now run.old (C.map cells.old) (means.initial (means.inner inner.now.setting.now.program.now room) id.number) result run.new (C.map cells.new) }
{
    let value = entered(
        inner,
        room,
        id,
        Items::new(inner.setting.alloc),
        None,
        run,
        cells,
    )?;
    Ok(value_in(value))
}

fn copied(alloc: Global, itself: &Option<Value>) -> Result<Option<Value>, AllocError>
    ensures { IfOk result (λ copy. copy ≡ itself.now) }
{
    match itself {
        Some(value) => Ok(Some(value.copy(alloc)?)),
        None => Ok(None),
    }
}

// The value of an expression, as one that is there.
#[tactic(auto, using(core_means::specs::Trees::under_then, eval_places::proofs::Right::right_given, eval_places::proofs::Right::right_answered, eval_places::proofs::Right::right_found), unfolding(core_means::specs::Asks::under))]
fn present<L, C, F, G>(
    inner: &Inner<'_, L, F, G>,
    room: u32,
    term: &Core,
    run: &mut Run,
    cells: &mut C,
) -> Result<Option<Value>, Stop>
where
    L: Cells,
    C: Cells,
    F: Fn(&Setting<'_, L>, u32, &Core, &mut Run, &mut C) -> Result<Value, Stop>,
    G: Fn(&Setting<'_, L>, u32, &CoreStmt, &mut Run, &mut C) -> Result<Flow, Stop>,
    requires nests { Knot L.map C.map room (F.pre inner.now.eval) (F.post inner.now.eval) (G.pre inner.now.exec) (G.post inner.now.exec) }
    requires right { Can L.map inner.now.setting.now run.old (C.map cells.old) (arms.present (means.inner inner.now.setting.now.program.now room) term.now) }
    ensures does { Does L.map inner.now.setting.now run.old (C.map cells.old) (arms.present (means.inner inner.now.setting.now.program.now room) term.now) result run.new (C.map cells.new) }
{
    let value = inner::eval(inner, room, term, run, cells)?;
    Ok(Some(value))
}

// What `self` is in the member that is used.
#[tactic(auto, using(core_means::specs::Trees::under_then, eval_places::proofs::Right::right_given, eval_places::proofs::Right::right_answered, eval_places::proofs::Right::right_found), unfolding(core_means::specs::Asks::under, core_means::specs::Means::receiver_of))]
fn receiver<L, C, F, G>(
    inner: &Inner<'_, L, F, G>,
    room: u32,
    receiver: &Receiver,
    run: &mut Run,
    cells: &mut C,
) -> Result<Option<Value>, Stop>
where
    L: Cells,
    C: Cells,
    F: Fn(&Setting<'_, L>, u32, &Core, &mut Run, &mut C) -> Result<Value, Stop>,
    G: Fn(&Setting<'_, L>, u32, &CoreStmt, &mut Run, &mut C) -> Result<Flow, Stop>,
    requires nests { Knot L.map C.map room (F.pre inner.now.eval) (F.post inner.now.eval) (G.pre inner.now.exec) (G.post inner.now.exec) }
    requires right { Can L.map inner.now.setting.now run.old (C.map cells.old) (means.receiver_of (means.inner inner.now.setting.now.program.now room) receiver.now) }
    ensures does { Does L.map inner.now.setting.now run.old (C.map cells.old) (means.receiver_of (means.inner inner.now.setting.now.program.now room) receiver.now) result run.new (C.map cells.new) }
{
    match receiver {
        Receiver::Same => Ok(copied(inner.setting.alloc, &run.itself)?),
        Receiver::Value(term) => present(inner, room, term, run, cells),
    }
}

/// The use of a computed property or a function of the program.
#[tactic(auto, using(core_means::specs::Trees::under_then, eval_places::proofs::Right::right_given, eval_places::proofs::Right::right_answered, eval_places::proofs::Right::right_found), unfolding(core_means::specs::Asks::under, core_means::specs::Means::invoked))]
pub fn invoked<L, C, F, G>(
    inner: &Inner<'_, L, F, G>,
    room: u32,
    invocation: &Invocation,
    run: &mut Run,
    cells: &mut C,
) -> Result<Option<Value>, Stop>
where
    L: Cells,
    C: Cells,
    F: Fn(&Setting<'_, L>, u32, &Core, &mut Run, &mut C) -> Result<Value, Stop>,
    G: Fn(&Setting<'_, L>, u32, &CoreStmt, &mut Run, &mut C) -> Result<Flow, Stop>,
    requires nests { Knot L.map C.map room (F.pre inner.now.eval) (F.post inner.now.eval) (G.pre inner.now.exec) (G.post inner.now.exec) }
    requires right { Can L.map inner.now.setting.now run.old (C.map cells.old) (means.invoked (means.inner inner.now.setting.now.program.now room) invocation.now) }
    ensures does { Does L.map inner.now.setting.now run.old (C.map cells.old) (means.invoked (means.inner inner.now.setting.now.program.now room) invocation.now) result run.new (C.map cells.new) }
{
    let itself = receiver(inner, room, &invocation.receiver, run, cells)?;
    let done = Items::new(inner.setting.alloc);
    let arguments = values(
        inner,
        room,
        done,
        invocation.arguments.as_slice(),
        run,
        cells,
    )?;
    let locals = held(inner.setting.alloc, arguments.as_slice())?;
    entered(inner, room, invocation.code, locals, itself, run, cells)
}

#[tactic(auto, using(core_means::specs::Trees::under_then, eval_places::proofs::Right::right_given, eval_places::proofs::Right::right_answered, eval_places::proofs::Right::right_found), unfolding(core_means::specs::Asks::under, core_means::specs::Means::argument))]
fn argument<L, C, F, G>(
    inner: &Inner<'_, L, F, G>,
    room: u32,
    filling: &Filling,
    run: &mut Run,
    cells: &mut C,
) -> Result<Option<Value>, Stop>
where
    L: Cells,
    C: Cells,
    F: Fn(&Setting<'_, L>, u32, &Core, &mut Run, &mut C) -> Result<Value, Stop>,
    G: Fn(&Setting<'_, L>, u32, &CoreStmt, &mut Run, &mut C) -> Result<Flow, Stop>,
    requires nests { Knot L.map C.map room (F.pre inner.now.eval) (F.post inner.now.eval) (G.pre inner.now.exec) (G.post inner.now.exec) }
    requires right { Can L.map inner.now.setting.now run.old (C.map cells.old) (means.argument (means.inner inner.now.setting.now.program.now room) filling.now) }
    ensures does { Does L.map inner.now.setting.now run.old (C.map cells.old) (means.argument (means.inner inner.now.setting.now.program.now room) filling.now) result run.new (C.map cells.new) }
{
    match filling {
        Filling::Given(term) => present(inner, room, term, run, cells),
        Filling::Place(_) => unreachable!(),
        Filling::Initial(_) => Ok(None),
        Filling::Nil => Ok(None),
    }
}

// The arguments of an initialiser.
#[tactic(auto, using(core_means::specs::Trees::under_then, eval_places::proofs::Right::right_given, eval_places::proofs::Right::right_answered, eval_places::proofs::Right::right_found), unfolding(core_means::specs::Asks::under, core_means::specs::Means::arguments_from))]
fn arguments<L, C, F, G>(
    inner: &Inner<'_, L, F, G>,
    room: u32,
    mut done: Items<Option<Value>>,
    mut rest: &[Filling],
    run: &mut Run,
    cells: &mut C,
) -> Result<Items<Option<Value>>, Stop>
where
    L: Cells,
    C: Cells,
    F: Fn(&Setting<'_, L>, u32, &Core, &mut Run, &mut C) -> Result<Value, Stop>,
    G: Fn(&Setting<'_, L>, u32, &CoreStmt, &mut Run, &mut C) -> Result<Flow, Stop>,
    requires nests { Knot L.map C.map room (F.pre inner.now.eval) (F.post inner.now.eval) (G.pre inner.now.exec) (G.post inner.now.exec) }
    requires right { Can L.map inner.now.setting.now run.old (C.map cells.old) (means.arguments_from (means.inner inner.now.setting.now.program.now room) done rest.now) }
    ensures does { Does L.map inner.now.setting.now run.old (C.map cells.old) (means.arguments_from (means.inner inner.now.setting.now.program.now room) done rest.entry.now) result run.new (C.map cells.new) }
{
    while let [filling, more @ ..] = rest {
        let value = argument(inner, room, filling, run, cells)?;
        done.push(value)?;
        rest = more;
    }
    Ok(done)
}

// The argument, or else the initial value.
#[tactic(auto, using(core_means::specs::Trees::under_then, eval_places::proofs::Right::right_given, eval_places::proofs::Right::right_answered, eval_places::proofs::Right::right_found), unfolding(core_means::specs::Asks::under, core_means::specs::Means::filled))]
fn filled<L, C, F, G>(
    inner: &Inner<'_, L, F, G>,
    room: u32,
    filling: &Filling,
    argument: &Option<Value>,
    run: &mut Run,
    cells: &mut C,
) -> Result<Value, Stop>
where
    L: Cells,
    C: Cells,
    F: Fn(&Setting<'_, L>, u32, &Core, &mut Run, &mut C) -> Result<Value, Stop>,
    G: Fn(&Setting<'_, L>, u32, &CoreStmt, &mut Run, &mut C) -> Result<Flow, Stop>,
    requires nests { Knot L.map C.map room (F.pre inner.now.eval) (F.post inner.now.eval) (G.pre inner.now.exec) (G.post inner.now.exec) }
    requires right { Can L.map inner.now.setting.now run.old (C.map cells.old) (means.filled (means.inner inner.now.setting.now.program.now room) filling.now argument.now) }
    ensures does { Does L.map inner.now.setting.now run.old (C.map cells.old) (means.filled (means.inner inner.now.setting.now.program.now room) filling.now argument.now) result run.new (C.map cells.new) }
{
    match argument {
        Some(value) => Ok(value.copy(inner.setting.alloc)?),
        None => match filling {
            Filling::Initial(id) => initial(inner, room, *id, run, cells),
            Filling::Nil => Ok(Value::Opt(None)),
            Filling::Given(_) => unreachable!(),
            Filling::Place(_) => unreachable!(),
        },
    }
}

// The values of the properties, in order.
#[tactic(auto, using(core_means::specs::Trees::under_then, eval_places::proofs::Right::right_given, eval_places::proofs::Right::right_answered, eval_places::proofs::Right::right_found), unfolding(core_means::specs::Asks::under, core_means::specs::Means::fields_from))]
fn fields<L, C, F, G>(
    inner: &Inner<'_, L, F, G>,
    room: u32,
    mut done: Values,
    mut rest: &[Filling],
    mut given: &[Option<Value>],
    run: &mut Run,
    cells: &mut C,
) -> Result<Values, Stop>
where
    L: Cells,
    C: Cells,
    F: Fn(&Setting<'_, L>, u32, &Core, &mut Run, &mut C) -> Result<Value, Stop>,
    G: Fn(&Setting<'_, L>, u32, &CoreStmt, &mut Run, &mut C) -> Result<Flow, Stop>,
    requires nests { Knot L.map C.map room (F.pre inner.now.eval) (F.post inner.now.eval) (G.pre inner.now.exec) (G.post inner.now.exec) }
    requires right { Can L.map inner.now.setting.now run.old (C.map cells.old) (means.fields_from (means.inner inner.now.setting.now.program.now room) done rest.now given.now) }
    ensures does { Does L.map inner.now.setting.now run.old (C.map cells.old) (means.fields_from (means.inner inner.now.setting.now.program.now room) done rest.entry.now given.entry.now) result run.new (C.map cells.new) }
{
    while let [filling, more @ ..] = rest {
        let [argument, others @ ..] = given else {
            unreachable!()
        };
        let value = filled(inner, room, filling, argument, run, cells)?;
        done.push(value)?;
        rest = more;
        given = others;
    }
    Ok(done)
}

/// A data struct made by its initialiser.
#[tactic(auto, using(core_means::specs::Trees::under_then, eval_places::proofs::Right::right_given, eval_places::proofs::Right::right_answered, eval_places::proofs::Right::right_found), unfolding(core_means::specs::Asks::under, core_means::specs::Means::construction))]
pub fn construction<L, C, F, G>(
    inner: &Inner<'_, L, F, G>,
    room: u32,
    kind: u32,
    fillings: &[Filling],
    run: &mut Run,
    cells: &mut C,
) -> Result<Value, Stop>
where
    L: Cells,
    C: Cells,
    F: Fn(&Setting<'_, L>, u32, &Core, &mut Run, &mut C) -> Result<Value, Stop>,
    G: Fn(&Setting<'_, L>, u32, &CoreStmt, &mut Run, &mut C) -> Result<Flow, Stop>,
    requires nests { Knot L.map C.map room (F.pre inner.now.eval) (F.post inner.now.eval) (G.pre inner.now.exec) (G.post inner.now.exec) }
    requires right { Can L.map inner.now.setting.now run.old (C.map cells.old) (means.construction (means.inner inner.now.setting.now.program.now room) kind fillings.now) }
    ensures does { Does L.map inner.now.setting.now run.old (C.map cells.old) (means.construction (means.inner inner.now.setting.now.program.now room) kind fillings.now) result run.new (C.map cells.new) }
{
    let given = arguments(
        inner,
        room,
        Items::new(inner.setting.alloc),
        fillings,
        run,
        cells,
    )?;
    let done = Items::new(inner.setting.alloc);
    let values = fields(inner, room, done, fillings, given.as_slice(), run, cells)?;
    value_calls::struct_of(kind, values)
}
