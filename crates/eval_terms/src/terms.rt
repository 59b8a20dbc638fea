ghost use Rattle.std.specs.Prelude.{◌≡◌, List, [], ◌∷◌, ◌++◌, Some, IsSome, IfOk};
ghost use Rattle.core_means.specs.Means as means;
ghost use Rattle.eval_places.specs.Runs.{Can, Does};
ghost use Rattle.eval_terms.specs.Nests.{Knot};
ghost use Rattle.value_calls.specs.Traps.{Answers};

use crate::inner::{self, Inner};
use core_means::{Flow, Run};
use eval_places::{Setting, field};
use identity_path::Cells;
use std::alloc::{AllocError, Global};
use sv_items::{Boxed, Items};
use sv_value::{Value, Values};
use swift_core::{Binary, Core, CoreStmt, Piece, Unary};
use value_calls::Stop;

/// Whether a truth value is true.
#[tactic(auto, unfolding(core_means::specs::Means::truth))]
pub fn truth(value: &Value) -> bool
    requires { IsSome (means.truth value.now) }
    ensures { means.truth value.now ≡ Some result }
{
    match value {
        Value::Bool(truth) => *truth,
        _ => unreachable!(),
    }
}

/// What is inside an optional.
#[tactic(auto, unfolding(core_means::specs::Means::inside))]
pub fn inside(value: Value) -> Option<Value>
    requires { IsSome (means.inside value) }
    ensures { means.inside value ≡ Some result }
{
    match value {
        Value::Opt(Some(part)) => Some(part.into_inner()),
        Value::Opt(None) => None,
        _ => unreachable!(),
    }
}

fn operate_one(alloc: Global, operator: Unary, value: Value) -> Result<Value, Stop>
    requires { IsSome (means.of_one operator value) }
    ensures { Answers result (means.of_one operator value) }
{
    match operator {
        Unary::Operate(operator) => value_calls::operate_one(alloc, operator, &value),
        Unary::Force => value_calls::force(value),
        Unary::Field(at) => Ok(field(alloc, at, &value)?),
        Unary::Look(property) => value_calls::look(alloc, property, &value),
    }
}

fn element(alloc: Global, list: &Value, index: &Value) -> Result<Value, Stop>
    requires { IsSome (means.of_two Binary.Element list.now index.now) }
    ensures { Answers result (means.of_two Binary.Element list.now index.now) }
{
    match value_calls::element(list, index) {
        Ok(part) => Ok(part.copy(alloc)?),
        Err(stop) => Err(stop),
    }
}

fn operate_two(alloc: Global, operator: Binary, left: Value, right: Value) -> Result<Value, Stop>
    requires { IsSome (means.of_two operator left right) }
    ensures { Answers result (means.of_two operator left right) }
{
    match operator {
        Binary::Operate(operator) => value_calls::operate(operator, left, right),
        Binary::Element => element(alloc, &left, &right),
        Binary::Contains => value_calls::contains(&left, &right),
        Binary::FirstIndex => value_calls::first_index(alloc, &left, &right),
        Binary::Repeat => value_calls::repeat_text(alloc, &left, &right),
        _ => unreachable!(),
    }
}

/// The values of terms, from left to right, behind those that are done.
#[tactic(auto, using(core_means::specs::Trees::under_then, eval_places::proofs::Right::right_given, eval_places::proofs::Right::right_answered, eval_places::proofs::Right::right_found), unfolding(core_means::specs::Asks::under, core_means::specs::Means::values_from))]
pub fn values<L, C, F, G>(
    inner: &Inner<'_, L, F, G>,
    room: u32,
    mut done: Values,
    mut terms: &[Core],
    run: &mut Run,
    cells: &mut C,
) -> Result<Values, Stop>
where
    L: Cells,
    C: Cells,
    F: Fn(&Setting<'_, L>, u32, &Core, &mut Run, &mut C) -> Result<Value, Stop>,
    G: Fn(&Setting<'_, L>, u32, &CoreStmt, &mut Run, &mut C) -> Result<Flow, Stop>,
    requires nests { Knot L.map C.map room (F.pre inner.now.eval) (F.post inner.now.eval) (G.pre inner.now.exec) (G.post inner.now.exec) }
    requires right { Can L.map inner.now.setting.now run.old (C.map cells.old) (means.values_from (means.inner inner.now.setting.now.program.now room) done terms.now) }
    ensures does { Does L.map inner.now.setting.now run.old (C.map cells.old) (means.values_from (means.inner inner.now.setting.now.program.now room) done terms.entry.now) result run.new (C.map cells.new) }
{
    while let [term, rest @ ..] = terms {
        let value = inner::eval(inner, room, term, run, cells)?;
        done.push(value)?;
        terms = rest;
    }
    Ok(done)
}

/// A list of its elements.
#[tactic(auto, using(core_means::specs::Trees::under_then, eval_places::proofs::Right::right_given, eval_places::proofs::Right::right_answered, eval_places::proofs::Right::right_found), unfolding(core_means::specs::Asks::under, core_means::specs::Means::list_of))]
pub fn list<L, C, F, G>(
    inner: &Inner<'_, L, F, G>,
    room: u32,
    terms: &[Core],
    run: &mut Run,
    cells: &mut C,
) -> Result<Value, Stop>
where
    L: Cells,
    C: Cells,
    F: Fn(&Setting<'_, L>, u32, &Core, &mut Run, &mut C) -> Result<Value, Stop>,
    G: Fn(&Setting<'_, L>, u32, &CoreStmt, &mut Run, &mut C) -> Result<Flow, Stop>,
    requires nests { Knot L.map C.map room (F.pre inner.now.eval) (F.post inner.now.eval) (G.pre inner.now.exec) (G.post inner.now.exec) }
    requires right { Can L.map inner.now.setting.now run.old (C.map cells.old) (means.list_of (means.inner inner.now.setting.now.program.now room) terms.now) }
    ensures does { Does L.map inner.now.setting.now run.old (C.map cells.old) (means.list_of (means.inner inner.now.setting.now.program.now room) terms.now) result run.new (C.map cells.new) }
{
    let values = values(
        inner,
        room,
        Items::new(inner.setting.alloc),
        terms,
        run,
        cells,
    )?;
    value_calls::list_of(values)
}

#[tactic(auto, using(core_means::specs::Trees::under_then, eval_places::proofs::Right::right_given, eval_places::proofs::Right::right_answered, eval_places::proofs::Right::right_found), unfolding(core_means::specs::Asks::under, core_means::specs::Means::piece_of))]
fn piece<L, C, F, G>(
    inner: &Inner<'_, L, F, G>,
    room: u32,
    piece: &Piece,
    run: &mut Run,
    cells: &mut C,
) -> Result<Value, Stop>
where
    L: Cells,
    C: Cells,
    F: Fn(&Setting<'_, L>, u32, &Core, &mut Run, &mut C) -> Result<Value, Stop>,
    G: Fn(&Setting<'_, L>, u32, &CoreStmt, &mut Run, &mut C) -> Result<Flow, Stop>,
    requires nests { Knot L.map C.map room (F.pre inner.now.eval) (F.post inner.now.eval) (G.pre inner.now.exec) (G.post inner.now.exec) }
    requires right { Can L.map inner.now.setting.now run.old (C.map cells.old) (means.piece_of (means.inner inner.now.setting.now.program.now room) piece.now) }
    ensures does { Does L.map inner.now.setting.now run.old (C.map cells.old) (means.piece_of (means.inner inner.now.setting.now.program.now room) piece.now) result run.new (C.map cells.new) }
{
    match piece {
        Piece::Text(text) => Ok(Value::Str(text.copy()?)),
        Piece::Hole(term) => inner::eval(inner, room, term, run, cells),
    }
}

#[tactic(auto, using(core_means::specs::Trees::under_then, eval_places::proofs::Right::right_given, eval_places::proofs::Right::right_answered, eval_places::proofs::Right::right_found), unfolding(core_means::specs::Asks::under, core_means::specs::Means::pieces_from))]
fn pieces<L, C, F, G>(
    inner: &Inner<'_, L, F, G>,
    room: u32,
    mut done: Values,
    mut rest: &[Piece],
    run: &mut Run,
    cells: &mut C,
) -> Result<Values, Stop>
where
    L: Cells,
    C: Cells,
    F: Fn(&Setting<'_, L>, u32, &Core, &mut Run, &mut C) -> Result<Value, Stop>,
    G: Fn(&Setting<'_, L>, u32, &CoreStmt, &mut Run, &mut C) -> Result<Flow, Stop>,
    requires nests { Knot L.map C.map room (F.pre inner.now.eval) (F.post inner.now.eval) (G.pre inner.now.exec) (G.post inner.now.exec) }
    requires right { Can L.map inner.now.setting.now run.old (C.map cells.old) (means.pieces_from (means.inner inner.now.setting.now.program.now room) done rest.now) }
    ensures does { Does L.map inner.now.setting.now run.old (C.map cells.old) (means.pieces_from (means.inner inner.now.setting.now.program.now room) done rest.entry.now) result run.new (C.map cells.new) }
{
    while let [first, more @ ..] = rest {
        let value = piece(inner, room, first, run, cells)?;
        done.push(value)?;
        rest = more;
    }
    Ok(done)
}

/// A string of its pieces.
#[tactic(auto, using(core_means::specs::Trees::under_then, eval_places::proofs::Right::right_given, eval_places::proofs::Right::right_answered, eval_places::proofs::Right::right_found), unfolding(core_means::specs::Asks::under, core_means::specs::Means::text_of))]
pub fn text<L, C, F, G>(
    inner: &Inner<'_, L, F, G>,
    room: u32,
    all: &[Piece],
    run: &mut Run,
    cells: &mut C,
) -> Result<Value, Stop>
where
    L: Cells,
    C: Cells,
    F: Fn(&Setting<'_, L>, u32, &Core, &mut Run, &mut C) -> Result<Value, Stop>,
    G: Fn(&Setting<'_, L>, u32, &CoreStmt, &mut Run, &mut C) -> Result<Flow, Stop>,
    requires nests { Knot L.map C.map room (F.pre inner.now.eval) (F.post inner.now.eval) (G.pre inner.now.exec) (G.post inner.now.exec) }
    requires right { Can L.map inner.now.setting.now run.old (C.map cells.old) (means.text_of (means.inner inner.now.setting.now.program.now room) all.now) }
    ensures does { Does L.map inner.now.setting.now run.old (C.map cells.old) (means.text_of (means.inner inner.now.setting.now.program.now room) all.now) result run.new (C.map cells.new) }
{
    let values = pieces(
        inner,
        room,
        Items::new(inner.setting.alloc),
        all,
        run,
        cells,
    )?;
    value_calls::interpolate(inner.setting.alloc, values.as_slice())
}

/// What is computed of one operand.
#[tactic(auto, using(core_means::specs::Trees::under_then, eval_places::proofs::Right::right_given, eval_places::proofs::Right::right_answered, eval_places::proofs::Right::right_found), unfolding(core_means::specs::Asks::under, core_means::specs::Means::one_operand))]
pub fn one_operand<L, C, F, G>(
    inner: &Inner<'_, L, F, G>,
    room: u32,
    operator: Unary,
    term: &Core,
    run: &mut Run,
    cells: &mut C,
) -> Result<Value, Stop>
where
    L: Cells,
    C: Cells,
    F: Fn(&Setting<'_, L>, u32, &Core, &mut Run, &mut C) -> Result<Value, Stop>,
    G: Fn(&Setting<'_, L>, u32, &CoreStmt, &mut Run, &mut C) -> Result<Flow, Stop>,
    requires nests { Knot L.map C.map room (F.pre inner.now.eval) (F.post inner.now.eval) (G.pre inner.now.exec) (G.post inner.now.exec) }
    requires right { Can L.map inner.now.setting.now run.old (C.map cells.old) (means.one_operand (means.inner inner.now.setting.now.program.now room) operator term.now) }
    ensures does { Does L.map inner.now.setting.now run.old (C.map cells.old) (means.one_operand (means.inner inner.now.setting.now.program.now room) operator term.now) result run.new (C.map cells.new) }
{
    let value = inner::eval(inner, room, term, run, cells)?;
    operate_one(inner.setting.alloc, operator, value)
}

/// Whether the term is true.
#[tactic(auto, using(core_means::specs::Trees::under_then, eval_places::proofs::Right::right_given, eval_places::proofs::Right::right_answered, eval_places::proofs::Right::right_found), unfolding(core_means::specs::Asks::under, core_means::specs::Means::tested))]
pub fn tested<L, C, F, G>(
    inner: &Inner<'_, L, F, G>,
    room: u32,
    term: &Core,
    run: &mut Run,
    cells: &mut C,
) -> Result<bool, Stop>
where
    L: Cells,
    C: Cells,
    F: Fn(&Setting<'_, L>, u32, &Core, &mut Run, &mut C) -> Result<Value, Stop>,
    G: Fn(&Setting<'_, L>, u32, &CoreStmt, &mut Run, &mut C) -> Result<Flow, Stop>,
    requires nests { Knot L.map C.map room (F.pre inner.now.eval) (F.post inner.now.eval) (G.pre inner.now.exec) (G.post inner.now.exec) }
    requires right { Can L.map inner.now.setting.now run.old (C.map cells.old) (means.tested (means.inner inner.now.setting.now.program.now room) term.now) }
    ensures does { Does L.map inner.now.setting.now run.old (C.map cells.old) (means.tested (means.inner inner.now.setting.now.program.now room) term.now) result run.new (C.map cells.new) }
{
    let value = inner::eval(inner, room, term, run, cells)?;
    Ok(truth(&value))
}

// The right operand runs where the left one is true.
#[tactic(auto, using(core_means::specs::Trees::under_then, eval_places::proofs::Right::right_given, eval_places::proofs::Right::right_answered, eval_places::proofs::Right::right_found), unfolding(core_means::specs::Asks::under, core_means::specs::Means::both))]
fn both<L, C, F, G>(
    inner: &Inner<'_, L, F, G>,
    room: u32,
    left: &Core,
    right: &Core,
    run: &mut Run,
    cells: &mut C,
) -> Result<Value, Stop>
where
    L: Cells,
    C: Cells,
    F: Fn(&Setting<'_, L>, u32, &Core, &mut Run, &mut C) -> Result<Value, Stop>,
    G: Fn(&Setting<'_, L>, u32, &CoreStmt, &mut Run, &mut C) -> Result<Flow, Stop>,
    requires nests { Knot L.map C.map room (F.pre inner.now.eval) (F.post inner.now.eval) (G.pre inner.now.exec) (G.post inner.now.exec) }
    requires right { Can L.map inner.now.setting.now run.old (C.map cells.old) (means.both (means.inner inner.now.setting.now.program.now room) left.now right.now) }
    ensures does { Does L.map inner.now.setting.now run.old (C.map cells.old) (means.both (means.inner inner.now.setting.now.program.now room) left.now right.now) result run.new (C.map cells.new) }
{
    if tested(inner, room, left, run, cells)? {
        let truth = tested(inner, room, right, run, cells)?;
        Ok(Value::Bool(truth))
    } else {
        Ok(Value::Bool(false))
    }
}

// The right operand runs where the left one is false.
#[tactic(auto, using(core_means::specs::Trees::under_then, eval_places::proofs::Right::right_given, eval_places::proofs::Right::right_answered, eval_places::proofs::Right::right_found), unfolding(core_means::specs::Asks::under, core_means::specs::Means::either))]
fn either<L, C, F, G>(
    inner: &Inner<'_, L, F, G>,
    room: u32,
    left: &Core,
    right: &Core,
    run: &mut Run,
    cells: &mut C,
) -> Result<Value, Stop>
where
    L: Cells,
    C: Cells,
    F: Fn(&Setting<'_, L>, u32, &Core, &mut Run, &mut C) -> Result<Value, Stop>,
    G: Fn(&Setting<'_, L>, u32, &CoreStmt, &mut Run, &mut C) -> Result<Flow, Stop>,
    requires nests { Knot L.map C.map room (F.pre inner.now.eval) (F.post inner.now.eval) (G.pre inner.now.exec) (G.post inner.now.exec) }
    requires right { Can L.map inner.now.setting.now run.old (C.map cells.old) (means.either (means.inner inner.now.setting.now.program.now room) left.now right.now) }
    ensures does { Does L.map inner.now.setting.now run.old (C.map cells.old) (means.either (means.inner inner.now.setting.now.program.now room) left.now right.now) result run.new (C.map cells.new) }
{
    if tested(inner, room, left, run, cells)? {
        Ok(Value::Bool(true))
    } else {
        let truth = tested(inner, room, right, run, cells)?;
        Ok(Value::Bool(truth))
    }
}

/// What is inside the optional.
#[tactic(auto, using(core_means::specs::Trees::under_then, eval_places::proofs::Right::right_given, eval_places::proofs::Right::right_answered, eval_places::proofs::Right::right_found), unfolding(core_means::specs::Asks::under, core_means::specs::Means::opened))]
pub fn opened<L, C, F, G>(
    inner: &Inner<'_, L, F, G>,
    room: u32,
    term: &Core,
    run: &mut Run,
    cells: &mut C,
) -> Result<Option<Value>, Stop>
where
    L: Cells,
    C: Cells,
    F: Fn(&Setting<'_, L>, u32, &Core, &mut Run, &mut C) -> Result<Value, Stop>,
    G: Fn(&Setting<'_, L>, u32, &CoreStmt, &mut Run, &mut C) -> Result<Flow, Stop>,
    requires nests { Knot L.map C.map room (F.pre inner.now.eval) (F.post inner.now.eval) (G.pre inner.now.exec) (G.post inner.now.exec) }
    requires right { Can L.map inner.now.setting.now run.old (C.map cells.old) (means.opened (means.inner inner.now.setting.now.program.now room) term.now) }
    ensures does { Does L.map inner.now.setting.now run.old (C.map cells.old) (means.opened (means.inner inner.now.setting.now.program.now room) term.now) result run.new (C.map cells.new) }
{
    let value = inner::eval(inner, room, term, run, cells)?;
    Ok(inside(value))
}

#[tactic(auto, using(core_means::specs::Trees::under_then, eval_places::proofs::Right::right_given, eval_places::proofs::Right::right_answered, eval_places::proofs::Right::right_found), unfolding(core_means::specs::Asks::under, core_means::specs::Means::coalesced))]
fn coalesced<L, C, F, G>(
    inner: &Inner<'_, L, F, G>,
    room: u32,
    left: &Core,
    right: &Core,
    run: &mut Run,
    cells: &mut C,
) -> Result<Value, Stop>
where
    L: Cells,
    C: Cells,
    F: Fn(&Setting<'_, L>, u32, &Core, &mut Run, &mut C) -> Result<Value, Stop>,
    G: Fn(&Setting<'_, L>, u32, &CoreStmt, &mut Run, &mut C) -> Result<Flow, Stop>,
    requires nests { Knot L.map C.map room (F.pre inner.now.eval) (F.post inner.now.eval) (G.pre inner.now.exec) (G.post inner.now.exec) }
    requires right { Can L.map inner.now.setting.now run.old (C.map cells.old) (means.coalesced (means.inner inner.now.setting.now.program.now room) left.now right.now) }
    ensures does { Does L.map inner.now.setting.now run.old (C.map cells.old) (means.coalesced (means.inner inner.now.setting.now.program.now room) left.now right.now) result run.new (C.map cells.new) }
{
    match opened(inner, room, left, run, cells)? {
        Some(value) => Ok(value),
        None => inner::eval(inner, room, right, run, cells),
    }
}

fn filled(alloc: Global, value: Value) -> Result<Value, AllocError>
    ensures { IfOk result (λ optional. optional ≡ Value.Opt (Some value)) }
{
    Ok(Value::Opt(Some(Boxed::new(alloc, value)?)))
}

#[tactic(auto, using(core_means::specs::Trees::under_then, eval_places::proofs::Right::right_given, eval_places::proofs::Right::right_answered, eval_places::proofs::Right::right_found), unfolding(core_means::specs::Asks::under, core_means::specs::Means::coalesced_optional))]
fn coalesced_optional<L, C, F, G>(
    inner: &Inner<'_, L, F, G>,
    room: u32,
    left: &Core,
    right: &Core,
    run: &mut Run,
    cells: &mut C,
) -> Result<Value, Stop>
where
    L: Cells,
    C: Cells,
    F: Fn(&Setting<'_, L>, u32, &Core, &mut Run, &mut C) -> Result<Value, Stop>,
    G: Fn(&Setting<'_, L>, u32, &CoreStmt, &mut Run, &mut C) -> Result<Flow, Stop>,
    requires nests { Knot L.map C.map room (F.pre inner.now.eval) (F.post inner.now.eval) (G.pre inner.now.exec) (G.post inner.now.exec) }
    requires right { Can L.map inner.now.setting.now run.old (C.map cells.old) (means.coalesced_optional (means.inner inner.now.setting.now.program.now room) left.now right.now) }
    ensures does { Does L.map inner.now.setting.now run.old (C.map cells.old) (means.coalesced_optional (means.inner inner.now.setting.now.program.now room) left.now right.now) result run.new (C.map cells.new) }
{
    match opened(inner, room, left, run, cells)? {
        Some(value) => Ok(filled(inner.setting.alloc, value)?),
        None => inner::eval(inner, room, right, run, cells),
    }
}

#[tactic(auto, using(core_means::specs::Trees::under_then, eval_places::proofs::Right::right_given, eval_places::proofs::Right::right_answered, eval_places::proofs::Right::right_found), unfolding(core_means::specs::Asks::under, core_means::specs::Means::operands))]
fn operands<L, C, F, G>(
    inner: &Inner<'_, L, F, G>,
    room: u32,
    operator: Binary,
    left: &Core,
    right: &Core,
    run: &mut Run,
    cells: &mut C,
) -> Result<Value, Stop>
where
    L: Cells,
    C: Cells,
    F: Fn(&Setting<'_, L>, u32, &Core, &mut Run, &mut C) -> Result<Value, Stop>,
    G: Fn(&Setting<'_, L>, u32, &CoreStmt, &mut Run, &mut C) -> Result<Flow, Stop>,
    requires nests { Knot L.map C.map room (F.pre inner.now.eval) (F.post inner.now.eval) (G.pre inner.now.exec) (G.post inner.now.exec) }
    requires right { Can L.map inner.now.setting.now run.old (C.map cells.old) (means.operands (means.inner inner.now.setting.now.program.now room) operator left.now right.now) }
    ensures does { Does L.map inner.now.setting.now run.old (C.map cells.old) (means.operands (means.inner inner.now.setting.now.program.now room) operator left.now right.now) result run.new (C.map cells.new) }
{
    let left = inner::eval(inner, room, left, run, cells)?;
    let right = inner::eval(inner, room, right, run, cells)?;
    operate_two(inner.setting.alloc, operator, left, right)
}

/// What is computed of two operands.
#[tactic(auto, using(core_means::specs::Trees::under_then, eval_places::proofs::Right::right_given, eval_places::proofs::Right::right_answered, eval_places::proofs::Right::right_found), unfolding(core_means::specs::Asks::under, core_means::specs::Means::two_operands))]
pub fn two_operands<L, C, F, G>(
    inner: &Inner<'_, L, F, G>,
    room: u32,
    operator: Binary,
    left: &Core,
    right: &Core,
    run: &mut Run,
    cells: &mut C,
) -> Result<Value, Stop>
where
    L: Cells,
    C: Cells,
    F: Fn(&Setting<'_, L>, u32, &Core, &mut Run, &mut C) -> Result<Value, Stop>,
    G: Fn(&Setting<'_, L>, u32, &CoreStmt, &mut Run, &mut C) -> Result<Flow, Stop>,
    requires nests { Knot L.map C.map room (F.pre inner.now.eval) (F.post inner.now.eval) (G.pre inner.now.exec) (G.post inner.now.exec) }
    requires right { Can L.map inner.now.setting.now run.old (C.map cells.old) (means.two_operands (means.inner inner.now.setting.now.program.now room) operator left.now right.now) }
    ensures does { Does L.map inner.now.setting.now run.old (C.map cells.old) (means.two_operands (means.inner inner.now.setting.now.program.now room) operator left.now right.now) result run.new (C.map cells.new) }
{
    match operator {
        Binary::And => both(inner, room, left, right, run, cells),
        Binary::Or => either(inner, room, left, right, run, cells),
        Binary::Coalesce => coalesced(inner, room, left, right, run, cells),
        Binary::CoalesceOptional => coalesced_optional(inner, room, left, right, run, cells),
        Binary::Operate(_) => operands(inner, room, operator, left, right, run, cells),
        Binary::Element => operands(inner, room, operator, left, right, run, cells),
        Binary::Contains => operands(inner, room, operator, left, right, run, cells),
        Binary::FirstIndex => operands(inner, room, operator, left, right, run, cells),
        Binary::Repeat => operands(inner, room, operator, left, right, run, cells),
    }
}

/// The first or the second, by the condition.
#[tactic(auto, using(core_means::specs::Trees::under_then, eval_places::proofs::Right::right_given, eval_places::proofs::Right::right_answered, eval_places::proofs::Right::right_found), unfolding(core_means::specs::Asks::under, core_means::specs::Means::choice))]
pub fn choice<L, C, F, G>(
    inner: &Inner<'_, L, F, G>,
    room: u32,
    condition: &Core,
    first: &Core,
    second: &Core,
    run: &mut Run,
    cells: &mut C,
) -> Result<Value, Stop>
where
    L: Cells,
    C: Cells,
    F: Fn(&Setting<'_, L>, u32, &Core, &mut Run, &mut C) -> Result<Value, Stop>,
    G: Fn(&Setting<'_, L>, u32, &CoreStmt, &mut Run, &mut C) -> Result<Flow, Stop>,
    requires nests { Knot L.map C.map room (F.pre inner.now.eval) (F.post inner.now.eval) (G.pre inner.now.exec) (G.post inner.now.exec) }
    requires right { Can L.map inner.now.setting.now run.old (C.map cells.old) (means.choice (means.inner inner.now.setting.now.program.now room) condition.now first.now second.now) }
    ensures does { Does L.map inner.now.setting.now run.old (C.map cells.old) (means.choice (means.inner inner.now.setting.now.program.now room) condition.now first.now second.now) result run.new (C.map cells.new) }
{
    if tested(inner, room, condition, run, cells)? {
        inner::eval(inner, room, first, run, cells)
    } else {
        inner::eval(inner, room, second, run, cells)
    }
}
