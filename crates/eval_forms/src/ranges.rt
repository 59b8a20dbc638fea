ghost use Rattle.std.specs.Prelude.{◌≡◌, ◌+ℤ◌, ◌≤ℤ◌, pos, IsSome, IfOk};
ghost use Rattle.core_means.specs.Means as means;
ghost use Rattle.eval_places.specs.Runs.{Can, Does};
ghost use Rattle.eval_terms.specs.Nests.{Knot};
ghost use Rattle.value_calls.specs.Calls.{bounds_of};
ghost use Rattle.value_calls.specs.Traps.{Answers};
ghost use Rattle.eval_forms.specs.Counts.{IsCounted};

use crate::loops::{parts, turn_with};
use core_means::{Flow, Numbers, Run};
use eval_places::Setting;
use eval_terms::{Inner, pay};
use identity_path::Cells;
use sv_value::Value;
use swift_core::{Core, CoreStmt, Over};
use value_calls::{Bounds, Stop, TrapKind};

#[tactic(auto, using(crate::proofs::Counts::below_counts))]
fn below(bounds: Bounds) -> Numbers
    requires ordered { bounds.lower ≤ℤ bounds.upper }
    ensures value { result ≡ means.below bounds }
    ensures counts { IsCounted result }
{
    Numbers {
        first: bounds.lower,
        count: bounds.upper.abs_diff(bounds.lower) as u128,
    }
}

#[tactic(auto, using(crate::proofs::Counts::up_to_counts))]
fn up_to(bounds: Bounds) -> Numbers
    requires ordered { bounds.lower ≤ℤ bounds.upper }
    ensures value { result ≡ means.up_to bounds }
    ensures counts { IsCounted result }
{
    Numbers {
        first: bounds.lower,
        count: bounds.upper.abs_diff(bounds.lower) as u128 + 1,
    }
}

#[tactic(auto, using(crate::proofs::Counts::in_order))]
fn bounds(lower: &Value, upper: &Value) -> Result<Bounds, Stop>
    requires there { IsSome (bounds_of lower.now upper.now) }
    ensures value { Answers result (bounds_of lower.now upper.now) }
    ensures ordered { IfOk result (λ bounds. bounds.lower ≤ℤ bounds.upper) }
{
    value_calls::range(lower, upper)
}

#[tactic(auto, using(crate::proofs::Counts::places_count))]
fn places(parts: &[Value]) -> Numbers
    ensures value { result ≡ means.places parts.now }
    ensures counts { IsCounted result }
{
    Numbers {
        first: 0,
        count: parts.len() as u128,
    }
}

#[tactic(auto, using(core_means::specs::Trees::under_then, eval_places::proofs::Right::right_given, eval_places::proofs::Right::right_answered, eval_places::proofs::Right::right_found, eval_places::proofs::Right::right_answered_then), unfolding(core_means::specs::Asks::under, core_means::specs::Means::range_by))]
fn open_range<L, C, F, G>(
    inner: &Inner<'_, L, F, G>,
    room: u32,
    lower: &Core,
    upper: &Core,
    run: &mut Run,
    cells: &mut C,
) -> Result<Numbers, Stop>
where
    L: Cells,
    C: Cells,
    F: Fn(&Setting<'_, L>, u32, &Core, &mut Run, &mut C) -> Result<Value, Stop>,
    G: Fn(&Setting<'_, L>, u32, &CoreStmt, &mut Run, &mut C) -> Result<Flow, Stop>,
    requires nests { Knot L.map C.map room (F.pre inner.now.eval) (F.post inner.now.eval) (G.pre inner.now.exec) (G.post inner.now.exec) }
    requires right { Can L.map inner.now.setting.now run.old (C.map cells.old) (means.range_by (means.inner inner.now.setting.now.program.now room) means.below lower.now upper.now) }
    ensures does { Does L.map inner.now.setting.now run.old (C.map cells.old) (means.range_by (means.inner inner.now.setting.now.program.now room) means.below lower.now upper.now) result run.new (C.map cells.new) }
    ensures counts { IfOk result (λ numbers. IsCounted numbers) }
{
    let lower = eval_terms::eval(inner, room, lower, run, cells)?;
    let upper = eval_terms::eval(inner, room, upper, run, cells)?;
    let bounds = bounds(&lower, &upper)?;
    Ok(below(bounds))
}

#[tactic(auto, using(core_means::specs::Trees::under_then, eval_places::proofs::Right::right_given, eval_places::proofs::Right::right_answered, eval_places::proofs::Right::right_found, eval_places::proofs::Right::right_answered_then), unfolding(core_means::specs::Asks::under, core_means::specs::Means::range_by))]
fn closed_range<L, C, F, G>(
    inner: &Inner<'_, L, F, G>,
    room: u32,
    lower: &Core,
    upper: &Core,
    run: &mut Run,
    cells: &mut C,
) -> Result<Numbers, Stop>
where
    L: Cells,
    C: Cells,
    F: Fn(&Setting<'_, L>, u32, &Core, &mut Run, &mut C) -> Result<Value, Stop>,
    G: Fn(&Setting<'_, L>, u32, &CoreStmt, &mut Run, &mut C) -> Result<Flow, Stop>,
    requires nests { Knot L.map C.map room (F.pre inner.now.eval) (F.post inner.now.eval) (G.pre inner.now.exec) (G.post inner.now.exec) }
    requires right { Can L.map inner.now.setting.now run.old (C.map cells.old) (means.range_by (means.inner inner.now.setting.now.program.now room) means.up_to lower.now upper.now) }
    ensures does { Does L.map inner.now.setting.now run.old (C.map cells.old) (means.range_by (means.inner inner.now.setting.now.program.now room) means.up_to lower.now upper.now) result run.new (C.map cells.new) }
    ensures counts { IfOk result (λ numbers. IsCounted numbers) }
{
    let lower = eval_terms::eval(inner, room, lower, run, cells)?;
    let upper = eval_terms::eval(inner, room, upper, run, cells)?;
    let bounds = bounds(&lower, &upper)?;
    Ok(up_to(bounds))
}

#[tactic(auto, using(core_means::specs::Trees::under_then, eval_places::proofs::Right::right_given, eval_places::proofs::Right::right_answered, eval_places::proofs::Right::right_found), unfolding(core_means::specs::Asks::under, core_means::specs::Means::indices))]
fn indices<L, C, F, G>(
    inner: &Inner<'_, L, F, G>,
    room: u32,
    term: &Core,
    run: &mut Run,
    cells: &mut C,
) -> Result<Numbers, Stop>
where
    L: Cells,
    C: Cells,
    F: Fn(&Setting<'_, L>, u32, &Core, &mut Run, &mut C) -> Result<Value, Stop>,
    G: Fn(&Setting<'_, L>, u32, &CoreStmt, &mut Run, &mut C) -> Result<Flow, Stop>,
    requires nests { Knot L.map C.map room (F.pre inner.now.eval) (F.post inner.now.eval) (G.pre inner.now.exec) (G.post inner.now.exec) }
    requires right { Can L.map inner.now.setting.now run.old (C.map cells.old) (means.indices (means.inner inner.now.setting.now.program.now room) term.now) }
    ensures does { Does L.map inner.now.setting.now run.old (C.map cells.old) (means.indices (means.inner inner.now.setting.now.program.now room) term.now) result run.new (C.map cells.new) }
    ensures counts { IfOk result (λ numbers. IsCounted numbers) }
{
    let list = eval_terms::eval(inner, room, term, run, cells)?;
    Ok(places(parts(&list)))
}

#[tactic(auto, using(core_means::specs::Trees::under_then, eval_places::proofs::Right::right_given, eval_places::proofs::Right::right_answered, eval_places::proofs::Right::right_found), unfolding(core_means::specs::Asks::under, core_means::specs::Means::span_form))]
fn span_form<L, C, F, G>(
    inner: &Inner<'_, L, F, G>,
    room: u32,
    over: &Over,
    run: &mut Run,
    cells: &mut C,
) -> Result<Numbers, Stop>
where
    L: Cells,
    C: Cells,
    F: Fn(&Setting<'_, L>, u32, &Core, &mut Run, &mut C) -> Result<Value, Stop>,
    G: Fn(&Setting<'_, L>, u32, &CoreStmt, &mut Run, &mut C) -> Result<Flow, Stop>,
    requires nests { Knot L.map C.map room (F.pre inner.now.eval) (F.post inner.now.eval) (G.pre inner.now.exec) (G.post inner.now.exec) }
    requires right { Can L.map inner.now.setting.now run.old (C.map cells.old) (means.span_form (means.inner inner.now.setting.now.program.now room) over.now) }
    ensures does { Does L.map inner.now.setting.now run.old (C.map cells.old) (means.span_form (means.inner inner.now.setting.now.program.now room) over.now) result run.new (C.map cells.new) }
    ensures counts { IfOk result (λ numbers. IsCounted numbers) }
{
    match over {
        Over::UpTo(lower, upper) => open_range(inner, room, lower, upper, run, cells),
        Over::Through(lower, upper) => closed_range(inner, room, lower, upper, run, cells),
        Over::Indices(term) => indices(inner, room, term, run, cells),
        Over::List(_) => unreachable!(),
    }
}

/// The numbers of a range, which is a form of its own.
#[tactic(auto, using(core_means::specs::Trees::under_then, eval_places::proofs::Right::right_given, eval_places::proofs::Right::right_answered, eval_places::proofs::Right::right_found), unfolding(core_means::specs::Asks::under, core_means::specs::Means::spans))]
pub fn span<L, C, F, G>(
    inner: &Inner<'_, L, F, G>,
    room: u32,
    over: &Over,
    run: &mut Run,
    cells: &mut C,
) -> Result<Numbers, Stop>
where
    L: Cells,
    C: Cells,
    F: Fn(&Setting<'_, L>, u32, &Core, &mut Run, &mut C) -> Result<Value, Stop>,
    G: Fn(&Setting<'_, L>, u32, &CoreStmt, &mut Run, &mut C) -> Result<Flow, Stop>,
    requires nests { Knot L.map C.map room (F.pre inner.now.eval) (F.post inner.now.eval) (G.pre inner.now.exec) (G.post inner.now.exec) }
    requires right { Can L.map inner.now.setting.now run.old (C.map cells.old) (means.spans inner.now.setting.now.program.now room over.now) }
    ensures does { Does L.map inner.now.setting.now run.old (C.map cells.old) (means.spans inner.now.setting.now.program.now room over.now) result run.new (C.map cells.new) }
    ensures counts { IfOk result (λ numbers. IsCounted numbers) }
{
    pay(inner.setting, run, cells)?;
    if room == 0 {
        return Err(Stop::Trap(TrapKind::Calls));
    }
    span_form(inner, room - 1, over, run, cells)
}

/// So many turns, for the numbers from this one on.
#[tactic(auto, using(core_means::specs::Trees::under_then, eval_places::proofs::Right::right_given, eval_places::proofs::Right::right_answered, eval_places::proofs::Right::right_found, crate::proofs::Counts::step_fits), unfolding(core_means::specs::Asks::under))]
pub fn counted<L, C, F, G>(
    inner: &Inner<'_, L, F, G>,
    room: u32,
    mut left: u128,
    mut number: i64,
    statements: &[CoreStmt],
    run: &mut Run,
    cells: &mut C,
) -> Result<Flow, Stop>
where
    L: Cells,
    C: Cells,
    F: Fn(&Setting<'_, L>, u32, &Core, &mut Run, &mut C) -> Result<Value, Stop>,
    G: Fn(&Setting<'_, L>, u32, &CoreStmt, &mut Run, &mut C) -> Result<Flow, Stop>,
    requires nests { Knot L.map C.map room (F.pre inner.now.eval) (F.post inner.now.eval) (G.pre inner.now.exec) (G.post inner.now.exec) }
    requires fits { (number +ℤ pos left) ≤ℤ pos 9223372036854775808 }
    requires right { Can L.map inner.now.setting.now run.old (C.map cells.old) (means.counted (means.inner inner.now.setting.now.program.now room) left number statements.now) }
    ensures does { Does L.map inner.now.setting.now run.old (C.map cells.old) (means.counted (means.inner inner.now.setting.now.program.now room) left number statements.now) result run.new (C.map cells.new) }
{
    while left > 0 {
        let ended = turn_with(inner, room, Value::Int(number), statements, run, cells)?;
        match ended {
            Some(flow) => return Ok(flow),
            None => left -= 1,
        }
        if left == 0 {
            return Ok(Flow::Next);
        }
        number += 1;
    }
    Ok(Flow::Next)
}

/// `for` over a range.
#[tactic(auto, using(core_means::specs::Trees::under_then, eval_places::proofs::Right::right_given, eval_places::proofs::Right::right_answered, eval_places::proofs::Right::right_found, crate::proofs::Counts::kept), unfolding(core_means::specs::Asks::under, core_means::specs::Means::for_numbers))]
pub fn for_numbers<L, C, F, G>(
    inner: &Inner<'_, L, F, G>,
    room: u32,
    over: &Over,
    statements: &[CoreStmt],
    run: &mut Run,
    cells: &mut C,
) -> Result<Flow, Stop>
where
    L: Cells,
    C: Cells,
    F: Fn(&Setting<'_, L>, u32, &Core, &mut Run, &mut C) -> Result<Value, Stop>,
    G: Fn(&Setting<'_, L>, u32, &CoreStmt, &mut Run, &mut C) -> Result<Flow, Stop>,
    requires nests { Knot L.map C.map room (F.pre inner.now.eval) (F.post inner.now.eval) (G.pre inner.now.exec) (G.post inner.now.exec) }
    requires right { Can L.map inner.now.setting.now run.old (C.map cells.old) (means.for_numbers (means.inner inner.now.setting.now.program.now room) over.now statements.now) }
    ensures does { Does L.map inner.now.setting.now run.old (C.map cells.old) (means.for_numbers (means.inner inner.now.setting.now.program.now room) over.now statements.now) result run.new (C.map cells.new) }
{
    let numbers = span(inner, room, over, run, cells)?;
    counted(
        inner,
        room,
        numbers.count,
        numbers.first,
        statements,
        run,
        cells,
    )
}
