ghost use Rattle.std.specs.Prelude.{◌≡◌, [], ◌∷◌, ◌++◌, take, Some, OnOk};
ghost use Rattle.core_means.specs.Means as means;
ghost use Rattle.eval_places.specs.Runs.{Can, Does};
ghost use Rattle.eval_terms.specs.Nests.{Knot};

use core_means::{Flow, Local, Run, Spot};
use eval_places::{Setting, read_spot, spot_of, write_spot};
use eval_terms::{Inner, block, hops, opened, tested};
use identity_path::{Cells, Input};
use std::alloc::AllocError;
use sv_items::Items;
use sv_value::{Value, Values};
use swift_core::{Condition, Core, CoreStmt, StmtArm, StmtCase, Target};
use value_calls::{Operator, Stop, is_same};

// Ends the locals after the first so many.
pub fn cut(locals: &mut Items<Local>, count: usize)
    ensures { locals.new ≡ take count locals.old }
{
    while locals.len() > count {
        let _last = locals.pop();
    }
}

/// The value as the next local.
pub fn push(run: &mut Run, value: Value) -> Result<(), AllocError>
    ensures { OnOk result (run.new ≡ record run.old { locals = run.old.locals ++ Local.Holds (Input.Value value) ∷ [] }) }
{
    run.locals.push(Local::Holds(Input::Value(value)))
}

// Whether the optional is filled. Its value is the next local then.
#[tactic(auto, using(core_means::specs::Trees::under_then, eval_places::proofs::Right::right_given, eval_places::proofs::Right::right_answered, eval_places::proofs::Right::right_found), unfolding(core_means::specs::Asks::under, core_means::specs::Means::bound_to))]
fn bound<L, C, F, G>(
    inner: &Inner<'_, L, F, G>,
    room: u32,
    term: &Core,
    run: &mut Run,
    cells: &mut C,
) -> Result<bool, Stop>
where
    L: Cells,
    C: Cells,
    F: Fn(&Setting<'_, L>, u32, &Core, &mut Run, &mut C) -> Result<Value, Stop>,
    G: Fn(&Setting<'_, L>, u32, &CoreStmt, &mut Run, &mut C) -> Result<Flow, Stop>,
    requires nests { Knot L.map C.map room (F.pre inner.now.eval) (F.post inner.now.eval) (G.pre inner.now.exec) (G.post inner.now.exec) }
    requires right { Can L.map inner.now.setting.now run.old (C.map cells.old) (means.bound_to (means.inner inner.now.setting.now.program.now room) term.now) }
    ensures does { Does L.map inner.now.setting.now run.old (C.map cells.old) (means.bound_to (means.inner inner.now.setting.now.program.now room) term.now) result run.new (C.map cells.new) }
{
    match opened(inner, room, term, run, cells)? {
        Some(value) => {
            push(run, value)?;
            Ok(true)
        }
        None => Ok(false),
    }
}

#[tactic(auto, using(core_means::specs::Trees::under_then, eval_places::proofs::Right::right_given, eval_places::proofs::Right::right_answered, eval_places::proofs::Right::right_found), unfolding(core_means::specs::Asks::under, core_means::specs::Means::condition_of))]
fn condition<L, C, F, G>(
    inner: &Inner<'_, L, F, G>,
    room: u32,
    condition: &Condition,
    run: &mut Run,
    cells: &mut C,
) -> Result<bool, Stop>
where
    L: Cells,
    C: Cells,
    F: Fn(&Setting<'_, L>, u32, &Core, &mut Run, &mut C) -> Result<Value, Stop>,
    G: Fn(&Setting<'_, L>, u32, &CoreStmt, &mut Run, &mut C) -> Result<Flow, Stop>,
    requires nests { Knot L.map C.map room (F.pre inner.now.eval) (F.post inner.now.eval) (G.pre inner.now.exec) (G.post inner.now.exec) }
    requires right { Can L.map inner.now.setting.now run.old (C.map cells.old) (means.condition_of (means.inner inner.now.setting.now.program.now room) condition.now) }
    ensures does { Does L.map inner.now.setting.now run.old (C.map cells.old) (means.condition_of (means.inner inner.now.setting.now.program.now room) condition.now) result run.new (C.map cells.new) }
{
    match condition {
        Condition::Test(term) => tested(inner, room, term, run, cells),
        Condition::Bind(term) => bound(inner, room, term, run, cells),
    }
}

/// Whether the conditions hold, from left to right up to the first that does not.
#[tactic(auto, using(core_means::specs::Trees::under_then, eval_places::proofs::Right::right_given, eval_places::proofs::Right::right_answered, eval_places::proofs::Right::right_found), unfolding(core_means::specs::Asks::under, core_means::specs::Means::conditions))]
pub fn conditions<L, C, F, G>(
    inner: &Inner<'_, L, F, G>,
    room: u32,
    mut rest: &[Condition],
    run: &mut Run,
    cells: &mut C,
) -> Result<bool, Stop>
where
    L: Cells,
    C: Cells,
    F: Fn(&Setting<'_, L>, u32, &Core, &mut Run, &mut C) -> Result<Value, Stop>,
    G: Fn(&Setting<'_, L>, u32, &CoreStmt, &mut Run, &mut C) -> Result<Flow, Stop>,
    requires nests { Knot L.map C.map room (F.pre inner.now.eval) (F.post inner.now.eval) (G.pre inner.now.exec) (G.post inner.now.exec) }
    requires right { Can L.map inner.now.setting.now run.old (C.map cells.old) (means.conditions (means.inner inner.now.setting.now.program.now room) rest.now) }
    ensures does { Does L.map inner.now.setting.now run.old (C.map cells.old) (means.conditions (means.inner inner.now.setting.now.program.now room) rest.entry.now) result run.new (C.map cells.new) }
{
    while let [first, more @ ..] = rest {
        let holds = condition(inner, room, first, run, cells)?;
        if holds {
            rest = more;
        } else {
            return Ok(false);
        }
    }
    Ok(true)
}

// Statements whose locals end with them.
#[tactic(auto, using(core_means::specs::Trees::under_then, eval_places::proofs::Right::right_given, eval_places::proofs::Right::right_answered, eval_places::proofs::Right::right_found), unfolding(core_means::specs::Asks::under, core_means::specs::Means::scoped, core_means::specs::Means::framed))]
fn scoped<L, C, F, G>(
    inner: &Inner<'_, L, F, G>,
    room: u32,
    statements: &[CoreStmt],
    run: &mut Run,
    cells: &mut C,
) -> Result<Flow, Stop>
where
    L: Cells,
    C: Cells,
    F: Fn(&Setting<'_, L>, u32, &Core, &mut Run, &mut C) -> Result<Value, Stop>,
    G: Fn(&Setting<'_, L>, u32, &CoreStmt, &mut Run, &mut C) -> Result<Flow, Stop>,
    requires nests { Knot L.map C.map room (F.pre inner.now.eval) (F.post inner.now.eval) (G.pre inner.now.exec) (G.post inner.now.exec) }
    requires right { Can L.map inner.now.setting.now run.old (C.map cells.old) (means.scoped (means.inner inner.now.setting.now.program.now room) statements.now) }
    ensures does { Does L.map inner.now.setting.now run.old (C.map cells.old) (means.scoped (means.inner inner.now.setting.now.program.now room) statements.now) result run.new (C.map cells.new) }
{
    let count = run.locals.len();
    let flow = block(inner, room, statements, run, cells)?;
    cut(&mut run.locals, count);
    Ok(flow)
}

#[tactic(auto, using(core_means::specs::Trees::under_then, eval_places::proofs::Right::right_given, eval_places::proofs::Right::right_answered, eval_places::proofs::Right::right_found), unfolding(core_means::specs::Asks::under, core_means::specs::Means::guarded))]
fn guarded<L, C, F, G>(
    inner: &Inner<'_, L, F, G>,
    room: u32,
    all: &[Condition],
    statements: &[CoreStmt],
    run: &mut Run,
    cells: &mut C,
) -> Result<Option<Flow>, Stop>
where
    L: Cells,
    C: Cells,
    F: Fn(&Setting<'_, L>, u32, &Core, &mut Run, &mut C) -> Result<Value, Stop>,
    G: Fn(&Setting<'_, L>, u32, &CoreStmt, &mut Run, &mut C) -> Result<Flow, Stop>,
    requires nests { Knot L.map C.map room (F.pre inner.now.eval) (F.post inner.now.eval) (G.pre inner.now.exec) (G.post inner.now.exec) }
    requires right { Can L.map inner.now.setting.now run.old (C.map cells.old) (means.guarded (means.inner inner.now.setting.now.program.now room) all.now statements.now) }
    ensures does { Does L.map inner.now.setting.now run.old (C.map cells.old) (means.guarded (means.inner inner.now.setting.now.program.now room) all.now statements.now) result run.new (C.map cells.new) }
{
    if conditions(inner, room, all, run, cells)? {
        let flow = block(inner, room, statements, run, cells)?;
        Ok(Some(flow))
    } else {
        Ok(None)
    }
}

// The statements of an arm, if its conditions hold.
#[tactic(auto, using(core_means::specs::Trees::under_then, eval_places::proofs::Right::right_given, eval_places::proofs::Right::right_answered, eval_places::proofs::Right::right_found), unfolding(core_means::specs::Asks::under, core_means::specs::Means::arm, core_means::specs::Means::framed))]
fn arm<L, C, F, G>(
    inner: &Inner<'_, L, F, G>,
    room: u32,
    arm: &StmtArm,
    run: &mut Run,
    cells: &mut C,
) -> Result<Option<Flow>, Stop>
where
    L: Cells,
    C: Cells,
    F: Fn(&Setting<'_, L>, u32, &Core, &mut Run, &mut C) -> Result<Value, Stop>,
    G: Fn(&Setting<'_, L>, u32, &CoreStmt, &mut Run, &mut C) -> Result<Flow, Stop>,
    requires nests { Knot L.map C.map room (F.pre inner.now.eval) (F.post inner.now.eval) (G.pre inner.now.exec) (G.post inner.now.exec) }
    requires right { Can L.map inner.now.setting.now run.old (C.map cells.old) (means.arm (means.inner inner.now.setting.now.program.now room) arm.now) }
    ensures does { Does L.map inner.now.setting.now run.old (C.map cells.old) (means.arm (means.inner inner.now.setting.now.program.now room) arm.now) result run.new (C.map cells.new) }
{
    let count = run.locals.len();
    let ended = guarded(
        inner,
        room,
        arm.conditions.as_slice(),
        arm.body.as_slice(),
        run,
        cells,
    )?;
    cut(&mut run.locals, count);
    Ok(ended)
}

#[tactic(auto, using(core_means::specs::Trees::under_then, eval_places::proofs::Right::right_given, eval_places::proofs::Right::right_answered, eval_places::proofs::Right::right_found), unfolding(core_means::specs::Asks::under))]
fn last_arm<L, C, F, G>(
    inner: &Inner<'_, L, F, G>,
    room: u32,
    last: &Option<Items<CoreStmt>>,
    run: &mut Run,
    cells: &mut C,
) -> Result<Flow, Stop>
where
    L: Cells,
    C: Cells,
    F: Fn(&Setting<'_, L>, u32, &Core, &mut Run, &mut C) -> Result<Value, Stop>,
    G: Fn(&Setting<'_, L>, u32, &CoreStmt, &mut Run, &mut C) -> Result<Flow, Stop>,
    requires nests { Knot L.map C.map room (F.pre inner.now.eval) (F.post inner.now.eval) (G.pre inner.now.exec) (G.post inner.now.exec) }
    requires right { Can L.map inner.now.setting.now run.old (C.map cells.old) (means.last_arm (means.inner inner.now.setting.now.program.now room) last.now) }
    ensures does { Does L.map inner.now.setting.now run.old (C.map cells.old) (means.last_arm (means.inner inner.now.setting.now.program.now room) last.now) result run.new (C.map cells.new) }
{
    match last {
        Some(statements) => scoped(inner, room, statements.as_slice(), run, cells),
        None => Ok(Flow::Next),
    }
}

/// The first arm whose conditions hold, or the last one.
#[tactic(auto, using(core_means::specs::Trees::under_then, eval_places::proofs::Right::right_given, eval_places::proofs::Right::right_answered, eval_places::proofs::Right::right_found), unfolding(core_means::specs::Asks::under, core_means::specs::Means::arms))]
pub fn arms<L, C, F, G>(
    inner: &Inner<'_, L, F, G>,
    room: u32,
    mut rest: &[StmtArm],
    last: &Option<Items<CoreStmt>>,
    run: &mut Run,
    cells: &mut C,
) -> Result<Flow, Stop>
where
    L: Cells,
    C: Cells,
    F: Fn(&Setting<'_, L>, u32, &Core, &mut Run, &mut C) -> Result<Value, Stop>,
    G: Fn(&Setting<'_, L>, u32, &CoreStmt, &mut Run, &mut C) -> Result<Flow, Stop>,
    requires nests { Knot L.map C.map room (F.pre inner.now.eval) (F.post inner.now.eval) (G.pre inner.now.exec) (G.post inner.now.exec) }
    requires right { Can L.map inner.now.setting.now run.old (C.map cells.old) (means.arms (means.inner inner.now.setting.now.program.now room) rest.now last.now) }
    ensures does { Does L.map inner.now.setting.now run.old (C.map cells.old) (means.arms (means.inner inner.now.setting.now.program.now room) rest.entry.now last.now) result run.new (C.map cells.new) }
{
    while let [first, more @ ..] = rest {
        let ended = arm(inner, room, first, run, cells)?;
        match ended {
            Some(flow) => return Ok(flow),
            None => rest = more,
        }
    }
    last_arm(inner, room, last, run, cells)
}

fn has_pattern(value: &Value, patterns: &[Value]) -> bool
    ensures { result ≡ means.matches value.now (Some patterns.now) }
{
    patterns.iter().any(|pattern| is_same(value, pattern))
}

/// Whether a value is one of the patterns of a case. The case with none takes every value.
pub fn matches(value: &Value, patterns: &Option<Values>) -> bool
    ensures { result ≡ means.matches value.now patterns.now }
{
    match patterns {
        Some(patterns) => has_pattern(value, patterns.as_slice()),
        None => true,
    }
}

// The first case that the value matches.
#[tactic(auto, using(core_means::specs::Trees::under_then, eval_places::proofs::Right::right_given, eval_places::proofs::Right::right_answered, eval_places::proofs::Right::right_found), unfolding(core_means::specs::Asks::under, core_means::specs::Means::case_of))]
fn case<L, C, F, G>(
    inner: &Inner<'_, L, F, G>,
    room: u32,
    value: &Value,
    mut rest: &[StmtCase],
    run: &mut Run,
    cells: &mut C,
) -> Result<Flow, Stop>
where
    L: Cells,
    C: Cells,
    F: Fn(&Setting<'_, L>, u32, &Core, &mut Run, &mut C) -> Result<Value, Stop>,
    G: Fn(&Setting<'_, L>, u32, &CoreStmt, &mut Run, &mut C) -> Result<Flow, Stop>,
    requires nests { Knot L.map C.map room (F.pre inner.now.eval) (F.post inner.now.eval) (G.pre inner.now.exec) (G.post inner.now.exec) }
    requires right { Can L.map inner.now.setting.now run.old (C.map cells.old) (means.case_of (means.inner inner.now.setting.now.program.now room) value.now rest.now) }
    ensures does { Does L.map inner.now.setting.now run.old (C.map cells.old) (means.case_of (means.inner inner.now.setting.now.program.now room) value.now rest.entry.now) result run.new (C.map cells.new) }
{
    while let [first, more @ ..] = rest {
        let is_matched = matches(value, &first.patterns);
        if is_matched {
            return scoped(inner, room, first.body.as_slice(), run, cells);
        }
        rest = more;
    }
    unreachable!()
}

// A `break` among the cases ends the `switch` alone.
fn after_switch(flow: Flow) -> Flow
    ensures { result ≡ means.after_switch flow }
{
    match flow {
        Flow::Next => Flow::Next,
        Flow::Returned(value) => Flow::Returned(value),
        Flow::Broke => Flow::Next,
        Flow::Continued => Flow::Continued,
    }
}

/// `switch`
#[tactic(auto, using(core_means::specs::Trees::under_then, eval_places::proofs::Right::right_given, eval_places::proofs::Right::right_answered, eval_places::proofs::Right::right_found), unfolding(core_means::specs::Asks::under, core_means::specs::Means::selection))]
pub fn selection<L, C, F, G>(
    inner: &Inner<'_, L, F, G>,
    room: u32,
    term: &Core,
    cases: &[StmtCase],
    run: &mut Run,
    cells: &mut C,
) -> Result<Flow, Stop>
where
    L: Cells,
    C: Cells,
    F: Fn(&Setting<'_, L>, u32, &Core, &mut Run, &mut C) -> Result<Value, Stop>,
    G: Fn(&Setting<'_, L>, u32, &CoreStmt, &mut Run, &mut C) -> Result<Flow, Stop>,
    requires nests { Knot L.map C.map room (F.pre inner.now.eval) (F.post inner.now.eval) (G.pre inner.now.exec) (G.post inner.now.exec) }
    requires right { Can L.map inner.now.setting.now run.old (C.map cells.old) (means.selection (means.inner inner.now.setting.now.program.now room) term.now cases.now) }
    ensures does { Does L.map inner.now.setting.now run.old (C.map cells.old) (means.selection (means.inner inner.now.setting.now.program.now room) term.now cases.now) result run.new (C.map cells.new) }
{
    let value = eval_terms::eval(inner, room, term, run, cells)?;
    let flow = case(inner, room, &value, cases, run, cells)?;
    Ok(after_switch(flow))
}

/// `let` and `var`
#[tactic(auto, using(core_means::specs::Trees::under_then, eval_places::proofs::Right::right_given, eval_places::proofs::Right::right_answered, eval_places::proofs::Right::right_found), unfolding(core_means::specs::Asks::under, core_means::specs::Means::local_of))]
pub fn local<L, C, F, G>(
    inner: &Inner<'_, L, F, G>,
    room: u32,
    term: &Core,
    run: &mut Run,
    cells: &mut C,
) -> Result<Flow, Stop>
where
    L: Cells,
    C: Cells,
    F: Fn(&Setting<'_, L>, u32, &Core, &mut Run, &mut C) -> Result<Value, Stop>,
    G: Fn(&Setting<'_, L>, u32, &CoreStmt, &mut Run, &mut C) -> Result<Flow, Stop>,
    requires nests { Knot L.map C.map room (F.pre inner.now.eval) (F.post inner.now.eval) (G.pre inner.now.exec) (G.post inner.now.exec) }
    requires right { Can L.map inner.now.setting.now run.old (C.map cells.old) (means.local_of (means.inner inner.now.setting.now.program.now room) term.now) }
    ensures does { Does L.map inner.now.setting.now run.old (C.map cells.old) (means.local_of (means.inner inner.now.setting.now.program.now room) term.now) result run.new (C.map cells.new) }
{
    let value = eval_terms::eval(inner, room, term, run, cells)?;
    push(run, value)?;
    Ok(Flow::Next)
}

/// An assignment: the indexes of the target, then the right side, and then the write.
#[tactic(auto, using(core_means::specs::Trees::under_then, eval_places::proofs::Right::right_given, eval_places::proofs::Right::right_answered, eval_places::proofs::Right::right_found), unfolding(core_means::specs::Asks::under, core_means::specs::Means::assignment))]
pub fn assignment<L, C, F, G>(
    inner: &Inner<'_, L, F, G>,
    room: u32,
    target: &Target,
    term: &Core,
    run: &mut Run,
    cells: &mut C,
) -> Result<Flow, Stop>
where
    L: Cells,
    C: Cells,
    F: Fn(&Setting<'_, L>, u32, &Core, &mut Run, &mut C) -> Result<Value, Stop>,
    G: Fn(&Setting<'_, L>, u32, &CoreStmt, &mut Run, &mut C) -> Result<Flow, Stop>,
    requires nests { Knot L.map C.map room (F.pre inner.now.eval) (F.post inner.now.eval) (G.pre inner.now.exec) (G.post inner.now.exec) }
    requires right { Can L.map inner.now.setting.now run.old (C.map cells.old) (means.assignment (means.inner inner.now.setting.now.program.now room) target.now term.now) }
    ensures does { Does L.map inner.now.setting.now run.old (C.map cells.old) (means.assignment (means.inner inner.now.setting.now.program.now room) target.now term.now) result run.new (C.map cells.new) }
{
    let done = Items::new(inner.setting.alloc);
    let hops = hops(inner, room, done, target.hops.as_slice(), run, cells)?;
    let right = eval_terms::eval(inner, room, term, run, cells)?;
    let spot = spot_of(inner.setting, target.root, hops, run, cells)?;
    write_spot(inner.setting, &spot, right, run, cells)?;
    Ok(Flow::Next)
}

#[tactic(auto, using(core_means::specs::Trees::under_then, eval_places::proofs::Right::right_given, eval_places::proofs::Right::right_answered, eval_places::proofs::Right::right_found, eval_places::proofs::Right::right_answered_then), unfolding(core_means::specs::Asks::under, core_means::specs::Means::update_spot))]
fn update_spot<L, C, F, G>(
    inner: &Inner<'_, L, F, G>,
    room: u32,
    operator: Operator,
    spot: &Spot,
    value: Value,
    run: &mut Run,
    cells: &mut C,
) -> Result<Flow, Stop>
where
    L: Cells,
    C: Cells,
    F: Fn(&Setting<'_, L>, u32, &Core, &mut Run, &mut C) -> Result<Value, Stop>,
    G: Fn(&Setting<'_, L>, u32, &CoreStmt, &mut Run, &mut C) -> Result<Flow, Stop>,
    requires nests { Knot L.map C.map room (F.pre inner.now.eval) (F.post inner.now.eval) (G.pre inner.now.exec) (G.post inner.now.exec) }
    requires right { Can L.map inner.now.setting.now run.old (C.map cells.old) (means.update_spot (means.inner inner.now.setting.now.program.now room) operator spot.now value) }
    ensures does { Does L.map inner.now.setting.now run.old (C.map cells.old) (means.update_spot (means.inner inner.now.setting.now.program.now room) operator spot.now value) result run.new (C.map cells.new) }
{
    let old = read_spot(inner.setting, spot, run, cells)?;
    let new = value_calls::operate(operator, old, value)?;
    write_spot(inner.setting, spot, new, run, cells)?;
    Ok(Flow::Next)
}

/// A compound assignment.
#[tactic(auto, using(core_means::specs::Trees::under_then, eval_places::proofs::Right::right_given, eval_places::proofs::Right::right_answered, eval_places::proofs::Right::right_found), unfolding(core_means::specs::Asks::under, core_means::specs::Means::update))]
pub fn update<L, C, F, G>(
    inner: &Inner<'_, L, F, G>,
    room: u32,
    operator: Operator,
    target: &Target,
    term: &Core,
    run: &mut Run,
    cells: &mut C,
) -> Result<Flow, Stop>
where
    L: Cells,
    C: Cells,
    F: Fn(&Setting<'_, L>, u32, &Core, &mut Run, &mut C) -> Result<Value, Stop>,
    G: Fn(&Setting<'_, L>, u32, &CoreStmt, &mut Run, &mut C) -> Result<Flow, Stop>,
    requires nests { Knot L.map C.map room (F.pre inner.now.eval) (F.post inner.now.eval) (G.pre inner.now.exec) (G.post inner.now.exec) }
    requires right { Can L.map inner.now.setting.now run.old (C.map cells.old) (means.update (means.inner inner.now.setting.now.program.now room) operator target.now term.now) }
    ensures does { Does L.map inner.now.setting.now run.old (C.map cells.old) (means.update (means.inner inner.now.setting.now.program.now room) operator target.now term.now) result run.new (C.map cells.new) }
{
    let done = Items::new(inner.setting.alloc);
    let hops = hops(inner, room, done, target.hops.as_slice(), run, cells)?;
    let value = eval_terms::eval(inner, room, term, run, cells)?;
    let spot = spot_of(inner.setting, target.root, hops, run, cells)?;
    update_spot(inner, room, operator, &spot, value, run, cells)
}

/// `return`
#[tactic(auto, using(core_means::specs::Trees::under_then, eval_places::proofs::Right::right_given, eval_places::proofs::Right::right_answered, eval_places::proofs::Right::right_found), unfolding(core_means::specs::Asks::under, core_means::specs::Means::return_of))]
pub fn returned<L, C, F, G>(
    inner: &Inner<'_, L, F, G>,
    room: u32,
    term: &Option<Core>,
    run: &mut Run,
    cells: &mut C,
) -> Result<Flow, Stop>
where
    L: Cells,
    C: Cells,
    F: Fn(&Setting<'_, L>, u32, &Core, &mut Run, &mut C) -> Result<Value, Stop>,
    G: Fn(&Setting<'_, L>, u32, &CoreStmt, &mut Run, &mut C) -> Result<Flow, Stop>,
    requires nests { Knot L.map C.map room (F.pre inner.now.eval) (F.post inner.now.eval) (G.pre inner.now.exec) (G.post inner.now.exec) }
    requires right { Can L.map inner.now.setting.now run.old (C.map cells.old) (means.return_of (means.inner inner.now.setting.now.program.now room) term.now) }
    ensures does { Does L.map inner.now.setting.now run.old (C.map cells.old) (means.return_of (means.inner inner.now.setting.now.program.now room) term.now) result run.new (C.map cells.new) }
{
    match term {
        Some(term) => {
            let value = eval_terms::eval(inner, room, term, run, cells)?;
            Ok(Flow::Returned(Some(value)))
        }
        None => Ok(Flow::Returned(None)),
    }
}
