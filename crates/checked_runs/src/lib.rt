//! The runs of a checked program's code, each behind the test that says whether it may be made.
#![tactic(auto)]

ghost use Rattle.std.specs.Prelude.{◌≡◌, ◌↔◌, ◌+◌, Some, IsTrue, IsSome, IfSome, IfNone, OnSome};
ghost use Rattle.core_means.specs.Public.{Evaluates, Executes, UnlessOutOfMemory, cells_of, result_of};
ghost use Rattle.value_calls.specs.Traps.{Answers};
ghost use Rattle.body_means.specs.Bodies.{Describes, outcome_of};
ghost use Rattle.body_rights.specs.Runs.{BodyFits};
ghost use Rattle.checked_runs.specs.Runs.{MayEvaluate, MayExecute};

use body_eval::run_body;
use body_rights::bodies_are_right;
use code_tests::{body_fits, eval_fits};
use core_means::{Frame, Reads};
use expr_eval::{eval, exec};
use identity_path::Cells;
use meaning_rights::{actions_are_right, evaluations_are_right};
use std::alloc::Global;
use std::sync::ledger::Ledger;
use sv_meter::Steps;
use sv_value::Value;
use swift_core::{CodeId, Program, UnitId};
use value_calls::Stop;
use view_nodes::Desc;

/// Whether the code of a member may be evaluated in this frame over these cells.
#[tactic(auto, using(crate::proofs::Tested::member_tested, crate::proofs::Tested::no_member))]
fn may_evaluate<C: Cells>(program: &Program, code: CodeId, frame: &Frame, cells: &C) -> bool
    ensures value { IsTrue result ↔ MayEvaluate program.now code.number frame.now (C.map cells.now) }
{
    code.number < program.members().len() && eval_fits(program, code, frame, cells)
}

/// Whether a block may be run as an action in this frame over these cells.
#[tactic(auto, using(crate::proofs::Tested::block_tested, crate::proofs::Tested::no_block))]
fn may_execute<C: Cells>(program: &Program, code: CodeId, frame: &Frame, cells: &C) -> bool
    ensures value { IsTrue result ↔ MayExecute program.now code.number frame.now (C.map cells.now) }
{
    program.members().len() <= code.number && eval_fits(program, code, frame, cells)
}

/// The value of a piece of code of a member, as `eval` gives it, or its trap. None exactly where it may not be evaluated in
/// this frame over these cells, or the number is not that of a member.
pub fn evaluate<C: Cells>(
    alloc: Global,
    program: &Program,
    code: CodeId,
    frame: &Frame,
    cells: &C,
) -> Option<Result<Value, Stop>>
    ensures runs { IsSome result ↔ MayEvaluate program.now code.number frame.now (C.map cells.now) }
    ensures value { IfSome result (λ answer. Answers answer (result_of (Evaluates program.now code.number frame.now (C.map cells.now)))) }
{
    program.rules();
    evaluations_are_right();
    if may_evaluate(program, code, frame, cells) {
        Some(eval(alloc, program, code, frame, cells))
    } else {
        None
    }
}

/// Runs an action block, as `exec` does. The cells then hold all that it wrote, also where it trapped. None exactly where it
/// may not be run in this frame over these cells, or the number is not that of a block; then nothing changes.
pub fn execute<C: Cells>(
    alloc: Global,
    program: &Program,
    code: CodeId,
    frame: &Frame,
    cells: &mut C,
) -> Option<Result<(), Stop>>
    ensures runs { IsSome result ↔ MayExecute program.now code.number frame.now (C.map cells.old) }
    ensures answer { IfSome result (λ answer. Answers answer (result_of (Executes program.now code.number frame.now (C.map cells.old)))) }
    ensures cells { IfSome result (λ answer. UnlessOutOfMemory answer (cells_of (Executes program.now code.number frame.now (C.map cells.old)) ≡ Some (C.map cells.new))) }
    ensures refused { IfNone result (C.map cells.new ≡ C.map cells.old) }
{
    program.rules();
    actions_are_right();
    if may_execute(program, code, frame, &*cells) {
        Some(exec(alloc, program, code, frame, cells))
    } else {
        None
    }
}

/// The description of a unit and what its body looked up, as `run_body` gives them, or its trap. None exactly where the body
/// may not be run in this frame over these cells. One tick for each body that is run.
pub fn describe<C: Cells, B: Ledger>(
    alloc: Global,
    program: &Program,
    unit: UnitId,
    frame: &Frame,
    cells: &C,
    bodies: &mut Steps<B>,
) -> Option<Result<(Desc, Reads), Stop>>
    ensures runs { IsSome result ↔ BodyFits program.now unit.number frame.now (C.map cells.now) }
    ensures value { IfSome result (λ answer. Answers answer (outcome_of (Describes program.now unit.number frame.now (C.map cells.now)))) }
    ensures tick { OnSome result (bodies.new ≡ bodies.old + 1) }
    ensures refused { IfNone result (bodies.new ≡ bodies.old) }
{
    program.rules();
    bodies_are_right();
    if body_fits(program, unit, frame, cells) {
        Some(run_body(alloc, program, unit, frame, cells, bodies))
    } else {
        None
    }
}
