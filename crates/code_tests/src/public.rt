ghost use Rattle.std.specs.Prelude.{◌↔◌, ◌≤◌, IsTrue, length, map};
ghost use Rattle.swift_core.specs.Context.{local_of};
ghost use Rattle.world_fits.specs.Runs.{EvalFits, ExecFits};
ghost use Rattle.body_rights.specs.Runs.{BodyFits};
ghost use Rattle.frame_tests.specs.Demands.{SomeTypes};
ghost use Rattle.code_tests.specs.CodeFits.{CodeFits};
ghost use Rattle.code_tests.specs.Homes.{view_in};
ghost use Rattle.code_tests.specs.Parts.{BlockFits, PropertyFits};

use crate::codes::{
    Home, is_builder, is_statements, property_home, value_home, view_in, views_home,
};
use core_means::Frame;
use frame_tests::frame_fits;
use identity_path::Cells;
use swift_core::{Code, CodeId, Program, UnitId};

/// Whether the frame and the cells have what this code says.
#[tactic(auto, using(crate::proofs::Tests::known, crate::proofs::Tests::few_keys))]
fn fits<C: Cells>(program: &Program, code: &Code, home: Home, frame: &Frame, cells: &C) -> bool
    ensures value { IsTrue result ↔ SomeTypes program.now.table (C.map cells.now) (view_in home) frame.now (map local_of code.now.types) }
{
    program.rules();
    frame_fits(
        program.table(),
        view_in(home),
        code.types.as_slice(),
        frame,
        cells,
    )
}

/// Whether a piece of code may be evaluated, or an action block run, in this frame over these cells. It takes no memory.
#[tactic(auto, using(crate::proofs::Tests::code_value, crate::proofs::Tests::code_action))]
pub fn eval_fits<C: Cells>(program: &Program, code: CodeId, frame: &Frame, cells: &C) -> bool
    ensures value { IsTrue result ↔ CodeFits program.now code.number frame.now (C.map cells.now) }
{
    if code.number < program.members().len() {
        value_fits(program, code, frame, cells)
    } else {
        action_fits(program, code, frame, cells)
    }
}

/// Whether a piece of code gives a value and may be evaluated.
#[tactic(auto, using(crate::proofs::Tests::no_code, crate::proofs::Tests::writes))]
fn value_fits<C: Cells>(program: &Program, id: CodeId, frame: &Frame, cells: &C) -> bool
    ensures value { IsTrue result ↔ EvalFits program.now id.number frame.now (C.map cells.now) }
{
    program.rules();
    let Some(code) = program.code(id) else {
        return false;
    };
    if program.writes(id) {
        return false;
    }
    match value_home(program.table(), id.number) {
        Some(home) => fits(program, code, home, frame, cells),
        None => false,
    }
}

/// Whether a piece of code past those of the members is an action block that may be run.
#[tactic(auto, using(crate::proofs::Tests::no_action_code))]
fn action_fits<C: Cells>(program: &Program, id: CodeId, frame: &Frame, cells: &C) -> bool
    requires past { length program.now.members ≤ id.number }
    ensures value { IsTrue result ↔ ExecFits program.now id.number frame.now (C.map cells.now) }
{
    program.rules();
    let Some(code) = program.code(id) else {
        return false;
    };
    if !is_statements(&code.form) {
        return false;
    }
    block_fits(program, id, code, frame, cells)
}

/// Whether a piece of code is of a member that gives views, and the frame and the cells have what it says.
#[tactic(auto, using(crate::proofs::Tests::no_member, crate::proofs::Tests::no_views))]
fn block_fits<C: Cells>(
    program: &Program,
    id: CodeId,
    code: &Code,
    frame: &Frame,
    cells: &C,
) -> bool
    ensures value { IsTrue result ↔ BlockFits program.now id.number code.now frame.now (C.map cells.now) }
{
    let Some(member) = program.member(id) else {
        return false;
    };
    match views_home(program.table(), member) {
        Some(home) => fits(program, code, home, frame, cells),
        None => false,
    }
}

/// Whether a body may be run in this frame over these cells. It takes no memory.
#[tactic(auto, using(crate::proofs::Tests::no_body_code))]
pub fn body_fits<C: Cells>(program: &Program, unit: UnitId, frame: &Frame, cells: &C) -> bool
    ensures value { IsTrue result ↔ BodyFits program.now unit.number frame.now (C.map cells.now) }
{
    program.rules();
    let id = CodeId {
        number: unit.number,
    };
    let Some(code) = program.code(id) else {
        return false;
    };
    if unit.number < program.members().len() {
        return property_fits(program, unit.number, code, frame, cells);
    }
    if !is_builder(&code.form) {
        return false;
    }
    block_fits(program, id, code, frame, cells)
}

/// Whether a piece of code is that of a property that gives views, and the frame and the cells have what it says.
#[tactic(auto, using(crate::proofs::Tests::no_property))]
fn property_fits<C: Cells>(
    program: &Program,
    number: usize,
    code: &Code,
    frame: &Frame,
    cells: &C,
) -> bool
    ensures value { IsTrue result ↔ PropertyFits program.now number code.now frame.now (C.map cells.now) }
{
    match property_home(program.table(), number) {
        Some(home) => fits(program, code, home, frame, cells),
        None => false,
    }
}
