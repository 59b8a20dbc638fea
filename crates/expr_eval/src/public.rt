ghost use Rattle.std.specs.Prelude.{◌≡◌, Some, None, [], IfOk};
ghost use Rattle.core_means.specs.Asks.{IsRight};
ghost use Rattle.core_means.specs.Means as means;
ghost use Rattle.eval_places.specs.Runs.{Can, Does};
ghost use Rattle.core_means.specs.Public as public;
ghost use Rattle.value_calls.specs.Traps.{Answers};

use crate::inside::block_to;
use crate::knot::eval_to;
use crate::locals::lay_out;
use crate::vacant::Vacant;
use core_means::{Flow, Frame, Run};
use eval_places::{Setting, plain_local};
use eval_terms::code_of;
use identity_path::Cells;
use std::alloc::{AllocError, Global};
use sv_items::Items;
use sv_value::Value;
use swift_core::{Code, CodeForm, CodeId, Program};
use value_calls::Stop;

/// The units of fuel of a body, a block and a fold.
pub const FUEL: u32 = 1_000_000;

/// How many forms may be entered and not left.
pub const ROOM: u32 = 1_000;

/// A run at its beginning.
pub fn begin(alloc: Global, code: &Code, frame: &Frame) -> Result<Run, AllocError>
    ensures value { IfOk result (λ run. run ≡ record { fuel = 1000000; locals = public.laid code.now frame.now.locals; itself = None; nodes = 0; reads = [] }) }
{
    Ok(Run {
        fuel: FUEL,
        locals: lay_out(alloc, code, frame.locals.as_slice())?,
        itself: None,
        nodes: 0,
        reads: Items::new(alloc),
    })
}

#[tactic(auto, using(core_means::specs::Trees::under_then), unfolding(core_means::specs::Asks::under))]
fn given_by<L: Cells, C: Cells>(
    setting: &Setting<'_, L>,
    flow: Flow,
    run: &mut Run,
    cells: &mut C,
) -> Result<Value, Stop>
    requires right { Can L.map setting.now run.old (C.map cells.old) (public.given_by flow) }
    ensures does { Does L.map setting.now run.old (C.map cells.old) (public.given_by flow) result run.new (C.map cells.new) }
{
    match flow {
        Flow::Returned(Some(value)) => Ok(value),
        Flow::Returned(None) => plain_local(setting, 0, run, cells),
        Flow::Next => plain_local(setting, 0, run, cells),
        Flow::Broke => unreachable!(),
        Flow::Continued => unreachable!(),
    }
}

#[tactic(auto, using(core_means::specs::Trees::under_then), unfolding(core_means::specs::Asks::under, core_means::specs::Public::value_of_code))]
fn value_of_code<L: Cells, C: Cells>(
    setting: &Setting<'_, L>,
    code: &Code,
    run: &mut Run,
    cells: &mut C,
) -> Result<Value, Stop>
    requires right { Can L.map setting.now run.old (C.map cells.old) (public.value_of_code (means.inner setting.now.program.now 1000) code.now) }
    ensures does { Does L.map setting.now run.old (C.map cells.old) (public.value_of_code (means.inner setting.now.program.now 1000) code.now) result run.new (C.map cells.new) }
{
    match &code.form {
        CodeForm::Value(term) => eval_to(setting, ROOM, term, run, cells),
        CodeForm::Statements(statements) => {
            let flow = block_to(setting, ROOM, statements.as_slice(), run, cells)?;
            given_by(setting, flow, run, cells)
        }
        CodeForm::Builder(_) => unreachable!(),
    }
}

#[tactic(auto, using(core_means::specs::Trees::under_then), unfolding(core_means::specs::Asks::under, core_means::specs::Public::action_of_code))]
fn action_of_code<L: Cells, C: Cells>(
    setting: &Setting<'_, L>,
    code: &Code,
    run: &mut Run,
    cells: &mut C,
) -> Result<(), Stop>
    requires right { Can L.map setting.now run.old (C.map cells.old) (public.action_of_code (means.inner setting.now.program.now 1000) code.now) }
    ensures does { Does L.map setting.now run.old (C.map cells.old) (public.action_of_code (means.inner setting.now.program.now 1000) code.now) result run.new (C.map cells.new) }
{
    match &code.form {
        CodeForm::Statements(statements) => {
            let flow = block_to(setting, ROOM, statements.as_slice(), run, cells)?;
            match flow {
                Flow::Next => Ok(()),
                Flow::Returned(None) => Ok(()),
                Flow::Returned(Some(_)) => unreachable!(),
                Flow::Broke => unreachable!(),
                Flow::Continued => unreachable!(),
            }
        }
        CodeForm::Value(_) => unreachable!(),
        CodeForm::Builder(_) => unreachable!(),
    }
}

fn eval_code<C: Cells>(
    alloc: Global,
    program: &Program,
    code: &Code,
    frame: &Frame,
    cells: &C,
) -> Result<Value, Stop>
    requires right { IsRight (public.evaluated program.now frame.now (C.map cells.now) (Some code.now)) }
    ensures value { Answers result (public.result_of (public.evaluated program.now frame.now (C.map cells.now) (Some code.now))) }
{
    let mut run = begin(alloc, code, frame)?;
    let setting = Setting {
        alloc,
        program,
        frame,
        held: cells,
        is_block: false,
    };
    let mut vacant = Vacant {};
    value_of_code(&setting, code, &mut run, &mut vacant)
}

/// The value of a piece of code of the program, with its own 1,000,000 units of fuel and 1,000 forms. The code of a `reduce`
/// gives the last value of its `inout` parameter. Trap as the meaning has it, and no other.
#[tactic(auto, unfolding(core_means::specs::Public::Evaluates))]
pub fn eval<C: Cells>(
    alloc: Global,
    program: &Program,
    code: CodeId,
    frame: &Frame,
    cells: &C,
) -> Result<Value, Stop>
    requires right { IsRight (public.Evaluates program.now code.number frame.now (C.map cells.now)) }
    ensures value { Answers result (public.result_of (public.Evaluates program.now code.number frame.now (C.map cells.now))) }
{
    match code_of(program, code) {
        Some(code) => eval_code(alloc, program, code, frame, cells),
        None => unreachable!(),
    }
}

#[tactic(auto, using(crate::proofs::Ends::leaves_cells))]
fn exec_code<C: Cells>(
    alloc: Global,
    program: &Program,
    code: &Code,
    frame: &Frame,
    cells: &mut C,
) -> Result<(), Stop>
    requires right { IsRight (public.executed program.now frame.now (C.map cells.old) (Some code.now)) }
    ensures answer { Answers result (public.result_of (public.executed program.now frame.now (C.map cells.old) (Some code.now))) }
    ensures cells { public.UnlessOutOfMemory result (public.cells_of (public.executed program.now frame.now (C.map cells.old) (Some code.now)) ≡ Some (C.map cells.new)) }
{
    let mut run = begin(alloc, code, frame)?;
    let vacant = Vacant {};
    let setting = Setting {
        alloc,
        program,
        frame,
        held: &vacant,
        is_block: true,
    };
    action_of_code(&setting, code, &mut run, cells)
}

/// Runs an action block of the program. The cells then hold all that it wrote, also where it trapped.
#[tactic(auto, unfolding(core_means::specs::Public::Executes))]
pub fn exec<C: Cells>(
    alloc: Global,
    program: &Program,
    code: CodeId,
    frame: &Frame,
    cells: &mut C,
) -> Result<(), Stop>
    requires right { IsRight (public.Executes program.now code.number frame.now (C.map cells.old)) }
    ensures answer { Answers result (public.result_of (public.Executes program.now code.number frame.now (C.map cells.old))) }
    ensures cells { public.UnlessOutOfMemory result (public.cells_of (public.Executes program.now code.number frame.now (C.map cells.old)) ≡ Some (C.map cells.new)) }
{
    match code_of(program, code) {
        Some(code) => exec_code(alloc, program, code, frame, cells),
        None => unreachable!(),
    }
}
