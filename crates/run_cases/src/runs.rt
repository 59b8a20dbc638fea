// The programs of the tables, and the frames and cells that their code runs in.
ghost use Rattle.std.specs.Prelude.{◌≡◌, ◌<◌};

use crate::shown::{told, told_block, told_body};
use checked_runs::{describe, evaluate, execute};
use core_means::{Frame, Reads};
use environment::EnvMap;
use identity_path::{Input, Inputs, Path};
use state_store::State;
use std::alloc::{AllocError, Global};
use std::marker::Brand;
use std::sync::ledger::{Blank, Ledger};
use sv_items::Items;
use sv_meter::Steps;
use sv_value::{Value, Values};
use swift_core::{CodeId, Program, UnitId};
use value_calls::Stop;
use view_check::check;
use view_nodes::Desc;

// The parts of a text in a row.
fn joined(alloc: Global, parts: &[&str]) -> Result<String, AllocError> {
    let mut text = String::new(alloc);
    for part in parts {
        text.push_str(*part)?;
    }
    Ok(text)
}

// The program that a text spells, if it spells one.
fn program_of(alloc: Global, text: &str) -> Option<Program> {
    let bytes = text.as_bytes();
    if bytes.len() > 1_048_576 {
        return None;
    }
    check(alloc, bytes).ok()
}

// The code of the member with this name.
fn code_named(program: &Program, declaration: usize, name: &[u8]) -> Option<CodeId> {
    let declaration = program.table().declarations.get(declaration)?;
    for member in declaration.members.as_slice() {
        if member.name.is(name) {
            return Some(member.code);
        }
    }
    None
}

// What a slot or a parameter is given.
#[derive(Clone, Copy)]
pub enum Given {
    Number(i64),
    Truth(bool),
    Nothing,
}

// A list of what is given.
fn values_of(alloc: Global, given: Given) -> Result<Values, AllocError> {
    let mut values = Items::new(alloc);
    match given {
        Given::Number(number) => values.push(Value::Int(number))?,
        Given::Truth(truth) => values.push(Value::Bool(truth))?,
        Given::Nothing => (),
    }
    Ok(values)
}

// The environment in which the built-in key is true, and the declared one, if there is one, is 5.
fn environment(alloc: Global) -> Result<EnvMap, AllocError> {
    let mut keys = Items::new(alloc);
    keys.push(Value::Bool(true))?;
    keys.push(Value::Int(5))?;
    Ok(EnvMap::new(keys))
}

// A frame of the view at the root, which has no stored properties.
fn frame_with(alloc: Global, locals: Inputs) -> Result<Frame, AllocError> {
    let env = environment(alloc)?;
    Ok(Frame {
        path: Path::root(alloc),
        inputs: Items::new(alloc),
        locals,
        env,
    })
}

// The cells of the view at the root.
fn cells_with(alloc: Global, slots: Values) -> Result<State, AllocError> {
    let root = Path::root(alloc);
    let mut cells = State::new(alloc);
    match cells.enter(root, slots) {
        Ok(()) => Ok(cells),
        Err(_) => Err(AllocError),
    }
}

// ---- terms

// The value of a piece of code of the first declaration that needs neither locals nor cells.
fn value_in(alloc: Global, program: &Program, name: &[u8]) -> Result<String, AllocError> {
    let frame = frame_with(alloc, Items::new(alloc))?;
    let cells = State::new(alloc);
    let answer = match code_named(program, 0, name) {
        Some(code) => evaluate(alloc, program, code, &frame, &cells),
        None => None,
    };
    told(alloc, answer)
}

// The value of the static `m` of the first declaration, as the tables spell it.
pub fn value_of(alloc: Global, parts: &[&str]) -> Result<String, AllocError> {
    let text = joined(alloc, parts)?;
    match program_of(alloc, text.as_str()) {
        Some(program) => {
            let told = value_in(alloc, &program, b"m");
            drop(program);
            told
        }
        None => String::from_str(alloc, "no program"),
    }
}

// ---- frames

// A view with one state slot, and a function that adds its parameter to the slot.
const ADDER: &str = "struct V: View { @State var n = 0
func m(_ k: Int) -> Int { n + k }
var body: some View { Button(\"a\") { n += 1 } } }
@main struct A: App { var body: some Scene { WindowGroup { V() } } }
";

// A list of what is given, as inputs.
fn locals_of(alloc: Global, given: Given) -> Result<Inputs, AllocError> {
    let mut locals = Items::new(alloc);
    match given {
        Given::Number(number) => locals.push(Input::Value(Value::Int(number)))?,
        Given::Truth(truth) => locals.push(Input::Value(Value::Bool(truth)))?,
        Given::Nothing => (),
    }
    Ok(locals)
}

fn sum_in(
    alloc: Global,
    program: &Program,
    slots: Values,
    locals: Inputs,
) -> Result<String, AllocError> {
    let cells = cells_with(alloc, slots)?;
    let frame = frame_with(alloc, locals)?;
    let answer = match code_named(program, 0, b"m") {
        Some(code) => evaluate(alloc, program, code, &frame, &cells),
        None => None,
    };
    told(alloc, answer)
}

// What the function answers where the slot and the parameter are given so.
pub fn sum_of(alloc: Global, slot: Given, local: Given) -> Result<String, AllocError> {
    let slots = values_of(alloc, slot)?;
    let locals = locals_of(alloc, local)?;
    match program_of(alloc, ADDER) {
        Some(program) => {
            let told = sum_in(alloc, &program, slots, locals);
            drop(program);
            told
        }
        None => String::from_str(alloc, "no program"),
    }
}

// ---- bodies

fn described<B: Ledger>(
    alloc: Global,
    program: &Program,
    unit: UnitId,
    slots: Values,
    blank: Blank,
) -> Result<Option<Result<(Desc, Reads), Stop>>, AllocError>
    requires name { blank.name ≡ B.name }
    requires parts { blank.parts ≡ B.parts }
    requires some { 0 < B.parts }
{
    let cells = cells_with(alloc, slots)?;
    let frame = frame_with(alloc, Items::new(alloc))?;
    let mut bodies = Steps::<B>::new(blank);
    Ok(describe(alloc, program, unit, &frame, &cells, &mut bodies))
}

// The one place that picks the ledger.
fn run_of(
    alloc: Global,
    program: &Program,
    unit: UnitId,
    slots: Values,
) -> Result<Option<Result<(Desc, Reads), Stop>>, AllocError> {
    described::<Brand>(alloc, program, unit, slots, Blank::new(1))
}

fn body_in(
    alloc: Global,
    program: &Program,
    declaration: usize,
    slots: Values,
) -> Result<String, AllocError> {
    match code_named(program, declaration, b"body") {
        Some(code) => {
            let unit = UnitId {
                number: code.number,
            };
            told_body(alloc, run_of(alloc, program, unit, slots)?)
        }
        None => String::from_str(alloc, "no body"),
    }
}

// The description of the body of this declaration and what it looked up, where the state slots have these values.
pub fn body_of(
    alloc: Global,
    parts: &[&str],
    declaration: usize,
    slots: Values,
) -> Result<String, AllocError> {
    let text = joined(alloc, parts)?;
    match program_of(alloc, text.as_str()) {
        Some(program) => {
            let told = body_in(alloc, &program, declaration, slots);
            drop(program);
            told
        }
        None => String::from_str(alloc, "no program"),
    }
}

// ---- action blocks

fn run_block(
    alloc: Global,
    program: &Program,
    code: CodeId,
    slots: Values,
) -> Result<String, AllocError> {
    let mut cells = cells_with(alloc, slots)?;
    let frame = frame_with(alloc, Items::new(alloc))?;
    let root = Path::root(alloc);
    let answer = execute(alloc, program, code, &frame, &mut cells);
    told_block(alloc, answer, cells.cells(&root))
}

// How the run of the first block ends where the state slots have these values, and the values that they have then.
pub fn block_of(alloc: Global, parts: &[&str], slots: Values) -> Result<String, AllocError> {
    let text = joined(alloc, parts)?;
    match program_of(alloc, text.as_str()) {
        Some(program) => {
            let code = CodeId {
                number: program.members().len(),
            };
            let told = run_block(alloc, &program, code, slots);
            drop(program);
            told
        }
        None => String::from_str(alloc, "no program"),
    }
}
