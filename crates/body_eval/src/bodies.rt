ghost use Rattle.std.specs.Prelude.{◌≡◌, ◌+◌, ◌++◌, [], Some, None, IfOk, OnOk, slice_set};
ghost use Rattle.core_means.specs.Asks.{IsRight, under};
ghost use Rattle.core_means.specs.Public as public;
ghost use Rattle.core_means.specs.Sources.{seen};
ghost use Rattle.eval_places.specs.Runs.{Can, Does};
ghost use Rattle.value_calls.specs.Traps.{Answers};
ghost use Rattle.body_means.specs.Bodies.{Describes, asked_by, body_locals, outcome_of, parameters, root_views, with_captured};

use crate::knot::item_to;
use body_parts::{Builder, views};
use body_views::items_of;
use core_means::{Frame, Local, Reads, Run};
use eval_places::Setting;
use eval_terms::code_of;
use expr_eval::{FUEL, ROOM, Vacant};
use identity_path::Cells;
use std::alloc::{AllocError, Global};
use std::sync::ledger::Ledger;
use sv_items::Items;
use sv_meter::Steps;
use swift_core::{Code, CodeId, CoreItem, Program, UnitId};
use value_calls::Stop;
use view_nodes::Desc;

// So many locals that hold nothing.
#[tactic(auto, using(crate::proofs::Locals::absent_more, crate::proofs::Locals::absent_none))]
fn absent(alloc: Global, count: usize) -> Result<Items<Local>, AllocError>
    ensures { IfOk result (λ locals. locals ≡ public.absent count) }
{
    let mut locals = Items::new(alloc);
    let mut left = count;
    while left > 0 {
        locals.push(Local::Absent)?;
        left -= 1;
    }
    Ok(locals)
}

// The local at this place is captured, if there is one.
#[tactic(auto, using(std::proofs::lemmas::List::set_past))]
fn capture(locals: &mut Items<Local>, place: usize, number: usize)
    ensures { locals.new ≡ slice_set locals.old place (Local.Captured number) }
{
    if place < locals.len() {
        locals.set(place, Local::Captured(number));
    }
}

// Those locals that a reader's closure uses are captured, in the order in which it keeps them.
#[tactic(auto, using(crate::proofs::Turns::captures_turn, crate::proofs::Turns::captures_end))]
fn capture_all(locals: &mut Items<Local>, kept: &[usize])
    ensures { locals.new ≡ with_captured locals.old 0 kept.now }
{
    for (number, place) in kept.iter().enumerate() {
        capture(locals, *place, number);
    }
}

// The parameter of a reader's closure is the preference.
fn add_parameters(locals: &mut Items<Local>, count: usize) -> Result<(), AllocError>
    ensures { OnOk result (locals.new ≡ locals.old ++ parameters count) }
{
    let mut left = count;
    while left > 0 {
        locals.push(Local::Preference)?;
        left -= 1;
    }
    Ok(())
}

// What a body begins with: locals that hold nothing.
fn begin(alloc: Global, code: &Code) -> Result<Run, AllocError>
    ensures { IfOk result (λ run. run ≡ record { fuel = 1000000; locals = body_locals code.now; itself = None; nodes = 0; reads = [] }) }
{
    let mut locals = absent(alloc, code.outer)?;
    capture_all(&mut locals, code.kept.as_slice());
    add_parameters(&mut locals, code.parameters)?;
    Ok(Run {
        fuel: FUEL,
        locals,
        itself: None,
        nodes: 0,
        reads: Items::new(alloc),
    })
}

// The root views of a unit.
fn roots<L: Cells, C: Cells>(
    setting: &Setting<'_, L>,
    unit: UnitId,
    items: &[CoreItem],
    run: &mut Run,
    cells: &mut C,
) -> Result<Desc, Stop>
    requires right { Can L.map setting.now run.old (C.map cells.old) (root_views setting.now.program.now unit.number items.now) }
    ensures does { Does L.map setting.now run.old (C.map cells.old) (root_views setting.now.program.now unit.number items.now) result run.new (C.map cells.new) }
{
    let builder = Builder {
        setting,
        room: ROOM,
        code: unit.number,
        item: item_to,
    };
    let done = Items::new(setting.alloc);
    views(&builder, unit.number, done, items, run, cells)
}

// The description of a unit by its code.
#[tactic(auto, using(eval_places::proofs::Right::right_found, crate::proofs::Ends::answers_stop), unfolding(core_means::specs::Asks::under))]
fn described<C: Cells>(
    alloc: Global,
    program: &Program,
    unit: UnitId,
    code: &Code,
    frame: &Frame,
    cells: &C,
) -> Result<(Desc, Reads), Stop>
    requires right { IsRight (under (seen frame.now (C.map cells.now)) [] (asked_by program.now unit.number frame.now.path (Some code.now))) }
    ensures value { Answers result (outcome_of (under (seen frame.now (C.map cells.now)) [] (asked_by program.now unit.number frame.now.path (Some code.now)))) }
{
    let mut run = begin(alloc, code)?;
    let setting = Setting {
        alloc,
        program,
        frame,
        held: cells,
        is_block: false,
    };
    let mut vacant = Vacant {};
    let items = items_of(code).as_slice();
    let made = roots(&setting, unit, items, &mut run, &mut vacant)?;
    let Run { reads, .. } = run;
    Ok((made, reads))
}

#[tactic(auto, unfolding(core_means::specs::Asks::under, body_means::specs::Bodies::Describes, body_means::specs::Bodies::Body))]
fn describe<C: Cells>(
    alloc: Global,
    program: &Program,
    unit: UnitId,
    frame: &Frame,
    cells: &C,
) -> Result<(Desc, Reads), Stop>
    requires right { IsRight (Describes program.now unit.number frame.now (C.map cells.now)) }
    ensures value { Answers result (outcome_of (Describes program.now unit.number frame.now (C.map cells.now))) }
{
    let id = CodeId {
        number: unit.number,
    };
    match code_of(program, id) {
        Some(code) => described(alloc, program, unit, code, frame, cells),
        None => unreachable!(),
    }
}

/// The description of a unit (the app, a custom view or a preference reader) and what its body looked up, each source once, in
/// the order of the first look-up. Trap as the meaning has it, and no other. One tick for each call, also at a refusal.
///
/// The frame's path is that of the unit's view; its locals are, for a reader, the captured locals and then the preference, and
/// else none.
pub fn run_body<C: Cells, B: Ledger>(
    alloc: Global,
    program: &Program,
    unit: UnitId,
    frame: &Frame,
    cells: &C,
    bodies: &mut Steps<B>,
) -> Result<(Desc, Reads), Stop>
    requires right { IsRight (Describes program.now unit.number frame.now (C.map cells.now)) }
    ensures value { Answers result (outcome_of (Describes program.now unit.number frame.now (C.map cells.now))) }
    ensures tick { bodies.new ≡ bodies.old + 1 }
{
    bodies.tick();
    describe(alloc, program, unit, frame, cells)
}
