ghost use Rattle.core_means.specs.Asks as asks;
ghost use Rattle.core_means.specs.Means.{means, does};
ghost use Rattle.eval_places.specs.Runs.{Can, Does};
ghost use Rattle.eval_terms.specs.Nests.{Nests};

use core_means::{Flow, Run};
use eval_places::Setting;
use identity_path::Cells;
use sv_value::Value;
use swift_core::{Core, CoreStmt};
use value_calls::{Stop, TrapKind};

/// What does not change in a run, and what evaluates the forms inside a form: functions of the setting, of the number of
/// forms that may still be entered, and of the form.
#[derive(Drop)]
pub struct Inner<'s, L, F, G> {
    pub setting: &'s Setting<'s, L>,
    pub eval: F,
    pub exec: G,
}

/// The value of an expression inside the form, where `room` more forms may be entered.
pub fn eval<L, C, F, G>(
    inner: &Inner<'_, L, F, G>,
    room: u32,
    term: &Core,
    run: &mut Run,
    cells: &mut C,
) -> Result<Value, Stop>
where
    L: Cells,
    C: Cells,
    F: Fn(&Setting<'_, L>, u32, &Core, &mut Run, &mut C) -> Result<Value, Stop>,
    requires nests { Nests L.map C.map room means (F.pre inner.now.eval) (F.post inner.now.eval) }
    requires right { Can L.map inner.now.setting.now run.old (C.map cells.old) (means inner.now.setting.now.program.now room term.now) }
    ensures does { Does L.map inner.now.setting.now run.old (C.map cells.old) (means inner.now.setting.now.program.now room term.now) result run.new (C.map cells.new) }
{
    (inner.eval)(inner.setting, room, term, run, cells)
}

/// Runs a statement inside the form, where `room` more forms may be entered.
pub fn exec<L, C, F, G>(
    inner: &Inner<'_, L, F, G>,
    room: u32,
    statement: &CoreStmt,
    run: &mut Run,
    cells: &mut C,
) -> Result<Flow, Stop>
where
    L: Cells,
    C: Cells,
    G: Fn(&Setting<'_, L>, u32, &CoreStmt, &mut Run, &mut C) -> Result<Flow, Stop>,
    requires nests { Nests L.map C.map room does (G.pre inner.now.exec) (G.post inner.now.exec) }
    requires right { Can L.map inner.now.setting.now run.old (C.map cells.old) (does inner.now.setting.now.program.now room statement.now) }
    ensures does { Does L.map inner.now.setting.now run.old (C.map cells.old) (does inner.now.setting.now.program.now room statement.now) result run.new (C.map cells.new) }
{
    (inner.exec)(inner.setting, room, statement, run, cells)
}

/// Spends a unit of fuel.
#[tactic(auto, unfolding(core_means::specs::Asks::under))]
pub fn pay<L: Cells, C: Cells>(
    setting: &Setting<'_, L>,
    run: &mut Run,
    _cells: &mut C,
) -> Result<(), Stop>
    ensures does { Does L.map setting.now run.old (C.map _cells.old) asks.spend result run.new (C.map _cells.new) }
{
    if run.fuel == 0 {
        return Err(Stop::Trap(TrapKind::Fuel));
    }
    run.fuel -= 1;
    Ok(())
}
