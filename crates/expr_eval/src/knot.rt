ghost use Rattle.core_means.specs.Means as means;
ghost use Rattle.eval_places.specs.Runs.{Can, Does};

use core_means::{Flow, Run};
use eval_forms::{exec_form, value_form};
use eval_places::Setting;
use eval_terms::{Inner, pay};
use identity_path::Cells;
use sv_value::Value;
use swift_core::{Core, CoreStmt};
use value_calls::{Stop, TrapKind};

/// The value of an expression, where `room` more forms may be entered.
#[cycle(forms)]
#[tactic(auto, using(core_means::specs::Trees::under_then), unfolding(core_means::specs::Asks::under, core_means::specs::Means::means))]
pub fn eval_to<L: Cells, C: Cells>(
    setting: &Setting<'_, L>,
    room: u32,
    term: &Core,
    run: &mut Run,
    cells: &mut C,
) -> Result<Value, Stop>
    requires right { Can L.map setting.now run.old (C.map cells.old) (means.means setting.now.program.now room term.now) }
    ensures does { Does L.map setting.now run.old (C.map cells.old) (means.means setting.now.program.now room term.now) result run.new (C.map cells.new) }
{
    pay(setting, run, cells)?;
    if room == 0 {
        return Err(Stop::Trap(TrapKind::Calls));
    }
    let inner = Inner {
        setting: &*setting,
        eval: eval_to,
        exec: exec_to,
    };
    value_form(&inner, room - 1, term, run, cells)
}

/// Runs a statement, where `room` more forms may be entered.
#[cycle(forms)]
#[tactic(auto, using(core_means::specs::Trees::under_then), unfolding(core_means::specs::Asks::under, core_means::specs::Means::does))]
pub fn exec_to<L: Cells, C: Cells>(
    setting: &Setting<'_, L>,
    room: u32,
    statement: &CoreStmt,
    run: &mut Run,
    cells: &mut C,
) -> Result<Flow, Stop>
    requires right { Can L.map setting.now run.old (C.map cells.old) (means.does setting.now.program.now room statement.now) }
    ensures does { Does L.map setting.now run.old (C.map cells.old) (means.does setting.now.program.now room statement.now) result run.new (C.map cells.new) }
{
    pay(setting, run, cells)?;
    if room == 0 {
        return Err(Stop::Trap(TrapKind::Calls));
    }
    let inner = Inner {
        setting: &*setting,
        eval: eval_to,
        exec: exec_to,
    };
    exec_form(&inner, room - 1, statement, run, cells)
}
