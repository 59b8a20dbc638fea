ghost use Rattle.std.specs.Prelude.{IfOk};
ghost use Rattle.core_means.specs.Means as means;
ghost use Rattle.eval_forms.specs.Counts.{IsCounted};
ghost use Rattle.eval_places.specs.Runs.{Can, Does};

use crate::knot::{eval_to, exec_to};
use core_means::{Flow, Local, Numbers, Run};
use eval_forms::{conditions, span};
use eval_places::Setting;
use eval_terms::{Inner, block, entered, initial, values};
use identity_path::Cells;
use sv_items::Items;
use sv_value::{Hop, Value, Values};
use swift_core::{CodeId, Condition, Core, CoreHop, CoreStmt, Over};
use value_calls::Stop;

/// The values of terms, from left to right, behind those that are done.
#[tactic(auto)]
pub fn values_to<L: Cells, C: Cells>(
    setting: &Setting<'_, L>,
    room: u32,
    done: Values,
    terms: &[Core],
    run: &mut Run,
    cells: &mut C,
) -> Result<Values, Stop>
    requires right { Can L.map setting.now run.old (C.map cells.old) (means.values_from (means.inner setting.now.program.now room) done terms.now) }
    ensures does { Does L.map setting.now run.old (C.map cells.old) (means.values_from (means.inner setting.now.program.now room) done terms.now) result run.new (C.map cells.new) }
{
    let inner = Inner {
        setting,
        eval: eval_to,
        exec: exec_to,
    };
    values(&inner, room, done, terms, run, cells)
}

/// An initial value or a static property.
#[tactic(auto)]
pub fn initial_to<L: Cells, C: Cells>(
    setting: &Setting<'_, L>,
    room: u32,
    id: CodeId,
    run: &mut Run,
    cells: &mut C,
) -> Result<Value, Stop>
    requires right { Can L.map setting.now run.old (C.map cells.old) (means.initial (means.inner setting.now.program.now room) id.number) }
    ensures does { Does L.map setting.now run.old (C.map cells.old) (means.initial (means.inner setting.now.program.now room) id.number) result run.new (C.map cells.new) }
{
    let inner = Inner {
        setting,
        eval: eval_to,
        exec: exec_to,
    };
    initial(&inner, room, id, run, cells)
}

/// What a member gives with these locals and this `self`, if it has a value.
#[tactic(auto)]
pub fn entered_to<L: Cells, C: Cells>(
    setting: &Setting<'_, L>,
    room: u32,
    id: CodeId,
    locals: Items<Local>,
    itself: Option<Value>,
    run: &mut Run,
    cells: &mut C,
) -> Result<Option<Value>, Stop>
    requires right { Can L.map setting.now run.old (C.map cells.old) (means.entered (means.inner setting.now.program.now room) id.number locals itself) }
    ensures does { Does L.map setting.now run.old (C.map cells.old) (means.entered (means.inner setting.now.program.now room) id.number locals itself) result run.new (C.map cells.new) }
{
    let inner = Inner {
        setting,
        eval: eval_to,
        exec: exec_to,
    };
    entered(&inner, room, id, locals, itself, run, cells)
}

/// A hop of a target: a field, or an index, which is evaluated and not tested.
#[tactic(auto)]
pub fn hop_to<L: Cells, C: Cells>(
    setting: &Setting<'_, L>,
    room: u32,
    hop: &CoreHop,
    run: &mut Run,
    cells: &mut C,
) -> Result<Hop, Stop>
    requires right { Can L.map setting.now run.old (C.map cells.old) (means.hop_of (means.inner setting.now.program.now room) hop.now) }
    ensures does { Does L.map setting.now run.old (C.map cells.old) (means.hop_of (means.inner setting.now.program.now room) hop.now) result run.new (C.map cells.new) }
{
    let inner = Inner {
        setting,
        eval: eval_to,
        exec: exec_to,
    };
    eval_terms::hop(&inner, room, hop, run, cells)
}

/// Whether the conditions hold, from left to right up to the first that does not. What they bind are further locals.
#[tactic(auto)]
pub fn conditions_to<L: Cells, C: Cells>(
    setting: &Setting<'_, L>,
    room: u32,
    all: &[Condition],
    run: &mut Run,
    cells: &mut C,
) -> Result<bool, Stop>
    requires right { Can L.map setting.now run.old (C.map cells.old) (means.conditions (means.inner setting.now.program.now room) all.now) }
    ensures does { Does L.map setting.now run.old (C.map cells.old) (means.conditions (means.inner setting.now.program.now room) all.now) result run.new (C.map cells.new) }
{
    let inner = Inner {
        setting,
        eval: eval_to,
        exec: exec_to,
    };
    conditions(&inner, room, all, run, cells)
}

/// The numbers of a range, which is a form of its own. They and the number after them have a sign and 63 bits, or are 2 ^ 63.
#[tactic(auto)]
pub fn span_to<L: Cells, C: Cells>(
    setting: &Setting<'_, L>,
    room: u32,
    over: &Over,
    run: &mut Run,
    cells: &mut C,
) -> Result<Numbers, Stop>
    requires right { Can L.map setting.now run.old (C.map cells.old) (means.spans setting.now.program.now room over.now) }
    ensures does { Does L.map setting.now run.old (C.map cells.old) (means.spans setting.now.program.now room over.now) result run.new (C.map cells.new) }
    ensures counts { IfOk result (λ numbers. IsCounted numbers) }
{
    let inner = Inner {
        setting,
        eval: eval_to,
        exec: exec_to,
    };
    span(&inner, room, over, run, cells)
}

/// Statements in a row.
#[tactic(auto)]
pub fn block_to<L: Cells, C: Cells>(
    setting: &Setting<'_, L>,
    room: u32,
    statements: &[CoreStmt],
    run: &mut Run,
    cells: &mut C,
) -> Result<Flow, Stop>
    requires right { Can L.map setting.now run.old (C.map cells.old) (means.block (means.inner setting.now.program.now room) statements.now) }
    ensures does { Does L.map setting.now run.old (C.map cells.old) (means.block (means.inner setting.now.program.now room) statements.now) result run.new (C.map cells.new) }
{
    let inner = Inner {
        setting,
        eval: eval_to,
        exec: exec_to,
    };
    block(&inner, room, statements, run, cells)
}
