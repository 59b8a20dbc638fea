ghost use Rattle.body_means.specs.Kept as kept;
ghost use Rattle.body_parts.specs.Nests.{of};
ghost use Rattle.eval_places.specs.Runs.{Can, Does};

use crate::builder::Builder;
use body_nodes::{block_at, own_locals};
use core_means::Run;
use identity_path::Cells;
use sv_items::Items;
use swift_core::{BlockId, CodeId};
use value_calls::Stop;
use view_nodes::Handler;

/// An action block with the locals that it keeps. Nothing is looked up.
#[tactic(auto, using(core_means::specs::Trees::under_then, eval_places::proofs::Right::right_found), unfolding(core_means::specs::Asks::under, body_means::specs::Kept::handler))]
pub fn handler<L: Cells, C: Cells, F>(
    builder: &Builder<'_, L, F>,
    id: BlockId,
    run: &mut Run,
    cells: &mut C,
) -> Result<Handler, Stop>
    requires right { Can L.map builder.now.setting.now run.old (C.map cells.old) (kept.handler (of builder.now) id) }
    ensures does { Does L.map builder.now.setting.now run.old (C.map cells.old) (kept.handler (of builder.now) id) result run.new (C.map cells.new) }
{
    let block = block_at(builder.setting.program, builder.code, id);
    let done = Items::new(builder.setting.alloc);
    let places = block.code.kept.as_slice();
    let locals = own_locals(builder.setting, done, places, run, cells)?;
    Ok(Handler {
        code: CodeId {
            number: block.number,
        },
        locals,
    })
}
