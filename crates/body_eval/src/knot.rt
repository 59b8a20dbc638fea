ghost use Rattle.eval_places.specs.Runs.{Can, Does};
ghost use Rattle.body_means.specs.Items.{item_means};

use crate::items::item_form;
use body_parts::Builder;
use core_means::Run;
use eval_places::Setting;
use eval_terms::pay;
use identity_path::Cells;
use swift_core::CoreItem;
use value_calls::{Stop, TrapKind};
use view_nodes::Element;

/// The view that an item of a piece of code gives, where `room` more forms may be entered.
#[tactic(auto, using(core_means::specs::Trees::under_then, crate::proofs::Entering::item_none, crate::proofs::Entering::item_opens), unfolding(core_means::specs::Asks::under))]
pub fn item_to<L: Cells, C: Cells>(
    setting: &Setting<'_, L>,
    room: u32,
    code: usize,
    item: &CoreItem,
    run: &mut Run,
    cells: &mut C,
) -> Result<Option<Element>, Stop>
    requires right { Can L.map setting.now run.old (C.map cells.old) (item_means setting.now.program.now room code item.now) }
    ensures does { Does L.map setting.now run.old (C.map cells.old) (item_means setting.now.program.now room code item.now) result run.new (C.map cells.new) }
{
    pay(setting, run, cells)?;
    if room == 0 {
        return Err(Stop::Trap(TrapKind::Calls));
    }
    let builder = Builder {
        setting: &*setting,
        room: room - 1,
        code,
        item: item_to,
    };
    item_form(&builder, item, run, cells)
}
