ghost use Rattle.body_means.specs.Building as building;
ghost use Rattle.body_means.specs.Items.{item_means};
ghost use Rattle.body_parts.specs.Nests.{ItemNests, of};
ghost use Rattle.eval_places.specs.Runs.{Can, Does};

use body_nodes::push_child;
use core_means::Run;
use eval_forms::cut;
use eval_places::Setting;
use identity_path::Cells;
use sv_items::Items;
use swift_core::CoreItem;
use value_calls::Stop;
use view_nodes::Element;

/// The view that an item of a builder gives, or none where it is a `let`.
pub type ItemResult = Result<Option<Element>, Stop>;

/// What does not change within an item of a builder, and what evaluates the items inside it.
#[derive(Drop)]
pub struct Builder<'s, L, F> {
    pub setting: &'s Setting<'s, L>,
    /// How many more forms may be entered inside the item.
    pub room: u32,
    /// The number of the piece of code whose items these are.
    pub code: usize,
    /// Evaluates an item of a piece of code, where so many more forms may be entered.
    pub item: F,
}

/// The view that an item of a piece of code gives. A `let` gives none.
fn view_of<L, C, F>(
    builder: &Builder<'_, L, F>,
    code: usize,
    item: &CoreItem,
    run: &mut Run,
    cells: &mut C,
) -> ItemResult
where
    L: Cells,
    C: Cells,
    F: Fn(&Setting<'_, L>, u32, usize, &CoreItem, &mut Run, &mut C) -> ItemResult,
    requires nests { ItemNests L.map C.map builder.now.room (F.pre builder.now.item) (F.post builder.now.item) }
    requires right { Can L.map builder.now.setting.now run.old (C.map cells.old) (item_means builder.now.setting.now.program.now builder.now.room code item.now) }
    ensures does { Does L.map builder.now.setting.now run.old (C.map cells.old) (item_means builder.now.setting.now.program.now builder.now.room code item.now) result run.new (C.map cells.new) }
{
    (builder.item)(builder.setting, builder.room, code, item, run, cells)
}

/// The views of items of a piece of code, from the first to the last, behind those that are done.
#[tactic(auto, using(core_means::specs::Trees::under_then), unfolding(core_means::specs::Asks::under, body_means::specs::Building::views_from))]
pub fn views<L, C, F>(
    builder: &Builder<'_, L, F>,
    code: usize,
    mut done: Items<Element>,
    mut rest: &[CoreItem],
    run: &mut Run,
    cells: &mut C,
) -> Result<Items<Element>, Stop>
where
    L: Cells,
    C: Cells,
    F: Fn(&Setting<'_, L>, u32, usize, &CoreItem, &mut Run, &mut C) -> ItemResult,
    requires nests { ItemNests L.map C.map builder.now.room (F.pre builder.now.item) (F.post builder.now.item) }
    requires right { Can L.map builder.now.setting.now run.old (C.map cells.old) (building.views_from ((of builder.now).item code) done rest.now) }
    ensures does { Does L.map builder.now.setting.now run.old (C.map cells.old) (building.views_from ((of builder.now).item code) done rest.entry.now) result run.new (C.map cells.new) }
{
    while let [first, more @ ..] = rest {
        let made = view_of(builder, code, first, run, cells)?;
        push_child(builder.setting.alloc, &mut done, made)?;
        rest = more;
    }
    Ok(done)
}

/// The views of a closure of views, whose locals end with it.
#[tactic(auto, using(core_means::specs::Trees::under_then), unfolding(core_means::specs::Asks::under, core_means::specs::Means::framed, body_means::specs::Building::content))]
pub fn content<L, C, F>(
    builder: &Builder<'_, L, F>,
    items: &[CoreItem],
    run: &mut Run,
    cells: &mut C,
) -> Result<Items<Element>, Stop>
where
    L: Cells,
    C: Cells,
    F: Fn(&Setting<'_, L>, u32, usize, &CoreItem, &mut Run, &mut C) -> ItemResult,
    requires nests { ItemNests L.map C.map builder.now.room (F.pre builder.now.item) (F.post builder.now.item) }
    requires right { Can L.map builder.now.setting.now run.old (C.map cells.old) (building.content (of builder.now) items.now) }
    ensures does { Does L.map builder.now.setting.now run.old (C.map cells.old) (building.content (of builder.now) items.now) result run.new (C.map cells.new) }
{
    let count = run.locals.len();
    let done = Items::new(builder.setting.alloc);
    let made = views(builder, builder.code, done, items, run, cells)?;
    cut(&mut run.locals, count);
    Ok(made)
}
