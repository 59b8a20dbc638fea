ghost use Rattle.std.specs.Prelude.{◌≡◌, reverse, Some, IsSome, IfOk};
ghost use Rattle.core_means.specs.Means as means;
ghost use Rattle.body_means.specs.Building as building;
ghost use Rattle.body_parts.specs.Arms as arms;
ghost use Rattle.body_parts.specs.Nests.{of};
ghost use Rattle.body_parts.specs.Shapes.{as_bound};
ghost use Rattle.eval_places.specs.Runs.{Can, Does};

use crate::builder::Builder;
use core_means::{Origin, Run, Spot};
use eval_places::{Setting, plain_of, spot_of};
use eval_terms::pay;
use expr_eval::hop_to;
use identity_path::{Cells, Place};
use std::alloc::AllocError;
use sv_items::Items;
use sv_value::{Hop, Value};
use swift_core::{CoreHop, Root, Target};
use value_calls::{Stop, TrapKind};

/// The place that a binding is, and the value there.
#[derive(Drop)]
pub struct Bound {
    pub place: Place,
    pub value: Value,
}

fn place_at(spot: Spot) -> Place
    requires { IsSome (building.place_at spot) }
    ensures { building.place_at spot ≡ Some result }
{
    match spot {
        Spot::Cell(place) => place,
        Spot::Local(_, _) => unreachable!(),
        Spot::Itself(_) => unreachable!(),
    }
}

// The place that `$x` is.
#[tactic(auto, using(core_means::specs::Trees::under_then, eval_places::proofs::Right::right_given), unfolding(core_means::specs::Asks::under, body_means::specs::Building::root_place))]
fn root_place<L: Cells, C: Cells>(
    setting: &Setting<'_, L>,
    root: Root,
    run: &mut Run,
    cells: &mut C,
) -> Result<Place, Stop>
    requires right { Can L.map setting.now run.old (C.map cells.old) (building.root_place root) }
    ensures does { Does L.map setting.now run.old (C.map cells.old) (building.root_place root) result run.new (C.map cells.new) }
{
    let spot = spot_of(setting, root, Items::new(setting.alloc), run, cells)?;
    Ok(place_at(spot))
}

// The place with one hop more.
pub fn with_hop(place: Place, hop: Hop) -> Result<Place, AllocError>
    ensures value { IfOk result (λ further. further ≡ building.with_hop place hop) }
{
    let Place {
        path,
        slot,
        mut hops,
    } = place;
    hops.push(hop)?;
    Ok(Place { path, slot, hops })
}

// One link further.
#[tactic(auto, using(core_means::specs::Trees::under_then), unfolding(core_means::specs::Asks::under, body_means::specs::Building::link))]
fn link<L: Cells, C: Cells>(
    setting: &Setting<'_, L>,
    room: u32,
    hop: &CoreHop,
    place: Place,
    run: &mut Run,
    cells: &mut C,
) -> Result<Place, Stop>
    requires right { Can L.map setting.now run.old (C.map cells.old) (building.link (means.inner setting.now.program.now room) hop.now place) }
    ensures does { Does L.map setting.now run.old (C.map cells.old) (building.link (means.inner setting.now.program.now room) hop.now place) result run.new (C.map cells.new) }
{
    let step = hop_to(setting, room, hop, run, cells)?;
    Ok(with_hop(place, step)?)
}

// Each link is a form, and the last one is entered first.
#[cycle(links)]
#[tactic(auto, using(core_means::specs::Trees::under_then, crate::proofs::Links::links_pays), unfolding(core_means::specs::Asks::under))]
fn links<L: Cells, C: Cells>(
    setting: &Setting<'_, L>,
    room: u32,
    root: Root,
    hops: &[CoreHop],
    run: &mut Run,
    cells: &mut C,
) -> Result<Place, Stop>
    requires right { Can L.map setting.now run.old (C.map cells.old) (building.links setting.now.program.now room root (reverse hops.now)) }
    ensures does { Does L.map setting.now run.old (C.map cells.old) (building.links setting.now.program.now room root (reverse hops.now)) result run.new (C.map cells.new) }
{
    pay(setting, run, cells)?;
    if room == 0 {
        return Err(Stop::Trap(TrapKind::Calls));
    }
    linked(setting, room - 1, root, hops, run, cells)
}

// The form of a link: what is before it, and then the link itself.
#[cycle(links)]
#[tactic(auto, using(core_means::specs::Trees::under_then, crate::proofs::Links::linked_ends, crate::proofs::Links::linked_root), unfolding(core_means::specs::Asks::under))]
fn linked<L: Cells, C: Cells>(
    setting: &Setting<'_, L>,
    room: u32,
    root: Root,
    hops: &[CoreHop],
    run: &mut Run,
    cells: &mut C,
) -> Result<Place, Stop>
    requires right { Can L.map setting.now run.old (C.map cells.old) (arms.linked setting.now.program.now room root (reverse hops.now)) }
    ensures does { Does L.map setting.now run.old (C.map cells.old) (arms.linked setting.now.program.now room root (reverse hops.now)) result run.new (C.map cells.new) }
{
    match hops {
        [before @ .., last] => {
            let place = links(setting, room, root, before, run, cells)?;
            link(setting, room, last, place, run, cells)
        }
        [] => root_place(setting, root, run, cells),
    }
}

/// The place that a binding is. It is a form, and so is each link behind it.
#[tactic(auto, unfolding(body_means::specs::Building::place_of))]
pub fn place_to<L: Cells, C: Cells>(
    setting: &Setting<'_, L>,
    room: u32,
    target: &Target,
    run: &mut Run,
    cells: &mut C,
) -> Result<Place, Stop>
    requires right { Can L.map setting.now run.old (C.map cells.old) (building.place_of setting.now.program.now room target.now) }
    ensures does { Does L.map setting.now run.old (C.map cells.old) (building.place_of setting.now.program.now room target.now) result run.new (C.map cells.new) }
{
    links(
        setting,
        room,
        target.root,
        target.hops.as_slice(),
        run,
        cells,
    )
}

/// The place that a binding is, and the value there, which is looked up.
#[tactic(auto, using(core_means::specs::Trees::under_then), unfolding(core_means::specs::Asks::under, body_means::specs::Building::bound))]
pub fn bound_to<L: Cells, C: Cells, F>(
    builder: &Builder<'_, L, F>,
    target: &Target,
    run: &mut Run,
    cells: &mut C,
) -> Result<Bound, Stop>
    requires right { Can L.map builder.now.setting.now run.old (C.map cells.old) (building.bound (of builder.now) target.now) }
    ensures does { Does L.map builder.now.setting.now run.old (C.map cells.old) (building.bound (of builder.now) target.now) (as_bound result) run.new (C.map cells.new) }
{
    let place = place_to(builder.setting, builder.room, target, run, cells)?;
    let copy = place.copy()?;
    let origin = Origin::Place(copy);
    let value = plain_of(builder.setting, origin, run, cells)?;
    Ok(Bound { place, value })
}
