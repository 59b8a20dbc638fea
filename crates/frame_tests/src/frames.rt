ghost use Rattle.std.specs.Prelude.{◌≡◌, ◌≤◌, ◌↔◌, IsTrue, length, map};
ghost use Rattle.swift_core.specs.Context.{local_of};
ghost use Rattle.place_tests.specs.Nested.{Known};
ghost use Rattle.frame_tests.specs.Demands.{Plain, SomeTypes, members_of};

use crate::asks::FrameAsks;
use crate::plain::{keys_plain, locals_plain, members_plain};
use core_means::Frame;
use identity_path::Cells;
use place_tests::answers;
use swift_core::{LocalType, Signature, Table};

/// The members of the view whose frame the code may use.
fn members_of(table: &Table, view: Option<u32>) -> &[Signature]
    ensures value { result.now ≡ members_of table.now view }
{
    match view {
        Some(number) => match table.declarations.get(number as usize) {
            Some(declaration) => declaration.members.as_slice(),
            None => &[],
        },
        None => &[],
    }
}

/// Whether what is plain holds: what is asked without places.
#[tactic(auto, using(crate::proofs::Runs::no_keys, crate::proofs::Runs::no_members, crate::proofs::Runs::all_plain))]
fn is_plain(
    table: &Table,
    view: Option<u32>,
    types: &[LocalType],
    frame: &Frame,
    members: &[Signature],
) -> bool
    requires few_keys { length table.now.environment ≤ 1048576 }
    requires of_view { members.now ≡ members_of table.now view }
    ensures value { IsTrue result ↔ Plain table.now view frame.now (map local_of types.now) }
{
    if !keys_plain(table, view, frame) {
        return false;
    }
    if !members_plain(table, frame, members) {
        return false;
    }
    locals_plain(table, types, frame.locals.as_slice())
}

/// Whether some types of slots fit the cells and the frame: that of this view, where the code may use one, with locals of
/// these types.
pub fn frame_fits<C: Cells>(
    table: &Table,
    view: Option<u32>,
    types: &[LocalType],
    frame: &Frame,
    cells: &C,
) -> bool
    requires known { Known table.now }
    requires few_keys { length table.now.environment ≤ 1048576 }
    ensures value { IsTrue result ↔ SomeTypes table.now (C.map cells.now) view frame.now (map local_of types.now) }
{
    let members = members_of(table, view);
    if !is_plain(table, view, types, frame, members) {
        return false;
    }
    answers(
        table,
        &FrameAsks {
            members,
            types,
            frame,
        },
        cells,
    )
}
