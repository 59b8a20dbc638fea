ghost use Rattle.std.specs.Prelude.{◌≡◌, Some, IsSome, OnOk};
ghost use Rattle.body_means.specs.Kept as kept;
ghost use Rattle.body_nodes.specs.Shapes.{block_of};
ghost use Rattle.eval_places.specs.Runs.{Can, Does};

use core_means::{Local, Run};
use eval_places::{Setting, local_at};
use eval_terms::code_of;
use identity_path::{Cells, Input, Inputs};
use std::alloc::AllocError;
use swift_core::{BlockId, Code, CodeId, Program};
use value_calls::Stop;

/// A block of the program.
#[derive(Clone, Copy)]
pub struct Block<'p> {
    /// The number of its code.
    pub number: usize,
    pub code: &'p Code,
}

/// The block of the member whose code this is.
pub fn block_at<'p>(program: &'p Program, code: usize, id: BlockId) -> Block<'p>
    requires there { IsSome (kept.block_at program.now code id) }
    ensures value { kept.block_at program.now code id ≡ Some (block_of result) }
{
    let found = program.block(CodeId { number: code }, id);
    match code_of(program, found) {
        Some(piece) => Block {
            number: found.number,
            code: piece,
        },
        None => unreachable!(),
    }
}

// The local, if this run made it.
#[tactic(auto, using(eval_places::proofs::Right::right_given), unfolding(core_means::specs::Asks::under, body_means::specs::Kept::own_at))]
fn own_at<L: Cells, C: Cells>(
    setting: &Setting<'_, L>,
    at: usize,
    run: &mut Run,
    _cells: &mut C,
) -> Result<Option<Input>, Stop>
    requires right { Can L.map setting.now run.old (C.map _cells.old) (kept.own_at at) }
    ensures does { Does L.map setting.now run.old (C.map _cells.old) (kept.own_at at) result run.new (C.map _cells.new) }
{
    match run.locals.get(at) {
        Some(Local::Holds(input)) => Ok(Some(input.copy(setting.alloc)?)),
        Some(Local::Captured(_)) => Ok(None),
        Some(Local::Preference) => Ok(None),
        Some(Local::Absent) => unreachable!(),
        None => unreachable!(),
    }
}

fn push_own(done: &mut Inputs, own: Option<Input>) -> Result<(), AllocError>
    ensures { OnOk result (done.new ≡ kept.with_own done.old own) }
{
    match own {
        Some(input) => {
            done.push(input)?;
            Ok(())
        }
        None => Ok(()),
    }
}

/// The locals at these places that this run made, behind those that are done. Nothing is looked up.
#[tactic(auto, using(core_means::specs::Trees::under_then), unfolding(core_means::specs::Asks::under, body_means::specs::Kept::kept_from))]
pub fn own_locals<L: Cells, C: Cells>(
    setting: &Setting<'_, L>,
    mut done: Inputs,
    mut rest: &[usize],
    run: &mut Run,
    cells: &mut C,
) -> Result<Inputs, Stop>
    requires right { Can L.map setting.now run.old (C.map cells.old) (kept.kept_from done rest.now) }
    ensures does { Does L.map setting.now run.old (C.map cells.old) (kept.kept_from done rest.entry.now) result run.new (C.map cells.new) }
{
    while let [place, more @ ..] = rest {
        let own = own_at(setting, *place, run, cells)?;
        push_own(&mut done, own)?;
        rest = more;
    }
    Ok(done)
}

/// What a reader's closure captures of the locals at these places, behind what is captured.
#[tactic(auto, using(core_means::specs::Trees::under_then), unfolding(core_means::specs::Asks::under, body_means::specs::Kept::captured_from))]
pub fn captured<L: Cells, C: Cells>(
    setting: &Setting<'_, L>,
    mut done: Inputs,
    mut rest: &[usize],
    run: &mut Run,
    cells: &mut C,
) -> Result<Inputs, Stop>
    requires right { Can L.map setting.now run.old (C.map cells.old) (kept.captured_from done rest.now) }
    ensures does { Does L.map setting.now run.old (C.map cells.old) (kept.captured_from done rest.entry.now) result run.new (C.map cells.new) }
{
    while let [place, more @ ..] = rest {
        let input = local_at(setting, *place, run, cells)?;
        done.push(input)?;
        rest = more;
    }
    Ok(done)
}
