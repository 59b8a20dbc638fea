ghost use Rattle.std.specs.Prelude.{◌≡◌, ◌++◌, IfOk, OnOk};
ghost use Rattle.core_means.specs.Public as public;

use core_means::Local;
use identity_path::Input;
use std::alloc::{AllocError, Global};
use sv_items::Items;
use swift_core::Code;

// So many locals that the code does not use.
#[tactic(auto, using(crate::proofs::Absents::absent_more, crate::proofs::Absents::absent_none))]
fn absent(alloc: Global, count: usize) -> Result<Items<Local>, AllocError>
    ensures { IfOk result (λ locals. locals ≡ public.absent count) }
{
    let mut locals = Items::new(alloc);
    let mut left = count;
    while left > 0 {
        locals.push(Local::Absent)?;
        left -= 1;
    }
    Ok(locals)
}

fn hold(alloc: Global, locals: &mut Items<Local>, inputs: &[Input]) -> Result<(), AllocError>
    ensures { OnOk result (locals.new ≡ locals.old ++ public.holding inputs.now) }
{
    let mut rest = inputs;
    while let [input, more @ ..] = rest {
        locals.push(Local::Holds(input.copy(alloc)?))?;
        rest = more;
    }
    Ok(())
}

fn set_local(
    alloc: Global,
    locals: &mut Items<Local>,
    place: usize,
    input: &Input,
) -> Result<(), AllocError>
    ensures { OnOk result (locals.new ≡ public.with_local locals.old place input.now) }
{
    if place < locals.len() {
        locals.set(place, Local::Holds(input.copy(alloc)?));
    }
    Ok(())
}

fn place(
    alloc: Global,
    locals: &mut Items<Local>,
    kept: &[usize],
    inputs: &[Input],
) -> Result<(), AllocError>
    ensures { OnOk result (locals.new ≡ public.placed locals.old kept.now inputs.now) }
{
    let mut places = kept;
    let mut rest = inputs;
    while let [place, further @ ..] = places {
        let [input, more @ ..] = rest else {
            return Ok(());
        };
        set_local(alloc, locals, *place, input)?;
        places = further;
        rest = more;
    }
    hold(alloc, locals, rest)
}

/// The locals that a piece of code begins with: those of the frame at the places of those that it keeps, and then its
/// parameters.
#[tactic(auto, unfolding(core_means::specs::Public::laid))]
pub fn lay_out(alloc: Global, code: &Code, inputs: &[Input]) -> Result<Items<Local>, AllocError>
    ensures value { IfOk result (λ locals. locals ≡ public.laid code.now inputs.now) }
{
    let mut locals = absent(alloc, code.outer)?;
    place(alloc, &mut locals, code.kept.as_slice(), inputs)?;
    Ok(locals)
}
