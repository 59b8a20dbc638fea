ghost use Rattle.std.specs.Prelude.{◌≡◌};
ghost use Rattle.type_base.specs.Rules.{Answers};
ghost use Rattle.type_base.specs.Promotion.{stands};

use crate::fault::Fault;
use std::alloc::Global;
use sv_items::Boxed;
use swift_core::{Core, Ty};

/// What checks the expressions inside a form, and how many levels it may still go down.
#[derive(Clone, Copy)]
pub struct Inner<F> {
    pub alloc: Global,
    pub room: u32,
    pub check: F,
}

/// The core of a value of type `ty` where `expected` is expected: it is promoted once for each `?` that `expected` has
/// and `ty` has not.
#[cycle(fit)]
#[tactic(auto, unfolding(crate::specs::Claims::and_then), using(crate::specs::Promotion::stands_opens))]
pub fn fit(alloc: Global, core: Core, ty: &Ty, expected: &Ty) -> Result<Core, Fault>
    ensures found { Answers result (stands (core, ty.now) expected.now) }
{
    if ty.same(expected) {
        return Ok(core);
    }
    match expected.inside() {
        Some(inside) => {
            let core = fit(alloc, core, ty, inside)?;
            Ok(Core::Promote(Boxed::new(alloc, core)?))
        }
        None => Err(Fault::NotTyped),
    }
}
