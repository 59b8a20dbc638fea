ghost use Rattle.std.specs.Prelude.{◌≡◌, nat_le, IfOk};
ghost use Rattle.type_base.specs.Depth.{depth, is_shallow, optional};

use std::alloc::{AllocError, Global};
use sv_items::Boxed;
use swift_core::Ty;

/// How deep a type may be.
pub const DEEPEST: usize = 64;

/// Whether the type is no deeper than this.
#[cycle(within)]
#[tactic(auto, using(crate::specs::Depth::none_within, crate::specs::Depth::list_within, crate::specs::Depth::optional_within), unfolding(crate::specs::Depth::depth))]
fn within(ty: &Ty, room: usize) -> bool
    ensures value { result ≡ nat_le (depth ty.now) room }
{
    if room == 0 {
        return false;
    }
    match ty {
        Ty::List(inside) => within(inside.get(), room - 1),
        Ty::Optional(inside) => within(inside.get(), room - 1),
        _ => true,
    }
}

/// Whether the type is no deeper than a type may be. A list and an optional are one deeper than the type inside.
#[tactic(auto, unfolding(crate::specs::Depth::is_shallow, crate::specs::Depth::deepest))]
pub fn shallow(ty: &Ty) -> bool
    ensures value { result ≡ is_shallow ty.now }
{
    within(ty, DEEPEST)
}

/// The type with this many signs `?` behind it.
#[tactic(auto, using(crate::specs::Depth::optional_turn, crate::specs::Depth::optional_start))]
pub fn optional(alloc: Global, count: usize, ty: Ty) -> Result<Ty, AllocError>
    ensures value { IfOk result (λ t. t ≡ optional count ty) }
{
    let mut whole = ty;
    for done in 0..count {
        whole = Ty::Optional(Boxed::new(alloc, whole)?);
    }
    Ok(whole)
}
