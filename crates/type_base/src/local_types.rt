ghost use Rattle.std.specs.Prelude.{◌≡◌, ◌++◌, map, drop, IfOk, OnOk};
ghost use Rattle.type_base.specs.LocalTypes.{local_type, type_at, types_at};

use crate::scope::{Local, LocalKind};
use std::alloc::{AllocError, Global};
use sv_items::Items;
use swift_core::LocalType;

/// What a local has.
fn local_type(alloc: Global, local: &Local) -> Result<LocalType, AllocError>
    ensures value { IfOk result (λ t. t ≡ local_type local.now) }
{
    let ty = local.ty.copy(alloc)?;
    match local.kind {
        LocalKind::Place => Ok(LocalType::Place(ty)),
        LocalKind::Let | LocalKind::Var | LocalKind::Next => Ok(LocalType::Value(ty)),
    }
}

/// Adds what the local at this place has, if there is one.
fn push_type(
    alloc: Global,
    locals: &[Local],
    at: usize,
    types: &mut Items<LocalType>,
) -> Result<(), AllocError>
    ensures ok { OnOk result (types.new ≡ types.old ++ type_at locals.now at) }
{
    match locals.get(at) {
        Some(local) => {
            let ty = local_type(alloc, local)?;
            types.push(ty)
        }
        None => Ok(()),
    }
}

/// What the locals at these places have, in order.
pub fn types_at(
    alloc: Global,
    locals: &[Local],
    places: &[usize],
) -> Result<Items<LocalType>, AllocError>
    ensures value { IfOk result (λ ts. ts ≡ types_at locals.now places.now) }
{
    let mut types = Items::new(alloc);
    for at in places {
        push_type(alloc, locals, *at, &mut types)?;
    }
    Ok(types)
}

/// What the locals from the first one of these on have, in order.
pub fn types_from(
    alloc: Global,
    locals: &[Local],
    first: usize,
) -> Result<Items<LocalType>, AllocError>
    ensures value { IfOk result (λ ts. ts ≡ map local_type (drop first locals.now)) }
{
    let mut types = Items::new(alloc);
    for at in first..locals.len() {
        push_type(alloc, locals, at, &mut types)?;
    }
    Ok(types)
}
