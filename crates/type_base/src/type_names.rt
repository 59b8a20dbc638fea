ghost use Rattle.std.specs.Prelude.{◌≡◌, nat_le, IfOk};
ghost use Rattle.type_base.specs.TypeNames.{named_type, written_type, written_depth, type_of};

use crate::depths::{DEEPEST, optional};
use crate::lookup::{find_declaration, is_data};
use std::alloc::{AllocError, Global};
use sv_items::Boxed;
use swift_ast::TypeName;
use swift_core::{Table, Ty};

/// The type of a name.
#[tactic(auto, unfolding(crate::specs::TypeNames::named_type, crate::specs::Claims::and_then))]
fn named_type(table: &Table, name: &[u8]) -> Option<Ty>
    ensures value { result ≡ named_type table.now name.now }
{
    if name == b"Int".as_slice() {
        return Some(Ty::Int);
    }
    if name == b"Bool".as_slice() {
        return Some(Ty::Bool);
    }
    if name == b"String".as_slice() {
        return Some(Ty::Text);
    }
    match find_declaration(table, name) {
        Some((number, declaration)) => {
            if is_data(declaration.kind) {
                Some(Ty::Named(number))
            } else {
                None
            }
        }
        None => None,
    }
}

/// The type that is written, however deep it is.
#[cycle(written)]
#[tactic(auto, unfolding(crate::specs::TypeNames::written_type, crate::specs::Claims::and_then))]
fn written_type(alloc: Global, table: &Table, name: &TypeName) -> Result<Option<Ty>, AllocError>
    ensures value { IfOk result (λ t. t ≡ written_type table.now name.now) }
{
    match name {
        TypeName::Name(word) => Ok(named_type(table, word.as_bytes())),
        TypeName::List(inside) => match written_type(alloc, table, inside.get())? {
            Some(ty) => Ok(Some(Ty::List(Boxed::new(alloc, ty)?))),
            None => Ok(None),
        },
        TypeName::Optional(inside, count) => match written_type(alloc, table, inside.get())? {
            Some(ty) => Ok(Some(optional(alloc, *count, ty)?)),
            None => Ok(None),
        },
    }
}

/// Whether the type is written no deeper than this: each pair of brackets and each `?` counts one.
#[cycle(written_within)]
#[tactic(auto, unfolding(crate::specs::TypeNames::written_depth))]
pub fn written_within(name: &TypeName, room: usize) -> bool
    ensures value { result ≡ nat_le (written_depth name.now) room }
{
    match name {
        TypeName::Name(_) => room >= 1,
        TypeName::List(inside) => room >= 1 && written_within(inside.get(), room - 1),
        TypeName::Optional(inside, count) => {
            *count <= room && written_within(inside.get(), room - *count)
        }
    }
}

/// The type that is written, or None where it is none or deeper than a type may be.
#[tactic(auto, unfolding(crate::specs::TypeNames::type_of, crate::specs::Depth::deepest))]
pub fn type_of(alloc: Global, table: &Table, name: &TypeName) -> Result<Option<Ty>, AllocError>
    ensures value { IfOk result (λ t. t ≡ type_of table.now name.now) }
{
    if !written_within(name, DEEPEST) {
        return Ok(None);
    }
    written_type(alloc, table, name)
}
