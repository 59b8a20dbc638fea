ghost use Rattle.std.specs.Prelude.{◌≡◌, ◌↔◌, IsTrue, MatchOption, Some, None, option_map, slice_get};
ghost use Rattle.std.specs.Option.{option_copied};
ghost use Rattle.place_tests.specs.Walks.{hop_type, leading, nest, stored_here, stored_in, stored_type, walk};

use sv_value::Hop;
use swift_core::{Signature, SignatureForm, Table, Ty};

/// The type of a stored property that says this place, or None where the member is none.
fn stored_here(form: &SignatureForm, at: u32) -> Option<Option<&Ty>>
    ensures value { option_map option_copied result ≡ stored_here at form.now }
{
    match form {
        SignatureForm::Stored(place, _, ty, _) => {
            if *place == at {
                Some(ty.as_ref())
            } else {
                None
            }
        }
        _ => None,
    }
}

/// The type of the first stored property that says this place.
#[tactic(auto, using(crate::proofs::Steps::stored_turn, crate::proofs::Steps::stored_is, crate::proofs::Steps::stored_end))]
fn stored_type(members: &[Signature], at: u32) -> Option<&Ty>
    ensures value { option_copied result ≡ stored_type at members.now }
{
    for i in 0..members.len() {
        match stored_here(&members[i].form, at) {
            Some(ty) => return ty,
            None => {}
        }
    }
    None
}

/// The same in a declaration.
fn stored_in(table: &Table, declaration: u32, at: u32) -> Option<&Ty>
    ensures value { option_copied result ≡ stored_in at (slice_get table.now.declarations declaration) }
{
    match table.declarations.get(declaration as usize) {
        Some(declaration) => stored_type(declaration.members.as_slice(), at),
        None => None,
    }
}

/// Where one hop leads from a type.
fn hop_type<'a>(table: &'a Table, base: &'a Ty, hop: Hop) -> Option<&'a Ty>
    ensures value { option_copied result ≡ hop_type table.now base.now hop }
{
    match hop {
        Hop::Field(at) => match base.named() {
            Some(declaration) => stored_in(table, declaration, at),
            None => None,
        },
        Hop::Index(_) => base.element(),
    }
}

/// Where one hop leads from a type under so many lists.
#[tactic(auto, using(crate::proofs::Steps::plain_found, crate::proofs::Steps::plain_none, crate::proofs::Steps::to_element, crate::proofs::Steps::no_field))]
fn next<'a>(table: &'a Table, lists: usize, base: &'a Ty, hop: Hop) -> Option<(usize, &'a Ty)>
    ensures found { MatchOption result (hop_type table.now (nest lists base.now) hop ≡ None) (λ found. hop_type table.now (nest lists base.now) hop ≡ Some (nest found.0 found.1.now)) }
{
    if lists == 0 {
        return match hop_type(table, base, hop) {
            Some(ty) => Some((0, ty)),
            None => None,
        };
    }
    match hop {
        Hop::Index(_) => Some((lists - 1, base)),
        Hop::Field(_) => None,
    }
}

/// Whether a type is this one under so many lists.
#[tactic(auto, using(crate::proofs::Steps::is_plain, crate::proofs::Steps::is_less, crate::proofs::Steps::is_none))]
fn is_nested(lists: usize, base: &Ty, ty: &Ty) -> bool
    ensures value { IsTrue result ↔ (nest lists base.now ≡ ty.now) }
{
    if lists == 0 {
        return base.same(ty);
    }
    match ty.element() {
        Some(inside) => is_nested(lists - 1, base, inside),
        None => false,
    }
}

/// Whether the hops lead from a type under so many lists to this one.
#[tactic(auto, using(crate::proofs::Steps::walk_turn, crate::proofs::Steps::walk_stops, crate::proofs::Steps::walk_end))]
pub fn leads(table: &Table, lists: usize, base: &Ty, hops: &[Hop], ty: &Ty) -> bool
    ensures value { IsTrue result ↔ (walk table.now (nest lists base.now) hops.now ≡ Some ty.now) }
{
    let mut left = lists;
    let mut reached = base;
    for i in 0..hops.len() {
        match next(table, left, reached, hops[i]) {
            Some((fewer, inside)) => {
                left = fewer;
                reached = inside;
            }
            None => return false,
        }
    }
    is_nested(left, reached, ty)
}

/// How many indices stand in front.
#[tactic(auto, using(crate::proofs::Steps::leading_turn, crate::proofs::Steps::leading_stops, crate::proofs::Steps::leading_end))]
pub fn leading(hops: &[Hop]) -> usize
    ensures value { result ≡ leading hops.now }
{
    for i in 0..hops.len() {
        match hops[i] {
            Hop::Index(_) => {}
            Hop::Field(_) => return i,
        }
    }
    hops.len()
}
