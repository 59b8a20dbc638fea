ghost use Rattle.std.specs.Prelude.{◌≡◌, Some, slice_get};
ghost use Rattle.post_rules.specs.Chains.{own_name};
ghost use Rattle.post_rules.specs.Members.{own_of_view, own_of_data, own_of_mutating, own_of_key, own_at};
ghost use Rattle.post_rules.specs.declared.chained.Chained.TheVariants as chained;
ghost use Rattle.swift_core.specs.declared.table.EnvironmentKey.{EnvironmentKey};
ghost use Rattle.swift_core.specs.declared.term.Core.TheVariants as core;
ghost use Rattle.swift_core.specs.declared.term.Lookup.TheVariants as lookup;
ghost use Rattle.type_base.specs.Claims.{and_then};
ghost use Rattle.type_base.specs.Context.{seen};
ghost use Rattle.type_base.specs.Names.{Found};
ghost use Rattle.type_base.specs.Rules.{Answers};

use crate::members::computed;
use crate::places::{then_hop, whole};
use post_rules::Chained;
use std::alloc::Global;
use swift_ast::Binder;
use swift_core::{
    Core, CoreHop, Lookup, PlaceRule, Receiver, Root, Signature, SignatureForm, Table,
};
use type_base::{Fault, Scope, Stance, find_own};

/// The member of `self` that a bare name stands for. A case of an enum is none.
#[tactic(auto, unfolding(type_base::specs::Claims::and_then, post_rules::specs::Chains::own_name))]
pub fn own_named<'a>(scope: &'a Scope<'_>, name: &[u8]) -> Option<(u32, &'a Signature)>
    ensures found { Found result (own_name name.now (seen scope.now)) }
{
    match find_own(scope, name) {
        Some((place, member)) => match &member.form {
            SignatureForm::Case(_) => None,
            _ => Some((place, member)),
        },
        None => None,
    }
}

/// What is read of an environment key.
#[tactic(auto, unfolding(type_base::specs::Claims::and_then))]
fn environment(alloc: Global, table: &Table, key: u32) -> Result<Chained, Fault>
    ensures found { Answers result (and_then (slice_get table.now.environment key) (λ (k : EnvironmentKey). and_then k.ty (λ t. Some (chained.Value (core.Look (lookup.Environment key)) t)))) }
{
    match table.environment.get(key as usize) {
        Some(entry) => match &entry.ty {
            Some(ty) => Ok(Chained::Value(Core::Look(Lookup::Environment(key)), ty.copy(alloc)?)),
            None => Err(Fault::NotTyped),
        },
        None => Err(Fault::NotTyped),
    }
}

/// A member of a view in a member of it.
fn own_of_view(
    alloc: Global,
    table: &Table,
    declaration: u32,
    place: u32,
    member: &Signature,
) -> Result<Chained, Fault>
    ensures found { Answers result (own_of_view table.now declaration place member.now.code member.now.form) }
{
    match &member.form {
        SignatureForm::Stored(at, _, Some(ty), _) => Ok(Chained::Value(
            Core::Look(Lookup::Input(*at)),
            ty.copy(alloc)?,
        )),
        SignatureForm::State(at, Some(ty), _) => {
            let ty = ty.copy(alloc)?;
            Ok(Chained::Place(whole(alloc, Root::Slot(PlaceRule::Own(*at))), ty))
        }
        SignatureForm::Binding(at, Some(ty)) => {
            let ty = ty.copy(alloc)?;
            Ok(Chained::Place(whole(alloc, Root::BoundInput(*at)), ty))
        }
        SignatureForm::Environment(key) => environment(alloc, table, *key),
        SignatureForm::Computed(Some(ty)) => {
            Ok(computed(alloc, member.code, Receiver::Same, ty)?)
        }
        SignatureForm::Function(_, _, false) => {
            Ok(Chained::Function(Receiver::Same, declaration, place))
        }
        _ => Err(Fault::NotTyped),
    }
}

/// A member of a data struct or an enum in a member of it.
fn own_of_data(
    alloc: Global,
    declaration: u32,
    place: u32,
    member: &Signature,
) -> Result<Chained, Fault>
    ensures found { Answers result (own_of_data declaration place member.now.code member.now.form) }
{
    match &member.form {
        SignatureForm::Stored(at, _, Some(ty), _) => Ok(Chained::Value(
            Core::Look(Lookup::OwnField(*at)),
            ty.copy(alloc)?,
        )),
        SignatureForm::Computed(Some(ty)) => {
            Ok(computed(alloc, member.code, Receiver::Same, ty)?)
        }
        SignatureForm::Function(_, _, false) => {
            Ok(Chained::Function(Receiver::Same, declaration, place))
        }
        _ => Err(Fault::NotTyped),
    }
}

/// A member of a data struct in a `mutating` function of it.
fn own_of_mutating(
    alloc: Global,
    declaration: u32,
    place: u32,
    member: &Signature,
) -> Result<Chained, Fault>
    ensures found { Answers result (own_of_mutating declaration place member.now.code member.now.form) }
{
    match &member.form {
        SignatureForm::Stored(at, Binder::Var, Some(ty), _) => {
            let ty = ty.copy(alloc)?;
            let target = whole(alloc, Root::Itself);
            Ok(Chained::Place(then_hop(target, CoreHop::Field(*at))?, ty))
        }
        SignatureForm::Function(_, _, true) => Ok(Chained::Mutating(
            whole(alloc, Root::Itself),
            declaration,
            place,
        )),
        _ => own_of_data(alloc, declaration, place, member),
    }
}

/// A static property in a static member of its preference key.
fn own_of_key(alloc: Global, member: &Signature) -> Result<Chained, Fault>
    ensures found { Answers result (own_of_key member.now.code member.now.form) }
{
    match &member.form {
        SignatureForm::Static(Some(ty)) => {
            Ok(Chained::Value(Core::Static(member.code), ty.copy(alloc)?))
        }
        _ => Err(Fault::NotTyped),
    }
}

/// A member of `self`, by what `self` is where the code stands.
pub fn own(
    alloc: Global,
    scope: &Scope<'_>,
    declaration: u32,
    place: u32,
    member: &Signature,
) -> Result<Chained, Fault>
    ensures found { Answers result (own_at (seen scope.now).table declaration (seen scope.now).stance (place, member.now)) }
{
    match scope.stance {
        Stance::View => own_of_view(alloc, scope.table, declaration, place, member),
        Stance::Data => own_of_data(alloc, declaration, place, member),
        Stance::Mutating => own_of_mutating(alloc, declaration, place, member),
        Stance::Key => own_of_key(alloc, member),
        Stance::Outside => Err(Fault::NotTyped),
        Stance::Initial => Err(Fault::NotTyped),
    }
}
