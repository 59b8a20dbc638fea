ghost use Rattle.std.specs.Prelude.{◌≡◌, IfOk, List, ℕ, ◌++◌, ◌∷◌, [], Some, option_copied, Option, slice_get};
ghost use Rattle.post_rules.specs.Members.{member_at, member_in, property_ty, property_of_text, property_of_list, asked_of_list, place_member_in, place_member_of, changed_at_list, field_in, cases, type_member_at, type_member_in, all_cases};
ghost use Rattle.post_rules.specs.Members as rule;
ghost use Rattle.post_rules.specs.Places.{invocation, target};
ghost use Rattle.post_rules.specs.declared.chained.Chained.TheVariants as chained;
ghost use Rattle.swift_core.specs.declared.term.Core.TheVariants as core;
ghost use Rattle.swift_core.specs.declared.term.Unary.TheVariants as unary;
ghost use Rattle.sv_value.specs.declared.value.Value.TheVariants as value;
ghost use Rattle.type_base.specs.Claims.{and_then, when};
ghost use Rattle.type_base.specs.Names.{member_of};
ghost use Rattle.type_base.specs.Rules.{Answers};

use crate::built_ins::{asking_named, changing_named, property_named};
use crate::places::{field, invoke, read, then_hop};
use crate::refusals::{no_place, no_value};
use post_rules::{Chained, Method};
use std::alloc::{AllocError, Global};
use sv_items::{Boxed, Items};
use sv_value::Value;
use swift_ast::Binder;
use swift_core::{
    CodeId, Core, CoreHop, Declaration, Kind, Receiver, Signature, SignatureForm, Table, Target,
    Ty, Unary,
};
use type_base::{Fault, find_member};
use value_calls::Property;

/// The value of a computed property.
pub fn computed(
    alloc: Global,
    code: CodeId,
    receiver: Receiver,
    ty: &Ty,
) -> Result<Chained, AllocError>
    ensures value { IfOk result (λ s. s ≡ chained.Value (core.Invoke (invocation code receiver [])) ty.now) }
{
    let ty = ty.copy(alloc)?;
    let used = invoke(code, receiver, Items::new(alloc));
    Ok(Chained::Value(Core::Invoke(Boxed::new(alloc, used)?), ty))
}

/// A property or a function of the program that a value has.
fn member_at(
    alloc: Global,
    value: Core,
    declaration: u32,
    place: u32,
    member: &Signature,
) -> Result<Chained, Fault>
    ensures found { Answers result (member_at value declaration place member.now.code member.now.form) }
{
    match &member.form {
        SignatureForm::Stored(at, _, Some(ty), _) => {
            let ty = ty.copy(alloc)?;
            Ok(Chained::Value(field(alloc, value, *at)?, ty))
        }
        SignatureForm::Computed(Some(ty)) => {
            Ok(computed(alloc, member.code, Receiver::Value(value), ty)?)
        }
        SignatureForm::Function(_, _, false) => Ok(Chained::Function(
            Receiver::Value(value),
            declaration,
            place,
        )),
        _ => Err(no_value(value)),
    }
}

/// A member of a value of a data struct or an enum.
#[tactic(auto, unfolding(type_base::specs::Claims::and_then))]
fn named_member(
    alloc: Global,
    table: &Table,
    value: Core,
    number: u32,
    name: &[u8],
) -> Result<Chained, Fault>
    ensures found { Answers result (and_then (slice_get table.now.declarations number) (λ declaration. member_in value number (member_of name.now declaration))) }
{
    match table.declarations.get(number as usize) {
        Some(declaration) => match find_member(declaration, name) {
            Some((place, member)) => member_at(alloc, value, number, place, member),
            None => Err(Fault::NotTyped),
        },
        None => Err(Fault::NotTyped),
    }
}

fn look(alloc: Global, value: Core, asked: Property, ty: Ty) -> Result<Chained, AllocError>
    ensures value { IfOk result (λ s. s ≡ chained.Value (core.Unary (unary.Look asked) value) ty) }
{
    Ok(Chained::Value(
        Core::Unary(Unary::Look(asked), Boxed::new(alloc, value)?),
        ty,
    ))
}

/// A property of a string.
#[tactic(auto, unfolding(type_base::specs::Claims::and_then))]
fn text_member(alloc: Global, value: Core, name: &[u8]) -> Result<Chained, Fault>
    ensures found { Answers result (and_then (rule.property_named name.now) (property_of_text value)) }
{
    match property_named(name) {
        Some(Property::Count) => Ok(look(alloc, value, Property::Count, Ty::Int)?),
        Some(Property::IsEmpty) => Ok(look(alloc, value, Property::IsEmpty, Ty::Bool)?),
        _ => Err(no_value(value)),
    }
}

/// The type of a property of a list.
fn property_ty(alloc: Global, element: &Ty, asked: Property) -> Result<Ty, AllocError>
    ensures value { IfOk result (λ t. t ≡ property_ty element.now asked) }
{
    match asked {
        Property::Count => Ok(Ty::Int),
        Property::IsEmpty => Ok(Ty::Bool),
        Property::First => {
            let element = element.copy(alloc)?;
            Ok(Ty::Optional(Boxed::new(alloc, element)?))
        }
        Property::Last => {
            let element = element.copy(alloc)?;
            Ok(Ty::Optional(Boxed::new(alloc, element)?))
        }
    }
}

/// A function of a list that changes nothing, or its indices.
fn asked_of_list(alloc: Global, value: Core, element: &Ty, name: &[u8]) -> Result<Chained, Fault>
    ensures found { Answers result (asked_of_list value element.now name.now (rule.asking_named name.now)) }
{
    match asking_named(name) {
        Some(asked) => Ok(Chained::Asks(value, element.copy(alloc)?, asked)),
        None => {
            if name == b"indices".as_slice() {
                return Ok(Chained::Indices(value));
            }
            Err(Fault::NotTyped)
        }
    }
}

/// A property or a function of a list that changes nothing, or its indices.
fn list_member(alloc: Global, value: Core, element: &Ty, name: &[u8]) -> Result<Chained, Fault>
    ensures found { Answers result (property_of_list value element.now name.now (rule.property_named name.now)) }
{
    match property_named(name) {
        Some(asked) => {
            let ty = property_ty(alloc, element, asked)?;
            Ok(look(alloc, value, asked, ty)?)
        }
        None => asked_of_list(alloc, value, element, name),
    }
}

/// The member of this name of a value.
#[tactic(auto, unfolding(post_rules::specs::Members::value_member))]
pub fn value_member(
    alloc: Global,
    table: &Table,
    value: Core,
    ty: &Ty,
    name: &[u8],
) -> Result<Chained, Fault>
    ensures found { Answers result (rule.value_member table.now value ty.now name.now) }
{
    match ty {
        Ty::Named(number) => named_member(alloc, table, value, *number, name),
        Ty::List(element) => list_member(alloc, value, element.get(), name),
        Ty::Text => text_member(alloc, value, name),
        _ => Err(no_value(value)),
    }
}

/// A property or a function of the program that the value at a place has.
fn place_member_in(
    alloc: Global,
    target: Target,
    declaration: u32,
    place: u32,
    member: &Signature,
) -> Result<Chained, Fault>
    ensures found { Answers result (place_member_in target declaration place member.now.code member.now.form) }
{
    match &member.form {
        SignatureForm::Stored(at, Binder::Var, Some(ty), _) => {
            let ty = ty.copy(alloc)?;
            Ok(Chained::Place(then_hop(target, CoreHop::Field(*at))?, ty))
        }
        SignatureForm::Function(_, _, true) => Ok(Chained::Mutating(target, declaration, place)),
        _ => member_at(alloc, read(alloc, target)?, declaration, place, member),
    }
}

/// A member of the value of a data struct or an enum at a place.
#[tactic(auto, unfolding(type_base::specs::Claims::and_then))]
fn named_place_member(
    alloc: Global,
    table: &Table,
    target: Target,
    number: u32,
    name: &[u8],
) -> Result<Chained, Fault>
    ensures found { Answers result (and_then (slice_get table.now.declarations number) (λ declaration. place_member_of target number (member_of name.now declaration))) }
{
    match table.declarations.get(number as usize) {
        Some(declaration) => match find_member(declaration, name) {
            Some((place, member)) => place_member_in(alloc, target, number, place, member),
            None => Err(Fault::NotTyped),
        },
        None => Err(Fault::NotTyped),
    }
}

/// A member of the list at a place.
fn list_place_member(
    alloc: Global,
    target: Target,
    element: &Ty,
    name: &[u8],
) -> Result<Chained, Fault>
    ensures found { Answers result (changed_at_list target element.now name.now (rule.changing_named name.now)) }
{
    match changing_named(name) {
        Some(changing) => Ok(Chained::Changes(target, element.copy(alloc)?, changing)),
        None => list_member(alloc, read(alloc, target)?, element, name),
    }
}

/// The member of this name of the value at a place.
#[tactic(auto, unfolding(post_rules::specs::Members::place_member))]
pub fn place_member(
    alloc: Global,
    table: &Table,
    target: Target,
    ty: &Ty,
    name: &[u8],
) -> Result<Chained, Fault>
    ensures found { Answers result (rule.place_member table.now target ty.now name.now) }
{
    match ty {
        Ty::Named(number) => named_place_member(alloc, table, target, *number, name),
        Ty::List(element) => list_place_member(alloc, target, element.get(), name),
        Ty::Bool => {
            if name == b"toggle".as_slice() {
                return Ok(Chained::Toggles(target));
            }
            Err(Fault::NotTyped)
        }
        Ty::Text => text_member(alloc, read(alloc, target)?, name),
        _ => Err(no_place(target)),
    }
}

/// A `var` property: its place among the fields, and its type.
fn field_in(alloc: Global, member: &Signature) -> Result<(u32, Ty), Fault>
    ensures found { Answers result (field_in member.now.form) }
{
    match &member.form {
        SignatureForm::Stored(at, Binder::Var, Some(ty), _) => Ok((*at, ty.copy(alloc)?)),
        _ => Err(Fault::NotTyped),
    }
}

/// The `var` property of this name of a value of this type: its place among the fields, and its type.
#[tactic(auto, unfolding(type_base::specs::Claims::and_then, post_rules::specs::Members::var_field))]
pub fn var_field(alloc: Global, table: &Table, ty: &Ty, name: &[u8]) -> Result<(u32, Ty), Fault>
    ensures found { Answers result (rule.var_field table.now ty.now name.now) }
{
    match ty.named() {
        Some(number) => match table.declarations.get(number as usize) {
            Some(declaration) => match find_member(declaration, name) {
                Some((_, member)) => field_in(alloc, member),
                None => Err(Fault::NotTyped),
            },
            None => Err(Fault::NotTyped),
        },
        None => Err(Fault::NotTyped),
    }
}

/// The cases of an enum in order.
#[tactic(auto, using(crate::proofs::Cases::cases_turn))]
fn cases(alloc: Global, kind: u32, count: u32) -> Result<Items<Value>, AllocError>
    ensures value { IfOk result (λ all. all ≡ cases kind count) }
{
    let mut all = Items::new(alloc);
    for place in 0..count {
        all.push(Value::Case { kind, place })?;
    }
    Ok(all)
}

/// `allCases` of an enum that names `CaseIterable`.
fn all_cases(alloc: Global, number: u32, kind: Kind) -> Result<Chained, Fault>
    ensures found { Answers result (all_cases number kind) }
{
    match kind {
        Kind::Enum(true, count) => {
            let all = cases(alloc, number, count)?;
            let ty = Ty::List(Boxed::new(alloc, Ty::Named(number))?);
            Ok(Chained::Value(Core::Literal(Value::List(all)), ty))
        }
        _ => Err(Fault::NotTyped),
    }
}

/// A static property or a case.
fn type_member_at(alloc: Global, number: u32, member: &Signature) -> Result<Chained, Fault>
    ensures found { Answers result (type_member_at number member.now.code member.now.form) }
{
    match &member.form {
        SignatureForm::Static(Some(ty)) => {
            Ok(Chained::Value(Core::Static(member.code), ty.copy(alloc)?))
        }
        SignatureForm::Case(place) => {
            let case = Value::Case {
                kind: number,
                place: *place,
            };
            Ok(Chained::Value(Core::Literal(case), Ty::Named(number)))
        }
        _ => Err(Fault::NotTyped),
    }
}

fn type_member_in(
    alloc: Global,
    number: u32,
    declaration: &Declaration,
    name: &[u8],
) -> Result<Chained, Fault>
    ensures found { Answers result (type_member_in number declaration.now.kind name.now (member_of name.now declaration.now)) }
{
    match find_member(declaration, name) {
        Some((_, member)) => type_member_at(alloc, number, member),
        None => {
            if name == b"allCases".as_slice() {
                return all_cases(alloc, number, declaration.kind);
            }
            Err(Fault::NotTyped)
        }
    }
}

/// A static property, a case or all cases of the declaration of this number.
#[tactic(auto, unfolding(type_base::specs::Claims::and_then, post_rules::specs::Members::type_member))]
pub fn type_member(alloc: Global, table: &Table, number: u32, name: &[u8]) -> Result<Chained, Fault>
    ensures found { Answers result (rule.type_member table.now number name.now) }
{
    match table.declarations.get(number as usize) {
        Some(declaration) => type_member_in(alloc, number, declaration, name),
        None => Err(Fault::NotTyped),
    }
}
