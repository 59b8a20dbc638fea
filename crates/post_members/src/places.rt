ghost use Rattle.std.specs.Prelude.{◌≡◌, ◌∷◌, [], IfOk};
ghost use Rattle.post_rules.specs.Chains.{element_of, forced};
ghost use Rattle.post_rules.specs.Places as place;
ghost use Rattle.post_rules.specs.Places.{invocation, part_at};
ghost use Rattle.post_rules.specs.declared.chained.Chained.TheVariants as chained;
ghost use Rattle.swift_core.specs.declared.term.Core.TheVariants as core;
ghost use Rattle.swift_core.specs.declared.term.Unary.TheVariants as unary;
ghost use Rattle.swift_core.specs.declared.term.CoreHop.{out-CoreHop};
ghost use Rattle.type_base.specs.Rules.{Answers};

use crate::refusals::no_element;
use post_rules::Chained;
use std::alloc::{AllocError, Global};
use sv_items::{Boxed, Items};
use swift_core::{
    Binary, Change, ChangeCall, CodeId, Core, CoreHop, Invocation, Lookup, Receiver, Root, Target,
    Ty, Unary,
};
use type_base::Fault;

/// The place that is a whole variable.
pub fn whole(alloc: Global, root: Root) -> Target
    ensures value { result ≡ place.whole root }
{
    Target {
        root,
        hops: Items::new(alloc),
    }
}

/// A part of the value at a place.
pub fn then_hop(target: Target, hop: CoreHop) -> Result<Target, AllocError>
    ensures value { IfOk result (λ t. t ≡ place.then_hop target hop) }
{
    let Target { root, hops } = target;
    let mut hops = hops;
    hops.push(hop)?;
    Ok(Target { root, hops })
}

/// The field at this place of a value.
pub fn field(alloc: Global, value: Core, at: u32) -> Result<Core, AllocError>
    ensures value { IfOk result (λ c. c ≡ core.Unary (unary.Field at) value) }
{
    Ok(Core::Unary(Unary::Field(at), Boxed::new(alloc, value)?))
}

/// The part of a value that a step leads to.
fn part(alloc: Global, value: Core, hop: CoreHop) -> Result<Core, AllocError>
    ensures value { IfOk result (λ c. c ≡ part_at value (out-CoreHop hop)) }
{
    match hop {
        CoreHop::Field(at) => field(alloc, value, at),
        CoreHop::Index(index) => {
            let value = Boxed::new(alloc, value)?;
            Ok(Core::Binary(Binary::Element, value, Boxed::new(alloc, index)?))
        }
    }
}

/// What is looked up at the root of a place.
fn look(root: Root) -> Lookup
    ensures value { result ≡ place.look_at root }
{
    match root {
        Root::Local(at) => Lookup::Local(at),
        Root::BoundLocal(at) => Lookup::BoundLocal(at),
        Root::BoundInput(at) => Lookup::BoundInput(at),
        Root::Slot(place) => Lookup::Slot(place),
        Root::Itself => Lookup::Itself,
    }
}

/// The first step into a variable. A property of `self` is looked up by itself.
#[tactic(auto, using(crate::proofs::Reading::read_other))]
fn first_part(alloc: Global, root: Root, first: CoreHop) -> Result<Core, AllocError>
    ensures value { IfOk result (λ c. c ≡ place.read_from root (first ∷ [])) }
{
    match root {
        Root::Itself => match first {
            CoreHop::Field(at) => Ok(Core::Look(Lookup::OwnField(at))),
            CoreHop::Index(index) => {
                part(alloc, Core::Look(Lookup::Itself), CoreHop::Index(index))
            }
        },
        _ => part(alloc, Core::Look(look(root)), first),
    }
}

/// The value at the place with this root and these steps.
#[tactic(auto, using(crate::proofs::Reading::read_none, crate::proofs::Reading::read_one, crate::proofs::Reading::read_last, crate::proofs::Reading::fewer))]
fn read_from(alloc: Global, root: Root, hops: Items<CoreHop>) -> Result<Core, AllocError>
    ensures value { IfOk result (λ c. c ≡ place.read_from root hops) }
{
    let mut front = hops;
    match front.pop() {
        Some(last) => {
            if front.is_empty() {
                return first_part(alloc, root, last);
            }
            let value = read_from(alloc, root, front)?;
            part(alloc, value, last)
        }
        None => Ok(Core::Look(look(root))),
    }
}

/// The value at a place.
#[tactic(auto, unfolding(post_rules::specs::Places::read))]
pub fn read(alloc: Global, target: Target) -> Result<Core, AllocError>
    ensures value { IfOk result (λ c. c ≡ place.read target) }
{
    let Target { root, hops } = target;
    read_from(alloc, root, hops)
}

/// The use of a function or a computed property.
pub fn invoke(code: CodeId, receiver: Receiver, arguments: Items<Core>) -> Invocation
    ensures value { result ≡ invocation code receiver arguments }
{
    Invocation {
        code,
        receiver,
        arguments,
    }
}

/// A call that changes the value at a place.
pub fn change(target: Target, call: ChangeCall) -> Change
    ensures value { result ≡ place.change target call }
{
    Change { target, call }
}

/// The element of the list that is a value.
#[tactic(auto, unfolding(type_base::specs::Claims::and_then))]
fn value_element(alloc: Global, value: Core, ty: &Ty, index: Core) -> Result<Chained, Fault>
    ensures found { Answers result (element_of (chained.Value value ty.now) index) }
{
    match ty.element() {
        Some(element) => {
            let value = part(alloc, value, CoreHop::Index(index))?;
            Ok(Chained::Value(value, element.copy(alloc)?))
        }
        None => Err(Fault::NotTyped),
    }
}

/// The element of the list at a place.
#[tactic(auto, unfolding(type_base::specs::Claims::and_then))]
fn place_element(alloc: Global, target: Target, ty: &Ty, index: Core) -> Result<Chained, Fault>
    ensures found { Answers result (element_of (chained.Place target ty.now) index) }
{
    match ty.element() {
        Some(element) => {
            let target = then_hop(target, CoreHop::Index(index))?;
            Ok(Chained::Place(target, element.copy(alloc)?))
        }
        None => Err(Fault::NotTyped),
    }
}

/// The element of a list at an index.
#[tactic(auto, using(crate::proofs::Others::element_none))]
pub fn element(alloc: Global, so_far: Chained, index: Core) -> Result<Chained, Fault>
    ensures found { Answers result (element_of so_far index) }
{
    match so_far {
        Chained::Value(value, ty) => value_element(alloc, value, &ty, index),
        Chained::Place(target, ty) => place_element(alloc, target, &ty, index),
        other => Err(no_element(other, index)),
    }
}

/// The value in a filled optional.
#[tactic(auto, unfolding(type_base::specs::Claims::and_then))]
pub fn force(alloc: Global, value: Core, ty: &Ty) -> Result<Chained, Fault>
    ensures found { Answers result (forced (value, ty.now)) }
{
    match ty.inside() {
        Some(inside) => {
            let inside = inside.copy(alloc)?;
            let value = Boxed::new(alloc, value)?;
            Ok(Chained::Value(Core::Unary(Unary::Force, value), inside))
        }
        None => Err(Fault::NotTyped),
    }
}
