ghost use Rattle.std.specs.Prelude.{◌≡◌, IfOk, List, [], ◌∷◌, ◌++◌};
ghost use Rattle.post_rules.specs.Calls as rule;
ghost use Rattle.swift_core.specs.declared.ty.Ty.{out-Ty};
ghost use Rattle.type_base.specs.Rules.{Answers};
ghost use Rattle.type_calls.specs.Few.{first_of_one, both_of_two, if_bare, if_two};
ghost use Rattle.post_rules.specs.declared.chained.Chained.TheVariants as chained;
ghost use Rattle.swift_core.specs.declared.term.Core.TheVariants as core;

use post_rules::{BuiltIn, Chained, Effect, Method};
use std::alloc::{AllocError, Global};
use sv_items::{Boxed, Items};
use swift_core::{Binary, Change, ChangeCall, Core, ParamSignature, Target, Ty, Unary};
use swift_lex::Word;
use type_base::Fault;
use value_calls::{Arithmetic, Operator};

/// The item of a list of one.
#[tactic(auto, using(crate::proofs::Fewer::last_of_one, crate::proofs::Fewer::none_of_more))]
fn first_of_one(items: Items<Core>) -> Option<Core>
    ensures value { result ≡ first_of_one items }
{
    let mut items = items;
    match items.pop() {
        Some(last) => {
            if items.is_empty() {
                return Some(last);
            }
            None
        }
        None => None,
    }
}

/// Both items of a list of two.
#[tactic(auto, using(crate::proofs::Fewer::both_of_front, crate::proofs::Fewer::none_of_front))]
fn both_of_two(items: Items<Core>) -> Option<(Core, Core)>
    ensures value { result ≡ both_of_two items }
{
    let mut items = items;
    match items.pop() {
        Some(last) => match first_of_one(items) {
            Some(first) => Some((first, last)),
            None => None,
        },
        None => None,
    }
}

fn unlabelled(ty: Ty) -> ParamSignature
    ensures value { result ≡ rule.unlabelled ty }
{
    ParamSignature {
        label: None,
        ty: Some(ty),
    }
}

fn labelled(alloc: Global, label: &[u8], ty: Ty) -> Result<ParamSignature, AllocError>
    ensures value { IfOk result (λ p. p ≡ rule.labelled label.now ty) }
{
    let bytes = label.to_vec(alloc)?;
    Ok(ParamSignature {
        label: Some(Word::new(bytes)),
        ty: Some(ty),
    })
}

fn one(alloc: Global, first: ParamSignature) -> Result<Items<ParamSignature>, AllocError>
    ensures value { IfOk result (λ ps. ps ≡ first ∷ []) }
{
    let mut all = Items::new(alloc);
    all.push(first)?;
    Ok(all)
}

fn two(
    alloc: Global,
    first: ParamSignature,
    second: ParamSignature,
) -> Result<Items<ParamSignature>, AllocError>
    ensures value { IfOk result (λ ps. ps ≡ first ∷ second ∷ []) }
{
    let mut all = one(alloc, first)?;
    all.push(second)?;
    Ok(all)
}

/// The parameter of `append`.
fn appended(
    alloc: Global,
    is_labelled: bool,
    element: Ty,
) -> Result<Items<ParamSignature>, AllocError>
    ensures value { IfOk result (λ ps. ps ≡ rule.method_parameters Method.Append is_labelled element) }
{
    if is_labelled {
        let list = Ty::List(Boxed::new(alloc, element)?);
        return one(alloc, labelled(alloc, b"contentsOf", list)?);
    }
    one(alloc, unlabelled(element))
}

/// The parameters of a function of a list with elements of this type.
pub fn method_parameters(
    alloc: Global,
    method: Method,
    is_labelled: bool,
    element: &Ty,
) -> Result<Items<ParamSignature>, AllocError>
    ensures value { IfOk result (λ ps. ps ≡ rule.method_parameters method is_labelled element.now) }
{
    match method {
        Method::Contains => one(alloc, unlabelled(element.copy(alloc)?)),
        Method::FirstIndex => one(alloc, labelled(alloc, b"of", element.copy(alloc)?)?),
        Method::Append => appended(alloc, is_labelled, element.copy(alloc)?),
        Method::Insert => {
            let first = unlabelled(element.copy(alloc)?);
            two(alloc, first, labelled(alloc, b"at", Ty::Int)?)
        }
        Method::Remove => one(alloc, labelled(alloc, b"at", Ty::Int)?),
        Method::SwapAt => two(alloc, unlabelled(Ty::Int), unlabelled(Ty::Int)),
        Method::RemoveFirst | Method::RemoveLast | Method::RemoveAll => Ok(Items::new(alloc)),
    }
}

/// The parameters of a built-in function that stands alone.
pub fn built_in_parameters(
    alloc: Global,
    built_in: BuiltIn,
) -> Result<Items<ParamSignature>, AllocError>
    ensures value { IfOk result (λ ps. ps ≡ rule.built_in_parameters built_in) }
{
    match built_in {
        BuiltIn::Absolute => one(alloc, unlabelled(Ty::Int)),
        BuiltIn::Text => {
            let first = labelled(alloc, b"repeating", Ty::Text)?;
            two(alloc, first, labelled(alloc, b"count", Ty::Int)?)
        }
        _ => two(alloc, unlabelled(Ty::Int), unlabelled(Ty::Int)),
    }
}

/// A value of two operands.
fn binary(
    alloc: Global,
    operator: Binary,
    first: Core,
    second: Core,
    ty: Ty,
) -> Result<Chained, AllocError>
    ensures value { IfOk result (λ s. s ≡ chained.Value (core.Binary operator first second) ty) }
{
    let first = Boxed::new(alloc, first)?;
    Ok(Chained::Value(
        Core::Binary(operator, first, Boxed::new(alloc, second)?),
        ty,
    ))
}

/// A value of one operand.
fn unary(alloc: Global, operator: Unary, operand: Core, ty: Ty) -> Result<Chained, AllocError>
    ensures value { IfOk result (λ s. s ≡ chained.Value (core.Unary operator operand) ty) }
{
    Ok(Chained::Value(Core::Unary(operator, Boxed::new(alloc, operand)?), ty))
}

/// What a function of a list is that changes nothing.
#[tactic(auto, unfolding(type_base::specs::Claims::and_then), using(crate::proofs::Fewer::asked_Contains, crate::proofs::Fewer::asked_FirstIndex))]
pub fn asked(
    alloc: Global,
    method: Method,
    value: Core,
    cores: Items<Core>,
) -> Result<Chained, Fault>
    ensures found { Answers result (rule.asked method value cores) }
{
    match method {
        Method::Contains => match first_of_one(cores) {
            Some(item) => Ok(binary(alloc, Binary::Contains, value, item, Ty::Bool)?),
            None => Err(Fault::NotTyped),
        },
        Method::FirstIndex => match first_of_one(cores) {
            Some(item) => {
                let ty = Ty::Optional(Boxed::new(alloc, Ty::Int)?);
                Ok(binary(alloc, Binary::FirstIndex, value, item, ty)?)
            }
            None => Err(Fault::NotTyped),
        },
        _ => Err(Fault::NotTyped),
    }
}

/// `append`, with a label or without.
#[tactic(auto, unfolding(type_base::specs::Claims::and_then), using(crate::proofs::Fewer::change_append, crate::proofs::Fewer::change_append_all))]
fn append_call(is_labelled: bool, cores: Items<Core>) -> Result<ChangeCall, Fault>
    ensures found { Answers result (rule.change_call Method.Append is_labelled cores) }
{
    match first_of_one(cores) {
        Some(first) => {
            if is_labelled {
                return Ok(ChangeCall::AppendAll(first));
            }
            Ok(ChangeCall::Append(first))
        }
        None => Err(Fault::NotTyped),
    }
}

/// A call without arguments.
#[tactic(auto, using(crate::proofs::Fewer::change_none))]
fn bare_call(method: Method, is_labelled: bool, cores: Items<Core>) -> Result<ChangeCall, Fault>
    ensures found { Answers result (if_bare method (rule.change_call method is_labelled cores)) }
{
    if !cores.is_empty() {
        return Err(Fault::NotTyped);
    }
    match method {
        Method::RemoveFirst => Ok(ChangeCall::RemoveFirst),
        Method::RemoveLast => Ok(ChangeCall::RemoveLast),
        Method::RemoveAll => Ok(ChangeCall::RemoveAll),
        _ => Err(Fault::NotTyped),
    }
}

/// The change that a function of a list makes.
#[tactic(auto, unfolding(type_base::specs::Claims::and_then), using(crate::proofs::Fewer::change_insert, crate::proofs::Fewer::change_remove, crate::proofs::Fewer::change_swap))]
fn change_call(method: Method, is_labelled: bool, cores: Items<Core>) -> Result<ChangeCall, Fault>
    ensures found { Answers result (rule.change_call method is_labelled cores) }
{
    match method {
        Method::Append => append_call(is_labelled, cores),
        Method::Insert => match both_of_two(cores) {
            Some((item, index)) => Ok(ChangeCall::Insert(item, index)),
            None => Err(Fault::NotTyped),
        },
        Method::Remove => match first_of_one(cores) {
            Some(index) => Ok(ChangeCall::Remove(index)),
            None => Err(Fault::NotTyped),
        },
        Method::SwapAt => match both_of_two(cores) {
            Some((first, second)) => Ok(ChangeCall::SwapAt(first, second)),
            None => Err(Fault::NotTyped),
        },
        Method::RemoveFirst | Method::RemoveLast | Method::RemoveAll => {
            bare_call(method, is_labelled, cores)
        }
        Method::Contains | Method::FirstIndex => Err(Fault::NotTyped),
    }
}

/// The type of the value that a function takes out of a list.
fn method_result(method: Method, element: Ty) -> Option<Ty>
    ensures value { result ≡ rule.method_result method element }
{
    match method {
        Method::Remove | Method::RemoveFirst | Method::RemoveLast => Some(element),
        _ => None,
    }
}

/// A change, with its value where it has one.
pub fn after_change(alloc: Global, change: Change, made: Option<Ty>) -> Result<Chained, AllocError>
    ensures value { IfOk result (λ s. s ≡ rule.after_change change made) }
{
    match made {
        Some(ty) => Ok(Chained::Value(Core::Change(Boxed::new(alloc, change)?), ty)),
        None => Ok(Chained::Effect(Effect::Change(change))),
    }
}

/// What a function of a list is that changes the list at a place.
#[tactic(auto, unfolding(type_base::specs::Claims::and_then))]
pub fn changed(
    alloc: Global,
    target: Target,
    element: Ty,
    method: Method,
    is_labelled: bool,
    cores: Items<Core>,
) -> Result<Chained, Fault>
    ensures found { Answers result (rule.changed target element method is_labelled cores) }
{
    let call = change_call(method, is_labelled, cores)?;
    let change = Change { target, call };
    Ok(after_change(alloc, change, method_result(method, element))?)
}

/// `String(repeating: text, count: n)`, `min` or `max`.
#[tactic(auto, unfolding(type_base::specs::Claims::and_then), using(crate::proofs::Fewer::called_Text, crate::proofs::Fewer::called_Min, crate::proofs::Fewer::called_Max))]
fn called_with_two(alloc: Global, built_in: BuiltIn, cores: Items<Core>) -> Result<Chained, Fault>
    ensures found { Answers result (if_two built_in (rule.built_in_called built_in cores)) }
{
    match both_of_two(cores) {
        Some((first, second)) => match built_in {
            BuiltIn::Text => Ok(binary(alloc, Binary::Repeat, first, second, Ty::Text)?),
            BuiltIn::Min => {
                let least = Binary::Operate(Operator::Compute(Arithmetic::Min));
                Ok(binary(alloc, least, first, second, Ty::Int)?)
            }
            BuiltIn::Max => {
                let greatest = Binary::Operate(Operator::Compute(Arithmetic::Max));
                Ok(binary(alloc, greatest, first, second, Ty::Int)?)
            }
            _ => Err(Fault::NotTyped),
        },
        None => Err(Fault::NotTyped),
    }
}

/// What a built-in function is that stands alone.
#[tactic(auto, unfolding(type_base::specs::Claims::and_then), using(crate::proofs::Fewer::called_Absolute))]
pub fn built_in_called(
    alloc: Global,
    built_in: BuiltIn,
    cores: Items<Core>,
) -> Result<Chained, Fault>
    ensures found { Answers result (rule.built_in_called built_in cores) }
{
    match built_in {
        BuiltIn::Absolute => match first_of_one(cores) {
            Some(number) => {
                let operator = Unary::Operate(value_calls::Unary::Absolute);
                Ok(unary(alloc, operator, number, Ty::Int)?)
            }
            None => Err(Fault::NotTyped),
        },
        BuiltIn::Text | BuiltIn::Min | BuiltIn::Max => called_with_two(alloc, built_in, cores),
        BuiltIn::Int => Err(Fault::NotTyped),
    }
}

/// `String(x)` of a number or a truth value.
pub fn described(alloc: Global, value: Core, ty: &Ty) -> Result<Chained, Fault>
    ensures found { Answers result (rule.described_at value (out-Ty ty.now)) }
{
    match ty {
        Ty::Int | Ty::Bool => {
            let operator = Unary::Operate(value_calls::Unary::Describe);
            Ok(unary(alloc, operator, value, Ty::Text)?)
        }
        _ => Err(Fault::NotTyped),
    }
}
