ghost use Rattle.std.specs.Prelude.{◌≡◌, IfOk, Some, []};
ghost use Rattle.expr_rules.specs.Checks.{Checks};
ghost use Rattle.expr_rules.specs.Levels.{infer_to};
ghost use Rattle.post_rules.specs.Calls as rule;
ghost use Rattle.post_rules.specs.Calls.{Callee, callee_in, find_arguments, find_called, find_described, find_made, find_used, find_built_in_call, find_call, function_called, mutating_called, no_arguments};
ghost use Rattle.post_rules.specs.Chains.{find_binding};
ghost use Rattle.post_rules.specs.Syntax.{is_labelled};
ghost use Rattle.type_base.specs.Claims.{and_then};
ghost use Rattle.type_base.specs.Context.{seen};
ghost use Rattle.type_base.specs.Rules.{Answers};

use crate::refusals::no_chain;
use expr_rules::check;
use post_members::{change, invoke};
use post_rules::{BuiltIn, Chained, Effect, Method};
use std::alloc::{AllocError, Global};
use sv_items::{Boxed, Items};
use swift_ast::{Arg, Expr};
use swift_core::{
    ChangeCall, Core, Invocation, Kind, Lookup, Receiver, Signature, SignatureForm, Target, Ty,
};
use type_base::{Fault, Inner, Scope};
use type_calls::{
    after_change, arguments as passed_arguments, asked, begins_labelled, built_in_called,
    built_in_parameters, changed, described, expr_of, method_parameters,
};
use type_places::fillings_of;

/// The use of a function, with its value where it has one.
fn after_call(alloc: Global, used: Invocation, made: &Option<Ty>) -> Result<Chained, AllocError>
    ensures value { IfOk result (λ s. s ≡ rule.after_call used made.now) }
{
    match made {
        Some(ty) => {
            let ty = ty.copy(alloc)?;
            Ok(Chained::Value(Core::Invoke(Boxed::new(alloc, used)?), ty))
        }
        None => Ok(Chained::Effect(Effect::Invoke(used))),
    }
}

/// The type, if there is one.
fn copied(alloc: Global, ty: &Option<Ty>) -> Result<Option<Ty>, AllocError>
    ensures value { IfOk result (λ t. t ≡ ty.now) }
{
    match ty {
        Some(ty) => Ok(Some(ty.copy(alloc)?)),
        None => Ok(None),
    }
}

/// A call of a function that is not `mutating`.
#[tactic(auto, unfolding(type_base::specs::Claims::and_then, post_rules::specs::Calls::find_called))]
fn function_of<F>(
    inner: &Inner<F>,
    scope: &Scope<'_>,
    receiver: Receiver,
    member: &Signature,
    arguments: &[Arg],
) -> Result<Chained, Fault>
where
    F: Fn(Global, u32, &Scope<'_>, Option<&Ty>, &Expr) -> Result<(Core, Ty), Fault>,
    requires { Checks inner.now.room (F.pre inner.now.check) (F.post inner.now.check) }
    ensures found { Answers result (and_then (callee_in (Some member.now)) (λ (used : Callee). find_called (infer_to inner.now.room) used.parameters (λ cs. Some (function_called receiver used cs)) arguments.now (seen scope.now))) }
{
    match &member.form {
        SignatureForm::Function(parameters, result, _) => {
            let cores = passed_arguments(inner, scope, parameters.as_slice(), arguments)?;
            Ok(after_call(inner.alloc, invoke(member.code, receiver, cores), result)?)
        }
        _ => Err(Fault::NotTyped),
    }
}

/// A call of a function that is not `mutating`, by its declaration and its place.
#[tactic(auto, unfolding(type_base::specs::Claims::and_then, post_rules::specs::Calls::find_used, post_rules::specs::Calls::callee_at))]
fn function<F>(
    inner: &Inner<F>,
    scope: &Scope<'_>,
    receiver: Receiver,
    declaration: u32,
    place: u32,
    arguments: &[Arg],
) -> Result<Chained, Fault>
where
    F: Fn(Global, u32, &Scope<'_>, Option<&Ty>, &Expr) -> Result<(Core, Ty), Fault>,
    requires { Checks inner.now.room (F.pre inner.now.check) (F.post inner.now.check) }
    ensures found { Answers result (find_used (infer_to inner.now.room) declaration place (function_called receiver) arguments.now (seen scope.now)) }
{
    match scope.table.declarations.get(declaration as usize) {
        Some(declared) => match declared.members.get(place as usize) {
            Some(member) => function_of(inner, scope, receiver, member, arguments),
            None => Err(Fault::NotTyped),
        },
        None => Err(Fault::NotTyped),
    }
}

/// A call of a `mutating` function.
#[tactic(auto, unfolding(type_base::specs::Claims::and_then, post_rules::specs::Calls::find_called))]
fn mutating_of<F>(
    inner: &Inner<F>,
    scope: &Scope<'_>,
    target: Target,
    member: &Signature,
    arguments: &[Arg],
) -> Result<Chained, Fault>
where
    F: Fn(Global, u32, &Scope<'_>, Option<&Ty>, &Expr) -> Result<(Core, Ty), Fault>,
    requires { Checks inner.now.room (F.pre inner.now.check) (F.post inner.now.check) }
    ensures found { Answers result (and_then (callee_in (Some member.now)) (λ (used : Callee). find_called (infer_to inner.now.room) used.parameters (λ cs. Some (mutating_called target used cs)) arguments.now (seen scope.now))) }
{
    match &member.form {
        SignatureForm::Function(parameters, result, _) => {
            let cores = passed_arguments(inner, scope, parameters.as_slice(), arguments)?;
            let made = copied(inner.alloc, result)?;
            let call = ChangeCall::Mutate(member.code, cores);
            Ok(after_change(inner.alloc, change(target, call), made)?)
        }
        _ => Err(Fault::NotTyped),
    }
}

/// A call of a `mutating` function, by its declaration and its place.
#[tactic(auto, unfolding(type_base::specs::Claims::and_then, post_rules::specs::Calls::find_used, post_rules::specs::Calls::callee_at))]
fn mutating<F>(
    inner: &Inner<F>,
    scope: &Scope<'_>,
    target: Target,
    declaration: u32,
    place: u32,
    arguments: &[Arg],
) -> Result<Chained, Fault>
where
    F: Fn(Global, u32, &Scope<'_>, Option<&Ty>, &Expr) -> Result<(Core, Ty), Fault>,
    requires { Checks inner.now.room (F.pre inner.now.check) (F.post inner.now.check) }
    ensures found { Answers result (find_used (infer_to inner.now.room) declaration place (mutating_called target) arguments.now (seen scope.now)) }
{
    match scope.table.declarations.get(declaration as usize) {
        Some(declared) => match declared.members.get(place as usize) {
            Some(member) => mutating_of(inner, scope, target, member, arguments),
            None => Err(Fault::NotTyped),
        },
        None => Err(Fault::NotTyped),
    }
}

/// The arguments of a function of a list.
fn method_arguments<F>(
    inner: &Inner<F>,
    scope: &Scope<'_>,
    element: &Ty,
    method: Method,
    arguments: &[Arg],
) -> Result<Items<Core>, Fault>
where
    F: Fn(Global, u32, &Scope<'_>, Option<&Ty>, &Expr) -> Result<(Core, Ty), Fault>,
    requires { Checks inner.now.room (F.pre inner.now.check) (F.post inner.now.check) }
    ensures found { Answers result (find_arguments (infer_to inner.now.room) (rule.method_parameters method (is_labelled arguments.now) element.now) arguments.now (seen scope.now)) }
{
    let parameters = method_parameters(inner.alloc, method, begins_labelled(arguments), element)?;
    passed_arguments(inner, scope, parameters.as_slice(), arguments)
}

/// A call of a function of a list that changes nothing.
#[tactic(auto, unfolding(type_base::specs::Claims::and_then, post_rules::specs::Calls::find_called))]
fn asks<F>(
    inner: &Inner<F>,
    scope: &Scope<'_>,
    list: (Core, Ty),
    method: Method,
    arguments: &[Arg],
) -> Result<Chained, Fault>
where
    F: Fn(Global, u32, &Scope<'_>, Option<&Ty>, &Expr) -> Result<(Core, Ty), Fault>,
    requires { Checks inner.now.room (F.pre inner.now.check) (F.post inner.now.check) }
    ensures found { Answers result (find_called (infer_to inner.now.room) (rule.method_parameters method (is_labelled arguments.now) list.1) (rule.asked method list.0) arguments.now (seen scope.now)) }
{
    let cores = method_arguments(inner, scope, &list.1, method, arguments)?;
    asked(inner.alloc, method, list.0, cores)
}

/// A call of a function of a list that changes it.
#[tactic(auto, unfolding(type_base::specs::Claims::and_then, post_rules::specs::Calls::find_called))]
fn changes<F>(
    inner: &Inner<F>,
    scope: &Scope<'_>,
    list: (Target, Ty),
    method: Method,
    arguments: &[Arg],
) -> Result<Chained, Fault>
where
    F: Fn(Global, u32, &Scope<'_>, Option<&Ty>, &Expr) -> Result<(Core, Ty), Fault>,
    requires { Checks inner.now.room (F.pre inner.now.check) (F.post inner.now.check) }
    ensures found { Answers result (find_called (infer_to inner.now.room) (rule.method_parameters method (is_labelled arguments.now) list.1) (rule.changed list.0 list.1 method (is_labelled arguments.now)) arguments.now (seen scope.now)) }
{
    let cores = method_arguments(inner, scope, &list.1, method, arguments)?;
    changed(
        inner.alloc,
        list.0,
        list.1,
        method,
        begins_labelled(arguments),
        cores,
    )
}

/// A call without arguments.
fn bare<F>(
    inner: &Inner<F>,
    scope: &Scope<'_>,
    so_far: Chained,
    arguments: &[Arg],
) -> Result<Chained, Fault>
    ensures found { Answers result (find_called (infer_to inner.now.room) [] (no_arguments so_far) arguments.now (seen scope.now)) }
{
    match arguments.split_first() {
        Some(_) => Err(no_chain(so_far)),
        None => Ok(so_far),
    }
}

/// `String(x)`, where there is one argument.
#[tactic(auto, unfolding(type_base::specs::Claims::and_then, post_rules::specs::Calls::find_described))]
fn describes<F>(inner: &Inner<F>, scope: &Scope<'_>, arguments: &[Arg]) -> Result<Chained, Fault>
where
    F: Fn(Global, u32, &Scope<'_>, Option<&Ty>, &Expr) -> Result<(Core, Ty), Fault>,
    requires { Checks inner.now.room (F.pre inner.now.check) (F.post inner.now.check) }
    ensures found { Answers result (find_described (infer_to inner.now.room) arguments.now (seen scope.now)) }
{
    match arguments {
        [argument] => match expr_of(argument) {
            Some(expr) => {
                let found = check(inner, scope, None, expr)?;
                described(inner.alloc, found.0, &found.1)
            }
            None => Err(Fault::NotTyped),
        },
        _ => Err(Fault::NotTyped),
    }
}

/// A call with the parameters of a built-in function that stands alone.
#[tactic(auto, unfolding(type_base::specs::Claims::and_then, post_rules::specs::Calls::find_called))]
fn built_in_function<F>(
    inner: &Inner<F>,
    scope: &Scope<'_>,
    built_in: BuiltIn,
    arguments: &[Arg],
) -> Result<Chained, Fault>
where
    F: Fn(Global, u32, &Scope<'_>, Option<&Ty>, &Expr) -> Result<(Core, Ty), Fault>,
    requires { Checks inner.now.room (F.pre inner.now.check) (F.post inner.now.check) }
    ensures found { Answers result (find_called (infer_to inner.now.room) (rule.built_in_parameters built_in) (rule.built_in_called built_in) arguments.now (seen scope.now)) }
{
    let parameters = built_in_parameters(inner.alloc, built_in)?;
    let cores = passed_arguments(inner, scope, parameters.as_slice(), arguments)?;
    built_in_called(inner.alloc, built_in, cores)
}

/// A call of a built-in function that stands alone.
#[tactic(auto, unfolding(post_rules::specs::Calls::find_built_in_call))]
fn built_in<F>(
    inner: &Inner<F>,
    scope: &Scope<'_>,
    built_in: BuiltIn,
    arguments: &[Arg],
) -> Result<Chained, Fault>
where
    F: Fn(Global, u32, &Scope<'_>, Option<&Ty>, &Expr) -> Result<(Core, Ty), Fault>,
    requires { Checks inner.now.room (F.pre inner.now.check) (F.post inner.now.check) }
    ensures found { Answers result (find_built_in_call (infer_to inner.now.room) built_in (is_labelled arguments.now) arguments.now (seen scope.now)) }
{
    match built_in {
        BuiltIn::Int => Err(Fault::NotTyped),
        BuiltIn::Text => {
            if begins_labelled(arguments) {
                return built_in_function(inner, scope, built_in, arguments);
            }
            describes(inner, scope, arguments)
        }
        _ => built_in_function(inner, scope, built_in, arguments),
    }
}

/// A data struct that is made by its initialiser.
#[tactic(auto, unfolding(type_base::specs::Claims::and_then, post_rules::specs::Calls::find_made))]
fn made<F>(
    inner: &Inner<F>,
    scope: &Scope<'_>,
    number: u32,
    arguments: &[Arg],
) -> Result<Chained, Fault>
where
    F: Fn(Global, u32, &Scope<'_>, Option<&Ty>, &Expr) -> Result<(Core, Ty), Fault>,
    requires { Checks inner.now.room (F.pre inner.now.check) (F.post inner.now.check) }
    ensures found { Answers result (find_made (infer_to inner.now.room) (find_binding (infer_to inner.now.room)) number arguments.now (seen scope.now)) }
{
    match scope.table.declarations.get(number as usize) {
        Some(declared) => match declared.kind {
            Kind::Data(_) => {
                let found = fillings_of(inner, scope, declared.members.as_slice(), arguments)?;
                Ok(Chained::Value(Core::Make(number, found), Ty::Named(number)))
            }
            _ => Err(Fault::NotTyped),
        },
        None => Err(Fault::NotTyped),
    }
}

/// `(arguments)` behind what the chain is so far.
#[tactic(auto, unfolding(post_rules::specs::Calls::find_call), using(crate::proofs::Others::call_none))]
pub fn call<F>(
    inner: &Inner<F>,
    scope: &Scope<'_>,
    so_far: Chained,
    arguments: &[Arg],
) -> Result<Chained, Fault>
where
    F: Fn(Global, u32, &Scope<'_>, Option<&Ty>, &Expr) -> Result<(Core, Ty), Fault>,
    requires { Checks inner.now.room (F.pre inner.now.check) (F.post inner.now.check) }
    ensures found { Answers result (find_call (infer_to inner.now.room) (find_binding (infer_to inner.now.room)) so_far arguments.now (seen scope.now)) }
{
    match so_far {
        Chained::Named(number) => made(inner, scope, number, arguments),
        Chained::BuiltIn(name) => built_in(inner, scope, name, arguments),
        Chained::Next(at, ty) => {
            let value = Chained::Value(Core::Look(Lookup::Local(at)), ty);
            bare(inner, scope, value, arguments)
        }
        Chained::Function(receiver, declaration, place) => {
            function(inner, scope, receiver, declaration, place, arguments)
        }
        Chained::Mutating(target, declaration, place) => {
            mutating(inner, scope, target, declaration, place, arguments)
        }
        Chained::Asks(value, element, method) => {
            asks(inner, scope, (value, element), method, arguments)
        }
        Chained::Changes(target, element, method) => {
            changes(inner, scope, (target, element), method, arguments)
        }
        Chained::Toggles(target) => {
            let toggled = change(target, ChangeCall::Toggle);
            bare(
                inner,
                scope,
                Chained::Effect(Effect::Change(toggled)),
                arguments,
            )
        }
        other => Err(no_chain(other)),
    }
}
