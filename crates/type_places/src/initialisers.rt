ghost use Rattle.std.specs.Prelude.{◌≡◌, ◌++◌, Some, OnOk};
ghost use Rattle.expr_rules.specs.Checks.{Checks};
ghost use Rattle.expr_rules.specs.Levels.{infer_to};
ghost use Rattle.post_rules.specs.Calls.{find_given, find_bound, find_filled, find_fillings_of, initial_filling, need_of, need_by, place, left, added};
ghost use Rattle.post_rules.specs.Chains.{find_binding, find_fillings};
ghost use Rattle.type_base.specs.Context.{seen};
ghost use Rattle.type_base.specs.Rules.{Answers};

use crate::target_places::binding;
use std::alloc::{AllocError, Global};
use sv_items::Items;
use swift_ast::{Arg, Expr};
use swift_core::{Argument, CodeId, Core, Filling, Initial, Signature, SignatureForm, Ty};
use type_base::{Fault, Inner, Scope};
use type_calls::{expr_of, given_core, is_labelled};

/// What fills a property that no argument is given for.
fn initial_filling(code: CodeId, initial: Initial) -> Filling
    ensures value { result ≡ initial_filling code initial }
{
    match initial {
        Initial::Written => Filling::Initial(code),
        Initial::Nil => Filling::Nil,
    }
}

/// A value of the property's type, and that its argument is taken.
#[tactic(auto, using(crate::proofs::Turns::given_some, crate::proofs::Turns::given_none))]
fn given<F>(
    inner: &Inner<F>,
    scope: &Scope<'_>,
    ty: &Option<Ty>,
    argument: &Arg,
) -> Result<(Option<Filling>, bool), Fault>
where
    F: Fn(Global, u32, &Scope<'_>, Option<&Ty>, &Expr) -> Result<(Core, Ty), Fault>,
    requires { Checks inner.now.room (F.pre inner.now.check) (F.post inner.now.check) }
    ensures found { Answers result (find_given (infer_to inner.now.room) ty.now argument.now (seen scope.now)) }
{
    let core = given_core(inner, scope, ty, argument)?;
    Ok((Some(Filling::Given(core)), true))
}

/// A binding to a value of the property's type, and that its argument is taken.
#[tactic(auto, unfolding(type_base::specs::Claims::and_then, post_rules::specs::Calls::find_bound))]
fn bound<F>(
    inner: &Inner<F>,
    scope: &Scope<'_>,
    ty: &Option<Ty>,
    argument: &Arg,
) -> Result<(Option<Filling>, bool), Fault>
where
    F: Fn(Global, u32, &Scope<'_>, Option<&Ty>, &Expr) -> Result<(Core, Ty), Fault>,
    requires { Checks inner.now.room (F.pre inner.now.check) (F.post inner.now.check) }
    ensures found { Answers result (find_bound (find_binding (infer_to inner.now.room)) ty.now argument.now (seen scope.now)) }
{
    match ty {
        Some(ty) => match expr_of(argument) {
            Some(expr) => {
                let (place, bound) = binding(inner, scope, expr)?;
                if bound.same(ty) {
                    return Ok((Some(Filling::Place(place)), true));
                }
                Err(Fault::NotTyped)
            }
            None => Err(Fault::NotTyped),
        },
        None => Err(Fault::NotTyped),
    }
}

/// What fills a property with this rule.
#[tactic(auto, unfolding(post_rules::specs::Calls::find_filled), using(std::proofs::lemmas::List::nil_from_length))]
fn by_rule<F>(
    inner: &Inner<F>,
    scope: &Scope<'_>,
    member: &Signature,
    ty: &Option<Ty>,
    rule: Argument,
    arguments: &[Arg],
) -> Result<(Option<Filling>, bool), Fault>
where
    F: Fn(Global, u32, &Scope<'_>, Option<&Ty>, &Expr) -> Result<(Core, Ty), Fault>,
    requires { Checks inner.now.room (F.pre inner.now.check) (F.post inner.now.check) }
    ensures found { Answers result (find_filled (infer_to inner.now.room) (find_binding (infer_to inner.now.room)) (need_by member.now.code ty.now rule) member.now.name arguments.now (seen scope.now)) }
{
    match rule {
        Argument::Never(initial) => Ok((Some(initial_filling(member.code, initial)), false)),
        Argument::Optional(initial) => match arguments.split_first() {
            Some((argument, _)) => {
                if is_labelled(argument, &member.name) {
                    return given(inner, scope, ty, argument);
                }
                Ok((Some(initial_filling(member.code, initial)), false))
            }
            None => Ok((Some(initial_filling(member.code, initial)), false)),
        },
        Argument::Required => match arguments.split_first() {
            Some((argument, _)) => {
                if is_labelled(argument, &member.name) {
                    return given(inner, scope, ty, argument);
                }
                Err(Fault::NotTyped)
            }
            None => Err(Fault::NotTyped),
        },
    }
}

/// What fills a binding.
#[tactic(auto, unfolding(post_rules::specs::Calls::find_filled), using(std::proofs::lemmas::List::nil_from_length))]
fn by_binding<F>(
    inner: &Inner<F>,
    scope: &Scope<'_>,
    member: &Signature,
    ty: &Option<Ty>,
    arguments: &[Arg],
) -> Result<(Option<Filling>, bool), Fault>
where
    F: Fn(Global, u32, &Scope<'_>, Option<&Ty>, &Expr) -> Result<(Core, Ty), Fault>,
    requires { Checks inner.now.room (F.pre inner.now.check) (F.post inner.now.check) }
    ensures found { Answers result (find_filled (infer_to inner.now.room) (find_binding (infer_to inner.now.room)) (place ty.now) member.now.name arguments.now (seen scope.now)) }
{
    match arguments.split_first() {
        Some((argument, _)) => {
            if is_labelled(argument, &member.name) {
                return bound(inner, scope, ty, argument);
            }
            Err(Fault::NotTyped)
        }
        None => Err(Fault::NotTyped),
    }
}

/// What fills a member, if it is filled, by the arguments that are left, and whether the first of them is taken.
#[tactic(auto, unfolding(post_rules::specs::Calls::find_filled))]
fn filled<F>(
    inner: &Inner<F>,
    scope: &Scope<'_>,
    member: &Signature,
    arguments: &[Arg],
) -> Result<(Option<Filling>, bool), Fault>
where
    F: Fn(Global, u32, &Scope<'_>, Option<&Ty>, &Expr) -> Result<(Core, Ty), Fault>,
    requires { Checks inner.now.room (F.pre inner.now.check) (F.post inner.now.check) }
    ensures found { Answers result (find_filled (infer_to inner.now.room) (find_binding (infer_to inner.now.room)) (need_of member.now) member.now.name arguments.now (seen scope.now)) }
{
    match &member.form {
        SignatureForm::Stored(_, _, ty, rule) => {
            by_rule(inner, scope, member, ty, *rule, arguments)
        }
        SignatureForm::State(_, ty, rule) => by_rule(inner, scope, member, ty, *rule, arguments),
        SignatureForm::Binding(_, ty) => by_binding(inner, scope, member, ty, arguments),
        _ => Ok((None, false)),
    }
}

/// The arguments behind the first, where it is taken.
#[tactic(auto, using(std::proofs::lemmas::List::nil_from_length))]
fn left(taken: bool, arguments: &[Arg]) -> &[Arg]
    ensures value { result.now ≡ left taken arguments.now }
{
    if !taken {
        return arguments;
    }
    match arguments.split_first() {
        Some((_, others)) => others,
        None => arguments,
    }
}

/// The list with one filling more, if there is one.
fn add(list: &mut Items<Filling>, filling: Option<Filling>) -> Result<(), AllocError>
    ensures ok { OnOk result (list.new ≡ list.old ++ added filling) }
{
    match filling {
        Some(filling) => {
            list.push(filling)?;
            Ok(())
        }
        None => Ok(()),
    }
}

/// What fills the properties among these members, in order.
#[tactic(auto, using(crate::proofs::Turns::fillings_start, crate::proofs::Turns::fillings_turn, crate::proofs::Turns::fillings_none, crate::proofs::Turns::fillings_fail, crate::proofs::Turns::fillings_extra, crate::proofs::Turns::fillings_end))]
pub fn fillings_of<F>(
    inner: &Inner<F>,
    scope: &Scope<'_>,
    members: &[Signature],
    arguments: &[Arg],
) -> Result<Items<Filling>, Fault>
where
    F: Fn(Global, u32, &Scope<'_>, Option<&Ty>, &Expr) -> Result<(Core, Ty), Fault>,
    requires { Checks inner.now.room (F.pre inner.now.check) (F.post inner.now.check) }
    ensures found { Answers result (find_fillings_of (infer_to inner.now.room) (find_binding (infer_to inner.now.room)) members.now arguments.now (seen scope.now)) }
{
    let mut found = Items::new(inner.alloc);
    let mut rest = arguments;
    for member in members {
        let one = filled(inner, scope, member, rest)?;
        rest = left(one.1, rest);
        add(&mut found, one.0)?;
    }
    match rest.split_first() {
        Some(_) => Err(Fault::NotTyped),
        None => Ok(found),
    }
}

/// What fills the stored properties, slots and bindings of this declaration in order, by the arguments of its initialiser.
#[tactic(auto, unfolding(type_base::specs::Claims::and_then, post_rules::specs::Chains::find_fillings, post_rules::specs::Calls::find_fillings_by))]
pub fn fillings<F>(
    inner: &Inner<F>,
    scope: &Scope<'_>,
    declaration: u32,
    arguments: &[Arg],
) -> Result<Items<Filling>, Fault>
where
    F: Fn(Global, u32, &Scope<'_>, Option<&Ty>, &Expr) -> Result<(Core, Ty), Fault>,
    requires { Checks inner.now.room (F.pre inner.now.check) (F.post inner.now.check) }
    ensures found { Answers result (find_fillings (infer_to inner.now.room) declaration arguments.now (seen scope.now)) }
{
    match scope.table.declarations.get(declaration as usize) {
        Some(declared) => fillings_of(inner, scope, declared.members.as_slice(), arguments),
        None => Err(Fault::NotTyped),
    }
}
