ghost use Rattle.std.specs.Prelude.{◌≡◌, Some, None, option_copied};
ghost use Rattle.post_rules.specs.Members as members;
ghost use Rattle.post_rules.specs.declared.chained.Chained.TheVariants as chained;
ghost use Rattle.swift_core.specs.declared.ty.Ty.TheVariants as ty;
ghost use Rattle.type_base.specs.Promotion as promotion;
ghost use Rattle.expr_rules.specs.Checks.{Checks};
ghost use Rattle.expr_rules.specs.Levels.{infer_to};
ghost use Rattle.post_rules.specs.Chains as rule;
ghost use Rattle.post_rules.specs.Syntax.{form_of};
ghost use Rattle.swift_ast.specs.declared.tree.Part.{out-Part};
ghost use Rattle.swift_core.specs.declared.term.Change.{out-Change};
ghost use Rattle.swift_core.specs.declared.term.ChangeCall.{out-ChangeCall};
ghost use Rattle.statement_rules.specs.Statements.{dropped_by, statement_of, find_statement};
ghost use Rattle.type_base.specs.Context.{seen};
ghost use Rattle.type_base.specs.Claims.{and_then};
ghost use Rattle.type_base.specs.Rules.{Answers};

use crate::calls::call;
use crate::refusals::{no_chain, no_value};
use expr_rules::{check, wanted};
use post_members::{
    built_in_member, element, force, name, own_member, place_member, read, type_member,
    value_member,
};
use post_rules::{Chained, Effect};
use std::alloc::Global;
use swift_ast::{Expr, ExprForm, Part, Selector};
use swift_core::{Change, ChangeCall, Core, Ty};
use type_base::{Fault, Inner, Scope, Stance, shallow};

/// The value that a chain is so far. A place is read.
#[tactic(auto, using(crate::proofs::Others::value_none))]
fn value(alloc: Global, so_far: Chained) -> Result<(Core, Ty), Fault>
    ensures found { Answers result (rule.value_of so_far) }
{
    match so_far {
        Chained::Value(value, ty) => Ok((value, ty)),
        Chained::Place(target, ty) => Ok((read(alloc, target)?, ty)),
        other => Err(no_chain(other)),
    }
}

/// The member of this name of what the chain is so far.
#[tactic(auto, unfolding(post_rules::specs::Chains::find_chained_member), using(crate::proofs::Others::member_none))]
fn member(alloc: Global, scope: &Scope<'_>, so_far: Chained, name: &[u8]) -> Result<Chained, Fault>
    ensures found { Answers result (rule.find_chained_member so_far name.now (seen scope.now)) }
{
    match so_far {
        Chained::Value(value, ty) => value_member(alloc, scope.table, value, &ty, name),
        Chained::Place(target, ty) => place_member(alloc, scope.table, target, &ty, name),
        Chained::Itself => own_member(alloc, scope, name),
        Chained::Named(number) => type_member(alloc, scope.table, number, name),
        Chained::BuiltIn(built_in) => built_in_member(built_in, name),
        other => Err(no_chain(other)),
    }
}

/// `[index]` behind what the chain is so far.
#[tactic(auto, unfolding(type_base::specs::Claims::and_then))]
fn indexed<F>(
    inner: &Inner<F>,
    scope: &Scope<'_>,
    so_far: Chained,
    index: &Expr,
) -> Result<Chained, Fault>
where
    F: Fn(Global, u32, &Scope<'_>, Option<&Ty>, &Expr) -> Result<(Core, Ty), Fault>,
    requires { Checks inner.now.room (F.pre inner.now.check) (F.post inner.now.check) }
    ensures found { Answers result (and_then (promotion.wanted (infer_to inner.now.room index.now) (seen scope.now) ty.Int) (λ c. rule.element_of so_far c)) }
{
    match wanted(inner, scope, &Ty::Int, index) {
        Ok(index) => element(inner.alloc, so_far, index),
        Err(fault) => {
            drop(so_far);
            Err(fault)
        }
    }
}

/// `!` behind what the chain is so far.
#[tactic(auto, unfolding(type_base::specs::Claims::and_then))]
fn forced(alloc: Global, so_far: Chained) -> Result<Chained, Fault>
    ensures found { Answers result (and_then (rule.value_of so_far) rule.forced) }
{
    let found = value(alloc, so_far)?;
    force(alloc, found.0, &found.1)
}

/// One part behind what the chain is so far.
#[tactic(auto, unfolding(post_rules::specs::Chains::step_at))]
fn step<F>(
    inner: &Inner<F>,
    scope: &Scope<'_>,
    so_far: Chained,
    part: &Part,
) -> Result<Chained, Fault>
where
    F: Fn(Global, u32, &Scope<'_>, Option<&Ty>, &Expr) -> Result<(Core, Ty), Fault>,
    requires { Checks inner.now.room (F.pre inner.now.check) (F.post inner.now.check) }
    ensures found { Answers result (rule.step_at (infer_to inner.now.room) so_far (out-Part part.now) (seen scope.now)) }
{
    match part {
        Part::Member(selector) => match selector {
            Selector::Name(name) => member(inner.alloc, scope, so_far, name.as_bytes()),
            Selector::Itself => Err(no_chain(so_far)),
        },
        Part::Call(arguments, tail) => match tail {
            None => call(inner, scope, so_far, arguments.as_slice()),
            Some(_) => Err(no_chain(so_far)),
        },
        Part::Index(index) => indexed(inner, scope, so_far, index.get()),
        Part::Force => forced(inner.alloc, so_far),
        Part::Tail(_) => Err(no_chain(so_far)),
    }
}

/// Whether the type of what the chain is so far, if it has one, is no deeper than a type may be.
fn allowed(so_far: &Chained) -> bool
    ensures value { result ≡ rule.is_allowed so_far.now }
{
    match so_far {
        Chained::Value(_, ty) => shallow(ty),
        Chained::Place(_, ty) => shallow(ty),
        Chained::Next(_, ty) => shallow(ty),
        _ => true,
    }
}

/// All parts, from left to right.
#[tactic(auto, using(crate::proofs::Turns::steps_start, crate::proofs::Turns::steps_turn, crate::proofs::Turns::steps_none, crate::proofs::Turns::steps_fail, crate::proofs::Turns::steps_deep, crate::proofs::Turns::steps_last, crate::proofs::Turns::steps_end))]
fn steps<F>(
    inner: &Inner<F>,
    scope: &Scope<'_>,
    first: Chained,
    parts: &[Part],
) -> Result<Chained, Fault>
where
    F: Fn(Global, u32, &Scope<'_>, Option<&Ty>, &Expr) -> Result<(Core, Ty), Fault>,
    requires { Checks inner.now.room (F.pre inner.now.check) (F.post inner.now.check) }
    ensures found { Answers result (rule.steps (infer_to inner.now.room) first parts.now (seen scope.now)) }
{
    let mut so_far = first;
    for part in parts {
        if !allowed(&so_far) {
            return Err(no_chain(so_far));
        }
        so_far = step(inner, scope, so_far, part)?;
    }
    if !allowed(&so_far) {
        return Err(no_chain(so_far));
    }
    Ok(so_far)
}

/// Whether `self` stands before a member's name here.
fn has_self(stance: Stance) -> bool
    ensures value { result ≡ members.has_self stance }
{
    match stance {
        Stance::View | Stance::Data | Stance::Mutating => true,
        Stance::Outside | Stance::Initial | Stance::Key => false,
    }
}

/// The value of an operand that is no name.
#[tactic(auto, unfolding(type_base::specs::Claims::and_then))]
fn operand_value<F>(inner: &Inner<F>, scope: &Scope<'_>, operand: &Expr) -> Result<Chained, Fault>
where
    F: Fn(Global, u32, &Scope<'_>, Option<&Ty>, &Expr) -> Result<(Core, Ty), Fault>,
    requires { Checks inner.now.room (F.pre inner.now.check) (F.post inner.now.check) }
    ensures found { Answers result (and_then (infer_to inner.now.room operand.now (seen scope.now) None) (λ x. Some (chained.Value x.0 x.1))) }
{
    let found = check(inner, scope, None, operand)?;
    Ok(Chained::Value(found.0, found.1))
}

/// The operand of a chain.
#[tactic(auto, unfolding(post_rules::specs::Chains::start_at))]
fn start<F>(inner: &Inner<F>, scope: &Scope<'_>, operand: &Expr) -> Result<Chained, Fault>
where
    F: Fn(Global, u32, &Scope<'_>, Option<&Ty>, &Expr) -> Result<(Core, Ty), Fault>,
    requires { Checks inner.now.room (F.pre inner.now.check) (F.post inner.now.check) }
    ensures found { Answers result (rule.start_at (infer_to inner.now.room) operand.now (form_of operand.now) (seen scope.now)) }
{
    match &operand.form {
        ExprForm::Name(word) => name(inner.alloc, scope, word.as_bytes()),
        ExprForm::Itself => {
            if has_self(scope.stance) {
                return Ok(Chained::Itself);
            }
            Err(Fault::NotTyped)
        }
        _ => operand_value(inner, scope, operand),
    }
}

/// An operand with its parts.
#[tactic(auto, unfolding(type_base::specs::Claims::and_then, post_rules::specs::Chains::find_chain))]
fn chain<F>(
    inner: &Inner<F>,
    scope: &Scope<'_>,
    operand: &Expr,
    parts: &[Part],
) -> Result<Chained, Fault>
where
    F: Fn(Global, u32, &Scope<'_>, Option<&Ty>, &Expr) -> Result<(Core, Ty), Fault>,
    requires { Checks inner.now.room (F.pre inner.now.check) (F.post inner.now.check) }
    ensures found { Answers result (rule.find_chain (infer_to inner.now.room) operand.now parts.now (seen scope.now)) }
{
    let first = start(inner, scope, operand)?;
    steps(inner, scope, first, parts)
}

/// The core and the type of an operand with postfix parts. No expected type goes into it.
#[tactic(auto, unfolding(type_base::specs::Claims::and_then, post_rules::specs::Chains::post))]
pub fn post<F>(
    inner: &Inner<F>,
    scope: &Scope<'_>,
    want: Option<&Ty>,
    operand: &Expr,
    parts: &[Part],
) -> Result<(Core, Ty), Fault>
where
    F: Fn(Global, u32, &Scope<'_>, Option<&Ty>, &Expr) -> Result<(Core, Ty), Fault>,
    requires { Checks inner.now.room (F.pre inner.now.check) (F.post inner.now.check) }
    ensures found { Answers result (rule.post (infer_to inner.now.room) operand.now parts.now (seen scope.now) (option_copied want.entry)) }
{
    let found = chain(inner, scope, operand, parts)?;
    value(inner.alloc, found)
}

/// A change as a statement. The value of a `mutating` function of the program is not dropped.
fn dropped(change: Change) -> Result<Effect, Fault>
    ensures found { Answers result (dropped_by change (out-ChangeCall (out-Change change).call)) }
{
    match &change.call {
        ChangeCall::Mutate(_, _) => Err(Fault::NotTyped),
        _ => Ok(Effect::Change(change)),
    }
}

/// What a chain does as a statement: a call without a value, or one of a built-in function that changes what it stands on.
#[tactic(auto, using(crate::proofs::Others::statement_none))]
fn statement_of(so_far: Chained) -> Result<Effect, Fault>
    ensures found { Answers result (statement_of so_far) }
{
    match so_far {
        Chained::Effect(effect) => Ok(effect),
        Chained::Value(value, _ty) => match value {
            Core::Change(change) => dropped(change.into_inner()),
            other => Err(no_value(other)),
        },
        other => Err(no_chain(other)),
    }
}

/// What an expression does that stands as a statement.
#[tactic(auto, unfolding(type_base::specs::Claims::and_then, statement_rules::specs::Statements::find_statement, statement_rules::specs::Statements::statement_at))]
pub fn effect<F>(inner: &Inner<F>, scope: &Scope<'_>, expr: &Expr) -> Result<Effect, Fault>
where
    F: Fn(Global, u32, &Scope<'_>, Option<&Ty>, &Expr) -> Result<(Core, Ty), Fault>,
    requires { Checks inner.now.room (F.pre inner.now.check) (F.post inner.now.check) }
    ensures found { Answers result (find_statement (infer_to inner.now.room) expr.now (seen scope.now)) }
{
    match &expr.form {
        ExprForm::Post(operand, parts) => {
            let found = chain(inner, scope, operand.get(), parts.as_slice())?;
            statement_of(found)
        }
        _ => Err(Fault::NotTyped),
    }
}

#[tactic(auto, using(crate::proofs::Others::indices_none))]
fn indices_of(so_far: Chained) -> Result<Core, Fault>
    ensures found { Answers result (rule.indices_of so_far) }
{
    match so_far {
        Chained::Indices(list) => Ok(list),
        other => Err(no_chain(other)),
    }
}

/// The list whose indices an expression is, as `l.indices`.
#[tactic(auto, unfolding(type_base::specs::Claims::and_then, post_rules::specs::Chains::find_indices, post_rules::specs::Chains::indices_at))]
pub fn indices<F>(inner: &Inner<F>, scope: &Scope<'_>, expr: &Expr) -> Result<Core, Fault>
where
    F: Fn(Global, u32, &Scope<'_>, Option<&Ty>, &Expr) -> Result<(Core, Ty), Fault>,
    requires { Checks inner.now.room (F.pre inner.now.check) (F.post inner.now.check) }
    ensures found { Answers result (rule.find_indices (infer_to inner.now.room) expr.now (seen scope.now)) }
{
    match &expr.form {
        ExprForm::Post(operand, parts) => {
            let found = chain(inner, scope, operand.get(), parts.as_slice())?;
            indices_of(found)
        }
        _ => Err(Fault::NotTyped),
    }
}
