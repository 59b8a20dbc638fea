//! Statements with no statements inside: locals, assignments, exits and effects. Like all forms they have the scope as
//! `&mut`, and leave it as it was.
ghost use Rattle.std.specs.Prelude.{◌≡◌, None, option_copied};
ghost use Rattle.swift_core.specs.declared.ty.Ty.{out-Ty};
ghost use Rattle.type_base.specs.Context.{seen};
ghost use Rattle.stmt_rules.specs.Finds.{Finds};
ghost use Rattle.stmt_rules.specs.Rules.{plain, kind_of, update_at, effect_core};
ghost use Rattle.stmt_rules.specs.Search.{local_of, local_as, local_at, assigned, updated, assign_at, returned, return_at, break_at, continue_at, effect_of};

use post_rules::Effect;
use std::alloc::Global;
use stmt_rules::{Done, Exits};
use swift_ast::{AssignSign, Binder, Expr, TypeName};
use swift_core::{CoreStmt, Ty};
use swift_lex::Word;
use type_base::{Fault, Local, LocalKind, Scope, is_new, type_of};
use type_expr::{check_effect, check_target, check_value, check_wanted};
use value_calls::{Arithmetic, Operator};

/// A statement that declares nothing, and behind which the statements go on.
fn plain(core: CoreStmt) -> Done
    ensures value { result ≡ plain core }
{
    Done {
        core,
        declared: None,
        ends: false,
        breaks: false,
    }
}

fn kind_of(binder: Binder) -> LocalKind
    ensures value { result ≡ kind_of binder }
{
    match binder {
        Binder::Let => LocalKind::Let,
        Binder::Var => LocalKind::Var,
    }
}

/// `let` or `var` without a written type.
#[tactic(auto, unfolding(stmt_rules::specs::Search::local_of, type_base::specs::Claims::and_then))]
fn local_of(
    alloc: Global,
    scope: &mut Scope<'_>,
    binder: Binder,
    name: &Word,
    value: &Expr,
) -> Result<Done, Fault>
    ensures found { Finds result scope.old scope.new (local_of binder name.now value.now (seen scope.old)) }
{
    if !is_new(scope, name.as_bytes()) {
        return Err(Fault::NotTyped);
    }
    let (core, ty) = check_value(alloc, scope, None, value)?;
    let name = name.copy(alloc)?;
    let kind = kind_of(binder);
    Ok(Done {
        core: CoreStmt::Local(core),
        declared: Some(Local { name, ty, kind }),
        ends: false,
        breaks: false,
    })
}

/// `let` or `var` with a written type.
#[tactic(auto, unfolding(stmt_rules::specs::Search::local_as, type_base::specs::Claims::and_then))]
fn local_as(
    alloc: Global,
    scope: &mut Scope<'_>,
    binder: Binder,
    name: &Word,
    written: &TypeName,
    value: &Expr,
) -> Result<Done, Fault>
    ensures found { Finds result scope.old scope.new (local_as binder name.now written.now value.now (seen scope.old)) }
{
    if !is_new(scope, name.as_bytes()) {
        return Err(Fault::NotTyped);
    }
    match type_of(alloc, scope.table, written)? {
        Some(ty) => {
            let core = check_wanted(alloc, scope, &ty, value)?;
            let name = name.copy(alloc)?;
            let kind = kind_of(binder);
            Ok(Done {
                core: CoreStmt::Local(core),
                declared: Some(Local { name, ty, kind }),
                ends: false,
                breaks: false,
            })
        }
        None => Err(Fault::NotTyped),
    }
}

/// `let` or `var`.
pub fn local(
    alloc: Global,
    scope: &mut Scope<'_>,
    binder: Binder,
    name: &Word,
    written: &Option<TypeName>,
    value: &Expr,
) -> Result<Done, Fault>
    ensures found { Finds result scope.old scope.new (local_at binder name.now written.now value.now (seen scope.old)) }
{
    match written {
        Some(written) => local_as(alloc, scope, binder, name, written, value),
        None => local_of(alloc, scope, binder, name, value),
    }
}

/// `target = value`
#[tactic(auto, unfolding(stmt_rules::specs::Search::assigned, type_base::specs::Claims::and_then))]
fn assigned(
    alloc: Global,
    scope: &mut Scope<'_>,
    target: &Expr,
    value: &Expr,
) -> Result<Done, Fault>
    ensures found { Finds result scope.old scope.new (assigned target.now value.now (seen scope.old)) }
{
    let (target, ty) = check_target(alloc, scope, target)?;
    let core = check_wanted(alloc, scope, &ty, value)?;
    Ok(plain(CoreStmt::Assign(target, core)))
}

/// The operator of an assignment sign at a type.
fn operator(sign: AssignSign, ty: &Ty) -> Option<Operator>
    ensures value { result ≡ update_at sign (out-Ty ty.now) }
{
    match (sign, ty) {
        (AssignSign::Plus, Ty::Int) => Some(Operator::Compute(Arithmetic::Plus)),
        (AssignSign::Plus, Ty::Text) => Some(Operator::JoinTexts),
        (AssignSign::Plus, Ty::List(_)) => Some(Operator::JoinLists),
        (AssignSign::Minus, Ty::Int) => Some(Operator::Compute(Arithmetic::Minus)),
        (AssignSign::Times, Ty::Int) => Some(Operator::Compute(Arithmetic::Times)),
        (AssignSign::Divide, Ty::Int) => Some(Operator::Compute(Arithmetic::Divide)),
        (AssignSign::Remainder, Ty::Int) => Some(Operator::Compute(Arithmetic::Remainder)),
        _ => None,
    }
}

/// `target += value` and the like.
#[tactic(auto, unfolding(stmt_rules::specs::Search::updated, type_base::specs::Claims::and_then))]
fn updated(
    alloc: Global,
    scope: &mut Scope<'_>,
    target: &Expr,
    sign: AssignSign,
    value: &Expr,
) -> Result<Done, Fault>
    ensures found { Finds result scope.old scope.new (updated target.now sign value.now (seen scope.old)) }
{
    let (target, ty) = check_target(alloc, scope, target)?;
    match operator(sign, &ty) {
        Some(operator) => {
            let core = check_wanted(alloc, scope, &ty, value)?;
            Ok(plain(CoreStmt::Update(operator, target, core)))
        }
        None => Err(Fault::NotTyped),
    }
}

/// An assignment.
pub fn assign(
    alloc: Global,
    scope: &mut Scope<'_>,
    target: &Expr,
    sign: AssignSign,
    value: &Expr,
) -> Result<Done, Fault>
    ensures found { Finds result scope.old scope.new (assign_at target.now sign value.now (seen scope.old)) }
{
    match sign {
        AssignSign::Set => assigned(alloc, scope, target, value),
        AssignSign::Plus => updated(alloc, scope, target, AssignSign::Plus, value),
        AssignSign::Minus => updated(alloc, scope, target, AssignSign::Minus, value),
        AssignSign::Times => updated(alloc, scope, target, AssignSign::Times, value),
        AssignSign::Divide => updated(alloc, scope, target, AssignSign::Divide, value),
        AssignSign::Remainder => updated(alloc, scope, target, AssignSign::Remainder, value),
    }
}

/// `return` with a value.
#[tactic(auto, unfolding(stmt_rules::specs::Search::returned, type_base::specs::Claims::and_then))]
fn returned(
    alloc: Global,
    scope: &mut Scope<'_>,
    result_type: Option<&Ty>,
    value: &Expr,
) -> Result<Done, Fault>
    ensures found { Finds result scope.old scope.new (returned (option_copied result_type.entry) value.now (seen scope.old)) }
{
    match result_type {
        Some(ty) => {
            let core = check_wanted(alloc, scope, ty, value)?;
            Ok(Done {
                core: CoreStmt::Return(Some(core)),
                declared: None,
                ends: true,
                breaks: false,
            })
        }
        None => Err(Fault::NotTyped),
    }
}

/// `return`
pub fn leave(
    alloc: Global,
    scope: &mut Scope<'_>,
    result_type: Option<&Ty>,
    value: &Option<Expr>,
) -> Result<Done, Fault>
    ensures found { Finds result scope.old scope.new (return_at (option_copied result_type.entry) value.now (seen scope.old)) }
{
    match value {
        Some(value) => returned(alloc, scope, result_type, value),
        None => match result_type {
            Some(_) => Err(Fault::NotTyped),
            None => Ok(Done {
                core: CoreStmt::Return(None),
                declared: None,
                ends: true,
                breaks: false,
            }),
        },
    }
}

/// `break`
pub fn break_out(scope: &mut Scope<'_>, exits: Exits) -> Result<Done, Fault>
    ensures found { Finds result scope.old scope.new (break_at exits (seen scope.old)) }
{
    match exits {
        Exits::Neither => Err(Fault::NotTyped),
        Exits::Break | Exits::Both => Ok(Done {
            core: CoreStmt::Break,
            declared: None,
            ends: false,
            breaks: true,
        }),
    }
}

/// `continue`
pub fn go_on(scope: &mut Scope<'_>, exits: Exits) -> Result<Done, Fault>
    ensures found { Finds result scope.old scope.new (continue_at exits (seen scope.old)) }
{
    match exits {
        Exits::Both => Ok(plain(CoreStmt::Continue)),
        Exits::Neither | Exits::Break => Err(Fault::NotTyped),
    }
}

fn effect_core(effect: Effect) -> CoreStmt
    ensures value { result ≡ effect_core effect }
{
    match effect {
        Effect::Change(change) => CoreStmt::Change(change),
        Effect::Invoke(invocation) => CoreStmt::Invoke(invocation),
    }
}

/// An expression that is a statement.
#[tactic(auto, unfolding(stmt_rules::specs::Search::effect_of, type_base::specs::Claims::and_then))]
pub fn effect(alloc: Global, scope: &mut Scope<'_>, expr: &Expr) -> Result<Done, Fault>
    ensures found { Finds result scope.old scope.new (effect_of expr.now (seen scope.old)) }
{
    let effect = check_effect(alloc, scope, expr)?;
    Ok(plain(effect_core(effect)))
}
