//! Functions, and `reduce` of a preference key.
ghost use Rattle.std.specs.Prelude.{◌≡◌, ◌&&◌, [], ◌∷◌, map, IfOk, option_copied};
ghost use Rattle.type_base.specs.Context.{seen};
ghost use Rattle.type_base.specs.LocalTypes.{local_type};
ghost use Rattle.type_base.specs.Rules.{Answers};
ghost use Rattle.member_rules.specs.Members.{parameter, has_result, same_as, with_parameters, with_folding, key_type, inout_type, next_type};
ghost use Rattle.type_check.specs.Scoped.{Scoped};
ghost use Rattle.member_rules.specs.Search.{function_of, reduce_of};

use crate::properties::same_as;
use crate::shapes::of_statements;
use std::alloc::{AllocError, Global};
use sv_items::Items;
use swift_ast::{Param, ParamForm, ResultName, Stmt};
use swift_core::{CoreMember, Kind, LocalType, ParamSignature, Table, Ty};
use type_base::{Fault, Local, LocalKind, Scope, declare, enter, type_of, types_from};
use type_stmt::check_body;

/// The local of a parameter.
fn parameter(alloc: Global, param: &Param, kind: LocalKind, ty: &Ty) -> Result<Local, AllocError>
    ensures value { IfOk result (λ l. l ≡ parameter param.now kind ty.now) }
{
    Ok(Local {
        name: param.name.copy(alloc)?,
        ty: ty.copy(alloc)?,
        kind,
    })
}

/// Declares one parameter.
#[tactic(auto, unfolding(type_base::specs::Claims::and_then))]
fn take(
    alloc: Global,
    scope: &mut Scope<'_>,
    signature: &ParamSignature,
    param: &Param,
) -> Result<(), Fault>
    ensures scoped { Scoped result scope.new (with_parameters (signature.now ∷ []) (param.now ∷ []) (seen scope.old)) }
{
    let Some(ty) = &signature.ty else {
        return Err(Fault::NotTyped);
    };
    let local = parameter(alloc, param, LocalKind::Let, ty)?;
    declare(scope, local)
}

/// Declares the parameters.
pub fn parameters(
    alloc: Global,
    scope: &mut Scope<'_>,
    signatures: &[ParamSignature],
    params: &[Param],
) -> Result<(), Fault>
    ensures scoped { Scoped result scope.new (with_parameters signatures.now params.now (seen scope.old)) }
{
    if signatures.len() != params.len() {
        return Err(Fault::NotTyped);
    }
    for i in 0..params.len() {
        take(alloc, scope, &signatures[i], &params[i])?;
    }
    Ok(())
}

/// What the locals here have.
pub fn types_here(alloc: Global, scope: &Scope<'_>) -> Result<Items<LocalType>, AllocError>
    ensures value { IfOk result (λ ts. ts ≡ map local_type scope.now.locals) }
{
    types_from(alloc, scope.locals.as_slice(), 0)
}

/// Whether a result is written where the function has one, and none where it has none.
fn has_result(written: &Option<ResultName>, ty: &Option<Ty>) -> bool
    ensures value { result ≡ has_result written.now ty.now }
{
    match written {
        None => ty.is_none(),
        Some(ResultName::Plain(_)) => ty.is_some(),
        Some(ResultName::Opaque(_)) => false,
    }
}

/// A function that gives a value, or nothing.
#[tactic(auto, unfolding(type_base::specs::Claims::and_then, member_rules::specs::Search::function_of))]
pub fn function(
    alloc: Global,
    scope: &mut Scope<'_>,
    signatures: &[ParamSignature],
    ty: &Option<Ty>,
    params: &[Param],
    written: &Option<ResultName>,
    statements: &[Stmt],
) -> Result<CoreMember, Fault>
    ensures found { Answers result (function_of signatures.now ty.now params.now written.now statements.now (seen scope.old)) }
{
    if !has_result(written, ty) {
        return Err(Fault::NotTyped);
    }
    parameters(alloc, scope, signatures, params)?;
    let types = types_here(alloc, scope)?;
    let _mark = enter(scope);
    let body = check_body(alloc, scope, ty.as_ref(), statements)?;
    Ok(of_statements(alloc, types, body))
}

/// The type of the values of a preference key.
#[tactic(auto, unfolding(type_base::specs::Claims::and_then))]
fn key_type(table: &Table, kind: Kind) -> Option<&Ty>
    ensures value { option_copied result ≡ key_type table.now kind }
{
    match kind {
        Kind::Key(number) => match table.preferences.get(number as usize) {
            Some(key) => key.ty.as_ref(),
            None => None,
        },
        _ => None,
    }
}

fn inout_type(alloc: Global, table: &Table, form: &ParamForm) -> Result<Option<Ty>, AllocError>
    ensures value { IfOk result (λ t. t ≡ inout_type table.now form.now) }
{
    match form {
        ParamForm::Inout(name) => type_of(alloc, table, name),
        _ => Ok(None),
    }
}

fn next_type(alloc: Global, table: &Table, form: &ParamForm) -> Result<Option<Ty>, AllocError>
    ensures value { IfOk result (λ t. t ≡ next_type table.now form.now) }
{
    match form {
        ParamForm::Function(name) => type_of(alloc, table, name),
        _ => Ok(None),
    }
}

/// Whether these are the types of the two parameters of `reduce`.
fn folds(
    alloc: Global,
    table: &Table,
    ty: &Ty,
    value: &Param,
    next: &Param,
) -> Result<bool, AllocError>
    ensures value { IfOk result (λ b. b ≡ (same_as (inout_type table.now value.now.form) ty.now && same_as (next_type table.now next.now.form) ty.now)) }
{
    let value = inout_type(alloc, table, &value.form)?;
    let next = next_type(alloc, table, &next.form)?;
    Ok(same_as(&value, ty) && same_as(&next, ty))
}

/// Declares the parameters of `reduce`.
fn folding(alloc: Global, scope: &mut Scope<'_>, ty: &Ty, params: &[Param]) -> Result<(), Fault>
    ensures scoped { Scoped result scope.new (with_folding ty.now params.now (seen scope.old)) }
{
    let [value, next] = params else {
        return Err(Fault::NotTyped);
    };
    if !folds(alloc, scope.table, ty, value, next)? {
        return Err(Fault::NotTyped);
    }
    let value = parameter(alloc, value, LocalKind::Var, ty)?;
    declare(scope, value)?;
    let next = parameter(alloc, next, LocalKind::Next, ty)?;
    declare(scope, next)
}

/// `reduce` of a preference key.
#[tactic(auto, unfolding(type_base::specs::Claims::and_then, member_rules::specs::Search::reduce_of))]
pub fn reduce(
    alloc: Global,
    scope: &mut Scope<'_>,
    kind: Kind,
    params: &[Param],
    statements: &[Stmt],
) -> Result<CoreMember, Fault>
    ensures found { Answers result (reduce_of kind params.now statements.now (seen scope.old)) }
{
    let Some(ty) = key_type(scope.table, kind) else {
        return Err(Fault::NotTyped);
    };
    folding(alloc, scope, ty, params)?;
    let types = types_here(alloc, scope)?;
    let _mark = enter(scope);
    let body = check_body(alloc, scope, None, statements)?;
    Ok(of_statements(alloc, types, body))
}
