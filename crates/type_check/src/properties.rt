//! Properties, and environment keys.
ghost use Rattle.std.specs.Prelude.{◌≡◌, IfOk, option_copied, MatchResult};
ghost use Rattle.type_base.specs.Context.{seen};
ghost use Rattle.type_base.specs.Rules.{Answers};
ghost use Rattle.member_rules.specs.Members.{environment_type, is_written, same_as};
ghost use Rattle.member_rules.specs.Search.{initial_of, reads_key, computed_of};

use crate::shapes::{of_statements, of_value, without_code};
use std::alloc::{AllocError, Global};
use sv_items::Items;
use swift_ast::{Expr, Stmt, TypeName};
use swift_core::{CoreMember, Table, Ty};
use type_base::{Fault, Scope, type_of};
use type_expr::check_wanted;
use type_stmt::check_body;

/// A property of this type with this initial value, if it has one.
#[tactic(auto, unfolding(type_base::specs::Claims::and_then, member_rules::specs::Search::initial_of))]
pub fn initial(
    alloc: Global,
    scope: &Scope<'_>,
    ty: &Option<Ty>,
    value: &Option<Expr>,
) -> Result<CoreMember, Fault>
    ensures found { Answers result (initial_of ty.now value.now (seen scope.now)) }
{
    let Some(ty) = ty else {
        return Err(Fault::NotTyped);
    };
    match value {
        Some(expr) => {
            let core = check_wanted(alloc, scope, ty, expr)?;
            Ok(of_value(alloc, core))
        }
        None => Ok(without_code(alloc)),
    }
}

/// The type of an environment key.
#[tactic(auto, unfolding(type_base::specs::Claims::and_then))]
pub fn environment_type(table: &Table, key: u32) -> Option<&Ty>
    ensures value { option_copied result ≡ environment_type table.now key }
{
    match table.environment.get(key as usize) {
        Some(key) => key.ty.as_ref(),
        None => None,
    }
}

/// Whether the type that is found is this one.
pub fn same_as(found: &Option<Ty>, ty: &Ty) -> bool
    ensures value { result ≡ same_as found.now ty.now }
{
    match found {
        Some(found) => found.same(ty),
        None => false,
    }
}

/// Whether the type that is written, if one is, is this one.
fn is_written(
    alloc: Global,
    table: &Table,
    declared: &Option<TypeName>,
    ty: &Ty,
) -> Result<bool, AllocError>
    ensures value { IfOk result (λ b. b ≡ is_written table.now declared.now ty.now) }
{
    match declared {
        Some(name) => {
            let found = type_of(alloc, table, name)?;
            Ok(same_as(&found, ty))
        }
        None => Ok(true),
    }
}

/// A property that reads this environment key.
#[tactic(auto, unfolding(type_base::specs::Claims::and_then, member_rules::specs::Search::reads_key))]
pub fn reads_key(
    alloc: Global,
    scope: &Scope<'_>,
    key: u32,
    declared: &Option<TypeName>,
) -> Result<CoreMember, Fault>
    ensures found { Answers result (reads_key key declared.now (seen scope.now)) }
{
    let Some(ty) = environment_type(scope.table, key) else {
        return Err(Fault::NotTyped);
    };
    if is_written(alloc, scope.table, declared, ty)? {
        Ok(without_code(alloc))
    } else {
        Err(Fault::NotTyped)
    }
}

/// A computed property of this type.
#[tactic(auto, unfolding(type_base::specs::Claims::and_then, member_rules::specs::Search::computed_of))]
pub fn computed(
    alloc: Global,
    scope: &mut Scope<'_>,
    ty: &Option<Ty>,
    statements: &[Stmt],
) -> Result<CoreMember, Fault>
    ensures found { Answers result (computed_of ty.now statements.now (seen scope.old)) }
{
    let Some(ty) = ty else {
        return Err(Fault::NotTyped);
    };
    let body = check_body(alloc, scope, Some(ty), statements)?;
    Ok(of_statements(alloc, Items::new(alloc), body))
}
