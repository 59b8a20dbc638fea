ghost use Rattle.std.specs.Prelude.{◌≡◌, None, IfOk, OnOk};
ghost use Rattle.swift_ast.specs.declared.tree.Condition.{out-Condition};
ghost use Rattle.type_base.specs.Context.{seen};
ghost use Rattle.type_base.specs.Rules.{Answers};
ghost use Rattle.type_base.specs.Scopes.{Keeps};
ghost use Rattle.case_rules.specs.Conditions.{name_alone, tested, bound, condition_at, FindsConditions, find_conditions, ConditionsRule, DecidesConditions};
ghost use Rattle.case_rules.specs.Scopes.{any_pushed};

use crate::names::name_alone;
use std::alloc::{AllocError, Global};
use sv_items::Items;
use swift_ast::{Condition, Expr};
use swift_core::Ty;
use swift_lex::Word;
use type_base::{Fault, Local, LocalKind, Scope, push_local};
use type_expr::{check_value, check_wanted};

/// A condition, and the local that it declares.
type Checked = (swift_core::Condition, Option<Local>);

/// A condition that is an expression of Bool.
#[tactic(auto, unfolding(case_rules::specs::Conditions::tested, type_base::specs::Claims::and_then))]
fn tested(alloc: Global, scope: &Scope<'_>, expr: &Expr) -> Result<Checked, Fault>
    ensures found { Answers result (tested expr.now (seen scope.now)) }
{
    let test = check_wanted(alloc, scope, &Ty::Bool, expr)?;
    Ok((swift_core::Condition::Test(test), None))
}

/// `let name = value`: the local has the type inside the optional.
#[tactic(auto, unfolding(case_rules::specs::Conditions::bound, type_base::specs::Claims::and_then))]
fn bound(alloc: Global, scope: &Scope<'_>, name: &Word, value: &Expr) -> Result<Checked, Fault>
    ensures found { Answers result (bound name.now value.now (seen scope.now)) }
{
    let (core, ty) = check_value(alloc, scope, None, value)?;
    match ty.inside() {
        Some(inside) => {
            let local = Local {
                name: name.copy(alloc)?,
                ty: inside.copy(alloc)?,
                kind: LocalKind::Let,
            };
            Ok((swift_core::Condition::Bind(core), Some(local)))
        }
        None => Err(Fault::NotTyped),
    }
}

/// One condition. `let name` alone is `let name = name`.
fn condition(alloc: Global, scope: &Scope<'_>, condition: &Condition) -> Result<Checked, Fault>
    ensures found { Answers result (condition_at (out-Condition condition.now) (seen scope.now)) }
{
    match condition {
        Condition::Expr(expr) => tested(alloc, scope, expr),
        Condition::Let(name, Some(value)) => bound(alloc, scope, name, value),
        Condition::Let(name, None) => {
            let value = name_alone(alloc, name)?;
            bound(alloc, scope, name, &value)
        }
    }
}

/// Adds the local, if there is one.
fn push_any(scope: &mut Scope<'_>, local: Option<Local>) -> Result<(), AllocError>
    ensures ok { OnOk result (scope.new ≡ any_pushed scope.old local) }
{
    match local {
        Some(local) => push_local(scope, local),
        None => Ok(()),
    }
}

/// The conditions, with their locals added to the scope.
#[tactic(auto, using(crate::proofs::Turns::conditions_none, crate::proofs::Turns::conditions_end))]
fn each_condition(
    alloc: Global,
    scope: &mut Scope<'_>,
    conditions: &[Condition],
) -> Result<Items<swift_core::Condition>, Fault>
    ensures found { FindsConditions result scope.old scope.new (find_conditions conditions.now (seen scope.old)) }
{
    let mut checked = Items::new(alloc);
    for each in conditions {
        let (core, local) = condition(alloc, scope, each)?;
        push_any(scope, local)?;
        checked.push(core)?;
    }
    Ok(checked)
}

/// The conditions of an `if` or a `while`, each in the scope of those before it. The locals that they declare are added
/// to the scope; the caller begins a scope before and ends it.
pub fn check_conditions(
    alloc: Global,
    scope: &mut Scope<'_>,
    conditions: &[Condition],
) -> Result<Items<swift_core::Condition>, Fault>
    ensures found { FindsConditions result scope.old scope.new (find_conditions conditions.now (seen scope.old)) }
    ensures typed { DecidesConditions result scope.old scope.new (ConditionsRule conditions.now (seen scope.old)) }
{
    each_condition(alloc, scope, conditions)
}
