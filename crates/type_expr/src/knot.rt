ghost use Rattle.std.specs.Prelude.{option_copied};
ghost use Rattle.type_base.specs.Context.{seen};
ghost use Rattle.type_base.specs.Rules.{Answers};
ghost use Rattle.expr_rules.specs.Checks.{Checks};
ghost use Rattle.expr_rules.specs.Levels.{infer_to, expr_search};
ghost use Rattle.post_rules.specs.Chains as chains;

use std::alloc::Global;
use sv_value::Value;
use swift_ast::{Expr, ExprForm, Part};
use swift_core::{Core, Ty};
use type_base::{Fault, Inner, Scope, shallow};
use type_ops::{chained, implicit, listed, myself, named, nil, prefixed, ternary, text};
use type_post::post;

/// An operand with postfix parts. It stands apart, so that the other forms need not hold on the stack what it holds.
#[inline(never)]
fn chain_of_parts<F>(
    inner: &Inner<F>,
    scope: &Scope<'_>,
    want: Option<&Ty>,
    operand: &Expr,
    parts: &[Part],
) -> Result<(Core, Ty), Fault>
where
    F: Fn(Global, u32, &Scope<'_>, Option<&Ty>, &Expr) -> Result<(Core, Ty), Fault>,
    requires { Checks inner.now.room (F.pre inner.now.check) (F.post inner.now.check) }
    ensures found { Answers result (chains.post (infer_to inner.now.room) operand.now parts.now (seen scope.now) (option_copied want.entry)) }
{
    post(inner, scope, want, operand, parts)
}

/// An expression by its form.
#[tactic(auto, unfolding(expr_rules::specs::Levels::expr_search, expr_rules::specs::OpsSearch::constant))]
fn form<F>(
    inner: &Inner<F>,
    scope: &Scope<'_>,
    want: Option<&Ty>,
    expr: &Expr,
) -> Result<(Core, Ty), Fault>
where
    F: Fn(Global, u32, &Scope<'_>, Option<&Ty>, &Expr) -> Result<(Core, Ty), Fault>,
    requires { Checks inner.now.room (F.pre inner.now.check) (F.post inner.now.check) }
    ensures found { Answers result (expr_search (infer_to inner.now.room) expr.now (seen scope.now) (option_copied want.entry)) }
{
    match &expr.form {
        ExprForm::Ternary(condition, first, second) => {
            ternary(
                inner,
                scope,
                want,
                condition.get(),
                first.get(),
                second.get(),
            )
        }
        ExprForm::Chain(first, links) => chained(inner, scope, want, first.get(), links.as_slice()),
        ExprForm::Prefix(signs, operand) => {
            prefixed(inner, scope, want, signs.as_slice(), operand.get())
        }
        ExprForm::Post(operand, parts) => {
            chain_of_parts(inner, scope, want, operand.get(), parts.as_slice())
        }
        ExprForm::Int(number) => Ok((Core::Literal(Value::Int(*number)), Ty::Int)),
        ExprForm::Text(parts) => text(inner, scope, want, parts.as_slice()),
        ExprForm::True => Ok((Core::Literal(Value::Bool(true)), Ty::Bool)),
        ExprForm::False => Ok((Core::Literal(Value::Bool(false)), Ty::Bool)),
        ExprForm::Nil => nil(inner.alloc, scope, want),
        ExprForm::Itself => myself(scope, want),
        ExprForm::Name(name) => named(inner.alloc, scope, want, name.as_bytes()),
        ExprForm::Dollar(_) => Err(Fault::NotTyped),
        ExprForm::Implicit(name) => implicit(scope, want, name.as_bytes()),
        ExprForm::List(exprs) => listed(inner, scope, want, exprs.as_slice()),
    }
}

/// The core and the type of an expression whose forms nest at most `room` deep.
#[cycle(knot)]
#[tactic(auto, unfolding(type_base::specs::Claims::and_then), using(expr_rules::specs::Levels::infer_none, expr_rules::specs::Levels::infer_opens))]
pub fn check_to(
    alloc: Global,
    room: u32,
    scope: &Scope<'_>,
    want: Option<&Ty>,
    expr: &Expr,
) -> Result<(Core, Ty), Fault>
    ensures found { Answers result (infer_to room expr.now (seen scope.now) (option_copied want.entry)) }
{
    if room == 0 {
        return Err(Fault::NotTyped);
    }
    let inner = Inner {
        alloc,
        room: room - 1,
        check: check_to,
    };
    let found = form(&inner, scope, want, expr)?;
    if !shallow(&found.1) {
        return Err(Fault::NotTyped);
    }
    Ok(found)
}
