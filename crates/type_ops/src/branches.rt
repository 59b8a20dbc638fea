ghost use Rattle.std.specs.Prelude.{◌≡◌, None, option_copied};
ghost use Rattle.type_base.specs.Context.{seen};
ghost use Rattle.type_base.specs.Promotion.{wanted};
ghost use Rattle.type_base.specs.Rules.{Answers};
ghost use Rattle.expr_rules.specs.Checks.{Checks};
ghost use Rattle.expr_rules.specs.Levels.{infer_to};
ghost use Rattle.expr_rules.specs.OpsSearch.{branches, ternary};

use expr_rules::{check, wanted};
use std::alloc::Global;
use sv_items::Boxed;
use swift_ast::Expr;
use swift_core::{Core, Ty};
use type_base::{Fault, Inner, Scope};

/// The core of an expression inside a form where a value of this type is expected.
#[inline(never)]
fn part<F>(
    inner: &Inner<F>,
    scope: &Scope<'_>,
    want: &Ty,
    expr: &Expr,
) -> Result<Boxed<Core>, Fault>
where
    F: Fn(Global, u32, &Scope<'_>, Option<&Ty>, &Expr) -> Result<(Core, Ty), Fault>,
    requires { Checks inner.now.room (F.pre inner.now.check) (F.post inner.now.check) }
    ensures found { Answers result (wanted (infer_to inner.now.room expr.now) (seen scope.now) want.now) }
{
    let core = wanted(inner, scope, want, expr)?;
    Ok(Boxed::new(inner.alloc, core)?)
}

/// Both branches and their type, which the first one decides.
#[tactic(auto, unfolding(type_base::specs::Claims::and_then, expr_rules::specs::OpsSearch::branches))]
fn first_decides<F>(
    inner: &Inner<F>,
    scope: &Scope<'_>,
    first: &Expr,
    second: &Expr,
) -> Result<((Boxed<Core>, Boxed<Core>), Ty), Fault>
where
    F: Fn(Global, u32, &Scope<'_>, Option<&Ty>, &Expr) -> Result<(Core, Ty), Fault>,
    requires { Checks inner.now.room (F.pre inner.now.check) (F.post inner.now.check) }
    ensures found { Answers result (branches (infer_to inner.now.room first.now) (infer_to inner.now.room second.now) (seen scope.now) None) }
{
    let (core, ty) = check(inner, scope, None, first)?;
    let first = Boxed::new(inner.alloc, core)?;
    let second = part(inner, scope, &ty, second)?;
    Ok(((first, second), ty))
}

/// Both branches and their type, which may be expected; else the first one decides.
#[tactic(auto, unfolding(type_base::specs::Claims::and_then, expr_rules::specs::OpsSearch::branches))]
fn branches<F>(
    inner: &Inner<F>,
    scope: &Scope<'_>,
    want: Option<&Ty>,
    first: &Expr,
    second: &Expr,
) -> Result<((Boxed<Core>, Boxed<Core>), Ty), Fault>
where
    F: Fn(Global, u32, &Scope<'_>, Option<&Ty>, &Expr) -> Result<(Core, Ty), Fault>,
    requires { Checks inner.now.room (F.pre inner.now.check) (F.post inner.now.check) }
    ensures found { Answers result (branches (infer_to inner.now.room first.now) (infer_to inner.now.room second.now) (seen scope.now) (option_copied want.entry)) }
{
    match want {
        Some(ty) => {
            let first = part(inner, scope, ty, first)?;
            let second = part(inner, scope, ty, second)?;
            Ok(((first, second), ty.copy(inner.alloc)?))
        }
        None => first_decides(inner, scope, first, second),
    }
}

/// `condition ? first : second`. Ternaries nest deeper than any other form, so what goes round here holds little of the stack.
#[inline(never)]
#[tactic(auto, unfolding(type_base::specs::Claims::and_then, expr_rules::specs::OpsSearch::ternary))]
pub fn ternary<F>(
    inner: &Inner<F>,
    scope: &Scope<'_>,
    want: Option<&Ty>,
    condition: &Expr,
    first: &Expr,
    second: &Expr,
) -> Result<(Core, Ty), Fault>
where
    F: Fn(Global, u32, &Scope<'_>, Option<&Ty>, &Expr) -> Result<(Core, Ty), Fault>,
    requires { Checks inner.now.room (F.pre inner.now.check) (F.post inner.now.check) }
    ensures found { Answers result (ternary (infer_to inner.now.room condition.now) (infer_to inner.now.room first.now) (infer_to inner.now.room second.now) (seen scope.now) (option_copied want.entry)) }
{
    let condition = part(inner, scope, &Ty::Bool, condition)?;
    let ((first, second), ty) = branches(inner, scope, want, first, second)?;
    Ok((Core::Choose(condition, first, second), ty))
}
