ghost use Rattle.std.specs.Prelude.{◌≡◌, option_copied};
ghost use Rattle.type_base.specs.Context.{seen};
ghost use Rattle.type_base.specs.Rules.{Answers};
ghost use Rattle.type_base.specs.Promotion.{wanted};
ghost use Rattle.expr_rules.specs.Checks.{Checks};
ghost use Rattle.expr_rules.specs.Levels.{infer_to};

use std::alloc::Global;
use swift_ast::Expr;
use swift_core::{Core, Ty};
use type_base::{Fault, Inner, Scope, fit};

/// The core and the type of an expression inside a form, under an expected type, if there is one.
pub fn check<F>(
    inner: &Inner<F>,
    scope: &Scope<'_>,
    want: Option<&Ty>,
    expr: &Expr,
) -> Result<(Core, Ty), Fault>
where
    F: Fn(Global, u32, &Scope<'_>, Option<&Ty>, &Expr) -> Result<(Core, Ty), Fault>,
    requires { Checks inner.now.room (F.pre inner.now.check) (F.post inner.now.check) }
    ensures found { Answers result (infer_to inner.now.room expr.now (seen scope.now) (option_copied want.entry)) }
{
    (inner.check)(inner.alloc, inner.room, scope, want, expr)
}

/// The core of an expression inside a form where a value of this type is expected.
#[tactic(auto, unfolding(type_base::specs::Claims::and_then, type_base::specs::Promotion::wanted))]
pub fn wanted<F>(inner: &Inner<F>, scope: &Scope<'_>, want: &Ty, expr: &Expr) -> Result<Core, Fault>
where
    F: Fn(Global, u32, &Scope<'_>, Option<&Ty>, &Expr) -> Result<(Core, Ty), Fault>,
    requires { Checks inner.now.room (F.pre inner.now.check) (F.post inner.now.check) }
    ensures found { Answers result (wanted (infer_to inner.now.room expr.now) (seen scope.now) want.now) }
{
    let found = check(inner, scope, Some(want), expr)?;
    fit(inner.alloc, found.0, &found.1, want)
}
