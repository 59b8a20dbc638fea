ghost use Rattle.std.specs.Prelude.{◌≡◌, ◌∷◌, IfOk, Some, None, option_copied};
ghost use Rattle.type_base.specs.Context.{seen};
ghost use Rattle.type_base.specs.Rules.{Answers};
ghost use Rattle.expr_rules.specs.Checks.{Checks};
ghost use Rattle.expr_rules.specs.Levels.{infer_to};
ghost use Rattle.expr_rules.specs.Ops.{element_of};
ghost use Rattle.expr_rules.specs.OpsSearch.{all_wanted, elements, listed};

use expr_rules::{check, wanted};
use std::alloc::{AllocError, Global};
use sv_items::{Boxed, Items};
use swift_ast::Expr;
use swift_core::{Core, Ty};
use type_base::{Fault, Inner, Scope};

/// The cores of expressions where this type is expected of each.
#[tactic(auto, using(crate::proofs::Turns::wanted_start, crate::proofs::Turns::wanted_turn, crate::proofs::Turns::wanted_end, crate::proofs::Turns::wanted_none))]
pub fn all_wanted<F>(
    inner: &Inner<F>,
    scope: &Scope<'_>,
    want: &Ty,
    exprs: &[Expr],
) -> Result<Items<Core>, Fault>
where
    F: Fn(Global, u32, &Scope<'_>, Option<&Ty>, &Expr) -> Result<(Core, Ty), Fault>,
    requires { Checks inner.now.room (F.pre inner.now.check) (F.post inner.now.check) }
    ensures found { Answers result (all_wanted (infer_to inner.now.room) exprs.now (seen scope.now) want.now) }
{
    let mut cores = Items::new(inner.alloc);
    for expr in exprs {
        let core = wanted(inner, scope, want, expr)?;
        cores.push(core)?;
    }
    Ok(cores)
}

/// The elements of a list and their type, which may be expected.
#[tactic(auto, unfolding(type_base::specs::Claims::and_then, expr_rules::specs::OpsSearch::elements))]
fn elements<F>(
    inner: &Inner<F>,
    scope: &Scope<'_>,
    want: Option<&Ty>,
    exprs: &[Expr],
) -> Result<(Items<Core>, Ty), Fault>
where
    F: Fn(Global, u32, &Scope<'_>, Option<&Ty>, &Expr) -> Result<(Core, Ty), Fault>,
    requires { Checks inner.now.room (F.pre inner.now.check) (F.post inner.now.check) }
    ensures found { Answers result (elements (infer_to inner.now.room) exprs.now (seen scope.now) (option_copied want.entry)) }
{
    match want {
        Some(ty) => {
            let cores = all_wanted(inner, scope, ty, exprs)?;
            Ok((cores, ty.copy(inner.alloc)?))
        }
        None => match exprs.split_first() {
            Some((first, rest)) => first_decides(inner, scope, first, rest),
            None => Err(Fault::NotTyped),
        },
    }
}

#[tactic(auto, unfolding(type_base::specs::Claims::and_then, expr_rules::specs::OpsSearch::elements))]
fn first_decides<F>(
    inner: &Inner<F>,
    scope: &Scope<'_>,
    first: &Expr,
    rest: &[Expr],
) -> Result<(Items<Core>, Ty), Fault>
where
    F: Fn(Global, u32, &Scope<'_>, Option<&Ty>, &Expr) -> Result<(Core, Ty), Fault>,
    requires { Checks inner.now.room (F.pre inner.now.check) (F.post inner.now.check) }
    ensures found { Answers result (elements (infer_to inner.now.room) (first.now ∷ rest.now) (seen scope.now) None) }
{
    let found = check(inner, scope, None, first)?;
    let cores = all_wanted(inner, scope, &found.1, rest)?;
    Ok((in_front(inner.alloc, found.0, cores)?, found.1))
}

fn in_front(alloc: Global, first: Core, rest: Items<Core>) -> Result<Items<Core>, AllocError>
    ensures value { IfOk result (λ all. all ≡ first ∷ rest) }
{
    let mut all = Items::new(alloc);
    all.push(first)?;
    all.append(rest)?;
    Ok(all)
}

/// The type that is expected of the elements where this type is expected of the list.
fn element_of<'a>(want: Option<&'a Ty>) -> Option<&'a Ty>
    ensures value { option_copied result ≡ element_of (option_copied want.entry) }
{
    match want {
        Some(ty) => ty.element(),
        None => None,
    }
}

/// `[a, b]`
#[inline(never)]
#[tactic(auto, unfolding(type_base::specs::Claims::and_then, expr_rules::specs::OpsSearch::listed))]
pub fn listed<F>(
    inner: &Inner<F>,
    scope: &Scope<'_>,
    want: Option<&Ty>,
    exprs: &[Expr],
) -> Result<(Core, Ty), Fault>
where
    F: Fn(Global, u32, &Scope<'_>, Option<&Ty>, &Expr) -> Result<(Core, Ty), Fault>,
    requires { Checks inner.now.room (F.pre inner.now.check) (F.post inner.now.check) }
    ensures found { Answers result (listed (infer_to inner.now.room) exprs.now (seen scope.now) (option_copied want.entry)) }
{
    let found = elements(inner, scope, element_of(want), exprs)?;
    Ok((
        Core::List(found.0),
        Ty::List(Boxed::new(inner.alloc, found.1)?),
    ))
}
