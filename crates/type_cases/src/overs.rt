ghost use Rattle.std.specs.Prelude.{◌≡◌, Some, None};
ghost use Rattle.swift_ast.specs.declared.tree.Expr.{out-Expr};
ghost use Rattle.swift_ast.specs.declared.tree.ExprForm.{out-ExprForm};
ghost use Rattle.swift_core.specs.declared.stmt.Over.TheVariants as over;
ghost use Rattle.type_base.specs.Context.{seen};
ghost use Rattle.type_base.specs.Rules.{Answers, Decides};
ghost use Rattle.case_rules.specs.Overs.{LinkIs, one_link, ranged, listed, no_range, over_at, link_at, find_over, OverRule};

use std::alloc::Global;
use swift_ast::{BinarySign, Expr, ExprForm, Link};
use swift_core::{Core, Over, Ty};
use type_base::{Fault, Scope};
use type_expr::{check_indices, check_value, check_wanted};

/// `first..<last`
#[tactic(auto, unfolding(case_rules::specs::Overs::ranged, type_base::specs::Claims::and_then))]
fn up_to(alloc: Global, scope: &Scope<'_>, first: &Expr, last: &Expr) -> Result<(Over, Ty), Fault>
    ensures found { Answers result (ranged over.UpTo first.now last.now (seen scope.now)) }
{
    let first = check_wanted(alloc, scope, &Ty::Int, first)?;
    let last = check_wanted(alloc, scope, &Ty::Int, last)?;
    Ok((Over::UpTo(first, last), Ty::Int))
}

/// `first...last`
#[tactic(auto, unfolding(case_rules::specs::Overs::ranged, type_base::specs::Claims::and_then))]
fn through(alloc: Global, scope: &Scope<'_>, first: &Expr, last: &Expr) -> Result<(Over, Ty), Fault>
    ensures found { Answers result (ranged over.Through first.now last.now (seen scope.now)) }
{
    let first = check_wanted(alloc, scope, &Ty::Int, first)?;
    let last = check_wanted(alloc, scope, &Ty::Int, last)?;
    Ok((Over::Through(first, last), Ty::Int))
}

/// A list.
#[tactic(auto, unfolding(case_rules::specs::Overs::listed, type_base::specs::Claims::and_then))]
fn listed(alloc: Global, scope: &Scope<'_>, expr: &Expr) -> Result<(Over, Ty), Fault>
    ensures found { Answers result (listed expr.now (seen scope.now)) }
{
    let (core, ty) = check_value(alloc, scope, None, expr)?;
    match ty.element() {
        Some(element) => {
            let element = element.copy(alloc)?;
            Ok((Over::List(core), element))
        }
        None => Err(Fault::NotTyped),
    }
}

/// The indices of a list, and else a list.
#[tactic(auto, unfolding(case_rules::specs::Overs::no_range, case_rules::specs::Overs::indexed, type_base::specs::Claims::and_then, type_base::specs::Claims::or_else))]
fn no_range(alloc: Global, scope: &Scope<'_>, expr: &Expr) -> Result<(Over, Ty), Fault>
    ensures found { Answers result (no_range expr.now (seen scope.now)) }
{
    match check_indices(alloc, scope, expr) {
        Ok(list) => Ok((Over::Indices(list), Ty::Int)),
        Err(Fault::NotTyped) => listed(alloc, scope, expr),
        Err(Fault::OutOfMemory) => Err(Fault::OutOfMemory),
    }
}

/// The sign and the right operand of the one link.
fn one_link<'a>(first: &Expr, links: &'a [Link]) -> Option<(BinarySign, &'a Expr)>
    ensures value { LinkIs result first.now (one_link first.now links.now) }
{
    match links {
        [link] => Some((link.sign, &link.right)),
        _ => None,
    }
}

/// A chain of operators of one rule, which is a range or not.
fn chain(
    alloc: Global,
    scope: &Scope<'_>,
    expr: &Expr,
    first: &Expr,
    links: &[Link],
) -> Result<(Over, Ty), Fault>
    ensures found { Answers result (over_at (one_link first.now links.now) expr.now (seen scope.now)) }
{
    match one_link(first, links) {
        Some((BinarySign::UpTo, last)) => up_to(alloc, scope, first, last),
        Some((BinarySign::Through, last)) => through(alloc, scope, first, last),
        _ => no_range(alloc, scope, expr),
    }
}

/// What is gone over.
#[tactic(auto, unfolding(case_rules::specs::Overs::find_over))]
fn over(alloc: Global, scope: &Scope<'_>, expr: &Expr) -> Result<(Over, Ty), Fault>
    ensures found { Answers result (find_over expr.now (seen scope.now)) }
{
    match &expr.form {
        ExprForm::Chain(first, links) => chain(alloc, scope, expr, first.get(), links.as_slice()),
        _ => no_range(alloc, scope, expr),
    }
}

/// What a `for` or a ForEach goes over, and the type of its items: a range, the indices of a list, or a list.
pub fn check_over(alloc: Global, scope: &Scope<'_>, expr: &Expr) -> Result<(Over, Ty), Fault>
    ensures found { Answers result (find_over expr.now (seen scope.now)) }
    ensures typed { Decides result (OverRule expr.now (seen scope.now)) }
{
    over(alloc, scope, expr)
}
