ghost use Rattle.std.specs.Prelude.{Some};
ghost use Rattle.expr_rules.specs.Checks.{Checks};
ghost use Rattle.expr_rules.specs.Levels.{infer_to};
ghost use Rattle.post_rules.specs.Chains.{place_step_at, place_steps, find_target, find_binding};
ghost use Rattle.post_rules.specs.Members.{var_field};
ghost use Rattle.post_rules.specs.Places.{then_hop};
ghost use Rattle.swift_core.specs.declared.term.CoreHop.TheVariants as hop;
ghost use Rattle.swift_core.specs.declared.ty.Ty.{out-Ty};
ghost use Rattle.swift_core.specs.declared.ty.Ty.TheVariants as ty;
ghost use Rattle.swift_core.specs.Types.{element_at};
ghost use Rattle.type_base.specs.Claims.{and_then};
ghost use Rattle.type_base.specs.Promotion.{wanted};
ghost use Rattle.swift_ast.specs.declared.tree.Part.{out-Part};
ghost use Rattle.type_base.specs.Context.{seen};
ghost use Rattle.type_base.specs.Rules.{Answers};

use expr_rules::wanted;
use post_members::{bound_root, root, then_hop, var_field};
use std::alloc::Global;
use sv_items::Boxed;
use swift_ast::{Expr, ExprForm, Part, Selector};
use swift_core::{Core, CoreHop, Target, Ty};
use type_base::{Fault, Inner, Scope, shallow};

/// The `var` property of this name of the value at a place.
#[tactic(auto, unfolding(type_base::specs::Claims::and_then))]
fn field_step(
    alloc: Global,
    scope: &Scope<'_>,
    place: (Target, Ty),
    name: &[u8],
) -> Result<(Target, Ty), Fault>
    ensures found { Answers result (and_then (var_field (seen scope.now).table place.1 name.now) (λ x. Some (then_hop place.0 (hop.Field x.0), x.1))) }
{
    let (target, ty) = place;
    let (at, field) = var_field(alloc, scope.table, &ty, name)?;
    Ok((then_hop(target, CoreHop::Field(at))?, field))
}

/// An element of the list at a place.
#[tactic(auto, unfolding(type_base::specs::Claims::and_then))]
fn index_step<F>(
    inner: &Inner<F>,
    scope: &Scope<'_>,
    place: (Target, Ty),
    index: &Boxed<Expr>,
) -> Result<(Target, Ty), Fault>
where
    F: Fn(Global, u32, &Scope<'_>, Option<&Ty>, &Expr) -> Result<(Core, Ty), Fault>,
    requires { Checks inner.now.room (F.pre inner.now.check) (F.post inner.now.check) }
    ensures found { Answers result (and_then (element_at (out-Ty place.1)) (λ t. and_then (wanted (infer_to inner.now.room index.now) (seen scope.now) ty.Int) (λ c. Some (then_hop place.0 (hop.Index c), t)))) }
{
    let (target, ty) = place;
    match ty.element() {
        Some(element) => {
            let element = element.copy(inner.alloc)?;
            let index = wanted(inner, scope, &Ty::Int, index.get())?;
            Ok((then_hop(target, CoreHop::Index(index))?, element))
        }
        None => Err(Fault::NotTyped),
    }
}

/// A step into the value at a place: a `var` property, or an element of a list.
#[tactic(auto, unfolding(post_rules::specs::Chains::place_step_at))]
fn place_step<F>(
    inner: &Inner<F>,
    scope: &Scope<'_>,
    place: (Target, Ty),
    part: &Part,
) -> Result<(Target, Ty), Fault>
where
    F: Fn(Global, u32, &Scope<'_>, Option<&Ty>, &Expr) -> Result<(Core, Ty), Fault>,
    requires { Checks inner.now.room (F.pre inner.now.check) (F.post inner.now.check) }
    ensures found { Answers result (place_step_at (infer_to inner.now.room) place (out-Part part.now) (seen scope.now)) }
{
    match part {
        Part::Member(selector) => match selector {
            Selector::Name(name) => field_step(inner.alloc, scope, place, name.as_bytes()),
            Selector::Itself => Err(Fault::NotTyped),
        },
        Part::Index(index) => index_step(inner, scope, place, index),
        _ => Err(Fault::NotTyped),
    }
}

/// The steps into the value at a place.
#[tactic(auto, using(crate::proofs::Turns::places_start, crate::proofs::Turns::places_turn, crate::proofs::Turns::places_none, crate::proofs::Turns::places_fail, crate::proofs::Turns::places_deep, crate::proofs::Turns::places_last, crate::proofs::Turns::places_end))]
fn place_steps<F>(
    inner: &Inner<F>,
    scope: &Scope<'_>,
    place: (Target, Ty),
    parts: &[Part],
) -> Result<(Target, Ty), Fault>
where
    F: Fn(Global, u32, &Scope<'_>, Option<&Ty>, &Expr) -> Result<(Core, Ty), Fault>,
    requires { Checks inner.now.room (F.pre inner.now.check) (F.post inner.now.check) }
    ensures found { Answers result (place_steps (infer_to inner.now.room) place parts.now (seen scope.now)) }
{
    let mut here = place;
    for part in parts {
        if !shallow(&here.1) {
            return Err(Fault::NotTyped);
        }
        here = place_step(inner, scope, here, part)?;
    }
    if !shallow(&here.1) {
        return Err(Fault::NotTyped);
    }
    Ok(here)
}

/// The place that an assignment to this expression writes, and the type of the value there.
#[tactic(auto, unfolding(type_base::specs::Claims::and_then, post_rules::specs::Chains::find_target, post_rules::specs::Chains::target_at, post_rules::specs::Chains::place_from))]
pub fn target<F>(inner: &Inner<F>, scope: &Scope<'_>, expr: &Expr) -> Result<(Target, Ty), Fault>
where
    F: Fn(Global, u32, &Scope<'_>, Option<&Ty>, &Expr) -> Result<(Core, Ty), Fault>,
    requires { Checks inner.now.room (F.pre inner.now.check) (F.post inner.now.check) }
    ensures found { Answers result (find_target (infer_to inner.now.room) expr.now (seen scope.now)) }
{
    match &expr.form {
        ExprForm::Post(operand, parts) => {
            let place = root(inner.alloc, scope, operand.get())?;
            place_steps(inner, scope, place, parts.as_slice())
        }
        _ => {
            let place = root(inner.alloc, scope, expr)?;
            place_steps(inner, scope, place, &[])
        }
    }
}

/// The place that a binding as `$x.f[i]` stands for, and the type of the value there.
#[tactic(auto, unfolding(type_base::specs::Claims::and_then, post_rules::specs::Chains::find_binding, post_rules::specs::Chains::binding_at, post_rules::specs::Chains::place_from))]
pub fn binding<F>(inner: &Inner<F>, scope: &Scope<'_>, expr: &Expr) -> Result<(Target, Ty), Fault>
where
    F: Fn(Global, u32, &Scope<'_>, Option<&Ty>, &Expr) -> Result<(Core, Ty), Fault>,
    requires { Checks inner.now.room (F.pre inner.now.check) (F.post inner.now.check) }
    ensures found { Answers result (find_binding (infer_to inner.now.room) expr.now (seen scope.now)) }
{
    match &expr.form {
        ExprForm::Post(operand, parts) => {
            let place = bound_root(inner.alloc, scope, operand.get())?;
            place_steps(inner, scope, place, parts.as_slice())
        }
        _ => {
            let place = bound_root(inner.alloc, scope, expr)?;
            place_steps(inner, scope, place, &[])
        }
    }
}
