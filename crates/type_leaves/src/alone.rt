//! The views without trailing closures, and what a name stands for.
#![tactic(auto, unfolding(type_base::specs::Claims::and_then))]

ghost use Rattle.std.specs.Prelude.{◌≡◌, None};
ghost use Rattle.modifier_rules.specs.Arguments.{Leaves};
ghost use Rattle.type_base.specs.Context.{seen};
ghost use Rattle.type_base.specs.Rules.{Answers};
ghost use Rattle.view_rules.specs.Views as views;

use crate::forms::toggle_arguments;
use crate::names::view_named;
use crate::simple::{custom_call, function_call, property_use, simple_call, truth_place};
use align_guides::Axis;
use modifier_rules::Slot;
use std::alloc::Global;
use swift_ast::{Arg, Expr};
use swift_core::{Core, Label, Ty, ViewCall};
use swift_lex::Word;
use type_base::{Fault, Scope, find_declaration, find_local, find_own};
use type_expr::check_wanted;
use type_modifiers::check_slot;
use view_rules::ViewName;

/// `Toggle(s, isOn: b)`
#[tactic(auto, unfolding(type_base::specs::Claims::and_then, view_rules::specs::Views::titled_toggle))]
fn titled_toggle(alloc: Global, scope: &Scope<'_>, args: &[Arg]) -> Result<ViewCall, Fault>
    ensures found { Answers result (views.titled_toggle args.now (seen scope.now)) }
{
    match toggle_arguments(args) {
        Some((title, e)) => {
            let title = check_wanted(alloc, scope, &Ty::Text, title)?;
            let place = truth_place(alloc, scope, e)?;
            Ok(ViewCall::Toggle(place, Label::Text(title)))
        }
        None => Err(Fault::NotTyped),
    }
}

/// The spacing of a stack along this axis, which a ZStack has not, and the arguments behind it.
pub fn spaced<'t>(
    alloc: Global,
    scope: &Scope<'_>,
    axis: Axis,
    args: &'t [Arg],
) -> Result<(Option<Core>, &'t [Arg]), Fault>
    ensures found { Leaves result (views.spaced axis args.now (seen scope.now)) }
{
    match axis {
        Axis::Z => Ok((None, args)),
        Axis::H | Axis::V => check_slot(alloc, scope, Slot::Spacing, args),
    }
}

/// A built-in view without trailing closures.
#[tactic(auto, unfolding(view_rules::specs::Views::built_in_alone))]
pub fn built_in_alone(
    alloc: Global,
    scope: &Scope<'_>,
    name: ViewName,
    args: &[Arg],
) -> Result<ViewCall, Fault>
    ensures found { Answers result (views.built_in_alone name args.now (seen scope.now)) }
{
    match name {
        ViewName::Toggle => titled_toggle(alloc, scope, args),
        _ => simple_call(alloc, scope, name, args),
    }
}

/// The built-in view that a called name stands for.
pub fn builtin_meant(scope: &Scope<'_>, own: bool, w: &Word) -> Option<ViewName>
    ensures value { result ≡ views.builtin_of (views.meaning own w.now (seen scope.now)) }
{
    if own {
        return None;
    }
    if find_local(scope, w.as_bytes()).is_some() {
        return None;
    }
    if find_own(scope, w.as_bytes()).is_some() {
        return None;
    }
    match find_declaration(scope.table, w.as_bytes()) {
        Some(_) => None,
        None => view_named(w),
    }
}

/// The use of a function of the same view, or a custom view.
#[tactic(auto, unfolding(view_rules::specs::Views::meant_alone))]
pub fn meant_alone(
    alloc: Global,
    scope: &Scope<'_>,
    own: bool,
    w: &Word,
    args: &[Arg],
) -> Result<ViewCall, Fault>
    ensures found { Answers result (views.meant_alone (views.meaning own w.now (seen scope.now)) w.now args.now None (seen scope.now)) }
{
    if own {
        return function_call(alloc, scope, w.as_bytes(), args);
    }
    if find_local(scope, w.as_bytes()).is_some() {
        return Err(Fault::NotTyped);
    }
    if find_own(scope, w.as_bytes()).is_some() {
        return function_call(alloc, scope, w.as_bytes(), args);
    }
    match find_declaration(scope.table, w.as_bytes()) {
        Some((number, declaration)) => custom_call(alloc, scope, number, declaration, args),
        None => Err(Fault::NotTyped),
    }
}

/// A name that is not called: a property of `some View`.
#[tactic(auto, unfolding(view_rules::specs::Views::named_use))]
pub fn named_use(alloc: Global, scope: &Scope<'_>, own: bool, w: &Word) -> Result<ViewCall, Fault>
    ensures found { Answers result (views.named_use own w.now (seen scope.now)) }
{
    if own {
        return property_use(alloc, scope, w.as_bytes());
    }
    if find_local(scope, w.as_bytes()).is_some() {
        return Err(Fault::NotTyped);
    }
    property_use(alloc, scope, w.as_bytes())
}
