//! The views without content.
#![tactic(auto, unfolding(type_base::specs::Claims::and_then))]

ghost use Rattle.std.specs.Prelude.{◌≡◌, None, option_copied};
ghost use Rattle.type_base.specs.Context.{seen};
ghost use Rattle.type_base.specs.Rules.{Answers};
ghost use Rattle.view_rules.specs.Forms as forms;
ghost use Rattle.view_rules.specs.Simple as simple;

use crate::forms::{image_argument, text_argument};
use modifier_rules::Slot;
use std::alloc::Global;
use sv_items::Items;
use swift_ast::{Arg, Expr};
use swift_core::{Declaration, Kind, SignatureForm, Target, Ty, ViewCall};
use type_base::{Fault, Scope, find_own, owner};
use type_expr::{check_arguments, check_binding, check_fillings, check_wanted};
use type_modifiers::check_slot;
use view_rules::ViewName;

#[tactic(auto, unfolding(type_base::specs::Claims::and_then, view_rules::specs::Simple::text_call))]
fn text_call(alloc: Global, scope: &Scope<'_>, args: &[Arg]) -> Result<ViewCall, Fault>
    ensures found { Answers result (simple.text_call args.now (seen scope.now)) }
{
    match text_argument(args) {
        Some(e) => Ok(ViewCall::Text(check_wanted(alloc, scope, &Ty::Text, e)?)),
        None => Err(Fault::NotTyped),
    }
}

#[tactic(auto, unfolding(type_base::specs::Claims::and_then, view_rules::specs::Simple::image_call))]
fn image_call(alloc: Global, scope: &Scope<'_>, args: &[Arg]) -> Result<ViewCall, Fault>
    ensures found { Answers result (simple.image_call args.now (seen scope.now)) }
{
    match image_argument(args) {
        Some(e) => Ok(ViewCall::Image(check_wanted(alloc, scope, &Ty::Text, e)?)),
        None => Err(Fault::NotTyped),
    }
}

#[tactic(auto, unfolding(type_base::specs::Claims::and_then, view_rules::specs::Simple::spacer_call))]
fn spacer_call(alloc: Global, scope: &Scope<'_>, args: &[Arg]) -> Result<ViewCall, Fault>
    ensures found { Answers result (simple.spacer_call args.now (seen scope.now)) }
{
    let least = check_slot(alloc, scope, Slot::MinLength, args)?;
    match least.1 {
        [] => Ok(ViewCall::Spacer(least.0)),
        _ => Err(Fault::NotTyped),
    }
}

/// A built-in view without closures.
#[tactic(auto, unfolding(view_rules::specs::Simple::simple_call))]
pub fn simple_call(
    alloc: Global,
    scope: &Scope<'_>,
    name: ViewName,
    args: &[Arg],
) -> Result<ViewCall, Fault>
    ensures found { Answers result (simple.simple_call name args.now (seen scope.now)) }
{
    match name {
        ViewName::Text => text_call(alloc, scope, args),
        ViewName::Image => image_call(alloc, scope, args),
        ViewName::Spacer => spacer_call(alloc, scope, args),
        ViewName::Rectangle => match args {
            [] => Ok(ViewCall::Rectangle),
            _ => Err(Fault::NotTyped),
        },
        ViewName::Empty => match args {
            [] => Ok(ViewCall::Empty),
            _ => Err(Fault::NotTyped),
        },
        _ => Err(Fault::NotTyped),
    }
}

fn is_view(kind: Kind) -> bool
    ensures value { result ≡ forms.is_view kind }
{
    match kind {
        Kind::View => true,
        _ => false,
    }
}

/// A custom view, by its initialiser.
#[tactic(auto, unfolding(type_base::specs::Claims::and_then, view_rules::specs::Simple::custom_call))]
pub fn custom_call(
    alloc: Global,
    scope: &Scope<'_>,
    number: u32,
    declaration: &Declaration,
    args: &[Arg],
) -> Result<ViewCall, Fault>
    ensures found { Answers result (simple.custom_call number declaration.now args.now (seen scope.now)) }
{
    if is_view(declaration.kind) {
        Ok(ViewCall::Custom(number, check_fillings(alloc, scope, number, args)?))
    } else {
        Err(Fault::NotTyped)
    }
}

fn in_view(scope: &Scope<'_>) -> bool
    ensures value { result ≡ forms.in_view (seen scope.now) }
{
    match owner(scope) {
        Some((_, declaration)) => is_view(declaration.kind),
        None => false,
    }
}

/// The use of a function of `some View` of the same view.
#[tactic(auto, unfolding(type_base::specs::Claims::and_then, view_rules::specs::Simple::function_call))]
pub fn function_call(
    alloc: Global,
    scope: &Scope<'_>,
    w: &[u8],
    args: &[Arg],
) -> Result<ViewCall, Fault>
    ensures found { Answers result (simple.function_call w.now args.now (seen scope.now)) }
{
    if !in_view(scope) {
        return Err(Fault::NotTyped);
    }
    match find_own(scope, w) {
        Some((_, member)) => match &member.form {
            SignatureForm::BuilderFunction(parameters) => {
                let arguments = check_arguments(alloc, scope, parameters.as_slice(), args)?;
                Ok(ViewCall::Builder(member.code, arguments))
            }
            _ => Err(Fault::NotTyped),
        },
        None => Err(Fault::NotTyped),
    }
}

/// The use of a property of `some View` of the same view.
#[tactic(auto, unfolding(type_base::specs::Claims::and_then, view_rules::specs::Simple::property_use))]
pub fn property_use(alloc: Global, scope: &Scope<'_>, w: &[u8]) -> Result<ViewCall, Fault>
    ensures found { Answers result (simple.property_use w.now (seen scope.now)) }
{
    if !in_view(scope) {
        return Err(Fault::NotTyped);
    }
    match find_own(scope, w) {
        Some((_, member)) => match &member.form {
            SignatureForm::BuilderProperty => Ok(ViewCall::Builder(member.code, Items::new(alloc))),
            _ => Err(Fault::NotTyped),
        },
        None => Err(Fault::NotTyped),
    }
}

/// The place of a truth value.
#[tactic(auto, unfolding(type_base::specs::Claims::and_then, view_rules::specs::Simple::truth_place))]
pub fn truth_place(alloc: Global, scope: &Scope<'_>, e: &Expr) -> Result<Target, Fault>
    ensures found { Answers result (simple.truth_place e.now (seen scope.now)) }
{
    let place = check_binding(alloc, scope, e)?;
    if place.1.same(&Ty::Bool) {
        Ok(place.0)
    } else {
        Err(Fault::NotTyped)
    }
}
