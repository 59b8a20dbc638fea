//! The views with content, and a view by its name.
#![tactic(auto, unfolding(type_base::specs::Claims::and_then))]

ghost use Rattle.std.specs.Prelude.{◌≡◌, option_copied};
ghost use Rattle.type_base.specs.Context.{seen};
ghost use Rattle.view_calls.specs.Checks.{Runs};
ghost use Rattle.type_base.specs.declared.scope.LocalKind.TheVariants as local_kind;
ghost use Rattle.view_rules.specs.Builds.{Builds, local, with_item};
ghost use Rattle.view_rules.specs.Items.{items_to};
ghost use Rattle.view_rules.specs.Views as views;

use crate::blocks::{acts, content, content_on};
use align_guides::Axis;
use modifier_parts::{sole_closure, sole_expr, take_alignment};
use std::alloc::Global;
use sv_items::Items;
use swift_ast::{Arg, Closure, ClosureParam, Expr, Selector, Stmt, Tail};
use swift_core::{Code, CoreItem, ForEachOver, Label, Ty, ViewCall};
use swift_lex::Word;
use type_base::{Fault, Inner, LocalKind, Scope};
use type_cases::check_over;
use type_expr::{check_binding, check_wanted};
use type_leaves::{
    behind_dollar, built_in_alone, builtin_meant, button_bodies, each_arguments, each_over,
    each_param, id_rule, item_local, meant_alone, spaced, tail_body, toggle_argument, truth_place,
};
use view_rules::ViewName;

/// `Button(s) { A }`
#[tactic(auto, unfolding(type_base::specs::Claims::and_then, view_rules::specs::Views::titled_button))]
fn titled_button(
    alloc: Global,
    scope: &mut Scope<'_>,
    title: &Expr,
    tail: &Tail,
    blocks: &mut Items<Code>,
) -> Result<ViewCall, Fault>
    ensures found { Builds result scope.old scope.new blocks.new (views.titled_button title.now tail.now (seen scope.old) blocks.old) }
{
    match tail_body(tail) {
        Some(statements) => {
            let title = check_wanted(alloc, scope, &Ty::Text, title)?;
            let block = acts(alloc, scope, statements, blocks)?;
            Ok(ViewCall::Button(block, Label::Text(title)))
        }
        None => Err(Fault::NotTyped),
    }
}

/// `Button { A } label: { B }` and `Button(action: { A }) { B }`
#[tactic(auto, unfolding(type_base::specs::Claims::and_then, view_rules::specs::Views::labelled_button))]
fn labelled_button<F>(
    inner: &Inner<F>,
    scope: &mut Scope<'_>,
    args: &[Arg],
    tail: &Tail,
    blocks: &mut Items<Code>,
) -> Result<ViewCall, Fault>
where
    F: Fn(Global, u32, &mut Scope<'_>, &[Stmt], &mut Items<Code>) -> Result<Items<CoreItem>, Fault>,
    requires runs { Runs inner.now.room (F.pre inner.now.check) (F.post inner.now.check) }
    ensures found { Builds result scope.old scope.new blocks.new (views.labelled_button (items_to inner.now.room) args.now tail.now (seen scope.old) blocks.old) }
{
    match button_bodies(args, tail) {
        Some((action, label)) => {
            let block = acts(inner.alloc, scope, action, blocks)?;
            let items = content(inner, scope, label, blocks)?;
            Ok(ViewCall::Button(block, Label::Content(items)))
        }
        None => Err(Fault::NotTyped),
    }
}

fn button<F>(
    inner: &Inner<F>,
    scope: &mut Scope<'_>,
    args: &[Arg],
    tail: &Tail,
    blocks: &mut Items<Code>,
) -> Result<ViewCall, Fault>
where
    F: Fn(Global, u32, &mut Scope<'_>, &[Stmt], &mut Items<Code>) -> Result<Items<CoreItem>, Fault>,
    requires runs { Runs inner.now.room (F.pre inner.now.check) (F.post inner.now.check) }
    ensures found { Builds result scope.old scope.new blocks.new (views.button_in (items_to inner.now.room) args.now tail.now (seen scope.old) blocks.old) }
{
    match sole_expr(args) {
        Some(title) => titled_button(inner.alloc, scope, title, tail, blocks),
        None => labelled_button(inner, scope, args, tail, blocks),
    }
}

/// `Toggle(isOn: b) { B }`
#[tactic(auto, unfolding(type_base::specs::Claims::and_then, view_rules::specs::Views::labelled_toggle))]
fn labelled_toggle<F>(
    inner: &Inner<F>,
    scope: &mut Scope<'_>,
    args: &[Arg],
    tail: &Tail,
    blocks: &mut Items<Code>,
) -> Result<ViewCall, Fault>
where
    F: Fn(Global, u32, &mut Scope<'_>, &[Stmt], &mut Items<Code>) -> Result<Items<CoreItem>, Fault>,
    requires runs { Runs inner.now.room (F.pre inner.now.check) (F.post inner.now.check) }
    ensures found { Builds result scope.old scope.new blocks.new (views.labelled_toggle (items_to inner.now.room) args.now tail.now (seen scope.old) blocks.old) }
{
    match toggle_argument(args) {
        Some(e) => match tail_body(tail) {
            Some(statements) => {
                let place = truth_place(inner.alloc, scope, e)?;
                let items = content(inner, scope, statements, blocks)?;
                Ok(ViewCall::Toggle(place, Label::Content(items)))
            }
            None => Err(Fault::NotTyped),
        },
        None => Err(Fault::NotTyped),
    }
}

/// `VStack(alignment: a, spacing: n) { B }` and the like
#[tactic(auto, unfolding(type_base::specs::Claims::and_then, view_rules::specs::Views::stack_call))]
fn stack_call<F>(
    inner: &Inner<F>,
    scope: &mut Scope<'_>,
    axis: Axis,
    args: &[Arg],
    tail: &Tail,
    blocks: &mut Items<Code>,
) -> Result<ViewCall, Fault>
where
    F: Fn(Global, u32, &mut Scope<'_>, &[Stmt], &mut Items<Code>) -> Result<Items<CoreItem>, Fault>,
    requires runs { Runs inner.now.room (F.pre inner.now.check) (F.post inner.now.check) }
    ensures found { Builds result scope.old scope.new blocks.new (views.stack_call (items_to inner.now.room) axis args.now tail.now (seen scope.old) blocks.old) }
{
    match take_alignment(axis, args) {
        Some((alignment, rest)) => {
            let (spacing, more) = spaced(inner.alloc, scope, axis, rest)?;
            match more {
                [] => match tail_body(tail) {
                    Some(statements) => {
                        let items = content(inner, scope, statements, blocks)?;
                        Ok(ViewCall::Stack(axis, alignment, spacing, items))
                    }
                    None => Err(Fault::NotTyped),
                },
                _ => Err(Fault::NotTyped),
            }
        }
        None => Err(Fault::NotTyped),
    }
}

/// `Group { B }`
#[tactic(auto, unfolding(type_base::specs::Claims::and_then, view_rules::specs::Views::group_call))]
fn group_call<F>(
    inner: &Inner<F>,
    scope: &mut Scope<'_>,
    args: &[Arg],
    tail: &Tail,
    blocks: &mut Items<Code>,
) -> Result<ViewCall, Fault>
where
    F: Fn(Global, u32, &mut Scope<'_>, &[Stmt], &mut Items<Code>) -> Result<Items<CoreItem>, Fault>,
    requires runs { Runs inner.now.room (F.pre inner.now.check) (F.post inner.now.check) }
    ensures found { Builds result scope.old scope.new blocks.new (views.group_call (items_to inner.now.room) args.now tail.now (seen scope.old) blocks.old) }
{
    match args {
        [] => match tail_body(tail) {
            Some(statements) => Ok(ViewCall::Group(content(inner, scope, statements, blocks)?)),
            None => Err(Fault::NotTyped),
        },
        _ => Err(Fault::NotTyped),
    }
}

/// The items of a closure whose parameter is a value of this name and type.
fn content_as<F>(
    inner: &Inner<F>,
    scope: &mut Scope<'_>,
    statements: &[Stmt],
    name: &[u8],
    ty: Ty,
    blocks: &mut Items<Code>,
) -> Result<Items<CoreItem>, Fault>
where
    F: Fn(Global, u32, &mut Scope<'_>, &[Stmt], &mut Items<Code>) -> Result<Items<CoreItem>, Fault>,
    requires runs { Runs inner.now.room (F.pre inner.now.check) (F.post inner.now.check) }
    ensures found { Builds result scope.old scope.new blocks.new (items_to inner.now.room statements.now (with_item (seen scope.old) (local name.now ty local_kind.Let)) blocks.old) }
{
    let item = item_local(inner.alloc, name, ty, LocalKind::Let)?;
    content_on(inner, scope, statements, item, blocks)
}

/// The fault, where there is no ForEach over these elements.
fn without(over: ForEachOver, fault: Fault) -> Fault
    ensures value { result ≡ fault }
{
    drop(over);
    fault
}

/// A ForEach whose item is a value.
#[tactic(auto, unfolding(type_base::specs::Claims::and_then, view_rules::specs::Views::each_value))]
fn each_value<F>(
    inner: &Inner<F>,
    scope: &mut Scope<'_>,
    e: &Expr,
    id: Option<&Selector>,
    name: &Word,
    statements: &[Stmt],
    blocks: &mut Items<Code>,
) -> Result<ViewCall, Fault>
where
    F: Fn(Global, u32, &mut Scope<'_>, &[Stmt], &mut Items<Code>) -> Result<Items<CoreItem>, Fault>,
    requires runs { Runs inner.now.room (F.pre inner.now.check) (F.post inner.now.check) }
    ensures found { Builds result scope.old scope.new blocks.new (views.each_value (items_to inner.now.room) e.now (option_copied id.entry) name.now statements.now (seen scope.old) blocks.old) }
{
    let (gone, ty) = check_over(inner.alloc, scope, e)?;
    let over = each_over(scope.table, gone, &ty, id)?;
    match content_as(inner, scope, statements, name.as_bytes(), ty, blocks) {
        Ok(items) => Ok(ViewCall::ForEach(over, items)),
        Err(fault) => Err(without(over, fault)),
    }
}

/// A ForEach whose item is a place.
#[tactic(auto, unfolding(type_base::specs::Claims::and_then, view_rules::specs::Views::each_place))]
fn each_place<F>(
    inner: &Inner<F>,
    scope: &mut Scope<'_>,
    e: &Expr,
    id: Option<&Selector>,
    name: &Word,
    statements: &[Stmt],
    blocks: &mut Items<Code>,
) -> Result<ViewCall, Fault>
where
    F: Fn(Global, u32, &mut Scope<'_>, &[Stmt], &mut Items<Code>) -> Result<Items<CoreItem>, Fault>,
    requires runs { Runs inner.now.room (F.pre inner.now.check) (F.post inner.now.check) }
    ensures found { Builds result scope.old scope.new blocks.new (views.each_place (items_to inner.now.room) e.now (option_copied id.entry) name.now statements.now (seen scope.old) blocks.old) }
{
    let (target, ty) = check_binding(inner.alloc, scope, e)?;
    match ty.element() {
        Some(element) => match id_rule(scope.table, element, id) {
            Some(rule) => {
                let inside = element.copy(inner.alloc)?;
                let name = behind_dollar(name);
                let item = item_local(inner.alloc, name, inside, LocalKind::Place)?;
                let items = content_on(inner, scope, statements, item, blocks)?;
                Ok(ViewCall::ForEach(ForEachOver::Places(target, rule), items))
            }
            None => Err(Fault::NotTyped),
        },
        None => Err(Fault::NotTyped),
    }
}

/// The closure of a ForEach: its parameter tells whether the items are values or places.
#[tactic(auto, unfolding(type_base::specs::Claims::and_then))]
fn each_closure<F>(
    inner: &Inner<F>,
    scope: &mut Scope<'_>,
    e: &Expr,
    id: Option<&Selector>,
    closure: &Closure,
    blocks: &mut Items<Code>,
) -> Result<ViewCall, Fault>
where
    F: Fn(Global, u32, &mut Scope<'_>, &[Stmt], &mut Items<Code>) -> Result<Items<CoreItem>, Fault>,
    requires runs { Runs inner.now.room (F.pre inner.now.check) (F.post inner.now.check) }
    ensures found { Builds result scope.old scope.new blocks.new (views.each_closure (items_to inner.now.room) e.now (option_copied id.entry) closure.now (seen scope.old) blocks.old) }
{
    let body = closure.body.as_slice();
    match each_param(closure) {
        Some(ClosureParam::Name(w)) => each_value(inner, scope, e, id, w, body, blocks),
        Some(ClosureParam::Dollar(w)) => each_place(inner, scope, e, id, w, body, blocks),
        None => Err(Fault::NotTyped),
    }
}

/// `ForEach(l, id: \.p) { x in B }`
#[tactic(auto, unfolding(type_base::specs::Claims::and_then, view_rules::specs::Views::each_call))]
fn each_call<F>(
    inner: &Inner<F>,
    scope: &mut Scope<'_>,
    args: &[Arg],
    tail: &Tail,
    blocks: &mut Items<Code>,
) -> Result<ViewCall, Fault>
where
    F: Fn(Global, u32, &mut Scope<'_>, &[Stmt], &mut Items<Code>) -> Result<Items<CoreItem>, Fault>,
    requires runs { Runs inner.now.room (F.pre inner.now.check) (F.post inner.now.check) }
    ensures found { Builds result scope.old scope.new blocks.new (views.each_call (items_to inner.now.room) args.now tail.now (seen scope.old) blocks.old) }
{
    match each_arguments(args) {
        Some((e, id)) => match sole_closure(tail) {
            Some(closure) => each_closure(inner, scope, e, id, closure, blocks),
            None => Err(Fault::NotTyped),
        },
        None => Err(Fault::NotTyped),
    }
}

/// A built-in view with trailing closures.
#[tactic(auto, unfolding(view_rules::specs::Views::built_in_with))]
fn built_in_with<F>(
    inner: &Inner<F>,
    scope: &mut Scope<'_>,
    name: ViewName,
    args: &[Arg],
    tail: &Tail,
    blocks: &mut Items<Code>,
) -> Result<ViewCall, Fault>
where
    F: Fn(Global, u32, &mut Scope<'_>, &[Stmt], &mut Items<Code>) -> Result<Items<CoreItem>, Fault>,
    requires runs { Runs inner.now.room (F.pre inner.now.check) (F.post inner.now.check) }
    ensures found { Builds result scope.old scope.new blocks.new (views.built_in_with (items_to inner.now.room) name args.now tail.now (seen scope.old) blocks.old) }
{
    match name {
        ViewName::Button => button(inner, scope, args, tail, blocks),
        ViewName::Toggle => labelled_toggle(inner, scope, args, tail, blocks),
        ViewName::Stack(axis) => stack_call(inner, scope, axis, args, tail, blocks),
        ViewName::Group => group_call(inner, scope, args, tail, blocks),
        ViewName::ForEach => each_call(inner, scope, args, tail, blocks),
        _ => Err(Fault::NotTyped),
    }
}

fn built_in<F>(
    inner: &Inner<F>,
    scope: &mut Scope<'_>,
    name: ViewName,
    args: &[Arg],
    tail: Option<&Tail>,
    blocks: &mut Items<Code>,
) -> Result<ViewCall, Fault>
where
    F: Fn(Global, u32, &mut Scope<'_>, &[Stmt], &mut Items<Code>) -> Result<Items<CoreItem>, Fault>,
    requires runs { Runs inner.now.room (F.pre inner.now.check) (F.post inner.now.check) }
    ensures found { Builds result scope.old scope.new blocks.new (views.built_in (items_to inner.now.room) name args.now (option_copied tail.entry) (seen scope.old) blocks.old) }
{
    match tail {
        Some(tail) => built_in_with(inner, scope, name, args, tail, blocks),
        None => Ok(built_in_alone(inner.alloc, scope, name, args)?),
    }
}

/// A name that is called, and has `self.` before it where `own` is so.
#[tactic(auto, using(view_rules::specs::Views::tail_alone), unfolding(type_base::specs::Claims::and_then, view_rules::specs::Views::named_call))]
pub fn named_call<F>(
    inner: &Inner<F>,
    scope: &mut Scope<'_>,
    own: bool,
    w: &Word,
    args: &[Arg],
    tail: Option<&Tail>,
    blocks: &mut Items<Code>,
) -> Result<ViewCall, Fault>
where
    F: Fn(Global, u32, &mut Scope<'_>, &[Stmt], &mut Items<Code>) -> Result<Items<CoreItem>, Fault>,
    requires runs { Runs inner.now.room (F.pre inner.now.check) (F.post inner.now.check) }
    ensures found { Builds result scope.old scope.new blocks.new (views.named_call (items_to inner.now.room) own w.now args.now (option_copied tail.entry) (seen scope.old) blocks.old) }
{
    match builtin_meant(scope, own, w) {
        Some(name) => built_in(inner, scope, name, args, tail, blocks),
        None => match tail {
            None => Ok(meant_alone(inner.alloc, scope, own, w, args)?),
            Some(_) => Err(Fault::NotTyped),
        },
    }
}
