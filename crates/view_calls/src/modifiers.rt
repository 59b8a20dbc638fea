//! The modifiers that hold views or an action, and the chain of modifiers behind a view.
#![tactic(auto, unfolding(type_base::specs::Claims::and_then))]

ghost use Rattle.std.specs.Prelude.{◌≡◌, Some, option_copied, IfOk};
ghost use Rattle.type_base.specs.Context.{seen};
ghost use Rattle.view_calls.specs.Checks.{Runs};
ghost use Rattle.view_rules.specs.Builds.{Builds};
ghost use Rattle.view_rules.specs.Items.{items_to};
ghost use Rattle.view_rules.specs.Modifiers as modifiers;

use crate::blocks::{acts, acts_on, acts_on_two, content, reader};
use modifier_parts::{called_at, last_alignment, modifier_named, sole_closure, sole_expr};
use modifier_rules::Modifier;
use std::alloc::{AllocError, Global};
use sv_items::Items;
use swift_ast::{Arg, Closure, Part, Stmt, Tail};
use swift_core::{BlockId, Code, CoreItem, ModifierCall, ModifierKind, Ty};
use swift_lex::Word;
use type_base::{Fault, Inner, LocalKind, Scope};
use type_expr::check_value;
use type_leaves::{
    decorated, dot_name, holding, is_content, item_local, of_argument, on_kind, reader_closure,
    reading, tail_body, two_words,
};
use type_modifiers::{check_value_call, preference_key, value_of};

/// `.overlay(alignment: a) { B }` and `.background(alignment: a) { B }`
#[tactic(auto, unfolding(type_base::specs::Claims::and_then, view_rules::specs::Modifiers::decoration))]
fn decoration<F>(
    inner: &Inner<F>,
    scope: &mut Scope<'_>,
    name: Modifier,
    args: &[Arg],
    tail: &Tail,
    blocks: &mut Items<Code>,
) -> Result<ModifierCall, Fault>
where
    F: Fn(Global, u32, &mut Scope<'_>, &[Stmt], &mut Items<Code>) -> Result<Items<CoreItem>, Fault>,
    requires runs { Runs inner.now.room (F.pre inner.now.check) (F.post inner.now.check) }
    ensures found { Builds result scope.old scope.new blocks.new (modifiers.decoration (items_to inner.now.room) name args.now tail.now (seen scope.old) blocks.old) }
{
    match last_alignment(args) {
        Some(alignment) => match tail_body(tail) {
            Some(statements) => {
                let items = content(inner, scope, statements, blocks)?;
                Ok(holding(inner.alloc, decorated(name, alignment), items))
            }
            None => Err(Fault::NotTyped),
        },
        None => Err(Fault::NotTyped),
    }
}

/// `.overlayPreferenceValue(K.self) { v in B }` and `.backgroundPreferenceValue(K.self) { v in B }`
#[tactic(auto, unfolding(type_base::specs::Claims::and_then, view_rules::specs::Modifiers::reader_call))]
fn reader_call<F>(
    inner: &Inner<F>,
    scope: &mut Scope<'_>,
    name: Modifier,
    args: &[Arg],
    tail: &Tail,
    blocks: &mut Items<Code>,
) -> Result<ModifierCall, Fault>
where
    F: Fn(Global, u32, &mut Scope<'_>, &[Stmt], &mut Items<Code>) -> Result<Items<CoreItem>, Fault>,
    requires runs { Runs inner.now.room (F.pre inner.now.check) (F.post inner.now.check) }
    ensures found { Builds result scope.old scope.new blocks.new (modifiers.reader_call (items_to inner.now.room) name args.now tail.now (seen scope.old) blocks.old) }
{
    match sole_expr(args) {
        Some(e) => {
            let (key, ty) = preference_key(inner.alloc, scope, e)?;
            match reader_closure(tail) {
                Some((w, statements)) => {
                    let value = item_local(inner.alloc, w.as_bytes(), ty, LocalKind::Let)?;
                    let block = reader(inner, scope, statements, value, blocks)?;
                    let kind = reading(name, key, block);
                    Ok(holding(inner.alloc, kind, Items::new(inner.alloc)))
                }
                None => Err(Fault::NotTyped),
            }
        }
        None => Err(Fault::NotTyped),
    }
}

/// `.onAppear { A }`, `.onDisappear { A }` and `.onTapGesture { A }`
#[tactic(auto, unfolding(type_base::specs::Claims::and_then, view_rules::specs::Modifiers::on_call))]
fn on_call(
    alloc: Global,
    scope: &mut Scope<'_>,
    name: Modifier,
    args: &[Arg],
    tail: &Tail,
    blocks: &mut Items<Code>,
) -> Result<ModifierCall, Fault>
    ensures found { Builds result scope.old scope.new blocks.new (modifiers.on_call name args.now tail.now (seen scope.old) blocks.old) }
{
    match args {
        [] => match tail_body(tail) {
            Some(statements) => {
                let block = acts(alloc, scope, statements, blocks)?;
                Ok(holding(alloc, on_kind(name, block), Items::new(alloc)))
            }
            None => Err(Fault::NotTyped),
        },
        _ => Err(Fault::NotTyped),
    }
}

/// The action with the old value and the new one.
#[tactic(auto, unfolding(view_rules::specs::Modifiers::change_action))]
fn changed_with(
    alloc: Global,
    scope: &mut Scope<'_>,
    ty: Ty,
    statements: &[Stmt],
    words: (&Word, &Word),
    blocks: &mut Items<Code>,
) -> Result<BlockId, Fault>
    ensures found { Builds result scope.old scope.new blocks.new (modifiers.change_action ty statements.now (Some (words.entry.0.now, words.entry.1.now)) (seen scope.old) blocks.old) }
{
    let first = item_local(alloc, words.0.as_bytes(), ty.copy(alloc)?, LocalKind::Let)?;
    let second = item_local(alloc, words.1.as_bytes(), ty, LocalKind::Let)?;
    acts_on_two(alloc, scope, statements, first, second, blocks)
}

/// The action of `.onChange`: without parameters, or with two.
#[tactic(auto, unfolding(type_base::specs::Claims::and_then, view_rules::specs::Modifiers::change_action))]
fn change_action(
    alloc: Global,
    scope: &mut Scope<'_>,
    ty: Ty,
    closure: &Closure,
    blocks: &mut Items<Code>,
) -> Result<BlockId, Fault>
    ensures found { Builds result scope.old scope.new blocks.new (modifiers.change_closure ty closure.now (seen scope.old) blocks.old) }
{
    match &closure.params {
        None => acts(alloc, scope, closure.body.as_slice(), blocks),
        Some(params) => match two_words(params.as_slice()) {
            Some(words) => changed_with(alloc, scope, ty, closure.body.as_slice(), words, blocks),
            None => Err(Fault::NotTyped),
        },
    }
}

/// `.onChange(of: e) { A }` and `.onChange(of: e) { old, new in A }`
#[tactic(auto, unfolding(type_base::specs::Claims::and_then, view_rules::specs::Modifiers::change_call))]
fn change_call(
    alloc: Global,
    scope: &mut Scope<'_>,
    args: &[Arg],
    tail: &Tail,
    blocks: &mut Items<Code>,
) -> Result<ModifierCall, Fault>
    ensures found { Builds result scope.old scope.new blocks.new (modifiers.change_call args.now tail.now (seen scope.old) blocks.old) }
{
    match of_argument(args) {
        Some(e) => {
            let (core, ty) = check_value(alloc, scope, None, e)?;
            match sole_closure(tail) {
                Some(closure) => {
                    let block = change_action(alloc, scope, ty, closure, blocks)?;
                    Ok(value_of(alloc, ModifierKind::OnChange(block), core)?)
                }
                None => Err(Fault::NotTyped),
            }
        }
        None => Err(Fault::NotTyped),
    }
}

/// `.onPreferenceChange(K.self) { v in A }`
#[tactic(auto, unfolding(type_base::specs::Claims::and_then, view_rules::specs::Modifiers::preference_change))]
fn preference_change(
    alloc: Global,
    scope: &mut Scope<'_>,
    args: &[Arg],
    tail: &Tail,
    blocks: &mut Items<Code>,
) -> Result<ModifierCall, Fault>
    ensures found { Builds result scope.old scope.new blocks.new (modifiers.preference_change args.now tail.now (seen scope.old) blocks.old) }
{
    match sole_expr(args) {
        Some(e) => {
            let (key, ty) = preference_key(alloc, scope, e)?;
            match reader_closure(tail) {
                Some((w, statements)) => {
                    let value = item_local(alloc, w.as_bytes(), ty, LocalKind::Let)?;
                    let block = acts_on(alloc, scope, statements, value, blocks)?;
                    let kind = ModifierKind::OnPreferenceChange(key, block);
                    Ok(holding(alloc, kind, Items::new(alloc)))
                }
                None => Err(Fault::NotTyped),
            }
        }
        None => Err(Fault::NotTyped),
    }
}

/// A modifier that holds views.
#[tactic(auto, unfolding(view_rules::specs::Modifiers::content_call))]
fn content_call<F>(
    inner: &Inner<F>,
    scope: &mut Scope<'_>,
    name: Modifier,
    args: &[Arg],
    tail: &Tail,
    blocks: &mut Items<Code>,
) -> Result<ModifierCall, Fault>
where
    F: Fn(Global, u32, &mut Scope<'_>, &[Stmt], &mut Items<Code>) -> Result<Items<CoreItem>, Fault>,
    requires runs { Runs inner.now.room (F.pre inner.now.check) (F.post inner.now.check) }
    ensures found { Builds result scope.old scope.new blocks.new (modifiers.content_call (items_to inner.now.room) name args.now tail.now (seen scope.old) blocks.old) }
{
    match name {
        Modifier::Overlay | Modifier::Background => {
            decoration(inner, scope, name, args, tail, blocks)
        }
        Modifier::OverlayReader | Modifier::BackgroundReader => {
            reader_call(inner, scope, name, args, tail, blocks)
        }
        Modifier::OnAppear | Modifier::OnDisappear | Modifier::OnTapGesture => {
            on_call(inner.alloc, scope, name, args, tail, blocks)
        }
        Modifier::OnChange => change_call(inner.alloc, scope, args, tail, blocks),
        Modifier::OnPreferenceChange => preference_change(inner.alloc, scope, args, tail, blocks),
        _ => Err(Fault::NotTyped),
    }
}

/// A modifier by its name; None where it makes no node.
#[tactic(auto, unfolding(type_base::specs::Claims::and_then, view_rules::specs::Modifiers::any_call))]
fn any_call<F>(
    inner: &Inner<F>,
    scope: &mut Scope<'_>,
    name: Modifier,
    args: &[Arg],
    tail: Option<&Tail>,
    blocks: &mut Items<Code>,
) -> Result<Option<ModifierCall>, Fault>
where
    F: Fn(Global, u32, &mut Scope<'_>, &[Stmt], &mut Items<Code>) -> Result<Items<CoreItem>, Fault>,
    requires runs { Runs inner.now.room (F.pre inner.now.check) (F.post inner.now.check) }
    ensures found { Builds result scope.old scope.new blocks.new (modifiers.any_call (items_to inner.now.room) name args.now (option_copied tail.entry) (seen scope.old) blocks.old) }
{
    if is_content(name) {
        match tail {
            Some(tail) => Ok(Some(content_call(inner, scope, name, args, tail, blocks)?)),
            None => Err(Fault::NotTyped),
        }
    } else {
        Ok(check_value_call(inner.alloc, scope, name, args, tail)?)
    }
}

/// `.name` and a call.
#[tactic(auto, unfolding(type_base::specs::Claims::and_then, view_rules::specs::Modifiers::find_modifier))]
fn modifier<F>(
    inner: &Inner<F>,
    scope: &mut Scope<'_>,
    dot: &Part,
    part: &Part,
    blocks: &mut Items<Code>,
) -> Result<Option<ModifierCall>, Fault>
where
    F: Fn(Global, u32, &mut Scope<'_>, &[Stmt], &mut Items<Code>) -> Result<Items<CoreItem>, Fault>,
    requires runs { Runs inner.now.room (F.pre inner.now.check) (F.post inner.now.check) }
    ensures found { Builds result scope.old scope.new blocks.new (modifiers.find_modifier (items_to inner.now.room) dot.now part.now (seen scope.old) blocks.old) }
{
    match dot_name(dot) {
        Some(w) => match called_at(part) {
            Some((args, tail)) => match modifier_named(w, args) {
                Some(name) => any_call(inner, scope, name, args, tail, blocks),
                None => Err(Fault::NotTyped),
            },
            None => Err(Fault::NotTyped),
        },
        None => Err(Fault::NotTyped),
    }
}

fn put_call(
    done: Items<ModifierCall>,
    call: Option<ModifierCall>,
) -> Result<Items<ModifierCall>, AllocError>
    ensures value { IfOk result (λ all. all ≡ modifiers.with_call done call) }
{
    let mut done = done;
    match call {
        Some(call) => {
            done.push(call)?;
            Ok(done)
        }
        None => Ok(done),
    }
}

/// The modifiers so far, and those of the parts, from the inside out.
#[tactic(auto, unfolding(type_base::specs::Claims::and_then, view_rules::specs::Modifiers::find_modifiers))]
pub fn modified<F>(
    inner: &Inner<F>,
    scope: &mut Scope<'_>,
    done: Items<ModifierCall>,
    parts: &[Part],
    blocks: &mut Items<Code>,
) -> Result<Items<ModifierCall>, Fault>
where
    F: Fn(Global, u32, &mut Scope<'_>, &[Stmt], &mut Items<Code>) -> Result<Items<CoreItem>, Fault>,
    requires runs { Runs inner.now.room (F.pre inner.now.check) (F.post inner.now.check) }
    ensures found { Builds result scope.old scope.new blocks.new (modifiers.find_modifiers (items_to inner.now.room) done parts.now (seen scope.old) blocks.old) }
{
    match parts {
        [] => Ok(done),
        [dot, part, rest @ ..] => {
            let call = modifier(inner, scope, dot, part, blocks)?;
            let done = put_call(done, call)?;
            modified(inner, scope, done, rest, blocks)
        }
        [_] => Err(Fault::NotTyped),
    }
}
