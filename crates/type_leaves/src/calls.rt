//! Arguments, closures and kinds of the modifiers that hold views or an action.
#![tactic(auto, unfolding(type_base::specs::Claims::and_then))]

ghost use Rattle.std.specs.Prelude.{◌≡◌, [], codes, option_copied, option_map, IfOk};
ghost use Rattle.modifier_rules.specs.Arguments.{call};
ghost use Rattle.view_rules.specs.Builds.{local};
ghost use Rattle.view_rules.specs.Forms as forms;
ghost use Rattle.view_rules.specs.Modifiers as modifiers;

use modifier_parts::{labelled_expr, param_word, sole_closure, sole_param};
use modifier_rules::Modifier;
use std::alloc::{AllocError, Global};
use sv_items::Items;
use swift_ast::{Arg, ClosureParam, Expr, Stmt, Tail};
use swift_core::{Alignment, BlockId, CoreItem, ModifierCall, ModifierKind, Ty};
use swift_lex::Word;
use type_base::{Local, LocalKind};

pub fn of_argument(args: &[Arg]) -> Option<&Expr>
    ensures value { option_copied result ≡ modifiers.of_argument args.now }
{
    match args {
        [arg] => labelled_expr(b"of", arg),
        _ => None,
    }
}

pub fn reader_closure(tail: &Tail) -> Option<(&Word, &[Stmt])>
    ensures value { option_map (λ x. (x.0.now, x.1.now)) result ≡ modifiers.reader_closure tail.now }
{
    match sole_closure(tail) {
        Some(closure) => match sole_param(closure) {
            Some(w) => Some((w, closure.body.as_slice())),
            None => None,
        },
        None => None,
    }
}

pub fn two_words(params: &[ClosureParam]) -> Option<(&Word, &Word)>
    ensures value { option_map (λ x. (x.0.now, x.1.now)) result ≡ modifiers.two_words params.now }
{
    match params {
        [first, second] => match param_word(first) {
            Some(old) => match param_word(second) {
                Some(new) => Some((old, new)),
                None => None,
            },
            None => None,
        },
        _ => None,
    }
}

pub fn item_local(alloc: Global, name: &[u8], ty: Ty, kind: LocalKind) -> Result<Local, AllocError>
    ensures value { IfOk result (λ l. l ≡ local name.now ty kind) }
{
    Ok(Local {
        name: Word::new(name.to_vec(alloc)?),
        ty,
        kind,
    })
}

pub fn behind_dollar(name: &Word) -> &[u8]
    ensures value { result.now ≡ forms.behind_dollar name.now }
{
    match name.as_bytes() {
        [] => &[],
        [_, rest @ ..] => rest,
    }
}

/// A modifier without arguments, with these views.
pub fn holding(alloc: Global, kind: ModifierKind, content: Items<CoreItem>) -> ModifierCall
    ensures value { result ≡ call kind [] content }
{
    ModifierCall {
        kind,
        arguments: Items::new(alloc),
        content,
    }
}

pub fn decorated(name: Modifier, alignment: Alignment) -> ModifierKind
    ensures value { result ≡ modifiers.decorated name alignment }
{
    match name {
        Modifier::Overlay => ModifierKind::Overlay(alignment),
        _ => ModifierKind::Background(alignment),
    }
}

pub fn reading(name: Modifier, key: u32, block: BlockId) -> ModifierKind
    ensures value { result ≡ modifiers.reading name key block }
{
    match name {
        Modifier::OverlayReader => ModifierKind::OverlayReader(key, block),
        _ => ModifierKind::BackgroundReader(key, block),
    }
}

pub fn on_kind(name: Modifier, block: BlockId) -> ModifierKind
    ensures value { result ≡ modifiers.on_kind name block }
{
    match name {
        Modifier::OnAppear => ModifierKind::OnAppear(block),
        Modifier::OnDisappear => ModifierKind::OnDisappear(block),
        _ => ModifierKind::OnTapGesture(block),
    }
}

pub fn is_content(name: Modifier) -> bool
    ensures value { result ≡ modifiers.is_content name }
{
    match name {
        Modifier::Plain(_)
        | Modifier::Id
        | Modifier::Environment
        | Modifier::Preference
        | Modifier::AlignmentGuide
        | Modifier::Bold
        | Modifier::Style => false,
        _ => true,
    }
}
