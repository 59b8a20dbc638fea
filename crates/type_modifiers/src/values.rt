//! The modifiers whose arguments are values, and those that make no node.
#![tactic(auto, unfolding(type_base::specs::Claims::and_then))]

ghost use Rattle.std.specs.Prelude.{◌≡◌, ◌∷◌, [], Some, codes, option_copied, option_map, is_some, IfOk, if◌then◌else◌, None};
ghost use Rattle.type_base.specs.Context.{seen};
ghost use Rattle.type_base.specs.Rules.{Answers};
ghost use Rattle.modifier_rules.specs.Arguments.{call};
ghost use Rattle.modifier_rules.specs.Values as values;

use crate::arguments::{bare_call, check_plain};
use crate::guides::check_guide;
use align_guides::GuideKind;
use modifier_parts::{
    guide_of, implicit_of, key_word, labelled_expr, path_at, plain_expr, plain_value, qualified,
    sole_closure, sole_expr, sole_param, sole_statement, word_of,
};
use modifier_rules::Modifier;
use std::alloc::{AllocError, Global};
use sv_items::Items;
use swift_ast::{Arg, Expr, Tail};
use swift_core::{Core, Declaration, Kind, ModifierCall, ModifierKind, Table, Ty};
use swift_lex::Word;
use type_base::{Fault, Scope, find_declaration, find_local, find_own};
use type_expr::{check_value, check_wanted};

/// The declaration of the name, where no local and no member of self has the name.
pub fn free_declaration<'a>(scope: &'a Scope<'_>, w: &[u8]) -> Option<(u32, &'a Declaration)>
    ensures found { option_map (λ x. (x.0, x.1.now)) result ≡ values.free_declaration w.now (seen scope.now) }
{
    if find_local(scope, w).is_some() {
        return None;
    }
    if find_own(scope, w).is_some() {
        return None;
    }
    find_declaration(scope.table, w)
}

fn numbered_key(alloc: Global, table: &Table, n: u32) -> Result<(u32, Ty), Fault>
    ensures found { Answers result (values.numbered_key table.now n) }
{
    match table.preferences.get(n as usize) {
        Some(key) => match &key.ty {
            Some(ty) => Ok((n, ty.copy(alloc)?)),
            None => Err(Fault::NotTyped),
        },
        None => Err(Fault::NotTyped),
    }
}

fn key_named(alloc: Global, scope: &Scope<'_>, w: &[u8]) -> Result<(u32, Ty), Fault>
    ensures found { Answers result (values.key_named w.now (seen scope.now)) }
{
    match free_declaration(scope, w) {
        Some((_, declaration)) => match declaration.kind {
            Kind::Key(n) => numbered_key(alloc, scope.table, n),
            _ => Err(Fault::NotTyped),
        },
        None => Err(Fault::NotTyped),
    }
}

/// The preference key K that `K.self` names, and the type of its value.
#[tactic(auto, unfolding(type_base::specs::Claims::and_then, modifier_rules::specs::Values::preference_key))]
pub fn preference_key(alloc: Global, scope: &Scope<'_>, e: &Expr) -> Result<(u32, Ty), Fault>
    ensures found { Answers result (values.preference_key e.now (seen scope.now)) }
{
    match key_word(e) {
        Some(w) => key_named(alloc, scope, w.as_bytes()),
        None => Err(Fault::NotTyped),
    }
}

#[tactic(auto, unfolding(type_base::specs::Claims::and_then, modifier_rules::specs::Values::environment_key))]
fn environment_key(alloc: Global, table: &Table, w: &[u8]) -> Result<(u32, Ty), Fault>
    ensures found { Answers result (values.environment_key w.now table.now) }
{
    match table.keys.get(w) {
        Some(n) => {
            if 0 < n {
                declared_key(alloc, table, n)
            } else {
                Err(Fault::NotTyped)
            }
        }
        None => Err(Fault::NotTyped),
    }
}

fn declared_key(alloc: Global, table: &Table, n: u32) -> Result<(u32, Ty), Fault>
    ensures found { Answers result (values.declared_key table.now n) }
{
    match table.environment.get(n as usize) {
        Some(key) => match &key.ty {
            Some(ty) => Ok((n, ty.copy(alloc)?)),
            None => Err(Fault::NotTyped),
        },
        None => Err(Fault::NotTyped),
    }
}

fn path_in(arg: &Arg) -> Option<&Word>
    ensures value { option_copied result ≡ values.path_in arg.now }
{
    match plain_value(arg) {
        Some(value) => match path_at(value) {
            Some(selector) => word_of(selector),
            None => None,
        },
        None => None,
    }
}

fn environment_arguments(args: &[Arg]) -> Option<(&Word, &Expr)>
    ensures value { option_map (λ x. (x.0.now, x.1.now)) result ≡ values.environment_arguments args.now }
{
    match args {
        [first, second] => match path_in(first) {
            Some(w) => match plain_expr(second) {
                Some(e) => Some((w, e)),
                None => None,
            },
            None => None,
        },
        _ => None,
    }
}

fn preference_arguments(args: &[Arg]) -> Option<(&Expr, &Expr)>
    ensures value { option_map (λ x. (x.0.now, x.1.now)) result ≡ values.preference_arguments args.now }
{
    match args {
        [first, second] => match labelled_expr(b"key", first) {
            Some(key) => match labelled_expr(b"value", second) {
                Some(e) => Some((key, e)),
                None => None,
            },
            None => None,
        },
        _ => None,
    }
}

fn guide_closure(tail: &Tail) -> Option<(&Word, &Expr)>
    ensures value { option_map (λ x. (x.0.now, x.1.now)) result ≡ values.guide_closure tail.now }
{
    match sole_closure(tail) {
        Some(closure) => match sole_param(closure) {
            Some(w) => match sole_statement(closure.body.as_slice()) {
                Some(e) => Some((w, e)),
                None => None,
            },
            None => None,
        },
        None => None,
    }
}

fn guide_argument(args: &[Arg]) -> Option<GuideKind>
    ensures value { result ≡ values.guide_argument args.now }
{
    match sole_expr(args) {
        Some(e) => guide_of(e),
        None => None,
    }
}

fn is_style(e: &Expr) -> bool
    ensures value { result ≡ values.is_style e.now }
{
    match implicit_of(e) {
        Some(_) => true,
        None => match qualified(e) {
            Some(_) => true,
            None => false,
        },
    }
}

fn is_styled(args: &[Arg]) -> bool
    ensures value { values.style_argument args.now ≡ (if result then Some result else None) }
{
    match sole_expr(args) {
        Some(e) => is_style(e),
        None => false,
    }
}

fn one_argument(alloc: Global, core: Core) -> Result<Items<Option<Core>>, AllocError>
    ensures value { IfOk result (λ xs. xs ≡ Some core ∷ []) }
{
    let mut arguments = Items::new(alloc);
    arguments.push(Some(core))?;
    Ok(arguments)
}

/// A modifier with one value and no views.
pub fn value_of(alloc: Global, kind: ModifierKind, core: Core) -> Result<ModifierCall, AllocError>
    ensures value { IfOk result (λ c. c ≡ call kind (Some core ∷ []) []) }
{
    Ok(bare_call(alloc, kind, one_argument(alloc, core)?))
}

#[tactic(auto, unfolding(type_base::specs::Claims::and_then, modifier_rules::specs::Values::id_call))]
fn id_call(alloc: Global, scope: &Scope<'_>, args: &[Arg]) -> Result<ModifierCall, Fault>
    ensures found { Answers result (values.id_call args.now (seen scope.now)) }
{
    match sole_expr(args) {
        Some(e) => {
            let x = check_value(alloc, scope, None, e)?;
            Ok(value_of(alloc, ModifierKind::Id, x.0)?)
        }
        None => Err(Fault::NotTyped),
    }
}

#[tactic(auto, unfolding(type_base::specs::Claims::and_then, modifier_rules::specs::Values::environment_call))]
fn environment_call(alloc: Global, scope: &Scope<'_>, args: &[Arg]) -> Result<ModifierCall, Fault>
    ensures found { Answers result (values.environment_call args.now (seen scope.now)) }
{
    match environment_arguments(args) {
        Some((w, e)) => {
            let key = environment_key(alloc, scope.table, w.as_bytes())?;
            let core = check_wanted(alloc, scope, &key.1, e)?;
            Ok(value_of(alloc, ModifierKind::Environment(key.0), core)?)
        }
        None => Err(Fault::NotTyped),
    }
}

#[tactic(auto, unfolding(type_base::specs::Claims::and_then, modifier_rules::specs::Values::preference_call))]
fn preference_call(alloc: Global, scope: &Scope<'_>, args: &[Arg]) -> Result<ModifierCall, Fault>
    ensures found { Answers result (values.preference_call args.now (seen scope.now)) }
{
    match preference_arguments(args) {
        Some((key, e)) => {
            let key = preference_key(alloc, scope, key)?;
            let core = check_wanted(alloc, scope, &key.1, e)?;
            Ok(value_of(alloc, ModifierKind::Preference(key.0), core)?)
        }
        None => Err(Fault::NotTyped),
    }
}

#[tactic(auto, unfolding(type_base::specs::Claims::and_then, modifier_rules::specs::Values::guide_call))]
fn guide_call(
    alloc: Global,
    scope: &Scope<'_>,
    args: &[Arg],
    tail: &Tail,
) -> Result<ModifierCall, Fault>
    ensures found { Answers result (values.guide_call args.now tail.now (seen scope.now)) }
{
    match guide_argument(args) {
        Some(kind) => match guide_closure(tail) {
            Some((w, e)) => {
                let guide = check_guide(alloc, w.as_bytes(), e)?;
                let kind = ModifierKind::AlignmentGuide(kind, guide);
                Ok(bare_call(alloc, kind, Items::new(alloc)))
            }
            None => Err(Fault::NotTyped),
        },
        None => Err(Fault::NotTyped),
    }
}

#[tactic(auto, unfolding(type_base::specs::Claims::and_then, modifier_rules::specs::Values::value_call))]
fn without_tail(
    alloc: Global,
    scope: &Scope<'_>,
    modifier: Modifier,
    args: &[Arg],
) -> Result<Option<ModifierCall>, Fault>
    ensures found { Answers result (values.value_call modifier args.now None (seen scope.now)) }
{
    match modifier {
        Modifier::Plain(plain) => Ok(Some(check_plain(alloc, scope, plain, args)?)),
        Modifier::Id => Ok(Some(id_call(alloc, scope, args)?)),
        Modifier::Environment => Ok(Some(environment_call(alloc, scope, args)?)),
        Modifier::Preference => Ok(Some(preference_call(alloc, scope, args)?)),
        Modifier::Bold => match args {
            [] => Ok(None),
            _ => Err(Fault::NotTyped),
        },
        Modifier::Style => {
            if is_styled(args) {
                Ok(None)
            } else {
                Err(Fault::NotTyped)
            }
        }
        _ => Err(Fault::NotTyped),
    }
}

/// A modifier whose arguments are values; None where it makes no node.
#[tactic(auto, unfolding(type_base::specs::Claims::and_then, modifier_rules::specs::Values::value_call))]
pub fn check_value_call(
    alloc: Global,
    scope: &Scope<'_>,
    modifier: Modifier,
    args: &[Arg],
    tail: Option<&Tail>,
) -> Result<Option<ModifierCall>, Fault>
    ensures found { Answers result (values.value_call modifier args.now (option_copied tail.entry) (seen scope.now)) }
{
    match tail {
        None => without_tail(alloc, scope, modifier, args),
        Some(tail) => match modifier {
            Modifier::AlignmentGuide => Ok(Some(guide_call(alloc, scope, args, tail)?)),
            _ => Err(Fault::NotTyped),
        },
    }
}
