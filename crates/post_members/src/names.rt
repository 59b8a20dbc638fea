ghost use Rattle.std.specs.Prelude.{◌≡◌, IfOk, Some};
ghost use Rattle.post_rules.specs.Chains.{find_name, any_name, outer_name, declared_name, root_at, bound_root_at, is_bound, place_of, bound_of};
ghost use Rattle.post_rules.specs.Places as place;
ghost use Rattle.swift_core.specs.declared.term.Root.TheVariants as root;
ghost use Rattle.swift_core.specs.declared.ty.Ty.TheVariants as ty;
ghost use Rattle.type_base.specs.Claims.{and_then};
ghost use Rattle.post_rules.specs.Members.{local_at, own_at};
ghost use Rattle.post_rules.specs.Syntax.{form_of};
ghost use Rattle.type_base.specs.Context.{seen};
ghost use Rattle.type_base.specs.Names.{own_of};
ghost use Rattle.type_base.specs.Rules.{Answers};

use crate::built_ins::built_in_named;
use crate::places::whole;
use crate::refusals::no_chain;
use crate::self_members::{own, own_named};
use post_rules::Chained;
use std::alloc::{AllocError, Global};
use swift_ast::{Expr, ExprForm};
use swift_core::{Core, Lookup, Root, Target, Ty};
use type_base::{Fault, Local, LocalKind, Scope, Stance, find_declaration, find_local, find_own};

/// What a local is in a chain.
fn local(alloc: Global, at: usize, local: &Local) -> Result<Chained, AllocError>
    ensures value { IfOk result (λ s. s ≡ local_at at local.now local.now.kind) }
{
    let ty = local.ty.copy(alloc)?;
    Ok(match local.kind {
        LocalKind::Let => Chained::Value(Core::Look(Lookup::Local(at)), ty),
        LocalKind::Var => Chained::Place(whole(alloc, Root::Local(at)), ty),
        LocalKind::Place => Chained::Place(whole(alloc, Root::BoundLocal(at)), ty),
        LocalKind::Next => Chained::Next(at, ty),
    })
}

/// A declaration, else a built-in name.
#[tactic(auto, unfolding(type_base::specs::Claims::and_then, post_rules::specs::Chains::first_of_two))]
fn declared_name(scope: &Scope<'_>, name: &[u8]) -> Result<Chained, Fault>
    ensures found { Answers result (declared_name name.now (seen scope.now)) }
{
    match find_declaration(scope.table, name) {
        Some((number, _)) => Ok(Chained::Named(number)),
        None => match built_in_named(name) {
            Some(built_in) => Ok(Chained::BuiltIn(built_in)),
            None => Err(Fault::NotTyped),
        },
    }
}

/// A member of `self`, else a declaration or a built-in name.
#[tactic(auto, unfolding(type_base::specs::Claims::and_then, post_rules::specs::Chains::first_of_two))]
fn outer_name(alloc: Global, scope: &Scope<'_>, name: &[u8]) -> Result<Chained, Fault>
    ensures found { Answers result (outer_name name.now (seen scope.now)) }
{
    match own_named(scope, name) {
        Some((place, member)) => match scope.owner {
            Some(declaration) => own(alloc, scope, declaration, place, member),
            None => Err(Fault::NotTyped),
        },
        None => declared_name(scope, name),
    }
}

/// A local, else a member of `self`, else a declaration, else a built-in name.
#[tactic(auto, unfolding(post_rules::specs::Chains::first_of_two))]
fn any_name(alloc: Global, scope: &Scope<'_>, name: &[u8]) -> Result<Chained, Fault>
    ensures found { Answers result (any_name name.now (seen scope.now)) }
{
    match find_local(scope, name) {
        Some((at, found)) => Ok(local(alloc, at, found)?),
        None => outer_name(alloc, scope, name),
    }
}

/// What a name stands for. `_` names nothing.
#[tactic(auto, unfolding(post_rules::specs::Chains::find_name, type_base::specs::Names::underscore))]
pub fn name(alloc: Global, scope: &Scope<'_>, name: &[u8]) -> Result<Chained, Fault>
    ensures found { Answers result (find_name name.now (seen scope.now)) }
{
    if name == b"_".as_slice() {
        return Err(Fault::NotTyped);
    }
    any_name(alloc, scope, name)
}

/// The member of this name of `self`, behind `self`.
#[tactic(auto, unfolding(type_base::specs::Claims::and_then))]
pub fn own_member(alloc: Global, scope: &Scope<'_>, name: &[u8]) -> Result<Chained, Fault>
    ensures found { Answers result (and_then (own_of name.now (seen scope.now)) (λ m. and_then (seen scope.now).owner (λ d. own_at (seen scope.now).table d (seen scope.now).stance m))) }
{
    match find_own(scope, name) {
        Some((place, member)) => match scope.owner {
            Some(declaration) => own(alloc, scope, declaration, place, member),
            None => Err(Fault::NotTyped),
        },
        None => Err(Fault::NotTyped),
    }
}

/// `self` as a whole, in a `mutating` function.
#[tactic(auto, unfolding(type_base::specs::Claims::and_then))]
fn itself(alloc: Global, scope: &Scope<'_>) -> Result<(Target, Ty), Fault>
    ensures found { Answers result (and_then (seen scope.now).owner (λ d. Some (place.whole root.Itself, ty.Named d))) }
{
    match scope.owner {
        Some(number) => Ok((whole(alloc, Root::Itself), Ty::Named(number))),
        None => Err(Fault::NotTyped),
    }
}

/// The place that a name stands for, and the type there.
#[tactic(auto, using(crate::proofs::Others::place_none))]
fn place_of(so_far: Chained) -> Result<(Target, Ty), Fault>
    ensures found { Answers result (place_of so_far) }
{
    match so_far {
        Chained::Place(target, ty) => Ok((target, ty)),
        other => Err(no_chain(other)),
    }
}

/// Where an assignment to an expression begins, if this is the expression or the operand of its chain.
#[tactic(auto, unfolding(type_base::specs::Claims::and_then, post_rules::specs::Chains::root_at))]
pub fn root(alloc: Global, scope: &Scope<'_>, expr: &Expr) -> Result<(Target, Ty), Fault>
    ensures found { Answers result (root_at (form_of expr.now) (seen scope.now)) }
{
    match &expr.form {
        ExprForm::Name(word) => place_of(name(alloc, scope, word.as_bytes())?),
        ExprForm::Itself => {
            if scope.stance == Stance::Mutating {
                return itself(alloc, scope);
            }
            Err(Fault::NotTyped)
        }
        _ => Err(Fault::NotTyped),
    }
}

/// Whether a place with this root can be bound.
fn is_bound(root: Root) -> bool
    ensures value { result ≡ is_bound root }
{
    match root {
        Root::BoundLocal(_) | Root::BoundInput(_) | Root::Slot(_) => true,
        Root::Local(_) | Root::Itself => false,
    }
}

/// The place that a name stands for, and the type there, if it can be bound.
#[tactic(auto, using(crate::proofs::Others::bound_none))]
fn bound_of(so_far: Chained) -> Result<(Target, Ty), Fault>
    ensures found { Answers result (bound_of so_far) }
{
    match so_far {
        Chained::Place(target, ty) => {
            if is_bound(target.root) {
                return Ok((target, ty));
            }
            Err(Fault::NotTyped)
        }
        other => Err(no_chain(other)),
    }
}

/// Where a binding begins, if this is the expression or the operand of its chain: a name with `$`.
#[tactic(auto, unfolding(type_base::specs::Claims::and_then, post_rules::specs::Chains::bound_root_at))]
pub fn bound_root(alloc: Global, scope: &Scope<'_>, expr: &Expr) -> Result<(Target, Ty), Fault>
    ensures found { Answers result (bound_root_at (form_of expr.now) (seen scope.now)) }
{
    match &expr.form {
        ExprForm::Dollar(word) => match word.as_bytes().split_first() {
            Some((_, rest)) => bound_of(name(alloc, scope, rest)?),
            None => Err(Fault::NotTyped),
        },
        _ => Err(Fault::NotTyped),
    }
}
