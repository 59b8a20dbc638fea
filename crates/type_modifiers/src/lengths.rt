//! Lengths.
ghost use Rattle.std.specs.Prelude.{◌≡◌, IfOk};
ghost use Rattle.type_base.specs.Context.{seen};
ghost use Rattle.type_base.specs.Rules.{Answers};
ghost use Rattle.modifier_rules.specs.Lengths.{levels, length_to, length_by, length_form, find_length, infinity};
ghost use Rattle.swift_core.specs.declared.term.Core.TheVariants as core;

use std::alloc::{AllocError, Global};
use sv_items::Boxed;
use sv_value::Value;
use swift_ast::{Expr, ExprForm};
use swift_core::{Core, Ty};
use type_base::{Fault, Scope};
use type_expr::check_wanted;

/// How deep expressions nest at most.
const LEVELS: u32 = 5000;

fn infinity() -> Core
    ensures value { result ≡ infinity }
{
    Core::Literal(Value::Int(1_000_000))
}

/// `test ? first : second`.
fn choose(alloc: Global, test: Core, first: Core, second: Core) -> Result<Core, AllocError>
    ensures value { IfOk result (λ c. c ≡ core.Choose test first second) }
{
    let test = Boxed::new(alloc, test)?;
    let first = Boxed::new(alloc, first)?;
    Ok(Core::Choose(test, first, Boxed::new(alloc, second)?))
}

/// A length by its form, whose parts have one level less.
#[cycle(length)]
#[tactic(auto, unfolding(type_base::specs::Claims::and_then, modifier_rules::specs::Lengths::length_by))]
fn length_at(alloc: Global, room: u32, scope: &Scope<'_>, e: &Expr) -> Result<Core, Fault>
    ensures found { Answers result (length_by (length_to room) e.now (length_form e.now) (seen scope.now)) }
{
    match &e.form {
        ExprForm::Implicit(w) => {
            if w.is(b"infinity") {
                Ok(infinity())
            } else {
                check_wanted(alloc, scope, &Ty::Int, e)
            }
        }
        ExprForm::Ternary(test, first, second) => {
            let test = check_wanted(alloc, scope, &Ty::Bool, test.get())?;
            let first = length_to(alloc, room, scope, first.get())?;
            let second = length_to(alloc, room, scope, second.get())?;
            Ok(choose(alloc, test, first, second)?)
        }
        _ => check_wanted(alloc, scope, &Ty::Int, e),
    }
}

#[cycle(length)]
#[tactic(auto, using(modifier_rules::specs::Lengths::answers_none, modifier_rules::specs::Lengths::answers_level))]
fn length_to(alloc: Global, room: u32, scope: &Scope<'_>, e: &Expr) -> Result<Core, Fault>
    ensures found { Answers result (length_to room e.now (seen scope.now)) }
{
    if room == 0 {
        return Err(Fault::NotTyped);
    }
    length_at(alloc, room - 1, scope, e)
}

/// The core of a length: an Int, or `.infinity`, also as a branch of a ternary.
#[tactic(auto, unfolding(modifier_rules::specs::Lengths::find_length, modifier_rules::specs::Lengths::levels))]
pub fn check_length(alloc: Global, scope: &Scope<'_>, e: &Expr) -> Result<Core, Fault>
    ensures found { Answers result (find_length e.now (seen scope.now)) }
{
    length_to(alloc, LEVELS, scope, e)
}
