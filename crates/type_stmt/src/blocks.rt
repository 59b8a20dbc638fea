//! Lists of statements.
ghost use Rattle.std.specs.Prelude.{◌≡◌, [], ◌∷◌, ◌||◌, ◌&&◌, OnOk, option_copied};
ghost use Rattle.type_base.specs.Context.{seen};
ghost use Rattle.case_rules.specs.Scopes.{any_pushed};
ghost use Rattle.stmt_rules.specs.Finds.{Finds, FindsAdding, Runs};
ghost use Rattle.stmt_rules.specs.Search.{find_stmt_to, statements, braces};
ghost use Rattle.stmt_rules.specs.Rules.{body};
ghost use Rattle.type_stmt.specs.Parts.{joined, body_of};

use crate::within::{Within, run};
use std::alloc::{AllocError, Global};
use stmt_rules::{Body, Done, Exits};
use sv_items::Items;
use swift_ast::Stmt;
use swift_core::{CoreStmt, Ty};
use type_base::{Fault, Local, Scope, enter, leave, push_local};

/// Whether one of both is true.
pub fn either(a: bool, b: bool) -> bool
    ensures value { result ≡ (a || b) }
{
    a || b
}

/// Whether both are true.
pub fn both(a: bool, b: bool) -> bool
    ensures value { result ≡ (a && b) }
{
    a && b
}

/// Adds the local, if there is one.
fn push_any(scope: &mut Scope<'_>, local: Option<Local>) -> Result<(), AllocError>
    ensures ok { OnOk result (scope.new ≡ any_pushed scope.old local) }
{
    match local {
        Some(local) => push_local(scope, local),
        None => Ok(()),
    }
}

/// What a statement becomes, without the local that it adds.
#[derive(Drop)]
struct Alone {
    core: CoreStmt,
    ends: bool,
    breaks: bool,
}

/// The local apart from the rest.
fn split(done: Done) -> (Alone, Option<Local>)
    ensures core { result.0.core ≡ done.core }
    ensures ends { result.0.ends ≡ done.ends }
    ensures breaks { result.0.breaks ≡ done.breaks }
    ensures declared { result.1 ≡ done.declared }
{
    let Done {
        core,
        declared,
        ends,
        breaks,
    } = done;
    (Alone { core, ends, breaks }, declared)
}

/// Adds a statement to those before it.
fn add(whole: &mut Body, alone: Alone) -> Result<(), AllocError>
    ensures added { OnOk result (whole.new ≡ joined whole.old.core whole.old.ends whole.old.breaks (body (alone.core ∷ []) alone.ends alone.breaks)) }
{
    let Alone { core, ends, breaks } = alone;
    whole.ends = either(whole.ends, ends);
    whole.breaks = either(whole.breaks, breaks);
    whole.core.push(core)
}

/// Adds what a statement becomes to those before it, and its local to the scope.
fn absorb(scope: &mut Scope<'_>, whole: &mut Body, done: Done) -> Result<(), AllocError>
    ensures pushed { OnOk result (scope.new ≡ any_pushed scope.old done.declared) }
    ensures added { OnOk result (whole.new ≡ joined whole.old.core whole.old.ends whole.old.breaks (body_of done)) }
{
    let (alone, declared) = split(done);
    let pushed = push_any(scope, declared);
    let added = add(whole, alone);
    pushed?;
    added?;
    Ok(())
}

/// Statements in order, whose locals are added to the scope.
#[tactic(auto, using(crate::proofs::Turns::statements_none, crate::proofs::Turns::statements_end))]
fn statements<G>(
    within: &Within<'_, G>,
    scope: &mut Scope<'_>,
    exits: Exits,
    list: &[Stmt],
) -> Result<Body, Fault>
where
    G: Fn(Global, u32, &mut Scope<'_>, Option<&Ty>, Exits, &Stmt) -> Result<Done, Fault>,
    requires { Runs within.now.room (G.pre within.now.run) (G.post within.now.run) }
    ensures found { FindsAdding result scope.old scope.new (statements (λ s. find_stmt_to within.now.room s (option_copied within.now.result) exits) list.now (seen scope.old)) }
{
    let core = Items::new(within.alloc);
    let mut body = Body {
        core,
        ends: false,
        breaks: false,
    };
    for stmt in list {
        let done = run(within, scope, exits, stmt)?;
        absorb(scope, &mut body, done)?;
    }
    Ok(body)
}

/// Statements in braces, which are a scope of their own.
#[tactic(auto, unfolding(stmt_rules::specs::Search::braces), using(type_base::specs::Scopes::left_is))]
pub fn braces<G>(
    within: &Within<'_, G>,
    scope: &mut Scope<'_>,
    exits: Exits,
    list: &[Stmt],
) -> Result<Body, Fault>
where
    G: Fn(Global, u32, &mut Scope<'_>, Option<&Ty>, Exits, &Stmt) -> Result<Done, Fault>,
    requires { Runs within.now.room (G.pre within.now.run) (G.post within.now.run) }
    ensures found { Finds result scope.old scope.new (braces (λ s. find_stmt_to within.now.room s (option_copied within.now.result) exits) list.now (seen scope.old)) }
{
    let mark = enter(scope);
    let body = statements(within, scope, exits, list)?;
    leave(scope, mark);
    Ok(body)
}
