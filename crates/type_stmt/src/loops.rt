//! Loops.
ghost use Rattle.std.specs.Prelude.{◌≡◌, not, ◌&&◌, option_copied};
ghost use Rattle.swift_ast.specs.declared.tree.Condition.{out-Condition};
ghost use Rattle.type_base.specs.Context.{seen};
ghost use Rattle.type_base.specs.Scopes.{with_local, entered};
ghost use Rattle.type_base.specs.declared.scope.LocalKind.TheVariants as kind;
ghost use Rattle.case_rules.specs.Scopes.{local};
ghost use Rattle.stmt_rules.specs.declared.done.Exits.TheVariants as exit;
ghost use Rattle.stmt_rules.specs.Finds.{Finds, Runs};
ghost use Rattle.stmt_rules.specs.Rules.{is_true, for_ever};
ghost use Rattle.stmt_rules.specs.Search.{find_stmt_to, braces, for_of, while_of};

use crate::blocks::{both, braces};
use crate::branches::guarded;
use crate::within::Within;
use std::alloc::Global;
use stmt_rules::{Body, Done, Exits};
use swift_ast::{Condition, Expr, ExprForm, Stmt};
use swift_core::{CoreStmt, Ty};
use swift_lex::Word;
use type_base::{Fault, Local, LocalKind, Scope, enter, leave, push_local};
use type_cases::check_over;

/// The statements of a `for`, whose variable stands in a scope around them.
fn turns<G>(
    within: &Within<'_, G>,
    scope: &mut Scope<'_>,
    variable: Local,
    list: &[Stmt],
) -> Result<Body, Fault>
where
    G: Fn(Global, u32, &mut Scope<'_>, Option<&Ty>, Exits, &Stmt) -> Result<Done, Fault>,
    requires { Runs within.now.room (G.pre within.now.run) (G.post within.now.run) }
    ensures found { Finds result scope.old scope.new (braces (λ s. find_stmt_to within.now.room s (option_copied within.now.result) exit.Both) list.now (with_local (entered (seen scope.old)) variable)) }
{
    let mark = enter(scope);
    push_local(scope, variable)?;
    let body = braces(within, scope, Exits::Both, list)?;
    leave(scope, mark);
    Ok(body)
}

/// The statements of a `for`, whose variable has this name and this type.
fn turns_of<G>(
    within: &Within<'_, G>,
    scope: &mut Scope<'_>,
    name: &Word,
    ty: Ty,
    list: &[Stmt],
) -> Result<Body, Fault>
where
    G: Fn(Global, u32, &mut Scope<'_>, Option<&Ty>, Exits, &Stmt) -> Result<Done, Fault>,
    requires { Runs within.now.room (G.pre within.now.run) (G.post within.now.run) }
    ensures found { Finds result scope.old scope.new (braces (λ s. find_stmt_to within.now.room s (option_copied within.now.result) exit.Both) list.now (with_local (entered (seen scope.old)) (local name.now ty kind.Let))) }
{
    let variable = Local {
        name: name.copy(within.alloc)?,
        ty,
        kind: LocalKind::Let,
    };
    turns(within, scope, variable, list)
}

/// `for`
#[tactic(auto, unfolding(stmt_rules::specs::Search::for_of, type_base::specs::Claims::and_then))]
pub fn for_of<G>(
    within: &Within<'_, G>,
    scope: &mut Scope<'_>,
    name: &Word,
    expr: &Expr,
    list: &[Stmt],
) -> Result<Done, Fault>
where
    G: Fn(Global, u32, &mut Scope<'_>, Option<&Ty>, Exits, &Stmt) -> Result<Done, Fault>,
    requires { Runs within.now.room (G.pre within.now.run) (G.post within.now.run) }
    ensures found { Finds result scope.old scope.new (for_of (λ s. find_stmt_to within.now.room s (option_copied within.now.result) exit.Both) name.now expr.now list.now (seen scope.old)) }
{
    let (over, ty) = check_over(within.alloc, scope, expr)?;
    let body = turns_of(within, scope, name, ty, list)?;
    Ok(Done {
        core: CoreStmt::For(over, body.core),
        declared: None,
        ends: false,
        breaks: false,
    })
}

/// Whether the condition is the literal `true`.
fn is_true(condition: &Condition) -> bool
    ensures value { result ≡ is_true condition.now }
{
    match condition {
        Condition::Expr(expr) => match &expr.form {
            ExprForm::True => true,
            _ => false,
        },
        Condition::Let(_, _) => false,
    }
}

/// Whether the one condition is the literal `true`.
fn for_ever(conditions: &[Condition]) -> bool
    ensures value { result ≡ for_ever conditions.now }
{
    match conditions {
        [only] => is_true(only),
        _ => false,
    }
}

/// Whether a loop never goes on behind it.
fn never_ends(conditions: &[Condition], breaks: bool) -> bool
    ensures value { result ≡ (for_ever conditions.now && not breaks) }
{
    both(for_ever(conditions), !breaks)
}

/// `while`
#[tactic(auto, unfolding(stmt_rules::specs::Search::while_of, type_base::specs::Claims::and_then))]
pub fn while_of<G>(
    within: &Within<'_, G>,
    scope: &mut Scope<'_>,
    conditions: &[Condition],
    list: &[Stmt],
) -> Result<Done, Fault>
where
    G: Fn(Global, u32, &mut Scope<'_>, Option<&Ty>, Exits, &Stmt) -> Result<Done, Fault>,
    requires { Runs within.now.room (G.pre within.now.run) (G.post within.now.run) }
    ensures found { Finds result scope.old scope.new (while_of (λ s. find_stmt_to within.now.room s (option_copied within.now.result) exit.Both) conditions.now list.now (seen scope.old)) }
{
    let (checked, body) = guarded(within, scope, Exits::Both, conditions, list)?;
    Ok(Done {
        core: CoreStmt::While(checked, body.core),
        declared: None,
        ends: never_ends(conditions, body.breaks),
        breaks: false,
    })
}
