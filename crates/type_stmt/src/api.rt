//! The public calls.
ghost use Rattle.std.specs.Prelude.{◌≡◌, ◌||◌, not, is_some, OnOk, option_copied};
ghost use Rattle.type_base.specs.Context.{seen};
ghost use Rattle.type_base.specs.Rules.{Answers, Decides};
ghost use Rattle.stmt_rules.specs.declared.done.Exits.TheVariants as exit;
ghost use Rattle.stmt_rules.specs.Finds.{Finds};
ghost use Rattle.stmt_rules.specs.Rules.{deepest, TypedBlock, TypedBody};
ghost use Rattle.stmt_rules.specs.Search.{find_stmt_to, braces, ending, find_single, find_block, find_body};

use crate::blocks::braces;
use crate::knot::run_to;
use crate::within::Within;
use std::alloc::Global;
use stmt_rules::{Body, Exits};
use sv_items::Items;
use swift_ast::{Expr, Stmt, StmtForm};
use swift_core::{CoreStmt, Ty};
use type_base::{Fault, Scope};
use type_expr::check_wanted;

/// How deep statements may nest.
const DEEPEST: u32 = 128;

/// Statements in braces, where this type is returned, if one is.
#[tactic(auto, unfolding(stmt_rules::specs::Rules::deepest))]
fn body_of(
    alloc: Global,
    scope: &mut Scope<'_>,
    returned: Option<&Ty>,
    statements: &[Stmt],
) -> Result<Body, Fault>
    ensures found { Finds result scope.old scope.new (braces (λ s. find_stmt_to deepest s (option_copied returned.entry) exit.Neither) statements.now (seen scope.old)) }
{
    let within = Within {
        alloc,
        room: DEEPEST,
        result: returned,
        run: run_to,
    };
    braces(&within, scope, Exits::Neither, statements)
}

#[tactic(auto, unfolding(stmt_rules::specs::Search::find_block, type_base::specs::Claims::and_then))]
fn block(
    alloc: Global,
    scope: &mut Scope<'_>,
    statements: &[Stmt],
) -> Result<Items<CoreStmt>, Fault>
    ensures found { Finds result scope.old scope.new (find_block statements.now (seen scope.old)) }
{
    let body = body_of(alloc, scope, None, statements)?;
    Ok(body.core)
}

/// The statements of an action block, which have no value: `return` stands alone there. The block is a scope of its
/// own, within the innermost one.
pub fn check_block(
    alloc: Global,
    scope: &mut Scope<'_>,
    statements: &[Stmt],
) -> Result<Items<CoreStmt>, Fault>
    ensures found { Answers result (find_block statements.now (seen scope.old)) }
    ensures typed { Decides result (TypedBlock statements.now (seen scope.old)) }
    ensures kept { OnOk result (scope.new ≡ scope.old) }
{
    block(alloc, scope, statements)
}

/// Whether a body may stop here: nothing is returned, or it ends on every path.
fn may_stop(returned: Option<&Ty>, ends: bool) -> bool
    ensures value { result ≡ (not (is_some (option_copied returned.entry)) || ends) }
{
    returned.is_none() || ends
}

/// Statements that end on every path, where something is returned.
#[tactic(auto, unfolding(stmt_rules::specs::Search::ending, type_base::specs::Claims::and_then))]
fn ending(
    alloc: Global,
    scope: &mut Scope<'_>,
    returned: Option<&Ty>,
    statements: &[Stmt],
) -> Result<Items<CoreStmt>, Fault>
    ensures found { Finds result scope.old scope.new (ending (option_copied returned.entry) statements.now (seen scope.old)) }
{
    let body = body_of(alloc, scope, returned, statements)?;
    if may_stop(returned, body.ends) {
        Ok(body.core)
    } else {
        Err(Fault::NotTyped)
    }
}

/// One expression, which is what is returned.
#[tactic(auto, unfolding(stmt_rules::specs::Search::find_single, type_base::specs::Claims::and_then))]
fn single(
    alloc: Global,
    scope: &mut Scope<'_>,
    ty: &Ty,
    expr: &Expr,
) -> Result<Items<CoreStmt>, Fault>
    ensures found { Finds result scope.old scope.new (find_single ty.now expr.now (seen scope.old)) }
{
    let core = check_wanted(alloc, scope, ty, expr)?;
    let mut list = Items::new(alloc);
    list.push(CoreStmt::Return(Some(core)))?;
    Ok(list)
}

#[tactic(auto, unfolding(stmt_rules::specs::Search::find_body))]
fn body(
    alloc: Global,
    scope: &mut Scope<'_>,
    returned: Option<&Ty>,
    statements: &[Stmt],
) -> Result<Items<CoreStmt>, Fault>
    ensures found { Finds result scope.old scope.new (find_body (option_copied returned.entry) statements.now (seen scope.old)) }
{
    match returned {
        Some(ty) => match statements {
            [only] => match &only.form {
                StmtForm::Expr(expr) => single(alloc, scope, ty, expr),
                _ => ending(alloc, scope, returned, statements),
            },
            _ => ending(alloc, scope, returned, statements),
        },
        None => ending(alloc, scope, returned, statements),
    }
}

/// The statements of a function or a computed property. Where a type is returned they return on every path, or are one
/// expression of that type. They are a scope of their own, within the innermost one.
pub fn check_body(
    alloc: Global,
    scope: &mut Scope<'_>,
    returned: Option<&Ty>,
    statements: &[Stmt],
) -> Result<Items<CoreStmt>, Fault>
    ensures found { Answers result (find_body (option_copied returned.entry) statements.now (seen scope.old)) }
    ensures typed { Decides result (TypedBody (option_copied returned.entry) statements.now (seen scope.old)) }
    ensures kept { OnOk result (scope.new ≡ scope.old) }
{
    body(alloc, scope, returned, statements)
}
