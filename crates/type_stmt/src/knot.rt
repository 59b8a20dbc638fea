//! All forms, and the knot: what checks the statements inside a form is the check itself.
ghost use Rattle.std.specs.Prelude.{◌≡◌, option_copied};
ghost use Rattle.swift_ast.specs.declared.tree.Stmt.{out-Stmt};
ghost use Rattle.swift_ast.specs.declared.tree.StmtForm.{out-StmtForm};
ghost use Rattle.type_base.specs.Context.{seen};
ghost use Rattle.stmt_rules.specs.Finds.{Finds, Runs};
ghost use Rattle.stmt_rules.specs.Search.{find_stmt_to, stmt_at};

use crate::branches::{if_chain, in_switch, switch_of};
use crate::loops::{for_of, while_of};
use crate::simple::{assign, break_out, effect, go_on, leave, local};
use crate::within::Within;
use std::alloc::Global;
use stmt_rules::{Done, Exits};
use swift_ast::{Stmt, StmtForm};
use swift_core::Ty;
use type_base::{Fault, Scope};

/// What a statement becomes, by its form.
fn form_of<G>(
    within: &Within<'_, G>,
    scope: &mut Scope<'_>,
    exits: Exits,
    stmt: &Stmt,
) -> Result<Done, Fault>
where
    G: Fn(Global, u32, &mut Scope<'_>, Option<&Ty>, Exits, &Stmt) -> Result<Done, Fault>,
    requires { Runs within.now.room (G.pre within.now.run) (G.post within.now.run) }
    ensures found { Finds result scope.old scope.new (stmt_at (find_stmt_to within.now.room) (out-StmtForm (out-Stmt stmt.now).form) (option_copied within.now.result) exits (seen scope.old)) }
{
    match &stmt.form {
        StmtForm::Local(binder, name, written, value) => local(
            within.alloc,
            scope,
            *binder,
            name,
            written,
            value,
        ),
        StmtForm::Assign(target, sign, value) => assign(within.alloc, scope, target, *sign, value),
        StmtForm::If(arms, last) => if_chain(within, scope, exits, arms.as_slice(), last),
        StmtForm::Switch(subject, cases) => switch_of(
            within,
            scope,
            in_switch(exits),
            subject,
            cases.as_slice(),
        ),
        StmtForm::For(name, expr, list) => for_of(within, scope, name, expr, list.as_slice()),
        StmtForm::While(conditions, list) => while_of(
            within,
            scope,
            conditions.as_slice(),
            list.as_slice(),
        ),
        StmtForm::Return(value) => leave(within.alloc, scope, within.result, value),
        StmtForm::Break => break_out(scope, exits),
        StmtForm::Continue => go_on(scope, exits),
        StmtForm::Expr(expr) => effect(within.alloc, scope, expr),
    }
}

/// What a statement becomes that nests at most `room` levels deep.
#[cycle(knot)]
#[tactic(auto, using(crate::proofs::Turns::none_to))]
pub fn run_to(
    alloc: Global,
    room: u32,
    scope: &mut Scope<'_>,
    returned: Option<&Ty>,
    exits: Exits,
    stmt: &Stmt,
) -> Result<Done, Fault>
    ensures found { Finds result scope.old scope.new (find_stmt_to room stmt.now (option_copied returned.entry) exits (seen scope.old)) }
{
    if room == 0 {
        return Err(Fault::NotTyped);
    }
    let within = Within {
        alloc,
        room: room - 1,
        result: returned,
        run: run_to,
    };
    form_of(&within, scope, exits, stmt)
}
