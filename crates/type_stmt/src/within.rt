//! The statements inside a statement are checked by a function that is a parameter, so that each form is proved by
//! itself.
ghost use Rattle.std.specs.Prelude.{option_copied};
ghost use Rattle.type_base.specs.Context.{seen};
ghost use Rattle.stmt_rules.specs.Finds.{Finds, Runs};
ghost use Rattle.stmt_rules.specs.Search.{find_stmt_to};

use std::alloc::Global;
use stmt_rules::{Done, Exits};
use swift_ast::Stmt;
use swift_core::Ty;
use type_base::{Fault, Scope};

/// What checks the statements inside a form, what is returned, and how many levels it may still go down.
#[derive(Clone, Copy)]
pub struct Within<'r, G> {
    pub alloc: Global,
    pub room: u32,
    pub result: Option<&'r Ty>,
    pub run: G,
}

/// What a statement becomes.
pub fn run<G>(
    within: &Within<'_, G>,
    scope: &mut Scope<'_>,
    exits: Exits,
    stmt: &Stmt,
) -> Result<Done, Fault>
where
    G: Fn(Global, u32, &mut Scope<'_>, Option<&Ty>, Exits, &Stmt) -> Result<Done, Fault>,
    requires { Runs within.now.room (G.pre within.now.run) (G.post within.now.run) }
    ensures found { Finds result scope.old scope.new (find_stmt_to within.now.room stmt.now (option_copied within.now.result) exits (seen scope.old)) }
{
    (within.run)(within.alloc, within.room, scope, within.result, exits, stmt)
}
