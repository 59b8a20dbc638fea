//! The knot, and what the crate is for.

ghost use Rattle.std.specs.Prelude.{◌≡◌, true};
ghost use Rattle.parse_base.specs.Answers.{FindsAll, IsSpelled};
ghost use Rattle.parse_base.specs.Parser.{Reads};
ghost use Rattle.parse_terms.specs.Patterns.{anywhere};
ghost use Rattle.parse_expr.specs.Grammar.{SpellsExpr, SpellsStmts, SpellsString};
ghost use Rattle.parse_expr.specs.Parse as spec;
ghost use Rattle.parse_expr.specs.Parse.{read_expr, read_stmts, read_string};
ghost use Rattle.parse_expr.specs.Tests.{closes, ends_expr};

use crate::expressions::Grammar;
use parse_base::{Stop, Tokens};
use parse_terms::MAX_LINKS;
use std::alloc::Global;
use sv_items::Items;
use swift_ast::{Expr, Stmt, StringPart};

#[cycle(nest)]
fn nested_expr(
    alloc: Global,
    tokens: &mut Tokens<'_>,
    total: usize,
    depth: usize,
    tails: bool,
    links: usize,
) -> Result<(Expr, usize), Stop>
    ensures { Reads ((spec.nested total depth).expr' tails links tokens.old.rest.now) result tokens.new.rest.now }
{
    if depth == 0 {
        return Err(Stop::Refused);
    }
    Grammar {
        alloc,
        total,
        depth: depth - 1,
        expr: nested_expr,
        stmts: nested_stmts,
    }
    .expr_of(tokens, tails, links)
}

#[cycle(nest)]
fn nested_stmts(
    alloc: Global,
    tokens: &mut Tokens<'_>,
    total: usize,
    depth: usize,
) -> Result<Items<Stmt>, Stop>
    ensures { Reads ((spec.nested total depth).stmts' tokens.old.rest.now) result tokens.new.rest.now }
{
    if depth == 0 {
        return Err(Stop::Refused);
    }
    Grammar {
        alloc,
        total,
        depth: depth - 1,
        expr: nested_expr,
        stmts: nested_stmts,
    }
    .stmts_of(tokens)
}

#[tactic(auto, unfolding(crate::specs::Parse::read_expr, crate::specs::Parse::inside, parse_base::specs::Parser::made))]
fn whole_expr(alloc: Global, tokens: &mut Tokens<'_>, total: usize) -> Result<Expr, Stop>
    ensures { Reads (read_expr total tokens.old.rest.now) result tokens.new.rest.now }
{
    let depth = tokens.rest.len();
    let (expr, _left) = nested_expr(alloc, tokens, total, depth, true, MAX_LINKS)?;
    Ok(expr)
}

/// Reads an expression in a file of `total` tokens. What it finds is spelled by the tokens up to those that are left;
/// where an expression stands up to a token that ends it, that expression is found. After an error nothing is said of
/// the tokens that are left.
pub fn expr(alloc: Global, tokens: &mut Tokens<'_>, total: usize) -> Result<Expr, Stop>
    ensures reads { Reads (read_expr total tokens.old.rest.now) result tokens.new.rest.now }
    ensures spelled { IsSpelled (SpellsExpr total) tokens.old.rest.now result tokens.new.rest.now }
    ensures finds_all { FindsAll (SpellsExpr total) (ends_expr true) tokens.old.rest.now result tokens.new.rest.now }
{
    whole_expr(alloc, tokens, total)
}

#[tactic(auto, unfolding(crate::specs::Parse::read_stmts))]
fn whole_stmts(alloc: Global, tokens: &mut Tokens<'_>, total: usize) -> Result<Items<Stmt>, Stop>
    ensures { Reads (read_stmts total tokens.old.rest.now) result tokens.new.rest.now }
{
    let depth = tokens.rest.len();
    nested_stmts(alloc, tokens, total, depth)
}

/// Reads statements in a file of `total` tokens, as those in braces. What it finds is spelled by the tokens up to those
/// that are left; where statements stand up to a `}`, `case` or `default`, they are found. After an error nothing is
/// said of the tokens that are left.
pub fn stmts(alloc: Global, tokens: &mut Tokens<'_>, total: usize) -> Result<Items<Stmt>, Stop>
    ensures reads { Reads (read_stmts total tokens.old.rest.now) result tokens.new.rest.now }
    ensures spelled { IsSpelled (SpellsStmts total) tokens.old.rest.now result tokens.new.rest.now }
    ensures finds_all { FindsAll (SpellsStmts total) closes tokens.old.rest.now result tokens.new.rest.now }
{
    whole_stmts(alloc, tokens, total)
}

#[tactic(auto, unfolding(crate::specs::Parse::read_string))]
fn whole_string(
    alloc: Global,
    tokens: &mut Tokens<'_>,
    total: usize,
) -> Result<Items<StringPart>, Stop>
    ensures { Reads (read_string total tokens.old.rest.now) result tokens.new.rest.now }
{
    let depth = tokens.rest.len();
    Grammar {
        alloc,
        total,
        depth,
        expr: nested_expr,
        stmts: nested_stmts,
    }
    .string(tokens, true)
}

/// Reads a string in a file of `total` tokens. What it finds is spelled by the tokens up to those that are left, and
/// where a string stands, it is found. After an error nothing is said of the tokens that are left.
pub fn string(
    alloc: Global,
    tokens: &mut Tokens<'_>,
    total: usize,
) -> Result<Items<StringPart>, Stop>
    ensures reads { Reads (read_string total tokens.old.rest.now) result tokens.new.rest.now }
    ensures spelled { IsSpelled (SpellsString total) tokens.old.rest.now result tokens.new.rest.now }
    ensures finds_all { FindsAll (SpellsString total) anywhere tokens.old.rest.now result tokens.new.rest.now }
{
    whole_string(alloc, tokens, total)
}
