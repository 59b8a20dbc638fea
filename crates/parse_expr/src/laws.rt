//! Laws of the grammar.

ghost use Rattle.std.specs.Prelude.{true};
ghost use Rattle.parse_base.specs.Answers.{SpellsOne};
ghost use Rattle.parse_terms.specs.Patterns.{anywhere};
ghost use Rattle.parse_expr.specs.Grammar.{SpellsExpr, SpellsStmts, SpellsString};
ghost use Rattle.parse_expr.specs.Tests.{closes, ends_expr};

/// A law: one list of tokens spells one expression, up to one place that ends it.
pub fn one_expr(total: usize)
    ensures { SpellsOne (SpellsExpr total) (ends_expr true) }
{}

/// A law: one list of tokens spells one list of statements, up to one place that ends them.
pub fn one_list_of_stmts(total: usize)
    ensures { SpellsOne (SpellsStmts total) closes }
{}

/// A law: one list of tokens spells one string.
pub fn one_string(total: usize)
    ensures { SpellsOne (SpellsString total) anywhere }
{}
