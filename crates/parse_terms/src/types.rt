ghost use Rattle.std.specs.Prelude.{◌≡◌, codes, IfOk, Result};
ghost use Rattle.parse_base.specs.Parser.{Reads, counted, starts, take_one};
ghost use Rattle.parse_base.specs.Answers.{FindsAll, IsSpelled, SpellsOne};
ghost use Rattle.parse_base.specs.Terminals.{a_sign};
ghost use Rattle.parse_terms.specs.Types as types;
ghost use Rattle.parse_terms.specs.Types.{SpellsType, ends_type, read_type};
ghost use Rattle.parse_terms.specs.Words.{max_links};

use crate::trees::with_marks;
use crate::words::MAX_LINKS;
use parse_base::{Stop, Tokens};
use std::alloc::Global;
use sv_items::Boxed;
use swift_ast::TypeName;

/// How many `?` stand here.
#[tactic(auto, using(parse_base::proofs::Turns::counted_turn, parse_base::proofs::Turns::counted_end))]
fn marks(tokens: &mut Tokens<'_>) -> Result<usize, Stop>
    ensures { Reads (counted (starts (a_sign (codes "?"))) (take_one (a_sign (codes "?"))) max_links 0 tokens.old.rest.now) result tokens.new.rest.now }
{
    let mut found = 0;
    for _turn in 0..MAX_LINKS {
        if !tokens.sees(b"?") {
            return Ok(found);
        }
        tokens.expect(b"?")?;
        found += 1;
    }
    if tokens.sees(b"?") {
        return Err(Stop::Refused);
    }
    Ok(found)
}

#[cycle(types)]
#[tactic(auto, unfolding(crate::specs::Types::plain_type, crate::specs::Types::list_type, crate::specs::Types::bracketed_type, parse_base::specs::Parser::choose, parse_base::specs::Parser::made, parse_base::specs::Parser::both))]
fn plain_type(alloc: Global, tokens: &mut Tokens<'_>, depth: usize) -> Result<TypeName, Stop>
    ensures { Reads (types.plain_type (types.nested_type depth) tokens.old.rest.now) result tokens.new.rest.now }
{
    if tokens.sees_name() {
        return Ok(TypeName::Name(tokens.name(alloc)?));
    }
    if tokens.sees(b"[") {
        tokens.expect(b"[")?;
        let element = nested_type(alloc, tokens, depth)?;
        tokens.expect(b"]")?;
        return Ok(TypeName::List(Boxed::new(alloc, element)?));
    }
    tokens.expect(b"(")?;
    let inner = nested_type(alloc, tokens, depth)?;
    tokens.expect(b")")?;
    Ok(inner)
}

#[cycle(types)]
#[tactic(auto, unfolding(crate::specs::Types::type_of, parse_base::specs::Parser::made, parse_base::specs::Parser::both))]
fn type_of(alloc: Global, tokens: &mut Tokens<'_>, depth: usize) -> Result<TypeName, Stop>
    ensures { Reads (types.type_of (types.nested_type depth) tokens.old.rest.now) result tokens.new.rest.now }
{
    let first = plain_type(alloc, tokens, depth)?;
    let marks = marks(tokens)?;
    Ok(with_marks(alloc, first, marks)?)
}

#[cycle(types)]
fn nested_type(alloc: Global, tokens: &mut Tokens<'_>, depth: usize) -> Result<TypeName, Stop>
    ensures { Reads (types.nested_type depth tokens.old.rest.now) result tokens.new.rest.now }
{
    if depth == 0 {
        return Err(Stop::Refused);
    }
    type_of(alloc, tokens, depth - 1)
}

/// Reads a type. What it finds is spelled by the tokens up to those that are left; where a type stands with no `?`
/// behind it, that type is found. After an error nothing is said of the tokens that are left.
#[tactic(auto, unfolding(crate::specs::Types::read_type))]
pub fn type_name(alloc: Global, tokens: &mut Tokens<'_>) -> Result<TypeName, Stop>
    ensures reads { Reads (read_type tokens.old.rest.now) result tokens.new.rest.now }
    ensures spelled { IsSpelled SpellsType tokens.old.rest.now result tokens.new.rest.now }
    ensures finds_all { FindsAll SpellsType ends_type tokens.old.rest.now result tokens.new.rest.now }
{
    nested_type(alloc, tokens, tokens.rest.len())
}

/// A law: one list of tokens spells one type, up to one place where no `?` follows.
pub fn one_type()
    ensures { SpellsOne SpellsType ends_type }
{}
