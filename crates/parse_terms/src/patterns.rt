ghost use Rattle.std.specs.Prelude.{◌≡◌, codes, [], length};
ghost use Rattle.parse_base.specs.Parser.{Reads, all, starts, take_one};
ghost use Rattle.parse_base.specs.Answers.{FindsAll, IsSpelled};
ghost use Rattle.parse_base.specs.Terminals.{a_text};
ghost use Rattle.parse_terms.specs.Patterns as patterns;
ghost use Rattle.parse_terms.specs.Patterns.{SpellsPattern, anywhere, read_pattern};

use crate::words::{minus, number, plain, sees_minus, sees_plain};
use parse_base::{Stop, Tokens};
use std::alloc::Global;
use sv_items::Items;
use swift_ast::Pattern;
use swift_lex::Word;

#[tactic(auto, unfolding(crate::specs::Patterns::minus_pattern, parse_base::specs::Parser::made, parse_base::specs::Parser::both))]
fn minus_pattern(tokens: &mut Tokens<'_>) -> Result<Pattern, Stop>
    ensures { Reads (patterns.minus_pattern tokens.old.rest.now) result tokens.new.rest.now }
{
    minus(tokens)?;
    Ok(Pattern::Minus(number(tokens)?))
}

#[tactic(auto, using(parse_base::proofs::Turns::many_turn, parse_base::proofs::Turns::many_end), unfolding(parse_base::specs::Parser::all))]
fn texts(alloc: Global, tokens: &mut Tokens<'_>) -> Result<Items<Word>, Stop>
    ensures { Reads (all (starts a_text) (take_one a_text) tokens.old.rest.now) result tokens.new.rest.now }
{
    let mut found = Items::new(alloc);
    for _turn in 0..tokens.rest.len() {
        if !tokens.sees_text() {
            return Ok(found);
        }
        let text = tokens.text(alloc)?;
        found.push(text)?;
    }
    if tokens.sees_text() {
        return Err(Stop::Refused);
    }
    Ok(found)
}

#[tactic(auto, unfolding(crate::specs::Patterns::text_pattern, parse_base::specs::Parser::made, parse_base::specs::Parser::both))]
fn text_pattern(alloc: Global, tokens: &mut Tokens<'_>) -> Result<Pattern, Stop>
    ensures { Reads (patterns.text_pattern tokens.old.rest.now) result tokens.new.rest.now }
{
    tokens.open_string()?;
    let found = texts(alloc, tokens)?;
    tokens.close_string()?;
    Ok(Pattern::Text(found))
}

#[tactic(auto, unfolding(crate::specs::Patterns::implicit_pattern, parse_base::specs::Parser::made, parse_base::specs::Parser::both))]
fn implicit_pattern(alloc: Global, tokens: &mut Tokens<'_>) -> Result<Pattern, Stop>
    ensures { Reads (patterns.implicit_pattern tokens.old.rest.now) result tokens.new.rest.now }
{
    tokens.expect(b".")?;
    Ok(Pattern::Implicit(tokens.name(alloc)?))
}

#[tactic(auto, unfolding(crate::specs::Patterns::member_pattern, parse_base::specs::Parser::made, parse_base::specs::Parser::both))]
fn member_pattern(alloc: Global, tokens: &mut Tokens<'_>) -> Result<Pattern, Stop>
    ensures { Reads (patterns.member_pattern tokens.old.rest.now) result tokens.new.rest.now }
{
    let kind = tokens.name(alloc)?;
    tokens.expect(b".")?;
    Ok(Pattern::Member(kind, tokens.name(alloc)?))
}

#[tactic(auto, unfolding(crate::specs::Patterns::read_pattern, parse_base::specs::Parser::choose))]
fn any_pattern(alloc: Global, tokens: &mut Tokens<'_>) -> Result<Pattern, Stop>
    ensures { Reads (read_pattern tokens.old.rest.now) result tokens.new.rest.now }
{
    if sees_plain(tokens) {
        plain(tokens)
    } else if sees_minus(tokens) {
        minus_pattern(tokens)
    } else if tokens.sees_string() {
        text_pattern(alloc, tokens)
    } else if tokens.sees(b".") {
        implicit_pattern(alloc, tokens)
    } else {
        member_pattern(alloc, tokens)
    }
}

/// Reads a pattern. What it finds is spelled by the tokens up to those that are left, and where a pattern stands, it is
/// found. After an error nothing is said of the tokens that are left.
pub fn pattern(alloc: Global, tokens: &mut Tokens<'_>) -> Result<Pattern, Stop>
    ensures reads { Reads (read_pattern tokens.old.rest.now) result tokens.new.rest.now }
    ensures spelled { IsSpelled SpellsPattern tokens.old.rest.now result tokens.new.rest.now }
    ensures finds_all { FindsAll SpellsPattern anywhere tokens.old.rest.now result tokens.new.rest.now }
{
    any_pattern(alloc, tokens)
}
