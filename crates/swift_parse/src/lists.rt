ghost use Rattle.std.specs.Prelude.{◌≡◌, codes, ◌∷◌, IfOk};
ghost use Rattle.parse_base.specs.Parser.{Reads, all, both, listed, made, starts, take_one};
ghost use Rattle.parse_base.specs.Terminals.{a_name, a_sign};
ghost use Rattle.swift_parse.specs.Parse as spec;
ghost use Rattle.swift_parse.specs.Words as words;

use parse_base::{Stop, Tokens};
use std::alloc::{AllocError, Global};
use sv_items::Items;
use swift_lex::Word;

/// The list with an item before the others.
pub fn put_first<T: Drop>(first: T, mut others: Items<T>) -> Result<Items<T>, AllocError>
    ensures { IfOk result (λ all. all ≡ first ∷ others) }
{
    others.insert(0, first)?;
    Ok(others)
}

#[tactic(auto, unfolding(parse_base::specs::Parser::made, parse_base::specs::Parser::both))]
fn next_name(alloc: Global, tokens: &mut Tokens<'_>) -> Result<Word, Stop>
    ensures { Reads (made (λ x. x.1) (both (take_one (a_sign (codes ","))) (take_one a_name)) tokens.old.rest.now) result tokens.new.rest.now }
{
    tokens.expect(b",")?;
    tokens.name(alloc)
}

#[tactic(auto, using(parse_base::proofs::Turns::many_turn, parse_base::proofs::Turns::many_end), unfolding(parse_base::specs::Parser::all))]
fn more_names(alloc: Global, tokens: &mut Tokens<'_>) -> Result<Items<Word>, Stop>
    ensures { Reads (all (starts (a_sign (codes ","))) (made (λ x. x.1) (both (take_one (a_sign (codes ","))) (take_one a_name))) tokens.old.rest.now) result tokens.new.rest.now }
{
    let mut found = Items::new(alloc);
    for _turn in 0..tokens.rest.len() {
        if !tokens.sees(b",") {
            return Ok(found);
        }
        let name = next_name(alloc, tokens)?;
        found.push(name)?;
    }
    if tokens.sees(b",") {
        return Err(Stop::Refused);
    }
    Ok(found)
}

#[tactic(auto, unfolding(parse_base::specs::Parser::listed, parse_base::specs::Parser::made, parse_base::specs::Parser::both))]
fn name_list(alloc: Global, tokens: &mut Tokens<'_>) -> Result<Items<Word>, Stop>
    ensures { Reads (listed (a_sign (codes ",")) (take_one a_name) tokens.old.rest.now) result tokens.new.rest.now }
{
    let first = tokens.name(alloc)?;
    let others = more_names(alloc, tokens)?;
    Ok(put_first(first, others)?)
}

#[tactic(auto, unfolding(parse_base::specs::Parser::made, parse_base::specs::Parser::both))]
fn coloned_names(alloc: Global, tokens: &mut Tokens<'_>) -> Result<Items<Word>, Stop>
    ensures { Reads (made (λ x. x.1) (both (take_one (a_sign (codes ":"))) (listed (a_sign (codes ",")) (take_one a_name))) tokens.old.rest.now) result tokens.new.rest.now }
{
    tokens.expect(b":")?;
    name_list(alloc, tokens)
}

/// The names after a colon, if there are any.
#[tactic(auto, unfolding(crate::specs::Parse::names, parse_base::specs::Parser::made, parse_base::specs::Parser::perhaps))]
pub fn names(alloc: Global, tokens: &mut Tokens<'_>) -> Result<Items<Word>, Stop>
    ensures { Reads (spec.names tokens.old.rest.now) result tokens.new.rest.now }
{
    if tokens.sees(b":") {
        coloned_names(alloc, tokens)
    } else {
        Ok(Items::new(alloc))
    }
}

/// Whether one of the names is `PreviewProvider`.
pub fn has_preview(names: &Items<Word>) -> bool
    ensures { result ≡ words.has_preview names.now }
{
    names
        .as_slice()
        .iter()
        .any(|name| name.is(b"PreviewProvider"))
}
