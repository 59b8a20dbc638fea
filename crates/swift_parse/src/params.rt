ghost use Rattle.std.specs.Prelude.{◌≡◌, codes};
ghost use Rattle.parse_base.specs.Parser.{Reads, all, both, listed, made, perhaps, starts, take_one};
ghost use Rattle.parse_base.specs.Terminals.{a_name, a_sign};
ghost use Rattle.swift_parse.specs.Parse as spec;
ghost use Rattle.swift_parse.specs.Words.{or_none};

use crate::lists::put_first;
use crate::words::{name_next, pair_ahead};
use parse_base::{Stop, Tokens};
use parse_terms::type_name;
use std::alloc::Global;
use sv_items::Items;
use swift_ast::{Param, ParamForm};
use swift_lex::Word;

/// A name, or a name after another.
#[tactic(auto, unfolding(crate::specs::Parse::param_names, parse_base::specs::Parser::both, parse_base::specs::Parser::perhaps))]
fn param_names(alloc: Global, tokens: &mut Tokens<'_>) -> Result<(Option<Word>, Word), Stop>
    ensures { Reads (spec.param_names tokens.old.rest.now) result tokens.new.rest.now }
{
    if name_next(tokens) {
        let label = tokens.name(alloc)?;
        let name = tokens.name(alloc)?;
        Ok((Some(label), name))
    } else {
        let name = tokens.name(alloc)?;
        Ok((None, name))
    }
}

#[tactic(auto, unfolding(crate::specs::Parse::inout_param, parse_base::specs::Parser::made, parse_base::specs::Parser::both))]
fn inout_param(alloc: Global, tokens: &mut Tokens<'_>) -> Result<ParamForm, Stop>
    ensures { Reads (spec.inout_param tokens.old.rest.now) result tokens.new.rest.now }
{
    tokens.expect_word(b"inout")?;
    Ok(ParamForm::Inout(type_name(alloc, tokens)?))
}

#[tactic(auto, unfolding(crate::specs::Parse::function_param, parse_base::specs::Parser::made, parse_base::specs::Parser::both))]
fn function_param(alloc: Global, tokens: &mut Tokens<'_>) -> Result<ParamForm, Stop>
    ensures { Reads (spec.function_param tokens.old.rest.now) result tokens.new.rest.now }
{
    tokens.expect(b"(")?;
    tokens.expect(b")")?;
    tokens.expect(b"->")?;
    Ok(ParamForm::Function(type_name(alloc, tokens)?))
}

#[tactic(auto, unfolding(crate::specs::Parse::param_of, parse_base::specs::Parser::choose, parse_base::specs::Parser::made))]
fn param_of(alloc: Global, tokens: &mut Tokens<'_>) -> Result<ParamForm, Stop>
    ensures { Reads (spec.param_of tokens.old.rest.now) result tokens.new.rest.now }
{
    if tokens.sees_word(b"inout") {
        inout_param(alloc, tokens)
    } else if pair_ahead(tokens) {
        function_param(alloc, tokens)
    } else {
        Ok(ParamForm::Plain(type_name(alloc, tokens)?))
    }
}

#[tactic(auto, unfolding(crate::specs::Parse::param_line, parse_base::specs::Parser::made, parse_base::specs::Parser::both))]
fn param_line(alloc: Global, tokens: &mut Tokens<'_>) -> Result<Param, Stop>
    ensures { Reads (spec.param_line tokens.old.rest.now) result tokens.new.rest.now }
{
    let (label, name) = param_names(alloc, tokens)?;
    tokens.expect(b":")?;
    let form = param_of(alloc, tokens)?;
    Ok(Param { label, name, form })
}

#[tactic(auto, unfolding(parse_base::specs::Parser::made, parse_base::specs::Parser::both))]
fn next_param(alloc: Global, tokens: &mut Tokens<'_>) -> Result<Param, Stop>
    ensures { Reads (made (λ x. x.1) (both (take_one (a_sign (codes ","))) spec.param_line) tokens.old.rest.now) result tokens.new.rest.now }
{
    tokens.expect(b",")?;
    param_line(alloc, tokens)
}

#[tactic(auto, using(parse_base::proofs::Turns::many_turn, parse_base::proofs::Turns::many_end), unfolding(parse_base::specs::Parser::all))]
fn more_params(alloc: Global, tokens: &mut Tokens<'_>) -> Result<Items<Param>, Stop>
    ensures { Reads (all (starts (a_sign (codes ","))) (made (λ x. x.1) (both (take_one (a_sign (codes ","))) spec.param_line)) tokens.old.rest.now) result tokens.new.rest.now }
{
    let mut found = Items::new(alloc);
    for _turn in 0..tokens.rest.len() {
        if !tokens.sees(b",") {
            return Ok(found);
        }
        let next = next_param(alloc, tokens)?;
        found.push(next)?;
    }
    if tokens.sees(b",") {
        return Err(Stop::Refused);
    }
    Ok(found)
}

#[tactic(auto, unfolding(parse_base::specs::Parser::listed, parse_base::specs::Parser::made, parse_base::specs::Parser::both))]
fn param_list(alloc: Global, tokens: &mut Tokens<'_>) -> Result<Items<Param>, Stop>
    ensures { Reads (listed (a_sign (codes ",")) spec.param_line tokens.old.rest.now) result tokens.new.rest.now }
{
    let first = param_line(alloc, tokens)?;
    let others = more_params(alloc, tokens)?;
    Ok(put_first(first, others)?)
}

#[tactic(auto, unfolding(parse_base::specs::Parser::perhaps))]
fn maybe_params(alloc: Global, tokens: &mut Tokens<'_>) -> Result<Option<Items<Param>>, Stop>
    ensures { Reads (perhaps (starts a_name) (listed (a_sign (codes ",")) spec.param_line) tokens.old.rest.now) result tokens.new.rest.now }
{
    if tokens.sees_name() {
        Ok(Some(param_list(alloc, tokens)?))
    } else {
        Ok(None)
    }
}

fn or_none(alloc: Global, found: Option<Items<Param>>) -> Items<Param>
    ensures { result ≡ or_none found }
{
    match found {
        Some(params) => params,
        None => Items::new(alloc),
    }
}

/// The parameters of a function, in brackets.
#[tactic(auto, unfolding(crate::specs::Parse::params, parse_base::specs::Parser::made, parse_base::specs::Parser::both))]
pub fn params(alloc: Global, tokens: &mut Tokens<'_>) -> Result<Items<Param>, Stop>
    ensures { Reads (spec.params tokens.old.rest.now) result tokens.new.rest.now }
{
    tokens.expect(b"(")?;
    let found = maybe_params(alloc, tokens)?;
    tokens.expect(b")")?;
    Ok(or_none(alloc, found))
}
