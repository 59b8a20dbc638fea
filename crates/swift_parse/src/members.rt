ghost use Rattle.std.specs.Prelude.{codes, None, Some};
ghost use Rattle.parse_base.specs.Parser.{Reads, all, both, made, perhaps, starts};
ghost use Rattle.parse_base.specs.Terminals.{a_sign};
ghost use Rattle.swift_parse.specs.Below.{parsers};
ghost use Rattle.swift_parse.specs.Parse as spec;

use crate::params::params;
use crate::words::{begins_mod, one_modifier, sees_modifier};
use parse_base::{Stop, Tokens};
use parse_expr::{expr, stmts};
use parse_terms::type_name;
use std::alloc::Global;
use sv_items::Items;
use swift_ast::{
    Attribute, Binder, Expr, Member, MemberForm, Modifier, ResultName, Stmt, TypeName,
};
use swift_lex::Word;

/// `@Environment(\.name)`
#[tactic(auto, unfolding(crate::specs::Parse::environment, parse_base::specs::Parser::made, parse_base::specs::Parser::both))]
fn environment(alloc: Global, tokens: &mut Tokens<'_>) -> Result<Modifier, Stop>
    ensures { Reads (spec.environment tokens.old.rest.now) result tokens.new.rest.now }
{
    tokens.expect_attribute(b"@Environment")?;
    tokens.expect(b"(")?;
    tokens.expect(b"\\")?;
    tokens.expect(b".")?;
    let argument = tokens.name(alloc)?;
    tokens.expect(b")")?;
    Ok(Modifier::Attribute(Attribute {
        name: Word::new(Vec::from_slice(alloc, b"@Environment")?),
        argument: Some(argument),
    }))
}

#[tactic(auto, unfolding(crate::specs::Parse::modifier, parse_base::specs::Parser::choose))]
fn modifier(alloc: Global, tokens: &mut Tokens<'_>) -> Result<Modifier, Stop>
    ensures { Reads (spec.modifier tokens.old.rest.now) result tokens.new.rest.now }
{
    if sees_modifier(tokens) {
        one_modifier(alloc, tokens)
    } else {
        environment(alloc, tokens)
    }
}

#[tactic(auto, using(parse_base::proofs::Turns::many_turn, parse_base::proofs::Turns::many_end), unfolding(parse_base::specs::Parser::all))]
fn modifiers(alloc: Global, tokens: &mut Tokens<'_>) -> Result<Items<Modifier>, Stop>
    ensures { Reads (all spec.begins_mod spec.modifier tokens.old.rest.now) result tokens.new.rest.now }
{
    let mut found = Items::new(alloc);
    for _turn in 0..tokens.rest.len() {
        if !begins_mod(tokens) {
            return Ok(found);
        }
        let next = modifier(alloc, tokens)?;
        found.push(next)?;
    }
    if begins_mod(tokens) {
        return Err(Stop::Refused);
    }
    Ok(found)
}

/// The type behind a `:`, where one stands.
#[tactic(auto, unfolding(crate::specs::Parse::declared, parse_base::specs::Parser::perhaps, parse_base::specs::Parser::made, parse_base::specs::Parser::both))]
pub fn declared(alloc: Global, tokens: &mut Tokens<'_>) -> Result<Option<TypeName>, Stop>
    ensures { Reads (spec.declared tokens.old.rest.now) result tokens.new.rest.now }
{
    if tokens.sees(b":") {
        tokens.expect(b":")?;
        Ok(Some(type_name(alloc, tokens)?))
    } else {
        Ok(None)
    }
}

#[tactic(auto, unfolding(crate::specs::Parse::maybe_value, crate::specs::Parse::value, parse_base::specs::Parser::perhaps, parse_base::specs::Parser::made, parse_base::specs::Parser::both))]
fn maybe_value(alloc: Global, tokens: &mut Tokens<'_>, total: usize) -> Result<Option<Expr>, Stop>
    ensures { Reads (spec.maybe_value (parsers total) tokens.old.rest.now) result tokens.new.rest.now }
{
    if tokens.sees(b"=") {
        tokens.expect(b"=")?;
        Ok(Some(expr(alloc, tokens, total)?))
    } else {
        Ok(None)
    }
}

#[tactic(auto, unfolding(crate::specs::Parse::braces, parse_base::specs::Parser::made, parse_base::specs::Parser::both))]
fn braces(alloc: Global, tokens: &mut Tokens<'_>, total: usize) -> Result<Items<Stmt>, Stop>
    ensures { Reads (spec.braces (parsers total) tokens.old.rest.now) result tokens.new.rest.now }
{
    tokens.expect(b"{")?;
    let found = stmts(alloc, tokens, total)?;
    tokens.expect(b"}")?;
    Ok(found)
}

#[tactic(auto, unfolding(crate::specs::Parse::opaque, parse_base::specs::Parser::made, parse_base::specs::Parser::both))]
fn opaque(alloc: Global, tokens: &mut Tokens<'_>) -> Result<ResultName, Stop>
    ensures { Reads (spec.opaque tokens.old.rest.now) result tokens.new.rest.now }
{
    tokens.expect_word(b"some")?;
    Ok(ResultName::Opaque(tokens.name(alloc)?))
}

#[tactic(auto, unfolding(crate::specs::Parse::result_of, parse_base::specs::Parser::choose, parse_base::specs::Parser::made))]
fn result_of(alloc: Global, tokens: &mut Tokens<'_>) -> Result<ResultName, Stop>
    ensures { Reads (spec.result_of tokens.old.rest.now) result tokens.new.rest.now }
{
    if tokens.sees_word(b"some") {
        opaque(alloc, tokens)
    } else {
        Ok(ResultName::Plain(type_name(alloc, tokens)?))
    }
}

#[tactic(auto, unfolding(crate::specs::Parse::let_form, parse_base::specs::Parser::made, parse_base::specs::Parser::both))]
fn let_form(alloc: Global, tokens: &mut Tokens<'_>, total: usize) -> Result<MemberForm, Stop>
    ensures { Reads (spec.let_form (parsers total) tokens.old.rest.now) result tokens.new.rest.now }
{
    tokens.expect_word(b"let")?;
    let name = tokens.name(alloc)?;
    let type_name = declared(alloc, tokens)?;
    let value = maybe_value(alloc, tokens, total)?;
    Ok(MemberForm::Stored(Binder::Let, name, type_name, value))
}

/// Behind `var`, its name and its type.
#[tactic(auto, unfolding(crate::specs::Parse::typed, parse_base::specs::Parser::choose, parse_base::specs::Parser::made))]
fn typed(
    alloc: Global,
    tokens: &mut Tokens<'_>,
    total: usize,
    name: Word,
    type_name: TypeName,
) -> Result<MemberForm, Stop>
    ensures { Reads (spec.typed (parsers total) name type_name tokens.old.rest.now) result tokens.new.rest.now }
{
    if tokens.sees(b"{") {
        let body = braces(alloc, tokens, total)?;
        Ok(MemberForm::Computed(name, ResultName::Plain(type_name), body))
    } else {
        let value = maybe_value(alloc, tokens, total)?;
        Ok(MemberForm::Stored(Binder::Var, name, Some(type_name), value))
    }
}

/// Behind `var`, its name and `:`.
#[tactic(auto, unfolding(crate::specs::Parse::coloned, parse_base::specs::Parser::choose, parse_base::specs::Parser::made, parse_base::specs::Parser::both, parse_base::specs::Parser::then_by))]
fn coloned(
    alloc: Global,
    tokens: &mut Tokens<'_>,
    total: usize,
    name: Word,
) -> Result<MemberForm, Stop>
    ensures { Reads (spec.coloned (parsers total) name tokens.old.rest.now) result tokens.new.rest.now }
{
    if tokens.sees_word(b"some") {
        let kind = opaque(alloc, tokens)?;
        let body = braces(alloc, tokens, total)?;
        return Ok(MemberForm::Computed(name, kind, body));
    }
    let kind = type_name(alloc, tokens)?;
    typed(alloc, tokens, total, name, kind)
}

/// Behind `var` and its name.
#[tactic(auto, unfolding(crate::specs::Parse::named, parse_base::specs::Parser::choose, parse_base::specs::Parser::made, parse_base::specs::Parser::both))]
fn named(
    alloc: Global,
    tokens: &mut Tokens<'_>,
    total: usize,
    name: Word,
) -> Result<MemberForm, Stop>
    ensures { Reads (spec.named (parsers total) name tokens.old.rest.now) result tokens.new.rest.now }
{
    if tokens.sees(b":") {
        tokens.expect(b":")?;
        return coloned(alloc, tokens, total, name);
    }
    let value = maybe_value(alloc, tokens, total)?;
    Ok(MemberForm::Stored(Binder::Var, name, None, value))
}

#[tactic(auto, unfolding(crate::specs::Parse::var_form, parse_base::specs::Parser::made, parse_base::specs::Parser::both, parse_base::specs::Parser::then_by))]
fn var_form(alloc: Global, tokens: &mut Tokens<'_>, total: usize) -> Result<MemberForm, Stop>
    ensures { Reads (spec.var_form (parsers total) tokens.old.rest.now) result tokens.new.rest.now }
{
    tokens.expect_word(b"var")?;
    let name = tokens.name(alloc)?;
    named(alloc, tokens, total, name)
}

#[tactic(auto, unfolding(crate::specs::Parse::arrow, parse_base::specs::Parser::perhaps, parse_base::specs::Parser::made, parse_base::specs::Parser::both))]
fn maybe_arrow(alloc: Global, tokens: &mut Tokens<'_>) -> Result<Option<ResultName>, Stop>
    ensures { Reads (perhaps (starts (a_sign (codes "->"))) spec.arrow tokens.old.rest.now) result tokens.new.rest.now }
{
    if tokens.sees(b"->") {
        tokens.expect(b"->")?;
        Ok(Some(result_of(alloc, tokens)?))
    } else {
        Ok(None)
    }
}

#[tactic(auto, unfolding(crate::specs::Parse::function, parse_base::specs::Parser::made, parse_base::specs::Parser::both))]
fn function(alloc: Global, tokens: &mut Tokens<'_>, total: usize) -> Result<MemberForm, Stop>
    ensures { Reads (spec.function (parsers total) tokens.old.rest.now) result tokens.new.rest.now }
{
    tokens.expect_word(b"func")?;
    let name = tokens.name(alloc)?;
    let inputs = params(alloc, tokens)?;
    let output = maybe_arrow(alloc, tokens)?;
    let body = braces(alloc, tokens, total)?;
    Ok(MemberForm::Function(name, inputs, output, body))
}

#[tactic(auto, unfolding(crate::specs::Parse::form_of, parse_base::specs::Parser::choose))]
fn form_of(alloc: Global, tokens: &mut Tokens<'_>, total: usize) -> Result<MemberForm, Stop>
    ensures { Reads (spec.form_of (parsers total) tokens.old.rest.now) result tokens.new.rest.now }
{
    if tokens.sees_word(b"func") {
        function(alloc, tokens, total)
    } else if tokens.sees_word(b"let") {
        let_form(alloc, tokens, total)
    } else {
        var_form(alloc, tokens, total)
    }
}

/// A member, in a file of `total` tokens.
#[tactic(auto, unfolding(crate::specs::Parse::member_of, parse_base::specs::Parser::spanned, parse_base::specs::Parser::both))]
pub fn member_of(alloc: Global, tokens: &mut Tokens<'_>, total: usize) -> Result<Member, Stop>
    ensures { Reads (spec.member_of total (parsers total) tokens.old.rest.now) result tokens.new.rest.now }
{
    let before = tokens.rest;
    let modifiers = modifiers(alloc, tokens)?;
    let form = form_of(alloc, tokens, total)?;
    let span = tokens.span_since(total, before);
    Ok(Member {
        span,
        modifiers,
        form,
    })
}
