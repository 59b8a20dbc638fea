ghost use Rattle.std.specs.Prelude.{codes};
ghost use Rattle.parse_base.specs.Parser.{Reads, all, both, listed, made, starts, take_one};
ghost use Rattle.parse_base.specs.Terminals.{a_sign, an_attribute};
ghost use Rattle.swift_parse.specs.Below.{parsers};
ghost use Rattle.swift_parse.specs.Parse as spec;

use crate::lists::{has_preview, put_first};
use crate::members::{declared, member_of};
use crate::words::{begins_enum_line, begins_member, semicolon};
use parse_base::{Stop, Tokens};
use parse_expr::expr;
use std::alloc::Global;
use sv_items::Items;
use swift_ast::{CaseName, Entry, EnumItem, Member, StructBody};
use swift_lex::Word;
use token_brackets::balanced_len;

/// Leaves the balanced tokens aside that stand here.
#[tactic(auto, unfolding(crate::specs::Parse::aside))]
pub fn aside(alloc: Global, tokens: &mut Tokens<'_>) -> Result<(), Stop>
    ensures { Reads (spec.aside tokens.old.rest.now) result tokens.new.rest.now }
{
    match balanced_len(alloc, tokens.rest)? {
        None => Err(Stop::Refused),
        Some(n) => {
            let (_, behind) = tokens.rest.split_at(n);
            tokens.rest = behind;
            Ok(())
        }
    }
}

#[tactic(auto, unfolding(crate::specs::Parse::left_aside, parse_base::specs::Parser::made, parse_base::specs::Parser::both))]
fn left_aside(alloc: Global, tokens: &mut Tokens<'_>) -> Result<StructBody, Stop>
    ensures { Reads (spec.left_aside tokens.old.rest.now) result tokens.new.rest.now }
{
    tokens.expect(b"{")?;
    aside(alloc, tokens)?;
    tokens.expect(b"}")?;
    Ok(StructBody::LeftAside)
}

#[tactic(auto, unfolding(crate::specs::Parse::member_line, parse_base::specs::Parser::made, parse_base::specs::Parser::both))]
fn member_line(alloc: Global, tokens: &mut Tokens<'_>, total: usize) -> Result<Member, Stop>
    ensures { Reads (spec.member_line total (parsers total) tokens.old.rest.now) result tokens.new.rest.now }
{
    let member = member_of(alloc, tokens, total)?;
    semicolon(tokens)?;
    Ok(member)
}

#[tactic(auto, using(parse_base::proofs::Turns::many_turn, parse_base::proofs::Turns::many_end), unfolding(parse_base::specs::Parser::all))]
fn member_lines(alloc: Global, tokens: &mut Tokens<'_>, total: usize) -> Result<Items<Member>, Stop>
    ensures { Reads (all spec.begins_member (spec.member_line total (parsers total)) tokens.old.rest.now) result tokens.new.rest.now }
{
    let mut found = Items::new(alloc);
    for _turn in 0..tokens.rest.len() {
        if !begins_member(tokens) {
            return Ok(found);
        }
        let next = member_line(alloc, tokens, total)?;
        found.push(next)?;
    }
    if begins_member(tokens) {
        return Err(Stop::Refused);
    }
    Ok(found)
}

#[tactic(auto, unfolding(crate::specs::Parse::members, parse_base::specs::Parser::made, parse_base::specs::Parser::both))]
fn members(alloc: Global, tokens: &mut Tokens<'_>, total: usize) -> Result<StructBody, Stop>
    ensures { Reads (spec.members total (parsers total) tokens.old.rest.now) result tokens.new.rest.now }
{
    tokens.expect(b"{")?;
    let found = member_lines(alloc, tokens, total)?;
    tokens.expect(b"}")?;
    Ok(StructBody::Members(found))
}

/// The braces of a struct with these names behind its colon.
#[tactic(auto, unfolding(crate::specs::Parse::body))]
pub fn body(
    alloc: Global,
    tokens: &mut Tokens<'_>,
    total: usize,
    names: &Items<Word>,
) -> Result<StructBody, Stop>
    ensures { Reads (spec.body total (parsers total) names.now tokens.old.rest.now) result tokens.new.rest.now }
{
    if has_preview(names) {
        left_aside(alloc, tokens)
    } else {
        members(alloc, tokens, total)
    }
}

#[tactic(auto, unfolding(crate::specs::Parse::case_name_of, parse_base::specs::Parser::spanned))]
fn case_name_of(alloc: Global, tokens: &mut Tokens<'_>, total: usize) -> Result<CaseName, Stop>
    ensures { Reads (spec.case_name_of total (parsers total) tokens.old.rest.now) result tokens.new.rest.now }
{
    let before = tokens.rest;
    let name = tokens.name(alloc)?;
    let span = tokens.span_since(total, before);
    Ok(CaseName { span, name })
}

#[tactic(auto, unfolding(parse_base::specs::Parser::made, parse_base::specs::Parser::both))]
fn next_case(alloc: Global, tokens: &mut Tokens<'_>, total: usize) -> Result<CaseName, Stop>
    ensures { Reads (made (λ x. x.1) (both (take_one (a_sign (codes ","))) (spec.case_name_of total (parsers total))) tokens.old.rest.now) result tokens.new.rest.now }
{
    tokens.expect(b",")?;
    case_name_of(alloc, tokens, total)
}

#[tactic(auto, using(parse_base::proofs::Turns::many_turn, parse_base::proofs::Turns::many_end), unfolding(parse_base::specs::Parser::all))]
fn more_cases(alloc: Global, tokens: &mut Tokens<'_>, total: usize) -> Result<Items<CaseName>, Stop>
    ensures { Reads (all (starts (a_sign (codes ","))) (made (λ x. x.1) (both (take_one (a_sign (codes ","))) (spec.case_name_of total (parsers total)))) tokens.old.rest.now) result tokens.new.rest.now }
{
    let mut found = Items::new(alloc);
    for _turn in 0..tokens.rest.len() {
        if !tokens.sees(b",") {
            return Ok(found);
        }
        let next = next_case(alloc, tokens, total)?;
        found.push(next)?;
    }
    if tokens.sees(b",") {
        return Err(Stop::Refused);
    }
    Ok(found)
}

#[tactic(auto, unfolding(parse_base::specs::Parser::listed, parse_base::specs::Parser::made, parse_base::specs::Parser::both))]
fn case_list(alloc: Global, tokens: &mut Tokens<'_>, total: usize) -> Result<Items<CaseName>, Stop>
    ensures { Reads (listed (a_sign (codes ",")) (spec.case_name_of total (parsers total)) tokens.old.rest.now) result tokens.new.rest.now }
{
    let first = case_name_of(alloc, tokens, total)?;
    let others = more_cases(alloc, tokens, total)?;
    Ok(put_first(first, others)?)
}

#[tactic(auto, unfolding(crate::specs::Parse::cases, parse_base::specs::Parser::made, parse_base::specs::Parser::both))]
fn cases(alloc: Global, tokens: &mut Tokens<'_>, total: usize) -> Result<EnumItem, Stop>
    ensures { Reads (spec.cases total (parsers total) tokens.old.rest.now) result tokens.new.rest.now }
{
    tokens.expect_word(b"case")?;
    Ok(EnumItem::Cases(case_list(alloc, tokens, total)?))
}

#[tactic(auto, unfolding(crate::specs::Parse::enum_item_of, parse_base::specs::Parser::choose, parse_base::specs::Parser::made))]
fn enum_item_of(alloc: Global, tokens: &mut Tokens<'_>, total: usize) -> Result<EnumItem, Stop>
    ensures { Reads (spec.enum_item_of total (parsers total) tokens.old.rest.now) result tokens.new.rest.now }
{
    if tokens.sees_word(b"case") {
        cases(alloc, tokens, total)
    } else {
        Ok(EnumItem::Member(member_of(alloc, tokens, total)?))
    }
}

#[tactic(auto, unfolding(crate::specs::Parse::enum_line, parse_base::specs::Parser::made, parse_base::specs::Parser::both))]
fn enum_line(alloc: Global, tokens: &mut Tokens<'_>, total: usize) -> Result<EnumItem, Stop>
    ensures { Reads (spec.enum_line total (parsers total) tokens.old.rest.now) result tokens.new.rest.now }
{
    let item = enum_item_of(alloc, tokens, total)?;
    semicolon(tokens)?;
    Ok(item)
}

/// The lines of an enum.
#[tactic(auto, using(parse_base::proofs::Turns::many_turn, parse_base::proofs::Turns::many_end), unfolding(parse_base::specs::Parser::all))]
pub fn enum_lines(
    alloc: Global,
    tokens: &mut Tokens<'_>,
    total: usize,
) -> Result<Items<EnumItem>, Stop>
    ensures { Reads (all spec.begins_enum_line (spec.enum_line total (parsers total)) tokens.old.rest.now) result tokens.new.rest.now }
{
    let mut found = Items::new(alloc);
    for _turn in 0..tokens.rest.len() {
        if !begins_enum_line(tokens) {
            return Ok(found);
        }
        let next = enum_line(alloc, tokens, total)?;
        found.push(next)?;
    }
    if begins_enum_line(tokens) {
        return Err(Stop::Refused);
    }
    Ok(found)
}

#[tactic(auto, unfolding(crate::specs::Parse::entry_of, parse_base::specs::Parser::spanned, parse_base::specs::Parser::both))]
fn entry_of(alloc: Global, tokens: &mut Tokens<'_>, total: usize) -> Result<Entry, Stop>
    ensures { Reads (spec.entry_of total (parsers total) tokens.old.rest.now) result tokens.new.rest.now }
{
    let before = tokens.rest;
    tokens.expect_attribute(b"@Entry")?;
    tokens.expect_word(b"var")?;
    let name = tokens.name(alloc)?;
    let kind = declared(alloc, tokens)?;
    tokens.expect(b"=")?;
    let value = expr(alloc, tokens, total)?;
    let span = tokens.span_since(total, before);
    Ok(Entry {
        span,
        name,
        declared: kind,
        value,
    })
}

#[tactic(auto, unfolding(crate::specs::Parse::entry_line, parse_base::specs::Parser::made, parse_base::specs::Parser::both))]
fn entry_line(alloc: Global, tokens: &mut Tokens<'_>, total: usize) -> Result<Entry, Stop>
    ensures { Reads (spec.entry_line total (parsers total) tokens.old.rest.now) result tokens.new.rest.now }
{
    let entry = entry_of(alloc, tokens, total)?;
    semicolon(tokens)?;
    Ok(entry)
}

/// The entries of an extension of the environment.
#[tactic(auto, using(parse_base::proofs::Turns::many_turn, parse_base::proofs::Turns::many_end), unfolding(parse_base::specs::Parser::all))]
pub fn entry_lines(
    alloc: Global,
    tokens: &mut Tokens<'_>,
    total: usize,
) -> Result<Items<Entry>, Stop>
    ensures { Reads (all (starts (an_attribute (codes "@Entry"))) (spec.entry_line total (parsers total)) tokens.old.rest.now) result tokens.new.rest.now }
{
    let mut found = Items::new(alloc);
    for _turn in 0..tokens.rest.len() {
        if !tokens.sees_attribute(b"@Entry") {
            return Ok(found);
        }
        let next = entry_line(alloc, tokens, total)?;
        found.push(next)?;
    }
    if tokens.sees_attribute(b"@Entry") {
        return Err(Stop::Refused);
    }
    Ok(found)
}
