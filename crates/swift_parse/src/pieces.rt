ghost use Rattle.std.specs.Prelude.{codes};
ghost use Rattle.parse_base.specs.Parser.{Reads, perhaps, starts, take_one};
ghost use Rattle.parse_base.specs.Terminals.{a_sign, an_attribute};
ghost use Rattle.swift_parse.specs.Below.{parsers};
ghost use Rattle.swift_parse.specs.Parse as spec;

use crate::bodies::{aside, body, entry_lines, enum_lines};
use crate::lists::names;
use crate::words::{begins_enum, begins_struct, expect_name, maybe_access};
use parse_base::{Stop, Tokens};
use parse_expr::string;
use std::alloc::Global;
use sv_items::Items;
use swift_ast::{EnumPiece, Piece, PieceForm, StringPart, StructPiece};

#[tactic(auto, unfolding(crate::specs::Parse::import_of, parse_base::specs::Parser::made, parse_base::specs::Parser::both))]
fn import_of(alloc: Global, tokens: &mut Tokens<'_>) -> Result<PieceForm, Stop>
    ensures { Reads (spec.import_of tokens.old.rest.now) result tokens.new.rest.now }
{
    tokens.expect_word(b"import")?;
    Ok(PieceForm::Import(tokens.name(alloc)?))
}

#[tactic(auto, unfolding(parse_base::specs::Parser::perhaps))]
fn maybe_main(tokens: &mut Tokens<'_>) -> Result<Option<()>, Stop>
    ensures { Reads (perhaps (starts (an_attribute (codes "@main"))) (take_one (an_attribute (codes "@main"))) tokens.old.rest.now) result tokens.new.rest.now }
{
    if tokens.sees_attribute(b"@main") {
        tokens.expect_attribute(b"@main")?;
        Ok(Some(()))
    } else {
        Ok(None)
    }
}

#[tactic(auto, unfolding(crate::specs::Parse::struct_of, parse_base::specs::Parser::made, parse_base::specs::Parser::both, parse_base::specs::Parser::then_by))]
fn struct_of(alloc: Global, tokens: &mut Tokens<'_>, total: usize) -> Result<PieceForm, Stop>
    ensures { Reads (spec.struct_of total (parsers total) tokens.old.rest.now) result tokens.new.rest.now }
{
    let main = maybe_main(tokens)?;
    let access = maybe_access(tokens)?;
    tokens.expect_word(b"struct")?;
    let name = tokens.name(alloc)?;
    let names = names(alloc, tokens)?;
    let body = body(alloc, tokens, total, &names)?;
    Ok(PieceForm::Struct(StructPiece {
        is_main: main.is_some(),
        access,
        name,
        names,
        body,
    }))
}

#[tactic(auto, unfolding(crate::specs::Parse::enum_of, parse_base::specs::Parser::made, parse_base::specs::Parser::both))]
fn enum_of(alloc: Global, tokens: &mut Tokens<'_>, total: usize) -> Result<PieceForm, Stop>
    ensures { Reads (spec.enum_of total (parsers total) tokens.old.rest.now) result tokens.new.rest.now }
{
    let access = maybe_access(tokens)?;
    tokens.expect_word(b"enum")?;
    let name = tokens.name(alloc)?;
    let names = names(alloc, tokens)?;
    tokens.expect(b"{")?;
    let items = enum_lines(alloc, tokens, total)?;
    tokens.expect(b"}")?;
    Ok(PieceForm::Enum(EnumPiece {
        access,
        name,
        names,
        items,
    }))
}

#[tactic(auto, unfolding(crate::specs::Parse::entries, parse_base::specs::Parser::made, parse_base::specs::Parser::both))]
fn entries(alloc: Global, tokens: &mut Tokens<'_>, total: usize) -> Result<PieceForm, Stop>
    ensures { Reads (spec.entries total (parsers total) tokens.old.rest.now) result tokens.new.rest.now }
{
    tokens.expect_word(b"extension")?;
    expect_name(tokens, b"EnvironmentValues")?;
    tokens.expect(b"{")?;
    let found = entry_lines(alloc, tokens, total)?;
    tokens.expect(b"}")?;
    Ok(PieceForm::Environment(found))
}

#[tactic(auto, unfolding(crate::specs::Parse::title, parse_base::specs::Parser::perhaps, parse_base::specs::Parser::made, parse_base::specs::Parser::both))]
fn maybe_title(
    alloc: Global,
    tokens: &mut Tokens<'_>,
    total: usize,
) -> Result<Option<Items<StringPart>>, Stop>
    ensures { Reads (perhaps (starts (a_sign (codes "("))) (spec.title (parsers total)) tokens.old.rest.now) result tokens.new.rest.now }
{
    if tokens.sees(b"(") {
        tokens.expect(b"(")?;
        let found = string(alloc, tokens, total)?;
        tokens.expect(b")")?;
        Ok(Some(found))
    } else {
        Ok(None)
    }
}

#[tactic(auto, unfolding(crate::specs::Parse::preview, parse_base::specs::Parser::made, parse_base::specs::Parser::both))]
fn preview(alloc: Global, tokens: &mut Tokens<'_>, total: usize) -> Result<PieceForm, Stop>
    ensures { Reads (spec.preview (parsers total) tokens.old.rest.now) result tokens.new.rest.now }
{
    tokens.expect_directive(b"#Preview")?;
    let title = maybe_title(alloc, tokens, total)?;
    tokens.expect(b"{")?;
    aside(alloc, tokens)?;
    tokens.expect(b"}")?;
    Ok(PieceForm::Preview(title))
}

#[tactic(auto, unfolding(crate::specs::Parse::piece_form_of, parse_base::specs::Parser::choose))]
fn form_of(alloc: Global, tokens: &mut Tokens<'_>, total: usize) -> Result<PieceForm, Stop>
    ensures { Reads (spec.piece_form_of total (parsers total) tokens.old.rest.now) result tokens.new.rest.now }
{
    if tokens.sees_word(b"import") {
        import_of(alloc, tokens)
    } else if begins_struct(tokens) {
        struct_of(alloc, tokens, total)
    } else if begins_enum(tokens) {
        enum_of(alloc, tokens, total)
    } else if tokens.sees_word(b"extension") {
        entries(alloc, tokens, total)
    } else {
        preview(alloc, tokens, total)
    }
}

/// A piece, in a file of which `total` tokens stand up to its end.
#[tactic(auto, unfolding(crate::specs::Parse::piece_of, parse_base::specs::Parser::spanned))]
pub fn piece_of(alloc: Global, tokens: &mut Tokens<'_>, total: usize) -> Result<Piece, Stop>
    ensures { Reads (spec.piece_of total (parsers total) tokens.old.rest.now) result tokens.new.rest.now }
{
    let before = tokens.rest;
    let form = form_of(alloc, tokens, total)?;
    let span = tokens.span_since(total, before);
    Ok(Piece { span, form })
}
