ghost use Rattle.std.specs.Prelude.{◌≡◌, Result};
ghost use Rattle.swift_ast.specs.declared.piece.Source as ast;
ghost use Rattle.swift_parse.specs.declared.faults.ParseFault as faults;
ghost use Rattle.token_brackets.specs.Balance.{Balanced};
ghost use Rattle.parse_base.specs.Spans.{line_of};
ghost use Rattle.swift_parse.specs.File.{Agrees, BracketsPass, IsAnswer, IsPieces, ReadsPiece};

use crate::faults::ParseFault;
use crate::pieces::piece_of;
use parse_base::{Stop, Tokens};
use std::alloc::Global;
use sv_items::Items;
use swift_ast::{Piece, Source};
use swift_lex::Token;
use token_brackets::{first_piece, too_nested, unbalanced};

/// The tree of all of these tokens, which end behind `total` tokens of the file.
fn whole_piece(alloc: Global, tokens: &[Token], total: usize) -> Result<Piece, Stop>
    ensures { ReadsPiece total tokens.now result }
{
    let mut left = Tokens { rest: tokens };
    match piece_of(alloc, &mut left, total) {
        Err(stop) => Err(stop),
        Ok(piece) => {
            if left.rest.is_empty() {
                Ok(piece)
            } else {
                Err(Stop::Refused)
            }
        }
    }
}

fn line_of(tokens: &[Token]) -> u32
    ensures { result ≡ line_of tokens.now }
{
    match tokens {
        [] => 0,
        [first, ..] => first.line,
    }
}

/// The trees of all pieces.
fn pieces(alloc: Global, tokens: &[Token]) -> Result<Items<Piece>, ParseFault>
    requires { Balanced tokens.now }
    ensures { IsPieces tokens.now result }
{
    let mut found = Items::new(alloc);
    let mut rest = tokens;
    let mut before: usize = 0;
    for _turn in 0..tokens.len() {
        if rest.is_empty() {
            return Ok(found);
        }
        let (piece, behind) = first_piece(rest);
        before += piece.len();
        match whole_piece(alloc, piece, before) {
            Ok(tree) => found.push(tree)?,
            Err(Stop::Memory) => return Err(ParseFault::OutOfMemory),
            Err(Stop::Refused) => {
                return Err(ParseFault::NotADeclaration {
                    line: line_of(piece),
                });
            }
        }
        rest = behind;
    }
    Ok(found)
}

fn source(alloc: Global, tokens: &[Token]) -> Result<Source, ParseFault>
    requires { BracketsPass tokens.now }
    ensures { IsAnswer tokens.now result }
{
    match pieces(alloc, tokens) {
        Err(fault) => Err(fault),
        Ok(pieces) => {
            let end = Tokens { rest: &[] };
            let span = end.span_since(tokens.len(), tokens);
            Ok(Source { span, pieces })
        }
    }
}

fn answer(alloc: Global, tokens: &[Token]) -> Result<Source, ParseFault>
    ensures { IsAnswer tokens.now result }
{
    if let Some(line) = unbalanced(alloc, tokens)? {
        return Err(ParseFault::Unbalanced { line });
    }
    if let Some(line) = too_nested(tokens) {
        return Err(ParseFault::TooNested { line });
    }
    source(alloc, tokens)
}

/// The syntax tree of a file, or why there is none: the first bracket without its partner, else the first one that
/// stands within 64 others, else the first piece that the grammar does not spell. There is one such answer, and it
/// comes unless memory runs out.
pub fn parse(alloc: Global, tokens: Vec<Token>) -> Result<Source, ParseFault>
    ensures answer { IsAnswer tokens.items result }
    ensures only { (other : Result ast.Source faults.ParseFault) → IsAnswer tokens.items other → Agrees result other }
{
    answer(alloc, &tokens)
}
