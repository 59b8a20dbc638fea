ghost use Rattle.std.specs.Prelude.{◌≡◌, ◌<◌, ◌≤◌, ◌^◌, ◌++◌, length, IfOk, IfSome, OnOk, MatchResult, Result};
ghost use Rattle.swift_lex.specs.Tokens as spec;

use crate::brackets::Brackets;
use crate::fault::LexFault;
use crate::item::{Item, item_at, pass};
use crate::place::{Place, gap_behind, moved};
use crate::token::{Gap, Token, TokenKind};
use std::alloc::{AllocError, Global};

fn without_mark(bytes: &[u8]) -> &[u8]
    ensures value { result.now ≡ spec.without_mark bytes.now }
    ensures within { length result.now ≤ length bytes.now }
{
    if bytes.starts_with(&[0xEF, 0xBB, 0xBF]) {
        let (_, text) = bytes.split_at(3);
        text
    } else {
        bytes
    }
}

fn push(found: &mut Vec<Token>, kind: Option<TokenKind>, place: Place) -> Result<(), AllocError>
    ensures { OnOk result (found.new.items ≡ found.old.items ++ spec.token_of kind place) }
{
    if let Some(kind) = kind {
        found.push(Token {
            kind,
            line: place.line,
            col: place.col,
            gap: place.gap,
        })?;
    }
    Ok(())
}

fn is_done(brackets: &Brackets, in_text: bool, bytes: &[u8]) -> bool
    ensures { result ≡ spec.is_done brackets.now in_text bytes.now }
{
    bytes.is_empty() && (!in_text && brackets.is_empty())
}

#[tactic(auto, using(crate::proofs::LexTurns::lex_start, crate::proofs::LexTurns::lex_turn, crate::proofs::LexTurns::lex_end))]
fn tokens_of(alloc: Global, text: &[u8]) -> Result<Vec<Token>, LexFault>
    requires { length text.now ≤ 1048576 }
    ensures { MatchResult result (λ v. spec.tokens_of text.now ≡ Ok v.items) (λ e. spec.IsFaultOf (spec.tokens_of text.now) e) }
{
    let mut found = Vec::new(alloc);
    let mut brackets = Brackets::new(alloc);
    let mut in_text = false;
    let mut place = Place {
        line: 1,
        col: 1,
        gap: Gap::NewLine,
    };
    let mut rest = text;
    for _turn in 0..text.len() + 1 {
        if is_done(&brackets, in_text, rest) {
            return Ok(found);
        }
        let Some(Item { len, token }) = item_at(alloc, &brackets, in_text, rest)? else {
            return Err(LexFault::At {
                line: place.line,
                col: place.col,
            });
        };
        in_text = pass(&token, &mut brackets, in_text)?;
        let (front, after) = rest.split_at(len);
        let gap = gap_behind(token.is_some(), place.gap);
        push(&mut found, token, place)?;
        place = moved(
            front,
            Place {
                line: place.line,
                col: place.col,
                gap,
            },
        );
        rest = after;
    }
    Ok(found)
}

/// The tokens of a source in UTF-8, a byte order mark at its start left out,
/// or the first place where neither a token nor a separator begins.
pub fn lex(alloc: Global, bytes: &[u8]) -> Result<Vec<Token>, LexFault>
    requires limit { length bytes.now ≤ 1048576 }
    ensures exact { MatchResult result (λ v. spec.tokens bytes.now ≡ Ok v.items) (λ e. spec.IsFaultOf (spec.tokens bytes.now) e) }
{
    tokens_of(alloc, without_mark(bytes))
}
