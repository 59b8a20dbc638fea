ghost use Rattle.std.specs.Prelude.{◌≡◌, ℕ, ◌+◌, ◌≤◌, ◌<◌, ◌^◌, ◌++◌, List, false, length, IfSome};
ghost use Rattle.swift_lex.specs.declared.token.Token as lex;
ghost use Rattle.token_brackets.specs.Brackets as spec;
ghost use Rattle.token_brackets.specs.Balance.{Balanced};
ghost use Rattle.token_brackets.specs.Piece.{FirstPiece, Pieces, begins_import};
ghost use Rattle.token_brackets.specs.PieceLength as machine;

use crate::brackets::{Bracket, Shape, bracket_of};
use swift_lex::{Token, TokenKind};

/// Where a place stands in a piece: within how many brackets, and whether the piece's first brace was seen.
#[derive(Clone, Copy, Debug, PartialEq, Eq)]
pub struct Within {
    pub depth: usize,
    pub braced: bool,
}

fn is_import(token: &Token) -> bool
    ensures { result ≡ spec.is_import token.now }
{
    match &token.kind {
        TokenKind::Reserved(word) => word.is(b"import"),
        _ => false,
    }
}

fn is_name(token: &Token) -> bool
    ensures { result ≡ spec.is_name token.now }
{
    match &token.kind {
        TokenKind::Name(_) => true,
        _ => false,
    }
}

fn begins_import(tokens: &[Token]) -> bool
    ensures { result ≡ begins_import tokens.now }
{
    match tokens {
        [first, second, ..] => is_import(first) && is_name(second),
        _ => false,
    }
}

fn stepped(token: &Token, at: Within) -> Option<Within>
    requires { at.depth < 2 ^ 63 }
    ensures value { result ≡ machine.stepped (spec.bracket_of token.now) at }
    ensures within { IfSome result (λ w. w.depth ≤ at.depth + 1) }
{
    match bracket_of(token) {
        None => Some(at),
        Some(Bracket::Opens(shape)) => Some(Within {
            depth: at.depth + 1,
            braced: at.braced || (at.depth == 0 && shape == Shape::Curly),
        }),
        Some(Bracket::Closes(_)) => {
            if at.braced && at.depth <= 1 {
                None
            } else {
                Some(Within {
                    depth: at.depth.saturating_sub(1),
                    braced: at.braced,
                })
            }
        }
    }
}

#[tactic(auto, using(crate::proofs::Cuts::len_turn, crate::proofs::Cuts::len_end, crate::proofs::Cuts::len_none, crate::proofs::Cuts::len_some))]
/// How many tokens go up to the partner of the first brace that stands in no bracket, or up to the end.
fn braced_len(tokens: &[Token]) -> usize
    ensures value { result ≡ machine.braced_len machine.outside tokens.now }
    ensures within { result ≤ length tokens.now }
{
    let mut at = Within {
        depth: 0,
        braced: false,
    };
    for (i, token) in tokens.iter().enumerate() {
        match stepped(token, at) {
            None => return i + 1,
            Some(after) => at = after,
        }
    }
    tokens.len()
}

#[tactic(auto, unfolding(crate::specs::PieceLength::piece_len))]
fn piece_len(tokens: &[Token]) -> usize
    ensures value { result ≡ machine.piece_len tokens.now }
    ensures within { result ≤ length tokens.now }
{
    if begins_import(tokens) {
        2
    } else {
        braced_len(tokens)
    }
}

#[tactic(auto, using(crate::proofs::Cuts::first_is, crate::proofs::Cuts::behind_is, crate::proofs::Cuts::only_first, crate::proofs::Cuts::some_first))]
/// The first piece of a balanced text, and what stands behind it. A piece ends after the name of an `import` that
/// begins it, else at the partner of its first `{` that stands in no bracket of it, else at the end of the text.
pub fn first_piece<'a>(tokens: &'a [Token]) -> (&'a [Token], &'a [Token])
    requires { Balanced tokens.now }
    ensures whole { tokens.now ≡ result.0.now ++ result.1.now }
    ensures first { FirstPiece result.0.now result.1.now }
    ensures behind { Balanced result.1.now }
    ensures some { 0 < length tokens.now → 0 < length result.0.now }
    ensures only { (piece rest : List lex.Token) → FirstPiece piece rest → tokens.now ≡ piece ++ rest → piece ≡ result.0.now }
{
    tokens.split_at(piece_len(tokens))
}

/// A balanced text is cut into pieces, and in one way.
pub fn one_cut(tokens: &[Token])
    requires { Balanced tokens.now }
    ensures cut { (pieces : List (List lex.Token)) × Pieces tokens.now pieces }
    ensures one { (pieces others : List (List lex.Token)) → Pieces tokens.now pieces → Pieces tokens.now others → pieces ≡ others }
{
    let _ = tokens;
}
